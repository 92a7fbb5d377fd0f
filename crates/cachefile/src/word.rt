//! Shell words that stand for values.

ghost use Rattle.std.specs.Prelude.{◌≡◌, ◌++◌, ◌∷◌, [], IfOk, option_map, OnOk, Bool};
ghost use Rattle.std.specs.List.{list_all};
ghost use Rattle.cachefile.specs.Word as words;
ghost use Rattle.cachefile.specs.declared.word.Quoting.TheVariants.{Unquoted};

use deftable::Bytes;
use std::alloc::{AllocError, Global};

/// How the next byte of a word is quoted.
#[derive(Clone, Copy)]
pub(crate) enum Quoting {
    Unquoted,
    Single,
    Double,
    /// By a backslash before it.
    Escaped,
}

// Returns whether the byte stands for itself outside quotes.
fn is_bare(braced: bool, byte: u8) -> bool
    ensures { result ≡ words.is_bare braced byte }
{
    !(matches!(
        byte,
        b' ' | b'\t' | b'\n' | b'\'' | b'"' | b'\\' | b'$' | b'`'
    ) || matches!(byte, b';' | b'&' | b'|' | b'<' | b'>' | b'(' | b')')
        || (braced && byte == b'}'))
}

// Returns what `step` does for a byte outside quotes.
#[tactic(auto, unfolding(crate::specs::Word::step))]
fn unquoted_step(braced: bool, byte: u8) -> Option<(Quoting, bool)>
    ensures { option_map (λ s. (s.0, words.added s.1 byte)) result
        ≡ words.step braced Unquoted byte }
{
    match byte {
        b'\'' => Some((Quoting::Single, false)),
        b'"' => Some((Quoting::Double, false)),
        b'\\' => Some((Quoting::Escaped, false)),
        _ if is_bare(braced, byte) => Some((Quoting::Unquoted, true)),
        _ => None,
    }
}

// Returns how the byte after this one is quoted, and whether this one is part of the value.
#[tactic(auto, unfolding(crate::specs::Word::step))]
fn step(braced: bool, quoting: Quoting, byte: u8) -> Option<(Quoting, bool)>
    ensures { option_map (λ s. (s.0, words.added s.1 byte)) result
        ≡ words.step braced quoting byte }
{
    match quoting {
        Quoting::Unquoted => unquoted_step(braced, byte),
        Quoting::Single => {
            if byte == b'\'' {
                return Some((Quoting::Unquoted, false));
            }
            Some((Quoting::Single, true))
        }
        Quoting::Double => {
            if byte == b'"' {
                return Some((Quoting::Unquoted, false));
            }
            if byte == b'$' || byte == b'`' || byte == b'\\' {
                return None;
            }
            Some((Quoting::Double, true))
        }
        Quoting::Escaped => Some((Quoting::Unquoted, true)),
    }
}

// Returns the value, if the word may end here.
fn value_at_end(quoting: Quoting, value: Vec<u8>) -> Option<Bytes>
    ensures { result ≡ option_map (λ v. value.items ++ v) (words.at_end quoting) }
{
    match quoting {
        Quoting::Unquoted => Some(Bytes::from_vec(value)),
        _ => None,
    }
}

fn push_if(value: &mut Vec<u8>, is_added: bool, byte: u8) -> Result<(), AllocError>
    ensures { OnOk result (value.new.items ≡ value.old.items ++ words.added is_added byte) }
{
    if is_added {
        value.push(byte)?;
    }
    Ok(())
}

// Returns the value of the word, or `None` if the text isn't one, byte by byte.
#[tactic(auto, using(crate::proofs::Loops::read_more, crate::proofs::Loops::read_stop, crate::proofs::Loops::read_end))]
fn read_word(alloc: Global, braced: bool, word: &[u8]) -> Result<Option<Bytes>, AllocError>
    ensures { IfOk result (λ v. v ≡ words.value_in braced word.now) }
{
    let mut value = Vec::new(alloc);
    let mut quoting = Quoting::Unquoted;
    'bytes: for byte in word {
        let Some((next, is_added)) = step(braced, quoting, *byte) else {
            return Ok(None);
        };
        quoting = next;
        push_if(&mut value, is_added, *byte)?;
    }
    Ok(value_at_end(quoting, value))
}

/// Returns the value of the word, or `None` if the text isn't one. A braced word is inside
/// `${V=W}`.
#[tactic(auto, using(crate::proofs::Words::safe_reads))]
pub(crate) fn value_in(
    alloc: Global,
    braced: bool,
    word: &[u8],
) -> Result<Option<Bytes>, AllocError>
    ensures { IfOk result (λ v. v ≡ words.value_in braced word.now) }
{
    // Most words have no quotes.
    if are_safe(word) {
        let value = Bytes::from_slice(alloc, word)?;
        return Ok(Some(value));
    }
    read_word(alloc, braced, word)
}

fn is_safe(byte: u8) -> bool
    ensures { result ≡ words.is_safe byte }
{
    byte.is_ascii_alphanumeric() || matches!(byte, b'_' | b'.' | b'/' | b':' | b',' | b'+' | b'-')
}

fn push_quoted(word: &mut Vec<u8>, byte: u8) -> Result<(), AllocError>
    ensures { OnOk result (word.new.items ≡ word.old.items ++ words.quoted_byte byte) }
{
    if byte == b'\'' {
        return word.extend_from_slice(b"'\\''");
    }
    word.push(byte)?;
    Ok(())
}

fn are_safe(value: &[u8]) -> bool
    ensures { result ≡ list_all words.is_safe value.now }
{
    value.iter().all(|byte| is_safe(*byte))
}

fn quoted(alloc: Global, value: &[u8]) -> Result<Bytes, AllocError>
    ensures { IfOk result (λ w. w ≡ 39 ∷ (words.quoted_text value.now ++ 39 ∷ [])) }
{
    let mut word = Vec::from_slice(alloc, b"'")?;
    'bytes: for byte in value {
        push_quoted(&mut word, *byte)?;
    }
    word.push(b'\'')?;
    Ok(Bytes::from_vec(word))
}

/// Returns a shell word that stands for the value: the value itself if each byte is a letter, a
/// digit or one of `_./:,+-`, and otherwise the value in single quotes, with `'\''` for each `'`
/// (own).
///
/// The word of the empty value is empty. A value with a newline has a word too, but no line of a
/// cache text can hold it.
#[tactic(auto, unfolding(crate::specs::Word::word_of))]
pub fn word_text(alloc: Global, value: &[u8]) -> Result<Bytes, AllocError>
    ensures exact { IfOk result (λ w. w ≡ words.word_of value.now) }
    // The word stands for the value, inside `${V=W}` and outside.
    ensures reads_back { IfOk result (λ w. (braced : Bool) → words.IsWord braced w value.now) }
{
    if are_safe(value) {
        return Bytes::from_slice(alloc, value);
    }
    quoted(alloc, value)
}
