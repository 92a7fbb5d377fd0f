//! A macro that the source defines as a plain word, and the places of its name.

ghost use Rattle.std.specs.Prelude.{◌≡◌, ◌≤◌, ◌+◌, ◌&&◌, nat_lt, true, length, slice_range, slice_index, IfOk, IsTrue};
ghost use Rattle.std.specs.List.{list_all};
ghost use Rattle.port_definitions.specs.Defined as specs;

use crate::definition::{begins_word, ends_word, has_name, is_of_name};
use std::alloc::{AllocError, Global};

/// Where a definition of a name as a plain word is, and its parts.
#[derive(Clone, Copy)]
pub struct WordSpot {
    pub start: usize,
    pub end: usize,
    pub name_start: usize,
    pub name_end: usize,
    pub word_start: usize,
    pub word_end: usize,
}

/// Returns the text of a definition.
#[tactic(auto, unfolding(crate::specs::Defined::definition_of))]
fn spelled(alloc: Global, name: &[u8], word: &[u8]) -> Result<Vec<u8>, AllocError>
    ensures { IfOk result (λ v. v.items ≡ specs.definition_of name.now word.now) }
{
    let mut out = Vec::from_slice(alloc, b"define(")?;
    out.extend_from_slice(name)?;
    out.extend_from_slice(b", ")?;
    out.extend_from_slice(word)?;
    out.push(b')')?;
    Ok(out)
}

/// Returns whether the byte may be in a plain word.
pub(crate) fn is_plain_byte(byte: u8) -> bool
    ensures { result ≡ specs.is_plain_byte byte }
{
    byte.is_ascii_digit() || byte == b'.' || byte == b'-'
}

/// Returns whether a text has nothing but bytes of a plain word.
fn are_plain(text: &[u8]) -> bool
    ensures { result ≡ list_all specs.is_plain_byte text.now }
{
    text.iter().all(|byte| is_plain_byte(*byte))
}

/// Returns whether a text has nothing but bytes of a name.
fn are_of_name(text: &[u8]) -> bool
    ensures { result ≡ list_all specs.is_of_name text.now }
{
    text.iter().all(|byte| is_of_name(*byte))
}

/// Returns whether a text is a name.
pub(crate) fn is_name(text: &[u8]) -> bool
    ensures { result ≡ (nat_lt 0 (length text.now) && list_all specs.is_of_name text.now) }
{
    0 < text.len() && are_of_name(text)
}

/// Returns whether a text is between two offsets.
fn is_between(text: &[u8], start: usize, end: usize, expected: &[u8]) -> bool
    ensures { IsTrue result → slice_range text.now start end ≡ expected.now }
{
    start <= end && end <= text.len() && &text[start..end] == expected
}

/// Returns whether a name is defined as a word at a place.
#[tactic(auto, using(crate::proofs::Made::defines_word))]
pub fn is_word_definition(
    alloc: Global,
    text: &[u8],
    spot: WordSpot,
    name: &[u8],
    word: &[u8],
) -> Result<bool, AllocError>
    ensures { IfOk result (λ b.
        IsTrue b → specs.DefinesWord text.now spot.start spot.end name.now word.now) }
{
    if !is_name(name) || !are_plain(word) {
        return Ok(false);
    }
    let expected = spelled(alloc, name, word)?;
    Ok(is_between(text, spot.start, spot.end, expected.as_slice()))
}

/// Returns whether no parenthesis is at an offset.
fn has_no_argument(text: &[u8], at: usize) -> bool
    ensures { IsTrue result → slice_index text.now at ≡ 40 → ⊥ }
{
    at >= text.len() || text[at] != b'('
}

/// Returns whether m4 takes the name at an offset for a macro without arguments.
pub fn is_plain_use(text: &[u8], at: usize, name: &[u8]) -> bool
    requires { at ≤ length text.now }
    ensures yes { IsTrue result → specs.IsPlainUse text.now at name.now }
    ensures fits { IsTrue result → at + length name.now ≤ length text.now }
{
    has_name(text, at, name)
        && begins_word(text, at)
        && ends_word(text, at + name.len())
        && has_no_argument(text, at + name.len())
}
