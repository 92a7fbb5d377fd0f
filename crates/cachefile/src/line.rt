//! Lines of a cache file.

ghost use Rattle.std.specs.Prelude.{◌≡◌, ◌≤◌, length, IfOk, Some, None, option_map, option_and_then};
ghost use Rattle.cachefile.specs.Name as names;
ghost use Rattle.cachefile.specs.Word as spelt;
ghost use Rattle.cachefile.specs.Line as words;
ghost use Rattle.cachefile.specs.Line.{Sets, Defaults};

use crate::entry::Entry;
use crate::word::value_in;
use deftable::Bytes;
use std::alloc::{AllocError, Global};
use text_cut::is_space;

// 1 for each byte of a word, and 0 for the others.
static WORD_BYTES: [u8; 256] = *b"\
    00000000000000000000000000000000\
    00000000000000001111111111000000\
    01111111111111111111111111100001\
    01111111111111111111111111100000\
    00000000000000000000000000000000\
    00000000000000000000000000000000\
    00000000000000000000000000000000\
    00000000000000000000000000000000";

fn is_word_byte(byte: u8) -> bool
    ensures { result ≡ names.is_word_byte byte }
{
    WORD_BYTES[byte as usize] == b'1'
}

// Returns the number of letters, digits and `_` at the front.
fn word_len(text: &[u8]) -> usize
    ensures value { result ≡ words.word_len text.now }
    ensures within { result ≤ length text.now }
{
    text.iter().take_while(|byte| is_word_byte(**byte)).count()
}

// Returns the longest word at the front and the text after it, or `None` if that word is empty.
#[tactic(auto, unfolding(crate::specs::Line::front_word))]
fn front_word(text: &[u8]) -> Option<(&[u8], &[u8])>
    ensures { option_map (λ p. (p.0.now, p.1.now)) result ≡ words.front_word text.now }
{
    let len = word_len(text);
    if len == 0 {
        return None;
    }
    Some((&text[..len], &text[len..]))
}

// Returns the text after the front, or `None` if it doesn't begin with it.
fn rest_after<'a>(front: &[u8], text: &'a [u8]) -> Option<&'a [u8]>
    ensures { option_map (λ t. t.now) result ≡ words.rest_after front.now text.now }
{
    text.strip_prefix(front)
}

// Returns the text before a final `}`, or `None` if it doesn't end with one.
fn before_brace(text: &[u8]) -> Option<&[u8]>
    ensures { option_map (λ t. t.now) result ≡ words.before_brace text.now }
{
    text.strip_suffix(b"}")
}

// Returns the text after the name and `=`.
fn rest_after_name<'a>(name: &[u8], text: &'a [u8]) -> Option<&'a [u8]>
    ensures { option_map (λ t. t.now) result ≡ words.rest_after_name name.now text.now }
{
    rest_after(b"=", rest_after(name, text)?)
}

// Returns whether the line is empty except for spaces, tabs and a comment.
#[tactic(auto, using(crate::proofs::Fronts::nothing_more, crate::proofs::Fronts::nothing_stop, crate::proofs::Fronts::nothing_end))]
fn sets_nothing(line: &[u8]) -> bool
    ensures { result ≡ words.sets_nothing line.now }
{
    for byte in line {
        if !is_space(*byte) {
            return *byte == b'#';
        }
    }
    true
}

// Returns the entry that gives the name a default, or `None` if the text is no word.
fn default_entry(
    alloc: Global,
    braced: bool,
    name: &[u8],
    word: &[u8],
) -> Result<Option<Entry>, AllocError>
    ensures { IfOk result (λ e.
        e ≡ option_map (λ v. Defaults name.now v) (spelt.value_in braced word.now)) }
{
    let Some(value) = value_in(alloc, braced, word)? else {
        return Ok(None);
    };
    Ok(Some(Entry::new(Bytes::from_slice(alloc, name)?, value, true)))
}

// Returns the entry that sets the name, or `None` if the text is no word.
fn plain_entry(alloc: Global, name: &[u8], word: &[u8]) -> Result<Option<Entry>, AllocError>
    ensures { IfOk result (λ e. e ≡ words.plain_setting name.now word.now) }
{
    let Some(value) = value_in(alloc, false, word)? else {
        return Ok(None);
    };
    Ok(Some(Entry::new(Bytes::from_slice(alloc, name)?, value, false)))
}

// Returns the entry of `V=${V=W}`, from the text after `${`.
#[tactic(auto, unfolding(crate::specs::Line::default_setting))]
fn default_setting(alloc: Global, name: &[u8], text: &[u8]) -> Result<Option<Entry>, AllocError>
    ensures { IfOk result (λ e. e ≡ words.default_setting name.now text.now) }
{
    let Some(rest) = rest_after_name(name, text) else {
        return Ok(None);
    };
    let Some(word) = before_brace(rest) else {
        return Ok(None);
    };
    default_entry(alloc, true, name, word)
}

// Returns the entry of `V=${V=W}` or `V=W`, from the text after the first `=`.
#[tactic(auto, unfolding(crate::specs::Line::assigned_setting))]
fn assigned_setting(alloc: Global, name: &[u8], text: &[u8]) -> Result<Option<Entry>, AllocError>
    ensures { IfOk result (λ e. e ≡ words.assigned_setting name.now text.now) }
{
    match rest_after(b"${", text) {
        Some(rest) => default_setting(alloc, name, rest),
        None => plain_entry(alloc, name, text),
    }
}

// Returns the entry of a line that begins with `V=`.
#[tactic(auto, unfolding(crate::specs::Line::assignment))]
fn assignment(alloc: Global, line: &[u8]) -> Result<Option<Entry>, AllocError>
    ensures { IfOk result (λ e. e ≡ words.assignment line.now) }
{
    let Some((name, rest)) = front_word(line) else {
        return Ok(None);
    };
    let Some(text) = rest_after(b"=", rest) else {
        return Ok(None);
    };
    assigned_setting(alloc, name, text)
}

// Returns the entry of a line with a test, from the text at its first V; `middle` is what is
// between V and `V=W`.
#[tactic(auto, unfolding(crate::specs::Line::guarded_setting))]
fn guarded_setting(alloc: Global, middle: &[u8], text: &[u8]) -> Result<Option<Entry>, AllocError>
    ensures { IfOk result (λ e. e ≡ words.guarded_setting middle.now text.now) }
{
    let Some((name, rest)) = front_word(text) else {
        return Ok(None);
    };
    let Some(rest) = rest_after(middle, rest) else {
        return Ok(None);
    };
    let Some(word) = rest_after_name(name, rest) else {
        return Ok(None);
    };
    default_entry(alloc, false, name, word)
}

// Returns whether the line may be one with a test. Most lines of a cache are not.
#[tactic(auto, unfolding(crate::specs::Line::may_test))]
fn may_test(line: &[u8]) -> bool
    ensures { result ≡ words.may_test line.now }
{
    match line {
        [b't', ..] => true,
        _ => false,
    }
}

// Returns the entry of a line that sets a name.
#[tactic(auto, using(crate::proofs::Fronts::untested), unfolding(crate::specs::Line::setting_of))]
fn setting(alloc: Global, line: &[u8]) -> Result<Option<Entry>, AllocError>
    ensures { IfOk result (λ e. e ≡ words.setting_of line.now) }
{
    if !may_test(line) {
        return assignment(alloc, line);
    }
    if let Some(text) = rest_after(b"test ${", line) {
        return guarded_setting(alloc, b"+y} || ", text);
    }
    if let Some(text) = rest_after(b"test \"${", line) {
        return guarded_setting(alloc, b"+set}\" = set || ", text);
    }
    assignment(alloc, line)
}

/// Returns the entry of the line, if it has one, or `None` if the line has none of the forms.
#[tactic(auto, unfolding(crate::specs::Line::line_of))]
pub(crate) fn line(alloc: Global, text: &[u8]) -> Result<Option<Option<Entry>>, AllocError>
    ensures { IfOk result (λ e. e ≡ words.line_of text.now) }
{
    if sets_nothing(text) {
        return Ok(Some(None));
    }
    let Some(entry) = setting(alloc, text)? else {
        return Ok(None);
    };
    Ok(Some(Some(entry)))
}
