//! Blanks, words, and where a statement may begin and end.

ghost use Rattle.std.specs.Prelude.{◌≡◌, ◌⊎◌, ◌-◌, ◌<◌, ◌≤◌, true, false, length, slice_index, codes, IsTrue};
ghost use Rattle.std.specs.List.{list_all};
ghost use Rattle.port_parts.specs.Parts.{IsStatement};
ghost use Rattle.port_parts.specs.Places as specs;

use crate::lines::ends_comment;
pub(crate) use text_cut::{is_blank_or_return, is_space_or_return};

/// Returns whether a blank is at an offset.
pub fn is_blank_at(text: &[u8], at: usize) -> bool
    ensures { IsTrue result → specs.is_blank_or_return (slice_index text.now at) ≡ true }
{
    at < text.len() && is_blank_or_return(text[at])
}

/// Returns whether there are blanks and newlines alone.
pub fn are_blank(text: &[u8]) -> bool
    ensures { result ≡ list_all specs.is_blank_or_return text.now }
{
    text.iter().all(|byte| is_blank_or_return(*byte))
}

/// Returns whether there are spaces alone.
pub fn are_spaces(text: &[u8]) -> bool
    ensures { result ≡ list_all specs.is_space_or_return text.now }
{
    text.iter().all(|byte| is_space_or_return(*byte))
}

/// Returns whether this word is between two offsets.
pub fn is_word(text: &[u8], start: usize, word: &[u8], end: usize) -> bool
    ensures { IsTrue result → specs.IsWord text.now start word.now end }
{
    start <= end && end <= text.len() && &text[start..end] == word
}

/// Returns the offset after the spaces that are at an offset.
pub fn after_spaces(text: &[u8], at: usize) -> usize {
    for i in at..text.len() {
        if !is_space_or_return(text[i]) {
            return i;
        }
    }
    text.len().max(at)
}

/// Returns the offset of the spaces before an offset, but none before `start`.
pub fn before_spaces(text: &[u8], start: usize, at: usize) -> usize {
    for i in (start..at.min(text.len())).rev() {
        if !is_space_or_return(text[i]) {
            return i.saturating_add(1);
        }
    }
    start.min(at)
}

/// Returns whether a statement may begin after the byte.
fn begins_list(byte: u8) -> bool
    ensures { result ≡ specs.begins_list byte }
{
    byte == b'\n' || byte == b';' || byte == b'[' || byte == b')'
}

/// Returns whether the byte before an offset is a newline after which a comment would go on.
fn is_in_comment(text: &[u8], at: usize) -> bool
    requires { (0 < at) × (at ≤ length text.now) }
    ensures { result ≡ false
        → slice_index text.now (at - 1) ≡ 10
        → specs.EndsComment text.now (at - 1) }
{
    text[at - 1] == b'\n' && !ends_comment(text, at - 1)
}

/// Returns whether an offset is after a byte after which a statement may begin.
fn is_after(text: &[u8], at: usize) -> bool
    ensures { IsTrue result → specs.IsAfterByte text.now at }
{
    0 < at && at <= text.len() && begins_list(text[at - 1]) && !is_in_comment(text, at)
}

/// Returns whether an offset is the first of a text, or after a byte after which a statement may
/// begin.
fn is_after_byte(text: &[u8], at: usize) -> bool
    ensures { IsTrue result → (at ≡ 0) ⊎ specs.IsAfterByte text.now at }
{
    at == 0 || is_after(text, at)
}

/// Returns whether `then` or `else` is before an offset.
fn is_after_word(text: &[u8], at: usize) -> bool
    ensures { IsTrue result
        → specs.IsWord text.now (at - 4) (codes "then") at
        ⊎ specs.IsWord text.now (at - 4) (codes "else") at }
{
    let start = at.saturating_sub(4);
    is_word(text, start, b"then", at) || is_word(text, start, b"else", at)
}

/// Returns whether a statement may begin at an offset.
fn is_list_start(text: &[u8], at: usize) -> bool
    ensures { IsTrue result → specs.IsListStart text.now at }
{
    is_after_byte(text, at) || is_after_word(text, at)
}

/// Returns whether a statement may begin at an offset, or before the spaces before it.
pub fn begins_statement(text: &[u8], start: usize) -> bool
    ensures { IsTrue result → specs.BeginsStatement text.now start }
{
    let from = before_spaces(text, 0, start);
    from <= start
        && start <= text.len()
        && is_list_start(text, from)
        && are_spaces(&text[from..start])
}

/// Returns whether a statement may end before the byte.
fn ends_list(byte: u8) -> bool
    ensures { result ≡ specs.ends_list byte }
{
    byte == b'\n' || byte == b';' || byte == b'#' || byte == b']'
}

/// Returns whether a statement may end at an offset.
fn is_list_end(text: &[u8], at: usize) -> bool
    ensures { IsTrue result
        → (at ≡ length text.now) ⊎ (specs.ends_list (slice_index text.now at) ≡ true) }
{
    if at >= text.len() {
        return at == text.len();
    }
    ends_list(text[at])
}

/// Returns whether a comment begins at an offset.
fn is_comment(text: &[u8], at: usize) -> bool
    ensures { result ≡ false → slice_index text.now at ≡ 35 → ⊥ }
{
    at < text.len() && text[at] == b'#'
}

/// Returns whether a statement ends at an offset, or after the spaces after it.
pub fn ends_statement(text: &[u8], end: usize) -> bool
    ensures { IsTrue result → specs.EndsStatement text.now end }
{
    let to = after_spaces(text, end);
    end <= to
        && to <= text.len()
        && !is_comment(text, end)
        && are_spaces(&text[end..to])
        && is_list_end(text, to)
}

/// Returns whether a statement of its own may be between two offsets, which ends in a word at a
/// third one.
pub fn is_statement(text: &[u8], start: usize, last: &[u8], at: usize, end: usize) -> bool
    ensures { IsTrue result → IsStatement text.now start last.now at end }
{
    is_word(text, at, last, end) && begins_statement(text, start) && ends_statement(text, end)
}
