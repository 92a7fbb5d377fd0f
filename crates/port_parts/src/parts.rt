//! The parts of a statement: conditions and bodies.

ghost use Rattle.std.specs.Prelude.{◌≡◌, ◌⊎◌, ◌≤◌, ◌<◌, ◌+◌, ◌-◌, [], ◌∷◌, length, IfOk, IfSome, IsTrue, false, slice_index, slice_range};
ghost use Rattle.std.specs.List.{list_any};
ghost use Rattle.m4quote.specs.ItemValue.{bare, view, views};
ghost use Rattle.m4quote.specs.Spelling.{IsSpelling};
ghost use Rattle.port_parts.specs.Parts as specs;
ghost use Rattle.port_parts.specs.Places.{AreSpaces};

use crate::lines::{has_dnl, has_hash, has_no_hash, keeps_newline, line_start};
use crate::places::{after_spaces, are_blank, are_spaces, before_spaces, is_blank_or_return};
use m4quote::{Item, QuoteFault, read_items};
use std::alloc::{AllocError, Global};

/// Returns whether the text has a newline.
fn has_newline(text: &[u8]) -> bool
    ensures { result ≡ list_any specs.is_newline text.now }
{
    text.iter().any(|byte| *byte == b'\n')
}

/// Returns whether a backslash is right before an offset.
pub fn is_after_backslash(text: &[u8], at: usize) -> bool
    ensures { result ≡ false → specs.IsNotEscaped text.now at }
{
    let before = at.saturating_sub(1);
    before < text.len() && text[before] == b'\\'
}

/// Returns whether an offset between two others is that of a `;` or a newline, with spaces before
/// it and blanks after it.
fn is_list_end_at(text: &[u8], start: usize, at: usize, end: usize) -> bool
    ensures { IsTrue result → specs.IsListEnd text.now start end }
{
    start <= at
        && at < end
        && end <= text.len()
        && !is_after_backslash(text, start)
        && are_spaces(&text[start..at])
        && (text[at] == b';' || text[at] == b'\n')
        && are_blank(&text[at + 1..end])
}

/// Returns whether the end of a list of commands is between two offsets.
pub fn is_list_end(text: &[u8], start: usize, end: usize) -> bool
    ensures { IsTrue result → specs.IsListEnd text.now start end }
{
    is_list_end_at(text, start, after_spaces(text, start), end)
}

/// Returns whether an offset between two others is that of a `;` with spaces around it.
fn is_semicolon_at(text: &[u8], start: usize, at: usize, end: usize) -> bool
    ensures { IsTrue result → specs.IsSemicolon text.now start end }
{
    start <= at
        && at < end
        && end <= text.len()
        && !is_after_backslash(text, start)
        && are_spaces(&text[start..at])
        && text[at] == b';'
        && are_spaces(&text[at + 1..end])
}

/// Returns whether a `;` with spaces around it is between two offsets.
fn is_semicolon(text: &[u8], start: usize, end: usize) -> bool
    ensures { IsTrue result → specs.IsSemicolon text.now start end }
{
    is_semicolon_at(text, start, after_spaces(text, start), end)
}

/// Returns whether the item is this text.
fn is_bare(item: &Item<'_>, text: &[u8]) -> bool
    ensures { IsTrue result → view item.now ≡ bare text.now 0 }
{
    match item {
        Item::Bare { text: found, at } => *at == 0 && *found == text,
        Item::Call { .. } => false,
    }
}

/// Returns whether m4 finds neither a macro nor `dnl` in a text.
///
/// # Errors
///
/// Fails only if memory runs out.
pub fn is_plain(alloc: Global, text: &[u8]) -> Result<bool, AllocError>
    ensures { IfOk result (λ b. IsTrue b → IsSpelling 0 text.now (bare text.now 0 ∷ [])) }
{
    match read_items(alloc, text) {
        Ok(items) => Ok(are_bare(items.as_slice(), text)),
        Err(QuoteFault::OutOfMemory) => Err(AllocError),
        Err(_) => Ok(false),
    }
}

/// Returns whether the only item is this text.
fn are_bare(items: &[Item<'_>], text: &[u8]) -> bool
    ensures { IsTrue result → views items.now ≡ bare text.now 0 ∷ [] }
{
    items.len() == 1 && is_bare(&items[0], text)
}

/// Returns whether the text is on one line and has no `#`, and m4 finds neither a macro nor `dnl`
/// in it.
///
/// # Errors
///
/// Fails only if memory runs out.
pub fn is_plain_line(alloc: Global, text: &[u8]) -> Result<bool, AllocError>
    ensures { IfOk result (λ b. IsTrue b → specs.IsPlainLine text.now) }
{
    if has_newline(text) || has_hash(text) {
        return Ok(false);
    }
    is_plain(alloc, text)
}

/// Returns the offset after the blanks at an offset.
pub fn after_blanks(text: &[u8], at: usize) -> usize {
    for i in at..text.len() {
        if !is_blank_or_return(text[i]) {
            return i;
        }
    }
    text.len().max(at)
}

/// Returns the offset of the blanks before an offset, but none before `start`.
pub fn before_blanks(text: &[u8], start: usize, at: usize) -> usize {
    for i in (start..at.min(text.len())).rev() {
        if !is_blank_or_return(text[i]) {
            return i.saturating_add(1);
        }
    }
    start.min(at)
}

/// Returns the offset after a condition that ends before `end`, but not before `start`: that of the
/// blanks and the `;` before `end`.
pub fn condition_end(text: &[u8], start: usize, end: usize) -> usize {
    let to = before_blanks(text, start, end);
    if to > start && text.get(to.saturating_sub(1)) == Some(&b';') {
        before_blanks(text, start, to.saturating_sub(1))
    } else {
        to
    }
}

/// Returns whether the newline at an offset ends a comment of a shell: m4 keeps it, or no `#` is
/// between another offset and it.
#[tactic(auto, unfolding(crate::specs::Parts::EndsLine))]
fn ends_line(text: &[u8], start: usize, newline: usize) -> bool
    ensures { IsTrue result → specs.EndsLine text.now start newline }
{
    keeps_newline(text, start, line_start(text, start, newline), newline)
        || has_no_hash(text, start, newline)
}

/// Returns whether a newline is right before an offset.
fn is_after_newline(text: &[u8], at: usize) -> bool
    ensures { IsTrue result → (0 < at) × (slice_index text.now (at - 1) ≡ 10) }
{
    0 < at && at <= text.len() && text[at - 1] == b'\n'
}

/// Returns whether a newline that ends a comment of a shell is right before an offset.
fn is_after_line(text: &[u8], at: usize) -> bool
    ensures { IsTrue result
        → (0 < at) × (slice_index text.now (at - 1) ≡ 10) × specs.EndsLine text.now 0 (at - 1) }
{
    is_after_newline(text, at) && ends_line(text, 0, at.saturating_sub(1))
}

/// Returns whether a line begins at an offset.
fn begins_line(text: &[u8], at: usize) -> bool
    ensures { IsTrue result → specs.BeginsLine text.now at }
{
    at == 0 || is_after_line(text, at)
}

/// Returns whether a line begins at an offset, and the text has neither a `#` nor `dnl` from there
/// on.
fn is_plain_from(text: &[u8], line: usize) -> bool
    ensures { IsTrue result → specs.HasPlainEnd text.now }
{
    line <= text.len()
        && begins_line(text, line)
        && !has_hash(&text[line..text.len()])
        && !has_dnl(&text[line..text.len()])
}

/// Returns whether the last line of a text has neither a `#` nor `dnl`.
pub fn has_plain_end(text: &[u8]) -> bool
    ensures { IsTrue result → specs.HasPlainEnd text.now }
{
    let line = match text.iter().rposition(|byte| *byte == b'\n') {
        Some(newline) => newline.saturating_add(1),
        None => 0,
    };
    is_plain_from(text, line)
}

/// Returns whether a newline is at an offset between two others, which no backslash is before, and
/// spaces alone are after it.
fn is_spaced_newline(text: &[u8], start: usize, newline: usize, end: usize) -> bool
    ensures { IsTrue result
        → ((start ≤ newline) × (newline < end))
        × ((slice_index text.now newline ≡ 10)
        × ((slice_index text.now (newline - 1) ≡ 92 → ⊥)
        × AreSpaces text.now (newline + 1) end)) }
{
    start <= newline
        && newline < end
        && end <= text.len()
        && text[newline] == b'\n'
        && text[newline.saturating_sub(1)] != b'\\'
        && are_spaces(&text[newline + 1..end])
}

/// Returns whether the line before an offset has nothing but spaces after its newline, which is at
/// another offset.
fn is_line_start(text: &[u8], start: usize, newline: usize, end: usize) -> bool
    ensures { IsTrue result → specs.IsAtLineStart text.now start end }
{
    is_spaced_newline(text, start, newline, end) && ends_line(text, start, newline)
}

/// Returns whether a body between two offsets ends in the newline of its last line.
pub fn ends_in_line(text: &[u8], start: usize, end: usize) -> bool
    ensures { IsTrue result → specs.IsAtLineStart text.now start end }
{
    let newline = before_spaces(text, start, end).saturating_sub(1);
    is_line_start(text, start, newline, end)
}

/// Returns whether a `;` is after a body between two offsets, whose last line has neither a `#` nor
/// `dnl`, before a third one.
fn ends_in_semicolon(text: &[u8], from: usize, to: usize, end: usize) -> bool
    ensures { IsTrue result → specs.IsBeforeSemicolon text.now from to end }
{
    from <= to
        && to <= end
        && end <= text.len()
        && is_semicolon(text, to, end)
        && has_plain_end(&text[from..to])
}

/// Returns the offset of the `;` and of the spaces around it that are before an offset, but not
/// before `start`.
fn semicolon_start(text: &[u8], start: usize, end: usize) -> usize {
    let to = before_spaces(text, start, end).saturating_sub(1).max(start);
    before_spaces(text, start, to)
}

/// Returns whether a last body may be between two offsets, which are within two others.
fn is_last(text: &[u8], start: usize, from: usize, to: usize, end: usize) -> bool
    ensures { IsTrue result
        → (((start ≤ from) × (from ≤ to) × (to ≤ end)) × (end ≤ length text.now))
        × (AreSpaces text.now start from × specs.EndsLast text.now from to end) }
{
    start <= from
        && from <= to
        && to <= end
        && end <= text.len()
        && are_spaces(&text[start..from])
        && (to == end && ends_in_line(text, from, to) || ends_in_semicolon(text, from, to, end))
}

/// Returns the body between two offsets that has no `;;` after it, if there is one.
pub fn unclosed_body(text: &[u8], start: usize, end: usize) -> Option<&[u8]>
    ensures { IfSome result (λ b. specs.IsBodyOf specs.EndsLast text.now start end b.now) }
{
    let from = after_spaces(text, start);
    let to = if ends_in_line(text, from, end) {
        end
    } else {
        semicolon_start(text, from, end)
    };
    if is_last(text, start, from, to, end) {
        Some(&text[from..to])
    } else {
        None
    }
}
