//! Where lines begin, and whether a newline ends a comment of a shell.

ghost use Rattle.std.specs.Prelude.{◌≡◌, ◌⊎◌, ◌≤◌, ◌<◌, ◌+◌, ◌-◌, false, length, slice_index, slice_range, codes, IfSome, IsTrue};
ghost use Rattle.std.specs.List.{list_any};
ghost use Rattle.port_parts.specs.Places as specs;

use crate::places::{after_spaces, are_spaces};

/// Returns whether the text has a `#`.
pub fn has_hash(text: &[u8]) -> bool
    ensures { result ≡ list_any specs.is_hash text.now }
{
    text.iter().any(|byte| *byte == b'#')
}

/// Returns whether a word is at an offset.
pub fn has_at(text: &[u8], at: usize, word: &[u8]) -> bool
    requires { at ≤ length text.now }
    ensures yes { IsTrue result → specs.IsWord text.now at word.now (at + length word.now) }
    ensures no { result ≡ false → specs.IsWord text.now at word.now (at + length word.now) → ⊥ }
{
    word.len() <= text.len() - at && &text[at..at + word.len()] == word
}

/// Returns whether a text has a word at some place.
pub fn has(text: &[u8], word: &[u8]) -> bool
    ensures { result ≡ false → specs.Has word.now text.now → ⊥ }
{
    for i in 0..text.len() {
        if has_at(text, i, word) {
            return true;
        }
    }
    false
}

/// Returns whether the text has `dnl` at some place.
pub fn has_dnl(text: &[u8]) -> bool
    ensures { result ≡ false → specs.HasDnl text.now → ⊥ }
{
    has(text, b"dnl")
}

/// Returns the offset after the last newline between two offsets, or the first offset.
pub fn line_start(text: &[u8], start: usize, at: usize) -> usize {
    for i in (start..at.min(text.len())).rev() {
        if text[i] == b'\n' {
            return i.saturating_add(1);
        }
    }
    start
}

/// Returns whether an offset is another one, or after a newline.
fn is_start_of_line(text: &[u8], start: usize, at: usize) -> bool
    ensures { IsTrue result → (at ≡ start) ⊎ (slice_index text.now (at - 1) ≡ 10) }
{
    if at == start {
        return true;
    }
    0 < at && at <= text.len() && text[at - 1] == b'\n'
}

/// Returns whether a line begins between an offset and that of a newline, and has no `dnl` from
/// there on.
pub(crate) fn keeps_newline(text: &[u8], start: usize, line: usize, newline: usize) -> bool
    ensures { IsTrue result → specs.KeepsNewline text.now start newline }
{
    line <= newline
        && newline <= text.len()
        && is_start_of_line(text, start, line)
        && !has_dnl(&text[line..newline])
}

/// Returns whether there is no `#` between two offsets.
pub(crate) fn has_no_hash(text: &[u8], start: usize, end: usize) -> bool
    ensures { IsTrue result → specs.HasNoHash (slice_range text.now start end) }
{
    start <= end && end <= text.len() && !has_hash(&text[start..end])
}

/// Returns whether the line at an offset begins with `dnl`, which is at another one.
fn is_dnl_line_at(text: &[u8], line: usize, at: usize) -> bool
    ensures { IsTrue result → specs.IsDnlLine text.now line }
{
    line <= at && at <= text.len() && are_spaces(&text[line..at]) && has_at(text, at, b"dnl")
}

/// Returns whether the line at an offset begins with `dnl`.
fn is_dnl_line(text: &[u8], line: usize) -> bool
    ensures { IsTrue result → specs.IsDnlLine text.now line }
{
    is_dnl_line_at(text, line, after_spaces(text, line))
}

/// Returns whether the line between two offsets begins no comment of a shell.
fn adds_no_comment(text: &[u8], line: usize, newline: usize) -> bool
    ensures { IsTrue result → specs.AddsNoComment text.now line newline }
{
    line <= newline && (is_dnl_line(text, line) || has_no_hash(text, line, newline))
}

/// Returns the offset of the newline right before a line, if there is one.
fn newline_before(text: &[u8], line: usize) -> Option<usize>
    ensures { IfSome result (λ b. (line ≡ b + 1) × (slice_index text.now b ≡ 10)) }
{
    if 0 < line && line <= text.len() && text[line - 1] == b'\n' {
        Some(line - 1)
    } else {
        None
    }
}

/// Returns whether the newline at an offset ends a comment, whatever is before its line.
fn is_end(text: &[u8], newline: usize) -> bool
    ensures { IsTrue result → specs.EndsComment text.now newline }
{
    let line = line_start(text, 0, newline);
    keeps_newline(text, 0, line, newline) || line == 0 && adds_no_comment(text, 0, newline)
}

/// Returns the offset of the newline before the line of another one, if the latter ends a comment
/// then as soon as the former does.
fn end_above(text: &[u8], newline: usize) -> Option<usize>
    ensures { IfSome result (λ b.
        specs.EndsComment text.now b → specs.EndsComment text.now newline) }
{
    let line = line_start(text, 0, newline);
    if !adds_no_comment(text, line, newline) {
        return None;
    }
    newline_before(text, line)
}

/// Returns whether the newline at an offset ends a comment of a shell, if there is one.
pub(crate) fn ends_comment(text: &[u8], newline: usize) -> bool
    ensures { IsTrue result → specs.EndsComment text.now newline }
{
    let mut at = newline;
    for _ in 0..text.len() {
        if is_end(text, at) {
            return true;
        }
        match end_above(text, at) {
            Some(above) => at = above,
            None => return false,
        }
    }
    false
}
