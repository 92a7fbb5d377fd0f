//! Reading a log.

ghost use Rattle.std.specs.Prelude.{◌≡◌, ◌==◌, ◌||◌, ◌++◌, ◌∷◌, [], ℕ, List, true, false, length, map, codes, nat_eq, IfOk, OnErr, MatchOption};
ghost use Rattle.std.specs.List.{ends_with};
ghost use Rattle.bstr.specs.Text.{lines_of};
ghost use Rattle.cfglog.specs.declared.forms.LineKind.{LineKind};
ghost use Rattle.cfglog.specs.declared.forms.LineKind.TheVariants.{Message};
ghost use Rattle.cfglog.specs.Log as log;

use crate::forms::{LineKind, is_inside, part_after};
use bstr::ByteSlice;
use std::alloc::{AllocError, Global};

/// A line of a log, and what it is.
#[derive(Clone, Copy)]
pub struct Line<'a> {
    /// What the line is.
    pub part: LineKind,
    /// The line, with its newline.
    pub text: &'a [u8],
}

/// Appends a line, and returns what it is.
fn put_line<'a>(
    lines: &mut Vec<Line<'a>>,
    before: LineKind,
    text: &'a [u8],
) -> Result<LineKind, AllocError>
    ensures part { IfOk result (λ part. part ≡ log.part_after before text.now) }
    ensures line { IfOk result (λ part.
        map {B = LineKind × List ℕ} (λ line. (line.part, line.text.now)) lines.new.items
        ≡ map {B = LineKind × List ℕ} (λ line. (line.part, line.text.now)) lines.old.items
        ++ (part, text.now) ∷ []) }
{
    let part = part_after(before, text);
    lines.push(Line { part, text })?;
    Ok(part)
}

/// Appends the lines of a text, and returns what the last of them is.
fn put_lines<'a>(lines: &mut Vec<Line<'a>>, text: &'a [u8]) -> Result<LineKind, AllocError>
    requires { lines.old.items ≡ [] }
    ensures last { IfOk result (λ part. part ≡ log.last_part Message (lines_of text.now)) }
    ensures lines { IfOk result (λ _.
        map {B = LineKind × List ℕ} (λ line. (line.part, line.text.now)) lines.new.items
        ≡ log.lines_in text.now) }
{
    let mut before = LineKind::Message;
    for line in text.lines_with_terminator() {
        before = put_line(lines, before, line)?;
    }
    Ok(before)
}

/// Returns whether the last line of a text has a newline.
fn is_closed(text: &[u8]) -> bool
    ensures { result ≡ (length text.now == 0 || ends_with nat_eq text.now (codes "\n")) }
{
    text.is_empty() || text.ends_with(b"\n")
}

/// Returns the lines of a log, each with what it is, or `None` if the text is no log: its last line
/// has no newline, or it ends within a child (own).
///
/// # Errors
///
/// Fails only if memory runs out.
pub fn read_log(alloc: Global, text: &[u8]) -> Result<Option<Vec<Line<'_>>>, AllocError>
    ensures { IfOk result (λ read.
        MatchOption read (log.is_log text.now ≡ false) (λ lines.
        (log.is_log text.now ≡ true)
        × (map {B = LineKind × List ℕ} (λ line. (line.part, line.text.now)) lines.items
        ≡ log.lines_in text.now))) }
{
    let mut lines = Vec::new(alloc);
    let last = put_lines(&mut lines, text)?;
    if is_closed(text) && !is_inside(last) {
        return Ok(Some(lines));
    }
    Ok(None)
}
