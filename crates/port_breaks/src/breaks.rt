//! Lines that are broken around commands of which it is known what takes their place.

ghost use Rattle.std.specs.Prelude.{◌≡◌, ◌≤◌, ◌+◌, ◌∷◌, ◌++◌, [], true, length, slice_index, slice_range, codes, All, IfOk, IfSome, IsTrue};
ghost use Rattle.std.specs.List.{list_all};
ghost use Rattle.port_parts.specs.Places.{AreSpaces, is_space_or_return};
ghost use Rattle.port_edits.specs.Edits.{change_of};
ghost use Rattle.port_breaks.specs.Breaks as specs;

use crate::told::{after_spaces, before_spaces, command_end, is_told};
use port_echo::is_blank_echo;
use port_edits::{Edit, edited};
use port_parts::{are_spaces, begins_statement, is_word};
use std::alloc::{AllocError, Global};

/// Returns whether between two offsets there are spaces alone.
fn are_spaces_between(text: &[u8], start: usize, end: usize) -> bool
    ensures { IsTrue result
        → (AreSpaces text.now start end × ((start ≤ end) × (end ≤ length text.now))) }
{
    start <= end && end <= text.len() && are_spaces(&text[start..end])
}

/// Returns whether a command of which it is known what takes its place is between two offsets.
fn is_told_between(text: &[u8], start: usize, end: usize) -> bool
    ensures { IsTrue result → specs.IsTold (slice_range text.now start end) }
{
    start <= end && end <= text.len() && is_told(&text[start..end])
}

/// Returns whether a statement may begin at an offset.
fn begins(text: &[u8], from: usize, at: usize) -> bool
    ensures { IsTrue result → specs.Begins text.now from at }
{
    begins_statement(text, at) || is_word(text, from.saturating_sub(2), b"do", from)
}

/// Returns whether a line may be broken between two offsets, before a command that ends at a third
/// one.
fn may_break_before(text: &[u8], start: usize, end: usize, to: usize) -> bool
    ensures { IsTrue result → specs.MayBreak text.now start end }
{
    are_spaces_between(text, start, end)
        && begins(text, start, end)
        && is_told_between(text, end, to)
}

/// Returns whether `;;` is at an offset.
fn ends_branch(text: &[u8], at: usize) -> bool
    ensures { IsTrue result → slice_range text.now at (at + 2) ≡ codes ";;" }
{
    at <= text.len() && text.len() - at >= 2 && &text[at..at + 2] == b";;".as_slice()
}

/// Returns whether a bracket that ends an argument is at an offset.
fn ends_argument(text: &[u8], at: usize) -> bool
    ensures { IsTrue result → slice_index text.now at ≡ 93 }
{
    at < text.len() && text[at] == b']'
}

/// Returns whether a branch of a `case` or an argument ends at an offset.
fn ends_part(text: &[u8], at: usize) -> bool
    ensures { IsTrue result → specs.EndsPart text.now at }
{
    ends_branch(text, at) || ends_argument(text, at)
}

/// Returns whether a line may be broken between two offsets, after a command that begins at a third
/// one and before the end of a part.
fn may_break_after(text: &[u8], from: usize, start: usize, end: usize) -> bool
    ensures { IsTrue result → specs.MayBreak text.now start end }
{
    are_spaces_between(text, start, end)
        && ends_part(text, end)
        && is_told_between(text, from, start)
}

/// Returns whether a `;` is at an offset, and no second one after it.
fn ends_command(text: &[u8], at: usize) -> bool
    ensures { IsTrue result → specs.EndsCommand text.now at }
{
    at < text.len() && text.len() - at >= 2 && text[at] == b';' && text[at + 1] != b';'
}

/// Returns whether at the second of three offsets is a `;` that ends a command, and all else between
/// them is spaces.
fn is_joint(text: &[u8], start: usize, at: usize, end: usize) -> bool
    ensures { IsTrue result
        → ((AreSpaces text.now start at
        × (specs.EndsCommand text.now at × AreSpaces text.now (at + 1) end))
        × ((start ≤ end) × (end ≤ length text.now))) }
{
    are_spaces_between(text, start, at)
        && ends_command(text, at)
        && are_spaces_between(text, at + 1, end)
}

/// Returns whether a line may be broken between two offsets, with a `;` at a fourth one, after a
/// command that begins at a third one.
fn may_break_at(text: &[u8], from: usize, start: usize, at: usize, end: usize) -> bool
    ensures { IsTrue result → specs.MayBreak text.now start end }
{
    is_joint(text, start, at, end) && is_told_between(text, from, start)
}

/// Returns a text if it is spaces alone, and otherwise nothing.
fn spaces(text: &[u8]) -> &[u8]
    ensures { list_all is_space_or_return result.now ≡ true }
{
    if are_spaces(text) { text } else { b"" }
}

/// Returns the offset at which the line begins that an offset is in.
fn line_of(text: &[u8], at: usize) -> usize {
    for i in (0..at.min(text.len())).rev() {
        if text[i] == b'\n' {
            return i.saturating_add(1);
        }
    }
    0
}

/// Returns the spaces at the front of the line that an offset is in.
fn indent_at(text: &[u8], at: usize) -> &[u8]
    ensures { list_all is_space_or_return result.now ≡ true }
{
    let line = line_of(text, at);
    let to = after_spaces(text, line);
    match text.get(line..to) {
        Some(found) => spaces(found),
        None => spaces(b""),
    }
}

/// Returns a newline and an indent.
fn broken_with(alloc: Global, indent: &[u8]) -> Result<Vec<u8>, AllocError>
    ensures { IfOk result (λ v. v.items ≡ (10 ∷ 32 ∷ 32 ∷ []) ++ indent.now) }
{
    let mut out = Vec::from_slice(alloc, b"\n  ")?;
    out.extend_from_slice(indent)?;
    Ok(out)
}

/// Returns the change of what is between two offsets into a newline and an indent.
fn break_of(
    alloc: Global,
    text: &[u8],
    start: usize,
    end: usize,
) -> Result<Option<Edit>, AllocError>
    requires { specs.MayBreak text.now start end }
    ensures { IfOk result (λ o. IfSome o (λ e. specs.IsBreak text.now (change_of e))) }
{
    let indent = indent_at(text, start);
    let put = broken_with(alloc, indent)?;
    Ok(Some(Edit { start, end, put }))
}

/// Returns whether a line begins at an offset.
fn is_line_start(text: &[u8], at: usize) -> bool {
    at == 0 || text.get(at.saturating_sub(1)) == Some(&b'\n')
}

/// Returns the break of a line before a command between two offsets, if it has something before it
/// on its line, and if the text wasn't read up to it.
fn break_before(
    alloc: Global,
    text: &[u8],
    at: usize,
    to: usize,
    read: usize,
) -> Result<Option<Edit>, AllocError>
    ensures { IfOk result (λ o. IfSome o (λ e. specs.IsBreak text.now (change_of e))) }
{
    let start = before_spaces(text, 0, at);
    if read != at && !is_line_start(text, start) && may_break_before(text, start, at, to) {
        break_of(alloc, text, start, at)
    } else {
        Ok(None)
    }
}

/// Returns the break of a line after a command between two offsets, if something that it may be
/// broken before is after it on its line.
fn break_after(
    alloc: Global,
    text: &[u8],
    from: usize,
    start: usize,
) -> Result<Option<Edit>, AllocError>
    ensures { IfOk result (λ o. IfSome o (λ e. specs.IsBreak text.now (change_of e))) }
{
    let at = after_spaces(text, start);
    if may_break_after(text, from, start, at) {
        return break_of(alloc, text, start, at);
    }
    let end = after_spaces(text, at.saturating_add(1));
    if may_break_at(text, from, start, at, end) {
        break_of(alloc, text, start, end)
    } else {
        Ok(None)
    }
}

/// Returns the text from an offset on.
fn from_offset(text: &[u8], at: usize) -> &[u8] {
    &text[at.min(text.len())..]
}

/// Returns whether a line ends at an offset, or what a line may be broken before is there.
fn is_end(text: &[u8], at: usize) -> bool {
    match text.get(at) {
        Some(byte) => *byte == b'\n' || *byte == b';' || *byte == b']',
        None => true,
    }
}

/// Returns whether a command at an offset is an `exit` after a `;`. If its line isn't broken before
/// it, it may belong to an `echo` that stays.
fn is_last_exit(text: &[u8], from: usize, at: usize) -> bool {
    text.get(from.saturating_sub(1)) == Some(&b';') && from_offset(text, at).starts_with(b"exit")
}

/// Returns whether a command at an offset is the first on its line, or a statement may begin there.
/// The text was read up to `read`.
fn is_begun(text: &[u8], at: usize, read: usize) -> bool {
    let from = before_spaces(text, 0, at);
    is_line_start(text, from)
        || begins(text, from, at) && (read == at || !is_last_exit(text, from, at))
}

/// Returns the offset of an `exit` that is the next command after an `echo` that ends at an offset,
/// or `at` if there is none.
fn exit_after(text: &[u8], at: usize, to: usize) -> usize {
    let semicolon = after_spaces(text, to);
    let next = after_spaces(text, semicolon.saturating_add(1));
    let is_echo = text.get(at..to).is_some_and(|command| command.starts_with(b"echo ")
        && !is_blank_echo(command));
    let is_exit = text.get(next..next.saturating_add(5)) == Some(b"exit ".as_slice());
    if is_echo && is_exit && text.get(semicolon) == Some(&b';') {
        next
    } else {
        at
    }
}

/// Returns the command at an offset, or nothing if it isn't known what takes its place. An `exit`
/// after an `echo` belongs to it.
pub fn command_at(text: &[u8], at: usize) -> &[u8] {
    let to = command_end(text, at);
    if !is_told_between(text, at, to) {
        return b"";
    }
    let from = exit_after(text, at, to);
    let end = command_end(text, from);
    let end = if is_told_between(text, from, end) {
        end
    } else {
        to
    };
    text.get(at..end).unwrap_or(b"")
}

/// Returns how much of a text was read after changes of it.
fn end_of(edits: &[Edit]) -> usize {
    match edits.last() {
        Some(edit) => edit.end,
        None => 0,
    }
}

/// Appends a change, if there is one that begins where the last one ends or after that.
fn push_edit(text: &[u8], edit: Option<Edit>, edits: &mut Vec<Edit>) -> Result<(), AllocError>
    requires edit { IfSome edit (λ e. specs.IsBreak text.now (change_of e)) }
    requires edits { All (λ e. specs.IsBreak text.now (change_of e)) edits.old.items }
    ensures { All (λ e. specs.IsBreak text.now (change_of e)) edits.new.items }
{
    let _ = text;
    match edit {
        Some(edit) if end_of(edits.as_slice()) <= edit.start => edits.push(edit)?,
        _ => {}
    }
    Ok(())
}

/// Appends the breaks of the line of the command at an offset, before it and after the command at
/// another offset, which is the same or an `exit` after it.
fn push_around(
    alloc: Global,
    text: &[u8],
    at: usize,
    to: usize,
    from: usize,
    edits: &mut Vec<Edit>,
) -> Result<(), AllocError>
    requires { All (λ e. specs.IsBreak text.now (change_of e)) edits.old.items }
    ensures { All (λ e. specs.IsBreak text.now (change_of e)) edits.new.items }
{
    let end = command_end(text, from);
    let read = end_of(edits.as_slice());
    if !is_begun(text, at, read) || !is_end(text, after_spaces(text, end)) {
        return Ok(());
    }
    push_edit(text, break_before(alloc, text, at, to, read)?, edits)?;
    push_edit(text, break_after(alloc, text, from, end)?, edits)
}

/// Appends the breaks of the line of the command at an offset, if it is known what takes its place.
fn push_at(alloc: Global, text: &[u8], at: usize, edits: &mut Vec<Edit>) -> Result<(), AllocError>
    requires { All (λ e. specs.IsBreak text.now (change_of e)) edits.old.items }
    ensures { All (λ e. specs.IsBreak text.now (change_of e)) edits.new.items }
{
    let to = command_end(text, at);
    if !is_told_between(text, at, to) {
        return Ok(());
    }
    let from = exit_after(text, at, to);
    if is_told_between(text, from, command_end(text, from)) {
        push_around(alloc, text, at, to, from, edits)
    } else {
        push_around(alloc, text, at, to, at, edits)
    }
}

/// Returns the breaks of the lines of the commands at these offsets.
fn breaks_at(alloc: Global, text: &[u8], places: &[usize]) -> Result<Vec<Edit>, AllocError>
    ensures { IfOk result (λ v. All (λ e. specs.IsBreak text.now (change_of e)) v.items) }
{
    let mut edits = Vec::new(alloc);
    for at in places {
        push_at(alloc, text, *at, &mut edits)?;
    }
    Ok(edits)
}

/// Returns the text with each of the commands at these offsets on a line of its own, if it is known
/// what takes its place. The offsets are in order. Whether a command is at them is not looked at.
///
/// # Errors
///
/// Fails only if memory runs out.
pub fn broken(alloc: Global, text: &[u8], places: &[usize]) -> Result<Vec<u8>, AllocError>
    // Where a line may be broken, a newline and spaces are put. All else is copied.
    ensures broken { IfOk result (λ v. specs.IsBroken text.now v.items) }
{
    let edits = breaks_at(alloc, text, places)?;
    let out = edited(alloc, text, edits.as_slice())?;
    Ok(out)
}
