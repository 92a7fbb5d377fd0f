//! What calls without a meaning become: nothing, or what they say to readers.

ghost use Rattle.std.specs.Prelude.{◌≡◌, Some, [], true, IfOk, IfSome};
ghost use Rattle.std.specs.List.{list_all};
ghost use Rattle.ac_calls.specs.Calls.{macro_call_of};
ghost use Rattle.port_spots.specs.Put as specs;

use crate::changes::{Change, can_be_left_out, change_to, leaves_compiler, left_out};
use crate::keeping::{comment_of, said_by};
use ac_calls::CallAt;
use lint_text::{before, from, part};
use port_definitions::{last_line, space_len};
use port_spots::{
    Known, Spot, can_be_noted, ends_in_word, joins_next_line, line_indent, without_end_blanks,
};
use std::alloc::{AllocError, Global};

/// Returns whether the last line of a text has a `dnl`.
fn has_comment(text: &[u8]) -> bool {
    for at in last_line(text)..text.len() {
        if from(text, at).starts_with(b"dnl") {
            return true;
        }
    }
    false
}

/// Returns whether the line before that of a call may end in a comment of m4, which takes its
/// newline along.
fn follows_comment(text: &[u8], call: &CallAt) -> bool {
    let line = last_line(before(text, call.start));
    has_comment(before(text, line.saturating_sub(1)))
}

/// Returns the offset up to which a line goes with a call, if nothing follows the call on it: that
/// of the next line, or, if a comment of m4 ends the line before, that of the newline. So what is
/// before that comment isn't joined to the next line.
pub(crate) fn next_line(text: &[u8], call: &CallAt) -> Option<usize> {
    let after = call.end.saturating_add(space_len(from(text, call.end)));
    if text.get(after) != Some(&b'\n') {
        None
    } else if follows_comment(text, call) {
        Some(after)
    } else {
        Some(after.saturating_add(1))
    }
}

/// Returns the change of a call, and of what is after it up to an offset, to what it says to
/// readers, as a comment.
fn kept_until(
    alloc: Global,
    text: &[u8],
    indent: &[u8],
    call: &CallAt,
    said: &[u8],
    end: usize,
) -> Result<Change, AllocError>
    requires dropped { specs.put_for text.now (macro_call_of call.now) ≡ Some [] }
    requires said { specs.Says text.now (macro_call_of call.now) said.now }
    requires indent { list_all specs.is_space_or_return indent.now ≡ true }
    ensures { IfOk result (λ change.
        specs.IsPut text.now (macro_call_of call.now) change.put.items) }
{
    let put = comment_of(alloc, said, indent)?;
    Ok(Change {
        start: call.start,
        end,
        put,
    })
}

/// Returns the change of a call to what it says to readers, as a comment.
fn kept(
    alloc: Global,
    text: &[u8],
    spot: Spot,
    call: &CallAt,
    said: &[u8],
) -> Result<Change, AllocError>
    requires dropped { specs.put_for text.now (macro_call_of call.now) ≡ Some [] }
    requires said { specs.Says text.now (macro_call_of call.now) said.now }
    ensures { IfOk result (λ change.
        specs.IsPut text.now (macro_call_of call.now) change.put.items) }
{
    match next_line(text, call) {
        Some(end) => kept_until(alloc, text, b"", call, said, end),
        None => kept_until(alloc, text, line_indent(text, spot), call, said, call.end),
    }
}

/// Returns the change of a call to what it says to readers, as a comment, with the command `:` after
/// it.
fn kept_idle(
    alloc: Global,
    text: &[u8],
    indent: &[u8],
    call: &CallAt,
    said: &[u8],
) -> Result<Change, AllocError>
    requires dropped { specs.put_for text.now (macro_call_of call.now) ≡ Some [] }
    requires said { specs.Says text.now (macro_call_of call.now) said.now }
    requires indent { list_all specs.is_space_or_return indent.now ≡ true }
    ensures { IfOk result (λ change.
        specs.IsPut text.now (macro_call_of call.now) change.put.items) }
{
    let mut put = comment_of(alloc, said, indent)?;
    put.push(b':')?;
    Ok(change_to(call, put))
}

/// Returns the change of a call to what it says to readers, as a comment, with the command `:` after
/// it if a list of commands may become empty.
fn kept_by(
    alloc: Global,
    known: &Known,
    text: &[u8],
    spot: Spot,
    call: &CallAt,
    said: &[u8],
) -> Result<Change, AllocError>
    requires dropped { specs.put_for text.now (macro_call_of call.now) ≡ Some [] }
    requires said { specs.Says text.now (macro_call_of call.now) said.now }
    ensures { IfOk result (λ change.
        specs.IsPut text.now (macro_call_of call.now) change.put.items) }
{
    if can_be_left_out(known, text, spot) {
        kept(alloc, text, spot, call, said)
    } else {
        kept_idle(alloc, text, line_indent(text, spot), call, said)
    }
}

/// Returns whether a line ends after a call.
fn ends_line(text: &[u8], call: &CallAt) -> bool {
    let after = call.end.saturating_add(space_len(from(text, call.end)));
    match text.get(after) {
        Some(byte) => *byte == b'\n',
        None => true,
    }
}

/// Returns whether a call begins its line or an argument, or is between `then` or `else` and the end
/// of the line.
fn begins_list(text: &[u8], spot: Spot, call: &CallAt) -> bool {
    let front = without_end_blanks(part(text, spot.line, call.start));
    spot.is_first
        || before(text, call.start).ends_with(b"[")
        || ends_in_word(front) && ends_line(text, call)
}

/// Returns whether a comment that says what a call says can be at its place.
fn can_be_kept(known: &Known, text: &[u8], spot: Spot, call: &CallAt) -> bool {
    let is_apart = can_be_left_out(known, text, spot)
        || begins_list(text, spot, call)
            && can_be_noted(known, call)
            && !joins_next_line(text, call);
    is_apart && leaves_compiler(known, text, call)
}

/// Returns the change of a call to what it says to readers, as a comment, or to nothing if it says
/// nothing. If a comment can't be at its place, the call stays.
fn kept_or_left_out(
    alloc: Global,
    known: &Known,
    text: &[u8],
    spot: Spot,
    call: &CallAt,
    said: &[u8],
) -> Result<Option<Change>, AllocError>
    requires dropped { specs.put_for text.now (macro_call_of call.now) ≡ Some [] }
    requires said { specs.Says text.now (macro_call_of call.now) said.now }
    ensures { IfOk result (λ o.
        IfSome o (λ change. specs.IsPut text.now (macro_call_of call.now) change.put.items)) }
{
    if said.is_empty() {
        return left_out(alloc, known, text, spot, call);
    }
    if !can_be_kept(known, text, spot, call) {
        return Ok(None);
    }
    let change = kept_by(alloc, known, text, spot, call, said)?;
    Ok(Some(change))
}

/// Returns the change of a call to nothing, or to what it says to readers as a comment.
pub(crate) fn without_meaning(
    alloc: Global,
    known: &Known,
    text: &[u8],
    spot: Spot,
    call: &CallAt,
) -> Result<Option<Change>, AllocError>
    requires dropped { specs.put_for text.now (macro_call_of call.now) ≡ Some [] }
    ensures { IfOk result (λ o.
        IfSome o (λ change. specs.IsPut text.now (macro_call_of call.now) change.put.items)) }
{
    match said_by(text, call) {
        Some(said) => kept_or_left_out(alloc, known, text, spot, call, said),
        None => left_out(alloc, known, text, spot, call),
    }
}
