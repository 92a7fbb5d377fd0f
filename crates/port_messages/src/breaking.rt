//! Lines that are broken, so that a command has a line of its own, and what the text then becomes.

ghost use Rattle.std.specs.Prelude.{IfOk};
ghost use Rattle.port_messages.specs.Told as specs;

use crate::passing::{is_rewritten, told_alone};
use ac_calls::calls_of;
use lint_text::{line_end, line_start, part};
use port_breaks::{broken, command_at};
use port_parts::are_spaces;
use port_statements::{StatementCut, cuts_in};
use std::alloc::{AllocError, Global};

/// Returns whether a command at an offset has nothing else on its line.
fn has_line(text: &[u8], at: usize, command: &[u8]) -> bool {
    let front = part(text, line_start(text, at), at);
    are_spaces(front) && at.saturating_add(command.len()) == line_end(text, at)
}

/// Appends the offset of a command, if its line has more, and if something takes its place once it
/// has a line of its own.
fn push_place(
    alloc: Global,
    text: &[u8],
    at: usize,
    places: &mut Vec<usize>,
) -> Result<(), AllocError> {
    let command = command_at(text, at);
    if command.is_empty() || has_line(text, at, command) {
        return Ok(());
    }
    if is_rewritten(alloc, command)? {
        places.push(at)?;
    }
    Ok(())
}

/// Returns the offsets of the commands that get a line of their own, in order.
fn places_in(alloc: Global, text: &[u8]) -> Result<Vec<usize>, AllocError> {
    let calls = calls_of(alloc, text)?;
    let mut places = Vec::new(alloc);
    for cut in &cuts_in(alloc, text, calls.as_slice())? {
        if let StatementCut::Line(at) = cut {
            push_place(alloc, text, *at, &mut places)?;
        }
    }
    Ok(places)
}

/// Returns the text with what takes the place of the commands in it, after its lines are broken around
/// those at these offsets.
#[tactic(auto, using(crate::proofs::Telling::broken_and_told))]
fn told_broken(alloc: Global, text: &[u8], places: &[usize]) -> Result<Vec<u8>, AllocError>
    ensures { IfOk result (λ v. specs.IsBrokenAndTold text.now v.items) }
{
    let mid = broken(alloc, text, places)?;
    let out = told_alone(alloc, mid.as_slice())?;
    Ok(out)
}

/// Returns the text with each `echo` as a message, below a comment, if what it prints is known. Other
/// than `echo`, a message is dropped by `-q`. So an `exit` with a status becomes an error, with the
/// message of an `echo` before it on its line, and an `unset` of a variable an assignment of nothing. Only a command
/// on a line of its own is rewritten, but the lines are first broken around an `echo` and an `exit`, if that leads to it.
///
/// # Errors
///
/// Fails only if memory runs out.
pub fn told(alloc: Global, text: &[u8]) -> Result<Vec<u8>, AllocError>
    // Lines may be broken around commands of which it is known what takes their place. Then a line
    // with an `echo` may become a comment and the call of AC_MSG_RESULT with what it prints, one with
    // an `exit` a comment and the call of AC_MSG_ERROR, and one with an `unset` a comment and an
    // assignment. Each of these commands begins outside quotes, substitutions, comments and
    // here-documents. All else is copied.
    ensures told { IfOk result (λ v. specs.IsBrokenAndTold text.now v.items) }
{
    let places = places_in(alloc, text)?;
    told_broken(alloc, text, places.as_slice())
}
