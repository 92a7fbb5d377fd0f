//! Commands that become the call of a macro: an `echo`, an `exit`, and an `echo` before an `exit`.

ghost use Rattle.std.specs.Prelude.{◌≡◌, ◌≤◌, ◌∷◌, ◌++◌, [], true, map, length, slice_range, codes, IfOk, IfSome, IsTrue};
ghost use Rattle.std.specs.List.{list_all};
ghost use Rattle.port_breaks.specs.Breaks.{is_status};
ghost use Rattle.port_echo.specs.Echo.{IsMessage, Prints};
ghost use Rattle.port_messages.specs.Told as specs;

use crate::lines::Line;
use port_breaks::{after_spaces, before_spaces, is_digit, rest_after};
use port_echo::{is_blank_echo, message_of};
use port_parts::{are_spaces, is_word};
use port_put::accepted_call;
use std::alloc::{AllocError, Global};

/// Returns the call of a macro in the place of a command, unless acrun doesn't accept it.
fn call_for(
    alloc: Global,
    command: &[u8],
    name: &[u8],
    args: &[&[u8]],
    said: &'static [u8],
) -> Result<Option<Line>, AllocError>
    requires { specs.Speaks command.now name.now (map (λ a. a.now) args.now) said.now }
    ensures { IfOk result (λ o.
        IfSome o (λ l. specs.Becomes command.now l.said.now l.put.items)) }
{
    let _ = command;
    match accepted_call(alloc, name, args)? {
        Some(put) => Ok(Some(Line { said, put })),
        None => Ok(None),
    }
}

/// Returns the message that a command prints of what is given to `echo`.
fn message_for<'a>(command: &[u8], given: &'a [u8]) -> Option<&'a [u8]>
    requires { command.now ≡ codes "echo " ++ given.now }
    ensures { IfSome result (λ m.
        specs.Speaks command.now (codes "AC_MSG_RESULT") (m.now ∷ [])
        (codes "echo: -q drops the line")) }
{
    let _ = command;
    match message_of(given) {
        Some(message) => Some(message),
        None => None,
    }
}

/// Returns the message that a command prints, if that is known.
fn printed_by(command: &[u8]) -> Option<&[u8]>
    ensures { IfSome result (λ m.
        specs.Speaks command.now (codes "AC_MSG_RESULT") (m.now ∷ [])
        (codes "echo: -q drops the line")) }
{
    match rest_after(command, b"echo ") {
        Some(given) => message_for(command, given),
        None => None,
    }
}

/// Returns what is given to `exit`, if it is a digit other than 0.
fn checked_status<'a>(command: &[u8], status: &'a [u8]) -> Option<&'a [u8]>
    requires { command.now ≡ codes "exit " ++ status.now }
    ensures { IfSome result (λ s.
        specs.Speaks command.now (codes "AC_MSG_ERROR") (command.now ∷ s.now ∷ [])
        (codes "exit: an error is printed")) }
{
    let _ = command;
    if is_digit(status) { Some(status) } else { None }
}

/// Returns the digit that a command gives to `exit`, if it isn't 0.
fn status_of(command: &[u8]) -> Option<&[u8]>
    ensures { IfSome result (λ s.
        specs.Speaks command.now (codes "AC_MSG_ERROR") (command.now ∷ s.now ∷ [])
        (codes "exit: an error is printed")) }
{
    match rest_after(command, b"exit ") {
        Some(status) => checked_status(command, status),
        None => None,
    }
}

// ---- a message before `exit`

/// Returns the offset of the last `;` of a command, or 0.
fn last_semicolon(command: &[u8]) -> usize {
    command.iter().rposition(|byte| *byte == b';').unwrap_or(0)
}

/// Returns what is given to `exit`, if the rest of a command is that with a digit other than 0.
fn checked_exit<'a>(command: &[u8], from: usize, status: &'a [u8]) -> Option<&'a [u8]>
    requires { slice_range command.now from (length command.now) ≡ codes "exit " ++ status.now }
    ensures { IfSome result (λ s. specs.IsExit command.now from s.now) }
{
    let _ = command;
    let _ = from;
    if is_digit(status) { Some(status) } else { None }
}

/// Returns the digit that a command gives to `exit` from an offset on, if it isn't 0.
fn exit_from(command: &[u8], from: usize) -> Option<&[u8]>
    ensures { IfSome result (λ s. specs.IsExit command.now from s.now) }
{
    if command.len() < from {
        return None;
    }
    match rest_after(&command[from..command.len()], b"exit ") {
        Some(status) => checked_exit(command, from, status),
        None => None,
    }
}

/// Returns whether a command begins with `echo`, and has a `;` at an offset with spaces around it,
/// up to two others.
fn is_echo_then(command: &[u8], to: usize, at: usize, from: usize) -> bool
    ensures within { IsTrue result → (5 ≤ to) × (to ≤ length command.now) }
    ensures is { IsTrue result → specs.IsEchoThen command.now to from }
{
    5 <= to
        && to <= at
        && at < from
        && from <= command.len()
        && is_word(command, 0, b"echo ", 5)
        && are_spaces(&command[to..at])
        && command[at] == b';'
        && are_spaces(&command[at + 1..from])
}

/// Returns the message and the status of a command that prints a message, up to an offset, and ends
/// the run from another one on, if they are known.
fn failure_at(command: &[u8], to: usize, from: usize) -> Option<(&[u8], &[u8])>
    requires within { (5 ≤ to) × (to ≤ length command.now) }
    requires front { specs.IsEchoThen command.now to from }
    ensures { IfSome result (λ f. specs.Fails command.now f.0.now f.1.now) }
{
    let Some(status) = exit_from(command, from) else {
        return None;
    };
    let Some(message) = message_of(&command[5..to]) else {
        return None;
    };
    Some((message, status))
}

/// Returns the message and the status of a command that prints a message and then ends the run, if
/// it does.
fn failure_of(command: &[u8]) -> Option<(&[u8], &[u8])>
    ensures { IfSome result (λ f. specs.Fails command.now f.0.now f.1.now) }
{
    let semicolon = last_semicolon(command);
    let to = before_spaces(command, 0, semicolon);
    let from = after_spaces(command, semicolon.saturating_add(1));
    if is_echo_then(command, to, semicolon, from) {
        failure_at(command, to, from)
    } else {
        None
    }
}

// ---- the whole

/// Returns the call that takes the place of a command, if there is one that acrun accepts.
pub(crate) fn spoken(alloc: Global, command: &[u8]) -> Result<Option<Line>, AllocError>
    ensures { IfOk result (λ o.
        IfSome o (λ l. specs.Becomes command.now l.said.now l.put.items)) }
{
    let of_echo = b"echo: -q drops the line";
    if is_blank_echo(command) {
        return call_for(alloc, command, b"AC_MSG_RESULT", &[b""], of_echo);
    }
    if let Some(message) = printed_by(command) {
        return call_for(alloc, command, b"AC_MSG_RESULT", &[message], of_echo);
    }
    if let Some(status) = status_of(command) {
        let said = b"exit: an error is printed";
        return call_for(alloc, command, b"AC_MSG_ERROR", &[command, status], said);
    }
    match failure_of(command) {
        Some((message, status)) => call_for(
            alloc,
            command,
            b"AC_MSG_ERROR",
            &[message, status],
            b"echo and exit: the message is an error",
        ),
        None => Ok(None),
    }
}
