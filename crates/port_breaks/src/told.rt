//! The commands of which it is known what takes their place, and where they end.

ghost use Rattle.std.specs.Prelude.{◌≡◌, ◌++◌, true, codes, length, IfSome, IsTrue};
ghost use Rattle.std.specs.List.{list_all};
ghost use Rattle.port_breaks.specs.Breaks as specs;

use port_echo::{is_blank_echo, message_of};

/// Returns the text after a word, if a command begins with the word.
pub fn rest_after<'a>(command: &'a [u8], word: &[u8]) -> Option<&'a [u8]>
    ensures { IfSome result (λ rest. command.now ≡ word.now ++ rest.now) }
{
    command.strip_prefix(word)
}

/// Returns whether a command that is `echo` and a text prints a line that is known.
fn prints(command: &[u8], given: &[u8]) -> bool
    requires { command.now ≡ codes "echo " ++ given.now }
    ensures { IsTrue result → specs.IsTold command.now }
{
    let _ = command;
    match message_of(given) {
        Some(_message) => true,
        None => false,
    }
}

fn is_status(byte: u8) -> bool
    ensures { result ≡ specs.is_status byte }
{
    48 < byte && byte < 58
}

/// Returns whether a text is one digit that isn't 0.
pub fn is_digit(text: &[u8]) -> bool
    ensures { IsTrue result
        → (length text.now ≡ 1) × (list_all specs.is_status text.now ≡ true) }
{
    text.len() == 1 && text.iter().all(|byte| is_status(*byte))
}

/// Returns whether a command that is `exit` and a text ends the run with a digit that isn't 0.
fn ends(command: &[u8], status: &[u8]) -> bool
    requires { command.now ≡ codes "exit " ++ status.now }
    ensures { IsTrue result → specs.IsTold command.now }
{
    let _ = command;
    is_digit(status)
}

/// Returns whether a command ends the run with a digit that isn't 0.
fn is_exit(command: &[u8]) -> bool
    ensures { IsTrue result → specs.IsTold command.now }
{
    match rest_after(command, b"exit ") {
        Some(status) => ends(command, status),
        None => false,
    }
}

/// Returns whether it is known what takes the place of a command: it prints a line by `echo`, or
/// ends the run with a status of one digit that isn't 0.
pub(crate) fn is_told(command: &[u8]) -> bool
    ensures { IsTrue result → specs.IsTold command.now }
{
    if is_blank_echo(command) {
        return true;
    }
    match rest_after(command, b"echo ") {
        Some(given) => prints(command, given),
        None => is_exit(command),
    }
}

/// Returns whether words without quotes end before the byte.
fn ends_words(byte: u8) -> bool {
    byte == b'\n' || byte == b';' || byte == b']'
}

/// Returns the offset of the first byte from an offset on that words without quotes end before.
fn end_of_words(text: &[u8], from: usize) -> usize {
    for i in from..text.len() {
        if ends_words(text[i]) {
            return i;
        }
    }
    text.len()
}

/// Returns the offset after the next quote from an offset on.
fn end_of_quoted(text: &[u8], from: usize, quote: u8) -> usize {
    for i in from..text.len() {
        if text[i] == quote {
            return i.saturating_add(1);
        }
    }
    text.len()
}

/// Returns the offset of the spaces before an offset, but none before `start`.
pub fn before_spaces(text: &[u8], start: usize, at: usize) -> usize {
    for i in (start..at.min(text.len())).rev() {
        if text[i] != b' ' && text[i] != b'\t' {
            return i.saturating_add(1);
        }
    }
    start.min(at)
}

/// Returns the offset after the spaces that are at an offset.
pub fn after_spaces(text: &[u8], at: usize) -> usize {
    for i in at..text.len() {
        if text[i] != b' ' && text[i] != b'\t' {
            return i;
        }
    }
    text.len().max(at)
}

/// Returns the offset after a command that begins at an offset. If it has one word in quotes, it
/// ends after that.
pub(crate) fn command_end(text: &[u8], at: usize) -> usize {
    let from = at.saturating_add(5);
    match text.get(from) {
        Some(b'"') => end_of_quoted(text, from.saturating_add(1), b'"'),
        Some(b'\'') => end_of_quoted(text, from.saturating_add(1), b'\''),
        _ => before_spaces(text, at, end_of_words(text, at)),
    }
}
