//! What a check is about.

ghost use Rattle.std.specs.Prelude.{◌≡◌, Some, codes};
ghost use Rattle.memchr.specs.Find.{first_of, matches};
ghost use Rattle.cmd_why.specs.Lines as specs_lines;
ghost use Rattle.cmd_why.specs.Subjects as specs;

use crate::lines::{after_front, between};
use bstr::ByteSlice;

/// What a check is about, by its message.
#[derive(Clone, Copy)]
pub(crate) enum Subject<'a> {
    /// A header, a function, a type or a program.
    Entry(&'a [u8]),
    /// A declaration.
    Declaration(&'a [u8]),
    /// A function in a library.
    Library(&'a [u8], &'a [u8]),
    /// A function in some library.
    Libraries(&'a [u8]),
    /// Anything else.
    Other,
}

/// Returns the subject of a text, which is cut at the first ` in -l`.
fn cut(text: &[u8]) -> Subject<'_>
    ensures { specs.subject result
        ≡ specs.cut_at (first_of (matches text.now (codes " in -l") 0)) text.now }
{
    match text.split_once_str(b" in -l") {
        Some((function, library)) => Subject::Library(function, library),
        None => Subject::Entry(text),
    }
}

/// Returns the subject of what is after `for`.
fn sought(text: &[u8]) -> Subject<'_>
    ensures { specs.subject result ≡ specs.sought (Some text.now) }
{
    match after_front(b"library containing ", text) {
        Some(function) => Subject::Libraries(function),
        None => cut(text),
    }
}

/// Returns the subject of a message that is about no declaration.
fn of_search(message: &[u8]) -> Subject<'_>
    ensures { specs.subject result
        ≡ specs.sought (specs_lines.after_front (codes "for ") message.now) }
{
    match after_front(b"for ", message) {
        Some(text) => sought(text),
        None => Subject::Other,
    }
}

/// Returns what the check with this message is about.
#[tactic(auto, unfolding(crate::specs::Subjects::subject_of))]
pub(crate) fn subject_of(message: &[u8]) -> Subject<'_>
    ensures { specs.subject result ≡ specs.subject_of message.now }
{
    match between(b"whether ", b" is declared", message) {
        Some(name) => Subject::Declaration(name),
        None => of_search(message),
    }
}

/// Returns the part of a message that differs from those of other checks with such a subject.
fn core_in<'a>(subject: Subject<'a>, message: &'a [u8]) -> &'a [u8]
    ensures { result.now ≡ specs.core_in (specs.subject subject.entry) message.now }
{
    match subject {
        Subject::Entry(name) => name,
        Subject::Declaration(name) => name,
        Subject::Library(function, _) => function,
        Subject::Libraries(function) => function,
        Subject::Other => message,
    }
}

/// Returns the part of a message that differs from those of other checks of its kind.
#[tactic(auto, unfolding(crate::specs::Subjects::core_of))]
pub(crate) fn core_of(message: &[u8]) -> &[u8]
    ensures { result.now ≡ specs.core_of message.now }
{
    core_in(subject_of(message), message)
}
