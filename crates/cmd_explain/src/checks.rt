//! Where a child is in the log of a run: the check that it is made for, and its command.

use crew_refusals::shown;
use crew_trait::{Entry, Reply};
use deftable::Bytes;
use std::alloc::{AllocError, Global};

/// The most bytes that are shown of a command or of a line.
const MOST_SHOWN: usize = 300;

/// Returns the text of an entry of a log that is a message, or an empty text.
fn message_of(entry: &Entry) -> &[u8] {
    match entry {
        Entry::Said(note) => note.text.as_slice(),
        _ => b"",
    }
}

/// Returns the message without the dots at its end, if it begins a check.
fn checked_by(message: &[u8]) -> Option<&[u8]> {
    if message.starts_with(b"checking ") {
        message.strip_suffix(b"... ")
    } else {
        None
    }
}

/// Returns the check that is open after these entries of a log, if one is. An error, a warning or a
/// notice is not an answer.
pub(crate) fn open_check(log: &[Entry]) -> Option<&[u8]> {
    let mut answered = 0usize;
    for i in 0..log.len() {
        let message = message_of(&log[log.len() - 1 - i]);
        if let Some(check) = checked_by(message) {
            if answered == 0 {
                return Some(check);
            }
            answered -= 1;
        } else if !message.is_empty() && !message.starts_with(b"configure: ") {
            answered = answered.saturating_add(1);
        }
    }
    None
}

/// Returns the place in a log of the child of this number, which is 1 for the first.
pub(crate) fn index_of_child(log: &[Entry], number: u64) -> Option<usize> {
    let mut children = 0u64;
    for i in 0..log.len() {
        if let Entry::Child { .. } = &log[i] {
            children = children.saturating_add(1);
            if children == number {
                return Some(i);
            }
        }
    }
    None
}

/// Returns the words of a command of a log, if the entry is one.
pub(crate) fn words_in(entry: &Entry) -> Option<&[Bytes]> {
    match entry {
        Entry::Child { job, .. } => Some(job.words.as_slice()),
        _ => None,
    }
}

/// Returns the name of the conftest of an entry of a log, if it is a child that has one.
pub(crate) fn conftest_in(entry: &Entry) -> Option<&[u8]> {
    match entry {
        Entry::Child { job, .. } => match &job.file {
            Some(file) => Some(file.0.as_slice()),
            None => None,
        },
        _ => None,
    }
}

/// Returns what the child of an entry of a log wrote to standard error, or an empty text.
pub(crate) fn diagnostics_in(entry: &Entry) -> &[u8] {
    match entry {
        Entry::Child {
            reply: Reply::Answer { text, .. },
            ..
        } => text.as_slice(),
        _ => b"",
    }
}

/// Returns whether a byte goes on a character of UTF-8.
fn goes_on(byte: u8) -> bool {
    byte >= 0x80 && byte < 0xc0
}

/// Returns the front of a text that is shown, without a part of a character at its end.
fn front_of(text: &[u8]) -> &[u8] {
    for i in 0..4 {
        let end = MOST_SHOWN - i;
        if end < text.len() && !goes_on(text[end]) {
            return &text[..end];
        }
    }
    text
}

/// Appends a text as it is shown. One that is longer than what is shown is cut, and has three dots.
pub(crate) fn put_cut(alloc: Global, out: &mut Vec<u8>, text: &[u8]) -> Result<(), AllocError> {
    if text.len() <= MOST_SHOWN {
        return out.extend_from_slice(shown(alloc, text)?.as_slice());
    }
    out.extend_from_slice(shown(alloc, front_of(text))?.as_slice())?;
    out.extend_from_slice(b"...")
}

/// Returns the words of a command with blanks between them.
fn joined(alloc: Global, words: &[Bytes]) -> Result<Vec<u8>, AllocError> {
    let mut out = Vec::new(alloc);
    for word in words {
        if !out.is_empty() {
            out.push(b' ')?;
        }
        out.extend_from_slice(word.as_slice())?;
    }
    Ok(out)
}

/// Appends a command as it is shown.
pub(crate) fn put_command(
    alloc: Global,
    out: &mut Vec<u8>,
    words: &[Bytes],
) -> Result<(), AllocError> {
    let command = joined(alloc, words)?;
    put_cut(alloc, out, command.as_slice())
}
