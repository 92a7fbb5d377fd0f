//! What m4 reads of a text outside the calls of Autoconf's macros.

use crate::lines::is_dropped;
use ac_calls::CallAt;
use lint_text::{before, from, is_word_byte, part};
use std::alloc::{AllocError, Global};
use text_cut::trim;

/// What m4 has read of a text outside the calls of Autoconf's macros.
#[derive(Clone, Copy)]
struct Reading {
    /// How many brackets are open.
    depth: usize,
    /// How many parentheses are open, the first of them right after a word.
    opened: usize,
    /// Whether the rest of the line is a comment, or dropped.
    is_comment: bool,
    /// Whether a bracket is in a comment, or closes none.
    has_stray: bool,
}

/// Returns whether the last word of a text goes on with a letter that follows. Digits alone are no
/// word.
pub(crate) fn is_in_word(front: &[u8]) -> bool {
    let digits = front
        .iter()
        .rev()
        .take_while(|byte| (**byte).is_ascii_digit())
        .count();
    before(front, front.len().saturating_sub(digits))
        .last()
        .is_some_and(|byte| is_word_byte(*byte))
}

impl Reading {
    fn new() -> Reading {
        Reading {
            depth: 0,
            opened: 0,
            is_comment: false,
            has_stray: false,
        }
    }

    /// Returns whether m4 takes what comes next for no quote, no comment and no argument.
    fn is_at_top(&self) -> bool {
        self.depth == 0 && self.opened == 0 && !self.is_comment
    }

    /// Reads a byte of a comment.
    fn read_comment(&mut self, byte: u8) {
        if byte == b'\n' {
            self.is_comment = false;
        } else if byte == b'[' || byte == b']' {
            self.has_stray = true;
        }
    }

    /// Reads a bracket.
    fn read_bracket(&mut self, byte: u8) {
        if byte == b'[' {
            self.depth = self.depth.saturating_add(1);
        } else if self.depth == 0 {
            self.has_stray = true;
        } else {
            self.depth -= 1;
        }
    }

    /// Reads a byte that is in no brackets, at an offset.
    fn read_plain(&mut self, text: &[u8], at: usize, byte: u8) {
        let front = before(text, at);
        let is_after_word = front.last().is_some_and(|last| is_word_byte(*last));
        if byte == b'#' || is_dropped(from(text, at)) && !is_in_word(front) {
            self.is_comment = true;
        } else if byte == b'(' && (is_after_word || 0 < self.opened) {
            self.opened = self.opened.saturating_add(1);
        } else if byte == b')' {
            self.opened = self.opened.saturating_sub(1);
        }
    }

    /// Reads the byte at an offset.
    fn read(&mut self, text: &[u8], at: usize, byte: u8) {
        if self.is_comment {
            self.read_comment(byte);
        } else if byte == b'[' || byte == b']' {
            self.read_bracket(byte);
        } else if self.depth == 0 {
            self.read_plain(text, at, byte);
        }
    }
}

fn mark(marks: &mut Vec<bool>, at: usize) {
    if at < marks.len() {
        marks[at] = true;
    }
}

/// Marks the offsets of a call but for the first one.
fn mark_call(marks: &mut Vec<bool>, call: &CallAt) {
    let end = call.end.min(marks.len());
    for at in call.start.saturating_add(1)..end {
        mark(marks, at);
    }
}

/// Returns for each offset whether a call is there that begins before it.
fn inside_calls(alloc: Global, text: &[u8], calls: &[CallAt]) -> Result<Vec<bool>, AllocError> {
    let mut marks = vec![in alloc; false; text.len()]?;
    let mut reach: usize = 0;
    for call in calls {
        if reach <= call.start {
            mark_call(&mut marks, call);
        }
        reach = reach.max(call.end);
    }
    Ok(marks)
}

/// Returns for each offset whether m4 expands a macro there as a part of the source, and of no
/// argument, quote or comment.
pub(crate) fn tops_in(
    alloc: Global,
    text: &[u8],
    calls: &[CallAt],
) -> Result<Vec<bool>, AllocError> {
    let inside = inside_calls(alloc, text, calls)?;
    let mut tops = vec![in alloc; false; text.len()]?;
    let mut reading = Reading::new();
    for at in 0..text.len() {
        if inside.get(at) == Some(&true) {
            continue;
        }
        reading.read(text, at, text[at]);
        if reading.is_at_top() {
            mark(&mut tops, at);
        }
    }
    Ok(tops)
}

/// Returns whether m4 reads a body to its end, whatever is after it: no bracket, parenthesis or
/// comment is open there, and no backslash joins the next line.
pub(crate) fn is_whole(body: &[u8]) -> bool {
    let mut reading = Reading::new();
    for at in 0..body.len() {
        reading.read(body, at, body[at]);
    }
    reading.is_at_top() && !reading.has_stray && !trim(body).ends_with(b"\\")
}

/// The macros that change the quotes or the comments of m4, or that read another file, which may call
/// a macro.
const CHANGING: [&[u8]; 5] = [
    b"changecom",
    b"changequote",
    b"m4_include",
    b"m4_sinclude",
    b"sinclude",
];

/// Returns whether a text has a word that begins as such a macro.
pub(crate) fn changes_reading(text: &[u8]) -> bool {
    for at in 0..text.len() {
        let rest = from(text, at);
        let is_word = !is_in_word(before(text, at));
        if is_word && CHANGING.iter().any(|name| rest.starts_with(*name)) {
            return true;
        }
    }
    false
}

/// Returns whether a call may choose another language than C.
pub(crate) fn chooses_language(text: &[u8], calls: &[CallAt]) -> bool {
    calls.iter().any(|call| part(text, call.start, call.name_end).starts_with(b"AC_LANG"))
}
