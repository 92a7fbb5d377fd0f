//! Calls that `acrun port` wrote.

use lint_text::{after_blanks, before, from, line_start, part};

/// What a comment begins with that `acrun port` writes above a text of its own.
const NOTE: &[u8] = b"dnl acrun: in place of ";

/// Returns whether the last line of a text is such a comment.
fn ends_with_note(text: &[u8]) -> bool {
    let line = from(text, line_start(text, text.len()));
    after_blanks(line).starts_with(NOTE)
}

/// Returns whether what is at an offset begins its line, and such a comment is on the line above.
pub(crate) fn is_noted(text: &[u8], at: usize) -> bool {
    let start = line_start(text, at);
    if !after_blanks(part(text, start, at)).is_empty() {
        return false;
    }
    match before(text, start).split_last() {
        Some((_, above)) => ends_with_note(above),
        None => false,
    }
}
