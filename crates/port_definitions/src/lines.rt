//! Lines of a text, and `dnl`.

use lint_text::is_word_byte;

/// Returns the number of spaces, tabs and carriage returns at the front.
pub fn space_len(text: &[u8]) -> usize {
    text.iter()
        .take_while(|byte| matches!(**byte, b' ' | b'\t' | b'\r'))
        .count()
}

/// Returns the offset of the first byte of the last line.
pub fn last_line(text: &[u8]) -> usize {
    let len = text.iter().rev().take_while(|byte| **byte != b'\n').count();
    text.len().saturating_sub(len)
}

/// Returns whether a text begins with `dnl`, and m4 drops the rest of its line.
pub fn is_dropped(text: &[u8]) -> bool {
    let is_longer = text
        .get(3)
        .is_some_and(|byte| is_word_byte(*byte) || *byte == b'(');
    text.starts_with(b"dnl") && !is_longer
}
