//! Branches of an `if` that keep the whole of it as it is.

use lint_text::{first_name, from};
use port_parts::begins_statement;

/// Returns whether a text begins with a test of a file: `-`, a letter that asks for a file, and a
/// blank.
fn begins_file_test(text: &[u8]) -> bool {
    let letter = text.get(1).copied().unwrap_or(0);
    let is_file = letter.is_ascii_alphabetic() && !matches!(letter, b'n' | b'z' | b'a' | b'o');
    text.starts_with(b"-") && is_file && text.get(2) == Some(&b' ')
}

/// Returns whether a condition, up to the `then` after it, tests a file.
fn tests_file(text: &[u8]) -> bool {
    for at in 0..text.len() {
        let rest = from(text, at);
        if first_name(rest) == b"then".as_slice() && begins_statement(text, at) {
            return false;
        }
        let is_after_blank = 0 < at && text[at - 1] == b' ';
        if is_after_blank && begins_file_test(rest) {
            return true;
        }
    }
    false
}

/// Returns whether a branch of the `if` that begins at the first offset comes after the second one
/// and tests a file. acrun has no such test, and no program can ask right before the branch.
pub(crate) fn has_file_branch(text: &[u8], start: usize, end: usize) -> bool {
    let word = first_name(from(text, start));
    if word != b"if".as_slice() && word != b"elif".as_slice() {
        return false;
    }
    let mut depth: usize = 0;
    for at in end..text.len() {
        let first = text[at];
        if first != b'i' && first != b'e' && first != b'f' || !begins_statement(text, at) {
            continue;
        }
        let word = first_name(from(text, at));
        if word == b"if".as_slice() {
            depth = depth.saturating_add(1);
        } else if word == b"fi".as_slice() {
            if depth == 0 {
                return false;
            }
            depth -= 1;
        } else if depth == 0 && word == b"elif".as_slice() && tests_file(from(text, at)) {
            return true;
        }
    }
    false
}
