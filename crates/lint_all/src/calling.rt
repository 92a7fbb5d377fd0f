//! The text of what looks like the call of a macro, which is text to m4.

use lint_text::{before, first_name, from};

/// How much is read at most in search of the parenthesis that closes such a call.
const MOST: usize = 1024;

/// Returns whether a line of comment begins at an offset, which m4 drops.
fn begins_comment(text: &[u8], at: usize) -> bool {
    before(text, at).ends_with(b"\n") && from(text, at).starts_with(b"dnl ")
}

/// Returns the length up to the parenthesis that closes the one that a text begins with, and 0 if
/// none does. Brackets quote, and lines of comment outside of them don't count.
fn closed_len(text: &[u8]) -> usize {
    let mut depth: usize = 0;
    let mut brackets: usize = 0;
    let mut is_comment = false;
    let mut len: usize = 0;
    for byte in text.iter().take(MOST) {
        is_comment = is_comment && *byte != b'\n' || brackets == 0 && begins_comment(text, len);
        len = len.saturating_add(1);
        match *byte {
            _ if is_comment => {}
            b'[' => brackets = brackets.saturating_add(1),
            b']' => brackets = brackets.saturating_sub(1),
            b'(' if brackets == 0 => depth = depth.saturating_add(1),
            b')' if brackets == 0 => depth = depth.saturating_sub(1),
            _ => {}
        }
        if depth == 0 {
            return len;
        }
    }
    0
}

/// Returns the length of what looks like a call at the front of a text: a name, and a parenthesis
/// right after it that is closed, with something in it. If there is none, returns 0.
pub(crate) fn called_len(text: &[u8]) -> usize {
    let name = first_name(text);
    let rest = from(text, name.len());
    let is_called = !name.is_empty() && rest.starts_with(b"(") && !rest.starts_with(b"()");
    if !is_called {
        return 0;
    }
    match closed_len(rest) {
        0 => 0,
        len => name.len().saturating_add(len),
    }
}
