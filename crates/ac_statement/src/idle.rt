//! Bare text that has no effect: blanks and comments.

ghost use Rattle.std.specs.Prelude.{◌≡◌, false, IfOk};
ghost use Rattle.ac_statement.specs.Idle as words;

use m4quote::{QuoteFault, bare_value};
use std::alloc::{AllocError, Global};
use text_cut::is_blank;

/// Returns whether a comment is open after this byte, or `None` if the byte is neither a blank nor
/// in a comment.
fn after_byte(in_comment: bool, byte: u8) -> Option<bool>
    ensures { result ≡ words.after_byte in_comment byte }
{
    if in_comment {
        Some(byte != b'\n')
    } else if byte == b'#' {
        Some(true)
    } else if is_blank(byte) {
        Some(false)
    } else {
        None
    }
}

/// Returns whether a value of bare text has blanks and comments alone.
fn is_idle_value(value: &[u8]) -> bool
    ensures { result ≡ words.is_idle_from false value.now }
{
    let mut in_comment = false;
    for byte in value {
        match after_byte(in_comment, *byte) {
            None => return false,
            Some(comment) => in_comment = comment,
        }
    }
    true
}

/// Returns whether bare text has no effect: its value has blanks and comments alone (POSIX, Shell
/// Command Language, "Token Recognition"). If its quotes have an error, it doesn't count as such.
#[tactic(auto, unfolding(crate::specs::Idle::is_idle))]
pub fn is_idle(alloc: Global, text: &[u8]) -> Result<bool, AllocError>
    ensures { IfOk result (λ b. b ≡ words.is_idle text.now) }
{
    match bare_value(alloc, text) {
        Ok(value) => Ok(is_idle_value(value.as_slice())),
        Err(QuoteFault::OutOfMemory) => Err(AllocError),
        Err(_) => Ok(false),
    }
}
