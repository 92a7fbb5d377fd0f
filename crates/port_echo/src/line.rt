//! A line with an `echo`.

ghost use Rattle.std.specs.Prelude.{◌≡◌, ◌⊎◌, ◌<◌, ◌-◌, length, slice_index, IfSome, IsTrue};
ghost use Rattle.port_echo.specs.Echo as specs;

use crate::printed::message_of;
use port_parts::{are_spaces, is_word};

/// Returns whether a line begins at an offset.
pub(crate) fn begins_line(text: &[u8], at: usize) -> bool
    ensures { IsTrue result
        → (at ≡ 0) ⊎ ((0 < at) × (slice_index text.now (at - 1) ≡ 10)) }
{
    if at == 0 {
        return true;
    }
    at <= text.len() && text[at - 1] == b'\n'
}

/// Returns whether a line ends at an offset.
pub(crate) fn ends_line(text: &[u8], at: usize) -> bool
    ensures { IsTrue result → (at ≡ length text.now) ⊎ (slice_index text.now at ≡ 10) }
{
    if at >= text.len() {
        return at == text.len();
    }
    text[at] == b'\n'
}

/// Returns whether a line is between the first and the last of three offsets, which has only
/// spaces, `echo` at the second one, a space, and what is given to `echo`.
fn is_line(text: &[u8], start: usize, at: usize, end: usize) -> bool
    ensures { IsTrue result → specs.IsLine text.now start at end }
{
    start <= at
        && at <= end
        && 5 <= end - at
        && end <= text.len()
        && begins_line(text, start)
        && are_spaces(&text[start..at])
        && is_word(text, at, b"echo ", at + 5)
        && ends_line(text, end)
}

/// Returns the message that a line prints. The line is between the first and the last of three
/// offsets, and `echo` is at the second one. If it is another line, or if what is printed isn't
/// known, returns `None`.
pub fn echo_message(text: &[u8], start: usize, at: usize, end: usize) -> Option<&[u8]>
    ensures { IfSome result (λ m. specs.IsEcho text.now start at end m.now) }
{
    if !is_line(text, start, at, end) {
        return None;
    }
    message_of(&text[at + 5..end])
}
