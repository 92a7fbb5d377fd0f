//! What is asked of calls and arguments.

ghost use Rattle.std.specs.Prelude.{◌≡◌, ◌+◌, ◌<◌, ◌^◌, slice_range, IsTrue};
ghost use Rattle.ac_calls.specs.Calls.{macro_call_of};
ghost use Rattle.ac_statement.specs.Inside as inside;

use ac_calls::CallAt;

/// Returns whether the call is one of a macro of this name.
pub fn is_call_of(text: &[u8], call: &CallAt, name: &[u8]) -> bool
    ensures { IsTrue result
        → slice_range text.now (macro_call_of call.now).start (macro_call_of call.now).name_end
        ≡ name.now }
{
    let has_name = call.start <= call.name_end && call.name_end <= text.len();
    has_name && &text[call.start..call.name_end] == name
}

/// Returns how many brackets are open after this byte.
fn depth_after(depth: usize, byte: u8) -> usize
    requires { depth + 1 < 2 ^ 64 }
    ensures { result ≡ inside.depth_after depth byte }
{
    match byte {
        b'[' => depth + 1,
        b']' => depth.saturating_sub(1),
        _ => depth,
    }
}

/// Returns whether the one bracket that is open before the text is closed by its last byte, and not
/// earlier.
fn closes_at_end(text: &[u8]) -> bool
    ensures { result ≡ inside.closes_at_end 1 text.now }
{
    let mut depth = 1;
    for byte in text {
        if depth == 0 {
            return false;
        }
        depth = depth_after(depth, *byte);
    }
    depth == 0
}

/// Returns whether a text is one quoted text.
pub fn is_run(text: &[u8]) -> bool
    ensures { result ≡ inside.is_run text.now }
{
    match text {
        [] => false,
        [first, rest @ ..] => *first == b'[' && closes_at_end(rest),
    }
}
