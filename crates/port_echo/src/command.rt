//! A line with a command.

ghost use Rattle.std.specs.Prelude.{◌≡◌, ◌++◌, ◌∷◌, [], codes, IfSome, IsTrue};
ghost use Rattle.port_echo.specs.Commands as specs;

use crate::line::{begins_line, ends_line};
use port_parts::are_spaces;

/// Returns the command of a line. The line is between the first and the last of three offsets, and
/// the command is at the second one, after spaces alone. If it is another line, returns `None`.
pub fn line_command(text: &[u8], start: usize, at: usize, end: usize) -> Option<&[u8]>
    ensures { IfSome result (λ c. specs.IsCommandLine text.now start at end c.now) }
{
    let is_there = start <= at && at <= end && end <= text.len();
    if is_there
        && begins_line(text, start)
        && are_spaces(&text[start..at])
        && ends_line(text, end)
    {
        Some(&text[at..end])
    } else {
        None
    }
}

/// Returns whether a command is `echo` with an empty word in double quotes.
fn has_quotes(command: &[u8]) -> bool
    ensures { IsTrue result → command.now ≡ codes "echo " ++ (34 ∷ 34 ∷ []) }
{
    command == b"echo \"\"".as_slice()
}

/// Returns whether a command is `echo` with an empty word in single quotes.
fn has_single_quotes(command: &[u8]) -> bool
    ensures { IsTrue result → command.now ≡ codes "echo " ++ (39 ∷ 39 ∷ []) }
{
    command == b"echo ''".as_slice()
}

/// Returns whether a command is `echo` without words.
fn is_alone(command: &[u8]) -> bool
    ensures { IsTrue result → command.now ≡ codes "echo" }
{
    command == b"echo".as_slice()
}

/// Returns whether a command prints an empty line: it is `echo` without words, or with an empty one.
pub fn is_blank_echo(command: &[u8]) -> bool
    ensures { IsTrue result → specs.IsBlankEcho command.now }
{
    is_alone(command) || has_quotes(command) || has_single_quotes(command)
}
