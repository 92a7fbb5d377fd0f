//! Options that take the next argument as their value.

ghost use Rattle.std.specs.Prelude.{◌≡◌};
ghost use Rattle.options_line.specs.Arguments as words;
ghost use Rattle.options_line.specs.Argument.{argument_of};

use crate::argument::{Argument, Target, read_argument};
use deftable::Bytes;

/// Returns the option that needs the next argument as its value, after an argument with this
/// reading.
fn awaited_by(said: Argument<'_>) -> Option<Target>
    ensures { result ≡ words.awaited_by (argument_of said.entry) }
{
    match said {
        Argument::OptionName(target) => Some(target),
        _ => None,
    }
}

/// Returns the option that needs the next argument as its value, after an argument that may be such
/// a value itself.
pub(crate) fn awaited_after(awaited: Option<Target>, argument: &Bytes) -> Option<Target>
    ensures { result ≡ words.awaited_after awaited argument.now }
{
    match awaited {
        Some(_) => None,
        None => awaited_by(read_argument(argument.as_slice())),
    }
}
