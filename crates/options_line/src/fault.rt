//! Why a command line could not be read.

ghost use Rattle.std.specs.Prelude.{◌≡◌, Some};
ghost use Rattle.options_line.specs.declared.fault.OptionFault.TheVariants.{OutOfMemory};
ghost use Rattle.options_line.specs.FaultText.{fault_text};

use std::alloc::{AllocError, AllocFailed};
use std::error::Error;
use std::fmt;

/// What is wrong with a command line: the first argument that has an error. The number is that of
/// the argument, which is 1 for the first. It prints as its number and that of the argument.
#[derive(Clone, Copy, Debug, PartialEq, Eq)]
pub enum OptionFault {
    /// Neither a known option nor an assignment.
    Unknown(u64),
    /// A feature or a package whose name is empty, or has another byte than letters, digits, `-`,
    /// `+`, `.` and `_`.
    BadFeature(u64),
    /// A value for a name that is no shell name.
    BadVariable(u64),
    /// The last argument is an option that has no `=` and needs a value.
    MissingValue(u64),
    /// The first option of a feature or a package that the source does not declare, if
    /// `enable_option_checking` is `fatal`. All other errors come first.
    FatalUnrecognized(u64),
    /// Memory ran out.
    OutOfMemory,
}

impl fmt::Display for OptionFault {
    ghost output = { λ f. Some (fault_text f) };

    fn fmt<W: fmt::Write>(&self, f: &mut fmt::Formatter<W>) -> fmt::Result {
        match self {
            OptionFault::Unknown(argument) => write!(f, "1 at {argument}"),
            OptionFault::BadFeature(argument) => write!(f, "2 at {argument}"),
            OptionFault::BadVariable(argument) => write!(f, "3 at {argument}"),
            OptionFault::MissingValue(argument) => write!(f, "4 at {argument}"),
            OptionFault::FatalUnrecognized(argument) => write!(f, "5 at {argument}"),
            OptionFault::OutOfMemory => f.write_str("memory"),
        }
    }
}

impl Error for OptionFault {}

impl From<AllocError> for OptionFault {
    ghost from_gives = { λ _ e. e ≡ OutOfMemory };

    fn from(_e: AllocError) -> OptionFault {
        OptionFault::OutOfMemory
    }
}

impl<T: Drop> From<AllocFailed<T>> for OptionFault {
    ghost from_gives = { λ _ e. e ≡ OutOfMemory };

    fn from(_e: AllocFailed<T>) -> OptionFault {
        OptionFault::OutOfMemory
    }
}
