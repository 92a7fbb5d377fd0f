//! Why a cache text can't be read.

ghost use Rattle.std.specs.Prelude.{◌≡◌, Some};
ghost use Rattle.cachefile.specs.declared.fault.CacheFault.TheVariants.{OutOfMemory};
ghost use Rattle.cachefile.specs.FaultText.{fault_text};

use std::alloc::{AllocError, AllocFailed};
use std::error::Error;
use std::fmt;

/// The first error of a cache text. The number is that of the line, which is 1 for the first.
///
/// It is displayed as its number, followed by `at` and the number of the line if it has one. Out of
/// memory is displayed as `memory`. `TooLarge` takes precedence over the other errors (own).
#[derive(Clone, Copy, Debug, PartialEq, Eq)]
pub enum CacheFault {
    /// The line has none of the forms of a line.
    BadLine(u64),
    /// The line sets a name that is no shell name or doesn't contain `_cv_`.
    BadName(u64),
    /// The text has more than 4,194,304 bytes.
    TooLarge,
    /// Memory ran out.
    OutOfMemory,
}

impl fmt::Display for CacheFault {
    ghost output = { λ f. Some (fault_text f) };

    fn fmt<W: fmt::Write>(&self, f: &mut fmt::Formatter<W>) -> fmt::Result {
        match self {
            CacheFault::BadLine(line) => write!(f, "1 at {line}"),
            CacheFault::BadName(line) => write!(f, "2 at {line}"),
            CacheFault::TooLarge => f.write_str("3"),
            CacheFault::OutOfMemory => f.write_str("memory"),
        }
    }
}

impl Error for CacheFault {}

impl From<AllocError> for CacheFault {
    ghost from_gives = { λ _ e. e ≡ OutOfMemory };

    fn from(_e: AllocError) -> CacheFault {
        CacheFault::OutOfMemory
    }
}

impl<T: Drop> From<AllocFailed<T>> for CacheFault {
    ghost from_gives = { λ _ e. e ≡ OutOfMemory };

    fn from(_e: AllocFailed<T>) -> CacheFault {
        CacheFault::OutOfMemory
    }
}
