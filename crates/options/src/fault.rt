//! Why a cache can't be used.

ghost use Rattle.std.specs.Prelude.{◌≡◌, Some};
ghost use Rattle.options.specs.declared.fault.PreciousFault.TheVariants.{OutOfMemory};
ghost use Rattle.options.specs.FaultText.{fault_text};

use std::alloc::{AllocError, AllocFailed};
use std::error::Error;
use std::fmt;

/// The first precious variable that isn't as it was in the run that made the cache. The number is
/// the place of the variable in the list of the source's precious variables, which is 1 for the
/// first.
///
/// It is displayed as its number, followed by `at` and that of the variable. Out of memory is
/// displayed as `memory`.
#[derive(Clone, Copy, Debug, PartialEq, Eq)]
pub enum PreciousFault {
    /// The variable was set, and now it is unset.
    WasSet(u64),
    /// The variable was unset, and now it is set.
    WasUnset(u64),
    /// The variable had a value with other fields, which are the texts between blanks.
    Changed(u64),
    /// Memory ran out.
    OutOfMemory,
}

impl fmt::Display for PreciousFault {
    ghost output = { λ f. Some (fault_text f) };

    fn fmt<W: fmt::Write>(&self, f: &mut fmt::Formatter<W>) -> fmt::Result {
        match self {
            PreciousFault::WasSet(number) => write!(f, "1 at {number}"),
            PreciousFault::WasUnset(number) => write!(f, "2 at {number}"),
            PreciousFault::Changed(number) => write!(f, "3 at {number}"),
            PreciousFault::OutOfMemory => f.write_str("memory"),
        }
    }
}

impl Error for PreciousFault {}

impl From<AllocError> for PreciousFault {
    ghost from_gives = { λ _ e. e ≡ OutOfMemory };

    fn from(_e: AllocError) -> PreciousFault {
        PreciousFault::OutOfMemory
    }
}

impl<T: Drop> From<AllocFailed<T>> for PreciousFault {
    ghost from_gives = { λ _ e. e ≡ OutOfMemory };

    fn from(_e: AllocFailed<T>) -> PreciousFault {
        PreciousFault::OutOfMemory
    }
}
