//! Why a text can't be read.

ghost use Rattle.std.specs.Prelude.{◌≡◌};
ghost use Rattle.shellword.specs.declared.fault.ShellFault.TheVariants.{OutOfMemory};

use std::alloc::{AllocError, AllocFailed};
use thiserror::Error;

/// The error of a shell text, with an offset in the text.
#[derive(Clone, Copy, Debug, PartialEq, Eq, Error)]
pub enum ShellFault {
    /// The text isn't a word that this crate reads (POSIX shell, 2.2 and 2.6; which other words are
    /// rejected is own).
    #[error("1 at {0}")]
    BadWord(usize),
    /// The words aren't a test.
    #[error("2 at {0}")]
    BadTest(usize),
    /// The text isn't a list of patterns.
    #[error("3 at {0}")]
    BadPattern(usize),
    /// Memory ran out.
    #[error("memory")]
    OutOfMemory,
}

impl From<AllocError> for ShellFault {
    ghost from_gives = { λ _ e. e ≡ OutOfMemory };

    fn from(_e: AllocError) -> ShellFault {
        ShellFault::OutOfMemory
    }
}

impl<T: Drop> From<AllocFailed<T>> for ShellFault {
    ghost from_gives = { λ _ e. e ≡ OutOfMemory };

    fn from(_e: AllocFailed<T>) -> ShellFault {
        ShellFault::OutOfMemory
    }
}
