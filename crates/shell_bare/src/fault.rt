//! Why a text can't be read.

ghost use Rattle.std.specs.Prelude.{◌≡◌};
ghost use Rattle.shell_bare.specs.declared.fault.BareFault.TheVariants.{OutOfMemory};

use shellword::ShellFault;
use std::alloc::{AllocError, AllocFailed};
use thiserror::Error;

/// The error of bare text. Offsets count bytes from 0 in the text without its line continuations,
/// which is at most as long as the given text.
#[derive(Clone, Copy, Debug, PartialEq, Eq, Error)]
pub enum BareFault {
    /// A statement that isn't known: at this offset there is neither an assignment nor a lone
    /// colon.
    #[error("1 at {0}")]
    UnknownStatement(usize),
    /// The word of an assignment is rejected. The error's offset counts from the start of the text,
    /// not of the word.
    #[error("2.{0}")]
    Shell(ShellFault),
    /// Memory ran out.
    #[error("memory")]
    OutOfMemory,
}

impl From<AllocError> for BareFault {
    ghost from_gives = { λ _ e. e ≡ OutOfMemory };

    fn from(_e: AllocError) -> BareFault {
        BareFault::OutOfMemory
    }
}

impl<T: Drop> From<AllocFailed<T>> for BareFault {
    ghost from_gives = { λ _ e. e ≡ OutOfMemory };

    fn from(_e: AllocFailed<T>) -> BareFault {
        BareFault::OutOfMemory
    }
}
