//! Why an input can't be read.

ghost use Rattle.std.specs.Prelude.{◌≡◌};
ghost use Rattle.file_texts.specs.declared.input_fault.ReadFault.TheVariants.{OutOfMemory};

use std::alloc::AllocError;
use thiserror::Error;

/// Why an input can't be read.
#[derive(Clone, Copy, Debug, Error)]
pub enum ReadFault {
    /// A read fails, or the input doesn't end within the largest number of reads.
    #[error("read")]
    Read,
    /// Memory ran out.
    #[error("memory")]
    OutOfMemory,
}

impl From<AllocError> for ReadFault {
    ghost from_gives = { λ _ e. e ≡ OutOfMemory };

    fn from(_e: AllocError) -> ReadFault {
        ReadFault::OutOfMemory
    }
}
