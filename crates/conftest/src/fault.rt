//! Why a job can't be made.

ghost use Rattle.std.specs.Prelude.{◌≡◌};
ghost use Rattle.conftest.specs.declared.fault.JobFault.TheVariants.{OutOfMemory};

use std::alloc::AllocError;
use thiserror::Error;

/// The error of a call that makes a job.
#[derive(Clone, Copy, Debug, PartialEq, Eq, Error)]
pub enum JobFault {
    /// No compiler is set: the variable that names it has no word.
    #[error("1")]
    NoCompiler,
    /// Memory ran out.
    #[error("memory")]
    OutOfMemory,
}

impl From<AllocError> for JobFault {
    ghost from_gives = { λ _ e. e ≡ OutOfMemory };

    fn from(_e: AllocError) -> JobFault {
        JobFault::OutOfMemory
    }
}
