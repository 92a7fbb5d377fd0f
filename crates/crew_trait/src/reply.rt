//! The reply of a crew to a job.

ghost use Rattle.std.specs.Prelude.{◌≡◌, IfOk};

use deftable::Bytes;
use std::alloc::{AllocError, Global};

/// The result of a job that was given to a crew.
#[derive(Drop)]
pub enum Reply {
    /// The child ended. `status` is its exit status, or 256 if a signal ended it. `text` is what it
    /// wrote to standard error, up to the limit of the crew.
    Answer { status: u32, text: Bytes },
    /// The child wasn't started.
    StartRefused,
    /// The child was started, but nothing is known about what it answered.
    EndRefused,
}

impl Reply {
    /// Returns an equal reply that has its own memory.
    ///
    /// # Errors
    ///
    /// Fails only if memory runs out.
    pub fn copy(&self, alloc: Global) -> Result<Reply, AllocError>
        ensures { IfOk result (λ reply. reply ≡ self.now) }
    {
        match self {
            Reply::Answer { status, text } => {
                let text = text.copy(alloc)?;
                Ok(Reply::Answer {
                    status: *status,
                    text,
                })
            }
            Reply::StartRefused => Ok(Reply::StartRefused),
            Reply::EndRefused => Ok(Reply::EndRefused),
        }
    }
}
