//! What follows a step.

use crate::wait::Wait;
use crew_jobs::Job;

/// What follows a step, or the replies to the jobs that it asked for.
#[derive(Drop)]
pub enum Flow {
    /// The next step, or the one that is `more` steps further.
    Pass { more: usize },
    /// Jobs are asked for, at least one and at most 256. `wait` is for their replies.
    Ask { jobs: Vec<Job>, wait: Wait },
    /// The run ends, and is completed.
    Complete,
    /// The run ends, and is stopped with an exit status.
    Stop { status: u8 },
    /// The run ends, and is cut short at the child of this number.
    Cut { number: u64 },
}
