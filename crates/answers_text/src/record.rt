//! A record of an answer.

use deftable::Bytes;

/// The answer to a start.
#[derive(Drop)]
pub struct Record {
    /// The number of the start, which is 1 for the first start of a run.
    pub number: u64,
    /// The job, as [`job_text`](crate::job_text) writes it.
    pub job: Bytes,
    /// The exit status of the child, or 256 if a signal ended it.
    pub status: u32,
    /// What the child wrote to standard error.
    pub text: Bytes,
}
