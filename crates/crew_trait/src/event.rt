//! The events of a crew.

use crate::reply::Reply;
use crew_jobs::Job;
use thiserror::Error;

/// A start that was taken, or the end of a child. `number` is the number of starts attempted up to
/// and including this event.
#[derive(Drop)]
pub enum CrewEvent {
    /// A job was started in the slot.
    Started {
        slot: usize,
        job: Job,
        number: u64,
    },
    /// The child in the slot ended, with this reply.
    Ended {
        slot: usize,
        reply: Reply,
        number: u64,
    },
}

/// The error of a start that wasn't taken.
#[derive(Clone, Copy, Debug, PartialEq, Eq, Error)]
#[error("start refused")]
pub struct Refused;
