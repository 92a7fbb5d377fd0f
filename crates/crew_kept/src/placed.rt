//! What is kept of a reply that was taken.

use crate::taken::Taken;
use crew_trait::CrewEvent;

/// What was done without the crew inside.
#[derive(Drop)]
pub(crate) enum Step {
    /// An event of a reply that was taken.
    Happened(CrewEvent),
    /// The start of this number, which was refused.
    Refusal(u64),
}

/// A step at its place.
#[derive(Drop)]
pub(crate) struct Placed {
    // The number of events of the crew inside before it.
    pub(crate) place: u64,
    pub(crate) step: Step,
}

/// A reply that was taken, and wasn't returned yet.
#[derive(Drop)]
pub(crate) struct Waiting {
    pub(crate) slot: usize,
    pub(crate) taken: Taken,
}
