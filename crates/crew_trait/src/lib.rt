//! What a crew is: the trait [`Crew`] with the events, replies and logs that its callers see.
//!
//! A crew runs the jobs of a configure run as child processes, several at once. It has sixteen
//! slots, numbered from 0. `start` starts a job in a free slot, and `next` waits for the end of a
//! child, which frees its slot. The account of a crew is what it has done: the starts that were
//! taken and the ends, in order, the number of attempted starts, and the number of refused calls.
//! If a start or an end is refused, nothing is known about what the job would have answered.
//!
//! ```text
//! crew.start(0, job)?;                       // a child, with its conftest written first
//! let (slot, reply) = crew.next();           // 0, and its exit status with what it wrote to standard error
//! ```
//!
//! The crate `crew` has crews. Whoever runs jobs over a crew needs this crate alone.
//!
//! "own" marks a rule that no manual gives.
//!
//! Read `specs/Events.antt` first: the meaning of a list of events, such as the reply to the n-th
//! start and the slots in use. Then read `reply`, `event` and `calls`, which has the trait. `entry`
//! is for whoever runs jobs: the log of the pieces that were printed and of the children.
#![tactic(auto)]

mod calls;
mod entry;
mod event;
mod reply;

pub use calls::Crew;
pub use entry::{Entry, Log};
pub use event::{CrewEvent, Refused};
pub use reply::Reply;
