//! The lines of the faults of a run, and of outputs that are made again.
//!
//! [`tell_fault`] and [`tell_remake_fault`] write the line of a fault on standard error. Its text is
//! that which the fault displays, and writing it needs no memory. Each `.._spot` returns the words
//! and the number of a fault that a [`Fault`](engine_frame::Fault) holds.
//!
//! ```text
//! tell_fault(errors, Fault::Option(OptionFault::Unknown(3)))  // acrun: option 1 at 3
//! ```
//!
//! "own" marks a rule that no manual gives. In `specs`, read `FaultLines`.
#![tactic(auto)]

mod spots;
mod telling;

pub use telling::{tell_fault, tell_remake_fault};
