//! A crew that is told what a run rests on.
//!
//! What a run asks for follows from its source, its arguments, its environment, its cache and the
//! replies of its children. So a crew that kept the replies of a run that was interrupted can give
//! them again to a run that rests on the same. Each crew that a run has is told of it, by
//! [`Resumes`], after these are read and before the first child. The crews of the crates `crew` and
//! `crew_progress` keep nothing.
//!
//! ```text
//! crew.resume(&Givens { source, arguments, environment, cache });
//! ```
//!
//! "own" marks a rule that no manual gives.
#![tactic(auto)]

mod resumes;
mod without;

pub use resumes::{Givens, Resumes};
