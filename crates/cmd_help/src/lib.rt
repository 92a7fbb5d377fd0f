//! What the program says of itself: its commands and its version.
//!
//! ```text
//! run_help(["status"], output, errors)  // prints how `acrun status` is called, and returns 0
//! run_version(output, errors)           // prints `acrun 0.1.0`
//! ```
//!
//! "own" marks a rule that no manual gives.
//!
//! In `src`, `texts` has the texts and [`VERSION`], the one place that names it. `printing` prints
//! them.
#![tactic(auto)]

mod printing;
mod texts;

pub use printing::{run_help, run_version};
pub use texts::VERSION;
