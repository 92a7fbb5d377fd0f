//! The command `lint`: what is wrong with a configure.ac, and where, without a run.
//!
//! [`run_lint`] reads each source that is named, and prints what is found in it: its errors, as far
//! as reading on after each finds them, the templates that are not there, and warnings, in order of
//! place. It starts nothing and writes no file.
//!
//! ```text
//! run_lint(alloc, files, &[b"--json", b"configure.ac"], false, input, output, errors)   // 1 if there are errors
//! ```
//!
//! "own" marks a rule that no manual gives.
//!
//! `lint_sources` reads a source, finds and shows. In `specs`, read `Status`, and `Refusals` (what
//! is said if the status is 2). Read `command`; `words` reads the words of the command.
#![tactic(auto)]

mod command;
mod words;

pub use command::{may_colour, run_lint};
