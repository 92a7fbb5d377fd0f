//! A run that was interrupted goes on from its answers.
//!
//! [`Resumed`] is a crew around another one. Once it is told what a run is given, it looks for a
//! file `config.answers` of an interrupted run that rested on the same, and takes the replies that
//! it has. The replies of further children are appended there. A run that comes to its end removes
//! the file.
//!
//! ```text
//! let mut crew = Resumed::new(alloc, &rt, children, Heard::new(rt.stderr()), VERSION);
//! crew.resume(&givens);                      // configure: goes on from 12 answers of a run that was interrupted, ..
//! crew.start(0, job)?;                       // taken, if there is a reply of that run
//! crew.end();                                // the file is gone
//! ```
//!
//! "own" marks a rule that no manual gives.
//!
//! Read `said`, `host_file`, `found` and then `resumed`.
#![tactic(auto)]

mod found;
mod host_file;
mod resumed;
mod said;
mod told;

pub use resumed::Resumed;
