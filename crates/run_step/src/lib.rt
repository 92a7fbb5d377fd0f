//! One step of a plan: what it changes, what follows it, and what follows the replies to the jobs
//! that it asks for.
//!
//! ```text
//! match do_step(alloc, &mut store, &mut about, &mut tests, &step)? {
//!     Flow::Pass { more } => place += 1 + more,
//!     Flow::Ask { jobs, wait } => { /* run the jobs, then hear(.., Replied { wait, jobs, replies }, before) */ }
//!     Flow::Complete | Flow::Stop { .. } | Flow::Cut { .. } => { /* the run is at its end */ }
//! }
//! ```
//!
//! Read the crate `run_test` first: it says what a step waits for and what follows it, and has the
//! tests of programs and those that have a form. Then read `stepping`: one step. `statements`
//! does what statements do, and `programs` opens the tests of programs. `asking` begins the
//! choices: a question that is a test becomes a course there. `checks` begins and ends
//! AC_CACHE_CHECK. `replying` continues with the replies to the jobs of a step. The crate
//! `run_state` has what the steps change, and the crate `run_machine` goes from step to step.
//!
//! A batch is a list of headers, functions or declarations whose children are asked for at once.
//! For batches, read `specs/Waiting` first: which entries ask for a child. `batch_jobs` makes the
//! tests of the entries and their jobs, `batch_start` asks for the jobs, and `batch_end` ends the
//! tests with the replies, in the order of the list. If there is nothing to ask for, the entries
//! end at once: the name of each is set, or there is no compiler.
//!
//! The theorem is about one step of a plan's walk, and about the replies to its jobs, as functions
//! of what follows: the walk goes on as the flow says, whatever the tests around it.
#![tactic(auto)]

mod asking;
mod batch_end;
mod batch_jobs;
mod batch_start;
mod checks;
mod programs;
mod replying;
mod statements;
mod stepping;

pub use batch_end::hear_batch;
pub use batch_start::begin_batch;
pub use replying::{Replied, hear};
pub use stepping::do_step;
