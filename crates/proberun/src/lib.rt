//! Runs of a source: the plan of its statements, walked from its first step to an end, with its
//! jobs run by a crew.
//!
//! ```text
//! let plan = compile(alloc, &source)?;
//! let mut crew = ProcessCrew::new(rt, alloc)?;
//! let end = run(alloc, &plan, vars, &mut crew, 4)?;       // at most four children at once
//! // end.outcome, end.vars, end.defs, end.messages and end.log
//! ```
//!
//! Read `specs/Ran` (a run over a crew) with `specs/Starts` (the events of one), then `running`,
//! then `serving` with `specs/Serving` (the jobs of one group, in slots). `specs/Progress` says how
//! far a run is between two groups of jobs. `slots` and `queue` are small, `agreeing` has a law of
//! two runs, and `laws` has those of runs that are cut and started again.
//!
//! What a run leaves is the meaning of the statements under the replies of the crew: the plan's
//! walk is that meaning (`plan::compile`), a machine follows that walk from its beginning to its
//! end ([`Machine::advance`]), and one start of each job that it asks for is attempted, in order. A
//! run begins with the given variables and no definitions. No child is left in flight. Under the
//! same replies, what a run leaves depends neither on the window nor on the order in which children
//! end.
#![tactic(auto)]

mod agreeing;
pub mod laws;
mod queue;
mod running;
mod serving;
mod slots;

pub use agreeing::runs_agree;
pub use run_machine::{Machine, RunEnd, RunOutcome as Outcome, Turn};
pub use running::run;
