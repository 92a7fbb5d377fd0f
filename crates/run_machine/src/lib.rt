//! A machine that walks a plan, from its first step to an end, and stops whenever it asks for jobs.
//!
//! ```text
//! let mut machine = Machine::new(alloc, &plan, vars);
//! loop {
//!     match machine.advance(&plan)? {
//!         Turn::Ask => for k in 0..machine.asked().len() { machine.give(k, reply_to(&machine.asked()[k])) }
//!         Turn::Done => break             // AC_OUTPUT, or the end of the plan
//!         Turn::Stopped(status) => break  // AC_MSG_ERROR, or no compiler
//!         Turn::Cut(number) => break      // the child of this number was refused
//!     }
//! }
//! let end = machine.end();                // the outcome, the variables and the definitions
//! ```
//!
//! Read `specs/Standing` (the position of a machine in a plan, the run that remains from there, and
//! a turn), then `machine`. The crate `run_step` has single steps, and `run_state` what they
//! change.
//!
//! The theorem is about one run: the plan's walk, with the variables that the machine was given and
//! no definitions. At each turn, the run that remains is what the walk leaves to do, and each group
//! of replies leads to the run that follows them.
#![tactic(auto)]

mod machine;

pub use machine::{Machine, Phase, RunEnd, RunOutcome, Turn};
