//! The commands `status` and `standin`, and the printing of what `configure` leaves.
//!
//! [`run_status`] makes the outputs of a record again, and [`run_standin`] answers in place of a
//! compiler. [`finish_run`] prints and logs the result of a whole run, and [`print_shown`] prints a
//! text that is shown. The crate `cmd_configure` makes that run, with given arguments or with those
//! of a record. So this crate needs `engine_frame`, and no crate that runs a plan. What happened is
//! a value, [`Happened`], and [`exit_status`] alone makes the exit status of it.
//!
//! For example, `acrun status Makefile` is [`run_status`] with the tag `Makefile`: it reads
//! `config.status`, prints `config.status: creating Makefile` and returns 0.
//!
//! "own" marks a rule that no manual gives.
//!
//! In `specs`, read `Happened`, `Printed` (what a run prints), `Reasons` (the lines of what is
//! wrong), `Left` (what a run leaves), `MadeAgain` and `Unmade`. In `src`, read `happened`,
//! `reporting` and `remaking`; `answering` and `fault_lines` are small.
#![tactic(auto)]

mod answering;
mod fault_lines;
mod happened;
mod remaking;
mod reporting;

pub use answering::run_standin;
pub use fault_lines::{no_memory, no_record, tell_own_cache, tell_remake, tell_run, tell_unread};
pub use happened::{Happened, RunLeft, exit_status};
pub use remaking::{RECORD, run_status};
pub use reporting::{finish_run, print_shown};
