//! What comes before and after a run: its inputs are accepted or refused, and its results become
//! what it hands over. Nothing here reads a source or starts a child.
//!
//! [`judge`] goes over the plan, the arguments and the environment of a source, up to the first
//! fault. It returns what a run needs, or the report of a text that is shown. [`begin`] goes over
//! the cache and the templates, and returns what the run begins with. [`artifacts_of`] makes the
//! cache, the record, the files and the headers that a run hands over. [`remake`] makes files and
//! headers again from a record, and puts them, and [`recheck_args`] returns the arguments with
//! which a run is made again. The crate `engine` puts the run in between.
//!
//! ```text
//! let args = recheck_args(alloc, record)?; // `--prefix=/usr` and `CC=cc`, if the run had these
//! let refused = remake(alloc, record, &templates, &[], &mut outputs)?; // puts all outputs; 0 if each was taken
//! ```
//!
//! "own" marks a rule that no manual gives.
//!
//! In `specs`, read `Given` (what is accepted), `Judging` (what [`judge`] returns), `Handing` (what
//! is handed over), `Remade` and `Rechecked`. `Shown`, `Told` and `Faults` are small. In `src`,
//! read `needs`, `judging`, `starting`, `artifacts`, `remaking` and `rechecking`; `showing`,
//! `notes`, `report` and `fault` are small.
#![tactic(auto)]

mod artifacts;
mod fault;
mod judging;
mod needs;
mod notes;
mod rechecking;
mod remaking;
mod report;
mod showing;
mod starting;

pub use artifacts::artifacts_of;
pub use fault::{Fault, RemakeFault};
pub use judging::{Judged, judge};
pub use needs::Needs;
pub use notes::{joined, with_notes};
pub use rechecking::recheck_args;
pub use remaking::{remake, remake_record};
pub use report::{Outcome, Report, status_of};
pub use starting::{Start, begin};
