//! Checks the inputs of a run, runs the source, and hands its results to a receiver.
//!
//! [`configure`] runs the text of a configure.ac, and [`remake`] makes files and headers again from
//! the record of such a run. [`recheck_args`] returns the arguments with which the run of a record
//! is made again. A run's inputs are values, and its results go to [`Outputs`], so nothing here
//! opens a file. A caller that reads the cache and the templates by what a source and its arguments
//! say has the parts of [`configure`]: `acparse::parse`, [`judge`] and [`go`].
//!
//! ```text
//! let source = b"AC_INIT([demo], [1.0])\nAC_CHECK_HEADERS([sys/stat.h])\nAC_CONFIG_FILES([out])\nAC_OUTPUT\n";
//! // No arguments, no cache, at most four children at once. `templates` has the pair `out.in` and its text.
//! let report = configure(alloc, source, &[], env, None, templates, &mut crew, &mut outputs, 4)?;
//! report.outcome; // Completed; `outputs` took the record and the file `out`
//! ```
//!
//! The crate `engine_frame` has what comes before and after the run, [`remake`] and
//! [`recheck_args`] among it. In `specs`, read `Judged` (what follows from the inputs),
//! `Configured` (the whole), `Kept` (what the cache holds), `Remaking` (the record, given to
//! [`remake`]), `Headline` (what is said of a run, at once) and `Agreeing` (two runs under the same
//! replies); `Told` is small. In `src`, read `configuring`; `reading` and `outcome` are small, and
//! `agreeing` and `remaking` have a law each.
#![tactic(auto)]

mod agreeing;
mod configuring;
mod outcome;
mod reading;
mod remaking;

pub use agreeing::configures_agree;
pub use configuring::{configure, go};
pub use engine_frame::{
    Fault, Judged, Needs, Outcome, RemakeFault, Report, judge, recheck_args, remake, status_of,
};
pub use output_put::{Artifact, Kind, MemoryOutputs, Outputs, PutRefused};
pub use remaking::remakes_agree;
