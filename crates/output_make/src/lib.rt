//! The record of a run, and the files and headers that are made of it.
//!
//! [`record_of`] returns the record of a run: its arguments, its output variables with their
//! values, its definitions, and its files and headers. [`make_outputs`] makes the files and headers
//! of a record of their templates, and needs nothing else of the run. So a record that is read back
//! gives the same files and headers. [`add_outputs`] appends them to a list, and [`make_file`]
//! makes one file.
//!
//! ```text
//! let record = record_of(alloc, &vars, &defs, &names, b".", &args, &files, &headers)?;
//! let artifacts = make_outputs(alloc, &record, templates, &[])?;   // each file and then each header
//! let artifacts = make_outputs(alloc, &record, templates, tags)?;  // those whose names are tags
//! ```
//!
//! A template is a name and a text. If two templates have one name, the first one counts. A missing
//! template is the empty text; [`find_missing`] returns the output whose template is missing, and
//! [`find_unknown`] the tag that is no output's name. A value that is inserted into a template
//! isn't read again. For an output variable that is unset, nothing is inserted. Each file has a few
//! variables of its own, such as `srcdir`, which override the output variables.
//!
//! A call that returns a `Result` fails only if memory runs out, and no other call allocates. "own"
//! marks a rule that no manual gives.
//!
//! In `specs`, read `Variables` for the output variables and their values, then `Making`, and
//! `Choice` for templates and tags. In the code, read `variables`, `recording`, `choosing` and
//! `filling`. `lookup` finds a template by its name in the same time on average for any number of
//! templates.
#![tactic(auto)]

mod choosing;
mod filling;
mod lookup;
mod recording;
mod variables;

pub use choosing::{find_missing, find_unknown};
pub use filling::{add_outputs, make_file, make_outputs};
pub use recording::record_of;
