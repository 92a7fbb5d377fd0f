//! The record of a run, `config.status`: the text that the outputs of the run can be made from
//! again.
//!
//! [`write_record`] returns the text of a [`Record`], and [`read_record`] the record of a text, or
//! the first fault of a text that is no record's. A record that is written is read back, and a text
//! that is read is written again with the same bytes. The format has two versions: a record without
//! arguments has the first, and one with arguments the second.
//!
//! In a contract, a record is its fields: texts as lists of bytes, tables as lists of entries, and
//! outputs as a list. A call that returns a `Result` runs out of memory or fails as it says, and no
//! other call allocates. "own" marks a rule that no manual gives.
//!
//! ```text
//! let status = read_record(alloc, b"acrun-record 1\nsrcdir .\nvar A x\\ny\nend\n")?;
//! status.vars.get(b"A");                    // `x`, a newline, and `y`
//! let text = write_record(alloc, &status)?; // the same bytes
//! ```
//!
//! In `specs`, read `RecordText` for the text and for what a record may hold, `Line` and `Escape`
//! for its lines and their values, and `Faults` for the first fault of another text. `Reading` has
//! both as functions. What outputs a record may hold is `AreOutputs` of `output_list`. In `src`,
//! read `record`, then `write` and `read`. `laws` has no code.
#![tactic(auto)]

mod escape;
mod fault;
pub mod laws;
mod line;
mod read;
mod record;
mod write;

pub use fault::RecordFault;
pub use output_list::{Output, OutputList, is_path};
pub use read::read_record;
pub use record::Record;
pub use write::write_record;
