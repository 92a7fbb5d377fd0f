//! The answers of a run as a text, so that a run that is killed can be gone on with.
//!
//! The text has a first line, which names the run by a digest, and then a record for each answer:
//! the number of the start, the job, the status and what the child wrote. A job stands there with
//! its words, and with the name, the length and the SHA-256 digest of the program that it reads. At
//! its end a record has a digest of the digest before it and of what it says, so that it counts only
//! after the records before it.
//!
//! ```text
//! let mut text = first_line(alloc, &run)?;                 // acrun answers 1 30313233..
//! let answers = read_answers(alloc, &run, text.as_slice())?; // no records, and the first digest
//! let job = job_text(alloc, &job)?;
//! let answer = Record { number: 1, job, status: 0, text: said };
//! let digest = put_record(alloc, &mut text, &first, &answer)?;
//! let answers = read_answers(alloc, &run, text.as_slice())?; // that record, and its digest
//! ```
//!
//! A text may be cut, or it may be another's. So a reading ends at the first place where no record
//! begins, and that is no error. Numbers are eight bytes, and a text comes after its length: no text
//! is the beginning of two records.
//!
//! "own" marks a rule that no manual gives.
//!
//! Read `specs/Texts.antt` first, which defines the text, then `specs/Reading.antt`, which defines
//! what is read of any text, and `specs/Laws.antt`. `laws` says what holds of both. In the code,
//! `record` comes first, then `digest`, `put` and `read`.
#![tactic(auto)]

mod digest;
mod laws;
mod put;
mod read;
mod record;

pub use laws::{jobs, readings};
pub use put::{job_text, put_record, record_text};
pub use read::{Answers, first_line, read_answers};
pub use record::Record;
