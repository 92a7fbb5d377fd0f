//! A crew whose replies are appended to a file, so that a run that is killed can be gone on with.
//!
//! [`Journal`] is a crew around a [`Kept`](crew_kept::Kept). It appends the reply to each child that
//! the crew inside ran, as a record of `answers_text`: one write for each, after the child's end. A
//! reply that is taken from the records of an earlier run is not appended, since it is in the file
//! already.
//!
//! ```text
//! let kept = Kept::new(alloc, ProcessCrew::new(rt, alloc)?, records);
//! let file = MemoryFile::new(alloc, 100);
//! let mut crew = Journal::new(alloc, kept, file, digest, used);
//! crew.start(0, job)?;                       // nothing is written yet
//! let (slot, reply) = crew.next();           // the file has the record
//! ```
//!
//! If a write fails, memory runs out or the file would have more than 64 MiB, nothing more is appended.
//! What the calls return never depends on the file.
//!
//! "own" marks a rule that no manual gives.
//!
//! `specs/Book.antt` defines the records of a run, `specs/Texts.antt` what is written of them, and
//! `specs/Journal.antt` what contracts see. In the code, read `file`, `flight`, `pen`, `journal`
//! and then `known`.
#![tactic(auto)]

mod file;
mod flight;
mod journal;
mod known;
mod memory;
mod pen;

pub use file::AnswerFile;
pub use journal::Journal;
pub use memory::MemoryFile;
