//! Why a child was refused, as a line for a reader.
//!
//! ```text
//! words_of(alloc, b"cc", &error)             // cc: No such file or directory
//! crew.cause(2)                              // Some(b"cc: No such file or directory"), or None if it isn't known
//! ```
//!
//! [`words_of`] makes the line of an error of the system. [`Causes`] is what a crew offers that
//! keeps such lines. A line has no control byte and no newline, so it can't drive a terminal.
//!
//! "own" marks a rule that no manual gives.
//!
//! Read `specs/Shown.antt` first, and then `showing`, `words` and `known`. [`Cause`], in `cause`,
//! is a line, unless memory ran out for it, and [`CauseList`], in `list`, keeps the first ones;
//! `specs/Known.antt` defines which of them is that of a child.
#![tactic(auto)]

mod cause;
mod known;
mod list;
mod showing;
mod words;

pub use cause::Cause;
pub use known::Causes;
pub use list::CauseList;
pub use showing::shown;
pub use words::{line_of, words_of};
