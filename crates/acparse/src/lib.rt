//! Reads the text of a configure.ac as a tree of statements, or reports its first error.
//!
//! `parse` reads a whole source: its items (`m4quote`), and from them one statement after another:
//! calls by the table of macros (`ac_macros`), the text between them as assignments (`shell_bare`).
//! The tree is that of the crate `ac_tree`.
//!
//! Read `bare` (text), then `asked` (questions and their cases), `read` (calls and lists of
//! statements), and `source`, which has the theorem: unless memory runs out, `parse` returns a tree
//! exactly if the source has one by `specs/Source.antt` and, item by item, `specs/Statements.antt`.
//! A list of statements is read with its kind (`ac_macros::list_kind`): the file's own list and the
//! commands of AC_CACHE_CHECK differ from other lists in what they may hold.
//!
//! `parse` also decides whether the source can be resumed (`ac_resumable`), and `is_resumable`
//! returns it. `forms` has a law on sources that were read, for the crates above.
//!
//! `parse(alloc, b"AC_INIT([demo],[1.0])\nAC_OUTPUT\n")` gives a source of two statements.
//!
//! Every function fails with `OutOfMemory` if memory runs out.
#![tactic(auto)]

mod asked;
pub mod bare;
pub mod forms;
pub mod read;
pub mod source;

pub use ac_args::ParseFault;
pub use ac_tree::{Case, Declares, Effect, Help, HelpList, Question, Source, Stmt, Subject, When};
pub use output_list::{Output, OutputList};
pub use source::{is_resumable, parse, parse_items};
