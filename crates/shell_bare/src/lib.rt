//! Bare text: the shell statements between macro calls.
//!
//! Reads the value of bare text as the assignments that it makes, in order. Anything else that a
//! shell would do there is an error, and is never skipped.
//!
//! ```text
//! let assignments = read_statements(alloc, b"a=x b=$a  # both\nc='1;2'; :\n")?;
//! for assignment in assignments.into_vec() { .. }    // a: x; b: the value of a; c: 1;2
//! ```
//!
//! A call that takes an allocator fails with `OutOfMemory` if memory runs out, and no other call
//! allocates. "POSIX shell" and a section number refer to POSIX, Shell Command Language, and "own"
//! marks a rule that no standard gives.
//!
//! Read `assignments` and `fault` first. Reading has two steps. `continuation` removes line
//! continuations. `item` then splits the rest into items: spaces, ends of statements, comments,
//! lone colons and assignments, whose words are those of `shellword`. `statements` combines the two
//! steps.
//!
//! `specs/Continuation` and `specs/Statements` define which assignments a text makes, by cases on
//! its front, and `specs/Refused` defines its first error. `specs/Joining` and `specs/Reading` are
//! the same rules as functions. `readings` has the laws that connect both forms, and that connect
//! the quotes of `specs/Continuation` with those of shell words (`specs/Kept`). `proofs/Rows`
//! computes worked examples.
#![tactic(auto)]

mod assignments;
mod continuation;
mod fault;
mod item;
mod readings;
mod statements;

pub use assignments::{Assignment, Assignments};
pub use continuation::{BareContext, after_quoted, escapes, following, is_part_end};
pub use fault::BareFault;
pub use readings::{
    faults_are_exact, faults_are_placed, one_reading, quotes_are_of_words, readings_are_exact,
};
pub use statements::read_statements;
