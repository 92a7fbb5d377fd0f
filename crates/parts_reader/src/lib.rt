//! Reads the parts of a source: calls of macros, `if`, and the commands and words between them.
//!
//! [`read_parts`] gives the list of parts that `ac_parts` describes. What it doesn't understand, as a
//! loop or a here-document, is a part `Other`, in which calls stay parts. What it returns is a tree of
//! the text, since `ac_parts` was asked; how it reads has no clause.
//!
//! Read `read`, and then `lengths`.
#![tactic(auto)]

mod lengths;
mod read;

pub use read::read_parts;
