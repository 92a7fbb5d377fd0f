//! Macros that a configure.ac defines itself: which of them nothing calls, which of those without
//! parameters can be written out, and where their names are.
//!
//! A name that can be written out is called on a line of its own, and at no other place. Its body
//! calls no macro that requires others, and m4 reads it to its end, whatever is after it.
//!
//! ```text
//! AC_DEFUN([MY_CHECK], [AC_MSG_NOTICE([checked])])
//! MY_CHECK                     // becomes AC_MSG_NOTICE([checked])
//! define(MY_VERSION, 1.2)
//! VERSION=MY_VERSION           // becomes VERSION=1.2
//! AC_DEFUN([MY_OLD], [a=$1])   // is left out, if MY_OLD is nowhere else
//! ```
//!
//! Read `specs/Defined`, and then `definition` (what a call defines, and where its name is). Read
//! `specs/Unused` and `unused` for definitions of macros that nothing calls. `lines`, `reading` and
//! `finding` say which definitions are written out or left out, without clauses: whoever writes one
//! out asks `definition` again, and whoever leaves one out asks `unused`. The time is in proportion to the length of the text, for each of at
//! most 50 definitions. A call fails only if memory runs out. "own" marks a rule that no manual gives.
#![tactic(auto)]

mod definition;
mod finding;
mod lines;
mod plain;
mod reading;
mod reserved;
mod unused;
mod words;

pub use definition::{
    argument, body_of, ends_word, has_name, inner, is_letter, is_name_at, is_of_name, is_used,
};
pub use finding::{UseSpot, Written, written_in};
pub use lines::{is_dropped, last_line, space_len};
pub use plain::{PlainWord, plain_word_in};
pub use unused::is_unused_definition;
pub use words::{WordSpot, is_plain_use, is_word_definition};
