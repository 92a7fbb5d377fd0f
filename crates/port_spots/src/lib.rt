//! Where the calls of a configure.ac are, what is around them, which name the table of macros has for
//! each, and how an idiom is written below a comment.
//!
//! A [`Spot`] says of a call where its line begins, whether anything is before it there, and whether it
//! is in an argument of another call. [`Known`] has what is known of the whole text before its calls are
//! gone over.
//!
//! ```text
//! AC_INIT(main.c)     // has the name AC_INIT(file)
//! AC_TRY_CPP(a, b)    // has the name AC_TRY_CPP
//! dnl acrun: in place of AC_FUNC_MALLOC: ..    // such a comment is above an idiom that differs
//! ```
//!
//! Read `specs/Put`, which says what may be put in the place of a call: the crates that replace calls cite
//! it. In `src`, read `spots`, `around` and `bare` (where a call is, and what is before and after it),
//! `rows` (its name in the table), `facts`, and `comments`. The time is in proportion to the length of
//! what is read. A call fails only if memory runs out. "own" marks a rule that no manual gives.
#![tactic(auto)]

mod around;
mod bare;
mod comments;
mod facts;
mod rows;
mod spots;

pub use around::{
    are_blank, are_name_bytes, are_spaces, before_idle, begins_statement, blank_len, ends_in_word,
    ends_statement, goes_on, has_compound, indent_of, is_after_separator, line_indent,
    without_end_blanks,
};
pub use bare::bare_in;
pub use comments::{difference, put_idiom, put_named, put_text};
pub use facts::{Known, Needed, TitleSpot, can_be_noted, joins_next_line, texts};
pub use rows::{count_of, name_of};
pub use spots::{CallWalk, Spot};
