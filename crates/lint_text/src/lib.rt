//! What a text begins with, the text around an offset, and the line and the column of an offset.
//!
//! A text consists of any bytes, and an offset after its end is read as its end, but in [`part`].
//! No call allocates, and none fails. "own" marks a rule that no manual gives.
//!
//! ```text
//! first_name(b"AC_INIT([a])")                          // AC_INIT
//! after_blanks(b"  x=1")                               // x=1
//! position_of(b"AC_INIT([a])\nAC_PROG_CC\n", 15)       // line 2, column 3
//! ```
//!
//! Read `specs/Places.antt` and then `places` (lines and columns), and `pieces` (names, words,
//! lines and parts). `laws` says that the line and the column determine the offset.
#![tactic(auto)]

mod pieces;
mod places;

pub use pieces::{
    after_blanks, before, first_line, first_name, first_word, from, is_word_byte, part,
    without_end_blanks,
};
pub use places::{Position, laws, line_at, line_end, line_start, position_of};
