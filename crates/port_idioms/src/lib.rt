//! The idioms that are written in the place of calls. Most are exact: a call of the macro and its
//! idiom leave the same definitions and output variables. For the others there are words that say
//! in what they differ.
//!
//! An idiom is written for some numbers of arguments. An argument is put into it only if the text
//! that m4 puts in its place is known without a definition of any macro, or with one of none of the
//! package's own if the caller says so. For m4 the blanks after an argument are a part of it. They are
//! put into the places where they may matter, and one that has to be a word is not filled then.
//!
//! ```text
//! exact_of(alloc, &index, b"AC_HAVE_FUNCS", 1)?             // the idiom AC_CHECK_FUNCS([$1{FUNCTIONS}])
//! filled(alloc, idiom, &[b"getcwd"], false, b"  ")?         // AC_CHECK_FUNCS([getcwd])
//! other_of(alloc, &index, b"AC_FUNC_MALLOC", 0)?            // an idiom; it says " HAVE_MALLOC is 1 without a check"
//! ```
//!
//! Read `specs/Rows`, `rows` and `exact`, and then `filling`. `asked` has what many crates ask of a call
//! or an argument. `tools/macro_table.py` writes `table`. A call fails only if memory runs out. "own" marks a rule that no manual gives.
#![tactic(auto)]

mod asked;
mod exact;
mod filling;
mod idioms;
mod rows;
mod table;

pub use asked::{is_call_of, is_run};
pub use exact::{Exact, Other, exact_of, other_of};
pub use filling::{ending, filled, text_of, unquoted};
pub use idioms::Idioms;
