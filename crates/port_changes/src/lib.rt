//! What the calls of other macros in a configure.ac become by the idioms of the table, one by one.
//!
//! A call has a change if its idiom is exact, which means that it leaves the same definitions and
//! output variables. If all idioms are wanted, it also has one if its idiom differs: the idiom comes
//! below a comment that says in what. What a call says to readers alone becomes a comment.
//!
//! ```text
//! AC_HAVE_FUNCS(getcwd)        // becomes AC_CHECK_FUNCS([getcwd])
//! AC_C_CONST                   // becomes nothing
//! AC_FUNC_MALLOC               // has none, or becomes a line `dnl acrun: in place of AC_FUNC_MALLOC: ..` and an AC_DEFINE
//! ```
//!
//! Read `specs/Put` of `port_spots` (what may be put), and then `changes` from its end on, `readers` and
//! `keeping` (calls without a meaning), `noted` and `noting` (idioms that differ), and `placing` (what the
//! rest of the text says). A call fails only if memory runs out. "own" marks a rule that no manual gives.
#![tactic(auto)]

mod changes;
mod keeping;
mod noted;
mod noting;
mod placing;
mod readers;

pub use changes::{Change, change_of, is_drawn};
