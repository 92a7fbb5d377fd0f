//! Writes a message in the place of a line with an `echo`, and what means much the same in the place of
//! an `exit`, an `unset` or an `export`.
//!
//! A line is rewritten only if it has the command alone, and if acrun accepts what is put. A comment
//! above it says in what that differs. Where an `echo` or an `exit` shares its line with other commands,
//! the line is broken first, if it is then rewritten.
//!
//! ```text
//! echo using $a         // becomes AC_MSG_RESULT([using $a]) below a comment
//! exit 3                // becomes AC_MSG_ERROR([exit 3], [3]) below a comment
//! a=1; exit 3           // becomes a=1, and on lines below it the comment and the call
//! unset a               // becomes a= below a comment
//! ```
//!
//! Read `specs/Told`, which says what a line becomes, and the definitions of `port_breaks` and
//! `port_edits`, and then `breaking` (which lines are broken), `passing` (the changes of a text),
//! `speaking` (commands that become calls) and `setting` (those that become assignments). Every
//! function fails only if memory runs out. "own" marks a rule that no manual gives.
#![tactic(auto)]

mod breaking;
mod lines;
mod passing;
mod setting;
mod speaking;

pub use breaking::told;
