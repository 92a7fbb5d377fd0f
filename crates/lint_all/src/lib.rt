//! Finds the errors of a configure.ac that is refused: its first fault, the calls of macros that
//! are not known, and the errors of the statements after these. So `lint` lists them, and `port`
//! writes comments above them.
//!
//! A reader stops at the first fault. So a statement with a fault becomes blanks in a copy of the
//! source, and the copy is read again. Most faults are found in a piece of the source that is read
//! alone: some lines that no call, quote or statement goes beyond. Then the whole copy is read.
//! Only so much is read in all: the time grows with the length of the source, and not with the
//! number of its errors too. If many errors are in one statement, some of them may not be found.
//!
//! ```text
//! let text = b"AC_INIT([a],[1])\nx y\nAC_SUBST\nAC_OUTPUT\n";
//! all_errors(alloc, text, &read(alloc, text)?)?   // `x y` at 17, and AC_SUBST at 21
//! ```
//!
//! `lint_marks` says what is open at a place. Read `calling` (what looks like a call), `pieces`
//! (where a piece begins), `masking` (what becomes blanks), `rounds` (the errors of one piece, or of the whole), `joining` (each error once), and
//! then `runs` (all pieces) and `whole`. `specs/Found` has the definitions. A call fails only if
//! memory runs out. "own" marks a rule that no manual gives.
#![tactic(auto)]

mod calling;
mod joining;
mod masking;
mod pieces;
mod rounds;
mod runs;
mod whole;

pub use whole::all_errors;
