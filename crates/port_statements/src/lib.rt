//! Finds the statements of a shell in a source that a call may be put in the place of: `if`, `case`,
//! `for`, what is after `&&` or `||`, some assignments, and lines with an `echo` and its like.
//!
//! A source has a list of statements, and so has each argument in brackets that holds statements.
//! `port_places` says of each byte of a list what it is to a shell.
//!
//! `if x; then echo y; fi` has two statements: the `if`, and the line with the `echo`. Of each the
//! offsets of its words are known. In `echo "if x; then y; fi"` there is only the line.
//!
//! It is proved that each of them begins outside quotes, substitutions, comments and
//! here-documents. Nothing else is proved of what is found: `port_compounds` reads the parts of a
//! statement, and judges whether it is one.
//!
//! Read `specs/Statements`, and then `lists` from `statements_in` on. `offsets` has where statements may
//! begin, in whatever list. In `reading` is one list, word by word, `compound` has a compound statement
//! that is open, and `compounds` those that are open at one place. `needs` finds where Autoconf makes
//! checks that macros require. Every function fails only if memory runs out.
#![tactic(auto)]

mod compound;
mod compounds;
mod cut;
mod lists;
mod needs;
mod offsets;
mod reading;
mod words;

pub use cut::{Kept, Obstacle, StatementCut};
pub use lists::{Statements, cuts_in, statements_in};
pub use needs::{drawing_in, draws};
pub use offsets::may_begin;
