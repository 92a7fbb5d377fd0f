//! A pass over the calls of a configure.ac, as a relation, and what is written in it without the table of
//! macros.
//!
//! A backslash that joins two lines of a list of words goes, a statement after AC_DEFINE gets a line of
//! its own, and an argument with a compound statement of a shell gets brackets, and so does the name of
//! a variable that is spelled as a macro. A macro without parameters that the source defines is written
//! out where it is called, and the definition of one that nothing calls is left out. If all idioms are
//! wanted, messages after AC_OUTPUT come before it.
//!
//! ```text
//! x=$PKG_CONFIG                // becomes x=$[PKG_CONFIG]
//! AC_DEFINE(A) b=1             // becomes two lines
//! ```
//!
//! Read `specs/Rewritten` (what is copied, and what takes the place of the rest) with `specs/Making`,
//! `specs/Compiler`, `specs/Exchanged`, `specs/Chains` and `specs/Pathed` (what crates above put). In
//! `src`, read `making` (where a text below a comment may be put), and then
//! `joints`, `definitions`, `plain`, `lines`, `brackets`, `names` and `output`. The time is in
//! proportion to the length of the text. A call fails only if memory runs out. "own" marks a rule that no
//! manual gives.
#![tactic(auto)]

mod brackets;
mod definitions;
mod joints;
mod lines;
mod making;
mod names;
mod output;
mod plain;

pub use brackets::pass_arguments;
pub use definitions::{pass_defined, pass_spots};
pub use joints::{first_argument, pass_words};
pub use lines::pass_line;
pub use making::{can_be_made, is_init, lacks_version, put_made};
pub use names::{defined_in, names_variable, pass_name};
pub use output::{is_around, pass_output};
pub use plain::pass_plain;
pub use port_edits::{Pass, write_change};
