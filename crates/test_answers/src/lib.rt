//! What a case over memory may want to see, and what it sees.
//!
//! [`kind_of`] has the kinds of answers by the names of sections (`kinds`), and [`put_answer`] puts
//! the answer of a kind to what a case gives, in the words of the crates `test_trees`, `test_runs`
//! and `test_rows` (`answers`). `calls` makes the calls of the other crates, of the filter among
//! them, and `pieces` has an input that is read piece by piece.
//!
//! Nothing here needs the program's commands, so this crate is proved before them. Nothing has a
//! clause: what a case wants is compared when it runs.
#![tactic(auto)]

pub mod answers;
pub mod calls;
pub mod kinds;
pub mod pieces;

pub use answers::put_answer;
pub use kinds::{AnswerKind, kind_of};
