//! What a case gives, and whole runs of it in words: what a run begins with, what it does, what it
//! leaves and hands over, and what is made again.
//!
//! `given` reads what a case gives. `calls` makes the run, over a crew that writes down what it is
//! asked (`recorder`), and `runs` puts it on a page. `whole` makes one run with what it hands over,
//! two in turn, or the same at several windows, and `cuts` those in which a call of the crew is
//! refused. `remakes` makes outputs again from a record. `left` puts what all of them leave.
#![tactic(auto)]

pub mod calls;
pub mod cuts;
pub mod given;
pub mod left;
pub mod recorder;
pub mod remakes;
pub mod runs;
pub mod whole;

pub use calls::read_source;
pub use cuts::{put_each, put_one};
pub use given::{Given, MARK, read_given};
pub use left::View;
pub use remakes::{put_rechecked, put_remade};
pub use runs::{RunView, put_new_lines, put_opening, put_run, put_variables};
pub use whole::{put_second, put_viewed, put_ways};
