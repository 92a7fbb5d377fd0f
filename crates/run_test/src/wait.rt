//! What a machine waits for.

use crate::course::Trial;
use deftable::Bytes;
use run_forms::FormCourse;

/// An entry of a batch, and whether it asked for a child.
#[derive(Drop)]
pub struct Waiting {
    pub test: FormCourse,
    pub asks: bool,
}

/// What the replies to the jobs that are asked for decide.
#[derive(Drop)]
pub enum Wait {
    /// No job is asked for.
    Nothing,
    /// The answer to the question of a choice.
    Answer,
    /// Whether the program that is to be run was linked.
    Link,
    /// Whether a test ends. If the child's success is `ends_on`, it ends with the value. Otherwise
    /// the next attempt of `trial` is made.
    Attempt {
        trial: Trial,
        ends_on: bool,
        value: Bytes,
    },
    /// Which entries of a batch are found.
    Batch {
        entries: Vec<Waiting>,
    },
}
