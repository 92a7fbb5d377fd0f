//! Tests: what is kept of one that has begun, its attempts, and its end.
//!
//! Say that a step looks for the program `cc`, and PATH is `/usr/local/bin:/usr/bin`.
//! [`open_program`] finds that the name of the test is unset, and [`start`] asks for a child that
//! tests `/usr/local/bin/cc`. If that is no program, [`take_answer`] asks for `/usr/bin/cc`.
//!
//! Read `specs/Courses` first. A test that has begun is a course: a search for a program, or the
//! course of a form, which the crate `run_forms` has. Each has a row in each column: its name, what
//! it checks, its attempts, the value if none of them ends it, what is shown, what is done with the
//! value, and what is answered. `specs/Trying` and `specs/Runs` have the rest of a test, and
//! `specs/Flows` what it means that a run continues as a flow says.
//!
//! In `src`, read `course`, `wait` and `flow`, which have the types. `values` has the columns, and
//! `attempts` makes an attempt when its turn comes. `trying` begins any test, takes the answers to
//! its attempts and ends it. `starting` makes the course of a test: a new test adds a start and its
//! form.
//!
//! The theorem is that each test, with what follows it, continues as the flow says,
//! whatever the tests around it.
#![tactic(auto)]

ghost use Rattle.run_test.specs.Laws.{CountsAreOfAttempts, RowsAreOfCourses, ScopesAreOfKinds};

mod attempts;
pub mod compiler;
pub mod course;
mod directories;
pub mod flow;
pub mod questions;
pub mod replies;
mod starting;
pub mod trying;
pub mod values;
pub mod wait;

pub use course::{Course, Search, Trial};
pub use flow::Flow;
pub use starting::{listed_form, open_entry, open_libraries, open_library, open_program};
pub use trying::{Opening, break_off, start, take_answer};
pub use wait::{Wait, Waiting};

/// Each test is that of its course.
pub fn rows_are_of_courses()
    ensures rows { RowsAreOfCourses }
{}

/// What the course of a test answers is what the test does.
pub fn scopes_are_of_kinds()
    ensures scopes { ScopesAreOfKinds }
{}

/// A course has as many attempts as its count says.
pub fn counts_are_of_attempts()
    ensures counts { CountsAreOfAttempts }
{}
