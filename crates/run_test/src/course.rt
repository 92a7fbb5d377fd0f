//! Tests that have begun, with the values that they were begun with.

ghost use Rattle.std.specs.Prelude.{◌≡◌, ◌+◌, ◌<◌, ◌^◌, Some};

use deftable::{Bytes, Texts};
use run_forms::FormCourse;
use std::marker::Model;

/// A search for a program, which sets a variable. Contracts see it as `meaning` defines it.
pub struct Search {
    pub variable: Bytes,
    /// The cached name.
    pub name: Bytes,
    pub program: Bytes,
    /// The value if the program is found, unless it is the program's full name.
    pub found: Option<Bytes>,
    /// The value if the program isn't found.
    pub otherwise: Option<Bytes>,
}

impl Drop for Search {
    fn drop(self) {
        let Search {
            variable: _variable,
            name: _name,
            program: _program,
            found: _found,
            otherwise: _otherwise,
        } = self;
    }
}

impl Model for Search {
    ghost use Rattle.meaning.specs.Rows.{Search};

    ghost Value = { Search };

    ghost view = { λ s. record { variable = s.variable; name = s.name; program = s.program; found = s.found; otherwise = s.otherwise } };
}

impl Search {
    /// Returns the search with another value if the program isn't found.
    pub(crate) fn with_otherwise(self, value: Bytes) -> Search
        ensures { result ≡ record self { otherwise = Some value } }
    {
        let Search {
            variable,
            name,
            program,
            found,
            otherwise: _otherwise,
        } = self;
        Search {
            variable,
            name,
            program,
            found,
            otherwise: Some(value),
        }
    }
}

/// A test, with the values that it was begun with.
#[derive(Drop)]
pub enum Course {
    /// A program is looked for in these directories.
    Program { search: Search, directories: Texts },
    /// Any other test.
    Formed { course: FormCourse },
}

/// A test that has begun, and the place of its next attempt, from 0.
pub struct Trial {
    pub course: Course,
    pub next: usize,
}

impl Drop for Trial {
    fn drop(self) {
        let Trial {
            course: _course,
            next: _next,
        } = self;
    }
}

impl Trial {
    /// Returns the test at the place after this one.
    pub fn moved(self) -> Trial
        requires { self.next + 1 < 2 ^ 64 }
        ensures { result ≡ record { course = self.course; next = self.next + 1 } }
    {
        let Trial { course, next } = self;
        Trial {
            course,
            next: next + 1,
        }
    }
}
