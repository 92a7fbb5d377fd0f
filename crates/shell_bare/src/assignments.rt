//! The assignments that bare text makes, in order.

ghost use Rattle.std.specs.Prelude.{◌≡◌, ◌==◌, length};

use deftable::Name;
use shellword::Word;
use std::marker::Model;

/// `NAME=WORD`: the variable is set to the value of the word (POSIX shell, 2.9.1).
#[derive(Drop)]
pub struct Assignment {
    /// The name of the variable.
    pub name: Name,
    /// The word, which may have no parts.
    pub value: Word,
}

/// The assignments of bare text, in the order in which they are made. In contracts, its value is
/// their list.
#[derive(Drop)]
pub struct Assignments {
    list: Vec<Assignment>,
}

impl Model for Assignments {
    ghost use Rattle.std.specs.Prelude.{List};
    ghost use Rattle.shell_bare.specs.declared.assignments.Assignment.{Assignment};

    ghost Value = { List Assignment };

    ghost view = { λ a. a.list.items };
}

impl Assignments {
    pub(crate) fn from_vec(list: Vec<Assignment>) -> Assignments
        ensures { result ≡ list.items }
    {
        Assignments { list }
    }

    /// Returns the assignments, in order.
    pub fn as_slice(&self) -> &[Assignment]
        ensures { result.now ≡ self.now }
    {
        self.list.as_slice()
    }

    /// Returns the number of assignments.
    pub fn len(&self) -> usize
        ensures { result ≡ length self.now }
    {
        self.list.len()
    }

    /// Returns whether there is no assignment.
    pub fn is_empty(&self) -> bool
        ensures { result ≡ (length self.now == 0) }
    {
        self.list.is_empty()
    }

    /// Returns the assignments as a vector, in order, without copying them.
    pub fn into_vec(self) -> Vec<Assignment>
        ensures { result.items ≡ self }
    {
        let Assignments { list } = self;
        list
    }
}
