//! The quotes and substitutions that a shell has open.

ghost use Rattle.std.specs.Prelude.{◌≡◌, [], ◌∷◌, OnOk};
ghost use Rattle.lint_marks.specs.Nested as specs;

use crate::nesting::{NestChange, Nesting};
use std::alloc::{AllocError, Global};
use std::marker::Model;

/// Quotes and substitutions that are open. Contracts see the innermost first.
#[derive(Drop)]
pub struct NestList {
    /// The innermost is the last.
    reversed: Vec<Nesting>,
}

impl Model for NestList {
    ghost use Rattle.std.specs.Prelude.{List, reverse};
    ghost use Rattle.lint_marks.specs.declared.nesting.Nesting.{Nesting};

    ghost Value = { List Nesting };

    ghost view = { λ s. reverse s.reversed.items };
}

impl NestList {
    /// Returns an empty list.
    pub(crate) fn new(alloc: Global) -> NestList
        ensures { result ≡ [] }
    {
        NestList {
            reversed: Vec::new(alloc),
        }
    }

    /// Returns the innermost, if there is one.
    pub fn innermost(&self) -> Option<Nesting>
        ensures { result ≡ specs.innermost self.now }
    {
        self.reversed.last().copied()
    }

    /// Returns whether nothing is open.
    pub fn is_closed(&self) -> bool
        ensures { result ≡ specs.is_closed self.now }
    {
        self.innermost().is_none()
    }

    fn push(&mut self, nesting: Nesting) -> Result<(), AllocError>
        ensures { OnOk result (self.new ≡ nesting ∷ self.old) }
    {
        self.reversed.push(nesting)?;
        Ok(())
    }

    fn close(&mut self)
        ensures { self.new ≡ specs.others self.old }
    {
        self.reversed.pop();
    }

    /// Opens or closes what a byte does.
    pub(crate) fn apply(&mut self, change: NestChange) -> Result<(), AllocError>
        ensures { OnOk result (self.new ≡ specs.changed change self.old) }
    {
        match change {
            NestChange::Same => Ok(()),
            NestChange::Opens(nesting) => self.push(nesting),
            NestChange::Closes => {
                self.close();
                Ok(())
            }
        }
    }
}
