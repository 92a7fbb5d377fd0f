//! Why one child was refused.

ghost use Rattle.std.specs.Prelude.{◌≡◌, IfSome, option_map};
ghost use Rattle.crew_refusals.specs.Shown as specs;
ghost use Rattle.crew_refusals.specs.Shown.{IsCauseOf, IsShown};

use crate::words::{line_of, words_of};
use deftable::Bytes;
use std::alloc::Global;
use std::io;
use std::marker::Model;

/// A line that says why a child was refused, unless memory ran out for it.
pub struct Cause {
    line: Option<Bytes>,
}

impl Drop for Cause {
    fn drop(self) {
        let Cause { line: _line } = self;
    }
}

impl Model for Cause {
    ghost use Rattle.std.specs.Prelude.{ℕ, List, Option, IfSome};
    ghost use Rattle.crew_refusals.specs.Shown.{IsShown};

    ghost Value = { Option (List ℕ) };

    ghost view = { λ c. c.line };

    ghost invariant = { λ c. IfSome c.line IsShown };
}

impl Cause {
    /// Returns the cause that is an error of the system about something of this name. If memory
    /// runs out, it has no line.
    pub fn of_error(alloc: Global, name: &[u8], error: &io::Error) -> Cause
        ensures { IfSome result (IsCauseOf name.now) }
    {
        match words_of(alloc, name, error) {
            Ok(line) => Cause { line: Some(line) },
            Err(_) => Cause { line: None },
        }
    }

    /// Returns the cause that these words say of something of this name. If memory runs out, it has
    /// no line.
    #[tactic(auto, using(crate::proofs::Lines::of_words))]
    pub fn of_words(alloc: Global, name: &[u8], words: &[u8]) -> Cause
        ensures words { IfSome result (λ line. line ≡ specs.line_of name.now words.now) }
        ensures named { IfSome result (IsCauseOf name.now) }
    {
        match line_of(alloc, name, words) {
            Ok(line) => Cause { line: Some(line) },
            Err(_) => Cause { line: None },
        }
    }

    /// Returns the line, or `None` if memory ran out for it.
    pub fn line(&self) -> Option<&[u8]>
        ensures line { option_map (λ line. line.now) result ≡ self.now }
        ensures shown { IfSome result (λ line. IsShown line.now) }
    {
        match &self.line {
            Some(line) => Some(line.as_slice()),
            None => None,
        }
    }
}
