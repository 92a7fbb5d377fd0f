//! Crews that keep nothing of a run.

ghost use Rattle.std.specs.Prelude.{◌≡◌};

use crate::resumes::{Givens, Resumes};
use cmd_call::Hears;
use crew::{Crew, Fused, MemoryCrew, ProcessCrew};
use crew_progress::Watched;
use std::process::Processes;
use std::rt::Files;

impl Resumes for MemoryCrew {
    fn resume(&mut self, _givens: &Givens<'_>)
        ensures kept { self.new ≡ self.old }
    {}
}

impl<R: Files + Processes + Drop> Resumes for ProcessCrew<R> {
    fn resume(&mut self, _givens: &Givens<'_>)
        ensures kept { self.new ≡ self.old }
    {}
}

impl<C: Crew + Drop> Resumes for Fused<C> {
    fn resume(&mut self, _givens: &Givens<'_>)
        ensures kept { self.new ≡ self.old }
    {}
}

impl<C: Crew + Drop, W: Hears + Drop> Resumes for Watched<C, W> {
    fn resume(&mut self, _givens: &Givens<'_>)
        ensures kept { self.new ≡ self.old }
    {}
}
