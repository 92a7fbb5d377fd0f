//! The call that tells a crew of a run.

ghost use Rattle.std.specs.Prelude.{◌≡◌};

use crew_trait::Crew;
use deftable::Bytes;

/// What a run is given, as far as its children depend on it.
#[derive(Clone, Copy)]
pub struct Givens<'a> {
    /// The text of the source.
    pub source: &'a [u8],
    /// The arguments.
    pub arguments: &'a [Bytes],
    /// The names of the environment, each with its value.
    pub environment: &'a [(Bytes, Bytes)],
    /// The text of the cache, if there is one.
    pub cache: Option<&'a [u8]>,
}

/// A crew that is told what a run is given before it starts the run's first child.
pub trait Resumes: Crew {
    /// Tells the crew what a run with a cache is given (own). It may then give replies that it kept
    /// of an interrupted run with the same givens. Nothing is started.
    fn resume(&mut self, givens: &Givens<'_>)
        ensures { Self.account self.new ≡ Self.account self.old };
}
