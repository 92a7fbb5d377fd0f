//! What a run did.

ghost use Rattle.std.specs.Prelude.{◌≡◌};
ghost use Rattle.engine_frame.specs.Told as told;

use crew_trait::Log;
use deftable::{Defs, Notes, Vars};

/// How a run ended.
#[derive(Clone, Copy, PartialEq, Eq)]
pub enum Outcome {
    /// AC_OUTPUT was reached.
    Completed,
    /// An error of the source, or the lack of a compiler, stopped the run with this status.
    Stopped(u8),
    /// The start or the end of the child of this number was refused. Children are numbered from 1,
    /// in the order in which their starts were attempted.
    CutShort(u64),
    /// The help text or the version was shown, and nothing was run.
    Shown,
}

/// What a run did.
#[derive(Drop)]
pub struct Report {
    pub outcome: Outcome,
    /// The variables at the end.
    pub vars: Vars,
    /// The definitions at the end.
    pub defs: Defs,
    /// What is printed: the notes about arguments and precious variables, then the pieces of the
    /// run. If a text is shown, it is the only piece.
    pub messages: Notes,
    /// The same pieces, and the children that were asked for. If a text is shown, it is empty.
    pub log: Log,
    /// The number of artifacts that were handed over.
    pub handed: u64,
}

/// Returns the exit status of a run: 0 if it is completed or a text is shown, 3 if it is cut short,
/// and else the source's own (own).
pub fn status_of(outcome: Outcome) -> u8
    ensures { result ≡ told.status_of outcome }
{
    match outcome {
        Outcome::Completed => 0,
        Outcome::Stopped(status) => status,
        Outcome::CutShort(_) => 3,
        Outcome::Shown => 0,
    }
}
