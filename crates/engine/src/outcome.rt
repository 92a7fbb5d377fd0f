//! The outcome of a run, in its report.

ghost use Rattle.std.specs.Prelude.{◌≡◌};
ghost use Rattle.engine.specs.Told as told;

use engine_frame::Outcome;

/// Returns the outcome of a run as the report has it.
pub(crate) fn outcome_of(outcome: proberun::Outcome) -> Outcome
    ensures { result ≡ told.outcome_of outcome }
{
    match outcome {
        proberun::Outcome::Completed => Outcome::Completed,
        proberun::Outcome::Stopped(status) => Outcome::Stopped(status),
        proberun::Outcome::CutShort(number) => Outcome::CutShort(number),
    }
}
