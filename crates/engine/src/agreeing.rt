//! Two runs of one source.

ghost use Rattle.engine.specs.Agreeing.{ConfiguresAgree};

use proberun::runs_agree;

/// Under the same replies, what a run reports and hands over depends neither on the window nor on
/// the order in which children end. If two runs of one source begin alike, and their n-th replies
/// are the same, for every n that both have, they ask for the same jobs in the same groups, and
/// report and hand over the same. They attempt as many starts, and starts of one number have the
/// same job.
pub fn configures_agree()
    ensures agree { ConfiguresAgree }
{
    runs_agree();
}
