//! Two runs of one plan.

ghost use Rattle.proberun.specs.Agreeing.{RunsAgree};

/// Under the same replies, what a run leaves depends neither on the window nor on the order in
/// which children end. If the n-th replies of two runs are the same, for every n that both have,
/// the runs ask for the same jobs in the same groups, and end in the same way. They attempt as many
/// starts, and starts of one number have the same job.
pub fn runs_agree()
    ensures agree { RunsAgree }
{}
