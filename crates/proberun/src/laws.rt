//! Laws of runs that are cut and started again.
//!
//! They are laws on the meaning of statements, which a run over a crew is played from ([`crate::run`]).
//! `meaning_resumption` has their definitions. No law here calls anything or is called by a program.

ghost use Rattle.meaning_resumption.specs.Asked.{AsksNoSaved};
ghost use Rattle.meaning_resumption.specs.Law.{Resumes};
ghost use Rattle.meaning_resumption.specs.Plays.{WholeRunsResume};

/// A run was cut, and is started again with the values that its cache saves at that end. If the
/// second run isn't cut, and if the source can be resumed, it ends as a run that begins like the
/// first, under the joint replies: in the same way, with the same definitions in the same order,
/// and with the same value of each variable. Messages, the log and the order of the variables may
/// differ.
pub fn resumes()
    ensures law { Resumes }
{
    meaning_resumption::resumes();
}

/// The same of whole runs as they are played, whose replies are as many as their jobs. The joint
/// replies are as many, too, and none of them is refused.
pub fn whole_runs_resume()
    ensures law { WholeRunsResume }
{
    meaning_resumption::whole_runs_resume();
}

/// A run that begins with the saved values of an end makes no test of a name that was saved,
/// whatever the source.
pub fn asks_no_saved()
    ensures law { AsksNoSaved }
{
    meaning_resumption::asks_no_saved();
}
