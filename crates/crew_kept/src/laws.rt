//! Laws of the definitions.

ghost use Rattle.std.specs.Prelude.{◌≡◌, ◌+◌, ℕ, List, Some, true, false};
ghost use Rattle.crew_jobs.specs.Probe.{Link, job_of, path_of, run_of};
ghost use Rattle.crew_jobs.specs.declared.job.Job.{Job as JobValue};
ghost use Rattle.crew_trait.specs.declared.reply.Reply.{Reply as ReplyValue};
ghost use Rattle.crew_trait.specs.declared.reply.Reply.TheVariants.{Answer};
ghost use Rattle.answers_text.specs.Texts.{job_text};
ghost use Rattle.answers_text.specs.declared.record.Record.{Record as RecordValue};
ghost use Rattle.crew_kept.specs.Links.{is_link, may_run};
ghost use Rattle.crew_kept.specs.Records.{HasNumber, HasReply, IsOnlyOf, answer_of};
ghost use Rattle.crew_kept.specs.declared.state.State.{State as StateValue};
ghost use Rattle.crew_kept.specs.declared.state.State.TheVariants.{Open};

/// The job of a link links, and the one of a run may run a program. The search for a program runs
/// none that was linked.
#[tactic(auto, using(crate::proofs::Linking::links, crate::proofs::Linking::runs, crate::proofs::Linking::finds))]
pub fn jobs_are_known()
    ensures links { (source : List ℕ) (number : ℕ) (vars defs : List (List ℕ × List ℕ))
        (job : JobValue)
        → job_of (Link source) number vars defs ≡ Some job → is_link job ≡ true }
    ensures runs { (number : ℕ) → may_run (run_of number) ≡ true }
    ensures finds { (file : List ℕ) → may_run (path_of file) ≡ false }
{}

/// A reply that is taken is one that the records have for the job at its number, and if they have one
/// alone, it is taken as long as no job differed and memory suffices.
#[tactic(auto, using(crate::proofs::Recorded::sound, crate::proofs::Recorded::complete))]
pub fn replies_are_recorded()
    ensures sound { (state : StateValue) (records : List RecordValue) (number : ℕ) (job : JobValue)
        (reply : ReplyValue)
        → answer_of state records number job ≡ Some reply → HasReply records number job reply }
    ensures complete { (records : List RecordValue) (number : ℕ) (job : JobValue)
        (it : RecordValue)
        → IsOnlyOf records number it → it.job ≡ job_text job
        → (is_link job ≡ true → HasNumber records (number + 1))
        → answer_of Open records number job ≡ Some (Answer it.status it.text) }
{}
