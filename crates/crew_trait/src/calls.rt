//! The calls of a crew.

ghost use Rattle.std.specs.Prelude.{◌≡◌, ◌≢◌, ◌+◌, ◌^◌, ◌<◌, [], ◌∷◌, ◌++◌, false, true, OnOk, OnErr};
ghost use Rattle.crew_trait.specs.Events.{Account, busy, IsSomeBusy, failure_of};
ghost use Rattle.crew_trait.specs.declared.event.CrewEvent.TheVariants.{Started, Ended};

use crate::event::Refused;
use crate::reply::Reply;
use crew_jobs::Job;

/// Runs jobs as children in slots. The meaning of a crew is its account: what it has done.
pub trait Crew {
    ghost account: { Self → Account };

    /// Starts a job in a free slot, and keeps the job in the account (own).
    ///
    /// # Errors
    ///
    /// Returns [`Refused`] if the job isn't started. The slot stays free, and the job is dropped.
    fn start(&mut self, slot: usize, job: Job) -> Result<(), Refused>
        requires slot { slot < 16 }
        requires free { busy slot (account self.old).events ≡ false }
        requires attempts { (account self.old).attempts < 2 ^ 62 }
        requires failures { (account self.old).failures < 2 ^ 62 }
        ensures number { (account self.new).attempts ≡ (account self.old).attempts + 1 }
        ensures taken { OnOk result (
            (account self.new).events
            ≡ (account self.old).events ++ Started slot job ((account self.old).attempts + 1)
            ∷ []) }
        ensures taken_count { OnOk result (
            (account self.new).failures ≡ (account self.old).failures) }
        ensures refused { OnErr result ((account self.new).events ≡ (account self.old).events) }
        ensures refused_count { OnErr result ((account self.new).failures ≡ (account self.old).failures + 1) };

    /// Waits for the end of a child, frees its slot, and returns the slot with the reply (own).
    ///
    /// The reply is [`Reply::EndRefused`] if nothing is known about what the child answered.
    fn next(&mut self) -> (usize, Reply)
        requires flying { IsSomeBusy (account self.old).events }
        requires failures { (account self.old).failures < 2 ^ 62 }
        ensures was_busy { busy result.0 (account self.old).events ≡ true }
        ensures ended { (account self.new).events
            ≡ (account self.old).events ++ Ended result.0 result.1 (account self.old).attempts
            ∷ [] }
        ensures number { (account self.new).attempts ≡ (account self.old).attempts }
        ensures reply { result.1 ≢ Reply.StartRefused }
        ensures count { (account self.new).failures ≡ (account self.old).failures + failure_of result.1 };
}
