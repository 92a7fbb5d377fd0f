//! A crew of real children that takes one that has ended.

ghost use Rattle.std.specs.Prelude.{◌≡◌, ◌≢◌, ◌+◌, ◌^◌, ◌<◌, [], ◌∷◌, ◌++◌, false, true, IfOk, None, OnErr, OnOk, Some};
ghost use Rattle.crew_refusals.specs.Known.{cause_of};
ghost use Rattle.crew_trait.specs.Events.{IsSomeBusy, busy, failure_of};
ghost use Rattle.crew_trait.specs.declared.reply.Reply.TheVariants.{StartRefused};
ghost use Rattle.crew_trait.specs.declared.event.CrewEvent.TheVariants.{Ended, Started};
ghost use Rattle.crew.specs.Counting.{started_in};
ghost use Rattle.crew.specs.Holding.{Ends, RefusesStart, Starts, number_in};
ghost use Rattle.crew_launch.specs.Launch.{IsClearing};

use crate::children::Children;
use crew_jobs::Job;
use crew_launch::{DiskLauncher, PipeEnd, System};
use crew_refusals::Causes;
use crew_trait::{Crew, Refused, Reply};
use std::alloc::{AllocError, Global};
use std::marker::Model;
use std::process::{OpenProcess, Processes};
use std::rt::Files;

/// A crew of real children, as [`ProcessCrew`](crate::ProcessCrew), whose `next` takes the first
/// child whose pipe ends.
///
/// `next` waits for the pipes of all children at once, and reads each that has something to read,
/// so no child waits for a reader while another one is awaited. What it reads is kept in a queue
/// until the child is to end. The child whose pipe ends first is the one that ends; mostly, it has
/// ended itself by then. A child of whose pipe 4 MiB were read ends too. If the system refuses to
/// wait for pipes, the oldest child ends. If one child is alone, no other pipe is to be read, and it
/// ends as in [`ProcessCrew`](crate::ProcessCrew).
#[derive(Drop)]
pub struct ReadyCrew<R: Files + Processes + Drop> {
    children: Children<DiskLauncher<System<R>>>,
}

impl<R: Files + Processes + Drop> Model for ReadyCrew<R> {
    ghost use Rattle.crew.specs.Holding.{RealCrew};

    ghost Value = { RealCrew };

    ghost view = { λ c. c.children };
}

impl<R: Files + Processes + Drop> ReadyCrew<R> {
    /// Returns a crew that has started nothing.
    ///
    /// # Errors
    ///
    /// Fails only if memory runs out.
    pub fn new(rt: R, alloc: Global) -> Result<ReadyCrew<R>, AllocError>
        ensures account { IfOk result (λ c. c.account
            ≡ record { events = []; attempts = 0; failures = 0 }) }
        ensures causes { IfOk result (λ c. c.table.causes ≡ []) }
        ensures stale { IfOk result (λ c. c.stale ≡ None) }
    {
        let launcher = DiskLauncher::new(alloc, System::new(rt), None);
        let children = Children::new(launcher, alloc)?;
        Ok(ReadyCrew { children })
    }

    /// Returns a crew that has started nothing, and that removes a file before the first start that
    /// it attempts, as [`ProcessCrew::removing`](crate::ProcessCrew::removing) says.
    ///
    /// # Errors
    ///
    /// Fails only if memory runs out.
    pub fn removing(rt: R, alloc: Global, stale: &'static str) -> Result<ReadyCrew<R>, AllocError>
        ensures account { IfOk result (λ c. c.account
            ≡ record { events = []; attempts = 0; failures = 0 }) }
        ensures causes { IfOk result (λ c. c.table.causes ≡ []) }
        ensures stale { IfOk result (λ c. c.stale ≡ Some stale.now) }
    {
        let launcher = DiskLauncher::new(alloc, System::new(rt), Some(stale));
        let children = Children::new(launcher, alloc)?;
        Ok(ReadyCrew { children })
    }
}

impl<R: Files + Processes + Drop> Crew for ReadyCrew<R>
where
    <R::Started as OpenProcess>::Stderr: PipeEnd,
{
    ghost account = { λ c. c.account };

    fn start(&mut self, slot: usize, job: Job) -> Result<(), Refused>
        requires slot { slot < 16 }
        requires free { busy slot self.old.account.events ≡ false }
        requires attempts { self.old.account.attempts < 2 ^ 62 }
        requires failures { self.old.account.failures < 2 ^ 62 }
        ensures number { self.new.account.attempts ≡ self.old.account.attempts + 1 }
        ensures taken { OnOk result (self.new.account.events
            ≡ self.old.account.events ++ Started slot job (self.old.account.attempts + 1) ∷ []) }
        ensures taken_count { OnOk result (self.new.account.failures ≡ self.old.account.failures) }
        ensures refused { OnErr result (self.new.account.events ≡ self.old.account.events) }
        ensures refused_count { OnErr result
            (self.new.account.failures ≡ self.old.account.failures + 1) }
        // The slot now has this child, under the number of this start, and every other slot is as
        // before.
        ensures child { OnOk result
            (Starts self.old.table self.new.table slot (self.old.account.attempts + 1)) }
        // The cause of a refused start is kept under its number, if it is one of the first 16.
        ensures cause { OnErr result
            (RefusesStart self.old.table self.new.table (self.old.account.attempts + 1) job) }
        // The file that is to be removed is removed before the first child is started.
        ensures cleared { OnOk result (self.new.stale ≡ None) }
        ensures stale { OnErr result (IsClearing self.old.stale self.new.stale) }
    {
        self.children.start(slot, job)
    }

    fn next(&mut self) -> (usize, Reply)
        requires flying { IsSomeBusy self.old.account.events }
        requires failures { self.old.account.failures < 2 ^ 62 }
        ensures was_busy { busy result.0 self.old.account.events ≡ true }
        ensures ended { self.new.account.events
            ≡ self.old.account.events ++ Ended result.0 result.1 self.old.account.attempts ∷ [] }
        ensures number { self.new.account.attempts ≡ self.old.account.attempts }
        ensures reply { result.1 ≢ StartRefused }
        ensures count { self.new.account.failures
            ≡ self.old.account.failures + failure_of result.1 }
        // The reply is that of the child of the slot, which is the one of the last start there. Its
        // own wait gave the status, and the text is the kept part of what was in its pipe. It was
        // waited for in each case. If the end is refused, its cause is kept.
        ensures child { Ends self.old.table self.new.table result.0
            (number_in result.0 self.old.account.events) result.1 }
        ensures stale { self.new.stale ≡ self.old.stale }
    {
        let place = self.children.place_of_ended();
        self.children.end_at(place)
    }
}

impl<R: Files + Processes + Drop> Causes for ReadyCrew<R> {
    ghost known = { λ c child. cause_of child c.table.causes };

    fn cause(&self, child: u64) -> Option<&[u8]> {
        self.children.cause(child)
    }
}

impl<R: Files + Processes + Drop> crew_tally::Children for ReadyCrew<R> {
    ghost started = { λ c. started_in c.account.events };

    fn children(&self) -> u64 {
        self.children.started()
    }
}
