//! A crew of real children.

ghost use Rattle.std.specs.Prelude.{◌≡◌, ◌≢◌, ◌+◌, ◌^◌, ◌<◌, [], ◌∷◌, ◌++◌, false, true, IfOk, None, OnErr, OnOk, Some};
ghost use Rattle.crew_refusals.specs.Known.{cause_of};
ghost use Rattle.crew_trait.specs.Events.{IsSomeBusy, busy, failure_of, slots_in_flight};
ghost use Rattle.crew_trait.specs.declared.reply.Reply.TheVariants.{StartRefused};
ghost use Rattle.crew_trait.specs.declared.event.CrewEvent.TheVariants.{Ended, Started};
ghost use Rattle.crew.specs.Counting.{started_in};
ghost use Rattle.crew.specs.Holding.{Ends, RefusesStart, Starts, number_in};
ghost use Rattle.crew_launch.specs.Launch.{IsClearing};

use crate::children::Children;
use crew_jobs::Job;
use crew_launch::{DiskLauncher, System};
use crew_refusals::Causes;
use crew_trait::{Crew, Refused, Reply};
use std::alloc::{AllocError, Global};
use std::marker::Model;
use std::process::Processes;
use std::rt::Files;

/// A crew that starts real children, in the directory and with the environment of the program.
///
/// `start` removes what a compiler made of an earlier conftest of this name, as `conftest1.o` and
/// `conftest1`, if they are regular files or links. It writes the conftest to a new file, in the
/// place of a regular file or a link of its name if there is one, and starts the child with empty
/// standard input; its standard output is dropped. The start is refused if the job has no word, if a
/// word isn't UTF-8, if the name of its file doesn't begin with `conftest` or has a slash, if what a
/// compiler makes can't be removed, if the conftest can't be written or the child can't be started,
/// or if memory for its record runs out.
///
/// `next` waits for the oldest child. It reads what the child writes to standard error, up to its
/// end or for 4 MiB, in however many pieces it arrives, and keeps the first 65,536 bytes. A read
/// that a signal interrupts is tried up to 1,024 times. It then closes the pipe and waits for the
/// child. The end is refused if a read or the wait fails, or if memory for its record runs out. The
/// child is waited for even if a read fails.
#[derive(Drop)]
pub struct ProcessCrew<R: Files + Processes + Drop> {
    children: Children<DiskLauncher<System<R>>>,
}

impl<R: Files + Processes + Drop> Model for ProcessCrew<R> {
    ghost use Rattle.crew.specs.Holding.{RealCrew};

    ghost Value = { RealCrew };

    ghost view = { λ c. c.children };
}

impl<R: Files + Processes + Drop> ProcessCrew<R> {
    /// Returns a crew that has started nothing.
    ///
    /// # Errors
    ///
    /// Fails only if memory runs out.
    pub fn new(rt: R, alloc: Global) -> Result<ProcessCrew<R>, AllocError>
        ensures account { IfOk result (λ c. c.account
            ≡ record { events = []; attempts = 0; failures = 0 }) }
        ensures causes { IfOk result (λ c. c.table.causes ≡ []) }
        ensures stale { IfOk result (λ c. c.stale ≡ None) }
    {
        let launcher = DiskLauncher::new(alloc, System::new(rt), None);
        let children = Children::new(launcher, alloc)?;
        Ok(ProcessCrew { children })
    }

    /// Returns a crew that has started nothing, and that removes a file before the first start that
    /// it attempts, such as a log that an earlier run left. Only a regular file or a link is
    /// removed, and that it can't be is not reported. If the system refuses to look at it, that
    /// start is refused.
    ///
    /// # Errors
    ///
    /// Fails only if memory runs out.
    pub fn removing(rt: R, alloc: Global, stale: &'static str) -> Result<ProcessCrew<R>, AllocError>
        ensures account { IfOk result (λ c. c.account
            ≡ record { events = []; attempts = 0; failures = 0 }) }
        ensures causes { IfOk result (λ c. c.table.causes ≡ []) }
        ensures stale { IfOk result (λ c. c.stale ≡ Some stale.now) }
    {
        let launcher = DiskLauncher::new(alloc, System::new(rt), Some(stale));
        let children = Children::new(launcher, alloc)?;
        Ok(ProcessCrew { children })
    }
}

impl<R: Files + Processes + Drop> Crew for ProcessCrew<R> {
    ghost account = { λ c. c.account };

    fn start(&mut self, slot: usize, job: Job) -> Result<(), Refused>
        requires slot { slot < 16 }
        requires free { busy slot self.old.account.events ≡ false }
        requires attempts { self.old.account.attempts < 2 ^ 62 }
        requires failures { self.old.account.failures < 2 ^ 62 }
        ensures number { self.new.account.attempts ≡ self.old.account.attempts + 1 }
        ensures taken { OnOk result (self.new.account.events
            ≡ self.old.account.events ++ Started slot job (self.old.account.attempts + 1) ∷ []) }
        ensures taken_count { OnOk result (self.new.account.failures ≡ self.old.account.failures) }
        ensures refused { OnErr result (self.new.account.events ≡ self.old.account.events) }
        ensures refused_count { OnErr result
            (self.new.account.failures ≡ self.old.account.failures + 1) }
        // The slot now has this child, under the number of this start, and every other slot is as
        // before.
        ensures child { OnOk result
            (Starts self.old.table self.new.table slot (self.old.account.attempts + 1)) }
        // The cause of a refused start is kept under its number, if it is one of the first 16.
        ensures cause { OnErr result
            (RefusesStart self.old.table self.new.table (self.old.account.attempts + 1) job) }
        // The file that is to be removed is removed before the first child is started.
        ensures cleared { OnOk result (self.new.stale ≡ None) }
        ensures stale { OnErr result (IsClearing self.old.stale self.new.stale) }
    {
        self.children.start(slot, job)
    }

    fn next(&mut self) -> (usize, Reply)
        requires flying { IsSomeBusy self.old.account.events }
        requires failures { self.old.account.failures < 2 ^ 62 }
        ensures was_busy { busy result.0 self.old.account.events ≡ true }
        ensures ended { self.new.account.events
            ≡ self.old.account.events ++ Ended result.0 result.1 self.old.account.attempts ∷ [] }
        ensures number { self.new.account.attempts ≡ self.old.account.attempts }
        ensures reply { result.1 ≢ StartRefused }
        ensures count { self.new.account.failures
            ≡ self.old.account.failures + failure_of result.1 }
        // The child that was started first ends first.
        ensures oldest { slots_in_flight self.old.account.events
            ≡ result.0 ∷ slots_in_flight self.new.account.events }
        // The reply is that of the child of the slot, which is the one of the last start there. Its
        // own wait gave the status, and the text is the kept part of what was in its pipe. It was
        // waited for in each case. If the end is refused, its cause is kept.
        ensures child { Ends self.old.table self.new.table result.0
            (number_in result.0 self.old.account.events) result.1 }
        ensures stale { self.new.stale ≡ self.old.stale }
    {
        self.children.end_at(0)
    }
}

impl<R: Files + Processes + Drop> Causes for ProcessCrew<R> {
    ghost known = { λ c child. cause_of child c.table.causes };

    fn cause(&self, child: u64) -> Option<&[u8]> {
        self.children.cause(child)
    }
}

impl<R: Files + Processes + Drop> crew_tally::Children for ProcessCrew<R> {
    ghost started = { λ c. started_in c.account.events };

    fn children(&self) -> u64 {
        self.children.started()
    }
}
