//! The jobs of one group, run in slots.

ghost use Rattle.std.specs.Prelude.{◌≡◌, ℕ, ◌+◌, ◌^◌, ◌<◌, ◌≤◌, ◌⊎◌, [], ◌∷◌, length, Some, None, IfSome, IfNone, slice_get, replicate};
ghost use Rattle.crew_trait.specs.Events.{Account, IsIdle};
ghost use Rattle.proberun.specs.Ran.{IsWindow};
ghost use Rattle.proberun.specs.Serving.{Serving, Served, HasHeld, HeldBelow, AllHeld, AllFree, MayWait, open_count};

use crate::queue::Queue;
use crate::slots::{free_slot, is_idle};
use crew_jobs::Job;
use crew_trait::{Crew, Reply};
use run_machine::Machine;

// Returns a free slot and the next job, if there are both.
fn next_start(slots: &[Option<usize>], jobs: &mut Queue) -> Option<(usize, Job)>
    ensures free { IfSome result (λ r. slice_get slots.now r.0 ≡ Some None) }
    ensures least { IfSome result (λ r. HeldBelow r.0 slots.now) }
    ensures job { IfSome result (λ r. jobs.old ≡ r.1 ∷ jobs.new) }
    ensures no_start { IfNone result (AllHeld slots.now ⊎ (jobs.old ≡ [])) }
    ensures unchanged { IfNone result (jobs.new ≡ jobs.old) }
{
    let slot = free_slot(slots)?;
    let job = jobs.take_first()?;
    Some((slot, job))
}

// Starts the next job in a free slot.
fn start_one<C: Crew>(
    machine: &mut Machine,
    crew: &mut C,
    slots: &mut [Option<usize>],
    slot: usize,
    job: Job,
    started: usize,
)
    requires serving { (before : Account)
        × Serving before machine.old.jobs started machine.old.replies slots.old
        (C.account crew.old) }
    requires next { slice_get machine.old.jobs started ≡ Some job }
    requires free { slice_get slots.old slot ≡ Some None }
    requires least { HeldBelow slot slots.old }
    requires at_most_16 { length slots.old ≤ 16 }
    requires attempts { (C.account crew.old).attempts < 2 ^ 62 }
    requires failures { (C.account crew.old).failures < 2 ^ 62 }
    ensures serving { (before : Account)
        → Serving before machine.old.jobs started machine.old.replies slots.old (C.account crew.old)
        → Serving before machine.old.jobs (started + 1) machine.new.replies slots.new
        (C.account crew.new) }
    ensures fewer { open_count machine.new.replies ≤ open_count machine.old.replies }
    ensures unchanged { machine.new ≡ record machine.old { replies = machine.new.replies } }
{
    match crew.start(slot, job) {
        Ok(()) => slots[slot] = Some(started),
        Err(_) => machine.give(started, Reply::StartRefused),
    }
}

// Waits until a child ends, and gives its reply to the machine.
fn end_one<C: Crew>(machine: &mut Machine, crew: &mut C, slots: &mut [Option<usize>])
    requires serving { (before : Account) × (started : ℕ)
        × Serving before machine.old.jobs started machine.old.replies slots.old
        (C.account crew.old) }
    requires held { HasHeld slots.old }
    requires failures { (C.account crew.old).failures < 2 ^ 62 }
    ensures serving { (before : Account) (started : ℕ)
        → Serving before machine.old.jobs started machine.old.replies slots.old (C.account crew.old)
        → MayWait slots.old started machine.old.jobs
        → Serving before machine.old.jobs started machine.new.replies slots.new
        (C.account crew.new) }
    ensures fewer { open_count machine.new.replies < open_count machine.old.replies }
    ensures unchanged { machine.new ≡ record machine.old { replies = machine.new.replies } }
{
    let (slot, reply) = crew.next();
    if let Some(job) = slots[slot] {
        slots[slot] = None;
        machine.give(job, reply);
    }
}

/// Runs the jobs that a machine asks for, and gives it the replies. `jobs` has those jobs.
pub(crate) fn serve<C: Crew>(
    machine: &mut Machine,
    crew: &mut C,
    slots: &mut [Option<usize>],
    mut jobs: Queue,
)
    requires jobs { jobs ≡ machine.old.jobs }
    requires fresh { machine.old.replies ≡ replicate (length machine.old.jobs) None }
    requires idle { IsIdle (C.account crew.old).events }
    requires free { AllFree slots.old }
    requires window { IsWindow (length slots.old) }
    requires attempts { (C.account crew.old).attempts + length machine.old.jobs ≤ 2 ^ 62 }
    requires failures { (C.account crew.old).failures + length machine.old.jobs ≤ 2 ^ 62 }
    ensures served { Served (length slots.old) (C.account crew.old) machine.old.jobs
        machine.new.replies (C.account crew.new) }
    ensures unchanged { machine.new ≡ record machine.old { replies = machine.new.replies } }
    ensures free { AllFree slots.new }
{
    let mut started = 0;
    // the label is for the proof only
    'turns: loop {
        if let Some((slot, job)) = next_start(slots, &mut jobs) {
            start_one(machine, crew, slots, slot, job, started);
            started += 1;
        } else if is_idle(slots) {
            return;
        } else {
            end_one(machine, crew, slots);
        }
    }
}
