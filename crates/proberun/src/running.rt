//! A whole run.

ghost use Rattle.std.specs.Prelude.{◌≡◌, ◌^◌, ◌≤◌, IfOk, IsSome, OnErr, OnOk, length};
ghost use Rattle.crew_trait.specs.Events.{IsIdle, in_flight};
ghost use Rattle.run_machine.specs.Standing.{outcome_of};
ghost use Rattle.run_machine.specs.declared.machine.RunEnd.{RunEnd};
ghost use Rattle.meaning.specs.Meaning.{meaning};
ghost use Rattle.meaning.specs.Play.{whole};
ghost use Rattle.meaning.specs.State.{opened};
ghost use Rattle.plan.specs.Inside.{asks_after};
ghost use Rattle.plan.specs.Walk.{DoesWhat, empty_mind, walk};
ghost use Rattle.proberun.specs.Progress.{HasBegun, Leaves, WasRun, before_steps};
ghost use Rattle.proberun.specs.Ran.{IsWindow, MayRun, Ran};
ghost use Rattle.proberun.specs.Serving.{AllFree};
ghost use Rattle.ac_tree.specs.Script.{Script};

use crate::queue::Queue;
use crate::serving::serve;
use crate::slots::free_slots;
use crew_trait::Crew;
use deftable::Vars;
use plan::Plan;
use run_machine::{Machine, RunEnd, Turn};
use std::alloc::{AllocError, Global};

// For the proof only: a plan asks for at most 2^36 jobs, which the contract of `steps` says.
fn bound(plan: &Plan)
    ensures { asks_after plan.now 0 ≤ 2 ^ 36 }
{
    let _steps = plan.steps();
}

// Runs a machine that is before its first step, group by group, to the end of its run.
fn run_groups<C: Crew>(
    alloc: Global,
    plan: &Plan,
    machine: &mut Machine,
    crew: &mut C,
    slots: &mut [Option<usize>],
) -> Result<(), AllocError>
    requires first { machine.old ≡ before_steps machine.old.state }
    requires free { AllFree slots.old }
    requires window { IsWindow (length slots.old) }
    requires may_run { MayRun (C.account crew.old) }
    ensures idle { IsIdle (C.account crew.new).events }
    ensures landed { in_flight (C.account crew.new).events ≡ in_flight (C.account crew.old).events }
    ensures ended { OnOk result (IsSome (outcome_of machine.new.phase)) }
    ensures ran { OnOk result (
        (end : RunEnd) → Leaves machine.new.phase machine.new end
        → Ran (length slots.old) (whole (walk plan.now 0 empty_mind machine.old.state))
        (C.account crew.old) (C.account crew.new) end) }
    ensures begun { OnErr result (
        HasBegun (length slots.old) (whole (walk plan.now 0 empty_mind machine.old.state))
        (C.account crew.old) (C.account crew.new)) }
{
    bound(plan);
    // the label is for the proof only
    'groups: loop {
        match machine.advance(plan)? {
            Turn::Ask => {
                let jobs = Queue::copied(alloc, machine.asked())?;
                serve(machine, crew, slots, jobs);
            }
            _ => return Ok(()),
        }
    }
}

// Runs a plan in these slots, which are free.
fn run_in<C: Crew>(
    alloc: Global,
    plan: &Plan,
    vars: Vars,
    crew: &mut C,
    slots: &mut [Option<usize>],
) -> Result<RunEnd, AllocError>
    requires free { AllFree slots.old }
    requires window { IsWindow (length slots.old) }
    requires may_run { MayRun (C.account crew.old) }
    ensures idle { IsIdle (C.account crew.new).events }
    ensures landed { in_flight (C.account crew.new).events ≡ in_flight (C.account crew.old).events }
    ensures ran { IfOk result (λ end.
        Ran (length slots.old) (whole (walk plan.now 0 empty_mind (opened vars)))
        (C.account crew.old) (C.account crew.new) end) }
    ensures begun { OnErr result (
        HasBegun (length slots.old) (whole (walk plan.now 0 empty_mind (opened vars)))
        (C.account crew.old) (C.account crew.new)) }
{
    let mut machine = Machine::new(alloc, plan, vars);
    run_groups(alloc, plan, &mut machine, crew, slots)?;
    Ok(machine.end())
}

/// Runs a plan over a crew, with these variables and no definitions, and at most `window` children
/// at once.
///
/// Each start takes the least free slot. No child is left in flight, whatever the result. The crew
/// has no child in flight before the run, and counts starts and refusals up to 2^62; a plan asks
/// for at most 2^36 jobs.
///
/// # Errors
///
/// Fails only if memory runs out.
pub fn run<C: Crew>(
    alloc: Global,
    plan: &Plan,
    vars: Vars,
    crew: &mut C,
    window: usize,
) -> Result<RunEnd, AllocError>
    requires window { IsWindow window }
    requires may_run { MayRun (C.account crew.old) }
    ensures idle { IsIdle (C.account crew.new).events }
    ensures landed { in_flight (C.account crew.new).events ≡ in_flight (C.account crew.old).events }
    ensures ran { IfOk result (λ end.
        Ran window (whole (walk plan.now 0 empty_mind (opened vars))) (C.account crew.old)
        (C.account crew.new) end) }
    // If memory runs out, the starts so far, and their replies, are those of the same run.
    ensures begun { OnErr result (
        HasBegun window (whole (walk plan.now 0 empty_mind (opened vars))) (C.account crew.old)
        (C.account crew.new)) }
    // If the plan does what a list of statements does, what was run is the meaning of that list.
    ensures meaning { (script : Script) → DoesWhat plan.now script
        → WasRun window (whole (meaning script (opened vars))) (C.account crew.old)
        (C.account crew.new) result }
{
    let mut slots = free_slots(alloc, window)?;
    run_in(alloc, plan, vars, crew, slots.as_mut_slice())
}
