//! The beginning of a batch.

ghost use Rattle.std.specs.Prelude.{◌≡◌, IfOk, OnOk, None, length};
ghost use Rattle.run_test.specs.Flows.{IsStep, LedOn};
ghost use Rattle.run_step.specs.BatchRuns.{IsFronted, front_run, list_run, quiet_end};

use crate::batch_jobs::{jobs_of, waiting_for};
use ac_tree::{Entries, Listed};
use run_forms::{FormCourse, begin_form, end_known};
use run_state::Store;
use run_state::pieces::break_test;
use run_test::compiler::stop_without_compiler;
use run_test::{Flow, Wait, Waiting};
use shellword::HereText;
use std::alloc::{AllocError, Global};

/// Ends the test of an entry with the value of its name. If there is none, its child was refused
/// before.
pub(crate) fn end_quiet(
    alloc: Global,
    store: &mut Store,
    test: &FormCourse,
) -> Result<(), AllocError>
    ensures { OnOk result (store.new ≡ quiet_end test.now store.old) }
{
    let value = store.value_of(alloc, test.name.as_slice())?;
    begin_form(alloc, store, test)?;
    match value {
        Some(value) => end_known(alloc, store, test, value.as_slice()),
        None => break_test(alloc, store, test.name.as_slice()),
    }
}

/// Ends the entries before the first that asks for a child. Returns whether there is one that asks.
fn end_front(alloc: Global, store: &mut Store, entries: &[Waiting]) -> Result<bool, AllocError>
    ensures { IfOk result (IsFronted entries.now store.old store.new) }
{
    for i in 0..entries.len() {
        let entry = &entries[i];
        if entry.asks {
            return Ok(true);
        }
        end_quiet(alloc, store, &entry.test)?;
    }
    Ok(false)
}

/// Ends the entries at once, since there is nothing to ask for.
fn end_now(alloc: Global, store: &mut Store, entries: &[Waiting]) -> Result<Flow, AllocError>
    ensures step { IfOk result (IsStep 0 None) }
    ensures leads { LedOn result (front_run entries.now) store.old store.new }
{
    if end_front(alloc, store, entries)? {
        return stop_without_compiler(alloc, store);
    }
    Ok(Flow::Pass { more: 0 })
}

/// Begins a batch.
pub fn begin_batch(
    alloc: Global,
    store: &mut Store,
    listed: Listed,
    entries: &Entries,
    includes: &Option<HereText>,
) -> Result<Flow, AllocError>
    ensures step { IfOk result (IsStep (length entries.now) None) }
    ensures leads { LedOn result (list_run listed entries.now includes.now) store.old store.new }
{
    let waiting = waiting_for(alloc, store, listed, entries.as_slice())?;
    let jobs = jobs_of(alloc, store, includes, waiting.as_slice())?;
    if jobs.is_empty() {
        // for the proof only: the flow has a name
        let flow = end_now(alloc, store, waiting.as_slice())?;
        return Ok(flow);
    }
    Ok(Flow::Ask {
        jobs,
        wait: Wait::Batch { entries: waiting },
    })
}
