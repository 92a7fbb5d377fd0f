//! The calls that read a source and its arguments, and that run it, each in a function without a
//! contract: what is proved of them is not needed here, and would make each function that calls
//! them slow to check.

use crate::recorder::Recorder;
use acparse::{ParseFault, Source, parse};
use crew::{MemoryCrew, Order, Reply};
use deftable::{Bytes, Vars};
use options::{OptionFault, Settings, read_args};
use plan::{Plan, PlanFault, compile};
use proberun::{RunEnd, run};
use std::alloc::{AllocError, Global};
use test_rows::Page;

/// Reads a source.
pub fn read_source(alloc: Global, text: &[u8]) -> Result<Source, ParseFault> {
    parse(alloc, text)
}

/// Returns what a run of a source begins with.
pub fn read_settings(
    alloc: Global,
    source: &Source,
    arguments: &[Bytes],
    environment: &[(Bytes, Bytes)],
) -> Result<Settings, OptionFault> {
    read_args(alloc, source, arguments, environment)
}

/// What a run leaves, what its crew did, and how many steps its plan has.
#[derive(Drop)]
pub struct Ran {
    /// What it leaves.
    pub end: RunEnd,
    /// The lines of its crew.
    pub calls: Page,
    /// How many steps its plan has.
    pub steps: usize,
}

fn count_steps(plan: &Plan) -> usize {
    plan.steps().len()
}

fn run_plan(
    alloc: Global,
    plan: &Plan,
    vars: Vars,
    replies: Vec<Reply>,
    order: Order,
    window: usize,
) -> Result<Ran, AllocError> {
    let crew = MemoryCrew::new(alloc, replies, order)?;
    let lines = Page::new(alloc);
    let mut recorder = Recorder { crew, lines };
    let end = run(alloc, plan, vars, &mut recorder, window.max(1).min(16))?;
    Ok(Ran {
        end,
        calls: recorder.lines,
        steps: count_steps(plan),
    })
}

/// Runs a source from these variables over a crew of these replies, whose children end in this
/// order.
pub fn run_source(
    alloc: Global,
    source: &Source,
    vars: Vars,
    replies: Vec<Reply>,
    order: Order,
    window: usize,
) -> Result<Ran, PlanFault> {
    let plan = compile(alloc, source)?;
    Ok(run_plan(alloc, &plan, vars, replies, order, window)?)
}
