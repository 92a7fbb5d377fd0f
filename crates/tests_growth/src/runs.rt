//! Runs.

ghost use Rattle.std.specs.Prelude.{◌≡◌, ◌+◌, ◌^◌, ◌≤◌, []};
ghost use Rattle.engine.specs.Configured.{IsWindow, MayRun};

use crate::answers::{Right, Told, Verdict, found_of, told_of, told_with};
use crate::given::{Pair, pairs_of, replies_of, texts_of};
use crew::{Crew, MemoryCrew, Order};
use deftable::Bytes;
use engine::{Fault, MemoryOutputs, Outputs, Report, configure};
use std::alloc::{AllocError, Global};

/// A run, and what is right for it.
#[derive(Clone, Copy)]
pub struct Run<'a> {
    pub source: &'a [u8],
    /// The argument, or nothing if there is none.
    pub arg: &'a [u8],
    /// The text of the cache, or nothing if there is none.
    pub cache: &'a [u8],
    pub templates: &'a [Pair<'a>],
    pub replies: &'a [u8],
    pub window: usize,
    /// The calls of the crew that are right: `s`, `r` and `e` with a slot for a start, a refused
    /// start and an end.
    pub events: &'a [u8],
    pub right: Right<'a>,
}

/// The environment of every run.
const ENVIRONMENT: [Pair; 1] = [(b"CC", b"cc")];

/// What a run is given that takes memory.
#[derive(Drop)]
struct Given {
    args: Vec<Bytes>,
    env: Vec<(Bytes, Bytes)>,
    templates: Vec<(Bytes, Bytes)>,
}

fn given_of(alloc: Global, run: &Run) -> Result<Given, AllocError> {
    let args = texts_of(alloc, run.arg)?;
    let env = pairs_of(alloc, &ENVIRONMENT)?;
    let templates = pairs_of(alloc, run.templates)?;
    Ok(Given {
        args,
        env,
        templates,
    })
}

fn cache_of<'a>(text: &'a [u8]) -> Option<&'a [u8]> {
    if text.is_empty() { None } else { Some(text) }
}

/// Runs a source. It promises nothing of the answer, so that its caller sees no contract of the
/// engine.
fn answer_of<C: Crew, O: Outputs>(
    alloc: Global,
    run: &Run,
    given: &Given,
    window: usize,
    crew: &mut C,
    outputs: &mut O,
) -> Result<Report, Fault>
    requires window { IsWindow window }
    requires may_run { MayRun (C.account crew.old) }
    requires puts { (O.receipt outputs.old).failures + 256 ≤ 2 ^ 62 }
{
    configure(
        alloc,
        run.source,
        given.args.as_slice(),
        given.env.as_slice(),
        cache_of(run.cache),
        given.templates.as_slice(),
        crew,
        outputs,
        window,
    )
}

/// Returns what a run answers over a crew and a receiver that have done nothing.
fn told_over<C: Crew, O: Outputs>(
    alloc: Global,
    run: &Run,
    given: &Given,
    crew: &mut C,
    outputs: &mut O,
) -> Told
    requires crew { C.account crew.old ≡ record { events = []; attempts = 0; failures = 0 } }
    requires puts { (O.receipt outputs.old).failures ≡ 0 }
{
    let window = run.window.max(1).min(16);
    let answer = answer_of(alloc, run, given, window, crew, outputs);
    told_of(answer, run.right.answer)
}

/// Returns what a run answers over a receiver that has done nothing, or nothing if memory runs out
/// before.
fn told_with_crew<O: Outputs>(
    alloc: Global,
    run: &Run,
    given: &Given,
    outputs: &mut O,
) -> Option<Told>
    requires puts { (O.receipt outputs.old).failures ≡ 0 }
{
    let replies = replies_of(alloc, run.replies).ok()?;
    match &mut MemoryCrew::new(alloc, replies, Order::Oldest) {
        Ok(crew) => {
            let told = told_over(alloc, run, given, crew, outputs);
            Some(told_with(crew.events(), run.events, told))
        }
        Err(_) => None,
    }
}

fn found_given(alloc: Global, run: &Run, given: &Given) -> Verdict {
    let mut outputs = MemoryOutputs::new(alloc, run.right.refused);
    match told_with_crew(alloc, run, given, &mut outputs) {
        Some(told) => found_of(told, outputs.handed(), &run.right),
        None => Verdict::NotCalled,
    }
}

/// Returns what is found of a run.
pub fn found_of_run(alloc: Global, run: &Run) -> Verdict {
    match &given_of(alloc, run) {
        Ok(given) => found_given(alloc, run, given),
        Err(_) => Verdict::NotCalled,
    }
}
