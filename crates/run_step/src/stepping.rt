//! One step.

ghost use Rattle.std.specs.Prelude.{◌≡◌, ◌≤◌, IfOk, None, if◌then◌else◌};
ghost use Rattle.meaning.specs.Meaning.{is_taken};
ghost use Rattle.plan.specs.Inside.{asks_of, reach};
ghost use Rattle.plan.specs.Walk.{instruction_of};
ghost use Rattle.run_step.specs.Runs.{Act, skipped};
ghost use Rattle.run_test.specs.Flows.{Heeds, IsGroup, asks_now, passed};
ghost use Rattle.run_test.specs.declared.flow.Flow.TheVariants.{Pass};

use crate::asking::{begin, begin_round};
use crate::checks::{close_check, open_check};
use crate::programs::open_listed_prog;
use crate::statements::{execute, is_wanted, pass, set_default};
use ac_tree::When;
use plan::Step;
use run_state::{About, OpenTests, Store};
use run_test::{Flow, start};
use shell_case::matches_any;
use std::alloc::{AllocError, Global};

/// Returns whether a case is taken.
#[tactic(auto, unfolding(meaning::specs::Meaning::is_taken))]
fn is_taken(alloc: Global, store: &Store, when: &When, about: &About) -> Result<bool, AllocError>
    ensures { IfOk result (λ b. b ≡ is_taken when.now about.now store.now.vars) }
{
    match when {
        When::Holds(test) => store.holds(alloc, test),
        When::Matches(patterns) => matches_any(alloc, patterns, about.subject()),
        When::Yes => Ok(about.is_yes()),
        When::No => Ok(!about.is_yes()),
        When::Always => Ok(true),
    }
}

/// Passes `steps` steps, unless the case is taken.
fn skip_unless(
    alloc: Global,
    store: &Store,
    when: &When,
    about: &About,
    steps: usize,
) -> Result<Flow, AllocError>
    ensures { IfOk result (λ flow. flow ≡ Pass (skipped when.now about.now store.now steps)) }
{
    if is_taken(alloc, store, when, about)? {
        return Ok(Flow::Pass { more: 0 });
    }
    Ok(Flow::Pass { more: steps })
}

/// Does one step.
pub fn do_step(
    alloc: Global,
    store: &mut Store,
    about: &mut About,
    tests: &mut OpenTests,
    step: &Step,
) -> Result<Flow, AllocError>
    ensures within { IfOk result (λ flow. passed flow ≤ reach (instruction_of step.now)) }
    ensures asks { IfOk result (λ flow. asks_now flow ≤ asks_of (instruction_of step.now)) }
    ensures group { IfOk result IsGroup }
    ensures heeds { IfOk result (λ flow. Heeds flow None) }
    ensures acts { Act step.now result about.old about.new tests.old tests.new store.old store.new }
{
    match step {
        Step::Do(effect) => execute(alloc, store, about, effect),
        Step::Look {
            variable,
            program,
            always,
        } => {
            if !is_wanted(*always, store.has_value(variable)) {
                return Ok(Flow::Pass { more: 0 });
            }
            let opening = open_listed_prog(alloc, store, variable, program)?;
            let flow = start(alloc, store, about, opening)?;
            Ok(flow)
        }
        Step::Default { variable, value } => pass(set_default(alloc, store, variable, value)),
        Step::Subject(subject) => begin(alloc, store, about, subject),
        Step::Round {
            sought,
            entry,
            includes,
        } => begin_round(alloc, store, about, *sought, entry, includes),
        Step::SkipUnless { when, steps } => skip_unless(alloc, store, when, about, *steps),
        Step::Skip { steps } => Ok(Flow::Pass { more: *steps }),
        Step::Open {
            message,
            name,
            steps,
        } => open_check(alloc, store, tests, message, name, *steps),
        Step::Close { name } => close_check(alloc, store, tests, name),
    }
}
