//! What statements do, each in its own step.

ghost use Rattle.std.specs.Prelude.{◌≡◌, ◌||◌, not, IfOk, IsOk, OnOk, None};
ghost use Rattle.deftable.specs.ShellName.{IsShellName};
ghost use Rattle.meaning.specs.Meaning.{with_prefixes};
ghost use Rattle.plan.specs.Inside.{asks_by};
ghost use Rattle.run_step.specs.Runs.{own_run};
ghost use Rattle.run_step.specs.Statements.{assigned, defined, printed, with_default};
ghost use Rattle.run_test.specs.Flows.{IsStep, Led};
ghost use Rattle.run_test.specs.declared.flow.Flow.TheVariants.{Complete, Pass, Stop};
ghost use Rattle.ac_tree.specs.declared.statement.Message.TheVariants.{Error};

use crate::begin_batch;
use crate::programs::open_search;
use ac_tree::{Effect, Message};
use run_state::pieces::say;
use run_state::{About, Store, initialise};
use run_test::{Flow, start};
use shellword::{HereText, Word};
use std::alloc::{AllocError, Global};

/// Sets a variable to the value of a word.
fn assign(alloc: Global, store: &mut Store, name: &[u8], value: &Word) -> Result<(), AllocError>
    ensures { OnOk result (store.new ≡ assigned name.now value.now store.old) }
{
    let value = store.word(alloc, value)?;
    store.set(name, value.as_slice())
}

/// Defines a name as the value of a text.
fn define_value(
    alloc: Global,
    store: &mut Store,
    name: &[u8],
    value: &HereText,
) -> Result<(), AllocError>
    requires { IsShellName name.now }
    ensures { OnOk result (store.new ≡ defined name.now value.now store.old) }
{
    let value = store.here_text(alloc, value)?;
    store.define(name, value.as_slice())
}

/// Completes the run, once prefix and exec_prefix have their values.
fn complete(store: &mut Store) -> Result<Flow, AllocError>
    ensures completes { IfOk result (λ flow. flow ≡ Complete) }
    ensures settles { OnOk result (store.new ≡ with_prefixes store.old) }
{
    store.settle_prefixes()?;
    Ok(Flow::Complete)
}

/// Prints a message.
fn print(
    alloc: Global,
    store: &mut Store,
    message: Message,
    text: &HereText,
) -> Result<(), AllocError>
    ensures { OnOk result (store.new ≡ printed message text.now store.old) }
{
    let text = store.here_text(alloc, text)?;
    say(alloc, store, message, text.as_slice())
}

/// Stops the run with an exit status, after the line of the error is printed.
fn stop(alloc: Global, store: &mut Store, text: &HereText, status: u8) -> Result<Flow, AllocError>
    ensures stops { IfOk result (λ flow. flow ≡ Stop status) }
    ensures prints { OnOk result (store.new ≡ printed Error text.now store.old) }
{
    print(alloc, store, Message::Error, text)?;
    Ok(Flow::Stop { status })
}

/// Continues with the next step, if `done` is no error.
pub(crate) fn pass(done: Result<(), AllocError>) -> Result<Flow, AllocError>
    ensures passes { IfOk result (λ flow. flow ≡ Pass 0) }
    ensures done { OnOk result (IsOk done) }
{
    done?;
    Ok(Flow::Pass { more: 0 })
}

/// Does what a statement does in its own step.
#[tactic(auto, unfolding(meaning::specs::Meaning::effect))]
pub(crate) fn execute(
    alloc: Global,
    store: &mut Store,
    about: &mut About,
    effect: &Effect,
) -> Result<Flow, AllocError>
    ensures step { IfOk result (IsStep (asks_by effect.now) None) }
    ensures leads { Led result (own_run effect.now about.old store.old) about.new store.new }
{
    match effect {
        Effect::Nothing | Effect::Searches { .. } => Ok(Flow::Pass { more: 0 }),
        Effect::Assign { name, value } => pass(assign(alloc, store, name.as_slice(), value)),
        Effect::Define { name, value } => pass(store.define(name.as_slice(), value.as_slice())),
        Effect::DefineText { name, value } => {
            pass(define_value(alloc, store, name.as_slice(), value))
        }
        Effect::Print { message, text } => pass(print(alloc, store, *message, text)),
        Effect::Stop { text, status } => stop(alloc, store, text, *status),
        Effect::Package {
            title,
            version,
            bug,
            tarname,
            url,
        } => pass(initialise(
            alloc,
            store,
            title.as_slice(),
            version.as_slice(),
            bug.as_slice(),
            tarname.as_slice(),
            url.as_slice(),
        )),
        Effect::Search {
            variable,
            program,
            value,
            otherwise,
        } => {
            let opening = open_search(alloc, store, variable, program, value, otherwise)?;
            let flow = start(alloc, store, about, opening)?;
            Ok(flow)
        }
        Effect::Batch {
            listed,
            entries,
            includes,
        } => {
            // for the proof only: the flow has a name
            let flow = begin_batch(alloc, store, *listed, entries, includes)?;
            Ok(flow)
        }
        Effect::Complete => complete(store),
    }
}

/// Returns whether a program of a list is looked for.
pub(crate) fn is_wanted(always: bool, own: bool) -> bool
    ensures { result ≡ (always || not own) }
{
    always || !own
}

/// Gives a variable its default, if the variable is empty.
pub(crate) fn set_default(
    alloc: Global,
    store: &mut Store,
    variable: &[u8],
    value: &HereText,
) -> Result<(), AllocError>
    ensures { OnOk result (store.new ≡ with_default variable.now value.now store.old) }
{
    if !store.has_value(variable) {
        let value = store.here_text(alloc, value)?;
        store.set(variable, value.as_slice())?;
    }
    Ok(())
}
