//! The beginnings of choices: words, and questions (Autoconf's manual, "Existing Tests" and
//! "Writing Tests").

ghost use Rattle.std.specs.Prelude.{◌≡◌, ◌<◌, IfOk, None, length};
ghost use Rattle.deftable.specs.Table as tables;
ghost use Rattle.meaning.specs.Meaning.{value_name};
ghost use Rattle.meaning.specs.Tries.{text_of};
ghost use Rattle.plan.specs.Inside.{asks_about, asks_to_find, asks_to_try};
ghost use Rattle.meaning.specs.Rows.{Formed};
ghost use Rattle.run_step.specs.Openings.{first_test};
ghost use Rattle.run_step.specs.Runs.{asked_run, first_job, given_run, round, subject_run, tries_run};
ghost use Rattle.run_test.specs.Flows.{IsStep, Led, LedOn};
ghost use Rattle.run_test.specs.Starts.{Opens};
ghost use Rattle.run_test.specs.declared.flow.Flow.TheVariants.{Pass};

use ac_tree::{Entries, OptionKind, Program, Question, Sought, Subject, Try};
use crew_jobs::Job;
use deftable::Bytes;
use run_state::{About, Store};
use run_test::compiler::{job_to_try, stop_without_compiler};
use run_test::questions::{ask_answer, ask_link};
use run_test::{Flow, Opening, open_entry, open_libraries, open_library, start};
use shellword::HereText;
use std::alloc::{AllocError, Global};

/// Returns the variable that gets the value of an option if the option is given.
fn value_name(kind: OptionKind) -> &'static [u8]
    ensures { result.now ≡ value_name kind }
{
    match kind {
        OptionKind::Feature => b"enableval",
        OptionKind::Package => b"withval",
    }
}

/// Returns the first job of a program, or `None` if there is no compiler.
fn first_job(
    alloc: Global,
    store: &Store,
    kind: Try,
    program: &Program,
) -> Result<Option<Job>, AllocError>
    ensures { IfOk result (λ job. job ≡ first_job kind program.now store.now) }
{
    let text = store.program_text(alloc, program)?;
    job_to_try(alloc, store, kind, text.as_slice(), 0)
}

/// Tries a program.
fn try_program(
    alloc: Global,
    store: &mut Store,
    kind: Try,
    program: &Program,
) -> Result<Flow, AllocError>
    ensures step { IfOk result (IsStep (asks_to_try kind) None) }
    ensures leads { LedOn result (tries_run kind program.now) store.old store.new }
{
    let Some(job) = first_job(alloc, store, kind, program)? else {
        return stop_without_compiler(alloc, store);
    };
    if let Try::Run = kind {
        // for the proof only: the flow has a name
        let flow = ask_link(alloc, job)?;
        return Ok(flow);
    }
    let flow = ask_answer(alloc, job)?;
    Ok(flow)
}

/// Answers whether an option is given: whether its variable is set. If it is, its value is kept.
fn ask_given(
    alloc: Global,
    store: &mut Store,
    about: &mut About,
    kind: OptionKind,
    variable: &[u8],
) -> Result<Flow, AllocError>
    ensures passes { IfOk result (λ flow. flow ≡ Pass 0) }
    ensures leads { Led result (given_run kind variable.now store.old) about.new store.new }
{
    let is_given = store.copy_value(alloc, variable, value_name(kind))?;
    *about = About::answer(alloc, is_given);
    Ok(Flow::Pass { more: 0 })
}

/// Opens the test of the first entry of a list.
fn open_first(
    alloc: Global,
    store: &Store,
    sought: Sought,
    entries: &Entries,
    includes: &Option<HereText>,
) -> Result<Opening, AllocError>
    ensures some { 0 < length entries.now }
    ensures opens { IfOk result (
        Opens (Formed (first_test sought entries.now includes.now)) store.now) }
{
    let list = entries.as_slice();
    let entry = &list[0];
    open_entry(alloc, store, sought, entry, includes, true)
}

/// Asks the question of a choice.
fn ask(
    alloc: Global,
    store: &mut Store,
    about: &mut About,
    question: &Question,
) -> Result<Flow, AllocError>
    ensures step { IfOk result (IsStep (asks_about (Subject.Asked question.now)) None) }
    ensures leads { Led result (asked_run question.now store.old) about.new store.new }
{
    match question {
        Question::Given { kind, variable } => {
            ask_given(alloc, store, about, *kind, variable.as_slice())
        }
        Question::Tries { kind, program } => {
            // for the proof only: the flow has a name
            let flow = try_program(alloc, store, *kind, program)?;
            Ok(flow)
        }
        Question::Checks {
            sought,
            entry,
            includes,
        } => {
            let opening = open_entry(alloc, store, *sought, entry, includes, false)?;
            let flow = start(alloc, store, about, opening)?;
            Ok(flow)
        }
        Question::ChecksEach {
            sought,
            entries,
            includes,
        } => {
            let opening = open_first(alloc, store, *sought, entries, includes)?;
            let flow = start(alloc, store, about, opening)?;
            Ok(flow)
        }
        Question::Library {
            library,
            function,
            others,
            adds,
        } => {
            let opening = open_library(alloc, store, library, function, others, *adds)?;
            let flow = start(alloc, store, about, opening)?;
            Ok(flow)
        }
        Question::Libraries {
            function,
            libraries,
            others,
        } => {
            let opening = open_libraries(alloc, store, function, libraries, others)?;
            let flow = start(alloc, store, about, opening)?;
            Ok(flow)
        }
    }
}

/// Begins a round of a list: the test of its entry.
#[tactic(auto, unfolding(meaning::specs::Meaning::after_subject))]
pub(crate) fn begin_round(
    alloc: Global,
    store: &mut Store,
    about: &mut About,
    sought: Sought,
    entry: &Bytes,
    includes: &Option<HereText>,
) -> Result<Flow, AllocError>
    ensures step { IfOk result (IsStep (asks_to_find sought) None) }
    ensures leads { Led result (round sought entry.now includes.now store.old) about.new store.new }
{
    let opening = open_entry(alloc, store, sought, entry, includes, true)?;
    let flow = start(alloc, store, about, opening)?;
    Ok(flow)
}

/// Begins a choice.
#[tactic(auto, unfolding(meaning::specs::Meaning::after_subject))]
pub(crate) fn begin(
    alloc: Global,
    store: &mut Store,
    about: &mut About,
    subject: &Subject,
) -> Result<Flow, AllocError>
    ensures step { IfOk result (IsStep (asks_about subject.now) None) }
    ensures leads { Led result (subject_run subject.now store.old) about.new store.new }
{
    match subject {
        Subject::Nothing => *about = About::nothing(alloc),
        Subject::Word(word) => {
            let value = store.word(alloc, word)?;
            *about = About::word(value);
        }
        Subject::Asked(question) => return ask(alloc, store, about, question),
    }
    Ok(Flow::Pass { more: 0 })
}
