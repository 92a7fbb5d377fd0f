//! The beginning, the attempts and the end of a test, of any course.

ghost use Rattle.std.specs.Prelude.{◌≡◌, ◌+◌, ◌∷◌, ◌<◌, ◌^◌, [], IfOk, OnOk, None, Some};
ghost use Rattle.meaning.specs.State.{Cut};
ghost use Rattle.meaning.specs.Tests.{broken};
ghost use Rattle.run_test.specs.Attempts.{IsAttempt, lacks_job};
ghost use Rattle.run_test.specs.Courses.{count_in, name_in, scope_in};
ghost use Rattle.run_test.specs.Flows.{IsStep, Led, LedAnywhere};
ghost use Rattle.run_test.specs.Runs.{next_run, attempt_run, begun_run, started_run, trying_run};
ghost use Rattle.run_test.specs.Starts.{AsksMost, Begins};
ghost use Rattle.run_test.specs.Trying.{ended_in, known_in, left_in, moved, scope_after, scope_set, scope_otherwise, state_after, state_set, state_otherwise, stopped_in};
ghost use Rattle.run_test.specs.declared.flow.Flow.TheVariants.{Pass, Stop};

use crate::attempts::attempt_at;
use crate::compiler::stop_without_compiler;
use crate::course::{Course, Trial};
use crate::flow::Flow;
use crate::values::{answer, begin_message, name_of, otherwise_of, shown_of, use_value};
use crate::wait::Wait;
use crew_jobs::Job;
use deftable::Bytes;
use run_forms::{Attempt, Loan};
use run_state::pieces::{break_test, end_check, end_known_check};
use run_state::{About, Store};
use std::alloc::{AllocError, Global};

/// Makes a list of one job.
pub fn alone(alloc: Global, job: Job) -> Result<Vec<Job>, AllocError>
    ensures { IfOk result (λ jobs. jobs.items ≡ job ∷ []) }
{
    let mut jobs = Vec::new(alloc);
    jobs.push(job)?;
    Ok(jobs)
}

/// Ends a test whose name has this value.
fn end_with(
    alloc: Global,
    store: &mut Store,
    about: &mut About,
    course: &Course,
    value: &Loan,
) -> Result<(), AllocError>
    ensures scope { OnOk result (about.new ≡ scope_in course.now value.now about.old) }
    ensures state { OnOk result (store.new ≡ ended_in course.now value.now store.old) }
{
    end_check(alloc, store, shown_of(course, value))?;
    use_value(alloc, store, course, value)?;
    answer(alloc, about, course, value);
    Ok(())
}

/// Gives the name of a test a value, and ends the test with it.
fn end_set(
    alloc: Global,
    store: &mut Store,
    about: &mut About,
    course: &Course,
    value: &[u8],
) -> Result<(), AllocError>
    ensures scope { OnOk result (about.new ≡ scope_set course.now value.now about.old store.old) }
    ensures state { OnOk result (store.new ≡ state_set course.now value.now store.old) }
{
    store.set(name_of(course), value)?;
    end_with(alloc, store, about, course, &Loan::some(value))
}

/// Ends a test with the value that its name has, if there is one.
fn end_kept(
    alloc: Global,
    store: &mut Store,
    about: &mut About,
    course: &Course,
) -> Result<(), AllocError>
    ensures scope { OnOk result (about.new ≡ scope_after course.now None about.old store.old) }
    ensures state { OnOk result (store.new ≡ state_after course.now None store.old) }
{
    let value = store.value_of(alloc, name_of(course))?;
    end_with(alloc, store, about, course, &Loan::of(&value))
}

/// Ends a test of which no attempt is left.
fn end_otherwise(
    alloc: Global,
    store: &mut Store,
    about: &mut About,
    course: &Course,
) -> Result<(), AllocError>
    ensures scope { OnOk result (about.new ≡ scope_otherwise course.now about.old store.old) }
    ensures state { OnOk result (store.new ≡ state_otherwise course.now store.old) }
{
    match otherwise_of(course) {
        Some(value) => end_set(alloc, store, about, course, value),
        None => end_kept(alloc, store, about, course),
    }
}

/// Stops the run because there is no compiler, inside a test, whose name is unset.
fn stop_inside(alloc: Global, store: &mut Store, trial: &Trial) -> Result<Flow, AllocError>
    ensures stops { IfOk result (λ flow. flow ≡ Stop 1) }
    ensures breaks { OnOk result (store.new ≡ stopped_in trial.now.course store.old) }
{
    let flow = stop_without_compiler(alloc, store)?;
    store.unset(name_of(&trial.course));
    Ok(flow)
}

/// Asks for the job of an attempt, whose place is `trial.next`.
fn ask(
    alloc: Global,
    trial: Trial,
    job: Job,
    ends_on: bool,
    value: Bytes,
) -> Result<Flow, AllocError>
    requires room { trial.next + 1 < 2 ^ 64 }
    requires place { trial.next < count_in trial.course }
    ensures step { IfOk result (IsStep (left_in trial) None) }
    ensures leads { LedAnywhere result (attempt_run (moved trial) job ends_on value) }
{
    let jobs = alone(alloc, job)?;
    let trial = trial.moved();
    Ok(Flow::Ask {
        jobs,
        wait: Wait::Attempt {
            trial,
            ends_on,
            value,
        },
    })
}

/// Asks for the job of an attempt, whose place is `trial.next`. If there is no attempt, ends the
/// test.
fn make(
    alloc: Global,
    store: &mut Store,
    about: &mut About,
    trial: Trial,
    attempt: Option<Attempt>,
) -> Result<Flow, AllocError>
    requires { IsAttempt trial.course store.now trial.next attempt }
    ensures step { IfOk result (IsStep (left_in trial) None) }
    ensures leads { Led result (trying_run trial about.old store.old) about.new store.new }
{
    let Some(attempt) = attempt else {
        end_otherwise(alloc, store, about, &trial.course)?;
        return Ok(Flow::Pass { more: 0 });
    };
    let Attempt {
        job,
        ends_on,
        value,
    } = attempt;
    let Some(job) = job else {
        return stop_inside(alloc, store, &trial);
    };
    let flow = ask(alloc, trial, job, ends_on, value)?;
    Ok(flow)
}

/// Makes the next attempt of a test, or ends the test if there is none.
fn proceed(
    alloc: Global,
    store: &mut Store,
    about: &mut About,
    trial: Trial,
) -> Result<Flow, AllocError>
    ensures step { IfOk result (IsStep (left_in trial) None) }
    ensures leads { Led result (trying_run trial about.old store.old) about.new store.new }
{
    let attempt = attempt_at(alloc, store, &trial.course, trial.next)?;
    make(alloc, store, about, trial, attempt)
}

/// Takes the answer to an attempt. If it ends the test, the value is that of the test. Otherwise
/// the next attempt is made.
pub fn take_answer(
    alloc: Global,
    store: &mut Store,
    about: &mut About,
    trial: Trial,
    value: Bytes,
    ends: bool,
) -> Result<Flow, AllocError>
    ensures step { IfOk result (IsStep (left_in trial) None) }
    ensures leads { Led result (next_run trial value ends about.old store.old) about.new store.new }
{
    if !ends {
        let flow = proceed(alloc, store, about, trial)?;
        return Ok(flow);
    }
    end_set(alloc, store, about, &trial.course, value.as_slice())?;
    Ok(Flow::Pass { more: 0 })
}

/// Breaks off a test whose child didn't answer.
pub fn break_off(alloc: Global, store: &mut Store, trial: &Trial) -> Result<(), AllocError>
    ensures { OnOk result (store.new ≡ broken (name_in trial.now.course) Cut store.old) }
{
    break_test(alloc, store, name_of(&trial.course))
}

/// Returns whether an attempt has no job.
fn lacks_job(attempt: &Option<Attempt>) -> bool
    ensures { result ≡ lacks_job attempt.now }
{
    match attempt {
        Some(attempt) => attempt.job.is_none(),
        None => false,
    }
}

/// Begins a test whose name is unset. The job of its first attempt is made before anything is
/// printed.
fn begin(
    alloc: Global,
    store: &mut Store,
    about: &mut About,
    course: Course,
) -> Result<Flow, AllocError>
    ensures step { IfOk result (IsStep (count_in course) None) }
    ensures leads { Led result (begun_run course about.old store.old) about.new store.new }
{
    let first = attempt_at(alloc, store, &course, 0)?;
    if lacks_job(&first) {
        return stop_without_compiler(alloc, store);
    }
    begin_message(alloc, store, &course)?;
    let trial = Trial { course, next: 0 };
    let flow = make(alloc, store, about, trial, first)?;
    Ok(flow)
}

/// Prints that the value of a test was known, and does what is done with it.
fn print_known(
    alloc: Global,
    store: &mut Store,
    course: &Course,
    value: &Loan,
) -> Result<(), AllocError>
    ensures { OnOk result (store.new ≡ known_in course.now value.now store.old) }
{
    begin_message(alloc, store, course)?;
    end_known_check(alloc, store, shown_of(course, value))?;
    use_value(alloc, store, course, value)
}

/// Ends a test whose name has this value.
fn end_cached(
    alloc: Global,
    store: &mut Store,
    about: &mut About,
    course: &Course,
    value: &[u8],
) -> Result<Flow, AllocError>
    ensures passes { IfOk result (λ flow. flow ≡ Pass 0) }
    ensures scope { OnOk result (about.new ≡ scope_in course.now (Some value.now) about.old) }
    ensures state { OnOk result (store.new ≡ known_in course.now (Some value.now) store.old) }
{
    let value = Loan::some(value);
    print_known(alloc, store, course, &value)?;
    answer(alloc, about, course, &value);
    Ok(Flow::Pass { more: 0 })
}

/// A test that a step begins: its course, and the value that its name has. If it has one, the
/// course is without the values that its attempts are made of.
#[derive(Drop)]
pub struct Opening {
    pub course: Course,
    pub value: Option<Bytes>,
}

/// Begins a test, or ends it with the value that its name has.
fn start_by(
    alloc: Global,
    store: &mut Store,
    about: &mut About,
    course: Course,
    value: Option<Bytes>,
) -> Result<Flow, AllocError>
    ensures step { IfOk result (IsStep (count_in course) None) }
    ensures leads { Led result (started_run value course about.old store.old) about.new store.new }
{
    match value {
        Some(value) => {
            let flow = end_cached(alloc, store, about, &course, value.as_slice())?;
            Ok(flow)
        }
        None => {
            let flow = begin(alloc, store, about, course)?;
            Ok(flow)
        }
    }
}

/// Begins the test of a kind, or ends it with the value that its name has.
pub fn start(
    alloc: Global,
    store: &mut Store,
    about: &mut About,
    opening: Opening,
) -> Result<Flow, AllocError>
    ensures step { AsksMost opening store.old result }
    ensures leads { Begins opening result about.old about.new store.old store.new }
{
    let Opening { course, value } = opening;
    start_by(alloc, store, about, course, value)
}
