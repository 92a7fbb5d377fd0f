//! What follows the replies to the jobs of a step.

ghost use Rattle.std.specs.Prelude.{◌≡◌, ◌<◌, ◌+◌, ◌^◌, ◌∷◌, [], IfOk, OnOk, None, length, option_to_list};
ghost use Rattle.crew_jobs.specs.Probe.{run_of};
ghost use Rattle.meaning.specs.Asking.{same};
ghost use Rattle.meaning.specs.Play.{refused_after};
ghost use Rattle.run_step.specs.Replies.{answer_run, cut_by, heard_run, one_run, refused_by, replied_run};
ghost use Rattle.run_test.specs.Flows.{IsStep, Led, LedAnywhere};
ghost use Rattle.run_test.specs.Runs.{question_run};
ghost use Rattle.run_test.specs.Waits.{Awaits, cut_state, all_replies, waits_for};
ghost use Rattle.run_test.specs.declared.flow.Flow.TheVariants.{Cut};

use crate::hear_batch;
use conftest::run_job;
use crew_jobs::Job;
use crew_trait::Reply;
use run_state::{About, Store};
use run_test::questions::ask_answer;
use run_test::replies::{log_asked, success};
use run_test::{Flow, Wait, break_off, take_answer};
use std::alloc::{AllocError, Global};

/// Jobs that were asked for, what is waited for, and the replies.
#[derive(Drop)]
pub struct Replied {
    pub wait: Wait,
    pub jobs: Vec<Job>,
    /// The reply to each job. A missing one counts as a refused start.
    pub replies: Vec<Option<Reply>>,
}

/// Asks to run the program that was linked.
fn ask_to_run(alloc: Global) -> Result<Flow, AllocError>
    ensures step { IfOk result (IsStep 1 None) }
    ensures leads { LedAnywhere result (question_run (run_of 0)) }
{
    let job = run_job(alloc, 0)?;
    let flow = ask_answer(alloc, job)?;
    Ok(flow)
}

/// Returns whether an answer ends a test.
fn is_end(ends_on: bool, succeeded: bool) -> bool
    ensures { result ≡ same ends_on succeeded }
{
    ends_on == succeeded
}

/// Continues with whether the child succeeded.
fn continue_with(
    alloc: Global,
    store: &mut Store,
    about: &mut About,
    wait: Wait,
    succeeded: bool,
) -> Result<Flow, AllocError>
    ensures step { IfOk result (IsStep (waits_for wait) None) }
    ensures leads { Led result (answer_run wait succeeded about.old store.old) about.new store.new }
{
    match wait {
        Wait::Nothing | Wait::Batch { .. } => Ok(Flow::Pass { more: 0 }),
        Wait::Answer => {
            *about = About::answer(alloc, succeeded);
            Ok(Flow::Pass { more: 0 })
        }
        Wait::Link => {
            if !succeeded {
                *about = About::answer(alloc, false);
                return Ok(Flow::Pass { more: 0 });
            }
            let flow = ask_to_run(alloc)?;
            Ok(flow)
        }
        Wait::Attempt {
            trial,
            ends_on,
            value,
        } => {
            let ends = is_end(ends_on, succeeded);
            let flow = take_answer(alloc, store, about, trial, value, ends)?;
            Ok(flow)
        }
    }
}

/// Ends what is waited for, because the reply is refused.
fn cut_off(alloc: Global, store: &mut Store, wait: &Wait) -> Result<(), AllocError>
    ensures { OnOk result (store.new ≡ cut_state wait.now store.old) }
{
    match wait {
        Wait::Attempt { trial, .. } => break_off(alloc, store, trial),
        Wait::Nothing | Wait::Answer | Wait::Link | Wait::Batch { .. } => Ok(()),
    }
}

/// Cuts the run short at the child of this number.
fn cut(alloc: Global, store: &mut Store, wait: &Wait, number: u64) -> Result<Flow, AllocError>
    ensures cuts { IfOk result (λ flow. flow ≡ Cut number) }
    ensures breaks { OnOk result (store.new ≡ cut_state wait.now store.old) }
{
    cut_off(alloc, store, wait)?;
    Ok(Flow::Cut { number })
}

/// Continues with the reply to a job that was asked for, after `before` other children.
fn hear_reply(
    alloc: Global,
    store: &mut Store,
    about: &mut About,
    wait: Wait,
    heard: Option<bool>,
    before: u64,
) -> Result<Flow, AllocError>
    requires { before + 1 < 2 ^ 64 }
    ensures step { IfOk result (IsStep (waits_for wait) (refused_by before heard)) }
    ensures leads { Led result (heard_run wait heard about.old store.old) about.new store.new }
{
    match heard {
        Some(succeeded) => continue_with(alloc, store, about, wait, succeeded),
        None => cut(alloc, store, &wait, before + 1),
    }
}

/// Continues with the reply to the only job that was asked for, after `before` other children.
fn hear_one(
    alloc: Global,
    store: &mut Store,
    about: &mut About,
    wait: Wait,
    job: Option<Job>,
    reply: Reply,
    before: u64,
) -> Result<Flow, AllocError>
    requires { before + 1 < 2 ^ 64 }
    ensures step { IfOk result (IsStep (waits_for wait) (refused_after before (reply ∷ []))) }
    ensures leads { Led result (one_run wait job reply about.old store.old) about.new store.new }
{
    let heard = success(&reply);
    log_asked(store, job, reply)?;
    hear_reply(alloc, store, about, wait, heard, before)
}

/// Returns the only job.
fn only_job(mut jobs: Vec<Job>) -> Option<Job>
    requires { length jobs.items ≡ 1 }
    ensures { option_to_list result ≡ jobs.items }
{
    jobs.pop()
}

/// Returns the only reply. A missing one is a refused start.
fn only_reply(mut replies: Vec<Option<Reply>>) -> Reply
    requires { length replies.items ≡ 1 }
    ensures { result ∷ [] ≡ all_replies replies.items }
{
    match replies.pop() {
        Some(Some(reply)) => reply,
        Some(None) | None => Reply::StartRefused,
    }
}

/// Continues with the replies to the jobs that were asked for, after `before` other children.
///
/// # Errors
///
/// Fails only if memory runs out.
pub fn hear(
    alloc: Global,
    store: &mut Store,
    about: &mut About,
    replied: Replied,
    before: u64,
) -> Result<Flow, AllocError>
    requires awaits { Awaits replied.wait replied.jobs.items }
    requires replies { length replied.replies.items ≡ length replied.jobs.items }
    requires room { before + length replied.jobs.items < 2 ^ 64 }
    ensures step { IfOk result (IsStep (waits_for replied.wait) (cut_by before replied)) }
    ensures leads { Led result (replied_run replied about.old store.old) about.new store.new }
{
    let Replied {
        wait,
        jobs,
        replies,
    } = replied;
    if let Wait::Batch { entries } = &wait {
        let flow = hear_batch(alloc, store, entries, jobs, replies, before)?;
        return Ok(flow);
    }
    let job = only_job(jobs);
    let reply = only_reply(replies);
    let flow = hear_one(alloc, store, about, wait, job, reply, before)?;
    Ok(flow)
}
