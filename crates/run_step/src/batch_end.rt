//! The end of a batch, with the replies to its jobs.

ghost use Rattle.std.specs.Prelude.{◌≡◌, ◌<◌, ◌+◌, ◌^◌, IfOk, OnOk, length, option_to_list, reverse, unwrap_or};
ghost use Rattle.meaning.specs.Asking.{success};
ghost use Rattle.meaning.specs.Play.{first_refused, refused_after};
ghost use Rattle.crew_trait.specs.declared.reply.Reply.TheVariants.{StartRefused};
ghost use Rattle.run_test.specs.Batched.{at_once};
ghost use Rattle.run_test.specs.Flows.{IsStep, LedOn};
ghost use Rattle.run_test.specs.Waits.{all_replies};
ghost use Rattle.run_step.specs.BatchRuns.{all_ended, asked_end, given_last, end_run, waiting_end};
ghost use Rattle.run_step.specs.Taking.{Takes, TakesReply};

use crate::batch_start::end_quiet;
use crew_jobs::Job;
use crew_trait::Reply;
use run_forms::{FormCourse, begin_form, end_heard};
use run_state::Store;
use run_test::replies::{log_asked, success};
use run_test::{Flow, Waiting};
use std::alloc::{AllocError, Global};

/// Takes the next job, if the entry asked for one. The next one is last.
fn take_job(jobs: &mut Vec<Job>, asks: bool) -> Option<Job>
    ensures { Takes asks (reverse jobs.old.items) (reverse jobs.new.items) (option_to_list result) }
{
    if asks { jobs.pop() } else { None }
}

/// Takes the next reply, if the entry asked for a child. The next one is last, and a missing one is
/// a refused start.
fn take_reply(replies: &mut Vec<Option<Reply>>, asks: bool) -> Reply
    ensures { TakesReply asks (given_last replies.old.items) (given_last replies.new.items) result }
{
    if !asks {
        return Reply::StartRefused;
    }
    match replies.pop() {
        Some(Some(reply)) => reply,
        Some(None) | None => Reply::StartRefused,
    }
}

/// Ends the test of an entry that asked for a child.
fn end_asked(
    alloc: Global,
    store: &mut Store,
    test: &FormCourse,
    job: Option<Job>,
    reply: Reply,
) -> Result<(), AllocError>
    ensures { OnOk result (store.new ≡ asked_end test.now job reply store.old) }
{
    let heard = success(&reply);
    begin_form(alloc, store, test)?;
    log_asked(store, job, reply)?;
    end_heard(alloc, store, test, heard)
}

/// Ends the test of an entry.
fn end_entry(
    alloc: Global,
    store: &mut Store,
    entry: &Waiting,
    job: Option<Job>,
    reply: Reply,
) -> Result<(), AllocError>
    ensures { OnOk result (store.new ≡ waiting_end entry.now job reply store.old) }
{
    if !entry.asks {
        return end_quiet(alloc, store, &entry.test);
    }
    end_asked(alloc, store, &entry.test, job, reply)
}

/// Ends the tests of all entries, in the order of the list.
fn end_all(
    alloc: Global,
    store: &mut Store,
    entries: &[Waiting],
    mut jobs: Vec<Job>,
    mut replies: Vec<Option<Reply>>,
) -> Result<(), AllocError>
    ensures { OnOk result (store.new ≡ all_ended entries.now jobs.items replies.items store.old) }
{
    jobs.reverse();
    replies.reverse();
    for i in 0..entries.len() {
        let entry = &entries[i];
        let job = take_job(&mut jobs, entry.asks);
        let reply = take_reply(&mut replies, entry.asks);
        end_entry(alloc, store, entry, job, reply)?;
    }
    Ok(())
}

/// Returns whether the child with this reply succeeded. A missing reply is no answer.
fn success_of(reply: &Option<Reply>) -> Option<bool>
    ensures { result ≡ success (unwrap_or reply.now StartRefused) }
{
    match reply {
        Some(reply) => success(reply),
        None => None,
    }
}

/// Returns the number of the first refused reply, from 1.
fn first_refused(replies: &[Option<Reply>]) -> Option<u64>
    requires { length replies.now < 2 ^ 64 }
    ensures { result ≡ first_refused (all_replies replies.now) }
{
    for i in 0..replies.len() {
        if success_of(&replies[i]).is_none() {
            return Some(i as u64 + 1);
        }
    }
    None
}

/// Ends a batch with the replies to its jobs, after `before` other children. A missing reply is a
/// refused start. If one is refused, the run is cut at the first of them, after all entries have
/// ended.
pub fn hear_batch(
    alloc: Global,
    store: &mut Store,
    batch: &Vec<Waiting>,
    jobs: Vec<Job>,
    replies: Vec<Option<Reply>>,
    before: u64,
) -> Result<Flow, AllocError>
    requires asked { length jobs.items ≡ at_once batch.now.items }
    requires replies { length replies.items ≡ length jobs.items }
    requires room { before + length jobs.items < 2 ^ 64 }
    ensures step { IfOk result (IsStep 0 (refused_after before (all_replies replies.items))) }
    ensures leads { LedOn result (end_run batch.now jobs.items replies.items) store.old store.new }
{
    let refused = first_refused(replies.as_slice());
    end_all(alloc, store, batch.as_slice(), jobs, replies)?;
    match refused {
        Some(number) => Ok(Flow::Cut {
            number: before + number,
        }),
        None => Ok(Flow::Pass { more: 0 }),
    }
}
