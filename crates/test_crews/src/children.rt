//! Children of a crew that has done nothing, and their ends on a page.

ghost use Rattle.std.specs.Prelude.{◌≡◌, ◌≤◌, []};

use crate::texts::{long_bytes_of, put_cut, words_of};
use crew::{Crew, ProcessCrew, Reply};
use crew_jobs::Job;
use std::alloc::{AllocError, Global};
use std::process::Processes;
use std::rt::Files;
use test_rows::{Page, cut};

/// Returns the job of these words, with commas between them, and of its conftest, if it has one: a
/// name, a blank and a text.
pub fn job_of(page: &mut Page, words: &[u8], file: &[u8]) -> Job {
    let (name, text) = cut(file, b" ");
    let words = words_of(page, words);
    if name.is_empty() {
        return Job { words, file: None };
    }
    let file = Some((long_bytes_of(page, name), long_bytes_of(page, text)));
    Job { words, file }
}

/// Puts `STATUS:TEXT`, or `S` for a start that is refused and `E` for an end that is.
pub fn put_reply(page: &mut Page, reply: &Reply) {
    match reply {
        Reply::Answer { status, text } => {
            page.put_shown(status);
            page.put(b":");
            put_cut(page, text.as_slice());
        }
        Reply::StartRefused => page.put(b"S"),
        Reply::EndRefused => page.put(b"E"),
    }
}

/// Puts ` SLOT:` and the reply.
fn put_end(page: &mut Page, slot: usize, reply: &Reply) {
    page.put(b" ");
    page.put_number(slot);
    page.put(b":");
    put_reply(page, reply);
}

/// Returns a copy of a job for a slot. If its last word is `slot`, it has the number of the slot as
/// one word more.
fn job_for(alloc: Global, job: &Job, slot: usize) -> Result<Job, AllocError> {
    let mut one = job.copy(alloc)?;
    match job.words.as_slice().last() {
        Some(word) if word.as_slice() == b"slot".as_slice() => {
            let number = format!(in alloc; "{slot}")?;
            one.words.push(number.as_bytes())?;
        }
        _ => {}
    }
    Ok(one)
}

/// Starts a job so many times, in the slots from 0 on, and puts the starts that are refused and
/// then the ends.
fn put_ends<C: Crew>(page: &mut Page, crew: &mut C, count: usize, job: &Job)
    requires count { count ≤ 16 }
    requires events { (C.account crew.old).events ≡ [] }
    requires attempts { (C.account crew.old).attempts ≡ 0 }
    requires failures { (C.account crew.old).failures ≡ 0 }
{
    let mut flying: usize = 0;
    'starts: for slot in 0..count {
        let Ok(one) = job_for(page.alloc(), job, slot) else {
            page.cut();
            return;
        };
        match crew.start(slot, one) {
            Ok(()) => flying += 1,
            Err(_) => put_end(page, slot, &Reply::StartRefused),
        }
    }
    'ends: for _ in 0..flying {
        let (slot, reply) = crew.next();
        put_end(page, slot, &reply);
    }
}

/// What a crew is asked to do: so many children with one job.
#[derive(Clone, Copy)]
pub struct Work<'a> {
    pub count: usize,
    pub job: &'a Job,
}

/// Puts what a crew that has done nothing does.
pub fn put_work<C: Crew>(page: &mut Page, crew: &mut C, work: &Work)
    requires fresh { C.account crew.old ≡ record { events = []; attempts = 0; failures = 0 } }
{
    put_ends(page, crew, work.count.min(16), work.job);
}

/// Puts the work of the children of a system.
pub fn put_children<R: Files + Processes + Drop>(page: &mut Page, rt: R, work: &Work) {
    match &mut ProcessCrew::new(rt, page.alloc()) {
        Ok(crew) => put_work(page, crew, work),
        Err(_) => page.cut(),
    }
}

/// Puts the work of real children.
pub fn put_real_children(page: &mut Page, rt: &HostRuntime, work: &Work) {
    match rt.clone() {
        Ok(rt) => put_children(page, rt, work),
        Err(_) => page.cut(),
    }
}
