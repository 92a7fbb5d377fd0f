//! Children with jobs of several kinds, and their ends on a page.

ghost use Rattle.std.specs.Prelude.{◌≡◌, ◌≤◌, [], length};

use crew_jobs::Job;
use crew_trait::{Crew, Reply};
use test_crews::children::{job_of, put_reply};
use test_crews::replies::add;
use test_rows::Page;
use text_cut::fields;

/// Returns the job of a kind: `l` links, `r` runs what was linked, `f` looks for a program, `c`
/// compiles, and any other one compiles with this option.
pub fn job_of_kind(page: &mut Page, kind: &[u8]) -> Job {
    match kind {
        b"l" => job_of(page, b"cc,-o,conftest,conftest.c", b"conftest.c int x;"),
        b"r" => job_of(page, b"./conftest", b""),
        b"f" => job_of(page, b"sh,-c,test -x /bin/cc", b""),
        b"c" => job_of(page, b"cc,-c,conftest.c", b"conftest.c int x;"),
        _ => {
            let mut job = job_of(page, b"cc,-c,conftest.c", b"conftest.c int x;");
            let pushed = job.words.push(kind);
            let _ = page.given(pushed);
            job
        }
    }
}

/// Returns the jobs of these kinds, with blanks between them.
pub fn jobs_of(page: &mut Page, kinds: &[u8]) -> Vec<Job> {
    let alloc = page.alloc();
    let mut jobs = Vec::new(alloc);
    if let Some(kinds) = page.given(fields(alloc, kinds)) {
        for kind in kinds.as_slice() {
            let job = job_of_kind(page, kind);
            add(page, &mut jobs, job);
        }
    }
    jobs
}

/// Puts ` SLOT:` and the reply.
fn put_end(page: &mut Page, slot: usize, reply: &Reply) {
    page.put(b" ");
    page.put_number(slot);
    page.put(b":");
    put_reply(page, reply);
}

/// Starts each job, in the slots from 0 on, and puts the starts that are refused and then the ends.
fn put_ends<C: Crew>(page: &mut Page, crew: &mut C, count: usize, jobs: &[Job])
    requires count { count ≤ 16 }
    requires jobs { count ≤ length jobs.now }
    requires events { (C.account crew.old).events ≡ [] }
    requires attempts { (C.account crew.old).attempts ≡ 0 }
    requires failures { (C.account crew.old).failures ≡ 0 }
{
    let mut flying: usize = 0;
    'starts: for slot in 0..count {
        let Ok(one) = jobs[slot].copy(page.alloc()) else {
            page.cut();
            return;
        };
        match crew.start(slot, one) {
            Ok(()) => flying += 1,
            Err(_) => put_end(page, slot, &Reply::StartRefused),
        }
    }
    'ends: for _ in 0..flying {
        let (slot, reply) = crew.next();
        put_end(page, slot, &reply);
    }
}

/// Starts up to sixteen jobs in a crew that has done nothing, and puts the starts that are refused and
/// then the ends.
pub fn put_jobs<C: Crew>(page: &mut Page, crew: &mut C, jobs: &[Job])
    requires fresh { C.account crew.old ≡ record { events = []; attempts = 0; failures = 0 } }
{
    put_ends(page, crew, jobs.len().min(16), jobs);
}
