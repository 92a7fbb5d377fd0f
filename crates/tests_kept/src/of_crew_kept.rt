//! Crews in memory around which replies are taken from the records of an earlier run.

ghost use Rattle.std.specs.Prelude.{◌≡◌, []};

use answers_text::{Record, job_text};
use crew::{MemoryCrew, Order};
use crew_jobs::Job;
use crew_kept::Kept;
use crew_trait::{Crew, Reply};
use deftable::Bytes;
use std::alloc::{AllocError, Global};
use std::test::Fail;
use test_crews::children::{Work, job_of, put_work};
use test_crews::replies::{add, replies_in};
use test_rows::{Page, RowCall, cut, try_rows};

/// Returns the record of a start in a slot. If its end was refused, the record is of another job,
/// and if the start was, there is none.
fn record_of(
    alloc: Global,
    slot: usize,
    job: &Job,
    reply: &Reply,
) -> Result<Option<Record>, AllocError> {
    let mut one = job.copy(alloc)?;
    let (status, text) = match reply {
        Reply::Answer { status, text } => {
            let number = format!(in alloc; "{slot}")?;
            one.words.push(number.as_bytes())?;
            (*status, text.as_slice())
        }
        Reply::EndRefused => (0, b"".as_slice()),
        Reply::StartRefused => return Ok(None),
    };
    let job = job_text(alloc, &one)?;
    let text = Bytes::from_slice(alloc, text)?;
    Ok(Some(Record {
        number: (slot as u64).saturating_add(1),
        job,
        status,
        text,
    }))
}

/// Returns the records of a run whose starts had these replies.
fn records_of(page: &mut Page, job: &Job, replies: &[Reply]) -> Vec<Record> {
    let alloc = page.alloc();
    let mut records = Vec::new(alloc);
    for (slot, reply) in replies.iter().enumerate() {
        let made = record_of(alloc, slot, job, reply);
        if let Some(Some(answer)) = page.given(made) {
            add(page, &mut records, answer);
        }
    }
    records
}

/// Puts the work of a crew that takes replies from records, around one that has done nothing.
fn put_kept<C: Crew + Drop>(page: &mut Page, crew: C, records: Vec<Record>, work: &Work)
    requires fresh { C.account crew ≡ record { events = []; attempts = 0; failures = 0 } }
{
    let mut kept = Kept::new(page.alloc(), crew, records);
    put_work(page, &mut kept, work);
}

/// Puts the work of such a crew around one in memory with these replies.
fn put_around(page: &mut Page, records: Vec<Record>, replies: Vec<Reply>, work: &Work) {
    match MemoryCrew::new(page.alloc(), replies, Order::Oldest) {
        Ok(crew) => put_kept(page, crew, records, work),
        Err(_) => page.cut(),
    }
}

/// Four starts: the words of each, its conftest, the replies of the earlier run, and those of the
/// crew inside. The last word of a job is the number of its slot.
struct Starts;

impl RowCall for Starts {
    fn put(&self, page: &mut Page, given: &[u8]) {
        let (words, rest) = cut(given, b"|");
        let (file, rest) = cut(rest, b"|");
        let (earlier, replies) = cut(rest, b"|");
        let job = job_of(page, words, file);
        let earlier = replies_in(page, earlier);
        let records = records_of(page, &job, earlier.as_slice());
        let replies = replies_in(page, replies);
        let work = Work {
            count: 4,
            job: &job,
        };
        put_around(page, records, replies, &work);
    }
}

const STARTS: &[u8] = b"\
// Three replies are taken, and one job is asked.
cc,-c,conftest.c,slot|conftest.c int x;|1:a 2:b 3:c|10:n =>  2:3:c 1:2:b 0:1:a 3:10:n
// A start without a record is asked, and the one after it is taken.
cc,-c,conftest.c,slot|conftest.c int x;|S 2:b|10:n 11:o 12:p =>  1:2:b 0:10:n 2:11:o 3:12:p
// Nothing is taken from a job that differs on.
cc,-c,conftest.c,slot|conftest.c int x;|1:a E 3:c|10:n 11:o 12:p =>  0:1:a 1:10:n 2:11:o 3:12:p
// Without records, and with refusals of the crew inside
cc,-c,conftest.c,slot|conftest.c int x;||10:n 11:o 12:p 13:q =>  0:10:n 1:11:o 2:12:p 3:13:q
cc,-c,conftest.c,slot|conftest.c int x;|1:a|S 11:o E =>  1:S 0:1:a 2:11:o 3:E
// A link is taken if the start after it is recorded.
cc,-o,conftest,conftest.c,slot|conftest.c int x;|1:a 2:b 3:c 4:d 5:e|10:n =>  3:4:d 2:3:c 1:2:b 0:1:a
// A link is asked if the start after it is not recorded.
cc,-o,conftest,conftest.c,slot|conftest.c int x;|1:a|10:n 11:o 12:p 13:q =>  0:10:n 1:11:o 2:12:p 3:13:q
// A row of links is gone on with: the second has no record of the start after it, or it differs.
cc,-o,conftest,conftest.c,slot|conftest.c int x;|1:a 2:b|10:n 11:o 12:p =>  0:1:a 1:10:n 2:11:o 3:12:p
cc,-o,conftest,conftest.c,slot|conftest.c int x;|1:a E 3:c|10:n 11:o 12:p =>  0:1:a 1:10:n 2:11:o 3:12:p
// No conftest is linked.
cc,-o,conftest,slot||1:a|10:n 11:o 12:p =>  0:1:a 1:10:n 2:11:o 3:12:p
";

#[test]
fn replies_are_taken(rt: HostRuntime) -> Result<(), Fail> {
    try_rows(rt.alloc(), &Starts, STARTS)
}
