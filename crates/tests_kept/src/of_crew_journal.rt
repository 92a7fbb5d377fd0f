//! Crews whose replies are appended to a file in memory, around crews that take replies from the
//! records of an earlier run.

ghost use Rattle.std.specs.Prelude.{◌≡◌, []};

use crate::work::{job_of_kind, jobs_of, put_jobs};
use answers_text::{Record, first_line, job_text, read_answers};
use crew::{Causes, MemoryCrew, Order};
use crew_jobs::Job;
use crew_journal::{AnswerFile, Journal, MemoryFile};
use crew_kept::Kept;
use crew_tally::Children;
use crew_trait::{Crew, Reply};
use deftable::Bytes;
use sha2::{Digest, Sha256};
use std::alloc::{AllocError, Global};
use std::test::Fail;
use test_crews::children::put_reply;
use test_crews::replies::{add, replies_in};
use test_rows::{Page, RowCall, cut, number_of, try_rows};
use text_cut::fields;

const RUN: [u8; 32] = *b"0123456789abcdef0123456789abcdef";

/// Returns the record of an answer to a job.
fn record_of(alloc: Global, number: usize, job: &Job, reply: &Reply) -> Result<Record, AllocError> {
    let job = job_text(alloc, job)?;
    match reply {
        Reply::Answer { status, text } => {
            let text = text.copy(alloc)?;
            Ok(Record {
                number: number as u64,
                job,
                status: *status,
                text,
            })
        }
        _ => Ok(Record {
            number: number as u64,
            job,
            status: 0,
            text: Bytes::new(alloc),
        }),
    }
}

/// Adds the record of a word: `NUMBER,KIND,REPLY`.
fn add_record(page: &mut Page, records: &mut Vec<Record>, word: &[u8]) {
    let alloc = page.alloc();
    let (number, rest) = cut(word, b",");
    let (kind, reply) = cut(rest, b",");
    let job = job_of_kind(page, kind);
    let replies = replies_in(page, reply);
    if let Some(reply) = replies.as_slice().first() {
        let made = record_of(alloc, number_of(number), &job, reply);
        if let Some(answer) = page.given(made) {
            add(page, records, answer);
        }
    }
}

/// Returns the records of words with blanks between them.
fn records_in(page: &mut Page, text: &[u8]) -> Vec<Record> {
    let alloc = page.alloc();
    let mut records = Vec::new(alloc);
    if let Some(words) = page.given(fields(alloc, text)) {
        for word in words.as_slice() {
            add_record(page, &mut records, word);
        }
    }
    records
}

/// Returns the text of a new file with these texts.
fn whole(alloc: Global, texts: &[Bytes]) -> Result<Vec<u8>, AllocError> {
    let mut text = first_line(alloc, &RUN)?;
    for one in texts {
        text.extend_from_slice(one.as_slice())?;
    }
    Ok(text)
}

/// Puts ` NUMBER=` and the reply of each record.
fn put_records(page: &mut Page, records: &[Record]) {
    for answer in records {
        page.put(b" ");
        page.put_shown(&answer.number);
        page.put(b"=");
        page.put_shown(&answer.status);
        page.put(b":");
        page.put(answer.text.as_slice());
    }
}

/// Puts the number of texts that were appended, and the records that are read of the file.
fn put_file(page: &mut Page, texts: &[Bytes]) {
    let alloc = page.alloc();
    page.put(b" |");
    page.put_number(texts.len());
    let text = whole(alloc, texts);
    let Some(text) = page.given(text) else {
        return;
    };
    let read = read_answers(alloc, &RUN, text.as_slice());
    if let Some(Some(answers)) = page.given(read) {
        put_records(page, answers.records.as_slice());
    }
}

/// Puts how many children were started, and the cause of each start and end that was refused.
fn put_known<C: Causes + Children>(page: &mut Page, crew: &C) {
    page.put(b" |");
    page.put_shown(&crew.children());
    for number in 1..9u64 {
        if let Some(cause) = crew.cause(number) {
            page.put(b" ");
            page.put_shown(&number);
            page.put(b"=");
            page.put(cause);
        }
    }
}

/// Puts what such a crew does around one in memory, and what is in the file then.
fn put_journal(
    page: &mut Page,
    records: Vec<Record>,
    crew: MemoryCrew,
    jobs: &[Job],
    used: u64,
    left: usize,
)
    requires fresh { crew.account ≡ record { events = []; attempts = 0; failures = 0 } }
{
    let alloc = page.alloc();
    let line = first_line(alloc, &RUN);
    let Some(line) = page.given(line) else {
        return;
    };
    let kept = Kept::new(alloc, crew, records);
    let file = MemoryFile::new(alloc, left);
    let mut journal = Journal::new(alloc, kept, file, Sha256::digest(line.as_slice()), used);
    put_jobs(page, &mut journal, jobs);
    put_file(page, journal.file().texts());
    put_known(page, journal.kept());
}

/// The kinds of the starts, the records of the earlier run, the replies of the crew inside, how many
/// bytes the file had, and how many writes it takes.
struct Journals;

impl RowCall for Journals {
    fn put(&self, page: &mut Page, given: &[u8]) {
        let (kinds, rest) = cut(given, b"|");
        let (records, rest) = cut(rest, b"|");
        let (replies, rest) = cut(rest, b"|");
        let (used, left) = cut(rest, b"|");
        let jobs = jobs_of(page, kinds);
        let records = records_in(page, records);
        let replies = replies_in(page, replies);
        match MemoryCrew::new(page.alloc(), replies, Order::Oldest) {
            Ok(crew) => put_journal(
                page,
                records,
                crew,
                jobs.as_slice(),
                number_of(used) as u64,
                number_of(left),
            ),
            Err(_) => page.cut(),
        }
    }
}

const JOURNALS: &[u8] = b"\
// Each reply is appended. The end that is refused is not.
c l r||1:a 2:b 3:c|100|9 =>  0:1:a 1:2:b 2:3:c |3 1=1:a 2=2:b 3=3:c |3
c c||E 2:b|100|9 =>  0:E 1:2:b |1 2=2:b |2
// A reply that is taken is not appended again.
c c c|1,c,0:a|1:x 2:y|100|9 =>  0:0:a 1:1:x 2:2:y |2 2=1:x 3=2:y |2
// Nothing is taken of another number, and of another job. From that on nothing is.
c|2,c,0:a|1:x|100|9 =>  0:1:x |1 1=1:x |1
c c|1,-g,0:a 2,c,0:b|1:x 2:y|100|9 =>  0:1:x 1:2:y |2 1=1:x 2=2:y |2
// The records are in any order, and the first of a number counts.
c c|2,c,0:b 1,c,0:a||100|9 =>  1:0:b 0:0:a |0 |0
c|1,c,0:a 1,c,0:b||100|9 =>  0:0:a |0 |0
// A link that has the last record is asked.
l|1,l,0:a|1:x|100|9 =>  0:1:x |1 1=1:x |1
l r|1,l,0:a 2,r,0:b||100|9 =>  1:0:b 0:0:a |0 |0
// After a link that was taken a run is refused, also if other starts are between, and a search is not.
l r|1,l,0:a 2,c,0:b|1:x|100|9 =>  1:S 0:0:a |0 |0
l c r|1,l,0:a 2,c,0:b|1:x|100|9 =>  2:S 1:0:b 0:0:a |0 |0
l f|1,l,0:a 2,c,0:b|1:x|100|9 =>  0:0:a 1:1:x |1 2=1:x |1
// The program of a link that the crew inside has started may be run.
l l r|1,l,0:a 2,c,0:b|1:x 2:y|100|9 =>  0:0:a 1:1:x 2:2:y |2 2=1:x 3=2:y |2
// The crew inside counts fewer starts.
c c c|1,c,0:a|S 2:b|100|9 =>  1:S 0:0:a 2:2:b |1 3=2:b |1
// Nothing is appended after a write that failed, and no more than 64 MiB are.
c c c||1:a 2:b 3:c|100|1 =>  0:1:a 1:2:b 2:3:c |1 1=1:a |3
c||1:a|67108864|9 =>  0:1:a |0 |1
c c||1:a 2:b|67108600|9 =>  0:1:a 1:2:b |1 1=1:a |2
c c||1:a 2:b|67108800|9 =>  0:1:a 1:2:b |0 |2
";

#[test]
fn replies_are_appended(rt: HostRuntime) -> Result<(), Fail> {
    try_rows(rt.alloc(), &Journals, JOURNALS)
}
