//! Texts of answers that are written and read.

use answers_text::{Answers, Record, first_line, job_text, put_record, read_answers};
use crew_jobs::Job;
use deftable::{Bytes, Texts};
use std::alloc::{AllocError, Global};
use std::test::Fail;

const RUN: [u8; 32] = *b"0123456789abcdef0123456789abcdef";

/// Returns the record of an answer of `cc -c conftest.c`.
fn record(alloc: Global, number: u64, source: &[u8], said: &[u8]) -> Result<Record, AllocError> {
    let mut words = Texts::new(alloc);
    words.push(b"cc")?;
    words.push(b"-c")?;
    words.push(b"conftest.c")?;
    let name = Bytes::from_slice(alloc, b"conftest.c")?;
    let source = Bytes::from_slice(alloc, source)?;
    let job = Job {
        words,
        file: Some((name, source)),
    };
    let job = job_text(alloc, &job)?;
    let text = Bytes::from_slice(alloc, said)?;
    Ok(Record {
        number,
        job,
        status: 1,
        text,
    })
}

/// Appends a record, and returns its digest.
fn put(
    alloc: Global,
    text: &mut Vec<u8>,
    digest: &[u8; 32],
    number: u64,
    said: &[u8],
) -> Result<[u8; 32], AllocError> {
    let answer = record(alloc, number, b"int main (void) {return 0;}\n", said)?;
    put_record(alloc, text, digest, &answer)
}

/// Returns what is read of a text, or of no text if its first line is another one.
fn read(alloc: Global, text: &[u8]) -> Result<Answers, AllocError> {
    match read_answers(alloc, &RUN, text)? {
        Some(answers) => Ok(answers),
        None => Ok(Answers {
            records: Vec::new(alloc),
            digest: RUN,
            used: 0,
        }),
    }
}

/// Returns a text of three records.
fn three(alloc: Global) -> Result<Vec<u8>, AllocError> {
    let mut text = first_line(alloc, &RUN)?;
    let start = read(alloc, text.as_slice())?;
    let first = put(alloc, &mut text, &start.digest, 2, b"")?;
    let second = put(alloc, &mut text, &first, 1, b"error: no such header\n")?;
    let _third = put(alloc, &mut text, &second, 300, b"\0\xff")?;
    Ok(text)
}

/// Returns whether the answers are the first of the three.
fn are_first(answers: &Answers) -> bool {
    let numbers = [2u64, 1, 300];
    for (place, answer) in answers.records.as_slice().iter().enumerate() {
        if place >= 3 || answer.number != numbers[place] || answer.status != 1 {
            return false;
        }
    }
    true
}

/// Returns how many records are read of the first bytes of a text, or 9 if others are.
fn count(alloc: Global, text: &[u8], size: usize) -> Result<usize, AllocError> {
    let answers = read(alloc, &text[..size.min(text.len())])?;
    if are_first(&answers) {
        Ok(answers.records.len())
    } else {
        Ok(9)
    }
}

/// Returns how often one byte less has one record less.
fn steps(alloc: Global, text: &[u8]) -> Result<usize, AllocError> {
    let mut steps = 0usize;
    let mut last = 0usize;
    for size in 0..text.len().saturating_add(1) {
        let now = count(alloc, text, size)?;
        if now == last.saturating_add(1) {
            steps = steps.saturating_add(1);
        } else if now != last {
            return Ok(9);
        }
        last = now;
    }
    Ok(steps)
}

/// Returns whether a text with one byte changed has the first of the records, and not all.
fn survives(alloc: Global, text: &mut Vec<u8>, place: usize) -> Result<bool, AllocError> {
    if place >= text.len() {
        return Ok(false);
    }
    let byte = text[place];
    text[place] = byte ^ 1;
    let found = count(alloc, text.as_slice(), text.len())?;
    text[place] = byte;
    Ok(found < 3)
}

/// Returns whether a text survives a change of each byte.
fn survives_all(alloc: Global, text: &mut Vec<u8>) -> Result<bool, AllocError> {
    for place in 0..text.len() {
        if !survives(alloc, text, place)? {
            return Ok(false);
        }
    }
    Ok(true)
}

#[test]
fn answers_are_read_back(rt: HostRuntime) -> Result<(), Fail> {
    let alloc = rt.alloc();
    let mut text = three(alloc)?;
    assert!(rt; text.as_slice().starts_with(b"acrun answers 1 3031323334"));
    assert_eq!(rt; steps(alloc, text.as_slice())?, 3);
    assert!(rt; survives_all(alloc, &mut text)?);
    Ok(())
}
