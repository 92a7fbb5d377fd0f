//! Records that are written.

ghost use Rattle.std.specs.Prelude.{◌≡◌, ◌+◌, ◌++◌, IfOk, OnOk, OnErr, List, [], flat_map, length};
ghost use Rattle.sha2.specs.Sha256.{sha256};
ghost use Rattle.answers_text.specs.Texts as texts;

use crate::digest::digest_of;
use crate::record::Record;
use crew_jobs::Job;
use deftable::Bytes;
use sha2::{Digest, Sha256};
use std::alloc::{AllocError, Global};

/// Appends a number.
#[tactic(auto, unfolding(crate::specs::Texts::number))]
fn put_number(text: &mut Vec<u8>, number: u64) -> Result<(), AllocError>
    ensures { OnOk result (text.new.items ≡ text.old.items ++ texts.number number) }
{
    text.extend_from_slice(&number.to_be_bytes())
}

/// Appends a text, after its length.
#[tactic(auto, using(std::proofs::lemmas::List::append_assoc), unfolding(crate::specs::Texts::sized))]
fn put_sized(text: &mut Vec<u8>, part: &[u8]) -> Result<(), AllocError>
    ensures { OnOk result (text.new.items ≡ text.old.items ++ texts.sized part.now) }
{
    put_number(text, part.len() as u64)?;
    text.extend_from_slice(part)?;
    Ok(())
}

/// Appends words, each after its length.
fn put_words(text: &mut Vec<u8>, words: &[Bytes]) -> Result<(), AllocError>
    ensures { OnOk result (text.new.items ≡ text.old.items ++ flat_map texts.sized words.now) }
{
    for word in words {
        put_sized(text, word.as_slice())?;
    }
    Ok(())
}

/// Appends what a record says of a program.
#[tactic(auto, using(std::proofs::lemmas::List::append_assoc))]
fn put_program(text: &mut Vec<u8>, name: &[u8], source: &[u8]) -> Result<(), AllocError>
    ensures { OnOk result (text.new.items ≡ text.old.items
        ++ (texts.number 1 ++ (texts.sized name.now
        ++ (texts.number (length source.now) ++ sha256 source.now)))) }
{
    put_number(text, 1)?;
    put_sized(text, name)?;
    put_number(text, source.len() as u64)?;
    text.extend_from_slice(&Sha256::digest(source))?;
    Ok(())
}

/// Appends what a record says of the program that a job reads, if it reads one.
fn put_file(text: &mut Vec<u8>, file: &Option<(Bytes, Bytes)>) -> Result<(), AllocError>
    ensures { OnOk result (text.new.items ≡ text.old.items ++ texts.program file.now) }
{
    match file {
        Some((name, source)) => put_program(text, name.as_slice(), source.as_slice()),
        None => put_number(text, 0),
    }
}

/// Returns what a record says of a job: its words, and the name, the length and the SHA-256 digest
/// of the program that it reads.
///
/// # Errors
///
/// Fails only if memory runs out.
#[tactic(auto, using(std::proofs::lemmas::List::append_assoc), unfolding(crate::specs::Texts::job_text))]
pub fn job_text(alloc: Global, job: &Job) -> Result<Bytes, AllocError>
    ensures { IfOk result (λ text. text ≡ texts.job_text job.now) }
{
    let mut text = Vec::new(alloc);
    put_number(&mut text, job.words.as_slice().len() as u64)?;
    put_words(&mut text, job.words.as_slice())?;
    put_file(&mut text, &job.file)?;
    Ok(Bytes::from_vec(text))
}

/// Appends what a record says.
#[tactic(auto, using(std::proofs::lemmas::List::append_assoc), unfolding(crate::specs::Texts::body))]
fn put_body(text: &mut Vec<u8>, answer: &Record) -> Result<(), AllocError>
    ensures { OnOk result (text.new.items ≡ text.old.items ++ texts.body answer.now) }
{
    put_number(text, answer.number)?;
    put_sized(text, answer.job.as_slice())?;
    put_number(text, u64::from(answer.status))?;
    put_sized(text, answer.text.as_slice())?;
    Ok(())
}

/// Returns the text of a record, and its digest. `before` is the digest of the record before it, or
/// of the first line.
///
/// # Errors
///
/// Fails only if memory runs out.
#[tactic(auto, unfolding(crate::specs::Texts::digest_after))]
pub fn record_text(
    alloc: Global,
    before: &[u8; 32],
    answer: &Record,
) -> Result<(Vec<u8>, [u8; 32]), AllocError>
    ensures text { IfOk result (λ made. made.0.items ≡ texts.record_text before.now answer.now) }
    ensures digest { IfOk result (λ made. made.1 ≡ texts.digest_after before.now answer.now) }
{
    let mut text = Vec::new(alloc);
    put_body(&mut text, answer)?;
    let digest = digest_of(before, text.as_slice());
    text.extend_from_slice(&digest)?;
    Ok((text, digest))
}

/// Appends a record to a text, and returns its digest. `before` is the digest of the record before
/// it, or of the first line.
///
/// # Errors
///
/// Fails only if memory runs out, and then leaves the text unchanged.
pub fn put_record(
    alloc: Global,
    text: &mut Vec<u8>,
    before: &[u8; 32],
    answer: &Record,
) -> Result<[u8; 32], AllocError>
    ensures put { OnOk result (text.new.items
        ≡ text.old.items ++ texts.record_text before.now answer.now) }
    ensures digest { IfOk result (λ digest. digest ≡ texts.digest_after before.now answer.now) }
    ensures err { OnErr result (text.new.items ≡ text.old.items) }
{
    let (made, digest) = record_text(alloc, before, answer)?;
    text.extend_from_slice(made.as_slice())?;
    Ok(digest)
}
