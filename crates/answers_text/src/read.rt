//! Records that are read.

ghost use Rattle.std.specs.Prelude.{◌≡◌, ◌+◌, ◌^◌, ◌<◌, ◌++◌, ℕ, List, [], IfOk, IfNone, IfSome, IsSomeAnd, length, take, ◌-◌};
ghost use Rattle.answers_text.specs.Reading.{BeginsNone, IsChain, IsNext, IsRead, IsStopped, IsWritable};
ghost use Rattle.answers_text.specs.Texts as texts;
ghost use Rattle.answers_text.specs.declared.record.Record.{Record as RecordValue};

use crate::digest::digest_of;
use crate::record::Record;
use deftable::Bytes;
use sha2::{Digest, Sha256};
use std::alloc::{AllocError, Global};

/// The answers that a text has.
#[derive(Drop)]
pub struct Answers {
    /// The records, in the order of the text.
    pub records: Vec<Record>,
    /// The digest of the last record, or of the first line if there is none. A record that is
    /// appended comes after it.
    pub digest: [u8; 32],
    /// The number of bytes that the first line and the records have. The rest of the text is no
    /// record.
    pub used: usize,
}

/// Takes a number off the front of a text.
#[tactic(auto, using(crate::proofs::Taken::number_is, crate::proofs::Taken::number_found, crate::proofs::Taken::number_short))]
fn number_at(text: &[u8]) -> Option<(u64, &[u8])>
    ensures sound { IfSome result (λ r. text.now ≡ texts.number r.0 ++ r.1.now) }
    ensures fits { IfSome result (λ r. r.0 < 2 ^ 64) }
    ensures complete { (n : ℕ) (more : List ℕ) → n < 2 ^ 64 → text.now ≡ texts.number n ++ more
        → IsSomeAnd result (λ r. (r.0 ≡ n) × (r.1.now ≡ more)) }
{
    let Some((front, rest)) = text.split_first_chunk::<8>() else {
        return None;
    };
    Some((u64::from_be_bytes(*front), rest))
}

/// Takes a text that comes after its length off the front of a text.
fn sized_at(text: &[u8]) -> Option<(&[u8], &[u8])>
    ensures sound { IfSome result (λ r. text.now ≡ texts.sized r.0.now ++ r.1.now) }
    ensures fits { IfSome result (λ r. length r.0.now < 2 ^ 64) }
    ensures complete { (t more : List ℕ) → length t < 2 ^ 64 → text.now ≡ texts.sized t ++ more
        → IsSomeAnd result (λ r. (r.0.now ≡ t) × (r.1.now ≡ more)) }
{
    let Some((size, rest)) = number_at(text) else {
        return None;
    };
    if size > rest.len() as u64 {
        return None;
    }
    let (part, more) = rest.split_at(size as usize);
    Some((part, more))
}

/// Takes a status off the front of a text.
fn status_at(text: &[u8]) -> Option<(u32, &[u8])>
    ensures sound { IfSome result (λ r. text.now ≡ texts.number r.0 ++ r.1.now) }
    ensures fits { IfSome result (λ r. r.0 < 2 ^ 32) }
    ensures complete { (n : ℕ) (more : List ℕ) → n < 2 ^ 32 → text.now ≡ texts.number n ++ more
        → IsSomeAnd result (λ r. (r.0 ≡ n) × (r.1.now ≡ more)) }
{
    let Some((status, rest)) = number_at(text) else {
        return None;
    };
    if status >= 0x1_0000_0000 {
        return None;
    }
    Some((status as u32, rest))
}

/// Takes what a record says off the front of a text.
fn body_at(text: &[u8]) -> Option<(u64, &[u8], u32, &[u8], &[u8])>
    ensures sound { IfSome result (λ r. text.now
        ≡ texts.body (record { number = r.0; job = r.1.now; status = r.2; text = r.3.now })
        ++ r.4.now) }
    ensures writable { IfSome result (λ r. IsWritable
        (record { number = r.0; job = r.1.now; status = r.2; text = r.3.now })) }
    ensures complete { (it : RecordValue) (more : List ℕ) → IsWritable it
        → text.now ≡ texts.body it ++ more
        → IsSomeAnd result (λ r. (record { number = r.0; job = r.1.now; status = r.2; text = r.3.now } ≡ it)
        × (r.4.now ≡ more)) }
{
    let Some((number, after_number)) = number_at(text) else {
        return None;
    };
    let Some((job, after_job)) = sized_at(after_number) else {
        return None;
    };
    let Some((status, after_status)) = status_at(after_job) else {
        return None;
    };
    let Some((said, rest)) = sized_at(after_status) else {
        return None;
    };
    Some((number, job, status, said, rest))
}

/// Returns what comes after a front, or `None` if the text doesn't begin with it.
fn after<'a>(front: &[u8], text: &'a [u8]) -> Option<&'a [u8]>
    ensures sound { IfSome result (λ rest. text.now ≡ front.now ++ rest.now) }
    ensures none { IfNone result ((rest : List ℕ) → text.now ≡ front.now ++ rest → ⊥) }
{
    text.strip_prefix(front)
}

/// Returns a text without the rest at its end.
fn front_of<'a>(text: &'a [u8], rest: &[u8]) -> &'a [u8]
    ensures { result.now ≡ take (length text.now - length rest.now) text.now }
{
    &text[..text.len().saturating_sub(rest.len())]
}

/// Appends the record at the front of a text to records, and returns the rest of the text.
///
/// Returns `None` if no record begins the text, and then changes nothing.
fn read_record<'a>(
    alloc: Global,
    records: &mut Vec<Record>,
    digest: &mut [u8; 32],
    text: &'a [u8],
) -> Result<Option<&'a [u8]>, AllocError>
    ensures next { IfOk result (λ found. IfSome found (λ rest.
        IsNext digest.old text.now records.old.items records.new.items digest.new rest.now)) }
    ensures none { IfOk result (λ found. IfNone found (
        IsStopped digest.old text.now records.old.items records.new.items digest.new)) }
{
    let Some((number, job, status, said, after_body)) = body_at(text) else {
        return Ok(None);
    };
    let body = front_of(text, after_body);
    let next = digest_of(digest.as_slice(), body);
    let Some(rest) = after(&next, after_body) else {
        return Ok(None);
    };
    let job = Bytes::from_slice(alloc, job)?;
    let said = Bytes::from_slice(alloc, said)?;
    records.push(Record {
        number,
        job,
        status,
        text: said,
    })?;
    *digest = next;
    Ok(Some(rest))
}

/// Appends the records at the front of a text to records, and returns the rest of the text.
#[tactic(auto, using(crate::proofs::Taken::chain_none, crate::proofs::Taken::chain_more, crate::proofs::Taken::chain_stopped, crate::proofs::Taken::ends_stopped, crate::proofs::Taken::next_shorter))]
fn read_chain<'a>(
    alloc: Global,
    records: &mut Vec<Record>,
    digest: &mut [u8; 32],
    text: &'a [u8],
) -> Result<&'a [u8], AllocError>
    requires { records.old.items ≡ [] }
    ensures chain { IfOk result (λ rest.
        IsChain digest.old text.now records.new.items digest.new rest.now) }
    ensures ends { IfOk result (λ rest. BeginsNone digest.new rest.now) }
{
    let mut rest = text;
    'records: while let Some(more) = read_record(alloc, records, digest, rest)? {
        rest = more;
    }
    Ok(rest)
}

/// Returns the first line of the answers of a run. `run` is a digest of all that the answers rest
/// on, so that another run has another line.
///
/// # Errors
///
/// Fails only if memory runs out.
#[tactic(auto, unfolding(crate::specs::Texts::first_line))]
pub fn first_line(alloc: Global, run: &[u8; 32]) -> Result<Vec<u8>, AllocError>
    ensures { IfOk result (λ line. line.items ≡ texts.first_line run.now) }
{
    let digits = hex::encode(alloc, run.as_slice())?;
    let mut line = Vec::from_slice(alloc, b"acrun answers 1 ")?;
    line.extend_from_slice(digits.as_bytes())?;
    line.extend_from_slice(b"\n")?;
    Ok(line)
}

/// Reads the answers of a run.
///
/// A record that is cut short, that is malformed or whose digest is wrong ends the reading, and so
/// does the end of the text: the records before it are returned. Returns `None` if the first line
/// isn't that of the run.
///
/// # Errors
///
/// Fails only if memory runs out.
#[tactic(auto, using(crate::proofs::Taken::whole_read, crate::proofs::Taken::line_differs))]
pub fn read_answers(
    alloc: Global,
    run: &[u8; 32],
    text: &[u8],
) -> Result<Option<Answers>, AllocError>
    // What is returned are the records of the text, up to the first place where no record begins.
    ensures read { IfOk result (λ found. IfSome found (λ answers. IsRead run.now text.now
        answers.records.items answers.digest answers.used)) }
    // If nothing is returned, the text has another first line, or not the whole of it.
    ensures none { IfOk result (λ found. IfNone found (
        (rest : List ℕ) → text.now ≡ texts.first_line run.now ++ rest → ⊥)) }
{
    let line = first_line(alloc, run)?;
    let Some(after_line) = after(line.as_slice(), text) else {
        return Ok(None);
    };
    let mut records = Vec::new(alloc);
    let mut digest = Sha256::digest(line.as_slice());
    let rest = read_chain(alloc, &mut records, &mut digest, after_line)?;
    Ok(Some(Answers {
        records,
        digest,
        used: text.len().saturating_sub(rest.len()),
    }))
}
