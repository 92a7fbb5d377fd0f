//! The line.

ghost use Rattle.std.specs.Prelude.{◌≡◌, ◌++◌, ◌==◌, ℕ, false, true, IfOk, OnOk, decimal, option_map, vec_items};
ghost use Rattle.crew_tally.specs.Line as texts;

use crate::tally::Tally;
use std::alloc::{AllocError, Global};

/// The milliseconds from which seconds are said.
const LEAST_SECONDS: u64 = 1000;

/// Appends a number, or `no` in place of 0.
fn put_number(line: &mut Vec<u8>, alloc: Global, number: u64) -> Result<(), AllocError>
    ensures { OnOk result (line.new.items ≡ line.old.items ++ texts.number_text number) }
{
    if number == 0 {
        return line.extend_from_slice(b"no");
    }
    let digits = format!(in alloc; "{number}")?;
    line.extend_from_slice(digits.as_bytes())
}

/// Appends a number and its noun, of which there is one form for 1 and another for the rest.
fn put_count(
    line: &mut Vec<u8>,
    alloc: Global,
    number: u64,
    one: &[u8],
    many: &[u8],
) -> Result<(), AllocError>
    ensures { OnOk result (
        line.new.items ≡ line.old.items ++ texts.count_text number one.now many.now) }
{
    put_number(line, alloc, number)?;
    if number == 1 {
        return line.extend_from_slice(one);
    }
    line.extend_from_slice(many)
}

/// Appends three texts.
fn put_parts(line: &mut Vec<u8>, front: &[u8], middle: &[u8], back: &[u8]) -> Result<(), AllocError>
    ensures { OnOk result (
        line.new.items ≡ line.old.items ++ (front.now ++ (middle.now ++ back.now))) }
{
    line.extend_from_slice(front)?;
    line.extend_from_slice(middle)?;
    line.extend_from_slice(back)
}

/// Appends that the cache had so many answers.
fn put_known(line: &mut Vec<u8>, alloc: Global, cached: u64) -> Result<(), AllocError>
    ensures { OnOk result (line.new.items ≡ line.old.items ++ texts.known_text cached) }
{
    let digits = format!(in alloc; "{cached}")?;
    put_parts(line, b", ", digits.as_bytes(), b" from the cache")
}

/// Appends how many answers the cache had, if it had one.
fn put_cached(line: &mut Vec<u8>, alloc: Global, cached: u64) -> Result<(), AllocError>
    ensures { OnOk result (line.new.items ≡ line.old.items ++ texts.cached_text cached) }
{
    if cached == 0 {
        return Ok(());
    }
    put_known(line, alloc, cached)
}

/// Appends so many milliseconds.
fn put_millis(line: &mut Vec<u8>, alloc: Global, millis: u64) -> Result<(), AllocError>
    ensures { OnOk result (line.new.items ≡ line.old.items ++ texts.millis_text millis) }
{
    let digits = format!(in alloc; "{millis}")?;
    line.extend_from_slice(digits.as_bytes())?;
    line.extend_from_slice(b" ms")
}

/// Appends so many milliseconds as seconds, with one digit after the point.
fn put_seconds(line: &mut Vec<u8>, alloc: Global, millis: u64) -> Result<(), AllocError>
    ensures { OnOk result (line.new.items ≡ line.old.items ++ texts.seconds_text millis) }
{
    let seconds = millis / 1000;
    let tenths = millis % 1000 / 100;
    let digits = format!(in alloc; "{seconds}")?;
    let tenth = format!(in alloc; "{tenths}")?;
    line.extend_from_slice(digits.as_bytes())?;
    line.push(b'.')?;
    line.extend_from_slice(tenth.as_bytes())?;
    line.extend_from_slice(b" s")
}

/// Appends how long a run took.
fn put_time(line: &mut Vec<u8>, alloc: Global, millis: u64) -> Result<(), AllocError>
    ensures { OnOk result (line.new.items ≡ line.old.items ++ texts.time_text millis) }
{
    if millis < LEAST_SECONDS {
        return put_millis(line, alloc, millis);
    }
    put_seconds(line, alloc, millis)
}

/// Returns the line.
fn line_of(alloc: Global, tally: &Tally, children: u64, millis: u64) -> Result<Vec<u8>, AllocError>
    ensures { IfOk result (λ line. line.items ≡ texts.line tally.now children millis) }
{
    let mut line = Vec::from_slice(alloc, b"acrun: ")?;
    put_count(&mut line, alloc, tally.checks(), b" check", b" checks")?;
    put_cached(&mut line, alloc, tally.cached())?;
    line.extend_from_slice(b", ")?;
    put_count(&mut line, alloc, children, b" child", b" children")?;
    line.extend_from_slice(b", ")?;
    put_time(&mut line, alloc, millis)?;
    line.extend_from_slice(b"\n")?;
    Ok(line)
}

/// Returns the line that sums a run up: how many checks it made, how many answers the cache had, how
/// many children it started, and the time (own). A run without checks has no such line.
///
/// # Errors
///
/// Fails only if memory runs out.
pub fn summary(
    alloc: Global,
    tally: &Tally,
    children: u64,
    millis: u64,
) -> Result<Option<Vec<u8>>, AllocError>
    ensures { IfOk result
        (λ line. option_map vec_items line ≡ texts.summary tally.now children millis) }
{
    if tally.checks() == 0 {
        return Ok(None);
    }
    let line = line_of(alloc, tally, children, millis)?;
    Ok(Some(line))
}
