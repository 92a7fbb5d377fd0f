//! Texts whose checks are counted, and their lines.

use crew_tally::{Counted, summary};
use std::io::Write;
use std::test::Fail;

/// Texts that are written one after the other. Checks are cut between two texts, at their front and
/// in the mark.
const TEXTS: [&[u8]; 5] = [
    b"configure: checking nothing\nchecking for a.h... yes\nchec",
    b"king for b.h... (cac",
    b"hed) no\nchecking ((cached) x (cached) (cached) yes\n",
    b"checkin\nchecking\n(cached) yes\n",
    b"checking whether it works... (cached ) no\nchecking ",
];

/// Writes the texts, and compares the line.
fn try_line(rt: &HostRuntime, texts: &[&[u8]], millis: u64, wanted: &[u8]) -> Result<(), Fail> {
    let mut output = Counted::new(Vec::new(rt.alloc()), true);
    for text in texts {
        if output.write_all(text).is_err() {
            return Err(Fail::new("a write fails"));
        }
    }
    let Some(tally) = output.tally() else {
        return Err(Fail::new("nothing is counted"));
    };
    let line = match &summary(rt.alloc(), &tally, 1, millis) {
        Ok(Some(line)) => line.as_slice() == wanted,
        Ok(None) => wanted.is_empty(),
        Err(_) => false,
    };
    if line {
        return Ok(());
    }
    Err(Fail::new("another line"))
}

#[test]
fn checks_are_counted(rt: HostRuntime) -> Result<(), Fail> {
    let line = b"acrun: 5 checks, 2 from the cache, 1 child, 12.3 s\n";
    try_line(&rt, &TEXTS, 12_399, line)?;
    try_line(&rt, &TEXTS[..1], 999, b"acrun: 1 check, 1 child, 999 ms\n")?;
    let cached = b"acrun: 1 check, 1 from the cache, 1 child, 7 ms\n";
    try_line(&rt, &[b"checking for a.h... (cached) yes\n"], 7, cached)?;
    try_line(&rt, &[], 1, b"")
}

#[test]
fn checks_that_are_not_asked_are_not_counted(rt: HostRuntime) -> Result<(), Fail> {
    let mut output = Counted::new(Vec::new(rt.alloc()), false);
    if output.write_all(b"checking for a.h... yes\n").is_err() || output.tally().is_some() {
        return Err(Fail::new("checks are counted"));
    }
    Ok(())
}
