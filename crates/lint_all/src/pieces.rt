//! Where the pieces of a source begin, each of which can be read alone.

use crate::calling::called_len;
use ac_calls::CallAt;
use lint_marks::Scan;
use lint_text::{after_blanks, from};
use std::alloc::{AllocError, Global};

/// Returns the offset after what looks like a call on the line at an offset.
fn after_called(text: &[u8], at: usize) -> usize {
    let rest = from(text, at);
    let statement = after_blanks(rest);
    let blanks = rest.len().saturating_sub(statement.len());
    at.saturating_add(blanks)
        .saturating_add(called_len(statement))
}

/// Returns whether a bracket or a quote is open, or a backslash quotes the next byte.
fn is_open(scan: Scan) -> bool {
    scan.quotes.depth > 0 || scan.shell.is_quoted() || scan.shell.is_escaped
}

/// Appends the offsets between two others at which a piece begins. None begins within what looks
/// like a call, which ends before an offset.
fn push_starts(
    text: &[u8],
    start: usize,
    end: usize,
    scan: &mut Scan,
    called: &mut usize,
    out: &mut Vec<usize>,
) -> Result<(), AllocError> {
    let end = end.min(text.len());
    for i in start..end {
        let next = i.saturating_add(1);
        let begins = text[i] == b'\n' && !is_open(*scan);
        scan.read(&text[i..]);
        if begins && *called <= next {
            out.push(next)?;
            *called = after_called(text, next);
        }
    }
    Ok(())
}

/// Returns the offsets at which the pieces of a text with these calls begin: its start, and that of
/// each line that is in no call, quote or bracket, nor in what looks like a call, and that no
/// backslash joins to the line before it.
pub(crate) fn starts_of(
    alloc: Global,
    text: &[u8],
    calls: &[CallAt],
) -> Result<Vec<usize>, AllocError> {
    let mut out = Vec::new(alloc);
    out.push(0)?;
    let mut scan = Scan::new();
    let mut called = after_called(text, 0);
    let mut at = 0;
    for call in calls {
        if at <= call.start {
            push_starts(text, at, call.start, &mut scan, &mut called, &mut out)?;
            scan.pass_call();
            at = call.end;
        }
    }
    push_starts(text, at, text.len(), &mut scan, &mut called, &mut out)?;
    Ok(out)
}
