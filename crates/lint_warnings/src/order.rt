//! The first statement of a source that can't be resumed after which a run that is cut may end
//! otherwise.
//!
//! A source can't be resumed if a statement breaks a rule, and then no longer one that begins alike
//! can. So the statement is found by fronts of the source, each read as a source of its own: the
//! shortest one that can't be resumed ends with it.

use crate::extent::{name_of, span_of};
use crate::noted::is_noted;
use ac_calls::{CallAt, Extent};
use acparse::{ParseFault, parse};
use lint_findings::Finding;
use lint_table::{Page, WordPart, keys};
use lint_text::{after_blanks, before, first_line, part, without_end_blanks};
use std::alloc::{AllocError, Global};

/// Returns whether the source that ends at this offset can be resumed, or `None` if it isn't read.
fn is_resumable_until(alloc: Global, text: &[u8], end: usize) -> Result<Option<bool>, AllocError> {
    let mut front = Vec::from_slice(alloc, before(text, end))?;
    front.extend_from_slice(b"\nAC_OUTPUT\n")?;
    match parse(alloc, front.as_slice()) {
        Ok(source) => Ok(Some(source.is_resumable())),
        Err(ParseFault::OutOfMemory) => Err(AllocError),
        Err(_) => Ok(None),
    }
}

/// Returns whether the source that ends at this offset is read and can't be resumed.
fn is_broken_at(alloc: Global, text: &[u8], end: usize) -> Result<bool, AllocError> {
    let resumable = is_resumable_until(alloc, text, end)?;
    Ok(resumable == Some(false))
}

/// Returns the places between the statements of a source: before and after each call that is in no
/// other, up to AC_OUTPUT.
fn places_between(alloc: Global, text: &[u8], calls: &[CallAt]) -> Result<Vec<usize>, AllocError> {
    let mut places = Vec::new(alloc);
    let mut end: usize = 0;
    for call in calls {
        if call.start >= end {
            places.push(call.start)?;
            if name_of(text, call) == b"AC_OUTPUT".as_slice() {
                return Ok(places);
            }
            places.push(call.end)?;
            end = call.end;
        }
    }
    Ok(places)
}

/// Returns the index of the first of the places before which the source can't be resumed, or their
/// number if there is none.
fn first_broken(alloc: Global, text: &[u8], places: &[usize]) -> Result<usize, AllocError> {
    let mut low: usize = 0;
    let mut high = places.len();
    for _ in 0..64 {
        if low >= high {
            return Ok(low);
        }
        // The middle is not before `low`, and is before `high`.
        let middle = low.saturating_add(high.saturating_sub(low) / 2);
        let Some(place) = places.get(middle) else {
            return Ok(low);
        };
        if is_broken_at(alloc, text, *place)? {
            high = middle;
        } else {
            low = middle.saturating_add(1);
        }
    }
    Ok(low)
}

/// Returns where the first statement is that can't be resumed, in text between calls.
fn statement_between(
    alloc: Global,
    text: &[u8],
    start: usize,
    end: usize,
) -> Result<Extent, AllocError> {
    let mut begin = start;
    let mut at = start;
    for line in part(text, start, end).split(|byte| *byte == b'\n') {
        let next = at.saturating_add(line.len());
        match is_resumable_until(alloc, text, next)? {
            Some(false) => return Ok(Extent {
                start: begin,
                end: next,
            }),
            Some(true) => begin = next.saturating_add(1),
            None => {}
        }
        at = next.saturating_add(1);
    }
    Ok(Extent { start: begin, end })
}

/// How many bytes may be read to find a statement in text between calls.
const MOST: usize = 4_194_304;

/// Returns the part of a source that is between two places of it, without what is before the
/// statement at fault.
fn narrowed(alloc: Global, text: &[u8], start: usize, end: usize) -> Result<Extent, AllocError> {
    let lines = part(text, start, end)
        .iter()
        .filter(|byte| **byte == b'\n')
        .count();
    if lines.saturating_mul(text.len()) > MOST {
        return Ok(Extent { start, end });
    }
    statement_between(alloc, text, start, end)
}

/// Returns the extent without the blanks at its start, up to the end of its first line.
fn shown(text: &[u8], extent: Extent) -> Extent {
    let given = part(text, extent.start, extent.end);
    let line = first_line(after_blanks(given));
    let start = extent
        .start
        .saturating_add(given.len().saturating_sub(after_blanks(given).len()));
    Extent {
        start,
        end: start.saturating_add(without_end_blanks(line).len()),
    }
}

/// Returns the name of the call that begins at this offset.
fn call_at(calls: &[CallAt], start: usize) -> Option<Extent> {
    let call = calls.iter().find(|call| call.start == start)?;
    Some(Extent {
        start: call.start,
        end: call.name_end,
    })
}

/// Returns where the statement is that is between two places.
fn between(
    alloc: Global,
    text: &[u8],
    calls: &[CallAt],
    start: usize,
    end: usize,
) -> Result<Extent, AllocError> {
    if let Some(extent) = call_at(calls, start) {
        return Ok(extent);
    }
    let extent = narrowed(alloc, text, start, end)?;
    Ok(shown(text, extent))
}

/// Returns where the first statement is that can't be resumed: the name of its call, or its first
/// line. If it isn't found, the extent is empty.
fn first_statement(alloc: Global, text: &[u8], calls: &[CallAt]) -> Result<Extent, AllocError> {
    let places = places_between(alloc, text, calls)?;
    let index = first_broken(alloc, text, places.as_slice())?;
    let start = match index.checked_sub(1) {
        Some(earlier) => places.get(earlier).copied().unwrap_or(0),
        None => 0,
    };
    match places.get(index) {
        Some(end) => between(alloc, text, calls, start, *end),
        None => Ok(Extent { start: 0, end: 0 }),
    }
}

/// Warns of the first statement of a source that can't be resumed, unless `acrun port` wrote it.
pub(crate) fn warn_of_order(
    alloc: Global,
    text: &[u8],
    calls: &[CallAt],
    out: &mut Vec<Finding>,
) -> Result<(), AllocError> {
    let extent = first_statement(alloc, text, calls)?;
    if is_noted(text, extent.start) {
        return Ok(());
    }
    let statement = before(part(text, extent.start, extent.end), 60);
    let mut page = Page::new(alloc);
    if statement.is_empty() {
        page.put(keys::NOT_RESUMABLE_ANYWHERE, &[]);
    } else {
        page.put(keys::NOT_RESUMABLE, &[WordPart::AsItIs(statement)]);
    }
    page.warn(
        alloc,
        out,
        text,
        span_of(extent),
        keys::NOT_RESUMABLE.name(),
    )
}
