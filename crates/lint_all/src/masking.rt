//! Blanks in place of a statement, so that the errors after it are found.

use crate::calling::called_len;
use ac_calls::{CallAt, Extent};
use lint_marks::{QuotePart, Scan};
use lint_text::{after_blanks, from, is_word_byte, part};

/// Writes a space for each byte between two offsets, but for newlines. Returns whether that changed
/// anything.
pub(crate) fn blank(text: &mut [u8], start: usize, end: usize) -> bool {
    let end = end.min(text.len());
    let mut has_changed = false;
    for i in start..end {
        let byte = text[i];
        if byte != b'\n' && byte != b' ' {
            text[i] = b' ';
            has_changed = true;
        }
    }
    has_changed
}

/// Returns whether the place is within the argument.
fn holds(arg: &Extent, place: usize) -> bool {
    arg.start <= place && place < arg.end
}

/// Returns whether a call other than the one that has the argument begins in it.
fn has_call(calls: &[CallAt], arg: &Extent) -> bool {
    calls.iter().any(|call| holds(arg, call.start))
}

/// Returns the innermost call that has the place.
pub(crate) fn innermost(calls: &[CallAt], place: usize) -> Option<&CallAt> {
    calls
        .iter()
        .rev()
        .find(|call| call.start <= place && place < call.end)
}

/// Returns the offset after the text that is between the brackets of an argument, or after the
/// argument.
fn inner_end(text: &[u8], arg: &Extent) -> usize {
    let written = part(text, arg.start, arg.end);
    if written.first() != Some(&b'[') {
        return arg.end;
    }
    match written.iter().rposition(|byte| *byte == b']') {
        Some(at) => arg.start.saturating_add(at),
        None => arg.end,
    }
}

/// Returns the offset of the text that is between the brackets of an argument, or of the argument.
pub(crate) fn inner_start(text: &[u8], arg: &Extent) -> usize {
    if part(text, arg.start, arg.end).first() == Some(&b'[') {
        arg.start.saturating_add(1)
    } else {
        arg.start
    }
}

/// Returns the offset after a call: after its line if it has no arguments, and a parenthesis is
/// after blanks.
fn end_of(text: &[u8], call: &CallAt) -> usize {
    let rest = from(text, call.end);
    if !call.args.is_empty() || !after_blanks(rest).starts_with(b"(") {
        return call.end;
    }
    call.end.saturating_add(line_len(rest))
}

/// Blanks a call, but not the statements in it. Returns whether that changed anything.
pub(crate) fn blank_call(text: &mut [u8], calls: &[CallAt], call: &CallAt) -> bool {
    let mut at = call.start;
    let mut has_changed = false;
    for arg in &call.args {
        if has_call(calls, arg) {
            let start = inner_start(text, arg);
            let end = inner_end(text, arg);
            has_changed |= blank(text, at, start);
            at = end.max(at);
        }
    }
    let end = end_of(text, call);
    has_changed | blank(text, at, end)
}

/// Returns where the argument that has the place ends, without its bracket, or the end.
fn argument_end(text: &[u8], calls: &[CallAt], place: usize) -> usize {
    let mut end = text.len();
    for call in calls {
        for arg in &call.args {
            if holds(arg, place) {
                end = end.min(inner_end(text, arg));
            }
        }
    }
    end
}

/// Returns where the text between calls that has the place ends: at the next call, at the end of
/// the argument, or at the end.
fn bare_end(text: &[u8], calls: &[CallAt], place: usize) -> usize {
    let mut end = argument_end(text, calls, place);
    for call in calls {
        if place < call.start {
            end = end.min(call.start);
        }
    }
    end
}

/// Returns where the text between calls that has the place begins: after the last call, or at the
/// start of the argument.
fn bare_start(text: &[u8], calls: &[CallAt], place: usize) -> usize {
    let mut start = 0;
    for call in calls {
        if call.end <= place {
            start = start.max(call.end);
        }
        for arg in &call.args {
            if holds(arg, place) {
                start = start.max(inner_start(text, arg).min(place));
            }
        }
    }
    start
}

/// Returns what is open at the end of text between calls, where a statement of the shell begins.
fn scan_after(text: &[u8]) -> Scan {
    let mut scan = Scan::new();
    for i in 0..text.len() {
        scan.read(&text[i..]);
    }
    scan.begin_statement();
    scan
}

/// Returns whether the shell's statement ends before a byte, with which the text begins: before a
/// newline, a comment or `dnl` that is in no quote of the shell.
fn ends_before(scan: Scan, byte: u8, text: &[u8]) -> bool {
    let is_dropped = matches!(scan.quotes.part, QuotePart::Dropped);
    if is_dropped || scan.shell.is_escaped || scan.shell.is_quoted() {
        return false;
    }
    byte == b'\n' || byte == b'#' && scan.shell.is_start() || scan.quotes.begins_dropped(text)
}

/// Returns the length of the shell statement that a text begins with, up to the newline after it, a
/// comment, or the end. If a quote isn't closed, returns the length of the first line.
fn statement_len(before: Scan, text: &[u8]) -> usize {
    let mut scan = before;
    for i in 0..text.len() {
        if ends_before(scan, text[i], &text[i..]) {
            return i;
        }
        scan.read(&text[i..]);
    }
    if scan.shell.is_quoted() {
        line_len(text)
    } else {
        text.len()
    }
}

/// Returns the length of the first line.
fn line_len(text: &[u8]) -> usize {
    text.iter().take_while(|byte| **byte != b'\n').count()
}

/// Writes a space at an offset, if there is one.
fn put_blank(text: &mut [u8], at: usize) {
    if at < text.len() {
        text[at] = b' ';
    }
}

/// Returns whether a byte, with which the text begins, has to stay where a statement becomes blanks:
/// it is one of a dropped line, or a bracket that quotes.
fn stays(scan: Scan, byte: u8, text: &[u8]) -> bool {
    scan.is_unseen(byte, text) || scan.quotes.is_text() && matches!(byte, b'[' | b']')
}

/// Writes a space for each byte of a statement between two offsets, but for newlines, brackets that
/// quote, and lines from `dnl` on. Returns whether that changed anything.
fn blank_statement(before: Scan, text: &mut [u8], start: usize, end: usize) -> bool {
    let mut scan = before;
    let mut has_changed = false;
    for i in start..end.min(text.len()) {
        let rest = from(text, i);
        let Some(byte) = rest.first().copied() else {
            return has_changed;
        };
        let goes = byte != b'\n' && byte != b' ' && !stays(scan, byte, rest);
        scan.read(rest);
        if goes {
            put_blank(text, i);
            has_changed = true;
        }
    }
    has_changed
}

/// Returns the offset after what looks like a call that begins between two offsets, and ends after
/// the second but before a limit, with the calls in it. If there is none, returns 0.
fn after_called(text: &[u8], start: usize, end: usize, limit: usize) -> usize {
    let mut is_word = false;
    for at in start..end {
        let len = if is_word {
            0
        } else {
            called_len(part(text, at, limit))
        };
        let after = at.saturating_add(len);
        if after > end {
            return after;
        }
        is_word = from(text, at)
            .first()
            .is_some_and(|byte| is_word_byte(*byte));
    }
    0
}

/// Blanks what looks like a call between the place and an offset, with the calls in it, and what is
/// after it on its line up to the next call. Returns whether that changed anything.
fn blank_called(text: &mut [u8], calls: &[CallAt], place: usize, end: usize) -> bool {
    let last = end.saturating_sub(1);
    let len = line_len(part(text, end, bare_end(text, calls, last)));
    let has_changed = blank(text, place, end);
    let after = end.saturating_add(len);
    has_changed | blank_statement(scan_after(b""), text, end, after)
}

/// Blanks the statement between calls that begins at the place. One that looks like a call has the
/// calls in it too. Returns whether that changed anything.
pub(crate) fn blank_bare(text: &mut [u8], calls: &[CallAt], place: usize) -> bool {
    let end = bare_end(text, calls, place);
    let limit = argument_end(text, calls, place);
    let before = scan_after(part(text, bare_start(text, calls, place), place));
    let statement = part(text, place, end);
    let len = statement_len(before, statement);
    // One that is cut by a call may have it in its arguments.
    let most = if len < statement.len() { 1 } else { len };
    let called = after_called(text, place, place.saturating_add(most), limit);
    if called > place.saturating_add(len) {
        return blank_called(text, calls, place, called);
    }
    blank_statement(before, text, place, place.saturating_add(len.max(1)))
}
