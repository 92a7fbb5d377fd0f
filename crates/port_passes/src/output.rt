//! Puts messages that are after AC_OUTPUT before it, if all idioms are wanted.

ghost use Rattle.std.specs.Prelude.{◌≡◌, ◌≤◌, ◌<◌, ◌+◌, ◌-◌, ◌∷◌, [], true, ℕ, map, length, slice_index, slice_range, codes, Contains, IfOk, OnOk, IsTrue};
ghost use Rattle.std.specs.List.{list_all};
ghost use Rattle.ac_calls.specs.Calls.{calls_in, macro_call_of};
ghost use Rattle.port_idioms.specs.declared.idioms.Idioms.TheVariants.{All};
ghost use Rattle.port_passes.specs.Rewritten as specs;

use ac_calls::CallAt;
use lint_text::{before, from};
use port_edits::{Pass, write_change};
use port_idioms::{Idioms, is_call_of};
use port_spots::{Spot, are_blank, blank_len, without_end_blanks};
use std::alloc::{AllocError, Global};
use text_cut::is_blank_or_return;

/// Returns whether the call and, around it, nothing but blanks are between two offsets of the text.
pub fn is_around(text: &[u8], call: &CallAt, start: usize, end: usize) -> bool
    ensures { IsTrue result
        → specs.IsAround text.now (macro_call_of call.now) start end × (end ≤ length text.now)
        × (start ≤ length text.now) }
{
    let is_there = start <= call.start
        && call.start <= text.len()
        && call.end <= end
        && end <= text.len();
    is_there && are_blank(&text[start..call.start]) && are_blank(&text[call.end..end])
}

/// Returns whether a macro of this name prints a message, and does nothing else.
fn is_message(name: &[u8]) -> bool
    ensures { result ≡ specs.is_message name.now }
{
    name == b"AC_MSG_RESULT".as_slice()
        || name == b"AC_MSG_NOTICE".as_slice()
        || name == b"AC_MSG_WARN".as_slice()
}

/// Returns whether the call prints a message.
fn prints(text: &[u8], call: &CallAt) -> bool
    ensures { IsTrue result
        → specs.is_message (
        slice_range text.now (macro_call_of call.now).start (macro_call_of call.now).name_end)
        ≡ true }
{
    let has_name = call.start <= call.name_end && call.name_end <= text.len();
    has_name && is_message(&text[call.start..call.name_end])
}

/// Returns whether an offset is in a message, which is one of the calls from the one at an index
/// on. They are in order of their offsets.
fn is_in_message(text: &[u8], calls: &[CallAt], first: usize, at: usize) -> bool
    requires calls { map macro_call_of calls.now ≡ calls_in text.now }
    ensures { IsTrue result → specs.IsInMessage text.now at }
{
    for i in first..calls.len() {
        let call = &calls[i];
        if at < call.start {
            return false;
        }
        if !prints(text, call) {
            continue;
        }
        if at < call.end {
            return true;
        }
    }
    false
}

/// Returns whether a byte is no newline.
fn is_inline(byte: u8) -> bool
    ensures { result ≡ specs.is_inline byte }
{
    !(byte == b'\n')
}

/// Returns whether a text has no newline.
fn are_inline(text: &[u8]) -> bool
    ensures { result ≡ list_all specs.is_inline text.now }
{
    text.iter().all(|byte| is_inline(*byte))
}

/// Returns whether a newline is right before an offset, and `dnl` at it.
fn begins_comment(text: &[u8], line: usize) -> bool
    ensures { IsTrue result
        → (slice_range text.now (line - 1) line ≡ 10 ∷ [])
        × (slice_range text.now line (line + 4) ≡ codes "dnl ") }
{
    let is_there = 1 <= line && line <= text.len() && 4 <= text.len() - line;
    is_there
        && &text[line - 1..line] == b"\n".as_slice()
        && &text[line..line + 4] == b"dnl ".as_slice()
}

/// Returns whether a comment begins at an offset and goes on up to another one.
fn is_comment(text: &[u8], line: usize, at: usize) -> bool
    ensures { IsTrue result → specs.IsInComment text.now at }
{
    line <= at && at <= text.len() && begins_comment(text, line) && are_inline(&text[line..at])
}

/// Returns the offset of the line of a place.
fn line_of(text: &[u8], at: usize) -> usize {
    let front = before(text, at);
    let len = front
        .iter()
        .rev()
        .take_while(|byte| **byte != b'\n')
        .count();
    front.len().saturating_sub(len)
}

/// Returns whether an offset is in a message or in a comment.
fn is_told_at(text: &[u8], calls: &[CallAt], first: usize, at: usize) -> bool
    requires calls { map macro_call_of calls.now ≡ calls_in text.now }
    ensures { IsTrue result → specs.IsTold text.now at }
{
    if is_in_message(text, calls, first, at) {
        return true;
    }
    is_comment(text, line_of(text, at), at)
}

/// Returns whether a byte is no blank.
fn is_shown(byte: u8) -> bool
    ensures { result ≡ specs.is_shown byte }
{
    !is_blank_or_return(byte)
}

/// Returns whether the byte at an offset is a blank, or is in a message or in a comment.
fn is_plain_at(text: &[u8], calls: &[CallAt], first: usize, at: usize) -> bool
    requires calls { map macro_call_of calls.now ≡ calls_in text.now }
    ensures { IsTrue result
        → specs.is_shown (slice_index text.now at) ≡ true
        → specs.IsTold text.now at }
{
    at < text.len() && (!is_shown(text[at]) || is_told_at(text, calls, first, at))
}

/// Returns whether there is nothing but messages, comments and blanks between two offsets.
fn are_told(text: &[u8], calls: &[CallAt], first: usize, start: usize, end: usize) -> bool
    requires calls { map macro_call_of calls.now ≡ calls_in text.now }
    ensures { IsTrue result
        → (at : ℕ) → start ≤ at → at < end → specs.is_shown (slice_index text.now at) ≡ true
        → specs.IsTold text.now at }
{
    for at in start..end {
        if !is_plain_at(text, calls, first, at) {
            return false;
        }
    }
    true
}

/// Returns whether there is nothing but messages, comments and blanks between two offsets, and
/// nothing but blanks from the second one on.
fn are_messages(text: &[u8], calls: &[CallAt], first: usize, start: usize, end: usize) -> bool
    requires calls { map macro_call_of calls.now ≡ calls_in text.now }
    ensures { IsTrue result → specs.AreMessages text.now start end }
{
    let is_there = start <= end && end <= text.len();
    is_there && are_told(text, calls, first, start, end) && are_blank(&text[end..text.len()])
}

/// Returns the comment above messages that were after AC_OUTPUT.
fn comment() -> &'static [u8]
    ensures { result.now ≡ specs.before_output }
{
    b"dnl acrun: in place of what is printed after AC_OUTPUT: it is printed before it, where prefix and exec_prefix may be NONE"
}

/// Returns messages below the comment, and the call of AC_OUTPUT after them.
fn messages_first(alloc: Global, messages: &[u8], call: &[u8]) -> Result<Vec<u8>, AllocError>
    ensures { IfOk result (λ v. v.items ≡ specs.messages_first messages.now call.now) }
{
    let mut out = Vec::from_slice(alloc, comment())?;
    out.push(b'\n')?;
    out.extend_from_slice(messages)?;
    out.push(b'\n')?;
    out.extend_from_slice(call)?;
    out.push(b'\n')?;
    Ok(out)
}

/// Puts what is between two offsets after AC_OUTPUT before it, if it is nothing but messages, unless
/// it is not after what was read.
fn put_first(
    alloc: Global,
    idioms: Idioms,
    text: &[u8],
    calls: &[CallAt],
    first: usize,
    call: &CallAt,
    start: usize,
    end: usize,
    pass: &mut Pass,
) -> Result<(), AllocError>
    requires calls { map macro_call_of calls.now ≡ calls_in text.now }
    requires call { Contains (calls_in text.now) (macro_call_of call.now) }
    requires all { idioms ≡ All }
    requires output { slice_range text.now (macro_call_of call.now).start (macro_call_of call.now).name_end
        ≡ codes "AC_OUTPUT" }
    requires begun { specs.IsPass idioms text.now pass.old.at pass.old.out.items }
    ensures { OnOk result (specs.IsPass idioms text.now pass.new.at pass.new.out.items) }
{
    let _ = idioms;
    if call.start < pass.at || call.end < call.start || text.len() < call.end {
        return Ok(());
    }
    if !is_around(text, call, call.start, start) || !are_messages(text, calls, first, start, end) {
        return Ok(());
    }
    let put = messages_first(alloc, &text[start..end], &text[call.start..call.end])?;
    write_change(text, call.start, text.len(), put.as_slice(), pass)
}

/// The length of the longest text after AC_OUTPUT that is put before it. For each byte the calls are
/// gone over.
const LONGEST: usize = 4000;

/// Puts what is after AC_OUTPUT before it, if it is nothing but messages, and the call begins a line.
fn put_output(
    alloc: Global,
    idioms: Idioms,
    text: &[u8],
    calls: &[CallAt],
    first: usize,
    spot: Spot,
    call: &CallAt,
    pass: &mut Pass,
) -> Result<(), AllocError>
    requires calls { map macro_call_of calls.now ≡ calls_in text.now }
    requires call { Contains (calls_in text.now) (macro_call_of call.now) }
    requires all { idioms ≡ All }
    requires output { slice_range text.now (macro_call_of call.now).start (macro_call_of call.now).name_end
        ≡ codes "AC_OUTPUT" }
    requires begun { specs.IsPass idioms text.now pass.old.at pass.old.out.items }
    ensures { OnOk result (specs.IsPass idioms text.now pass.new.at pass.new.out.items) }
{
    let start = call.end.saturating_add(blank_len(from(text, call.end)));
    let end = without_end_blanks(text).len();
    if spot.line != call.start || end <= start || LONGEST < end.saturating_sub(start) {
        return Ok(());
    }
    put_first(alloc, idioms, text, calls, first, call, start, end, pass)
}

/// Puts what is after AC_OUTPUT before it, if it is nothing but messages, and all idioms are wanted.
pub fn pass_output(
    alloc: Global,
    idioms: Idioms,
    text: &[u8],
    calls: &[CallAt],
    first: usize,
    spot: Spot,
    call: &CallAt,
    pass: &mut Pass,
) -> Result<(), AllocError>
    requires calls { map macro_call_of calls.now ≡ calls_in text.now }
    requires call { Contains (calls_in text.now) (macro_call_of call.now) }
    requires begun { specs.IsPass idioms text.now pass.old.at pass.old.out.items }
    ensures { OnOk result (specs.IsPass idioms text.now pass.new.at pass.new.out.items) }
{
    if !is_call_of(text, call, b"AC_OUTPUT") {
        return Ok(());
    }
    match idioms {
        Idioms::Exact => Ok(()),
        Idioms::All => put_output(alloc, idioms, text, calls, first, spot, call, pass),
    }
}
