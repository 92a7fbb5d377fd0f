//! Where a fault is.

ghost use Rattle.std.specs.Prelude.{◌≡◌, ◌≤◌, IfOk, length};
ghost use Rattle.lint_errors.specs.Errors as specs;

use crate::statement::statement_after;
use ac_calls::{CallAt, Extent};
use ac_statement::ParseFault;
use lint_text::{after_blanks, first_name, from, part};
use m4quote::QuoteFault;
use std::alloc::{AllocError, Global};

/// Returns the offset of an error of quotes, or 0 if it has none.
fn quote_offset(fault: QuoteFault) -> usize
    ensures { result ≡ specs.quote_offset fault }
{
    match fault {
        QuoteFault::UnclosedQuote(at) => at,
        QuoteFault::UnclosedParen(at) => at,
        QuoteFault::StrayClose(at) => at,
        QuoteFault::Nul(at) => at,
        QuoteFault::TooLarge => 0,
        QuoteFault::TooDeep => 0,
        QuoteFault::OutOfMemory => 0,
    }
}

/// Returns the offset of a fault of a source with `len` bytes.
fn offset_of(len: usize, fault: ParseFault) -> usize
    ensures { result ≡ specs.offset_of len fault }
{
    match fault {
        ParseFault::Quote(fault) => quote_offset(fault),
        ParseFault::UnknownMacro(at) => at,
        ParseFault::UnknownStatement(at) => at,
        ParseFault::ArgCount(at) => at,
        ParseFault::BadName(at) => at,
        ParseFault::Shell(_, at) => at,
        ParseFault::NotAtTop(at) => at,
        ParseFault::NoInit => 0,
        ParseFault::NoOutput => len,
        ParseFault::AfterOutput(at) => at,
        ParseFault::CacheBody(at) => at,
        ParseFault::TooDeep(at) => at,
        ParseFault::TooMany(at) => at,
        ParseFault::NewerVersion(at) => at,
        ParseFault::OutOfMemory => 0,
    }
}

/// Returns whether the fault may be one of text between calls.
fn may_be_of_text(fault: ParseFault) -> bool
    ensures { result ≡ specs.may_be_of_text fault }
{
    match fault {
        ParseFault::UnknownStatement(_) => true,
        ParseFault::Shell(_, _) => true,
        ParseFault::NoInit => true,
        ParseFault::AfterOutput(_) => true,
        _ => false,
    }
}

/// Returns whether one of the arguments begins at this offset.
fn begins_in(args: &[Extent], at: usize) -> bool {
    args.iter().any(|arg| arg.start == at)
}

/// Returns whether an argument of a call begins at this offset.
fn is_argument(calls: &[CallAt], at: usize) -> bool {
    calls.iter().any(|call| begins_in(&call.args, at))
}

/// Returns the length of the blanks and the comments that a text begins with, those after `dnl` too.
fn idle_len(text: &[u8]) -> usize {
    let mut at: usize = 0;
    for line in text.split(|byte| *byte == b'\n') {
        let written = after_blanks(line);
        if !(written.is_empty()
            || written.starts_with(b"#")
            || first_name(written) == b"dnl".as_slice())
        {
            return at.saturating_add(line.len().saturating_sub(written.len()));
        }
        at = at.saturating_add(line.len()).saturating_add(1);
    }
    text.len()
}

/// Returns the call of AC_PREREQ that begins at this offset.
fn prereq_at<'a>(text: &[u8], calls: &'a [CallAt], at: usize) -> Option<&'a CallAt> {
    let call = calls.iter().find(|call| call.start == at)?;
    if part(text, call.start, call.name_end) == b"AC_PREREQ".as_slice() {
        Some(call)
    } else {
        None
    }
}

/// Returns the place of the first statement that is not a comment and not a call of AC_PREREQ, or 0
/// if there is none.
fn first_place(text: &[u8], calls: &[CallAt]) -> usize
    ensures { result ≤ length text.now }
{
    let mut at = idle_len(text);
    for _ in calls {
        match prereq_at(text, calls, at) {
            Some(call) => at = call.end.saturating_add(idle_len(from(text, call.end))),
            None => break,
        }
    }
    if at < text.len() { at } else { 0 }
}

/// Returns the place of a fault other than that AC_INIT is missing.
fn place_of_other(
    alloc: Global,
    text: &[u8],
    fault: ParseFault,
    calls: &[CallAt],
) -> Result<usize, AllocError>
    ensures { IfOk result (specs.IsFaultPlace text.now fault) }
{
    let at = offset_of(text.len(), fault);
    if !may_be_of_text(fault) || is_argument(calls, at) {
        return Ok(at);
    }
    let is_after_output = matches!(fault, ParseFault::AfterOutput(_));
    statement_after(alloc, text, at, !is_after_output)
}

/// Returns the place of a fault: its offset, or, if it is in text between calls, that of the
/// statement at fault. If AC_INIT is missing, it is the first statement that may not be before it.
#[tactic(auto, using(crate::proofs::Places::of_init))]
pub(crate) fn place_of_fault(
    alloc: Global,
    text: &[u8],
    fault: ParseFault,
    calls: &[CallAt],
) -> Result<usize, AllocError>
    ensures { IfOk result (specs.IsFaultPlace text.now fault) }
{
    match fault {
        ParseFault::NoInit => Ok(first_place(text, calls)),
        _ => place_of_other(alloc, text, fault, calls),
    }
}
