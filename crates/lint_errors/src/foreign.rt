//! The calls of macros that the table of macros doesn't have.

ghost use Rattle.std.specs.Prelude.{◌≡◌, [], ◌∷◌, ◌++◌, length, map, IfOk, OnOk};
ghost use Rattle.std.specs.List.{flat_map};
ghost use Rattle.ac_calls.specs.Calls.{macro_call_of};
ghost use Rattle.lint_errors.specs.Errors as specs;

use crate::advice::{Known, advised, advised_text};
use ac_calls::CallAt;
use ac_statement::ParseFault;
use lint_findings::Finding;
use lint_words::parse_finding;
use std::alloc::{AllocError, Global};

/// Returns whether the fault is that the macro whose name is at this offset isn't known.
fn is_unknown_at(fault: ParseFault, at: usize) -> bool
    ensures { result ≡ specs.is_unknown_at fault at }
{
    match fault {
        ParseFault::UnknownMacro(place) => place == at,
        _ => false,
    }
}

/// Returns whether the call has to go, and the fault doesn't say it.
fn is_other(fault: ParseFault, call: &CallAt) -> bool
    ensures { result ≡ specs.is_other fault (macro_call_of call.now) }
{
    !call.is_of_profile && !is_unknown_at(fault, call.start)
}

/// Returns the error of a call whose macro isn't known.
fn unknown(
    alloc: Global,
    known: &Known<'_>,
    text: &[u8],
    call: &CallAt,
) -> Result<Finding, AllocError>
    ensures shown { IfOk result (λ f.
        specs.finding_view f ≡ specs.error_at (macro_call_of call.now).start) }
    ensures end { IfOk result (specs.EndsIn (length text.now)) }
{
    let finding = parse_finding(
        alloc,
        text,
        ParseFault::UnknownMacro(call.start),
        call.start,
        &[],
    )?;
    advised(alloc, known, text, call, finding)
}

/// Appends the error of a call whose macro isn't known.
fn push_unknown(
    alloc: Global,
    known: &Known<'_>,
    text: &[u8],
    call: &CallAt,
    out: &mut Vec<Finding>,
) -> Result<(), AllocError>
    ensures shown { OnOk result (
        map specs.finding_view out.new.items
        ≡ map specs.finding_view out.old.items ++ specs.error_at (macro_call_of call.now).start
        ∷ []) }
    ensures ends { OnOk result (specs.KeepsEnds text.now out.old.items out.new.items) }
{
    let finding = unknown(alloc, known, text, call)?;
    out.push(finding)?;
    Ok(())
}

/// Appends the error of a call, if it has to go and the fault doesn't say it.
fn push_call(
    alloc: Global,
    known: &Known<'_>,
    text: &[u8],
    fault: ParseFault,
    call: &CallAt,
    out: &mut Vec<Finding>,
) -> Result<(), AllocError>
    ensures shown { OnOk result (
        map specs.finding_view out.new.items
        ≡ map specs.finding_view out.old.items
        ++ specs.of_call fault (macro_call_of call.now)) }
    ensures ends { OnOk result (specs.KeepsEnds text.now out.old.items out.new.items) }
{
    if is_other(fault, call) {
        push_unknown(alloc, known, text, call, out)
    } else {
        Ok(())
    }
}

/// Appends the errors of the calls that have to go, but for the one that the fault is about.
pub(crate) fn push_calls(
    alloc: Global,
    known: &Known<'_>,
    text: &[u8],
    fault: ParseFault,
    calls: &[CallAt],
    out: &mut Vec<Finding>,
) -> Result<(), AllocError>
    ensures shown { OnOk result (
        map specs.finding_view out.new.items
        ≡ map specs.finding_view out.old.items
        ++ flat_map (specs.of_call fault) (map macro_call_of calls.now)) }
    ensures ends { OnOk result (specs.KeepsEnds text.now out.old.items out.new.items) }
{
    for call in calls {
        push_call(alloc, known, text, fault, call, out)?;
    }
    Ok(())
}

/// Returns the call that the fault is about, if it is that a macro isn't known.
fn call_of(fault: ParseFault, calls: &[CallAt]) -> Option<&CallAt> {
    calls.iter().find(|call| is_unknown_at(fault, call.start))
}

/// Returns whether a call or an argument of one begins at an offset.
fn begins_at(call: &CallAt, at: usize) -> bool {
    call.start == at || call.args.iter().any(|arg| arg.start == at)
}

/// Returns whether the fault is that text between calls, which is at this offset, is no statement.
fn is_of_text(fault: ParseFault, at: usize, calls: &[CallAt]) -> bool {
    match fault {
        ParseFault::UnknownStatement(_) => !calls.iter().any(|call| begins_at(call, at)),
        _ => false,
    }
}

/// Returns the error of a fault at this place.
pub(crate) fn fault_finding(
    alloc: Global,
    known: &Known<'_>,
    text: &[u8],
    fault: ParseFault,
    at: usize,
    calls: &[CallAt],
) -> Result<Finding, AllocError>
    ensures shown { IfOk result (λ f. specs.finding_view f ≡ specs.error_at at) }
    ensures end { IfOk result (specs.EndsIn (length text.now)) }
{
    let finding = parse_finding(alloc, text, fault, at, calls)?;
    match call_of(fault, calls) {
        None if is_of_text(fault, at, calls) => advised_text(alloc, known, text, finding),
        None => Ok(finding),
        Some(call) => advised(alloc, known, text, call, finding),
    }
}
