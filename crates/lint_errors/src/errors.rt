//! The errors of a source.

ghost use Rattle.std.specs.Prelude.{◌≡◌, ◌<◌, ◌∷◌, [], ◌↔◌, ℕ, nat_lt, length, map, All, IfOk};
ghost use Rattle.std.specs.List.Sorted.{IsSorted};
ghost use Rattle.acparse.specs.Profile.{source_of};
ghost use Rattle.lint_findings.specs.Order.{place_cmp};
ghost use Rattle.lint_findings.specs.declared.finding.Severity.TheVariants.{Error};
ghost use Rattle.plan.specs.Weight.{heaviest, weight};
ghost use Rattle.ac_calls.specs.Calls.{calls_in, macro_call_of};
ghost use Rattle.ac_tree.specs.Script.{script_of};
ghost use Rattle.lint_errors.specs.Errors as specs;
ghost use Rattle.lint_errors.specs.Readings.{IsReading};

use crate::advice::Known;
use crate::fault::place_of_fault;
use crate::foreign::{fault_finding, push_calls};
use crate::reading::{Reading, is_too_long};
use ac_calls::{CallAt, calls_of};
use ac_statement::ParseFault;
use ac_tree::Source;
use acparse::parse;
use deftable::Bytes;
use lint_findings::{Finding, put_in_order};
use lint_macros::Index;
use lint_table::{Page, keys};
use lint_words::Definitions;
use std::alloc::{AllocError, Global};

/// Returns that a source is too long, at its start.
///
/// # Errors
///
/// Fails only if memory runs out.
pub fn too_long_finding(alloc: Global) -> Result<Finding, AllocError>
    ensures file { IfOk result (λ finding. finding.file ≡ 0) }
    ensures start { IfOk result (λ finding. finding.start ≡ 0) }
    ensures end { IfOk result (λ finding. finding.end ≡ 0) }
    ensures severity { IfOk result (λ finding. finding.severity ≡ Error) }
{
    let code = Bytes::from_slice(alloc, keys::PLAN_1.name())?;
    let mut page = Page::new(alloc);
    page.put(keys::PLAN_1, &[]);
    page.finding(code, 0, 0)
}

/// Returns a list of one error: that the source is too long.
fn too_long(alloc: Global) -> Result<Vec<Finding>, AllocError>
    ensures shown { IfOk result (λ v. map specs.finding_view v.items ≡ specs.error_at 0 ∷ []) }
    ensures ends { (len : ℕ) → IfOk result (λ v. All (specs.EndsIn len) v.items) }
{
    let finding = too_long_finding(alloc)?;
    let mut out = Vec::new(alloc);
    out.push(finding)?;
    Ok(out)
}

/// Returns the errors of a source that was read.
fn errors_read(alloc: Global, source: &Source) -> Result<Vec<Finding>, AllocError>
    ensures shown { IfOk result (λ v.
        map specs.finding_view v.items ≡ specs.errors_read (script_of source.now)) }
    ensures ends { (len : ℕ) → IfOk result (λ v. All (specs.EndsIn len) v.items) }
{
    if is_too_long(alloc, source)? {
        too_long(alloc)
    } else {
        Ok(Vec::new(alloc))
    }
}

/// Returns the error of a fault at this place, and those of the other calls that have to go.
fn found(
    alloc: Global,
    known: &Known<'_>,
    text: &[u8],
    fault: ParseFault,
    at: usize,
    calls: &[CallAt],
) -> Result<Vec<Finding>, AllocError>
    ensures shown { IfOk result (λ v.
        map specs.finding_view v.items
        ≡ specs.errors_refused fault at (map macro_call_of calls.now)) }
    ensures ends { IfOk result (λ v. All (specs.EndsIn (length text.now)) v.items) }
{
    let first = fault_finding(alloc, known, text, fault, at, calls)?;
    let mut out = Vec::new(alloc);
    out.push(first)?;
    push_calls(alloc, known, text, fault, calls, &mut out)?;
    Ok(out)
}

/// Returns the same in order of their places.
fn ordered(
    alloc: Global,
    known: &Known<'_>,
    text: &[u8],
    fault: ParseFault,
    calls: &[CallAt],
) -> Result<Vec<Finding>, AllocError>
    ensures refused { IfOk result (λ v.
        specs.AreRefused text.now fault (map macro_call_of calls.now) v.items) }
    ensures ends { IfOk result (λ v. All (specs.EndsIn (length text.now)) v.items) }
{
    let at = place_of_fault(alloc, text, fault, calls)?;
    let mut out = found(alloc, known, text, fault, at, calls)?;
    put_in_order(&mut out)?;
    Ok(out)
}

/// Returns the errors of a source that is refused with this fault.
fn errors_refused(
    alloc: Global,
    known: &Known<'_>,
    text: &[u8],
    fault: ParseFault,
) -> Result<Vec<Finding>, AllocError>
    ensures refused { IfOk result (λ v.
        specs.AreRefused text.now fault (calls_in text.now) v.items) }
    ensures ends { IfOk result (λ v. All (specs.EndsIn (length text.now)) v.items) }
{
    let calls = calls_of(alloc, text)?;
    ordered(alloc, known, text, fault, &calls)
}

/// Returns the errors of a source, in order of their places, as [`errors_of`] does. Its calls are
/// looked for only if it is refused. What is known of other macros is made once for many sources.
///
/// # Errors
///
/// Fails only if memory runs out.
pub fn errors_by(alloc: Global, known: &Known<'_>, text: &[u8]) -> Result<Vec<Finding>, AllocError>
    // The errors are exactly these.
    ensures exact { IfOk result (λ v. specs.AreErrors text.now (source_of text.now) v.items) }
    // Each ends in the text.
    ensures ends { IfOk result (λ v. All (specs.EndsIn (length text.now)) v.items) }
{
    match parse(alloc, text) {
        Ok(source) => errors_read(alloc, &source),
        Err(ParseFault::OutOfMemory) => Err(AllocError),
        Err(fault) => errors_refused(alloc, known, text, fault),
    }
}

/// Returns the errors of a source with these calls that is refused with this fault. Their help speaks
/// of the macros that the source defines.
fn with_definitions(
    alloc: Global,
    text: &[u8],
    index: &Index,
    fault: ParseFault,
    calls: &[CallAt],
) -> Result<Vec<Finding>, AllocError>
    ensures refused { IfOk result (λ v.
        specs.AreRefused text.now fault (map macro_call_of calls.now) v.items) }
    ensures ends { IfOk result (λ v. All (specs.EndsIn (length text.now)) v.items) }
{
    let definitions = Definitions::of(alloc, text)?;
    let known = Known {
        index,
        definitions: &definitions,
    };
    ordered(alloc, &known, text, fault, calls)
}

/// Returns the errors of a source with this reading, in order of their places.
fn errors_with(alloc: Global, text: &[u8], reading: &Reading) -> Result<Vec<Finding>, AllocError>
    requires { IsReading text.now reading.now }
    ensures exact { IfOk result (λ v. specs.AreErrors text.now (source_of text.now) v.items) }
    ensures ends { IfOk result (λ v. All (specs.EndsIn (length text.now)) v.items) }
{
    match &reading.source {
        Ok(source) => errors_read(alloc, source),
        Err(fault) => with_definitions(alloc, text, &reading.index, *fault, &reading.calls),
    }
}

/// Returns the errors of a source, in order of their places. The reading is that of the source.
///
/// If the source is refused, they are the reader's fault and the calls that have to go, each once.
/// Otherwise there is at most one: that it weighs too much for a plan. The calls are those of
/// `ac_calls`, so there is none if the source's quotes have an error.
///
/// The place of a fault is its offset: 0 if it has none, and the end of the source if AC_OUTPUT is
/// missing. In text between calls it is the start of the statement at fault, which is not before
/// the fault's offset. If AC_INIT is missing, it is the first statement that may not be before it.
///
/// # Errors
///
/// Fails only if memory runs out.
pub fn errors_of(alloc: Global, text: &[u8], reading: &Reading) -> Result<Vec<Finding>, AllocError>
    requires { IsReading text.now reading.now }
    // The errors are exactly these.
    ensures exact { IfOk result (λ v. specs.AreErrors text.now (source_of text.now) v.items) }
    // Each ends in the text.
    ensures ends { IfOk result (λ v. All (specs.EndsIn (length text.now)) v.items) }
    // There is none exactly if the source is read and has a plan.
    ensures no_error { IfOk result (λ v. (v.items ≡ []) ↔ specs.IsAccepted text.now) }
{
    errors_with(alloc, text, reading)
}

/// Returns the error that a source is refused with this fault.
///
/// # Errors
///
/// Fails only if memory runs out.
#[tactic(auto, using(crate::proofs::Acceptance::error_here))]
pub fn fault_error(alloc: Global, text: &[u8], fault: ParseFault) -> Result<Finding, AllocError>
    // It is at the place of the fault.
    ensures place { IfOk result (λ f. specs.IsFaultError text.now fault f) }
    // It ends in the text.
    ensures end { IfOk result (specs.EndsIn (length text.now)) }
{
    let index = Index::new(alloc)?;
    let definitions = Definitions::of(alloc, text)?;
    let known = Known {
        index: &index,
        definitions: &definitions,
    };
    let calls = calls_of(alloc, text)?;
    let at = place_of_fault(alloc, text, fault, &calls)?;
    let finding = fault_finding(alloc, &known, text, fault, at, &calls)?;
    Ok(finding)
}
