//! The errors of a source.

ghost use Rattle.std.specs.Prelude.{◌≡◌, [], ◌↔◌, length, All, IfOk, OnOk};
ghost use Rattle.std.specs.List.Sorted.{IsSorted};
ghost use Rattle.lint_findings.specs.Order.{place_cmp};
ghost use Rattle.lint_errors.specs.Errors.{AreErrors, EndsIn, IsAccepted};
ghost use Rattle.lint_errors.specs.Readings.{IsReading};
ghost use Rattle.lint_all.specs.Found as specs;

use crate::joining::joined;
use crate::masking::{blank, inner_start};
use crate::rounds::{Copy, Piece, WholeSource, add_rounds};
use crate::runs::add_pieces;
use ac_calls::CallAt;
use lint_errors::{Known, Reading, errors_of};
use lint_findings::{Finding, put_in_order};
use lint_macros::Index;
use lint_marks::Scan;
use lint_words::Definitions;
use std::alloc::{AllocError, Global};

/// How many bytes are read at least, to find errors one after the other, and how often the length
/// of the source.
const LEAST: usize = 4_000_000;

const OFTEN: usize = 8;

/// Returns how much may be read of a source of this length.
fn budget_of(len: usize) -> usize {
    len.saturating_mul(OFTEN).saturating_add(LEAST)
}

/// Sets the mark of an offset, if there is one.
fn mark(marks: &mut [bool], at: usize) {
    if at < marks.len() {
        marks[at] = true;
    }
}

/// Marks the offsets at which text between calls begins: after each call, and at the start of each
/// argument or after its bracket.
fn mark_starts(text: &[u8], calls: &[CallAt], marks: &mut [bool]) {
    for call in calls {
        mark(marks, call.end);
        for arg in &call.args {
            mark(marks, inner_start(text, arg));
        }
    }
}

/// Returns for each offset whether a quote of the shell is open there, if text between calls begins
/// at the offsets with a mark.
fn quotes_of(alloc: Global, text: &[u8], marks: &[bool]) -> Result<Vec<bool>, AllocError> {
    let mut out = Vec::new(alloc);
    let mut scan = Scan::new();
    for i in 0..text.len() {
        if marks.get(i) == Some(&true) {
            scan = Scan::new();
        }
        out.push(scan.shell.is_quoted())?;
        scan.read(&text[i..]);
    }
    Ok(out)
}

/// Blanks the calls whose macro isn't known, but for those before which a quote of the shell is
/// open. Without such a call the quote may be closed after it, and the error is lost.
fn blank_unknown(alloc: Global, text: &mut [u8], calls: &[CallAt]) -> Result<(), AllocError> {
    let mut marks = vec![in alloc; false; text.len()]?;
    mark_starts(text, calls, &mut marks);
    let quotes = quotes_of(alloc, text, marks.as_slice())?;
    for call in calls {
        if !call.is_of_profile && quotes.get(call.start) != Some(&true) {
            blank(text, call.start, call.end);
        }
    }
    Ok(())
}

/// Returns a copy of a source in which the calls whose macro isn't known are blanks.
fn copy_of(alloc: Global, text: &[u8], calls: &[CallAt]) -> Result<Copy, AllocError> {
    let mut copy = Copy::new(alloc, b"", text, b"")?;
    blank_unknown(alloc, copy.text.as_mut_slice(), calls)?;
    Ok(copy)
}

/// Appends the errors of a source that are found in its pieces, and then those of the whole.
fn add_others(
    alloc: Global,
    text: &[u8],
    calls: &[CallAt],
    whole: &WholeSource<'_>,
    found: &mut Vec<Finding>,
) -> Result<(), AllocError>
    ensures { OnOk result (specs.KeepsErrors whole.now.len found.old.items found.new.items) }
{
    let mut copy = copy_of(alloc, text, calls)?;
    let mut left = budget_of(text.len());
    add_pieces(alloc, whole, &mut copy.text, calls, &mut left, found)?;
    let mut left = budget_of(text.len());
    let piece = Piece { text, calls, at: 0 };
    add_rounds(alloc, whole, piece, &mut copy, &mut left, found)
}

/// Returns errors of a source with these calls that are found by reading on after each of them, in
/// no order.
fn others_of(
    alloc: Global,
    index: &Index,
    text: &[u8],
    calls: &[CallAt],
) -> Result<Vec<Finding>, AllocError>
    ensures { IfOk result (λ v. All (specs.IsErrorOf (length text.now)) v.items) }
{
    let definitions = Definitions::of(alloc, text)?;
    let whole = WholeSource {
        known: Known {
            index,
            definitions: &definitions,
        },
        len: text.len(),
    };
    let mut found = Vec::new(alloc);
    add_others(alloc, text, calls, &whole, &mut found)?;
    Ok(found)
}

/// Returns whether the errors are that of the quotes of a source. Then no call is found, and
/// nothing is read on.
fn is_of_quotes(errors: &[Finding]) -> bool {
    errors
        .iter()
        .any(|error| error.code.as_slice().starts_with(b"parse-1."))
}

/// Returns errors of a source that are found by reading on after each of these.
fn others_after(
    alloc: Global,
    text: &[u8],
    reading: &Reading,
    errors: &[Finding],
) -> Result<Vec<Finding>, AllocError>
    ensures { IfOk result (λ v. All (specs.IsErrorOf (length text.now)) v.items) }
{
    if is_of_quotes(errors) {
        return Ok(Vec::new(alloc));
    }
    others_of(alloc, &reading.index, text, reading.calls.as_slice())
}

/// Returns these errors of a source and those that are found by reading on after each of them, in
/// order of their places.
fn with_others(
    alloc: Global,
    text: &[u8],
    reading: &Reading,
    errors: Vec<Finding>,
) -> Result<Vec<Finding>, AllocError>
    requires { All (specs.IsErrorOf (length text.now)) errors.items }
    ensures among { IfOk result (λ v. specs.AreAmong errors.items v.items) }
    ensures errors { IfOk result (λ v. All (specs.IsErrorOf (length text.now)) v.items) }
    ensures sorted { IfOk result (λ v. IsSorted place_cmp v.items) }
{
    let others = others_after(alloc, text, reading, errors.as_slice())?;
    let mut found = joined(alloc, text, errors, others)?;
    put_in_order(&mut found)?;
    Ok(found)
}

/// Returns the errors of a source, in order of their places: those of [`errors_of`], and those that
/// are found by reading on after each (own). The reading is that of the source. So that all errors are found is not promised: if a
/// statement has several, one may hide another. If the quotes of the source have an error, that is
/// the only one.
///
/// An error of text that another error is about too, such as a word `fi`, which ends a construct of
/// the shell, is there only if it is one of [`errors_of`].
///
/// # Errors
///
/// Fails only if memory runs out.
pub fn all_errors(alloc: Global, text: &[u8], reading: &Reading) -> Result<Vec<Finding>, AllocError>
    requires { IsReading text.now reading.now }
    // Each error that a first reading finds is there.
    ensures first { IfOk result (λ v. specs.HasFirst text.now v.items) }
    // There is none exactly if the source is read and has a plan.
    ensures no_error { IfOk result (λ v. (v.items ≡ []) ↔ IsAccepted text.now) }
    // Each is an error, and one of the source.
    ensures errors { IfOk result (λ v. All specs.IsError v.items) }
    // Each ends in the text.
    ensures ends { IfOk result (λ v. All (EndsIn (length text.now)) v.items) }
    // They are in order of their places.
    ensures sorted { IfOk result (λ v. IsSorted place_cmp v.items) }
{
    let errors = errors_of(alloc, text, reading)?;
    if errors.is_empty() {
        return Ok(errors);
    }
    with_others(alloc, text, reading, errors)
}
