//! What is found in a source: its errors, the templates that are not there, and the warnings.

ghost use Rattle.std.specs.Prelude.{◌≡◌, ◌++◌, Some, map, IfOk, OnOk};
ghost use Rattle.std.specs.List.Sorted.{IsSorted};
ghost use Rattle.lint_findings.specs.Order.{place_cmp};
ghost use Rattle.lint_sources.specs.Listed as listed;
ghost use Rattle.lint_sources.specs.Missing as specs;
ghost use Rattle.lint_sources.specs.Sources.{HasError};
ghost use Rattle.lint_sources.specs.Warned as warned;
ghost use Rattle.ac_tree.specs.Script.{script_of};

use crate::linter::Linter;
use crate::reading::Linted;
use crate::reasons::add_reasons;
use crate::sheets::{Sheets, sheets_of};
use crate::templates::{add_lost_of_calls, read_all};
use crate::warnings::{Warner, add_warnings};
use ac_tree::Source;
use file_disk::Disk;
use lint_all::all_errors;
use lint_errors::{Reading, read};
use lint_findings::{Finding, put_in_order};
use lint_templates::Given;
use std::alloc::{AllocError, Global};
use std::mem::ManuallyDrop;

/// What is found in a source and its templates, in order of place, and the templates.
#[derive(Drop)]
pub(crate) struct SourceFindings {
    pub(crate) findings: Vec<Finding>,
    pub(crate) sheets: Sheets,
    /// Whether one of them is an error.
    pub(crate) has_error: bool,
}

/// Reads the templates of a source that has statements, and appends an error for each output whose
/// template can't be read.
pub(crate) fn templates_of<D: Disk>(
    alloc: Global,
    disk: &D,
    linted: &Linted,
    source: &Source,
    found: &mut Vec<Finding>,
) -> Result<Sheets, AllocError>
    ensures { IfOk result (λ _.
        specs.AreCheckedOf (D.known disk.now) linted.now.directory (Some (script_of source.now))
        found.old.items found.new.items) }
{
    let templates = read_all(alloc, disk, linted, source, found)?;
    sheets_of(alloc, linted.directory.as_slice(), source, templates)
}

/// Reads the templates of a source, if it has statements, and appends an error for each output
/// whose template can't be read.
fn sheets_for<D: Disk>(
    alloc: Global,
    disk: &D,
    linted: &Linted,
    reading: &Reading,
    found: &mut Vec<Finding>,
) -> Result<Sheets, AllocError>
    ensures { IfOk result (λ _.
        specs.AreCheckedOf (D.known disk.now) linted.now.directory
        (specs.script_in reading.now.source) found.old.items found.new.items) }
{
    match &reading.source {
        Ok(source) => templates_of(alloc, disk, linted, source, found),
        Err(_) => Ok(Sheets::none(alloc)),
    }
}

/// Returns whether there are errors.
#[tactic(auto, using(crate::proofs::Lost::has_some))]
fn has_some(errors: &[Finding]) -> bool
    ensures { specs.HasSome errors.now result }
{
    !errors.is_empty()
}

/// Returns what a source gives its templates, if it is read.
fn given_by(alloc: Global, reading: &Reading) -> Result<Option<Given>, AllocError> {
    match &reading.source {
        Ok(source) => {
            let given = Given::of(alloc, source)?;
            Ok(Some(given))
        }
        Err(_) => Ok(None),
    }
}

/// Frees what was made of a source, unless it is left to the end of the process.
fn free<T: Drop>(is_left: bool, made: T) {
    if is_left {
        let _left = ManuallyDrop::new(made);
    }
}

/// Appends an error for each output that a call of a refused source names, if its template can't be
/// read.
fn add_lost<D: Disk>(
    alloc: Global,
    disk: &D,
    linted: &Linted,
    reading: &Reading,
    found: &mut Vec<Finding>,
) -> Result<(), AllocError> {
    match &reading.source {
        Ok(_) => Ok(()),
        Err(_) => add_lost_of_calls(alloc, disk, linted, reading.calls.as_slice(), found),
    }
}

/// Appends the others to findings, and puts all of them in order of place.
fn join(found: &mut Vec<Finding>, others: &mut Vec<Finding>) -> Result<(), AllocError>
    ensures { OnOk result (
        listed.AreInOrder (found.old.items ++ others.old.items) found.new.items) }
{
    found.append(others)?;
    put_in_order(found)
}

/// Returns the errors of templates that calls of a refused source name, and then the warnings about
/// a source and its templates.
fn others_of<D: Disk, W: Warner>(
    alloc: Global,
    disk: &D,
    warner: &W,
    is_last: bool,
    linted: &Linted,
    text: &[u8],
    reading: &Reading,
    sheets: &Sheets,
) -> Result<Vec<Finding>, AllocError>
    ensures { IfOk result (λ others.
        warned.AreWarned (W.finds warner.now) text.now reading.now sheets.now others.items) }
{
    let mut others = Vec::new(alloc);
    add_lost(alloc, disk, linted, reading, &mut others)?;
    let given = given_by(alloc, reading)?;
    add_warnings(alloc, warner, text, reading, sheets, &given, &mut others)?;
    free(is_last, given);
    Ok(others)
}

/// Appends errors of templates to those of a source. Returns whether there is one.
fn add_to(found: &mut Vec<Finding>, lost: &mut Vec<Finding>) -> Result<bool, AllocError>
    ensures all { OnOk result (found.new.items ≡ found.old.items ++ lost.old.items) }
    ensures some { IfOk result (specs.HasSome found.new.items) }
{
    found.append(lost)?;
    Ok(has_some(found.as_slice()))
}

/// The warnings about a source and its templates, in order of place, and the templates.
#[derive(Drop)]
pub(crate) struct Warnings {
    pub(crate) findings: Vec<Finding>,
    pub(crate) sheets: Sheets,
}

/// Returns the warnings about a source and its templates. The errors of templates that can't be
/// read are among them.
pub(crate) fn warnings_in<D: Disk>(
    alloc: Global,
    disk: &D,
    linted: &Linted,
) -> Result<Warnings, AllocError>
    ensures { IfOk result (λ warnings. IsSorted place_cmp warnings.findings.items) }
{
    let text = linted.text.as_slice();
    let mut found = Vec::new(alloc);
    let reading = read(alloc, text)?;
    let sheets = sheets_for(alloc, disk, linted, &reading, &mut found)?;
    let given = given_by(alloc, &reading)?;
    add_warnings(alloc, &Linter, text, &reading, &sheets, &given, &mut found)?;
    put_in_order(&mut found)?;
    Ok(Warnings {
        findings: found,
        sheets,
    })
}

/// Adds to the messages of errors why statements stay.
fn reword(alloc: Global, text: &[u8], found: &mut Vec<Finding>) -> Result<(), AllocError>
    ensures { OnOk result (
        map listed.unworded found.new.items ≡ map listed.unworded found.old.items) }
{
    add_reasons(alloc, text, found.as_mut_slice())
}

/// Returns what is found in a source, in order of place: its errors, the templates that are not
/// there, and the warnings. If the source is refused, the warnings are those about its calls alone.
/// What was made of the last source is left to the end of the process.
pub(crate) fn found_in<D: Disk, W: Warner>(
    alloc: Global,
    disk: &D,
    warner: &W,
    is_last: bool,
    linted: &Linted,
) -> Result<SourceFindings, AllocError>
    ensures error { IfOk result (λ f.
        HasError (D.known disk.now) linted.now.directory linted.now.text f.has_error) }
    ensures listed { IfOk result (λ f.
        listed.AreListed (W.finds warner.now) (D.known disk.now) linted.now.directory
        linted.now.text f.sheets f.findings.items) }
{
    let text = linted.text.as_slice();
    let reading = read(alloc, text)?;
    let mut findings = all_errors(alloc, text, &reading)?;
    let mut lost = Vec::new(alloc);
    let sheets = sheets_for(alloc, disk, linted, &reading, &mut lost)?;
    let mut others = others_of(
        alloc, disk, warner, is_last, linted, text, &reading, &sheets,
    )?;
    let has_error = add_to(&mut findings, &mut lost)?;
    reword(alloc, text, &mut findings)?;
    join(&mut findings, &mut others)?;
    free(is_last, reading);
    Ok(SourceFindings {
        findings,
        sheets,
        has_error,
    })
}
