//! The warnings of a source that say what Autoconf makes of it.

ghost use Rattle.std.specs.Prelude.{true, IfOk, OnOk};
ghost use Rattle.lint_sources.specs.Differing as specs;
ghost use Rattle.lint_table.specs.Differences.{is_difference};

use crate::findings::warnings_in;
use crate::reading::Linted;
use crate::sheets::Sheets;
use crate::showing::{PLAIN, shown};
use file_disk::Disk;
use lint_findings::Finding;
use lint_table::is_difference;
use std::alloc::{AllocError, Global};

/// Appends a finding as it is shown.
fn put_shown(
    alloc: Global,
    linted: &Linted,
    sheets: &Sheets,
    finding: &Finding,
    page: &mut Vec<u8>,
) -> Result<(), AllocError>
    ensures { OnOk result (specs.IsAdded true page.old.items page.new.items) }
{
    let text = shown(alloc, &PLAIN, linted, sheets, finding)?;
    page.extend_from_slice(text.as_slice())
}

/// Appends a finding as it is shown, if it is a difference.
fn put_difference(
    alloc: Global,
    linted: &Linted,
    sheets: &Sheets,
    finding: &Finding,
    page: &mut Vec<u8>,
) -> Result<(), AllocError>
    ensures { OnOk result (
        specs.IsAdded (is_difference finding.now.code) page.old.items page.new.items) }
{
    if is_difference(finding.code.as_slice()) {
        put_shown(alloc, linted, sheets, finding, page)
    } else {
        Ok(())
    }
}

/// Returns the page of the differences among findings.
fn page_of_differences(
    alloc: Global,
    linted: &Linted,
    sheets: &Sheets,
    found: &[Finding],
) -> Result<Vec<u8>, AllocError>
    ensures { IfOk result (λ page. specs.ArePrinted found.now page.items) }
{
    let mut page = Vec::new(alloc);
    'findings: for finding in found {
        put_difference(alloc, linted, sheets, finding, &mut page)?;
    }
    Ok(page)
}

/// Returns the warnings about a source and its templates that say that something means another
/// thing to Autoconf, as `lint` shows them, in order of place (own). If the source is refused, they
/// are those about its calls.
///
/// # Errors
///
/// Fails only if memory runs out.
#[tactic(auto, using(crate::proofs::Printed::page_of))]
pub fn differences_of<D: Disk>(
    alloc: Global,
    disk: &D,
    linted: &Linted,
) -> Result<Vec<u8>, AllocError>
    // The page has a text for each such warning, and nothing of the others.
    ensures { IfOk result (λ page. specs.IsPage page.items) }
{
    let found = warnings_in(alloc, disk, linted)?;
    let page = page_of_differences(alloc, linted, &found.sheets, found.findings.as_slice())?;
    Ok(page)
}
