//! Prints what was found.

ghost use Rattle.std.specs.Prelude.{◌≡◌, ◌≤◌, ◌++◌, ℕ, List, None, take, IfOk, OnOk};
ghost use Rattle.lint_sources.specs.Shown as specs;
ghost use Rattle.lint_sources.specs.Shown.{Shows};
ghost use Rattle.lint_sources.specs.Sources.{HasError};

use crate::findings::found_in;
use crate::linter::Linter;
use crate::reading::Linted;
use crate::sheets::Sheets;
use crate::warnings::Warner;
use deftable::Bytes;
use file_disk::Disk;
use lint_excerpts::{excerpt_of, json_of};
use lint_findings::Finding;
use lint_table::{Page, WordPart, keys};
use std::alloc::{AllocError, Global};

/// How findings are shown.
#[derive(Clone, Copy)]
pub struct FindingForm {
    /// If true, a finding is a line with a JSON object.
    pub is_json: bool,
    /// If true, the text has the colours of a terminal.
    pub is_coloured: bool,
}

/// An excerpt without colours.
pub(crate) const PLAIN: FindingForm = FindingForm {
    is_json: false,
    is_coloured: false,
};

/// Shows a finding.
pub(crate) trait Shower {
    // How a finding is shown, if that is known.
    ghost shows: { Self → Shows } = { λ _ finding name text. None };

    /// Returns a finding as it is shown, in a file of this name with this text.
    fn show(
        &self,
        alloc: Global,
        finding: &Finding,
        name: &Bytes,
        text: &Bytes,
    ) -> Result<Bytes, AllocError>
        ensures { IfOk result (specs.IsText (shows self.now finding.now name.now text.now)) };
}

impl Shower for FindingForm {
    fn show(
        &self,
        alloc: Global,
        finding: &Finding,
        name: &Bytes,
        text: &Bytes,
    ) -> Result<Bytes, AllocError> {
        let (name, text) = (name.as_slice(), text.as_slice());
        if self.is_json {
            json_of(alloc, finding, name, text)
        } else {
            excerpt_of(alloc, finding, name, text, self.is_coloured)
        }
    }
}

/// Returns a finding as it is shown, in the source or in one of its templates.
#[tactic(auto, using(crate::proofs::Pages::in_sheet, crate::proofs::Pages::in_source))]
pub(crate) fn shown<S: Shower>(
    alloc: Global,
    shower: &S,
    linted: &Linted,
    sheets: &Sheets,
    finding: &Finding,
) -> Result<Bytes, AllocError>
    ensures { IfOk result (
        specs.IsShown (S.shows shower.now) linted.now sheets.now finding.now) }
{
    match sheets.get(finding.file) {
        Some(sheet) => shower.show(alloc, finding, &sheet.name, &sheet.text),
        None => shower.show(alloc, finding, &linted.name, &linted.text),
    }
}

/// How many findings of a source are shown. To show one, its file is read up to its place.
const MOST: usize = 1000;

/// Returns the findings that are shown.
#[tactic(auto, using(crate::proofs::Pages::first_is))]
fn first_of(findings: &[Finding]) -> &[Finding]
    ensures { result.now ≡ take 1000 findings.now }
{
    &findings[..MOST.min(findings.len())]
}

/// Returns the line that so many findings are not shown.
fn rest_line(alloc: Global, linted: &Linted, rest: usize) -> Result<Bytes, AllocError> {
    let mut line = Page::new(alloc);
    let name = WordPart::AsItIs(linted.name.as_slice());
    line.put(keys::MORE_FINDINGS, &[name, WordPart::Number(rest)]);
    line.message()
}

/// Appends how many findings are not shown, if it counts, and there are any.
fn put_rest(
    alloc: Global,
    page: &mut Vec<u8>,
    counts: bool,
    linted: &Linted,
    count: usize,
) -> Result<(), AllocError>
    ensures added { OnOk result ((rest : List ℕ) × (page.new.items ≡ page.old.items ++ rest)) }
    ensures few { count ≤ 1000 → page.new.items ≡ page.old.items }
{
    let rest = count.saturating_sub(MOST);
    if !counts || rest == 0 {
        return Ok(());
    }
    let line = rest_line(alloc, linted, rest)?;
    page.extend_from_slice(line.as_slice())?;
    page.push(b'\n')?;
    Ok(())
}

/// Returns the findings as they are shown, at most the first thousand.
fn first_page<S: Shower>(
    alloc: Global,
    shower: &S,
    linted: &Linted,
    sheets: &Sheets,
    findings: &[Finding],
) -> Result<Vec<u8>, AllocError>
    ensures { IfOk result (λ page.
        specs.AreShown (S.shows shower.now) linted.now sheets.now findings.now page.items) }
{
    let mut page = Vec::new(alloc);
    'findings: for finding in findings {
        let text = shown(alloc, shower, linted, sheets, finding)?;
        page.extend_from_slice(text.as_slice())?;
    }
    Ok(page)
}

/// Returns the findings as they are shown, at most the first thousand. If it counts, it says how
/// many are not shown.
fn page_of<S: Shower>(
    alloc: Global,
    shower: &S,
    counts: bool,
    linted: &Linted,
    sheets: &Sheets,
    findings: &[Finding],
) -> Result<Vec<u8>, AllocError>
    ensures { IfOk result (λ page.
        specs.IsPage (S.shows shower.now) linted.now sheets.now findings.now page.items) }
{
    let mut page = first_page(alloc, shower, linted, sheets, first_of(findings))?;
    put_rest(alloc, &mut page, counts, linted, findings.len())?;
    Ok(page)
}

/// Returns what is found in a source and its templates, as it is shown, and whether an error is
/// among it. If it counts, it says how many findings are not shown.
fn shown_page<D: Disk, S: Shower, W: Warner>(
    alloc: Global,
    disk: &D,
    shower: &S,
    warner: &W,
    counts: bool,
    is_last: bool,
    linted: &Linted,
) -> Result<(Vec<u8>, bool), AllocError>
    ensures error { IfOk result (λ r.
        HasError (D.known disk.now) linted.now.directory linted.now.text r.1) }
    ensures page { IfOk result (λ r.
        specs.IsPageOf (S.shows shower.now) (W.finds warner.now) (D.known disk.now) linted.now
        r.0.items) }
{
    let found = found_in(alloc, disk, warner, is_last, linted)?;
    let findings = found.findings.as_slice();
    let page = page_of(alloc, shower, counts, linted, &found.sheets, findings)?;
    Ok((page, found.has_error))
}

/// Returns what is found in a source and its templates, as it is shown, and whether an error is
/// among it. If the source is the last one of the process, the memory of what was made of it is left
/// to the end, when the system takes it back at once.
pub fn linted_page<D: Disk>(
    alloc: Global,
    disk: &D,
    form: FindingForm,
    is_last: bool,
    linted: &Linted,
) -> Result<(Vec<u8>, bool), AllocError>
    // The source has an error exactly if it is refused, or if a template can't be read.
    ensures { IfOk result (λ r.
        HasError (D.known disk.now) linted.now.directory linted.now.text r.1) }
{
    shown_page(alloc, disk, &form, &Linter, !form.is_json, is_last, linted)
}
