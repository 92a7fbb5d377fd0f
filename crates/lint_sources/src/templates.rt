//! The templates of a source, and the errors of those that can't be read.

ghost use Rattle.std.specs.Prelude.{◌≡◌, ◌++◌, bytes_eq, IfOk, OnOk, true};
ghost use Rattle.std.specs.List.{list_any};
ghost use Rattle.lint_sources.specs.Missing as specs;
ghost use Rattle.lint_sources.specs.Sources.{outputs_of};
ghost use Rattle.ac_tree.specs.Script.{script_of};

use crate::reading::{Linted, shown_path};
use ac_calls::CallAt;
use ac_tree::Source;
use acparse::{ParseFault, parse};
use cmd_call::read_templates;
use deftable::Bytes;
use file_disk::Disk;
use file_texts::path_in;
use lint_findings::Finding;
use lint_table::{Page, WordPart, keys};
use lint_templates::span_of_output;
use lint_text::part;
use output_list::Output;
use std::alloc::{AllocError, Global};

/// Returns that the template of the output with this name is not at a path. The text is that of the
/// source.
fn missing(alloc: Global, text: &[u8], name: &[u8], path: &[u8]) -> Result<Finding, AllocError> {
    let mut page = Page::new(alloc);
    let shown = shown_path(alloc, path)?;
    page.put(keys::TEMPLATE, &[WordPart::AsItIs(shown.as_slice())]);
    let code = Bytes::from_slice(alloc, keys::TEMPLATE.name())?;
    let span = span_of_output(text, name);
    page.finding(code, span.start, span.end)
}

/// Returns whether the template of this name was read.
fn was_read(templates: &[(Bytes, Bytes)], name: &[u8]) -> bool
    ensures { result ≡ list_any (λ template. bytes_eq template.0 name.now) templates.now }
{
    templates
        .iter()
        .any(|template| template.0.as_slice() == name)
}

/// Appends the error of an output whose template was not read.
fn add_error(
    alloc: Global,
    linted: &Linted,
    output: &Output,
    found: &mut Vec<Finding>,
) -> Result<(), AllocError>
    ensures { OnOk result (specs.AreAdded true found.old.items found.new.items) }
{
    let path = path_in(
        alloc,
        linted.directory.as_slice(),
        output.template.as_slice(),
    )?;
    let text = linted.text.as_slice();
    let error = missing(alloc, text, output.name.as_slice(), path.as_slice())?;
    found.push(error)?;
    Ok(())
}

/// Appends the error of an output, if its template was not read.
fn add_if_lost(
    alloc: Global,
    linted: &Linted,
    templates: &[(Bytes, Bytes)],
    output: &Output,
    found: &mut Vec<Finding>,
) -> Result<(), AllocError>
    ensures { OnOk result (
        specs.AreAdded (specs.is_lost templates.now output.now) found.old.items found.new.items) }
{
    if was_read(templates, output.template.as_slice()) {
        return Ok(());
    }
    add_error(alloc, linted, output, found)
}

/// Appends an error for each output whose template was not read.
fn add_lost(
    alloc: Global,
    linted: &Linted,
    templates: &[(Bytes, Bytes)],
    outputs: &[Output],
    found: &mut Vec<Finding>,
) -> Result<(), AllocError>
    ensures { OnOk result (
        specs.AreAdded (list_any (specs.is_lost templates.now) outputs.now) found.old.items
        found.new.items) }
{
    'outputs: for output in outputs {
        add_if_lost(alloc, linted, templates, output, found)?;
    }
    Ok(())
}

/// Appends an error for each file and each header whose template was not read.
#[tactic(auto, using(crate::proofs::Lost::lost_both))]
fn add_all_lost(
    alloc: Global,
    linted: &Linted,
    templates: &[(Bytes, Bytes)],
    files: &[Output],
    headers: &[Output],
    found: &mut Vec<Finding>,
) -> Result<(), AllocError>
    ensures { OnOk result (
        specs.AreAdded (list_any (specs.is_lost templates.now) (files.now ++ headers.now))
        found.old.items found.new.items) }
{
    add_lost(alloc, linted, templates, files, found)?;
    add_lost(alloc, linted, templates, headers, found)
}

/// Reads the templates of a source, each once, and appends an error for each output whose template
/// can't be read.
#[tactic(auto, using(crate::proofs::Lost::checked))]
pub(crate) fn read_all<D: Disk>(
    alloc: Global,
    disk: &D,
    linted: &Linted,
    source: &Source,
    found: &mut Vec<Finding>,
) -> Result<Vec<(Bytes, Bytes)>, AllocError>
    ensures { IfOk result (λ _.
        specs.AreChecked (D.known disk.now) linted.now.directory (outputs_of (script_of source.now))
        found.old.items found.new.items) }
{
    let files = source.files().as_slice();
    let headers = source.headers().as_slice();
    let templates = read_templates(alloc, disk, linted.directory.as_slice(), files, headers)?;
    add_all_lost(alloc, linted, templates.as_slice(), files, headers, found)?;
    Ok(templates)
}

/// Returns whether a call of this name names outputs.
fn names_outputs(name: &[u8]) -> bool {
    name == b"AC_CONFIG_FILES".as_slice() || name == b"AC_CONFIG_HEADERS".as_slice()
}

/// Returns the statements of a source that has this call alone, unless that is refused.
fn alone(alloc: Global, call: &[u8]) -> Result<Option<Source>, AllocError> {
    let mut text = Vec::from_slice(alloc, b"AC_INIT([a],[1])\n")?;
    text.extend_from_slice(call)?;
    text.extend_from_slice(b"\nAC_OUTPUT\n")?;
    match parse(alloc, text.as_slice()) {
        Ok(source) => Ok(Some(source)),
        Err(ParseFault::OutOfMemory) => Err(AllocError),
        Err(_) => Ok(None),
    }
}

/// Appends an error for each output that a call names, if its template can't be read.
fn add_lost_of_call<D: Disk>(
    alloc: Global,
    disk: &D,
    linted: &Linted,
    call: &CallAt,
    found: &mut Vec<Finding>,
) -> Result<(), AllocError> {
    let text = linted.text.as_slice();
    if !names_outputs(part(text, call.start, call.name_end)) {
        return Ok(());
    }
    match alone(alloc, part(text, call.start, call.end))? {
        Some(source) => read_all(alloc, disk, linted, &source, found).map(|_| ()),
        None => Ok(()),
    }
}

/// Appends an error for each output that one of these calls names, if its template can't be read. A
/// call of which a source can't be made is passed over.
pub(crate) fn add_lost_of_calls<D: Disk>(
    alloc: Global,
    disk: &D,
    linted: &Linted,
    calls: &[CallAt],
    found: &mut Vec<Finding>,
) -> Result<(), AllocError> {
    let mut lost = Vec::new(alloc);
    for call in calls {
        add_lost_of_call(alloc, disk, linted, call, &mut lost)?;
    }
    // A file that is named twice is looked for once.
    lost.sort_by_key(|error| error.start)?;
    lost.dedup_by_key(|error| error.start);
    found.append(&mut lost)
}
