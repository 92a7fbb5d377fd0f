//! The filter, which reads a source and a template, and writes the filled text.

ghost use Rattle.std.specs.Prelude.{◌≡◌, ◌≢◌, ℕ, List, ◌+◌, ◌≤◌, length, drop, None, IfOk, IfErr, IfSome};
ghost use Rattle.std.specs.Io.KnownBytes.{Appends};
ghost use Rattle.engine.specs.Judged.{IsRead, going};
ghost use Rattle.engine_frame.specs.Needed.{script_in};
ghost use Rattle.output_list.specs.Output.{AreOutputs};
ghost use Rattle.ac_tree.specs.Lists.{lists_of};
ghost use Rattle.ac_tree.specs.Script.{script_of};
ghost use Rattle.cmd_filter.specs.Filtered.{IsRun, IsFiltered, IsInputFault, IsRefused, IsSourcePart};
ghost use Rattle.cmd_filter.specs.Handed as words;
ghost use Rattle.cmd_filter.specs.Handed.{IsNotRun, judged_alone, templates_of};
ghost use Rattle.cmd_filter.specs.declared.fault.FilterFault.{FilterFault};

use crate::fault::FilterFault;
use crate::result::{Written, taken};
use crate::running::run_alone;
use ac_tree::Source;
use acparse::parse;
use deftable::Bytes;
use engine::{Judged, MemoryOutputs, Needs, judge};
use file_texts::{marker_place, read_input};
use output_list::Output;
use std::alloc::{AllocError, Global};
use std::io::{Read, Write};

/// The result of the filter, besides the text that it writes.
#[derive(Drop)]
pub struct Filtered {
    /// The exit status of the program: 0 if the run completes, 3 if it is cut short, and else the
    /// source's own.
    pub status: u8,
    /// The text for standard error.
    pub errors: Vec<u8>,
}

/// Returns the text after the marker that begins at `at`.
fn after_marker(input: &[u8], at: usize) -> &[u8]
    requires { at ≤ length input.now }
    ensures { result.now ≡ drop (at + 3) input.now }
{
    &input[input.len().min(at.saturating_add(3))..]
}

/// Returns the templates of the filter: this text, under the name of the first file's template.
fn templates_for(
    alloc: Global,
    files: &[Output],
    template: &[u8],
) -> Result<Vec<(Bytes, Bytes)>, AllocError>
    ensures { IfOk result (λ v. v.items ≡ words.templates_for files.now template.now) }
{
    let mut templates = Vec::new(alloc);
    if let Some(file) = files.first() {
        let name = file.template.copy(alloc)?;
        let text = Bytes::from_slice(alloc, template)?;
        templates.push((name, text))?;
    }
    Ok(templates)
}

/// Returns what the filter takes of a run with these templates.
fn run_with(
    alloc: Global,
    needs: &Needs<'_>,
    templates: &[(Bytes, Bytes)],
) -> Result<Written, FilterFault>
    requires source { IsRead (script_in needs.now) }
    ensures run { IfOk result (λ w.
        words.IsTaken (going needs.now None templates.now) templates.now w.text w.errors.items
        w.status) }
    ensures refused { IfErr result (IsNotRun (going needs.now None templates.now)) }
{
    let mut outputs = MemoryOutputs::new(alloc, 0);
    let report = run_alone(alloc, needs, templates, &mut outputs)?;
    let written = taken(alloc, &report, outputs.handed())?;
    Ok(written)
}

/// Judges a source without arguments and environment, and returns what the filter takes of its run
/// with these templates.
fn run_judged(
    alloc: Global,
    source: &Source,
    templates: &[(Bytes, Bytes)],
) -> Result<Written, FilterFault>
    requires source { IsRead (script_of source.now) }
    requires outputs { AreOutputs (lists_of (script_of source.now)).files
        (lists_of (script_of source.now)).headers }
    ensures run { IfOk result (λ w.
        words.IsTaken (judged_alone (script_of source.now) templates.now) templates.now w.text
        w.errors.items w.status) }
    ensures refused { IfErr result (IsNotRun (judged_alone (script_of source.now) templates.now)) }
{
    match judge(alloc, source, &[], &[])? {
        // Without arguments no text is shown.
        Judged::Shows(report) => {
            let written = taken(alloc, &report, &[])?;
            Ok(written)
        }
        Judged::Runs(needs) => run_with(alloc, &needs, templates),
    }
}

/// Runs a source with this template.
fn run_source(alloc: Global, source: &Source, template: &[u8]) -> Result<Written, FilterFault>
    requires source { IsRead (script_of source.now) }
    requires outputs { AreOutputs (lists_of (script_of source.now)).files
        (lists_of (script_of source.now)).headers }
    ensures run { IfOk result (λ w.
        IsRun (script_of source.now) template.now w.text w.errors.items w.status) }
    ensures refused { IfErr result (
        IsNotRun (
        judged_alone (script_of source.now) (
        templates_of (script_of source.now) template.now))) }
{
    let files = source.files().as_slice();
    let templates = templates_for(alloc, files, template)?;
    let given = templates.as_slice();
    run_judged(alloc, source, given)
}

/// Returns what the run of the input writes, or why it isn't run.
fn answer(alloc: Global, input: &[u8]) -> Result<Written, FilterFault>
    ensures found { IfOk result (λ w. IsFiltered input.now w.text w.errors.items w.status) }
    ensures refused { IfErr result (IsInputFault input.now) }
{
    let Some(at) = marker_place(input) else {
        return Err(FilterFault::Usage);
    };
    let text = &input[..at];
    let source = parse(alloc, text)?;
    run_source(alloc, &source, after_marker(input, at))
}

/// Returns the source that the filter runs: the text before the line `%%`. Without such a line it
/// is the whole text.
pub fn source_part(input: &[u8]) -> &[u8]
    ensures { IsSourcePart input.now result.now }
{
    match marker_place(input) {
        Some(at) => &input[..at],
        None => input,
    }
}

/// Filters a text that was read, as [`filter`] does.
///
/// # Errors
///
/// Those of [`filter`] but `Read`, in the same order.
fn filter_text<W: Write>(
    alloc: Global,
    input: &[u8],
    writer: &mut W,
) -> Result<Filtered, FilterFault>
    // If it succeeds, what is written, the text for standard error and the status are those of the
    // source's meaning.
    ensures written { IfOk result (λ f.
        (out : List ℕ) × IsFiltered input.now out f.errors.items f.status
        × Appends (W.contents writer.old) (W.contents writer.new) out) }
    // If it fails, and not because of the writer, the writer is unchanged.
    ensures untouched { IfErr result (λ e. e ≢ FilterFault.Write → writer.new ≡ writer.old) }
    // If it fails, the input has an error, or its text can't be written, or memory ran out.
    ensures refused { IfErr result (IsRefused input.now) }
{
    let answer = answer(alloc, input)?;
    if writer.write_all(answer.text.as_slice()).is_err() {
        return Err(FilterFault::Write);
    }
    Ok(Filtered {
        status: answer.status,
        errors: answer.errors,
    })
}

/// Filters, as [`filter`] does, and keeps the text that was read. If the input can't be read, none
/// is kept.
///
/// # Errors
///
/// Those of [`filter`], in the same order.
pub fn filter_keeping<R: Read, W: Write>(
    alloc: Global,
    reader: &mut R,
    writer: &mut W,
    kept: &mut Vec<u8>,
) -> Result<Filtered, FilterFault>
    // If it succeeds, what is written, the text for standard error and the status are those of the
    // source's meaning.
    ensures written { IfOk result (λ f.
        IfSome (R.remaining reader.old) (λ input.
        (out : List ℕ) × IsFiltered input out f.errors.items f.status
        × Appends (W.contents writer.old) (W.contents writer.new) out)) }
    // If it fails, and not because of the writer, the writer is unchanged.
    ensures untouched { IfErr result (λ e. e ≢ FilterFault.Write → writer.new ≡ writer.old) }
    // If it fails, the input has no line `%%`; or this is the first error of its source; or its
    // source is right, and weighs too much or has a template that doesn't exist; or the input is
    // right, and its text can't be written; or the input can't be read; or memory ran out.
    ensures refused { IfErr result (λ e.
        IfSome (R.remaining reader.old) (λ input. IsRefused input e)) }
{
    let input = read_input(alloc, reader)?;
    *kept = input;
    filter_text(alloc, kept.as_slice(), writer)
}

/// Reads a configure.ac, a line that is exactly `%%` and the template of its first file. Runs the
/// source, without arguments, environment and cache, and writes that file.
///
/// Nothing is written if the source names no file, or if an error stops the run. No child is
/// started: if the source needs one, the run is cut short, and nothing is written. No template but
/// that of the first file exists (own).
///
/// # Errors
///
/// In this order:
///
/// - `Read`, if the input can't be read.
/// - `Usage`, if it has no line `%%`.
/// - `Run`, for the first error of the source; then for the first fault of the run, in the order
///   of `engine::Fault`: the source is too long to be run, or a template doesn't exist.
///   Without a cache no precious variable has a fault.
/// - `Write`, if the text can't be written. Some of it may have been written. After every other
///   error, nothing is.
///
/// `OutOfMemory` may occur at any moment.
pub fn filter<R: Read, W: Write>(
    alloc: Global,
    reader: &mut R,
    writer: &mut W,
) -> Result<Filtered, FilterFault>
    // If it succeeds, what is written, the text for standard error and the status are those of the
    // source's meaning.
    ensures written { IfOk result (λ f.
        IfSome (R.remaining reader.old) (λ input.
        (out : List ℕ) × IsFiltered input out f.errors.items f.status
        × Appends (W.contents writer.old) (W.contents writer.new) out)) }
    // If it fails, and not because of the writer, the writer is unchanged.
    ensures untouched { IfErr result (λ e. e ≢ FilterFault.Write → writer.new ≡ writer.old) }
    // If it fails, the input has no line `%%`; or this is the first error of its source; or its
    // source is right, and weighs too much or has a template that doesn't exist; or the input is
    // right, and its text can't be written; or the input can't be read; or memory ran out.
    ensures refused { IfErr result (λ e.
        IfSome (R.remaining reader.old) (λ input. IsRefused input e)) }
{
    let mut kept = Vec::new(alloc);
    filter_keeping(alloc, reader, writer, &mut kept)
}
