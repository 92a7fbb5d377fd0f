//! Warnings about outputs that a run reads.

ghost use Rattle.std.specs.Prelude.{◌≡◌, OnOk};
ghost use Rattle.lint_findings.specs.Within.{KeepsWithin};

use ac_tree::Source;
use lint_findings::{Finding, Span};
use lint_table::{WordPart, keys, warn_by_key};
use lint_text::before;
use output_list::Output;
use std::alloc::{AllocError, Global};
use std::collections::BTreeSet;

/// The name of the source in its directory.
const SOURCE: &[u8] = b"configure.ac";

/// The macros that name outputs.
const MACROS: [&[u8]; 2] = [b"AC_CONFIG_FILES", b"AC_CONFIG_HEADERS"];

/// The names of files that a run reads.
type Inputs = BTreeSet<Vec<u8>>;

/// Adds the templates of outputs.
fn add_templates(alloc: Global, outputs: &[Output], inputs: &mut Inputs) -> Result<(), AllocError> {
    for output in outputs {
        let name = Vec::from_slice(alloc, output.template.as_slice())?;
        let _ = inputs.insert(name)?;
    }
    Ok(())
}

/// Returns the names of the files in the directory of a source that a run reads: the source and its
/// templates.
fn inputs_of(alloc: Global, source: &Source) -> Result<Inputs, AllocError> {
    let mut inputs = BTreeSet::new(alloc);
    let name = Vec::from_slice(alloc, SOURCE)?;
    let _ = inputs.insert(name)?;
    add_templates(alloc, source.files().as_slice(), &mut inputs)?;
    add_templates(alloc, source.headers().as_slice(), &mut inputs)?;
    Ok(inputs)
}

/// Returns whether the byte is before or after a name in a list of outputs.
fn is_border(byte: u8) -> bool {
    matches!(
        byte,
        b' ' | b'\t' | b'\n' | b'[' | b']' | b'(' | b')' | b',' | b':'
    )
}

/// Returns where a source names an output first: after a macro that names outputs, and not after a
/// colon, where templates are (own). If it is nowhere, returns the end of the source.
pub fn span_of_output(text: &[u8], name: &[u8]) -> Span
    // It is a part of the source, and of no template.
    ensures { result.file ≡ 0 }
{
    let mut is_after_macro = false;
    let mut at: usize = 0;
    for word in text.split(|byte| is_border(*byte)) {
        // What is after a colon is a template.
        if is_after_macro && word == name && !before(text, at).ends_with(b":") {
            return Span {
                file: 0,
                start: at,
                end: at.saturating_add(word.len()),
            };
        }
        is_after_macro |= MACROS.iter().any(|other| *other == word);
        at = at.saturating_add(word.len()).saturating_add(1);
    }
    Span {
        file: 0,
        start: text.len(),
        end: text.len(),
    }
}

/// Warns of an output that has the name of an input.
fn warn_of_output(
    alloc: Global,
    text: &[u8],
    inputs: &Inputs,
    output: &Output,
    out: &mut Vec<Finding>,
) -> Result<(), AllocError>
    ensures within { OnOk result (KeepsWithin 0 text.now out.old.items out.new.items) }
{
    let name = output.name.as_slice();
    if !inputs.contains(name) {
        return Ok(());
    }
    let span = span_of_output(text, name);
    warn_by_key(
        alloc,
        out,
        text,
        span,
        keys::OUTPUT_OVER_INPUT,
        &[WordPart::AsItIs(name)],
    )
}

/// The most outputs that are warned of.
const MOST: usize = 20;

/// Warns of an output that has the name of an input, if there are fewer findings than this number.
fn warn_below(
    alloc: Global,
    text: &[u8],
    inputs: &Inputs,
    output: &Output,
    most: usize,
    out: &mut Vec<Finding>,
) -> Result<(), AllocError>
    ensures within { OnOk result (KeepsWithin 0 text.now out.old.items out.new.items) }
{
    if most <= out.len() {
        return Ok(());
    }
    warn_of_output(alloc, text, inputs, output, out)
}

/// Warns of the first outputs that have the name of an input.
fn warn_of_each(
    alloc: Global,
    text: &[u8],
    inputs: &Inputs,
    outputs: &[Output],
    out: &mut Vec<Finding>,
) -> Result<(), AllocError>
    ensures within { OnOk result (KeepsWithin 0 text.now out.old.items out.new.items) }
{
    let most = out.len().saturating_add(MOST);
    for output in outputs {
        warn_below(alloc, text, inputs, output, most, out)?;
    }
    Ok(())
}

/// Adds a warning for each output of a source that has the name of one of its templates, or that of
/// the source, up to a number. A run in the directory of the source doesn't write such an output
/// (own). The text is that of the source.
///
/// # Errors
///
/// Fails only if memory runs out.
pub fn warn_of_outputs(
    alloc: Global,
    text: &[u8],
    source: &Source,
    out: &mut Vec<Finding>,
) -> Result<(), AllocError>
    // If the findings of the source were in its text, they still are.
    ensures within { OnOk result (KeepsWithin 0 text.now out.old.items out.new.items) }
{
    let inputs = inputs_of(alloc, source)?;
    warn_of_each(alloc, text, &inputs, source.files().as_slice(), out)?;
    warn_of_each(alloc, text, &inputs, source.headers().as_slice(), out)?;
    Ok(())
}
