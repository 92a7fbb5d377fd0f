//! Readers of lists of outputs.

ghost use Rattle.std.specs.Prelude.{◌≡◌, map};
ghost use Rattle.m4quote.specs.ItemValue.{span};
ghost use Rattle.ac_args.specs.Outputs as specs;
ghost use Rattle.ac_statement.specs.Reading.{Gives};

use crate::arguments::text;
use crate::path::output_in;
use ac_statement::fault::ParseFault;
use m4quote::Arg;
use output_list::{Output, OutputList, is_path};
use std::alloc::Global;
use text_cut::fields;

/// The largest number of files of a source, and of headers (own).
const MAX_OUTPUTS: usize = 1024;

/// Checks that an output can follow `before`, the earlier ones of the source, and `outputs`, the
/// earlier ones of the argument.
#[tactic(auto, unfolding(crate::specs::Outputs::wanted))]
fn check_output(
    alloc: Global,
    at: usize,
    own: &OutputList,
    other: &OutputList,
    outputs: &OutputList,
    output: &Output,
) -> Result<(), ParseFault>
    ensures { Gives (λ _. tt) result (specs.wanted at own.now other.now outputs.now output.now) }
{
    if !is_path(alloc, output.name.as_slice())? {
        return Err(ParseFault::BadName(at));
    }
    if !is_path(alloc, output.template.as_slice())? {
        return Err(ParseFault::BadName(at));
    }
    if own.has(output.name.as_slice()) {
        return Err(ParseFault::BadName(at));
    }
    if other.has(output.name.as_slice()) {
        return Err(ParseFault::BadName(at));
    }
    if outputs.has(output.name.as_slice()) {
        return Err(ParseFault::BadName(at));
    }
    if own.len().saturating_add(outputs.len()) >= MAX_OUTPUTS {
        return Err(ParseFault::TooMany(at));
    }
    Ok(())
}

/// Appends the output that a field names.
fn add_output(
    alloc: Global,
    at: usize,
    own: &OutputList,
    other: &OutputList,
    outputs: &mut OutputList,
    field: &[u8],
) -> Result<(), ParseFault>
    ensures { Gives (λ _. outputs.new) result
        (specs.one_more at own.now other.now outputs.old field.now) }
{
    let output = output_in(alloc, field)?;
    check_output(alloc, at, own, other, outputs, &output)?;
    outputs.push(output)?;
    Ok(())
}

/// Appends the outputs that the fields name.
fn add_fields(
    alloc: Global,
    at: usize,
    own: &OutputList,
    other: &OutputList,
    outputs: &mut OutputList,
    fields: &[&[u8]],
) -> Result<(), ParseFault>
    ensures { Gives (λ _. outputs.new) result
        (specs.with_fields at own.now other.now outputs.old (map (λ f. f.now) fields.now)) }
{
    for field in fields {
        add_output(alloc, at, own, other, outputs, field)?;
    }
    Ok(())
}

/// Returns the outputs that a text at `at` lists between blanks.
fn outputs_in(
    alloc: Global,
    at: usize,
    own: &OutputList,
    other: &OutputList,
    text: &[u8],
) -> Result<OutputList, ParseFault>
    ensures { Gives (λ o. o) result (specs.outputs_in at own.now other.now text.now) }
{
    let fields = fields(alloc, text)?;
    if fields.is_empty() {
        return Err(ParseFault::BadName(at));
    }
    let mut outputs = OutputList::new(alloc);
    add_fields(alloc, at, own, other, &mut outputs, fields.as_slice())?;
    Ok(outputs)
}

/// Returns the outputs that an argument lists between blanks, each as `NAME` or `NAME:TEMPLATE`. If
/// no template is named, it is `NAME.in` (Autoconf's manual, "Configuration Files"). `own` has the
/// earlier outputs of the same kind, and `other` those of other kinds, which share their names.
///
/// # Errors
///
/// - `BadName` at the argument, if it lists none, if a name or a template is no path below the
///   directory, or if an output is listed twice.
/// - `TooMany` at the argument, if there are more than 1,024 outputs of the same kind.
#[tactic(auto, unfolding(crate::specs::Outputs::outputs))]
pub fn outputs(
    alloc: Global,
    own: &OutputList,
    other: &OutputList,
    arg: Arg<'_>,
) -> Result<OutputList, ParseFault>
    ensures { Gives (λ o. o) result (specs.outputs own.now other.now (span arg.entry)) }
{
    let text = text(alloc, arg)?;
    outputs_in(alloc, arg.at, own, other, text.as_slice())
}
