//! Templates by name, and outputs by tags.

ghost use Rattle.std.specs.Prelude.{◌≡◌, ◌<◌, [], unwrap_or, bytes_eq, option_map, find, length, IfOk, IfSome};
ghost use Rattle.std.specs.List.{list_any};
ghost use Rattle.std.specs.Option.{option_copied};
ghost use Rattle.deftable.specs.Table.{value_of};
ghost use Rattle.output_make.specs.Choice as words;

use crate::lookup::Templates;
use deftable::Bytes;
use output_list::Output;
use status_record::Record;
use std::alloc::{AllocError, Global};

/// Returns the text of a template, or the empty text if there is none.
fn or_empty<'a>(template: Option<&'a [u8]>) -> &'a [u8]
    ensures { result.now ≡ unwrap_or (option_map (λ t. t.now) template.entry) [] }
{
    match template {
        Some(text) => text,
        None => b"",
    }
}

fn find_entry<'a>(templates: &'a [(Bytes, Bytes)], name: &[u8]) -> Option<&'a (Bytes, Bytes)>
    ensures { option_copied result ≡ find (λ template. bytes_eq name.now template.0) templates.now }
{
    templates
        .iter()
        .find(|template| name == template.0.as_slice())
}

/// Returns the text of the first template of this name, or `None` if there is none.
#[tactic(auto, using(crate::proofs::Choices::found))]
fn find_template<'a>(templates: &'a [(Bytes, Bytes)], name: &[u8]) -> Option<&'a [u8]>
    ensures { option_map (λ text. text.now) result ≡ value_of templates.now name.now }
{
    let template = find_entry(templates, name)?;
    Some(template.1.as_slice())
}

/// Returns the first template of this name, or the empty text if there is none.
pub(crate) fn template_of<'a>(templates: &'a [(Bytes, Bytes)], name: &[u8]) -> &'a [u8]
    ensures { result.now ≡ words.template_of templates.now name.now }
{
    or_empty(find_template(templates, name))
}

/// Returns the same of templates that were made ready.
pub(crate) fn text_of<'a>(templates: &Templates<'a>, name: &[u8]) -> &'a [u8]
    ensures { result.now ≡ words.template_of templates.now name.now }
{
    or_empty(templates.get(name))
}

/// Returns whether a name is a tag.
fn is_tag(tags: &[Bytes], name: &[u8]) -> bool
    ensures { result ≡ list_any (λ tag. bytes_eq name.now tag) tags.now }
{
    tags.iter().any(|tag| name == tag.as_slice())
}

/// Returns whether the output is to be made: there are no tags, or one of them is its name.
#[tactic(auto, using(crate::proofs::Choices::named))]
pub(crate) fn is_chosen(tags: &[Bytes], output: &Output) -> bool
    ensures { result ≡ words.is_chosen tags.now output.now }
{
    tags.is_empty() || is_tag(tags, output.name.as_slice())
}

fn has_template(templates: &Templates<'_>, output: &Output) -> bool
    ensures { result ≡ words.has_template templates.now output.now.template }
{
    templates.get(output.template.as_slice()).is_some()
}

fn is_missing(templates: &Templates<'_>, tags: &[Bytes], output: &Output) -> bool
    ensures { result ≡ words.is_missing templates.now tags.now output.now }
{
    is_chosen(tags, output) && !has_template(templates, output)
}

/// Returns the first output whose template is missing, or `None` if there is none.
fn first_missing<'a>(
    templates: &Templates<'_>,
    outputs: &'a [Output],
    tags: &[Bytes],
) -> Option<&'a Output>
    ensures { option_copied result ≡ words.missing templates.now outputs.now tags.now }
{
    outputs
        .iter()
        .find(|output| is_missing(templates, tags, output))
}

/// Returns the first output whose template is missing, or `None` if there is none (own).
///
/// A template is a name and a text. If there are tags, looks only at the outputs whose names are
/// tags.
///
/// # Errors
///
/// Fails only if memory runs out.
pub fn find_missing<'a>(
    alloc: Global,
    templates: &[(Bytes, Bytes)],
    outputs: &'a [Output],
    tags: &[Bytes],
) -> Result<Option<&'a Output>, AllocError>
    ensures { IfOk result (λ found.
        option_copied found ≡ words.missing templates.now outputs.now tags.now) }
{
    let templates = Templates::new(alloc, templates)?;
    Ok(first_missing(&templates, outputs, tags))
}

/// Returns whether a file or a header of the record has this name.
fn is_output(recorded: &Record, tag: &[u8]) -> bool
    ensures { result ≡ words.is_output recorded.now tag.now }
{
    recorded.files.has(tag) || recorded.headers.has(tag)
}

/// Returns the index, counted from 0, of the first tag that is the name of no file and of no header
/// of the record, or `None` if there is none (own).
pub fn find_unknown(recorded: &Record, tags: &[Bytes]) -> Option<usize>
    ensures exact { result ≡ words.unknown recorded.now tags.now }
    ensures bound { IfSome result (λ i. i < length tags.now) }
{
    tags.iter()
        .position(|tag| !is_output(recorded, tag.as_slice()))
}
