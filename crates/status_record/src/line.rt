//! Fields of lines.

ghost use Rattle.std.specs.Prelude.{◌≡◌, ◌<◌, IfOk, IfSome, length, option_map, position, ◌==◌};
ghost use Rattle.status_record.specs.Line as specs;

use crate::escape::unescaped;
use deftable::{Bytes, is_shell_name};
use output_list::{Output, is_path};
use std::alloc::{AllocError, Global};

/// Returns the text after the keyword, or `None` if the line doesn't begin with it.
pub(crate) fn after_prefix<'a>(keyword: &[u8], line: &'a [u8]) -> Option<&'a [u8]>
    ensures { option_map (λ t. t.now) result ≡ specs.after_prefix keyword.now line.now }
{
    line.strip_prefix(keyword)
}

/// Returns the offset of the first space.
fn space(fields: &[u8]) -> Option<usize>
    ensures value { result ≡ position (λ b. b == 32) fields.now }
    ensures within { IfSome result (λ i. i < length fields.now) }
{
    fields.iter().position(|byte| *byte == b' ')
}

/// Returns the text before the first space and that after it.
fn cut(fields: &[u8]) -> Option<(&[u8], &[u8])>
    ensures { option_map (λ f. (f.0.now, f.1.now)) result ≡ specs.cut fields.now }
{
    match space(fields) {
        None => None,
        Some(i) => Some((&fields[..i], &fields[i + 1..])),
    }
}

/// Returns the name and the value of a text NAME VALUE.
#[tactic(auto, unfolding(crate::specs::Line::entry_in))]
pub(crate) fn entry_in(alloc: Global, fields: &[u8]) -> Result<Option<(&[u8], Bytes)>, AllocError>
    ensures { IfOk result (λ r. option_map (λ e. (e.0.now, e.1)) r ≡ specs.entry_in fields.now) }
{
    let Some((name, text)) = cut(fields) else {
        return Ok(None);
    };
    if !is_shell_name(name) {
        return Ok(None);
    }
    let Some(value) = unescaped(alloc, text)? else {
        return Ok(None);
    };
    Ok(Some((name, value)))
}

/// Returns the output if its name and its template are paths.
fn output_of(alloc: Global, name: Bytes, template: Bytes) -> Result<Option<Output>, AllocError>
    ensures { IfOk result (λ r. r ≡ specs.output_of name template) }
{
    if is_path(alloc, name.as_slice())? && is_path(alloc, template.as_slice())? {
        Ok(Some(Output { name, template }))
    } else {
        Ok(None)
    }
}

/// Returns the output of a text NAME TEMPLATE.
#[tactic(auto, unfolding(crate::specs::Line::output_in))]
pub(crate) fn output_in(alloc: Global, fields: &[u8]) -> Result<Option<Output>, AllocError>
    ensures { IfOk result (λ r. r ≡ specs.output_in fields.now) }
{
    let Some((first, second)) = cut(fields) else {
        return Ok(None);
    };
    let Some(name) = unescaped(alloc, first)? else {
        return Ok(None);
    };
    let Some(template) = unescaped(alloc, second)? else {
        return Ok(None);
    };
    output_of(alloc, name, template)
}
