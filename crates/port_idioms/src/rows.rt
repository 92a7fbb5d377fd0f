//! The rows that say for which calls an idiom is written.

ghost use Rattle.std.specs.Prelude.{◌≡◌, ◌∷◌, ◌++◌, ◌≤◌, ◌+◌, map, IfOk, IfSome};
ghost use Rattle.text_cut.specs.Cuts.{parts};
ghost use Rattle.port_idioms.specs.Rows as specs;

use std::alloc::{AllocError, Global};
use text_cut::parts;

/// Returns the number that a text begins with, a digit after a blank, and the text after it.
fn front_count(text: &[u8]) -> Option<(usize, &[u8])>
    ensures { IfSome result (λ p. (text.now ≡ 32 ∷ (48 + p.0) ∷ p.1.now) × (p.0 ≤ 9)) }
{
    let (blank, rest) = text.split_first()?;
    let (digit, rest) = rest.split_first()?;
    if *blank == b' ' && b'0' <= *digit && *digit <= b'9' {
        Some(((*digit - b'0') as usize, rest))
    } else {
        None
    }
}

/// Returns the text after two numbers, if the count is between them.
fn text_after(counts: &[u8], count: usize) -> Option<&[u8]>
    ensures { IfSome result (λ text. specs.IsCounted count text.now counts.now) }
{
    let (least, rest) = front_count(counts)?;
    let (most, text) = front_count(rest)?;
    if least <= count && count <= most {
        Some(text)
    } else {
        None
    }
}

/// Returns the text after a name, if it begins with the name.
fn rest_after<'a>(text: &'a [u8], name: &[u8]) -> Option<&'a [u8]>
    ensures { IfSome result (λ rest. text.now ≡ name.now ++ rest.now) }
{
    text.strip_prefix(name)
}

/// Returns the text of a row, if the row is about calls of this name with so many arguments.
fn text_in<'a>(row: &'a [u8], name: &[u8], count: usize) -> Option<&'a [u8]>
    ensures { IfSome result (λ text. specs.IsRow name.now count text.now row.now) }
{
    match rest_after(row, name) {
        Some(counts) => text_after(counts, count),
        None => None,
    }
}

/// Returns the text of the first of the rows that is about calls of this name with so many
/// arguments.
fn text_among<'a>(rows: &[&'a [u8]], name: &[u8], count: usize) -> Option<&'a [u8]>
    ensures { IfSome result (λ text.
        specs.IsAmong (map (λ r. r.now) rows.now) name.now count text.now) }
{
    for row in rows {
        if let Some(text) = text_in(row, name, count) {
            return Some(text);
        }
    }
    None
}

/// Returns the text of the first row of a table that is about calls of this name with so many
/// arguments.
pub(crate) fn text_of(
    alloc: Global,
    table: &'static [u8],
    name: &[u8],
    count: usize,
) -> Result<Option<&'static [u8]>, AllocError>
    ensures { IfOk result (λ o.
        IfSome o (λ text. specs.IsAmong (parts 10 table.now) name.now count text.now)) }
{
    let rows = parts(alloc, table, b'\n')?;
    Ok(text_among(rows.as_slice(), name, count))
}
