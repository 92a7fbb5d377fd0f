//! What is put, with the slots filled in.

ghost use Rattle.std.specs.Prelude.{◌≡◌, ◌++◌, [], reverse, None, IfOk, OnOk};
ghost use Rattle.port_rules.specs.Fills as specs;

use crate::rule::{Fill, Put};
use ac_parts::Part;
use port_match::Bound;
use std::alloc::{AllocError, Global};

/// Returns the part of a slot with this number, or its last one.
fn slot_part(bounds: &[Bound], slot: usize, number: usize) -> Option<Part>
    ensures { result ≡ specs.slot_at None bounds.now slot number }
{
    let mut last = None;
    let mut left = number;
    for bound in bounds {
        if bound.slot == slot {
            if left == 0 {
                return Some(bound.part);
            }
            last = Some(bound.part);
            left -= 1;
        }
    }
    last
}

/// Returns a part of the text, or nothing if there is none.
fn between(text: &[u8], start: usize, end: usize) -> &[u8]
    ensures { result.now ≡ specs.between text.now start end }
{
    if start <= end && end <= text.len() {
        &text[start..end]
    } else {
        &text[..0]
    }
}

/// Returns the text of a slot: that of its part with this number, or of its last one.
pub(crate) fn slot_text<'a>(
    text: &'a [u8],
    bounds: &[Bound],
    slot: usize,
    number: usize,
) -> &'a [u8]
    ensures { result.now ≡ specs.slot_text text.now bounds.now slot number }
{
    match slot_part(bounds, slot, number) {
        Some(part) => between(text, part.start, part.end),
        None => &text[..0],
    }
}

/// Returns whether a byte is a blank, a newline or a `;`.
fn is_edge(byte: u8) -> bool
    ensures { result ≡ specs.is_edge byte }
{
    byte == b' ' || byte == b'\t' || byte == b'\r' || byte == b'\n' || byte == b';'
}

/// Returns a text without the blanks, newlines and `;` that it begins with.
fn strip(text: &[u8]) -> &[u8]
    ensures { result.now ≡ specs.strip text.now }
{
    for i in 0..text.len() {
        if !is_edge(text[i]) {
            return &text[i..];
        }
    }
    &text[text.len()..]
}

/// Returns a text from its end to its start.
fn mirrored(alloc: Global, text: &[u8]) -> Result<Vec<u8>, AllocError>
    ensures { IfOk result (λ v. v.items ≡ reverse text.now) }
{
    text.iter().rev().copied().collect(alloc)
}

/// Returns a text without the blanks, newlines and `;` at its edges.
fn bare(alloc: Global, text: &[u8]) -> Result<Vec<u8>, AllocError>
    ensures { IfOk result (λ v. v.items ≡ specs.bare text.now) }
{
    let front = mirrored(alloc, strip(text))?;
    let back = mirrored(alloc, strip(&front))?;
    Ok(back)
}

/// Appends a text without the blanks, newlines and `;` at its edges.
fn put_bare(alloc: Global, text: &[u8], out: &mut Vec<u8>) -> Result<(), AllocError>
    ensures { OnOk result (out.new.items ≡ out.old.items ++ specs.bare text.now) }
{
    let text = bare(alloc, text)?;
    out.extend_from_slice(&text)?;
    Ok(())
}

/// Appends a text or that of a slot.
fn put_fill(
    alloc: Global,
    text: &[u8],
    bounds: &[Bound],
    number: usize,
    fill: Fill,
    out: &mut Vec<u8>,
) -> Result<(), AllocError>
    ensures { OnOk result (
        out.new.items ≡ out.old.items ++ specs.fill_text text.now bounds.now number fill) }
{
    match fill {
        Fill::Text(it) => {
            out.extend_from_slice(it)?;
            Ok(())
        }
        Fill::Slot(slot) => {
            out.extend_from_slice(slot_text(text, bounds, slot, number))?;
            Ok(())
        }
        Fill::Bare(slot) => put_bare(alloc, slot_text(text, bounds, slot, number), out),
    }
}

/// Appends texts and those of slots.
fn put_fills(
    alloc: Global,
    text: &[u8],
    bounds: &[Bound],
    number: usize,
    fills: &[Fill],
    out: &mut Vec<u8>,
) -> Result<(), AllocError>
    ensures { OnOk result (
        out.new.items ≡ specs.fills_onto text.now bounds.now number out.old.items fills.now) }
{
    for fill in fills {
        put_fill(alloc, text, bounds, number, *fill, out)?;
    }
    Ok(())
}

/// Appends texts for each part of a slot.
fn put_each(
    alloc: Global,
    text: &[u8],
    bounds: &[Bound],
    slot: usize,
    fills: &[Fill],
    out: &mut Vec<u8>,
) -> Result<(), AllocError>
    ensures { OnOk result (
        out.new.items
        ≡ specs.each_onto text.now bounds.now slot fills.now 0 out.old.items bounds.now) }
{
    let mut number = 0usize;
    for bound in bounds {
        if bound.slot == slot {
            put_fills(alloc, text, bounds, number, fills, out)?;
            number += 1;
        }
    }
    Ok(())
}

/// Appends what an element puts.
fn put_one(
    alloc: Global,
    text: &[u8],
    bounds: &[Bound],
    put: Put,
    out: &mut Vec<u8>,
) -> Result<(), AllocError>
    ensures { OnOk result (
        out.new.items ≡ specs.put_onto text.now bounds.now out.old.items put) }
{
    match put {
        Put::Once(fill) => put_fill(alloc, text, bounds, 0, fill, out),
        Put::Each(slot, fills) => put_each(alloc, text, bounds, slot, fills, out),
    }
}

/// Returns what is put, with the slots filled in.
pub(crate) fn filled(
    alloc: Global,
    text: &[u8],
    bounds: &[Bound],
    puts: &[Put],
) -> Result<Vec<u8>, AllocError>
    ensures { IfOk result (λ v. v.items ≡ specs.filled_onto text.now bounds.now [] puts.now) }
{
    let mut out = Vec::new(alloc);
    for put in puts {
        put_one(alloc, text, bounds, *put, &mut out)?;
    }
    Ok(out)
}
