//! Texts separated by commas outside parentheses. Brackets and braces don't count, nor do quotes.

ghost use Rattle.std.specs.Prelude.{◌≡◌, ◌<◌, map, IfOk};
ghost use Rattle.ac_args.specs.Commas as specs;

use std::alloc::{AllocError, Global};
use text_cut::trim;

/// Returns whether a byte is a comma outside parentheses, of which `depth` are open.
fn is_free_comma(depth: usize, byte: u8) -> bool
    ensures { result ≡ specs.is_free_comma depth byte }
{
    depth == 0 && byte == b','
}

/// Returns how many parentheses are open after one more byte.
fn depth_after(depth: usize, byte: u8) -> usize
    requires { depth < 18446744073709551615 }
    ensures { result ≡ specs.depth_after depth byte }
{
    match byte {
        b'(' => depth + 1,
        b')' => depth.saturating_sub(1),
        _ => depth,
    }
}

/// Returns the parts of the text before, between and after the commas outside parentheses, in order
/// (own).
///
/// There is one part more than there are such commas. A `)` where no parenthesis is open is an
/// ordinary byte, and a parenthesis that is never closed holds the rest of the text.
pub(crate) fn comma_parts(alloc: Global, text: &[u8]) -> Result<Vec<&[u8]>, AllocError>
    ensures value { IfOk result (λ v. map (λ p. p.now) v.items ≡ specs.comma_parts text.now) }
{
    let mut parts = Vec::new(alloc);
    let mut start = 0;
    let mut depth = 0;
    for (at, byte) in text.iter().enumerate() {
        if is_free_comma(depth, *byte) {
            parts.push(&text[start..at])?;
            start = at + 1;
        } else {
            depth = depth_after(depth, *byte);
        }
    }
    parts.push(&text[start..])?;
    Ok(parts)
}

/// Returns the parts without the blanks at their ends, and without those that are then empty.
fn filled<'a>(alloc: Global, parts: &[&'a [u8]]) -> Result<Vec<&'a [u8]>, AllocError>
    ensures { IfOk result (λ v.
        map (λ e. e.now) v.items ≡ specs.filled (map (λ p. p.now) parts.now)) }
{
    let mut entries = Vec::new(alloc);
    for part in parts {
        let entry = trim(part);
        if !entry.is_empty() {
            entries.push(entry)?;
        }
    }
    Ok(entries)
}

/// Returns the entries of a text that are separated by commas outside parentheses: its parts
/// without the blanks at their ends, except those that are then empty (own).
pub(crate) fn comma_entries(alloc: Global, text: &[u8]) -> Result<Vec<&[u8]>, AllocError>
    ensures value { IfOk result (λ v. map (λ e. e.now) v.items ≡ specs.comma_entries text.now) }
{
    let parts = comma_parts(alloc, text)?;
    filled(alloc, parts.as_slice())
}
