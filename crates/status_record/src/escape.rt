//! Values as they are written in a line.

ghost use Rattle.std.specs.Prelude.{◌≡◌, ◌++◌, IfOk, OnOk, option_map, false};
ghost use Rattle.status_record.specs.Escape as specs;

use deftable::Bytes;
use std::alloc::{AllocError, Global};

/// Appends a byte of a value, as it is written in a line.
#[tactic(auto, unfolding(crate::specs::Escape::escaped_byte))]
fn put_byte(out: &mut Vec<u8>, byte: u8) -> Result<(), AllocError>
    ensures { OnOk result (out.new.items ≡ out.old.items ++ specs.escaped_byte byte) }
{
    if byte == b'\\' {
        out.extend_from_slice(b"\\\\")
    } else if byte == b'\n' {
        out.extend_from_slice(b"\\n")
    } else {
        out.extend_from_slice(&[byte])
    }
}

/// Appends a value, as it is written in a line.
pub(crate) fn put_escaped(out: &mut Vec<u8>, value: &[u8]) -> Result<(), AllocError>
    ensures { OnOk result (out.new.items ≡ out.old.items ++ specs.escaped value.now) }
{
    for byte in value {
        put_byte(out, *byte)?;
    }
    Ok(())
}

/// Returns the byte that a backslash and this byte are written for.
#[tactic(auto, unfolding(crate::specs::Escape::byte_after_backslash))]
fn byte_after_backslash(byte: u8) -> Option<u8>
    ensures { result ≡ specs.byte_after_backslash byte }
{
    if byte == b'\\' {
        Some(b'\\')
    } else if byte == b'n' {
        Some(b'\n')
    } else {
        None
    }
}

/// Reads one more byte. Returns whether it is the backslash of an escape, or `None` if the byte
/// can't be here.
#[tactic(auto, unfolding(crate::specs::Escape::with_byte))]
fn take_byte(out: &mut Vec<u8>, in_escape: bool, byte: u8) -> Result<Option<bool>, AllocError>
    ensures { IfOk result (λ r.
        option_map (λ w. (w, out.new.items)) r ≡ specs.with_byte in_escape out.old.items byte) }
{
    if in_escape {
        let Some(escaped) = byte_after_backslash(byte) else {
            return Ok(None);
        };
        out.push(escaped)?;
        return Ok(Some(false));
    }
    if byte == b'\\' {
        return Ok(Some(true));
    }
    if byte == b'\n' {
        return Ok(None);
    }
    out.push(byte)?;
    Ok(Some(false))
}

/// Returns the value of an escaped value, or `None` if the text is none.
pub(crate) fn unescaped(alloc: Global, text: &[u8]) -> Result<Option<Bytes>, AllocError>
    ensures { IfOk result (λ v. v ≡ specs.unescaped text.now) }
{
    let mut out = Vec::new(alloc);
    let mut in_escape = false;
    for byte in text {
        match take_byte(&mut out, in_escape, *byte)? {
            None => return Ok(None),
            Some(begins_escape) => in_escape = begins_escape,
        }
    }
    if in_escape {
        return Ok(None);
    }
    Ok(Some(Bytes::from_vec(out)))
}
