//! String literals of C (ISO C, "String literals").

ghost use Rattle.std.specs.Prelude.{◌≡◌, ◌++◌, OnOk, IfOk};
ghost use Rattle.meaning.specs.Package as packages;

use std::alloc::{AllocError, Global};

/// Appends a byte of a string literal.
fn put_escaped(out: &mut Vec<u8>, byte: u8) -> Result<(), AllocError>
    ensures { OnOk result (out.new.items ≡ out.old.items ++ packages.escaped_byte byte) }
{
    if byte == b'"' || byte == b'\\' {
        out.push(b'\\')?;
    }
    out.push(byte)?;
    Ok(())
}

/// Returns a text as it is written within a string literal.
fn escaped(alloc: Global, text: &[u8]) -> Result<Vec<u8>, AllocError>
    ensures { IfOk result (λ v. v.items ≡ packages.escaped text.now) }
{
    let mut out = Vec::new(alloc);
    for byte in text {
        put_escaped(&mut out, *byte)?;
    }
    Ok(out)
}

/// Returns a string literal, with a backslash before each quote and each backslash.
pub fn literal(alloc: Global, text: &[u8]) -> Result<Vec<u8>, AllocError>
    ensures { IfOk result (λ v. v.items ≡ packages.literal text.now) }
{
    let mut out = Vec::new(alloc);
    out.push(b'"')?;
    out.extend_from_slice(escaped(alloc, text)?.as_slice())?;
    out.push(b'"')?;
    Ok(out)
}
