//! What AC_PROG_CC and the macros after it do with Autoconf, in lines below the call.

ghost use Rattle.std.specs.Prelude.{◌≡◌, ◌∷◌, ◌++◌, true, IfOk, OnOk};
ghost use Rattle.std.specs.List.{list_all};
ghost use Rattle.port_spots.specs.Put as put;
ghost use Rattle.port_passes.specs.Compiler as specs;
ghost use Rattle.port_passes.specs.Rewritten.{SetsUp};

use port_spots::difference;
use std::alloc::{AllocError, Global};

// ---- the texts

#[tactic(auto, unfolding(port_passes::specs::Compiler::flags_said))]
fn flags_said() -> &'static [u8]
    ensures { result.now ≡ specs.flags_said }
{
    b" AC_PROG_CC does not set it here, so an empty value becomes what Autoconf sets for a compiler of GNU"
}

#[tactic(auto, unfolding(port_passes::specs::Compiler::flags_text))]
fn flags_text() -> &'static [u8]
    ensures { result.now ≡ specs.flags_text }
{
    b"AS_IF([test -z \"$CFLAGS\"], [CFLAGS=\"-g -O2\"])"
}

#[tactic(auto, unfolding(port_passes::specs::Compiler::headers_said))]
fn headers_said() -> &'static [u8]
    ensures { result.now ≡ specs.headers_said }
{
    b" no macro looks for the default headers here, so they are looked for after AC_PROG_CC"
}

#[tactic(auto, unfolding(port_passes::specs::Compiler::headers_text))]
fn headers_text() -> &'static [u8]
    ensures { result.now ≡ specs.headers_text }
{
    b"AC_CHECK_HEADERS([stdio.h stdlib.h string.h inttypes.h stdint.h strings.h sys/stat.h sys/types.h unistd.h])"
}

#[tactic(auto, unfolding(port_passes::specs::Compiler::standard_said))]
fn standard_said() -> &'static [u8]
    ensures { result.now ≡ specs.standard_said }
{
    b" it is defined without a check"
}

#[tactic(auto, unfolding(port_passes::specs::Compiler::standard_text))]
fn standard_text() -> &'static [u8]
    ensures { result.now ≡ specs.standard_text }
{
    b"AC_DEFINE([STDC_HEADERS], [1])"
}

/// Appends a newline, the indent and a text.
fn put_line(out: &mut Vec<u8>, indent: &[u8], text: &[u8]) -> Result<(), AllocError>
    ensures { OnOk result (out.new.items ≡ out.old.items ++ ((10 ∷ indent.now) ++ text.now)) }
{
    out.push(b'\n')?;
    out.extend_from_slice(indent)?;
    out.extend_from_slice(text)
}

/// Returns a comment and a text, each on a line of its own.
fn lines_below(
    alloc: Global,
    indent: &[u8],
    name: &[u8],
    said: &[u8],
    text: &[u8],
) -> Result<Vec<u8>, AllocError>
    ensures { IfOk result (λ v.
        v.items ≡ specs.lines_below indent.now name.now said.now text.now) }
{
    let comment = difference(alloc, name, said)?;
    let mut out = Vec::new(alloc);
    put_line(&mut out, indent, comment.as_slice())?;
    put_line(&mut out, indent, text)?;
    Ok(out)
}

/// Returns the lines that set CFLAGS.
pub(crate) fn flags_below(alloc: Global, indent: &[u8]) -> Result<Vec<u8>, AllocError>
    requires { list_all put.is_space_or_return indent.now ≡ true }
    ensures { IfOk result (λ v. SetsUp v.items) }
{
    lines_below(alloc, indent, b"CFLAGS", flags_said(), flags_text())
}

/// Returns the lines that look for the default headers.
pub(crate) fn headers_below(alloc: Global, indent: &[u8]) -> Result<Vec<u8>, AllocError>
    requires { list_all put.is_space_or_return indent.now ≡ true }
    ensures { IfOk result (λ v. SetsUp v.items) }
{
    lines_below(
        alloc,
        indent,
        b"AC_INCLUDES_DEFAULT",
        headers_said(),
        headers_text(),
    )
}

/// Returns the lines that define STDC_HEADERS.
pub(crate) fn standard_below(alloc: Global, indent: &[u8]) -> Result<Vec<u8>, AllocError>
    requires { list_all put.is_space_or_return indent.now ≡ true }
    ensures { IfOk result (λ v. SetsUp v.items) }
{
    lines_below(
        alloc,
        indent,
        b"STDC_HEADERS",
        standard_said(),
        standard_text(),
    )
}
