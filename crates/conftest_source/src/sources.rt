//! The texts of the programs.

ghost use Rattle.std.specs.Prelude.{◌≡◌, ◌++◌, IfOk, OnOk, codes};
ghost use Rattle.conftest_source.specs.Sources as sources;

use deftable::Bytes;
use std::alloc::{AllocError, Global};

const DEFAULT_INCLUDES: &[u8] =
    b"#include <stddef.h>\n#include <stdio.h>\n#include <stdlib.h>\n#include <string.h>\n#include <sys/types.h>\n";

/// Returns the includes of a program for which no others are given (Autoconf's manual, "Default
/// Includes"; which headers these are is own).
#[tactic(auto, unfolding(crate::specs::Sources::default_includes))]
pub fn default_includes() -> &'static [u8]
    ensures { result.now ≡ sources.default_includes }
{
    DEFAULT_INCLUDES
}

/// Appends `more` to a text, followed by a newline if `more` doesn't end in one (own).
///
/// # Errors
///
/// Fails only if memory runs out, and may then have appended `more` without the newline.
#[tactic(auto, unfolding(crate::specs::Sources::ended))]
pub fn put_ended(text: &mut Vec<u8>, more: &[u8]) -> Result<(), AllocError>
    ensures { OnOk result (text.new.items ≡ text.old.items ++ sources.ended more.now) }
{
    text.extend_from_slice(more)?;
    if more.ends_with(b"\n") {
        return Ok(());
    }
    text.extend_from_slice(b"\n")?;
    Ok(())
}

/// Returns a whole program: the prologue, and then a function `main` with the body (Autoconf's
/// manual, "Generating Sources").
#[tactic(auto, unfolding(crate::specs::Sources::program_source))]
pub fn program_source(alloc: Global, prologue: &[u8], body: &[u8]) -> Result<Bytes, AllocError>
    ensures { IfOk result (λ text. text ≡ sources.program_source prologue.now body.now) }
{
    let mut text = Vec::from_slice(alloc, prologue)?;
    text.extend_from_slice(b"\nint\nmain (void)\n{\n")?;
    text.extend_from_slice(body)?;
    text.extend_from_slice(b"\n  ;\n  return 0;\n}\n")?;
    Ok(Bytes::from_vec(text))
}

/// Returns a program that includes `header` after `includes`, to be compiled (Autoconf's manual,
/// "Generic Headers").
#[tactic(auto, unfolding(crate::specs::Sources::header_source))]
pub fn header_source(alloc: Global, includes: &[u8], header: &[u8]) -> Result<Bytes, AllocError>
    ensures { IfOk result (λ text. text ≡ sources.header_source includes.now header.now) }
{
    let mut text = Vec::new(alloc);
    put_ended(&mut text, includes)?;
    text.extend_from_slice(b"#include <")?;
    text.extend_from_slice(header)?;
    text.extend_from_slice(b">")?;
    Ok(Bytes::from_vec(text))
}

/// Returns a program that declares the function and calls it, to be linked (Autoconf's manual,
/// "Generic Functions").
#[tactic(auto, unfolding(crate::specs::Sources::function_source))]
pub fn function_source(alloc: Global, name: &[u8]) -> Result<Bytes, AllocError>
    ensures { IfOk result (λ text. text ≡ sources.function_source name.now) }
{
    let prologue = around_twice(alloc, b"#undef ", name, b"\nchar ", b" (void);")?;
    let body = around(alloc, b"return ", name, b" ();")?;
    program_source(alloc, prologue.as_slice(), body.as_slice())
}

fn around(alloc: Global, front: &[u8], text: &[u8], back: &[u8]) -> Result<Vec<u8>, AllocError>
    ensures { IfOk result (λ v. v.items ≡ front.now ++ text.now ++ back.now) }
{
    let mut all = Vec::from_slice(alloc, front)?;
    all.extend_from_slice(text)?;
    all.extend_from_slice(back)?;
    Ok(all)
}

/// Returns `front`, the text, `between`, the text again, and `back`, joined.
fn around_twice(
    alloc: Global,
    front: &[u8],
    text: &[u8],
    between: &[u8],
    back: &[u8],
) -> Result<Vec<u8>, AllocError>
    ensures { IfOk result (λ v.
        v.items ≡ front.now ++ text.now ++ between.now ++ text.now ++ back.now) }
{
    let mut all = around(alloc, front, text, between)?;
    all.extend_from_slice(text)?;
    all.extend_from_slice(back)?;
    Ok(all)
}
