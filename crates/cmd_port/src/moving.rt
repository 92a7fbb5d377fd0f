//! Calls and statements of a shell are rewritten by turns, until nothing is left that can be
//! rewritten.

ghost use Rattle.std.specs.Prelude.{IfOk, IfSome, option_map};
ghost use Rattle.cmd_port.specs.Asked.{package_of};
ghost use Rattle.cmd_port.specs.Ported as specs;

use port_calls::{Package, replaced, with_package};
use port_idioms::Idioms;
use port_messages::told;
use port_shell::formed;
use std::alloc::{AllocError, Global};

/// How often there is a turn at most. A call may be rewritten once it is in a call that a statement
/// became.
const TURNS: usize = 70;

/// Returns the text with messages in place of what `echo` prints, if all idioms are wanted, and
/// otherwise the text.
fn told_by(alloc: Global, idioms: Idioms, text: Vec<u8>) -> Result<Vec<u8>, AllocError>
    ensures { IfOk result (λ v. specs.IsToldBy idioms text.items v.items) }
{
    match idioms {
        Idioms::Exact => Ok(text),
        Idioms::All => told(alloc, text.as_slice()),
    }
}

/// Returns the text with its calls rewritten, then its statements of a shell, and then what `echo`
/// prints, or `None` if nothing can be rewritten.
fn turned(alloc: Global, idioms: Idioms, text: &[u8]) -> Result<Option<Vec<u8>>, AllocError>
    ensures { IfOk result (λ o. IfSome o (λ v. specs.IsTurn idioms text.now v.items)) }
{
    let mid = replaced(alloc, idioms, text)?;
    let formed = formed(alloc, idioms, mid.as_slice())?;
    let out = told_by(alloc, idioms, formed)?;
    if out.as_slice() == text {
        Ok(None)
    } else {
        Ok(Some(out))
    }
}

/// Returns the text in which AC_INIT has the name and the version that are stated, or `None` if none
/// are, or if nothing changes.
pub(crate) fn titled(
    alloc: Global,
    naming: Option<Package<'_>>,
    text: &[u8],
) -> Result<Option<Vec<u8>>, AllocError>
    ensures { IfOk result (λ o.
        IfSome o (λ v. specs.IsTitled (option_map package_of naming.entry) text.now v.items)) }
{
    match naming {
        Some(naming) => with_package(alloc, naming, text),
        None => Ok(None),
    }
}

/// Returns the text after one step: a turn, or if nothing can be rewritten, with the name and the
/// version that are stated. Returns `None` if nothing changes.
fn stepped(
    alloc: Global,
    idioms: Idioms,
    naming: Option<Package<'_>>,
    text: &[u8],
) -> Result<Option<Vec<u8>>, AllocError>
    ensures { IfOk result (λ o.
        IfSome o (λ v.
        specs.IsStep idioms (option_map package_of naming.entry) text.now v.items)) }
{
    match turned(alloc, idioms, text)? {
        Some(next) => Ok(Some(next)),
        None => titled(alloc, naming, text),
    }
}

/// Returns the text with its calls and its statements of a shell rewritten, and with the name and the
/// version that are stated.
pub(crate) fn moved(
    alloc: Global,
    idioms: Idioms,
    naming: Option<Package<'_>>,
    text: &[u8],
) -> Result<Vec<u8>, AllocError>
    ensures { IfOk result (λ v.
        specs.IsMoved idioms (option_map package_of naming.entry) text.now v.items) }
{
    let mut out = Vec::from_slice(alloc, text)?;
    for _ in 0..TURNS {
        match stepped(alloc, idioms, naming, out.as_slice())? {
            Some(next) => out = next,
            None => break,
        }
    }
    Ok(out)
}
