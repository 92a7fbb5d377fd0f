//! The comment that says in what an idiom differs from a macro, and the idiom below it.

ghost use Rattle.std.specs.Prelude.{◌≡◌, ◌∷◌, ◌++◌, map, IfOk, IsTrue, OnOk};
ghost use Rattle.port_spots.specs.Put as specs;

use port_idioms::filled;
use std::alloc::{AllocError, Global};

/// What the comment above an idiom begins with.
const FRONT: &[u8] = b"dnl acrun: in place of ";

/// Returns the comment above the idiom of a macro of this name.
#[tactic(auto, unfolding(crate::specs::Put::difference))]
pub fn difference(alloc: Global, name: &[u8], said: &[u8]) -> Result<Vec<u8>, AllocError>
    ensures { IfOk result (λ v. v.items ≡ specs.difference name.now said.now) }
{
    let mut out = Vec::from_slice(alloc, FRONT)?;
    out.extend_from_slice(name)?;
    out.push(b':')?;
    out.extend_from_slice(said)?;
    Ok(out)
}

/// Appends a newline, the indent and a text.
pub fn put_text(out: &mut Vec<u8>, indent: &[u8], text: &[u8]) -> Result<(), AllocError>
    ensures { OnOk result (out.new.items ≡ out.old.items ++ (10 ∷ indent.now ++ text.now)) }
{
    out.push(b'\n')?;
    out.extend_from_slice(indent)?;
    out.extend_from_slice(text)
}

/// Appends an idiom with these arguments, after a newline and the indent. Returns whether each
/// argument could be put there.
pub fn put_idiom(
    alloc: Global,
    out: &mut Vec<u8>,
    idiom: &[u8],
    args: &[&[u8]],
    indent: &[u8],
) -> Result<bool, AllocError>
    ensures { IfOk result (λ b.
        IsTrue b
        → out.new.items
        ≡ out.old.items ++ specs.below indent.now idiom.now (map (λ a. a.now) args.now)) }
{
    match filled(alloc, idiom, args, true, indent)? {
        Some(text) => {
            put_text(out, indent, text.as_slice())?;
            Ok(true)
        }
        None => Ok(false),
    }
}

/// Returns the arguments of the call with one name.
fn with_name<'a>(
    alloc: Global,
    name: &'a [u8],
    more: &[&'a [u8]],
) -> Result<Vec<&'a [u8]>, AllocError>
    ensures { IfOk result (λ v. map (λ a. a.now) v.items ≡ name.now ∷ map (λ a. a.now) more.now) }
{
    let mut out = Vec::new(alloc);
    out.push(name)?;
    out.extend_from_slice(more)?;
    Ok(out)
}

/// Appends an idiom with one name, after a newline and the indent. Returns whether each argument
/// could be put there.
pub fn put_named(
    alloc: Global,
    out: &mut Vec<u8>,
    idiom: &[u8],
    name: &[u8],
    more: &[&[u8]],
    indent: &[u8],
) -> Result<bool, AllocError>
    ensures { IfOk result (λ b.
        IsTrue b
        → out.new.items
        ≡ out.old.items
        ++ specs.below indent.now idiom.now (name.now ∷ map (λ a. a.now) more.now)) }
{
    let args = with_name(alloc, name, more)?;
    put_idiom(alloc, out, idiom, args.as_slice(), indent)
}
