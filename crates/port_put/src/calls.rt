//! The call that is put in the place of a statement.

ghost use Rattle.std.specs.Prelude.{◌≡◌, ◌≤◌, ◌+◌, ◌++◌, ◌∷◌, [], false, length, slice_range, map, IfOk, IfSome, OnOk, IsTrue, codes};
ghost use Rattle.std.specs.List.{flat_map};
ghost use Rattle.m4quote.specs.ItemValue.{span, view, views};
ghost use Rattle.lint_errors.specs.Errors.{IsAccepted};
ghost use Rattle.port_put.specs.Calls as specs;

use m4quote::{Arg, Item, QuoteFault, read_items};
use std::alloc::{AllocError, Global};

/// Appends a part in brackets.
fn put_quoted(out: &mut Vec<u8>, part: &[u8]) -> Result<(), AllocError>
    ensures { OnOk result (out.new.items ≡ out.old.items ++ specs.quoted part.now) }
{
    out.push(b'[')?;
    out.extend_from_slice(part)?;
    out.push(b']')?;
    Ok(())
}

/// Appends a further argument.
fn put_further(out: &mut Vec<u8>, part: &[u8]) -> Result<(), AllocError>
    ensures { OnOk result (out.new.items ≡ out.old.items ++ specs.further part.now) }
{
    out.extend_from_slice(b", ")?;
    put_quoted(out, part)
}

/// Appends further arguments.
fn put_more(out: &mut Vec<u8>, parts: &[&[u8]]) -> Result<(), AllocError>
    ensures { OnOk result (
        out.new.items ≡ out.old.items ++ flat_map specs.further (map (λ p. p.now) parts.now)) }
{
    for part in parts {
        put_further(out, part)?;
    }
    Ok(())
}

/// Appends the arguments of a call.
fn put_arguments(out: &mut Vec<u8>, parts: &[&[u8]]) -> Result<(), AllocError>
    ensures { OnOk result (
        out.new.items ≡ out.old.items ++ specs.arguments (map (λ p. p.now) parts.now)) }
{
    if let Some((first, more)) = parts.split_first() {
        put_quoted(out, first)?;
        return put_more(out, more);
    }
    Ok(())
}

/// Returns the call of a macro with these arguments.
#[tactic(auto, unfolding(crate::specs::Calls::call_text))]
pub fn call_text(alloc: Global, name: &[u8], parts: &[&[u8]]) -> Result<Vec<u8>, AllocError>
    ensures { IfOk result (λ v. v.items ≡ specs.call_text name.now (map (λ p. p.now) parts.now)) }
{
    let mut out = Vec::from_slice(alloc, name)?;
    out.extend_from_slice(b"(")?;
    put_arguments(&mut out, parts)?;
    out.extend_from_slice(b")")?;
    Ok(out)
}

/// Returns whether a text is a part in brackets.
fn is_quoted(alloc: Global, text: &[u8], part: &[u8]) -> Result<bool, AllocError>
    ensures { IfOk result (λ b. IsTrue b → text.now ≡ specs.quoted part.now) }
{
    let mut wanted = Vec::new(alloc);
    put_quoted(&mut wanted, part)?;
    Ok(text == wanted.as_slice())
}

/// Returns whether the arguments are these parts in brackets.
fn are_quoted(alloc: Global, args: &[Arg<'_>], parts: &[&[u8]]) -> Result<bool, AllocError>
    ensures { IfOk result (λ b.
        IsTrue b
        → map specs.text_of (map span args.now)
        ≡ map specs.quoted (map (λ p. p.now) parts.now)) }
{
    if args.len() != parts.len() {
        return Ok(false);
    }
    for i in 0..args.len() {
        if !is_quoted(alloc, args[i].text, parts[i])? {
            return Ok(false);
        }
    }
    Ok(true)
}

/// Returns whether the item is a call of this macro with these arguments in brackets.
fn is_call(alloc: Global, item: &Item<'_>, name: &[u8], parts: &[&[u8]]) -> Result<bool, AllocError>
    ensures { IfOk result (λ b.
        IsTrue b
        → specs.IsCallItem (view item.now) name.now
        (map specs.quoted (map (λ p. p.now) parts.now))) }
{
    match item {
        Item::Bare { .. } => Ok(false),
        Item::Call {
            name: found,
            args,
            ..
        } => {
            if *found != name {
                return Ok(false);
            }
            are_quoted(alloc, args.as_slice(), parts)
        }
    }
}

/// Returns whether the only item is a call of this macro with these arguments in brackets.
fn are_call(
    alloc: Global,
    items: &[Item<'_>],
    name: &[u8],
    parts: &[&[u8]],
) -> Result<bool, AllocError>
    ensures { IfOk result (λ b.
        IsTrue b
        → specs.AreCall (views items.now) name.now
        (map specs.quoted (map (λ p. p.now) parts.now))) }
{
    if items.len() != 1 {
        return Ok(false);
    }
    is_call(alloc, &items[0], name, parts)
}

/// Returns whether a text, read alone, is one call of this macro with these arguments in brackets.
fn is_one_call(alloc: Global, text: &[u8], name: &[u8], parts: &[&[u8]]) -> Result<bool, AllocError>
    ensures { IfOk result (λ b.
        IsTrue b
        → specs.IsOneCall text.now name.now (map specs.quoted (map (λ p. p.now) parts.now))) }
{
    match read_items(alloc, text) {
        Ok(items) => are_call(alloc, items.as_slice(), name, parts),
        Err(QuoteFault::OutOfMemory) => Err(AllocError),
        Err(_) => Ok(false),
    }
}

/// Returns a source with this statement alone.
#[tactic(auto, unfolding(crate::specs::Calls::source_with))]
pub fn source_with(alloc: Global, text: &[u8]) -> Result<Vec<u8>, AllocError>
    ensures { IfOk result (λ v. v.items ≡ specs.source_with text.now) }
{
    let mut out = Vec::from_slice(alloc, b"AC_INIT([a],[1])\n")?;
    out.extend_from_slice(text)?;
    out.extend_from_slice(b"\nAC_OUTPUT")?;
    Ok(out)
}

/// Returns whether acrun accepts a source with this statement alone.
pub fn is_accepted(alloc: Global, text: &[u8]) -> Result<bool, AllocError>
    ensures { IfOk result (λ b. IsTrue b → IsAccepted (specs.source_with text.now)) }
{
    let source = source_with(alloc, text)?;
    lint_errors::is_accepted(alloc, source.as_slice())
}

/// Returns whether at an offset a backslash is before a closing bracket.
fn is_escaped_end(text: &[u8], at: usize) -> bool
    requires { at ≤ length text.now }
    ensures { result ≡ false → slice_range text.now at (at + 2) ≡ 92 ∷ 93 ∷ [] → ⊥ }
{
    let rest = &text[at..];
    rest.len() >= 2 && &rest[..2] == b"\\]".as_slice()
}

/// Returns whether a backslash is before a closing bracket at some place of the text.
fn has_escaped_end(text: &[u8]) -> bool
    ensures { result ≡ false → specs.HasEscapedEnd text.now → ⊥ }
{
    for i in 0..text.len() {
        if is_escaped_end(text, i) {
            return true;
        }
    }
    false
}

/// Returns the call of a macro with these arguments, unless it is none, one of them ends in a
/// backslash, or acrun doesn't accept it.
pub fn accepted_call(
    alloc: Global,
    name: &[u8],
    parts: &[&[u8]],
) -> Result<Option<Vec<u8>>, AllocError>
    ensures { IfOk result (λ o.
        IfSome o (λ v. specs.IsPut name.now (map (λ p. p.now) parts.now) v.items)) }
{
    let text = call_text(alloc, name, parts)?;
    if has_escaped_end(text.as_slice()) {
        return Ok(None);
    }
    if is_one_call(alloc, text.as_slice(), name, parts)? && is_accepted(alloc, text.as_slice())? {
        Ok(Some(text))
    } else {
        Ok(None)
    }
}
