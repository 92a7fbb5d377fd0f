//! The parts of an `if` as they are put into a call.

ghost use Rattle.std.specs.Prelude.{◌≡◌, ◌++◌, ◌∷◌, ℕ, List, [], true, not, map, codes, IfOk, IfSome, IsTrue, OnOk};
ghost use Rattle.port_joints.specs.Joints.{IsRejoined};
ghost use Rattle.port_joints.specs.Joints as specs;

use crate::joints::rejoined;
use deftable::Bytes;
use std::alloc::{AllocError, Global};

/// Returns what a condition becomes, in which each `-a` was written as `&&`.
#[tactic(auto, using(crate::proofs::Becoming::and_put))]
fn and_text(condition: &[u8], put: Vec<u8>) -> Bytes
    requires { IsRejoined (codes "-a") (codes "&&") condition.now put.items }
    ensures { specs.Becomes condition.now result }
{
    let _ = condition;
    Bytes::from_vec(put)
}

/// Returns what a condition becomes, in which each `-o` was written as `||`.
#[tactic(auto, using(crate::proofs::Becoming::or_put))]
fn or_text(condition: &[u8], put: Vec<u8>) -> Bytes
    requires { IsRejoined (codes "-o") (codes "||") condition.now put.items }
    ensures { specs.Becomes condition.now result }
{
    let _ = condition;
    Bytes::from_vec(put)
}

/// Returns a condition that stays.
fn same_text(alloc: Global, condition: &[u8]) -> Result<Bytes, AllocError>
    ensures { IfOk result (λ t. specs.Becomes condition.now t) }
{
    let text = Bytes::from_slice(alloc, condition)?;
    Ok(text)
}

/// Returns what a condition becomes, which has no `-a`.
fn without_and(alloc: Global, condition: &[u8]) -> Result<Bytes, AllocError>
    ensures { IfOk result (λ t. specs.Becomes condition.now t) }
{
    match rejoined(alloc, condition, b"-o", b"||")? {
        Some(put) => Ok(or_text(condition, put)),
        None => same_text(alloc, condition),
    }
}

/// Returns what a condition becomes.
pub(crate) fn condition_text(alloc: Global, condition: &[u8]) -> Result<Bytes, AllocError>
    ensures { IfOk result (λ t. specs.Becomes condition.now t) }
{
    match rejoined(alloc, condition, b"-a", b"&&")? {
        Some(put) => Ok(and_text(condition, put)),
        None => without_and(alloc, condition),
    }
}

/// Returns what a condition becomes, unless it stays: in it `-a` and `-o` of `test` become `&&` and
/// `||` if that means the same.
///
/// # Errors
///
/// Fails only if memory runs out.
pub fn joined_condition(alloc: Global, condition: &[u8]) -> Result<Option<Bytes>, AllocError>
    ensures { IfOk result (λ o. IfSome o (λ t. specs.Becomes condition.now t)) }
{
    let text = condition_text(alloc, condition)?;
    if text.as_slice() == condition {
        Ok(None)
    } else {
        Ok(Some(text))
    }
}

/// Returns what a part becomes, which may be a condition.
#[tactic(auto, using(crate::proofs::Becoming::condition_if, crate::proofs::Becoming::body_if))]
fn part_text(alloc: Global, part: &[u8], is_condition: bool) -> Result<Bytes, AllocError>
    ensures { IfOk result (λ t. specs.BecomesIf is_condition part.now t) }
{
    if is_condition {
        condition_text(alloc, part)
    } else {
        Bytes::from_slice(alloc, part)
    }
}

/// Appends what a part becomes, which may be a condition.
fn push_part(
    alloc: Global,
    part: &[u8],
    is_condition: bool,
    out: &mut Vec<Bytes>,
) -> Result<(), AllocError>
    ensures { OnOk result (
        (parts : List (List ℕ)) → specs.HaveBecome is_condition parts out.old.items
        → specs.HaveBecome (not is_condition) (parts ++ part.now ∷ []) out.new.items) }
{
    let text = part_text(alloc, part, is_condition)?;
    out.push(text)?;
    Ok(())
}

/// Appends what the parts become. Returns whether a condition would be next.
#[tactic(auto, using(crate::proofs::Becoming::more_parts))]
fn push_parts(alloc: Global, parts: &[&[u8]], out: &mut Vec<Bytes>) -> Result<bool, AllocError>
    requires { out.old.items ≡ [] }
    ensures { IfOk result (λ b. specs.HaveBecome b (map (λ p. p.now) parts.now) out.new.items) }
{
    let mut is_condition = true;
    for part in parts {
        push_part(alloc, part, is_condition, out)?;
        is_condition = !is_condition;
    }
    Ok(is_condition)
}

/// Appends a last part that is no condition.
fn push_default(alloc: Global, part: &[u8], out: &mut Vec<Bytes>) -> Result<bool, AllocError>
    ensures { IfOk result (λ b.
        IsTrue b → (parts : List (List ℕ)) → specs.HaveBecome true parts out.old.items
        → specs.AllBecome (parts ++ part.now ∷ []) out.new.items) }
{
    let text = Bytes::from_slice(alloc, part)?;
    out.push(text)?;
    Ok(true)
}

/// Appends what the parts before the last one become, and the last one.
fn push_all(
    alloc: Global,
    parts: &[&[u8]],
    front: &[&[u8]],
    last: &[u8],
    out: &mut Vec<Bytes>,
) -> Result<bool, AllocError>
    requires split { map (λ p. p.now) parts.now ≡ map (λ p. p.now) front.now ++ last.now ∷ [] }
    requires empty { out.old.items ≡ [] }
    ensures { IfOk result (λ b.
        IsTrue b → specs.AllBecome (map (λ p. p.now) parts.now) out.new.items) }
{
    let _ = parts;
    if push_parts(alloc, front, out)? {
        push_default(alloc, last, out)
    } else {
        Ok(false)
    }
}

/// Appends what conditions and bodies and a last part become. Returns whether this was done.
#[tactic(auto, using(crate::proofs::Becoming::split_views))]
fn push_odd(alloc: Global, parts: &[&[u8]], out: &mut Vec<Bytes>) -> Result<bool, AllocError>
    requires { out.old.items ≡ [] }
    ensures { IfOk result (λ b.
        IsTrue b → specs.AllBecome (map (λ p. p.now) parts.now) out.new.items) }
{
    match parts.split_last() {
        Some((last, front)) => push_all(alloc, parts, front, last, out),
        None => Ok(false),
    }
}

/// Appends what conditions and bodies become. Returns whether this was done.
fn push_even(alloc: Global, parts: &[&[u8]], out: &mut Vec<Bytes>) -> Result<bool, AllocError>
    requires { out.old.items ≡ [] }
    ensures { IfOk result (λ b.
        IsTrue b → specs.AllBecome (map (λ p. p.now) parts.now) out.new.items) }
{
    push_parts(alloc, parts, out)
}

/// Appends what the parts become. Returns whether this was done.
fn push_texts(alloc: Global, parts: &[&[u8]], out: &mut Vec<Bytes>) -> Result<bool, AllocError>
    requires { out.old.items ≡ [] }
    ensures { IfOk result (λ b.
        IsTrue b → specs.AllBecome (map (λ p. p.now) parts.now) out.new.items) }
{
    if parts.len() % 2 == 0 {
        push_even(alloc, parts, out)
    } else {
        push_odd(alloc, parts, out)
    }
}

/// Returns the parts of an `if`, or of a statement that a condition guards, as they are put into a
/// call. In each condition `-a` and `-o` of `test` become `&&` and `||` if that means the same: all
/// joints of the condition are of one kind, and none is negated.
///
/// # Errors
///
/// Fails only if memory runs out.
pub fn joined_texts(alloc: Global, parts: &[&[u8]]) -> Result<Option<Vec<Bytes>>, AllocError>
    ensures { IfOk result (λ o.
        IfSome o (λ v. specs.AllBecome (map (λ p. p.now) parts.now) v.items)) }
{
    let mut out = Vec::new(alloc);
    if push_texts(alloc, parts, &mut out)? {
        Ok(Some(out))
    } else {
        Ok(None)
    }
}

/// Returns the texts as slices.
///
/// # Errors
///
/// Fails only if memory runs out.
pub fn slices<'a>(alloc: Global, texts: &'a [Bytes]) -> Result<Vec<&'a [u8]>, AllocError>
    ensures { IfOk result (λ v. map (λ p. p.now) v.items ≡ texts.now) }
{
    let mut out = Vec::new(alloc);
    for text in texts {
        out.push(text.as_slice())?;
    }
    Ok(out)
}
