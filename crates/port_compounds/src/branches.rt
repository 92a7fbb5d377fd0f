//! The parts of an `if`.

ghost use Rattle.std.specs.Prelude.{◌≡◌, ◌≤◌, [], map, length, IfOk, IfSome, IsTrue};
ghost use Rattle.port_compounds.specs.Ifs as specs;

use port_parts::{
    IfBranch, IfCut, after_blanks, are_blank, condition_end, has_hash, is_blank_at, is_list_end,
    is_plain, is_statement, is_word, unclosed_body,
};
use std::alloc::{AllocError, Global};

/// Returns whether between two offsets, which are within two others, is a condition, apart from
/// what m4 finds in it.
fn is_condition(text: &[u8], start: usize, end: usize, from: usize, to: usize) -> bool
    ensures { IsTrue result
        → specs.IsConditionAt text.now start end from to × (end ≤ length text.now) }
{
    start < from
        && from <= to
        && to <= end
        && end <= text.len()
        && are_blank(&text[start..from])
        && is_list_end(text, to, end)
        && !has_hash(&text[from..to])
}

/// Returns the condition between two offsets, if there is one.
fn condition<'a>(
    alloc: Global,
    text: &'a [u8],
    start: usize,
    end: usize,
) -> Result<Option<&'a [u8]>, AllocError>
    ensures { IfOk result (λ o.
        IfSome o (λ c. specs.IsCondition text.now start end c.now × (end ≤ length text.now))) }
{
    let from = after_blanks(text, start);
    let to = condition_end(text, from, end);
    if !is_condition(text, start, end, from, to) {
        return Ok(None);
    }
    let found = &text[from..to];
    if is_plain(alloc, found)? {
        Ok(Some(found))
    } else {
        Ok(None)
    }
}

/// Returns the body between two offsets, which begins with a blank, if there is one.
fn body(text: &[u8], start: usize, end: usize) -> Option<&[u8]>
    ensures { IfSome result (λ b. specs.IsBody text.now start end b.now) }
{
    if !is_blank_at(text, start) {
        return None;
    }
    match unclosed_body(text, start, end) {
        Some(found) => Some(found),
        None => None,
    }
}

/// Appends the body between two offsets. Returns whether there is one.
fn push_body<'a>(
    text: &'a [u8],
    start: usize,
    end: usize,
    out: &mut Vec<&'a [u8]>,
) -> Result<bool, AllocError>
    ensures { IfOk result (λ b.
        IsTrue b
        → specs.AddsBody text.now start end (map (λ p. p.now) out.old.items)
        (map (λ p. p.now) out.new.items)) }
{
    let Some(found) = body(text, start, end) else {
        return Ok(false);
    };
    out.push(found)?;
    Ok(true)
}

/// Appends the condition and the body of a branch. Returns whether it has both.
fn push_branch<'a>(
    alloc: Global,
    text: &'a [u8],
    branch: IfBranch,
    out: &mut Vec<&'a [u8]>,
) -> Result<bool, AllocError>
    ensures { IfOk result (λ b.
        IsTrue b
        → specs.AddsBranch text.now branch.start branch.end (map (λ p. p.now) out.old.items)
        (map (λ p. p.now) out.new.items)) }
{
    let Some(test) = condition(alloc, text, branch.start, branch.at_then)? else {
        return Ok(false);
    };
    let after_then = branch.at_then.saturating_add(4);
    if !is_word(text, branch.at_then, b"then", after_then) {
        return Ok(false);
    }
    let Some(done) = body(text, after_then, branch.end) else {
        return Ok(false);
    };
    out.push(test)?;
    out.push(done)?;
    Ok(true)
}

/// Appends the parts of the first branch of an `if`. Returns whether it has them.
fn push_first<'a>(
    alloc: Global,
    text: &'a [u8],
    start: usize,
    branch: IfBranch,
    out: &mut Vec<&'a [u8]>,
) -> Result<bool, AllocError>
    requires { out.old.items ≡ [] }
    ensures { IfOk result (λ b.
        IsTrue b → specs.AreBranches text.now start branch.end (map (λ p. p.now) out.new.items)) }
{
    if !is_word(text, start, b"if", branch.start) {
        return Ok(false);
    }
    push_branch(alloc, text, branch, out)
}

/// Appends the parts of a further branch of an `if`. Returns whether it has them.
fn push_next<'a>(
    alloc: Global,
    text: &'a [u8],
    start: usize,
    at: usize,
    branch: IfBranch,
    out: &mut Vec<&'a [u8]>,
) -> Result<bool, AllocError>
    requires { specs.AreBranches text.now start at (map (λ p. p.now) out.old.items) }
    ensures { IfOk result (λ b.
        IsTrue b → specs.AreBranches text.now start branch.end (map (λ p. p.now) out.new.items)) }
{
    if !is_word(text, at, b"elif", branch.start) {
        return Ok(false);
    }
    push_branch(alloc, text, branch, out)
}

/// Appends the parts of the further branches of an `if`. Returns the offset after them.
fn push_more<'a>(
    alloc: Global,
    text: &'a [u8],
    start: usize,
    at: usize,
    more: &[IfBranch],
    out: &mut Vec<&'a [u8]>,
) -> Result<Option<usize>, AllocError>
    requires { specs.AreBranches text.now start at (map (λ p. p.now) out.old.items) }
    ensures { IfOk result (λ o.
        IfSome o (λ end. specs.AreBranches text.now start end (map (λ p. p.now) out.new.items))) }
{
    let mut end = at;
    for i in 0..more.len() {
        if !push_next(alloc, text, start, end, more[i], out)? {
            return Ok(None);
        }
        end = more[i].end;
    }
    Ok(Some(end))
}

/// Appends the parts of the branches of an `if`. Returns the offset after them.
fn push_branches<'a>(
    alloc: Global,
    text: &'a [u8],
    start: usize,
    branches: &[IfBranch],
    out: &mut Vec<&'a [u8]>,
) -> Result<Option<usize>, AllocError>
    requires { out.old.items ≡ [] }
    ensures { IfOk result (λ o.
        IfSome o (λ end. specs.AreBranches text.now start end (map (λ p. p.now) out.new.items))) }
{
    if branches.is_empty() || !push_first(alloc, text, start, branches[0], out)? {
        return Ok(None);
    }
    push_more(alloc, text, start, branches[0].end, &branches[1..], out)
}

/// Returns whether the offsets are the same.
fn is_same(at: usize, end: usize) -> bool
    ensures { IsTrue result → at ≡ end }
{
    at == end
}

/// Appends the body between `else`, which is at an offset, and `fi`. Returns whether there is one.
fn push_else<'a>(
    text: &'a [u8],
    start: usize,
    at: usize,
    at_fi: usize,
    out: &mut Vec<&'a [u8]>,
) -> Result<bool, AllocError>
    requires { specs.AreBranches text.now start at (map (λ p. p.now) out.old.items) }
    ensures { IfOk result (λ b.
        IsTrue b → specs.AreAllBranches text.now start at_fi (map (λ p. p.now) out.new.items)) }
{
    let after_else = at.saturating_add(4);
    if !is_word(text, at, b"else", after_else) {
        return Ok(false);
    }
    push_body(text, after_else, at_fi, out)
}

/// Appends the body after `else`, if an `if` has one. Returns whether its branches end before `fi`.
fn push_default<'a>(
    text: &'a [u8],
    start: usize,
    at: usize,
    cut: &IfCut,
    out: &mut Vec<&'a [u8]>,
) -> Result<bool, AllocError>
    requires { specs.AreBranches text.now start at (map (λ p. p.now) out.old.items) }
    ensures { IfOk result (λ b.
        IsTrue b
        → specs.AreAllBranches text.now start cut.now.at_fi (map (λ p. p.now) out.new.items)) }
{
    let Some(_at_else) = cut.at_else else {
        return Ok(is_same(at, cut.at_fi));
    };
    push_else(text, start, at, cut.at_fi, out)
}

/// Returns the parts of an `if`: each condition and its body, and the body after `else`. If the
/// offsets are not those of an `if` that is a statement of its own, returns `None`.
///
/// # Errors
///
/// Fails only if memory runs out.
pub fn if_parts<'a>(
    alloc: Global,
    text: &'a [u8],
    cut: &IfCut,
) -> Result<Option<Vec<&'a [u8]>>, AllocError>
    ensures { IfOk result (λ o.
        IfSome o (λ v. specs.IsIf text.now cut.now.start cut.now.end (map (λ p. p.now) v.items))) }
{
    if !is_statement(text, cut.start, b"fi", cut.at_fi, cut.end) {
        return Ok(None);
    }
    let mut out = Vec::new(alloc);
    let Some(at) = push_branches(alloc, text, cut.start, cut.branches.as_slice(), &mut out)? else {
        return Ok(None);
    };
    if push_default(text, cut.start, at, cut, &mut out)? {
        Ok(Some(out))
    } else {
        Ok(None)
    }
}
