//! The parts of a `case`.

ghost use Rattle.std.specs.Prelude.{◌≡◌, ◌≤◌, ◌<◌, ◌+◌, ◌++◌, ◌∷◌, [], ◌⊎◌, map, length, true, false, slice_index, slice_range, codes, IfOk, IfSome, IsTrue, OnOk};
ghost use Rattle.port_parts.specs.Parts.{IsBodyOf, IsNotEscaped};
ghost use Rattle.port_parts.specs.Places.{AreBlank, AreSpaces};
ghost use Rattle.port_compounds.specs.Cases as specs;

use port_parts::{
    CaseBranch, CaseCut, after_blanks, after_spaces, are_blank, are_spaces, before_blanks,
    before_spaces, ends_in_line, has_plain_end, is_after_backslash, is_blank_at, is_plain_line,
    is_statement, is_word, unclosed_body,
};
use std::alloc::{AllocError, Global};

// ---- the word

/// Returns whether there are blanks between the first two offsets and between the last two, in
/// order, and no backslash before the latter.
fn is_between_blanks(text: &[u8], start: usize, from: usize, to: usize, end: usize) -> bool
    ensures { IsTrue result
        → ((start < from) × (from ≤ to) × (to < end))
        × ((end ≤ length text.now)
        × (AreBlank text.now start from
        × (IsNotEscaped text.now to × AreBlank text.now to end))) }
{
    start < from
        && from <= to
        && to < end
        && end <= text.len()
        && are_blank(&text[start..from])
        && !is_after_backslash(text, to)
        && are_blank(&text[to..end])
}

/// Returns the word between two offsets, if there is one.
fn subject<'a>(
    alloc: Global,
    text: &'a [u8],
    start: usize,
    end: usize,
) -> Result<Option<&'a [u8]>, AllocError>
    ensures { IfOk result (λ o. IfSome o (λ w. specs.IsSubject text.now start end w.now)) }
{
    let from = after_blanks(text, start);
    let to = before_blanks(text, from, end);
    if !is_between_blanks(text, start, from, to, end) {
        return Ok(None);
    }
    let found = &text[from..to];
    if is_plain_line(alloc, found)? {
        Ok(Some(found))
    } else {
        Ok(None)
    }
}

/// Returns the word of a `case`, whose `in` is at an offset, if there is one.
fn head<'a>(
    alloc: Global,
    text: &'a [u8],
    start: usize,
    at_in: usize,
    end: usize,
) -> Result<Option<&'a [u8]>, AllocError>
    ensures { IfOk result (λ o. IfSome o (λ w. specs.IsHead text.now start end w.now)) }
{
    let after = start.saturating_add(4);
    if !is_word(text, start, b"case", after)
        || !is_word(text, at_in, b"in", end)
        || !is_blank_at(text, end)
    {
        return Ok(None);
    }
    subject(alloc, text, after, at_in)
}

// ---- the patterns of a branch

/// Returns whether an offset between two others is that of a parenthesis, with blanks before it and
/// spaces after it.
fn is_parenthesis(text: &[u8], start: usize, at: usize, end: usize) -> bool
    ensures { IsTrue result → specs.IsParenthesis text.now start end }
{
    start <= at
        && at < end
        && end <= text.len()
        && are_blank(&text[start..at])
        && text[at] == b'('
        && are_spaces(&text[at + 1..end])
}

/// Returns whether blanks are between two offsets, and a parenthesis may be among them.
fn is_before_patterns(text: &[u8], start: usize, end: usize) -> bool
    ensures { IsTrue result → AreBlank text.now start end ⊎ specs.IsParenthesis text.now start end }
{
    if start <= end && end <= text.len() && are_blank(&text[start..end]) {
        return true;
    }
    is_parenthesis(text, start, after_blanks(text, start), end)
}

/// Returns the offset of the first byte of patterns, which are after another offset.
fn patterns_start(text: &[u8], start: usize) -> usize {
    let at = after_blanks(text, start);
    if text.get(at) == Some(&b'(') {
        after_spaces(text, at.saturating_add(1))
    } else {
        at
    }
}

/// Returns whether patterns may be between two offsets, after another one, and before that of a
/// parenthesis.
fn is_place_of_patterns(text: &[u8], start: usize, from: usize, to: usize, end: usize) -> bool
    ensures { IsTrue result
        → ((start ≤ from) × (from ≤ to) × (to ≤ end))
        × ((end < length text.now)
        × ((AreBlank text.now start from ⊎ specs.IsParenthesis text.now start from)
        × (IsNotEscaped text.now to
        × (AreSpaces text.now to end × (slice_index text.now end ≡ 41))))) }
{
    start <= from
        && from <= to
        && to <= end
        && end < text.len()
        && is_before_patterns(text, start, from)
        && !is_after_backslash(text, to)
        && are_spaces(&text[to..end])
        && text[end] == b')'
}

/// Returns the patterns between an offset and that of a parenthesis, if there are any.
fn patterns<'a>(
    alloc: Global,
    text: &'a [u8],
    start: usize,
    end: usize,
) -> Result<Option<&'a [u8]>, AllocError>
    ensures { IfOk result (λ o. IfSome o (λ p. specs.ArePatterns text.now start end p.now)) }
{
    let from = patterns_start(text, start);
    let to = before_spaces(text, from, end);
    if !is_place_of_patterns(text, start, from, to, end) {
        return Ok(None);
    }
    let written = &text[from..to];
    if is_plain_line(alloc, written)? {
        Ok(Some(written))
    } else {
        Ok(None)
    }
}

// ---- the body of a branch

/// Returns whether spaces are after a body between two offsets, before a third one. Its last line
/// has neither a `#` nor `dnl`, and it doesn't end in a backslash.
fn ends_in_spaces(text: &[u8], from: usize, to: usize, end: usize) -> bool
    ensures { IsTrue result → specs.IsBeforeSpaces text.now from to end }
{
    from <= to
        && to <= end
        && end <= text.len()
        && are_spaces(&text[to..end])
        && has_plain_end(&text[from..to])
        && !is_after_backslash(text, to)
}

/// Returns whether a body before `;;` may be between two offsets, which are within two others.
fn is_body_before(text: &[u8], start: usize, from: usize, to: usize, end: usize) -> bool
    ensures { IsTrue result
        → (((start ≤ from) × (from ≤ to) × (to ≤ end)) × (end ≤ length text.now))
        × (AreSpaces text.now start from × specs.EndsBefore text.now from to end) }
{
    start <= from
        && from <= to
        && to <= end
        && end <= text.len()
        && are_spaces(&text[start..from])
        && (to == end && ends_in_line(text, from, to) || ends_in_spaces(text, from, to, end))
}

/// Returns the body before `;;` between two offsets, if there is one.
fn body_before(text: &[u8], start: usize, end: usize) -> Option<&[u8]>
    ensures { IfSome result (λ b. IsBodyOf specs.EndsBefore text.now start end b.now) }
{
    let from = after_spaces(text, start);
    let to = if ends_in_line(text, from, end) {
        end
    } else {
        before_spaces(text, from, end)
    };
    if is_body_before(text, start, from, to, end) {
        Some(&text[from..to])
    } else {
        None
    }
}

/// Returns the body between two offsets and `;;`, which is at the second one, if there is one.
fn closed_body(text: &[u8], start: usize, at: usize, end: usize) -> Option<&[u8]>
    ensures { IfSome result (λ b. specs.IsClosedBody text.now start end b.now) }
{
    if !is_word(text, at, b";;", end) {
        return None;
    }
    body_before(text, start, at)
}

/// Returns whether blanks alone are between two offsets.
fn are_blank_to(text: &[u8], start: usize, end: usize) -> bool
    ensures { IsTrue result → (start ≤ end) × AreBlank text.now start end }
{
    start <= end && end <= text.len() && are_blank(&text[start..end])
}

/// Returns the body of the last branch before `esac`, which is at offset `end`, if there is one. It
/// may have `;;` after it, at offset `at`.
fn last_body(text: &[u8], start: usize, at: usize, end: usize) -> Option<&[u8]>
    ensures { IfSome result (λ b. specs.IsLastBody text.now start end b.now) }
{
    let after = at.saturating_add(2);
    if are_blank_to(text, after, end) {
        closed_body(text, start, at, after)
    } else {
        unclosed_body(text, start, end)
    }
}

// ---- branches

/// Appends the patterns and the body of a branch. Returns whether it has both.
fn push_branch<'a>(
    alloc: Global,
    text: &'a [u8],
    start: usize,
    branch: CaseBranch,
    end: usize,
    out: &mut Vec<&'a [u8]>,
) -> Result<bool, AllocError>
    ensures { IfOk result (λ b.
        IsTrue b
        → specs.AddsBranch text.now start end (map (λ p. p.now) out.old.items)
        (map (λ p. p.now) out.new.items)) }
{
    let Some(found) = patterns(alloc, text, start, branch.at_close)? else {
        return Ok(false);
    };
    let Some(done) = closed_body(text, branch.at_close + 1, branch.end, end) else {
        return Ok(false);
    };
    out.push(found)?;
    out.push(done)?;
    Ok(true)
}

/// Returns whether the patterns are `*` alone.
fn is_star(patterns: &[u8]) -> bool
    ensures yes { result ≡ true → patterns.now ≡ codes "*" }
    ensures no { result ≡ false → patterns.now ≡ codes "*" → ⊥ }
{
    patterns == b"*".as_slice()
}

/// Appends the body of a last branch, after its patterns if these are not `*` alone.
fn push_found<'a>(
    patterns: &'a [u8],
    body: &'a [u8],
    out: &mut Vec<&'a [u8]>,
) -> Result<bool, AllocError>
    ensures { IfOk result (λ b.
        IsTrue b
        → specs.AreLastParts patterns.now body.now (map (λ p. p.now) out.old.items)
        (map (λ p. p.now) out.new.items)) }
{
    if is_star(patterns) {
        out.push(body)?;
        return Ok(true);
    }
    out.push(patterns)?;
    out.push(body)?;
    Ok(true)
}

/// Appends the parts of the last branch. Returns whether it has them.
fn push_last<'a>(
    alloc: Global,
    text: &'a [u8],
    start: usize,
    branch: CaseBranch,
    at_esac: usize,
    out: &mut Vec<&'a [u8]>,
) -> Result<bool, AllocError>
    ensures { IfOk result (λ b.
        IsTrue b
        → specs.AddsLast text.now start at_esac (map (λ p. p.now) out.old.items)
        (map (λ p. p.now) out.new.items)) }
{
    let Some(found) = patterns(alloc, text, start, branch.at_close)? else {
        return Ok(false);
    };
    let Some(done) = last_body(text, branch.at_close + 1, branch.end, at_esac) else {
        return Ok(false);
    };
    push_found(found, done, out)
}

/// Appends the parts of a further branch of a `case`. Returns whether it has them.
fn push_next<'a>(
    alloc: Global,
    text: &'a [u8],
    start: usize,
    at: usize,
    branch: CaseBranch,
    end: usize,
    out: &mut Vec<&'a [u8]>,
) -> Result<bool, AllocError>
    requires { specs.AreBranches text.now start at (map (λ p. p.now) out.old.items) }
    ensures { IfOk result (λ b.
        IsTrue b → specs.AreBranches text.now start end (map (λ p. p.now) out.new.items)) }
{
    push_branch(alloc, text, at, branch, end, out)
}

/// Appends the parts of branches of a `case`. Returns the offset after them.
fn push_more<'a>(
    alloc: Global,
    text: &'a [u8],
    start: usize,
    at: usize,
    branches: &[CaseBranch],
    out: &mut Vec<&'a [u8]>,
) -> Result<Option<usize>, AllocError>
    requires { specs.AreBranches text.now start at (map (λ p. p.now) out.old.items) }
    ensures { IfOk result (λ o.
        IfSome o (λ end. specs.AreBranches text.now start end (map (λ p. p.now) out.new.items))) }
{
    let mut end = at;
    for i in 0..branches.len() {
        let after = branches[i].end.saturating_add(2);
        if !push_next(alloc, text, start, end, branches[i], after, out)? {
            return Ok(None);
        }
        end = after;
    }
    Ok(Some(end))
}

/// Appends the word of a `case`. Returns the offset after `in`.
fn push_head<'a>(
    alloc: Global,
    text: &'a [u8],
    start: usize,
    at_in: usize,
    out: &mut Vec<&'a [u8]>,
) -> Result<Option<usize>, AllocError>
    requires { out.old.items ≡ [] }
    ensures { IfOk result (λ o.
        IfSome o (λ end. specs.AreBranches text.now start end (map (λ p. p.now) out.new.items))) }
{
    let end = at_in.saturating_add(2);
    let Some(word) = head(alloc, text, start, at_in, end)? else {
        return Ok(None);
    };
    out.push(word)?;
    Ok(Some(end))
}

/// Appends the parts of the branches of a `case` that begin at an offset. Returns whether it has
/// them.
fn push_branches<'a>(
    alloc: Global,
    text: &'a [u8],
    cut: &CaseCut,
    at: usize,
    out: &mut Vec<&'a [u8]>,
) -> Result<bool, AllocError>
    requires { specs.AreBranches text.now cut.now.start at (map (λ p. p.now) out.old.items) }
    ensures { IfOk result (λ b.
        IsTrue b
        → specs.AreAllBranches text.now cut.now.start cut.now.at_esac
        (map (λ p. p.now) out.new.items)) }
{
    let count = cut.branches.len();
    if count == 0 {
        return Ok(false);
    }
    let branches = &cut.branches.as_slice()[..count - 1];
    match push_more(alloc, text, cut.start, at, branches, out)? {
        Some(end) => {
            let last = cut.branches[count - 1];
            push_last(alloc, text, end, last, cut.at_esac, out)
        }
        None => Ok(false),
    }
}

/// Returns the parts of a `case`: its word, the patterns and the body of each branch, and the body
/// of a last branch whose pattern is `*`. If the offsets are not those of a `case` that is a
/// statement of its own, or if a comment is before a pattern, returns `None`.
///
/// # Errors
///
/// Fails only if memory runs out.
pub fn case_parts<'a>(
    alloc: Global,
    text: &'a [u8],
    cut: &CaseCut,
) -> Result<Option<Vec<&'a [u8]>>, AllocError>
    ensures { IfOk result (λ o.
        IfSome o (λ v.
        specs.IsCase text.now cut.now.start cut.now.end (map (λ p. p.now) v.items))) }
{
    if !is_statement(text, cut.start, b"esac", cut.at_esac, cut.end) {
        return Ok(None);
    }
    let mut out = Vec::new(alloc);
    let Some(at) = push_head(alloc, text, cut.start, cut.at_in, &mut out)? else {
        return Ok(None);
    };
    if push_branches(alloc, text, cut, at, &mut out)? {
        Ok(Some(out))
    } else {
        Ok(None)
    }
}
