//! The matcher: it goes over a pattern once, and never back.

ghost use Rattle.std.specs.Prelude.{◌≡◌, ℕ, ◌≤◌, List, [], take, length, reverse, MatchOption, MatchBool, IsTrue, IfOk, IfSome};
ghost use Rattle.port_match.specs.declared.pattern.Bound.{Bound};
ghost use Rattle.port_match.specs.Matcher as specs;
ghost use Rattle.port_match.specs.Matches.{IsMatch, is_gap, is_gap_kind, is_named};

use crate::pattern::{Bound, Pat, Piece};
use ac_parts::{Kind, Part};
use std::alloc::{AllocError, Global};

/// Returns whether parts of a kind are blanks, a newline or a `;`.
fn is_gap_kind(kind: Kind) -> bool
    ensures { result ≡ is_gap_kind kind }
{
    matches!(
        kind,
        Kind::Blank | Kind::Newline | Kind::Gap | Kind::Semicolon
    )
}

/// Returns whether a part is blanks, a newline or a `;`.
#[tactic(auto, unfolding(crate::specs::Matches::is_gap))]
fn is_gap(part: Part) -> bool
    ensures { result ≡ is_gap part }
{
    part.within == 0 && is_gap_kind(part.kind)
}

/// Returns whether a part is a leaf with this text.
#[tactic(auto, unfolding(crate::specs::Matches::is_named))]
fn is_named(text: &[u8], word: &[u8], part: Part) -> bool
    ensures { result ≡ is_named text.now word.now part }
{
    part.within == 0
        && part.start <= part.end
        && part.end <= text.len()
        && &text[part.start..part.end] == word
}

/// Returns whether a part is of a kind, and as many parts are left as are within it.
#[tactic(auto, unfolding(crate::specs::Matcher::is_whole))]
fn is_whole(kind: Kind, part: Part, rest: &[Part]) -> bool
    ensures value { result ≡ specs.is_whole kind part rest.now }
    ensures fits { IsTrue result → part.within ≤ length rest.now }
{
    part.kind.is(kind) && part.within <= rest.len()
}

/// What is open, and what the slots have.
#[derive(Drop)]
struct Matcher {
    /// How many parts are left at the end of each part that is open, the innermost last.
    ends: Vec<usize>,
    /// What the slots have.
    bounds: Vec<Bound>,
}

impl Matcher {
    /// Takes a part of a kind for a slot. Returns the parts after it.
    fn one<'p>(
        &mut self,
        kind: Kind,
        slot: usize,
        left: &'p [Part],
    ) -> Result<Option<&'p [Part]>, AllocError>
        ensures { IfOk result (λ o.
            let step = specs.one_step kind slot left.now
            (specs.at_of left.now self.old.ends.items self.old.bounds.items) in
            MatchOption o (step ≡ None)
            (λ rest. step ≡ Some (specs.at_of rest.now self.new.ends.items self.new.bounds.items))) }
    {
        let [part, rest @ ..] = left else {
            return Ok(None);
        };
        if !is_whole(kind, *part, rest) {
            return Ok(None);
        }
        self.bounds.push(Bound { slot, part: *part })?;
        Ok(Some(&rest[part.within..]))
    }

    /// Goes into a part of a kind.
    fn enter<'p>(&mut self, kind: Kind, left: &'p [Part]) -> Result<Option<&'p [Part]>, AllocError>
        ensures { IfOk result (λ o.
            let step = specs.open_step kind left.now
            (specs.at_of left.now self.old.ends.items self.old.bounds.items) in
            MatchOption o (step ≡ None)
            (λ rest. step ≡ Some (specs.at_of rest.now self.new.ends.items self.new.bounds.items))) }
    {
        let [part, rest @ ..] = left else {
            return Ok(None);
        };
        if !is_whole(kind, *part, rest) {
            return Ok(None);
        }
        self.ends.push(rest.len() - part.within)?;
        Ok(Some(rest))
    }

    /// Leaves the innermost part, if it ends here.
    fn leave(&mut self, left: &[Part]) -> bool
        ensures { let step = specs.close_step (reverse self.old.ends.items)
            (specs.at_of left.now self.old.ends.items self.old.bounds.items) in
            MatchBool result
            (step ≡ Some (specs.at_of left.now self.new.ends.items self.new.bounds.items))
            (step ≡ None) }
    {
        match self.ends.pop() {
            None => false,
            Some(end) => left.len() == end,
        }
    }

    /// Takes the parts of these pieces, one after the other. Returns the parts after them.
    fn take<'p>(
        &mut self,
        pieces: &[Piece],
        parts: &'p [Part],
    ) -> Result<Option<&'p [Part]>, AllocError>
        ensures { IfOk result (λ o.
            let to = specs.pieces_to pieces.now
            (specs.at_of parts.now self.old.ends.items self.old.bounds.items) in
            MatchOption o (to ≡ None)
            (λ rest. to ≡ Some (specs.at_of rest.now self.new.ends.items self.new.bounds.items))) }
    {
        let mut left = parts;
        for piece in pieces {
            let Some(rest) = self.one(piece.0, piece.1, left)? else {
                return Ok(None);
            };
            left = rest;
        }
        Ok(Some(left))
    }

    /// Goes over these pieces again and again. Returns the parts after them.
    fn many<'p>(
        &mut self,
        pieces: &[Piece],
        parts: &'p [Part],
    ) -> Result<Option<&'p [Part]>, AllocError>
        ensures { IfOk result (λ o.
            let to = specs.rounds parts.now pieces.now
            (specs.at_of parts.now self.old.ends.items self.old.bounds.items) in
            MatchOption o (to ≡ None)
            (λ rest. to ≡ Some (specs.at_of rest.now self.new.ends.items self.new.bounds.items))) }
    {
        let mut left = parts;
        for turn in parts {
            let _ = turn;
            if !are_next(pieces, left) {
                return Ok(Some(left));
            }
            let taken = self.take(pieces, left)?;
            match taken {
                None => return Ok(None),
                Some(rest) => left = rest,
            }
        }
        Ok(Some(left))
    }

    /// Makes a step.
    fn step<'p>(
        &mut self,
        text: &[u8],
        pat: Pat,
        left: &'p [Part],
    ) -> Result<Option<&'p [Part]>, AllocError>
        ensures { IfOk result (λ o.
            let step = specs.stepped text.now pat
            (specs.at_of left.now self.old.ends.items self.old.bounds.items) in
            MatchOption o (step ≡ None)
            (λ rest. step ≡ Some (specs.at_of rest.now self.new.ends.items self.new.bounds.items))) }
    {
        match pat {
            Pat::One(kind, slot) => self.one(kind, slot, left),
            Pat::Open(kind) => self.enter(kind, left),
            Pat::Close => {
                if self.leave(left) {
                    Ok(Some(left))
                } else {
                    Ok(None)
                }
            }
            Pat::Named(word) => Ok(after_named(text, word, left)),
            Pat::Many(pieces) => self.many(pieces, left),
            Pat::Gaps => Ok(Some(after_gaps(left))),
        }
    }

    /// Goes over a pattern. Returns the parts after those that match it.
    fn matched<'p>(
        &mut self,
        text: &[u8],
        pats: &[Pat],
        parts: &'p [Part],
    ) -> Result<Option<&'p [Part]>, AllocError>
        ensures { IfOk result (λ o.
            let to = specs.matched text.now pats.now
            (specs.at_of parts.now self.old.ends.items self.old.bounds.items) in
            MatchOption o (to ≡ None)
            (λ rest. to ≡ Some (specs.at_of rest.now self.new.ends.items self.new.bounds.items))) }
    {
        let mut left = parts;
        for pat in pats {
            let Some(rest) = self.step(text, *pat, left)? else {
                return Ok(None);
            };
            left = rest;
        }
        Ok(Some(left))
    }
}

/// Returns the parts after a leaf that is this text.
fn after_named<'p>(text: &[u8], word: &[u8], left: &'p [Part]) -> Option<&'p [Part]>
    ensures { (ends : List ℕ) → (bounds : List Bound) →
        (let step = specs.named_step text.now word.now left.now (specs.at_of left.now ends bounds) in
        MatchOption result (step ≡ None) (λ rest. step ≡ Some (specs.at_of rest.now ends bounds))) }
{
    let [part, rest @ ..] = left else {
        return None;
    };
    if is_named(text, word, *part) {
        Some(rest)
    } else {
        None
    }
}

/// Returns the parts after a piece, if they begin with it.
fn after_piece(piece: Piece, parts: &[Part]) -> Option<&[Part]>
    ensures { MatchOption result (specs.piece_after piece parts.now ≡ None)
        (λ rest. specs.piece_after piece parts.now ≡ Some rest.now) }
{
    let [part, rest @ ..] = parts else {
        return None;
    };
    if is_whole(piece.0, *part, rest) {
        Some(&rest[part.within..])
    } else {
        None
    }
}

/// Returns whether parts begin with these pieces, one after the other.
fn are_next(pieces: &[Piece], parts: &[Part]) -> bool
    ensures { result ≡ specs.are_next pieces.now parts.now }
{
    let mut left = parts;
    for piece in pieces {
        let Some(rest) = after_piece(*piece, left) else {
            return false;
        };
        left = rest;
    }
    true
}

/// Returns the parts after blanks and newlines.
fn after_gaps(left: &[Part]) -> &[Part]
    ensures { result.now ≡ specs.after_gaps left.now }
{
    for i in 0..left.len() {
        if !is_gap(left[i]) {
            return &left[i..];
        }
    }
    &left[left.len()..]
}

/// What matches a pattern.
#[derive(Drop)]
pub struct Match {
    /// What the slots have.
    pub bounds: Vec<Bound>,
    /// How many parts match it.
    pub count: usize,
}

/// Returns whether no part is open.
#[tactic(auto, using(crate::proofs::Laws::nil_of))]
fn is_outside(ends: &[usize]) -> bool
    ensures { IsTrue result → ends.now ≡ [] }
{
    ends.is_empty()
}

/// Finds the parts that match a pattern, from the first of these on.
///
/// # Errors
///
/// Fails only if memory runs out.
#[tactic(auto, using(crate::proofs::Laws::match_found))]
pub fn match_at(
    alloc: Global,
    text: &[u8],
    pats: &[Pat],
    parts: &[Part],
) -> Result<Option<Match>, AllocError>
    ensures { IfOk result (λ o. IfSome o (λ f.
        (f.count ≤ length parts.now)
        × IsMatch text.now pats.now (take f.count parts.now) f.bounds.items)) }
{
    let mut matcher = Matcher {
        ends: Vec::new(alloc),
        bounds: Vec::new(alloc),
    };
    let Some(rest) = matcher.matched(text, pats, parts)? else {
        return Ok(None);
    };
    if !is_outside(&matcher.ends) {
        return Ok(None);
    }
    Ok(Some(Match {
        bounds: matcher.bounds,
        count: parts.len().saturating_sub(rest.len()),
    }))
}
