//! The walk over a list of parts.

ghost use Rattle.std.specs.Prelude.{◌≡◌, ◌↔◌, reverse, IfOk, IsTrue};
ghost use Rattle.ac_parts.specs.Walks as specs;
ghost use Rattle.ac_parts.specs.Trees.{IsTree};

use crate::kind::{Kind, Part};
use crate::leaves::is_leaf_text;
use crate::shapes::{may_end, next_state};
use std::alloc::{AllocError, Global};

/// A part that is open.
#[derive(Clone, Copy)]
pub(crate) struct Frame {
    /// What it is.
    kind: Kind,
    /// After which parts within it the next one is.
    state: u8,
    /// The offset after it.
    end: usize,
    /// How many parts within it are left.
    left: usize,
}

/// A place in a list.
#[derive(Drop)]
pub(crate) struct Walk {
    /// The innermost part that is open.
    top: Frame,
    /// Those around it, the innermost last.
    below: Vec<Frame>,
    /// The offset.
    at: usize,
}

/// Returns the part that is open, after a part within it, if that may follow.
#[tactic(auto, unfolding(crate::specs::Walks::followed))]
fn followed(frame: Frame, part: Part) -> Option<Frame>
    ensures { result ≡ specs.followed frame part }
{
    if part.within >= frame.left {
        return None;
    }
    let state = next_state(frame.kind, frame.state, part.kind)?;
    Some(Frame {
        kind: frame.kind,
        state,
        end: frame.end,
        left: frame.left - part.within - 1,
    })
}

/// Returns whether a leaf is one of a text.
#[tactic(auto, unfolding(crate::specs::Walks::is_leaf_of))]
fn is_leaf_of(text: &[u8], part: Part) -> bool
    ensures { result ≡ specs.is_leaf_of text.now part }
{
    part.within == 0
        && part.start < part.end
        && part.end <= text.len()
        && is_leaf_text(part.kind, &text[part.start..part.end])
}

/// Returns whether an open part may end at an offset.
#[tactic(auto, unfolding(crate::specs::Walks::ends_at))]
fn ends_at(frame: Frame, at: usize) -> bool
    ensures { result ≡ specs.ends_at frame at }
{
    frame.end == at && may_end(frame.kind, frame.state)
}

/// Returns a part as one that is open, of which nothing was seen yet.
fn opened(part: Part) -> Frame
    ensures { result ≡ specs.opened part }
{
    Frame {
        kind: part.kind,
        state: 0,
        end: part.end,
        left: part.within,
    }
}

impl Walk {
    /// Ends the parts in which nothing is left. Returns whether each may end here.
    fn close_ended(&mut self) -> bool
        ensures { specs.Leads result (specs.closed self.old.top (reverse self.old.below.items) self.old.at)
            (specs.place_of self.new) }
    {
        while self.top.left == 0 {
            let Some(next) = self.below.pop() else {
                return true;
            };
            if !ends_at(self.top, self.at) {
                return false;
            }
            self.top = next;
        }
        true
    }

    /// Goes into a part that follows.
    fn enter(&mut self, text: &[u8], part: Part, next: Frame) -> Result<bool, AllocError>
        ensures { IfOk result (λ b.
            specs.Leads b
            (specs.within text.now part (reverse self.old.below.items) (Some next))
            (specs.place_of self.new)) }
    {
        if part.kind.is_leaf() {
            self.top = next;
            self.at = part.end;
            return Ok(is_leaf_of(text, part));
        }
        self.below.push(next)?;
        self.top = opened(part);
        self.at = part.start;
        Ok(true)
    }

    /// Goes over a part where those that end before it have ended.
    fn pass(&mut self, text: &[u8], part: Part) -> Result<bool, AllocError>
        ensures { IfOk result (λ b.
            specs.Leads b
            (specs.passed text.now part (Some (specs.place_of self.old)))
            (specs.place_of self.new)) }
    {
        if part.start != self.at {
            return Ok(false);
        }
        match followed(self.top, part) {
            None => Ok(false),
            Some(next) => self.enter(text, part, next),
        }
    }

    /// Goes over the next part.
    fn turn(&mut self, text: &[u8], part: Part) -> Result<bool, AllocError>
        ensures { IfOk result (λ b.
            specs.Leads b (specs.turned text.now part (specs.place_of self.old))
            (specs.place_of self.new)) }
    {
        if self.close_ended() {
            self.pass(text, part)
        } else {
            Ok(false)
        }
    }

    /// Returns whether nothing is left in the outermost part, and it may end.
    fn is_last(&mut self) -> bool
        ensures { let place = specs.place_of self.old in
            result ≡ specs.is_last (specs.closed place.top place.below place.at) }
    {
        self.close_ended()
            && self.below.is_empty()
            && self.top.left == 0
            && ends_at(self.top, self.at)
    }

    /// Goes over the parts that are left. Returns whether they end what is open.
    fn goes(&mut self, text: &[u8], parts: &[Part]) -> Result<bool, AllocError>
        ensures { IfOk result (λ b. b ≡ specs.goes text.now parts.now (specs.place_of self.old)) }
    {
        for part in parts {
            if !self.turn(text, *part)? {
                return Ok(false);
            }
        }
        Ok(self.is_last())
    }
}

/// Returns whether a walk over all parts goes to the end of a text.
fn goes(alloc: Global, text: &[u8], parts: &[Part]) -> Result<bool, AllocError>
    ensures { IfOk result (λ b. b ≡ specs.goes text.now parts.now (specs.first text.now parts.now)) }
{
    let mut walk = Walk {
        top: Frame {
            kind: Kind::Source,
            state: 0,
            end: text.len(),
            left: parts.len(),
        },
        below: Vec::new(alloc),
        at: 0,
    };
    walk.goes(text, parts)
}

/// Returns whether parts are a tree of a text. It goes over the list once.
///
/// # Errors
///
/// Fails only if memory runs out.
#[tactic(auto, using(crate::proofs::Laws::walk_is_tree))]
pub fn is_tree(alloc: Global, text: &[u8], parts: &[Part]) -> Result<bool, AllocError>
    ensures { IfOk result (λ b. IsTrue b ↔ IsTree text.now parts.now) }
{
    let goes = goes(alloc, text, parts)?;
    Ok(goes)
}
