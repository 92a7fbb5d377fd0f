//! Why some children were refused.

ghost use Rattle.std.specs.Prelude.{◌≡◌, ◌≤◌, [], length, option_map, IfOk, IfSome};
ghost use Rattle.crew_refusals.specs.Shown.{IsShown};
ghost use Rattle.crew_refusals.specs.Known.{cause_of, with_cause};

use crate::cause::Cause;
use std::alloc::{AllocError, Global};
use std::marker::Model;

/// The most causes that a list has.
const MOST: usize = 16;

/// The causes of the first children that were refused, at most 16, each with the number of its
/// child.
pub struct CauseList {
    entries: Vec<(u64, Cause)>,
}

impl Drop for CauseList {
    fn drop(self) {
        let CauseList { entries: _entries } = self;
    }
}

impl Model for CauseList {
    ghost use Rattle.std.specs.Prelude.{ℕ, List, Option, length, vec_capacity, ◌≤◌};

    ghost Value = { List (ℕ × Option (List ℕ)) };

    ghost view = { λ c. c.entries.items };

    ghost invariant = { λ c. (length c.entries.items ≤ 16) × (16 ≤ vec_capacity c.entries) };
}

/// Returns the first line of a child.
fn line_at(entries: &[(u64, Cause)], child: u64) -> Option<&[u8]>
    ensures cause { option_map (λ line. line.now) result ≡ cause_of child entries.now }
    ensures shown { IfSome result (λ line. IsShown line.now) }
{
    for entry in entries {
        if entry.0 == child {
            return entry.1.line();
        }
    }
    None
}

impl CauseList {
    /// Returns a list of no cause, with room for all that it may have.
    ///
    /// # Errors
    ///
    /// Fails only if memory runs out.
    pub fn new(alloc: Global) -> Result<CauseList, AllocError>
        ensures { IfOk result (λ list. list ≡ []) }
    {
        let entries = Vec::with_capacity(alloc, MOST)?;
        Ok(CauseList { entries })
    }

    /// Appends the cause of a child, unless the list has 16 already.
    #[tactic(auto, unfolding(crate::specs::Known::with_cause))]
    pub fn put(&mut self, child: u64, cause: Cause)
        ensures put { self.new ≡ with_cause self.old child cause }
        ensures most { length self.new ≤ 16 }
    {
        if self.entries.len() < MOST {
            let pushed = self.entries.push((child, cause));
            pushed.unwrap();
        }
    }

    /// Returns the first cause of a child, or `None` if the list has none.
    pub fn cause(&self, child: u64) -> Option<&[u8]>
        ensures cause { option_map (λ line. line.now) result ≡ cause_of child self.now }
        ensures shown { IfSome result (λ line. IsShown line.now) }
    {
        line_at(self.entries.as_slice(), child)
    }
}
