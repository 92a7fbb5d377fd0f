//! What a rule puts at a place.

ghost use Rattle.std.specs.Prelude.{◌≡◌, IfOk, IfSome};
ghost use Rattle.port_rules.specs.Edits as specs;
ghost use Rattle.port_rules.specs.Edits.{IsEdit};

use crate::fill::{filled, slot_text};
use crate::rule::{Cond, Rule};
use ac_parts::Part;
use port_match::{Bound, match_at};
use std::alloc::{AllocError, Global};

/// What is put in the place of some parts.
#[derive(Drop)]
pub struct Edit {
    /// How many of the parts, from the first on.
    pub count: usize,
    /// What the slots of the rule have.
    pub bounds: Vec<Bound>,
    /// The text.
    pub put: Vec<u8>,
}

/// Returns whether a text is a `$` and another one.
fn shows(text: &[u8], shown: &[u8]) -> bool
    ensures { result ≡ specs.shows text.now shown.now }
{
    match text {
        [first, rest @ ..] => *first == b'$' && rest == shown,
        [] => false,
    }
}

/// Returns whether a condition holds.
fn holds(text: &[u8], bounds: &[Bound], cond: Cond) -> bool
    ensures { result ≡ specs.holds text.now bounds.now cond }
{
    match cond {
        Cond::Same(one, other) => slot_text(text, bounds, one, 0)
            == slot_text(text, bounds, other, 0),
        Cond::Shows(one, other) => {
            shows(
                slot_text(text, bounds, one, 0),
                slot_text(text, bounds, other, 0),
            )
        }
    }
}

/// Returns whether all conditions hold.
fn all_hold(text: &[u8], bounds: &[Bound], conds: &[Cond]) -> bool
    ensures { result ≡ specs.all_hold text.now bounds.now conds.now }
{
    for cond in conds {
        if !holds(text, bounds, *cond) {
            return false;
        }
    }
    true
}

/// Returns what a rule puts from the first of these parts on, if it matches there.
///
/// # Errors
///
/// Fails only if memory runs out.
pub fn edit_by(
    alloc: Global,
    text: &[u8],
    rule: &Rule,
    parts: &[Part],
) -> Result<Option<Edit>, AllocError>
    ensures { IfOk result (λ o. IfSome o (λ e.
        IsEdit text.now rule.now.from.now rule.now.when.now rule.now.put.now parts.now e.count
        e.bounds.items e.put.items)) }
{
    let Some(found) = match_at(alloc, text, rule.from, parts)? else {
        return Ok(None);
    };
    if !all_hold(text, &found.bounds, rule.when) {
        return Ok(None);
    }
    let put = filled(alloc, text, &found.bounds, rule.put)?;
    Ok(Some(Edit {
        count: found.count,
        bounds: found.bounds,
        put,
    }))
}
