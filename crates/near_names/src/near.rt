//! The nearest of some names.

ghost use Rattle.std.specs.Prelude.{◌≡◌, ◌+◌, map, option_map, Option, None, IfOk};
ghost use Rattle.near_names.specs.Near as specs;

use std::alloc::{AllocError, Global};
use strsim::generic_levenshtein;

/// Returns how many edits two names may differ by to be near: none for up to three letters, one for
/// four to eight, two for nine to thirteen, and three for longer ones.
fn allowed(name: &[u8]) -> usize
    ensures { result ≡ specs.few name.now }
{
    ((name.len() + 1) / 5).min(3)
}

/// Returns how many edits lead from a name to another one, if they are fewer than `room`.
#[tactic(auto, using(crate::proofs::Distances::far_off))]
fn closer(
    alloc: Global,
    name: &[u8],
    other: &[u8],
    room: usize,
) -> Result<Option<usize>, AllocError>
    ensures { IfOk result (λ found. found ≡ specs.closer name.now other.now room) }
{
    if room <= name.len().abs_diff(other.len()) {
        return Ok(None);
    }
    let edits = generic_levenshtein(alloc, name, other)?;
    if edits < room {
        Ok(Some(edits))
    } else {
        Ok(None)
    }
}

/// Returns the first of the names with the fewest edits from the name, if these are fewer than
/// `room`.
fn nearest_of<'a>(
    alloc: Global,
    name: &[u8],
    names: &[&'a [u8]],
    room: usize,
) -> Result<Option<&'a [u8]>, AllocError>
    ensures { IfOk result (λ found.
        option_map (λ n. n.now) found
        ≡ specs.nearest_from name.now room None (map (λ n. n.now) names.now)) }
{
    let mut nearest = None;
    let mut room = room;
    for other in names {
        if let Some(edits) = closer(alloc, name, other, room)? {
            room = edits;
            nearest = Some(*other);
        }
    }
    Ok(nearest)
}

/// Returns the first of the names with the fewest edits from the name, if these are few.
///
/// # Errors
///
/// Fails only if memory runs out.
pub fn near_name<'a>(
    alloc: Global,
    name: &[u8],
    names: &[&'a [u8]],
) -> Result<Option<&'a [u8]>, AllocError>
    // It is one of the names, it is near enough, none before it is as near, and none after it is
    // nearer. If there is none, no name is near enough.
    ensures nearest { IfOk result (λ found.
        specs.IsNearest name.now (map (λ n. n.now) names.now) (option_map (λ n. n.now) found)) }
{
    nearest_of(alloc, name, names, allowed(name) + 1)
}
