//! The slots of a crew. Each is free, or has the index of its job in the group.

ghost use Rattle.std.specs.Prelude.{◌≡◌, Some, None, IfOk, IfSome, IfNone, IsTrue, false, length, slice_get};
ghost use Rattle.proberun.specs.Serving.{AllFree, AllHeld, HasHeld, HeldBelow};

use std::alloc::{AllocError, Global};

/// Returns `window` free slots.
pub(crate) fn free_slots(alloc: Global, window: usize) -> Result<Vec<Option<usize>>, AllocError>
    ensures { IfOk result (λ v. (length v.items ≡ window) × AllFree v.items) }
{
    let mut slots = Vec::new(alloc);
    for _ in 0..window {
        slots.push(None)?;
    }
    Ok(slots)
}

/// Returns the least free slot, if there is one.
pub(crate) fn free_slot(slots: &[Option<usize>]) -> Option<usize>
    ensures free { IfSome result (λ s. slice_get slots.now s ≡ Some None) }
    ensures least { IfSome result (λ s. HeldBelow s slots.now) }
    ensures held { IfNone result (AllHeld slots.now) }
{
    for s in 0..slots.len() {
        match slots[s] {
            Some(_) => {}
            None => return Some(s),
        }
    }
    None
}

/// Returns whether no slot has a job.
pub(crate) fn is_idle(slots: &[Option<usize>]) -> bool
    ensures idle { IsTrue result → AllFree slots.now }
    ensures held { result ≡ false → HasHeld slots.now }
{
    for job in slots {
        if job.is_some() {
            return false;
        }
    }
    true
}
