//! What the crew inside knows, and how many children it started.

ghost use Rattle.std.specs.Prelude.{◌≡◌, ◌≤◌, length};
ghost use Rattle.crew_kept.specs.Numbers as numbers;

use crate::kept::Kept;
use crate::placed::{Placed, Step};
use crew_refusals::Causes;
use crew_tally::Children;
use crew_trait::{Crew, CrewEvent};

/// Returns the number of the start of an event, if it is one.
fn number_of(event: &CrewEvent) -> Option<u64>
    ensures { result ≡ numbers.number_of event.now }
{
    match event {
        CrewEvent::Started { number, .. } => Some(*number),
        CrewEvent::Ended { .. } => None,
    }
}

/// Returns the number of the start of a step, if it is one.
fn number_in(step: &Step) -> Option<u64>
    ensures { result ≡ numbers.number_in step.now }
{
    match step {
        Step::Happened(event) => number_of(event),
        Step::Refusal(number) => Some(*number),
    }
}

/// Returns whether a step is the start of this number.
fn is_of(child: u64, step: &Step) -> bool
    ensures { result ≡ numbers.is_number child (numbers.number_in step.now) }
{
    match number_in(step) {
        Some(number) => number == child,
        None => false,
    }
}

/// Returns one if a step is the start of a lower number, and zero if it isn't.
fn lower(child: u64, step: &Step) -> u64
    ensures value { result ≡ numbers.is_lower child (numbers.number_in step.now) }
    ensures bound { result ≤ 1 }
{
    match number_in(step) {
        Some(number) if number < child => 1,
        _ => 0,
    }
}

/// Returns whether some step is the start of this number.
fn is_own(child: u64, placed: &[Placed]) -> bool
    ensures { result ≡ numbers.is_own child placed.now }
{
    for p in placed {
        if is_of(child, &p.step) {
            return true;
        }
    }
    false
}

/// Returns how many steps are starts of lower numbers.
fn own_below(child: u64, placed: &[Placed]) -> u64
    ensures { result ≡ numbers.own_below child placed.now }
{
    let mut below = 0;
    for p in placed {
        below += lower(child, &p.step);
    }
    below
}

impl<C: Crew + Causes + Drop> Causes for Kept<C> {
    ghost known = { numbers.known_in C.known };

    /// Returns what the crew inside knows of the child, which has a lower number there. Of a start
    /// that was taken or refused here nothing is known.
    fn cause(&self, child: u64) -> Option<&[u8]> {
        if is_own(child, self.placed.as_slice()) {
            return None;
        }
        let below = own_below(child, self.placed.as_slice());
        self.crew.cause(child.saturating_sub(below))
    }
}

impl<C: Crew + Children + Drop> Children for Kept<C> {
    // Starts that were taken or refused here start no child.
    ghost started = { λ k. C.started k.crew };

    fn children(&self) -> u64 {
        self.crew.children()
    }
}
