//! Counts the children that a crew has started.

ghost use Rattle.std.specs.Prelude.{◌≡◌, ◌+◌, ◌^◌, ◌<◌};
ghost use Rattle.crew.specs.Counting as specs;

use crew_trait::CrewEvent;

/// Returns the count after one more event.
fn started_after(count: u64, event: &CrewEvent) -> u64
    requires { count < 2 ^ 63 }
    ensures { result ≡ specs.started_after count event.now }
{
    match event {
        CrewEvent::Started { .. } => count + 1,
        CrewEvent::Ended { .. } => count,
    }
}

/// Returns the number of starts that were taken.
pub(crate) fn started_in(events: &[CrewEvent]) -> u64
    ensures { result ≡ specs.started_in events.now }
{
    let mut count: u64 = 0;
    for event in events {
        count = started_after(count, event);
    }
    count
}
