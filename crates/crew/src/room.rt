//! Lists that have reserved room.

ghost use Rattle.std.specs.Prelude.{◌≡◌, ◌<◌, ◌≤◌, [], ◌∷◌, ◌++◌, length, vec_capacity};
ghost use Rattle.crew_trait.specs.declared.event.CrewEvent.TheVariants.{Ended};

use crew_trait::{CrewEvent, Reply};

/// Appends an item to a list that has room for it.
pub(crate) fn put<T: Drop>(list: &mut Vec<T>, item: T)
    requires { length list.old.items < vec_capacity list.old }
    ensures items { list.new.items ≡ list.old.items ++ item ∷ [] }
    ensures room { vec_capacity list.old ≤ vec_capacity list.new }
{
    let pushed = list.push(item);
    pushed.unwrap();
}

/// Appends the end of the child in a slot to events that have room for it.
pub(crate) fn put_end(events: &mut Vec<CrewEvent>, slot: usize, reply: Reply, number: u64)
    requires { length events.old.items < vec_capacity events.old }
    ensures items { events.new.items ≡ events.old.items ++ Ended slot reply number ∷ [] }
    ensures room { vec_capacity events.old ≤ vec_capacity events.new }
{
    let end = CrewEvent::Ended {
        slot,
        reply,
        number,
    };
    put(events, end);
}
