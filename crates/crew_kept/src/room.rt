//! Lists that have reserved room.

ghost use Rattle.std.specs.Prelude.{◌≡◌, ◌<◌, ◌≤◌, [], ◌∷◌, ◌++◌, length, vec_capacity};

/// Appends an item to a list that has room for it.
pub(crate) fn put<T: Drop>(list: &mut Vec<T>, item: T)
    requires { length list.old.items < vec_capacity list.old }
    ensures items { list.new.items ≡ list.old.items ++ item ∷ [] }
    ensures room { vec_capacity list.old ≤ vec_capacity list.new }
{
    let pushed = list.push(item);
    pushed.unwrap();
}
