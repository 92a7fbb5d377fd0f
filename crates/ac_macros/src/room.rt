//! The room that is left in the source's lists of names.

ghost use Rattle.std.specs.Prelude.{◌≡◌};
ghost use Rattle.ac_macros.specs.Room as rooms;

use deftable::{Name, SubstList};

/// The largest number of names in a list of the source (own).
pub(crate) const MAX_NAMES: usize = 1024;

/// Returns whether a list of the source has this name, or room for it.
pub(crate) fn has_room(names: &SubstList, name: &Name) -> bool
    ensures { result ≡ rooms.has_room names.now name.now }
{
    names.has(name.as_slice()) || names.names().len() < MAX_NAMES
}
