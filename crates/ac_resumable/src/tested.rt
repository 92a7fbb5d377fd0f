//! The names that were tested, of which the last ones can be forgotten.

ghost use Rattle.std.specs.Prelude.{◌≡◌, [], ◌∷◌, ◌++◌, OnOk, length, take};
ghost use Rattle.deftable.specs.NameList.{has_name, with_name};
ghost use Rattle.ac_resumable.specs.Tested.{HasSameNames, Extends};

use deftable::Bytes;
use indexmap::IndexSet;
use std::alloc::{AllocError, Global};
use std::marker::Model;

/// The names that were tested, each once, in the order in which they were first added.
pub(crate) struct Tested {
    alloc: Global,
    names: IndexSet<Bytes>,
}

impl Drop for Tested {
    fn drop(self) {
        let Tested {
            alloc: _alloc,
            names: _names,
        } = self;
    }
}

impl Model for Tested {
    ghost use Rattle.std.specs.Prelude.{ℕ, List};

    ghost Value = { List (List ℕ) };

    ghost view = { λ t. t.names.keys };
}

impl Tested {
    /// Returns no names.
    pub(crate) fn new(alloc: Global) -> Tested
        ensures { result ≡ [] }
    {
        Tested {
            alloc,
            names: IndexSet::new(alloc),
        }
    }

    /// Returns what the names are allocated with.
    pub(crate) fn alloc(&self) -> Global {
        self.alloc
    }

    /// Returns whether the name was tested.
    pub(crate) fn has(&self, name: &[u8]) -> bool
        ensures { result ≡ has_name self.now name.now }
    {
        self.names.contains(name)
    }

    /// Adds a name.
    fn add(&mut self, name: &[u8]) -> Result<(), AllocError>
        ensures { OnOk result (self.new ≡ with_name self.old name.now) }
    {
        let name = Bytes::from_slice(self.alloc, name)?;
        self.names.insert(name)?;
        Ok(())
    }

    /// Adds names.
    pub(crate) fn add_all(&mut self, names: &[Bytes]) -> Result<(), AllocError>
        ensures added { OnOk result (HasSameNames (names.now ++ self.old) self.new) }
        ensures grown { OnOk result (Extends self.old self.new) }
    {
        for name in names {
            self.add(name.as_slice())?;
        }
        Ok(())
    }

    /// Adds one name.
    pub(crate) fn add_one(&mut self, name: &[u8]) -> Result<(), AllocError>
        ensures added { OnOk result (HasSameNames (name.now ∷ self.old) self.new) }
        ensures grown { OnOk result (Extends self.old self.new) }
    {
        self.add(name)
    }

    /// Returns the number of names.
    pub(crate) fn len(&self) -> usize
        ensures { result ≡ length self.now }
    {
        self.names.len()
    }

    /// Forgets all names after the first `len`.
    pub(crate) fn cut(&mut self, len: usize)
        ensures { self.new ≡ take len self.old }
    {
        self.names.truncate(len);
    }
}
