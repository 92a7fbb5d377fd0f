//! Tests inside which a run is, and what is done if it ends there.

ghost use Rattle.std.specs.Prelude.{◌≡◌, ◌∷◌, [], IfNone, IfSome, OnOk, drop};
ghost use Rattle.meaning.specs.State.{Cut};
ghost use Rattle.plan.specs.Broken.{refused_all, unset_all};

use crate::pieces::break_test;
use crate::store::Store;
use deftable::Bytes;
use std::alloc::{AllocError, Global};
use std::marker::Model;

/// The names of the tests that are not at their end. Contracts see the innermost first.
pub struct OpenTests {
    /// The innermost is last.
    names: Vec<Bytes>,
}

impl Drop for OpenTests {
    fn drop(self) {
        let OpenTests { names: _names } = self;
    }
}

impl Model for OpenTests {
    ghost use Rattle.std.specs.Prelude.{List, ℕ, reverse};

    ghost Value = { List (List ℕ) };

    ghost view = { λ t. reverse t.names.items };
}

impl OpenTests {
    /// Returns an empty list.
    pub fn new(alloc: Global) -> OpenTests
        ensures { result ≡ [] }
    {
        OpenTests {
            names: Vec::new(alloc),
        }
    }

    /// Adds a test inside the others.
    pub fn open(&mut self, alloc: Global, name: &[u8]) -> Result<(), AllocError>
        ensures { OnOk result (self.new ≡ name.now ∷ self.old) }
    {
        let name = Bytes::from_slice(alloc, name)?;
        self.names.push(name)?;
        Ok(())
    }

    /// Takes the innermost test.
    pub fn close(&mut self) -> Option<Bytes>
        ensures taken { IfSome result (λ name. self.old ≡ name ∷ self.new) }
        ensures empty { IfNone result ((self.old ≡ []) × (self.new ≡ [])) }
    {
        self.names.pop()
    }
}

/// Unsets the names of the tests, and leaves no test.
pub fn unset_all(store: &mut Store, tests: &mut OpenTests)
    ensures unset { store.new ≡ unset_all tests.old store.old }
    ensures closed { tests.new ≡ [] }
{
    while let Some(name) = tests.close() {
        store.unset(name.as_slice());
    }
}

/// Unsets the names of the tests, prints that each is cut short, and leaves no test.
pub fn refuse_all(alloc: Global, store: &mut Store, tests: &mut OpenTests) -> Result<(), AllocError>
    ensures refused { OnOk result (store.new ≡ refused_all tests.old store.old) }
    ensures closed { OnOk result (tests.new ≡ []) }
{
    while let Some(name) = tests.close() {
        break_test(alloc, store, name.as_slice())?;
    }
    Ok(())
}
