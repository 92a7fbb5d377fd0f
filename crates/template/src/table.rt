//! The keys of a template.

ghost use Rattle.std.specs.Prelude.{◌≡◌, ℕ, List, [], OnOk, OnErr, option_map};
ghost use Rattle.deftable.specs.ShellName.{IsShellName};
ghost use Rattle.deftable.specs.Table.{value_of, with_entry, HasShellNames};
ghost use Rattle.template.specs.Keys.{AreUpTo, AllPass, longest_of};
ghost use Rattle.template.specs.Pieces.{begins_key};

use crate::sieve::Sieve;
use deftable::{Bytes, Defs};
use std::alloc::{AllocError, Global};
use std::marker::Model;

/// The keys of a template, each with its value (Autoconf's manual, "Setting Output Variables").
///
/// A key has the form of a shell variable's name, so it contains no `@`.
#[derive(Drop)]
pub struct Table {
    entries: Defs,
    longest: usize,
    sieve: Sieve,
}

impl Model for Table {
    ghost Value = { List (List ℕ × List ℕ) };

    ghost view = { λ t. t.entries };

    ghost invariant = { λ t. HasShellNames t.entries × (t.longest ≡ longest_of t.entries) × AllPass t.sieve t.entries };
}

#[tactic(auto, using(crate::proofs::Keys::keys))]
impl Table {
    /// Returns a table without keys.
    pub fn new(alloc: Global) -> Table
        ensures { result ≡ [] }
    {
        Table {
            entries: Defs::new(alloc),
            longest: 0,
            sieve: Sieve::new(),
        }
    }

    /// Sets the value of a key, which is added if it is new.
    ///
    /// # Errors
    ///
    /// Fails only if memory runs out, and then leaves the table unchanged.
    pub fn set(&mut self, key: &[u8], value: &[u8]) -> Result<(), AllocError>
        requires { IsShellName key.now }
        ensures ok { OnOk result (self.new ≡ with_entry self.old key.now value.now) }
        ensures err { OnErr result (self.new ≡ self.old) }
    {
        self.entries.define(key, value)?;
        self.longest = self.longest.max(key.len());
        self.sieve.add(key);
        Ok(())
    }

    /// Returns the value of the key, or `None` if it isn't in the table. Most texts that aren't
    /// keys are ruled out without a look-up.
    #[inline]
    pub fn get(&self, key: &[u8]) -> Option<&Bytes>
        ensures value { option_map (λ x. x.now) result ≡ value_of self.now key.now }
        ensures shell_names { HasShellNames self.now }
    {
        if key.len() > self.longest {
            return None;
        }
        if !self.sieve.lets_through(key) {
            return None;
        }
        self.entries.get(key)
    }

    /// Returns the length of the longest key in bytes, or 0 if there is no key.
    pub fn longest_key(&self) -> usize
        ensures exact { result ≡ longest_of self.now }
        ensures bound { AreUpTo result self.now }
        ensures shell_names { HasShellNames self.now }
    {
        self.longest
    }

    /// Returns whether the text is the front of a key. The time is that of reading each key.
    pub(crate) fn starts_key(&self, text: &[u8]) -> bool
        ensures exact { result ≡ begins_key self.now text.now }
        ensures shell_names { HasShellNames self.now }
    {
        for i in 0..self.entries.len() {
            if self.entries.at(i).0.starts_with(text) {
                return true;
            }
        }
        false
    }
}
