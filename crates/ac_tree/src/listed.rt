//! What the macros of the AC_CHECK_ family look for: headers, functions, declarations and types.

ghost use Rattle.std.specs.Prelude.{◌≡◌, ◌<◌, ◌≤◌, length};

use deftable::Bytes;
use std::marker::Model;

/// What one child decides.
#[derive(Clone, Copy)]
pub enum Listed {
    /// Whether a header can be included (Autoconf's manual, "Generic Headers").
    Header,
    /// Whether a function can be linked (Autoconf's manual, "Generic Functions").
    Function,
    /// Whether a name is declared (Autoconf's manual, "Generic Declarations").
    Declaration,
}

/// What a macro looks for.
#[derive(Clone, Copy)]
pub enum Sought {
    /// What one child decides.
    ListEntry(Listed),
    /// A type, which one or two children decide (Autoconf's manual, "Generic Types").
    Type,
}

/// The entries of a list, in order: at least one, and at most 256. One that is listed twice is
/// there twice. Contracts see the list of their texts.
pub struct Entries {
    entries: Vec<Bytes>,
}

impl Drop for Entries {
    fn drop(self) {
        let Entries { entries: _entries } = self;
    }
}

impl Model for Entries {
    ghost use Rattle.std.specs.Prelude.{List, ℕ, ◌<◌, ◌≤◌, length};

    ghost Value = { List (List ℕ) };

    ghost view = { λ e. e.entries.items };

    ghost invariant = { λ e. (0 < length e.entries.items) × (length e.entries.items ≤ 256) };
}

impl Entries {
    /// Makes the list from a vector, without a copy.
    pub fn from_vec(entries: Vec<Bytes>) -> Entries
        requires at_least_one { 0 < length entries.items }
        requires bounded { length entries.items ≤ 256 }
        ensures { result ≡ entries.items }
    {
        Entries { entries }
    }

    /// Returns the entries, in order.
    pub fn as_slice(&self) -> &[Bytes]
        ensures value { result.now ≡ self.now }
        ensures at_least_one { 0 < length self.now }
        ensures bounded { length self.now ≤ 256 }
    {
        self.entries.as_slice()
    }
}
