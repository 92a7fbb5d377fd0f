//! Rules out texts that can't be keys, without a look-up.

ghost use Rattle.std.specs.Prelude.{◌≡◌, ℕ, List, [], ◌+◌, ◌<◌, ◌↔◌, ◌%◌, IsTrue};
ghost use Rattle.template.specs.Keys.{Passes};
ghost use Rattle.template.specs.Keys as keys;

use std::marker::Model;

/// A set of texts that also accepts a few others. A text has one bit, which its first byte, its
/// last byte and its length determine.
#[derive(Drop)]
pub(crate) struct Sieve {
    rows: [u64; 64],
}

impl Model for Sieve {
    ghost Value = { List ℕ };

    ghost view = { λ s. s.rows };
}

impl Sieve {
    pub(crate) fn new() -> Sieve {
        Sieve { rows: [0; 64] }
    }

    /// Adds a text, which is accepted from then on.
    pub(crate) fn add(&mut self, text: &[u8])
        ensures added { Passes self.new text.now }
        ensures kept { (other : List ℕ) → Passes self.old other → Passes self.new other }
    {
        let row = row_of(text);
        self.rows[row] |= 1 << end_slot(text);
    }

    /// Returns whether the text may be one of those that were added.
    #[inline(always)]
    #[tactic(auto, unfolding(crate::specs::Keys::Passes))]
    pub(crate) fn lets_through(&self, text: &[u8]) -> bool
        ensures { IsTrue result ↔ Passes self.now text.now }
    {
        (self.rows[row_of(text)] >> end_slot(text)) & 1 != 0
    }
}

#[inline(always)]
fn row_of(text: &[u8]) -> usize
    ensures row { result ≡ keys.row_of text.now }
    ensures small { result < 64 }
{
    match text.first() {
        Some(first) => (*first % 64) as usize,
        None => 0,
    }
}

#[inline(always)]
fn end_slot(text: &[u8]) -> usize
    ensures place { result ≡ keys.end_slot text.now }
    ensures small { result < 64 }
{
    match text.last() {
        Some(last) => (*last as usize + text.len() % 64) % 64,
        None => 0,
    }
}
