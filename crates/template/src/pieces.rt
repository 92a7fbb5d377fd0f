//! Fills a template that is given in pieces.

ghost use Rattle.std.specs.Prelude.{◌≡◌, ◌≤◌, ◌+◌, ℕ, List, [], ◌++◌, length, flat_map, true, IfOk, OnErr};
ghost use Rattle.template.specs.Fill.{filled};
ghost use Rattle.template.specs.Keys.{longest_of};
ghost use Rattle.template.specs.Pieces.{MayBeHeld, Feeds, Fed, FeedsAll, IsParted, may_be_held};

use crate::filling::fill_closed;
use crate::table::Table;
use std::alloc::{AllocError, Global};
use std::marker::Model;

/// Fills a template that is given in pieces.
///
/// What all calls return is together what [`fill`](crate::fill) returns for all pieces together,
/// however the template is cut: see [`pieces_join`]. A filler holds nothing, or an `@` and the
/// front of a key. So it holds at most one byte more than the longest key has.
#[derive(Drop)]
pub struct Filler {
    alloc: Global,
    table: Table,
    held: Vec<u8>,
}

impl Model for Filler {
    ghost use Rattle.std.specs.Prelude.{◌≡◌, true};
    ghost use Rattle.template.specs.Pieces.{FillerState, may_be_held};

    ghost Value = { FillerState };

    ghost view = { λ f. record { entries = f.table; held = f.held.items } };

    ghost invariant = { λ f. may_be_held f.table f.held.items ≡ true };
}

impl Filler {
    /// Returns a filler that has no text yet. It takes no memory.
    pub fn new(alloc: Global, table: Table) -> Filler
        ensures entries { result.entries ≡ table }
        ensures held { result.held ≡ [] }
    {
        Filler {
            alloc,
            table,
            held: Vec::new(alloc),
        }
    }

    /// Takes the next piece of the template, and returns what follows in the filled text. If the
    /// template so far ends in an `@` and the front of a key, these are held, since the next piece
    /// may end the key. Nothing else is held.
    ///
    /// The time is that of [`fill`](crate::fill) for what was held and the piece together. If an
    /// `@` is open at the end, the text after it is also compared with each key.
    ///
    /// # Errors
    ///
    /// Fails only if memory runs out, and then leaves the filler unchanged. The same piece may be
    /// fed again.
    pub fn feed(&mut self, piece: &[u8]) -> Result<Vec<u8>, AllocError>
        ensures feeds { IfOk result (λ given.
            Feeds self.old.entries self.old.held piece.now given.items self.new.held) }
        ensures entries { self.new.entries ≡ self.old.entries }
        ensures held { MayBeHeld self.new.entries self.new.held }
        ensures bound { length self.new.held ≤ longest_of self.new.entries + 1 }
        ensures err { OnErr result (self.new ≡ self.old) }
    {
        let (given, later) = self.parts_with(piece)?;
        self.held = later;
        Ok(given)
    }

    /// Ends the template, and returns what is held, which is the rest of the filled text.
    pub fn finish(self) -> Vec<u8>
        ensures held { result.items ≡ self.held }
        ensures filled { result.items ≡ filled self.entries self.held }
    {
        // for the proof only
        let _ = self.table.longest_key();
        let Filler {
            alloc: _alloc,
            table: _table,
            held: rest,
        } = self;
        rest
    }

    /// Returns what `feed` gives for the piece, and what is held then.
    fn parts_with(&self, piece: &[u8]) -> Result<(Vec<u8>, Vec<u8>), AllocError>
        ensures feeds { IfOk result (λ p.
            Feeds self.now.entries self.now.held piece.now p.0.items p.1.items) }
        ensures may { IfOk result (λ p. may_be_held self.now.entries p.1.items ≡ true) }
    {
        // for the proof only
        let _ = self.table.longest_key();
        if self.held.is_empty() {
            return parts(self.alloc, piece, &self.table);
        }
        let mut text = Vec::from_slice(self.alloc, self.held.as_slice())?;
        text.extend_from_slice(piece)?;
        parts(self.alloc, text.as_slice(), &self.table)
    }
}

/// Returns what is given for a text, and what is held of it: an open `@` and the text after it if a
/// key begins with that text, and otherwise nothing.
fn parts(alloc: Global, text: &[u8], table: &Table) -> Result<(Vec<u8>, Vec<u8>), AllocError>
    ensures { IfOk result (λ p. IsParted table.now text.now p.0.items p.1.items) }
{
    let (mut given, held) = fill_closed(alloc, text, table)?;
    let is_held = held.opened && table.starts_key(&text[held.last + 1..]);
    let end = if is_held { held.last } else { text.len() };
    given.extend_from_slice(&text[held.start..end])?;
    let later = Vec::from_slice(alloc, &text[end..])?;
    Ok((given, later))
}

/// States what the calls of a filler return together, of which each says what it does with one
/// piece.
pub fn pieces_join()
    // A new filler was fed the empty text.
    ensures begins { (es : List (List ℕ × List ℕ)) → Fed es [] [] [] }
    // It is fed one piece more.
    ensures goes_on { (es : List (List ℕ × List ℕ)) (text given held piece more later : List ℕ)
        → Fed es text given held → Feeds es held piece more later
        → Fed es (text ++ piece) (given ++ more) later }
    // It ends. What `finish` returns is what is held, filled.
    ensures ends { (es : List (List ℕ × List ℕ)) (text given held : List ℕ) → Fed es text given held
        → given ++ filled es held ≡ filled es text }
    // The same of any pieces in turn: what they give is their text filled without what is held.
    ensures so_far { (es : List (List ℕ × List ℕ)) (pieces givens : List (List ℕ)) (held : List ℕ)
        → FeedsAll es [] pieces givens held
        → Fed es (flat_map (λ piece. piece) pieces) (flat_map (λ given. given) givens) held }
    // What they give and what is given at the end are together their text filled.
    ensures whole { (es : List (List ℕ × List ℕ)) (pieces givens : List (List ℕ)) (held : List ℕ)
        → FeedsAll es [] pieces givens held
        → flat_map (λ given. given) givens ++ filled es held
        ≡ filled es (flat_map (λ piece. piece) pieces) }
{}
