//! Patterns of parts.

use ac_parts::{Kind, Part};

/// A part of a kind with all that is in it, for a slot.
#[derive(Clone, Copy)]
pub struct Piece(pub Kind, pub usize);

/// An element of a pattern. A pattern is a list: what is between `Open` and its `Close` is all that is
/// within a part.
#[derive(Clone, Copy)]
pub enum Pat {
    /// A part of this kind, whose parts are up to `Close`.
    Open(Kind),
    /// The end of a part.
    Close,
    /// A part of this kind with all that is in it, for a slot.
    One(Kind, usize),
    /// A leaf that is this text.
    Named(&'static [u8]),
    /// These parts one after the other, as often as they are there.
    Many(&'static [Piece]),
    /// Blanks, newlines and `;`, if there are some.
    Gaps,
}

/// A part that a slot has.
#[derive(Clone, Copy)]
pub struct Bound {
    /// The slot.
    pub slot: usize,
    /// The part.
    pub part: Part,
}
