//! The parts of words and here texts.

use deftable::Bytes;

/// A part of a word or of a here text.
#[derive(Drop)]
pub enum Part {
    /// A byte outside quotes, which no backslash quotes.
    Plain(u8),
    /// A byte that quotes or a backslash make ordinary.
    Quoted(u8),
    /// The value of the variable of this name.
    Variable(Bytes),
}
