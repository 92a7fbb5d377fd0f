//! The calls of a crew in memory, as it lists them.

/// A call of a [`MemoryCrew`](crate::MemoryCrew), with its slot.
#[derive(Clone, Copy, PartialEq, Eq)]
pub enum Event {
    /// A start that was taken.
    Started(usize),
    /// A start that was refused.
    Refused(usize),
    /// The end of a child.
    Ended(usize),
}
