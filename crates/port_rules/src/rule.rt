//! What a rule is.

use port_match::Pat;

/// A condition of a rule, on the texts of slots.
#[derive(Clone, Copy)]
pub enum Cond {
    /// Two slots have the same text.
    Same(usize, usize),
    /// The first slot has a `$` and the text of the second one.
    Shows(usize, usize),
}

/// Text that a rule puts, once or for each part of a slot.
#[derive(Clone, Copy)]
pub enum Fill {
    /// This text.
    Text(&'static [u8]),
    /// The text of a slot. In what is put for each part of one, that of the part with the same number,
    /// or of the last one.
    Slot(usize),
    /// The text of a slot without the blanks, newlines and `;` at its edges.
    Bare(usize),
}

/// An element of what a rule puts.
#[derive(Clone, Copy)]
pub enum Put {
    /// This, once.
    Once(Fill),
    /// These for each part of a slot.
    Each(usize, &'static [Fill]),
}

/// A rule.
#[derive(Clone, Copy)]
pub struct Rule {
    /// Its name.
    pub name: &'static [u8],
    /// What it replaces.
    pub from: &'static [Pat],
    /// When it does.
    pub when: &'static [Cond],
    /// What it puts.
    pub put: &'static [Put],
}
