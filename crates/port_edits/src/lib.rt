//! Edits of a text, and what makes them.
//!
//! An [`Edit`] leaves out what is between two offsets of a text, and puts another text there. Edits
//! are made in the order in which they are found. One that begins before the end of the one that
//! was made last is left: so of two that overlap the first one wins.
//!
//! ```text
//! edited(alloc, b"a b c", [b => B, c => C])    // a B C
//! edited(alloc, b"a b c", [b c => d, c => C])  // a d
//! ```
//!
//! Read `specs/Edits`, and then this crate from [`Edit`] on. `specs/Passes` has what a pass over a
//! text is, of which each edit makes one step: so what holds of each edit holds of the whole text.
//! The time is in proportion to what is read and written. A call fails only if memory runs out.
//! "own" marks a rule that no manual gives.
#![tactic(auto)]

mod edit;
mod pass;

pub use edit::Edit;
pub use pass::{Pass, edited, example, finish, laws, make, write_change};
