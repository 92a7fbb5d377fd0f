//! The parts of a source, in a flat list in the order of the text.
//!
//! A part says how many of the parts after it are within it. Parts of some kinds have all their text
//! in the parts within them, and one after the other these are all of it. The others are leaves. So
//! the leaves are the text byte for byte. For example, the statement `x=1` is
//!
//! ```text
//! Statement 0..3, with 6 within: Command, Assignment, Variable `x`, Equals `=`, Word, Plain `1`
//! ```
//!
//! [`is_tree`] goes over a list once and says whether it is such a tree of a text, in which each part
//! has a shape that its kind may have. So whoever makes a list may decide as it likes, as
//! `parts_reader` does.
//!
//! A call that returns a `Result` fails only if memory runs out. "own" marks a rule that no manual
//! gives.
//!
//! Read `kind`, `shapes` (the parts that may be within each kind) and `leaves` (the texts that a leaf
//! may have), and then `specs/Trees`, what a tree is. `specs/Walks` has the walk over a list as a
//! function, and `facts` says that the leaves are the text.
#![tactic(auto)]

mod facts;
mod kind;
mod leaves;
mod shapes;
mod walk;

pub use facts::text_law;
pub use kind::{Kind, Part};
pub use leaves::{NO_CONSTANT, NO_PLAIN, is_among};
pub use walk::is_tree;
