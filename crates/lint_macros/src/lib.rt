//! What is said of each macro that acrun doesn't read, and the text that is written in the place of
//! its call.
//!
//! The table has an entry for a macro, or for a family of macros whose names begin alike: a kind,
//! and a text. The text of an idiom has places for the call's own arguments. A place is filled with
//! an argument if that is a plain word or list, and otherwise with a word in capitals that says
//! what to write there.
//!
//! ```text
//! let index = Index::new(alloc)?;
//! let entry = index.entry_of(alloc, b"AC_CHECK_HEADERS_ONCE")?; // an idiom: AC_CHECK_HEADERS([$1{HEADERS}])
//! fill(alloc, entry.text, &[b"[unistd.h]"])?                 // AC_CHECK_HEADERS([unistd.h])
//! fill(alloc, entry.text, &[b"$headers"])?                   // AC_CHECK_HEADERS([HEADERS])
//! ```
//!
//! The texts are in `macros.txt` of this crate, and `tools/macro_table.py` writes `text` from that
//! file. Read `specs/Entries` and `entry`, then `specs/Index` and `index`, and then `specs/Places`,
//! `specs/Values` and `filling`. `members` says which entry is about a check of members. A call that takes an allocator fails only if memory runs out, and
//! no other call allocates. "own" marks a rule that no manual gives.
#![tactic(auto)]

mod cut;
mod entry;
mod filling;
mod index;
mod members;
mod place;
mod plain;
mod text;

pub use entry::{MacroEntry, MacroKind};
pub use filling::fill;
pub use index::Index;
pub use members::{entry_name, takes_list};
pub use place::{Form, Hole, HoleSource, hole_of};
pub use text::TABLE;
