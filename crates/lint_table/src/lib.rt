//! What acrun says of errors and warnings, and the page on which it is put together.
//!
//! All words are in one file, `words.txt`. `tools/word_table.py` makes of each key in it a constant
//! of [`keys`]. Code finds what is wrong, and puts a key on a [`Page`], with a [`WordPart`] for
//! each place of its words. So a sentence is mended in that file alone.
//!
//! ```text
//! let mut page = Page::new(alloc);
//! page.put(keys::NO_TEST, &[WordPart::Quoted(b"grep x")]); // `grep x` is not a test that acrun supports
//! ```
//!
//! Some warnings are that something means another thing to Autoconf. In `words.txt` they have a mark
//! of their own, and [`is_difference`] knows them by their codes.
//!
//! What `put` adds is proved: the words, with their places filled, or the page says that memory ran
//! out.
//!
//! Read `specs/Filling`, which defines what places are filled with, and `specs/Keys`; then `part`,
//! `filling`, `key` and `page`. `specs/Differences` and `differing` are read by themselves.
#![tactic(auto)]

mod differing;
mod filling;
mod key;
pub mod keys;
mod page;
mod part;

pub use differing::{is_difference, is_left};
pub use key::Key;
pub use page::{Page, Words, warn_by_key};
pub use part::WordPart;
