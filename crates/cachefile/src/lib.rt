//! Cache files: the results of earlier runs, for later ones.
//!
//! A cache file is a shell script that sets variables, a line for each. A name with `_cv_` in it is
//! the name of a cached value (Autoconf's manual, "Cache Variable Names"). The lines that can be
//! read have the forms that Autoconf 2.71 writes, and a text that is written here can be read here,
//! unless it is too large. A value that bash has written as `$'..'` is an error.
//!
//! In a contract, a cache is the list of its settings. Each sets a name to a value, or to a
//! default, which counts only if the name isn't set before. A call that returns a `Result` runs out
//! of memory or fails as it says, and no other call allocates. To read, pour or write a cache takes
//! time in proportion to its text, except that names are sorted to be written. "own" marks a rule
//! that no manual gives.
//!
//! ```text
//! let cache = read_cache(alloc, b"ac_cv_func_f=${ac_cv_func_f=yes}\n")?;
//! cache.would(&vars, b"ac_cv_func_f");  // its value in `vars`, or `yes` if it has none
//! cache.pour(&mut vars)?;
//! let text = cache_text(alloc, &vars)?; // a comment, and a line for each name with `_cv_` in it
//! ```
//!
//! In `specs`, read `Word` for the words that a value is written as, `Form` for the lines, `Cache`
//! for what a text sets and for its first error, and `Text` for the text that is written. `Line` is
//! `Form` as a function. In `src`, `word` comes first, then `name`, `entry` and `line`, and then
//! `cache` and `text`.
#![tactic(auto)]

mod cache;
mod entry;
mod fault;
mod line;
mod name;
mod text;
mod word;

pub use cache::{OldCache, read_cache};
pub use deftable::is_cache_name;
pub use fault::CacheFault;
pub use name::is_mark;
pub use text::cache_text;
pub use word::word_text;
