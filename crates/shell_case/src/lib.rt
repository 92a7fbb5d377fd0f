//! Whether a text matches one of the patterns of a case.
//!
//! ```text
//! let patterns = Patterns::from_vec(read_patterns(alloc, b"*linux*-gnu | ?bsd")?);
//! matches_any(alloc, &patterns, b"x86_64-linux-gnu")?; // true
//! ```
//!
//! If no piece of a pattern is `?`, the time is in proportion to the length of the text and that of
//! the pattern. Otherwise it is at worst in proportion to the length of the pattern, and to that of
//! the text times the number of parts between `*` and `?`.
//!
//! Between two `*`, the first place of the pieces between them is enough. If none of them is `?`,
//! `memchr` finds it. Otherwise each part between `?` is looked for at all offsets, in linear time,
//! and a flag for each offset says whether all parts so far are where they must be. The crate
//! `shellword` has the patterns and says what they match.
//!
//! In `specs`, `Parts` has the words of the proof, and `Fronts` those of the search for a part. In
//! `src`, read `parts`, and then `places` and `fronts`.
#![tactic(auto)]

mod alternatives;
mod fronts;
mod parts;
mod places;

pub use alternatives::matches_any;
