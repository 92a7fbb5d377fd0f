//! Says of each place of a list of statements whether a statement of a shell may begin there.
//!
//! A list is a whole source, or what is in the brackets of an argument of a call. [`places_of`]
//! reads it once, from its start, as `lint_marks` says. A call that `ac_calls` has found is passed as
//! one word.
//!
//! `places_of` of `echo "if"; if x` has the offsets 0 to 5 and 9 to 14 in `outside`: the first `if` is
//! in quotes, and the second one, at 11, is where a statement may begin. [`ListPlaces::is_outside`]
//! says so of an offset.
//!
//! What is proved is that each offset in `outside` is outside quotes, substitutions, comments and
//! here-documents. Nothing is proved of the marks, and not that no offset is missing.
//!
//! Read `specs/Outside`, and then `places` from `places_of` on. Every function fails only if memory
//! runs out.
#![tactic(auto)]

mod places;

pub use places::{ListPlaces, PlaceKind, PlaceMark, call_at, places_of};
