//! Rules over the parts of a source: a pattern of parts, conditions, and what is put in their place.
//!
//! A pattern is a flat list with marks for the begin and the end of a part. The matcher goes over it
//! once, and keeps what is open on a list of its own. What it finds is a match by `specs/Matches`,
//! which says it by nesting.
//!
//! Read `pattern`, `specs/Matches` and then `matching`.
#![tactic(auto)]

mod matching;
mod pattern;

pub use matching::{Match, match_at};
pub use pattern::{Bound, Pat, Piece};
