//! Finds the name that is nearest to a misspelt one.
//!
//! How far two names differ is Levenshtein's distance in bytes. A name of up to three bytes is near
//! no other one, one of four to eight bytes may differ by one edit, one of nine to thirteen by two,
//! and a longer one by three.
//!
//! ```text
//! near_name(alloc, b"AC_CHECK_HEADRES", &[b"AC_CHECK_FUNCS", b"AC_CHECK_HEADERS"])
//!     // Some(b"AC_CHECK_HEADERS")
//! ```
//!
//! Read `specs/Near`, and then `near` from its end. A call fails only if memory runs out. "own" marks
//! a rule that no manual gives.
#![tactic(auto)]

mod near;

pub use near::near_name;
