//! Writes `-a` and `-o` of `test` in a condition of a shell as `&&` and `||`, if that means the
//! same.
//!
//! ```text
//! test -n "$a" -a -z "$b"             // test -n "$a" && test -z "$b"
//! test -n "$a" -o -z "$b" -a "$c"     // stays, since -a binds closer than -o
//! ```
//!
//! [`respelled`] writes `=` and `!=` in the place of `==`, `-eq` and `-ne`.
//!
//! Read `specs/Joints`, which says what conditions become, and then `joints` (one condition) and
//! `conditions` (the parts of a statement, as `port_compounds` gives them), and then
//! `specs/Spelled` and `spelled`. A call fails only if memory runs out. "own" marks a rule that no manual gives.
#![tactic(auto)]

mod conditions;
mod files;
mod joints;
mod spelled;

pub use conditions::{joined_condition, joined_texts, slices};
pub use files::{FileCut, file_test, has_part, is_test_of_files, program_of, with_answer};
pub use spelled::respelled;
