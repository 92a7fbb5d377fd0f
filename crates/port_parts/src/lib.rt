//! What the statements of a shell have in common whose words are at known offsets: where one may begin
//! and end, what may be before and after a part of it, and words that stand in the source.
//!
//! ```text
//! begins_statement(b"a; if x", 3)     // true: a `;` and a space are before it
//! is_list_end(b"x ; then", 1, 4)      // true: a `;` with spaces around it
//! is_plain_line(alloc, b"test AC_A")  // true: `AC_A` without brackets after it is no call
//! ```
//!
//! Read `specs/Places` (where a statement may begin and end), `specs/Parts` (what ends a part) and
//! `specs/Words`. `cut` has the offsets of the words of statements, which `port_statements` finds and
//! `port_compounds` reads the parts by. A call fails only if memory runs out. "own" marks a rule that no
//! manual gives.
#![tactic(auto)]

mod cut;
mod lines;
mod parts;
mod places;
mod words;

pub use cut::{CaseBranch, CaseCut, DefaultOf, ForCut, GuardCut, IfBranch, IfCut};
pub use lines::{has, has_at, has_dnl, has_hash, line_start};
pub use parts::{
    after_blanks, before_blanks, condition_end, ends_in_line, has_plain_end, is_after_backslash,
    is_list_end, is_plain, is_plain_line, unclosed_body,
};
pub use places::{
    after_spaces, are_blank, are_spaces, before_spaces, begins_statement, ends_statement,
    is_blank_at, is_statement, is_word,
};
pub use words::{
    are_values, is_constant, is_of_name, is_one_value, is_value, is_variable, name_length,
};
