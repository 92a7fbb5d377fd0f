//! Rules over the parts of a source. A rule is a row: patterns, conditions, and what is put in the place
//! of the parts that match.
//!
//! [`edit_by`] tries a rule at some parts, and says all of what it puts: that the parts match a pattern of
//! the rule, that its conditions hold, and that the text is its own with the slots filled in. So a further
//! rule needs no proof.
//!
//! Read `rule`, `specs/Edits`, `edit` and `fill`, and then `rows`.
#![tactic(auto)]

mod edit;
mod fill;
mod rows;
mod rule;

pub use edit::{Edit, edit_by};
pub use rows::rules;
pub use rule::{Cond, Fill, Put, Rule};
