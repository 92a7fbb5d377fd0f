//! What is found in a source or in a template of it, and the order in which findings are shown.
//!
//! A finding is a place, how grave it is, a code, and two texts: what is wrong, and what to do.
//! Nothing here says how a finding is found or printed.
//!
//! ```text
//! let span = Span { file: 0, start: 749, end: 764 };
//! findings.push(Finding::from_slices(alloc, span, Severity::Error, b"parse-2", b"acrun does not know the macro AC_AIX", b"")?)?;
//! put_in_order(&mut findings)?;
//! ```
//!
//! "own" marks a rule that no manual gives.
//!
//! Read `finding`, then `specs/Order` and `order`, and then `specs/Within` and `warning`.
#![tactic(auto)]

mod finding;
mod order;
mod warning;

pub use finding::{Finding, Severity, Span};
pub use order::put_in_order;
pub use warning::warn;
