//! Finds the errors of a configure.ac: why it is refused, and each call of a macro that the table
//! of macros doesn't have.
//!
//! `read` reads the source as a run does, once for all that is said of it. If that fails, its errors
//! are the reader's first fault, and each call that has to go, each once. If the source is read and
//! weighs too much for a plan, that is the error. There is none exactly if both accept.
//!
//! ```
//! let text = b"AC_INIT([a],[1])\nAC_PROG_AWK\nif x; then\nAC_OUTPUT\n";
//! let reading = read(alloc, text)?;
//! let findings = errors_of(alloc, text, &reading)?; // AC_PROG_AWK at 17; `if` is later
//! ```
//!
//! `is_accepted` says whether there is none, `errors_by` finds those of one of many sources, and
//! `fault_error` is the error of a fault that is known.
//!
//! Read `reading` (what a source is read as), `fault` (where a fault is), `statement` (where the
//! statement at fault begins), `advice` (what to write in place of a call), `foreign` (calls), and
//! then `errors`. `specs/Readings` and `specs/Errors` have the definitions. Every function fails only if memory runs out.
#![tactic(auto)]

mod advice;
mod errors;
mod fault;
mod foreign;
mod reading;
mod statement;

pub use advice::Known;
pub use errors::{errors_by, errors_of, fault_error, too_long_finding};
pub use reading::{Reading, is_accepted, read};
