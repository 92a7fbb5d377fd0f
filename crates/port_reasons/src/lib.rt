//! Says why statements of a shell stay that `acrun port` doesn't rewrite.
//!
//! [`kept_statements`] gives each of them with a reason: acrun doesn't accept the call that would take
//! its place, Autoconf makes checks before a call in it, or something in it or around it can't be
//! in a call.
//!
//! `while a; do if b; then c; fi; done` has one: the `if`, which is in a loop that begins with `while`.
//!
//! Read `softened` (operators of tests for which `acrun port --idioms` has other texts), `obstacles`
//! (what keeps it from writing these), and then `reasons`.
//!
//! A reason is for the words of an error, and nothing is proved of it. Every function fails only if
//! memory runs out.
#![tactic(auto)]

mod obstacles;
mod reasons;
mod softened;

pub use reasons::{COMMENT_FRONT, Reason, Staying, kept_statements};
