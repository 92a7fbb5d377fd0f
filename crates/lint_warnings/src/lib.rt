//! Warnings about a source that means something else than it seems to, or than it means to
//! Autoconf.
//!
//! ```text
//! let calls = calls_of(alloc, text)?;
//! warn_of_calls(alloc, &index, text, calls.as_slice(), &mut found)?;     // AC_CHECK_LIB([m], [main]) is always no
//! warn_of_compiler(alloc, text, calls.as_slice(), &mut found)?;          // nothing tries whether the compiler works
//! warn_of_source(alloc, text, calls.as_slice(), &source, &mut found)?;   // $srcdir is empty
//! ```
//!
//! "own" marks a rule that no manual gives.
//!
//! `extent` has the parts of a call, and `rows` what is looked for in arguments. `calls` and
//! `foreign` read the calls of the source, `includes` those that look for declarations, `compiler`
//! their order, and `texts` its text and its statements. `shellwords` finds words that a shell
//! reads otherwise. `names` has the variables of a source, and `variables` those that acrun doesn't
//! set. `order` finds the first statement that can't be resumed. `noted` says which calls `acrun port`
//! wrote, of which `compiler` and `order` don't warn.
#![tactic(auto)]

mod calls;
mod compiler;
mod extent;
mod foreign;
mod includes;
mod lines;
mod names;
mod noted;
mod order;
mod rows;
mod shellwords;
mod texts;
mod variables;

pub use calls::warn_of_calls;
pub use compiler::warn_of_compiler;
pub use texts::warn_of_source;
