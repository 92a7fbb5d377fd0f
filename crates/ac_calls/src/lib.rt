//! Finds every macro call of a configure.ac that is where a statement may be, at any depth.
//!
//! `calls_of` gives the calls of a text in order of their offsets: those of the text itself, and
//! those of the arguments that hold statements of the macros that the table of macros has. The
//! arguments of other macros are left alone, and so is shell text between calls. A text or an
//! argument with an error in its quotes has no calls. Whoever reads the items of a source too reads
//! them once, by `items_of`, and finds their calls by `calls_in`.
//!
//! `calls_of(alloc, b"AS_IF([test $x = y], [AC_PROG_AWK])\n")` gives two calls: AS_IF at 0, and
//! AC_PROG_AWK at 23, which isn't in the table.
//!
//! Read `call` (what is returned), and then `finding`. `specs/Calls` has the definitions, and
//! `ac_macros::arguments` says which arguments hold statements. Every function fails only if memory runs out.
#![tactic(auto)]

mod call;
mod finding;

pub use call::{CallAt, Extent};
pub use finding::{calls_in, calls_of, items_of};
