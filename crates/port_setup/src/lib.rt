//! Writes what sets a package and its compiler up, and a program in the place of AC_EGREP_CPP, if all
//! idioms are wanted.
//!
//! After AC_PROG_CC, GCC and CFLAGS are set, and the default headers are looked for. AC_INIT gets the name
//! and the version of AM_INIT_AUTOMAKE. AC_EGREP_CPP of a word that a symbol decides about becomes AC_PREPROC_IFELSE.
//!
//! ```text
//! AC_INIT(main.c)                 // becomes AC_INIT([a], [1.0]) and AC_CONFIG_SRCDIR([main.c]), below a comment,
//! AM_INIT_AUTOMAKE(a, 1.0)        // if this is below it
//! ```
//!
//! Read `specs/Making` and `specs/Compiler` of `port_passes` (what is put) and `specs/Needed` (whether it
//! is), and then `package`, `compiler` with `needing` and `gnu`, and `seeking`. A call fails only if memory
//! runs out. "own" marks a rule that no manual gives.
#![tactic(auto)]

mod compiler;
mod gnu;
mod needing;
mod package;
mod seeking;

pub use gnu::{compiler_in, pass_compiler};
pub use needing::lines_needed;
pub use package::{Title, first_two, pass_title, title_in};
pub use seeking::pass_search;
