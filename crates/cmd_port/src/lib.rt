//! The command `port`: prints a configure.ac with the idioms of the table of other macros, and with
//! a comment at what has to be done by hand. It starts nothing and writes no file.
//!
//! [`port`] replaces each call that has an exact idiom: one that leaves the same definitions and
//! output variables. With `--idioms` it also replaces calls by idioms that differ, each below a
//! line `dnl acrun: in place of ..` that says in what. With `--package=NAME,VERSION` as well, AC_INIT
//! gets both, if it has none that are kept. It also replaces statements of a shell that
//! mean the same as a call, such as `if`. All else is copied to the byte. What is still an error
//! has a line `dnl acrun: ..` above it, in the words of `lint`.
//!
//! ```text
//! AC_HAVE_FUNCS(getcwd)        // becomes AC_CHECK_FUNCS([getcwd])
//! if test a = b; then c=1; fi  // becomes AS_IF([test a = b], [c=1])
//! AM_INIT_AUTOMAKE             // has a line above it: dnl acrun: acrun does not know the macro AM_INIT_AUTOMAKE; ..
//! run_port(alloc, disk, &[b"configure.ac"], input, output, errors)   // 1 if something is left to do
//! ```
//!
//! A call fails only if memory runs out. "own" marks a rule that no manual gives.
//!
//! A source of a file that acrun then accepts gets lines for its templates: before AC_OUTPUT those
//! that set names which Autoconf sets itself, and after AC_PROG_CC one for CFLAGS. What is left to do
//! in the templates has a comment too.
//!
//! Read `specs/Ported`, which says what is copied, and `specs/Served`. `port_calls` replaces the calls, `port_shell`
//! the statements, `port_messages` what they print, and `lint_all` finds each statement with an error. In `src`, read `lines` (above
//! which line a comment can be), `comments`, `moving`, `whole`, `templates`, and then `serving`. For the command, read
//! `specs/Asked` (what the words ask for), `specs/Printed` and `specs/Refusals`, and then `asking`
//! and `command`.
#![tactic(auto)]

mod asking;
mod command;
mod comments;
mod lines;
mod moving;
mod serving;
mod templates;
mod whole;

pub use command::run_port;
pub use whole::{Ported, port};
