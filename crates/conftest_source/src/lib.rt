//! The C programs that checks compile, and the default includes.
//!
//! A check of a header or a function makes its program here. What a check of a declaration or a type
//! has in `main`, and a program of a configure.ac, as AC_LANG_PROGRAM gives it, get the rest from
//! [`program_source`]. The texts of the programs are own: no manual gives them. The crate `conftest`
//! writes the definitions made so far before them.
//!
//! For example, `header_source(alloc, default_includes(), b"sys/stat.h")` returns the default
//! includes followed by `#include <sys/stat.h>`.
//!
//! A call that returns a `Result` fails only if memory runs out, and no other call allocates.
//!
//! Read `specs/Sources.antt`, then `sources`.
#![tactic(auto)]

mod sources;

pub use sources::{default_includes, function_source, header_source, program_source, put_ended};
