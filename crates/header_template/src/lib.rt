//! The template of a header for what a source may define, as autoheader writes it.
//!
//! A template lists names, so that a run can put a definition in the place of each. [`template_of`]
//! makes its text of a source that was read: each name that a statement may define, with a comment
//! that describes it. Names are in byte order, and each is there once.
//!
//! ```text
//! AC_INIT([demo],[1.0])
//! AC_CHECK_HEADERS([stdio.h])
//! AC_DEFINE([USE_X],[1],[Define to 1 to use X.])
//! AC_OUTPUT
//! ```
//!
//! The text of this source has PACKAGE_BUGREPORT and five more names of AC_INIT, and
//!
//! ```text
//! /* Define to 1 if you have the <stdio.h> header file. */
//! #undef HAVE_STDIO_H
//! ```
//!
//! before them. A call fails only if memory runs out. "own" marks a rule that no manual gives.
//!
//! In `specs`, read `Table`, `Notes`, `Mentions` and `Pages`. `table` puts names in order, `notes`
//! finds the descriptions in the calls of a source, `mentions` what its statements may define, and
//! `words` the words of autoheader. `page` writes the text.
#![tactic(auto)]

mod mentions;
mod notes;
mod page;
mod table;
mod words;

pub use page::{Template, template_of};
