//! Replaces the calls of other macros in a configure.ac by the idioms of the table of other macros.
//!
//! `port_changes` says what a call becomes, and `port_passes` what else is written in a pass over the
//! calls. `port_exchanges` and `port_setup` write calls that are made of others. This crate goes over a
//! text, as often as something changes. The old name of AS_HELP_STRING is replaced too. All else is
//! copied to the byte. [`with_package`] writes a name and a version that are given from outside into
//! AC_INIT.
//!
//! ```text
//! AC_HAVE_FUNCS(getcwd)        // becomes AC_CHECK_FUNCS([getcwd])
//! AC_C_CONST                   // is left out
//! x=$PKG_CONFIG                // becomes x=$[PKG_CONFIG]
//! AM_INIT_AUTOMAKE             // stays
//! AC_FUNC_MALLOC               // stays, or becomes a line `dnl acrun: in place of AC_FUNC_MALLOC: ..` and an AC_DEFINE
//! ```
//!
//! Read `specs/Put` of `port_spots` (what is put), and `specs/Making` and `specs/Rewritten` of `port_passes`
//! (what is copied). `port_idioms` says which idioms are exact. In `src`, read `knowing` (what is known of a
//! text), `passing` (one pass over the calls), and then `passes`. `stated` is apart from these. The time of
//! a pass is in proportion to the length of the text. A call fails only if memory runs out. "own" marks a
//! rule that no manual gives.
#![tactic(auto)]

mod knowing;
mod passes;
mod passing;
mod stated;

pub use passes::replaced;
pub use stated::{Package, with_package};
