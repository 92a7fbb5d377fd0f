//! Findings as they are shown: with the line of the file and a mark under it, or as JSON.
//!
//! ```text
//! let shown = excerpt_of(alloc, &finding, b"configure.ac", source, false)?;
//! ```
//!
//! gives, for a finding of a macro in line 24,
//!
//! ```text
//! configure.ac:24:1: error: acrun does not know the macro AC_PROG_INSTALL
//!    24 | AC_PROG_INSTALL
//!       | ^^^^^^^^^^^^^^^
//!    = help: write instead
//!          AC_SUBST([INSTALL], ["install -c"])
//! ```
//!
//! A call fails only if memory runs out. It is proved that what is shown without colours has no
//! control byte but tabs and newlines, so that no source can drive a terminal by it; and that a
//! finding as JSON is the object that `specs/Json` says, if all of it is printable ASCII. What is
//! shown besides is tested.
//!
//! Read `specs/Plain` and `draft`, on which texts are written, then `marked`, which shows a line
//! and marks a part of it, `excerpt`, and `specs/Json` and `object`.
#![tactic(auto)]

mod draft;
mod excerpt;
mod marked;
mod object;

pub use excerpt::excerpt_of;
pub use object::json_of;
