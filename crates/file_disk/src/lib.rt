//! The files that the program reads and writes, as a trait.
//!
//! ```text
//! let mut disk = Host::new(&rt);
//! disk.read(alloc, "configure.ac")?                          // its text, or None if it can't be read
//! let file = disk.create("acrun-1.tmp")?;
//! disk.fill("acrun-1.tmp", file, None, b"text")?;
//! disk.rename("acrun-1.tmp", "Makefile")?;
//! ```
//!
//! No contract of std says what a file holds. So a [`Disk`] has a ghost member: what was done to it
//! so far, and what is under each name, if that is known. What a crate above reads and writes is
//! proved for each disk of which it is known. Of the [`Host`], the real files, nothing is known:
//! its functions are short, and only tests check them. "own" marks a rule that no manual gives.
//!
//! Read `specs/Known`, then `disk_trait`, `found`, `clearing`, with `specs/Clearing`, and `host`.
#![tactic(auto)]

mod clearing;
mod disk_trait;
mod found;
mod host;

pub use clearing::{clear, create_filled};
pub use disk_trait::Disk;
pub use found::{Found, not_regular};
pub use host::{Host, LARGEST_TEXT};
