//! Files and headers that a run makes: their names, their templates, and lists of them.
//!
//! The parser makes these lists from a configure.ac, and the record of a run holds them. An output
//! is a name and a template, both paths below a directory, as [`is_path`] tests. No two outputs of
//! a run have one name, whether files or headers.
//!
//! ```text
//! is_path(alloc, b"src/Makefile")?; // true
//! is_path(alloc, b"../Makefile")?;  // false
//! ```
//!
//! In `specs`, read `Path`, then `Output`. An operation that allocates fails only if memory runs
//! out.
#![tactic(auto)]

mod output;
mod path;

pub use output::{Output, OutputList};
pub use path::is_path;
