//! The command `header`: the template of a header for what a source may define.
//!
//! [`run_header`] reads the source that is named, and prints the text of a template for its header,
//! such as `config.h.in`. It starts nothing and writes no file.
//!
//! ```text
//! run_header(alloc, files, &[b"configure.ac"], input, output, errors)   // 0, and the text is on `output`
//! ```
//!
//! "own" marks a rule that no manual gives.
//!
//! `header_template` makes the text, and `lint_sources` reads the source. In `specs`, read `Answers`,
//! and `Refusals` (what is said if the status is 2). Read `command`; `words` reads the words of the
//! command.
#![tactic(auto)]

mod command;
mod words;

pub use command::run_header;
