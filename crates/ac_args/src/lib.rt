//! Forms of the arguments of macros, and of the text between calls.
//!
//! A macro's row in the table of macros says which form each of its arguments has: a name, a title,
//! a line, a list of outputs or of headers. This crate reads one such form at a time: from an
//! argument, which is a span of the source, to its value or to the error that a user sees.
//!
//! Read `arguments` first, then the forms in any order: `numbers` (versions, statuses and
//! languages), `shell` (words, tests and patterns), `outputs` (lists of outputs, with `path`),
//! `feature` (options), `program` (programs and texts that are compiled), `library` (libraries) and
//! `helping` (help arguments). Headers, functions, declarations and types are entries: read
//! `commas` (texts separated by commas), then `entry_forms` (the form of each kind) and `entries`
//! (one entry, or a list of 1 to 256). `comma_facts` has a law of texts separated by commas. The
//! crate `ac_statement` has the errors, and arguments that hold statements.
//!
//! ```text
//! [ demo ]                  read as a title demo, read as a line ` demo `
//! stdio.h unistd.h          headers: stdio.h, unistd.h
//! f (int, char), size_t     types: f (int, char), size_t
//! ```
//!
//! Every reader fails with `OutOfMemory` if memory runs out, and with `Quote` if the quotes of its
//! argument have an error. The error sections below name the other variants.
#![tactic(auto)]

pub mod arguments;
mod comma_facts;
mod commas;
pub mod entries;
mod entry_forms;
pub mod feature;
pub mod helping;
pub mod library;
pub mod numbers;
pub mod outputs;
mod path;
pub mod program;
pub mod shell;

pub use ac_statement::ParseFault;
pub use comma_facts::comma_laws;
