//! The words of faults of a source: what is wrong, and what to do.
//!
//! A fault line has a number and a place. What is here says the same in words, for who reads a
//! terminal: a short sentence that names the culprit, the form that acrun reads in place of a shell
//! construct, and lines of help. The words are for people, and may change; the fault lines do not.
//! They are in `lint_table`.
//!
//! ```text
//! // acrun does not know the macro AC_AIX
//! let finding = parse_finding(alloc, source, ParseFault::UnknownMacro(749), 749, calls)?;
//! shell_help(b"if test -f x; then")     // the shell's `if` is not supported; write AS_IF(..)
//! ```
//!
//! A call fails only if memory runs out. What is said is tested, and what is proved is that each
//! call ends, and where a finding is.
//!
//! Read `calls`, which finds the call that a place is in, `arguments` and `outputs`, which have what
//! an argument may be, and `forms`, which has the whole form of a call; then `parse` has the errors,
//! and `definitions` the macros that the source itself defines.
//! Shell text: read `table`, which has what is not supported, and then `shell`, which finds it in a
//! text. The words of faults of a run are in `run_words`.
#![tactic(auto)]

mod arguments;
mod calls;
mod definitions;
mod forms;
mod outputs;
mod parse;
mod shell;
mod table;

pub use definitions::Definitions;
pub use parse::parse_finding;
pub use shell::{shell_help, test_help, word_help};
pub use table::Construct;
