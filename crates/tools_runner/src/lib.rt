//! The commands of the tools, apart from the process that they run in.
//!
//! [`command`] chooses by the program's words, as the crate `cmd_call` reads them: `lint` says what
//! is wrong with sources, `port` rewrites one, `header` makes a template of what one may define,
//! `why` says why a check has its answer, and `help` how commands are called. The program `acrun`
//! starts this program for the first four, and names its version by the first word.
//!
//! For example, the words `--acrun=0.1.0`, `lint` and `configure.ac` print what is wrong with that
//! file, and [`command`] returns the exit status.
//!
//! "own" marks a rule that no manual gives.
//!
//! The definitions are those of the crates below: `Calls` in `cmd_call`, `Status` in `cmd_lint`,
//! `Printed` in `cmd_port`, `Answers` in `cmd_header` and `Why` in `cmd_why`. `specs/Words` says which words are taken, and
//! `specs/Refusals` what is said of a refusal. In `src`, read `program`.
#![tactic(auto)]

mod program;

pub use cmd_call::{Heard, ProcessTexts, Terminal, environment, tell_memory, words};
pub use cmd_help::VERSION;
pub use program::{command, run};
