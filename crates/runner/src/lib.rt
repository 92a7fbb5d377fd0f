//! The program's commands, apart from the process that they run in.
//!
//! [`command`] chooses by the program's words, as the crate `cmd_call` reads them. `configure`, a
//! whole run over files, and `status --recheck`, such a run again, are in the crate
//! `cmd_configure`. `status`, which makes the outputs of a record again, and the stand-in for a
//! compiler are in `cmd_status`. Without words the program is the filter, in `cmd_filter`. For
//! `lint`, `port`, `header` and `why` another program is started, by `tool_start`.
//!
//! For example, the words `status` and `Makefile` make one output again, and [`command`] returns
//! the exit status.
//!
//! "own" marks a rule that no manual gives.
//!
//! The definitions are those of the crates below: `Calls` in `cmd_call`, `Configures` in
//! `cmd_configure`, `MadeAgain` in `cmd_status`, and `Filtered` in `cmd_filter`. `specs/Filters`
//! and `specs/Refusals` say what is said of a refusal, `specs/Tools` what is asked of the program of
//! the tools, and `specs/Puts` is small. In `src`, read `inputs` and `program`.
#![tactic(auto)]

mod inputs;
mod meeting;
mod program;

pub use cmd_call::{Heard, LOG, ProcessTexts, Terminal, Texts, environment, showing_of, words};
pub use cmd_explain::asks_why;
pub use cmd_filter::{FilterFault, Filtered, filter, tell};
pub use cmd_help::VERSION;
pub use engine_frame::Fault;
pub use program::{command, run};
