//! What the program is asked to do, what it reads for that, and how it prints. This is no command,
//! but what the commands share, and nothing here runs a source.
//!
//! [`words`] and [`environment`] are what the process is given, and [`call_of`] says which command
//! the words name. [`read_supplies`] and [`record_templates`] read what a command needs besides its
//! source or its record. [`print_all`], [`print_text`] and [`write_log`] leave what a run has for
//! its user. Each error is one line on standard error, by a function `tell_..`, which returns
//! [`FAULT`].
//!
//! ```text
//! call_of(["-j4", "configure", "-q"])  // Configure(4, ["-q"]), of which showing_of shows nothing
//! tell_file(errors, b"config.status")  // acrun: file config.status
//! ```
//!
//! "own" marks a rule that no manual gives.
//!
//! In `specs`, read `Calls` (what the program is asked to do), `Errors` (what a run prints on
//! standard error), `Lines` (the line of an error, and what a stream took of it), `Precious`,
//! `Supplies` (what a run is given, as it is in files), `Logged` and `Progress`; `Lent` is small. In
//! `src`, read `call`, `supplies`, `hearing` (standard error), `printing` and `error_lines`;
//! `process` reads what the process is given, and `progress` says what the program shows of its
//! children.
#![tactic(auto)]

mod call;
mod error_lines;
mod hearing;
mod printing;
mod process;
mod progress;
mod spot;
mod supplies;
mod terminal;
mod writes;

pub use call::{ProgramCall, call_of};
pub use error_lines::{
    FAULT, tell_file, tell_memory, tell_named, tell_numbered, tell_precious, tell_put, tell_spot,
    tell_usage,
};
pub use hearing::{Heard, Hears};
pub use printing::{LOG, print_all, print_text, write_errors, write_log};
pub use process::{Listed, ProcessTexts, Texts, environment, words};
pub use progress::{Showing, showing_of};
pub use spot::{Spot, record_spot};
pub use supplies::{Supplies, keep_inputs, read_supplies, read_templates, record_templates};
pub use terminal::Terminal;
pub use writes::Stopped;
