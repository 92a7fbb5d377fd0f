//! The filter: a whole run in memory, from a text that is read to a text that is written.
//!
//! The text that is read is a configure.ac, a line `%%` and the template of its first file.
//! [`filter`] parses the source, judges it without arguments and environment, and runs it without a
//! cache, over a crew that refuses each start and a receiver in memory (`acparse::parse`,
//! `engine::judge` and `engine::go`). It writes the first file that is handed over.
//!
//! From the lines `AC_INIT([demo],[1.0])`, `AC_CONFIG_FILES([out])`, `AC_OUTPUT`, `%%` and
//! `@PACKAGE_NAME@`, it writes `demo` and a newline.
//!
//! "own" marks a rule that no manual gives.
//!
//! In `specs`, read `Ran` (what a run leaves if each start is refused), `Handed` (what the filter
//! gives a run, and takes of it) and `Filtered`. In `src`, read `running`, `result` and `whole`;
//! `fault` and `fault_line` are small.
#![tactic(auto)]

mod fault;
mod fault_line;
mod result;
mod running;
mod whole;

pub use fault::FilterFault;
pub use fault_line::tell;
pub use whole::{Filtered, filter, filter_keeping, source_part};
