//! Reads the parts of statements of a shell, whose words are at known offsets: `if`, `case`, and a
//! statement after `&&` or `||`. Writes the turns of a `for`.
//!
//! The parts are slices of the text, in the order in which a macro takes them. If the offsets are
//! not those of such a statement, or if a part can't be an argument of a macro as it is, there are
//! none.
//!
//! ```text
//! if test -n "$a"; then b=1; else b=2; fi    // test -n "$a", b=1, b=2
//! case $a in x | y) b=1 ;; *) b=2 ;; esac    // $a, x | y, b=1, b=2
//! test -n "$a" || b=2                        // test -n "$a", nothing, b=2
//! ```
//!
//! Read the definitions of `port_parts` first, and then `specs/Ifs`, `specs/Cases` and `specs/Guards`,
//! which say what the parts are. `specs/Loops` says what is written. A call fails only if memory runs out. "own" marks a rule that
//! no manual gives.
#![tactic(auto)]

mod branches;
mod cases;
mod defaults;
mod guards;
mod loops;
mod status;

pub use branches::if_parts;
pub use cases::case_parts;
pub use defaults::{assignment_of, default_of, empty_test};
pub use guards::guard_parts;
pub use loops::loop_turns;
pub use status::reads_status;
