//! Breaks the lines of a shell around an `echo` or an `exit` that is in a line with other commands, so
//! that it has a line of its own.
//!
//! An `echo` is one of which the line is known that it prints, and an `exit` has a status of one digit
//! that isn't 0. The line is broken before it where a statement may begin, and after it before `;;`
//! and the bracket that an argument ends with. A `;` after it becomes the newline.
//!
//! ```text
//! if a; then echo x; b=1; fi    // if a; then
//!                               //   echo x
//!                               //   b=1; fi
//! *) exit 1 ;;                  // *)
//!                               //   exit 1
//!                               //   ;;
//! ```
//!
//! Read `specs/Breaks`, and then this crate from `told` on. A call fails only if memory runs out. "own"
//! marks a rule that no manual gives.
#![tactic(auto)]

mod breaks;
#[cfg(test)]
mod tests;
mod told;

pub use breaks::{broken, command_at};
pub use told::{after_spaces, before_spaces, is_digit, rest_after};
