//! The message that a line of a shell prints by `echo`.
//!
//! A line is read if it has nothing but spaces, `echo` and one space, and after that words that a
//! shell reads as they are, or one word in quotes. What is around the line is not looked at.
//!
//! ```text
//! echo_message(b"  echo using $x", 0, 2, 15)       // using $x
//! echo_message(b"echo 'using x'", 0, 0, 14)        // using x
//! echo_message(b"echo a > b", 0, 0, 10)            // None
//! ```
//!
//! [`line_command`] returns the command of a line, whatever it is. [`message_of`] reads what is given
//! to `echo` alone, and [`is_one_word`] a single word.
//!
//! Read `specs/Echo` and `specs/Commands`, and then this crate from `printed` on. No call allocates, and none fails. "own"
//! marks a rule that no manual gives.
#![tactic(auto)]

mod command;
mod line;
mod printed;

pub use command::{is_blank_echo, line_command};
pub use line::echo_message;
pub use printed::{is_one_word, message_of};
