//! What a run leaves for its user to read: the messages of a stream, and the text of `config.log`,
//! which is made here, and read again line by line.
//!
//! The messages are the pieces for a stream, one after the other. The log has the pieces of both
//! streams and the children in between, each in lines of its own: the command, what the child wrote
//! to standard error, its status, and the program that didn't compile. The log of two lists, one
//! after the other, is their two logs, so a caller may write it in parts.
//!
//! Each call fails only if memory runs out. The time is in proportion to the text. What is read is
//! not copied: each line is a part of the text. "own" marks a rule that no manual gives.
//!
//! ```text
//! let text = messages_text(alloc, notes, Stream::Out, false)?; // checking for sys/stat.h... yes
//! let log = log_text(alloc, entries)?;                         // the same with `$ cc -c conftest1.c` and `status 0`
//! let lines = read_log(alloc, log.as_slice())?;                // Some: a message, a command, a status, and a message
//! ```
//!
//! Read `specs/Texts` for both texts, and then `messages` and `log`. `specs/Log` says what a line
//! of each form is and which texts are logs: read it for `forms` and `reading`. `specs/Written`
//! says what is read of a log that a run wrote, and `written` has the law that it is.
#![tactic(auto)]

mod forms;
mod log;
mod messages;
mod reading;
mod written;

pub use forms::LineKind;
pub use log::log_text;
pub use messages::messages_text;
pub use reading::{Line, read_log};
pub use written::written_logs_are_read;
