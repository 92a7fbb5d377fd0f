//! What is shown of the children of a run while they are in flight.
//!
//! [`Watched`] is a crew around another one. It hands each call on, and keeps the other's account.
//! What it shows on a stream is one of these, or nothing:
//!
//! - The line of a terminal. After each start that is taken and after each end it writes one text:
//!   the erasure of the line and, while a child is in flight, the line anew. So nothing of it is
//!   left once no child is in flight, whatever is printed next.
//! - A line for each child that is started, in one write, for a log that somebody reads while the
//!   run goes on or after it hung.
//!
//! ```text
//! let mut crew = Watched::new(ProcessCrew::new(rt, alloc)?, Heard::new(rt.stderr()), Showing::Line);
//! crew.start(0, job)?;                       // 1 started, 0 ended: header sys/stat.h
//! let (slot, reply) = crew.next();           // the line is gone
//!
//! let mut crew = Watched::new(ProcessCrew::new(rt, alloc)?, Heard::new(rt.stderr()), Showing::Lines);
//! crew.start(0, job)?;                       // acrun: child 1, header sys/stat.h: gcc -c conftest.c
//! ```
//!
//! The line of a terminal has the number of children that were started, the number that have ended,
//! and what was started last: the header, function, declaration or type that the conftest tests, or
//! its command if the conftest's text doesn't tell that. It has at most 79 columns. While it is
//! written the terminal's wrapping is off, so that it is one line also if the terminal is narrower.
//! The line of a child has its number, which counts the starts that were refused too, then what its
//! conftest tests, and its command. It has at most 400 bytes, and ends in three dots if it is cut.
//! A command is shown by its words, but of one that looks for a program both lines say which, and
//! in which directory: `looking for gcc in /usr/bin`. In both each byte that isn't printable ASCII
//! is shown as `\xNN`, so that nothing in them drives a terminal.
//!
//! "own" marks a rule that no manual gives.
//!
//! `specs/Progress.antt` defines the line of a terminal, and what is written after a list of
//! events, `specs/Child.antt` the line of a child, `specs/Subject.antt` what is said of a job, and
//! `specs/Screen.antt` what fits in a line. `specs/Watch.antt` has what contracts see of the crew.
//! In the code, read `screen`, `subject`, `line`, `child` and then `watched`.
#![tactic(auto)]

mod child;
mod known;
mod line;
mod screen;
mod subject;
mod watched;

pub use cmd_call::{Heard, Showing};
pub use watched::Watched;
