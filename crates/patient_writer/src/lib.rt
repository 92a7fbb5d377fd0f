//! A writer that waits while its stream takes nothing at the moment.
//!
//! ```text
//! let mut output = Patient::new(io::writer(&rt), &rt);
//! output.write_all(b"checking for stdio.h... yes\n")?;
//! ```
//!
//! Whoever starts a program may leave its standard output so that no write waits (`O_NONBLOCK`).
//! Then a write fails while the reader is late, though nothing is wrong. Such a write is tried again
//! for a minute.
//!
//! "own" marks a rule that no manual gives.
#![tactic(auto)]

mod patient;

pub use patient::Patient;
