//! Whole texts that the program reads from files and writes to files, the receiver that writes what
//! a run hands over, and all that a reader gives.
//!
//! A name of a file is a byte text. It is UTF-8 and has no NUL; under any other name nothing is
//! read or written. A text that is written replaces the file whole, or the file stays as it was.
//! Only regular files are read, and only regular files and links are replaced: a pipe, a socket or
//! a device is never opened.
//!
//! ```text
//! let name = path_in(alloc, srcdir, b"configure.ac")?;       // ./configure.ac, if srcdir is .
//! let source = read_text(alloc, &disk, name.as_slice())?;    // None if it can't be read
//! let mut outputs = FileOutputs::new(alloc, disk);
//! outputs.put(Kind::File, b"src/Makefile", text)?;           // makes the directory src
//! outputs.lines()                                            // config.status: creating src/Makefile
//! outputs.close(b"config.log", log)?;                        // the last file, which is no artifact
//! let input = read_input(alloc, &mut io::stdin())?;          // AC_OUTPUT, %% and @PACKAGE_NAME@, each with its newline
//! let place = marker_place(&input);                          // Some(10), where the line `%%` begins
//! ```
//!
//! Contracts are over any `file_disk::Disk`. If it is known what is under its names, they say what
//! is read, and by which steps each text is written. They also say what the receipt of a receiver
//! is, and what its lines say. Of real files nothing is known, so tests show what is read and
//! written there. "own" marks a rule that no manual gives.
//!
//! Read `specs/Names`, `specs/Lines`, `specs/Steps` and `specs/Done`, then `names`, `reading`,
//! `writing`, `links`, `places`, `lines` and `receiver`. For what a reader gives, and its parts
//! before and after the line `%%`, read `specs/Parted`, then `input` and `marker`.
#![tactic(auto)]

pub mod input;
pub mod input_fault;
pub mod laws;
mod lines;
mod links;
pub mod marker;
mod names;
mod places;
mod reading;
mod receiver;
mod writing;

pub use file_disk::LARGEST_TEXT;
pub use input::read_input;
pub use input_fault::ReadFault;
pub use marker::{line_len, marker_place};
pub use names::path_in;
pub use places::is_own;
pub use reading::{read_limited, read_text, unread_cause};
pub use receiver::FileOutputs;
pub use writing::{Keeps, write_text};
