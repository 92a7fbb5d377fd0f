//! Fills templates: texts in which `@KEY@` is replaced by the value of an output variable, and
//! headers in which lines with `#undef` and `#define` are replaced by definitions.
//!
//! [`fill`] writes the value of a key for each `@KEY@`, and copies everything else. A value isn't
//! read again, so it may contain an `@` or the name of another key. A [`Filler`] does the same with
//! a template in pieces. [`fill_header`] makes a header, line by line.
//!
//! ```text
//! let mut table = Table::new(alloc);
//! table.set(b"CC", b"cc -O2")?;
//! let made = fill(alloc, b"CC = @CC@ # not @nope@\n", &table)?; // CC = cc -O2 # not @nope@
//! ```
//!
//! A call that returns a `Result` fails only if memory runs out, and no other call allocates. "own"
//! marks a rule that no manual gives.
//!
//! Read `specs/Fill.antt` first. It defines the filled text of a template twice: as a relation, by
//! cases on the template's front, and as a function. Then read `table` and `filling`; its
//! [`has_one_filled_text`] says that the two definitions agree. `specs/Pieces.antt` and `pieces`
//! have templates in pieces, and [`pieces_join`] says what all pieces give together; [`fill`] and
//! [`Filler::feed`] share one loop. `specs/Header.antt` and `header` do the same for headers.
//! `signs` finds each `@` of a text, and `sieve` rules out most texts that aren't keys before they
//! are looked up. `paths` has what differs between output files: the names of directories, and the
//! name of the template. `specs/Place.antt` defines them.
#![tactic(auto)]

pub mod filling;
pub mod header;
pub mod paths;
pub mod pieces;
mod sieve;
mod signs;
pub mod table;

pub use filling::{fill, has_one_filled_text};
pub use header::{fill_header, has_one_header};
pub use paths::{FileDirectories, configure_input, header_note, place_vars};
pub use pieces::{Filler, pieces_join};
pub use table::Table;
