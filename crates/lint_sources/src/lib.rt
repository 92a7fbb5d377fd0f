//! Reads the source that a word names, and finds what is wrong with it and with its templates.
//!
//! [`read_named`] reads a source, and [`linted_page`] has what is found in it: its errors, as far
//! as reading on after each finds them, the templates that are not there, and warnings, in order of
//! place. [`differences_of`] has the warnings of what means another thing to Autoconf.
//! [`add_reasons`] says of a statement of a shell why no call can be put in its place. `lint` and
//! `port` show these. [`wanted_of`] has what templates want of a source, and [`left_of`] what is left
//! to do in them. Nothing is started, and no file is written.
//!
//! ```text
//! let linted = read_named(alloc, files, false, input, b"configure.ac")?;   // None if it can't be read
//! linted_page(alloc, files, form, true, &linted)?                          // the page, and whether there is an error
//! ```
//!
//! A call fails only if memory runs out. "own" marks a rule that no manual gives.
//!
//! In `specs`, read `Sources` (which source is read, and whether it has an error), `Missing`,
//! `Warned` and `Differing`. Read `reading`, then `findings`, which finds, and `showing`. `templates`
//! reads the templates of a source, and `sheets` holds them. `warnings` asks for the warnings about
//! each part of a source, and `linter` finds them. `listing` says what the templates of headers
//! list, and `words` which words name what.
#![tactic(auto)]

mod differing;
mod findings;
mod linter;
mod listing;
mod reading;
mod reasons;
mod sheets;
mod showing;
mod templates;
mod wants;
mod warnings;
mod words;

pub use differing::differences_of;
pub use reading::{Linted, SOURCE, read_named};
pub use reasons::add_reasons;
pub use showing::{FindingForm, linted_page};
pub use wants::{Wanted, left_of, wanted_of};
pub use words::{has_input, is_option};
