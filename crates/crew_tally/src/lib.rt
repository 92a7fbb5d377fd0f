//! The last line of a run on a terminal: how many checks it made, how many answers the cache had,
//! how many children it started, and how long it took.
//!
//! ```text
//! let mut output = Counted::new(rt.stdout(), true);
//! output.write_all(b"checking for stdio.h... (cached) yes\n")?;
//! if let Some(tally) = output.tally() {
//!     summary(alloc, &tally, 0, 12)?; // acrun: 1 check, 1 from the cache, no children, 12 ms
//! }
//! ```
//!
//! If it is asked, the checks are counted in what is printed: each line that begins with `checking ` is one, and if
//! it has `(cached) `, the cache had its answer.
//!
//! "own" marks a rule that no manual gives.
//!
//! Read `specs/Tallies.antt`, which defines what is counted, `tally`, `counted` and then `line`.
//! `children` has the trait of what counts children.
#![tactic(auto)]

mod children;
mod counted;
mod line;
mod tally;

pub use children::Children;
pub use counted::Counted;
pub use line::summary;
pub use tally::Tally;
