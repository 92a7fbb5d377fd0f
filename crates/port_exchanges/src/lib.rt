//! Writes calls that do the same in the place of others, which acrun does not read as they are.
//!
//! AC_PATH_PROGS without a path becomes calls of AC_PATH_PROG. A check for the first of two headers or
//! functions becomes two checks, of which the second one is made if the first one finds nothing.
//! AC_CACHE_VAL between its messages becomes AC_CACHE_CHECK. If all idioms are wanted, PATH is set around
//! a call that looks for a program along a path.
//!
//! ```text
//! AC_PATH_PROGS([A], [b c])    // becomes AC_PATH_PROG([A], [b]), and a line below it that looks for c
//! ```
//!
//! Read `specs/Exchanged`, `specs/Chains` and `specs/Pathed` of `port_passes`, and then `exchanging`,
//! `chains`, `cached` and `pathed`. `reading` has the texts of arguments. `types` finds the old form of
//! AC_CHECK_TYPE, and knows the names of C. A call fails only if memory runs out.
#![tactic(auto)]

mod cached;
mod chains;
mod exchanging;
mod pathed;
mod reading;
mod types;

pub use cached::pass_cached;
pub use chains::pass_chain;
pub use exchanging::pass_first_found;
pub use pathed::pass_path;
pub use types::names_default;
