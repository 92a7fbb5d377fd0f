//! What a run rests on besides what it is given: where it is, what its files' modes are masked by,
//! and the programs that it is likely to start. And a file that only its user could have written.
//!
//! ```text
//! let run = fingerprint_here(rt, alloc, VERSION, &givens);   // 32 bytes, or None if that isn't known
//! let text = read_own(alloc, rt, "config.answers");          // None if somebody else may have written it
//! ```
//!
//! "own" marks a rule that no manual gives.
//!
//! Read `specs/Entries.antt`, and then `entries`, `programs`, `mask`, `here` and `own_file`.
#![tactic(auto)]

mod entries;
mod here;
mod mask;
mod own_file;
mod programs;

pub use entries::begins_afresh;
pub use here::fingerprint_here;
pub use own_file::read_own;
