//! The fingerprint of a run: a digest of all that the run rests on, apart from the answers of its
//! children.
//!
//! Two runs with one fingerprint ask for the same children, as long as these answer the same, so
//! answers that one of them kept can serve the other. "own" marks a rule that no manual gives.
//!
//! ```text
//! let run = RunInputs { version: b"0.1.0", source, arguments, environment, directory, mask: 0o022, cache: None, programs: &[] };
//! let digest = fingerprint_of(&run);   // 32 bytes
//! ```
//!
//! Read `specs/Fingerprint`, then `inputs`, `feeding` and `laws`.
#![tactic(auto)]

mod feeding;
mod inputs;
mod laws;

pub use feeding::fingerprint_of;
pub use inputs::{ProgramAt, RunInputs};
pub use laws::fingerprints;
