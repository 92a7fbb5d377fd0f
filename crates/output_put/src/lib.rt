//! What a run hands over, and the trait of what receives it.
//!
//! A run makes artifacts: the text of its cache, its record, files and headers. It hands them over
//! to a receiver, one after the other, and the receiver takes each of them whole or refuses it. The
//! receipt of a receiver is what it took, in order, and the number of puts that it refused. Nothing
//! here says where an artifact goes: a receiver may write to a disk, or keep artifacts in memory.
//!
//! ```text
//! let mut outputs = MemoryOutputs::new(alloc, 0);
//! put_all(&mut outputs, artifacts.as_slice())   // Ok(()), or Err(2) if the second was refused: then only the first was taken
//! ```
//!
//! "own" marks a rule that no manual gives.
//!
//! Read `specs/Receipt` first, and then `artifact`, `receiver`, which has the trait [`Outputs`],
//! and `putting`. [`MemoryOutputs`], in `memory`, keeps what it takes; `specs/Kept` has what
//! contracts see of it.
#![tactic(auto)]

mod artifact;
mod memory;
mod putting;
mod receiver;

pub use artifact::{Artifact, Artifacts, Kind};
pub use memory::MemoryOutputs;
pub use putting::put_all;
pub use receiver::{Outputs, PutRefused};
