//! Crews: they run the jobs of a configure run as child processes, several at once.
//!
//! The crate `crew_trait` says what a crew is. This one has four.
//!
//! ```text
//! let mut crew = ProcessCrew::new(rt, alloc)?;
//! crew.start(0, job)?;                       // a child process, with its conftest written first
//! let (slot, reply) = crew.next();           // 0, and its exit status with what it wrote to standard error
//! ```
//!
//! "own" marks a rule that no manual gives.
//!
//! [`MemoryCrew`], in `memory`, is a crew for tests. It answers from a list of replies, in a given
//! `order`, and lists its calls (`event`); `specs/Scripted.antt` defines the effect of each call,
//! and `flight` is one of its children. [`ProcessCrew`], in `process`, and [`ReadyCrew`], in
//! `ready`, start real children by the crate `crew_launch`. They differ in which child `next` ends,
//! and [`ReadyCrew`] reads all pipes.
//! `children` keeps their account. `table` has the child of each slot, the child that ended last,
//! and why calls were refused, and `numbered` is one of these children. `specs/Runs.antt` defines
//! the jobs that were started, and `specs/Holding.antt` which child is in a slot, and that a reply
//! is that of its child. All crews use `failures`, which counts refused calls, `counting`, which
//! counts children, and `room`.
//!
//! [`Fused`], in `fused`, is a crew around any other crew, for tests: it refuses one start or one
//! end. `specs/Fused.antt` defines its account by the account of the crew inside.
#![tactic(auto)]

mod children;
mod counting;
mod event;
mod failures;
mod flight;
mod fused;
mod memory;
mod numbered;
mod order;
mod process;
mod ready;
mod room;
mod table;

pub use crew_launch::PipeEnd;
pub use crew_refusals::Causes;
pub use crew_trait::{Crew, CrewEvent, Entry, Log, Refused, Reply};
pub use event::Event;
pub use fused::{FuseKind, Fused};
pub use memory::MemoryCrew;
pub use order::{Order, SlotList};
pub use process::ProcessCrew;
pub use ready::ReadyCrew;
