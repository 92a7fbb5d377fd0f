//! Laws of what is read of a disk after a run, and of `configure` and `status`, if nobody else
//! changes their files.
//!
//! There is no code here. Each function does nothing, and its contract is a theorem: on the
//! definitions of `file_texts`, of what a receiver did for what was handed over and which names it
//! guarded; and on what the program does if it is asked to run a configure.ac, and then to make the
//! outputs again. "own" marks a rule that no manual gives.
//!
//! For example, a run writes `config.status` and `Makefile`, and then `config.log`. It guards
//! `Makefile.in`. So what is read afterwards under `Makefile.in` is what was read before the run,
//! and under each other name what was written. `acrun status` reads `config.status` and
//! `Makefile.in` as the run left them, and makes the same `Makefile`.
//!
//! Read `specs/Rerun.antt`, `specs/Tree.antt`, a disk to which the laws apply, `specs/Example.antt`,
//! and then `specs/Again.antt` and `specs/Package.antt`.
#![tactic(auto)]

mod again;
mod example;
mod rerun;

pub use again::status_makes_the_same;
pub use example::{packages_can_be_made_again, premises_can_be_met};
pub use rerun::{
    flat_disks_are_coherent, inputs_are_kept, outputs_are_read, real_disks_need_premises,
    trees_are_coherent,
};
