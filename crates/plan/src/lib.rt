//! Plans: a source as a flat list of steps. Between two steps, a walk over it needs no more than an
//! offset, the subject of the choice that began last, and the variables and definitions.
//!
//! ```text
//! AS_CASE([$host], [*linux*], [os=linux], [os=other])     Subject($host)
//! AC_OUTPUT                                               SkipUnless *linux*, 2
//!                                                         Do os=linux
//!                                                         Skip 3
//!                                                         SkipUnless the default, 2
//!                                                         Do os=other
//!                                                         Skip 0
//!                                                         Do AC_OUTPUT
//! ```
//!
//! A choice about each entry of a list is made in rounds, one for each entry. A `Round` begins one:
//! its entry is tested, and the steps of the cases follow. Since jumps are relative, they are the
//! same in each round.
//!
//! ```text
//! AC_CHECK_HEADERS([a.h b.h], [found=yes])                Round a.h
//!                                                         SkipUnless yes, 2
//!                                                         Do found=yes
//!                                                         Skip 0
//!                                                         Round b.h
//!                                                         SkipUnless yes, 2
//!                                                         Do found=yes
//!                                                         Skip 0
//! ```
//!
//! Read `step` (the steps, and the plan, whose jumps all stay inside), then `specs/Walk` (the
//! effect of a step, and of a plan), then `compiling`. `weight` counts the weight of a source, and
//! `emit` writes the steps from the last to the first, into `code`. `specs/Weight` and `specs/Code`
//! define both, and `specs/Inside` and `specs/Names` what holds of every plan. `naming` has a law
//! on the names that tests define, with `specs/Defined`. A plan borrows from the statements, and
//! copies none.
//!
//! The theorem is that the walk of a plan is the meaning of its statements, whatever the variables
//! and the definitions before it.
#![tactic(auto)]

mod code;
mod compiling;
mod emit;
mod fault;
mod naming;
mod step;
mod weight;

pub use compiling::{compile, compile_statements};
pub use fault::PlanFault;
pub use naming::tests_define_their_name;
pub use step::{Plan, Step};
