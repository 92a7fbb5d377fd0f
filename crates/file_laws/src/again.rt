//! A law of `configure` and `status`, if nobody else changes their files.
//!
//! There is no code here. [`status_makes_the_same`] does nothing, and its contract is a theorem on
//! what the program does if it is asked to run a configure.ac, and then to make the outputs again.
//! "own" marks a rule that no manual gives.
//!
//! For example, a run makes `Makefile` of `Makefile.in`. `acrun status` reads `config.status` and
//! `Makefile.in` as the run left them, and makes the same `Makefile`.
//!
//! Read `specs/Again.antt`.

ghost use Rattle.file_laws.specs.Again.{StatusMakesTheSame};

use crate::{inputs_are_kept, outputs_are_read};

/// After a completed run, the outputs that `status` makes are those of the run, to the byte.
#[tactic(auto, using(crate::proofs::Agains::makes_same))]
pub fn status_makes_the_same()
    ensures { StatusMakesTheSame }
{
    outputs_are_read();
    inputs_are_kept();
}
