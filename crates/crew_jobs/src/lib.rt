//! The jobs that a configure run gives to child processes. A job is the words of a command and, for
//! most, a program for it to read. It is only a value: nothing is written or started here.
//!
//! The job that compiles the first program of a run with `CC=cc -O2` has the words `cc`, `-O2`,
//! `-c` and `conftest1.c`, and the text of the program.
//!
//! The crate `conftest` makes the jobs. A crate that speaks of jobs, and makes none, needs this
//! crate alone.
//!
//! "own" marks a rule that no manual gives.
//!
//! Read `specs/Probe.antt` first: each job is `job_of` of a probe, its number, the variables and
//! the definitions. Then read `words` and `job`. A command's words, with the program first, are a
//! list of texts.
#![tactic(auto)]

mod job;
mod words;

pub use deftable::Texts as Words;
pub use job::Job;
pub use words::push_all;
