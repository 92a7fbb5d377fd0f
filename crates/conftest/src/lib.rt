//! Makes the jobs that a configure run gives to child processes.
//!
//! A check of a compiler writes a small C program, the conftest, and runs the compiler on it. The
//! words come from the variables of the run (`CC`, `CFLAGS` and the like). The text of the conftest
//! is the definitions made so far, followed by the source of the check. A job is only a value:
//! nothing is written or started here.
//!
//! ```text
//! let source = header_source(alloc, default_includes(), b"sys/stat.h")?;
//! let job = compile_job(alloc, &vars, &defs, source.as_slice(), 1)?;   // CC is `cc`
//! // job.words: cc, -c, conftest1.c; job.file: conftest1.c with the definitions and the source
//! ```
//!
//! A call that returns a `Result` fails if memory runs out; the calls that need a compiler name
//! their other error. No other call allocates. "own" marks a rule that no manual gives.
//!
//! The crate `crew_jobs` has the type of a job, and the definition of each: `job_of` of a probe,
//! its number, the variables and the definitions. Read it first, and then `fault`, `probe`,
//! `command` and `text`. The crate `conftest_source` makes the sources of the checks.
#![tactic(auto)]

mod command;
mod fault;
mod probe;
mod text;

pub use crew_jobs::{Job, Words};
pub use fault::JobFault;
pub use probe::{compile_job, link_job, link_job_with, path_job, preproc_job, run_job};
