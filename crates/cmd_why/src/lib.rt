//! The command `acrun why [WORD [LOG]]`: why a check has the answer that it has, by the log of the
//! run.
//!
//! [`run_why`] reads a log, looks for the checks that WORD is about, and prints each with its
//! answer, its children, and the program that failed. If WORD is about none, it prints the checks
//! that are nearest to it. Without WORD, it prints with which arguments the run was made that
//! `config.status` is of.
//!
//! A check is read from its first line to its answer. So the time is in proportion to the log and
//! to how many checks are open at once, and the memory to the log and to what is printed. "own"
//! marks a rule that no manual gives.
//!
//! ```text
//! run_why(alloc, disk, ["sys/stat.h"], output, errors)
//! // checking for sys/stat.h... no
//! // child 1:
//! // $ cc -c conftest1.c
//! // conftest1.c:6:10: fatal error: sys/stat.h: No such file or directory
//! // status 1
//! // failed program was:
//! // | #include <sys/stat.h>
//! ```
//!
//! In `specs`, read `Lines` (the checks of a log, and which lines are a check's), `Subjects` (what
//! a check is about), `Names` (which names a check has), `Shown`, `Doubts`, `Nearest`, and then
//! `Why`, which says what is printed for words and files, and `Refusals` (why nothing is). `Views`
//! has the lines of the code as the definitions have them. In `src`, read `lines`, `subject`,
//! `names`, `nearest`, `showing`, `record`, and then `asking`.
#![tactic(auto)]

mod asking;
mod doubts;
mod lines;
mod names;
mod nearest;
mod origins;
mod record;
mod seen;
mod showing;
mod subject;

pub use asking::run_why;
