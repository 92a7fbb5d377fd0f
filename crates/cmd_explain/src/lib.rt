//! What is wrong, in words, after the line of a fault on standard error. This is no command: the
//! commands call it.
//!
//! The line of a fault has numbers. It is the same at all times, and fixed. Where somebody looks at
//! it, further lines follow it: if standard error is a terminal, or if the environment has an
//! ACRUN_WHY that isn't empty. [`Why`] says whether they are asked for, and has what they may
//! quote. For a fault of the source they are the place, the line of the source with a mark, and
//! help, as `acrun lint` shows them; for any other fault a line with what is wrong, and one with
//! what to do, or with the cause.
//!
//! ```text
//! acrun: parse 2 at 22                                               // the line of a fault
//! ./configure.ac:2:1: error: acrun does not know the macro AC_NOPE   // explain_fault
//!     2 | AC_NOPE
//!       | ^^^^^^^
//! acrun: file ./configure.ac                                         // the line of a fault
//! acrun: ./configure.ac: No such file or directory                   // explain_file
//! ```
//!
//! Each function `explain_..` is called right after the line of a fault. It writes nothing if it
//! isn't asked, or if the cause isn't known. If it is asked, it writes pages, each as far as the
//! stream takes it, and the stream remembers that it failed if it didn't take all of one. All of
//! this is proved, except when a cause is known. What a page says is tested. If memory runs out, it
//! writes less, and that a page can't be written is not reported. "own" marks a rule that no manual
//! gives.
//!
//! `lint_errors` is needed for a fault of the source alone: for its place, which may be after the
//! offset that the fault has, and for what to write in place of a macro that isn't known.
//!
//! Read `specs/Asking` and `specs/Shortages`, then `asking`, `lines`, `files`, `shortages`, `checks`
//! and `children`, which say why. Then read `page`, which writes words, and `source`, which shows a
//! fault of the source; then `runs`, `precious`, `remakes`, `puts`, `windows`, `usage` and `helps`.
//! Of a run that ended read `failures`, `compilers`, `doubts`, `made` and
//! `directories`.
#![tactic(auto)]

mod asking;
mod checks;
mod children;
mod compilers;
mod directories;
mod doubts;
mod failures;
mod files;
mod helps;
mod lines;
mod made;
mod page;
mod precious;
mod puts;
mod remakes;
mod runs;
mod shortages;
mod source;
mod usage;
mod windows;

pub use asking::{Why, asks_why};
pub use children::explain_cut;
pub use compilers::explain_compilers;
pub use directories::explain_directories;
pub use doubts::{explain_doubts, explain_long_cache};
pub use files::{explain_error, explain_file, explain_own, explain_template};
pub use helps::explain_help;
pub use lines::explain_words;
pub use made::explain_made;
pub use precious::Given;
pub use puts::explain_put;
pub use remakes::explain_remake;
pub use runs::explain_fault;
pub use source::explain_source;
pub use usage::explain_usage;
