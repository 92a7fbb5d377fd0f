//! The commands that run a configure.ac, over files and a crew.
//!
//! [`run_configure`] parses the source, judges it, and runs it (`acparse::parse`, `engine::judge`
//! and `engine::go`), on texts that it reads from files. Children run in the crew that the caller
//! gives, and a receiver writes the outputs. [`run_recheck`] does the same with the arguments of a
//! record. The crate `cmd_status` prints and logs the result. Both return what happened, from which
//! `cmd_status::exit_status` makes the exit status.
//!
//! For example, `acrun configure --srcdir=../src -C` is [`run_configure`]: it reads
//! `../src/configure.ac`, `config.cache` and the templates, runs the checks, and writes the
//! outputs, `config.status`, `config.cache` and `config.log`.
//!
//! If it is known what the files hold, and what was done to them, the contracts say that the
//! source, the cache and the templates are the texts of their files, and that the outputs of the
//! run and its log are written, and nothing else. They also say what is so if anything is wrong.
//! "own" marks a rule that no manual gives.
//!
//! Read `specs/Configures` (what is so if all is in its place) and `specs/Ended` (what happened, and
//! what is said of it, case by case), then `running` and `rechecking`.
#![tactic(auto)]

mod rechecking;
mod running;

pub use rechecking::run_recheck;
pub use running::run_configure;
