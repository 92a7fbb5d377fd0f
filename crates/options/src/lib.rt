//! The command line of a configure run: the variables and settings that the run begins with.
//!
//! A variable has the value of its last setter: the environment, then the defaults of the
//! directories, then the arguments from the left. After that, final slashes of directories are
//! dropped, and precious variables get their marks, all by these values. [`read_args`] does all of
//! this for a source, or returns the first error. If the run has a cache, [`check_precious`]
//! compares the precious variables with those of the run that made it, before it is read over the
//! variables. [`srcdir_of`] returns the directory of the source before a source is read, and
//! [`help_text`] returns what `--help` prints. [`read_args_of`], [`check_precious_of`] and
//! [`help_text_of`] are the same over the lists of a source.
//!
//! ```text
//! // for a source with AC_ARG_ENABLE([a-b], ..); the arguments are --prefix=/usr/ --enable-a-b=no --enable-a-b
//! let mut settings = read_args(alloc, &source, &args, &env)?;
//! // settings.vars: prefix is /usr, enable_a_b is yes, bindir is ${exec_prefix}/bin
//!
//! // CC is precious and `gcc -O` now; the cache has ac_cv_env_CC_set=set and ac_cv_env_CC_value='gcc  -O'
//! let notes = check_precious(alloc, &source, &mut settings.vars, &cache)?; // one note, and CC is `gcc  -O`
//! cache.pour(&mut settings.vars)?;
//! ```
//!
//! The crate `options_line` reads each argument: its rules say which settings arguments give, and
//! which argument has an error. The rules here are `specs/Opening.antt` (what a run begins with),
//! `specs/Precious.antt` (precious variables and a cache), `specs/Unrecognized.antt` and
//! `specs/HelpText.antt`. `specs/Stepwise.antt` follows the code. `proofs/Laws.antt` and
//! `proofs/Steps.antt` prove that it agrees with the rules, `proofs/Checks.antt` the same of
//! precious variables, and `proofs/Rows.antt` has worked examples. `mark_laws` states what marks
//! say of the variables before them.
//!
//! In the code, read `reader`, `opening` and `settings`, then `precious`, and the rest in any
//! order.
#![tactic(auto)]

mod declared;
mod fault;
mod help;
pub mod mark_laws;
mod opening;
mod precious;
mod reader;
mod settings;
mod unrecognized;

pub use declared::{check_precious, help_text, read_args};
pub use fault::PreciousFault;
pub use help::help_text_of;
pub use opening::mark_name;
pub use options_line::{Directory, OptionFault, directories, srcdir_of};
pub use precious::{check_precious_of, value_before};
pub use settings::{Settings, read_args_of};
