//! The arguments of a configure run, one by one: what each says, the standard directories, the
//! directory of the source, and the arguments that the record of a run keeps.
//!
//! The argument `--prefix=/usr` sets the variable `prefix` to `/usr`, `--prefix` awaits its value
//! in the next argument, and `CC=cc` is an assignment:
//!
//! ```text
//! let said = read_argument(b"--enable-nls=no"); // a feature: `enable_nls` is `no`
//! let sources = srcdir_of(&args);         // `.` if no argument names a directory
//! ```
//!
//! The rules are `specs/CommandLine.antt` (which settings arguments give, and which argument has an
//! error), `specs/Parts.antt` (which arguments are values of options, whether or not all are right)
//! and `specs/Directories.antt`. `specs/Arguments.antt` follows the code, and `proofs/Words.antt`,
//! `proofs/Lines.antt` and `proofs/Cuttings.antt` prove that it agrees with the rules. The crate
//! `options` turns the settings into the variables of a run.
//!
//! In the code, read `directory` and `argument`, then `slashes`, `awaiting`, `srcdir` and `kept`.
//! `laws` has no code.
#![tactic(auto)]

pub mod argument;
mod awaiting;
pub mod directory;
pub mod fault;
pub mod kept;
pub mod laws;
pub mod slashes;
pub mod srcdir;

pub use argument::switches;
pub use directory::{Directory, directories};
pub use fault::OptionFault;
pub use kept::kept_args;
pub use srcdir::srcdir_of;
