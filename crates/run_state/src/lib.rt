//! What the steps of a run change: its variables and definitions, its messages and log, and the
//! subject of the choice that began last.
//!
//! ```text
//! let mut store = Store::new(alloc, vars);
//! begin_check(alloc, &mut store, b"for sys/stat.h")?; // prints `checking for sys/stat.h... `
//! store.set(b"ac_cv_header_sys_stat_h", b"yes")?;
//! end_check(alloc, &mut store, b"yes")?;              // prints `yes` and a newline
//! ```
//!
//! `store` holds all but the subject, and contracts see it as a state of the meaning. `pieces`
//! prints messages. `scope` is the subject of a choice. `open_tests` has the tests that are not at
//! their end. `package` and `literal` are for AC_INIT. `full_name` says which names are full. The
//! crate `run_machine` takes the steps.
#![tactic(auto)]

mod full_name;
mod literal;
pub mod open_tests;
pub mod package;
pub mod pieces;
pub mod scope;
pub mod store;

pub use open_tests::OpenTests;
pub use package::initialise;
pub use scope::About;
pub use store::Store;
