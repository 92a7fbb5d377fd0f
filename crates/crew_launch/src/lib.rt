//! Starts and ends a real child.
//!
//! ```text
//! let mut launcher = DiskLauncher::new(alloc, System::new(rt), None);
//! let mut child = start_child(&mut launcher, alloc, &job)?; // writes the conftest, and starts the command
//! let (reply, cause) = end_child(alloc, &mut child);        // reads what it writes to standard error, and waits for it
//! ```
//!
//! "own" marks a rule that no manual gives.
//!
//! [`Launcher`] is what writes files and starts commands; what is asked of a launcher is proved for
//! every launcher. [`DiskLauncher`] is that of the program, over any disk that can start programs.
//! It is proved by which steps it writes a file, and that it touches no file but those that a run
//! has for itself and the one that is stale; that it starts the command only tests check.
//! [`System`] is a real disk with its programs, of which nothing is known. If a start or an end is
//! refused, a cause comes with it.
//!
//! Read `specs/Launch.antt`, which defines the requests for a job, `specs/Fresh.antt`, which
//! defines what is done to files for them, `specs/Own.antt`, which defines the files that a run has
//! for itself, and `specs/Ending.antt`, which defines the reply at the end of a child.
//! `specs/Piped.antt` defines what is counted of its reads. Then read `launcher`, `own`, `fresh`,
//! which writes new files, `products`, which removes what a compiler made, `system`, `pipe`,
//! `started`, which is a child, `starting`, `ending`, and `diagnostics`, which reads what a child
//! writes.
//!
//! Several children may write at once. [`PipeEnd`] is a pipe that can be waited for, [`Watch`]
//! waits for several, and [`Queued`] reads a pipe ahead.
#![tactic(auto)]

mod diagnostics;
mod ending;
mod fresh;
mod launcher;
mod own;
mod pipe;
mod pipe_end;
mod products;
mod queued;
mod started;
mod starting;
mod system;
mod watch;

pub use ending::end_child;
pub use launcher::{DiskLauncher, Launcher};
pub use own::conftests_are_own;
pub use pipe::Pipe;
pub use pipe_end::PipeEnd;
pub use queued::Queued;
pub use started::Started;
pub use starting::start_child;
pub use system::System;
pub use watch::Watch;
