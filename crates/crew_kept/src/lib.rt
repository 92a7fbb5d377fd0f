//! A crew that takes replies from the records of an earlier run, so that a run that was killed can
//! be gone on with.
//!
//! [`Kept`] is a crew around another one. It takes the reply to a start from the records if they
//! have one for an equal job at its number, and gives other jobs to the crew inside. Only a start that
//! may run a program is never given to it if the link before was taken: that start is taken too, or
//! refused.
//!
//! "own" marks a rule that no manual gives.
//!
//! `specs/Records.antt` defines which replies are taken, `specs/Taking.antt` the account of a run that
//! takes some, `specs/Links.antt` which jobs link and which may run what was linked, and
//! `specs/Numbers.antt` by which numbers the crew inside knows its children. In the code,
//! read `links`, `taken`, `supply`, `placed`, `room`, `kept` and then `known`. `laws` says what holds of the
//! definitions.
#![tactic(auto)]

mod kept;
mod known;
mod laws;
mod links;
mod placed;
mod room;
mod state;
mod supply;
mod taken;

pub use kept::Kept;
pub use laws::{jobs_are_known, replies_are_recorded};
