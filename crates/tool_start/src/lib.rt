//! Starts the program of the tools, which has the commands that explain or rewrite a source.
//!
//! ```text
//! let mut tools = Neighbour::new(rt, alloc, "0.1.0");
//! tools.start(words)                         // runs `acrun-tools --acrun=0.1.0 lint` for the word `lint`
//! ```
//!
//! [`Tools`] is what starts it, and its meaning is what was asked of it. [`Neighbour`] is that of
//! the program: it starts the file `acrun-tools` in the directory in which the running program lies.
//! That it starts this file with these words only tests check.
//!
//! "own" marks a rule that no manual gives.
//!
//! Read `specs/Starts.antt` first, and then `tools` and `neighbour`.
#![tactic(auto)]

mod neighbour;
mod tools;

pub use neighbour::Neighbour;
pub use tools::Tools;
