//! The call that is put in the place of a statement of a shell.
//!
//! [`accepted_call`] returns the call of a macro with given arguments, if the call, read alone, is
//! that call, and acrun accepts it.
//!
//! ```text
//! accepted_call(alloc, b"AS_IF", &[b"a", b"b=1"])    // AS_IF([a], [b=1])
//! accepted_call(alloc, b"AS_IF", &[b"a", b"["])      // none: the brackets of the call don't match
//! ```
//!
//! Read `specs/Calls`, which says what is put, and then `calls`. Every function fails only
//! if memory runs out. "own" marks a rule that no manual gives.
#![tactic(auto)]

mod calls;

pub use calls::{accepted_call, call_text, is_accepted, source_with};
