//! The text around calls and statements: which calls are statements, which text does nothing, and
//! arguments that hold statements or one call.
//!
//! In the lines `AC_PROG_CC` and `x=AC_DEFINE([A])`, the first call is a statement: nothing else is
//! in its line. The second call isn't one, since text comes before it in its line.
//!
//! Read `fault` (the errors of a source) and `texts` first. Then read `placement` (which calls are
//! statements, by the text around them), `idle` (bare text that does nothing) and `inside`
//! (arguments that hold statements or one call). `facts` has a law.
#![tactic(auto)]

mod facts;
pub mod fault;
pub mod idle;
pub mod inside;
pub mod placement;
pub mod texts;

pub use facts::inside_laws;
pub use fault::ParseFault;
