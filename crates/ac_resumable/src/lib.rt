//! Decides whether a source can be resumed: if a run is cut, and is started again with the cache
//! that it saved, it ends as an uncut run does.
//!
//! The rules are `ac_tree::specs::Resumable`. A cache name may be read only after a test of it, in
//! the same list of statements or in one around it. So the names that were tested are kept in a
//! table while the statements are read once, in order, and what a branch tested is forgotten at its
//! end.
//!
//! `AC_CHECK_FUNCS([f])` and then `AS_IF([test "$ac_cv_func_f" = yes], ..)` keeps them. In the
//! other order it doesn't.
//!
//! Read `tested` (the table), `reads` (what is read), `rules` (what one statement or question uses,
//! as `ac_tree::Uses` says it), and `deciding` (lists of statements), which has the answer.
//!
//! Every function that returns a `Result` fails only if memory runs out.
#![tactic(auto)]

mod deciding;
mod reads;
mod rules;
mod tested;

pub use deciding::is_resumable;
