//! The syntax tree of a configure.ac, and the lists that its statements declare.
//!
//! The parser makes this tree. The crates that give it a meaning, compile it and run it use it, so
//! that neither half depends on the other. `tree` has the types of statements that hold statements,
//! `statement` those of all others, with `feature`, `help`, `listed` and `program` for their parts.
//! `declarations` has the lists, and how each statement adds to them. `source` puts both together.
//! Read them in this order.
//!
//! Contracts see a list of statements as its first statement and what follows: `specs/Script.antt`.
//! `specs/Lists.antt` says which lists statements declare, also in cases that a run does not take.
//! `specs/Commands.antt` says what the commands of AC_CACHE_CHECK hold, `specs/TestNames.antt` the
//! names under which tests are cached, which `test_names` makes, `specs/Definitions.antt` the names
//! that their results define, which `definitions` makes, `specs/Uses.antt` what a statement or a
//! question assigns, reads, tests and tries, which `uses` has in code, and `specs/Resumable.antt`
//! which sources can be cut and started again. `resumable` has a law that the crates above use.
//!
//! `AC_SUBST([a], [b])` is a `Do`: it declares the variable `a`, and its effect is to assign it.
//! `AS_IF([test x = y], [a=1], [a=2])` is a `Choose` of two cases: one decided by the test, and one
//! that is always taken.
//!
//! An operation that allocates fails only if memory runs out.
#![tactic(auto)]

pub mod declarations;
pub mod definitions;
pub mod feature;
pub mod help;
pub mod listed;
pub mod program;
pub mod resumable;
pub mod source;
pub mod statement;
pub mod test_names;
pub mod tree;
pub mod uses;

pub use declarations::{Declarations, Stage};
pub use feature::{OptionKind, is_feature, option_variable};
pub use help::{Help, HelpList};
pub use listed::{Entries, Listed, Sought};
pub use program::{Program, Try};
pub use resumable::resumable_is_decided;
pub use source::Source;
pub use statement::{Declares, Effect, Message, OutputKind, ProgramValue, Question};
pub use tree::{Case, Stmt, Subject, When, cache_check, choose};
pub use uses::{Reads, Uses, uses_asked, uses_of};
