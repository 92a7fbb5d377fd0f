//! The macros that are understood: a row in a table and a reader for each.
//!
//! `table` has the rows: a macro's name, what it means, how many arguments it needs, and whether its
//! calls are allowed only at top level, in the file's own list of statements. `arguments` says what
//! each argument of a macro is, and so how many there may be. `rows` has the readers, with
//! `searches` for macros that look for programs, `tries` for those that try programs, `checks` for
//! those that look for headers and their like, and `libraries` for those that look for libraries:
//! each reads the arguments of a call from the left, each by its form, and gives what the call
//! does, or its question, and if the macro declares something, that too, in the types of the crate
//! `ac_tree`. `placement` says which calls are allowed before, between and after AC_INIT and
//! AC_OUTPUT, and `list_kind` which are allowed in the commands of AC_CACHE_CHECK. `limits` has the
//! law that the lists of a source stay within their limits. Read `macros`, `table`,
//! `arguments`, `rows`, then the rest in any order.
//!
//! `AC_DEFINE([HAVE_X])` is looked up as `ActMacro::Define`, which takes one to three arguments,
//! and is read as the effect `Effect::Define` of `HAVE_X` and `1`.
//!
//! A reader fails with the error of the first argument that has one, or with `OutOfMemory` if
//! memory runs out.
#![tactic(auto)]

pub mod arguments;
pub mod checks;
mod libraries;
pub mod limits;
pub mod list_kind;
pub mod macros;
mod package_name;
pub mod placement;
mod room;
pub mod rows;
mod searches;
pub mod table;
mod tries;

pub use arguments::{ArgumentKind, argument_kind, holds_statements};
pub use macros::{
    ActMacro, ArgumentMacro, ChoiceMacro, DeclaringMacro, Macro, Named, PlainMacro, QuestionMacro,
};
pub use table::Row;
