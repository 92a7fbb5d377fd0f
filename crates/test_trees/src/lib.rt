//! The tree of a source in words, for the crates of tests: a line for each statement, and then the
//! lists of the source.
//!
//! `shell_words` has the words of shell text, `plain_words` those of a statement without statements
//! in it, and `tree_words` those of the whole. `crates/tests_cases/data/README` lists them.
#![tactic(auto)]

pub mod plain_words;
pub mod shell_words;
pub mod tree_words;

pub use plain_words::put_plain;
pub use tree_words::{put_counts, put_lists, put_question, put_sought, put_statements};
