//! Shell words, here texts, tests and patterns: reads them from text, and evaluates them with
//! variables.
//!
//! ```text
//! let word = read_word(alloc, b"-I\"$dir\"/include")?;
//! let value = word.value(alloc, &vars)?;             // with the value of $dir, never split
//!
//! let test = read_test(alloc, b"test \"x$a\" = xyes && test -n \"$b\"")?;
//! if test.holds(alloc, &vars)? { .. }
//!
//! let patterns = read_patterns(alloc, b"a* | ?c")?;  // two alternatives
//! patterns[1].matches(b"bc")                         // true
//! ```
//!
//! Anything else that a shell would do is an error, and is never done in another way. That covers
//! other parameters and expansions after `$`, command substitution, redirections, bracket
//! expressions and variables in patterns, and the other forms of `test`. A value is never split
//! into fields, read again or expanded to file names.
//!
//! Each call that takes an allocator fails with `OutOfMemory`, or `AllocError`, if memory runs out;
//! [`Word::empty`] alone takes one and can't fail. No other call allocates. Offsets count bytes
//! from 0. "POSIX shell" and a section number refer to POSIX, Shell Command Language, and "own"
//! marks a rule that no standard gives.
//!
//! Read `part` first, then `front` (one byte or a few of them, by their context), `run` (one word
//! or here text), `word` and `here`. Then read `token` (a text split into words, joints, bars and
//! newlines), `element` and `test`, and then `pattern`, `matching` and `alternatives`. `value`
//! joins the values of parts.
//!
//! The grammars are `specs/Word` (words and here texts), `specs/WordFaults` (the errors of both),
//! `specs/Tokens`, `specs/Element`, `specs/Test` and `specs/Pattern`. `specs/Value`, `specs/Truth`
//! and `specs/Matching` define the value of a word, the truth of a test and the texts that a
//! pattern matches. `specs/Scan`, `specs/Cut`, `specs/Joining`, `specs/Listing` and `specs/Matcher`
//! describe the readers and the matcher as functions, and `readings` has the laws that connect the
//! two. `proofs/Rows` computes worked examples.
#![tactic(auto)]

mod alternatives;
mod element;
mod fault;
mod front;
mod here;
mod matching;
mod part;
mod pattern;
mod readings;
mod run;
mod test;
mod token;
mod value;
mod word;

pub use alternatives::Patterns;
pub use element::{Condition, Element};
pub use fault::ShellFault;
pub use here::{HereText, read_here};
pub use part::Part;
pub use pattern::{Pattern, Piece, read_patterns};
pub use readings::{
    faults_are_placed, one_reading, readings_are_exact, refusals_are_exact, tests_have_no_bars,
};
pub use test::{Test, read_test};
pub use token::Joint;
pub use word::{Word, read_word, read_word_front};
