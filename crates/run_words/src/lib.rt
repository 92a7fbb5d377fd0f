//! The words of faults of a run: of a command line, an option, a cache, a precious variable and a
//! record.
//!
//! A fault line has a number and a place. What is here says the same in words, for who reads a
//! terminal: a short sentence that quotes what is wrong, and a line of help. The words are for
//! people, and may change; the fault lines do not. They are in `lint_table`.
//!
//! ```text
//! // the option `--prefx=/usr` is not known
//! let words = option_words(alloc, OptionFault::Unknown(2), &[b"CC=cc", b"--prefx=/usr"])?;
//! ```
//!
//! A call fails only if memory runs out. What is said is tested, and what is proved is that each
//! call ends.
#![tactic(auto)]

mod running;

pub use running::{
    cache_words, option_words, precious_words, record_words, tag_words, usage_words,
};
