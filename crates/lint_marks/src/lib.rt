//! What is open at each place of a source: the quotes of m4, its comments and dropped lines, and
//! the quotes, comments, words and here-documents of a shell.
//!
//! [`marks_of`] goes over a text once and gives a [`Mark`] for each byte: what is open before it. A
//! walk that stops early, or that begins again at each statement, reads the same with a [`Scan`],
//! byte by byte.
//!
//! A text is a whole source, the text between two calls, or the inside of an argument. Brackets are
//! counted from its start. For example, the bytes of `x='[b]'` have the marks `Start`, `Word` twice,
//! and `Single` four times. The second and the third of these are at depth 1.
//!
//! A mark has what is innermost: in `"$(a 'b')"` the `a` is in a substitution, and the `b` in single
//! quotes. A [`TextScan`] knows all that is open, a [`Scan`] what acrun reads, to which backquotes and
//! `$(` are bytes of words.
//!
//! Read `specs/Quotes`, what m4 reads byte by byte, then `specs/Nests`, what a shell reads,
//! `specs/Delimiters` and `specs/Heres`, its here-documents, and `specs/Marks`, both together. `facts` says that what is marked as quoted, as a comment or as dropped is what the
//! definitions of `m4quote` say.
#![tactic(auto)]

mod delimiter;
mod facts;
mod heres;
mod mark;
mod nest;
mod nest_list;
mod nesting;
mod quotes;
mod scan;

pub use facts::{depth_law, map_laws, piece_laws};
pub use heres::HereTexts;
pub use mark::{Mark, MarkKind, TextScan, marks_of};
pub use nest::ShellNest;
pub use nest_list::NestList;
pub use nesting::{NestPlace, Nesting};
pub use quotes::{QuotePart, Quotes};
pub use scan::{Scan, ShellState};
