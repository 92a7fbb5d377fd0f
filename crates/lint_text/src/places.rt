//! The line and the column of an offset in a text, and the line that it is in.
//!
//! A text consists of any bytes. A newline ends its line and belongs to it, and a text has one line
//! more than newlines. Lines and columns count from 1, and columns count bytes: a tab is one, and
//! so is each byte of a longer character. An offset past the end of the text is read as its end. No
//! call allocates. "own" marks a rule that no manual gives.
//!
//! ```
//! let text = b"AC_INIT([demo], [1.0])\nAC_PROG_CC\n";
//! let place = lint_text::position_of(text, 26); // line 2, column 4
//! let line = lint_text::line_at(text, 26); // AC_PROG_CC
//! ```
//!
//! Read `specs/Places.antt` for what each call returns, and then this file. `laws` says that the
//! line and the column determine the offset.

ghost use Rattle.std.specs.Prelude.{◌≡◌, ℕ, ◌≤◌, min, length, List};
ghost use Rattle.std.specs.List.{count_by, suffix_len};
ghost use Rattle.lint_text.specs.Parts as parts;
ghost use Rattle.lint_text.specs.Places as specs;

use crate::pieces::{before, first_line_len, from, is_in_line};

/// A place in a text: its line and its column, from 1.
#[derive(Clone, Copy, Debug, PartialEq, Eq)]
pub struct Position {
    /// The number of the line, from 1.
    pub line: usize,
    /// The number of the byte in its line, from 1.
    pub column: usize,
}

fn is_newline(byte: u8) -> bool
    ensures { result ≡ parts.is_newline byte }
{
    byte == b'\n'
}

/// Returns the number of newlines.
fn newlines(text: &[u8]) -> usize
    ensures value { result ≡ count_by parts.is_newline text.now }
    ensures within { result ≤ length text.now }
{
    text.iter().filter(|byte| is_newline(**byte)).count()
}

/// Returns the number of bytes after the last newline.
fn last_line_len(text: &[u8]) -> usize
    ensures value { result ≡ suffix_len parts.is_in_line text.now }
    ensures within { result ≤ length text.now }
{
    text.iter()
        .rev()
        .take_while(|byte| is_in_line(**byte))
        .count()
}

/// Returns the line and the column of the byte at the offset (own).
#[tactic(auto, unfolding(crate::specs::Places::position_of))]
pub fn position_of(text: &[u8], offset: usize) -> Position
    ensures { result ≡ specs.position_of text.now offset }
{
    let before = before(text, offset);
    Position {
        line: newlines(before) + 1,
        column: last_line_len(before) + 1,
    }
}

/// Returns the line that the offset is in, without its newline (own).
///
/// The newline of a line is in it, so its offset gives the line that it ends.
#[tactic(auto, unfolding(crate::specs::Places::line_at))]
pub fn line_at(text: &[u8], offset: usize) -> &[u8]
    ensures { result.now ≡ specs.line_at text.now offset }
{
    let start = line_start(text, offset);
    let end = line_end(text, offset);
    &text[start..end]
}

/// Returns the offset of the first byte of the line that the offset is in (own).
#[tactic(auto, unfolding(crate::specs::Places::line_start))]
pub fn line_start(text: &[u8], offset: usize) -> usize
    ensures value { result ≡ specs.line_start text.now offset }
    ensures before { result ≤ offset }
    ensures within { result ≤ length text.now }
{
    let before = before(text, offset);
    before.len() - last_line_len(before)
}

/// Returns the offset of the newline that ends the line that the offset is in, or the end of the
/// text if there is none (own).
#[tactic(auto, unfolding(crate::specs::Places::line_end))]
pub fn line_end(text: &[u8], offset: usize) -> usize
    ensures value { result ≡ specs.line_end text.now offset }
    ensures after { min offset (length text.now) ≤ result }
    ensures within { result ≤ length text.now }
{
    let front = offset.min(text.len());
    front + first_line_len(from(text, offset))
}

/// States that the line and the column determine the offset, if it isn't past the end of the text.
pub fn laws()
    ensures { (text : List ℕ) (a b : ℕ) → a ≤ length text → b ≤ length text
        → specs.position_of text a ≡ specs.position_of text b → a ≡ b }
{}
