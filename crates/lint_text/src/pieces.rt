//! The name, the word or the line that a text begins with, and the text around an offset.
//!
//! An offset after the end of a text is read as its end, but in [`part`]. No call allocates, and
//! none fails.
//!
//! ```text
//! first_name(b"AC_INIT([a])")     // AC_INIT
//! first_word(b"ls -l; cd x")      // ls
//! after_blanks(b"  x=1")          // x=1
//! ```

ghost use Rattle.std.specs.Prelude.{◌≡◌, ◌≤◌, length};
ghost use Rattle.std.specs.List.{prefix_len, suffix_len};
ghost use Rattle.text_cut.specs.Cuts.{is_blank, is_space};
ghost use Rattle.lint_text.specs.Parts as specs;

use text_cut::{is_blank, is_space};

/// Returns the text from an offset on.
pub fn from(text: &[u8], at: usize) -> &[u8]
    ensures { result.now ≡ specs.from text.now at }
{
    &text[at.min(text.len())..]
}

/// Returns the text before an offset.
pub fn before(text: &[u8], at: usize) -> &[u8]
    ensures { result.now ≡ specs.before text.now at }
{
    &text[..at.min(text.len())]
}

/// Returns a part of the text, or nothing if the text has no such part.
pub fn part(text: &[u8], start: usize, end: usize) -> &[u8]
    ensures { result.now ≡ specs.part text.now start end }
{
    if start <= end && end <= text.len() {
        &text[start..end]
    } else {
        b""
    }
}

/// Returns whether a byte is a letter, a digit or `_`.
pub fn is_word_byte(byte: u8) -> bool
    ensures { result ≡ specs.is_word_byte byte }
{
    byte.is_ascii_alphanumeric() || byte == b'_'
}

/// Returns whether a byte doesn't end a first word.
fn is_in_word(byte: u8) -> bool
    ensures { result ≡ specs.is_in_word byte }
{
    !(is_blank(byte) || byte == b';')
}

/// Returns whether a byte doesn't end its line.
pub(crate) fn is_in_line(byte: u8) -> bool
    ensures { result ≡ specs.is_in_line byte }
{
    byte != b'\n'
}

/// Returns the number of letters, digits and `_` that a text begins with.
fn first_name_len(text: &[u8]) -> usize
    ensures { result ≡ prefix_len specs.is_word_byte text.now }
{
    text.iter().take_while(|byte| is_word_byte(**byte)).count()
}

/// Returns the number of bytes before the first space, tab, newline or `;`.
fn first_word_len(text: &[u8]) -> usize
    ensures { result ≡ prefix_len specs.is_in_word text.now }
{
    text.iter().take_while(|byte| is_in_word(**byte)).count()
}

/// Returns the number of spaces and tabs that a text begins with.
fn spaces_len(text: &[u8]) -> usize
    ensures { result ≡ prefix_len is_space text.now }
{
    text.iter().take_while(|byte| is_space(**byte)).count()
}

/// Returns the number of bytes before the first newline.
pub(crate) fn first_line_len(text: &[u8]) -> usize
    ensures value { result ≡ prefix_len specs.is_in_line text.now }
    ensures within { result ≤ length text.now }
{
    text.iter().take_while(|byte| is_in_line(**byte)).count()
}

/// Returns the number of spaces, tabs and newlines at the end of a text.
fn end_blanks_len(text: &[u8]) -> usize
    ensures value { result ≡ suffix_len is_blank text.now }
    ensures within { result ≤ length text.now }
{
    text.iter()
        .rev()
        .take_while(|byte| is_blank(**byte))
        .count()
}

/// Returns the letters, digits and `_` that a text begins with.
pub fn first_name(text: &[u8]) -> &[u8]
    ensures { result.now ≡ specs.first_name text.now }
{
    before(text, first_name_len(text))
}

/// Returns what a text begins with before a space, a tab, a newline or a `;`.
pub fn first_word(text: &[u8]) -> &[u8]
    ensures { result.now ≡ specs.first_word text.now }
{
    before(text, first_word_len(text))
}

/// Returns the text without the spaces and tabs that it begins with.
pub fn after_blanks(text: &[u8]) -> &[u8]
    ensures { result.now ≡ specs.after_blanks text.now }
{
    from(text, spaces_len(text))
}

/// Returns the text up to its first newline.
pub fn first_line(text: &[u8]) -> &[u8]
    ensures { result.now ≡ specs.first_line text.now }
{
    before(text, first_line_len(text))
}

/// Returns the text without the spaces, tabs and newlines at its end.
pub fn without_end_blanks(text: &[u8]) -> &[u8]
    ensures { result.now ≡ specs.without_end_blanks text.now }
{
    before(text, text.len() - end_blanks_len(text))
}
