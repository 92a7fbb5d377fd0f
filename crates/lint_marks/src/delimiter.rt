//! The delimiter of a here-document: a word, without its quotes (POSIX shell, 2.7.4).

ghost use Rattle.std.specs.Prelude.{◌≡◌, ◌++◌, ◌≤◌, length, IfOk, OnOk};
ghost use Rattle.std.specs.List.{prefix_len};
ghost use Rattle.lint_marks.specs.Delimiters as specs;

use shell_bare::is_part_end;
use std::alloc::{AllocError, Global};
use text_cut::is_space;

/// What a byte after `<<` is in.
#[derive(Clone, Copy)]
pub(crate) enum DelimiterPart {
    /// No quotes.
    Bare,
    /// The byte is after a backslash.
    Escaped,
    /// Single quotes.
    Single,
    /// Double quotes.
    Double,
}

/// Returns whether a byte is one of an operator, which ends a word.
pub(crate) fn is_operator(byte: u8) -> bool
    ensures { result ≡ specs.is_operator byte }
{
    matches!(byte, b'<' | b'>' | b'&' | b'|' | b'(' | b')')
}

fn is_quote(byte: u8) -> bool
    ensures { result ≡ specs.is_quote byte }
{
    matches!(byte, b'\'' | b'"' | b'\\')
}

fn is_bracket(byte: u8) -> bool
    ensures { result ≡ specs.is_bracket byte }
{
    byte == b'[' || byte == b']'
}

/// Returns what is open outside quotes after a byte.
fn after_bare(byte: u8) -> DelimiterPart
    ensures { result ≡ specs.after_bare byte }
{
    match byte {
        b'\'' => DelimiterPart::Single,
        b'"' => DelimiterPart::Double,
        b'\\' => DelimiterPart::Escaped,
        _ => DelimiterPart::Bare,
    }
}

impl DelimiterPart {
    /// Returns whether a byte is after the delimiter.
    fn is_after(self, byte: u8) -> bool
        ensures { result ≡ specs.is_after self byte }
    {
        match self {
            DelimiterPart::Bare => is_part_end(byte) || is_operator(byte),
            DelimiterPart::Escaped | DelimiterPart::Single | DelimiterPart::Double => byte == b'\n',
        }
    }

    /// Returns whether a byte is one of the delimiter, and no quote.
    fn is_kept(self, byte: u8) -> bool
        ensures { result ≡ specs.is_kept self byte }
    {
        match self {
            DelimiterPart::Bare => !is_quote(byte) && !is_bracket(byte),
            DelimiterPart::Escaped => !is_bracket(byte),
            DelimiterPart::Single => byte != b'\'' && !is_bracket(byte),
            DelimiterPart::Double => byte != b'"' && !is_bracket(byte),
        }
    }

    /// Returns what is open after a byte.
    fn after(self, byte: u8) -> DelimiterPart
        ensures { result ≡ specs.part_after self byte }
    {
        match self {
            DelimiterPart::Bare => after_bare(byte),
            DelimiterPart::Single if byte != b'\'' => DelimiterPart::Single,
            DelimiterPart::Double if byte != b'"' => DelimiterPart::Double,
            _ => DelimiterPart::Bare,
        }
    }
}

/// Returns the number of blanks at the front.
fn blank_len(text: &[u8]) -> usize
    ensures value { result ≡ prefix_len specs.is_space text.now }
    ensures within { result ≤ length text.now }
{
    text.iter().take_while(|byte| is_space(**byte)).count()
}

fn after_dash(text: &[u8]) -> &[u8]
    ensures { result.now ≡ specs.after_dash text.now }
{
    match text {
        [b'-', rest @ ..] => rest,
        _ => text,
    }
}

fn after_blanks(text: &[u8]) -> &[u8]
    ensures { result.now ≡ specs.after_blanks text.now }
{
    &text[blank_len(text)..]
}

/// Appends what a byte gives to a delimiter.
fn push_kept(word: &mut Vec<u8>, part: DelimiterPart, byte: u8) -> Result<(), AllocError>
    ensures { OnOk result (word.new.items ≡ word.old.items ++ specs.kept part byte) }
{
    if part.is_kept(byte) {
        word.push(byte)?;
    }
    Ok(())
}

/// Returns the word that a text begins with, without its quotes.
fn unquoted(alloc: Global, text: &[u8]) -> Result<Vec<u8>, AllocError>
    ensures { IfOk result (λ v. v.items ≡ specs.unquoted text.now) }
{
    let mut word = Vec::new(alloc);
    let mut part = DelimiterPart::Bare;
    for i in 0..text.len() {
        let byte = text[i];
        if part.is_after(byte) {
            return Ok(word);
        }
        push_kept(&mut word, part, byte)?;
        part = part.after(byte);
    }
    Ok(word)
}

/// Returns the delimiter in a text after `<<`, or nothing.
pub(crate) fn delimiter(alloc: Global, text: &[u8]) -> Result<Vec<u8>, AllocError>
    ensures { IfOk result (λ v. v.items ≡ specs.delimiter text.now) }
{
    unquoted(alloc, after_blanks(after_dash(text)))
}
