//! Here-documents: texts that a shell reads from lines after a command (POSIX shell, 2.7.4).

ghost use Rattle.std.specs.Prelude.{◌≡◌, ◌≤◌, true, length, drop, IfOk};
ghost use Rattle.std.specs.List.{prefix_len};
ghost use Rattle.m4quote.specs.Text as bytes;
ghost use Rattle.shellword.specs.Text.{begins_with};
ghost use Rattle.lint_marks.specs.Delimiters.{dash};
ghost use Rattle.lint_marks.specs.Heres as specs;

use crate::delimiter::delimiter;
use std::alloc::{AllocError, Global};

/// The here-documents that are to come on the lines after a place.
#[derive(Clone, Copy)]
pub struct HereTexts {
    /// The number of bytes before the first of them.
    pub until: usize,
    /// The number of bytes up to the end of the last, or 0 if there is none.
    pub end: usize,
}

/// Returns the number of bytes before the first newline.
fn line_len(text: &[u8]) -> usize
    ensures value { result ≡ bytes.line_len text.now }
    ensures within { result ≤ length text.now }
{
    text.iter().take_while(|byte| **byte != b'\n').count()
}

/// Returns the length of the first line, including its newline if it has one.
fn whole_line_len(text: &[u8]) -> usize
    ensures value { result ≡ bytes.whole_line_len text.now }
    ensures within { result ≤ length text.now }
{
    let len = line_len(text);
    if len < text.len() { len + 1 } else { len }
}

/// Returns the number of tabs at the front.
fn tab_len(text: &[u8]) -> usize
    ensures value { result ≡ prefix_len specs.is_tab text.now }
    ensures within { result ≤ length text.now }
{
    text.iter().take_while(|byte| **byte == b'\t').count()
}

/// Returns a line without the tabs at its front, if they mean nothing.
fn without_tabs(line: &[u8], drops_tabs: bool) -> &[u8]
    ensures { result.now ≡ specs.without_tabs drops_tabs line.now }
{
    if drops_tabs {
        &line[tab_len(line)..]
    } else {
        line
    }
}

/// Returns whether the first line of a text is the delimiter.
fn is_delimiter(text: &[u8], word: &[u8], drops_tabs: bool) -> bool
    ensures { result ≡ specs.is_delimiter drops_tabs word.now text.now }
{
    without_tabs(&text[..line_len(text)], drops_tabs) == word
}

/// Returns the length of the here-document that a text begins with, with the line of its delimiter.
fn here_len(text: &[u8], word: &[u8], drops_tabs: bool) -> usize
    ensures value { result ≡ specs.here_len drops_tabs word.now true text.now }
    ensures within { result ≤ length text.now }
{
    let mut begins = true;
    for i in 0..text.len() {
        let rest = &text[i..];
        if begins && is_delimiter(rest, word, drops_tabs) {
            return i + whole_line_len(rest);
        }
        begins = text[i] == b'\n';
    }
    text.len()
}

/// Returns whether a text begins with `<<`.
pub(crate) fn begins_here(text: &[u8]) -> bool
    ensures { result ≡ specs.begins_here text.now }
{
    matches!(text, [b'<', b'<', ..])
}

/// Returns a text without two bytes at its front.
fn after_operator(text: &[u8]) -> &[u8]
    ensures { result.now ≡ drop 2 text.now }
{
    match text {
        [_, _, rest @ ..] => rest,
        _ => b"",
    }
}

fn has_dash(text: &[u8]) -> bool
    ensures { result ≡ begins_with dash text.now }
{
    matches!(text, [b'-', ..])
}

impl HereTexts {
    /// Returns that none is to come.
    pub(crate) fn new() -> HereTexts
        ensures { result ≡ specs.none_here }
    {
        HereTexts { until: 0, end: 0 }
    }

    /// Returns whether the place is in one of them.
    pub(crate) fn is_here(self) -> bool
        ensures { result ≡ specs.is_here self }
    {
        self.until == 0 && self.end != 0
    }

    /// Returns the offset at which the next one begins whose `<<` is at the front of a text.
    fn start(self, text: &[u8]) -> usize
        ensures value { result ≡ specs.here_start self text.now }
        ensures within { result ≤ length text.now }
    {
        if self.end == 0 {
            whole_line_len(text)
        } else {
            self.end.min(text.len())
        }
    }

    /// Returns them with the one whose `<<` is at the front of a text, and that has this delimiter.
    fn with_word(self, word: &[u8], text: &[u8]) -> HereTexts
        ensures { result ≡ specs.with_word self word.now text.now }
    {
        let start = self.start(text);
        let rest = after_operator(text);
        let len = here_len(&text[start..], word, has_dash(rest));
        let until = if self.end == 0 {
            whole_line_len(text)
        } else {
            self.until
        };
        HereTexts {
            until,
            end: start + len,
        }
    }

    /// Returns them with the one whose `<<` is at the front of a text, if a delimiter follows.
    pub(crate) fn with(self, alloc: Global, text: &[u8]) -> Result<HereTexts, AllocError>
        ensures { IfOk result (λ h. h ≡ specs.with_here self text.now) }
    {
        let word = delimiter(alloc, after_operator(text))?;
        if word.len() == 0 {
            return Ok(self);
        }
        Ok(self.with_word(word.as_slice(), text))
    }

    /// Returns them after this many bytes.
    pub(crate) fn past(self, len: usize) -> HereTexts
        ensures { result ≡ specs.past len self }
    {
        HereTexts {
            until: self.until.saturating_sub(len),
            end: self.end.saturating_sub(len),
        }
    }
}
