//! What a byte opens and closes in a word of a shell.

ghost use Rattle.std.specs.Prelude.{◌≡◌};
ghost use Rattle.lint_marks.specs.Nested as specs;

use crate::delimiter::is_operator;
use shell_bare::is_part_end;

/// What is open in a word of a shell.
#[derive(Clone, Copy)]
pub enum Nesting {
    /// Single quotes.
    Single,
    /// Double quotes.
    Double,
    /// Backquotes.
    Back,
    /// The parenthesis of `$(`, or one within it.
    Paren,
    /// The brace of `${`.
    Brace,
}

/// Where a place is in what is innermost open.
#[derive(Clone, Copy)]
pub enum NestPlace {
    /// Where a word may begin.
    Start,
    /// In a word.
    Word,
    /// In a comment.
    Comment,
}

/// What a byte changes.
#[derive(Clone, Copy)]
pub(crate) enum NestChange {
    /// Nothing.
    Same,
    /// This is opened.
    Opens(Nesting),
    /// The innermost is closed.
    Closes,
}

/// Returns whether a word may begin after a byte.
fn ends_word(byte: u8) -> bool
    ensures { result ≡ specs.ends_word byte }
{
    is_part_end(byte) || is_operator(byte) || byte == b'\r'
}

/// Returns what a byte opens where a single quote quotes.
fn begun_by(byte: u8, after_dollar: bool) -> NestChange
    ensures { result ≡ specs.begun_by after_dollar byte }
{
    match byte {
        b'\'' => NestChange::Opens(Nesting::Single),
        b'"' => NestChange::Opens(Nesting::Double),
        b'`' => NestChange::Opens(Nesting::Back),
        b'(' if after_dollar => NestChange::Opens(Nesting::Paren),
        b'{' if after_dollar => NestChange::Opens(Nesting::Brace),
        _ => NestChange::Same,
    }
}

/// Returns what a byte opens or closes in what is innermost.
fn change_in(nesting: Nesting, byte: u8, after_dollar: bool) -> NestChange
    ensures { result ≡ specs.change_in nesting after_dollar byte }
{
    match nesting {
        Nesting::Single if byte == b'\'' => NestChange::Closes,
        Nesting::Single => NestChange::Same,
        Nesting::Double if byte == b'"' => NestChange::Closes,
        Nesting::Double if byte == b'\'' => NestChange::Same,
        Nesting::Back if byte == b'`' => NestChange::Closes,
        Nesting::Paren if byte == b')' => NestChange::Closes,
        Nesting::Paren if byte == b'(' => NestChange::Opens(Nesting::Paren),
        Nesting::Brace if byte == b'}' => NestChange::Closes,
        _ => begun_by(byte, after_dollar),
    }
}

/// Returns what a byte opens or closes.
pub(crate) fn change_at(inner: Option<Nesting>, byte: u8, after_dollar: bool) -> NestChange
    ensures { result ≡ specs.change_at inner after_dollar byte }
{
    match inner {
        None => begun_by(byte, after_dollar),
        Some(nesting) => change_in(nesting, byte, after_dollar),
    }
}

fn has_commands(nesting: Nesting) -> bool
    ensures { result ≡ specs.has_commands nesting }
{
    matches!(nesting, Nesting::Back | Nesting::Paren)
}

fn is_command(inner: Option<Nesting>) -> bool
    ensures { result ≡ specs.is_command inner }
{
    match inner {
        None => true,
        Some(nesting) => has_commands(nesting),
    }
}

/// Returns whether a backslash quotes the next byte in what is innermost.
pub(crate) fn escapes(inner: Option<Nesting>) -> bool
    ensures { result ≡ specs.escapes inner }
{
    !matches!(inner, Some(Nesting::Single))
}

impl NestPlace {
    fn begins(self) -> bool
        ensures { result ≡ specs.begins self }
    {
        matches!(self, NestPlace::Start)
    }

    /// Returns whether the place is in a comment.
    pub(crate) fn is_comment(self) -> bool
        ensures { result ≡ specs.is_comment self }
    {
        matches!(self, NestPlace::Comment)
    }

    /// Returns the place after a byte that a backslash quotes.
    pub(crate) fn after_quoted(self, byte: u8) -> NestPlace
        ensures { result ≡ specs.after_quoted self byte }
    {
        if byte == b'\n' { self } else { NestPlace::Word }
    }

    /// Returns the place after a byte of commands.
    fn after_command(self, byte: u8) -> NestPlace
        ensures { result ≡ specs.after_command self byte }
    {
        if byte == b'#' && self.begins() {
            NestPlace::Comment
        } else if ends_word(byte) {
            NestPlace::Start
        } else {
            NestPlace::Word
        }
    }

    /// Returns the place after a byte that nothing opens or closes.
    fn after_same(self, inner: Option<Nesting>, byte: u8) -> NestPlace
        ensures { result ≡ specs.after_same inner self byte }
    {
        if is_command(inner) {
            self.after_command(byte)
        } else {
            NestPlace::Word
        }
    }

    /// Returns the place after a byte that changes this.
    pub(crate) fn after(self, change: NestChange, inner: Option<Nesting>, byte: u8) -> NestPlace
        ensures { result ≡ specs.place_after change inner self byte }
    {
        match change {
            NestChange::Same => self.after_same(inner, byte),
            NestChange::Opens(nesting) => first_place(nesting),
            NestChange::Closes => NestPlace::Word,
        }
    }
}

/// Returns the first place in what is opened.
fn first_place(nesting: Nesting) -> NestPlace
    ensures { result ≡ specs.first_place nesting }
{
    if has_commands(nesting) {
        NestPlace::Start
    } else {
        NestPlace::Word
    }
}
