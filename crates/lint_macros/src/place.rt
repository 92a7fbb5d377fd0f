//! The places of an idiom.

ghost use Rattle.std.specs.Prelude.{◌≡◌, Some, option_map};
ghost use Rattle.lint_macros.specs.Around.{around};
ghost use Rattle.lint_macros.specs.Places as words;

use crate::cut::{cut, is};

/// What a place takes of a call.
#[derive(Clone, Copy, PartialEq, Eq)]
pub enum HoleSource {
    /// The argument of this index, counted from 0.
    Argument(usize),
    /// All arguments.
    All,
}

/// How an argument is written in a place.
#[derive(Clone, Copy, PartialEq, Eq)]
pub enum Form {
    /// As it is.
    AsItIs,
    /// As it is, with the blanks after it.
    Whole,
    /// As it is, if it is one word.
    OneWord,
    /// As it is, if it is one word and no blank is after it.
    WholeWord,
    /// As a part of a shell variable's name: `sys_stat_h`.
    ShellName,
    /// As a part of a symbol of the preprocessor: `SYS_STAT_H`.
    Symbol,
    /// What is before its first dot.
    Front,
    /// What is after its first dot.
    Rest,
}

/// A place, and the text after it.
#[derive(Clone, Copy)]
pub struct Hole<'a> {
    pub source: HoleSource,
    pub form: Form,
    /// What is written if the argument isn't plain, or can't have the form.
    pub word: &'a [u8],
    pub rest: &'a [u8],
}

/// Returns what a digit or an `@` takes.
fn source_of(byte: u8) -> Option<HoleSource>
    ensures { result ≡ words.source_of byte }
{
    if byte == b'@' {
        Some(HoleSource::All)
    } else if b'1' <= byte && byte <= b'9' {
        Some(HoleSource::Argument((byte - b'1') as usize))
    } else {
        None
    }
}

/// Returns the form that a sign asks for.
fn form_of(sign: &[u8]) -> Option<Form>
    ensures { result ≡ words.form_of sign.now }
{
    if is(sign, b"") {
        Some(Form::AsItIs)
    } else if is(sign, b"+") {
        Some(Form::Whole)
    } else if is(sign, b"!") {
        Some(Form::OneWord)
    } else if is(sign, b"=") {
        Some(Form::WholeWord)
    } else if is(sign, b"_") {
        Some(Form::ShellName)
    } else if is(sign, b"^") {
        Some(Form::Symbol)
    } else if is(sign, b"<") {
        Some(Form::Front)
    } else if is(sign, b">") {
        Some(Form::Rest)
    } else {
        None
    }
}

/// Returns the place that begins after the byte that says what it takes.
fn place_from(source: HoleSource, text: &[u8]) -> Option<Hole<'_>>
    ensures { option_map words.seen result ≡ words.place_from (Some source) (around 123 text.now) }
{
    let (sign, more) = cut(text, b'{')?;
    let form = form_of(sign)?;
    let (word, rest) = cut(more, b'}')?;
    Some(Hole {
        source,
        form,
        word,
        rest,
    })
}

/// Returns the place that a text after a `$` begins with.
pub fn hole_of(text: &[u8]) -> Option<Hole<'_>>
    ensures { option_map words.seen result ≡ words.hole_of text.now }
{
    let (byte, more) = text.split_first()?;
    let source = source_of(*byte)?;
    place_from(source, more)
}
