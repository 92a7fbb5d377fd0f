//! What is said of shell text that is not read.

use crate::table::{Construct, Fit, Nameless, WordPlace, row_of, said_of};
use lint_text::{after_blanks, before, first_line, first_name, first_word, from};

/// Returns what is said of the first word of the text that a test may not have.
fn row_of_words(text: &[u8]) -> Option<Construct> {
    for word in text.split(|byte| matches!(*byte, b' ' | b'\t' | b'\n')) {
        if let Some(found) = row_of(WordPlace::Test, Fit::Is(word)) {
            return Some(found);
        }
    }
    None
}

/// Returns what is said of what a text begins with, not as a word.
fn row_of_front(text: &[u8]) -> Option<Construct> {
    let fit = Fit::Begins(text);
    if let Some(found) = row_of(WordPlace::Inside, fit) {
        return Some(found);
    }
    if let Some(found) = row_of(WordPlace::Piece, fit) {
        return Some(found);
    }
    row_of(WordPlace::Front, fit)
}

/// Returns whether the text after a `$` is an expansion with an operator, such as `${x-y}`.
fn is_operator(text: &[u8]) -> bool {
    match text {
        [b'{', inside @ ..] => !from(inside, first_name(inside).len()).starts_with(b"}"),
        _ => false,
    }
}

/// Returns what is said of an expansion with an operator, of which this is the text after the `$`.
fn said_of_operator(text: &[u8]) -> Construct {
    let inside = from(text, 1);
    match from(inside, first_name(inside).len()) {
        [b'-' | b'=', ..] | [b':', b'-' | b'=', ..] => said_of(Nameless::Operator),
        [b'+', ..] | [b':', b'+', ..] => said_of(Nameless::Test),
        _ => said_of(Nameless::Cut),
    }
}

/// Returns whether the text after a `$` is a variable of the shell's own.
fn is_special(text: &[u8]) -> bool {
    match text {
        [byte, ..] => byte.is_ascii_digit() || b"@*#?!-$".contains(byte),
        [] => false,
    }
}

/// Returns what is said of the first variable that is not read.
fn variable_help(text: &[u8]) -> Option<Construct> {
    let mut at: usize = 0;
    for byte in text {
        at = at.saturating_add(1);
        if *byte == b'$' && is_operator(from(text, at)) {
            return Some(said_of_operator(from(text, at)));
        }
        if *byte == b'$' && is_special(from(text, at)) {
            return Some(said_of(Nameless::Special));
        }
    }
    None
}

/// Which quote is open.
#[derive(Clone, Copy)]
enum Quote {
    Nothing,
    Single,
    Double,
    /// The next byte is escaped, outside quotes or within double ones.
    Escape(bool),
}

impl Quote {
    /// Returns which quote is open after the byte.
    fn after(self, byte: u8) -> Quote {
        match self {
            Quote::Nothing if byte == b'\'' => Quote::Single,
            Quote::Nothing if byte == b'"' => Quote::Double,
            Quote::Nothing if byte == b'\\' => Quote::Escape(false),
            Quote::Single if byte == b'\'' => Quote::Nothing,
            Quote::Double if byte == b'"' => Quote::Nothing,
            Quote::Double if byte == b'\\' => Quote::Escape(true),
            Quote::Escape(true) => Quote::Double,
            Quote::Escape(false) => Quote::Nothing,
            quote => quote,
        }
    }
}

/// Returns what is said of a quote that is open at the end of a text.
fn quote_help(text: &[u8]) -> Option<Construct> {
    let mut quote = Quote::Nothing;
    for byte in text {
        quote = quote.after(*byte);
    }
    match quote {
        Quote::Single => Some(said_of(Nameless::SingleQuote)),
        Quote::Double => Some(said_of(Nameless::DoubleQuote)),
        _ => None,
    }
}

/// Returns whether a text begins with a name, a blank and `=`.
fn has_blank_before_equals(text: &[u8]) -> bool {
    let name = first_name(text);
    let rest = from(text, name.len());
    let later = after_blanks(rest);
    !name.is_empty() && later.len() < rest.len() && later.starts_with(b"=")
}

/// Returns what is said of words, as far as their parts tell it.
pub fn word_help(text: &[u8]) -> Option<Construct> {
    if let Some(found) = row_of(WordPlace::Inside, Fit::IsIn(text)) {
        return Some(found);
    }
    if let Some(found) = variable_help(text) {
        return Some(found);
    }
    quote_help(text)
}

/// Returns what is said of an argument that is to be one word.
pub(crate) fn argument_help(argument: &[u8]) -> Option<Construct> {
    if let Some(found) = word_help(argument) {
        return Some(found);
    }
    row_of(WordPlace::Piece, Fit::IsIn(argument))
}

/// Returns what a word begins with before a bracket that closes none of the word, which ends the
/// argument that the word is in.
pub(crate) fn within_argument(word: &[u8]) -> &[u8] {
    let (mut depth, mut len) = (0_usize, 0_usize);
    for byte in word {
        match *byte {
            b']' | b')' if depth == 0 => return before(word, len),
            b'[' | b'(' => depth = depth.saturating_add(1),
            b']' | b')' => depth = depth.saturating_sub(1),
            _ => {}
        }
        len = len.saturating_add(1);
    }
    word
}

/// Returns what is said of a statement by what it begins with.
fn front_help(text: &[u8]) -> Option<Construct> {
    if first_line(text).ends_with(b"\r") {
        return Some(said_of(Nameless::CarriageReturn));
    }
    let word = within_argument(first_word(text));
    if let Some(found) = row_of(WordPlace::Word, Fit::Is(word)) {
        return Some(found);
    }
    if has_blank_before_equals(text) {
        return Some(said_of(Nameless::BlankBesideEquals));
    }
    row_of_front(text)
}

/// Returns what is wrong with a statement of the shell, and the form that does it, as far as its
/// text shows that.
///
/// The text begins at the statement and may go on after it.
pub fn shell_help(statement: &[u8]) -> Option<Construct> {
    if let Some(found) = front_help(statement) {
        return Some(found);
    }
    let text = first_line(statement);
    if let Some(found) = word_help(text) {
        return Some(found);
    }
    row_of(WordPlace::Piece, Fit::IsIn(text))
}

/// Returns what is wrong with a test, as far as its text shows that. The text is without the quotes
/// around it. A command that is substituted comes before an operator, for which there may be another
/// one.
pub fn test_help(test: &[u8]) -> Option<Construct> {
    if test.contains(&b'\r') {
        return Some(said_of(Nameless::CarriageReturn));
    }
    if after_blanks(test).starts_with(b"[") {
        return Some(said_of(Nameless::Bracket));
    }
    if let Some(found) = row_of(WordPlace::Inside, Fit::IsIn(test)) {
        return Some(found);
    }
    if let Some(found) = row_of_words(test) {
        return Some(found);
    }
    word_help(test)
}
