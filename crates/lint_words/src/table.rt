//! The table of what shell text may have that is not read.

use bstr::ByteSlice;
use lint_table::{Key, Page, WordPart, keys};

/// What a piece of shell text has that is not read.
#[derive(Clone, Copy)]
pub struct Construct {
    /// What is said of it.
    key: Key,
    /// The part of the shell text that it is about.
    word: &'static [u8],
}

impl Construct {
    /// Writes what is wrong, and the form that does it.
    pub fn put(&self, page: &mut Page) {
        page.put(self.key, &[WordPart::AsItIs(self.word)]);
    }
}

/// Where a word of the table may be.
#[derive(Clone, Copy, PartialEq, Eq)]
pub(crate) enum WordPlace {
    /// A statement begins with the word.
    Word,
    /// A statement begins with the text, whatever is after it.
    Front,
    /// The text is anywhere in a statement.
    Piece,
    /// The text is anywhere in a statement, in a word or in a test.
    Inside,
    /// A test has the word.
    Test,
}

/// A kind, words with blanks between them, and what is said of each of them.
type Row = (WordPlace, &'static [u8], Key);

/// What is said of the words that are not read.
#[rattlefmt::skip]
const ROWS: [Row; 32] = [
    (WordPlace::Word, b"if then else elif fi", keys::SHELL_IF),
    (WordPlace::Word, b"case esac", keys::SHELL_CASE),
    (WordPlace::Word, b"for do done while until", keys::SHELL_FOR),
    (WordPlace::Word, b"test", keys::SHELL_TEST),
    (WordPlace::Word, b"[", keys::TEST_BRACKET),
    (WordPlace::Word, b"echo printf", keys::SHELL_ECHO),
    (WordPlace::Word, b"exit return", keys::SHELL_EXIT),
    (WordPlace::Word, b"break continue", keys::SHELL_BREAK),
    (WordPlace::Word, b"export", keys::SHELL_EXPORT),
    (WordPlace::Word, b"unset", keys::SHELL_UNSET),
    (WordPlace::Word, b"set local . source", keys::SHELL_COMMAND),
    (WordPlace::Word, b"eval", keys::SHELL_EVAL),
    (WordPlace::Word, b"function", keys::SHELL_FUNCTION),
    (WordPlace::Word, b"!", keys::SHELL_NOT),
    (WordPlace::Word, b"{ }", keys::SHELL_GROUP),
    (WordPlace::Word, b"cd", keys::SHELL_CD),
    (WordPlace::Inside, b"`", keys::SHELL_BACKQUOTE),
    (WordPlace::Inside, b"$((", keys::SHELL_ARITHMETIC),
    (WordPlace::Inside, b"$(", keys::SHELL_SUBSTITUTION),
    (WordPlace::Piece, b"&& ||", keys::SHELL_AND),
    (WordPlace::Piece, b"> <", keys::SHELL_REDIRECTION),
    (WordPlace::Piece, b"|", keys::SHELL_PIPE),
    (WordPlace::Piece, b"&", keys::SHELL_COMMAND),
    (WordPlace::Front, b"(", keys::SHELL_SUBSHELL),
    (WordPlace::Front, b"$", keys::SHELL_VARIABLE_COMMAND),
    (WordPlace::Test, b"==", keys::TEST_EQUALS),
    (WordPlace::Test, b"-a", keys::TEST_AND),
    (WordPlace::Test, b"-o", keys::TEST_OR),
    (WordPlace::Test, b"-f -d -e -r -w -x -s -h -L", keys::TEST_FILE),
    (WordPlace::Test, b"-eq -ne -lt -le -gt -ge", keys::TEST_NUMBER),
    (WordPlace::Test, b";", keys::TEST_SEMICOLON),
    (WordPlace::Test, b"|", keys::SHELL_PIPE),
];

/// How a word fits a text.
#[derive(Clone, Copy)]
pub(crate) enum Fit<'a> {
    /// It is the text.
    Is(&'a [u8]),
    /// The text begins with it.
    Begins(&'a [u8]),
    /// It is in the text.
    IsIn(&'a [u8]),
}

/// Returns whether the word fits.
fn fits(word: &[u8], fit: Fit<'_>) -> bool {
    match fit {
        Fit::Is(text) => text == word,
        Fit::Begins(text) => text.starts_with(word),
        Fit::IsIn(text) => text.contains_str(word),
    }
}

/// Returns the first of the words that fits.
fn word_of(words: &'static [u8], fit: Fit<'_>) -> Option<&'static [u8]> {
    for word in words.split(|byte| *byte == b' ') {
        if fits(word, fit) {
            return Some(word);
        }
    }
    None
}

/// Returns what a row says, if it is of this kind and one of its words fits.
fn construct_of(row: Row, kind: WordPlace, fit: Fit<'_>) -> Option<Construct> {
    if row.0 != kind {
        return None;
    }
    let word = word_of(row.1, fit)?;
    Some(Construct { key: row.2, word })
}

/// Returns what the first row of this kind says that has a word that fits.
pub(crate) fn row_of(kind: WordPlace, fit: Fit<'_>) -> Option<Construct> {
    for row in &ROWS {
        if let Some(found) = construct_of(*row, kind, fit) {
            return Some(found);
        }
    }
    None
}

/// What has no word in the table.
#[derive(Clone, Copy)]
pub(crate) enum Nameless {
    CarriageReturn,
    BlankBesideEquals,
    Operator,
    Test,
    Cut,
    Special,
    DoubleQuote,
    SingleQuote,
    Bracket,
}

/// Returns what is said of it.
fn key_of(found: Nameless) -> Key {
    match found {
        Nameless::CarriageReturn => keys::CARRIAGE_RETURN,
        Nameless::BlankBesideEquals => keys::BLANK_BESIDE_EQUALS,
        Nameless::Operator => keys::VARIABLE_WITH_OPERATOR,
        Nameless::Test => keys::VARIABLE_WITH_TEST,
        Nameless::Cut => keys::VARIABLE_WITH_CUT,
        Nameless::Special => keys::SPECIAL_VARIABLE,
        Nameless::DoubleQuote => keys::OPEN_DOUBLE_QUOTE,
        Nameless::SingleQuote => keys::OPEN_SINGLE_QUOTE,
        Nameless::Bracket => keys::TEST_BRACKET,
    }
}

/// Returns what is said of what has no word in the table.
pub(crate) fn said_of(found: Nameless) -> Construct {
    Construct {
        key: key_of(found),
        word: b"",
    }
}
