//! Shell text in words: what a word, a text with variables, a test and patterns were read as.
//!
//! What is quoted is in single quotes, a variable is `${name}`, and a byte that could be taken for
//! one of these has a backslash before it.

use shellword::{Condition, Element, HereText, Joint, Part, Patterns, Piece, Test, Word};
use test_rows::Page;
use test_rows::escaped::put_byte;

/// Puts a byte of a word.
fn put_word_byte(page: &mut Page, byte: u8) {
    if byte == b'\'' || byte == b'$' {
        page.put_byte(b'\\');
    }
    put_byte(page, byte);
}

fn put_part(page: &mut Page, part: &Part) {
    match part {
        Part::Plain(byte) | Part::Quoted(byte) => put_word_byte(page, *byte),
        Part::Variable(name) => {
            page.put(b"${");
            page.put(name.as_slice());
            page.put(b"}");
        }
    }
}

/// Puts a word. What is quoted is in single quotes, and `''` is the empty word.
pub fn put_word(page: &mut Page, word: &Word) {
    if word.parts().is_empty() {
        page.put(b"''");
    }
    let mut quoted = false;
    for part in word.parts() {
        let is_quoted = matches!(part, Part::Quoted(_));
        if is_quoted != quoted {
            page.put(b"'");
        }
        quoted = is_quoted;
        put_part(page, part);
    }
    if quoted {
        page.put(b"'");
    }
}

/// Puts a text with variables, in brackets after a blank.
pub fn put_here(page: &mut Page, text: &HereText) {
    page.put(b" [");
    for part in text.parts() {
        put_part(page, part);
    }
    page.put(b"]");
}

fn put_two(page: &mut Page, left: &Word, operator: &[u8], right: &Word) {
    put_word(page, left);
    page.put(operator);
    put_word(page, right);
}

fn put_element(page: &mut Page, element: &Element) {
    if element.negated {
        page.put(b"! ");
    }
    match &element.condition {
        Condition::True => page.put(b"true"),
        Condition::False => page.put(b"false"),
        Condition::Nonempty(word) => {
            page.put(b"-n ");
            put_word(page, word);
        }
        Condition::Empty(word) => {
            page.put(b"-z ");
            put_word(page, word);
        }
        Condition::Equal(left, right) => put_two(page, left, b" = ", right),
        Condition::Different(left, right) => put_two(page, left, b" != ", right),
    }
}

/// Puts a test.
pub fn put_test(page: &mut Page, test: &Test) {
    let (first, rest) = test.elements();
    put_element(page, first);
    for (joint, element) in rest {
        page.put(match joint {
            Joint::And => b" && ",
            Joint::Or => b" || ",
        });
        put_element(page, element);
    }
}

fn put_piece(page: &mut Page, piece: Piece) {
    match piece {
        Piece::AnyBytes => page.put(b"*"),
        Piece::OneByte => page.put(b"?"),
        Piece::Byte(byte) => {
            if matches!(byte, b'*' | b'?' | b'|') {
                page.put(b"\\");
            }
            put_word_byte(page, byte);
        }
    }
}

fn put_pattern(page: &mut Page, pieces: &[Piece]) {
    if pieces.is_empty() {
        page.put(b"''");
    }
    for piece in pieces {
        put_piece(page, *piece);
    }
}

/// Puts patterns, with a bar between each two.
pub fn put_patterns(page: &mut Page, patterns: &Patterns) {
    let mut is_first = true;
    for pattern in patterns.as_slice() {
        if !is_first {
            page.put(b" | ");
        }
        is_first = false;
        put_pattern(page, pattern.pieces());
    }
}
