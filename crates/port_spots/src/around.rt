//! What is before and after a place of a text.

ghost use Rattle.std.specs.Prelude.{◌≡◌, true};
ghost use Rattle.std.specs.List.{list_all};
ghost use Rattle.port_definitions.specs.Defined.{is_of_name};
ghost use Rattle.port_spots.specs.Put as specs;

use crate::spots::Spot;
use lint_text::{before, from, is_word_byte, part};
use port_definitions::{is_dropped, is_of_name, last_line, space_len};
use text_cut::{is_blank_or_return, is_space_or_return};

/// Returns whether a text has nothing but blanks and newlines.
pub fn are_blank(text: &[u8]) -> bool
    ensures { result ≡ list_all specs.is_blank_or_return text.now }
{
    text.iter().all(|byte| is_blank_or_return(*byte))
}

/// Returns the number of blanks and newlines at the front.
pub fn blank_len(text: &[u8]) -> usize {
    text.iter()
        .take_while(|byte| is_blank_or_return(**byte))
        .count()
}

/// Returns the text without the blanks and newlines at its end.
pub fn without_end_blanks(text: &[u8]) -> &[u8] {
    let blanks = text
        .iter()
        .rev()
        .take_while(|byte| is_blank_or_return(**byte))
        .count();
    before(text, text.len().saturating_sub(blanks))
}

/// Returns whether a text has nothing but spaces, tabs and carriage returns.
pub fn are_spaces(text: &[u8]) -> bool
    ensures { result ≡ list_all specs.is_space_or_return text.now }
{
    text.iter().all(|byte| is_space_or_return(*byte))
}

/// Returns whether a text has nothing but letters, digits and `_`.
pub fn are_name_bytes(text: &[u8]) -> bool
    ensures { result ≡ list_all is_of_name text.now }
{
    text.iter().all(|byte| is_of_name(*byte))
}

/// Returns the text if it has nothing but spaces and tabs, and otherwise nothing.
fn spaces_of(text: &[u8]) -> &[u8]
    ensures { list_all specs.is_space_or_return result.now ≡ true }
{
    if are_spaces(text) { text } else { b"" }
}

/// Returns the spaces and tabs that the line of a place begins with, if there is nothing else
/// before it.
pub fn indent_of(text: &[u8], spot: Spot, at: usize) -> &[u8]
    ensures { list_all specs.is_space_or_return result.now ≡ true }
{
    if spot.is_first {
        spaces_of(part(text, spot.line, at))
    } else {
        b""
    }
}

/// Returns the spaces and tabs that the line of a place begins with.
pub fn line_indent(text: &[u8], spot: Spot) -> &[u8]
    ensures { list_all specs.is_space_or_return result.now ≡ true }
{
    let line = from(text, spot.line);
    spaces_of(before(line, space_len(line)))
}

/// Returns whether a statement may end before this text.
pub fn ends_statement(rest: &[u8]) -> bool {
    let rest = from(rest, space_len(rest));
    match rest.first() {
        None => true,
        Some(byte) => {
            matches!(*byte, b'\n' | b';' | b'#' | b']' | b')' | b',') || rest.starts_with(b"dnl")
        }
    }
}

/// Returns whether a `;` is before a place on its line.
pub fn is_after_separator(text: &[u8], spot: Spot, at: usize) -> bool {
    without_end_blanks(part(text, spot.line, at)).ends_with(b";")
}

/// Returns whether the statement before this text goes on in it: with an operator after spaces.
pub fn goes_on(rest: &[u8]) -> bool {
    let rest = from(rest, space_len(rest));
    rest.first()
        .is_some_and(|byte| matches!(*byte, b'&' | b'|' | b'<' | b'>'))
}

/// Returns whether a line begins with a word and a blank.
fn begins_with(line: &[u8], word: &[u8]) -> bool {
    line.starts_with(word)
        && line
            .get(word.len())
            .is_some_and(|byte| is_space_or_return(*byte))
}

/// Returns whether a line of a text begins an `if` or a `case` of a shell, and a line ends one. If
/// a comment is in the text, nothing is found.
pub fn has_compound(text: &[u8]) -> bool {
    let mut begins = false;
    let mut ends = false;
    for line in text.split(|byte| *byte == b'\n') {
        let line = without_end_blanks(from(line, space_len(line)));
        begins = begins || begins_with(line, b"if") || begins_with(line, b"case");
        ends = ends || line.ends_with(b"fi") || line.ends_with(b"esac");
    }
    begins && ends && !text.contains(&b'#')
}

/// Returns whether a line is blank or a comment.
fn is_idle_line(line: &[u8]) -> bool {
    let line = from(line, space_len(line));
    line.is_empty() || line.starts_with(b"#") || is_dropped(line)
}

/// Returns the text before an offset without the blanks, the blank lines and the lines of comments
/// at its end.
pub fn before_idle(text: &[u8], at: usize) -> &[u8] {
    let mut front = before(text, at);
    for _ in 0..text.len() {
        let start = last_line(front);
        if !is_idle_line(from(front, start)) {
            return without_end_blanks(front);
        }
        if start == 0 {
            return b"";
        }
        front = before(front, start - 1);
    }
    without_end_blanks(front)
}

/// Returns what is before a place: on its line, or, if nothing is there, on the lines before it
/// that are no comments.
fn text_before(text: &[u8], spot: Spot, at: usize) -> &[u8] {
    if spot.is_first {
        before_idle(text, spot.line)
    } else {
        part(text, spot.line, at)
    }
}

/// Returns whether a text ends in `then` or `else`.
pub fn ends_in_word(text: &[u8]) -> bool {
    let is_word = text.ends_with(b"then") || text.ends_with(b"else");
    let before = text.len().checked_sub(5).and_then(|at| text.get(at));
    is_word && !before.is_some_and(|byte| !is_blank_or_return(*byte) && *byte != b';')
}

/// Returns whether a statement may come after this text on its line: a call, a separator, the begin
/// of an argument, `then` or `else` is at its end.
fn may_precede(text: &[u8]) -> bool {
    ends_in_word(text)
        || text
            .last()
            .is_some_and(|byte| matches!(*byte, b')' | b';' | b'[' | b'(' | b','))
}

/// Returns what is before the first `dnl` of a line that has no `#` before it.
fn before_drop(line: &[u8]) -> Option<&[u8]> {
    let mut is_in_word = false;
    for at in 0..line.len() {
        if line[at] == b'#' {
            return None;
        }
        if !is_in_word && is_dropped(from(line, at)) {
            return Some(before(line, at));
        }
        is_in_word = is_word_byte(line[at]);
    }
    None
}

/// Returns whether `dnl` joins the line at an offset to a command above it.
fn is_joined_to_command(text: &[u8], line: usize) -> bool {
    let mut front = before(text, line);
    for _ in 0..text.len() {
        let above = before(front, front.len().saturating_sub(1));
        let start = last_line(above);
        let Some(kept) = before_drop(from(above, start)) else {
            return false;
        };
        let kept = without_end_blanks(kept);
        if !kept.is_empty() {
            return !may_precede(kept);
        }
        front = before(above, start);
    }
    false
}

/// Returns whether a statement may begin at a place: an argument begins there, `then` or `else` is
/// before it on its line, or nothing is, and neither an operator ends the line before, nor `dnl`
/// joins the line to a command.
pub fn begins_statement(text: &[u8], spot: Spot, at: usize) -> bool {
    let before = without_end_blanks(text_before(text, spot, at));
    match before.last() {
        None => true,
        Some(_) if !spot.is_first && ends_in_word(before) => true,
        Some(byte) => {
            let is_joined = matches!(*byte, b'&' | b'|' | b'\\' | b'!');
            let begins = matches!(*byte, b'[' | b'(' | b',') || spot.is_first && !is_joined;
            begins && !(spot.is_first && is_joined_to_command(text, spot.line))
        }
    }
}
