//! Errors of several readings in one list.

ghost use Rattle.std.specs.Prelude.{length, All, IfOk, OnOk};
ghost use Rattle.lint_all.specs.Found as specs;

use lint_findings::Finding;
use lint_text::{
    after_blanks, before, first_line, first_name, from, is_word_byte, without_end_blanks,
};
use std::alloc::{AllocError, Global};
use std::collections::BTreeSet;

/// What is said of errors: the place and the code of each.
type Seen = BTreeSet<Vec<u8>>;

/// The words of the shell that go on with a construct or end it.
const CONTINUING: [&[u8]; 6] = [b"then", b"else", b"fi", b"do", b"done", b"esac"];

/// The words of the shell that begin a construct.
const BEGINNING: [&[u8]; 6] = [b"if", b"elif", b"while", b"until", b"for", b"case"];

/// The mark that a file of another system may begin with.
const MARK: &[u8] = b"\xEF\xBB\xBF";

/// The code of an error of a statement after AC_OUTPUT.
const AFTER_OUTPUT: &[u8] = b"parse-10";

/// Returns whether an error is of text that is no statement.
fn is_of_text(error: &Finding) -> bool {
    error.code.as_slice() == b"parse-3".as_slice()
}

/// Returns whether a part of a list of patterns is one pattern.
fn is_pattern(part: &[u8]) -> bool {
    let pattern = after_blanks(without_end_blanks(part));
    !pattern.is_empty()
        && !pattern
            .iter()
            .any(|byte| matches!(*byte, b' ' | b'\t' | b'('))
}

/// Returns whether a line begins with a list of patterns of a `case`, and the parenthesis after it.
fn has_patterns(line: &[u8]) -> bool {
    match line.iter().position(|byte| *byte == b')') {
        Some(at) => {
            let patterns = before(line, at);
            !closes_more(patterns) && patterns.split(|byte| *byte == b'|').all(is_pattern)
        }
        None => false,
    }
}

/// Returns whether a part of a line leads to the body of a construct.
fn leads(part: &[u8]) -> bool {
    let name = first_name(after_blanks(part));
    name == b"then".as_slice() || name == b"do".as_slice()
}

/// Returns whether a word begins a construct of the shell.
fn is_beginning(word: &[u8]) -> bool {
    BEGINNING.iter().any(|other| *other == word)
}

/// Returns whether a line has a word that begins a construct.
fn has_beginning(line: &[u8]) -> bool {
    line.split(|byte| matches!(*byte, b' ' | b'\t' | b';' | b'('))
        .any(is_beginning)
}

/// Returns whether a line ends the condition of a construct that began on a line before.
fn ends_condition(line: &[u8]) -> bool {
    !has_beginning(line) && line.split(|byte| *byte == b';').skip(1).any(leads)
}

/// Returns whether a text closes more brackets than it opens.
fn closes_more(text: &[u8]) -> bool {
    let mut depth: usize = 0;
    for byte in text {
        if *byte == b']' && depth == 0 {
            return true;
        }
        depth = depth.saturating_add(usize::from(*byte == b'['));
        depth = depth.saturating_sub(usize::from(*byte == b']'));
    }
    false
}

/// Returns whether what is at an offset is in an argument of a call without more of its line: a
/// comma is before it.
fn is_after_comma(text: &[u8], at: usize) -> bool {
    without_end_blanks(before(text, at)).ends_with(b",")
}

/// Returns whether text begins with the patterns of a `case`. An argument that ends in a parenthesis
/// looks the same, but for a comma before it or a bracket that it closes.
fn begins_with_patterns(text: &[u8], at: usize) -> bool {
    let line = first_line(from(text, at));
    has_patterns(line) && !is_after_comma(text, at)
}

/// Returns whether text goes on with a construct of the shell or ends it, or is the value of a
/// variable whose name is read as that of a macro.
fn continues(rest: &[u8]) -> bool {
    let name = first_name(rest);
    rest.starts_with(b"=")
        || ends_condition(first_line(rest))
        || CONTINUING.iter().any(|other| *other == name)
}

/// Returns what is on the line of an offset before it.
fn line_before(text: &[u8], at: usize) -> &[u8] {
    let front = before(text, at);
    match front.iter().rposition(|byte| *byte == b'\n') {
        Some(newline) => from(front, newline.saturating_add(1)),
        None => front,
    }
}

/// Returns whether text is after a variable whose name is read as that of a macro.
fn follows_variable(text: &[u8], at: usize) -> bool {
    let front = without_end_blanks(line_before(text, at));
    let len = front
        .iter()
        .rev()
        .take_while(|byte| is_word_byte(**byte))
        .count();
    let sign = before(front, front.len().saturating_sub(len));
    len > 0 && (sign.ends_with(b"$") || sign.ends_with(b"${"))
}

/// Returns whether text is a parenthesis after one that closes a call.
fn is_surplus_close(text: &[u8], at: usize) -> bool {
    from(text, at).starts_with(b")") && without_end_blanks(line_before(text, at)).ends_with(b")")
}

/// Returns whether an error is of the quotes of a copy, in which something was taken out. Those of
/// the source itself have no error.
fn is_of_quotes(error: &Finding) -> bool {
    error.code.as_slice().starts_with(b"parse-1.")
}

/// Returns whether an error is of a word of a shell.
fn is_of_word(error: &Finding) -> bool {
    error.code.as_slice().starts_with(b"parse-6.")
}

/// Returns whether an error is of text that another error is about too: that of the construct which
/// the text goes on with or ends, that a parenthesis is too many after a call, or that the file
/// begins with a mark.
fn is_of_other(text: &[u8], error: &Finding) -> bool {
    let rest = from(text, error.start);
    rest.starts_with(MARK)
        || continues(rest)
        || begins_with_patterns(text, error.start)
        || is_surplus_close(text, error.start)
}

/// Returns whether another error is about the text of an error too. That of a variable whose name is
/// read as that of a macro is about the rest of its line.
fn is_continuing(text: &[u8], error: &Finding) -> bool {
    is_of_quotes(error)
        || is_of_text(error) && is_of_other(text, error)
        || (is_of_text(error) || is_of_word(error)) && follows_variable(text, error.start)
}

/// Returns the place and the code of an error. In a file with the line ends of another system each
/// line has the same error.
fn key_of(alloc: Global, text: &[u8], error: &Finding) -> Result<Vec<u8>, AllocError> {
    if is_of_text(error) && first_line(from(text, error.start)).ends_with(b"\r") {
        return Vec::from_slice(alloc, b"\r");
    }
    let mut key = Vec::from_slice(alloc, &error.start.to_le_bytes())?;
    key.extend_from_slice(error.code.as_slice())?;
    Ok(key)
}

/// Adds what an error says. Returns whether it is new.
fn is_new(
    alloc: Global,
    text: &[u8],
    error: &Finding,
    seen: &mut Seen,
) -> Result<bool, AllocError> {
    let key = key_of(alloc, text, error)?;
    let is_new = seen.insert(key)?;
    Ok(is_new)
}

/// Returns the offset of the first statement after AC_OUTPUT, if it has an error. If none has,
/// returns one after all offsets.
fn first_after_output(errors: &[Finding], least: usize) -> usize {
    let mut first = least;
    for error in errors {
        if error.code.as_slice() == AFTER_OUTPUT {
            first = first.min(error.start);
        }
    }
    first
}

/// Returns what errors say.
fn seen_in(alloc: Global, text: &[u8], errors: &[Finding]) -> Result<Seen, AllocError> {
    let mut seen = BTreeSet::new(alloc);
    for error in errors {
        let _ = is_new(alloc, text, error, &mut seen)?;
    }
    Ok(seen)
}

/// Returns whether the error of a macro that isn't known is at an offset.
fn is_unknown_at(alloc: Global, at: usize, seen: &Seen) -> Result<bool, AllocError> {
    let mut key = Vec::from_slice(alloc, &at.to_le_bytes())?;
    key.extend_from_slice(b"parse-2")?;
    Ok(seen.contains(key.as_slice()))
}

/// Returns whether an error is of a word with a variable whose name is read as that of a macro that
/// isn't known: a `${` is before it.
fn has_unknown(
    alloc: Global,
    text: &[u8],
    error: &Finding,
    seen: &Seen,
) -> Result<bool, AllocError> {
    if !is_of_word(error) {
        return Ok(false);
    }
    let line = first_line(from(text, error.start));
    for i in 0..line.len() {
        let name = error.start.saturating_add(i).saturating_add(2);
        if from(line, i).starts_with(b"${") && is_unknown_at(alloc, name, seen)? {
            return Ok(true);
        }
    }
    Ok(false)
}

/// Returns whether an error is one more about what another one says.
fn is_echo(
    alloc: Global,
    text: &[u8],
    first: usize,
    error: &Finding,
    seen: &Seen,
) -> Result<bool, AllocError> {
    let is_later = error.code.as_slice() == AFTER_OUTPUT && first < error.start;
    if is_later || is_continuing(text, error) {
        return Ok(true);
    }
    has_unknown(alloc, text, error, seen)
}

/// Appends an error, if its place and code are new, and if it isn't of text that goes on with a
/// construct of the shell, nor of a statement after AC_OUTPUT that isn't the first, which begins at
/// an offset.
fn push_new(
    alloc: Global,
    text: &[u8],
    first: usize,
    error: Finding,
    seen: &mut Seen,
    out: &mut Vec<Finding>,
) -> Result<(), AllocError>
    requires { specs.IsErrorOf (length text.now) error }
    ensures among { OnOk result (specs.KeepsAmong out.old.items out.new.items) }
    ensures errors { OnOk result (specs.KeepsErrors (length text.now) out.old.items out.new.items) }
{
    if !is_echo(alloc, text, first, &error, seen)? && is_new(alloc, text, &error, seen)? {
        out.push(error)?;
    }
    Ok(())
}

/// Returns errors with others after them, but for those whose place and code an earlier one has,
/// those of text that goes on with a construct of the shell, and those of statements after
/// AC_OUTPUT that aren't the first.
pub(crate) fn joined(
    alloc: Global,
    text: &[u8],
    errors: Vec<Finding>,
    others: Vec<Finding>,
) -> Result<Vec<Finding>, AllocError>
    requires first { All (specs.IsErrorOf (length text.now)) errors.items }
    requires more { All (specs.IsErrorOf (length text.now)) others.items }
    ensures among { IfOk result (λ v. specs.AreAmong errors.items v.items) }
    ensures errors { IfOk result (λ v. All (specs.IsErrorOf (length text.now)) v.items) }
{
    let mut seen = seen_in(alloc, text, errors.as_slice())?;
    let first = first_after_output(errors.as_slice(), usize::MAX);
    let first = first_after_output(others.as_slice(), first);
    let mut out = errors;
    let mut rest = others;
    for _ in 0..rest.len() {
        let Some(error) = rest.pop() else {
            return Ok(out);
        };
        push_new(alloc, text, first, error, &mut seen, &mut out)?;
    }
    Ok(out)
}
