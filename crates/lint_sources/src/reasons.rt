//! Why no call can be put in the place of a statement of a shell.

ghost use Rattle.std.specs.Prelude.{◌≡◌, map, OnOk};
ghost use Rattle.lint_sources.specs.Listed as specs;

use deftable::Bytes;
use lint_findings::Finding;
use lint_table::{Key, Page, WordPart, keys};
use lint_text::{after_blanks, before, first_line, first_name, from, without_end_blanks};
use port_reasons::{Reason, Staying, kept_statements};
use std::alloc::{AllocError, Global};

/// Returns whether an error is of text that is no statement.
fn is_of_text(error: &Finding) -> bool {
    error.code.as_slice() == b"parse-3".as_slice()
}

/// Writes what a statement has in it, if the reason is that.
fn put_inside(page: &mut Page, reason: &Reason) -> bool {
    match reason {
        Reason::Loop(word) => page.put(keys::SHELL_FOR, &[WordPart::AsItIs(word.as_slice())]),
        Reason::Call(name) => page.put(keys::NO_MACRO, &[WordPart::Quoted(name.as_slice())]),
        Reason::Braces => page.put(keys::SHELL_GROUP, &[WordPart::AsItIs(b"{")]),
        Reason::Subshell => page.put(keys::SHELL_SUBSHELL, &[WordPart::AsItIs(b"(")]),
        Reason::Function => page.put(keys::SHELL_FUNCTION, &[WordPart::AsItIs(b"")]),
        _ => return false,
    }
    true
}

/// Returns whether the reason is something in the statement.
fn is_inside(reason: &Reason) -> bool {
    matches!(
        reason,
        Reason::Loop(_) | Reason::Call(_) | Reason::Braces | Reason::Subshell | Reason::Function
    )
}

/// Returns what is said of what is around a statement or at its words, if the reason is that.
fn key_of(reason: &Reason) -> Option<Key> {
    let key = match reason {
        Reason::InBraces => keys::IN_BRACES,
        Reason::InParentheses => keys::IN_PARENTHESES,
        Reason::InCondition => keys::IN_CONDITION,
        Reason::Joined => keys::JOINED_TO_COMMAND,
        Reason::AfterCall => keys::AFTER_CALL,
        Reason::Body => keys::FUNCTION_BODY,
        Reason::InBrackets => keys::WORD_IN_BRACKETS,
        Reason::Followed => keys::FOLLOWED_ON_LINE,
        Reason::HasComment => keys::COMMENT_IN_CONDITION,
        _ => return None,
    };
    Some(key)
}

/// Writes the reason that a statement stays, which begins with this word.
fn put_reason<'a>(page: &mut Page, word: &'a [u8], reason: &'a Reason) {
    if put_inside(page, reason) {
        return;
    }
    let word = WordPart::AsItIs(word);
    if let Reason::InLoop(around) = reason {
        let around = WordPart::AsItIs(around.as_slice());
        page.put(keys::IN_LOOP, &[word, around]);
    } else if let Some(key) = key_of(reason) {
        page.put(key, &[word]);
    }
}

/// Returns the reason that a statement stays, which begins with this word.
fn reason_text(alloc: Global, word: &[u8], reason: &Reason) -> Result<Bytes, AllocError> {
    if let Reason::Refused(what) = reason {
        return Bytes::from_slice(alloc, what.as_slice());
    }
    let mut page = Page::new(alloc);
    put_reason(&mut page, word, reason);
    page.message()
}

/// Returns what is said of a statement that stays for this reason, which is about the statement or
/// about something in it.
fn words_of(
    alloc: Global,
    text: &[u8],
    cause: &Staying,
    is_inner: bool,
) -> Result<Bytes, AllocError> {
    let mut page = Page::new(alloc);
    if let Reason::Draws = cause.reason {
        page.put(keys::CALL_DRAWS, &[]);
        return page.message();
    }
    let word = first_name(from(text, cause.start));
    let what = reason_text(alloc, word, &cause.reason)?;
    let key = if is_inner {
        keys::IN_IT_REFUSED
    } else {
        keys::CALL_IS_REFUSED
    };
    page.put(key, &[WordPart::AsItIs(what.as_slice())]);
    page.message()
}

/// Returns the first statement from an index on that has a reason of its own and begins before an
/// offset.
fn cause_from(statements: &[Staying], index: usize, end: usize) -> Option<&Staying> {
    for statement in statements.iter().skip(index) {
        if end <= statement.start {
            return None;
        }
        if !matches!(statement.reason, Reason::Inner) {
            return Some(statement);
        }
    }
    None
}

/// Returns what is said of the statement of this index, if it is known why it stays.
fn words_of_index(
    alloc: Global,
    text: &[u8],
    statements: &[Staying],
    index: usize,
) -> Result<Option<Bytes>, AllocError> {
    let Some(statement) = statements.get(index) else {
        return Ok(None);
    };
    match cause_from(statements, index, statement.end) {
        Some(cause) => {
            let is_inner = statement.start < cause.start || is_inside(&cause.reason);
            let words = words_of(alloc, text, cause, is_inner)?;
            Ok(Some(words))
        }
        None => Ok(None),
    }
}

/// Where errors of text begin, in order.
type Starts = Vec<usize>;

/// Returns where the errors of text begin.
fn starts_of(alloc: Global, errors: &[Finding]) -> Result<Starts, AllocError> {
    let mut starts = Vec::new(alloc);
    for error in errors {
        if is_of_text(error) {
            starts.push(error.start)?;
        }
    }
    starts.sort()?;
    Ok(starts)
}

/// Returns the offset of the last line before an offset that isn't blank.
fn line_above(text: &[u8], at: usize) -> usize {
    let front = without_end_blanks(before(text, at));
    match front.iter().rposition(|byte| *byte == b'\n') {
        Some(newline) => newline.saturating_add(1),
        None => 0,
    }
}

/// Returns the name before the parenthesis with which the line before an offset begins, if an error
/// is there and the line ends with a parenthesis. Otherwise it is empty.
fn called_above<'a>(text: &'a [u8], starts: &[usize], at: usize) -> &'a [u8] {
    let above = line_above(text, at);
    let line = without_end_blanks(first_line(from(text, above)));
    let name = first_name(line);
    let is_call = from(line, name.len()).starts_with(b"(") && line.ends_with(b")");
    if is_call && starts.binary_search(&above).is_ok() {
        name
    } else {
        b""
    }
}

/// Returns whether a line of a condition goes on with the next one.
fn goes_on(line: &[u8]) -> bool {
    line.ends_with(b"&&") || line.ends_with(b"||") || line.ends_with(b"\\")
}

/// Returns whether a line begins with an `if` whose test is in brackets.
fn has_test_in_brackets(line: &[u8]) -> bool {
    first_name(line) == b"if".as_slice() && after_blanks(from(line, 2)).starts_with(b"[")
}

/// Returns whether an `if` at an offset has its test in brackets.
fn is_test_in_brackets(text: &[u8], at: usize) -> bool {
    has_test_in_brackets(first_line(from(text, at)))
}

/// Writes what may keep a call from being put in the place of an `if`, as far as its first line
/// tells it, or the name that is called above it.
fn put_of_if(page: &mut Page, line: &[u8], name: &[u8]) {
    if has_test_in_brackets(line) {
        page.put(keys::TEST_IN_BRACKETS, &[]);
    } else if goes_on(line) {
        page.put(keys::TEST_ON_LINES, &[]);
    } else if !name.is_empty() {
        page.put(keys::UNKNOWN_BEFORE, &[WordPart::AsItIs(name)]);
    }
}

/// Returns what may keep a call from being put in the place of the statement at an offset, if none
/// would be refused there. If nothing is known, it is empty.
fn words_of_other(
    alloc: Global,
    text: &[u8],
    starts: &[usize],
    at: usize,
) -> Result<Bytes, AllocError> {
    let line = without_end_blanks(first_line(from(text, at)));
    let mut page = Page::new(alloc);
    if first_name(line) == b"if".as_slice() {
        put_of_if(&mut page, line, called_above(text, starts, at));
    }
    page.message()
}

/// Returns why the statement at an offset stays, if it is known.
fn words_of_start(
    alloc: Global,
    text: &[u8],
    statements: &[Staying],
    start: usize,
) -> Result<Option<Bytes>, AllocError> {
    match statements.binary_search_by(|statement| statement.start.cmp(&start)) {
        Ok(index) => words_of_index(alloc, text, statements, index),
        Err(_) => Ok(None),
    }
}

/// Returns why the statement at an offset stays, or what may keep it. If it isn't known, it is
/// empty.
fn words_at(
    alloc: Global,
    text: &[u8],
    statements: &[Staying],
    starts: &[usize],
    start: usize,
) -> Result<Bytes, AllocError> {
    if is_test_in_brackets(text, start) {
        return words_of_other(alloc, text, starts, start);
    }
    match words_of_start(alloc, text, statements, start)? {
        Some(words) => Ok(words),
        None => words_of_other(alloc, text, starts, start),
    }
}

/// Returns a message with other words after it.
fn with_words(alloc: Global, message: &[u8], words: &[u8]) -> Result<Bytes, AllocError> {
    let mut out = Vec::from_slice(alloc, message)?;
    out.extend_from_slice(words)?;
    Ok(Bytes::from_vec(out))
}

/// Adds why it stays to the message of an error that is at a statement of a shell.
fn add_reason(
    alloc: Global,
    text: &[u8],
    statements: &[Staying],
    starts: &[usize],
    error: &mut Finding,
) -> Result<(), AllocError>
    ensures { OnOk result (specs.unworded error.new ≡ specs.unworded error.old) }
{
    if !is_of_text(error) {
        return Ok(());
    }
    let words = words_at(alloc, text, statements, starts, error.start)?;
    let message = with_words(alloc, error.message.as_slice(), words.as_slice())?;
    error.message = message;
    Ok(())
}

/// Adds why it stays to the message of each error that is at a statement of a shell.
fn add_each(
    alloc: Global,
    text: &[u8],
    statements: &[Staying],
    starts: &[usize],
    errors: &mut [Finding],
) -> Result<(), AllocError>
    ensures { OnOk result (map specs.unworded errors.new ≡ map specs.unworded errors.old) }
{
    for error in errors.iter_mut() {
        add_reason(alloc, text, statements, starts, error)?;
    }
    Ok(())
}

/// Returns whether one of the errors is of text that is no statement.
fn has_text(errors: &[Finding]) -> bool {
    errors.iter().any(|error| is_of_text(error))
}

/// Adds to the message of each error at a statement of a shell why no call can be put in its place,
/// if that is known.
///
/// # Errors
///
/// Fails only if memory runs out.
pub fn add_reasons(alloc: Global, text: &[u8], errors: &mut [Finding]) -> Result<(), AllocError>
    // Nothing but messages changes.
    ensures { OnOk result (map specs.unworded errors.new ≡ map specs.unworded errors.old) }
{
    if !has_text(errors) {
        return Ok(());
    }
    let statements = kept_statements(alloc, text)?;
    let starts = starts_of(alloc, errors)?;
    add_each(
        alloc,
        text,
        statements.as_slice(),
        starts.as_slice(),
        errors,
    )
}
