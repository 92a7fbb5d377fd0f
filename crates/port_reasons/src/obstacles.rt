//! What keeps `acrun port --idioms` from writing another text in the place of an operator of a test.

use crate::softened::{SoftOperator, is_of_files, soft_operators};
use ac_calls::CallAt;
use deftable::Bytes;
use lint_table::{Key, Page, WordPart, keys};
use lint_text::{from, line_start, part, without_end_blanks};
use port_joints::{file_test, has_part};
use port_parts::{GuardCut, IfCut, are_spaces};
use port_statements::StatementCut;
use std::alloc::{AllocError, Global};

/// A condition of a statement.
#[derive(Clone, Copy)]
struct Condition<'a> {
    /// The offset of what it is the condition of: an `if`, an `elif`, or itself.
    start: usize,
    /// Whether it is that of an `elif`.
    is_branch: bool,
    text: &'a [u8],
}

/// Returns a condition between two offsets, without the `;` and the blanks after it.
fn written(text: &[u8], start: usize, end: usize) -> &[u8] {
    let condition = without_end_blanks(part(text, start, end));
    match condition {
        [front @ .., b';'] => without_end_blanks(front),
        _ => condition,
    }
}

// ---- where a condition is

/// Returns whether the statement of a condition begins its line.
fn begins_line(text: &[u8], condition: Condition<'_>) -> bool {
    are_spaces(part(text, line_start(text, condition.start), condition.start))
}

/// Returns whether an argument without brackets of a call has the offset.
fn has_bare(text: &[u8], call: &CallAt, at: usize) -> bool {
    call.args.iter().any(|arg| arg.start <= at
        && at < arg.end
        && text.get(arg.start) != Some(&b'['))
}

/// Returns whether an offset is in an argument without brackets.
fn is_in_bare(text: &[u8], calls: &[CallAt], at: usize) -> bool {
    calls.iter().any(|call| call.start < at && at < call.end && has_bare(text, call, at))
}

/// Returns whether AC_PROG_CC is before an offset.
fn has_compiler(text: &[u8], calls: &[CallAt], at: usize) -> bool {
    calls.iter().any(|call| {
        call.end <= at && part(text, call.start, call.name_end) == b"AC_PROG_CC".as_slice()
    })
}

/// Returns whether a condition has a byte with which no other text is written.
fn has_quote(condition: &[u8]) -> bool {
    condition
        .iter()
        .any(|byte| matches!(*byte, b'\\' | b'[' | b']' | b'\'' | b'`'))
}

// ---- the word of a file

/// Returns the word after an operator.
fn word_after<'a>(condition: &'a [u8], operator: SoftOperator<'_>) -> &'a [u8] {
    let start = operator
        .at
        .saturating_add(operator.word.len())
        .saturating_add(2);
    let rest = from(condition, start);
    let len = rest
        .iter()
        .take_while(|byte| !matches!(**byte, b' ' | b'\n'))
        .count();
    part(rest, 0, len)
}

/// Returns whether a program can ask for the file of an operator.
fn is_asked(condition: &[u8], operator: SoftOperator<'_>) -> bool {
    match file_test(from(condition, operator.at)) {
        Some(cut) => cut.at == 0,
        None => false,
    }
}

/// Returns what keeps a program from asking for a file.
fn obstacle_of_file(
    text: &[u8],
    calls: &[CallAt],
    condition: Condition<'_>,
    operator: SoftOperator<'_>,
) -> Option<Key> {
    if condition.is_branch {
        Some(keys::OPERATOR_IN_BRANCH)
    } else if !has_compiler(text, calls, condition.start) {
        Some(keys::FILE_BEFORE_COMPILER)
    } else if is_asked(condition.text, operator) {
        None
    } else if has_part(word_after(condition.text, operator), b"srcdir") {
        Some(keys::FILE_OF_SRCDIR)
    } else {
        Some(keys::FILE_WORD)
    }
}

/// Returns what keeps another text from being written in the place of an operator, if that is known.
fn obstacle_of(
    text: &[u8],
    calls: &[CallAt],
    condition: Condition<'_>,
    operator: SoftOperator<'_>,
) -> Option<Key> {
    if !begins_line(text, condition) {
        Some(keys::OPERATOR_IN_LINE)
    } else if is_in_bare(text, calls, condition.start) {
        Some(keys::OPERATOR_IN_BARE)
    } else if has_quote(condition.text) {
        Some(keys::OPERATOR_BESIDE_QUOTE)
    } else if is_of_files(operator.word) {
        obstacle_of_file(text, calls, condition, operator)
    } else {
        None
    }
}

// ---- the words

/// Returns what is said of an operator.
fn words_of(alloc: Global, key: Key, operator: &[u8]) -> Result<Bytes, AllocError> {
    let mut shown = Vec::new(alloc);
    if is_of_files(operator) {
        shown.extend_from_slice(b"test ")?;
    }
    shown.extend_from_slice(operator)?;
    let mut page = Page::new(alloc);
    page.put(key, &[WordPart::AsItIs(shown.as_slice())]);
    page.message()
}

/// Returns what keeps another text from being written in the place of an operator of a condition.
fn obstacle_in(
    alloc: Global,
    text: &[u8],
    calls: &[CallAt],
    condition: Condition<'_>,
) -> Result<Option<Bytes>, AllocError> {
    let operators = soft_operators(alloc, condition.text)?;
    for operator in &operators {
        if let Some(key) = obstacle_of(text, calls, condition, *operator) {
            let words = words_of(alloc, key, operator.word)?;
            return Ok(Some(words));
        }
    }
    Ok(None)
}

/// Returns the same of the conditions of an `if`.
fn obstacle_of_if(
    alloc: Global,
    text: &[u8],
    calls: &[CallAt],
    cut: &IfCut,
) -> Result<Option<Bytes>, AllocError> {
    let mut start = cut.start;
    for branch in &cut.branches {
        let condition = Condition {
            start,
            is_branch: start > cut.start,
            text: written(text, branch.start, branch.at_then),
        };
        if let Some(words) = obstacle_in(alloc, text, calls, condition)? {
            return Ok(Some(words));
        }
        start = branch.end;
    }
    Ok(None)
}

/// Returns the same of the condition of a statement that it guards.
fn obstacle_of_guard(
    alloc: Global,
    text: &[u8],
    calls: &[CallAt],
    cut: GuardCut,
) -> Result<Option<Bytes>, AllocError> {
    let condition = Condition {
        start: cut.start,
        is_branch: false,
        text: written(text, cut.start, cut.at_joint),
    };
    obstacle_in(alloc, text, calls, condition)
}

/// Returns what keeps `acrun port --idioms` from writing another text in the place of an operator in
/// a condition of a statement, if that is known.
pub(crate) fn obstacle_at(
    alloc: Global,
    text: &[u8],
    calls: &[CallAt],
    cut: &StatementCut,
) -> Result<Option<Bytes>, AllocError> {
    match cut {
        StatementCut::If(cut) => obstacle_of_if(alloc, text, calls, cut),
        StatementCut::Guard(cut) => obstacle_of_guard(alloc, text, calls, *cut),
        StatementCut::Case(_)
        | StatementCut::Default(_)
        | StatementCut::For(_)
        | StatementCut::Line(_) => Ok(None),
    }
}
