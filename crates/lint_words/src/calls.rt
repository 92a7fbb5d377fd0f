//! The call that a place is in, and the arguments of a call.

use ac_calls::{CallAt, Extent};
use lint_text::{before, from, is_word_byte, part};
use m4quote::{Arg, Item, QuoteFault, read_items};
use std::alloc::{AllocError, Global};

/// Returns what is before a bracket that closes more than the text opens, or the whole text.
pub(crate) fn before_close(text: &[u8]) -> &[u8] {
    let mut open: usize = 0;
    let mut len: usize = 0;
    for byte in text {
        if *byte == b']' && open == 0 {
            return before(text, len);
        }
        open = open.saturating_add(usize::from(*byte == b'['));
        open = open.saturating_sub(usize::from(*byte == b']'));
        len = len.saturating_add(1);
    }
    text
}

/// Returns the letters, digits and `_` that a text ends with.
pub(crate) fn last_name(text: &[u8]) -> &[u8] {
    let len = text
        .iter()
        .rev()
        .take_while(|byte| is_word_byte(**byte))
        .count();
    from(text, text.len().saturating_sub(len))
}

/// Returns an argument without the quotes around it.
pub(crate) fn unquoted(argument: &[u8]) -> &[u8] {
    match argument {
        [b'[', inside @ .., b']'] => inside,
        _ => argument,
    }
}

/// Returns the innermost call in whose arguments the place is.
pub(crate) fn call_around(calls: &[CallAt], at: usize) -> Option<&CallAt> {
    calls
        .iter()
        .rev()
        .find(|call| call.name_end <= at && at < call.end)
}

/// Returns the texts of these parts of a source.
fn texts_at<'a>(
    alloc: Global,
    text: &'a [u8],
    args: &[Extent],
) -> Result<Vec<&'a [u8]>, AllocError> {
    let mut texts = Vec::new(alloc);
    for arg in args {
        texts.push(part(text, arg.start, arg.end))?;
    }
    Ok(texts)
}

/// Returns the texts of arguments.
fn texts_of<'a>(alloc: Global, args: &[Arg<'a>]) -> Result<Vec<&'a [u8]>, AllocError> {
    let mut texts = Vec::new(alloc);
    for arg in args {
        texts.push(arg.text)?;
    }
    Ok(texts)
}

/// Returns the arguments of the call that a text begins with, or none if its quotes have an error.
fn first_arguments(alloc: Global, text: &[u8]) -> Result<Vec<&[u8]>, AllocError> {
    match read_items(alloc, text) {
        Ok(items) => match items.first() {
            Some(Item::Call { args, .. }) => texts_of(alloc, args.as_slice()),
            _ => Ok(Vec::new(alloc)),
        },
        Err(QuoteFault::OutOfMemory) => Err(AllocError),
        Err(_) => Ok(Vec::new(alloc)),
    }
}

/// Returns the rest of the argument that the place is in, without the bracket that closes it.
fn rest_of_argument<'a>(text: &'a [u8], calls: &[CallAt], at: usize) -> &'a [u8] {
    let Some(call) = call_around(calls, at) else {
        return b"";
    };
    match call.args.iter().find(|arg| arg.start <= at && at < arg.end) {
        Some(arg) => before_close(part(text, at, arg.end)),
        None => b"",
    }
}

/// Returns the arguments of the call that begins at the place. It may be one of an argument that
/// has no statements, which is not among the calls.
pub(crate) fn arguments_at<'a>(
    alloc: Global,
    text: &'a [u8],
    calls: &[CallAt],
    at: usize,
) -> Result<Vec<&'a [u8]>, AllocError> {
    match calls.iter().find(|call| call.start == at) {
        Some(call) => texts_at(alloc, text, call.args.as_slice()),
        None => first_arguments(alloc, rest_of_argument(text, calls, at)),
    }
}
