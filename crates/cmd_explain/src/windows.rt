//! A number of children that is not from 1 to 16.

ghost use Rattle.std.specs.Prelude.{true, []};
ghost use Rattle.cmd_call.specs.Lines.{SaysLines};

use crate::lines::put_words;
use cmd_call::Hears;
use deftable::Bytes;
use std::alloc::{AllocError, Global};

/// Returns the digits of a word `-jDIGITS`, if it is one and the first isn't 0 before another.
fn digits_of(word: &[u8]) -> Option<&[u8]> {
    let digits = word.strip_prefix(b"-j")?;
    if digits.is_empty() || !digits.iter().all(|byte| byte.is_ascii_digit()) {
        return None;
    }
    if digits.len() > 1 && digits.starts_with(b"0") {
        return None;
    }
    Some(digits)
}

/// Returns whether the digits are those of a number from 1 to 16.
fn is_window(digits: &[u8]) -> bool {
    match digits {
        [one] => *one != b'0',
        [b'1', two] => *two <= b'6',
        _ => false,
    }
}

/// Returns that a number of children is not from 1 to 16.
fn window_words(alloc: Global, digits: &[u8]) -> Result<Bytes, AllocError> {
    let end = if digits == b"0".as_slice() {
        b" is too few: -j takes 1 to 16".as_slice()
    } else {
        b" is too many: -j takes 1 to 16".as_slice()
    };
    Bytes::concat(alloc, &[digits, end])
}

/// Says that the number of children that the first word gives is not from 1 to 16, if it is not.
/// Returns whether it said that.
#[tactic(auto, using(cmd_call::proofs::Pages::says_nothing))]
pub(crate) fn put_window<E: Hears>(alloc: Global, words: &[Bytes], errors: &mut E) -> bool
    ensures paged { SaysLines E.contents E.has_failed errors.old errors.new true [] }
{
    let Some(word) = words.first() else {
        return false;
    };
    let Some(digits) = digits_of(word.as_slice()) else {
        return false;
    };
    if is_window(digits) {
        return false;
    }
    match window_words(alloc, digits) {
        Ok(words) => {
            put_words(alloc, words.as_slice(), errors);
            true
        }
        Err(_) => false,
    }
}
