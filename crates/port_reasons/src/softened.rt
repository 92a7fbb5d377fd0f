//! Operators of tests in whose place `acrun port --idioms` writes other texts.

use std::alloc::{AllocError, Global};

/// Returns whether a word is a number without a zero before another digit.
fn is_number(word: &[u8]) -> bool {
    let is_short = word.len() == 1 || !word.starts_with(b"0");
    !word.is_empty() && is_short && word.iter().all(|byte| byte.is_ascii_digit())
}

/// Returns whether a word is an operator that asks about a file, for which a program may ask.
pub(crate) fn is_of_files(word: &[u8]) -> bool {
    match word {
        [b'-', letter] => b"defrswx".contains(letter),
        _ => false,
    }
}

/// Returns the word that is taken for a word of a condition, which another one follows.
fn soft_word<'a>(word: &'a [u8], next: &[u8]) -> &'a [u8] {
    if is_of_files(word) {
        return b"-n";
    }
    match word {
        b"==" => b"=",
        b"-eq" if is_number(next) => b"=",
        b"-ne" if is_number(next) => b"!=",
        _ => word,
    }
}

/// Returns the words between the spaces of a condition.
fn words_of(alloc: Global, condition: &[u8]) -> Result<Vec<&[u8]>, AllocError> {
    let mut words = Vec::new(alloc);
    for word in condition.split(|byte| *byte == b' ') {
        words.push(word)?;
    }
    Ok(words)
}

/// Returns a condition with another operator in the place of each one for which `acrun port
/// --idioms` has another text.
pub(crate) fn softened(alloc: Global, condition: &[u8]) -> Result<Vec<u8>, AllocError> {
    let words = words_of(alloc, condition)?;
    let mut out = Vec::new(alloc);
    for index in 0..words.len() {
        let next = words.get(index.saturating_add(1)).copied().unwrap_or(b"");
        if index > 0 {
            out.push(b' ')?;
        }
        out.extend_from_slice(soft_word(words[index], next))?;
    }
    Ok(out)
}

/// An operator in a condition for which `acrun port --idioms` has another text.
#[derive(Clone, Copy)]
pub(crate) struct SoftOperator<'a> {
    /// The operator.
    pub word: &'a [u8],
    /// The offset of the space before it.
    pub at: usize,
}

/// Returns the operators in a condition for which `acrun port --idioms` has another text.
pub(crate) fn soft_operators(
    alloc: Global,
    condition: &[u8],
) -> Result<Vec<SoftOperator<'_>>, AllocError> {
    let words = words_of(alloc, condition)?;
    let mut out = Vec::new(alloc);
    let mut at: usize = 0;
    for index in 0..words.len() {
        let word = words[index];
        let next = words.get(index.saturating_add(1)).copied().unwrap_or(b"");
        if at > 0 && soft_word(word, next) != word {
            out.push(SoftOperator {
                word,
                at: at.saturating_sub(1),
            })?;
        }
        at = at.saturating_add(word.len()).saturating_add(1);
    }
    Ok(out)
}
