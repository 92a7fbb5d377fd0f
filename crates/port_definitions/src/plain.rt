//! Which definition of a plain word is written out, and where.

use crate::lines::{last_line, space_len};
use crate::reading::{changes_reading, is_in_word, tops_in};
use crate::reserved::may_be_of_autoconf;
use crate::words::{WordSpot, is_plain_byte};
use ac_calls::CallAt;
use lint_text::{before, first_name, from, is_word_byte, part};
use std::alloc::{AllocError, Global};

/// With what a definition begins.
const FRONT: &[u8] = b"define(";

/// How long a name is at least, and at most, and how long a word is at most.
const SHORTEST: usize = 4;

const LONGEST: usize = 100;

/// How many definitions are looked at.
const MOST: usize = 50;

/// A definition of a name as a plain word that may be written out, and the places of the name.
#[derive(Drop)]
pub struct PlainWord {
    pub spot: WordSpot,
    pub uses: Vec<usize>,
}

/// Returns the length of the part of a text that has nothing but bytes of a plain word.
fn plain_len(text: &[u8]) -> usize {
    text.iter().take_while(|byte| is_plain_byte(**byte)).count()
}

/// Returns the definition at an offset, if a name is defined as a plain word there.
fn spot_at(text: &[u8], start: usize) -> Option<WordSpot> {
    if !from(text, start).starts_with(FRONT) {
        return None;
    }
    let name_start = start.saturating_add(FRONT.len());
    let name_end = name_start.saturating_add(first_name(from(text, name_start)).len());
    let word_start = name_end.saturating_add(2);
    let word_end = word_start.saturating_add(plain_len(from(text, word_start)));
    if part(text, name_end, word_start) != b", ".as_slice() || text.get(word_end) != Some(&b')') {
        return None;
    }
    Some(WordSpot {
        start,
        end: word_end.saturating_add(1),
        name_start,
        name_end,
        word_start,
        word_end,
    })
}

/// Returns whether the name and the word of a definition allow that it is written out.
fn is_fit(text: &[u8], spot: WordSpot) -> bool {
    let name = part(text, spot.name_start, spot.name_end);
    let word = part(text, spot.word_start, spot.word_end);
    let begins = name.first().is_some_and(|byte| !byte.is_ascii_digit());
    let has_length = SHORTEST <= name.len() && name.len() <= LONGEST && word.len() <= LONGEST;
    begins && has_length && !word.is_empty() && !may_be_of_autoconf(name)
}

/// Returns whether a name is at an offset, for m4.
fn is_used_at(text: &[u8], at: usize, name: &[u8]) -> bool {
    let goes_on = text
        .get(at.saturating_add(name.len()))
        .is_some_and(|byte| is_word_byte(*byte));
    !is_in_word(before(text, at)) && from(text, at).starts_with(name) && !goes_on
}

/// Appends the places of a name. Returns whether m4 expands it at each, and it is at no other place
/// but in its definition.
fn push_places(
    text: &[u8],
    tops: &[bool],
    spot: WordSpot,
    uses: &mut Vec<usize>,
) -> Result<bool, AllocError> {
    let name = part(text, spot.name_start, spot.name_end);
    for at in 0..text.len() {
        if at == spot.name_start || !is_used_at(text, at, name) {
            continue;
        }
        let has_argument = text.get(at.saturating_add(name.len())) == Some(&b'(');
        let is_top = tops.get(at) == Some(&true);
        if at < spot.end || has_argument || !is_top {
            return Ok(false);
        }
        uses.push(at)?;
    }
    Ok(true)
}

/// Returns whether a definition may begin at an offset: m4 reads it as a part of the source, and
/// nothing but blanks is before it on its line.
fn may_begin(text: &[u8], tops: &[bool], at: usize) -> bool {
    let line = from(before(text, at), last_line(before(text, at)));
    tops.get(at) == Some(&true) && space_len(line) == line.len()
}

/// Returns the first definition of a name as a plain word that may be written out, if the source
/// changes no quotes and reads no other file.
pub fn plain_word_in(
    alloc: Global,
    text: &[u8],
    calls: &[CallAt],
) -> Result<Option<PlainWord>, AllocError> {
    if changes_reading(text) {
        return Ok(None);
    }
    let tops = tops_in(alloc, text, calls)?;
    let mut tried: usize = 0;
    for at in 0..text.len() {
        let Some(spot) = spot_at(text, at) else {
            continue;
        };
        if MOST <= tried || !may_begin(text, tops.as_slice(), at) || !is_fit(text, spot) {
            continue;
        }
        tried = tried.saturating_add(1);
        let mut uses = Vec::new(alloc);
        if push_places(text, tops.as_slice(), spot, &mut uses)? {
            return Ok(Some(PlainWord { spot, uses }));
        }
    }
    Ok(None)
}
