//! Tests of files in a condition, for which a program may ask.

ghost use Rattle.std.specs.Prelude.{◌≡◌, ◌⊎◌, ◌++◌, ◌+◌, ◌<◌, ◌≤◌, ◌∷◌, [], true, false, length, take, slice_index, slice_range, codes, IfOk, IfSome, IsTrue, OnOk};
ghost use Rattle.std.specs.List.{list_all, list_any};
ghost use Rattle.port_parts.specs.Places.{IsWord};
ghost use Rattle.port_joints.specs.Joints as joints;
ghost use Rattle.port_joints.specs.Spelled.{IsReadable, is_hard, is_open_after};
ghost use Rattle.port_joints.specs.Files as specs;

use crate::joints::is_gap;
use crate::spelled::{LONGEST, ends_word, has_hard, is_outside, is_readable};
use port_parts::is_word;
use std::alloc::{AllocError, Global};

/// Where a test of a file is in a condition.
#[derive(Clone, Copy)]
pub struct FileCut {
    /// The offset of the space before its operator.
    pub at: usize,
    /// The letter of the operator.
    pub letter: u8,
    /// The offsets of the file's name.
    pub from: usize,
    pub to: usize,
    /// The offset after its word.
    pub end: usize,
}

// ---- the operator

/// Returns whether an operator with this letter asks about a file.
fn is_file_letter(letter: u8) -> bool
    ensures { result ≡ specs.is_file_letter letter }
{
    letter == b'd'
        || letter == b'e'
        || letter == b'f'
        || letter == b'r'
        || letter == b's'
        || letter == b'w'
        || letter == b'x'
}

/// Returns whether a space, `-`, this letter and a space are at an offset.
fn is_sign(text: &[u8], at: usize, letter: u8, end: usize) -> bool
    ensures { IsTrue result → IsWord text.now at (32 ∷ 45 ∷ letter ∷ 32 ∷ []) end }
{
    is_word(text, at, &[b' ', b'-', letter, b' '], end)
}

/// Returns whether an operator with this letter that asks about a file is at an offset.
fn is_file_operator(text: &[u8], at: usize, letter: u8) -> bool
    ensures { IsTrue result → specs.IsFileOperator text.now at letter }
{
    at < text.len()
        && text.len() - at >= 4
        && is_sign(text, at, letter, at + 4)
        && is_file_letter(letter)
        && is_outside(text, at)
}

/// Returns the letter of an operator that would be at an offset.
fn letter_at(text: &[u8], at: usize) -> u8 {
    text.get(at.saturating_add(2)).copied().unwrap_or(0)
}

// ---- the name of the file

/// Returns whether a byte of a file's name means the same in a program.
fn is_path_byte(byte: u8) -> bool
    ensures { result ≡ specs.is_path_byte byte }
{
    byte.is_ascii_alphanumeric()
        || byte == b'$'
        || byte == b'+'
        || byte == b'-'
        || byte == b'.'
        || byte == b'/'
        || byte == b':'
        || byte == b'_'
        || byte == b'{'
        || byte == b'}'
}

/// Returns whether all bytes of a file's name mean the same in a program.
fn are_path_bytes(text: &[u8]) -> bool
    ensures { result ≡ list_all specs.is_path_byte text.now }
{
    text.iter().all(|byte| is_path_byte(*byte))
}

/// Returns whether a part is at an offset of a text.
fn is_part_at(text: &[u8], at: usize, part: &[u8]) -> bool
    requires { at ≤ length text.now }
    ensures { result ≡ false → slice_range text.now at (at + length part.now) ≡ part.now → ⊥ }
{
    text.len() - at >= part.len() && &text[at..at + part.len()] == part
}

/// Returns whether a text has a part.
pub fn has_part(text: &[u8], part: &[u8]) -> bool
    ensures { result ≡ false → specs.HasPart text.now part.now → ⊥ }
{
    for i in 0..text.len() {
        if is_part_at(text, i, part) {
            return true;
        }
    }
    false
}

/// Returns whether a text begins with `-`.
fn begins_option(text: &[u8], from: usize) -> bool
    ensures { result ≡ false → slice_index text.now from ≡ 45 → ⊥ }
{
    from < text.len() && text[from] == b'-'
}

/// Returns whether the name between two offsets can be put into a program.
fn is_path_between(text: &[u8], from: usize, to: usize) -> bool
    ensures { IsTrue result
        → (from < to) × (to ≤ length text.now)
        × (list_all specs.is_path_byte (slice_range text.now from to) ≡ true)
        × (slice_index text.now from ≡ 45 → ⊥)
        × (specs.HasPart (slice_range text.now from to) (codes "srcdir") → ⊥) }
{
    from < to
        && to <= text.len()
        && are_path_bytes(&text[from..to])
        && !begins_option(text, from)
        && !has_part(&text[from..to], b"srcdir")
}

/// Returns whether a word is a name, or one in double quotes.
fn is_around(text: &[u8], start: usize, from: usize, to: usize, end: usize) -> bool
    requires { (from < to) × (to ≤ length text.now) }
    ensures { IsTrue result → specs.IsAround text.now start from to end }
{
    if start == from && to == end {
        return true;
    }
    start < from
        && from - start == 1
        && to < text.len()
        && to < end
        && end - to == 1
        && text[start] == b'"'
        && text[to] == b'"'
}

/// Returns whether a word with the name of a file is at an offset.
fn is_path(text: &[u8], start: usize, from: usize, to: usize, end: usize) -> bool
    ensures { IsTrue result → specs.IsPath text.now start from to end }
{
    is_path_between(text, from, to)
        && to <= end
        && is_around(text, start, from, to, end)
        && ends_word(text, end)
}

/// Returns the offset after the bytes of a name at an offset.
fn after_path_bytes(text: &[u8], at: usize) -> usize {
    for i in at..text.len() {
        if !is_path_byte(text[i]) {
            return i;
        }
    }
    text.len().max(at)
}

/// Returns the test of a file that is at an offset, if its word is as it seems.
fn cut_at(text: &[u8], at: usize) -> FileCut {
    let start = at.saturating_add(4);
    let quotes = usize::from(text.get(start) == Some(&b'"'));
    let from = start.saturating_add(quotes);
    let to = after_path_bytes(text, from);
    FileCut {
        at,
        letter: letter_at(text, at),
        from,
        to,
        end: to.saturating_add(quotes),
    }
}

/// Returns whether a test of a file is at these offsets.
fn is_file_test(text: &[u8], cut: FileCut) -> bool
    ensures { IsTrue result → specs.IsFileTest text.now cut.at cut.letter cut.from cut.to cut.end }
{
    is_file_operator(text, cut.at, cut.letter)
        && is_path(text, cut.at.saturating_add(4), cut.from, cut.to, cut.end)
}

/// Returns the test of a file that is at an offset, if one is there.
fn file_test_at(text: &[u8], at: usize) -> Option<FileCut>
    ensures { IfSome result (λ c.
        specs.IsFileTest text.now c.at c.letter c.from c.to c.end) }
{
    if !is_file_operator(text, at, letter_at(text, at)) {
        return None;
    }
    let cut = cut_at(text, at);
    if is_file_test(text, cut) {
        return Some(cut);
    }
    None
}

/// Returns the first test of a file in a condition.
pub fn file_test(text: &[u8]) -> Option<FileCut>
    ensures { IfSome result (λ c.
        specs.IsFileTest text.now c.at c.letter c.from c.to c.end) }
{
    for at in 0..text.len() {
        let found = file_test_at(text, at);
        if found.is_some() {
            return found;
        }
    }
    None
}

// ---- whether the condition is a test

/// How far a condition was read.
#[derive(Drop)]
struct Turning {
    at: usize,
    out: Vec<u8>,
}

/// Writes what is before an operator, and `-n` in its place.
fn write_turned(text: &[u8], at: usize, turning: &mut Turning) -> Result<(), AllocError>
    requires { (turning.old.at ≤ at) × (at + 4 ≤ length text.now) }
    ensures { OnOk result (
        (turning.new.at ≡ at + 4)
        × (turning.new.out.items
        ≡ (turning.old.out.items ++ slice_range text.now turning.old.at at) ++ codes " -n ")) }
{
    turning.out.extend_from_slice(&text[turning.at..at])?;
    turning.out.extend_from_slice(b" -n ")?;
    turning.at = at + 4;
    Ok(())
}

/// Goes on after an operator that asks about a file.
fn go_on(text: &[u8], at: usize, letter: u8, turning: &mut Turning) -> Result<(), AllocError>
    requires place { turning.old.at ≤ at }
    requires is { specs.IsFileOperator text.now at letter }
    requires begun { specs.IsTurned text.now turning.old.at turning.old.out.items }
    ensures { OnOk result (specs.IsTurned text.now turning.new.at turning.new.out.items) }
{
    let _ = letter;
    write_turned(text, at, turning)
}

/// Reads an operator that asks about a file, if one is at an offset.
fn read_at(text: &[u8], at: usize, turning: &mut Turning) -> Result<(), AllocError>
    requires begun { specs.IsTurned text.now turning.old.at turning.old.out.items }
    ensures { OnOk result (specs.IsTurned text.now turning.new.at turning.new.out.items) }
{
    let letter = letter_at(text, at);
    if at < turning.at || !is_file_operator(text, at, letter) {
        return Ok(());
    }
    go_on(text, at, letter, turning)
}

/// Reads the operators of a condition.
fn read_all(text: &[u8], turning: &mut Turning) -> Result<(), AllocError>
    requires begun { specs.IsTurned text.now turning.old.at turning.old.out.items }
    ensures { OnOk result (specs.IsTurned text.now turning.new.at turning.new.out.items) }
{
    for at in 0..text.len() {
        read_at(text, at, turning)?;
    }
    Ok(())
}

/// Copies the rest of a condition.
fn finish(text: &[u8], turning: &mut Turning) -> Result<(), AllocError>
    requires begun { specs.IsTurned text.now turning.old.at turning.old.out.items }
    ensures { OnOk result (specs.IsTurned text.now (length text.now) turning.new.out.items) }
{
    turning.out.extend_from_slice(&text[turning.at..text.len()])
}

/// Returns a condition with `-n` in the place of operators that ask about files.
fn turned(alloc: Global, text: &[u8]) -> Result<Vec<u8>, AllocError>
    ensures { IfOk result (λ v. specs.IsTurned text.now (length text.now) v.items) }
{
    let mut turning = Turning {
        at: 0,
        out: Vec::new(alloc),
    };
    read_all(text, &mut turning)?;
    finish(text, &mut turning)?;
    let Turning { out, .. } = turning;
    Ok(out)
}

/// Returns whether a condition is a test that acrun reads, if each operator that asks about a file
/// is taken for `-n`.
///
/// # Errors
///
/// Fails only if memory runs out.
#[tactic(auto, using(crate::proofs::Asking::is_test))]
pub fn is_test_of_files(alloc: Global, text: &[u8]) -> Result<bool, AllocError>
    ensures { IfOk result (λ b. IsTrue b → specs.IsTestOfFiles text.now) }
{
    if text.len() > LONGEST || has_hard(text) {
        return Ok(false);
    }
    let words = turned(alloc, text)?;
    is_readable(alloc, words.as_slice())
}

// ---- what is asked

/// Returns the text of C before the name of a file.
#[tactic(auto, unfolding(crate::specs::Files::before_path))]
fn before_path(letter: u8) -> &'static [u8]
    ensures { result.now ≡ specs.before_path letter }
{
    if letter == b'd' || letter == b'f' || letter == b's' {
        b"struct stat s; return stat ("
    } else {
        b"return access ("
    }
}

/// Returns the text of C after the name of a file.
#[tactic(auto, unfolding(crate::specs::Files::after_path))]
fn after_path(letter: u8) -> &'static [u8]
    ensures { result.now ≡ specs.after_path letter }
{
    if letter == b'd' {
        b", &s) != 0 || !S_ISDIR (s.st_mode);"
    } else if letter == b'f' {
        b", &s) != 0 || !S_ISREG (s.st_mode);"
    } else if letter == b's' {
        b", &s) != 0 || s.st_size == 0;"
    } else if letter == b'r' {
        b", R_OK) != 0;"
    } else if letter == b'w' {
        b", W_OK) != 0;"
    } else if letter == b'x' {
        b", X_OK) != 0;"
    } else {
        b", F_OK) != 0;"
    }
}

/// Returns what is before the statements of the program.
#[tactic(auto, unfolding(crate::specs::Files::headers))]
fn headers() -> &'static [u8]
    ensures { result.now ≡ specs.headers }
{
    b"AC_LANG_PROGRAM([[#include <sys/stat.h>\n#include <unistd.h>]], [["
}

/// Returns the program that asks about a file, as an argument: its status is 0 if the file is what
/// the operator with this letter asks for.
///
/// # Errors
///
/// Fails only if memory runs out.
#[tactic(auto, unfolding(crate::specs::Files::program_of))]
pub fn program_of(alloc: Global, letter: u8, path: &[u8]) -> Result<Vec<u8>, AllocError>
    ensures { IfOk result (λ v. v.items ≡ specs.program_of letter path.now) }
{
    let mut out = Vec::from_slice(alloc, headers())?;
    out.extend_from_slice(before_path(letter))?;
    out.push(b'"')?;
    out.extend_from_slice(path)?;
    out.push(b'"')?;
    out.extend_from_slice(after_path(letter))?;
    out.extend_from_slice(b"]])")?;
    Ok(out)
}

/// Returns a condition with the value of a variable in the place of a test of a file between two
/// offsets: that it is `yes`.
///
/// # Errors
///
/// Fails only if memory runs out.
#[tactic(auto, unfolding(crate::specs::Files::with_answer))]
pub fn with_answer(
    alloc: Global,
    text: &[u8],
    at: usize,
    end: usize,
    name: &[u8],
) -> Result<Vec<u8>, AllocError>
    requires { (at < length text.now) × (end ≤ length text.now) }
    ensures { IfOk result (λ v. v.items ≡ specs.with_answer text.now at end name.now) }
{
    let mut out = Vec::from_slice(alloc, &text[..at + 1])?;
    out.extend_from_slice(b"\"$")?;
    out.extend_from_slice(name)?;
    out.extend_from_slice(b"\" = yes")?;
    out.extend_from_slice(&text[end..])?;
    Ok(out)
}
