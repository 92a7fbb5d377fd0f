//! `==`, `-eq` and `-ne` of `test` in a condition, which become `=` and `!=`.

ghost use Rattle.std.specs.Prelude.{◌≡◌, ◌⊎◌, ◌++◌, ◌+◌, ◌<◌, ◌≤◌, true, false, length, take, drop, slice_index, slice_range, codes, IfOk, IfSome, IsTrue, OnOk};
ghost use Rattle.std.specs.List.{list_all, list_any};
ghost use Rattle.shellword.specs.Test.{IsTest};
ghost use Rattle.port_parts.specs.Places.{IsWord};
ghost use Rattle.port_joints.specs.Joints.{Becomes};
ghost use Rattle.port_joints.specs.Joints as joints;
ghost use Rattle.port_joints.specs.Spelled as specs;

use crate::conditions::condition_text;
use crate::joints::{has_word, is_gap};
use port_parts::is_word;
use shellword::{ShellFault, Test, read_test};
use std::alloc::{AllocError, Global};

/// How long a condition is at most that is looked at: the time that it takes grows with the square
/// of that.
pub(crate) const LONGEST: usize = 1000;

/// Returns whether a double quote is open after a text.
fn is_open_after(text: &[u8]) -> bool
    ensures { result ≡ specs.is_open_after false text.now }
{
    let mut is_open = false;
    for byte in text {
        if *byte == b'"' {
            is_open = !is_open;
        }
    }
    is_open
}

/// Returns whether no double quote is open at an offset.
pub(crate) fn is_outside(text: &[u8], at: usize) -> bool
    ensures { IsTrue result → specs.is_open_after false (take at text.now) ≡ false }
{
    at <= text.len() && !is_open_after(&text[..at])
}

fn is_digit(byte: u8) -> bool
    ensures { result ≡ specs.is_digit byte }
{
    47 < byte && byte < 58
}

/// Returns whether there are digits alone.
fn are_digits(text: &[u8]) -> bool
    ensures { result ≡ list_all specs.is_digit text.now }
{
    text.iter().all(|byte| is_digit(*byte))
}

/// Returns whether a number has no zero before another digit.
fn is_plain_number(text: &[u8], at: usize, end: usize) -> bool
    ensures { IsTrue result → (end ≡ at + 1) ⊎ (slice_index text.now at ≡ 48 → ⊥) }
{
    if at < end && end - at == 1 {
        return true;
    }
    at < text.len() && text[at] != b'0'
}

/// Returns whether a blank or the end is at an offset.
pub(crate) fn ends_word(text: &[u8], at: usize) -> bool
    ensures { IsTrue result
        → (at ≡ length text.now)
        ⊎ (joints.is_gap (slice_index text.now at) ≡ true) }
{
    if at >= text.len() {
        return at == text.len();
    }
    is_gap(text[at])
}

/// Returns whether a number is between two offsets.
fn is_number(text: &[u8], at: usize, end: usize) -> bool
    ensures { IsTrue result → specs.IsNumberAt text.now at end }
{
    at < end
        && end <= text.len()
        && are_digits(&text[at..end])
        && is_plain_number(text, at, end)
        && ends_word(text, end)
}

/// Returns the offset after the digits at an offset.
fn after_digits(text: &[u8], at: usize) -> usize {
    for i in at..text.len() {
        if !is_digit(text[i]) {
            return i;
        }
    }
    text.len().max(at)
}

// ---- reading

/// How far a condition was read.
#[derive(Drop)]
struct Spelling {
    at: usize,
    out: Vec<u8>,
}

/// Returns whether an operator is between two offsets, in no double quotes.
fn is_operator(text: &[u8], at: usize, operator: &[u8], next: usize) -> bool
    ensures { IsTrue result
        → (specs.is_open_after false (take at text.now) ≡ false)
        × IsWord text.now at operator.now next }
{
    is_word(text, at, operator, next) && is_outside(text, at)
}

/// Writes what is before an operator, and what is put in its place.
fn write_spelled(
    text: &[u8],
    at: usize,
    next: usize,
    put: &[u8],
    spelling: &mut Spelling,
) -> Result<(), AllocError>
    requires { (spelling.old.at ≤ at) × (at ≤ length text.now) }
    ensures { OnOk result (
        (spelling.new.at ≡ next)
        × (spelling.new.out.items
        ≡ (spelling.old.out.items ++ slice_range text.now spelling.old.at at) ++ put.now)) }
{
    spelling.out.extend_from_slice(&text[spelling.at..at])?;
    spelling.out.extend_from_slice(put)?;
    spelling.at = next;
    Ok(())
}

/// Goes on after an operator.
fn go_on(
    text: &[u8],
    at: usize,
    operator: &[u8],
    next: usize,
    put: &[u8],
    spelling: &mut Spelling,
) -> Result<(), AllocError>
    requires place { (spelling.old.at ≤ at) × (at ≤ length text.now) }
    requires is { (specs.is_open_after false (take at text.now) ≡ false)
        × IsWord text.now at operator.now next }
    requires spells { specs.Spells text.now operator.now next put.now }
    requires begun { specs.IsSpelled text.now spelling.old.at spelling.old.out.items }
    ensures { OnOk result (specs.IsSpelled text.now spelling.new.at spelling.new.out.items) }
{
    let _ = operator;
    write_spelled(text, at, next, put, spelling)
}

/// Goes on after `-eq` before a number.
#[tactic(auto, using(crate::proofs::Spelling::equal_spells))]
fn go_on_equal(
    text: &[u8],
    at: usize,
    next: usize,
    end: usize,
    spelling: &mut Spelling,
) -> Result<(), AllocError>
    requires place { (spelling.old.at ≤ at) × (at ≤ length text.now) }
    requires is { (specs.is_open_after false (take at text.now) ≡ false)
        × IsWord text.now at (codes " -eq ") next }
    requires number { specs.IsNumberAt text.now next end }
    requires begun { specs.IsSpelled text.now spelling.old.at spelling.old.out.items }
    ensures { OnOk result (specs.IsSpelled text.now spelling.new.at spelling.new.out.items) }
{
    let _ = end;
    go_on(text, at, b" -eq ", next, b" = ", spelling)
}

/// Goes on after `-ne` before a number.
#[tactic(auto, using(crate::proofs::Spelling::other_spells))]
fn go_on_other(
    text: &[u8],
    at: usize,
    next: usize,
    end: usize,
    spelling: &mut Spelling,
) -> Result<(), AllocError>
    requires place { (spelling.old.at ≤ at) × (at ≤ length text.now) }
    requires is { (specs.is_open_after false (take at text.now) ≡ false)
        × IsWord text.now at (codes " -ne ") next }
    requires number { specs.IsNumberAt text.now next end }
    requires begun { specs.IsSpelled text.now spelling.old.at spelling.old.out.items }
    ensures { OnOk result (specs.IsSpelled text.now spelling.new.at spelling.new.out.items) }
{
    let _ = end;
    go_on(text, at, b" -ne ", next, b" != ", spelling)
}

/// Goes on after `==`.
#[tactic(auto, using(crate::proofs::Spelling::equals_spells))]
fn go_on_equals(
    text: &[u8],
    at: usize,
    next: usize,
    spelling: &mut Spelling,
) -> Result<(), AllocError>
    requires place { (spelling.old.at ≤ at) × (at ≤ length text.now) }
    requires is { (specs.is_open_after false (take at text.now) ≡ false)
        × IsWord text.now at (codes " == ") next }
    requires begun { specs.IsSpelled text.now spelling.old.at spelling.old.out.items }
    ensures { OnOk result (specs.IsSpelled text.now spelling.new.at spelling.new.out.items) }
{
    go_on(text, at, b" == ", next, b" = ", spelling)
}

/// Reads `==`, if it is at an offset.
fn read_equals(text: &[u8], at: usize, spelling: &mut Spelling) -> Result<(), AllocError>
    requires begun { specs.IsSpelled text.now spelling.old.at spelling.old.out.items }
    ensures { OnOk result (specs.IsSpelled text.now spelling.new.at spelling.new.out.items) }
{
    let next = at.saturating_add(4);
    if at < spelling.at || text.len() < at || !is_operator(text, at, b" == ", next) {
        return Ok(());
    }
    go_on_equals(text, at, next, spelling)
}

/// Reads `-eq`, if it is at an offset, and a number after it.
fn read_equal(text: &[u8], at: usize, spelling: &mut Spelling) -> Result<(), AllocError>
    requires begun { specs.IsSpelled text.now spelling.old.at spelling.old.out.items }
    ensures { OnOk result (specs.IsSpelled text.now spelling.new.at spelling.new.out.items) }
{
    let next = at.saturating_add(5);
    let end = after_digits(text, next);
    if at < spelling.at || text.len() < at || !is_operator(text, at, b" -eq ", next) {
        return Ok(());
    }
    if !is_number(text, next, end) {
        return Ok(());
    }
    go_on_equal(text, at, next, end, spelling)
}

/// Reads `-ne`, if it is at an offset, and a number after it.
fn read_other(text: &[u8], at: usize, spelling: &mut Spelling) -> Result<(), AllocError>
    requires begun { specs.IsSpelled text.now spelling.old.at spelling.old.out.items }
    ensures { OnOk result (specs.IsSpelled text.now spelling.new.at spelling.new.out.items) }
{
    let next = at.saturating_add(5);
    let end = after_digits(text, next);
    if at < spelling.at || text.len() < at || !is_operator(text, at, b" -ne ", next) {
        return Ok(());
    }
    if !is_number(text, next, end) {
        return Ok(());
    }
    go_on_other(text, at, next, end, spelling)
}

/// Reads what is at an offset.
fn read_at(text: &[u8], at: usize, spelling: &mut Spelling) -> Result<(), AllocError>
    requires begun { specs.IsSpelled text.now spelling.old.at spelling.old.out.items }
    ensures { OnOk result (specs.IsSpelled text.now spelling.new.at spelling.new.out.items) }
{
    read_equals(text, at, spelling)?;
    read_equal(text, at, spelling)?;
    read_other(text, at, spelling)
}

/// Reads the operators of a condition.
fn read_all(text: &[u8], spelling: &mut Spelling) -> Result<(), AllocError>
    requires begun { specs.IsSpelled text.now spelling.old.at spelling.old.out.items }
    ensures { OnOk result (specs.IsSpelled text.now spelling.new.at spelling.new.out.items) }
{
    for at in 0..text.len() {
        read_at(text, at, spelling)?;
    }
    Ok(())
}

/// Copies the rest of a condition.
fn finish(text: &[u8], spelling: &mut Spelling) -> Result<(), AllocError>
    requires begun { specs.IsSpelled text.now spelling.old.at spelling.old.out.items }
    ensures { OnOk result (specs.IsSpelled text.now (length text.now) spelling.new.out.items) }
{
    spelling
        .out
        .extend_from_slice(&text[spelling.at..text.len()])
}

/// Returns a condition with `=` and `!=` in the place of these operators.
fn spelled(alloc: Global, text: &[u8]) -> Result<Vec<u8>, AllocError>
    ensures { IfOk result (λ v. specs.IsSpelled text.now (length text.now) v.items) }
{
    let mut spelling = Spelling {
        at: 0,
        out: Vec::new(alloc),
    };
    read_all(text, &mut spelling)?;
    finish(text, &mut spelling)?;
    let Spelling { out, .. } = spelling;
    Ok(out)
}

// ---- the whole

/// Returns whether a text is a test, if it becomes this one.
#[tactic(auto, using(crate::proofs::Spelling::is_readable))]
fn is_found(text: &[u8], last: &[u8], found: &Test) -> bool
    requires becomes { Becomes text.now last.now }
    requires tests { IsTest last.now found.now }
    ensures { IsTrue result → specs.IsReadable text.now }
{
    let _ = text;
    let _ = last;
    let _ = found;
    true
}

/// Returns whether what a text becomes is a test.
fn is_test(alloc: Global, text: &[u8], last: &[u8]) -> Result<bool, AllocError>
    requires { Becomes text.now last.now }
    ensures { IfOk result (λ b. IsTrue b → specs.IsReadable text.now) }
{
    match read_test(alloc, last) {
        Ok(found) => Ok(is_found(text, last, &found)),
        Err(ShellFault::OutOfMemory) => Err(AllocError),
        Err(_) => Ok(false),
    }
}

/// Returns whether a text is a test, once `-a` and `-o` in it have become `&&` and `||`.
pub(crate) fn is_readable(alloc: Global, text: &[u8]) -> Result<bool, AllocError>
    ensures { IfOk result (λ b. IsTrue b → specs.IsReadable text.now) }
{
    let last = condition_text(alloc, text)?;
    is_test(alloc, text, last.as_slice())
}

/// Returns whether the text has a backslash, a bracket, a single quote or a backquote.
pub(crate) fn has_hard(text: &[u8]) -> bool
    ensures { result ≡ list_any specs.is_hard text.now }
{
    text.iter().any(|byte| *byte == b'\\'
        || *byte == b'['
        || *byte == b']'
        || *byte == b'\''
        || *byte == b'`')
}

/// Returns a condition that is spelled otherwise, if it is then a test.
#[tactic(auto, using(crate::proofs::Spelling::respelled))]
fn respelled_if_read(
    alloc: Global,
    text: &[u8],
    put: Vec<u8>,
) -> Result<Option<Vec<u8>>, AllocError>
    requires plain { list_any specs.is_hard text.now ≡ false }
    requires spelled { specs.IsSpelled text.now (length text.now) put.items }
    requires shorter { length put.items < length text.now }
    ensures { IfOk result (λ o. IfSome o (λ v. specs.IsRespelled text.now v.items)) }
{
    let _ = text;
    if is_readable(alloc, put.as_slice())? {
        Ok(Some(put))
    } else {
        Ok(None)
    }
}

/// Returns a condition that is spelled otherwise, if an operator was put, and it is then a test.
fn respelled_if_put(alloc: Global, text: &[u8], put: Vec<u8>) -> Result<Option<Vec<u8>>, AllocError>
    requires plain { list_any specs.is_hard text.now ≡ false }
    requires spelled { specs.IsSpelled text.now (length text.now) put.items }
    ensures { IfOk result (λ o. IfSome o (λ v. specs.IsRespelled text.now v.items)) }
{
    if put.len() < text.len() {
        respelled_if_read(alloc, text, put)
    } else {
        Ok(None)
    }
}

/// Returns whether such an operator may be in a text.
fn may_have_operator(text: &[u8]) -> bool {
    has_word(text, b" == ") || has_word(text, b" -eq ") || has_word(text, b" -ne ")
}

/// Returns a condition with `=` in the place of `==`, and `=` and `!=` in the place of `-eq` and
/// `-ne` before a number, if it has one of them outside double quotes, and is then a test that acrun
/// reads. Its words are then compared as texts.
///
/// # Errors
///
/// Fails only if memory runs out.
pub fn respelled(alloc: Global, text: &[u8]) -> Result<Option<Vec<u8>>, AllocError>
    ensures { IfOk result (λ o. IfSome o (λ v. specs.IsRespelled text.now v.items)) }
{
    if text.len() > LONGEST || has_hard(text) || !may_have_operator(text) {
        return Ok(None);
    }
    let put = spelled(alloc, text)?;
    respelled_if_put(alloc, text, put)
}
