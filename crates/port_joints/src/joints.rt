//! `-a` and `-o` of `test` in a condition, which become `&&` and `||` between two tests.

ghost use Rattle.std.specs.Prelude.{◌≡◌, ◌++◌, ◌+◌, ◌-◌, ◌≤◌, true, false, length, slice_index, slice_range, codes, IfOk, IfSome, IsTrue, OnOk};
ghost use Rattle.std.specs.List.{list_all, list_any};
ghost use Rattle.shellword.specs.Test.{IsTest};
ghost use Rattle.port_parts.specs.Places.{IsWord};
ghost use Rattle.port_joints.specs.Joints as specs;

use port_parts::is_word;
use shellword::{Condition, ShellFault, Test, read_test};
use std::alloc::{AllocError, Global};

/// How long a condition is at most that is looked at: the time that it takes grows with the square
/// of that.
const LONGEST: usize = 1000;

// ---- operands

/// Returns whether the byte is a space or a tab.
pub(crate) fn is_gap(byte: u8) -> bool
    ensures { result ≡ specs.is_gap byte }
{
    byte == b' ' || byte == b'\t'
}

/// Returns whether there are spaces and tabs alone.
fn are_gaps(text: &[u8]) -> bool
    ensures { result ≡ list_all specs.is_gap text.now }
{
    text.iter().all(|byte| is_gap(*byte))
}

/// Returns whether spaces and tabs alone are between two offsets, or nothing is.
fn are_gaps_between(text: &[u8], start: usize, end: usize) -> bool
    ensures { IsTrue result → specs.AreGaps text.now start end }
{
    start <= end && end <= text.len() && are_gaps(&text[start..end])
}

/// Returns whether spaces and tabs alone are between two offsets, and at least one.
fn is_gap_between(text: &[u8], start: usize, end: usize) -> bool
    ensures { IsTrue result → specs.IsGap text.now start end }
{
    start < end && are_gaps_between(text, start, end)
}

/// Returns whether no operator of `test` begins with the byte.
fn begins_word(byte: u8) -> bool
    ensures { result ≡ specs.begins_word byte }
{
    byte.is_ascii_alphanumeric() || byte == b'_' || byte == b'$' || byte == b'/' || byte == b'.'
}

/// Returns whether a byte with which no operator of `test` begins is at an offset.
fn is_front_at(text: &[u8], at: usize) -> bool
    ensures { IsTrue result → specs.begins_word (slice_index text.now at) ≡ true }
{
    at < text.len() && begins_word(text[at])
}

/// Returns whether a double quote is at an offset, and such a byte after it.
fn is_quoted_at(text: &[u8], at: usize) -> bool
    ensures { IsTrue result
        → (slice_index text.now at ≡ 34)
        × (specs.begins_word (slice_index text.now (at + 1)) ≡ true) }
{
    at < text.len() && text[at] == b'"' && is_front_at(text, at + 1)
}

/// Returns whether a word that is no operator of `test` begins at an offset.
fn is_word_at(text: &[u8], at: usize) -> bool
    ensures { IsTrue result → specs.IsWordAt text.now at }
{
    is_front_at(text, at) || is_quoted_at(text, at)
}

/// Returns the offset after the spaces and tabs at an offset.
fn after_gap(text: &[u8], at: usize) -> usize {
    for i in at..text.len() {
        if !is_gap(text[i]) {
            return i;
        }
    }
    text.len().max(at)
}

/// Returns whether `-n` or `-z` is between two offsets.
fn is_option(text: &[u8], start: usize, end: usize) -> bool
    ensures { IsTrue result → specs.IsOption text.now start end }
{
    is_word(text, start, b"-n", end) || is_word(text, start, b"-z", end)
}

/// Returns whether spaces and tabs, an option, spaces and tabs, and a word are between these
/// offsets and after them.
fn is_option_between(text: &[u8], at: usize, end: usize, from: usize) -> bool
    ensures { IsTrue result
        → (specs.IsGap text.now 0 at × specs.IsOption text.now at end)
        × (specs.IsGap text.now end from × specs.IsWordAt text.now from) }
{
    is_gap_between(text, 0, at)
        && is_option(text, at, end)
        && is_gap_between(text, end, from)
        && is_word_at(text, from)
}

/// Returns whether an option and a word are at the front of a text, at these offsets.
fn is_option_at(text: &[u8], at: usize, end: usize, from: usize) -> bool
    ensures { IsTrue result → specs.BeginsOption text.now }
{
    is_option_between(text, at, end, from)
}

/// Returns whether a text has an option and a word at its front, after spaces and tabs.
fn begins_option(text: &[u8]) -> bool
    ensures { IsTrue result → specs.BeginsOption text.now }
{
    let at = after_gap(text, 0);
    let end = at.saturating_add(2);
    is_option_at(text, at, end, after_gap(text, end))
}

/// Returns whether an option and a word begin a text.
fn begins_with_option(text: &[u8]) -> bool
    ensures { IsTrue result → specs.BeginsPlain text.now }
{
    begins_option(text)
}

/// Returns whether a word begins at an offset, after spaces and tabs.
fn begins_with_word(text: &[u8], at: usize) -> bool
    ensures { IsTrue result → specs.BeginsPlain text.now }
{
    is_gap_between(text, 0, at) && is_word_at(text, at)
}

/// Returns whether a text has the front of an operand without `!`.
fn begins_plain(text: &[u8]) -> bool
    ensures { IsTrue result → specs.BeginsPlain text.now }
{
    begins_with_word(text, after_gap(text, 0)) || begins_with_option(text)
}

/// Returns whether a test of a text has one element.
#[tactic(auto, using(crate::proofs::Becoming::one_of))]
fn is_single(text: &[u8], found: &Test) -> bool
    requires { IsTest text.now found.now }
    ensures { IsTrue result → specs.IsOneTest text.now }
{
    let _ = text;
    let (_first, rest) = found.elements();
    rest.is_empty()
}

/// Returns whether a text is one test, which nothing is joined to.
fn is_one(alloc: Global, text: &[u8]) -> Result<bool, AllocError>
    ensures { IfOk result (λ b. IsTrue b → specs.IsOneTest text.now) }
{
    match read_test(alloc, text) {
        Ok(found) => Ok(is_single(text, &found)),
        Err(ShellFault::OutOfMemory) => Err(AllocError),
        Err(_) => Ok(false),
    }
}

/// Returns a text with `test` before it.
fn with_front(alloc: Global, text: &[u8]) -> Result<Vec<u8>, AllocError>
    ensures { IfOk result (λ v. v.items ≡ codes "test" ++ text.now) }
{
    let mut whole = Vec::from_slice(alloc, b"test")?;
    whole.extend_from_slice(text)?;
    Ok(whole)
}

/// Returns whether `test` before a text makes it one test.
fn is_one_after(alloc: Global, text: &[u8]) -> Result<bool, AllocError>
    ensures { IfOk result (λ b. IsTrue b → specs.IsOneTest (codes "test" ++ text.now)) }
{
    let whole = with_front(alloc, text)?;
    is_one(alloc, whole.as_slice())
}

/// Returns whether a condition compares two words.
fn compares(condition: &Condition) -> bool
    ensures { result ≡ specs.is_comparison condition.now }
{
    match condition {
        Condition::Equal(..) => true,
        Condition::Different(..) => true,
        Condition::True | Condition::False | Condition::Nonempty(_) | Condition::Empty(_) => false,
    }
}

/// Returns whether a test of a text has one element, which compares two words.
#[tactic(auto, using(crate::proofs::Becoming::comparison_of))]
fn is_single_comparison(text: &[u8], found: &Test) -> bool
    requires { IsTest text.now found.now }
    ensures { IsTrue result → specs.IsComparison text.now }
{
    let _ = text;
    let (first, rest) = found.elements();
    rest.is_empty() && compares(&first.condition)
}

/// Returns whether a text is one test, which compares two words.
fn is_comparison(alloc: Global, text: &[u8]) -> Result<bool, AllocError>
    ensures { IfOk result (λ b. IsTrue b → specs.IsComparison text.now) }
{
    match read_test(alloc, text) {
        Ok(found) => Ok(is_single_comparison(text, &found)),
        Err(ShellFault::OutOfMemory) => Err(AllocError),
        Err(_) => Ok(false),
    }
}

/// Returns whether `test` before a text makes it one test, which compares two words.
fn is_comparison_after(alloc: Global, text: &[u8]) -> Result<bool, AllocError>
    ensures { IfOk result (λ b. IsTrue b → specs.IsComparison (codes "test" ++ text.now)) }
{
    let whole = with_front(alloc, text)?;
    is_comparison(alloc, whole.as_slice())
}

/// Returns whether `!` before the rest of a text negates that alone, and not more words of its
/// `test`.
fn may_negate(alloc: Global, text: &[u8], rest: &[u8], is_first: bool) -> Result<bool, AllocError>
    ensures { IfOk result (λ b. IsTrue b → specs.MayNegate is_first text.now rest.now) }
{
    if !is_first || begins_option(rest) {
        return Ok(true);
    }
    is_comparison_after(alloc, text)
}

/// Returns whether `!` is at the front of a text, after spaces and tabs, up to an offset.
fn is_negation(text: &[u8], at: usize, end: usize) -> bool
    ensures { IsTrue result → specs.IsNegation text.now end × (end ≤ length text.now) }
{
    is_gap_between(text, 0, at) && is_word(text, at, b"!", end)
}

/// Returns whether a text has the front of an operand after `!`, which ends at an offset.
fn begins_after(alloc: Global, text: &[u8], end: usize, is_first: bool) -> Result<bool, AllocError>
    requires negation { specs.IsNegation text.now end }
    requires within { end ≤ length text.now }
    ensures { IfOk result (λ b. IsTrue b → specs.BeginsOperand is_first text.now) }
{
    let rest = &text[end..text.len()];
    if !begins_plain(rest) {
        return Ok(false);
    }
    may_negate(alloc, text, rest, is_first)
}

/// Returns whether a text has `!` and the front of an operand at its front.
fn begins_negated(alloc: Global, text: &[u8], is_first: bool) -> Result<bool, AllocError>
    ensures { IfOk result (λ b. IsTrue b → specs.BeginsOperand is_first text.now) }
{
    let at = after_gap(text, 0);
    let end = at.saturating_add(1);
    if !is_negation(text, at, end) {
        return Ok(false);
    }
    begins_after(alloc, text, end, is_first)
}

/// Returns whether a text has the front of an operand.
fn begins_operand(alloc: Global, text: &[u8], is_first: bool) -> Result<bool, AllocError>
    ensures { IfOk result (λ b. IsTrue b → specs.BeginsOperand is_first text.now) }
{
    if begins_plain(text) {
        return Ok(true);
    }
    begins_negated(alloc, text, is_first)
}

/// Returns whether a text that begins as an operand is one.
fn is_operand_begun(alloc: Global, text: &[u8], is_first: bool) -> Result<bool, AllocError>
    requires { specs.BeginsOperand is_first text.now }
    ensures { IfOk result (λ b. IsTrue b → specs.IsOperand is_first text.now) }
{
    let _ = is_first;
    is_one_after(alloc, text)
}

/// Returns whether a text is an operand. The flag says whether `test` is right before it.
fn is_operand(alloc: Global, text: &[u8], is_first: bool) -> Result<bool, AllocError>
    ensures { IfOk result (λ b. IsTrue b → specs.IsOperand is_first text.now) }
{
    if begins_operand(alloc, text, is_first)? {
        is_operand_begun(alloc, text, is_first)
    } else {
        Ok(false)
    }
}

// ---- joints

/// How far a condition was read.
#[derive(Drop)]
struct Reading {
    /// Whether `test` is right before the operand that begins.
    is_first: bool,
    /// The offset at which an operand begins.
    at: usize,
    /// What was written up to there.
    out: Vec<u8>,
}

/// Returns whether an operator is at an offset, after a space or a tab.
fn is_operator(text: &[u8], at: usize, operator: &[u8], next: usize) -> bool
    ensures { IsTrue result
        → (specs.is_gap (slice_index text.now (at - 1)) ≡ true)
        × IsWord text.now at operator.now next }
{
    let before = at.saturating_sub(1);
    before < text.len() && is_gap(text[before]) && is_word(text, at, operator, next)
}

/// Returns whether a joint is between the first two offsets, then spaces and tabs, and then `test`,
/// up to the last offset.
fn is_kept(text: &[u8], at: usize, joint: &[u8], after: usize, from: usize, end: usize) -> bool
    ensures { IsTrue result
        → (IsWord text.now at joint.now after × specs.AreGaps text.now after from)
        × IsWord text.now from (codes "test") end }
{
    is_word(text, at, joint, after)
        && are_gaps_between(text, after, from)
        && is_word(text, from, b"test", end)
}

/// Writes the operand that ends before an operator, and the joint and `test` in the place of the
/// operator.
fn write_joined(
    text: &[u8],
    joint: &[u8],
    at: usize,
    next: usize,
    reading: &mut Reading,
) -> Result<(), AllocError>
    requires { (reading.old.at ≤ at) × (at ≤ length text.now) }
    ensures { OnOk result (
        ((reading.new.is_first ≡ false) × (reading.new.at ≡ next))
        × (reading.new.out.items
        ≡ (reading.old.out.items ++ slice_range text.now reading.old.at at)
        ++ (joint.now ++ codes " test"))) }
{
    reading.out.extend_from_slice(&text[reading.at..at])?;
    reading.out.extend_from_slice(joint)?;
    reading.out.extend_from_slice(b" test")?;
    reading.is_first = false;
    reading.at = next;
    Ok(())
}

/// Goes on after an operator, before which an operand ends.
fn go_on_joined(
    text: &[u8],
    operator: &[u8],
    joint: &[u8],
    at: usize,
    next: usize,
    reading: &mut Reading,
) -> Result<(), AllocError>
    requires place { (reading.old.at ≤ at) × (at ≤ length text.now) }
    requires operand { specs.IsOperand reading.old.is_first (slice_range text.now reading.old.at at) }
    requires is { (specs.is_gap (slice_index text.now (at - 1)) ≡ true)
        × IsWord text.now at operator.now next }
    requires begun { specs.IsBegun operator.now joint.now text.now reading.old.is_first reading.old.at
        reading.old.out.items }
    ensures { OnOk result (
        specs.IsBegun operator.now joint.now text.now reading.new.is_first reading.new.at reading.new.out.items) }
{
    let _ = operator;
    write_joined(text, joint, at, next, reading)
}

/// Writes what is before an offset, at which an operand begins.
fn write_kept(text: &[u8], end: usize, reading: &mut Reading) -> Result<(), AllocError>
    requires { (reading.old.at ≤ end) × (end ≤ length text.now) }
    ensures { OnOk result (
        ((reading.new.is_first ≡ true) × (reading.new.at ≡ end))
        × (reading.new.out.items
        ≡ reading.old.out.items ++ slice_range text.now reading.old.at end)) }
{
    reading.out.extend_from_slice(&text[reading.at..end])?;
    reading.is_first = true;
    reading.at = end;
    Ok(())
}

/// Goes on after a joint and `test`, before which an operand ends.
fn go_on_kept(
    text: &[u8],
    operator: &[u8],
    joint: &[u8],
    at: usize,
    after: usize,
    from: usize,
    end: usize,
    reading: &mut Reading,
) -> Result<(), AllocError>
    requires place { (reading.old.at ≤ end) × (end ≤ length text.now) }
    requires operand { specs.IsOperand reading.old.is_first (slice_range text.now reading.old.at at) }
    requires is { (IsWord text.now at joint.now after × specs.AreGaps text.now after from)
        × IsWord text.now from (codes "test") end }
    requires begun { specs.IsBegun operator.now joint.now text.now reading.old.is_first reading.old.at
        reading.old.out.items }
    ensures { OnOk result (
        specs.IsBegun operator.now joint.now text.now reading.new.is_first reading.new.at reading.new.out.items) }
{
    let _ = operator;
    let _ = joint;
    let _ = at;
    let _ = after;
    let _ = from;
    write_kept(text, end, reading)
}

/// Reads an operator, if one is at an offset and an operand ends before it.
fn read_operator(
    alloc: Global,
    text: &[u8],
    operator: &[u8],
    joint: &[u8],
    at: usize,
    reading: &mut Reading,
) -> Result<(), AllocError>
    requires begun { specs.IsBegun operator.now joint.now text.now reading.old.is_first reading.old.at
        reading.old.out.items }
    ensures { OnOk result (
        specs.IsBegun operator.now joint.now text.now reading.new.is_first reading.new.at reading.new.out.items) }
{
    let next = at.saturating_add(2);
    if at < reading.at || text.len() < at || !is_operator(text, at, operator, next) {
        return Ok(());
    }
    if is_operand(alloc, &text[reading.at..at], reading.is_first)? {
        go_on_joined(text, operator, joint, at, next, reading)
    } else {
        Ok(())
    }
}

/// Reads a joint and `test`, if they are at an offset and an operand ends before them.
fn read_joint(
    alloc: Global,
    text: &[u8],
    operator: &[u8],
    joint: &[u8],
    at: usize,
    reading: &mut Reading,
) -> Result<(), AllocError>
    requires begun { specs.IsBegun operator.now joint.now text.now reading.old.is_first reading.old.at
        reading.old.out.items }
    ensures { OnOk result (
        specs.IsBegun operator.now joint.now text.now reading.new.is_first reading.new.at reading.new.out.items) }
{
    let after = at.saturating_add(2);
    let from = after_gap(text, after);
    let end = from.saturating_add(4);
    if at < reading.at
        || end < at
        || text.len() < end
        || !is_kept(text, at, joint, after, from, end)
    {
        return Ok(());
    }
    if is_operand(alloc, &text[reading.at..at], reading.is_first)? {
        go_on_kept(text, operator, joint, at, after, from, end, reading)
    } else {
        Ok(())
    }
}

/// Reads what is at an offset: an operator, or a joint.
fn read_at(
    alloc: Global,
    text: &[u8],
    operator: &[u8],
    joint: &[u8],
    at: usize,
    reading: &mut Reading,
) -> Result<(), AllocError>
    requires begun { specs.IsBegun operator.now joint.now text.now reading.old.is_first reading.old.at
        reading.old.out.items }
    ensures { OnOk result (
        specs.IsBegun operator.now joint.now text.now reading.new.is_first reading.new.at reading.new.out.items) }
{
    read_operator(alloc, text, operator, joint, at, reading)?;
    read_joint(alloc, text, operator, joint, at, reading)
}

/// Reads a condition up to its last operand.
fn read_all(
    alloc: Global,
    text: &[u8],
    operator: &[u8],
    joint: &[u8],
    reading: &mut Reading,
) -> Result<(), AllocError>
    requires begun { specs.IsBegun operator.now joint.now text.now reading.old.is_first reading.old.at
        reading.old.out.items }
    ensures { OnOk result (
        specs.IsBegun operator.now joint.now text.now reading.new.is_first reading.new.at reading.new.out.items) }
{
    for at in 0..text.len() {
        read_at(alloc, text, operator, joint, at, reading)?;
    }
    Ok(())
}

/// Writes the last operand. Returns that this was done.
fn write_last(
    text: &[u8],
    operator: &[u8],
    joint: &[u8],
    reading: &mut Reading,
) -> Result<bool, AllocError>
    requires place { reading.old.at ≤ length text.now }
    requires plain { list_any specs.is_special text.now ≡ false }
    requires operand { specs.IsOperand reading.old.is_first (slice_range text.now reading.old.at (length text.now)) }
    requires begun { specs.IsBegun operator.now joint.now text.now reading.old.is_first reading.old.at
        reading.old.out.items }
    ensures { IfOk result (λ b.
        IsTrue b → specs.IsRejoined operator.now joint.now text.now reading.new.out.items) }
{
    let _ = operator;
    let _ = joint;
    let rest = &text[reading.at..text.len()];
    reading.out.extend_from_slice(rest)?;
    Ok(true)
}

/// Reads the last operand. Returns whether it ends where the condition does.
fn read_last(
    alloc: Global,
    text: &[u8],
    operator: &[u8],
    joint: &[u8],
    reading: &mut Reading,
) -> Result<bool, AllocError>
    requires plain { list_any specs.is_special text.now ≡ false }
    requires begun { specs.IsBegun operator.now joint.now text.now reading.old.is_first reading.old.at
        reading.old.out.items }
    ensures { IfOk result (λ b.
        IsTrue b → specs.IsRejoined operator.now joint.now text.now reading.new.out.items) }
{
    if text.len() < reading.at {
        return Ok(false);
    }
    if is_operand(alloc, &text[reading.at..text.len()], reading.is_first)? {
        write_last(text, operator, joint, reading)
    } else {
        Ok(false)
    }
}

/// Returns whether the text has a backslash or a bracket.
fn has_special(text: &[u8]) -> bool
    ensures { result ≡ list_any specs.is_special text.now }
{
    text.iter()
        .any(|byte| *byte == b'\\' || *byte == b'[' || *byte == b']')
}

/// Returns whether the word is somewhere in the text.
pub(crate) fn has_word(text: &[u8], word: &[u8]) -> bool {
    for i in 0..text.len() {
        if text[i..].starts_with(word) {
            return true;
        }
    }
    false
}

/// Reads a condition that begins with `test`. Returns whether all of it was read.
fn read_whole(
    alloc: Global,
    text: &[u8],
    operator: &[u8],
    joint: &[u8],
    reading: &mut Reading,
) -> Result<bool, AllocError>
    requires begun { specs.IsBegun operator.now joint.now text.now reading.old.is_first reading.old.at
        reading.old.out.items }
    ensures { IfOk result (λ b.
        IsTrue b → specs.IsRejoined operator.now joint.now text.now reading.new.out.items) }
{
    if has_special(text) {
        return Ok(false);
    }
    read_all(alloc, text, operator, joint, reading)?;
    read_last(alloc, text, operator, joint, reading)
}

/// Reads a condition that has `test` before an offset. Returns what is written for it, if all of it
/// could be read.
fn read_after(
    alloc: Global,
    text: &[u8],
    operator: &[u8],
    joint: &[u8],
    at: usize,
) -> Result<Option<Vec<u8>>, AllocError>
    requires { IsWord text.now 0 (codes "test") at }
    ensures { IfOk result (λ o.
        IfSome o (λ v. specs.IsRejoined operator.now joint.now text.now v.items)) }
{
    let out = Vec::from_slice(alloc, b"test")?;
    let mut reading = Reading {
        is_first: true,
        at,
        out,
    };
    if read_whole(alloc, text, operator, joint, &mut reading)? {
        let Reading { out, .. } = reading;
        Ok(Some(out))
    } else {
        Ok(None)
    }
}

/// Returns a condition with each operator written as the joint and `test`, if all its joints are of
/// this kind.
pub(crate) fn rejoined(
    alloc: Global,
    text: &[u8],
    operator: &[u8],
    joint: &[u8],
) -> Result<Option<Vec<u8>>, AllocError>
    ensures { IfOk result (λ o.
        IfSome o (λ v. specs.IsRejoined operator.now joint.now text.now v.items)) }
{
    if text.len() > LONGEST || !has_word(text, operator) || !is_word(text, 0, b"test", 4) {
        return Ok(None);
    }
    read_after(alloc, text, operator, joint, 4)
}
