//! Why statements of a shell stay.

use crate::obstacles::obstacle_at;
use crate::softened::softened;
use ac_calls::{CallAt, calls_of};
use deftable::Bytes;
use lint_errors::{errors_of, is_accepted, read};
use lint_text::{after_blanks, before, first_name, from, is_word_byte, part};
use port_compounds::{case_parts, guard_parts, if_parts};
use port_joints::{joined_texts, slices};
use port_parts::{CaseCut, GuardCut, IfBranch, IfCut};
use port_put::{call_text, source_with};
use port_statements::{Kept, Obstacle, StatementCut, drawing_in, draws, statements_in};
use std::alloc::{AllocError, Global};

/// Why a statement stays.
#[derive(Drop)]
pub enum Reason {
    /// acrun doesn't accept the call with its parts: what is wrong with that, in one line.
    Refused(Bytes),
    /// Autoconf makes checks before a call in the statement.
    Draws,
    /// A loop that begins with this word is in it.
    Loop(Bytes),
    /// Braces are in it.
    Braces,
    /// A subshell is in it.
    Subshell,
    /// A function is in it.
    Function,
    /// Something that looks like the call of this macro is in it.
    Call(Bytes),
    /// A loop that begins with this word is around it.
    InLoop(Bytes),
    /// Braces are around it.
    InBraces,
    /// Parentheses are around it.
    InParentheses,
    /// It is in a condition.
    InCondition,
    /// It is joined to another command.
    Joined,
    /// A call is before it on its line.
    AfterCall,
    /// It is the body of a function.
    Body,
    /// One of its words is in brackets.
    InBrackets,
    /// Something is after it on its line.
    Followed,
    /// A comment is in its condition.
    HasComment,
    /// If a statement in it stays, then it stays for that.
    Inner,
}

/// A statement that stays.
#[derive(Drop)]
pub struct Staying {
    /// The offset of its first byte.
    pub start: usize,
    /// The offset after its last byte.
    pub end: usize,
    /// Why it stays.
    pub reason: Reason,
    /// Whether the reason is nothing but an operator of a test, in whose place `acrun port --idioms`
    /// may write another text, or what is in the statement.
    pub is_soft: bool,
}

/// Returns what is wrong with the call of a macro with these parts, if acrun doesn't accept it.
fn refusal(alloc: Global, name: &[u8], parts: &[&[u8]]) -> Result<Option<Reason>, AllocError> {
    let call = call_text(alloc, name, parts)?;
    let source = source_with(alloc, call.as_slice())?;
    if is_accepted(alloc, source.as_slice())? {
        return Ok(None);
    }
    let reading = read(alloc, source.as_slice())?;
    let errors = errors_of(alloc, source.as_slice(), &reading)?;
    match errors.first() {
        Some(error) => {
            let message = Vec::from_slice(alloc, error.message.as_slice())?;
            Ok(Some(Reason::Refused(Bytes::from_vec(message))))
        }
        None => Ok(None),
    }
}

/// What is put in the place of a body.
const DONE: &[u8] = b"x=1";

/// Returns whether the part of this index, of so many, is a body. The conditions or the patterns
/// have the indices of this remainder by 2.
fn is_body(index: usize, count: usize, remainder: usize) -> bool {
    let is_last = index.saturating_add(1) == count;
    index > 0 && (index % 2 != remainder || is_last) || index == 0 && remainder == 0 && count == 1
}

/// Returns the parts, in which each body may be another text.
fn with_bodies<'a>(
    alloc: Global,
    parts: &[&'a [u8]],
    remainder: usize,
    has_bodies: bool,
) -> Result<Vec<&'a [u8]>, AllocError> {
    let mut out = Vec::new(alloc);
    let mut index: usize = 0;
    for one in parts {
        let is_replaced = !has_bodies && is_body(index, parts.len(), remainder);
        out.push(if is_replaced { DONE } else { *one })?;
        index = index.saturating_add(1);
    }
    Ok(out)
}

/// What is wrong with a call in the place of a statement.
#[derive(Drop)]
struct Objection {
    reason: Reason,
    /// Whether it is an operator of a test alone, in whose place `acrun port --idioms` may write
    /// another text.
    is_soft: bool,
}

/// Returns a reason that is no operator alone.
fn hard(reason: Option<Reason>) -> Option<Objection> {
    let reason = reason?;
    Some(Objection {
        reason,
        is_soft: false,
    })
}

/// Returns the parts, with other operators in the conditions in whose place `acrun port --idioms` may
/// write another text.
fn softened_parts(alloc: Global, parts: &[&[u8]]) -> Result<Vec<Bytes>, AllocError> {
    let mut out = Vec::new(alloc);
    for index in 0..parts.len() {
        let part = if is_body(index, parts.len(), 0) {
            Vec::from_slice(alloc, parts[index])?
        } else {
            softened(alloc, parts[index])?
        };
        out.push(Bytes::from_vec(part))?;
    }
    Ok(out)
}

/// Returns what is wrong with the call of AS_IF with these parts, in whose conditions `-a` and `-o`
/// are written otherwise.
fn refusal_joined(alloc: Global, parts: &[&[u8]]) -> Result<Option<Reason>, AllocError> {
    let Some(texts) = joined_texts(alloc, parts)? else {
        return Ok(None);
    };
    let slices = slices(alloc, texts.as_slice())?;
    refusal(alloc, b"AS_IF", slices.as_slice())
}

/// Returns the same with other operators in the conditions.
fn refusal_softened(alloc: Global, parts: &[&[u8]]) -> Result<Option<Reason>, AllocError> {
    let texts = softened_parts(alloc, parts)?;
    let slices = slices(alloc, texts.as_slice())?;
    refusal_joined(alloc, slices.as_slice())
}

/// Returns what is wrong with the call of AS_IF with these parts: what is wrong with it too if other
/// operators are in its conditions, or else such an operator. Its bodies count only if that is asked
/// for.
fn refusal_with(
    alloc: Global,
    parts: &[&[u8]],
    has_bodies: bool,
) -> Result<Option<Objection>, AllocError> {
    let parts = with_bodies(alloc, parts, 0, has_bodies)?;
    let Some(reason) = refusal_joined(alloc, parts.as_slice())? else {
        return Ok(None);
    };
    let other = refusal_softened(alloc, parts.as_slice())?;
    let is_soft = other.is_none();
    let reason = other.unwrap_or(reason);
    Ok(Some(Objection { reason, is_soft }))
}

/// Returns whether something is after a statement, on its line.
fn is_followed(text: &[u8], end: usize) -> bool {
    let rest = from(text, end);
    let spaces = rest
        .iter()
        .take_while(|byte| matches!(**byte, b' ' | b'\t' | b'\r'))
        .count();
    match from(rest, spaces).first() {
        Some(byte) => !b"\n;#]".contains(byte),
        None => false,
    }
}

/// Returns whether a condition has a comment.
fn has_comment(text: &[u8], branches: &[IfBranch]) -> bool {
    branches.iter().any(|branch| part(text, branch.start, branch.at_then).contains(&b'#'))
}

/// Returns why an `if` has no parts that can be put into a call, if that is known.
fn unread_if(text: &[u8], cut: &IfCut) -> Option<Reason> {
    if is_followed(text, cut.end) {
        Some(Reason::Followed)
    } else if has_comment(text, cut.branches.as_slice()) {
        Some(Reason::HasComment)
    } else {
        None
    }
}

/// Returns what is wrong with the call for an `if`.
fn refusal_of_if(
    alloc: Global,
    text: &[u8],
    cut: &IfCut,
    has_bodies: bool,
) -> Result<Option<Objection>, AllocError> {
    match if_parts(alloc, text, cut)? {
        Some(parts) => refusal_with(alloc, parts.as_slice(), has_bodies),
        None => Ok(hard(unread_if(text, cut))),
    }
}

/// Returns what is wrong with the call for a `case`.
fn refusal_of_case(
    alloc: Global,
    text: &[u8],
    cut: &CaseCut,
    has_bodies: bool,
) -> Result<Option<Objection>, AllocError> {
    match case_parts(alloc, text, cut)? {
        Some(parts) => {
            let parts = with_bodies(alloc, parts.as_slice(), 1, has_bodies)?;
            let reason = refusal(alloc, b"AS_CASE", parts.as_slice())?;
            Ok(hard(reason))
        }
        None if is_followed(text, cut.end) => Ok(hard(Some(Reason::Followed))),
        None => Ok(None),
    }
}

/// Returns what is wrong with the call for a statement that a condition guards.
fn refusal_of_guard(
    alloc: Global,
    text: &[u8],
    cut: GuardCut,
) -> Result<Option<Objection>, AllocError> {
    match guard_parts(alloc, text, cut)? {
        Some(parts) => refusal_with(alloc, parts.as_slice(), true),
        None => Ok(None),
    }
}

/// Returns what is wrong with the call for a statement. Its bodies count only if that is asked for.
fn refusal_of(
    alloc: Global,
    text: &[u8],
    cut: &StatementCut,
    has_bodies: bool,
) -> Result<Option<Objection>, AllocError> {
    match cut {
        StatementCut::If(cut) => refusal_of_if(alloc, text, cut, has_bodies),
        StatementCut::Case(cut) => refusal_of_case(alloc, text, cut, has_bodies),
        StatementCut::Guard(cut) => refusal_of_guard(alloc, text, *cut),
        StatementCut::Default(_) | StatementCut::For(_) | StatementCut::Line(_) => Ok(None),
    }
}

/// Returns what is wrong, with what keeps another text from being written in the place of an
/// operator, if it is such an operator and that is known.
fn explained(
    alloc: Global,
    text: &[u8],
    calls: &[CallAt],
    cut: &StatementCut,
    objection: Objection,
) -> Result<Objection, AllocError> {
    if !objection.is_soft {
        return Ok(objection);
    }
    match obstacle_at(alloc, text, calls, cut)? {
        Some(words) => Ok(Objection {
            reason: Reason::Refused(words),
            is_soft: false,
        }),
        None => Ok(objection),
    }
}

/// Returns why a statement stays, if that is known.
fn reason_of(
    alloc: Global,
    calls: &[CallAt],
    drawing: &[usize],
    text: &[u8],
    cut: &StatementCut,
) -> Result<Option<Objection>, AllocError> {
    if matches!(cut, StatementCut::Default(_) | StatementCut::For(_)) {
        return Ok(None);
    }
    match refusal_of(alloc, text, cut, true)? {
        Some(objection) => explained(alloc, text, calls, cut, objection).map(|found| Some(found)),
        None if draws(drawing, cut.start(), cut.end()) => Ok(hard(Some(Reason::Draws))),
        None => Ok(None),
    }
}

// ---- statements that stay whatever their parts are

/// Returns the name before an offset.
fn name_before(text: &[u8], at: usize) -> &[u8] {
    let front = before(text, at);
    let len = front
        .iter()
        .rev()
        .take_while(|byte| is_word_byte(**byte))
        .count();
    from(front, front.len().saturating_sub(len))
}

/// Returns whether a parenthesis is closed right after it, but for blanks.
fn is_empty(text: &[u8], at: usize) -> bool {
    let rest = from(text, at.saturating_add(1));
    let spaces = rest
        .iter()
        .take_while(|byte| matches!(**byte, b' ' | b'\t'))
        .count();
    from(rest, spaces).starts_with(b")")
}

/// Returns a word that a loop begins with.
fn word_at(alloc: Global, text: &[u8], at: usize) -> Result<Bytes, AllocError> {
    Bytes::from_slice(alloc, first_name(from(text, at)))
}

/// Returns the reason that a loop, a brace or a parenthesis in a statement is.
fn other_in(alloc: Global, text: &[u8], at: usize) -> Result<Reason, AllocError> {
    let name = name_before(text, at);
    Ok(match text.get(at) {
        Some(b'{') => Reason::Braces,
        Some(b'(') if name.is_empty() => Reason::Subshell,
        Some(b'(') if is_empty(text, at) => Reason::Function,
        Some(b'(') => Reason::Call(Bytes::from_slice(alloc, name)?),
        _ => Reason::Loop(word_at(alloc, text, at)?),
    })
}

/// Returns the reason that a loop, a brace or a parenthesis around a statement is.
fn other_around(alloc: Global, text: &[u8], at: usize) -> Result<Reason, AllocError> {
    Ok(match text.get(at) {
        Some(b'{') => Reason::InBraces,
        Some(b'(') => Reason::InParentheses,
        _ => Reason::InLoop(word_at(alloc, text, at)?),
    })
}

/// Returns the reason that something around a statement is.
fn reason_around(alloc: Global, text: &[u8], around: Obstacle) -> Result<Reason, AllocError> {
    match around {
        Obstacle::Other(at) => other_around(alloc, text, at),
        Obstacle::Condition => Ok(Reason::InCondition),
        Obstacle::Command => Ok(Reason::Joined),
        Obstacle::Call => Ok(Reason::AfterCall),
        Obstacle::Function => Ok(Reason::Body),
        Obstacle::Brackets => Ok(Reason::InBrackets),
    }
}

/// How many bytes of statements are read at least once more, and how often the length of the source.
const LEAST: usize = 4_000_000;

const OFTEN: usize = 8;

/// What a reading counts for beside the length of what is read.
const READING: usize = 1000;

/// Takes what a reading of a statement counts for off what may still be read. Returns whether so
/// much was left.
fn spend(cut: &StatementCut, left: &mut usize) -> bool {
    let cost = cut
        .end()
        .saturating_sub(cut.start())
        .saturating_add(READING);
    let is_enough = cost <= *left;
    *left = left.saturating_sub(cost);
    is_enough
}

/// Returns what is wrong with the conditions or the patterns of a statement, if so much may still be
/// read.
fn refusal_of_head(
    alloc: Global,
    text: &[u8],
    cut: &StatementCut,
    left: &mut usize,
) -> Result<Option<Objection>, AllocError> {
    if spend(cut, left) {
        refusal_of(alloc, text, cut, false)
    } else {
        Ok(None)
    }
}

/// Returns why a statement stays that isn't rewritten whatever its parts are. An operator of a test
/// is the reason only if nothing else is known to be one.
fn reason_of_kept(
    alloc: Global,
    calls: &[CallAt],
    text: &[u8],
    kept: &Kept,
    left: &mut usize,
) -> Result<Objection, AllocError> {
    if let Some(around) = kept.around {
        let reason = reason_around(alloc, text, around)?;
        return Ok(Objection {
            reason,
            is_soft: false,
        });
    }
    let found = refusal_of_head(alloc, text, &kept.cut, left)?;
    reason_inside(alloc, calls, text, kept, found)
}

/// Returns whether something is wrong that is no operator alone.
fn is_hard(found: &Option<Objection>) -> bool {
    match found {
        Some(objection) => !objection.is_soft,
        None => false,
    }
}

/// Returns why such a statement stays, around which nothing keeps it.
fn reason_inside(
    alloc: Global,
    calls: &[CallAt],
    text: &[u8],
    kept: &Kept,
    found: Option<Objection>,
) -> Result<Objection, AllocError> {
    if is_hard(&found) {
        return reason_of_head(alloc, calls, text, kept, found);
    }
    match kept.at_other {
        Some(at) => {
            let reason = other_in(alloc, text, at)?;
            Ok(Objection {
                reason,
                is_soft: false,
            })
        }
        None => reason_of_head(alloc, calls, text, kept, found),
    }
}

/// Returns why such a statement stays, in which no loop, brace or parenthesis is known to be.
fn reason_of_head(
    alloc: Global,
    calls: &[CallAt],
    text: &[u8],
    kept: &Kept,
    found: Option<Objection>,
) -> Result<Objection, AllocError> {
    match found {
        Some(objection) => explained(alloc, text, calls, &kept.cut, objection),
        None => Ok(Objection {
            reason: Reason::Inner,
            is_soft: true,
        }),
    }
}

// ---- comments of port

/// What a comment of `acrun port` begins with.
pub const COMMENT_FRONT: &[u8] = b"dnl acrun: ";

/// A text without comments of `acrun port`, and where they were.
#[derive(Drop)]
struct Bare {
    text: Vec<u8>,
    /// Offsets of the text before which comments were, in order, and how many bytes all comments
    /// before each have.
    cuts: Vec<(usize, usize)>,
}

/// Returns the length of the line that begins at an offset, with its newline.
fn line_len(text: &[u8], at: usize) -> usize {
    let rest = from(text, at);
    match rest.iter().position(|byte| *byte == b'\n') {
        Some(len) => len.saturating_add(1),
        None => rest.len(),
    }
}

/// Returns whether the line that begins at an offset is a comment of `acrun port`.
fn is_comment_line(text: &[u8], at: usize) -> bool {
    after_blanks(from(text, at)).starts_with(COMMENT_FRONT)
}

/// Adds that a comment of so many bytes was before the end of a text.
fn add_cut(len: usize, bare: &mut Bare) -> Result<(), AllocError> {
    let at = bare.text.len();
    let (last, removed) = bare.cuts.pop().unwrap_or((0, 0));
    if last != at {
        bare.cuts.push((last, removed))?;
    }
    bare.cuts.push((at, removed.saturating_add(len)))?;
    Ok(())
}

/// Returns a text without comments of `acrun port`. Autoconf and acrun read the same in it.
fn without_comments(alloc: Global, text: &[u8]) -> Result<Bare, AllocError> {
    let mut bare = Bare {
        text: Vec::new(alloc),
        cuts: Vec::new(alloc),
    };
    let mut at: usize = 0;
    for _ in 0..text.len() {
        let len = line_len(text, at);
        if is_comment_line(text, at) {
            add_cut(len, &mut bare)?;
        } else {
            bare.text
                .extend_from_slice(part(text, at, at.saturating_add(len)))?;
        }
        at = at.saturating_add(len);
        if at >= text.len() {
            break;
        }
    }
    Ok(bare)
}

/// Returns the offset in the whole text of an offset in the text without comments.
fn whole_offset(cuts: &[(usize, usize)], at: usize) -> usize {
    let removed = match cuts.binary_search_by(|cut| cut.0.cmp(&at)) {
        Ok(index) => cuts.get(index),
        Err(0) => None,
        Err(index) => cuts.get(index.saturating_sub(1)),
    };
    at.saturating_add(removed.map_or(0, |cut| cut.1))
}

// ---- the whole

/// Appends a statement that stays.
fn push_staying(
    bare: &Bare,
    cut: &StatementCut,
    objection: Objection,
    out: &mut Vec<Staying>,
) -> Result<(), AllocError> {
    let cuts = bare.cuts.as_slice();
    let last = cut.end().saturating_sub(1);
    let Objection { reason, is_soft } = objection;
    out.push(Staying {
        start: whole_offset(cuts, cut.start()),
        end: whole_offset(cuts, last).saturating_add(1),
        reason,
        is_soft,
    })?;
    Ok(())
}

/// Returns whether a statement in that of an index stays for another reason than an operator of a
/// test.
fn has_hard_inside(statements: &[Staying], index: usize) -> bool {
    let Some(whole) = statements.get(index) else {
        return false;
    };
    for statement in statements.iter().skip(index.saturating_add(1)) {
        if whole.end <= statement.start {
            return false;
        }
        if !statement.is_soft {
            return true;
        }
    }
    false
}

/// Makes what is in a statement its reason, if something in it stays for another one than an operator
/// of a test, and it stays for such an operator.
fn hand_inside(statements: &mut [Staying]) {
    for index in 0..statements.len() {
        let is_soft = statements[index].is_soft;
        if is_soft && has_hard_inside(statements, index) {
            statements[index].reason = Reason::Inner;
        }
    }
}

/// Returns the statements of a source that stay: those for which acrun would not accept the call,
/// those in which a call makes Autoconf check something before it, and each `if` and `case` that is
/// not rewritten whatever its parts are. They are in order of their offsets, and one comes before
/// those in it. An operator of a test in whose place `acrun port --idioms` may write another text is
/// a reason only if no other one is known. Comments that `acrun port` wrote count for nothing.
///
/// # Errors
///
/// Fails only if memory runs out.
pub fn kept_statements(alloc: Global, text: &[u8]) -> Result<Vec<Staying>, AllocError> {
    let bare = without_comments(alloc, text)?;
    let text = bare.text.as_slice();
    let calls = calls_of(alloc, text)?;
    let drawing = drawing_in(alloc, text, calls.as_slice())?;
    let found = statements_in(alloc, text, calls.as_slice())?;
    let mut out = Vec::new(alloc);
    for cut in &found.cuts {
        let calls = calls.as_slice();
        if let Some(objection) = reason_of(alloc, calls, drawing.as_slice(), text, cut)? {
            push_staying(&bare, cut, objection, &mut out)?;
        }
    }
    let mut left = text.len().saturating_mul(OFTEN).saturating_add(LEAST);
    for kept in &found.kept {
        let objection = reason_of_kept(alloc, calls.as_slice(), text, kept, &mut left)?;
        push_staying(&bare, &kept.cut, objection, &mut out)?;
    }
    out.sort_by_key(|staying| staying.start)?;
    hand_inside(out.as_mut_slice());
    Ok(out)
}
