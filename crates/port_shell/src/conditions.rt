//! Conditions of `if`, of AS_IF and before `&&` and `||` that are written otherwise where they are.

ghost use Rattle.std.specs.Prelude.{◌≡◌, ◌⊎◌, ◌≤◌, ◌<◌, ◌+◌, ◌++◌, ◌∷◌, true, Some, map, length, slice_get, slice_index, slice_range, codes, All, Contains, IfOk, IfSome, OnOk, IsTrue};
ghost use Rattle.std.specs.List.{list_all};
ghost use Rattle.port_breaks.specs.Breaks.{IsMade};
ghost use Rattle.port_edits.specs.Edits.{change_of};
ghost use Rattle.ac_calls.specs.Calls.{calls_in, macro_call_of};
ghost use Rattle.port_compounds.specs.Guards.{IsGuarded};
ghost use Rattle.port_parts.specs.Places.{is_space_or_return, AreBlank, IsWord};
ghost use Rattle.port_statements.specs.Statements.{MayBegin};
ghost use Rattle.port_shell.specs.Formed as specs;

use crate::branches::has_file_branch;
use crate::files::asked_edit;
use crate::passing::{changed, push_edit};
use ac_calls::{CallAt, Extent, calls_of};
use lint_text::{line_start, part, without_end_blanks};
use port_compounds::guard_parts;
use port_edits::Edit;
use port_idioms::Idioms;
use port_joints::{joined_condition, respelled};
use port_parts::{GuardCut, IfCut, are_blank, are_spaces, is_list_end, is_word};
use port_statements::{StatementCut, Statements, may_begin, statements_in};
use std::alloc::{AllocError, Global};

/// What is above a condition that is spelled otherwise.
const COMMENT: &[u8] = b"dnl acrun: in place of ==, -eq or -ne: the words are compared as texts";

// ---- where a condition is

/// What a condition is of.
#[derive(Clone, Copy)]
pub(crate) enum Whole {
    /// An `if`, with the offset of its `then`.
    If(usize),
    /// The call of AS_IF with this index.
    Call(usize),
    /// A statement that it guards.
    List(GuardCut),
}

/// Where a condition may be.
#[derive(Clone, Copy)]
pub(crate) struct ConditionPlace {
    /// The offset of the statement.
    pub start: usize,
    /// The offsets of the condition.
    pub from: usize,
    pub to: usize,
    pub whole: Whole,
}

/// Returns whether `if` or `elif` is between two offsets.
fn is_keyword(text: &[u8], start: usize, after: usize) -> bool
    ensures { IsTrue result
        → IsWord text.now start (codes "if") after ⊎ IsWord text.now start (codes "elif") after }
{
    is_word(text, start, b"if", after) || is_word(text, start, b"elif", after)
}

/// Returns whether there are blanks alone between two offsets, and at least one.
fn is_gap(text: &[u8], after: usize, from: usize) -> bool
    ensures { IsTrue result → (after < from) × AreBlank text.now after from }
{
    after < from && from <= text.len() && are_blank(&text[after..from])
}

/// Returns whether `if` or `elif` is between the first two offsets, and its condition between the
/// next two, with `then` after it.
fn is_test_after(
    text: &[u8],
    start: usize,
    after: usize,
    from: usize,
    to: usize,
    at_then: usize,
    after_then: usize,
) -> bool
    ensures { IsTrue result → specs.IsIfTest text.now start from to }
{
    start <= after
        && is_keyword(text, start, after)
        && is_gap(text, after, from)
        && is_list_end(text, to, at_then)
        && is_word(text, at_then, b"then", after_then)
}

/// Returns whether `if` or `elif` is at an offset, and its condition between two others.
fn is_if_test(text: &[u8], start: usize, from: usize, to: usize, at_then: usize) -> bool
    ensures { IsTrue result → specs.IsIfTest text.now start from to }
{
    let end = at_then.saturating_add(4);
    is_test_after(text, start, start.saturating_add(2), from, to, at_then, end)
        || is_test_after(text, start, start.saturating_add(4), from, to, at_then, end)
}

/// Returns the first argument of a call.
fn first_argument(call: &CallAt) -> Option<Extent>
    ensures { result ≡ slice_get (macro_call_of call.now).args 0 }
{
    call.args.get(0).copied()
}

/// Returns whether the call is one of AS_IF.
fn is_choice(text: &[u8], call: &CallAt) -> bool
    ensures { IsTrue result
        → slice_range text.now (macro_call_of call.now).start (macro_call_of call.now).name_end
        ≡ codes "AS_IF" }
{
    let has_name = call.start <= call.name_end && call.name_end <= text.len();
    has_name && &text[call.start..call.name_end] == b"AS_IF".as_slice()
}

/// Returns whether a bracket is at an offset, and another one after the other two.
fn is_in_brackets(text: &[u8], arg: Extent, from: usize, to: usize) -> bool
    ensures { IsTrue result
        → ((arg.start + 1 ≡ from) × (slice_index text.now arg.start ≡ 91))
        × (to < arg.end) × (slice_index text.now to ≡ 93) }
{
    arg.start < text.len()
        && arg.start + 1 == from
        && text[arg.start] == b'['
        && to < arg.end
        && to < text.len()
        && text[to] == b']'
}

/// Returns whether a call with this first argument is one of AS_IF at an offset, and its condition
/// is between two others.
fn is_test_in(text: &[u8], call: &CallAt, arg: Extent, start: usize, from: usize, to: usize) -> bool
    requires call { Contains (calls_in text.now) (macro_call_of call.now) }
    requires arg { slice_get (macro_call_of call.now).args 0 ≡ Some arg }
    ensures { IsTrue result → specs.IsCallTest text.now start from to }
{
    call.start == start && is_choice(text, call) && is_in_brackets(text, arg, from, to)
}

/// Returns whether a call is one of AS_IF at an offset, and its condition is between two others.
fn is_test_of_call(text: &[u8], call: &CallAt, start: usize, from: usize, to: usize) -> bool
    requires { Contains (calls_in text.now) (macro_call_of call.now) }
    ensures { IsTrue result → specs.IsCallTest text.now start from to }
{
    match first_argument(call) {
        Some(arg) => is_test_in(text, call, arg, start, from, to),
        None => false,
    }
}

/// Returns whether the call of an index is one of AS_IF at an offset, and its condition is between
/// two others.
fn is_call_test(
    text: &[u8],
    calls: &[CallAt],
    index: usize,
    start: usize,
    from: usize,
    to: usize,
) -> bool
    requires { map macro_call_of calls.now ≡ calls_in text.now }
    ensures { IsTrue result → specs.IsCallTest text.now start from to }
{
    index < calls.len() && is_test_of_call(text, &calls[index], start, from, to)
}

/// Returns whether a part is what is between two offsets.
fn is_range(text: &[u8], from: usize, to: usize, part: &[u8]) -> bool
    ensures { IsTrue result → part.now ≡ slice_range text.now from to }
{
    from <= to && to <= text.len() && part == &text[from..to]
}

/// Returns whether a statement is at an offset that its first part guards, and this part is between
/// two others.
#[tactic(auto, using(crate::proofs::Testing::list_test))]
fn is_first_part(
    text: &[u8],
    cut: GuardCut,
    first: &[u8],
    rest: &[&[u8]],
    start: usize,
    from: usize,
    to: usize,
) -> bool
    requires { IsGuarded text.now cut.start cut.end (first.now ∷ map (λ p. p.now) rest.now) }
    ensures { IsTrue result → specs.IsListTest text.now start from to }
{
    let _ = rest;
    cut.start == start && start == from && is_range(text, from, to, first)
}

/// Returns whether a statement with these parts is at an offset, and its condition is between two
/// others.
#[tactic(auto, using(crate::proofs::Testing::first_part))]
fn is_test_of_parts(
    text: &[u8],
    cut: GuardCut,
    parts: &[&[u8]],
    start: usize,
    from: usize,
    to: usize,
) -> bool
    requires { IsGuarded text.now cut.start cut.end (map (λ p. p.now) parts.now) }
    ensures { IsTrue result → specs.IsListTest text.now start from to }
{
    match parts.split_first() {
        Some((first, rest)) => is_first_part(text, cut, first, rest, start, from, to),
        None => false,
    }
}

/// Returns whether a statement that a condition guards is at an offset, and its condition is between
/// two others.
fn is_list_test(
    alloc: Global,
    text: &[u8],
    cut: GuardCut,
    start: usize,
    from: usize,
    to: usize,
) -> Result<bool, AllocError>
    ensures { IfOk result (λ b. IsTrue b → specs.IsTestAt text.now start from to) }
{
    match guard_parts(alloc, text, cut)? {
        Some(parts) => Ok(is_test_of_parts(text, cut, parts.as_slice(), start, from, to)),
        None => Ok(false),
    }
}

/// Returns whether a condition is at a place.
fn is_test_at(
    alloc: Global,
    text: &[u8],
    calls: &[CallAt],
    place: ConditionPlace,
) -> Result<bool, AllocError>
    requires { map macro_call_of calls.now ≡ calls_in text.now }
    ensures { IfOk result (λ b.
        IsTrue b → specs.IsTestAt text.now place.start place.from place.to) }
{
    match place.whole {
        Whole::If(then) => Ok(is_if_test(text, place.start, place.from, place.to, then)),
        Whole::Call(index) => Ok(is_call_test(
            text,
            calls,
            index,
            place.start,
            place.from,
            place.to,
        )),
        Whole::List(cut) => is_list_test(alloc, text, cut, place.start, place.from, place.to),
    }
}

/// Returns the place of the condition of an `if` or `elif` at an offset, after the keyword.
fn place_of_if(text: &[u8], start: usize, after: usize, at_then: usize) -> ConditionPlace {
    let written = part(text, after, at_then);
    let blanks = written
        .iter()
        .take_while(|byte| matches!(**byte, b' ' | b'\t' | b'\r' | b'\n'))
        .count();
    let end = without_end_blanks(written);
    let end = match end.split_last() {
        Some((last, front)) if *last == b';' => without_end_blanks(front),
        _ => end,
    };
    ConditionPlace {
        start,
        from: after.saturating_add(blanks),
        to: after.saturating_add(end.len()),
        whole: Whole::If(at_then),
    }
}

/// Appends the places of the conditions of an `if`.
fn push_of_if(
    text: &[u8],
    cut: &IfCut,
    places: &mut Vec<ConditionPlace>,
) -> Result<(), AllocError> {
    let mut start = cut.start;
    for branch in &cut.branches {
        places.push(place_of_if(text, start, branch.start, branch.at_then))?;
        start = branch.end;
    }
    Ok(())
}

/// Returns the place of the condition before a statement that it guards.
fn place_of_guard(text: &[u8], cut: GuardCut) -> ConditionPlace {
    let written = without_end_blanks(part(text, cut.start, cut.at_joint));
    ConditionPlace {
        start: cut.start,
        from: cut.start,
        to: cut.start.saturating_add(written.len()),
        whole: Whole::List(cut),
    }
}

/// Appends the places of the conditions of a statement.
fn push_of_cut(
    text: &[u8],
    cut: &StatementCut,
    places: &mut Vec<ConditionPlace>,
) -> Result<(), AllocError> {
    match cut {
        StatementCut::If(cut) => push_of_if(text, cut, places),
        StatementCut::Guard(cut) => {
            places.push(place_of_guard(text, *cut))?;
            Ok(())
        }
        StatementCut::Case(_)
        | StatementCut::Default(_)
        | StatementCut::For(_)
        | StatementCut::Line(_) => Ok(()),
    }
}

/// Appends the place of the condition of a call, if it is one of AS_IF.
fn push_of_call(
    text: &[u8],
    call: &CallAt,
    index: usize,
    places: &mut Vec<ConditionPlace>,
) -> Result<(), AllocError> {
    if let Some(arg) = call.args.first() {
        let written = without_end_blanks(part(text, arg.start, arg.end));
        places.push(ConditionPlace {
            start: call.start,
            from: arg.start.saturating_add(1),
            to: arg.start.saturating_add(written.len()).saturating_sub(1),
            whole: Whole::Call(index),
        })?;
    }
    Ok(())
}

/// Returns where conditions may be, in order of their offsets: those of statements and of calls.
fn places_in(
    alloc: Global,
    text: &[u8],
    calls: &[CallAt],
    cuts: &[StatementCut],
) -> Result<Vec<ConditionPlace>, AllocError> {
    let mut places = Vec::new(alloc);
    for cut in cuts {
        push_of_cut(text, cut, &mut places)?;
    }
    for index in 0..calls.len() {
        let call = &calls[index];
        if part(text, call.start, call.name_end) == b"AS_IF".as_slice() {
            push_of_call(text, call, index, &mut places)?;
        }
    }
    places.sort_by_key(|place| place.start)?;
    Ok(places)
}

// ---- what is written

/// Returns the change of a condition of AS_IF in which `-a` and `-o` become `&&` and `||`.
fn joined_edit(
    alloc: Global,
    text: &[u8],
    place: ConditionPlace,
) -> Result<Option<Edit>, AllocError>
    requires { specs.IsPlace text.now place.start place.from place.to }
    ensures { IfOk result (λ o. IfSome o (λ e. specs.IsTested text.now (change_of e))) }
{
    if !matches!(place.whole, Whole::Call(_)) {
        return Ok(None);
    }
    let Some(joined) = joined_condition(alloc, &text[place.from..place.to])? else {
        return Ok(None);
    };
    let put = joined.into_vec(alloc)?;
    Ok(Some(Edit {
        start: place.from,
        end: place.to,
        put,
    }))
}

/// Returns the comment above a condition, with this indent after it.
#[tactic(auto, unfolding(crate::specs::Formed::spelled_so))]
fn spelled_so(alloc: Global, indent: &[u8]) -> Result<Vec<u8>, AllocError>
    ensures { IfOk result (λ v. v.items ≡ specs.spelled_so indent.now) }
{
    let mut out = Vec::from_slice(alloc, COMMENT)?;
    out.push(b'\n')?;
    out.extend_from_slice(indent)?;
    Ok(out)
}

/// Returns the comment, and below it a statement up to its condition, and the condition.
fn below(alloc: Global, indent: &[u8], front: &[u8], put: &[u8]) -> Result<Vec<u8>, AllocError>
    ensures { IfOk result (λ v. v.items ≡ specs.spelled_so indent.now ++ (front.now ++ put.now)) }
{
    let mut out = spelled_so(alloc, indent)?;
    out.extend_from_slice(front)?;
    out.extend_from_slice(put)?;
    Ok(out)
}

/// Returns whether an offset is in an argument without brackets of one of the calls. A comment there
/// would be a part of it.
pub(crate) fn is_in_bare(text: &[u8], calls: &[CallAt], at: usize) -> bool {
    for call in calls {
        if call.start < at && at < call.end {
            for arg in &call.args {
                if arg.start <= at && at < arg.end && text.get(arg.start) != Some(&b'[') {
                    return true;
                }
            }
        }
    }
    false
}

/// Returns the spaces before a statement on its line, if there is nothing else, and if a comment can
/// be on a line above.
pub(crate) fn indent_at<'a>(text: &'a [u8], calls: &[CallAt], at: usize) -> Option<&'a [u8]>
    ensures { IfSome result (λ i. list_all is_space_or_return i.now ≡ true) }
{
    let indent = part(text, line_start(text, at), at);
    if are_spaces(indent) && !is_in_bare(text, calls, at) {
        Some(indent)
    } else {
        None
    }
}

/// Returns the change of a condition that is spelled otherwise, if there is a spelling, and if a
/// comment can be on a line above.
fn spelled_edit(
    alloc: Global,
    text: &[u8],
    calls: &[CallAt],
    place: ConditionPlace,
) -> Result<Option<Edit>, AllocError>
    requires { specs.IsPlace text.now place.start place.from place.to }
    ensures { IfOk result (λ o. IfSome o (λ e. specs.IsIdiom text.now (change_of e))) }
{
    let Some(condition) = respelled(alloc, &text[place.from..place.to])? else {
        return Ok(None);
    };
    let Some(indent) = indent_at(text, calls, place.start) else {
        return Ok(None);
    };
    let front = &text[place.start..place.from];
    let put = below(alloc, indent, front, condition.as_slice())?;
    Ok(Some(Edit {
        start: place.start,
        end: place.to,
        put,
    }))
}

/// Returns the change of a condition that is spelled otherwise, if there is a spelling, or that has
/// the answer for a file that it tests, unless a later branch keeps the whole statement.
fn idiom_edit(
    alloc: Global,
    text: &[u8],
    calls: &[CallAt],
    place: ConditionPlace,
) -> Result<Option<Edit>, AllocError>
    requires calls { map macro_call_of calls.now ≡ calls_in text.now }
    requires place { specs.IsPlace text.now place.start place.from place.to }
    ensures { IfOk result (λ o. IfSome o (λ e. specs.IsIdiom text.now (change_of e))) }
{
    if has_file_branch(text, place.start, place.to) {
        return Ok(None);
    }
    match spelled_edit(alloc, text, calls, place)? {
        Some(edit) => Ok(Some(edit)),
        None => asked_edit(alloc, text, calls, place),
    }
}

/// Returns whether a condition is at a place, of a statement that begins at one of these offsets.
fn is_place(
    alloc: Global,
    text: &[u8],
    calls: &[CallAt],
    offsets: &[usize],
    place: ConditionPlace,
) -> Result<bool, AllocError>
    requires calls { map macro_call_of calls.now ≡ calls_in text.now }
    requires offsets { All (MayBegin text.now) offsets.now }
    ensures { IfOk result (λ b.
        IsTrue b → specs.IsPlace text.now place.start place.from place.to) }
{
    let is_there = place.start <= place.from && place.from <= place.to && place.to <= text.len();
    if !is_there || !may_begin(text, offsets, place.start) {
        return Ok(false);
    }
    is_test_at(alloc, text, calls, place)
}

/// Returns the change of what is at a place, if that is a condition of a statement that begins at one
/// of these offsets, and if there is another text for it.
fn condition_edit(
    alloc: Global,
    idioms: Idioms,
    text: &[u8],
    calls: &[CallAt],
    offsets: &[usize],
    place: ConditionPlace,
) -> Result<Option<Edit>, AllocError>
    requires calls { map macro_call_of calls.now ≡ calls_in text.now }
    requires offsets { All (MayBegin text.now) offsets.now }
    ensures { IfOk result (λ o. IfSome o (λ e. specs.IsEdit idioms text.now (change_of e))) }
{
    if !is_place(alloc, text, calls, offsets, place)? {
        return Ok(None);
    }
    if let Some(edit) = joined_edit(alloc, text, place)? {
        return Ok(Some(edit));
    }
    match idioms {
        Idioms::Exact => Ok(None),
        Idioms::All => match idiom_edit(alloc, text, calls, place)? {
            Some(edit) => Ok(Some(edit)),
            None => Ok(None),
        },
    }
}

/// Returns the changes of the conditions at these places. One that begins in what another one
/// changes is left.
fn condition_edits(
    alloc: Global,
    idioms: Idioms,
    text: &[u8],
    calls: &[CallAt],
    offsets: &[usize],
    places: &[ConditionPlace],
) -> Result<Vec<Edit>, AllocError>
    requires calls { map macro_call_of calls.now ≡ calls_in text.now }
    requires offsets { All (MayBegin text.now) offsets.now }
    ensures { IfOk result (λ v. All (λ e. specs.IsEdit idioms text.now (change_of e)) v.items) }
{
    let mut edits = Vec::new(alloc);
    for i in 0..places.len() {
        let edit = condition_edit(alloc, idioms, text, calls, offsets, places[i])?;
        push_edit(idioms, text, edit, &mut edits)?;
    }
    Ok(edits)
}

/// Returns the text with conditions of AS_IF in which `-a` and `-o` became `&&` and `||`, and, if
/// all idioms are wanted, with those spelled otherwise that have `==`, `-eq` or `-ne`. Returns
/// `None` if there is none.
pub(crate) fn tested_once(
    alloc: Global,
    idioms: Idioms,
    text: &[u8],
) -> Result<Option<Vec<u8>>, AllocError>
    ensures { IfOk result (λ o.
        IfSome o (λ v. IsMade (specs.IsEdit idioms text.now) text.now v.items)) }
{
    let calls = calls_of(alloc, text)?;
    let found = statements_in(alloc, text, calls.as_slice())?;
    let places = places_in(alloc, text, calls.as_slice(), found.cuts.as_slice())?;
    let edits = condition_edits(
        alloc,
        idioms,
        text,
        calls.as_slice(),
        found.offsets.as_slice(),
        places.as_slice(),
    )?;
    changed(alloc, idioms, text, edits.as_slice())
}
