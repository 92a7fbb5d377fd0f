//! The lists of statements of a source, and the compound statements in them.

ghost use Rattle.std.specs.Prelude.{◌≡◌, ◌<◌, ◌≤◌, map, length, slice_index, All, Contains, IfOk, IfSome, OnOk};
ghost use Rattle.ac_calls.specs.Calls.{calls_in, macro_call_of};
ghost use Rattle.port_places.specs.Outside.{IsList, IsOutside};
ghost use Rattle.port_statements.specs.Statements as specs;

use crate::compounds::Compounds;
use crate::cut::{Kept, StatementCut};
use crate::offsets::{push_offsets, put_offsets_in_order};
use crate::reading::{Found, found_in};
use ac_calls::{CallAt, Extent};
use ac_macros::holds_statements;
use lint_text::{part, without_end_blanks};
use port_places::{ListPlaces, places_of};
use std::alloc::{AllocError, Global};

/// Returns whether the brackets of a text are closed at its end, and not earlier.
fn is_one_run(text: &[u8]) -> bool {
    let mut depth: usize = 0;
    for i in 0..text.len() {
        if text[i] == b'[' {
            depth = depth.saturating_add(1);
        } else if text[i] == b']' {
            depth = depth.saturating_sub(1);
        }
        if depth == 0 {
            return i.saturating_add(1) == text.len();
        }
    }
    false
}

/// Returns an offset, but at most two others.
fn at_most(end: usize, first: usize, second: usize) -> usize
    ensures { (result ≤ first) × (result ≤ second) }
{
    if end <= first && end <= second {
        end
    } else if first <= second {
        first
    } else {
        second
    }
}

/// Returns the list that begins after the bracket at the front of an argument.
fn list_in(text: &[u8], calls: &[CallAt], call: &CallAt, arg: Extent, end: usize) -> Extent
    requires call { Contains calls.now call.now }
    requires arg { Contains call.now.args.items arg }
    requires within { arg.start < length text.now }
    requires opens { slice_index text.now arg.start ≡ 91 }
    ensures { IsList text.now calls.now result }
{
    let _ = calls;
    let _ = call;
    Extent {
        start: arg.start + 1,
        end: at_most(end, arg.end, text.len()),
    }
}

/// Returns the list of statements in an argument in brackets.
fn list_of(text: &[u8], calls: &[CallAt], call: &CallAt, arg: Extent) -> Option<Extent>
    requires call { Contains calls.now call.now }
    requires arg { Contains call.now.args.items arg }
    ensures { IfSome result (λ list. IsList text.now calls.now list) }
{
    let written = without_end_blanks(part(text, arg.start, arg.end));
    if arg.start >= text.len() || text[arg.start] != b'[' || !is_one_run(written) {
        return None;
    }
    let end = arg.start.saturating_add(written.len()).saturating_sub(1);
    Some(list_in(text, calls, call, arg, end))
}

/// Appends a list.
fn push_one(
    text: &[u8],
    calls: &[CallAt],
    list: Extent,
    lists: &mut Vec<Extent>,
) -> Result<(), AllocError>
    requires list { IsList text.now calls.now list }
    requires lists { All (IsList text.now calls.now) lists.old.items }
    ensures { OnOk result (All (IsList text.now calls.now) lists.new.items) }
{
    let _ = text;
    let _ = calls;
    lists.push(list)?;
    Ok(())
}

/// Appends the list of statements in an argument, if it is in brackets.
fn push_of_argument(
    text: &[u8],
    calls: &[CallAt],
    call: &CallAt,
    arg: Extent,
    lists: &mut Vec<Extent>,
) -> Result<(), AllocError>
    requires call { Contains calls.now call.now }
    requires arg { Contains call.now.args.items arg }
    requires lists { All (IsList text.now calls.now) lists.old.items }
    ensures { OnOk result (All (IsList text.now calls.now) lists.new.items) }
{
    match list_of(text, calls, call, arg) {
        Some(list) => push_one(text, calls, list, lists),
        None => Ok(()),
    }
}

/// Appends the list of statements in the argument of an index, if that holds statements.
#[tactic(auto, using(crate::proofs::Listed::in_list))]
fn push_if_held(
    text: &[u8],
    calls: &[CallAt],
    call: &CallAt,
    index: usize,
    holds: bool,
    lists: &mut Vec<Extent>,
) -> Result<(), AllocError>
    requires call { Contains calls.now call.now }
    requires within { index < length call.now.args.items }
    requires lists { All (IsList text.now calls.now) lists.old.items }
    ensures { OnOk result (All (IsList text.now calls.now) lists.new.items) }
{
    if holds {
        push_of_argument(text, calls, call, call.args[index], lists)
    } else {
        Ok(())
    }
}

/// Appends the lists of statements in the arguments of a call.
fn push_of_call(
    text: &[u8],
    calls: &[CallAt],
    call: &CallAt,
    lists: &mut Vec<Extent>,
) -> Result<(), AllocError>
    requires call { Contains calls.now call.now }
    requires lists { All (IsList text.now calls.now) lists.old.items }
    ensures { OnOk result (All (IsList text.now calls.now) lists.new.items) }
{
    let Some(row) = call.row else {
        return Ok(());
    };
    for i in 0..call.args.len() {
        let holds = holds_statements(row.named, call.args.len(), i);
        push_if_held(text, calls, call, i, holds, lists)?;
    }
    Ok(())
}

/// Appends the lists of statements in the arguments of the call of an index.
#[tactic(auto, using(crate::proofs::Listed::in_list))]
fn push_at_index(
    text: &[u8],
    calls: &[CallAt],
    index: usize,
    lists: &mut Vec<Extent>,
) -> Result<(), AllocError>
    requires lists { All (IsList text.now calls.now) lists.old.items }
    ensures { OnOk result (All (IsList text.now calls.now) lists.new.items) }
{
    if index < calls.len() {
        push_of_call(text, calls, &calls[index], lists)
    } else {
        Ok(())
    }
}

/// Appends the lists of statements in the arguments of the calls of these indices.
fn push_lists(
    text: &[u8],
    calls: &[CallAt],
    indices: &[usize],
    lists: &mut Vec<Extent>,
) -> Result<(), AllocError>
    requires lists { All (IsList text.now calls.now) lists.old.items }
    ensures { OnOk result (All (IsList text.now calls.now) lists.new.items) }
{
    for i in 0..indices.len() {
        push_at_index(text, calls, indices[i], lists)?;
    }
    Ok(())
}

/// The statements of a source that calls may be put in the place of, and those that stay.
#[derive(Drop)]
pub struct Statements {
    /// Those that may be rewritten, in order of their offsets. Each is one in which no compound
    /// statement of a shell is.
    pub cuts: Vec<StatementCut>,
    /// Each `if` and each `case` that isn't rewritten, whatever its parts are.
    pub kept: Vec<Kept>,
    /// The offsets at which a statement may begin, in order, of those at which a word may begin.
    pub offsets: Vec<usize>,
}

/// Appends a statement.
fn push_begun(
    text: &[u8],
    cut: StatementCut,
    cuts: &mut Vec<StatementCut>,
) -> Result<(), AllocError>
    requires begins { specs.BeginsOutside text.now cut }
    requires cuts { All (specs.BeginsOutside text.now) cuts.old.items }
    ensures { OnOk result (All (specs.BeginsOutside text.now) cuts.new.items) }
{
    let _ = text;
    cuts.push(cut)?;
    Ok(())
}

/// Appends a statement, unless it begins after a backslash.
#[tactic(auto, using(crate::proofs::Listed::begins))]
fn push_cut(
    text: &[u8],
    calls: &[CallAt],
    places: &ListPlaces,
    cut: StatementCut,
    cuts: &mut Vec<StatementCut>,
) -> Result<(), AllocError>
    requires calls { map macro_call_of calls.now ≡ calls_in text.now }
    requires places { All (IsOutside text.now calls.now) places.now.outside.items }
    requires cuts { All (specs.BeginsOutside text.now) cuts.old.items }
    ensures { OnOk result (All (specs.BeginsOutside text.now) cuts.new.items) }
{
    let at = cut.start();
    if places.is_outside(text, calls, at) {
        push_begun(text, cut, cuts)
    } else {
        Ok(())
    }
}

/// Appends the statements that were found in a list.
fn push_cuts(
    text: &[u8],
    calls: &[CallAt],
    places: &ListPlaces,
    found: Vec<StatementCut>,
    cuts: &mut Vec<StatementCut>,
) -> Result<(), AllocError>
    requires calls { map macro_call_of calls.now ≡ calls_in text.now }
    requires places { All (IsOutside text.now calls.now) places.now.outside.items }
    requires cuts { All (specs.BeginsOutside text.now) cuts.old.items }
    ensures { OnOk result (All (specs.BeginsOutside text.now) cuts.new.items) }
{
    for cut in found {
        push_cut(text, calls, places, cut, cuts)?;
    }
    Ok(())
}

/// Appends the statements that aren't rewritten.
fn push_kept(found: Vec<Kept>, kept: &mut Vec<Kept>) -> Result<(), AllocError> {
    for one in found {
        kept.push(one)?;
    }
    Ok(())
}

/// Appends the statements of a list, and the lists in the arguments of its calls.
fn push_list(
    alloc: Global,
    text: &[u8],
    calls: &[CallAt],
    list: Extent,
    lists: &mut Vec<Extent>,
    statements: &mut Statements,
) -> Result<(), AllocError>
    requires calls { map macro_call_of calls.now ≡ calls_in text.now }
    requires list { IsList text.now calls.now list }
    requires lists { All (IsList text.now calls.now) lists.old.items }
    requires cuts { All (specs.BeginsOutside text.now) statements.old.cuts.items }
    requires offsets { All (specs.MayBegin text.now) statements.old.offsets.items }
    ensures lists { OnOk result (All (IsList text.now calls.now) lists.new.items) }
    ensures cuts { OnOk result (All (specs.BeginsOutside text.now) statements.new.cuts.items) }
    ensures offsets { OnOk result (All (specs.MayBegin text.now) statements.new.offsets.items) }
{
    let places = places_of(alloc, text, calls, list)?;
    let Found {
        cuts,
        kept,
        calls: indices,
    } = found_in(alloc, text, calls, list.start, places.marks.as_slice())?;
    push_lists(text, calls, indices.as_slice(), lists)?;
    push_kept(kept, &mut statements.kept)?;
    push_offsets(
        text,
        calls,
        places.outside.as_slice(),
        &mut statements.offsets,
    )?;
    push_cuts(text, calls, &places, cuts, &mut statements.cuts)
}

/// Returns the list of an index.
fn list_at(text: &[u8], calls: &[CallAt], lists: &[Extent], index: usize) -> Extent
    requires within { index < length lists.now }
    requires lists { All (IsList text.now calls.now) lists.now }
    ensures { IsList text.now calls.now result }
{
    let _ = text;
    let _ = calls;
    lists[index]
}

/// Appends the statements of the list of an index, and the lists in the arguments of its calls.
fn push_list_at(
    alloc: Global,
    text: &[u8],
    calls: &[CallAt],
    index: usize,
    lists: &mut Vec<Extent>,
    statements: &mut Statements,
) -> Result<(), AllocError>
    requires calls { map macro_call_of calls.now ≡ calls_in text.now }
    requires within { index < length lists.old.items }
    requires lists { All (IsList text.now calls.now) lists.old.items }
    requires cuts { All (specs.BeginsOutside text.now) statements.old.cuts.items }
    requires offsets { All (specs.MayBegin text.now) statements.old.offsets.items }
    ensures lists { OnOk result (All (IsList text.now calls.now) lists.new.items) }
    ensures cuts { OnOk result (All (specs.BeginsOutside text.now) statements.new.cuts.items) }
    ensures offsets { OnOk result (All (specs.MayBegin text.now) statements.new.offsets.items) }
{
    let list = list_at(text, calls, lists.as_slice(), index);
    push_list(alloc, text, calls, list, lists, statements)
}

/// Appends the statements of these lists, and of those in them.
fn push_all(
    alloc: Global,
    text: &[u8],
    calls: &[CallAt],
    lists: &mut Vec<Extent>,
    statements: &mut Statements,
) -> Result<(), AllocError>
    requires calls { map macro_call_of calls.now ≡ calls_in text.now }
    requires lists { All (IsList text.now calls.now) lists.old.items }
    requires cuts { All (specs.BeginsOutside text.now) statements.old.cuts.items }
    requires offsets { All (specs.MayBegin text.now) statements.old.offsets.items }
    ensures cuts { OnOk result (All (specs.BeginsOutside text.now) statements.new.cuts.items) }
    ensures offsets { OnOk result (All (specs.MayBegin text.now) statements.new.offsets.items) }
{
    for i in 0..text.len() {
        if i >= lists.len() {
            break;
        }
        push_list_at(alloc, text, calls, i, lists, statements)?;
    }
    Ok(())
}

/// Returns the list that is the whole text.
fn whole(text: &[u8], calls: &[CallAt]) -> Extent
    ensures { IsList text.now calls.now result }
{
    let _ = calls;
    Extent {
        start: 0,
        end: text.len(),
    }
}

/// Returns the first list, alone.
fn first_list(alloc: Global, text: &[u8], calls: &[CallAt]) -> Result<Vec<Extent>, AllocError>
    ensures { IfOk result (λ v. All (IsList text.now calls.now) v.items) }
{
    let mut lists = Vec::new(alloc);
    push_one(text, calls, whole(text, calls), &mut lists)?;
    Ok(lists)
}

/// Puts statements in order of their offsets.
#[tactic(auto, using(crate::proofs::Listed::in_order))]
fn put_in_order(text: &[u8], cuts: &mut Vec<StatementCut>) -> Result<(), AllocError>
    requires { All (specs.BeginsOutside text.now) cuts.old.items }
    ensures { OnOk result (All (specs.BeginsOutside text.now) cuts.new.items) }
{
    let _ = text;
    cuts.sort_by_key(|cut| cut.start())
}

/// Returns the statements of a source with these calls.
///
/// # Errors
///
/// Fails only if memory runs out.
pub fn statements_in(alloc: Global, text: &[u8], calls: &[CallAt]) -> Result<Statements, AllocError>
    // The calls are those of the text.
    requires calls { map macro_call_of calls.now ≡ calls_in text.now }
    // Each statement that may be rewritten begins outside quotes, substitutions, comments and
    // here-documents.
    ensures outside { IfOk result (λ s. All (specs.BeginsOutside text.now) s.cuts.items) }
    // A statement may begin at each of the offsets.
    ensures offsets { IfOk result (λ s. All (specs.MayBegin text.now) s.offsets.items) }
{
    let mut lists = first_list(alloc, text, calls)?;
    let mut statements = Statements {
        cuts: Vec::new(alloc),
        kept: Vec::new(alloc),
        offsets: Vec::new(alloc),
    };
    push_all(alloc, text, calls, &mut lists, &mut statements)?;
    put_in_order(text, &mut statements.cuts)?;
    put_offsets_in_order(text, &mut statements.offsets)?;
    Ok(statements)
}

/// Returns the statements of a source with these calls that may be rewritten, in order of their
/// offsets. Each is one in which no compound statement of a shell is.
///
/// # Errors
///
/// Fails only if memory runs out.
pub fn cuts_in(
    alloc: Global,
    text: &[u8],
    calls: &[CallAt],
) -> Result<Vec<StatementCut>, AllocError>
    // The calls are those of the text.
    requires calls { map macro_call_of calls.now ≡ calls_in text.now }
    // Each statement begins outside quotes, substitutions, comments and here-documents.
    ensures outside { IfOk result (λ v. All (specs.BeginsOutside text.now) v.items) }
{
    let Statements { cuts, .. } = statements_in(alloc, text, calls)?;
    Ok(cuts)
}
