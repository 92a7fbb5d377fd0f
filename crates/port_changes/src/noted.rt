//! What calls become below a comment.

ghost use Rattle.std.specs.Prelude.{◌≡◌, Some, [], true, IfOk, IfSome};
ghost use Rattle.std.specs.List.{list_all};
ghost use Rattle.ac_calls.specs.Calls.{macro_call_of};
ghost use Rattle.port_idioms.specs.Rows.{Differs};
ghost use Rattle.port_spots.specs.Put as specs;

use crate::changes::{Change, can_be_left_out, end_line};
use crate::keeping::{put_comment, said_by};
use crate::noting::noted_text;
use crate::readers::next_line;
use ac_calls::CallAt;
use port_idioms::{Other, other_of};
use port_spots::{Known, Spot, can_be_noted, count_of, joins_next_line, line_indent, name_of};
use std::alloc::{AllocError, Global};

/// Returns what is put in the place of a call below a comment, with a newline after it if it would be
/// joined to the next line.
fn noted_apart(
    text: &[u8],
    indent: &[u8],
    call: &CallAt,
    put: Vec<u8>,
) -> Result<Vec<u8>, AllocError>
    requires indent { list_all specs.is_space_or_return indent.now ≡ true }
    requires put { specs.IsNoted text.now (macro_call_of call.now) put.items }
    ensures { IfOk result (λ v. specs.IsNoted text.now (macro_call_of call.now) v.items) }
{
    if joins_next_line(text, call) {
        let mut out = put;
        end_line(&mut out, indent)?;
        Ok(out)
    } else {
        Ok(put)
    }
}

/// Returns the idiom of a call that differs from the macro, if it has one.
#[tactic(auto, unfolding(port_spots::specs::Put::put_for))]
fn other_for(
    alloc: Global,
    known: &Known,
    text: &[u8],
    call: &CallAt,
) -> Result<Option<Other>, AllocError>
    ensures put { IfOk result (λ o.
        IfSome o (λ e. specs.put_for text.now (macro_call_of call.now) ≡ Some e.idiom.now)) }
    ensures said { IfOk result (λ o.
        IfSome o (λ e.
        Differs (specs.row_name text.now (macro_call_of call.now))
        (specs.count_of text.now (macro_call_of call.now).args) e.said.now)) }
{
    let count = count_of(text, call.args.as_slice());
    other_of(alloc, &known.index, name_of(text, call), count)
}

/// Returns what is put in the place of a call below a comment, with what the call says to readers
/// after it, as a comment.
fn with_comment(
    alloc: Global,
    text: &[u8],
    indent: &[u8],
    call: &CallAt,
    said: &[u8],
    put: Vec<u8>,
) -> Result<Vec<u8>, AllocError>
    requires dropped { specs.put_for text.now (macro_call_of call.now) ≡ Some [] }
    requires said { specs.Says text.now (macro_call_of call.now) said.now }
    requires indent { list_all specs.is_space_or_return indent.now ≡ true }
    requires put { specs.IsNoted text.now (macro_call_of call.now) put.items }
    ensures { IfOk result (λ v. specs.IsNoted text.now (macro_call_of call.now) v.items) }
{
    let mut out = put;
    put_comment(alloc, &mut out, said, indent)?;
    Ok(out)
}

/// Returns what is put in the place of a call below a comment, with the command `:` after it.
fn with_colon(text: &[u8], call: &CallAt, put: Vec<u8>) -> Result<Vec<u8>, AllocError>
    requires dropped { specs.put_for text.now (macro_call_of call.now) ≡ Some [] }
    requires put { specs.IsNoted text.now (macro_call_of call.now) put.items }
    ensures { IfOk result (λ v. specs.IsNoted text.now (macro_call_of call.now) v.items) }
{
    let mut out = put;
    out.push(b':')?;
    Ok(out)
}

/// Returns what is put in the place of a call below a comment, with the command `:` on a line of its
/// own after it.
fn with_command(
    text: &[u8],
    indent: &[u8],
    call: &CallAt,
    put: Vec<u8>,
) -> Result<Vec<u8>, AllocError>
    requires dropped { specs.put_for text.now (macro_call_of call.now) ≡ Some [] }
    requires indent { list_all specs.is_space_or_return indent.now ≡ true }
    requires put { specs.IsNoted text.now (macro_call_of call.now) put.items }
    ensures { IfOk result (λ v. specs.IsNoted text.now (macro_call_of call.now) v.items) }
{
    let command = with_colon(text, call, put)?;
    noted_apart(text, indent, call, command)
}

/// Returns what is put in the place of a call below a comment, with the command `:` after it unless
/// the list of commands may become empty.
fn with_idle(
    text: &[u8],
    indent: &[u8],
    call: &CallAt,
    is_idle: bool,
    put: Vec<u8>,
) -> Result<Vec<u8>, AllocError>
    requires dropped { specs.put_for text.now (macro_call_of call.now) ≡ Some [] }
    requires indent { list_all specs.is_space_or_return indent.now ≡ true }
    requires put { specs.IsNoted text.now (macro_call_of call.now) put.items }
    ensures { IfOk result (λ v. specs.IsNoted text.now (macro_call_of call.now) v.items) }
{
    if is_idle {
        Ok(put)
    } else {
        with_command(text, indent, call, put)
    }
}

/// Returns what is put in the place of a call below a comment, with what the call says to readers
/// after it, as a comment, or with a newline after an idiom that would be joined to the next line.
fn with_said(
    alloc: Global,
    text: &[u8],
    indent: &[u8],
    call: &CallAt,
    other: &Other,
    is_idle: bool,
    put: Vec<u8>,
) -> Result<Vec<u8>, AllocError>
    requires idiom { specs.put_for text.now (macro_call_of call.now) ≡ Some other.now.idiom.now }
    requires indent { list_all specs.is_space_or_return indent.now ≡ true }
    requires put { specs.IsNoted text.now (macro_call_of call.now) put.items }
    ensures { IfOk result (λ v. specs.IsNoted text.now (macro_call_of call.now) v.items) }
{
    if !other.idiom.is_empty() {
        return noted_apart(text, indent, call, put);
    }
    match said_by(text, call) {
        Some(said) => {
            let kept = with_comment(alloc, text, indent, call, said, put)?;
            with_idle(text, indent, call, is_idle, kept)
        }
        None => with_idle(text, indent, call, is_idle, put),
    }
}

/// Returns the change of a call, and of what is after it up to an offset, to an idiom below a
/// comment, unless an argument can't be put into it.
fn noted_until(
    alloc: Global,
    text: &[u8],
    indent: &[u8],
    call: &CallAt,
    other: &Other,
    is_idle: bool,
    end: usize,
) -> Result<Option<Change>, AllocError>
    requires idiom { specs.put_for text.now (macro_call_of call.now) ≡ Some other.now.idiom.now }
    requires said { Differs (specs.row_name text.now (macro_call_of call.now))
        (specs.count_of text.now (macro_call_of call.now).args) other.now.said.now }
    requires indent { list_all specs.is_space_or_return indent.now ≡ true }
    ensures { IfOk result (λ o.
        IfSome o (λ change. specs.IsNoted text.now (macro_call_of call.now) change.put.items)) }
{
    match noted_text(alloc, text, indent, call, other)? {
        Some(noted) => {
            let put = with_said(alloc, text, indent, call, other, is_idle, noted)?;
            Ok(Some(Change {
                start: call.start,
                end,
                put,
            }))
        }
        None => Ok(None),
    }
}

/// Returns the offset of the next line, if nothing is written in place of the call, the list of
/// commands may become empty, and nothing follows the call on its line.
fn line_after(text: &[u8], call: &CallAt, other: &Other, is_idle: bool) -> Option<usize> {
    if other.idiom.is_empty() && is_idle {
        next_line(text, call)
    } else {
        None
    }
}

/// Returns the change of a call to an idiom below a comment. If the idiom is nothing, the comment
/// gets the line of the call.
fn to_noted(
    alloc: Global,
    known: &Known,
    text: &[u8],
    spot: Spot,
    call: &CallAt,
    other: &Other,
) -> Result<Option<Change>, AllocError>
    requires idiom { specs.put_for text.now (macro_call_of call.now) ≡ Some other.now.idiom.now }
    requires said { Differs (specs.row_name text.now (macro_call_of call.now))
        (specs.count_of text.now (macro_call_of call.now).args) other.now.said.now }
    ensures { IfOk result (λ o.
        IfSome o (λ change. specs.IsNoted text.now (macro_call_of call.now) change.put.items)) }
{
    let is_idle = can_be_left_out(known, text, spot);
    match line_after(text, call, other, is_idle) {
        Some(end) => noted_until(alloc, text, b"", call, other, is_idle, end),
        None => {
            let indent = line_indent(text, spot);
            noted_until(alloc, text, indent, call, other, is_idle, call.end)
        }
    }
}

/// Returns the change of a call that has to go to an idiom that differs from the macro, below a
/// comment, if it has one.
pub(crate) fn noted_change(
    alloc: Global,
    known: &Known,
    text: &[u8],
    spot: Spot,
    call: &CallAt,
) -> Result<Option<Change>, AllocError>
    ensures { IfOk result (λ o.
        IfSome o (λ change. specs.IsNoted text.now (macro_call_of call.now) change.put.items)) }
{
    if !can_be_noted(known, call) {
        return Ok(None);
    }
    match other_for(alloc, known, text, call)? {
        Some(other) => to_noted(alloc, known, text, spot, call, &other),
        None => Ok(None),
    }
}
