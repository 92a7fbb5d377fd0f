//! The changes of the statements of a text that become calls.

ghost use Rattle.std.specs.Prelude.{◌≡◌, ◌++◌, false, All, IfOk, IfSome};
ghost use Rattle.port_breaks.specs.Breaks.{IsMade};
ghost use Rattle.port_compounds.specs.Guards.{ReadsStatus};
ghost use Rattle.port_edits.specs.Edits.{change_of};
ghost use Rattle.port_statements.specs.Statements.{BeginsOutside, MayBegin};
ghost use Rattle.port_shell.specs.Formed as specs;

use crate::noting::note_for;
use crate::puts::put_for;
use ac_calls::calls_of;
use port_compounds::reads_status;
use port_edits::{Edit, edited};
use port_idioms::Idioms;
use port_statements::{StatementCut, cuts_in, drawing_in};
use std::alloc::{AllocError, Global};

/// Returns a note and what is put.
fn noted_put(note: Vec<u8>, put: &[u8]) -> Result<Vec<u8>, AllocError>
    ensures { IfOk result (λ v. v.items ≡ note.items ++ put.now) }
{
    let mut out = note;
    out.extend_from_slice(put)?;
    Ok(out)
}

/// Returns the change of a statement with the note that it needs, unless that can't be written.
fn noted_edit(
    alloc: Global,
    idioms: Idioms,
    drawing: &[usize],
    text: &[u8],
    change: &Edit,
) -> Result<Option<Edit>, AllocError>
    requires begins { MayBegin text.now change.now.start }
    requires put { specs.MayPut text.now change.now.start change.now.end change.now.put.items }
    ensures { IfOk result (λ o. IfSome o (λ e. specs.IsEdit idioms text.now (change_of e))) }
{
    let Edit { start, end, put } = change;
    let Some(note) = note_for(alloc, idioms, drawing, text, *start, *end)? else {
        return Ok(None);
    };
    let put = noted_put(note, put.as_slice())?;
    Ok(Some(Edit {
        start: *start,
        end: *end,
        put,
    }))
}

/// Returns the change of a statement, if something takes its place, and if it begins after what was
/// read.
#[tactic(auto, using(crate::proofs::Steps::begins_at))]
fn edit_of(
    alloc: Global,
    idioms: Idioms,
    drawing: &[usize],
    text: &[u8],
    cut: &StatementCut,
    reads: bool,
    read: usize,
) -> Result<Option<Edit>, AllocError>
    requires begins { BeginsOutside text.now cut.now }
    requires reads { reads ≡ false → ReadsStatus text.now → ⊥ }
    ensures { IfOk result (λ o. IfSome o (λ e. specs.IsEdit idioms text.now (change_of e))) }
{
    if cut.start() < read {
        return Ok(None);
    }
    match put_for(alloc, text, cut, reads)? {
        Some(change) => noted_edit(alloc, idioms, drawing, text, &change),
        None => Ok(None),
    }
}

/// Returns how much of a text was read after changes of it.
fn end_of(edits: &[Edit]) -> usize {
    match edits.last() {
        Some(edit) => edit.end,
        None => 0,
    }
}

/// Appends a change, if there is one that begins where the last one ends or after that.
pub(crate) fn push_edit(
    idioms: Idioms,
    text: &[u8],
    edit: Option<Edit>,
    edits: &mut Vec<Edit>,
) -> Result<(), AllocError>
    requires edit { IfSome edit (λ e. specs.IsEdit idioms text.now (change_of e)) }
    requires edits { All (λ e. specs.IsEdit idioms text.now (change_of e)) edits.old.items }
    ensures { All (λ e. specs.IsEdit idioms text.now (change_of e)) edits.new.items }
{
    let _ = idioms;
    let _ = text;
    match edit {
        Some(edit) if end_of(edits.as_slice()) <= edit.start => edits.push(edit)?,
        _ => {}
    }
    Ok(())
}

/// Returns the changes of the statements that were found. One that begins in what another one
/// changes is left.
fn edits_of(
    alloc: Global,
    idioms: Idioms,
    drawing: &[usize],
    text: &[u8],
    cuts: &[StatementCut],
) -> Result<Vec<Edit>, AllocError>
    requires { All (BeginsOutside text.now) cuts.now }
    ensures { IfOk result (λ v. All (λ e. specs.IsEdit idioms text.now (change_of e)) v.items) }
{
    let reads = reads_status(text);
    let mut edits = Vec::new(alloc);
    for i in 0..cuts.len() {
        let read = end_of(edits.as_slice());
        let edit = edit_of(alloc, idioms, drawing, text, &cuts[i], reads, read)?;
        push_edit(idioms, text, edit, &mut edits)?;
    }
    Ok(edits)
}

/// Returns the text with these changes, or `None` if there are none.
pub(crate) fn changed(
    alloc: Global,
    idioms: Idioms,
    text: &[u8],
    edits: &[Edit],
) -> Result<Option<Vec<u8>>, AllocError>
    requires { All (λ e. specs.IsEdit idioms text.now (change_of e)) edits.now }
    ensures { IfOk result (λ o. IfSome o (λ v. IsMade (specs.IsEdit idioms text.now) text.now v.items)) }
{
    let _ = idioms;
    if edits.is_empty() {
        return Ok(None);
    }
    let out = edited(alloc, text, edits)?;
    Ok(Some(out))
}

/// Returns the text with each statement rewritten that has no other one in it, or `None` if there
/// is none.
pub(crate) fn formed_once(
    alloc: Global,
    idioms: Idioms,
    text: &[u8],
) -> Result<Option<Vec<u8>>, AllocError>
    ensures { IfOk result (λ o. IfSome o (λ v. IsMade (specs.IsEdit idioms text.now) text.now v.items)) }
{
    let calls = calls_of(alloc, text)?;
    let cuts = cuts_in(alloc, text, calls.as_slice())?;
    let drawing = drawing_in(alloc, text, calls.as_slice())?;
    let edits = edits_of(alloc, idioms, drawing.as_slice(), text, cuts.as_slice())?;
    changed(alloc, idioms, text, edits.as_slice())
}
