//! The changes of the lines of a text, in which commands become messages or assignments.

ghost use Rattle.std.specs.Prelude.{◌≡◌, All, IfOk, IfSome};
ghost use Rattle.port_edits.specs.Edits.{change_of};
ghost use Rattle.port_statements.specs.Statements.{BeginsOutside, MayBegin};
ghost use Rattle.port_messages.specs.Told as specs;

use crate::lines::{Line, noted};
use crate::setting::silenced;
use crate::speaking::spoken;
use ac_calls::calls_of;
use lint_text::{line_end, line_start};
use port_echo::line_command;
use port_edits::{Edit, edited};
use port_statements::{StatementCut, cuts_in};
use std::alloc::{AllocError, Global};

/// Returns what takes the place of a command, if there is something.
fn line_for(alloc: Global, command: &[u8]) -> Result<Option<Line>, AllocError>
    ensures { IfOk result (λ o.
        IfSome o (λ l. specs.Becomes command.now l.said.now l.put.items)) }
{
    match spoken(alloc, command)? {
        Some(line) => Ok(Some(line)),
        None => silenced(alloc, command),
    }
}

/// Returns the change of the line of a command at an offset, if it has nothing else, and if
/// something takes the place of the command.
fn edit_at(alloc: Global, text: &[u8], at: usize) -> Result<Option<Edit>, AllocError>
    requires { MayBegin text.now at }
    ensures { IfOk result (λ o. IfSome o (λ e. specs.IsNoted text.now (change_of e))) }
{
    let start = line_start(text, at);
    let end = line_end(text, at);
    let Some(command) = line_command(text, start, at, end) else {
        return Ok(None);
    };
    let Some(line) = line_for(alloc, command)? else {
        return Ok(None);
    };
    let put = noted(alloc, &text[start..at], &line)?;
    Ok(Some(Edit { start, end, put }))
}

/// Returns the change of a statement, if that is a line with a command.
fn edit_of(alloc: Global, text: &[u8], cut: &StatementCut) -> Result<Option<Edit>, AllocError>
    requires { BeginsOutside text.now cut.now }
    ensures { IfOk result (λ o. IfSome o (λ e. specs.IsNoted text.now (change_of e))) }
{
    match cut {
        StatementCut::Line(at) => edit_at(alloc, text, *at),
        _ => Ok(None),
    }
}

/// Appends a change, if there is one.
fn push_edit(text: &[u8], edit: Option<Edit>, edits: &mut Vec<Edit>) -> Result<(), AllocError>
    requires edit { IfSome edit (λ e. specs.IsNoted text.now (change_of e)) }
    requires edits { All (λ e. specs.IsNoted text.now (change_of e)) edits.old.items }
    ensures { All (λ e. specs.IsNoted text.now (change_of e)) edits.new.items }
{
    let _ = text;
    if let Some(edit) = edit {
        edits.push(edit)?;
    }
    Ok(())
}

/// Returns the changes of the lines of these statements.
fn edits_of(alloc: Global, text: &[u8], cuts: &[StatementCut]) -> Result<Vec<Edit>, AllocError>
    requires { All (BeginsOutside text.now) cuts.now }
    ensures { IfOk result (λ v. All (λ e. specs.IsNoted text.now (change_of e)) v.items) }
{
    let mut edits = Vec::new(alloc);
    for i in 0..cuts.len() {
        let edit = edit_of(alloc, text, &cuts[i])?;
        push_edit(text, edit, &mut edits)?;
    }
    Ok(edits)
}

/// Returns the changes of the lines of a text.
fn edits_in(alloc: Global, text: &[u8]) -> Result<Vec<Edit>, AllocError>
    ensures { IfOk result (λ v. All (λ e. specs.IsNoted text.now (change_of e)) v.items) }
{
    let calls = calls_of(alloc, text)?;
    let cuts = cuts_in(alloc, text, calls.as_slice())?;
    edits_of(alloc, text, cuts.as_slice())
}

/// Returns whether something takes the place of a command, if it has a line of its own.
pub(crate) fn is_rewritten(alloc: Global, command: &[u8]) -> Result<bool, AllocError> {
    let edits = edits_in(alloc, command)?;
    Ok(!edits.is_empty())
}

/// Returns the text with what takes the place of the commands in it that have a line of their own.
pub(crate) fn told_alone(alloc: Global, text: &[u8]) -> Result<Vec<u8>, AllocError>
    ensures { IfOk result (λ v. specs.IsTold text.now v.items) }
{
    let edits = edits_in(alloc, text)?;
    let out = edited(alloc, text, edits.as_slice())?;
    Ok(out)
}
