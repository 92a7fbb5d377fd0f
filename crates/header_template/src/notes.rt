//! The descriptions in the calls of a source.

ghost use Rattle.std.specs.Prelude.{◌≡◌, ◌++◌, [], ◌∷◌, map, IfOk, OnOk};
ghost use Rattle.m4quote.specs.Scan.{used, bare_value_of};
ghost use Rattle.ac_calls.specs.Calls.{macro_call_of};
ghost use Rattle.header_template.specs.Notes as specs;

use ac_calls::{CallAt, Extent};
use deftable::Bytes;
use lint_text::part;
use m4quote::{QuoteFault, bare_value, used_text};
use std::alloc::{AllocError, Global};

/// Returns whether the macro defines a name.
fn is_define(name: &[u8]) -> bool
    ensures { result ≡ specs.is_define name.now }
{
    name == b"AC_DEFINE".as_slice() || name == b"AC_DEFINE_UNQUOTED".as_slice()
}

/// Returns the used text of an argument, or an empty text if its quotes have an error.
fn name_in(alloc: Global, argument: &[u8]) -> Result<Bytes, AllocError>
    ensures { IfOk result (λ t. t ≡ specs.text_or_none (used argument.now)) }
{
    match used_text(alloc, argument) {
        Ok(text) => Ok(Bytes::from_vec(text)),
        Err(QuoteFault::OutOfMemory) => Err(AllocError),
        Err(_) => Ok(Bytes::new(alloc)),
    }
}

/// Returns an argument without its quotes, or an empty text if they have an error.
fn description_in(alloc: Global, argument: &[u8]) -> Result<Bytes, AllocError>
    ensures { IfOk result (λ t. t ≡ specs.text_or_none (bare_value_of argument.now)) }
{
    match bare_value(alloc, argument) {
        Ok(text) => Ok(Bytes::from_vec(text)),
        Err(QuoteFault::OutOfMemory) => Err(AllocError),
        Err(_) => Ok(Bytes::new(alloc)),
    }
}

/// Adds the entry of a name and a description, as they are in the source.
fn add_note(
    alloc: Global,
    name: &[u8],
    description: &[u8],
    notes: &mut Vec<(Bytes, Bytes)>,
) -> Result<(), AllocError>
    ensures { OnOk result (
        notes.new.items ≡ notes.old.items ++ specs.note_of name.now description.now ∷ []) }
{
    let entry = (name_in(alloc, name)?, description_in(alloc, description)?);
    notes.push(entry)?;
    Ok(())
}

/// Adds the entry of a call with these arguments.
fn add_by(
    alloc: Global,
    text: &[u8],
    args: &[Extent],
    notes: &mut Vec<(Bytes, Bytes)>,
) -> Result<(), AllocError>
    ensures { OnOk result (notes.new.items ≡ notes.old.items ++ specs.note_by text.now args.now) }
{
    if let [name, _, description] = args {
        let name = part(text, name.start, name.end);
        let description = part(text, description.start, description.end);
        return add_note(alloc, name, description, notes);
    }
    Ok(())
}

/// Adds the entry of a call, if its macro defines a name.
fn add_call(
    alloc: Global,
    text: &[u8],
    call: &CallAt,
    notes: &mut Vec<(Bytes, Bytes)>,
) -> Result<(), AllocError>
    ensures { OnOk result (
        notes.new.items ≡ notes.old.items ++ specs.note_in text.now (macro_call_of call.now)) }
{
    if is_define(part(text, call.start, call.name_end)) {
        return add_by(alloc, text, &call.args, notes);
    }
    Ok(())
}

/// Returns the entries of the calls, in order.
pub(crate) fn notes_in(
    alloc: Global,
    text: &[u8],
    calls: &[CallAt],
) -> Result<Vec<(Bytes, Bytes)>, AllocError>
    ensures { IfOk result (λ v.
        v.items ≡ specs.notes_in text.now (map macro_call_of calls.now)) }
{
    let mut notes = Vec::new(alloc);
    for call in calls {
        add_call(alloc, text, call, &mut notes)?;
    }
    Ok(notes)
}
