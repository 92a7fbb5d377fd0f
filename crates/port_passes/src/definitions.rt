//! Writes out the macros without parameters that the source defines.

ghost use Rattle.std.specs.Prelude.{◌≡◌, map, Contains, OnOk};
ghost use Rattle.ac_calls.specs.Calls.{calls_in, macro_call_of};
ghost use Rattle.port_definitions.specs.Defined as specs;
ghost use Rattle.port_definitions.specs.Unused.{DefinesUnused};
ghost use Rattle.port_passes.specs.Rewritten as rewritten;

use ac_calls::CallAt;
use port_definitions::{
    UseSpot, argument, body_of, inner, is_name_at, is_unused_definition, is_used,
};
use port_edits::{Pass, write_change};
use port_idioms::Idioms;
use port_spots::Known;
use std::alloc::AllocError;

/// How long the text is at most before a body that is written out.
const FARTHEST: usize = 200_000;

/// Writes a body in the place of a name at an offset, unless that is not after what was read, or
/// another text is there.
fn put_body(
    idioms: Idioms,
    text: &[u8],
    d: &CallAt,
    at: usize,
    name: &[u8],
    body: &[u8],
    pass: &mut Pass,
) -> Result<(), AllocError>
    requires defined { Contains (calls_in text.now) (macro_call_of d.now) }
    requires defines { specs.Defines text.now (macro_call_of d.now) name.now body.now }
    requires begun { rewritten.IsPass idioms text.now pass.old.at pass.old.out.items }
    ensures { OnOk result (rewritten.IsPass idioms text.now pass.new.at pass.new.out.items) }
{
    let _ = idioms;
    if at < pass.at || at < d.end || text.len() < at || !is_name_at(text, at, name) {
        return Ok(());
    }
    write_change(text, at, at + name.len(), body, pass)
}

/// Writes the body of a macro in the place of its name at an offset.
fn put_use(
    idioms: Idioms,
    text: &[u8],
    d: &CallAt,
    at: usize,
    name: &[u8],
    pass: &mut Pass,
) -> Result<(), AllocError>
    requires defined { Contains (calls_in text.now) (macro_call_of d.now) }
    requires begun { rewritten.IsPass idioms text.now pass.old.at pass.old.out.items }
    ensures { OnOk result (rewritten.IsPass idioms text.now pass.new.at pass.new.out.items) }
{
    match body_of(text, d, name) {
        Some(body) => put_body(idioms, text, d, at, name, body, pass),
        None => Ok(()),
    }
}

/// Writes the body of the macro that a call defines in the place of its name at an offset.
fn pass_name(
    idioms: Idioms,
    text: &[u8],
    d: &CallAt,
    at: usize,
    pass: &mut Pass,
) -> Result<(), AllocError>
    requires defined { Contains (calls_in text.now) (macro_call_of d.now) }
    requires begun { rewritten.IsPass idioms text.now pass.old.at pass.old.out.items }
    ensures { OnOk result (rewritten.IsPass idioms text.now pass.new.at pass.new.out.items) }
{
    match argument(d, 0) {
        Some(title) => put_use(idioms, text, d, at, inner(text, title), pass),
        None => Ok(()),
    }
}

/// Writes the body of a macro in the place of its name.
fn pass_spot(
    idioms: Idioms,
    text: &[u8],
    calls: &[CallAt],
    spot: UseSpot,
    pass: &mut Pass,
) -> Result<(), AllocError>
    requires calls { map macro_call_of calls.now ≡ calls_in text.now }
    requires begun { rewritten.IsPass idioms text.now pass.old.at pass.old.out.items }
    ensures { OnOk result (rewritten.IsPass idioms text.now pass.new.at pass.new.out.items) }
{
    if spot.index < calls.len() && pass.out.len() <= FARTHEST {
        return pass_name(idioms, text, &calls[spot.index], spot.at, pass);
    }
    Ok(())
}

/// Writes the bodies of macros without parameters that the source defines in the place of their
/// names.
pub fn pass_spots(
    idioms: Idioms,
    text: &[u8],
    calls: &[CallAt],
    uses: &[UseSpot],
    pass: &mut Pass,
) -> Result<(), AllocError>
    requires calls { map macro_call_of calls.now ≡ calls_in text.now }
    requires begun { rewritten.IsPass idioms text.now pass.old.at pass.old.out.items }
    ensures { OnOk result (rewritten.IsPass idioms text.now pass.new.at pass.new.out.items) }
{
    for i in 0..uses.len() {
        pass_spot(idioms, text, calls, uses[i], pass)?;
    }
    Ok(())
}

/// Leaves out a definition, unless it is not after what was read.
fn drop_definition(
    idioms: Idioms,
    text: &[u8],
    d: &CallAt,
    name: &[u8],
    body: &[u8],
    pass: &mut Pass,
) -> Result<(), AllocError>
    requires defined { Contains (calls_in text.now) (macro_call_of d.now) }
    requires defines { specs.Defines text.now (macro_call_of d.now) name.now body.now }
    requires unused { specs.IsUnused text.now (macro_call_of d.now).end name.now }
    requires begun { rewritten.IsPass idioms text.now pass.old.at pass.old.out.items }
    ensures { OnOk result (rewritten.IsPass idioms text.now pass.new.at pass.new.out.items) }
{
    let _ = idioms;
    let _ = name;
    let _ = body;
    if d.start < pass.at || d.end < d.start || text.len() < d.end {
        return Ok(());
    }
    write_change(text, d.start, d.end, b"", pass)
}

/// Leaves out the definition of a macro whose name is nowhere after it.
fn pass_definition(
    idioms: Idioms,
    text: &[u8],
    d: &CallAt,
    name: &[u8],
    pass: &mut Pass,
) -> Result<(), AllocError>
    requires defined { Contains (calls_in text.now) (macro_call_of d.now) }
    requires begun { rewritten.IsPass idioms text.now pass.old.at pass.old.out.items }
    ensures { OnOk result (rewritten.IsPass idioms text.now pass.new.at pass.new.out.items) }
{
    if is_used(text, d.end, name) {
        return Ok(());
    }
    match body_of(text, d, name) {
        Some(body) => drop_definition(idioms, text, d, name, body, pass),
        None => Ok(()),
    }
}

/// Leaves out the definition of a macro that nothing calls, unless it is not after what was read.
fn drop_unused(
    idioms: Idioms,
    text: &[u8],
    d: &CallAt,
    name: &[u8],
    pass: &mut Pass,
) -> Result<(), AllocError>
    requires defined { Contains (calls_in text.now) (macro_call_of d.now) }
    requires unused { DefinesUnused text.now (macro_call_of d.now) name.now }
    requires begun { rewritten.IsPass idioms text.now pass.old.at pass.old.out.items }
    ensures { OnOk result (rewritten.IsPass idioms text.now pass.new.at pass.new.out.items) }
{
    let _ = idioms;
    let _ = name;
    if d.start < pass.at || d.end < d.start || text.len() < d.end {
        return Ok(());
    }
    write_change(text, d.start, d.end, b"", pass)
}

/// Leaves out the definition of a macro, if nothing calls it.
fn pass_unused(
    idioms: Idioms,
    text: &[u8],
    d: &CallAt,
    name: &[u8],
    pass: &mut Pass,
) -> Result<(), AllocError>
    requires defined { Contains (calls_in text.now) (macro_call_of d.now) }
    requires begun { rewritten.IsPass idioms text.now pass.old.at pass.old.out.items }
    ensures { OnOk result (rewritten.IsPass idioms text.now pass.new.at pass.new.out.items) }
{
    if is_unused_definition(text, d, name) {
        return drop_unused(idioms, text, d, name, pass);
    }
    Ok(())
}

/// Leaves out the definition of a macro whose body is written out wherever its name is, or, if it
/// isn't, of one that nothing calls.
fn pass_named(
    idioms: Idioms,
    text: &[u8],
    d: &CallAt,
    is_written: bool,
    name: &[u8],
    pass: &mut Pass,
) -> Result<(), AllocError>
    requires defined { Contains (calls_in text.now) (macro_call_of d.now) }
    requires begun { rewritten.IsPass idioms text.now pass.old.at pass.old.out.items }
    ensures { OnOk result (rewritten.IsPass idioms text.now pass.new.at pass.new.out.items) }
{
    if is_written {
        pass_definition(idioms, text, d, name, pass)
    } else {
        pass_unused(idioms, text, d, name, pass)
    }
}

/// Leaves out the definition of a macro without parameters whose name is nowhere after it, or of
/// one that nothing calls.
pub fn pass_defined(
    idioms: Idioms,
    known: &Known,
    text: &[u8],
    first: usize,
    call: &CallAt,
    pass: &mut Pass,
) -> Result<(), AllocError>
    requires call { Contains (calls_in text.now) (macro_call_of call.now) }
    requires begun { rewritten.IsPass idioms text.now pass.old.at pass.old.out.items }
    ensures { OnOk result (rewritten.IsPass idioms text.now pass.new.at pass.new.out.items) }
{
    let is_written = known.written.indices.contains(&first);
    if !is_written && !known.written.unused.contains(&first) {
        return Ok(());
    }
    match argument(call, 0) {
        Some(title) => pass_named(idioms, text, call, is_written, inner(text, title), pass),
        None => Ok(()),
    }
}
