//! Writes calls that look for programs along a path of their own, if all idioms are wanted: PATH is
//! set to that path before the call, and set back after it.

ghost use Rattle.std.specs.Prelude.{◌≡◌, ◌++◌, true, Some, length, slice_get, slice_range, codes, Contains, IfOk, IfSome, OnOk};
ghost use Rattle.std.specs.List.{list_all};
ghost use Rattle.ac_calls.specs.Calls.{calls_in, macro_call_of};
ghost use Rattle.port_idioms.specs.Filled.{text_of};
ghost use Rattle.port_idioms.specs.declared.idioms.Idioms.TheVariants.{All};
ghost use Rattle.port_spots.specs.Put.{arg_text, is_space_or_return};
ghost use Rattle.port_passes.specs.Making as made;
ghost use Rattle.port_passes.specs.Pathed as specs;
ghost use Rattle.port_passes.specs.Rewritten as rewritten;

use crate::chains::is_value_byte;
use crate::reading::{takes_words, text_in};
use ac_calls::{CallAt, Extent};
use port_definitions::argument;
use port_idioms::Idioms;
use port_passes::{Pass, can_be_made, put_made};
use port_spots::{Known, Spot, difference, line_indent, put_text};
use std::alloc::{AllocError, Global};

// ---- what is read

/// Returns whether the fourth argument of a macro of this name is a path.
fn takes_path(name: &[u8]) -> bool
    ensures { result ≡ specs.takes_path name.now }
{
    name == b"AC_PATH_PROG".as_slice()
        || name == b"AC_PATH_PROGS".as_slice()
        || name == b"AC_CHECK_PROGS".as_slice()
        || name == b"AC_PATH_TOOL".as_slice()
}

/// Returns whether the byte may be in a path.
fn is_path_byte(byte: u8) -> bool
    ensures { result ≡ specs.is_path_byte byte }
{
    is_value_byte(byte) || byte == b'$' || byte == b'{' || byte == b'}'
}

/// Returns whether a text has nothing but such bytes.
fn are_path_bytes(path: &[u8]) -> bool
    ensures { result ≡ list_all specs.is_path_byte path.now }
{
    path.iter().all(|byte| is_path_byte(*byte))
}

/// Returns whether a text may be a path.
fn is_path(path: &[u8]) -> bool
    ensures { result ≡ specs.is_path path.now }
{
    0 < path.len() && are_path_bytes(path)
}

/// Returns the path that an argument is, if it may be one.
fn path_in<'a>(
    alloc: Global,
    text: &'a [u8],
    arg: Extent,
    are_text: bool,
) -> Result<Option<&'a [u8]>, AllocError>
    ensures { IfOk result (λ o.
        IfSome o (λ p.
        (p.now ≡ text_of (Some (arg_text text.now arg))) × (specs.is_path p.now ≡ true))) }
{
    let Some(path) = text_in(alloc, text, arg, are_text)? else {
        return Ok(None);
    };
    if is_path(path) {
        Ok(Some(path))
    } else {
        Ok(None)
    }
}

/// Returns the name of the macro of a call that has four arguments, if the fourth is a path.
fn name_of<'a>(text: &'a [u8], call: &CallAt) -> Option<&'a [u8]>
    ensures name { IfSome result (λ n.
        n.now ≡ slice_range text.now (macro_call_of call.now).start (macro_call_of call.now).name_end) }
    ensures takes { IfSome result (λ n. specs.takes_path n.now ≡ true) }
    ensures four { IfSome result (λ n. length (macro_call_of call.now).args ≡ 4) }
{
    if call.name_end < call.start || text.len() < call.name_end || call.args.len() != 4 {
        return None;
    }
    let name = &text[call.start..call.name_end];
    if takes_path(name) { Some(name) } else { None }
}

// ---- what is written

/// Returns the line that keeps PATH.
fn keep() -> &'static [u8]
    ensures { result.now ≡ codes "acrun_PATH=$PATH" }
{
    b"acrun_PATH=$PATH"
}

/// Returns the line that sets PATH back.
fn set_back() -> &'static [u8]
    ensures { result.now ≡ codes "PATH=$acrun_PATH" }
{
    b"PATH=$acrun_PATH"
}

/// Returns the line that sets PATH to a path.
#[tactic(auto, unfolding(port_passes::specs::Pathed::setting))]
fn setting(alloc: Global, path: &[u8]) -> Result<Vec<u8>, AllocError>
    ensures { IfOk result (λ v. v.items ≡ specs.setting path.now) }
{
    let mut out = Vec::from_slice(alloc, b"PATH=")?;
    out.push(b'"')?;
    out.extend_from_slice(path)?;
    out.push(b'"')?;
    Ok(out)
}

/// Returns the call without its last argument, of which this is the front.
#[tactic(auto, unfolding(port_passes::specs::Pathed::shortened))]
fn shortened(alloc: Global, front: &[u8]) -> Result<Vec<u8>, AllocError>
    ensures { IfOk result (λ v. v.items ≡ specs.shortened front.now) }
{
    let mut out = Vec::from_slice(alloc, front)?;
    out.push(b')')?;
    Ok(out)
}

/// Returns what the comment says.
#[tactic(auto, unfolding(port_passes::specs::Pathed::said))]
fn said() -> &'static [u8]
    ensures { result.now ≡ specs.said }
{
    b" PATH is set to the path of the call while the program is looked for"
}

/// Appends the lines around a call of which this is the front.
fn put_lines(
    alloc: Global,
    out: &mut Vec<u8>,
    indent: &[u8],
    path: &[u8],
    front: &[u8],
) -> Result<(), AllocError>
    ensures { OnOk result (
        out.new.items
        ≡ (((out.old.items ++ specs.line indent.now (codes "acrun_PATH=$PATH"))
        ++ specs.line indent.now (specs.setting path.now))
        ++ specs.line indent.now (specs.shortened front.now))
        ++ specs.line indent.now (codes "PATH=$acrun_PATH")) }
{
    let set = setting(alloc, path)?;
    let call = shortened(alloc, front)?;
    put_text(out, indent, keep())?;
    put_text(out, indent, set.as_slice())?;
    put_text(out, indent, call.as_slice())?;
    put_text(out, indent, set_back())
}

/// Returns the lines around a call of which this is the front, below the comment.
fn pathed_lines(
    alloc: Global,
    indent: &[u8],
    name: &[u8],
    path: &[u8],
    front: &[u8],
) -> Result<Vec<u8>, AllocError>
    ensures { IfOk result (λ v.
        v.items ≡ specs.pathed_lines indent.now name.now path.now front.now) }
{
    let mut out = difference(alloc, name, said())?;
    put_lines(alloc, &mut out, indent, path, front)?;
    Ok(out)
}

// ---- both

/// Returns the lines that are put in the place of a call with these arguments, if they can be.
#[tactic(auto, using(crate::proofs::Along::pathed))]
fn pathed_in(
    alloc: Global,
    text: &[u8],
    indent: &[u8],
    call: &CallAt,
    are_text: bool,
    third: Extent,
    fourth: Extent,
) -> Result<Option<Vec<u8>>, AllocError>
    requires third { slice_get (macro_call_of call.now).args 2 ≡ Some third }
    requires fourth { slice_get (macro_call_of call.now).args 3 ≡ Some fourth }
    requires indent { list_all is_space_or_return indent.now ≡ true }
    ensures { IfOk result (λ o.
        IfSome o (λ v. specs.IsPathed text.now (macro_call_of call.now) v.items)) }
{
    let Some(name) = name_of(text, call) else {
        return Ok(None);
    };
    let Some(path) = path_in(alloc, text, fourth, are_text)? else {
        return Ok(None);
    };
    if third.end < call.start || text.len() < third.end {
        return Ok(None);
    }
    let put = pathed_lines(alloc, indent, name, path, &text[call.start..third.end])?;
    Ok(Some(put))
}

/// Returns the lines that are put in the place of a call, if it looks for a program along a path of
/// its own.
fn pathed_of(
    alloc: Global,
    text: &[u8],
    indent: &[u8],
    call: &CallAt,
    are_text: bool,
) -> Result<Option<Vec<u8>>, AllocError>
    requires { list_all is_space_or_return indent.now ≡ true }
    ensures { IfOk result (λ o.
        IfSome o (λ v. specs.IsPathed text.now (macro_call_of call.now) v.items)) }
{
    let Some(third) = argument(call, 2) else {
        return Ok(None);
    };
    let Some(fourth) = argument(call, 3) else {
        return Ok(None);
    };
    pathed_in(alloc, text, indent, call, are_text, third, fourth)
}

/// Returns the lines that are put in the place of a call, if it looks for a program along a path of
/// its own.
fn made_of(
    alloc: Global,
    text: &[u8],
    indent: &[u8],
    call: &CallAt,
    are_text: bool,
) -> Result<Option<Vec<u8>>, AllocError>
    requires { list_all is_space_or_return indent.now ≡ true }
    ensures { IfOk result (λ o.
        IfSome o (λ v. made.IsMade text.now (macro_call_of call.now) v.items)) }
{
    let lines = pathed_of(alloc, text, indent, call, are_text)?;
    Ok(lines)
}

/// Writes the lines in the place of a call that looks for a program along a path of its own.
fn put_pathed(
    alloc: Global,
    idioms: Idioms,
    text: &[u8],
    indent: &[u8],
    call: &CallAt,
    are_text: bool,
    pass: &mut Pass,
) -> Result<(), AllocError>
    requires call { Contains (calls_in text.now) (macro_call_of call.now) }
    requires all { idioms ≡ All }
    requires indent { list_all is_space_or_return indent.now ≡ true }
    requires begun { rewritten.IsPass idioms text.now pass.old.at pass.old.out.items }
    ensures { OnOk result (rewritten.IsPass idioms text.now pass.new.at pass.new.out.items) }
{
    match made_of(alloc, text, indent, call, are_text)? {
        Some(put) => put_made(idioms, text, call, put.as_slice(), pass),
        None => Ok(()),
    }
}

/// Writes the lines in the place of a call that looks for a program along a path of its own, if all
/// idioms are wanted.
pub fn pass_path(
    alloc: Global,
    idioms: Idioms,
    known: &Known,
    text: &[u8],
    spot: Spot,
    call: &CallAt,
    pass: &mut Pass,
) -> Result<(), AllocError>
    requires call { Contains (calls_in text.now) (macro_call_of call.now) }
    requires begun { rewritten.IsPass idioms text.now pass.old.at pass.old.out.items }
    ensures { OnOk result (rewritten.IsPass idioms text.now pass.new.at pass.new.out.items) }
{
    if call.args.len() != 4 || !can_be_made(known, text, spot, call) {
        return Ok(());
    }
    let indent = line_indent(text, spot);
    let are_text = takes_words(idioms, known, text, call);
    match idioms {
        Idioms::Exact => Ok(()),
        Idioms::All => put_pathed(alloc, idioms, text, indent, call, are_text, pass),
    }
}
