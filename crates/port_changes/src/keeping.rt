//! What calls say to readers alone, which is kept as comments.

ghost use Rattle.std.specs.Prelude.{◌≡◌, ◌++◌, ◌||◌, map, bytes_eq, codes, IfOk, IfSome, OnOk};
ghost use Rattle.std.specs.List.{flat_map};
ghost use Rattle.ac_calls.specs.Calls.{macro_call_of};
ghost use Rattle.port_spots.specs.Put as specs;

use ac_calls::CallAt;
use lint_text::part;
use port_idioms::text_of;
use port_spots::name_of;
use std::alloc::{AllocError, Global};
use text_cut::parts;

/// What a line of comment begins with.
const FRONT: &[u8] = b"dnl ";

/// Returns whether a macro of this name says something to readers alone.
fn is_for_readers(name: &[u8]) -> bool
    ensures { result
        ≡ (bytes_eq name.now (codes "AC_COPYRIGHT") || bytes_eq name.now (codes "AC_REVISION")) }
{
    name == b"AC_COPYRIGHT".as_slice() || name == b"AC_REVISION".as_slice()
}

/// Returns the text that a call says to readers alone, if it says one and that is known.
pub(crate) fn said_by<'a>(text: &'a [u8], call: &CallAt) -> Option<&'a [u8]>
    ensures { IfSome result (λ t. specs.Says text.now (macro_call_of call.now) t.now) }
{
    if !is_for_readers(name_of(text, call)) {
        return None;
    }
    match call.args.as_slice().split_first() {
        Some((arg, _)) => text_of(part(text, arg.start, arg.end)),
        None => None,
    }
}

/// Appends a line of comment, a newline and the indent.
fn put_line(out: &mut Vec<u8>, line: &[u8], indent: &[u8]) -> Result<(), AllocError>
    ensures { OnOk result (
        out.new.items ≡ out.old.items ++ specs.comment_line indent.now line.now) }
{
    out.extend_from_slice(FRONT)?;
    out.extend_from_slice(line)?;
    out.push(b'\n')?;
    out.extend_from_slice(indent)
}

/// Appends lines of comment, each with a newline and the indent after it.
fn put_lines(out: &mut Vec<u8>, lines: &[&[u8]], indent: &[u8]) -> Result<(), AllocError>
    ensures { OnOk result (
        out.new.items
        ≡ out.old.items
        ++ flat_map (specs.comment_line indent.now) (map (λ line. line.now) lines.now)) }
{
    for line in lines {
        put_line(out, line, indent)?;
    }
    Ok(())
}

/// Appends the lines of a text as comments, each with a newline and the indent after it.
#[tactic(auto, unfolding(port_spots::specs::Put::comment_of))]
pub(crate) fn put_comment(
    alloc: Global,
    out: &mut Vec<u8>,
    said: &[u8],
    indent: &[u8],
) -> Result<(), AllocError>
    ensures { OnOk result (
        out.new.items ≡ out.old.items ++ specs.comment_of indent.now said.now) }
{
    let lines = parts(alloc, said, b'\n')?;
    put_lines(out, lines.as_slice(), indent)
}

/// Returns the lines of a text as comments, each with a newline and the indent after it.
pub(crate) fn comment_of(alloc: Global, said: &[u8], indent: &[u8]) -> Result<Vec<u8>, AllocError>
    ensures { IfOk result (λ v. v.items ≡ specs.comment_of indent.now said.now) }
{
    let mut out = Vec::new(alloc);
    put_comment(alloc, &mut out, said, indent)?;
    Ok(out)
}
