//! Lines for the templates of a source, and comments about what is left to do in them.

ghost use Rattle.std.specs.Prelude.{◌≡◌, ◌≤◌, true, false, length, map, IfOk, codes};
ghost use Rattle.std.specs.List.{list_any};
ghost use Rattle.ac_calls.specs.Calls.{macro_call_of};
ghost use Rattle.lint_errors.specs.Errors.{IsAccepted};
ghost use Rattle.lint_templates.specs.Served.{lines_for, lines_for_all};
ghost use Rattle.cmd_port.specs.Served as specs;

use crate::comments::{begins, is_line_start};
use crate::templates::Templates;
use crate::whole::{Ported, whole, with_errors};
use ac_calls::{CallAt, calls_of};
use deftable::Bytes;
use lint_errors::is_accepted;
use lint_findings::Finding;
use lint_sources::Wanted;
use lint_templates::put_served;
use lint_text::{after_blanks, from, line_end, line_start, part};
use port_idioms::Idioms;
use std::alloc::{AllocError, Global};

/// Returns whether lines that differ from what Autoconf does are wanted too.
fn are_all(idioms: Idioms) -> bool
    ensures { result ≡ specs.are_all idioms }
{
    match idioms {
        Idioms::Exact => false,
        Idioms::All => true,
    }
}

/// Returns the lines that set these names.
fn lines_of_names(alloc: Global, all: bool, names: &[Bytes]) -> Result<Vec<u8>, AllocError>
    ensures { IfOk result (λ v. v.items ≡ lines_for_all all names.now) }
{
    let mut lines = Vec::new(alloc);
    for i in 0..names.len() {
        put_served(&mut lines, all, names[i].as_slice())?;
    }
    Ok(lines)
}

/// Returns the lines that set CFLAGS.
fn lines_of_flags(alloc: Global, all: bool) -> Result<Vec<u8>, AllocError>
    ensures { IfOk result (λ v. v.items ≡ lines_for all (codes "CFLAGS")) }
{
    let mut lines = Vec::new(alloc);
    put_served(&mut lines, all, b"CFLAGS")?;
    Ok(lines)
}

/// Returns whether a call is one of the macro with this name.
fn is_named(text: &[u8], name: &[u8], call: &CallAt) -> bool
    ensures { result ≡ specs.is_named text.now name.now (macro_call_of call.now) }
{
    part(text, call.start, call.name_end) == name
}

/// Returns the offset of the line of the last call of AC_OUTPUT.
fn output_place(text: &[u8], calls: &[CallAt]) -> Option<usize>
    ensures { result ≡ specs.output_place text.now (map macro_call_of calls.now) }
{
    let mut place = None;
    for call in calls {
        if is_named(text, b"AC_OUTPUT", call) {
            place = Some(line_start(text, call.start));
        }
    }
    place
}

/// Returns whether a call is in another one.
fn is_within(call: &CallAt, other: &CallAt) -> bool
    ensures { result ≡ specs.is_within (macro_call_of call.now) (macro_call_of other.now) }
{
    other.start < call.start && call.end <= other.end
}

/// Returns whether a call is in one of these.
fn is_inside(call: &CallAt, calls: &[CallAt]) -> bool
    ensures { result
        ≡ list_any (specs.is_within (macro_call_of call.now)) (map macro_call_of calls.now) }
{
    for other in calls {
        if is_within(call, other) {
            return true;
        }
    }
    false
}

/// Returns the offset of the line after a call, if it is in none of these calls.
fn line_after(text: &[u8], calls: &[CallAt], call: &CallAt) -> Option<usize>
    ensures { result
        ≡ specs.line_after text.now (map macro_call_of calls.now) (macro_call_of call.now) }
{
    if is_inside(call, calls) {
        return None;
    }
    Some(line_end(text, call.end) + 1)
}

/// Returns the offset of the line after the first call that looks for the compiler, if that is in no
/// other call.
fn compiler_place(text: &[u8], calls: &[CallAt]) -> Option<usize>
    ensures { result ≡ specs.compiler_place text.now (map macro_call_of calls.now) }
{
    for call in calls {
        if is_named(text, b"AC_PROG_CC", call) {
            return line_after(text, calls, call);
        }
    }
    None
}

/// Returns whether a line of the text begins at the offset.
fn is_line(text: &[u8], at: usize) -> bool
    ensures { result ≡ specs.is_line text.now at }
{
    at <= text.len() && is_line_start(text, at)
}

/// Returns whether a line of the text begins at the offset, and AC_OUTPUT is first in it.
fn is_output_line(text: &[u8], at: usize) -> bool
    ensures { result ≡ specs.is_output_line text.now at }
{
    is_line(text, at) && begins(after_blanks(from(text, at)), b"AC_OUTPUT")
}

/// Returns the text with lines above the line at an offset.
fn with_lines(alloc: Global, lines: &[u8], text: &[u8], at: usize) -> Result<Vec<u8>, AllocError>
    requires { at ≤ length text.now }
    ensures { IfOk result (λ v. v.items ≡ specs.with_lines lines.now text.now at) }
{
    let mut out = Vec::from_slice(alloc, &text[..at])?;
    out.extend_from_slice(lines)?;
    out.extend_from_slice(&text[at..])?;
    Ok(out)
}

/// Returns the text with lines above the line at an offset, if they may be there.
fn with_lines_if(
    alloc: Global,
    may: bool,
    lines: &[u8],
    text: &[u8],
    at: usize,
) -> Result<Vec<u8>, AllocError>
    requires { may ≡ true → at ≤ length text.now }
    ensures { IfOk result (λ v. v.items ≡ specs.with_lines_if may lines.now text.now at) }
{
    if may {
        return with_lines(alloc, lines, text, at);
    }
    Vec::from_slice(alloc, text)
}

/// Returns the text with lines that set names above the line at an offset, if AC_OUTPUT is first in
/// it.
fn with_names_at(
    alloc: Global,
    all: bool,
    names: &[Bytes],
    text: &[u8],
    place: Option<usize>,
) -> Result<Vec<u8>, AllocError>
    ensures { IfOk result (λ v. v.items ≡ specs.with_names_at all names.now text.now place) }
{
    let Some(at) = place else {
        return Vec::from_slice(alloc, text);
    };
    let lines = lines_of_names(alloc, all, names)?;
    with_lines_if(alloc, is_output_line(text, at), lines.as_slice(), text, at)
}

/// Returns the text with lines that set names above the line of its last AC_OUTPUT, if that is first
/// in it.
fn with_names(alloc: Global, all: bool, names: &[Bytes], text: &[u8]) -> Result<Vec<u8>, AllocError>
    ensures { IfOk result (λ v. v.items ≡ specs.with_names all names.now text.now) }
{
    let calls = calls_of(alloc, text)?;
    let place = output_place(text, calls.as_slice());
    with_names_at(alloc, all, names, text, place)
}

/// Returns the text with the line that sets CFLAGS above the line at an offset, if one begins there.
fn with_flags_at(
    alloc: Global,
    all: bool,
    text: &[u8],
    place: Option<usize>,
) -> Result<Vec<u8>, AllocError>
    ensures { IfOk result (λ v. v.items ≡ specs.with_flags_at all text.now place) }
{
    let Some(at) = place else {
        return Vec::from_slice(alloc, text);
    };
    let lines = lines_of_flags(alloc, all)?;
    with_lines_if(alloc, is_line(text, at), lines.as_slice(), text, at)
}

/// Returns the text with the line that sets CFLAGS below the first call that looks for the compiler,
/// if that is wanted.
fn with_flags(alloc: Global, all: bool, flags: bool, text: &[u8]) -> Result<Vec<u8>, AllocError>
    ensures { IfOk result (λ v. v.items ≡ specs.with_flags all flags text.now) }
{
    if !flags {
        return Vec::from_slice(alloc, text);
    }
    let calls = calls_of(alloc, text)?;
    let place = compiler_place(text, calls.as_slice());
    with_flags_at(alloc, all, text, place)
}

/// Returns the text with the lines that are wanted.
#[tactic(auto, unfolding(crate::specs::Served::with_wanted))]
fn with_wanted(
    alloc: Global,
    all: bool,
    wanted: &Wanted,
    text: &[u8],
) -> Result<Vec<u8>, AllocError>
    ensures { IfOk result (λ v. v.items ≡ specs.with_wanted all wanted.now text.now) }
{
    let mid = with_flags(alloc, all, wanted.flags, text)?;
    with_names(alloc, all, wanted.names.names(), mid.as_slice())
}

/// Returns the text with the lines that are wanted, if acrun accepts it with them, and otherwise the
/// text.
fn served(alloc: Global, all: bool, wanted: &Wanted, text: &[u8]) -> Result<Vec<u8>, AllocError>
    requires { IsAccepted text.now }
    ensures served { IfOk result (λ v. specs.IsServed all wanted.now text.now v.items) }
    ensures accepted { IfOk result (λ v. IsAccepted v.items) }
{
    let next = with_wanted(alloc, all, wanted, text)?;
    if is_accepted(alloc, next.as_slice())? {
        return Ok(next);
    }
    Vec::from_slice(alloc, text)
}

/// Returns the text with comments about what is left to do, or as it is if nothing is.
fn with_left(alloc: Global, text: Vec<u8>, left: &[Finding]) -> Result<Ported, AllocError>
    ensures { IfOk result (λ p. specs.IsLeftSaid left.now text.items p.has_comments p.text) }
{
    if left.is_empty() {
        return Ok(whole(text));
    }
    with_errors(alloc, text.as_slice(), left)
}

/// Returns a text that acrun accepts with the lines that its templates want, and with comments about
/// what is left to do in them.
fn finished<T: Templates>(
    alloc: Global,
    templates: &T,
    idioms: Idioms,
    text: &[u8],
) -> Result<Ported, AllocError>
    requires { IsAccepted text.now }
    ensures { IfOk result (λ p.
        specs.IsFinished (T.known templates.now) idioms text.now p.has_comments p.text) }
{
    let wanted = templates.wanted(alloc, text)?;
    let next = served(alloc, are_all(idioms), &wanted, text)?;
    let left = templates.left(alloc, next.as_slice())?;
    let ported = with_left(alloc, next, left.as_slice())?;
    Ok(ported)
}

/// Returns what a text that was rewritten becomes for its templates: if it is that of a file, and
/// nothing is left to do in itself, it gets the lines that they want, and comments about what is left
/// to do in them.
pub(crate) fn ended<T: Templates>(
    alloc: Global,
    templates: &T,
    is_stream: bool,
    idioms: Idioms,
    ported: Ported,
) -> Result<Ported, AllocError>
    requires { ported.has_comments ≡ false → IsAccepted ported.text }
    ensures { IfOk result (λ p.
        specs.IsEnded (T.known templates.now) is_stream ported.has_comments idioms ported.text
        p.has_comments p.text) }
{
    if is_stream {
        return Ok(ported);
    }
    if ported.has_comments {
        return Ok(ported);
    }
    finished(alloc, templates, idioms, ported.text.as_slice())
}
