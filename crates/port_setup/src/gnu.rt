//! Sets GCC and CFLAGS and looks for the default headers after AC_PROG_CC, if all idioms are wanted.

ghost use Rattle.std.specs.Prelude.{◌≡◌, ◌∷◌, ◌++◌, [], true, Some, slice_range, codes, Contains, IfOk, IfSome, OnOk, IsTrue};
ghost use Rattle.std.specs.List.{list_all};
ghost use Rattle.ac_calls.specs.Calls.{calls_in, macro_call_of};
ghost use Rattle.lint_macros.specs.Entries.{entry_of};
ghost use Rattle.lint_macros.specs.declared.text.TheConstants.{TABLE};
ghost use Rattle.port_idioms.specs.Rows.{put_by, Differs};
ghost use Rattle.port_idioms.specs.declared.idioms.Idioms.TheVariants.{All};
ghost use Rattle.port_spots.specs.Put.{is_space_or_return, difference, below};
ghost use Rattle.port_passes.specs.Rewritten as specs;

use crate::compiler::{flags_below, headers_below, standard_below};
use ac_calls::CallAt;
use lint_text::{from, is_word_byte, part};
use port_definitions::space_len;
use port_idioms::{Idioms, Other, is_call_of, other_of};
use port_passes::{Pass, write_change};
use port_spots::{Known, Needed, Spot, difference, line_indent, put_idiom};
use std::alloc::{AllocError, Global};

/// Returns whether a text begins with this word.
fn begins_with_word(text: &[u8], word: &[u8]) -> bool {
    text.starts_with(word) && !text.get(word.len()).is_some_and(|byte| is_word_byte(*byte))
}

/// How a source reads a variable that says whether the compiler is GNU C.
const READ: [&[u8]; 4] = [b"$GCC", b"${GCC", b"$ac_compiler_gnu", b"${ac_compiler_gnu"];

/// Returns whether a source reads such a variable.
fn reads_gnu(text: &[u8]) -> bool {
    for at in 0..text.len() {
        let rest = from(text, at);
        if READ
            .iter()
            .any(|variable| begins_with_word(rest, *variable))
        {
            return true;
        }
    }
    false
}

/// Returns whether a source sets the variable GCC.
fn sets_gnu(text: &[u8]) -> bool {
    let mut before = b' ';
    for at in 0..text.len() {
        if !is_word_byte(before) && from(text, at).starts_with(b"GCC=") {
            return true;
        }
        before = text[at];
    }
    false
}

/// Returns the offset after the first call of AC_PROG_CC, if the source reads GCC and doesn't set
/// it.
pub fn compiler_in(text: &[u8], calls: &[CallAt]) -> Option<usize> {
    if !reads_gnu(text) || sets_gnu(text) {
        return None;
    }
    for call in calls {
        if part(text, call.start, call.name_end) == b"AC_PROG_CC".as_slice() {
            return Some(call.end);
        }
    }
    None
}

/// Returns whether the call is one of AC_PROG_CC.
fn is_compiler(text: &[u8], call: &CallAt) -> bool
    ensures { IsTrue result
        → slice_range text.now (macro_call_of call.now).start (macro_call_of call.now).name_end
        ≡ codes "AC_PROG_CC" }
{
    is_call_of(text, call, b"AC_PROG_CC")
}

/// Returns what is put after a call of AC_PROG_CC, without the idiom.
fn comment_below(alloc: Global, indent: &[u8], said: &[u8]) -> Result<Vec<u8>, AllocError>
    ensures { IfOk result (λ v.
        v.items ≡ (10 ∷ indent.now) ++ difference (codes "GCC") said.now) }
{
    let mut out = Vec::new(alloc);
    out.push(b'\n')?;
    out.extend_from_slice(indent)?;
    let comment = difference(alloc, b"GCC", said)?;
    out.extend_from_slice(comment.as_slice())?;
    Ok(out)
}

/// Appends the idiom. Returns whether it could be put there.
fn put_below(
    alloc: Global,
    out: &mut Vec<u8>,
    idiom: &[u8],
    indent: &[u8],
) -> Result<bool, AllocError>
    ensures { IfOk result (λ b.
        IsTrue b → out.new.items ≡ out.old.items ++ below indent.now idiom.now []) }
{
    put_idiom(alloc, out, idiom, &[], indent)
}

/// Returns what is put after a call of AC_PROG_CC.
#[tactic(auto, using(crate::proofs::Steps::sets_gnu))]
fn gnu_text(alloc: Global, indent: &[u8], other: &Other) -> Result<Option<Vec<u8>>, AllocError>
    requires has { put_by (entry_of (codes "GCC") TABLE.now) ≡ Some other.now.idiom.now }
    requires differs { Differs (codes "GCC") 0 other.now.said.now }
    requires blank { list_all is_space_or_return indent.now ≡ true }
    ensures { IfOk result (λ o. IfSome o (λ v. specs.SetsGnu v.items)) }
{
    let mut out = comment_below(alloc, indent, other.said)?;
    if put_below(alloc, &mut out, other.idiom, indent)? {
        Ok(Some(out))
    } else {
        Ok(None)
    }
}

/// Writes a text after a call of AC_PROG_CC, unless that is not after what was read.
fn put_after(
    idioms: Idioms,
    text: &[u8],
    call: &CallAt,
    put: &[u8],
    pass: &mut Pass,
) -> Result<(), AllocError>
    requires call { Contains (calls_in text.now) (macro_call_of call.now) }
    requires all { idioms ≡ All }
    requires compiler { slice_range text.now (macro_call_of call.now).start (macro_call_of call.now).name_end
        ≡ codes "AC_PROG_CC" }
    requires sets { specs.SetsUp put.now }
    requires begun { specs.IsPass idioms text.now pass.old.at pass.old.out.items }
    ensures { OnOk result (specs.IsPass idioms text.now pass.new.at pass.new.out.items) }
{
    let _ = idioms;
    if call.end < pass.at || text.len() < call.end {
        return Ok(());
    }
    write_change(text, call.end, call.end, put, pass)
}

/// Sets GCC after a call of AC_PROG_CC.
fn put_gnu(
    alloc: Global,
    idioms: Idioms,
    known: &Known,
    text: &[u8],
    spot: Spot,
    call: &CallAt,
    pass: &mut Pass,
) -> Result<(), AllocError>
    requires call { Contains (calls_in text.now) (macro_call_of call.now) }
    requires all { idioms ≡ All }
    requires compiler { slice_range text.now (macro_call_of call.now).start (macro_call_of call.now).name_end
        ≡ codes "AC_PROG_CC" }
    requires begun { specs.IsPass idioms text.now pass.old.at pass.old.out.items }
    ensures { OnOk result (specs.IsPass idioms text.now pass.new.at pass.new.out.items) }
{
    let Some(other) = other_of(alloc, &known.index, b"GCC", 0)? else {
        return Ok(());
    };
    match gnu_text(alloc, line_indent(text, spot), &other)? {
        Some(put) => put_after(idioms, text, call, put.as_slice(), pass),
        None => Ok(()),
    }
}

/// Sets CFLAGS after a call of AC_PROG_CC.
fn put_flags(
    alloc: Global,
    idioms: Idioms,
    text: &[u8],
    indent: &[u8],
    call: &CallAt,
    pass: &mut Pass,
) -> Result<(), AllocError>
    requires call { Contains (calls_in text.now) (macro_call_of call.now) }
    requires all { idioms ≡ All }
    requires compiler { slice_range text.now (macro_call_of call.now).start (macro_call_of call.now).name_end
        ≡ codes "AC_PROG_CC" }
    requires blank { list_all is_space_or_return indent.now ≡ true }
    requires begun { specs.IsPass idioms text.now pass.old.at pass.old.out.items }
    ensures { OnOk result (specs.IsPass idioms text.now pass.new.at pass.new.out.items) }
{
    let put = flags_below(alloc, indent)?;
    put_after(idioms, text, call, put.as_slice(), pass)
}

/// Looks for the default headers after a call of AC_PROG_CC.
fn put_headers(
    alloc: Global,
    idioms: Idioms,
    text: &[u8],
    indent: &[u8],
    call: &CallAt,
    pass: &mut Pass,
) -> Result<(), AllocError>
    requires call { Contains (calls_in text.now) (macro_call_of call.now) }
    requires all { idioms ≡ All }
    requires compiler { slice_range text.now (macro_call_of call.now).start (macro_call_of call.now).name_end
        ≡ codes "AC_PROG_CC" }
    requires blank { list_all is_space_or_return indent.now ≡ true }
    requires begun { specs.IsPass idioms text.now pass.old.at pass.old.out.items }
    ensures { OnOk result (specs.IsPass idioms text.now pass.new.at pass.new.out.items) }
{
    let put = headers_below(alloc, indent)?;
    put_after(idioms, text, call, put.as_slice(), pass)
}

/// Defines STDC_HEADERS after a call of AC_PROG_CC.
fn put_standard(
    alloc: Global,
    idioms: Idioms,
    text: &[u8],
    indent: &[u8],
    call: &CallAt,
    pass: &mut Pass,
) -> Result<(), AllocError>
    requires call { Contains (calls_in text.now) (macro_call_of call.now) }
    requires all { idioms ≡ All }
    requires compiler { slice_range text.now (macro_call_of call.now).start (macro_call_of call.now).name_end
        ≡ codes "AC_PROG_CC" }
    requires blank { list_all is_space_or_return indent.now ≡ true }
    requires begun { specs.IsPass idioms text.now pass.old.at pass.old.out.items }
    ensures { OnOk result (specs.IsPass idioms text.now pass.new.at pass.new.out.items) }
{
    let put = standard_below(alloc, indent)?;
    put_after(idioms, text, call, put.as_slice(), pass)
}

/// Writes the lines that are to come after a call of AC_PROG_CC, but for those that set GCC.
fn put_below_compiler(
    alloc: Global,
    idioms: Idioms,
    below: Needed,
    text: &[u8],
    indent: &[u8],
    call: &CallAt,
    pass: &mut Pass,
) -> Result<(), AllocError>
    requires call { Contains (calls_in text.now) (macro_call_of call.now) }
    requires all { idioms ≡ All }
    requires compiler { slice_range text.now (macro_call_of call.now).start (macro_call_of call.now).name_end
        ≡ codes "AC_PROG_CC" }
    requires blank { list_all is_space_or_return indent.now ≡ true }
    requires begun { specs.IsPass idioms text.now pass.old.at pass.old.out.items }
    ensures { OnOk result (specs.IsPass idioms text.now pass.new.at pass.new.out.items) }
{
    if below.flags {
        put_flags(alloc, idioms, text, indent, call, pass)?;
    }
    if below.headers {
        put_headers(alloc, idioms, text, indent, call, pass)?;
    }
    if below.standard {
        put_standard(alloc, idioms, text, indent, call, pass)?;
    }
    Ok(())
}

/// Writes the lines that are to come after a call of AC_PROG_CC.
fn put_all_below(
    alloc: Global,
    idioms: Idioms,
    known: &Known,
    text: &[u8],
    spot: Spot,
    call: &CallAt,
    pass: &mut Pass,
) -> Result<(), AllocError>
    requires call { Contains (calls_in text.now) (macro_call_of call.now) }
    requires all { idioms ≡ All }
    requires compiler { slice_range text.now (macro_call_of call.now).start (macro_call_of call.now).name_end
        ≡ codes "AC_PROG_CC" }
    requires begun { specs.IsPass idioms text.now pass.old.at pass.old.out.items }
    ensures { OnOk result (specs.IsPass idioms text.now pass.new.at pass.new.out.items) }
{
    let indent = line_indent(text, spot);
    put_below_compiler(alloc, idioms, known.below, text, indent, call, pass)?;
    if known.at_compiler == Some(call.end) {
        return put_gnu(alloc, idioms, known, text, spot, call, pass);
    }
    Ok(())
}

/// Returns whether the call is the first of AC_PROG_CC outside other calls, and has a line of its
/// own.
fn is_place(known: &Known, text: &[u8], spot: Spot, call: &CallAt) -> bool {
    let rest = from(text, call.end);
    let next = from(rest, space_len(rest)).first();
    let is_last = match next {
        Some(byte) => *byte == b'\n',
        None => true,
    };
    known.after_compiler == Some(call.end) && spot.is_at_top && spot.is_first && is_last
}

/// Sets CFLAGS, and GCC if the source reads that, and looks for the default headers after the first
/// call of AC_PROG_CC, if all idioms are wanted and the source doesn't do so itself.
pub fn pass_compiler(
    alloc: Global,
    idioms: Idioms,
    known: &Known,
    text: &[u8],
    spot: Spot,
    call: &CallAt,
    pass: &mut Pass,
) -> Result<(), AllocError>
    requires call { Contains (calls_in text.now) (macro_call_of call.now) }
    requires begun { specs.IsPass idioms text.now pass.old.at pass.old.out.items }
    ensures { OnOk result (specs.IsPass idioms text.now pass.new.at pass.new.out.items) }
{
    if !is_place(known, text, spot, call) || !is_compiler(text, call) {
        return Ok(());
    }
    match idioms {
        Idioms::Exact => Ok(()),
        Idioms::All => put_all_below(alloc, idioms, known, text, spot, call, pass),
    }
}
