//! One pass over the calls of a text, each of which is replaced if it has an idiom that is wanted.

ghost use Rattle.std.specs.Prelude.{◌≡◌, ◌⊎◌, ◌≤◌, map, length, slice_range, codes, Contains, IfOk, IfSome, OnOk, IsTrue};
ghost use Rattle.ac_calls.specs.Calls.{calls_in, macro_call_of};
ghost use Rattle.port_spots.specs.Put.{MayPut};
ghost use Rattle.port_passes.specs.Rewritten as specs;

use crate::knowing::known_of;
use ac_calls::{CallAt, Extent, calls_of};
use lint_text::{from, part};
use port_changes::{Change, change_of};
use port_exchanges::{names_default, pass_cached, pass_chain, pass_first_found, pass_path};
use port_idioms::{Idioms, is_call_of, text_of};
use port_passes::{
    Pass, first_argument, is_around, lacks_version, names_variable, pass_arguments, pass_defined,
    pass_line, pass_name, pass_output, pass_plain, pass_spots, pass_words, write_change,
};
use port_setup::{pass_compiler, pass_search, pass_title};
use port_spots::{CallWalk, Known, Spot, blank_len};
use std::alloc::{AllocError, Global};

/// The old name of AS_HELP_STRING.
const OLD_HELP: &[u8] = b"AC_HELP_STRING";

/// Returns whether an argument is more than blanks and a pair of brackets.
fn is_given(text: &[u8], arg: Extent) -> bool
    ensures { IsTrue result → specs.IsGiven text.now arg }
{
    match text_of(part(text, arg.start, arg.end)) {
        Some(inner) => !inner.is_empty(),
        None => false,
    }
}

/// Returns whether the first argument of the call names something.
fn names_files(text: &[u8], call: &CallAt) -> bool
    ensures { IsTrue result → specs.NamesFiles text.now (macro_call_of call.now) }
{
    match first_argument(call) {
        Some(list) => is_given(text, list),
        None => false,
    }
}

/// Returns whether the call is AC_MSG_RESULT without an argument.
fn lacks_result(text: &[u8], call: &CallAt) -> bool
    ensures { IsTrue result → specs.LacksResult text.now (macro_call_of call.now) }
{
    is_call_of(text, call, b"AC_MSG_RESULT") && call.args.len() <= 0
}

/// Returns whether the call is AC_OUTPUT of at least one file.
fn is_output_of_files(text: &[u8], call: &CallAt) -> bool
    ensures { IsTrue result
        → (slice_range text.now (macro_call_of call.now).start (macro_call_of call.now).name_end
        ≡ codes "AC_OUTPUT")
        × specs.NamesFiles text.now (macro_call_of call.now) }
{
    is_call_of(text, call, b"AC_OUTPUT") && names_files(text, call)
}

/// Returns whether the call has to go: the table of macros doesn't have its name, or it is
/// AC_OUTPUT of at least one file, AC_INIT without a version, AC_MSG_RESULT without an argument, or
/// AC_CHECK_TYPE with a default.
fn has_to_go(text: &[u8], call: &CallAt) -> bool
    ensures { IsTrue result → specs.HasToGo text.now (macro_call_of call.now) }
{
    !call.is_of_profile
        || is_output_of_files(text, call)
        || lacks_version(text, call)
        || lacks_result(text, call)
        || names_default(text, call)
}

/// Returns whether a macro of this name declares an option.
fn is_of_option(name: &[u8]) -> bool
    ensures { IsTrue result
        → (name.now ≡ codes "AC_ARG_ENABLE") ⊎ (name.now ≡ codes "AC_ARG_WITH") }
{
    name == b"AC_ARG_ENABLE".as_slice() || name == b"AC_ARG_WITH".as_slice()
}

/// Returns whether the call declares an option.
fn declares_option(text: &[u8], call: &CallAt) -> bool
    ensures { IsTrue result → specs.DeclaresOption text.now (macro_call_of call.now) }
{
    let has_name = call.start <= call.name_end && call.name_end <= text.len();
    has_name && is_of_option(&text[call.start..call.name_end])
}

/// Returns whether the old name of AS_HELP_STRING is between two offsets within the call.
fn is_old_help(text: &[u8], call: &CallAt, start: usize, end: usize) -> bool
    ensures { IsTrue result
        → specs.IsOldHelp text.now (macro_call_of call.now) start end × (end ≤ length text.now)
        × (start ≤ length text.now) }
{
    let is_there = call.start <= start && start <= end && end <= call.end && end <= text.len();
    is_there && &text[start..end] == b"AC_HELP_STRING".as_slice()
}

/// Returns the length of what a help argument has before a call that it begins with: blanks, and
/// perhaps a bracket.
fn front_len(arg: &[u8]) -> usize {
    let blanks = blank_len(arg);
    if arg.get(blanks) != Some(&b'[') {
        return blanks;
    }
    let inner = blanks.saturating_add(1);
    inner.saturating_add(blank_len(from(arg, inner)))
}

/// Returns the offset of the old name of AS_HELP_STRING, if the help argument of the call begins
/// with a call of it.
fn old_help(text: &[u8], call: &CallAt) -> Option<usize> {
    let arg = call.args.get(1)?;
    let written = part(text, arg.start, arg.end);
    let front = front_len(written);
    let rest = from(written, front);
    if rest.starts_with(OLD_HELP) && rest.get(OLD_HELP.len()) == Some(&b'(') {
        Some(arg.start.saturating_add(front))
    } else {
        None
    }
}

/// Copies what is before the change of a call, and writes the change, unless it is not after what
/// was read.
fn put_change(
    idioms: Idioms,
    text: &[u8],
    call: &CallAt,
    change: &Change,
    pass: &mut Pass,
) -> Result<(), AllocError>
    requires call { Contains (calls_in text.now) (macro_call_of call.now) }
    requires goes { specs.HasToGo text.now (macro_call_of call.now) }
    requires put { MayPut idioms text.now (macro_call_of call.now) change.now.put.items }
    requires begun { specs.IsPass idioms text.now pass.old.at pass.old.out.items }
    ensures { OnOk result (specs.IsPass idioms text.now pass.new.at pass.new.out.items) }
{
    if change.start < pass.at || !is_around(text, call, change.start, change.end) {
        return Ok(());
    }
    write_change(text, change.start, change.end, change.put.as_slice(), pass)
}

/// Writes the name of AS_HELP_STRING in place of its old one, which is between two offsets, unless
/// it is not after what was read.
fn put_help(
    idioms: Idioms,
    text: &[u8],
    call: &CallAt,
    start: usize,
    end: usize,
    pass: &mut Pass,
) -> Result<(), AllocError>
    requires call { Contains (calls_in text.now) (macro_call_of call.now) }
    requires declares { specs.DeclaresOption text.now (macro_call_of call.now) }
    requires begun { specs.IsPass idioms text.now pass.old.at pass.old.out.items }
    ensures { OnOk result (specs.IsPass idioms text.now pass.new.at pass.new.out.items) }
{
    if start < pass.at || !is_old_help(text, call, start, end) {
        return Ok(());
    }
    write_change(text, start, end, b"AS_HELP_STRING", pass)
}

/// Writes the name of AS_HELP_STRING in place of its old one, if the help of an option begins with
/// that.
fn pass_option(
    idioms: Idioms,
    text: &[u8],
    call: &CallAt,
    pass: &mut Pass,
) -> Result<(), AllocError>
    requires call { Contains (calls_in text.now) (macro_call_of call.now) }
    requires declares { specs.DeclaresOption text.now (macro_call_of call.now) }
    requires begun { specs.IsPass idioms text.now pass.old.at pass.old.out.items }
    ensures { OnOk result (specs.IsPass idioms text.now pass.new.at pass.new.out.items) }
{
    match old_help(text, call) {
        Some(at) => put_help(
            idioms,
            text,
            call,
            at,
            at.saturating_add(OLD_HELP.len()),
            pass,
        ),
        None => Ok(()),
    }
}

/// Writes the change of a call that has to go, if it has one.
fn put_found(
    idioms: Idioms,
    text: &[u8],
    call: &CallAt,
    change: Option<Change>,
    pass: &mut Pass,
) -> Result<(), AllocError>
    requires call { Contains (calls_in text.now) (macro_call_of call.now) }
    requires goes { specs.HasToGo text.now (macro_call_of call.now) }
    requires put { IfSome change (λ c.
        MayPut idioms text.now (macro_call_of call.now) c.put.items) }
    requires begun { specs.IsPass idioms text.now pass.old.at pass.old.out.items }
    ensures { OnOk result (specs.IsPass idioms text.now pass.new.at pass.new.out.items) }
{
    match change {
        Some(change) => put_change(idioms, text, call, &change, pass),
        None => Ok(()),
    }
}

/// Replaces a call if it has to go and has an idiom that is wanted, unless it was in what was
/// replaced. The name of a variable gets brackets.
fn pass_whole(
    alloc: Global,
    idioms: Idioms,
    known: &Known,
    text: &[u8],
    spot: Spot,
    call: &CallAt,
    pass: &mut Pass,
) -> Result<(), AllocError>
    requires call { Contains (calls_in text.now) (macro_call_of call.now) }
    requires begun { specs.IsPass idioms text.now pass.old.at pass.old.out.items }
    ensures { OnOk result (specs.IsPass idioms text.now pass.new.at pass.new.out.items) }
{
    if call.start < pass.at {
        return Ok(());
    }
    if names_variable(text, call) {
        return pass_name(alloc, idioms, known, text, call, pass);
    }
    if has_to_go(text, call) {
        let change = change_of(alloc, idioms, known, text, spot, call)?;
        return put_found(idioms, text, call, change, pass);
    }
    if declares_option(text, call) {
        return pass_option(idioms, text, call, pass);
    }
    pass_line(alloc, idioms, text, spot, call, pass)
}

/// Drops backslashes of a list of words, leaves out a definition that isn't needed, puts arguments
/// in brackets, or otherwise replaces the call if it has to go. AC_INIT may get the name of
/// AM_INIT_AUTOMAKE. After AC_PROG_CC GCC may be set, and what is after AC_OUTPUT may come before
/// it.
fn pass_call(
    alloc: Global,
    idioms: Idioms,
    known: &Known,
    text: &[u8],
    calls: &[CallAt],
    first: usize,
    spot: Spot,
    call: &CallAt,
    pass: &mut Pass,
) -> Result<(), AllocError>
    requires calls { map macro_call_of calls.now ≡ calls_in text.now }
    requires call { Contains (calls_in text.now) (macro_call_of call.now) }
    requires begun { specs.IsPass idioms text.now pass.old.at pass.old.out.items }
    ensures { OnOk result (specs.IsPass idioms text.now pass.new.at pass.new.out.items) }
{
    pass_words(idioms, text, call, pass)?;
    pass_defined(idioms, known, text, first, call, pass)?;
    pass_title(alloc, idioms, known, text, calls, spot, call, pass)?;
    pass_search(alloc, idioms, known, text, spot, call, pass)?;
    pass_path(alloc, idioms, known, text, spot, call, pass)?;
    pass_chain(alloc, idioms, known, text, spot, call, pass)?;
    pass_first_found(alloc, idioms, known, text, spot, call, pass)?;
    pass_cached(alloc, idioms, known, text, calls, first, spot, call, pass)?;
    pass_whole(alloc, idioms, known, text, spot, call, pass)?;
    pass_compiler(alloc, idioms, known, text, spot, call, pass)?;
    pass_output(alloc, idioms, text, calls, first, spot, call, pass)?;
    pass_arguments(alloc, idioms, text, calls, first, call, pass)
}

/// Goes over the calls of a text.
fn pass_calls(
    alloc: Global,
    idioms: Idioms,
    known: &Known,
    text: &[u8],
    calls: &[CallAt],
    pass: &mut Pass,
) -> Result<(), AllocError>
    requires calls { map macro_call_of calls.now ≡ calls_in text.now }
    requires begun { specs.IsPass idioms text.now pass.old.at pass.old.out.items }
    ensures { OnOk result (specs.IsPass idioms text.now pass.new.at pass.new.out.items) }
{
    let mut walk = CallWalk::new();
    for i in 0..calls.len() {
        let spot = walk.spot_of(text, &calls[i]);
        pass_call(alloc, idioms, known, text, calls, i, spot, &calls[i], pass)?;
    }
    Ok(())
}

/// Writes out macros that the source defines, or, if there is none to be written out, goes over the
/// calls of a text.
fn pass_text(
    alloc: Global,
    idioms: Idioms,
    known: &Known,
    text: &[u8],
    calls: &[CallAt],
    pass: &mut Pass,
) -> Result<(), AllocError>
    requires calls { map macro_call_of calls.now ≡ calls_in text.now }
    requires begun { specs.IsPass idioms text.now pass.old.at pass.old.out.items }
    ensures { OnOk result (specs.IsPass idioms text.now pass.new.at pass.new.out.items) }
{
    pass_spots(idioms, text, calls, known.written.uses.as_slice(), pass)?;
    if pass.has_changed {
        return Ok(());
    }
    pass_plain(alloc, idioms, text, &known.plain, pass)?;
    if pass.has_changed {
        return Ok(());
    }
    pass_calls(alloc, idioms, known, text, calls, pass)
}

/// Copies the rest of a text.
fn finish(idioms: Idioms, text: &[u8], pass: &mut Pass) -> Result<(), AllocError>
    requires begun { specs.IsPass idioms text.now pass.old.at pass.old.out.items }
    ensures { OnOk result (specs.IsPass idioms text.now (length text.now) pass.new.out.items) }
{
    pass.out.extend_from_slice(&text[pass.at..text.len()])
}

/// Returns the text with each call replaced that has to go and has an idiom that is wanted, or
/// `None` if there is none.
pub(crate) fn replaced_once(
    alloc: Global,
    idioms: Idioms,
    text: &[u8],
) -> Result<Option<Vec<u8>>, AllocError>
    ensures { IfOk result (λ o.
        IfSome o (λ v. specs.IsPass idioms text.now (length text.now) v.items)) }
{
    let calls = calls_of(alloc, text)?;
    let mut pass = Pass {
        out: Vec::new(alloc),
        at: 0,
        has_changed: false,
    };
    let known = known_of(alloc, text, calls.as_slice())?;
    pass_text(alloc, idioms, &known, text, calls.as_slice(), &mut pass)?;
    finish(idioms, text, &mut pass)?;
    let Pass {
        out,
        has_changed,
        ..
    } = pass;
    if has_changed { Ok(Some(out)) } else { Ok(None) }
}
