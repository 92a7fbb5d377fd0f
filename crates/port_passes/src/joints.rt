//! Drops the backslashes that join two lines of a list of words.

ghost use Rattle.std.specs.Prelude.{◌≡◌, ◌≤◌, ◌<◌, ◌+◌, true, Some, length, slice_get, slice_range, Contains, OnOk, IsTrue};
ghost use Rattle.ac_calls.specs.Calls.{calls_in, macro_call_of};
ghost use Rattle.port_passes.specs.Rewritten as specs;

use ac_calls::{CallAt, Extent};
use port_edits::{Pass, write_change};
use port_idioms::Idioms;
use std::alloc::AllocError;

/// Returns whether a macro of this name looks for each name of a list.
fn looks_for_words(name: &[u8]) -> bool
    ensures { result ≡ specs.looks_for_words name.now }
{
    name == b"AC_CHECK_FUNCS".as_slice()
        || name == b"AC_CHECK_HEADERS".as_slice()
        || name == b"AC_HAVE_FUNCS".as_slice()
        || name == b"AC_HAVE_HEADERS".as_slice()
}

/// Returns whether the first argument of a macro of this name is a list of words.
fn is_of_words(name: &[u8]) -> bool
    ensures { result ≡ specs.takes_words name.now }
{
    looks_for_words(name)
        || name == b"AC_CONFIG_FILES".as_slice()
        || name == b"AC_CONFIG_HEADERS".as_slice()
        || name == b"AC_OUTPUT".as_slice()
}

/// Returns whether the first argument of the call is a list of words.
fn takes_words(text: &[u8], call: &CallAt) -> bool
    ensures { IsTrue result
        → specs.takes_words (
        slice_range text.now (macro_call_of call.now).start (macro_call_of call.now).name_end)
        ≡ true }
{
    let has_name = call.start <= call.name_end && call.name_end <= text.len();
    has_name && is_of_words(&text[call.start..call.name_end])
}

/// Returns where the first argument of the call is.
pub fn first_argument(call: &CallAt) -> Option<Extent>
    ensures { result ≡ slice_get (macro_call_of call.now).args 0 }
{
    call.args.first().copied()
}

/// Returns whether a word of a list may begin after the byte.
fn is_before_word(byte: u8) -> bool
    ensures { result ≡ specs.is_before_word byte }
{
    byte == b' ' || byte == b'\t' || byte == b'\n' || byte == b'[' || byte == b'('
}

/// Returns whether a backslash at an offset of an argument joins two lines, with no word right
/// before it.
fn is_line_joint(text: &[u8], list: Extent, at: usize) -> bool
    ensures { IsTrue result → specs.IsLineJoint text.now list at }
{
    let before = at.saturating_sub(1);
    let after = at.saturating_add(1);
    list.start <= at
        && after < list.end
        && after < text.len()
        && is_before_word(text[before])
        && text[at] == b'\\'
        && text[after] == b'\n'
}

/// Drops a backslash that joins two lines of a list, which is at an offset, unless it is not after
/// what was read.
fn drop_joint(
    idioms: Idioms,
    text: &[u8],
    call: &CallAt,
    at: usize,
    pass: &mut Pass,
) -> Result<(), AllocError>
    requires call { Contains (calls_in text.now) (macro_call_of call.now) }
    requires joins { specs.JoinsWords text.now (macro_call_of call.now) at }
    requires place { (pass.old.at ≤ at) × (at + 1 < length text.now) }
    requires begun { specs.IsPass idioms text.now pass.old.at pass.old.out.items }
    ensures { OnOk result (specs.IsPass idioms text.now pass.new.at pass.new.out.items) }
{
    let _ = idioms;
    let _ = call;
    write_change(text, at, at + 1, b"", pass)
}

/// Drops a backslash of a list, if at an offset one joins two lines.
fn pass_joint(
    idioms: Idioms,
    text: &[u8],
    call: &CallAt,
    list: Extent,
    at: usize,
    pass: &mut Pass,
) -> Result<(), AllocError>
    requires call { Contains (calls_in text.now) (macro_call_of call.now) }
    requires words { specs.takes_words (
        slice_range text.now (macro_call_of call.now).start (macro_call_of call.now).name_end)
        ≡ true }
    requires list { slice_get (macro_call_of call.now).args 0 ≡ Some list }
    requires begun { specs.IsPass idioms text.now pass.old.at pass.old.out.items }
    ensures { OnOk result (specs.IsPass idioms text.now pass.new.at pass.new.out.items) }
{
    if at < pass.at || !is_line_joint(text, list, at) {
        return Ok(());
    }
    drop_joint(idioms, text, call, at, pass)
}

/// Drops each backslash that joins two lines of a list.
fn pass_list(
    idioms: Idioms,
    text: &[u8],
    call: &CallAt,
    list: Extent,
    pass: &mut Pass,
) -> Result<(), AllocError>
    requires call { Contains (calls_in text.now) (macro_call_of call.now) }
    requires words { specs.takes_words (
        slice_range text.now (macro_call_of call.now).start (macro_call_of call.now).name_end)
        ≡ true }
    requires list { slice_get (macro_call_of call.now).args 0 ≡ Some list }
    requires begun { specs.IsPass idioms text.now pass.old.at pass.old.out.items }
    ensures { OnOk result (specs.IsPass idioms text.now pass.new.at pass.new.out.items) }
{
    for at in list.start..list.end {
        pass_joint(idioms, text, call, list, at, pass)?;
    }
    Ok(())
}

/// Drops each backslash that joins two lines of the list of a call, if it takes one, unless it was
/// in what was replaced.
pub fn pass_words(
    idioms: Idioms,
    text: &[u8],
    call: &CallAt,
    pass: &mut Pass,
) -> Result<(), AllocError>
    requires call { Contains (calls_in text.now) (macro_call_of call.now) }
    requires begun { specs.IsPass idioms text.now pass.old.at pass.old.out.items }
    ensures { OnOk result (specs.IsPass idioms text.now pass.new.at pass.new.out.items) }
{
    if call.start < pass.at || !takes_words(text, call) {
        return Ok(());
    }
    match first_argument(call) {
        Some(list) => pass_list(idioms, text, call, list, pass),
        None => Ok(()),
    }
}
