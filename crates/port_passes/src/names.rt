//! Writes names of variables in brackets that are spelled as those of macros.

ghost use Rattle.std.specs.Prelude.{◌≡◌, ◌⊎◌, ◌+◌, ◌-◌, ◌∷◌, [], slice_range, codes, Contains, OnOk, IsTrue};
ghost use Rattle.ac_calls.specs.Calls.{calls_in, macro_call_of};
ghost use Rattle.port_passes.specs.Rewritten as specs;

use crate::brackets::in_brackets;
use ac_calls::CallAt;
use lint_text::{before, first_name, from, is_word_byte, part};
use port_edits::{Pass, write_change};
use port_idioms::Idioms;
use port_spots::Known;
use std::alloc::{AllocError, Global};
use std::collections::BTreeSet;

/// Parts of the names of macros that define another one.
const DEFINING: [&[u8]; 7] = [
    b"define", b"DEFUN", b"defun", b"pushdef", b"ALIAS", b"copy", b"rename",
];

/// Returns whether a text has another one in it.
fn has(text: &[u8], other: &[u8]) -> bool {
    for at in 0..text.len() {
        if from(text, at).starts_with(other) {
            return true;
        }
    }
    false
}

/// Returns whether a macro of this name may define another one.
fn is_defining(name: &[u8]) -> bool {
    DEFINING.iter().any(|other| has(name, other))
}

/// Returns the word that a text ends with.
fn last_word(text: &[u8]) -> &[u8] {
    let len = text
        .iter()
        .rev()
        .take_while(|byte| is_word_byte(**byte))
        .count();
    from(text, text.len().saturating_sub(len))
}

/// Returns the text without the brackets and blanks that it begins with.
fn without_front(text: &[u8]) -> &[u8] {
    let len = text
        .iter()
        .take_while(|byte| matches!(**byte, b'[' | b' ' | b'\t' | b'\n'))
        .count();
    from(text, len)
}

/// Returns the names that a text may define as macros: those after the parenthesis of a macro that
/// defines another one.
pub fn defined_in(alloc: Global, text: &[u8]) -> Result<BTreeSet<Vec<u8>>, AllocError> {
    let mut names = BTreeSet::new(alloc);
    for at in 0..text.len() {
        if text[at] == b'(' && is_defining(last_word(before(text, at))) {
            let name = first_name(without_front(from(text, at.saturating_add(1))));
            let owned = Vec::from_slice(alloc, name)?;
            names.insert(owned)?;
        }
    }
    Ok(names)
}

/// Returns whether `$` is right before an offset.
fn is_after_sign(text: &[u8], at: usize) -> bool
    ensures { IsTrue result → slice_range text.now (at - 1) at ≡ codes "$" }
{
    1 <= at && at <= text.len() && &text[at - 1..at] == b"$".as_slice()
}

/// Returns whether `${` is right before an offset.
fn is_after_brace(text: &[u8], at: usize) -> bool
    ensures { IsTrue result → slice_range text.now (at - 2) at ≡ 36 ∷ 123 ∷ [] }
{
    2 <= at && at <= text.len() && &text[at - 2..at] == b"${".as_slice()
}

/// Returns whether `=` is at an offset.
pub(crate) fn is_before_value(text: &[u8], at: usize) -> bool
    ensures { IsTrue result → slice_range text.now at (at + 1) ≡ codes "=" }
{
    at < text.len() && &text[at..at + 1] == b"=".as_slice()
}

/// Returns whether the name of a variable is between two offsets: `$` or `${` is right before it,
/// or `=` right after it.
fn is_variable(text: &[u8], start: usize, end: usize) -> bool
    ensures { IsTrue result
        → (slice_range text.now (start - 1) start ≡ codes "$")
        ⊎ (slice_range text.now (start - 2) start ≡ 36 ∷ 123 ∷ [])
        ⊎ (slice_range text.now end (end + 1) ≡ codes "=") }
{
    is_after_sign(text, start) || is_after_brace(text, start) || is_before_value(text, end)
}

/// Returns whether a shell takes what is at the place of the call for the name of a variable.
pub fn names_variable(text: &[u8], call: &CallAt) -> bool
    ensures { IsTrue result → specs.NamesVariable text.now (macro_call_of call.now) }
{
    call.end == call.name_end && !call.is_of_profile && is_variable(text, call.start, call.end)
}

/// Writes a name in brackets.
fn put_name(
    alloc: Global,
    idioms: Idioms,
    text: &[u8],
    call: &CallAt,
    pass: &mut Pass,
) -> Result<(), AllocError>
    requires call { Contains (calls_in text.now) (macro_call_of call.now) }
    requires names { specs.NamesVariable text.now (macro_call_of call.now) }
    requires begun { specs.IsPass idioms text.now pass.old.at pass.old.out.items }
    ensures { OnOk result (specs.IsPass idioms text.now pass.new.at pass.new.out.items) }
{
    let _ = idioms;
    if call.start < pass.at || call.end < call.start || text.len() < call.end {
        return Ok(());
    }
    let put = in_brackets(alloc, text, call.start, call.end)?;
    write_change(text, call.start, call.end, put.as_slice(), pass)
}

/// Writes the name of a variable in brackets, unless the source defines a macro of that name, or the
/// name is in an argument without brackets, in which acrun takes none.
pub fn pass_name(
    alloc: Global,
    idioms: Idioms,
    known: &Known,
    text: &[u8],
    call: &CallAt,
    pass: &mut Pass,
) -> Result<(), AllocError>
    requires call { Contains (calls_in text.now) (macro_call_of call.now) }
    requires names { specs.NamesVariable text.now (macro_call_of call.now) }
    requires begun { specs.IsPass idioms text.now pass.old.at pass.old.out.items }
    ensures { OnOk result (specs.IsPass idioms text.now pass.new.at pass.new.out.items) }
{
    let is_macro = known
        .defined
        .contains(part(text, call.start, call.name_end));
    if is_macro || known.bare.get(call.start) == Some(&true) {
        return Ok(());
    }
    put_name(alloc, idioms, text, call, pass)
}
