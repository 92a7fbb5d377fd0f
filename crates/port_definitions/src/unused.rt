//! Definitions of macros that nothing calls.

ghost use Rattle.std.specs.Prelude.{◌≡◌, ◌⊎◌, ◌≤◌, ◌<◌, ◌&&◌, nat_lt, false, true, Some, length, slice_range, slice_get, nat_eq, codes, IsTrue};
ghost use Rattle.std.specs.List.{list_all, starts_with};
ghost use Rattle.text_cut.specs.Cuts as cuts;
ghost use Rattle.ac_calls.specs.Calls.{macro_call_of};
ghost use Rattle.ac_statement.specs.Inside as inside;
ghost use Rattle.port_idioms.specs.Filled.{text_of};
ghost use Rattle.port_definitions.specs.Defined as defined;
ghost use Rattle.port_definitions.specs.Unused as specs;

use crate::definition::{argument, inner, is_definition, is_word_at};
use crate::lines::{last_line, space_len};
use crate::words::is_name;
use ac_calls::{CallAt, Extent};
use lint_text::{before, from, part};
use port_idioms::is_run;
use text_cut::{is_space, trim};

// ---- the body

/// Returns whether an argument is one quoted text, perhaps with blanks around it.
fn is_quoted(text: &[u8], arg: Extent) -> bool
    ensures { result ≡ inside.is_run (cuts.trimmed (defined.arg_text text.now arg)) }
{
    is_run(trim(part(text, arg.start, arg.end)))
}

// ---- comments

/// Returns whether m4 does not end a comment by the byte.
fn is_remark_byte(byte: u8) -> bool
    ensures { result ≡ specs.is_remark_byte byte }
{
    !(byte == b'\n' || byte == b'[' || byte == b']' || byte == b'$')
}

/// Returns whether m4 ends a comment by no byte of a text.
fn are_of_remark(text: &[u8]) -> bool
    ensures { result ≡ list_all specs.is_remark_byte text.now }
{
    text.iter().all(|byte| is_remark_byte(*byte))
}

/// Returns whether a text has nothing but spaces and tabs.
fn are_spaces(text: &[u8]) -> bool
    ensures { result ≡ list_all cuts.is_space text.now }
{
    text.iter().all(|byte| is_space(*byte))
}

/// Returns whether a text begins with the other text.
fn begins(text: &[u8], front: &[u8]) -> bool
    ensures { result ≡ starts_with nat_eq text.now front.now }
{
    text.starts_with(front)
}

/// Returns whether a text begins as a comment.
fn is_remark(text: &[u8]) -> bool
    ensures { result ≡ specs.is_remark text.now }
{
    begins(text, b"#") || begins(text, b"dnl ")
}

/// Returns whether a line begins at an offset.
fn begins_line(text: &[u8], at: usize) -> bool
    requires { at ≤ length text.now }
    ensures { IsTrue result → specs.BeginsLine text.now at }
{
    at == 0 || text[at - 1] == b'\n'
}

/// Returns whether a line or what is after the definition begins at an offset.
fn begins_front(text: &[u8], end: usize, front: usize) -> bool
    requires { front ≤ length text.now }
    ensures { IsTrue result → specs.BeginsLine text.now front ⊎ (front ≡ end) }
{
    begins_line(text, front) || front == end
}

/// Returns whether a text is a comment that goes on at its end.
fn is_whole_remark(text: &[u8]) -> bool
    ensures remark { IsTrue result → specs.is_remark text.now ≡ true }
    ensures within { IsTrue result → list_all specs.is_remark_byte text.now ≡ true }
{
    is_remark(text) && are_of_remark(text)
}

/// Returns whether the place at an offset is in a comment, with these offsets of the blanks before
/// the comment, and of the comment.
#[tactic(auto, using(crate::proofs::Remarks::remark))]
fn is_remark_from(text: &[u8], end: usize, front: usize, sign: usize, at: usize) -> bool
    ensures { IsTrue result → specs.IsRemark text.now end at }
{
    if sign < front || at < sign || text.len() < at {
        return false;
    }
    begins_front(text, end, front)
        && are_spaces(&text[front..sign])
        && is_whole_remark(&text[sign..at])
}

/// Returns whether the place at an offset is in a comment that its line begins with, or what is
/// after a definition, of which the offset is given.
pub(crate) fn is_in_remark(text: &[u8], end: usize, at: usize) -> bool
    ensures { IsTrue result → specs.IsRemark text.now end at }
{
    let line = last_line(before(text, at));
    let front = if line < end && end <= at { end } else { line };
    let sign = front.saturating_add(space_len(from(text, front)));
    is_remark_from(text, end, front, sign, at)
}

// ---- calls

/// Returns whether a place is in the definition or in a comment.
fn is_idle_at(text: &[u8], start: usize, end: usize, at: usize) -> bool
    ensures { IsTrue result → (start ≤ at) × (at < end) ⊎ specs.IsRemark text.now end at }
{
    start <= at && at < end || is_in_remark(text, end, at)
}

/// Returns whether a name is at an offset, and neither in the definition nor in a comment.
fn is_called_at(text: &[u8], start: usize, end: usize, name: &[u8], at: usize) -> bool
    requires { at ≤ length text.now }
    ensures { result ≡ false
        → defined.IsWordAt text.now at name.now
        → (start ≤ at) × (at < end) ⊎ specs.IsRemark text.now end at }
{
    if !is_word_at(text, at, name) {
        return false;
    }
    !is_idle_at(text, start, end, at)
}

/// Returns whether a name is nowhere but in comments and between two offsets.
fn is_uncalled(text: &[u8], start: usize, end: usize, name: &[u8]) -> bool
    ensures { IsTrue result → specs.IsUncalled text.now start end name.now }
{
    for at in 0..text.len() {
        if is_called_at(text, start, end, name, at) {
            return false;
        }
    }
    true
}

// ---- the definition

/// Returns whether the call is one of AC_DEFUN with two arguments.
fn has_body(text: &[u8], d: &CallAt) -> bool
    ensures defun { IsTrue result
        → slice_range text.now (macro_call_of d.now).start (macro_call_of d.now).name_end
        ≡ codes "AC_DEFUN" }
    ensures two { IsTrue result → length (macro_call_of d.now).args ≡ 2 }
{
    is_definition(text, d) && d.args.len() == 2
}

/// Returns whether an argument is this plain name.
fn is_titled(text: &[u8], title: Extent, name: &[u8]) -> bool
    ensures spelled { IsTrue result → name.now ≡ text_of (Some (defined.arg_text text.now title)) }
    ensures named { IsTrue result
        → (nat_lt 0 (length name.now) && list_all defined.is_of_name name.now) ≡ true }
{
    name == inner(text, title) && is_name(name)
}

/// Returns whether a call defines a macro of this name with these arguments, and nothing else calls
/// it.
fn is_unused_with(text: &[u8], d: &CallAt, title: Extent, what: Extent, name: &[u8]) -> bool
    requires first { slice_get (macro_call_of d.now).args 0 ≡ Some title }
    requires second { slice_get (macro_call_of d.now).args 1 ≡ Some what }
    ensures { IsTrue result → specs.DefinesUnused text.now (macro_call_of d.now) name.now }
{
    if !has_body(text, d) || !is_titled(text, title, name) || !is_quoted(text, what) {
        return false;
    }
    is_uncalled(text, d.start, d.end, name)
}

/// Returns whether a call defines a macro of this plain name, with a quoted body, and nothing
/// outside of it calls the macro.
pub fn is_unused_definition(text: &[u8], d: &CallAt, name: &[u8]) -> bool
    ensures { IsTrue result → specs.DefinesUnused text.now (macro_call_of d.now) name.now }
{
    match argument(d, 0) {
        Some(title) => match argument(d, 1) {
            Some(what) => is_unused_with(text, d, title, what, name),
            None => false,
        },
        None => false,
    }
}
