//! A definition, and the places of its name.

ghost use Rattle.std.specs.Prelude.{◌≡◌, ◌⊎◌, ℕ, ◌≤◌, ◌<◌, ◌+◌, ◌-◌, false, true, Some, length, slice_range, slice_index, slice_get, codes, IfSome, IsTrue};
ghost use Rattle.std.specs.Char.{is_ascii_digit};
ghost use Rattle.ac_calls.specs.Calls.{macro_call_of};
ghost use Rattle.port_idioms.specs.Filled.{text_of};
ghost use Rattle.port_definitions.specs.Defined as specs;

use ac_calls::{CallAt, Extent};
use lint_text::part;
use port_idioms::{is_call_of, unquoted};
use text_cut::{is_blank, trim};

/// Returns where an argument of the call is.
pub fn argument(call: &CallAt, index: usize) -> Option<Extent>
    ensures { result ≡ slice_get (macro_call_of call.now).args index }
{
    call.args.get(index).copied()
}

/// Returns an argument without the blanks around it and a pair of brackets.
pub fn inner(text: &[u8], arg: Extent) -> &[u8]
    ensures { result.now ≡ text_of (Some (specs.arg_text text.now arg)) }
{
    unquoted(trim(part(text, arg.start, arg.end)))
}

/// Returns whether the call is one of AC_DEFUN.
pub(crate) fn is_definition(text: &[u8], call: &CallAt) -> bool
    ensures { IsTrue result
        → slice_range text.now (macro_call_of call.now).start (macro_call_of call.now).name_end
        ≡ codes "AC_DEFUN" }
{
    is_call_of(text, call, b"AC_DEFUN")
}

/// Returns whether a `$` before the byte makes a parameter.
fn is_parameter_sign(byte: u8) -> bool
    ensures { result ≡ specs.is_parameter_sign byte }
{
    47 < byte && byte < 58 || byte == b'#' || byte == b'*' || byte == b'@'
}

/// Returns whether a parameter is at an offset.
fn is_parameter_at(text: &[u8], at: usize) -> bool
    requires { at + 1 < length text.now }
    ensures { result ≡ false → specs.IsParameterAt text.now at → ⊥ }
{
    text[at] == b'$' && is_parameter_sign(text[at + 1])
}

/// Returns whether a text has a parameter.
pub(crate) fn has_parameter(text: &[u8]) -> bool
    ensures { result ≡ false → specs.HasParameter text.now → ⊥ }
{
    if text.len() < 2 {
        return false;
    }
    for at in 0..text.len() - 1 {
        if is_parameter_at(text, at) {
            return true;
        }
    }
    false
}

/// Returns the body that a definition has in this argument, if it is one of this name, which has no
/// parameters.
#[tactic(auto, using(crate::proofs::Made::defines))]
fn body_in<'a>(
    text: &'a [u8],
    d: &CallAt,
    title: Extent,
    what: Extent,
    name: &[u8],
) -> Option<&'a [u8]>
    requires first { slice_get (macro_call_of d.now).args 0 ≡ Some title }
    requires second { slice_get (macro_call_of d.now).args 1 ≡ Some what }
    ensures { IfSome result (λ b. specs.Defines text.now (macro_call_of d.now) name.now b.now) }
{
    let body = inner(text, what);
    if is_definition(text, d)
        && d.args.len() == 2
        && name == inner(text, title)
        && !has_parameter(body)
    {
        Some(body)
    } else {
        None
    }
}

/// Returns the body of the macro of this name that a call defines, if it has no parameters.
pub fn body_of<'a>(text: &'a [u8], d: &CallAt, name: &[u8]) -> Option<&'a [u8]>
    ensures { IfSome result (λ b. specs.Defines text.now (macro_call_of d.now) name.now b.now) }
{
    match argument(d, 0) {
        Some(title) => match argument(d, 1) {
            Some(what) => body_in(text, d, title, what, name),
            None => None,
        },
        None => None,
    }
}

/// Returns whether no letter, digit or `_` is right before an offset.
fn begins_name(text: &[u8], at: usize) -> bool
    requires { at ≤ length text.now }
    ensures yes { IsTrue result → specs.BeginsName text.now at }
    ensures no { result ≡ false → specs.BeginsName text.now at → ⊥ }
{
    at == 0 || !is_of_name(text[at - 1])
}

/// Returns whether the byte may be in a name.
pub fn is_of_name(byte: u8) -> bool
    ensures { result ≡ specs.is_of_name byte }
{
    byte.is_ascii_alphanumeric() || byte == b'_'
}

/// Returns whether a blank is at an offset, or the text ends there.
fn ends_name(text: &[u8], at: usize) -> bool
    requires { at ≤ length text.now }
    ensures yes { IsTrue result → specs.EndsName text.now at }
    ensures no { result ≡ false → specs.EndsName text.now at → ⊥ }
{
    at == text.len() || is_blank(text[at])
}

/// Returns whether the bytes of a name are at an offset.
pub fn has_name(text: &[u8], at: usize, name: &[u8]) -> bool
    requires { at ≤ length text.now }
    ensures yes { IsTrue result → slice_range text.now at (at + length name.now) ≡ name.now }
    ensures fits { IsTrue result → at + length name.now ≤ length text.now }
    ensures no { result ≡ false → slice_range text.now at (at + length name.now) ≡ name.now → ⊥ }
{
    text.len() - at >= name.len() && &text[at..at + name.len()] == name
}

/// Returns whether a name is at an offset, and not as a part of another one.
pub fn is_name_at(text: &[u8], at: usize, name: &[u8]) -> bool
    requires { at ≤ length text.now }
    ensures yes { IsTrue result → specs.IsNameAt text.now at name.now }
    ensures fits { IsTrue result → at + length name.now ≤ length text.now }
    ensures no { result ≡ false → specs.IsNameAt text.now at name.now → ⊥ }
{
    has_name(text, at, name) && begins_name(text, at) && ends_name(text, at + name.len())
}

/// Returns the offset of the digits that are right before an offset.
fn digits_start(text: &[u8], at: usize) -> usize
    requires { at ≤ length text.now }
    ensures order { result ≤ at }
    ensures digits { (i : ℕ)
        → result ≤ i
        → i < at
        → is_ascii_digit (slice_index text.now i) ≡ true }
    ensures first { (result ≡ 0) ⊎ (is_ascii_digit (slice_index text.now (result - 1)) ≡ false) }
{
    let mut start = at;
    while 0 < start {
        if !text[start - 1].is_ascii_digit() {
            return start;
        }
        start -= 1;
    }
    start
}

/// Returns whether m4 takes what begins at an offset for a name of its own.
#[tactic(auto, using(crate::proofs::Begins::begins, crate::proofs::Begins::goes_on))]
pub(crate) fn begins_word(text: &[u8], at: usize) -> bool
    requires { at ≤ length text.now }
    ensures yes { IsTrue result → specs.BeginsWord text.now at }
    ensures no { result ≡ false → specs.BeginsWord text.now at → ⊥ }
{
    begins_name(text, digits_start(text, at))
}

/// Returns whether a name may begin with the byte.
pub fn is_letter(byte: u8) -> bool
    ensures { result ≡ specs.is_letter byte }
{
    byte.is_ascii_alphabetic() || byte == b'_'
}

/// Returns whether no name goes on at an offset.
pub fn ends_word(text: &[u8], at: usize) -> bool
    requires { at ≤ length text.now }
    ensures yes { IsTrue result → specs.EndsWord text.now at }
    ensures no { result ≡ false → specs.EndsWord text.now at → ⊥ }
{
    at == text.len() || !is_of_name(text[at])
}

/// Returns whether m4 takes a name at an offset for a macro.
pub(crate) fn is_word_at(text: &[u8], at: usize, name: &[u8]) -> bool
    requires { at ≤ length text.now }
    ensures { result ≡ false → specs.IsWordAt text.now at name.now → ⊥ }
{
    has_name(text, at, name) && begins_word(text, at) && ends_word(text, at + name.len())
}

/// Returns whether a name is somewhere from an offset on.
pub fn is_used(text: &[u8], start: usize, name: &[u8]) -> bool
    ensures { result ≡ false → specs.IsUnused text.now start name.now }
{
    for at in start..text.len() {
        if is_word_at(text, at, name) {
            return true;
        }
    }
    false
}
