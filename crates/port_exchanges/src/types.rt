//! Whether a call is AC_CHECK_TYPE with a default, its old form.

ghost use Rattle.std.specs.Prelude.{◌≡◌, Some, codes, length, position, slice_range, ◌==◌, ◌<◌, IfSome, IsTrue, true};
ghost use Rattle.std.specs.List.{list_all};
ghost use Rattle.ac_calls.specs.Calls.{macro_call_of};
ghost use Rattle.port_idioms.specs.Filled.{ending, text_of};
ghost use Rattle.port_spots.specs.Put.{arg_text, is_c_name};
ghost use Rattle.port_passes.specs.Rewritten as specs;

use ac_calls::{CallAt, Extent};
use lint_text::part;
use port_definitions::{argument, is_letter};
use port_idioms::{ending, is_call_of, text_of};
use port_spots::are_name_bytes;

/// Returns whether the byte may be in the name of a type.
fn is_type_byte(byte: u8) -> bool
    ensures { result ≡ specs.is_type_byte byte }
{
    byte.is_ascii_alphanumeric()
        || byte == b'_'
        || byte == b' '
        || byte == b'('
        || byte == b')'
        || byte == b'*'
}

/// Returns whether a text has nothing but such bytes.
fn are_type_bytes(text: &[u8]) -> bool
    ensures { result ≡ list_all specs.is_type_byte text.now }
{
    text.iter().all(|byte| is_type_byte(*byte))
}

/// Returns whether the name of a type of C begins with this word.
fn is_basic(word: &[u8]) -> bool
    ensures { result ≡ specs.is_basic word.now }
{
    word == b"char".as_slice()
        || word == b"short".as_slice()
        || word == b"int".as_slice()
        || word == b"long".as_slice()
        || word == b"signed".as_slice()
        || word == b"unsigned".as_slice()
        || word == b"float".as_slice()
        || word == b"double".as_slice()
}

/// Returns whether a text is a name that ends in `_t`.
fn ends_in_t(word: &[u8]) -> bool
    ensures { result ≡ specs.ends_in_t word.now }
{
    let len = word.len();
    len >= 3
        && is_letter(word[0])
        && are_name_bytes(word)
        && word[len - 2] == b'_'
        && word[len - 1] == b't'
}

/// Returns the offset of the first space.
fn space_in(text: &[u8]) -> Option<usize>
    ensures value { result ≡ position (λ b. b == 32) text.now }
    ensures within { IfSome result (λ i. i < length text.now) }
{
    text.iter().position(|byte| *byte == b' ')
}

/// Returns the text before the first space.
fn first_part(text: &[u8]) -> &[u8]
    ensures { result.now ≡ specs.first_part text.now }
{
    match space_in(text) {
        Some(i) => &text[..i],
        None => text,
    }
}

/// Returns whether a text is a type, which AC_CHECK_TYPE takes for a default.
fn is_type(text: &[u8]) -> bool
    ensures { result ≡ specs.is_type text.now }
{
    let first = first_part(text);
    are_type_bytes(text) && (is_basic(first) || ends_in_t(first))
}

/// Returns whether the call is one of AC_CHECK_TYPE.
fn is_check(text: &[u8], call: &CallAt) -> bool
    ensures { IsTrue result
        → slice_range text.now (macro_call_of call.now).start (macro_call_of call.now).name_end
        ≡ codes "AC_CHECK_TYPE" }
{
    is_call_of(text, call, b"AC_CHECK_TYPE")
}

/// Returns whether an argument is a type, with nothing after it but spaces.
fn is_default(text: &[u8], arg: Extent) -> bool
    ensures kind { IsTrue result
        → specs.is_type (text_of (Some (arg_text text.now arg))) ≡ true }
    ensures spaces { IsTrue result
        → list_all specs.is_type_byte (ending (arg_text text.now arg)) ≡ true }
{
    let written = part(text, arg.start, arg.end);
    match text_of(written) {
        Some(inner) => is_type(inner) && are_type_bytes(ending(written)),
        None => false,
    }
}

/// Returns whether the second argument of the call is a type, with nothing after it but spaces.
fn has_default(text: &[u8], call: &CallAt) -> bool
    ensures { IsTrue result → specs.HasDefault text.now (macro_call_of call.now) }
{
    match argument(call, 1) {
        Some(default) => is_default(text, default),
        None => false,
    }
}

/// Returns whether a macro of C, or a variable of a shell, may have this name.
pub(crate) fn is_c_name(word: &[u8]) -> bool
    ensures { result ≡ is_c_name word.now }
{
    word.len() >= 1 && is_letter(word[0]) && are_name_bytes(word)
}

/// Returns whether an argument is such a name.
fn is_named(text: &[u8], arg: Extent) -> bool
    ensures { IsTrue result → is_c_name (text_of (Some (arg_text text.now arg))) ≡ true }
{
    match text_of(part(text, arg.start, arg.end)) {
        Some(inner) => is_c_name(inner),
        None => false,
    }
}

/// Returns whether the first argument of the call is such a name.
fn names_type(text: &[u8], call: &CallAt) -> bool
    ensures { IsTrue result → specs.NamesType text.now (macro_call_of call.now) }
{
    match argument(call, 0) {
        Some(named) => is_named(text, named),
        None => false,
    }
}

/// Returns whether the arguments of the call are a type and a default.
fn takes_default(text: &[u8], call: &CallAt) -> bool
    ensures { IsTrue result → specs.TakesDefault text.now (macro_call_of call.now) }
{
    names_type(text, call) && has_default(text, call)
}

/// Returns whether the call is AC_CHECK_TYPE with two arguments.
fn is_check_of_two(text: &[u8], call: &CallAt) -> bool
    ensures { IsTrue result
        → (slice_range text.now (macro_call_of call.now).start (macro_call_of call.now).name_end
        ≡ codes "AC_CHECK_TYPE")
        × (length (macro_call_of call.now).args ≡ 2) }
{
    is_check(text, call) && call.args.len() == 2
}

/// Returns whether the call is AC_CHECK_TYPE of a type and a default.
pub fn names_default(text: &[u8], call: &CallAt) -> bool
    ensures { IsTrue result → specs.NamesDefault text.now (macro_call_of call.now) }
{
    is_check_of_two(text, call) && takes_default(text, call)
}
