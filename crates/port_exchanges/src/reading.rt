//! The texts of arguments, if m4 puts them in the place of these.

ghost use Rattle.std.specs.Prelude.{◌≡◌, Some, IfOk, IfSome};
ghost use Rattle.port_idioms.specs.Filled as filled;
ghost use Rattle.port_spots.specs.Put.{arg_text};

use ac_calls::{CallAt, Extent};
use lint_text::{from, is_word_byte, part};
use port_definitions::inner;
use port_idioms::{Idioms, filled, text_of};
use port_spots::Known;
use std::alloc::{AllocError, Global};

/// An idiom that is its argument.
const ARGUMENT: &[u8] = b"$1{ARGUMENT}";

/// Returns whether the source defines a word as a macro. Digits at its front are no part of a word
/// of m4.
fn is_defined(known: &Known, word: &[u8]) -> bool {
    let digits = word
        .iter()
        .take_while(|byte| (**byte).is_ascii_digit())
        .count();
    known.defined.contains(from(word, digits))
}

/// Returns whether a text has a word that the source defines as a macro.
fn has_defined(known: &Known, text: &[u8]) -> bool {
    text.split(|byte| !is_word_byte(*byte))
        .any(|word| is_defined(known, word))
}

/// Returns whether the words of arguments without brackets are taken for text: if all idioms are
/// wanted, unless the source defines a macro of one of them.
pub(crate) fn takes_words(idioms: Idioms, known: &Known, text: &[u8], call: &CallAt) -> bool {
    match idioms {
        Idioms::Exact => false,
        Idioms::All => !has_defined(known, part(text, call.name_end, call.end)),
    }
}

/// Returns whether the text of an argument is known, perhaps if its words are taken for text.
fn is_known(alloc: Global, argument: &[u8], are_text: bool) -> Result<bool, AllocError> {
    if text_of(argument).is_some() || !are_text {
        return Ok(text_of(argument).is_some());
    }
    let put = filled(alloc, ARGUMENT, &[argument], true, b"")?;
    Ok(put.is_some())
}

/// Returns the text that m4 puts in the place of an argument, if that is known, perhaps if its words
/// are taken for text.
pub(crate) fn text_in<'a>(
    alloc: Global,
    text: &'a [u8],
    arg: Extent,
    are_text: bool,
) -> Result<Option<&'a [u8]>, AllocError>
    ensures { IfOk result (λ o.
        IfSome o (λ t. t.now ≡ filled.text_of (Some (arg_text text.now arg)))) }
{
    if !is_known(alloc, part(text, arg.start, arg.end), are_text)? {
        return Ok(None);
    }
    Ok(Some(inner(text, arg)))
}
