//! Fills the places of an idiom.

ghost use Rattle.std.specs.Prelude.{◌≡◌, ◌++◌, map, IfOk, OnOk};
ghost use Rattle.m4quote.specs.Names.{sh_byte, cpp_byte};
ghost use Rattle.lint_macros.specs.Filling as words;
ghost use Rattle.lint_macros.specs.Values as values;
ghost use Rattle.lint_macros.specs.Places.{seen};

use crate::cut::cut;
use crate::place::{Form, Hole, HoleSource, hole_of};
use crate::plain::{bare, is_plain_list, is_word, plain_at};
use deftable::Bytes;
use m4quote::{cpp_name, sh_name};
use std::alloc::{AllocError, Global};
use text_cut::parts;

/// Returns the text if it is one word, and otherwise the other text.
fn word_or<'a>(word: &'a [u8], text: &'a [u8]) -> &'a [u8]
    ensures { result.now ≡ values.formed_or Form.OneWord word.now text.now }
{
    if is_word(text) { text } else { word }
}

/// Returns the text before its first dot, or the word if it has none.
fn front_or<'a>(word: &'a [u8], text: &'a [u8]) -> &'a [u8]
    ensures { result.now ≡ values.formed_or Form.Front word.now text.now }
{
    match cut(text, b'.') {
        Some((front, _)) => front,
        None => word,
    }
}

/// Returns the text after its first dot, or the word if it has none.
fn rest_or<'a>(word: &'a [u8], text: &'a [u8]) -> &'a [u8]
    ensures { result.now ≡ values.formed_or Form.Rest word.now text.now }
{
    match cut(text, b'.') {
        Some((_, rest)) => rest,
        None => word,
    }
}

/// Appends the text as a part of a shell variable's name.
fn put_shell_name(alloc: Global, out: &mut Vec<u8>, text: &[u8]) -> Result<(), AllocError>
    ensures { OnOk result (out.new.items ≡ out.old.items ++ map sh_byte text.now) }
{
    let name = sh_name(alloc, text)?;
    out.extend_from_slice(name.as_slice())
}

/// Appends the text as a part of a symbol.
fn put_symbol(alloc: Global, out: &mut Vec<u8>, text: &[u8]) -> Result<(), AllocError>
    ensures { OnOk result (out.new.items ≡ out.old.items ++ map cpp_byte text.now) }
{
    let name = cpp_name(alloc, text)?;
    out.extend_from_slice(name.as_slice())
}

/// Appends the text in a form, or the word if the text can't have it.
fn put_formed(
    alloc: Global,
    out: &mut Vec<u8>,
    form: Form,
    word: &[u8],
    text: &[u8],
) -> Result<(), AllocError>
    ensures { OnOk result (
        out.new.items ≡ out.old.items ++ values.formed_or form word.now text.now) }
{
    match form {
        Form::AsItIs => out.extend_from_slice(text),
        Form::Whole => out.extend_from_slice(text),
        Form::OneWord => out.extend_from_slice(word_or(word, text)),
        Form::WholeWord => out.extend_from_slice(word_or(word, text)),
        Form::ShellName => put_shell_name(alloc, out, text),
        Form::Symbol => put_symbol(alloc, out, text),
        Form::Front => out.extend_from_slice(front_or(word, text)),
        Form::Rest => out.extend_from_slice(rest_or(word, text)),
    }
}

/// Appends the text in a form, or the word if there is no text.
fn put_given(
    alloc: Global,
    out: &mut Vec<u8>,
    form: Form,
    word: &[u8],
    text: Option<&[u8]>,
) -> Result<(), AllocError>
    ensures { OnOk result (
        out.new.items ≡ out.old.items ++ values.given_or form word.now (values.seen text.entry)) }
{
    match text {
        Some(text) => put_formed(alloc, out, form, word, text),
        None => out.extend_from_slice(word),
    }
}

/// Appends an argument in brackets, and a comma unless it is the last.
fn put_item(out: &mut Vec<u8>, argument: &[u8], is_last: bool) -> Result<(), AllocError>
    ensures { OnOk result (out.new.items ≡ out.old.items ++ values.item is_last argument.now) }
{
    out.push(b'[')?;
    out.extend_from_slice(bare(argument))?;
    out.extend_from_slice(if is_last { b"]" } else { b"], " })
}

/// Appends the arguments, each in brackets.
fn put_list(out: &mut Vec<u8>, args: &[&[u8]]) -> Result<(), AllocError>
    ensures { OnOk result (
        out.new.items ≡ out.old.items ++ values.listed (map (λ a. a.now) args.now)) }
{
    for i in 0..args.len() {
        put_item(out, args[i], i + 1 == args.len())?;
    }
    Ok(())
}

/// Appends the arguments if all are plain, and otherwise the word.
fn put_all(out: &mut Vec<u8>, word: &[u8], args: &[&[u8]]) -> Result<(), AllocError>
    ensures { OnOk result (
        out.new.items
        ≡ out.old.items
        ++ values.value_from HoleSource.All Form.AsItIs word.now
        (map (λ a. a.now) args.now)) }
{
    if is_plain_list(args) {
        put_list(out, args)
    } else {
        out.extend_from_slice(word)
    }
}

/// Appends what a place is filled with.
fn put_value(
    alloc: Global,
    out: &mut Vec<u8>,
    place: &Hole<'_>,
    args: &[&[u8]],
) -> Result<(), AllocError>
    ensures { OnOk result (
        out.new.items
        ≡ out.old.items ++ values.value (map (λ a. a.now) args.now) (seen place.now)) }
{
    match place.source {
        HoleSource::Argument(index) => {
            put_given(alloc, out, place.form, place.word, plain_at(args, index))
        }
        HoleSource::All => put_all(out, place.word, args),
    }
}

/// Appends a `$` and the text after it, or the value of the place that the text begins with and the
/// rest.
fn put_sign(alloc: Global, out: &mut Vec<u8>, text: &[u8], args: &[&[u8]]) -> Result<(), AllocError>
    ensures { OnOk result (
        out.new.items ≡ out.old.items ++ words.filled_sign (map (λ a. a.now) args.now) text.now) }
{
    match hole_of(text) {
        Some(place) => {
            put_value(alloc, out, &place, args)?;
            out.extend_from_slice(place.rest)
        }
        None => {
            out.push(b'$')?;
            out.extend_from_slice(text)
        }
    }
}

/// Appends the texts after each `$`, with what becomes of these.
fn put_signs(
    alloc: Global,
    out: &mut Vec<u8>,
    texts: &[&[u8]],
    args: &[&[u8]],
) -> Result<(), AllocError>
    ensures { OnOk result (
        out.new.items
        ≡ out.old.items
        ++ words.filled_signs (map (λ a. a.now) args.now) (map (λ t. t.now) texts.now)) }
{
    for text in texts {
        put_sign(alloc, out, text, args)?;
    }
    Ok(())
}

/// Returns the text with each of its places filled, for a call with these arguments.
///
/// An argument is what is between the commas of a call, with its brackets or without. It is put
/// into a place if it is a plain word or list: letters, digits, blanks, and the signs
/// `_ . / - + * = :`, without the blanks and up to two pairs of brackets around it. Otherwise the
/// word of the place is written there.
///
/// # Errors
///
/// Fails only if memory runs out.
#[tactic(auto, unfolding(crate::specs::Filling::filled))]
pub fn fill(alloc: Global, text: &[u8], args: &[&[u8]]) -> Result<Bytes, AllocError>
    ensures { IfOk result (λ made. made ≡ words.filled (map (λ a. a.now) args.now) text.now) }
{
    let texts = parts(alloc, text, b'$')?;
    let mut out = Vec::new(alloc);
    if let Some((first, more)) = texts.as_slice().split_first() {
        out.extend_from_slice(first)?;
        put_signs(alloc, &mut out, more, args)?;
    }
    Ok(Bytes::from_vec(out))
}
