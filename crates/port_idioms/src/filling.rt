//! An idiom with the arguments of a call.

ghost use Rattle.std.specs.Prelude.{◌≡◌, ◌++◌, ◌==◌, ◌<◌, length, map, option_map, position, slice_get, IfOk, IfSome, IsTrue, OnOk};
ghost use Rattle.std.specs.List.{flat_map};
ghost use Rattle.m4quote.specs.Names.{sh_byte, cpp_byte};
ghost use Rattle.lint_macros.specs.Around.{around};
ghost use Rattle.lint_macros.specs.Values.{unquoted};
ghost use Rattle.text_cut.specs.Cuts.{trimmed};
ghost use Rattle.port_idioms.specs.Filled as specs;

use crate::asked::is_run;
use lint_macros::{Form, HoleSource};
use lint_text::is_word_byte;
use m4quote::{cpp_name, sh_name};
use std::alloc::{AllocError, Global};
use text_cut::{is_blank, parts, trim};

/// What the names of macros begin with.
const FRONTS: [&[u8]; 13] = [
    b"m4_", b"gl_", b"gt_", b"AC_", b"ACX_", b"AH_", b"AM_", b"AS_", b"AU_", b"AX_", b"IT_",
    b"LT_", b"PKG_",
];

/// Returns whether m4 may have a definition of the word.
fn is_known(word: &[u8]) -> bool {
    word == b"dnl".as_slice()
        || word.starts_with(b"m4_")
        || word.starts_with(b"gl_")
        || word.first().is_some_and(|byte| byte.is_ascii_uppercase()) && word.contains(&b'_')
}

/// Returns whether a word begins as the names of macros do that packages don't define themselves.
fn begins_as_macro(word: &[u8]) -> bool {
    FRONTS.iter().any(|front| word.starts_with(front))
}

/// Returns whether m4 may have a definition of a word of the text. If its words are taken for text,
/// that is asked of those alone that begin as the name of a macro.
fn has_macro(text: &[u8], are_text: bool) -> bool {
    let mut words = text.split(|byte| !is_word_byte(*byte));
    if are_text {
        words.any(|word| word == b"dnl".as_slice() || begins_as_macro(word))
    } else {
        words.any(is_known)
    }
}

/// Returns the text without the pair of brackets around it, if it has one.
pub fn unquoted(text: &[u8]) -> &[u8]
    ensures { result.now ≡ unquoted text.now }
{
    let len = text.len();
    if len >= 2 && text[0] == b'[' && text[len - 1] == b']' {
        &text[1..len - 1]
    } else {
        text
    }
}

/// Returns whether the byte means the same to m4 between brackets and without them.
fn is_verbatim(byte: u8) -> bool {
    !matches!(byte, b'[' | b']' | b'(' | b')' | b',' | b'#')
}

/// Returns whether m4 puts the one text in the place of the other, which is the same or has
/// brackets around it, whatever the macros are, or if its words are text.
fn is_certain(written: &[u8], inner: &[u8], are_text: bool) -> bool {
    if inner.len() < written.len() {
        is_run(written)
    } else {
        written.iter().all(|byte| is_verbatim(*byte)) && !has_macro(written, are_text)
    }
}

/// Returns the text that m4 puts in the place of an argument, if that is known without a definition
/// of any macro, or if its words are text.
fn text_by(argument: &[u8], are_text: bool) -> Option<&[u8]>
    ensures text { IfSome result (λ t. t.now ≡ unquoted (trimmed argument.now)) }
{
    let written = trim(argument);
    let inner = unquoted(written);
    if is_certain(written, inner, are_text) {
        Some(inner)
    } else {
        None
    }
}

/// Returns the text that m4 puts in the place of an argument, if that is known without a definition
/// of any macro.
///
/// It has no blanks and no pair of brackets around it.
pub fn text_of(argument: &[u8]) -> Option<&[u8]>
    ensures text { IfSome result (λ t. t.now ≡ unquoted (trimmed argument.now)) }
{
    text_by(argument, false)
}

/// Returns the text of the argument of an index, if that is known. An argument that isn't given is
/// empty.
fn text_at<'a>(args: &[&'a [u8]], are_text: bool, index: usize) -> Option<&'a [u8]>
    ensures { IfSome result (λ t.
        t.now ≡ specs.text_of (slice_get (map (λ a. a.now) args.now) index)) }
{
    match args.get(index) {
        Some(argument) => text_by(argument, are_text),
        None => Some(b""),
    }
}

/// Returns whether an argument is one word.
fn is_word(text: &[u8]) -> bool {
    !text.is_empty()
        && text.iter().all(|byte| byte.is_ascii_alphanumeric()
            || matches!(*byte, b'_' | b'.' | b'/' | b'-' | b'+'))
}

/// A place of an idiom: the index of the argument, its form, and the text after the place.
#[derive(Clone, Copy)]
struct ArgumentPlace<'a> {
    index: usize,
    form: Form,
    rest: &'a [u8],
}

/// Returns the index of the argument that is put in a place.
fn index_of(source: HoleSource) -> Option<usize>
    ensures { result ≡ specs.index_of source }
{
    match source {
        HoleSource::Argument(index) => Some(index),
        HoleSource::All => None,
    }
}

/// Returns the place that a text after a `$` begins with.
fn argument_place(text: &[u8]) -> Option<ArgumentPlace<'_>>
    ensures { option_map specs.seen result ≡ specs.argument_place text.now }
{
    let place = lint_macros::hole_of(text)?;
    let index = index_of(place.source)?;
    Some(ArgumentPlace {
        index,
        form: place.form,
        rest: place.rest,
    })
}

/// Returns whether the byte is no blank.
fn is_shown(byte: u8) -> bool
    ensures { result ≡ specs.is_shown byte }
{
    !is_blank(byte)
}

/// Returns the offset of the first byte that is no blank.
fn first_shown(text: &[u8]) -> Option<usize>
    ensures value { result ≡ position specs.is_shown text.now }
    ensures within { IfSome result (λ i. i < length text.now) }
{
    text.iter().position(|byte| is_shown(*byte))
}

/// Returns an argument without the blanks before it.
fn begun(argument: &[u8]) -> &[u8]
    ensures { result.now ≡ specs.begun argument.now }
{
    match first_shown(argument) {
        Some(at) => &argument[at..argument.len()],
        None => b"",
    }
}

/// Returns the blanks after an argument, which are a part of it for m4.
pub fn ending(argument: &[u8]) -> &[u8]
    ensures blanks { result.now ≡ specs.ending argument.now }
{
    let text = begun(argument);
    let written = trim(text);
    &text[written.len()..text.len()]
}

/// Returns the blanks after the argument of an index.
fn ending_of<'a>(args: &[&'a [u8]], index: usize) -> &'a [u8]
    ensures { result.now ≡ specs.ending_of (slice_get (map (λ a. a.now) args.now) index) }
{
    match args.get(index) {
        Some(argument) => ending(argument),
        None => b"",
    }
}

/// Returns whether a place of this form takes the blanks after the argument.
fn takes_blanks(form: Form) -> bool
    ensures { result ≡ specs.takes_blanks form }
{
    match form {
        Form::Whole => true,
        Form::WholeWord => true,
        Form::AsItIs => false,
        Form::OneWord => false,
        Form::ShellName => false,
        Form::Symbol => false,
        Form::Front => false,
        Form::Rest => false,
    }
}

/// Returns the blanks that are put in a place after its argument.
fn ending_at<'a>(args: &[&'a [u8]], place: &ArgumentPlace<'_>) -> &'a [u8]
    ensures { result.now
        ≡ specs.ending_for place.now.form
        (slice_get (map (λ a. a.now) args.now) place.now.index) }
{
    if takes_blanks(place.form) {
        ending_of(args, place.index)
    } else {
        b""
    }
}

/// Returns whether the byte may be in a text that a name is made of.
fn is_plain_byte(byte: u8) -> bool {
    byte.is_ascii_alphanumeric()
        || matches!(
            byte,
            b'_' | b'.' | b'/' | b'-' | b'+' | b'*' | b'=' | b':' | b' '
        )
}

/// Returns whether a name can be made of a text without a shell.
fn is_plain(text: &[u8]) -> bool {
    !text.is_empty() && text.iter().all(|byte| is_plain_byte(*byte))
}

/// Returns the offset of the first dot.
fn dot_in(text: &[u8]) -> Option<usize>
    ensures value { result ≡ position (λ b. b == 46) text.now }
    ensures within { IfSome result (λ i. i < length text.now) }
{
    text.iter().position(|byte| *byte == b'.')
}

/// Returns the parts of a text before and after its first dot.
fn around_dot(text: &[u8]) -> Option<(&[u8], &[u8])>
    ensures { option_map (λ p. (p.0.now, p.1.now)) result ≡ around 46 text.now }
{
    match dot_in(text) {
        Some(i) => Some((&text[..i], &text[i + 1..])),
        None => None,
    }
}

/// Returns whether the name of a shell variable can be made of a text without a shell.
fn can_name(text: &[u8]) -> bool {
    !text.is_empty()
        && text
            .iter()
            .all(|byte| is_plain_byte(*byte) || *byte == b',')
}

/// Returns whether a text with these blanks after it can have a form.
fn can_have(form: Form, text: &[u8], blanks: &[u8]) -> bool {
    match form {
        Form::AsItIs => true,
        Form::Whole => true,
        Form::OneWord => is_word(text),
        Form::WholeWord => is_word(text) && blanks.is_empty(),
        Form::ShellName => can_name(text),
        _ => is_plain(text),
    }
}

/// Appends the text as a part of a shell variable's name.
fn put_shell_name(alloc: Global, out: &mut Vec<u8>, text: &[u8]) -> Result<(), AllocError>
    ensures { OnOk result (out.new.items ≡ out.old.items ++ map sh_byte text.now) }
{
    let name = sh_name(alloc, text)?;
    out.extend_from_slice(name.as_slice())
}

/// Appends the text as a part of a symbol.
fn put_symbol(alloc: Global, out: &mut Vec<u8>, text: &[u8]) -> Result<(), AllocError>
    ensures { OnOk result (out.new.items ≡ out.old.items ++ map cpp_byte text.now) }
{
    let name = cpp_name(alloc, text)?;
    out.extend_from_slice(name.as_slice())
}

/// Appends what is before the first dot of a text. Returns whether there is one.
fn put_front(out: &mut Vec<u8>, text: &[u8]) -> Result<bool, AllocError>
    ensures { IfOk result (λ b.
        IsTrue b → out.new.items ≡ out.old.items ++ specs.front_of (around 46 text.now)) }
{
    match around_dot(text) {
        Some((front, _)) => {
            out.extend_from_slice(front)?;
            Ok(true)
        }
        None => Ok(false),
    }
}

/// Appends what is after the first dot of a text. Returns whether there is one.
fn put_rest(out: &mut Vec<u8>, text: &[u8]) -> Result<bool, AllocError>
    ensures { IfOk result (λ b.
        IsTrue b → out.new.items ≡ out.old.items ++ specs.rest_of (around 46 text.now)) }
{
    match around_dot(text) {
        Some((_, rest)) => {
            out.extend_from_slice(rest)?;
            Ok(true)
        }
        None => Ok(false),
    }
}

/// Appends a text in a form. Returns whether it can have the form.
fn put_formed(alloc: Global, out: &mut Vec<u8>, form: Form, text: &[u8]) -> Result<bool, AllocError>
    ensures { IfOk result (λ b.
        IsTrue b → out.new.items ≡ out.old.items ++ specs.formed form text.now) }
{
    match form {
        Form::AsItIs => out.extend_from_slice(text)?,
        Form::Whole => out.extend_from_slice(text)?,
        Form::OneWord => out.extend_from_slice(text)?,
        Form::WholeWord => out.extend_from_slice(text)?,
        Form::ShellName => put_shell_name(alloc, out, text)?,
        Form::Symbol => put_symbol(alloc, out, text)?,
        Form::Front => return put_front(out, text),
        Form::Rest => return put_rest(out, text),
    }
    Ok(true)
}

/// Appends the text in a form, and the blanks after it. Returns whether it can have the form.
fn put_ended(
    alloc: Global,
    out: &mut Vec<u8>,
    form: Form,
    text: &[u8],
    blanks: &[u8],
) -> Result<bool, AllocError>
    ensures { IfOk result (λ b.
        IsTrue b
        → out.new.items ≡ out.old.items ++ (specs.formed form text.now ++ blanks.now)) }
{
    if !put_formed(alloc, out, form, text)? {
        return Ok(false);
    }
    out.extend_from_slice(blanks)?;
    Ok(true)
}

/// Appends the argument for a place. Returns whether it can be put there.
fn put_value(
    alloc: Global,
    out: &mut Vec<u8>,
    place: &ArgumentPlace<'_>,
    args: &[&[u8]],
    are_text: bool,
) -> Result<bool, AllocError>
    ensures { IfOk result (λ b.
        IsTrue b
        → out.new.items
        ≡ out.old.items ++ specs.value (specs.seen place.now) (map (λ a. a.now) args.now)) }
{
    let blanks = ending_at(args, place);
    match text_at(args, are_text, place.index) {
        Some(text) if can_have(place.form, text, blanks) => {
            put_ended(alloc, out, place.form, text, blanks)
        }
        _ => Ok(false),
    }
}

/// Appends the argument for a place and the text after it. Returns whether the argument can be put
/// there.
fn put_place(
    alloc: Global,
    out: &mut Vec<u8>,
    place: &ArgumentPlace<'_>,
    args: &[&[u8]],
    are_text: bool,
) -> Result<bool, AllocError>
    ensures { IfOk result (λ b.
        IsTrue b
        → out.new.items
        ≡ out.old.items
        ++ (specs.value (specs.seen place.now) (map (λ a. a.now) args.now)
        ++ place.now.rest.now)) }
{
    if !put_value(alloc, out, place, args, are_text)? {
        return Ok(false);
    }
    out.extend_from_slice(place.rest)?;
    Ok(true)
}

/// Appends a `$` and the text after it, with the argument in the place that the text may begin
/// with. Returns whether it could be put there.
fn put_sign(
    alloc: Global,
    out: &mut Vec<u8>,
    text: &[u8],
    args: &[&[u8]],
    are_text: bool,
) -> Result<bool, AllocError>
    ensures { IfOk result (λ b.
        IsTrue b
        → out.new.items
        ≡ out.old.items ++ specs.filled_sign (map (λ a. a.now) args.now) text.now) }
{
    match argument_place(text) {
        Some(place) => put_place(alloc, out, &place, args, are_text),
        None => {
            out.push(b'$')?;
            out.extend_from_slice(text)?;
            Ok(true)
        }
    }
}

/// Appends the texts after each `$`, with what becomes of these. Returns whether each argument
/// could be put there.
fn put_signs(
    alloc: Global,
    out: &mut Vec<u8>,
    texts: &[&[u8]],
    args: &[&[u8]],
    are_text: bool,
) -> Result<bool, AllocError>
    ensures { IfOk result (λ b.
        IsTrue b
        → out.new.items
        ≡ out.old.items
        ++ flat_map (specs.filled_sign (map (λ a. a.now) args.now))
        (map (λ t. t.now) texts.now)) }
{
    for text in texts {
        if !put_sign(alloc, out, text, args, are_text)? {
            return Ok(false);
        }
    }
    Ok(true)
}

/// Appends a line of an idiom, with the arguments in their places. Returns whether each could be
/// put there.
#[tactic(auto, unfolding(crate::specs::Filled::filled_line))]
fn put_line(
    alloc: Global,
    out: &mut Vec<u8>,
    line: &[u8],
    args: &[&[u8]],
    are_text: bool,
) -> Result<bool, AllocError>
    ensures { IfOk result (λ b.
        IsTrue b
        → out.new.items
        ≡ out.old.items ++ specs.filled_line (map (λ a. a.now) args.now) line.now) }
{
    let texts = parts(alloc, line, b'$')?;
    if let Some((first, more)) = texts.as_slice().split_first() {
        out.extend_from_slice(first)?;
        return put_signs(alloc, out, more, args, are_text);
    }
    Ok(true)
}

/// Appends a newline, the indent, and a line of an idiom. Returns whether each argument could be
/// put there.
fn put_next(
    alloc: Global,
    out: &mut Vec<u8>,
    line: &[u8],
    args: &[&[u8]],
    are_text: bool,
    indent: &[u8],
) -> Result<bool, AllocError>
    ensures { IfOk result (λ b.
        IsTrue b
        → out.new.items
        ≡ out.old.items
        ++ specs.filled_next (map (λ a. a.now) args.now) indent.now line.now) }
{
    out.push(b'\n')?;
    out.extend_from_slice(indent)?;
    put_line(alloc, out, line, args, are_text)
}

/// Appends the lines of an idiom. Returns whether each argument could be put there.
fn put_lines(
    alloc: Global,
    out: &mut Vec<u8>,
    texts: &[&[u8]],
    args: &[&[u8]],
    are_text: bool,
    indent: &[u8],
) -> Result<bool, AllocError>
    ensures { IfOk result (λ b.
        IsTrue b
        → out.new.items
        ≡ out.old.items
        ++ specs.filled_lines (map (λ a. a.now) args.now) indent.now
        (map (λ t. t.now) texts.now)) }
{
    let Some((first, more)) = texts.split_first() else {
        return Ok(true);
    };
    if !put_line(alloc, out, first, args, are_text)? {
        return Ok(false);
    }
    for text in more {
        if !put_next(alloc, out, text, args, are_text, indent)? {
            return Ok(false);
        }
    }
    Ok(true)
}

/// Returns an idiom with the arguments in their places and the indent at the front of each line but
/// the first, or `None` if one can't be put there.
///
/// An argument is put in its place without the blanks and the pair of brackets around it, but with
/// the blanks after it if the place asks for them. If it has no brackets, a word of it may be a
/// macro of the package, unless the words are taken for text.
#[tactic(auto, unfolding(crate::specs::Filled::filled))]
pub fn filled(
    alloc: Global,
    idiom: &[u8],
    args: &[&[u8]],
    are_text: bool,
    indent: &[u8],
) -> Result<Option<Vec<u8>>, AllocError>
    ensures filled { IfOk result (λ o.
        IfSome o (λ v. v.items ≡ specs.filled (map (λ a. a.now) args.now) indent.now idiom.now)) }
{
    let lines = parts(alloc, idiom, b'\n')?;
    let mut out = Vec::new(alloc);
    if put_lines(alloc, &mut out, lines.as_slice(), args, are_text, indent)? {
        Ok(Some(out))
    } else {
        Ok(None)
    }
}
