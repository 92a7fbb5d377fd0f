//! Fills the places of words.

ghost use Rattle.std.specs.Prelude.{◌≡◌, ◌++◌, take, decimal, slice_get, OnOk};
ghost use Rattle.std.specs.List.{flat_map};
ghost use Rattle.lint_table.specs.Filling as words;

use crate::part::WordPart;
use itoa::Buffer;
use std::alloc::AllocError;
use text_controls::escape;

/// Appends a byte, as `\xNN` if it is a control byte.
fn put_visible(out: &mut Vec<u8>, byte: u8) -> Result<(), AllocError>
    ensures { OnOk result (out.new.items ≡ out.old.items ++ words.visible byte) }
{
    if byte < 32 || byte == 127 {
        out.extend_from_slice(&escape(byte))
    } else {
        out.push(byte)?;
        Ok(())
    }
}

/// Appends the bytes, with control bytes as `\xNN`.
fn put_all_visible(out: &mut Vec<u8>, text: &[u8]) -> Result<(), AllocError>
    ensures { OnOk result (out.new.items ≡ out.old.items ++ flat_map words.visible text.now) }
{
    for byte in text {
        put_visible(out, *byte)?;
    }
    Ok(())
}

/// Appends two dots, if the text has more bytes than are quoted.
fn put_dots(out: &mut Vec<u8>, text: &[u8], most: usize) -> Result<(), AllocError>
    ensures { OnOk result (out.new.items ≡ out.old.items ++ words.dots most text.now) }
{
    if most < text.len() {
        out.extend_from_slice(b"..")
    } else {
        Ok(())
    }
}

/// Returns the text, or its front if it has more bytes than `most`.
#[tactic(auto, using(std::proofs::lemmas::List::take_all))]
fn front_of(text: &[u8], most: usize) -> &[u8]
    ensures { result.now ≡ take most text.now }
{
    if most < text.len() {
        &text[..most]
    } else {
        text
    }
}

/// Appends a text between backquotes. Of one that has more bytes than `most`, it is the front.
#[tactic(auto, unfolding(crate::specs::Filling::quoted))]
fn put_quoted(out: &mut Vec<u8>, text: &[u8], most: usize) -> Result<(), AllocError>
    ensures { OnOk result (out.new.items ≡ out.old.items ++ words.quoted most text.now) }
{
    out.extend_from_slice(b"`")?;
    put_all_visible(out, front_of(text, most))?;
    put_dots(out, text, most)?;
    out.extend_from_slice(b"`")
}

/// Appends a number in decimal digits.
fn put_number(out: &mut Vec<u8>, number: usize) -> Result<(), AllocError>
    ensures { OnOk result (out.new.items ≡ out.old.items ++ decimal number) }
{
    let mut digits = Buffer::new();
    out.extend_from_slice(digits.format(number).as_bytes())
}

/// Appends a part as it is shown.
fn put_part(out: &mut Vec<u8>, part: WordPart<'_>) -> Result<(), AllocError>
    ensures { OnOk result (out.new.items ≡ out.old.items ++ words.shown part.entry) }
{
    match part {
        WordPart::AsItIs(text) => out.extend_from_slice(text),
        WordPart::Quoted(text) => put_quoted(out, text, 60),
        WordPart::Value(text) => put_quoted(out, text, 1000),
        WordPart::Number(number) => put_number(out, number),
    }
}

/// Appends the part of this index, if there is one.
fn put_part_at(out: &mut Vec<u8>, parts: &[WordPart<'_>], index: usize) -> Result<(), AllocError>
    ensures { OnOk result (
        out.new.items ≡ out.old.items ++ words.shown_or (slice_get parts.now index)) }
{
    if index < parts.len() {
        put_part(out, parts[index])
    } else {
        Ok(())
    }
}

/// Appends a byte of the words, or the part whose place it is.
fn put_placed(out: &mut Vec<u8>, parts: &[WordPart<'_>], byte: u8) -> Result<(), AllocError>
    ensures { OnOk result (out.new.items ≡ out.old.items ++ words.placed parts.now byte) }
{
    if 1 <= byte && byte <= 3 {
        put_part_at(out, parts, (byte - 1) as usize)
    } else {
        out.push(byte)?;
        Ok(())
    }
}

/// Appends the words with their places filled.
#[tactic(auto, unfolding(crate::specs::Filling::filled))]
pub(crate) fn fill(out: &mut Vec<u8>, parts: &[WordPart<'_>], text: &[u8]) -> Result<(), AllocError>
    ensures { OnOk result (out.new.items ≡ out.old.items ++ words.filled parts.now text.now) }
{
    for byte in text {
        put_placed(out, parts, *byte)?;
    }
    Ok(())
}
