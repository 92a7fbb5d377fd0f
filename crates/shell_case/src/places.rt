//! Finds the first place of the pieces between two stars.

ghost use Rattle.std.specs.Prelude.{◌≡◌, ◌+◌, ◌-◌, ◌≤◌, ◌++◌, ◌&&◌, nat_le, true, false, length, map, take, replicate, IfOk, IfSome};
ghost use Rattle.std.specs.List.{list_all, list_any};
ghost use Rattle.shell_case.specs.Fronts.{shares, keep_long};
ghost use Rattle.shell_case.specs.Parts as words;
ghost use Rattle.memchr.specs.Find.{FindsNeedle};
ghost use Rattle.shellword.specs.declared.pattern.Piece.TheVariants.{Byte};

use crate::fronts::shared_fronts;
use memchr::memmem;
use shellword::Piece;
use std::alloc::{AllocError, Global};

/// Returns whether the piece is `?`.
fn is_one_byte(piece: &Piece) -> bool
    ensures { result ≡ words.is_one_byte piece.now }
{
    matches!(piece, Piece::OneByte)
}

/// Returns whether one of the pieces is `?`.
fn has_one_byte(pieces: &[Piece]) -> bool
    ensures { result ≡ list_any words.is_one_byte pieces.now }
{
    pieces.iter().any(is_one_byte)
}

/// Returns the byte that the piece matches, or 0 if it matches several.
fn byte_of(piece: Piece) -> u8
    ensures { result ≡ words.byte_of piece }
{
    match piece {
        Piece::Byte(byte) => byte,
        _ => 0,
    }
}

/// Returns the byte of each piece.
fn bytes_of(alloc: Global, pieces: &[Piece]) -> Result<Vec<u8>, AllocError>
    ensures count { IfOk result (λ v. length v.items ≡ length pieces.now) }
    ensures bytes { IfOk result (λ v. v.items ≡ map words.byte_of pieces.now) }
{
    let mut bytes = Vec::new(alloc);
    for piece in pieces {
        bytes.push(byte_of(*piece))?;
    }
    Ok(bytes)
}

/// Returns whether the piece is a byte.
fn is_byte(piece: &Piece) -> bool
    ensures { result ≡ words.is_byte piece.now }
{
    matches!(piece, Piece::Byte(_))
}

/// Returns the number of bytes before the first piece that isn't one.
fn byte_count(pieces: &[Piece]) -> usize
    ensures value { result ≡ words.byte_count pieces.now }
    ensures bound { result ≤ length pieces.now }
{
    for (i, piece) in pieces.iter().enumerate() {
        if !is_byte(piece) {
            return i;
        }
    }
    pieces.len()
}

/// Returns whether the flag is set and the length is at least `least`.
fn is_kept(flag: bool, len: usize, least: usize) -> bool
    ensures { result ≡ (flag && nat_le least len) }
{
    flag && len >= least
}

/// Returns, for each flag and its length, whether the flag is set and the length is at least `len`.
fn keep_long(
    alloc: Global,
    flags: &[bool],
    lens: &[usize],
    len: usize,
) -> Result<Vec<bool>, AllocError>
    requires { length flags.now ≤ length lens.now }
    ensures { IfOk result (λ v. v.items ≡ keep_long len flags.now lens.now) }
{
    let mut kept = Vec::new(alloc);
    for (i, flag) in flags.iter().enumerate() {
        kept.push(is_kept(*flag, lens[i], len))?;
    }
    Ok(kept)
}

/// Returns the lengths that the part, with the text after it, shares with the text from each offset
/// on.
fn part_lens(alloc: Global, part: &[u8], text: &[u8]) -> Result<Vec<usize>, AllocError>
    ensures count { IfOk result (λ v. length v.items ≡ length part.now + length text.now) }
    ensures value { IfOk result (λ v.
        v.items ≡ shares (part.now ++ text.now) (part.now ++ text.now)) }
{
    let mut whole = Vec::new(alloc);
    whole.extend_from_slice(part)?;
    whole.extend_from_slice(text)?;
    shared_fronts(alloc, &whole)
}

/// Returns, for each flag of an offset, whether the flag is set and the part occurs there.
fn keep_part(
    alloc: Global,
    flags: &[bool],
    part: &[u8],
    text: &[u8],
) -> Result<Vec<bool>, AllocError>
    requires { length flags.now ≤ length text.now }
    ensures { IfOk result (λ v.
        v.items ≡ words.keep_places (map Byte part.now) flags.now text.now) }
{
    let lens = part_lens(alloc, part, text)?;
    keep_long(alloc, flags, &lens[part.len()..], part.len())
}

/// Returns the same flags as [`keep_part`], of a part that may have no byte.
#[tactic(auto, using(crate::proofs::Flags::kept_empty))]
fn keep_any(
    alloc: Global,
    flags: Vec<bool>,
    part: &[u8],
    text: &[u8],
) -> Result<Vec<bool>, AllocError>
    requires { 1 ≤ length part.now → length flags.items ≤ length text.now }
    ensures { IfOk result (λ v.
        v.items ≡ words.keep_places (map Byte part.now) flags.items text.now) }
{
    if part.is_empty() {
        return Ok(flags);
    }
    keep_part(alloc, &flags, part, text)
}

/// Returns `count` flags that are set.
fn all_set(alloc: Global, count: usize) -> Result<Vec<bool>, AllocError>
    ensures { IfOk result (λ v. v.items ≡ replicate count true) }
{
    vec![in alloc; true; count]
}

/// Returns, for each offset at which the text is long enough for the pieces, whether they fit
/// there.
fn places(alloc: Global, pieces: &[Piece], text: &[u8]) -> Result<Vec<bool>, AllocError>
    requires single { list_all words.is_single pieces.now ≡ true }
    requires some { 1 ≤ length pieces.now }
    requires long { length pieces.now ≤ length text.now }
    ensures { IfOk result (λ v.
        v.items ≡ words.places pieces.now (length text.now + 1 - length pieces.now) text.now) }
{
    let mut flags = all_set(alloc, text.len() - pieces.len() + 1)?;
    let mut at = 0;
    // The label is for the proof only.
    'parts: loop {
        let rest = &pieces[at..];
        let len = byte_count(rest);
        let part = bytes_of(alloc, &rest[..len])?;
        flags = keep_any(alloc, flags, &part, &text[at..])?;
        if at + len == pieces.len() {
            return Ok(flags);
        }
        at += len + 1;
    }
}

/// Returns the number of flags before the first that is set.
fn unset_count(flags: &[bool]) -> usize
    ensures { result ≡ words.unset_count flags.now }
{
    for (i, flag) in flags.iter().enumerate() {
        if *flag {
            return i;
        }
    }
    flags.len()
}

/// Returns the first offset of the text at which the pieces fit, by the flags of the offsets.
fn place_by_flags(alloc: Global, pieces: &[Piece], text: &[u8]) -> Result<Option<usize>, AllocError>
    requires single { list_all words.is_single pieces.now ≡ true }
    requires some { 1 ≤ length pieces.now }
    requires long { length pieces.now ≤ length text.now }
    ensures { IfOk result (λ r. words.IsFirstPlace pieces.now text.now r) }
{
    let flags = places(alloc, pieces, text)?;
    let count = unset_count(&flags);
    if count == flags.len() {
        return Ok(None);
    }
    Ok(Some(count))
}

/// Returns the first offset at which the bytes occur in the text.
fn place_of_bytes(alloc: Global, pieces: &[Piece], text: &[u8]) -> Result<Option<usize>, AllocError>
    requires single { list_all words.is_single pieces.now ≡ true }
    requires bytes { list_any words.is_one_byte pieces.now ≡ false }
    ensures { IfOk result (λ r. words.IsFirstPlace pieces.now text.now r) }
{
    let bytes = bytes_of(alloc, pieces)?;
    Ok(memmem::find(text, &bytes))
}

/// Returns the first offset of the text at which the pieces, of which none is `*`, match one byte
/// each.
///
/// If no piece is `?`, the time is in proportion to the place, or to the length of the text if
/// there is none. Otherwise it is in proportion to the length of the text times the number of parts
/// between `?`. The number of pieces comes on top.
pub(crate) fn first_place(
    alloc: Global,
    pieces: &[Piece],
    text: &[u8],
) -> Result<Option<usize>, AllocError>
    requires single { list_all words.is_single pieces.now ≡ true }
    ensures place { IfOk result (λ r. words.IsFirstPlace pieces.now text.now r) }
    ensures within { IfOk result (λ r. IfSome r (λ k. k + length pieces.now ≤ length text.now)) }
{
    if pieces.len() > text.len() {
        return Ok(None);
    }
    if has_one_byte(pieces) {
        place_by_flags(alloc, pieces, text)
    } else {
        place_of_bytes(alloc, pieces, text)
    }
}
