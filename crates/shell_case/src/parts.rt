//! Matches a pattern against a text.

ghost use Rattle.std.specs.Prelude.{◌≡◌, ◌+◌, ◌≤◌, true, false, length, map, IfOk, IfSome};
ghost use Rattle.std.specs.List.{list_all, list_any};
ghost use Rattle.shell_case.specs.Parts as words;
ghost use Rattle.shellword.specs.Matcher.{matching};

use crate::places::first_place;
use shellword::Piece;
use std::alloc::{AllocError, Global};

/// Returns whether the piece matches one byte.
fn is_single(piece: &Piece) -> bool
    ensures { result ≡ words.is_single piece.now }
{
    !matches!(piece, Piece::AnyBytes)
}

/// Returns the number of pieces before the first `*`.
fn group_len(pieces: &[Piece]) -> usize
    ensures value { result ≡ words.group_len pieces.now }
    ensures bound { result ≤ length pieces.now }
{
    for (i, piece) in pieces.iter().enumerate() {
        if !is_single(piece) {
            return i;
        }
    }
    pieces.len()
}

/// Returns whether the piece is `?` or this byte.
fn takes(piece: &Piece, byte: u8) -> bool
    ensures { result ≡ words.takes piece.now byte }
{
    match *piece {
        Piece::AnyBytes => false,
        Piece::OneByte => true,
        Piece::Byte(wanted) => byte == wanted,
    }
}

/// Returns whether the text begins with bytes that the pieces match, one each.
fn fits(pieces: &[Piece], text: &[u8]) -> bool
    ensures { result ≡ words.fits pieces.now text.now }
{
    for (i, piece) in pieces.iter().enumerate() {
        if i >= text.len() {
            return false;
        }
        if !takes(piece, text[i]) {
            return false;
        }
    }
    true
}

/// Returns whether the text is bytes that the pieces match, one each.
fn fits_whole(pieces: &[Piece], text: &[u8]) -> bool
    ensures { result ≡ words.fits_whole pieces.now text.now }
{
    text.len() == pieces.len() && fits(pieces, text)
}

/// Returns whether the text ends with bytes that the pieces match, one each.
fn fits_end(pieces: &[Piece], text: &[u8]) -> bool
    ensures { result ≡ words.fits_end pieces.now text.now }
{
    text.len() >= pieces.len() && fits(pieces, &text[text.len() - pieces.len()..])
}

/// Returns whether the pieces match the whole text.
pub(crate) fn match_parts(alloc: Global, pieces: &[Piece], text: &[u8]) -> Result<bool, AllocError>
    ensures { IfOk result (λ b. b ≡ matching pieces.now text.now) }
{
    let first = group_len(pieces);
    if first == pieces.len() {
        return Ok(fits_whole(pieces, text));
    }
    if !fits(&pieces[..first], text) {
        return Ok(false);
    }
    // After the last `*`: the index of the next piece, and the offset of the text for it.
    let mut piece = first + 1;
    let mut at = first;
    // The label is for the proof only.
    'groups: loop {
        let len = group_len(&pieces[piece..]);
        let end = piece + len;
        let group = &pieces[piece..end];
        if end == pieces.len() {
            return Ok(fits_end(group, &text[at..]));
        }
        let place = first_place(alloc, group, &text[at..])?;
        let Some(found) = place else {
            return Ok(false);
        };
        piece = end + 1;
        at += found + len;
    }
}
