//! Reading whole texts.

ghost use Rattle.std.specs.Prelude.{◌≡◌, ◌≤◌, ◌<◌, ◌^◌, length, IfOk, IfSome, IfNone};
ghost use Rattle.file_disk.specs.Regular.{IsOpened};
ghost use Rattle.file_texts.specs.Names.{IsFileName};
ghost use Rattle.file_texts.specs.Reading.{IsReadLimited, IsReadWhole};

use crate::names::{file_name, no_name};
use deftable::Bytes;
use file_disk::{Disk, LARGEST_TEXT};
use std::alloc::{AllocError, Global};
use std::io;

/// Returns the text of a file, or its first 64 MiB and one byte more, or `None` if it can't be
/// read: there is no such file, it is no regular file, it may not be read, a read of it fails, or
/// no file can have this name (own).
///
/// So a text that is too large for who reads it is found to be so, however large it is.
///
/// # Errors
///
/// Fails only if memory runs out.
pub fn read_limited<D: Disk>(
    alloc: Global,
    disk: &D,
    name: &[u8],
) -> Result<Option<Bytes>, AllocError>
    ensures name { IfOk result (λ o. IfSome o (λ _. IsFileName name.now)) }
    ensures text { IfOk result (λ o. IfSome (D.known disk.now) (λ k. IsReadLimited k name.now o)) }
{
    let Some(name) = file_name(name) else {
        return Ok(None);
    };
    disk.read(alloc, name)
}

/// Returns the text, unless it has more than 64 MiB.
fn if_whole(text: Bytes) -> Option<Bytes>
    ensures text { IfSome result (λ whole. whole ≡ text) }
    ensures limit { IfSome result (λ whole. length whole ≤ 2 ^ 26) }
    ensures larger { IfNone result (2 ^ 26 < length text) }
{
    if text.len() <= LARGEST_TEXT {
        Some(text)
    } else {
        None
    }
}

/// Returns the text of a file, or `None` if it can't be read, as [`read_limited`] says, or has more
/// than 64 MiB (own).
///
/// # Errors
///
/// Fails only if memory runs out.
pub fn read_text<D: Disk>(alloc: Global, disk: &D, name: &[u8]) -> Result<Option<Bytes>, AllocError>
    ensures name { IfOk result (λ o. IfSome o (λ _. IsFileName name.now)) }
    ensures limit { IfOk result (λ o. IfSome o (λ text. length text ≤ 2 ^ 26)) }
    ensures text { IfOk result (λ o. IfSome (D.known disk.now) (λ k. IsReadWhole k name.now o)) }
{
    match read_limited(alloc, disk, name)? {
        Some(text) => Ok(if_whole(text)),
        None => Ok(None),
    }
}

/// Returns why [`read_text`] reads nothing under a name, or `None` if the file can be opened and
/// isn't too large. The file is looked at now, and may have been another one before (own).
pub fn unread_cause<D: Disk>(disk: &D, name: &[u8]) -> Option<io::Error>
    ensures name { IfNone result (IsFileName name.now) }
    ensures opened { IfNone result (IfSome (D.known disk.now) (λ k. IsOpened k name.now)) }
{
    let Some(name) = file_name(name) else {
        return Some(no_name(name));
    };
    disk.cause(name)
}
