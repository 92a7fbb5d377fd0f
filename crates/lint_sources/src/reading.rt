//! Reads the source that a word names.

ghost use Rattle.std.specs.Prelude.{◌≡◌, ◌<◌, ◌&&◌, false, None, codes, length, IfOk, IfSome, MatchOption, ⊤};
ghost use Rattle.file_texts.specs.Names as names;
ghost use Rattle.cmd_call.specs.Calls as calls;
ghost use Rattle.cmd_call.specs.Supplies.{ReadsWhole, path_of};
ghost use Rattle.lint_sources.specs.Sources as specs;

use crate::words::is_input;
use bstr::ByteSlice;
use deftable::Bytes;
use file_disk::Disk;
use file_texts::{ReadFault, path_in, read_input, read_text};
use std::alloc::{AllocError, Global};
use std::io::Read;

/// A source that was read.
#[derive(Drop)]
pub struct Linted {
    /// What it is called in what is printed.
    pub name: Bytes,
    /// The directory of its templates.
    pub directory: Bytes,
    pub text: Bytes,
}

/// The name of a source in a directory, and the source that is read if no word names one.
pub const SOURCE: &[u8] = b"configure.ac";

/// Returns where the last slash of a path is.
#[tactic(auto, using(crate::proofs::Paths::last_slash_is, crate::proofs::Paths::last_within))]
fn last_slash(path: &[u8]) -> Option<usize>
    ensures value { result ≡ names.last_slash path.now }
    ensures within { IfSome result (λ at. at < length path.now) }
{
    path.rfind_byte(b'/')
}

/// Returns the directory of the file at a path.
fn directory_of(path: &[u8]) -> &[u8]
    ensures { result.now ≡ specs.directory_of path.now }
{
    match last_slash(path) {
        Some(0) => b"/".as_slice(),
        Some(at) => &path[..at],
        None => b".".as_slice(),
    }
}

/// Returns a path as it is shown: with one slash in place of several.
pub(crate) fn shown_path(alloc: Global, path: &[u8]) -> Result<Bytes, AllocError> {
    let mut out = Vec::new(alloc);
    for byte in path {
        if *byte != b'/' || out.last() != Some(&b'/') {
            out.push(*byte)?;
        }
    }
    Ok(Bytes::from_vec(out))
}

/// Returns a source with this text, at a path.
fn source_at(alloc: Global, path: &[u8], text: Bytes) -> Result<Linted, AllocError>
    ensures text { IfOk result (λ l. l.text ≡ text) }
    ensures directory { IfOk result (λ l. l.directory ≡ specs.directory_of path.now) }
{
    let name = shown_path(alloc, path)?;
    let directory = Bytes::from_slice(alloc, directory_of(path))?;
    Ok(Linted {
        name,
        directory,
        text,
    })
}

/// Returns the source that standard input gives.
fn read_stream<R: Read>(alloc: Global, input: &mut R) -> Result<Option<Linted>, AllocError>
    ensures { IfOk result (λ o. MatchOption o ⊤ (λ l. l.directory ≡ codes ".")) }
{
    match read_input(alloc, input) {
        Ok(text) => Ok(Some(source_at(alloc, b"<stdin>", Bytes::from_vec(text))?)),
        Err(ReadFault::Read) => Ok(None),
        Err(ReadFault::OutOfMemory) => Err(AllocError),
    }
}

/// Returns the source at a path, or `None` if it can't be read.
fn read_at<D: Disk>(alloc: Global, disk: &D, path: &[u8]) -> Result<Option<Linted>, AllocError>
    ensures { IfOk result (λ o.
        MatchOption o (ReadsWhole (D.known disk.now) path.now None)
        (λ l. specs.IsAt (D.known disk.now) path.now l.text l.directory)) }
{
    match read_text(alloc, disk, path)? {
        Some(text) => Ok(Some(source_at(alloc, path, text)?)),
        None => Ok(None),
    }
}

/// Returns the source in a directory, or `None` if it can't be read.
fn read_within<D: Disk>(
    alloc: Global,
    disk: &D,
    directory: &[u8],
) -> Result<Option<Linted>, AllocError>
    ensures { IfOk result (λ o.
        MatchOption o (
        ReadsWhole (D.known disk.now) (path_of directory.now (codes "configure.ac")) None)
        (λ l.
        specs.IsAt (D.known disk.now) (path_of directory.now (codes "configure.ac")) l.text
        l.directory)) }
{
    let path = path_in(alloc, directory, SOURCE)?;
    read_at(alloc, disk, path.as_slice())
}

/// Returns the source at a path, or in the directory at that path, or `None` if it can't be read.
fn read_path<D: Disk>(alloc: Global, disk: &D, word: &[u8]) -> Result<Option<Linted>, AllocError>
    ensures { IfOk result (λ o.
        MatchOption o (specs.IsUnread (D.known disk.now) false word.now)
        (λ l. specs.IsNamed (D.known disk.now) false word.now l.text l.directory)) }
{
    if let Some(found) = read_at(alloc, disk, word)? {
        return Ok(Some(found));
    }
    match read_within(alloc, disk, word)? {
        Some(found) => Ok(Some(found)),
        None => Ok(None),
    }
}

/// Returns the source that a word names, or `None` if it can't be read. The word is the path of a
/// source or of a directory with a `configure.ac`, or `-` for standard input if that may be read.
pub fn read_named<D: Disk, R: Read>(
    alloc: Global,
    disk: &D,
    reads: bool,
    input: &mut R,
    word: &[u8],
) -> Result<Option<Linted>, AllocError>
    ensures input { reads ≡ false → input.new ≡ input.old }
    // Its text is that of the file, and its directory that of the path. If there is none, it can't be
    // read.
    ensures named { IfOk result (λ o.
        MatchOption o (
        specs.IsUnread (D.known disk.now) (reads && calls.is_input word.now) word.now)
        (λ l.
        specs.IsNamed (D.known disk.now) (reads && calls.is_input word.now) word.now l.text
        l.directory)) }
{
    if reads && is_input(word) {
        return read_stream(alloc, input);
    }
    read_path(alloc, disk, word)
}
