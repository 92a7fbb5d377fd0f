//! Writing whole texts.

ghost use Rattle.std.specs.Prelude.{◌≡◌, ℕ, [], ◌∷◌, IfOk, IfSome, OnOk, OnErr, Option, Some, string_bytes};
ghost use Rattle.file_disk.specs.Known.{Adds, Does, Made, Filled, Renamed, kind_under, mode_under};
ghost use Rattle.file_disk.specs.declared.found.Found.TheVariants as found;
ghost use Rattle.file_texts.specs.Names.{IsFileName, temporary};
ghost use Rattle.file_texts.specs.Steps as meant;
ghost use Rattle.file_texts.specs.Steps.{writing, new_mode, IsOld, IsModeFor, IsWritten, IsUnnamed, IsDropped, IsUndone, IsReplaced, IsBegun};

use crate::names::{file_name, no_name, temporary};
use file_disk::{Disk, Found, clear, create_filled, not_regular};
use std::alloc::Global;
use std::io::{self, ErrorKind};

/// How many names are tried for a new file.
const MOST_NAMES: u32 = 1000;

/// A file that was just made, with its name.
#[derive(Drop)]
struct NewFile<T: Drop> {
    file: T,
    name: String,
}

/// Makes a new file in the directory of a file, under the first name `acrun-N.tmp` that is not
/// there, N from 1 on.
fn make_beside<D: Disk>(alloc: Global, disk: &mut D, name: &str) -> io::Result<NewFile<D::File>>
    ensures made { IfOk result (λ made. (n : ℕ) × (string_bytes made.name ≡ temporary name.now n)
        × IfSome (D.known disk.old) (λ k. kind_under k (temporary name.now n) ≡ found.Nothing)
        × Adds (D.known disk.old) (D.known disk.new) (Made (temporary name.now n) ∷ [])) }
    ensures refused { OnErr result (Adds (D.known disk.old) (D.known disk.new) []) }
{
    for number in 1..=MOST_NAMES {
        let other = temporary(alloc, name, number)?;
        match disk.create(other.as_str()) {
            Ok(file) => return Ok(NewFile { file, name: other }),
            Err(e) if e.kind() == ErrorKind::AlreadyExists => {}
            Err(e) => return Err(e),
        }
    }
    Err(io::Error::new(
        ErrorKind::AlreadyExists,
        "1,000 names for a new file are taken",
    ))
}

/// The permission bits of an old file that a new one may have though the system doesn't give them.
#[derive(Clone, Copy)]
pub enum Keeps {
    /// Those to execute it.
    Permissions,
    /// None.
    NoExecution,
}

/// Returns the bits to execute a file that may be kept.
fn executable(keeps: Keeps) -> u32
    ensures { result ≡ meant.executable keeps }
{
    match keeps {
        Keeps::Permissions => 0o111,
        Keeps::NoExecution => 0,
    }
}

/// Returns the permission bits of the regular file that is replaced, if there is one, or an error if
/// what is under its name is not replaced.
fn old_of(found: Found) -> io::Result<Option<u32>>
    ensures { IfOk result (IsOld found) }
{
    match found {
        Found::File { mode } => Ok(Some(mode)),
        Found::Link => Ok(None),
        Found::Nothing => Ok(None),
        _ => Err(not_regular(found)),
    }
}

/// Returns the permission bits of a new file in the place of an old one, if the system gave it
/// those. Whoever made the old file, and whatever group or list of access it has, it gives nobody a
/// right to read or to write the new one that the system didn't give.
fn mode_for(keeps: Keeps, old: u32, new: u32) -> u32
    ensures { IsModeFor keeps (Some new) (Some old) (Some result) }
{
    let executable = executable(keeps);
    let staying = new & (0o700 | (old & 0o77));
    staying | (old & executable & ((staying & 0o444) / 4))
}

/// Returns the permission bits that a new file gets, if the system is to be asked for some.
fn mode_of<D: Disk>(
    disk: &D,
    other: &str,
    file: &D::File,
    old: Option<u32>,
    keeps: Keeps,
) -> io::Result<Option<u32>>
    ensures { IfOk result (λ mode. IfSome (D.known disk.now)
        (λ k. IsModeFor keeps (mode_under k other.now) old mode)) }
{
    match old {
        Some(old) => {
            let new = disk.mode(other, file)?;
            Ok(Some(mode_for(keeps, old, new)))
        }
        None => Ok(None),
    }
}

/// Writes a text to a new file, closes it, and gives it another name.
fn fill_and_rename<D: Disk>(
    disk: &mut D,
    other: &str,
    file: D::File,
    old: Option<u32>,
    keeps: Keeps,
    text: &[u8],
    name: &str,
) -> io::Result<()>
    ensures done { OnOk result ((mode : Option ℕ)
        × IfSome (D.known disk.old) (λ k. IsModeFor keeps (mode_under k other.now) old mode)
        × Adds (D.known disk.old) (D.known disk.new)
        (Filled other.now mode text.now ∷ Renamed other.now name.now ∷ [])) }
    ensures failed { OnErr result
        (Does (D.known disk.old) (D.known disk.new) (λ _ deeds. IsUnnamed other.now deeds)) }
{
    let mode = mode_of(disk, other, &file, old, keeps)?;
    disk.fill(other, file, mode, text)?;
    disk.rename(other, name)
}

/// Writes a text to a new file, closes it, and gives it another name. If that fails, removes it.
fn finish<D: Disk>(
    disk: &mut D,
    other: &str,
    file: D::File,
    old: Option<u32>,
    keeps: Keeps,
    text: &[u8],
    name: &str,
) -> io::Result<()>
    ensures done { OnOk result ((mode : Option ℕ)
        × IfSome (D.known disk.old) (λ k. IsModeFor keeps (mode_under k other.now) old mode)
        × Adds (D.known disk.old) (D.known disk.new)
        (Filled other.now mode text.now ∷ Renamed other.now name.now ∷ [])) }
    ensures failed { OnErr result
        (Does (D.known disk.old) (D.known disk.new) (λ _ deeds. IsDropped other.now deeds)) }
{
    match fill_and_rename(disk, other, file, old, keeps, text, name) {
        Ok(()) => Ok(()),
        Err(e) => {
            let _ = disk.remove(other);
            Err(e)
        }
    }
}

/// Puts a new file with this text in the place of a file, of a link, or of none. If that fails,
/// what was there is as it was.
fn replace<D: Disk>(
    alloc: Global,
    disk: &mut D,
    name: &str,
    old: Option<u32>,
    keeps: Keeps,
    text: &[u8],
) -> io::Result<()>
    ensures written { OnOk result ((n : ℕ) × (mode : Option ℕ)
        × IfSome (D.known disk.old) (λ k. kind_under k (temporary name.now n) ≡ found.Nothing)
        × IfSome (D.known disk.old)
        (λ k. IsModeFor keeps (new_mode k (temporary name.now n)) old mode)
        × Adds (D.known disk.old) (D.known disk.new) (writing name.now mode text.now n)) }
    ensures undone { OnErr result
        (Does (D.known disk.old) (D.known disk.new) (λ _ deeds. IsUndone name.now deeds)) }
{
    match make_beside(alloc, disk, name) {
        Ok(new) => {
            let NewFile { file, name: other } = new;
            finish(disk, other.as_str(), file, old, keeps, text, name)
        }
        Err(e) => Err(e),
    }
}

/// Writes a text to a file (own).
///
/// The text is written to a new file in the same directory, under the first name `acrun-N.tmp` that
/// is not there, and that file is renamed. So the name has what it had or the whole text, at each
/// moment, unless the power fails. If `name` names a symbolic link or nothing, the new file has the
/// permissions that the system gives. If it names a regular file, the new file has those less what
/// the group and others could not do with the old one, and it may be executed by whoever could
/// execute the old one and can read it, unless `keeps` says otherwise. A link is replaced, and what it
/// names is not touched.
///
/// # Errors
///
/// Fails if memory runs out, no file can have this name, `name` names a directory, a pipe, a socket
/// or a device, 1,000 names are taken, or the system refuses one of these steps. Then what is under
/// the name is as it was, and the new file is gone, unless the system refuses to remove it.
pub fn write_text<D: Disk>(
    alloc: Global,
    disk: &mut D,
    name: &[u8],
    keeps: Keeps,
    text: &[u8],
) -> io::Result<()>
    ensures name { IfOk result (λ _. IsFileName name.now) }
    ensures written { OnOk result
        (Does (D.known disk.old) (D.known disk.new)
        (λ k deeds. IsWritten k keeps name.now text.now deeds)) }
    ensures undone { OnErr result
        (Does (D.known disk.old) (D.known disk.new) (λ _ deeds. IsUndone name.now deeds)) }
{
    let Some(path) = file_name(name) else {
        return Err(no_name(name));
    };
    let found = disk.look(path)?;
    let old = old_of(found)?;
    replace(alloc, disk, path, old, keeps, text)
}

/// Writes a text to a new file of this name. A regular file or a link of this name is removed
/// first. So nothing is written through a link, and a pipe or a device is not opened. A new file is
/// also faster: ext4 writes one that was truncated to the disk when it is closed.
///
/// # Errors
///
/// Fails if no file can have this name, or the system refuses a step. Then what was under the name
/// may be gone, and the new file may have a part of the text.
pub(crate) fn write_new<D: Disk>(disk: &mut D, name: &[u8], text: &[u8]) -> io::Result<()>
    ensures name { IfOk result (λ _. IsFileName name.now) }
    ensures replaced { OnOk result
        (Does (D.known disk.old) (D.known disk.new)
        (λ k deeds. IsReplaced k name.now text.now deeds)) }
    ensures begun { OnErr result
        (Does (D.known disk.old) (D.known disk.new) (λ k deeds. IsBegun k name.now deeds)) }
{
    match file_name(name) {
        Some(path) => {
            clear(disk, path)?;
            create_filled(disk, path, text)
        }
        None => Err(no_name(name)),
    }
}
