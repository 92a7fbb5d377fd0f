//! The files of a real system.

ghost use Rattle.std.specs.Prelude.{◌≡◌, ◌≤◌, ◌+◌, ◌^◌, ℕ, List, None, Option, take, IfErr, IfNone, IfOk, IfSome, OnOk};
ghost use Rattle.std.specs.Io.KnownBytes.{Appends};
ghost use Rattle.file_disk.specs.Regular.{IsRegular, IsSaid};
ghost use Rattle.file_disk.specs.declared.found.Found.{Found};

use crate::disk_trait::Disk;
use crate::found::{Found, not_regular};
use deftable::Bytes;
use std::alloc::{AllocError, Global};
use std::fs::{self, File, Metadata, OpenFile, Permissions};
use std::io::{self, ErrorKind, Read, Write};
use std::os::unix::fs::{MetadataExt, PermissionsExt};
use std::rt::Files;

/// The largest number of bytes of a text that is read whole, 64 MiB.
pub const LARGEST_TEXT: usize = 67_108_864;

/// The files of a real system. Nothing is known of them.
#[derive(Drop)]
pub struct Host<'a, F: Files> {
    files: &'a F,
    /// The device of the directory in which the program runs and its number there, if that was looked
    /// at.
    here: Option<(u64, u64)>,
}

impl<'a, F: Files> Host<'a, F> {
    /// Returns the disk of these files.
    pub fn new(files: &'a F) -> Host<'a, F>
        ensures { result.files.now ≡ files.now }
    {
        Host { files, here: None }
    }

    /// Returns the disk of these files. It looks at the directory in which the program runs now, and
    /// not again. The program never changes which one that is.
    pub fn from_here(files: &'a F) -> Host<'a, F>
        ensures { result.files.now ≡ files.now }
    {
        let here = identity(files, ".").ok();
        Host { files, here }
    }
}

/// Returns the device of a directory and its number there.
fn identity<F: Files>(files: &F, name: &str) -> io::Result<(u64, u64)> {
    let found = fs::metadata(files, name)?;
    Ok((found.dev(), found.ino()))
}

/// Returns whether the name is one of the directory in which the program runs.
fn is_here(name: &str) -> bool {
    name == "." || name == "./"
}

/// Returns how many bytes a file has, as far as they are read, or `None` if the system doesn't say.
fn size_of<T: OpenFile>(file: &T) -> Option<usize>
    ensures { IfSome result (λ size. size ≤ 2 ^ 26) }
{
    match file.metadata() {
        Ok(found) if found.len() <= LARGEST_TEXT as u64 => Some(found.len() as usize),
        Ok(_) => Some(LARGEST_TEXT),
        Err(_) => None,
    }
}

/// Returns all that a reader gives, but no more than one byte too many. There is room for `size`
/// bytes and one more at once, so a file of this size is read without a copy of what was read.
fn read_front<R: Read>(
    alloc: Global,
    reader: &mut R,
    size: usize,
) -> Result<Option<Bytes>, AllocError>
    requires { size ≤ 2 ^ 26 }
    ensures { IfOk result
        (λ o. IfSome o
        (λ text. IfSome (R.remaining reader.old) (λ all. text ≡ take (2 ^ 26 + 1) all))) }
{
    let mut text = Vec::with_capacity(alloc, size + 1)?;
    match reader.take(LARGEST_TEXT as u64 + 1).read_to_end(&mut text) {
        Ok(_) => Ok(Some(Bytes::from_vec(text))),
        Err(e) if e.kind() == ErrorKind::OutOfMemory => Err(AllocError),
        Err(_) => Ok(None),
    }
}

/// Returns what a name is a name of.
fn found_of(found: &Metadata) -> Found
    ensures { IsSaid found.now result }
{
    if found.is_file() {
        return Found::File {
            mode: found.permissions().mode(),
        };
    }
    if found.is_symlink() {
        return Found::Link;
    }
    if found.is_dir() {
        return Found::Directory;
    }
    Found::Special
}

/// Returns the text of a file that was opened, or its first 64 MiB and one byte more. A file without
/// a byte isn't read: a read of a file such as `/proc/kmsg`, which the system calls regular and empty,
/// may wait.
fn read_opened<T: OpenFile + Read>(
    alloc: Global,
    file: &mut T,
) -> Result<Option<Bytes>, AllocError> {
    match size_of(file) {
        Some(0) => Ok(Some(Bytes::new(alloc))),
        Some(size) => read_front(alloc, file, size),
        None => read_front(alloc, file, 0),
    }
}

/// Looks at what names lead to, and opens it. Of the real files nothing is known.
trait Opens {
    /// What was opened.
    type Opened;

    // What each name leads to, if that is known.
    ghost found: { Self → Option (List ℕ → Found) } = { λ _. None };

    /// Returns what a name leads to.
    fn follow(&self, name: &str) -> io::Result<Found>
        ensures { IfOk result (λ f. IfSome (found self.now) (λ under. f ≡ under name.now)) };

    /// Opens a regular file.
    fn open(&self, name: &str) -> io::Result<Self::Opened>
        requires { IfSome (found self.now) (λ under. IsRegular (under name.now)) };
}

/// Opens a regular file. Nothing else is opened, since a read of a pipe or of a device may wait.
fn open_regular<O: Opens>(files: &O, name: &str) -> io::Result<O::Opened>
    ensures { OnOk result (IfSome (O.found files.now) (λ under. IsRegular (under name.now))) }
{
    match files.follow(name) {
        Ok(Found::File { .. }) => files.open(name),
        Ok(found) => Err(not_regular(found)),
        Err(e) => Err(e),
    }
}

impl<'a, F: Files> Opens for Host<'a, F> {
    type Opened = F::File;

    fn follow(&self, name: &str) -> io::Result<Found> {
        let metadata = fs::metadata(self.files, name)?;
        Ok(found_of(&metadata))
    }

    fn open(&self, name: &str) -> io::Result<F::File> {
        fs::open(self.files, name)
    }
}

/// Returns the error of a file that was opened, if it has more than 64 MiB.
fn if_too_large<T: OpenFile>(file: &T) -> Option<io::Error> {
    match file.metadata() {
        Ok(found) if found.len() <= LARGEST_TEXT as u64 => None,
        Ok(_) => Some(io::Error::new(ErrorKind::FileTooLarge, "has more than 64 MiB")),
        Err(e) => Some(e),
    }
}

/// Gives a new file its permission bits, if there are some, and then writes a text to it.
fn fill<T: OpenFile + Write>(file: &mut T, mode: Option<u32>, text: &[u8]) -> io::Result<()>
    ensures { OnOk result (Appends (T.contents file.old) (T.contents file.new) text.now) }
{
    if let Some(mode) = mode {
        file.set_permissions(Permissions::from_mode(mode))?;
    }
    file.write_all(text)
}

impl<'a, F: Files> Disk for Host<'a, F> {
    type File = F::File;

    fn read(&self, alloc: Global, name: &str) -> Result<Option<Bytes>, AllocError> {
        match open_regular(self, name) {
            Ok(mut file) => read_opened(alloc, &mut file),
            Err(e) if e.kind() == ErrorKind::OutOfMemory => Err(AllocError),
            Err(_) => Ok(None),
        }
    }

    fn cause(&self, name: &str) -> Option<io::Error> {
        match &open_regular(self, name) {
            Ok(file) => if_too_large(file),
            Err(e) => Some(*e),
        }
    }

    fn look(&self, name: &str) -> io::Result<Found> {
        match fs::symlink_metadata(self.files, name) {
            Ok(found) => Ok(found_of(&found)),
            Err(e) if e.kind() == ErrorKind::NotFound => Ok(Found::Nothing),
            Err(e) => Err(e),
        }
    }

    fn link_target(&self, alloc: Global, name: &str) -> io::Result<String> {
        Ok(self.files.read_link(alloc, name)?.into_string())
    }

    fn directory(&self, name: &str) -> io::Result<(u64, u64)> {
        match self.here {
            Some(here) if is_here(name) => Ok(here),
            _ => identity(self.files, name),
        }
    }

    fn make_directories(&mut self, name: &str) -> io::Result<()> {
        fs::create_dir_all(self.files, name)
    }

    fn create(&mut self, name: &str) -> io::Result<F::File> {
        File::options()
            .write(true)
            .create_new(true)
            .open(self.files, name)
    }

    fn mode(&self, _name: &str, file: &F::File) -> io::Result<u32> {
        Ok(file.metadata()?.permissions().mode())
    }

    fn fill(
        &mut self,
        _name: &str,
        mut file: F::File,
        mode: Option<u32>,
        text: &[u8],
    ) -> io::Result<()> {
        fill(&mut file, mode, text)
    }

    fn rename(&mut self, from: &str, to: &str) -> io::Result<()> {
        fs::rename(self.files, from, to)
    }

    fn remove(&mut self, name: &str) -> io::Result<()> {
        fs::remove_file(self.files, name)
    }
}
