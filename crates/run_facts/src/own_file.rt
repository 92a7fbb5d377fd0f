//! A file that only its user could have written.

use deftable::Bytes;
use std::alloc::Global;
use std::fs::{self, Metadata, OpenFile};
use std::io::Read;
use std::os::unix::fs::MetadataExt;
use std::rt::Files;

/// The largest number of bytes that are read: 64 MiB, which is as much as is ever written.
const LARGEST: u64 = 67_108_864;

/// The bits of a mode that let the group or others write.
const WRITE_BITS: u32 = 0o022;

/// Returns whether this user alone may have written a file, and it isn't too large.
fn is_own(found: &Metadata) -> bool {
    found.is_file()
        && found.uid() == libc::geteuid()
        && found.mode() & WRITE_BITS == 0
        && found.size() <= LARGEST
}

/// Returns the text of a file that was opened, if it is that of this number.
fn read_opened<T: OpenFile + Read>(alloc: Global, file: &mut T, inode: u64) -> Option<Bytes> {
    let found = file.metadata().ok()?;
    if !is_own(&found) || found.ino() != inode {
        return None;
    }
    let mut text = Vec::new(alloc);
    file.take(LARGEST).read_to_end(&mut text).ok()?;
    Some(Bytes::from_vec(text))
}

/// Returns the text of a regular file of this user that neither its group nor others may write, or
/// `None` if it isn't one, can't be read, or has more than 64 MiB (own). A link is not followed, and
/// nothing but a regular file is opened.
pub fn read_own<F: Files>(alloc: Global, files: &F, name: &str) -> Option<Bytes> {
    let found = fs::symlink_metadata(files, name).ok()?;
    if !is_own(&found) {
        return None;
    }
    let mut file = fs::open(files, name).ok()?;
    read_opened(alloc, &mut file, found.ino())
}
