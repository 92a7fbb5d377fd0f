//! What is under a name.

ghost use Rattle.std.specs.Prelude.{◌≡◌};
ghost use Rattle.std.specs.IoError.{error_kind};
ghost use Rattle.file_disk.specs.Regular.{error_of};

use std::io::{self, ErrorKind};

/// What is under a name, if links are not followed.
#[derive(Clone, Copy)]
pub enum Found {
    /// Nothing.
    Nothing,
    /// A regular file: its permission bits and those of its kind.
    File { mode: u32 },
    /// A symbolic link.
    Link,
    /// A directory.
    Directory,
    /// A pipe, a socket or a device.
    Special,
}

/// Returns the error of something that is to be read or replaced, and is no regular file.
pub fn not_regular(found: Found) -> io::Error
    ensures { error_kind result ≡ error_of found }
{
    match found {
        Found::Directory => io::Error::new(ErrorKind::IsADirectory, "Is a directory"),
        _ => io::Error::new(ErrorKind::Unsupported, "is a pipe, a socket or a device"),
    }
}
