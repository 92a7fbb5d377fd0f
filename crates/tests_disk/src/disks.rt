//! Files of which one operation fails.

use std::alloc::Allocator;
use std::fs::{File, FileTimes, Files, Metadata, OpenFile, OpenOptions, Permissions};
use std::io::{self, Error, ErrorKind, Read, Seek, SeekFrom, Write};
use std::os::unix::fs::PermissionsExt;
use std::path::PathBuf;

/// The files of the system, of which one operation fails: `open`, `look`, `stat`, `link`,
/// `directory`, `rename`, `remove`, `read`, `write`, `permit`, `memory` or `place`. The last two
/// are an open and a look at a directory that find no memory. With `early` a file can't be written
/// before it has the permissions 600. If it is empty, none fails.
#[derive(Clone, Copy)]
pub struct Disk<'a> {
    pub rt: &'a HostRuntime,
    pub fails: &'a [u8],
}

impl Disk<'_> {
    fn check(&self, operation: &[u8]) -> io::Result<()> {
        if self.fails != operation {
            return Ok(());
        }
        Err(Error::from(ErrorKind::PermissionDenied))
    }

    fn check_memory(&self, operation: &[u8]) -> io::Result<()> {
        if self.fails != operation {
            return Ok(());
        }
        Err(Error::from(ErrorKind::OutOfMemory))
    }
}

/// A file of which one operation fails. If that is to write, it writes each byte by itself, and
/// fails at the last one.
#[derive(Drop)]
pub struct Torn {
    file: File,
    fails_to_read: bool,
    fails_to_write: bool,
    fails_to_permit: bool,
    fails_early: bool,
}

impl Torn {
    /// Returns whether the file can't be written yet.
    fn is_early(&self) -> io::Result<bool> {
        Ok(self.fails_early && self.file.metadata()?.permissions().mode() & 0o777 != 0o600)
    }
}

impl Read for Torn {
    fn read(&mut self, buf: &mut [u8]) -> io::Result<usize> {
        if self.fails_to_read {
            return Err(Error::from(ErrorKind::BrokenPipe));
        }
        self.file.read(buf)
    }
}

impl Write for Torn {
    fn write(&mut self, buf: &[u8]) -> io::Result<usize> {
        if self.is_early()? {
            return Err(Error::from(ErrorKind::PermissionDenied));
        }
        if !self.fails_to_write {
            return self.file.write(buf);
        }
        if buf.len() < 2 {
            return Err(Error::from(ErrorKind::StorageFull));
        }
        self.file.write(&buf[..1])
    }

    fn flush(&mut self) -> io::Result<()> {
        self.file.flush()
    }
}

impl Seek for Torn {
    fn seek(&mut self, to: SeekFrom) -> io::Result<u64> {
        self.file.seek(to)
    }
}

impl OpenFile for Torn {
    fn metadata(&self) -> io::Result<Metadata> {
        self.file.metadata()
    }

    fn set_len(&self, size: u64) -> io::Result<()> {
        self.file.set_len(size)
    }

    fn sync_all(&self) -> io::Result<()> {
        self.file.sync_all()
    }

    fn sync_data(&self) -> io::Result<()> {
        self.file.sync_data()
    }

    fn set_permissions(&self, permissions: Permissions) -> io::Result<()> {
        if self.fails_to_permit {
            return Err(Error::from(ErrorKind::PermissionDenied));
        }
        self.file.set_permissions(permissions)
    }

    fn set_times(&self, times: FileTimes) -> io::Result<()> {
        self.file.set_times(times)
    }
}

impl Files for Disk<'_> {
    type File = Torn;

    type Dir = <HostRuntime as Files>::Dir;

    fn open_file(&self, how: &OpenOptions, path: &str) -> io::Result<Torn> {
        self.check(b"open")?;
        self.check_memory(b"memory")?;
        Ok(Torn {
            file: self.rt.open_file(how, path)?,
            fails_to_read: self.fails == b"read".as_slice(),
            fails_to_write: self.fails == b"write".as_slice(),
            fails_to_permit: self.fails == b"permit".as_slice(),
            fails_early: self.fails == b"early".as_slice(),
        })
    }

    fn open_dir(&self, path: &str) -> io::Result<<HostRuntime as Files>::Dir> {
        self.rt.open_dir(path)
    }

    fn metadata(&self, path: &str) -> io::Result<Metadata> {
        self.check(b"stat")?;
        self.check_memory(b"place")?;
        Files::metadata(self.rt, path)
    }

    fn symlink_metadata(&self, path: &str) -> io::Result<Metadata> {
        self.check(b"look")?;
        self.rt.symlink_metadata(path)
    }

    fn copy(&self, from: &str, to: &str) -> io::Result<u64> {
        self.rt.copy(from, to)
    }

    fn rename(&self, from: &str, to: &str) -> io::Result<()> {
        self.check(b"rename")?;
        self.rt.rename(from, to)
    }

    fn read_link<B: Allocator>(&self, alloc: B, path: &str) -> io::Result<PathBuf<B>> {
        self.check(b"link")?;
        self.rt.read_link(alloc, path)
    }

    fn remove_file(&self, path: &str) -> io::Result<()> {
        self.check(b"remove")?;
        self.rt.remove_file(path)
    }

    fn create_dir(&self, path: &str) -> io::Result<()> {
        self.check(b"directory")?;
        self.rt.create_dir(path)
    }

    fn remove_dir(&self, path: &str) -> io::Result<()> {
        self.rt.remove_dir(path)
    }

    fn remove_dir_all<B: Allocator>(&self, alloc: B, path: &str) -> io::Result<()> {
        self.rt.remove_dir_all(alloc, path)
    }
}
