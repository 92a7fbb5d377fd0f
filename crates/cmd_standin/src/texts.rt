//! The texts that the stand-in for a compiler reads.

ghost use Rattle.std.specs.Prelude.{IfOk};
ghost use Rattle.std.specs.Option.{option_copied};
ghost use Rattle.cmd_standin.specs.Standin.{ReadsConftest, ReadsText};

use deftable::Bytes;
use file_disk::Disk;
use file_texts::read_limited;
use std::alloc::{AllocError, Global};

/// Returns the text of a file, or an empty one if it can't be read.
pub(crate) fn text_of<D: Disk>(alloc: Global, disk: &D, name: &[u8]) -> Result<Bytes, AllocError>
    ensures { IfOk result (ReadsText (D.known disk.now) name.now) }
{
    match read_limited(alloc, disk, name)? {
        Some(text) => Ok(text),
        None => Ok(Bytes::new(alloc)),
    }
}

/// Returns the text of the conftest, which is empty if none is named.
pub(crate) fn text_of_conftest<D: Disk>(
    alloc: Global,
    disk: &D,
    name: Option<&Bytes>,
) -> Result<Bytes, AllocError>
    ensures { IfOk result (ReadsConftest (D.known disk.now) (option_copied name.entry)) }
{
    match name {
        Some(name) => text_of(alloc, disk, name.as_slice()),
        None => Ok(Bytes::new(alloc)),
    }
}
