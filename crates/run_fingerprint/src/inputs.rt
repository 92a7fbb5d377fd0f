//! What a run rests on.

use deftable::Bytes;

/// A program that the run starts, as it is on the disk.
#[derive(Drop)]
pub struct ProgramAt {
    /// Its path.
    pub path: Bytes,
    /// Its size in bytes.
    pub size: u64,
    /// When it was last changed, in nanoseconds since 1970 as far as the system says.
    pub changed: u64,
    /// The number of its file on its file system.
    pub inode: u64,
}

/// What a run rests on.
#[derive(Clone, Copy)]
pub struct RunInputs<'a> {
    /// The version of acrun.
    pub version: &'a [u8],
    /// The text of the source.
    pub source: &'a [u8],
    /// The arguments.
    pub arguments: &'a [Bytes],
    /// The variables of the environment, each as `NAME=VALUE`.
    pub environment: &'a [Bytes],
    /// The directory in which the run makes its outputs.
    pub directory: &'a [u8],
    /// The mask of the modes of files.
    pub mask: u32,
    /// The text of the cache, if there is one.
    pub cache: Option<&'a [u8]>,
    /// The programs that the run starts, as far as they are known before it.
    pub programs: &'a [ProgramAt],
}
