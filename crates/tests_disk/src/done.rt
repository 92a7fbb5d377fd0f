//! What is on a disk in memory at first, and what was done to it.

use deftable::Bytes;

/// A regular file on a disk in memory: its name, its permission bits, and its text.
#[derive(Drop)]
pub struct Placed {
    pub name: Bytes,
    pub mode: u32,
    pub text: Bytes,
}

/// Something that was done to a disk in memory.
#[derive(Drop)]
pub enum Step {
    /// The directories of this name were made.
    MadeDirectories(Bytes),
    /// A file of this name was made.
    Made(Bytes),
    /// The file of this name got these permission bits, if there are some, and this text.
    Filled(Bytes, Option<u32>, Bytes),
    /// The file of this name did not get its text.
    Failed(Bytes),
    /// The file of the first name got the second.
    Renamed(Bytes, Bytes),
    /// The file of this name was removed.
    Removed(Bytes),
}
