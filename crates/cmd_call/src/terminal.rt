//! What a command works with.

use deftable::Bytes;
use file_disk::Disk;
use file_texts::FileOutputs;
use std::alloc::Global;
use std::io::{Read, Write};

/// What a command works with: memory, an environment, files and streams. The program makes one, and
/// lends it to each function that needs most of it.
#[derive(Drop)]
pub struct Terminal<'a, D: Disk, R: Read, W: Write, E: Write> {
    pub alloc: Global,
    /// If false, nothing follows the line of an error on standard error.
    pub is_asked: bool,
    /// The name and the value of each entry of the environment.
    pub env: &'a [(Bytes, Bytes)],
    /// The files, and the receiver that writes them.
    pub outputs: FileOutputs<D>,
    /// Standard input.
    pub input: R,
    /// Standard output.
    pub output: W,
    /// Standard error.
    pub errors: E,
}
