//! The reading end of a pipe that can be waited for together with others.

ghost use Rattle.std.specs.Prelude.{◌≡◌, ◌≤◌, length, take, IfOk, OnErr};
ghost use Rattle.std.specs.Io.KnownBytes.{prepend_known};

use std::io::{self, Read};
use std::os::fd::{AsRawFd, RawFd};
use std::process::ChildStderr;

/// A reader that is the reading end of a pipe.
pub trait PipeEnd: Read {
    /// Returns its descriptor, or a negative number if it has none.
    fn descriptor(&self) -> RawFd;

    /// Reads once, as [`Read::read`], and returns how many bytes the piece has.
    ///
    /// # Errors
    ///
    /// If the read fails, nothing is read.
    fn read_once(&mut self, piece: &mut [u8]) -> io::Result<usize>
        ensures within { IfOk result (λ n. n ≤ length piece.new) }
        ensures bytes { IfOk result (λ n. Self.remaining self.old
            ≡ prepend_known (take n piece.new) (Self.remaining self.new)) }
        ensures failed { OnErr result (Self.remaining self.new ≡ Self.remaining self.old) };
}

impl PipeEnd for ChildStderr {
    fn descriptor(&self) -> RawFd {
        self.as_raw_fd()
    }

    fn read_once(&mut self, piece: &mut [u8]) -> io::Result<usize> {
        self.read(piece)
    }
}
