//! The pipe of a child's diagnostics, which is read piece by piece, and counts the pieces.

ghost use Rattle.std.specs.Prelude.{◌≡◌, ◌+◌, ◌<◌, ◌≤◌, length, negsuc, take, true, false, option_map, IfNone, IfOk, IsErr};
ghost use Rattle.std.specs.Io.KnownBytes.{Consumes, IsAtEnd};
ghost use Rattle.crew_launch.specs.Piped.{left_of, IsUnread};

use crate::pipe_end::PipeEnd;
use crate::queued::Queued;
use std::io::{self, ErrorKind, Read};
use std::marker::Model;
use std::os::fd::RawFd;

/// How often a read is tried that a signal interrupts.
const MOST_TRIES: u32 = 1024;

/// A pipe, unless there is none or it is closed. It counts its pieces, and keeps whether its end was
/// read and whether a read failed.
#[derive(Drop)]
pub struct Pipe<R: Read + Drop> {
    reader: Option<R>,
    reads: u32,
    is_read: bool,
    has_failed: bool,
}

impl<R: Read + Drop> Model for Pipe<R> {
    ghost use Rattle.std.specs.Prelude.{is_some, option_map};
    ghost use Rattle.crew_launch.specs.Piped.{Piped, left_of};

    ghost Value = { Piped };

    ghost view = { λ p. record {
      is_open = is_some p.reader;
      left = left_of (option_map R.remaining p.reader);
      reads = p.reads;
      is_read = p.is_read;
      has_failed = p.has_failed;
    } };
}

impl<R: Read + Drop> Pipe<R> {
    /// Returns a pipe that was not read.
    pub(crate) fn new(reader: Option<R>) -> Pipe<R>
        ensures { IsUnread result }
    {
        Pipe {
            reader,
            reads: 0,
            is_read: false,
            has_failed: false,
        }
    }

    /// Returns whether there is a pipe that isn't closed.
    pub(crate) fn is_open(&self) -> bool
        ensures { result ≡ self.now.is_open }
    {
        self.reader.is_some()
    }

    /// Reads a piece: as many bytes as it has room for, or those up to the end of the pipe. Returns
    /// their number.
    ///
    /// A pipe gives what is there, so a piece may take as many calls of the system as it has bytes.
    /// It counts once.
    pub(crate) fn read(&mut self, piece: &mut [u8]) -> io::Result<usize>
        requires { self.old.reads < 1024 }
        ensures within { IfOk result (λ n. n ≤ length piece.new) }
        ensures size { length piece.new ≡ length piece.old }
        ensures bytes { IfOk result (λ n. Consumes self.old.left self.new.left (take n piece.new)) }
        ensures end { IfOk result (λ n. n < length piece.new → IsAtEnd self.new.left) }
        ensures counted { self.new.reads ≡ self.old.reads + 1 }
        ensures is_read { IfOk result (λ n. n < length piece.new → self.new.is_read ≡ true) }
        ensures sound { IfOk result (λ _. self.new.has_failed ≡ self.old.has_failed) }
    {
        self.reads += 1;
        match read_from(&mut self.reader, piece) {
            Ok(n) => {
                if n < piece.len() {
                    self.is_read = true;
                }
                Ok(n)
            }
            Err(e) => {
                self.has_failed = true;
                Err(e)
            }
        }
    }

    /// Closes the pipe, so that who writes to it doesn't wait.
    pub(crate) fn close(&mut self)
        ensures closed { self.new.is_open ≡ false }
        ensures reads { self.new.reads ≡ self.old.reads }
        ensures is_read { self.new.is_read ≡ self.old.is_read }
        ensures has_failed { self.new.has_failed ≡ self.old.has_failed }
    {
        self.reader = None;
    }
}

impl<R: PipeEnd + Drop> Pipe<Queued<R>> {
    /// Returns its descriptor, or a negative number if there is none.
    pub(crate) fn descriptor(&self) -> RawFd
        ensures { self.now.is_open ≡ false → result ≡ negsuc 0 }
    {
        match &self.reader {
            Some(reader) => reader.descriptor(),
            None => -1,
        }
    }

    /// Reads once ahead. Returns whether nothing more can be read ahead.
    pub(crate) fn read_ahead(&mut self) -> bool
        ensures { self.new ≡ self.old }
    {
        match &mut self.reader {
            Some(reader) => reader.read_ahead(),
            None => true,
        }
    }
}

/// Fills the piece, if there is a reader.
fn read_from<R: Read>(reader: &mut Option<R>, piece: &mut [u8]) -> io::Result<usize>
    ensures within { IfOk result (λ n. n ≤ length piece.new) }
    ensures size { length piece.new ≡ length piece.old }
    ensures bytes { IfOk result (λ n.
        Consumes (left_of (option_map R.remaining reader.old))
        (left_of (option_map R.remaining reader.new)) (take n piece.new)) }
    ensures end { IfOk result (λ n.
        n < length piece.new → IsAtEnd (left_of (option_map R.remaining reader.new))) }
{
    match reader {
        Some(reader) => fill(reader, piece),
        None => Err(io::Error::from(ErrorKind::BrokenPipe)),
    }
}

/// Reads until the piece is full or a read gives the end. Each read gives a byte or the end.
/// Returns how many bytes the piece has.
fn fill<R: Read>(reader: &mut R, piece: &mut [u8]) -> io::Result<usize>
    ensures within { IfOk result (λ n. n ≤ length piece.new) }
    ensures size { length piece.new ≡ length piece.old }
    ensures bytes { IfOk result (λ n.
        Consumes (R.remaining reader.old) (R.remaining reader.new) (take n piece.new)) }
    ensures end { IfOk result (λ n. n < length piece.new → IsAtEnd (R.remaining reader.new)) }
{
    let mut filled = 0;
    'fill: while filled < piece.len() {
        let n = read_some(reader, &mut piece[filled..])?;
        if n == 0 {
            return Ok(filled);
        }
        filled += n;
    }
    Ok(filled)
}

/// Reads once, and tries again if a signal interrupts the read. Fails if the last try does.
fn read_some<R: Read>(reader: &mut R, piece: &mut [u8]) -> io::Result<usize>
    ensures within { IfOk result (λ n. n ≤ length piece.new) }
    ensures size { length piece.new ≡ length piece.old }
    ensures bytes { IfOk result (λ n.
        Consumes (R.remaining reader.old) (R.remaining reader.new) (take n piece.new)) }
    ensures end { IfOk result (λ n.
        n ≡ 0 → 0 < length piece.new → IsAtEnd (R.remaining reader.new)) }
{
    for _ in 0..MOST_TRIES {
        match reader.read(piece) {
            Ok(n) => return Ok(n),
            Err(e) if e.kind() == ErrorKind::Interrupted => {}
            Err(e) => return Err(e),
        }
    }
    Err(io::Error::from(ErrorKind::Interrupted))
}
