//! Streams that fail where a test says so.

use crew::PipeEnd;
use std::io::{self, ErrorKind, Read, Write};
use std::os::fd::RawFd;
use test_rows::{Page, cut, number_of};

/// Gives so many pieces of one size, each of the same byte. Its reads are counted from 1. One may
/// fail, and some before the first may be interrupted.
#[derive(Clone, Copy)]
pub struct Pipe {
    byte: u8,
    pieces: usize,
    size: usize,
    fails_at: usize,
    interrupted: usize,
    reads: usize,
}

/// Returns the pipe of a text: its pieces, their size, the read that fails and how often it is
/// interrupted, with blanks between them. What is left out is 0, and a text that doesn't begin with
/// a number has no pipe.
pub fn pipe_of(text: &[u8], byte: u8) -> Option<Pipe> {
    if text.is_empty() || text[0].wrapping_sub(b'0') > 9 {
        return None;
    }
    let (pieces, rest) = cut(text, b" ");
    let (size, rest) = cut(rest, b" ");
    let (fails_at, interrupted) = cut(rest, b" ");
    Some(Pipe {
        byte,
        pieces: number_of(pieces),
        size: number_of(size),
        fails_at: number_of(fails_at),
        interrupted: number_of(interrupted),
        reads: 0,
    })
}

impl Read for Pipe {
    fn read(&mut self, buf: &mut [u8]) -> io::Result<usize> {
        if self.interrupted > 0 {
            self.interrupted -= 1;
            return Err(io::Error::from(ErrorKind::Interrupted));
        }
        self.reads = self.reads.saturating_add(1);
        if self.reads == self.fails_at {
            return Err(io::Error::from(ErrorKind::BrokenPipe));
        }
        if self.reads > self.pieces {
            return Ok(0);
        }
        let len = self.size.min(buf.len());
        buf[..len].fill(self.byte);
        Ok(len)
    }
}

/// No descriptor of a process has its number, so the system says at once that a read doesn't wait.
impl PipeEnd for Pipe {
    fn descriptor(&self) -> RawFd {
        i32::MAX
    }

    fn read_once(&mut self, piece: &mut [u8]) -> io::Result<usize> {
        self.read(piece)
    }
}

/// Keeps what is written, or always fails.
#[derive(Drop)]
pub struct Sheet {
    pub kept: Page,
    pub fails: bool,
}

impl Write for Sheet {
    fn write(&mut self, buf: &[u8]) -> io::Result<usize> {
        if self.fails {
            return Err(io::Error::from(ErrorKind::BrokenPipe));
        }
        self.kept.put(buf);
        Ok(buf.len())
    }

    fn flush(&mut self) -> io::Result<()> {
        Ok(())
    }
}
