//! A pipe that is read ahead.

ghost use Rattle.std.specs.Prelude.{◌≡◌, ◌+◌, ◌<◌, ◌≤◌, IfOk, OnErr, drop, length, slice_range, take, vec_len};
ghost use Rattle.std.specs.Io.KnownBytes.{prepend_known};
ghost use Rattle.crew_launch.specs.Piped.{ReadsAhead};

use crate::pipe_end::PipeEnd;
use std::alloc::Global;
use std::io::{self, ErrorKind, Read};
use std::os::fd::RawFd;

/// The most that is read ahead: 4 MiB, which is all that is read of a pipe.
const MOST_AHEAD: usize = 4_194_304;

const PIECE_SIZE: usize = 4096;

/// A reader, and a queue of what was read of it ahead. A read takes from the queue first, and then
/// fails if the reading ahead failed.
#[derive(Drop)]
pub struct Queued<R: Read + Drop> {
    queue: Vec<u8>,
    // How many bytes of the queue were taken.
    taken: usize,
    // Why the last read ahead failed.
    failure: Option<io::Error>,
    reader: R,
    ghost within: { taken ≤ vec_len queue },
}

impl<R: Read + Drop> Queued<R> {
    /// Returns the reader with an empty queue.
    pub(crate) fn new(alloc: Global, reader: R) -> Queued<R> {
        Queued {
            queue: Vec::new(alloc),
            taken: 0,
            failure: None,
            reader,
        }
    }
}

impl<R: Read + Drop> Read for Queued<R> {
    ghost remaining = { λ q. prepend_known (drop q.taken q.queue.items) (R.remaining q.reader) };

    #[tactic(auto, using(crate::proofs::Queue::read_past, crate::proofs::ChildLemmas::keeps_same))]
    fn read(&mut self, buf: &mut [u8]) -> io::Result<usize> {
        if self.taken == self.queue.len() {
            return match self.failure.take() {
                Some(failure) => Err(failure),
                None => self.reader.read(buf),
            };
        }
        let n = copied(self.queue.as_slice(), self.taken, buf);
        self.taken += n;
        Ok(n)
    }
}

impl<R: PipeEnd + Drop> Queued<R> {
    /// Returns the descriptor of the reader.
    pub(crate) fn descriptor(&self) -> RawFd {
        self.reader.descriptor()
    }

    /// Reads once, after what was read ahead before. Returns whether nothing more can be read ahead:
    /// the reader is at its end, the read fails, the queue has 4 MiB, or memory runs out.
    #[tactic(auto, using(crate::proofs::Queue::read_later))]
    pub(crate) fn read_ahead(&mut self) -> bool
        ensures { prepend_known (drop self.new.taken self.new.queue.items)
            (R.remaining self.new.reader)
            ≡ prepend_known (drop self.old.taken self.old.queue.items)
            (R.remaining self.old.reader) }
    {
        if self.failure.is_some() {
            return true;
        }
        match read_after(&mut self.reader, &mut self.queue) {
            Ok(is_over) => is_over,
            Err(e) if e.kind() == ErrorKind::Interrupted => false,
            Err(e) => {
                self.failure = Some(e);
                true
            }
        }
    }
}

/// Copies as many bytes of a queue as there is room for, from this one on. Returns their number.
fn copied(queue: &[u8], from: usize, buf: &mut [u8]) -> usize
    requires { from < length queue.now }
    ensures within { from + result ≤ length queue.now }
    ensures size { length buf.new ≡ length buf.old }
    ensures bound { result ≤ length buf.new }
    ensures some { 0 < length buf.new → 0 < result }
    ensures bytes { take result buf.new ≡ slice_range queue.now from (from + result) }
{
    let n = (queue.len() - from).min(buf.len());
    buf[..n].copy_from_slice(&queue[from..from + n]);
    n
}

/// Reads once, and appends the bytes. Returns whether nothing more can be read.
fn read_after<R: PipeEnd>(reader: &mut R, queue: &mut Vec<u8>) -> io::Result<bool>
    ensures { ReadsAhead queue.old.items queue.new.items
        (R.remaining reader.old) (R.remaining reader.new) }
{
    if queue.len() >= MOST_AHEAD || queue.reserve(PIECE_SIZE).is_err() {
        return Ok(true);
    }
    let mut piece = [0u8; PIECE_SIZE];
    let n = reader.read_once(&mut piece)?;
    let put = queue.extend_from_slice(&piece[..n]);
    put.unwrap();
    Ok(n == 0)
}
