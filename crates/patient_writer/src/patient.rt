//! The writer.

ghost use Rattle.std.specs.Prelude.{◌≡◌, IfNone, IfSome};
ghost use Rattle.std.specs.Io.{WritesAtMost};
ghost use Rattle.std.specs.Io.KnownBytes.{Keeps, WriteAppends};

use std::io::{self, ErrorKind, Write};
use std::thread;
use std::time::{Clock, Duration};

/// How often a write is tried: for a minute.
const MOST_TRIES: u32 = 6000;

/// How many milliseconds are between two tries.
const WAIT: u64 = 10;

/// A stream whose writes wait while it takes nothing at the moment, each for a minute at most (own).
#[derive(Drop)]
pub struct Patient<'a, W: Write + Drop, C: Clock> {
    stream: W,
    clock: &'a C,
}

impl<'a, W: Write + Drop, C: Clock> Patient<'a, W, C> {
    /// Returns the stream, with the clock by which it waits.
    pub fn new(stream: W, clock: &'a C) -> Patient<'a, W, C>
        ensures { ⟦<Patient<'a, W, C> as Write>⟧.contents result ≡ W.contents stream }
    {
        Patient { stream, clock }
    }
}

/// Writes to a stream, or waits if it takes nothing at the moment, and returns `None`.
fn write_or_wait<W: Write, C: Clock>(
    stream: &mut W,
    clock: &C,
    text: &[u8],
) -> Option<io::Result<usize>>
    ensures bound { IfSome result (λ written. WritesAtMost written text.now) }
    ensures bytes { IfSome result (λ written.
        WriteAppends (W.contents stream.old) (W.contents stream.new) written text.now) }
    ensures waited { IfNone result (Keeps (W.contents stream.old) (W.contents stream.new)) }
{
    match stream.write(text) {
        Ok(taken) => Some(Ok(taken)),
        Err(e) => {
            if e.kind() == ErrorKind::WouldBlock {
                thread::sleep(clock, Duration::from_millis(WAIT));
                return None;
            }
            Some(Err(e))
        }
    }
}

/// Writes to a stream. If it takes nothing at the moment, tries again, for a minute.
#[tactic(auto, using(crate::proofs::Waiting::after_kept, crate::proofs::Waiting::keeps_same, crate::proofs::Waiting::keeps_keeps))]
fn write_patiently<W: Write, C: Clock>(stream: &mut W, clock: &C, text: &[u8]) -> io::Result<usize>
    ensures bound { WritesAtMost result text.now }
    ensures bytes { WriteAppends (W.contents stream.old) (W.contents stream.new) result text.now }
{
    for _ in 0..MOST_TRIES {
        if let Some(written) = write_or_wait(stream, clock, text) {
            return written;
        }
    }
    stream.write(text)
}

impl<'a, W: Write + Drop, C: Clock> Write for Patient<'a, W, C> {
    ghost contents = { λ p. W.contents p.stream };

    /// Writes to the stream.
    ///
    /// # Errors
    ///
    /// Returns the stream's error. That it takes nothing at the moment is an error only after a
    /// minute.
    fn write(&mut self, buf: &[u8]) -> io::Result<usize> {
        write_patiently(&mut self.stream, self.clock, buf)
    }

    fn flush(&mut self) -> io::Result<()> {
        self.stream.flush()
    }
}
