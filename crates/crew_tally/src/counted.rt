//! The stream whose checks are counted.

ghost use Rattle.std.specs.Prelude.{◌≡◌, MatchResult, OnErr, OnOk, take};
ghost use Rattle.std.specs.Io.{WritesAtMost};
ghost use Rattle.std.specs.Io.KnownBytes.{Appends, Keeps, WriteAppends};
ghost use Rattle.crew_tally.specs.Counted.{after_counted, first};

use crate::tally::Tally;
use std::io::{self, Write};
use std::marker::Model;

/// A writer that hands each text on to a stream, and counts the checks in it if that is asked (own).
#[derive(Drop)]
pub struct Counted<W: Write + Drop> {
    stream: W,
    tally: Option<Tally>,
}

/// Counts the checks of a text that follows, if they are counted.
fn count(tally: &mut Option<Tally>, text: &[u8])
    ensures { tally.new ≡ after_counted tally.old text.now }
{
    if let Some(tally) = tally {
        tally.add(text);
    }
}

impl<W: Write + Drop> Model for Counted<W> {
    ghost use Rattle.crew_tally.specs.Counted as specs;

    ghost Value = { specs.Counted W };

    ghost view = { λ c. record { stream = c.stream; tally = c.tally } };
}

impl<W: Write + Drop> Counted<W> {
    /// Returns a writer to the stream. If `is_counted`, it counts from now on, and otherwise it
    /// never counts.
    pub fn new(stream: W, is_counted: bool) -> Counted<W>
        ensures stream { result.stream ≡ stream }
        ensures tally { result.tally ≡ first is_counted }
    {
        let tally = if is_counted { Some(Tally::new()) } else { None };
        Counted { stream, tally }
    }

    /// Returns the stream.
    pub fn stream(&self) -> &W
        ensures { result.now ≡ self.now.stream }
    {
        &self.stream
    }

    /// Returns what is counted so far, or `None` if it counts nothing.
    pub fn tally(&self) -> Option<Tally>
        ensures { result ≡ self.now.tally }
    {
        self.tally
    }
}

impl<W: Write + Drop> Write for Counted<W> {
    ghost contents = { λ c. W.contents c.stream };

    fn write(&mut self, buf: &[u8]) -> io::Result<usize>
        ensures bound { WritesAtMost result buf.now }
        ensures bytes { WriteAppends (W.contents self.old.stream) (W.contents self.new.stream)
            result buf.now }
        // Only what was taken is counted.
        ensures counted { MatchResult result
            (λ n. self.new.tally ≡ after_counted self.old.tally (take n buf.now))
            (λ _. self.new.tally ≡ self.old.tally) }
    {
        let taken = self.stream.write(buf)?;
        count(&mut self.tally, &buf[..taken]);
        Ok(taken)
    }

    fn write_all(&mut self, buf: &[u8]) -> io::Result<()>
        ensures bytes { OnOk result (
            Appends (W.contents self.old.stream) (W.contents self.new.stream) buf.now) }
        ensures counted { OnOk result (self.new.tally ≡ after_counted self.old.tally buf.now) }
        ensures uncounted { OnErr result (self.new.tally ≡ self.old.tally) }
    {
        self.stream.write_all(buf)?;
        count(&mut self.tally, buf);
        Ok(())
    }

    fn flush(&mut self) -> io::Result<()>
        ensures bytes { Keeps (W.contents self.old.stream) (W.contents self.new.stream) }
        ensures counted { self.new.tally ≡ self.old.tally }
    {
        self.stream.flush()
    }
}
