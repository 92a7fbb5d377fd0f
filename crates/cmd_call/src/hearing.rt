//! A stream that remembers whether it took all that was written to it.

ghost use Rattle.std.specs.Prelude.{◌≡◌, ◌||◌, ℕ, Bool, true, false, take, is_err, OnErr, OnOk};
ghost use Rattle.std.specs.Io.KnownBytes.{Appends};

use crate::writes::{Stopped, write_front};
use std::io::{self, Write};

/// A stream for lines, which remembers whether it took all that it was to take.
pub trait Hears: Write {
    // Whether it failed to take the whole of a text.
    ghost has_failed: { Self → Bool };

    /// Writes a text, as far as the stream takes it: all of it, unless no more of it can be
    /// written. The stream has failed from then on, and never otherwise.
    fn say(&mut self, text: &[u8]) -> Result<(), Stopped>
        ensures whole { OnOk result (Appends (Self.contents self.old) (Self.contents self.new) text.now) }
        ensures front { (n : ℕ)
            × Appends (Self.contents self.old) (Self.contents self.new) (take n text.now) }
        ensures cut { OnErr result (has_failed self.new ≡ true) }
        ensures risen { has_failed self.new ≡ (has_failed self.old || is_err result) }
        ensures kept { has_failed self.new ≡ false → has_failed self.old ≡ false };
}

/// A stream with the memory of whether it failed to take the whole of a text.
#[derive(Drop)]
pub struct Heard<E: Write> {
    stream: E,
    has_failed: bool,
}

impl<E: Write> Heard<E> {
    /// Returns the stream, of which nothing has failed yet.
    pub fn new(stream: E) -> Heard<E>
        ensures fresh { ⟦<Heard<E> as Hears>⟧.has_failed result ≡ false }
        ensures contents { ⟦<Heard<E> as Write>⟧.contents result ≡ E.contents stream }
    {
        Heard {
            stream,
            has_failed: false,
        }
    }

    /// Returns the stream.
    pub fn stream(&self) -> &E
        ensures { E.contents result.now ≡ ⟦<Heard<E> as Write>⟧.contents self.now }
    {
        &self.stream
    }
}

impl<E: Write> Write for Heard<E> {
    ghost contents = { λ h. E.contents h.stream };

    fn write(&mut self, text: &[u8]) -> io::Result<usize> {
        self.stream.write(text)
    }

    fn flush(&mut self) -> io::Result<()> {
        self.stream.flush()
    }
}

impl<E: Write> Hears for Heard<E> {
    ghost has_failed = { λ h. h.has_failed };

    fn say(&mut self, text: &[u8]) -> Result<(), Stopped> {
        let said = write_front(text, &mut self.stream);
        self.has_failed = self.has_failed || said.is_err();
        said
    }
}
