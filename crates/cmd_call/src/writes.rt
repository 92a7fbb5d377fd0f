//! The writes of one text, which a stream takes as far as it can.

ghost use Rattle.std.specs.Prelude.{◌≡◌, ◌<◌, ◌≤◌, ℕ, [], length, take, IfErr, IfOk, OnErr, OnOk};
ghost use Rattle.std.specs.Io.KnownBytes.{Appends};

use std::io::{self, ErrorKind, Write};
use std::marker::Model;

/// The largest number of writes of one text.
const MOST_WRITES: u64 = 1 << 32;

/// Says that a text isn't written further, and why: a write failed or took nothing, or there were
/// too many of them. Only this module makes one.
#[derive(Drop)]
pub struct Stopped {
    error: io::Error,
}

impl Stopped {
    /// Returns the error of the last write.
    pub fn error(self) -> io::Error {
        self.error
    }

    /// Returns what is said of a write that took nothing.
    fn nothing_taken() -> Stopped {
        Stopped {
            error: io::Error::new(ErrorKind::WriteZero, "nothing more can be written"),
        }
    }
}

/// Counts the writes of one text.
#[derive(Drop)]
pub(crate) struct Writes {
    left: u64,
}

impl Model for Writes {
    ghost use Rattle.std.specs.Prelude.{ℕ};

    ghost Value = { ℕ };

    ghost view = { λ w. w.left };
}

impl Writes {
    /// Returns a count of no writes.
    pub(crate) fn new() -> Writes {
        Writes { left: MOST_WRITES }
    }

    /// Writes once, and returns how many bytes the stream took. A write that a signal interrupts
    /// takes none.
    #[tactic(auto, using(crate::proofs::Fronts::nothing_more, crate::proofs::Fronts::nothing_appended))]
    pub(crate) fn write<E: Write>(&mut self, text: &[u8], errors: &mut E) -> Result<usize, Stopped>
        ensures counted { OnOk result (self.new < self.old) }
        ensures within { IfOk result (λ n. n ≤ length text.now) }
        ensures taken { IfOk result (λ n.
            Appends (E.contents errors.old) (E.contents errors.new) (take n text.now)) }
        ensures nothing { OnErr result (
            Appends (E.contents errors.old) (E.contents errors.new) []) }
    {
        if self.left == 0 {
            return Err(Stopped::nothing_taken());
        }
        self.left -= 1;
        match errors.write(text) {
            Ok(0) => Err(Stopped::nothing_taken()),
            Ok(n) => Ok(n),
            Err(e) if e.kind() == ErrorKind::Interrupted => Ok(0),
            Err(error) => Err(Stopped { error }),
        }
    }
}

/// Writes a text, as far as the stream takes it: all of it, unless no more of it can be written.
#[tactic(auto, using(crate::proofs::Fronts::front_more, crate::proofs::Fronts::front_kept, crate::proofs::Fronts::front_none))]
pub(crate) fn write_front<E: Write>(text: &[u8], errors: &mut E) -> Result<(), Stopped>
    ensures whole { OnOk result (Appends (E.contents errors.old) (E.contents errors.new) text.now) }
    ensures front { (n : ℕ)
        × Appends (E.contents errors.old) (E.contents errors.new) (take n text.now) }
{
    let mut taken = 0;
    let mut writes = Writes::new();
    'writes: while taken < text.len() {
        taken += writes.write(&text[taken..], errors)?;
    }
    Ok(())
}
