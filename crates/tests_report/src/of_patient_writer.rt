//! Writes to a stream that takes nothing at the moment.

use patient_writer::Patient;
use std::io::{self, ErrorKind, Write};
use std::test::Fail;
use std::time::{Clock, Duration};

/// A stream that takes nothing so often, and then two bytes of each text.
#[derive(Drop)]
struct Late {
    refusals: u32,
    kind: ErrorKind,
}

impl Write for Late {
    fn write(&mut self, text: &[u8]) -> io::Result<usize> {
        if self.refusals > 0 {
            self.refusals -= 1;
            return Err(io::Error::from(self.kind));
        }
        Ok(text.len().min(2))
    }

    fn flush(&mut self) -> io::Result<()> {
        Ok(())
    }
}

/// A clock that doesn't know the time, and doesn't wait.
struct Still;

impl Clock for Still {
    fn monotonic(&self) -> io::Result<Duration> {
        Err(io::Error::from(ErrorKind::Unsupported))
    }

    fn since_1970(&self) -> io::Result<Duration> {
        Err(io::Error::from(ErrorKind::Unsupported))
    }
}

/// Writes three bytes to a stream, and compares how many it took, or why it took none.
fn try_write(refusals: u32, kind: ErrorKind, wanted: Result<usize, ErrorKind>) -> Result<(), Fail> {
    let mut stream = Patient::new(Late { refusals, kind }, &Still);
    let is_wanted = match (stream.write(b"abc"), wanted) {
        (Ok(taken), Ok(wanted)) => taken == wanted,
        (Err(e), Err(wanted)) => e.kind() == wanted,
        _ => false,
    };
    if is_wanted {
        return Ok(());
    }
    Err(Fail::new("another answer"))
}

#[test]
fn a_late_stream_is_waited_for() -> Result<(), Fail> {
    try_write(3, ErrorKind::WouldBlock, Ok(2))
}

#[test]
fn a_stream_is_waited_for_a_minute() -> Result<(), Fail> {
    try_write(7000, ErrorKind::WouldBlock, Err(ErrorKind::WouldBlock))
}

#[test]
fn another_error_is_not_waited_out() -> Result<(), Fail> {
    try_write(1, ErrorKind::BrokenPipe, Err(ErrorKind::BrokenPipe))
}
