//! Why a text is no record.

ghost use Rattle.std.specs.Prelude.{◌≡◌, Some};
ghost use Rattle.status_record.specs.declared.fault.RecordFault.TheVariants.{OutOfMemory};
ghost use Rattle.status_record.specs.FaultText.{fault_text};

use std::alloc::{AllocError, AllocFailed};
use std::error::Error;
use std::fmt;

/// The first fault of a text that is no record. The number is that of the line, which is 1 for the
/// first.
///
/// It is displayed as its number, followed by `at` and the number of the line if it has one. Out of
/// memory is displayed as `memory` (own).
#[derive(Clone, Copy, Debug, PartialEq, Eq)]
pub enum RecordFault {
    /// The text has no newline, or its first line isn't `acrun-record` and a number.
    BadMagic,
    /// The line has none of the forms that are allowed after the lines before it.
    BadLine(u64),
    /// The text ends before the line `end` and its newline.
    Truncated,
    /// The number in the first line is no known version.
    UnknownVersion,
    /// The line has the right form, but a line before it gives the same name.
    DuplicateName(u64),
    /// Memory ran out.
    OutOfMemory,
}

impl fmt::Display for RecordFault {
    ghost output = { λ f. Some (fault_text f) };

    fn fmt<W: fmt::Write>(&self, f: &mut fmt::Formatter<W>) -> fmt::Result {
        match self {
            RecordFault::BadMagic => f.write_str("1"),
            RecordFault::BadLine(line) => write!(f, "2 at {line}"),
            RecordFault::Truncated => f.write_str("3"),
            RecordFault::UnknownVersion => f.write_str("4"),
            RecordFault::DuplicateName(line) => write!(f, "5 at {line}"),
            RecordFault::OutOfMemory => f.write_str("memory"),
        }
    }
}

impl Error for RecordFault {}

impl From<AllocError> for RecordFault {
    ghost from_gives = { λ _ e. e ≡ OutOfMemory };

    fn from(_e: AllocError) -> RecordFault {
        RecordFault::OutOfMemory
    }
}

impl<T: Drop> From<AllocFailed<T>> for RecordFault {
    ghost from_gives = { λ _ e. e ≡ OutOfMemory };

    fn from(_e: AllocFailed<T>) -> RecordFault {
        RecordFault::OutOfMemory
    }
}
