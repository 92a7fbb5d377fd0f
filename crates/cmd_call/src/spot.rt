//! Where a text has its fault, in the line of an error.

ghost use Rattle.std.specs.Prelude.{◌≡◌};
ghost use Rattle.cmd_call.specs.Lines.{spot_text};
ghost use Rattle.status_record.specs.FaultText.{fault_text};

use status_record::RecordFault;

/// The words of a fault in the line of an error, and the number that follows them, if there is one.
#[derive(Clone, Copy)]
pub struct Spot {
    pub words: &'static [u8],
    pub number: Option<u64>,
}

/// Returns what a fault of a record is displayed as.
pub fn record_spot(fault: &RecordFault) -> Spot
    ensures { spot_text result ≡ fault_text fault.now }
{
    match fault {
        RecordFault::BadMagic => Spot {
            words: b"1",
            number: None,
        },
        RecordFault::BadLine(line) => Spot {
            words: b"2 at ",
            number: Some(*line),
        },
        RecordFault::Truncated => Spot {
            words: b"3",
            number: None,
        },
        RecordFault::UnknownVersion => Spot {
            words: b"4",
            number: None,
        },
        RecordFault::DuplicateName(line) => Spot {
            words: b"5 at ",
            number: Some(*line),
        },
        RecordFault::OutOfMemory => Spot {
            words: b"memory",
            number: None,
        },
    }
}
