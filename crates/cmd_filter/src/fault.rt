//! Why the filter writes no text.

ghost use Rattle.std.specs.Prelude.{◌≡◌, Some};
ghost use Rattle.file_texts.specs.declared.input_fault.ReadFault.TheVariants.{Read as Unread, OutOfMemory as NoReadMemory};
ghost use Rattle.engine_frame.specs.Faults.{of_parse};
ghost use Rattle.cmd_filter.specs.Faults.{of_run};
ghost use Rattle.cmd_filter.specs.FaultText.{filter_text};
ghost use Rattle.cmd_filter.specs.declared.fault.FilterFault.TheVariants.{OutOfMemory, Read};

use acparse::ParseFault;
use engine::Fault;
use file_texts::ReadFault;
use std::alloc::{AllocError, AllocFailed};
use std::error::Error;
use std::fmt;

/// Why the filter writes no text. It prints as the text of its error line, except that the name of
/// a template, which may be any bytes, is left out.
#[derive(Debug, Drop)]
pub enum FilterFault {
    /// The input can't be read, or doesn't end within 65,536 reads.
    Read,
    /// No line of the input is exactly `%%`.
    Usage,
    /// The source, or a template, has an error.
    Run(Fault),
    /// The text can't be written.
    Write,
    /// Memory ran out.
    OutOfMemory,
}

impl fmt::Display for FilterFault {
    ghost output = { λ f. Some (filter_text f) };

    fn fmt<W: fmt::Write>(&self, f: &mut fmt::Formatter<W>) -> fmt::Result {
        match self {
            FilterFault::Read => f.write_str("file standard input"),
            FilterFault::Usage => f.write_str("usage"),
            FilterFault::Run(fault) => write!(f, "{fault}"),
            FilterFault::Write => f.write_str("file standard output"),
            FilterFault::OutOfMemory => f.write_str("memory"),
        }
    }
}

impl Error for FilterFault {}

impl From<AllocError> for FilterFault {
    ghost from_gives = { λ _ e. e ≡ OutOfMemory };

    fn from(_e: AllocError) -> FilterFault {
        FilterFault::OutOfMemory
    }
}

impl<T: Drop> From<AllocFailed<T>> for FilterFault {
    ghost from_gives = { λ _ e. e ≡ OutOfMemory };

    fn from(_e: AllocFailed<T>) -> FilterFault {
        FilterFault::OutOfMemory
    }
}

impl From<ReadFault> for FilterFault {
    ghost from_gives = { λ f e. (f ≡ Unread → e ≡ Read) × (f ≡ NoReadMemory → e ≡ OutOfMemory) };

    fn from(fault: ReadFault) -> FilterFault {
        match fault {
            ReadFault::Read => FilterFault::Read,
            ReadFault::OutOfMemory => FilterFault::OutOfMemory,
        }
    }
}

// A receiver in memory refuses a put only if memory runs out.
impl From<Fault> for FilterFault {
    ghost from_gives = { λ f e. e ≡ of_run f };

    fn from(fault: Fault) -> FilterFault {
        match fault {
            Fault::PutRefused(_number, _report) => FilterFault::OutOfMemory,
            Fault::OutOfMemory => FilterFault::OutOfMemory,
            other => FilterFault::Run(other),
        }
    }
}

impl From<ParseFault> for FilterFault {
    ghost from_gives = { λ f e. e ≡ of_run (of_parse f) };

    fn from(fault: ParseFault) -> FilterFault {
        FilterFault::from(Fault::from(fault))
    }
}
