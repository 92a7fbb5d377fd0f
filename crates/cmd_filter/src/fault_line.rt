//! The line of an error of the filter, on standard error.

ghost use Rattle.std.specs.Prelude.{◌≡◌};
ghost use Rattle.cmd_call.specs.Lines.{IsTold};
ghost use Rattle.cmd_filter.specs.FaultText.{filter_line};

use crate::fault::FilterFault;
use cmd_call::{Hears, tell_file, tell_memory, tell_usage};
use fault_spots::tell_fault;

/// Reports an error of the filter, with the name of a template that it is about, and returns the
/// exit status.
pub fn tell<E: Hears>(errors: &mut E, fault: &FilterFault) -> u8
    ensures status { result ≡ 2 }
    ensures told { IsTold E.contents E.has_failed errors.old errors.new (filter_line fault.now) }
{
    match fault {
        FilterFault::Read => tell_file(errors, b"standard input"),
        FilterFault::Usage => tell_usage(errors),
        FilterFault::Run(fault) => tell_fault(errors, fault),
        FilterFault::Write => tell_file(errors, b"standard output"),
        FilterFault::OutOfMemory => tell_memory(errors),
    }
}
