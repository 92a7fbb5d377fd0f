//! The line of a fault, on standard error.

ghost use Rattle.std.specs.Prelude.{◌≡◌};
ghost use Rattle.cmd_call.specs.Lines.{IsTold};
ghost use Rattle.fault_spots.specs.FaultLines.{fault_line, remake_line};

use crate::spots::{cache_spot, option_spot, parse_spot, plan_spot, precious_spot};
use cmd_call::{Hears, record_spot, tell_memory, tell_named, tell_numbered, tell_put, tell_spot};
use engine_frame::{Fault, RemakeFault};

/// Reports a fault of a run, and returns the exit status. Of a precious variable, the line has the
/// number and not the name.
pub fn tell_fault<E: Hears>(errors: &mut E, fault: &Fault) -> u8
    ensures status { result ≡ 2 }
    ensures told { IsTold E.contents E.has_failed errors.old errors.new (fault_line fault.now) }
{
    match fault {
        Fault::Parse(fault) => tell_spot(errors, b"parse ", &parse_spot(fault)),
        Fault::Plan(fault) => tell_spot(errors, b"plan ", &plan_spot(fault)),
        Fault::Option(fault) => tell_spot(errors, b"option ", &option_spot(fault)),
        Fault::Cache(fault) => tell_spot(errors, b"cache ", &cache_spot(fault)),
        Fault::Precious(fault) => tell_spot(errors, b"precious ", &precious_spot(fault)),
        Fault::NoTemplate(name) => tell_named(errors, b"template", name.as_slice()),
        Fault::PutRefused(number, _report) => tell_put(errors, *number),
        Fault::OutOfMemory => tell_memory(errors),
    }
}

/// Reports a fault of outputs that are made again, or of a run that is done again, and returns the
/// exit status.
pub fn tell_remake_fault<E: Hears>(errors: &mut E, fault: &RemakeFault) -> u8
    ensures status { result ≡ 2 }
    ensures told { IsTold E.contents E.has_failed errors.old errors.new (remake_line fault.now) }
{
    match fault {
        RemakeFault::Record(fault) => tell_spot(errors, b"record ", &record_spot(fault)),
        RemakeFault::UnknownTag(number) => tell_numbered(errors, b"tag ", *number),
        RemakeFault::NoTemplate(name) => tell_named(errors, b"template", name.as_slice()),
        RemakeFault::PutRefused(number) => tell_put(errors, *number),
        RemakeFault::NoArguments => tell_named(errors, b"recheck", b""),
        RemakeFault::OutOfMemory => tell_memory(errors),
    }
}
