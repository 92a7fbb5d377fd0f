//! The lines of the faults of a run, of outputs that are not made again, and of files that can't be
//! read or written.

ghost use Rattle.std.specs.Prelude.{◌≡◌, [], ◌∷◌, IsTrue, codes, is_err, not, option_map};
ghost use Rattle.cmd_call.specs.Lines.{IsTold, SaysLines, error_line};
ghost use Rattle.cmd_call.specs.Precious.{precious_in};
ghost use Rattle.cmd_status.specs.Reasons.{run_line, unwritten};
ghost use Rattle.fault_spots.specs.FaultLines.{remake_line};
ghost use Rattle.cmd_status.specs.Happened.{after_fault, after_record};
ghost use Rattle.cmd_status.specs.declared.happened.Happened.TheVariants.{NotRead, OutOfMemory};

use crate::happened::{Happened, not_recorded, refused};
use cmd_call::{FAULT, Hears, tell_file, tell_memory, tell_precious};
use cmd_explain::{
    Given, Why, explain_error, explain_fault, explain_file, explain_own, explain_remake,
};
use engine_frame::{Fault, RemakeFault};
use fault_spots::{tell_fault, tell_remake_fault};
use file_disk::Disk;
use status_record::Record;
use std::alloc::Global;
use std::io;

/// Reports the line of a fault of a run.
fn tell_line<E: Hears>(given: Option<&Given<'_>>, errors: &mut E, fault: &Fault) -> u8
    ensures status { result ≡ 2 }
    ensures told { IsTold E.contents E.has_failed errors.old errors.new (
        run_line (option_map (λ g. precious_in g.now.source.now) given.entry)
        fault.now) }
{
    match fault {
        Fault::Precious(inner) => match given {
            Some(given) => tell_precious(errors, given.source, *inner),
            None => tell_fault(errors, fault),
        },
        _ => tell_fault(errors, fault),
    }
}

/// Reports what is wrong with what a run is given, and says more of it if it is asked. Returns what
/// happened. If the source was judged before the fault was found, `given` is what the run was given
/// then.
pub fn tell_run<D: Disk, E: Hears>(
    alloc: Global,
    disk: &D,
    why: &Why<'_>,
    given: Option<&Given<'_>>,
    errors: &mut E,
    fault: Fault,
) -> Happened
    ensures happened { result ≡ after_fault fault }
    ensures told { SaysLines E.contents E.has_failed errors.old errors.new why.now.is_asked (
        run_line (option_map (λ g. precious_in g.now.source.now) given.entry) fault ∷ []) }
{
    let _ = tell_line(given, errors, &fault);
    explain_fault(alloc, disk, why, given, errors, &fault);
    refused(fault)
}

/// Reports that memory ran out, and returns what happened.
pub fn no_memory<E: Hears>(errors: &mut E) -> Happened
    ensures happened { result ≡ OutOfMemory }
    ensures told { IsTold E.contents E.has_failed errors.old errors.new (
        error_line (codes "memory") []) }
{
    let _ = tell_memory(errors);
    Happened::OutOfMemory
}

/// Reports why outputs are not made again, or a run is not done again, and returns the exit status.
/// Says more of it if it is asked. `recorded` is the record, if it was read. If a put was refused,
/// `cause` says why, and it is empty if that is not known.
pub fn tell_remake<D: Disk, E: Hears>(
    alloc: Global,
    disk: &D,
    why: &Why<'_>,
    recorded: Option<&Record>,
    cause: &[u8],
    errors: &mut E,
    fault: &RemakeFault,
) -> u8
    ensures status { result ≡ 2 }
    ensures told { SaysLines E.contents E.has_failed errors.old errors.new why.now.is_asked (
        remake_line fault.now ∷ []) }
{
    let _ = tell_remake_fault(errors, fault);
    explain_remake(alloc, disk, why, recorded, cause, errors, fault);
    FAULT
}

/// Reports why the record of this text is not run again, as [`tell_remake`] does, and returns what
/// happened.
pub fn no_record<D: Disk, E: Hears>(
    alloc: Global,
    disk: &D,
    why: &Why<'_>,
    errors: &mut E,
    fault: RemakeFault,
) -> Happened
    ensures happened { result ≡ after_record fault }
    ensures told { SaysLines E.contents E.has_failed errors.old errors.new why.now.is_asked (
        remake_line fault ∷ []) }
{
    let _ = tell_remake(alloc, disk, why, None, b"", errors, &fault);
    not_recorded(fault)
}

/// Reports that the file at this path can't be read, and says why if it is asked. Returns the exit
/// status.
pub fn tell_unread<D: Disk, E: Hears>(
    alloc: Global,
    disk: &D,
    is_asked: bool,
    path: &[u8],
    errors: &mut E,
) -> u8
    ensures status { result ≡ 2 }
    ensures told { SaysLines E.contents E.has_failed errors.old errors.new is_asked (
        error_line (codes "file") path.now ∷ []) }
{
    let _ = tell_file(errors, path);
    explain_file(alloc, disk, is_asked, path, path, errors);
    FAULT
}

/// Reports that the cache has a name that a run has for itself, and says why that is refused if it
/// is asked. Returns what happened.
pub fn tell_own_cache<E: Hears>(
    alloc: Global,
    is_asked: bool,
    name: &[u8],
    errors: &mut E,
) -> Happened
    ensures happened { result ≡ NotRead }
    ensures told { SaysLines E.contents E.has_failed errors.old errors.new is_asked (
        error_line (codes "file") name.now ∷ []) }
{
    let _ = tell_file(errors, name);
    explain_own(alloc, is_asked, errors);
    Happened::NotRead
}

/// Reports that the file of this name can't be written, and says why if it is asked.
pub(crate) fn tell_unwritten<E: Hears>(
    alloc: Global,
    is_asked: bool,
    name: &[u8],
    cause: &io::Error,
    errors: &mut E,
)
    ensures told { SaysLines E.contents E.has_failed errors.old errors.new is_asked (
        error_line (codes "file") name.now ∷ []) }
{
    let _ = tell_file(errors, name);
    explain_error(alloc, is_asked, name, cause, errors);
}

/// Reports that the file of this name can't be written, if it can't be, and says why if it is
/// asked. Returns whether it was.
pub(crate) fn tell_written<E: Hears>(
    alloc: Global,
    is_asked: bool,
    name: &[u8],
    done: io::Result<()>,
    errors: &mut E,
) -> bool
    ensures done { is_err done ≡ not result }
    ensures silent { IsTrue result → errors.new ≡ errors.old }
    ensures said { SaysLines E.contents E.has_failed errors.old errors.new is_asked (
        unwritten name.now result) }
{
    match done {
        Ok(()) => true,
        Err(e) => {
            tell_unwritten(alloc, is_asked, name, &e, errors);
            false
        }
    }
}
