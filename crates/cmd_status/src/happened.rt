//! What happened if the program was asked to run a configure.ac, and its exit status.

ghost use Rattle.std.specs.Prelude.{◌≡◌};
ghost use Rattle.cmd_status.specs.Happened as meant;

use cmd_call::FAULT;
use engine_frame::{Fault, RemakeFault};

/// What a run left that was made.
#[derive(Clone, Copy)]
pub struct RunLeft {
    /// The exit status of its outcome.
    pub status: u8,
    /// The number of the put that was refused, if one was.
    pub refused: Option<u64>,
    /// Whether standard output took what the run prints.
    pub is_printed: bool,
    /// Whether the log was written.
    pub is_logged: bool,
}

/// What happened if the program was asked to run a configure.ac, or to run it again.
#[derive(Drop)]
pub enum Happened {
    /// The configure.ac can't be read, or the record that is to be run again, or the cache has a
    /// name that a run has for itself.
    NotRead,
    /// The record has this fault, and is not run again.
    NotRecorded(RemakeFault),
    /// What the run is given has this fault. Nothing was started or written.
    Refused(Fault),
    /// Memory ran out, and no output was written.
    OutOfMemory,
    /// A text was shown. Says whether standard output took it.
    Shown(bool),
    /// The run was made, and left this.
    Ran(RunLeft),
}

/// Returns what happened if what a run is given has this fault.
pub(crate) fn refused(fault: Fault) -> Happened
    ensures { result ≡ meant.after_fault fault }
{
    match fault {
        Fault::OutOfMemory => Happened::OutOfMemory,
        other => Happened::Refused(other),
    }
}

/// Returns what happened if a record has this fault.
pub(crate) fn not_recorded(fault: RemakeFault) -> Happened
    ensures { result ≡ meant.after_record fault }
{
    match fault {
        RemakeFault::OutOfMemory => Happened::OutOfMemory,
        other => Happened::NotRecorded(other),
    }
}

/// Returns whether nothing of what a run leaves is missing.
fn is_whole(left: &RunLeft) -> bool
    ensures { result ≡ meant.is_whole left.now }
{
    left.refused.is_none() && left.is_printed && left.is_logged
}

/// Returns the exit status of a run that left this.
fn left_status(left: &RunLeft) -> u8
    ensures { result ≡ meant.left_status left.now }
{
    if is_whole(left) { left.status } else { FAULT }
}

/// Returns the exit status after a text was shown, if standard output took it, or if it didn't.
fn shown_status(is_printed: bool) -> u8
    ensures { result ≡ meant.shown_status is_printed }
{
    if is_printed { 0 } else { FAULT }
}

/// Returns the exit status of what happened: that of the run's outcome, or 0 if a text was shown.
/// If anything else happened, or something of it couldn't be written, it is 2 (own).
pub fn exit_status(happened: &Happened) -> u8
    ensures { result ≡ meant.status_after happened.now }
{
    match happened {
        Happened::NotRead => FAULT,
        Happened::NotRecorded(_) => FAULT,
        Happened::Refused(_) => FAULT,
        Happened::OutOfMemory => FAULT,
        Happened::Shown(is_printed) => shown_status(*is_printed),
        Happened::Ran(left) => left_status(left),
    }
}
