//! The command that runs a configure.ac again with the arguments of its record.

ghost use Rattle.std.specs.Prelude.{◌≡◌, true, false, Some, codes};
ghost use Rattle.cmd_configure.specs.Configures.{IsRechecked};
ghost use Rattle.cmd_configure.specs.Ended.{HasHappenedAgain, Prints};
ghost use Rattle.cmd_status.specs.Happened.{is_all_done, is_output_cut, status_after};
ghost use Rattle.cmd_status.specs.Printed.{WritesSo};
ghost use Rattle.crew_trait.specs.Events.{IsIdle};
ghost use Rattle.file_texts.specs.Held.{fresh};
ghost use Rattle.cmd_call.specs.Supplies.{ReadsWhole};
ghost use Rattle.proberun.specs.Ran.{MayRun};

use crate::running::run_configure;
use cmd_call::{Hears, Terminal};
use cmd_explain::Why;
use cmd_status::{Happened, RECORD, no_memory, no_record, tell_unread};
use crew_refusals::Causes;
use crew_resume::Resumes;
use engine_frame::recheck_args;
use file_disk::Disk;
use file_texts::read_text;
use std::io::Read;

/// Returns what the faults of a record with this text are explained by.
fn why_of(is_asked: bool, text: &[u8]) -> Why<'_>
    ensures { result.is_asked ≡ is_asked }
{
    Why {
        is_asked,
        srcdir: b"",
        path: RECORD,
        text,
        args: &[],
    }
}

/// Runs a configure.ac again with the arguments of the record that has this text, and returns
/// what happened.
fn run_again<D: Disk, C: Resumes + Causes, R: Read, W: Hears, E: Hears>(
    terminal: &mut Terminal<'_, D, R, W, E>,
    text: &[u8],
    crew: &mut C,
) -> Happened
    requires may_run { MayRun (C.account crew.old) }
    requires found { ReadsWhole (D.known terminal.old.outputs.disk) (codes "config.status")
        (Some text.now) }
    requires fresh { terminal.old.outputs ≡ fresh terminal.old.outputs.disk }
    ensures idle { IsIdle (C.account crew.new).events }
    ensures run { is_all_done result ≡ true
        → Prints (W.contents terminal.old.output) (W.contents terminal.new.output) E.contents
        E.has_failed terminal.old.errors terminal.new.errors terminal.old.is_asked (λ out said.
        IsRechecked terminal.old.env.now (C.account crew.old) (C.account crew.new)
        (D.known terminal.old.outputs.disk) (D.known terminal.new.outputs.disk) out said
        (status_after result)) }
    ensures ended { WritesSo W.contents W.has_failed E.contents E.has_failed terminal.old.output
        terminal.new.output terminal.old.errors terminal.new.errors terminal.old.is_asked
        (is_output_cut result) (
        HasHappenedAgain terminal.old.env.now (C.account crew.old) (C.account crew.new)
        (D.known terminal.old.outputs.disk) (D.known terminal.new.outputs.disk) result) }
    ensures input { terminal.new.input ≡ terminal.old.input }
{
    match recheck_args(terminal.alloc, text) {
        Ok(args) => {
            let args = args.as_slice();
            let happened = run_configure(terminal, 1, args, crew);
            happened
        }
        Err(fault) => {
            let why = why_of(terminal.is_asked, text);
            let disk = terminal.outputs.disk();
            no_record(terminal.alloc, disk, &why, &mut terminal.errors, fault)
        }
    }
}

/// Runs the configure.ac again with the arguments of the record in the current directory, and then
/// `--no-create`, and returns what happened.
///
/// The environment is that of now, and at most one child runs at once. The record and the log are
/// written again, and the cache if one is named, but no file and no header. If anything is wrong,
/// standard error has a line for it (own). If it is asked, further lines may say why.
pub fn run_recheck<D: Disk, C: Resumes + Causes, R: Read, W: Hears, E: Hears>(
    terminal: &mut Terminal<'_, D, R, W, E>,
    crew: &mut C,
) -> Happened
    requires may_run { MayRun (C.account crew.old) }
    requires fresh { terminal.old.outputs ≡ fresh terminal.old.outputs.disk }
    ensures idle { IsIdle (C.account crew.new).events }
    ensures run { is_all_done result ≡ true
        → Prints (W.contents terminal.old.output) (W.contents terminal.new.output) E.contents
        E.has_failed terminal.old.errors terminal.new.errors terminal.old.is_asked (λ out said.
        IsRechecked terminal.old.env.now (C.account crew.old) (C.account crew.new)
        (D.known terminal.old.outputs.disk) (D.known terminal.new.outputs.disk) out said
        (status_after result)) }
    ensures ended { WritesSo W.contents W.has_failed E.contents E.has_failed terminal.old.output
        terminal.new.output terminal.old.errors terminal.new.errors terminal.old.is_asked
        (is_output_cut result) (
        HasHappenedAgain terminal.old.env.now (C.account crew.old) (C.account crew.new)
        (D.known terminal.old.outputs.disk) (D.known terminal.new.outputs.disk) result) }
    ensures input { terminal.new.input ≡ terminal.old.input }
{
    match read_text(terminal.alloc, terminal.outputs.disk(), RECORD) {
        Ok(Some(text)) => {
            let text = text.as_slice();
            let happened = run_again(terminal, text, crew);
            happened
        }
        Ok(None) => {
            let disk = terminal.outputs.disk();
            let errors = &mut terminal.errors;
            let _ = tell_unread(terminal.alloc, disk, terminal.is_asked, RECORD, errors);
            Happened::NotRead
        }
        Err(_) => no_memory(&mut terminal.errors),
    }
}
