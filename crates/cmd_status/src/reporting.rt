//! What a run leaves for its user: its messages, the lines on its outputs, and its log.

ghost use Rattle.std.specs.Prelude.{◌≡◌, [], ◌++◌, true, false, not, None, Ok, Err, codes};
ghost use Rattle.std.specs.Io.KnownBytes.{Appends};
ghost use Rattle.cfglog.specs.Texts.{log_of};
ghost use Rattle.cmd_status.specs.Happened.{is_all_done, is_output_cut, status_after};
ghost use Rattle.cmd_status.specs.Left.{IsFinished, IsReported, Logs};
ghost use Rattle.cmd_status.specs.Printed.{IsWritten, WritesSo, printed};
ghost use Rattle.cmd_status.specs.Reasons.{put_line, unwritten, written_after};
ghost use Rattle.engine_frame.specs.declared.report.Report.{Report};
ghost use Rattle.engine_frame.specs.Told as words;
ghost use Rattle.cmd_call.specs.Errors.{errors_of};
ghost use Rattle.cmd_call.specs.Lines.{IsBegun, SaysLines};
ghost use Rattle.cmd_call.specs.Logged.{HasLogged, HasNoLog, IsHeld};
ghost use Rattle.cmd_call.specs.Precious.{precious_in};

use crate::fault_lines::{tell_run, tell_unwritten, tell_written};
use crate::happened::{Happened, RunLeft};
use crate::remaking::OUTPUT;
use cmd_call::{Hears, LOG, Terminal, print_all, tell_put, write_log};
use cmd_explain::{
    Given, Why, explain_compilers, explain_cut, explain_directories, explain_doubts,
    explain_long_cache, explain_made, explain_put,
};
use crew_refusals::Causes;
use engine_frame::{Fault, Outcome, Report, status_of};
use file_disk::Disk;
use file_texts::FileOutputs;
use options::Settings;
use std::alloc::Global;
use std::io::Read;
use std::mem::ManuallyDrop;

/// Returns the name of the cache, or an empty text if none is named.
fn cache_name(settings: &Settings) -> &[u8] {
    match &settings.cache_name {
        Some(name) => name.as_slice(),
        None => b"",
    }
}

/// Says why a run was cut, if it was, and if it is asked.
#[tactic(auto, using(cmd_call::proofs::Pages::says_nothing))]
fn explain_short<D: Disk, C: Causes, E: Hears>(
    alloc: Global,
    disk: &D,
    is_asked: bool,
    report: &Report,
    cache: &[u8],
    crew: &C,
    errors: &mut E,
)
    ensures silent { is_asked ≡ false → errors.new ≡ errors.old }
    ensures paged { SaysLines E.contents E.has_failed errors.old errors.new is_asked [] }
{
    if let Outcome::CutShort(number) = report.outcome {
        explain_cut(
            alloc,
            disk,
            is_asked,
            number,
            crew,
            report.log.as_slice(),
            cache,
            errors,
        );
    }
}

/// Says what may be wrong with the answers of a run, if it completed, and if it is asked.
#[tactic(auto, using(cmd_call::proofs::Pages::says_nothing))]
fn explain_completed<E: Hears>(
    alloc: Global,
    is_asked: bool,
    report: &Report,
    cache: &[u8],
    errors: &mut E,
)
    ensures silent { is_asked ≡ false → errors.new ≡ errors.old }
    ensures paged { SaysLines E.contents E.has_failed errors.old errors.new is_asked [] }
{
    if let Outcome::Completed = report.outcome {
        explain_doubts(alloc, is_asked, report.log.as_slice(), cache, errors);
    }
}

/// Prints the messages of a run and the lines of its outputs, and says why it was cut, or what may
/// be wrong with it, if it is asked. Returns whether standard output took them.
fn print_report<D: Disk, C: Causes, R: Read, W: Hears, E: Hears>(
    terminal: &mut Terminal<'_, D, R, W, E>,
    settings: &Settings,
    report: &Report,
    crew: &C,
) -> bool
    ensures printed { IsBegun (W.contents terminal.old.output) (W.contents terminal.new.output)
        (W.has_failed terminal.new.output) (not result)
        (printed settings.now.quiet report.now.messages terminal.old.outputs.lines) }
    ensures said { SaysLines E.contents E.has_failed terminal.old.errors terminal.new.errors
        terminal.old.is_asked
        (errors_of report.now.messages ++ unwritten (codes "standard output") result) }
    ensures held { IsHeld D.known terminal.old.outputs }
    ensures outputs { terminal.new.outputs ≡ terminal.old.outputs }
    ensures input { terminal.new.input ≡ terminal.old.input }
{
    let alloc = terminal.alloc;
    let is_asked = terminal.is_asked;
    let errors = &mut terminal.errors;
    let lines = terminal.outputs.lines();
    let messages = report.messages.as_slice();
    let quiet = settings.quiet;
    let output = &mut terminal.output;
    let done = print_all(alloc, messages, lines, quiet, output, errors);
    explain_directories(alloc, is_asked, &settings.vars, errors);
    let disk = terminal.outputs.disk();
    explain_short(
        alloc,
        disk,
        is_asked,
        report,
        cache_name(settings),
        crew,
        errors,
    );
    explain_compilers(alloc, is_asked, report.log.as_slice(), errors);
    explain_long_cache(alloc, is_asked, terminal.outputs.handed(), errors);
    explain_completed(alloc, is_asked, report, cache_name(settings), errors);
    explain_made(alloc, is_asked, terminal.outputs.handed(), errors);
    tell_written(alloc, is_asked, OUTPUT, done, errors)
}

/// Reports the put that was refused, if one was, and says why if it is asked.
fn tell_refused<D: Disk, E: Hears>(
    alloc: Global,
    disk: &D,
    is_asked: bool,
    given: &Given<'_>,
    refused: Option<u64>,
    cause: &[u8],
    errors: &mut E,
)
    ensures silent { refused ≡ None → errors.new ≡ errors.old }
    ensures said { SaysLines E.contents E.has_failed errors.old errors.new is_asked (
        put_line refused) }
{
    if let Some(number) = refused {
        let _ = tell_put(errors, number);
        explain_put(alloc, disk, is_asked, given, cause, errors);
    }
}

/// Writes the log of a run. Returns whether that succeeded.
fn log_report<D: Disk, E: Hears>(
    alloc: Global,
    outputs: &mut FileOutputs<D>,
    is_asked: bool,
    report: &Report,
    errors: &mut E,
) -> bool
    ensures log { result ≡ true
        → HasLogged D.known outputs.old outputs.new (log_of report.now.log) }
    ensures no_log { result ≡ false → HasNoLog D.known outputs.old outputs.new }
    ensures silent { result ≡ true → errors.new ≡ errors.old }
    ensures said { SaysLines E.contents E.has_failed errors.old errors.new is_asked (
        unwritten (codes "config.log") result) }
{
    match write_log(alloc, outputs, report.log.as_slice()) {
        Ok(()) => true,
        Err(e) => {
            tell_unwritten(alloc, is_asked, LOG.as_bytes(), &e, errors);
            false
        }
    }
}

/// Prints and writes what a run leaves for its user, and returns what it left.
fn finish_report<D: Disk, C: Causes, R: Read, W: Hears, E: Hears>(
    terminal: &mut Terminal<'_, D, R, W, E>,
    given: &Given<'_>,
    report: &Report,
    refused: Option<u64>,
    crew: &C,
) -> RunLeft
    ensures written { IsWritten W.contents W.has_failed E.contents E.has_failed
        terminal.old.output terminal.new.output terminal.old.errors terminal.new.errors
        terminal.old.is_asked (not result.is_printed)
        (written_after given.now.settings.now.quiet report.now terminal.old.outputs.lines
        result) }
    ensures left { IsReported D.known terminal.old.outputs terminal.new.outputs report.now refused
        result }
    ensures input { terminal.new.input ≡ terminal.old.input }
{
    let alloc = terminal.alloc;
    let is_asked = terminal.is_asked;
    let is_printed = print_report(terminal, given.settings, report, crew);
    let outputs = &mut terminal.outputs;
    let errors = &mut terminal.errors;
    let disk = outputs.disk();
    tell_refused(
        alloc,
        disk,
        is_asked,
        given,
        refused,
        outputs.cause(),
        errors,
    );
    let is_logged = log_report(alloc, outputs, is_asked, report, errors);
    RunLeft {
        status: status_of(report.outcome),
        refused,
        is_printed,
        is_logged,
    }
}

/// Reports a fault of a run, or prints and writes what the run leaves if it is a refused put, and
/// returns what happened.
fn finish_fault<D: Disk, C: Causes, R: Read, W: Hears, E: Hears>(
    terminal: &mut Terminal<'_, D, R, W, E>,
    why: &Why<'_>,
    given: &Given<'_>,
    fault: Fault,
    crew: &C,
) -> Happened
    requires asked { why.now.is_asked ≡ terminal.old.is_asked }
    ensures unfinished { is_all_done result ≡ false }
    ensures finished { WritesSo W.contents W.has_failed E.contents E.has_failed
        terminal.old.output terminal.new.output terminal.old.errors terminal.new.errors
        terminal.old.is_asked (is_output_cut result) (
        IsFinished D.known given.now.settings.now.quiet terminal.old.outputs
        terminal.new.outputs (precious_in given.now.source.now) (Err fault) result) }
    ensures input { terminal.new.input ≡ terminal.old.input }
{
    match fault {
        Fault::PutRefused(number, report) => {
            let left = finish_report(terminal, given, &report, Some(number), crew);
            Happened::Ran(left)
        }
        fault => {
            let disk = terminal.outputs.disk();
            let errors = &mut terminal.errors;
            tell_run(terminal.alloc, disk, why, Some(given), errors, fault)
        }
    }
}

/// Prints and writes what follows from the result of a run, and returns what happened. `given` is
/// what the run was given.
///
/// A report leaves its messages, the lines on its outputs and its log, also if a put was refused,
/// which is told then. Any other fault is told alone, and nothing else is done. If it is asked, it
/// also says why: of a cut run by what the crew knows, and of a refused put by what the outputs
/// know.
pub fn finish_run<D: Disk, C: Causes, R: Read, W: Hears, E: Hears>(
    terminal: &mut Terminal<'_, D, R, W, E>,
    why: &Why<'_>,
    given: &Given<'_>,
    answer: Result<Report, Fault>,
    crew: &C,
) -> Happened
    requires asked { why.now.is_asked ≡ terminal.old.is_asked }
    ensures run { is_all_done result ≡ true
        → (report : Report) × (answer ≡ Ok report)
        × (status_after result ≡ words.status_of report.outcome)
        × Appends (W.contents terminal.old.output) (W.contents terminal.new.output)
        (printed given.now.settings.now.quiet report.messages terminal.old.outputs.lines)
        × Logs D.known terminal.old.outputs terminal.new.outputs report
        × SaysLines E.contents E.has_failed terminal.old.errors terminal.new.errors
        terminal.old.is_asked (errors_of report.messages) }
    // Standard output has what the run prints, or a front of it. Standard error has the messages of
    // a run and the lines of what is missing, or the line of a fault that is told alone. If it is
    // asked why, it has pages among them, and otherwise nothing more.
    ensures finished { WritesSo W.contents W.has_failed E.contents E.has_failed
        terminal.old.output terminal.new.output terminal.old.errors terminal.new.errors
        terminal.old.is_asked (is_output_cut result) (
        IsFinished D.known given.now.settings.now.quiet terminal.old.outputs
        terminal.new.outputs (precious_in given.now.source.now) answer result) }
    ensures input { terminal.new.input ≡ terminal.old.input }
{
    match answer {
        Ok(report) => {
            let left = finish_report(terminal, given, &report, None, crew);
            // The process ends soon, and the system takes its memory back at once.
            let _kept = ManuallyDrop::new(report);
            Happened::Ran(left)
        }
        Err(fault) => finish_fault(terminal, why, given, fault, crew),
    }
}

/// Prints the text of a report that shows one. Returns whether standard output took it.
pub fn print_shown<D: Disk, R: Read, W: Hears, E: Hears>(
    terminal: &mut Terminal<'_, D, R, W, E>,
    report: &Report,
) -> bool
    ensures printed { IsBegun (W.contents terminal.old.output) (W.contents terminal.new.output)
        (W.has_failed terminal.new.output) (not result)
        (printed false report.now.messages []) }
    ensures said { SaysLines E.contents E.has_failed terminal.old.errors terminal.new.errors
        terminal.old.is_asked
        (errors_of report.now.messages ++ unwritten (codes "standard output") result) }
    ensures outputs { terminal.new.outputs ≡ terminal.old.outputs }
    ensures input { terminal.new.input ≡ terminal.old.input }
{
    let alloc = terminal.alloc;
    let is_asked = terminal.is_asked;
    let errors = &mut terminal.errors;
    let messages = report.messages.as_slice();
    let done = print_all(alloc, messages, b"", false, &mut terminal.output, errors);
    tell_written(alloc, is_asked, OUTPUT, done, errors)
}
