//! The program's commands, over its streams, its files and a crew.

ghost use Rattle.std.specs.Prelude.{◌≡◌, true, false, ◌∷◌, ◌≢◌, ◌⊎◌, ◌≤◌, ◌<◌, ℕ, List, [], length, None, IfSome, OnOk, codes, option_map, vec_items};
ghost use Rattle.std.specs.Io.KnownBytes.{Appends};
ghost use Rattle.cmd_status.specs.Happened.{is_output_cut};
ghost use Rattle.cmd_status.specs.LeftAgain.{IsLeftAgain, PrintsPart};
ghost use Rattle.cmd_status.specs.MadeAgain.{IsMadeAgain};
ghost use Rattle.cmd_configure.specs.Configures.{IsConfigured, IsRechecked, IsWindow, MayRun};
ghost use Rattle.cmd_configure.specs.Ended.{Exits, HasHappened, HasHappenedAgain, Prints};
ghost use Rattle.crew_trait.specs.Events.{IsIdle};
ghost use Rattle.file_texts.specs.Held.{fresh};
ghost use Rattle.cmd_filter.specs.Filtered.{IsFiltered};
ghost use Rattle.cmd_call.specs.Calls.{call_of, Unknown, Version, IfFilter, IfStandIn, IfConfigure, IfStatus, IfRecheck, IfHelp, HasNoRun};
ghost use Rattle.cmd_call.specs.Errors.{AreTold};
ghost use Rattle.cmd_call.specs.Lines.{IsTold, SaysLines, error_line};
ghost use Rattle.cmd_status.specs.Printed.{WritesSo, Written};
ghost use Rattle.cmd_status.specs.Unmade.{SaysUnmade};
ghost use Rattle.runner.specs.Refusals.{IsUsageTold, TellsWhy};
ghost use Rattle.runner.specs.Filters.{FilterSays, FiltersSo};
ghost use Rattle.runner.specs.Puts.{HasNoPuts, HasNoStandIn};
ghost use Rattle.crew_tally.specs.Line.{summary};
ghost use Rattle.runner.specs.Ends as ends;
ghost use Rattle.runner.specs.Tools.{AreToolsRun, HasNoTools, HasToolStatus, IfTools, IsUnstartedTold, ReadsNothing, WritesNothing};
ghost use Rattle.runner.specs.Ends.{IsSummed};
ghost use Rattle.cmd_standin.specs.Standin.{IsAnswered, Meets};

use crate::inputs::run_filter;
use crate::meeting::ProcessMeeting;
use cmd_call::{
    FAULT, Heard, Hears, ProgramCall, Terminal, call_of, tell_memory, tell_named, tell_usage,
};
use cmd_configure::{run_configure, run_recheck};
use cmd_explain::{asks_why, explain_help, explain_usage};
use cmd_help::{run_help, run_version};
use cmd_standin::Meeting;
use cmd_status::{exit_status, run_standin, run_status};
use crew_refusals::{Cause, Causes};
use crew_resume::Resumes;
use crew_tally::{Children, Counted, Tally, summary};
use deftable::Bytes;
use file_disk::{Disk, Host};
use file_texts::FileOutputs;
use patient_writer::Patient;
use std::alloc::{AllocError, Global};
use std::io::{self, Input, IsTerminal, Read, Write};
use std::time::Instant;
use text_controls::Shown;
use tool_start::Tools;

/// Reports that the words are no command, and says more of it if it is asked. Returns the exit
/// status.
fn tell_unknown<E: Hears>(alloc: Global, is_asked: bool, words: &[Bytes], errors: &mut E) -> u8
    ensures status { result ≡ 2 }
    ensures told { IsUsageTold E.contents E.has_failed errors.old errors.new is_asked }
{
    let _ = tell_usage(errors);
    explain_usage(alloc, is_asked, words, errors);
    FAULT
}

/// Runs the command that the words name, if it is one that explains the program, and returns its
/// exit status. Any other words are reported as no command.
fn explain<D: Disk, R: Read, W: Hears, E: Hears>(
    terminal: &mut Terminal<'_, D, R, W, E>,
    words: &[Bytes],
) -> u8
    ensures help { IfHelp (call_of words.now) (λ asked.
        ((result ≡ 0) ⊎ (result ≡ 2)) × (1 < length asked → result ≡ 2)
        × (result ≡ 0 → terminal.new.errors ≡ terminal.old.errors)) }
    ensures version { call_of words.now ≡ Version
        → ((result ≡ 0) ⊎ (result ≡ 2)) × (result ≡ 0 → terminal.new.errors ≡ terminal.old.errors) }
    ensures unknown { call_of words.now ≡ Unknown → result ≡ 2 }
    ensures input { terminal.new.input ≡ terminal.old.input }
    ensures output { WritesNothing (call_of words.now)
        → terminal.new.output ≡ terminal.old.output }
    ensures files { terminal.new.outputs ≡ terminal.old.outputs }
    ensures refused { result ≡ 2
        → TellsWhy E.contents E.has_failed terminal.old.errors terminal.new.errors
        terminal.old.is_asked (W.has_failed terminal.new.output) (call_of words.now) }
{
    let alloc = terminal.alloc;
    let output = &mut terminal.output;
    let errors = &mut terminal.errors;
    match call_of(words) {
        ProgramCall::Help(words) => {
            let status = run_help(words, output, errors);
            explain_help(alloc, terminal.is_asked, status, words, errors);
            status
        }
        ProgramCall::Version => run_version(output, errors),
        _ => tell_unknown(alloc, terminal.is_asked, words, errors),
    }
}

/// Reports that the program of the tools can't be started, and returns the exit status.
fn tell_unstarted<E: Hears>(cause: &Cause, errors: &mut E) -> u8
    ensures status { result ≡ 2 }
    ensures told { IsUnstartedTold E.contents E.has_failed errors.old errors.new }
{
    match cause.line() {
        Some(line) => tell_named(errors, b"tools", line),
        None => tell_memory(errors),
    }
}

/// Runs the program of the tools with these words, and returns its exit status.
fn start_tools<T: Tools, E: Hears>(words: &[Bytes], tools: &mut T, errors: &mut E) -> u8
    ensures { AreToolsRun E.contents E.has_failed errors.old errors.new (T.starts tools.old)
        (T.starts tools.new) words.now result }
{
    match tools.start(words) {
        Ok(status) => status,
        Err(cause) => tell_unstarted(&cause, errors),
    }
}

/// Runs the configure.ac that the arguments name, and returns the exit status of what happened.
fn configure<D: Disk, C: Resumes + Causes, R: Read, W: Hears, E: Hears>(
    terminal: &mut Terminal<'_, D, R, W, E>,
    window: usize,
    args: &[Bytes],
    crew: &mut C,
) -> u8
    requires window { IsWindow window }
    requires may_run { MayRun (C.account crew.old) }
    requires fresh { terminal.old.outputs ≡ fresh terminal.old.outputs.disk }
    ensures idle { IsIdle (C.account crew.new).events }
    ensures run { result ≢ 2
        → Prints (W.contents terminal.old.output) (W.contents terminal.new.output) E.contents
        E.has_failed terminal.old.errors terminal.new.errors terminal.old.is_asked (λ out said.
        IsConfigured window args.now terminal.old.env.now (C.account crew.old)
        (C.account crew.new) (D.known terminal.old.outputs.disk)
        (D.known terminal.new.outputs.disk) out said result) }
    ensures ended { Exits result (λ happened.
        WritesSo W.contents W.has_failed E.contents E.has_failed terminal.old.output
        terminal.new.output terminal.old.errors terminal.new.errors terminal.old.is_asked
        (is_output_cut happened) (
        HasHappened window args.now terminal.old.env.now (C.account crew.old)
        (C.account crew.new) (D.known terminal.old.outputs.disk)
        (D.known terminal.new.outputs.disk) happened))
        (Prints (W.contents terminal.old.output) (W.contents terminal.new.output) E.contents
        E.has_failed terminal.old.errors terminal.new.errors terminal.old.is_asked (λ out said.
        IsConfigured window args.now terminal.old.env.now (C.account crew.old)
        (C.account crew.new) (D.known terminal.old.outputs.disk)
        (D.known terminal.new.outputs.disk) out said result)) }
    ensures input { terminal.new.input ≡ terminal.old.input }
{
    let happened = run_configure(terminal, window, args, crew);
    exit_status(&happened)
}

/// Runs a configure.ac again with the arguments of its record, and returns the exit status of what
/// happened.
fn recheck<D: Disk, C: Resumes + Causes, R: Read, W: Hears, E: Hears>(
    terminal: &mut Terminal<'_, D, R, W, E>,
    crew: &mut C,
) -> u8
    requires may_run { MayRun (C.account crew.old) }
    requires fresh { terminal.old.outputs ≡ fresh terminal.old.outputs.disk }
    ensures idle { IsIdle (C.account crew.new).events }
    ensures run { result ≢ 2
        → Prints (W.contents terminal.old.output) (W.contents terminal.new.output) E.contents
        E.has_failed terminal.old.errors terminal.new.errors terminal.old.is_asked (λ out said.
        IsRechecked terminal.old.env.now (C.account crew.old) (C.account crew.new)
        (D.known terminal.old.outputs.disk) (D.known terminal.new.outputs.disk) out said
        result) }
    ensures ended { Exits result (λ happened.
        WritesSo W.contents W.has_failed E.contents E.has_failed terminal.old.output
        terminal.new.output terminal.old.errors terminal.new.errors terminal.old.is_asked
        (is_output_cut happened) (
        HasHappenedAgain terminal.old.env.now (C.account crew.old) (C.account crew.new)
        (D.known terminal.old.outputs.disk) (D.known terminal.new.outputs.disk) happened))
        (Prints (W.contents terminal.old.output) (W.contents terminal.new.output) E.contents
        E.has_failed terminal.old.errors terminal.new.errors terminal.old.is_asked (λ out said.
        IsRechecked terminal.old.env.now (C.account crew.old) (C.account crew.new)
        (D.known terminal.old.outputs.disk) (D.known terminal.new.outputs.disk) out said
        result)) }
    ensures input { terminal.new.input ≡ terminal.old.input }
{
    let happened = run_recheck(terminal, crew);
    exit_status(&happened)
}

/// Runs the command that the words name, and returns its exit status.
///
/// Without words, it filters its input, and the status is that of the source's run. After `standin`
/// they are the command line of a compiler, which the stand-in answers. After `configure` they are
/// the arguments of a run, which has at most one child at once, or N after `-jN`. After `status`
/// they are the names of outputs of the run's record, which are made again; but `status --recheck`
/// is the run again, with the arguments of its record. `help` says how commands are called. For
/// `lint`, `port`, `header` and `why` the program of the tools is run with the same words, and the status is
/// its own. There is no other command. If anything is wrong, also with the words, the status is 2
/// (own).
///
/// Each error is reported as one line on standard error. If that can't be written, only the status
/// reports it. If the terminal's `is_asked` is true, further lines may follow such a line, which
/// say why; otherwise none do.
pub fn run<M: Meeting, D: Disk, C: Resumes + Causes, T: Tools, R: Read, W: Hears, E: Hears>(
    terminal: &mut Terminal<'_, D, R, W, E>,
    meeting: &mut M,
    words: &[Bytes],
    crew: &mut C,
    tools: &mut T,
) -> u8
    requires may_run { MayRun (C.account crew.old) }
    requires fresh { terminal.old.outputs ≡ fresh terminal.old.outputs.disk }
    // Without words: unless the status is 2, what is written and the status are those of the
    // source's meaning.
    ensures filter { IfFilter (call_of words.now) (
        (result ≡ 2)
        ⊎ IfSome (R.remaining terminal.old.input) (λ text.
        (out : List ℕ) × (said : List ℕ) × IsFiltered text out said result
        × Appends (W.contents terminal.old.output) (W.contents terminal.new.output) out
        × (said ≡ [] → terminal.new.errors ≡ terminal.old.errors)
        × AreTold (E.contents terminal.old.errors) (E.contents terminal.new.errors)
        (said ∷ []))) }
    // Whatever the status is: the input has a fault, and nothing is written, unless it is that the
    // text couldn't be; or what is written and the status, also 2, are those of the source's meaning.
    ensures filtered { IfFilter (call_of words.now) (
        IfSome (R.remaining terminal.old.input) (λ text.
        FiltersSo text result (terminal.new.output ≡ terminal.old.output) (λ out said.
        Appends (W.contents terminal.old.output) (W.contents terminal.new.output) out
        × (said ≡ [] → terminal.new.errors ≡ terminal.old.errors)
        × AreTold (E.contents terminal.old.errors) (E.contents terminal.new.errors)
        (said ∷ [])))) }
    // The stand-in's status is its answer for the texts of its files, unless memory runs out. If it
    // accepts the conftest, it writes nothing.
    ensures standin { IfStandIn (call_of words.now) (λ others.
        (result ≡ 2) ⊎ IsAnswered (D.known terminal.old.outputs.disk) others result) }
    ensures silent { IfStandIn (call_of words.now) (λ others.
        result ≡ 0 → terminal.new.errors ≡ terminal.old.errors) }
    // It makes no file but the one that shows that its conftest was seen, and no other command makes
    // one in this way.
    ensures meets { IfStandIn (call_of words.now) (λ others.
        Meets (M.made meeting.old) (M.made meeting.new) others) }
    ensures unmet { HasNoStandIn (call_of words.now) → meeting.new ≡ meeting.old }
    // Unless the status is 2, the crew made the run of the source that the arguments name, with
    // these arguments, this environment, its cache and its templates; the status is that of its
    // outcome, its messages and the lines on its outputs are printed, and what it hands over and
    // its log are written, and nothing else. Standard error gets its messages for standard error,
    // as far as it takes them, with pages among them if it is asked why, and nothing else.
    ensures configure { IfConfigure (call_of words.now) (λ window args.
        result ≢ 2
        → (out : List ℕ) × (said : List (List ℕ))
        × IsConfigured window args terminal.old.env.now (C.account crew.old)
        (C.account crew.new) (D.known terminal.old.outputs.disk)
        (D.known terminal.new.outputs.disk) out said result
        × Appends (W.contents terminal.old.output) (W.contents terminal.new.output) out
        × SaysLines E.contents E.has_failed terminal.old.errors terminal.new.errors
        terminal.old.is_asked said) }
    // Whatever the status is, also 2, it is that of what happened, which is one of these. The
    // source can't be read, it or what it is given has a fault, memory ran out before the run, or a
    // text was shown: then no child was started, and nothing was done to files. Or memory ran out in
    // the run, and nothing was done to files. Or the run was made, and what it handed over before a
    // put was refused is written, and nothing else. Standard error gets the line of the fault, or
    // the messages of the run and a line for all that couldn't be written, with pages among them if
    // it is asked why, and nothing else. Standard output gets what the run or the text prints, or a
    // front of it if it fails, and nothing else. Unless something couldn't be written, also the rest
    // of what is said above holds, with this status.
    ensures ended { IfConfigure (call_of words.now) (λ window args.
        Exits result (λ happened.
        WritesSo W.contents W.has_failed E.contents E.has_failed terminal.old.output
        terminal.new.output terminal.old.errors terminal.new.errors terminal.old.is_asked
        (is_output_cut happened) (
        HasHappened window args terminal.old.env.now (C.account crew.old)
        (C.account crew.new) (D.known terminal.old.outputs.disk)
        (D.known terminal.new.outputs.disk) happened))
        (Prints (W.contents terminal.old.output) (W.contents terminal.new.output) E.contents
        E.has_failed terminal.old.errors terminal.new.errors terminal.old.is_asked (λ out said.
        IsConfigured window args terminal.old.env.now (C.account crew.old)
        (C.account crew.new) (D.known terminal.old.outputs.disk)
        (D.known terminal.new.outputs.disk) out said result))) }
    // Unless the status is 2, it is 0, and the outputs of the record with these names are made, and
    // nothing else.
    ensures status { IfStatus (call_of words.now) (λ tags.
        result ≢ 2
        → (result ≡ 0) × (out : List ℕ)
        × IsMadeAgain (D.known terminal.old.outputs.disk)
        (D.known terminal.new.outputs.disk) tags out
        × Appends (W.contents terminal.old.output) (W.contents terminal.new.output) out) }
    // Then nothing is written on standard error.
    ensures made_silently { IfStatus (call_of words.now) (λ tags.
        result ≢ 2 → terminal.new.errors ≡ terminal.old.errors) }
    // Unless the status is 2, the same holds of the run with the arguments of the record, and then
    // `--no-create`.
    ensures recheck { IfRecheck (call_of words.now) (
        result ≢ 2
        → (out : List ℕ) × (said : List (List ℕ))
        × IsRechecked terminal.old.env.now (C.account crew.old) (C.account crew.new)
        (D.known terminal.old.outputs.disk) (D.known terminal.new.outputs.disk) out said
        result
        × Appends (W.contents terminal.old.output) (W.contents terminal.new.output) out
        × SaysLines E.contents E.has_failed terminal.old.errors terminal.new.errors
        terminal.old.is_asked said) }
    // Whatever its status is, one of the same cases holds of it, or the record can't be read or run
    // again, and nothing was done.
    ensures ended_again { IfRecheck (call_of words.now) (
        Exits result (λ happened.
        WritesSo W.contents W.has_failed E.contents E.has_failed terminal.old.output
        terminal.new.output terminal.old.errors terminal.new.errors terminal.old.is_asked
        (is_output_cut happened) (
        HasHappenedAgain terminal.old.env.now (C.account crew.old) (C.account crew.new)
        (D.known terminal.old.outputs.disk) (D.known terminal.new.outputs.disk) happened))
        (Prints (W.contents terminal.old.output) (W.contents terminal.new.output) E.contents
        E.has_failed terminal.old.errors terminal.new.errors terminal.old.is_asked (λ out said.
        IsRechecked terminal.old.env.now (C.account crew.old) (C.account crew.new)
        (D.known terminal.old.outputs.disk) (D.known terminal.new.outputs.disk) out said
        result))) }
    ensures help { IfHelp (call_of words.now) (λ asked.
        ((result ≡ 0) ⊎ (result ≡ 2)) × (1 < length asked → result ≡ 2)
        × (result ≡ 0 → terminal.new.errors ≡ terminal.old.errors)) }
    ensures version { call_of words.now ≡ Version
        → ((result ≡ 0) ⊎ (result ≡ 2)) × (result ≡ 0 → terminal.new.errors ≡ terminal.old.errors) }
    ensures unknown { call_of words.now ≡ Unknown → result ≡ 2 }
    // For `lint`, `port`, `header` and `why` the program of the tools is run once, with the same words. Its
    // status is that of the command, and nothing is written. If it can't be started, the status is
    // 2, and standard error has the line of the cause, or of memory. No other words run it.
    ensures tools { IfTools (call_of words.now) (
        AreToolsRun E.contents E.has_failed terminal.old.errors terminal.new.errors
        (T.starts tools.old) (T.starts tools.new) words.now result) }
    ensures untooled { HasNoTools (call_of words.now) → tools.new ≡ tools.old }
    // Only a run starts children, and only the filter reads the input. The stand-in writes no
    // output, and where the tools are run nothing is written here. Only a run, and outputs that are
    // made again, change files through `outputs`.
    ensures crew { HasNoRun (call_of words.now) → crew.new ≡ crew.old }
    ensures input { ReadsNothing (call_of words.now)
        → terminal.new.input ≡ terminal.old.input }
    ensures output { WritesNothing (call_of words.now)
        → terminal.new.output ≡ terminal.old.output }
    ensures files { HasNoPuts (call_of words.now) → terminal.new.outputs ≡ terminal.old.outputs }
    // A refusal is told, unless standard error failed: what refuses is one of these, and standard
    // error has its line. If it is asked why, it has pages too, and otherwise nothing more.
    ensures refused { result ≡ 2
        → TellsWhy E.contents E.has_failed terminal.old.errors terminal.new.errors
        terminal.old.is_asked (W.has_failed terminal.new.output) (call_of words.now) }
    ensures filter_refused { IfFilter (call_of words.now) (
        result ≡ 2
        → FilterSays E.contents E.has_failed terminal.old.errors terminal.new.errors
        terminal.old.is_asked (R.remaining terminal.old.input) result) }
    ensures standin_refused { IfStandIn (call_of words.now) (λ others.
        result ≡ 2
        → IsTold E.contents E.has_failed terminal.old.errors terminal.new.errors
        (error_line (codes "memory") [])) }
    // If the status of `status` is 2, nothing was done to files and nothing was printed, or the
    // outputs up to one that was refused are made, or all are, and their lines are printed, as far
    // as standard output takes them. Nothing else was done to files.
    ensures left { IfStatus (call_of words.now) (λ tags.
        result ≡ 2
        → IsLeftAgain (D.known terminal.old.outputs.disk) (D.known terminal.new.outputs.disk) tags
        (terminal.new.output ≡ terminal.old.output)
        (PrintsPart W.contents W.has_failed terminal.old.output terminal.new.output)) }
    ensures status_refused { IfStatus (call_of words.now) (λ tags.
        result ≡ 2
        → (lines : List (List ℕ))
        × SaysUnmade (D.known terminal.old.outputs.disk) tags
        (W.has_failed terminal.new.output) lines
        × SaysLines E.contents E.has_failed terminal.old.errors terminal.new.errors
        terminal.old.is_asked lines) }
    // No child is left in flight.
    ensures idle { IsIdle (C.account crew.new).events }
{
    let alloc = terminal.alloc;
    match call_of(words) {
        ProgramCall::Filter => run_filter(
            alloc,
            terminal.is_asked,
            &mut terminal.input,
            &mut terminal.output,
            &mut terminal.errors,
        ),
        ProgramCall::StandIn(words) => {
            let disk = terminal.outputs.disk();
            run_standin(alloc, meeting, disk, words, &mut terminal.errors)
        }
        ProgramCall::Configure(window, args) => configure(terminal, window, args, crew),
        ProgramCall::Status(tags) => run_status(terminal, tags),
        ProgramCall::Recheck => recheck(terminal, crew),
        ProgramCall::Lint(_) => start_tools(words, tools, &mut terminal.errors),
        ProgramCall::Port(_) => start_tools(words, tools, &mut terminal.errors),
        ProgramCall::Header(_) => start_tools(words, tools, &mut terminal.errors),
        ProgramCall::Why(_) => start_tools(words, tools, &mut terminal.errors),
        _ => explain(terminal, words),
    }
}

/// Returns whether the words ask for a run.
fn asks_run(words: &[Bytes]) -> bool
    ensures { result ≡ ends.asks_run (call_of words.now) }
{
    match call_of(words) {
        ProgramCall::Configure(_, _) => true,
        ProgramCall::Recheck => true,
        _ => false,
    }
}

/// Returns the milliseconds since the clock gave a time, or 0 if the clock can't be read.
fn millis_since(rt: &HostRuntime, begun: &io::Result<Instant>) -> u64 {
    match begun {
        Ok(begun) => match begun.elapsed(rt) {
            Ok(passed) => {
                let millis = u64::from(passed.subsec_millis());
                passed.as_secs().saturating_mul(1000).saturating_add(millis)
            }
            Err(_) => 0,
        },
        Err(_) => 0,
    }
}

/// Sums a run up that began then, on its last line, if its checks were counted.
///
/// # Errors
///
/// Fails only if memory runs out.
fn sum_up<E: Hears>(
    rt: &HostRuntime,
    alloc: Global,
    begun: &io::Result<Instant>,
    tally: &Option<Tally>,
    children: u64,
    errors: &mut E,
) -> Result<(), AllocError>
    // If its checks were counted, a run that made one has its line, unless standard error failed.
    ensures summed { OnOk result (IfSome tally.now (λ tally.
        (millis : ℕ)
        × IsSummed E.contents E.has_failed errors.old errors.new (summary tally children millis))) }
    ensures unasked { tally.now ≡ None → errors.new ≡ errors.old }
{
    let Some(tally) = tally else {
        return Ok(());
    };
    let line = summary(alloc, tally, children, millis_since(rt, begun))?;
    put_line(&line, errors);
    Ok(())
}

/// Writes the last line of a run, if there is one.
fn put_line<E: Hears>(line: &Option<Vec<u8>>, errors: &mut E)
    ensures { IsSummed E.contents E.has_failed errors.old errors.new (option_map vec_items line.now) }
{
    match line {
        Some(line) => {
            let _ = errors.say(line.as_slice());
        }
        None => {}
    }
}

/// Runs the command that the words name, on the streams and the files of the process, and returns
/// its exit status.
///
/// This is [`run`], which says what each command does. On a terminal control bytes are written as
/// `\xNN`, so that no text of a source, an argument or a compiler drives it. Lines that say why are
/// asked for if standard error is a terminal, or if the environment has an ACRUN_WHY that isn't
/// empty. If standard error is a terminal, the last line of a run that made a check sums it up
/// (own).
pub fn command<C: Resumes + Causes + Children, T: Tools>(
    rt: HostRuntime,
    alloc: Global,
    words: &[Bytes],
    env: &[(Bytes, Bytes)],
    crew: &mut C,
    tools: &mut T,
) -> u8
    requires may_run { MayRun (C.account crew.old) }
    // What [`run`] says, but for what only known streams and files can show.
    ensures standin { IfStandIn (call_of words.now) (λ others.
        (result ≡ 2) ⊎ IsAnswered None others result) }
    ensures configure { IfConfigure (call_of words.now) (λ window args.
        result ≢ 2
        → (out : List ℕ) × (said : List (List ℕ))
        × IsConfigured window args env.now (C.account crew.old) (C.account crew.new) None
        None out said result) }
    ensures ended { IfConfigure (call_of words.now) (λ window args.
        Exits result (λ happened.
        (written : Written)
        × HasHappened window args env.now (C.account crew.old) (C.account crew.new) None None
        happened written)
        ((out : List ℕ) × (said : List (List ℕ))
        × IsConfigured window args env.now (C.account crew.old) (C.account crew.new) None
        None out said result)) }
    ensures status { IfStatus (call_of words.now) (λ tags.
        result ≢ 2 → (result ≡ 0) × (out : List ℕ) × IsMadeAgain None None tags out) }
    ensures recheck { IfRecheck (call_of words.now) (
        result ≢ 2
        → (out : List ℕ) × (said : List (List ℕ))
        × IsRechecked env.now (C.account crew.old) (C.account crew.new) None None out said
        result) }
    ensures ended_again { IfRecheck (call_of words.now) (
        Exits result (λ happened.
        (written : Written)
        × HasHappenedAgain env.now (C.account crew.old) (C.account crew.new) None None happened
        written)
        ((out : List ℕ) × (said : List (List ℕ))
        × IsRechecked env.now (C.account crew.old) (C.account crew.new) None None out said
        result)) }
    ensures help { IfHelp (call_of words.now) (λ asked.
        ((result ≡ 0) ⊎ (result ≡ 2)) × (1 < length asked → result ≡ 2)) }
    ensures version { call_of words.now ≡ Version → (result ≡ 0) ⊎ (result ≡ 2) }
    ensures unknown { call_of words.now ≡ Unknown → result ≡ 2 }
    ensures tools { IfTools (call_of words.now) (
        HasToolStatus (T.starts tools.old) (T.starts tools.new) words.now result) }
    ensures untooled { HasNoTools (call_of words.now) → tools.new ≡ tools.old }
    ensures crew { HasNoRun (call_of words.now) → crew.new ≡ crew.old }
    ensures idle { IsIdle (C.account crew.new).events }
{
    let is_seen = rt.stderr().is_terminal();
    let is_shown = rt.stdout().is_terminal();
    let is_summed = is_seen && asks_run(words);
    let begun = Instant::now(&rt);
    let mut terminal = Terminal {
        alloc,
        is_asked: asks_why(env) || is_seen,
        env,
        outputs: FileOutputs::new(alloc, Host::from_here(&rt)),
        input: rt.reader(),
        output: Heard::new(Counted::new(
            Shown::new(Patient::new(io::writer(&rt), &rt), is_shown),
            is_summed,
        )),
        errors: Heard::new(Shown::new(Patient::new(rt.stderr(), &rt), is_seen)),
    };
    let mut meeting = ProcessMeeting::new(rt);
    let status = run(&mut terminal, &mut meeting, words, crew, tools);
    let tally = terminal.output.stream().tally();
    let children = crew.children();
    let _ = sum_up(&rt, alloc, &begun, &tally, children, &mut terminal.errors);
    status
}
