//! The command.

ghost use Rattle.std.specs.Prelude.{◌≡◌, ◌≢◌, ◌≤◌, ℕ, false, List, [], map, codes, option_map, IfNone, IfOk, IfSome};
ghost use Rattle.std.specs.Io.KnownBytes.{Appends};
ghost use Rattle.cmd_call.specs.Lines.{IsTold, error_line};
ghost use Rattle.cmd_why.specs.Lines as logs;
ghost use Rattle.cmd_why.specs.Refusals.{IsLost, IsNoLog, IsSaid, IsSaidForWord, IsSaidOfLog, IsSaidOfRecord, IsSaidOfRun, IsSaidOfText, Tells, record_line};
ghost use Rattle.cmd_why.specs.Shown.{printed, status_of};
ghost use Rattle.cmd_why.specs.Views.{check_seen, line_seen};
ghost use Rattle.cmd_why.specs.Sources.{IsSeenFor};
ghost use Rattle.cmd_why.specs.declared.seen.Seen.{Seen};
ghost use Rattle.cmd_why.specs.Why as specs;

use crate::lines::{Check, LogLine, checks_of, counted, is_run};
use crate::record::line_in;
use crate::seen::{RECORD, Seen, seen_for};
use crate::showing::{FOUND, put_printed};
use cfglog::read_log;
use cmd_call::{
    Hears, LOG, record_spot, tell_file, tell_memory, tell_named, tell_spot, tell_usage,
};
use deftable::Bytes;
use file_disk::Disk;
use file_texts::read_text;
use status_record::RecordFault;
use std::alloc::{AllocError, Global};
use std::io::Write;

/// What is printed, and the exit status.
#[derive(Drop)]
struct Answer {
    text: Vec<u8>,
    status: u8,
}

/// Returns what is printed for a word of the lines of a log with these checks.
fn answer_with(
    alloc: Global,
    seen: &Seen,
    lines: &[LogLine<'_>],
    checks: &[Check<'_>],
    word: &[u8],
) -> Result<Answer, AllocError>
    ensures text { IfOk result (λ answer.
        answer.text.items
        ≡ printed seen.now (map line_seen lines.now) word.now (map check_seen checks.now)) }
    ensures status { IfOk result (λ answer.
        answer.status ≡ status_of word.now (map check_seen checks.now)) }
    ensures bound { IfOk result (λ answer. answer.status ≤ 1) }
{
    let mut text = Vec::new(alloc);
    let status = put_printed(alloc, &mut text, seen, lines, word, checks)?;
    Ok(Answer { text, status })
}

/// Returns what is printed for a word of the lines of a log, or `None` if they have nothing of a
/// run: none begins a check, and none is an error, a warning or a notice.
#[tactic(auto, using(crate::proofs::Explained::answered, crate::proofs::Saying::nothing_of_run))]
fn answer_of(
    alloc: Global,
    seen: &Seen,
    lines: &[LogLine<'_>],
    word: &[u8],
) -> Result<Option<Answer>, AllocError>
    ensures answer { IfOk result (λ o.
        IfSome o (λ answer.
        specs.IsAnswer seen.now word.now (map line_seen lines.now) answer.text.items
        answer.status)) }
    ensures none { IfOk result (λ o.
        IfNone o (
        logs.is_run (logs.checks (map line_seen lines.now)) (map line_seen lines.now) ≡ false)) }
    ensures bound { IfOk result (λ o. IfSome o (λ answer. answer.status ≤ 1)) }
{
    let checks = checks_of(alloc, lines)?;
    let checks = checks.as_slice();
    if is_run(checks, lines) {
        let answer = answer_with(alloc, seen, lines, checks, word)?;
        return Ok(Some(answer));
    }
    Ok(None)
}

/// Returns what is printed for a word of a log, or `None` if the text is no log of a run.
fn answer_in(
    alloc: Global,
    seen: &Seen,
    text: &[u8],
    word: &[u8],
) -> Result<Option<Answer>, AllocError>
    ensures answer { IfOk result (λ o.
        IfSome o (λ answer.
        specs.IsInLog seen.now text.now word.now answer.text.items answer.status)) }
    ensures none { IfOk result (λ o. IfNone o (IsNoLog text.now)) }
    ensures bound { IfOk result (λ o. IfSome o (λ answer. answer.status ≤ 1)) }
{
    match read_log(alloc, text)? {
        Some(lines) => {
            let lines = counted(alloc, lines.as_slice())?;
            answer_of(alloc, seen, lines.as_slice(), word)
        }
        None => Ok(None),
    }
}

/// Writes what is to be printed, and returns the exit status.
#[tactic(auto, using(crate::proofs::Saying::output_lost))]
fn put_text<W: Write, E: Hears>(text: &[u8], status: u8, output: &mut W, errors: &mut E) -> u8
    requires { status ≤ 1 }
    ensures bound { result ≤ 2 }
    ensures status { result ≢ 2 → result ≡ status }
    ensures silent { result ≢ 2 → errors.new ≡ errors.old }
    ensures refused { result ≡ 2 → Tells E.contents E.has_failed errors.old errors.new IsLost }
    ensures put { result ≢ 2 → Appends (W.contents output.old) (W.contents output.new) text.now }
{
    match output.write_all(text) {
        Ok(()) => status,
        Err(_) => tell_file(errors, b"standard output"),
    }
}

/// Writes what the text of a log says about the word, and returns the exit status.
#[tactic(auto, using(crate::proofs::Explained::written, crate::proofs::Saying::lost_text, crate::proofs::Saying::no_log_told, crate::proofs::Saying::memory_of_text))]
fn write_from_text<W: Write, E: Hears>(
    alloc: Global,
    seen: &Seen,
    text: &[u8],
    word: &[u8],
    name: &[u8],
    output: &mut W,
    errors: &mut E,
) -> u8
    ensures status { result ≤ 2 }
    ensures silent { result ≢ 2 → errors.new ≡ errors.old }
    ensures refused { result ≡ 2
        → Tells E.contents E.has_failed errors.old errors.new (IsSaidOfText name.now text.now) }
    ensures answer { result ≢ 2
        → (out : List ℕ) × specs.IsInLog seen.now text.now word.now out result
        × Appends (W.contents output.old) (W.contents output.new) out }
{
    match answer_in(alloc, seen, text, word) {
        Ok(Some(answer)) => put_text(answer.text.as_slice(), answer.status, output, errors),
        Ok(None) => tell_named(errors, b"log", name),
        Err(_) => tell_memory(errors),
    }
}

/// Writes what the text of the log of this name says about the word, and returns the exit status.
#[tactic(auto, using(crate::proofs::Explained::by_seen, crate::proofs::Saying::memory_of_text))]
fn write_from_seen<D: Disk, W: Write, E: Hears>(
    alloc: Global,
    disk: &D,
    text: &[u8],
    word: &[u8],
    name: &[u8],
    output: &mut W,
    errors: &mut E,
) -> u8
    ensures status { result ≤ 2 }
    ensures silent { result ≢ 2 → errors.new ≡ errors.old }
    ensures refused { result ≡ 2
        → Tells E.contents E.has_failed errors.old errors.new (IsSaidOfText name.now text.now) }
    ensures answer { result ≢ 2
        → (seen : Seen) × IsSeenFor (D.known disk.now) name.now seen
        × ((out : List ℕ) × specs.IsInLog seen text.now word.now out result
        × Appends (W.contents output.old) (W.contents output.new) out) }
{
    match &seen_for(alloc, disk, name) {
        Ok(seen) => write_from_text(alloc, seen, text, word, name, output, errors),
        Err(_) => tell_memory(errors),
    }
}

/// Writes what a log says about the word, and returns the exit status.
#[tactic(auto, using(crate::proofs::Explained::explained, crate::proofs::Saying::text_told, crate::proofs::Saying::unread_told, crate::proofs::Saying::memory_of_log))]
fn write_from_log<D: Disk, W: Write, E: Hears>(
    alloc: Global,
    disk: &D,
    word: &[u8],
    name: &[u8],
    output: &mut W,
    errors: &mut E,
) -> u8
    ensures status { result ≤ 2 }
    ensures silent { result ≢ 2 → errors.new ≡ errors.old }
    ensures refused { result ≡ 2
        → Tells E.contents E.has_failed errors.old errors.new (
        IsSaidOfLog (D.known disk.now) name.now) }
    ensures answer { result ≢ 2
        → (out : List ℕ) × specs.IsOfLog (D.known disk.now) name.now word.now out result
        × Appends (W.contents output.old) (W.contents output.new) out }
{
    match read_text(alloc, disk, name) {
        Ok(Some(text)) => write_from_seen(alloc, disk, text.as_slice(), word, name, output, errors),
        Ok(None) => tell_file(errors, name),
        Err(_) => tell_memory(errors),
    }
}

/// Returns the name of the log, by the words after WORD, or `None` if there are more than one.
fn log_named(more: &[Bytes]) -> Option<&[u8]>
    ensures { option_map (λ name. name.now) result ≡ specs.log_named more.now }
{
    match more.split_first() {
        Some((name, others)) => {
            if others.is_empty() {
                Some(name.as_slice())
            } else {
                None
            }
        }
        None => Some(LOG.as_bytes()),
    }
}

/// Writes what the log of this name says about the word, and returns the exit status. If there is
/// no name, the
/// words have no meaning.
#[tactic(auto, using(crate::proofs::Saying::usage_told))]
fn write_for_word<D: Disk, W: Write, E: Hears>(
    alloc: Global,
    disk: &D,
    word: &[u8],
    name: Option<&[u8]>,
    output: &mut W,
    errors: &mut E,
) -> u8
    ensures status { result ≤ 2 }
    ensures silent { result ≢ 2 → errors.new ≡ errors.old }
    ensures refused { result ≡ 2
        → Tells E.contents E.has_failed errors.old errors.new (
        IsSaidForWord (D.known disk.now) (option_map (λ name. name.now) name.entry)) }
    ensures answer { result ≢ 2
        → (out : List ℕ)
        × specs.IsOfWord (D.known disk.now) word.now (option_map (λ name. name.now) name.entry)
        out result × Appends (W.contents output.old) (W.contents output.new) out }
{
    match name {
        Some(name) => write_from_log(alloc, disk, word, name, output, errors),
        None => tell_usage(errors),
    }
}

/// Reports that the record is refused, and returns the exit status.
fn tell_record<E: Hears>(errors: &mut E, fault: RecordFault) -> u8
    ensures status { result ≡ 2 }
    ensures told { IsTold E.contents E.has_failed errors.old errors.new (record_line fault) }
{
    match fault {
        RecordFault::OutOfMemory => tell_memory(errors),
        _ => tell_spot(errors, b"record ", &record_spot(&fault)),
    }
}

/// Reports that the record has no arguments, and returns the exit status.
fn tell_no_arguments<E: Hears>(errors: &mut E) -> u8
    ensures status { result ≡ 2 }
    ensures told { IsTold E.contents E.has_failed errors.old errors.new (
        error_line (codes "record has no arguments") []) }
{
    tell_named(errors, b"record has no arguments", b"")
}

/// Shows the run that the record in this text is of, and returns the exit status. If the record has
/// no arguments, or the text is no record, says so.
#[tactic(auto, using(crate::proofs::Explained::line_written, crate::proofs::Saying::lost_record, crate::proofs::Saying::none_told, crate::proofs::Saying::fault_told))]
fn show_record<W: Write, E: Hears>(alloc: Global, text: &[u8], output: &mut W, errors: &mut E) -> u8
    ensures status { result ≤ 2 }
    ensures silent { result ≢ 2 → errors.new ≡ errors.old }
    ensures refused { result ≡ 2
        → Tells E.contents E.has_failed errors.old errors.new (IsSaidOfRecord text.now) }
    ensures line { result ≢ 2
        → (out : List ℕ) × specs.IsLineIn text.now out × (result ≡ 0)
        × Appends (W.contents output.old) (W.contents output.new) out }
{
    match line_in(alloc, text) {
        Ok(Some(line)) => put_text(line.as_slice(), FOUND, output, errors),
        Ok(None) => tell_no_arguments(errors),
        Err(fault) => tell_record(errors, fault),
    }
}

/// Shows the run that the record is of, and returns the exit status. If the record can't be read, a
/// word is missing.
#[tactic(auto, using(crate::proofs::Saying::record_told, crate::proofs::Saying::no_record_told, crate::proofs::Saying::memory_of_run))]
fn show_run<D: Disk, W: Write, E: Hears>(
    alloc: Global,
    disk: &D,
    output: &mut W,
    errors: &mut E,
) -> u8
    ensures status { result ≤ 2 }
    ensures silent { result ≢ 2 → errors.new ≡ errors.old }
    ensures refused { result ≡ 2
        → Tells E.contents E.has_failed errors.old errors.new (IsSaidOfRun (D.known disk.now)) }
    ensures run { result ≢ 2
        → (out : List ℕ) × specs.IsOfRecord (D.known disk.now) out result
        × Appends (W.contents output.old) (W.contents output.new) out }
{
    match read_text(alloc, disk, RECORD) {
        Ok(Some(text)) => show_record(alloc, text.as_slice(), output, errors),
        Ok(None) => tell_usage(errors),
        Err(_) => tell_memory(errors),
    }
}

/// Shows why the checks that a word is about have their answers, and returns the exit status (own).
///
/// The words are WORD, and the name of the log, which is `config.log` if it isn't given. WORD is a
/// part of a check's message, or a name that derives from a header, a function, a declaration, a
/// type or a library: that of the cached value, or one with `HAVE_`. Each such check is printed
/// with its answer, then the command, the diagnostics and the status of each of its children, with
/// the child's number in the log, and last the program that failed last.
///
/// Without words, it prints the call of the run that `config.status` is of, with its arguments as
/// words of a shell. A run that is stopped or cut writes no `config.status`, so this may be an
/// earlier run than that of the log.
///
/// If a compiler failed whose diagnostics were cut, that is said of its check. If WORD is a name that
/// `config.status` defines, or begins with `HAVE_`, what `config.status` has of it is printed too,
/// since no compiler can write that. If the log can be read in two ways, the last line says so.
///
/// The status is 0 if a check or such a call is shown, and 1 if no check is about WORD: then the
/// checks that are nearest to WORD are printed. It is 2 if the words aren't these, if there are
/// none and no `config.status` with arguments can be read, or if the log can't be read, is no log,
/// or can't be explained on standard output. Then standard error has a line that says which.
pub fn run_why<D: Disk, W: Write, E: Hears>(
    alloc: Global,
    disk: &D,
    words: &[Bytes],
    output: &mut W,
    errors: &mut E,
) -> u8
    ensures status { result ≤ 2 }
    // Standard error has something only if the status is 2.
    ensures silent { result ≢ 2 → errors.new ≡ errors.old }
    // Then it has the line that says why nothing is printed.
    ensures refused { result ≡ 2
        → Tells E.contents E.has_failed errors.old errors.new (
        IsSaid (D.known disk.now) words.now) }
    // Unless the status is 2, what is written is the answer for these words, by the log or the
    // record.
    ensures answer { result ≢ 2
        → (out : List ℕ) × specs.IsWhy (D.known disk.now) words.now out result
        × Appends (W.contents output.old) (W.contents output.new) out }
{
    match words.split_first() {
        Some((word, more)) => write_for_word(
            alloc,
            disk,
            word.as_slice(),
            log_named(more),
            output,
            errors,
        ),
        None => show_run(alloc, disk, output, errors),
    }
}
