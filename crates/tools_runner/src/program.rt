//! The commands of the tools, over their streams and their files.

ghost use Rattle.std.specs.Prelude.{◌≡◌, true, false, ◌≢◌, ◌⊎◌, ◌≤◌, ◌<◌, ℕ, List, [], length, None, IfSome, codes, option_map};
ghost use Rattle.std.specs.Io.KnownBytes.{Appends};
ghost use Rattle.std.specs.List.{list_any};
ghost use Rattle.cmd_call.specs.Calls.{call_of, Version, IfWhy, IfHelp, IfHeader, IfLint, HasNoInput};
ghost use Rattle.cmd_call.specs.Lines.{AreSaid, IsTold, error_line};
ghost use Rattle.cmd_header.specs.Answers as headers;
ghost use Rattle.cmd_header.specs.Refusals as unmade;
ghost use Rattle.cmd_lint.specs.Refusals.{AreSaidOf};
ghost use Rattle.cmd_lint.specs.Status.{IsStatus, is_unknown, named_by};
ghost use Rattle.cmd_port.specs.Asked.{request_of};
ghost use Rattle.cmd_port.specs.Printed.{IsAnswer};
ghost use Rattle.cmd_port.specs.Refusals.{IsSaid, Says};
ghost use Rattle.cmd_why.specs.Refusals as unprinted;
ghost use Rattle.cmd_why.specs.Refusals.{Tells};
ghost use Rattle.cmd_why.specs.Why.{IsWhy};
ghost use Rattle.tools_runner.specs.Ends as ends;
ghost use Rattle.tools_runner.specs.Ports.{IfPort};
ghost use Rattle.tools_runner.specs.Refusals.{IsOther, TellsWhy};
ghost use Rattle.tools_runner.specs.Words as specs;

use cmd_call::{Heard, Hears, ProgramCall, Terminal, call_of, tell_named, tell_usage};
use cmd_header::run_header;
use cmd_help::{run_help, run_version};
use cmd_lint::{may_colour, run_lint};
use cmd_port::run_port;
use cmd_why::run_why;
use deftable::Bytes;
use file_disk::{Disk, Host};
use file_texts::FileOutputs;
use patient_writer::Patient;
use std::alloc::Global;
use std::io::{self, Input, IsTerminal, Read};
use text_controls::Shown;

/// Runs the command that the words name, and returns its exit status.
///
/// `lint` says what is wrong with sources, `port` rewrites one, `header` makes a template of what one
/// may define, `why` says why a check has its answer, and `help` how commands are called. There is
/// no other command. If anything is wrong, also with the words, the status is 2 (own). `is_terminal`
/// is whether standard output is a terminal, for colours.
///
/// Each error is reported as one line on standard error. If that can't be written, only the status
/// reports it.
pub fn run<D: Disk, R: Read, W: Hears, E: Hears>(
    terminal: &mut Terminal<'_, D, R, W, E>,
    words: &[Bytes],
    is_terminal: bool,
) -> u8
    // `why` and `lint` have no other status than these. Unless it is 2, they write nothing on
    // standard error.
    ensures explained { IfWhy (call_of words.now) (λ asked.
        (result ≤ 2) × (result ≢ 2 → terminal.new.errors ≡ terminal.old.errors)) }
    // Then what `why` writes is the answer for the words, by the log or the record.
    ensures why { IfWhy (call_of words.now) (λ asked.
        result ≢ 2
        → (out : List ℕ) × IsWhy (D.known terminal.old.outputs.disk) asked out result
        × Appends (W.contents terminal.old.output) (W.contents terminal.new.output) out) }
    ensures help { IfHelp (call_of words.now) (λ asked.
        ((result ≡ 0) ⊎ (result ≡ 2)) × (1 < length asked → result ≡ 2)
        × (result ≡ 0 → terminal.new.errors ≡ terminal.old.errors)) }
    ensures version { call_of words.now ≡ Version
        → ((result ≡ 0) ⊎ (result ≡ 2)) × (result ≡ 0 → terminal.new.errors ≡ terminal.old.errors) }
    ensures linted { IfLint (call_of words.now) (λ asked.
        (result ≤ 2) × (result ≢ 2 → terminal.new.errors ≡ terminal.old.errors)) }
    // Unless the status of `lint` is 2, the sources that the words name were read, and it is 1
    // exactly if one of them has an error. If an option isn't known, it is 2.
    ensures lint { IfLint (call_of words.now) (λ asked.
        (list_any is_unknown asked ≡ true → result ≡ 2)
        × (result ≢ 2 → IsStatus (D.known terminal.old.outputs.disk) asked result)) }
    // Unless the status of `port` is 2, the source that the words name is written as it was
    // rewritten, and it is 1 exactly if that has comments about what is left. If the words are
    // wrong, it is 2.
    ensures ported { IfPort (call_of words.now) (λ asked.
        (result ≤ 2)
        × (result ≢ 2
        → (terminal.new.errors ≡ terminal.old.errors)
        ⊎ ((page : List ℕ)
        × Appends (E.contents terminal.old.errors) (E.contents terminal.new.errors) page))) }
    ensures port { IfPort (call_of words.now) (λ asked.
        (request_of asked ≡ None → result ≡ 2)
        × (result ≢ 2
        → (out : List ℕ)
        × IsAnswer (D.known terminal.old.outputs.disk) (request_of asked) out result
        × Appends (W.contents terminal.old.output) (W.contents terminal.new.output)
        out)) }
    // Unless the status of `header` is 2, the page of the source that the words name is written: it
    // has each name that the source may define once, and no other. If the words are wrong, it is 2.
    ensures header { IfHeader (call_of words.now) (λ asked.
        (headers.name_of asked ≡ None → result ≡ 2)
        × (result ≢ 2 → result ≡ 0)
        × (result ≢ 2
        → (page : List ℕ) × (said : List ℕ)
        × headers.IsAnswer (D.known terminal.old.outputs.disk) (headers.name_of asked) page said
        × Appends (W.contents terminal.old.output) (W.contents terminal.new.output) page
        × unmade.HasSaid E.contents terminal.old.errors terminal.new.errors said)) }
    ensures other { IsOther (call_of words.now) → result ≡ 2 }
    // Only `lint`, `port` and `header` read the input, and no command changes a file.
    ensures input { HasNoInput (call_of words.now) → terminal.new.input ≡ terminal.old.input }
    ensures output { IsOther (call_of words.now) → terminal.new.output ≡ terminal.old.output }
    ensures files { terminal.new.outputs ≡ terminal.old.outputs }
    // A refusal is told, unless standard error failed: what refuses is one of these, and standard
    // error has its line, and nothing more. The line is about standard output only if that has failed.
    ensures refused { result ≡ 2
        → TellsWhy E.contents E.has_failed terminal.old.errors terminal.new.errors
        (W.has_failed terminal.new.output) (call_of words.now) }
    ensures why_refused { IfWhy (call_of words.now) (λ asked.
        result ≡ 2
        → Tells E.contents E.has_failed terminal.old.errors terminal.new.errors (
        unprinted.IsSaid (D.known terminal.old.outputs.disk) asked)) }
    ensures lint_refused { IfLint (call_of words.now) (λ asked.
        list_any is_unknown asked ≡ false
        → (lines : List (List ℕ))
        × AreSaidOf (D.known terminal.old.outputs.disk) (W.has_failed terminal.new.output)
        (named_by asked) lines
        × (result ≡ 2 → lines ≢ [])
        × AreSaid E.contents E.has_failed terminal.old.errors terminal.new.errors lines) }
    ensures port_refused { IfPort (call_of words.now) (λ asked.
        result ≡ 2
        → Says E.contents E.has_failed terminal.old.errors terminal.new.errors (
        IsSaid (D.known terminal.old.outputs.disk) (W.has_failed terminal.new.output)
        (request_of asked))) }
    ensures header_refused { IfHeader (call_of words.now) (λ asked.
        result ≡ 2
        → unmade.Says E.contents E.has_failed terminal.old.errors terminal.new.errors (
        unmade.IsSaid (D.known terminal.old.outputs.disk) (W.has_failed terminal.new.output)
        (headers.name_of asked))) }
{
    let alloc = terminal.alloc;
    let has_colours = may_colour(terminal.env, is_terminal);
    let disk = terminal.outputs.disk();
    let input = &mut terminal.input;
    let output = &mut terminal.output;
    let errors = &mut terminal.errors;
    match call_of(words) {
        ProgramCall::Help(words) => run_help(words, output, errors),
        ProgramCall::Version => run_version(output, errors),
        ProgramCall::Why(words) => run_why(alloc, disk, words, output, errors),
        ProgramCall::Port(words) => run_port(alloc, disk, words, input, output, errors),
        ProgramCall::Header(words) => run_header(alloc, disk, words, input, output, errors),
        ProgramCall::Lint(words) => run_lint(
            alloc,
            disk,
            words,
            has_colours,
            input,
            output,
            errors,
        ),
        _ => tell_usage(errors),
    }
}

/// Returns whether control bytes are to be shown on standard output if it is a terminal. What
/// `lint` prints shows them itself, and may have colours.
fn shows_output(words: &[Bytes]) -> bool
    ensures { result ≡ ends.shows_output (call_of words.now) }
{
    match call_of(words) {
        ProgramCall::Lint(_) => false,
        _ => true,
    }
}

/// What the first word begins with if it names the version of the program that started this one.
const MARK: &[u8] = b"--acrun=";

/// Returns the words of the call, without the one that names this version, or `None` if another
/// version is named.
fn words_for<'a>(version: &str, words: &'a [Bytes]) -> Option<&'a [Bytes]>
    ensures { option_map (λ words. words.now) result ≡ specs.words_for version.now words.now }
{
    match words.first() {
        Some(word) => match word.as_slice().strip_prefix(MARK) {
            Some(named) if named == version.as_bytes() => Some(&words[1..]),
            Some(_) => None,
            None => Some(words),
        },
        None => Some(words),
    }
}

/// Runs the command that the words name, on the streams and the files of the process, and returns
/// its exit status.
///
/// This is [`run`], which says what each command does. On a terminal control bytes are written as
/// `\xNN`, so that no text of a source or a log drives it (own).
fn command_of(rt: &HostRuntime, alloc: Global, words: &[Bytes], env: &[(Bytes, Bytes)]) -> u8
    // What [`run`] says, but for what only known streams and files can show.
    ensures explained { IfWhy (call_of words.now) (λ asked. result ≤ 2) }
    ensures why { IfWhy (call_of words.now) (λ asked.
        result ≢ 2 → (out : List ℕ) × IsWhy None asked out result) }
    ensures help { IfHelp (call_of words.now) (λ asked.
        ((result ≡ 0) ⊎ (result ≡ 2)) × (1 < length asked → result ≡ 2)) }
    ensures version { call_of words.now ≡ Version → (result ≡ 0) ⊎ (result ≡ 2) }
    ensures lint { IfLint (call_of words.now) (λ asked.
        (result ≤ 2) × (list_any is_unknown asked ≡ true → result ≡ 2)
        × (result ≢ 2 → IsStatus None asked result)) }
    ensures port { IfPort (call_of words.now) (λ asked.
        (result ≤ 2) × (request_of asked ≡ None → result ≡ 2)
        × (result ≢ 2 → (out : List ℕ) × IsAnswer None (request_of asked) out result)) }
    ensures header { IfHeader (call_of words.now) (λ asked.
        (headers.name_of asked ≡ None → result ≡ 2)
        × (result ≢ 2 → result ≡ 0)
        × (result ≢ 2
        → (page : List ℕ) × (said : List ℕ)
        × headers.IsAnswer None (headers.name_of asked) page said)) }
    ensures other { IsOther (call_of words.now) → result ≡ 2 }
{
    let is_terminal = rt.stdout().is_terminal();
    let is_shown = is_terminal && shows_output(words);
    let is_seen = rt.stderr().is_terminal();
    let mut terminal = Terminal {
        alloc,
        is_asked: false,
        env,
        outputs: FileOutputs::new(alloc, Host::from_here(rt)),
        input: rt.reader(),
        output: Heard::new(Shown::new(Patient::new(io::writer(rt), rt), is_shown)),
        errors: Heard::new(Shown::new(Patient::new(rt.stderr(), rt), is_seen)),
    };
    run(&mut terminal, words, is_terminal)
}

/// Reports that the words are those of a program of another version, and returns the exit status.
fn tell_version<E: Hears>(errors: &mut E) -> u8
    ensures status { result ≡ 2 }
    ensures told { IsTold E.contents E.has_failed errors.old errors.new (
        error_line (codes "tools") (codes "acrun-tools: another version")) }
{
    tell_named(errors, b"tools", b"acrun-tools: another version")
}

/// Runs the command that the words name, on the streams and the files of the process, and returns
/// its exit status.
///
/// The first word may be `--acrun=` and the version of the program that started this one. If that
/// is not this version, that is reported, the status is 2, and nothing is read (own). The words
/// after it, or all words, are those of [`run`].
pub fn command(
    rt: HostRuntime,
    alloc: Global,
    version: &str,
    words: &[Bytes],
    env: &[(Bytes, Bytes)],
) -> u8
    ensures explained { IfSome (specs.words_for version.now words.now) (λ words.
        IfWhy (call_of words) (λ asked. result ≤ 2)) }
    ensures why { IfSome (specs.words_for version.now words.now) (λ words.
        IfWhy (call_of words) (λ asked.
        result ≢ 2 → (out : List ℕ) × IsWhy None asked out result)) }
    ensures help { IfSome (specs.words_for version.now words.now) (λ words.
        IfHelp (call_of words) (λ asked.
        ((result ≡ 0) ⊎ (result ≡ 2)) × (1 < length asked → result ≡ 2))) }
    ensures version { IfSome (specs.words_for version.now words.now) (λ words.
        call_of words ≡ Version → (result ≡ 0) ⊎ (result ≡ 2)) }
    ensures lint { IfSome (specs.words_for version.now words.now) (λ words.
        IfLint (call_of words) (λ asked.
        (result ≤ 2) × (list_any is_unknown asked ≡ true → result ≡ 2)
        × (result ≢ 2 → IsStatus None asked result))) }
    ensures port { IfSome (specs.words_for version.now words.now) (λ words.
        IfPort (call_of words) (λ asked.
        (result ≤ 2) × (request_of asked ≡ None → result ≡ 2)
        × (result ≢ 2 → (out : List ℕ) × IsAnswer None (request_of asked) out result))) }
    ensures header { IfSome (specs.words_for version.now words.now) (λ words.
        IfHeader (call_of words) (λ asked.
        (headers.name_of asked ≡ None → result ≡ 2)
        × (result ≢ 2 → result ≡ 0)
        × (result ≢ 2
        → (page : List ℕ) × (said : List ℕ)
        × headers.IsAnswer None (headers.name_of asked) page said))) }
    ensures other { IfSome (specs.words_for version.now words.now) (λ words.
        IsOther (call_of words) → result ≡ 2) }
    ensures another { specs.words_for version.now words.now ≡ None → result ≡ 2 }
{
    match words_for(version, words) {
        Some(words) => command_of(&rt, alloc, words, env),
        None => {
            let is_seen = rt.stderr().is_terminal();
            tell_version(&mut Heard::new(Shown::new(Patient::new(rt.stderr(), &rt), is_seen)))
        }
    }
}
