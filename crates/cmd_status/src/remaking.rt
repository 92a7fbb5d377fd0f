//! The command that makes the outputs of a record again.

ghost use Rattle.std.specs.Prelude.{◌≡◌, ◌≢◌, ℕ, List, ◌∷◌, ◌++◌, [], false, not, Some, Ok, Err, OnOk, IsTrue, codes};
ghost use Rattle.std.specs.Io.KnownBytes.{Appends};
ghost use Rattle.cmd_status.specs.LeftAgain.{IsLeftAgain, PrintsPart};
ghost use Rattle.cmd_status.specs.MadeAgain.{IsMadeAgain, IsRecordFound};
ghost use Rattle.cmd_status.specs.Reasons.{answer_line, unwritten};
ghost use Rattle.cmd_status.specs.Unmade.{SaysUnmade};
ghost use Rattle.file_texts.specs.Held.{GuardsMore, IsUnused, fresh};
ghost use Rattle.cmd_call.specs.Guarded.{AreGuarded, inputs_of};
ghost use Rattle.cmd_call.specs.Lines.{IsBegun, SaysLines};
ghost use Rattle.cmd_call.specs.Supplies.{AreTemplates, ReadsWhole};
ghost use Rattle.engine_frame.specs.declared.fault.RemakeFault.{RemakeFault as FaultValue};

use crate::fault_lines::{tell_remake, tell_unread, tell_written};
use cmd_call::{FAULT, Hears, Terminal, keep_inputs, print_text, record_templates, tell_memory};
use cmd_explain::Why;
use deftable::Bytes;
use engine_frame::{RemakeFault, remake_record};
use file_disk::Disk;
use file_texts::{FileOutputs, read_text};
use status_record::{Record, read_record};
use std::alloc::{AllocError, Global};
use std::io::Read;

/// The name of the record.
pub const RECORD: &[u8] = b"config.status";

/// The name of standard output in the line of a fault.
pub(crate) const OUTPUT: &[u8] = b"standard output";

/// Prints the lines of the outputs, unless there are none. Returns whether standard output took
/// them.
#[tactic(auto, using(crate::proofs::Reasons::taken_unless))]
fn print_made<W: Hears, E: Hears>(
    alloc: Global,
    why: &Why<'_>,
    lines: &[u8],
    output: &mut W,
    errors: &mut E,
) -> bool
    ensures prints { IsBegun (W.contents output.old) (W.contents output.new)
        (W.has_failed output.new) (not result) lines.now }
    ensures nothing { lines.now ≡ [] → output.new ≡ output.old }
    ensures silent { IsTrue result → errors.new ≡ errors.old }
    ensures said { SaysLines E.contents E.has_failed errors.old errors.new why.now.is_asked
        (unwritten (codes "standard output") result) }
{
    let done = print_text(lines, output);
    tell_written(alloc, why.is_asked, OUTPUT, done, errors)
}

/// Reports the fault of the answer, if there is one. Returns whether there is none.
#[tactic(auto, using(crate::proofs::Reasons::fault_said))]
fn tell_answer<D: Disk, E: Hears>(
    alloc: Global,
    outputs: &FileOutputs<D>,
    why: &Why<'_>,
    recorded: &Record,
    answer: &Result<usize, RemakeFault>,
    errors: &mut E,
) -> bool
    ensures made { IsTrue result → (n : ℕ) × (answer.now ≡ Ok n) }
    ensures unmade { result ≡ false → (f : FaultValue) × (answer.now ≡ Err f) }
    ensures silent { IsTrue result → errors.new ≡ errors.old }
    ensures said { SaysLines E.contents E.has_failed errors.old errors.new why.now.is_asked
        (answer_line answer.now) }
{
    match answer {
        Ok(_) => true,
        Err(fault) => {
            let disk = outputs.disk();
            let cause = outputs.cause();
            let _ = tell_remake(alloc, disk, why, Some(recorded), cause, errors, fault);
            false
        }
    }
}

/// Has puts to the files refused that the outputs of a record are made of, and to the record.
#[tactic(auto, using(file_texts::proofs::Unused::guards_then, file_texts::proofs::Unused::more_unused))]
fn keep_all<D: Disk>(
    alloc: Global,
    outputs: &mut FileOutputs<D>,
    srcdir: &[u8],
    templates: &[(Bytes, Bytes)],
) -> Result<(), AllocError>
    requires { IsUnused outputs.old }
    ensures more { GuardsMore outputs.old outputs.new }
    ensures guarded { OnOk result (AreGuarded (D.known outputs.new.disk) outputs.new.guards
        (codes "config.status" ∷ inputs_of srcdir.now templates.now)) }
{
    outputs.keep(RECORD)?;
    keep_inputs(alloc, outputs, srcdir, templates)
}

/// Returns what the faults of a record with this text are explained by.
fn why_of<'a>(is_asked: bool, text: &'a [u8], srcdir: &'a [u8], tags: &'a [Bytes]) -> Why<'a>
    ensures asked { result.is_asked ≡ is_asked }
    ensures args { result.args.now ≡ tags.now }
{
    Why {
        is_asked,
        srcdir,
        path: RECORD,
        text,
        args: tags,
    }
}

/// Makes the outputs of a record with these templates, and returns the exit status.
#[tactic(auto, using(file_texts::proofs::Unused::fresh_unused))]
fn make_with<D: Disk, R: Read, W: Hears, E: Hears>(
    terminal: &mut Terminal<'_, D, R, W, E>,
    why: &Why<'_>,
    recorded: &Record,
    templates: &[(Bytes, Bytes)],
) -> u8
    requires fresh { terminal.old.outputs ≡ fresh terminal.old.outputs.disk }
    requires found { IsRecordFound (D.known terminal.old.outputs.disk) recorded.now }
    requires given { AreTemplates (D.known terminal.old.outputs.disk) recorded.now.srcdir
        (recorded.now.files ++ recorded.now.headers) templates.now }
    ensures status { result ≢ 2
        → (result ≡ 0) × (out : List ℕ)
        × IsMadeAgain (D.known terminal.old.outputs.disk) (D.known terminal.new.outputs.disk)
        why.now.args.now out
        × Appends (W.contents terminal.old.output) (W.contents terminal.new.output) out }
    ensures silent { result ≢ 2 → terminal.new.errors ≡ terminal.old.errors }
    ensures refused { result ≡ 2
        → (lines : List (List ℕ))
        × SaysUnmade (D.known terminal.old.outputs.disk) why.now.args.now
        (W.has_failed terminal.new.output) lines
        × SaysLines E.contents E.has_failed terminal.old.errors terminal.new.errors
        why.now.is_asked lines }
    ensures left { result ≡ 2
        → IsLeftAgain (D.known terminal.old.outputs.disk) (D.known terminal.new.outputs.disk)
        why.now.args.now (terminal.new.output ≡ terminal.old.output)
        (PrintsPart W.contents W.has_failed terminal.old.output terminal.new.output) }
    ensures input { terminal.new.input ≡ terminal.old.input }
{
    let alloc = terminal.alloc;
    let srcdir = recorded.srcdir.as_slice();
    let Ok(()) = keep_all(alloc, &mut terminal.outputs, srcdir, templates) else {
        return tell_memory(&mut terminal.errors);
    };
    let answer = remake_record(alloc, recorded, templates, why.args, &mut terminal.outputs);
    let lines = terminal.outputs.lines();
    let is_printed = print_made(
        alloc,
        why,
        lines,
        &mut terminal.output,
        &mut terminal.errors,
    );
    let outputs = &terminal.outputs;
    let is_whole = tell_answer(alloc, outputs, why, recorded, &answer, &mut terminal.errors);
    if is_printed && is_whole { 0 } else { FAULT }
}

/// Reads the templates of a record, makes its outputs, and returns the exit status.
fn make_record<D: Disk, R: Read, W: Hears, E: Hears>(
    terminal: &mut Terminal<'_, D, R, W, E>,
    text: &[u8],
    recorded: &Record,
    tags: &[Bytes],
) -> u8
    requires fresh { terminal.old.outputs ≡ fresh terminal.old.outputs.disk }
    requires found { IsRecordFound (D.known terminal.old.outputs.disk) recorded.now }
    ensures status { result ≢ 2
        → (result ≡ 0) × (out : List ℕ)
        × IsMadeAgain (D.known terminal.old.outputs.disk) (D.known terminal.new.outputs.disk)
        tags.now out
        × Appends (W.contents terminal.old.output) (W.contents terminal.new.output) out }
    ensures silent { result ≢ 2 → terminal.new.errors ≡ terminal.old.errors }
    ensures refused { result ≡ 2
        → (lines : List (List ℕ))
        × SaysUnmade (D.known terminal.old.outputs.disk) tags.now
        (W.has_failed terminal.new.output) lines
        × SaysLines E.contents E.has_failed terminal.old.errors terminal.new.errors
        terminal.old.is_asked lines }
    ensures left { result ≡ 2
        → IsLeftAgain (D.known terminal.old.outputs.disk) (D.known terminal.new.outputs.disk)
        tags.now (terminal.new.output ≡ terminal.old.output)
        (PrintsPart W.contents W.has_failed terminal.old.output terminal.new.output) }
    ensures input { terminal.new.input ≡ terminal.old.input }
{
    match record_templates(terminal.alloc, terminal.outputs.disk(), recorded) {
        Ok(templates) => {
            let why = why_of(terminal.is_asked, text, recorded.srcdir.as_slice(), tags);
            make_with(terminal, &why, recorded, templates.as_slice())
        }
        Err(_) => tell_memory(&mut terminal.errors),
    }
}

/// Reads a record, makes its outputs, and returns the exit status.
fn make_text<D: Disk, R: Read, W: Hears, E: Hears>(
    terminal: &mut Terminal<'_, D, R, W, E>,
    text: &[u8],
    tags: &[Bytes],
) -> u8
    requires fresh { terminal.old.outputs ≡ fresh terminal.old.outputs.disk }
    requires found { ReadsWhole (D.known terminal.old.outputs.disk) (codes "config.status")
        (Some text.now) }
    ensures status { result ≢ 2
        → (result ≡ 0) × (out : List ℕ)
        × IsMadeAgain (D.known terminal.old.outputs.disk) (D.known terminal.new.outputs.disk)
        tags.now out
        × Appends (W.contents terminal.old.output) (W.contents terminal.new.output) out }
    ensures silent { result ≢ 2 → terminal.new.errors ≡ terminal.old.errors }
    ensures refused { result ≡ 2
        → (lines : List (List ℕ))
        × SaysUnmade (D.known terminal.old.outputs.disk) tags.now
        (W.has_failed terminal.new.output) lines
        × SaysLines E.contents E.has_failed terminal.old.errors terminal.new.errors
        terminal.old.is_asked lines }
    ensures left { result ≡ 2
        → IsLeftAgain (D.known terminal.old.outputs.disk) (D.known terminal.new.outputs.disk)
        tags.now (terminal.new.output ≡ terminal.old.output)
        (PrintsPart W.contents W.has_failed terminal.old.output terminal.new.output) }
    ensures input { terminal.new.input ≡ terminal.old.input }
{
    match read_record(terminal.alloc, text) {
        Ok(recorded) => make_record(terminal, text, &recorded, tags),
        Err(fault) => {
            let why = why_of(terminal.is_asked, text, b"", tags);
            let disk = terminal.outputs.disk();
            let fault = RemakeFault::from(fault);
            tell_remake(
                terminal.alloc,
                disk,
                &why,
                None,
                b"",
                &mut terminal.errors,
                &fault,
            )
        }
    }
}

/// Makes the outputs of the record in the current directory that have these names, or all if there
/// are no names, and returns the exit status.
///
/// If anything is wrong, the status is 2, and standard error has a line for it (own); outputs may
/// have been made before that. If it is asked, further lines may say why. Nothing else is written
/// there.
pub fn run_status<D: Disk, R: Read, W: Hears, E: Hears>(
    terminal: &mut Terminal<'_, D, R, W, E>,
    tags: &[Bytes],
) -> u8
    requires fresh { terminal.old.outputs ≡ fresh terminal.old.outputs.disk }
    ensures status { result ≢ 2
        → (result ≡ 0) × (out : List ℕ)
        × IsMadeAgain (D.known terminal.old.outputs.disk) (D.known terminal.new.outputs.disk)
        tags.now out
        × Appends (W.contents terminal.old.output) (W.contents terminal.new.output) out }
    ensures silent { result ≢ 2 → terminal.new.errors ≡ terminal.old.errors }
    // Standard error has the lines that say so, with pages among them if it is asked why, and
    // otherwise nothing more.
    ensures refused { result ≡ 2
        → (lines : List (List ℕ))
        × SaysUnmade (D.known terminal.old.outputs.disk) tags.now
        (W.has_failed terminal.new.output) lines
        × SaysLines E.contents E.has_failed terminal.old.errors terminal.new.errors
        terminal.old.is_asked lines }
    // If the status is 2, nothing was done to files and nothing was printed, or the outputs up to one
    // that was refused are made, or all are, and their lines are printed, as far as standard output
    // takes them. Nothing else was done to files.
    ensures left { result ≡ 2
        → IsLeftAgain (D.known terminal.old.outputs.disk) (D.known terminal.new.outputs.disk)
        tags.now (terminal.new.output ≡ terminal.old.output)
        (PrintsPart W.contents W.has_failed terminal.old.output terminal.new.output) }
    ensures input { terminal.new.input ≡ terminal.old.input }
{
    match read_text(terminal.alloc, terminal.outputs.disk(), RECORD) {
        Ok(Some(text)) => make_text(terminal, text.as_slice(), tags),
        Ok(None) => tell_unread(
            terminal.alloc,
            terminal.outputs.disk(),
            terminal.is_asked,
            RECORD,
            &mut terminal.errors,
        ),
        Err(_) => tell_memory(&mut terminal.errors),
    }
}
