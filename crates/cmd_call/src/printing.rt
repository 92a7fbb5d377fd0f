//! What the program prints and writes of a run: its messages, the lines of its outputs, and its
//! log.

ghost use Rattle.std.specs.Prelude.{◌≡◌, ℕ, true, false, List, [], ◌∷◌, ◌++◌, Option, OnOk, OnErr, IfOk, IsTrue, is_err, if◌then◌else◌};
ghost use Rattle.std.specs.List.{concat};
ghost use Rattle.std.specs.Io.KnownBytes.{Appends};
ghost use Rattle.cfglog.specs.Texts.{is_shown, log_of, messages_of, note_text};
ghost use Rattle.deftable.specs.declared.note.Stream.TheVariants as streams;
ghost use Rattle.cmd_call.specs.Errors.{AreTold, error_of, errors_of};
ghost use Rattle.cmd_call.specs.Lines.{IsBegun};
ghost use Rattle.cmd_call.specs.Logged.{HasLogged, HasNoLog};

use crate::hearing::Hears;
use cfglog::{log_text, messages_text};
use crew_trait::Entry;
use deftable::{Note, Stream};
use file_disk::Disk;
use file_texts::FileOutputs;
use std::alloc::{AllocError, Global};
use std::io::{self, ErrorKind};

/// The name of the log.
pub const LOG: &str = "config.log";

/// Returns what is printed on standard output of these pieces and then of the lines of the outputs.
/// Quiet drops both.
fn printed_text(
    alloc: Global,
    notes: &[Note],
    lines: &[u8],
    quiet: bool,
) -> Result<Vec<u8>, AllocError>
    ensures { IfOk result (λ text.
        text.items ≡ messages_of streams.Out quiet notes.now ++ (if quiet then [] else lines.now)) }
{
    let mut text = messages_text(alloc, notes, Stream::Out, quiet)?;
    if !quiet {
        text.extend_from_slice(lines)?;
    }
    Ok(text)
}

/// Prints a text, unless it is empty.
///
/// # Errors
///
/// Fails if the stream doesn't take all of it, with the error of the last write. Then the stream
/// has a front of it.
#[tactic(auto, using(crate::proofs::Lines::blank_begun, crate::proofs::Lines::whole_begun, crate::proofs::Lines::front_begun))]
pub fn print_text<W: Hears>(text: &[u8], output: &mut W) -> io::Result<()>
    ensures begun { IsBegun (W.contents output.old) (W.contents output.new)
        (W.has_failed output.new) (is_err result) text.now }
    ensures kept { W.has_failed output.new ≡ false → W.has_failed output.old ≡ false }
    ensures nothing { text.now ≡ [] → output.new ≡ output.old }
{
    if text.is_empty() {
        return Ok(());
    }
    match output.say(text) {
        Ok(()) => Ok(()),
        Err(stopped) => Err(stopped.error()),
    }
}

/// Prints the next part of a text, unless a write failed before.
fn print_part<W: Hears>(done: io::Result<()>, part: &[u8], output: &mut W) -> io::Result<()>
    ensures begun { (start : Option (List ℕ)) (before : List ℕ)
        → IsBegun start (W.contents output.old) (W.has_failed output.old) (is_err done) before
        → IsBegun start (W.contents output.new) (W.has_failed output.new) (is_err result)
        (before ++ part.now) }
    ensures kept { W.has_failed output.new ≡ false → W.has_failed output.old ≡ false }
{
    match done {
        Ok(()) => print_text(part, output),
        Err(e) => Err(e),
    }
}

/// Returns what is printed on standard output of a piece. Quiet drops it, and so it does one for
/// standard error.
fn printed_piece(note: &Note, quiet: bool) -> &[u8]
    ensures { result.now ≡ note_text streams.Out quiet note.now }
{
    match note.stream {
        Stream::Out if !quiet => note.text.as_slice(),
        _ => b"",
    }
}

/// Prints the pieces for standard output, one by one, as far as it takes them. Quiet drops them.
fn print_each<W: Hears>(notes: &[Note], quiet: bool, output: &mut W) -> io::Result<()>
    ensures begun { IsBegun (W.contents output.old) (W.contents output.new)
        (W.has_failed output.new) (is_err result) (messages_of streams.Out quiet notes.now) }
    ensures kept { W.has_failed output.new ≡ false → W.has_failed output.old ≡ false }
{
    let mut done = Ok(());
    'notes: for note in notes {
        done = print_part(done, printed_piece(note, quiet), output);
    }
    done
}

/// Prints the pieces for standard output one by one, and then the lines of the outputs. Quiet drops
/// both.
fn print_parts<W: Hears>(
    notes: &[Note],
    lines: &[u8],
    quiet: bool,
    output: &mut W,
) -> io::Result<()>
    ensures begun { IsBegun (W.contents output.old) (W.contents output.new)
        (W.has_failed output.new) (is_err result)
        (messages_of streams.Out quiet notes.now ++ (if quiet then [] else lines.now)) }
    ensures kept { W.has_failed output.new ≡ false → W.has_failed output.old ≡ false }
{
    let done = print_each(notes, quiet, output);
    print_part(done, if quiet { b"" } else { lines }, output)
}

/// Prints the pieces for standard output, and then the lines of the outputs, in one write. Quiet
/// drops both. If there is no memory for the whole text, each part is a write of its own.
fn print_run<W: Hears>(
    alloc: Global,
    notes: &[Note],
    lines: &[u8],
    quiet: bool,
    output: &mut W,
) -> io::Result<()>
    ensures begun { IsBegun (W.contents output.old) (W.contents output.new)
        (W.has_failed output.new) (is_err result)
        (messages_of streams.Out quiet notes.now ++ (if quiet then [] else lines.now)) }
    ensures kept { W.has_failed output.new ≡ false → W.has_failed output.old ≡ false }
{
    match printed_text(alloc, notes, lines, quiet) {
        Ok(text) => print_text(text.as_slice(), output),
        Err(_) => print_parts(notes, lines, quiet, output),
    }
}

/// Prints the pieces for standard output, and then the lines of the outputs, unless what is before
/// them could not be written. Quiet drops both.
fn print_next<W: Hears>(
    alloc: Global,
    done: io::Result<()>,
    notes: &[Note],
    lines: &[u8],
    quiet: bool,
    output: &mut W,
) -> io::Result<()>
    ensures begun { (start : Option (List ℕ)) (before : List ℕ)
        → IsBegun start (W.contents output.old) (W.has_failed output.old) (is_err done) before
        → IsBegun start (W.contents output.new) (W.has_failed output.new) (is_err result)
        (before ++ (messages_of streams.Out quiet notes.now ++ (if quiet then [] else lines.now))) }
    ensures kept { W.has_failed output.new ≡ false → W.has_failed output.old ≡ false }
{
    match done {
        Ok(()) => print_run(alloc, notes, lines, quiet, output),
        Err(e) => Err(e),
    }
}

/// Returns whether a piece is for standard error.
fn is_error(note: &Note) -> bool
    ensures value { result ≡ is_shown streams.Err true note.now.stream }
    ensures stream { IsTrue result → note.now.stream ≡ streams.Err }
{
    matches!(note.stream, Stream::Err)
}

/// Writes a text, as far as the stream takes it.
#[tactic(auto, using(crate::proofs::Fronts::told_front, crate::proofs::Lines::taken_whole))]
pub fn write_errors<E: Hears>(text: &[u8], errors: &mut E)
    ensures told { AreTold (E.contents errors.old) (E.contents errors.new) (text.now ∷ []) }
    ensures whole { E.has_failed errors.new ≡ false
        → Appends (E.contents errors.old) (E.contents errors.new) text.now }
    ensures kept { E.has_failed errors.new ≡ false → E.has_failed errors.old ≡ false }
{
    let _ = errors.say(text);
}

/// Prints a piece for standard error, as far as it takes it.
#[tactic(auto, using(crate::proofs::Fronts::told_nothing, crate::proofs::Lines::one_whole, crate::proofs::Fronts::nothing_appended))]
fn print_error<E: Hears>(note: &Note, errors: &mut E)
    ensures told { AreTold (E.contents errors.old) (E.contents errors.new) (error_of note.now) }
    ensures whole { E.has_failed errors.new ≡ false
        → Appends (E.contents errors.old) (E.contents errors.new) (concat (error_of note.now)) }
    ensures kept { E.has_failed errors.new ≡ false → E.has_failed errors.old ≡ false }
{
    match note.stream {
        Stream::Err => write_errors(note.text.as_slice(), errors),
        Stream::Out => {}
    }
}

/// Prints pieces in order, each on its stream, and then the lines of the outputs on standard
/// output. Quiet drops what is for standard output. What is next to each other there is one write,
/// made before the next piece for standard error.
///
/// # Errors
///
/// Fails if standard output doesn't take all of it. If a write fails there, what follows it there
/// is dropped, and the pieces for standard error are printed all the same. That standard error
/// can't be written is not reported.
pub fn print_all<W: Hears, E: Hears>(
    alloc: Global,
    notes: &[Note],
    lines: &[u8],
    quiet: bool,
    output: &mut W,
    errors: &mut E,
) -> io::Result<()>
    // Standard output has all of its text, or a front of it, if it has failed.
    ensures begun { IsBegun (W.contents output.old) (W.contents output.new)
        (W.has_failed output.new) (is_err result)
        (messages_of streams.Out quiet notes.now ++ (if quiet then [] else lines.now)) }
    ensures heard { W.has_failed output.new ≡ false → W.has_failed output.old ≡ false }
    ensures told { AreTold (E.contents errors.old) (E.contents errors.new) (errors_of notes.now) }
    // Standard error has all of its messages, unless it has failed.
    ensures whole { E.has_failed errors.new ≡ false
        → Appends (E.contents errors.old) (E.contents errors.new)
        (concat (errors_of notes.now)) }
    ensures kept { E.has_failed errors.new ≡ false → E.has_failed errors.old ≡ false }
{
    let mut done = Ok(());
    let mut start = 0;
    'notes: for i in 0..notes.len() {
        if is_error(&notes[i]) {
            done = print_next(alloc, done, &notes[start..i], b"", quiet, output);
            start = i + 1;
        }
        print_error(&notes[i], errors);
    }
    print_next(alloc, done, &notes[start..], lines, quiet, output)
}

/// Writes the log of a run, as the last file that these outputs write.
///
/// # Errors
///
/// Fails if the file can't be written, or if memory runs out. Then the log is not written.
#[tactic(auto, using(crate::proofs::Logs::no_log_yet))]
pub fn write_log<D: Disk>(
    alloc: Global,
    outputs: &mut FileOutputs<D>,
    entries: &[Entry],
) -> io::Result<()>
    ensures written { OnOk result (
        HasLogged D.known outputs.old outputs.new (log_of entries.now)) }
    ensures begun { OnErr result (HasNoLog D.known outputs.old outputs.new) }
{
    match log_text(alloc, entries) {
        Ok(text) => outputs.close(LOG.as_bytes(), text.as_slice()),
        Err(_) => Err(io::Error::from(ErrorKind::OutOfMemory)),
    }
}
