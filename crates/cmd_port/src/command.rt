//! The command.

ghost use Rattle.std.specs.Prelude.{◌≡◌, ◌≢◌, ◌⊎◌, ◌≤◌, ◌&&◌, true, false, Bool, ℕ, List, [], codes, option_map, None, OnErr, OnOk};
ghost use Rattle.std.specs.List.{list_any};
ghost use Rattle.std.specs.Io.KnownBytes.{Appends};
ghost use Rattle.cmd_call.specs.Calls as calls;
ghost use Rattle.cmd_call.specs.Lines.{IsTold, error_line};
ghost use Rattle.lint_sources.specs.Sources.{IsNamed};
ghost use Rattle.cmd_port.specs.Asked as wanted;
ghost use Rattle.cmd_port.specs.Printed as specs;
ghost use Rattle.cmd_port.specs.Served.{IsEnded};
ghost use Rattle.cmd_port.specs.Refusals.{IsLost, IsSaid, IsSaidFor, IsSaidOf, Says};
ghost use Rattle.lint_errors.specs.Errors.{IsAccepted};

use crate::asking::request_of;
use crate::serving::ended;
use crate::templates::Nearby;
use crate::{Ported, port};
use cmd_call::{FAULT, Hears, print_text, tell_file, tell_memory, tell_usage, write_errors};
use deftable::Bytes;
use file_disk::Disk;
use lint_errors::{errors_of, read};
use lint_excerpts::excerpt_of;
use lint_sources::{Linted, differences_of, has_input, read_named};
use port_calls::Package;
use port_idioms::Idioms;
use std::alloc::{AllocError, Global};
use std::io::{self, Read};

/// Returns what is said of the errors of a source.
fn page_of(alloc: Global, linted: &Linted) -> Result<Vec<u8>, AllocError> {
    let mut page = Vec::new(alloc);
    let text = linted.text.as_slice();
    let reading = read(alloc, text)?;
    for finding in &errors_of(alloc, text, &reading)? {
        let shown = excerpt_of(alloc, finding, linted.name.as_slice(), text, false)?;
        page.extend_from_slice(shown.as_slice())?;
    }
    Ok(page)
}

/// Writes what is said of the errors of a source, and returns the exit status.
#[tactic(auto, using(crate::proofs::Saying::page_told))]
fn tell_page<E: Hears>(page: &[u8], errors: &mut E) -> u8
    ensures status { result ≡ 2 }
    ensures told { IsTold E.contents E.has_failed errors.old errors.new page.now }
{
    write_errors(page, errors);
    FAULT
}

/// Reports that the quotes of a source have an error, and returns the exit status.
#[tactic(auto, using(crate::proofs::Saying::wrong_said, crate::proofs::Saying::memory_said))]
fn tell_quotes<E: Hears>(alloc: Global, linted: &Linted, errors: &mut E) -> u8
    ensures status { result ≡ 2 }
    ensures said { (is_full : Bool) → (IsAccepted linted.now.text → ⊥)
        → Says E.contents E.has_failed errors.old errors.new (IsSaidOf is_full linted.now.text) }
{
    match page_of(alloc, linted) {
        Ok(page) => tell_page(page.as_slice(), errors),
        Err(_) => tell_memory(errors),
    }
}

/// Returns the exit status after a source that was rewritten.
fn status_of(ported: &Ported) -> u8
    ensures status { result ≡ specs.status_of ported.now.has_comments }
    ensures bound { result ≤ 1 }
{
    if ported.has_comments { 1 } else { 0 }
}

/// The name of standard output in what is printed.
const OUTPUT: &[u8] = b"standard output";

/// Returns the warnings that something in the text that is printed means another thing to Autoconf.
/// The templates are in the directory of the source.
fn warnings_of<D: Disk>(
    alloc: Global,
    disk: &D,
    linted: &Linted,
    ported: &Ported,
) -> Result<Vec<u8>, AllocError> {
    let printed = Linted {
        name: Bytes::from_slice(alloc, OUTPUT)?,
        directory: linted.directory.copy(alloc)?,
        text: ported.text.copy(alloc)?,
    };
    differences_of(alloc, disk, &printed)
}

/// Writes warnings, and returns the exit status: that which is given, unless they can't be written.
fn put_warnings<E: Hears>(warnings: &[u8], answer: u8, errors: &mut E) -> u8
    requires { answer ≤ 1 }
    ensures bound { result ≤ 2 }
    ensures status { result ≢ 2 → result ≡ answer }
    ensures warned { result ≢ 2
        → (errors.new ≡ errors.old)
        ⊎ ((page : List ℕ) × Appends (E.contents errors.old) (E.contents errors.new) page) }
    ensures whole { result ≢ 2 → warnings.now ≢ []
        → Appends (E.contents errors.old) (E.contents errors.new) warnings.now }
    ensures failed { result ≡ 2 → E.has_failed errors.new ≡ true }
{
    if warnings.is_empty() {
        return answer;
    }
    match errors.say(warnings) {
        Ok(()) => answer,
        Err(_) => FAULT,
    }
}

/// Prints a text. If that fails, the stream has failed.
fn print_whole<W: Hears>(text: &[u8], output: &mut W) -> io::Result<()>
    ensures put { OnOk result (Appends (W.contents output.old) (W.contents output.new) text.now) }
    ensures cut { OnErr result (W.has_failed output.new ≡ true) }
{
    match print_text(text, output) {
        Ok(()) => Ok(()),
        Err(error) => Err(error),
    }
}

/// Writes a text, and returns the exit status: that which is given, unless the text can't be
/// written.
fn put_text<W: Hears, E: Hears>(text: &[u8], status: u8, output: &mut W, errors: &mut E) -> u8
    requires { status ≤ 1 }
    ensures bound { result ≤ 2 }
    ensures status { result ≢ 2 → result ≡ status }
    ensures silent { result ≢ 2 → errors.new ≡ errors.old }
    ensures put { result ≢ 2 → Appends (W.contents output.old) (W.contents output.new) text.now }
    ensures refused { result ≡ 2
        → (W.has_failed output.new ≡ true)
        × IsTold E.contents E.has_failed errors.old errors.new (
        error_line (codes "file") (codes "standard output")) }
{
    match print_whole(text, output) {
        Ok(()) => status,
        Err(_) => tell_file(errors, OUTPUT),
    }
}

/// Writes a source that was rewritten, and returns the exit status.
#[tactic(auto, using(crate::proofs::Written::put_lent, crate::proofs::Written::status_lent))]
fn put_ported<W: Hears, E: Hears>(ported: &Ported, output: &mut W, errors: &mut E) -> u8
    ensures bound { result ≤ 2 }
    ensures status { result ≢ 2 → result ≡ specs.status_of ported.now.has_comments }
    ensures low { result ≢ 2 → result ≤ 1 }
    ensures silent { result ≢ 2 → errors.new ≡ errors.old }
    ensures put { result ≢ 2
        → Appends (W.contents output.old) (W.contents output.new) ported.now.text }
    ensures refused { result ≡ 2
        → (W.has_failed output.new ≡ true)
        × IsTold E.contents E.has_failed errors.old errors.new (
        error_line (codes "file") (codes "standard output")) }
{
    put_text(ported.text.as_slice(), status_of(ported), output, errors)
}

/// Writes a source that was rewritten and the warnings about it, and returns the exit status.
#[tactic(auto, using(crate::proofs::Written::status_after, crate::proofs::Written::put_after, crate::proofs::Written::warned_after, crate::proofs::Saying::output_lost, crate::proofs::Saying::stream_lost))]
fn put_both<W: Hears, E: Hears>(
    ported: &Ported,
    warnings: &[u8],
    output: &mut W,
    errors: &mut E,
) -> u8
    ensures bound { result ≤ 2 }
    ensures status { result ≢ 2 → result ≡ specs.status_of ported.now.has_comments }
    ensures warned { result ≢ 2
        → (errors.new ≡ errors.old)
        ⊎ ((page : List ℕ) × Appends (E.contents errors.old) (E.contents errors.new) page) }
    ensures put { result ≢ 2
        → Appends (W.contents output.old) (W.contents output.new) ported.now.text }
    ensures refused { result ≡ 2
        → Says E.contents E.has_failed errors.old errors.new (IsLost (W.has_failed output.new)) }
{
    let status = put_ported(ported, output, errors);
    if status == 2 {
        return status;
    }
    put_warnings(warnings, status, errors)
}

/// Writes a source that was rewritten and the warnings about it, and returns the exit status.
#[tactic(auto, using(crate::proofs::Saying::memory_lost))]
fn print_ported<D: Disk, W: Hears, E: Hears>(
    alloc: Global,
    disk: &D,
    linted: &Linted,
    ported: &Ported,
    output: &mut W,
    errors: &mut E,
) -> u8
    ensures bound { result ≤ 2 }
    ensures status { result ≢ 2 → result ≡ specs.status_of ported.now.has_comments }
    ensures warned { result ≢ 2
        → (errors.new ≡ errors.old)
        ⊎ ((page : List ℕ) × Appends (E.contents errors.old) (E.contents errors.new) page) }
    ensures put { result ≢ 2
        → Appends (W.contents output.old) (W.contents output.new) ported.now.text }
    ensures refused { result ≡ 2
        → Says E.contents E.has_failed errors.old errors.new (IsLost (W.has_failed output.new)) }
{
    match warnings_of(alloc, disk, linted, ported) {
        Ok(warnings) => put_both(ported, warnings.as_slice(), output, errors),
        Err(_) => tell_memory(errors),
    }
}

/// Writes a source that was rewritten, with what its templates want, and returns the exit status.
fn end_ported<D: Disk, W: Hears, E: Hears>(
    alloc: Global,
    disk: &D,
    is_stream: bool,
    idioms: Idioms,
    linted: &Linted,
    ported: Ported,
    output: &mut W,
    errors: &mut E,
) -> u8
    requires { ported.has_comments ≡ false → IsAccepted ported.text }
    ensures bound { result ≤ 2 }
    ensures warned { result ≢ 2
        → (errors.new ≡ errors.old)
        ⊎ ((page : List ℕ) × Appends (E.contents errors.old) (E.contents errors.new) page) }
    ensures ended { result ≢ 2
        → (out : List ℕ) × (has : Bool)
        × IsEnded None is_stream ported.has_comments idioms ported.text has out
        × (result ≡ specs.status_of has)
        × Appends (W.contents output.old) (W.contents output.new) out }
    ensures refused { result ≡ 2
        → Says E.contents E.has_failed errors.old errors.new (IsLost (W.has_failed output.new)) }
{
    let templates = Nearby { disk, linted };
    match ended(alloc, &templates, is_stream, idioms, ported) {
        Ok(ported) => print_ported(alloc, disk, linted, &ported, output, errors),
        Err(_) => tell_memory(errors),
    }
}

/// Prints a source with its calls rewritten, and returns the exit status.
#[tactic(auto, using(crate::proofs::Written::answered, crate::proofs::Saying::lost_of, crate::proofs::Saying::memory_said, crate::proofs::Saying::refused_text))]
fn port_source<D: Disk, W: Hears, E: Hears>(
    alloc: Global,
    disk: &D,
    is_stream: bool,
    idioms: Idioms,
    naming: Option<Package<'_>>,
    linted: &Linted,
    output: &mut W,
    errors: &mut E,
) -> u8
    ensures bound { result ≤ 2 }
    ensures warned { result ≢ 2
        → (errors.new ≡ errors.old)
        ⊎ ((page : List ℕ) × Appends (E.contents errors.old) (E.contents errors.new) page) }
    ensures ported { result ≢ 2
        → (out : List ℕ)
        × specs.IsPrinted idioms (option_map wanted.package_of naming.entry) is_stream
        linted.now.text out result
        × Appends (W.contents output.old) (W.contents output.new) out }
    ensures refused { result ≡ 2
        → Says E.contents E.has_failed errors.old errors.new (
        IsSaidOf (W.has_failed output.new) linted.now.text) }
{
    match port(alloc, idioms, naming, linted.text.as_slice()) {
        Ok(Some(ported)) => end_ported(
            alloc, disk, is_stream, idioms, linted, ported, output, errors,
        ),
        Ok(None) => tell_quotes(alloc, linted, errors),
        Err(_) => tell_memory(errors),
    }
}

/// Returns whether the source of this name is standard input, if that may be read.
fn is_stream(reads: bool, name: &[u8]) -> bool
    ensures { result ≡ (reads && calls.is_input name.now) }
{
    reads && name == b"-".as_slice()
}

/// Prints the source of this name with its calls rewritten, and returns the exit status.
#[tactic(auto, using(crate::proofs::Written::read, crate::proofs::Saying::said_of_named, crate::proofs::Saying::unread_said, crate::proofs::Saying::memory_for))]
fn port_named<D: Disk, R: Read, W: Hears, E: Hears>(
    alloc: Global,
    disk: &D,
    reads: bool,
    idioms: Idioms,
    naming: Option<Package<'_>>,
    name: &[u8],
    input: &mut R,
    output: &mut W,
    errors: &mut E,
) -> u8
    ensures input { reads ≡ false → input.new ≡ input.old }
    ensures bound { result ≤ 2 }
    ensures warned { result ≢ 2
        → (errors.new ≡ errors.old)
        ⊎ ((page : List ℕ) × Appends (E.contents errors.old) (E.contents errors.new) page) }
    ensures ported { result ≢ 2
        → (out : List ℕ)
        × ((text : List ℕ) × (directory : List ℕ)
        × IsNamed (D.known disk.now) (reads && calls.is_input name.now) name.now text
        directory
        × specs.IsPrinted idioms (option_map wanted.package_of naming.entry)
        (reads && calls.is_input name.now) text out result)
        × Appends (W.contents output.old) (W.contents output.new) out }
    ensures refused { result ≡ 2
        → Says E.contents E.has_failed errors.old errors.new (
        IsSaidFor (D.known disk.now) (W.has_failed output.new)
        (reads && calls.is_input name.now) name.now) }
{
    let is_stream = is_stream(reads, name);
    match read_named(alloc, disk, reads, input, name) {
        Ok(Some(linted)) => port_source(
            alloc, disk, is_stream, idioms, naming, &linted, output, errors,
        ),
        Ok(None) => tell_file(errors, name),
        Err(_) => tell_memory(errors),
    }
}

/// Prints the source that the words name, with its calls rewritten, and returns the exit status.
///
/// The words are `--idioms` or not, with it `--package=NAME,VERSION` or not, and at most one name: `-`
/// for standard input, or the path of a source or of a directory with a `configure.ac`. Without a
/// name, `configure.ac` is read. Without `--idioms`, exact idioms alone are written. NAME and VERSION
/// come into an AC_INIT that has none that are kept. Nothing is run, and no file is written.
///
/// If the source is a file, and acrun accepts what it becomes, its templates are read. Lines before
/// AC_OUTPUT and after AC_PROG_CC set what they use and Autoconf sets itself, and comments say what is
/// left to do in them.
///
/// Standard error gets the warnings of `lint` that something in the text that is printed means
/// another thing to Autoconf. They don't change the status.
///
/// The status is 0 if nothing is left to do; 1 if the text has comments about what is left; and 2
/// if the source can't be read, if its quotes have an error, if something can't be written, or if
/// the words are wrong. Then standard error says so (own).
#[tactic(auto, using(crate::proofs::Written::by_words, crate::proofs::Written::not_wrong, crate::proofs::Saying::said_by_words, crate::proofs::Saying::usage_said))]
pub fn run_port<D: Disk, R: Read, W: Hears, E: Hears>(
    alloc: Global,
    disk: &D,
    words: &[Bytes],
    input: &mut R,
    output: &mut W,
    errors: &mut E,
) -> u8
    // Standard input is read only if `-` is one of the words.
    ensures input { list_any calls.is_input words.now ≡ false → input.new ≡ input.old }
    // The status is one of these three.
    ensures status { result ≤ 2 }
    // Unless the status is 2, standard error is as it was, or has text after what it had.
    ensures warned { result ≢ 2
        → (errors.new ≡ errors.old)
        ⊎ ((page : List ℕ) × Appends (E.contents errors.old) (E.contents errors.new) page) }
    // It is 2 if the words are wrong.
    ensures usage { wanted.request_of words.now ≡ None → result ≡ 2 }
    // Then standard error has the line for that.
    ensures wrong { wanted.request_of words.now ≡ None
        → IsTold E.contents E.has_failed errors.old errors.new (error_line (codes "usage") []) }
    // If it is 2, standard error has what says why, or it has failed. The line of standard output is
    // there only if that has failed, and the line of a source only if it can't be read.
    ensures refused { result ≡ 2
        → Says E.contents E.has_failed errors.old errors.new (
        IsSaid (D.known disk.now) (W.has_failed output.new) (wanted.request_of words.now)) }
    // Unless it is 2, the source that the words name is written as it was rewritten. It is 1 if
    // that has comments about what is left, and 0 otherwise.
    ensures ported { result ≢ 2
        → (out : List ℕ)
        × specs.IsAnswer (D.known disk.now) (wanted.request_of words.now) out result
        × Appends (W.contents output.old) (W.contents output.new) out }
{
    let reads = has_input(words);
    match request_of(words) {
        Some(request) => port_named(
            alloc,
            disk,
            reads,
            request.idioms,
            request.naming,
            request.source,
            input,
            output,
            errors,
        ),
        None => tell_usage(errors),
    }
}
