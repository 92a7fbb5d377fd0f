//! The command.

ghost use Rattle.std.specs.Prelude.{◌≡◌, ◌≢◌, ◌≤◌, ◌&&◌, true, false, Bool, ℕ, List, [], IfOk, IfSome, MatchOption, None, OnErr, OnOk, codes};
ghost use Rattle.std.specs.List.{list_any};
ghost use Rattle.std.specs.Io.KnownBytes.{Appends};
ghost use Rattle.cmd_call.specs.Calls as calls;
ghost use Rattle.cmd_call.specs.Lines.{IsTold, error_line};
ghost use Rattle.lint_errors.specs.Errors.{IsAccepted};
ghost use Rattle.lint_errors.specs.Readings.{IsReading};
ghost use Rattle.lint_sources.specs.Sources.{IsNamed};
ghost use Rattle.cmd_header.specs.Answers as specs;
ghost use Rattle.cmd_header.specs.Refusals.{HasSaid, IsLost, IsSaid, IsSaidFor, IsSaidOf, Says};

use crate::words::name_of;
use cmd_call::{FAULT, Hears, print_text, tell_file, tell_memory, tell_usage, write_errors};
use deftable::Bytes;
use file_disk::Disk;
use header_template::{Template, template_of};
use lint_errors::{Reading, errors_of, is_accepted, read};
use lint_excerpts::excerpt_of;
use lint_sources::{Linted, has_input, read_named};
use std::alloc::{AllocError, Global};
use std::io::{self, Read};

/// Returns what is said of the errors of a source.
fn page_of(alloc: Global, linted: &Linted) -> Result<Vec<u8>, AllocError> {
    let mut page = Vec::new(alloc);
    let text = linted.text.as_slice();
    let reading = read(alloc, text)?;
    for finding in &errors_of(alloc, text, &reading)? {
        let shown = excerpt_of(alloc, finding, linted.name.as_slice(), text, false)?;
        page.extend_from_slice(shown.as_slice())?;
    }
    Ok(page)
}

/// Writes what is said of the errors of a source, and returns the exit status.
#[tactic(auto, using(crate::proofs::Saying::page_told))]
fn tell_page<E: Hears>(page: &[u8], errors: &mut E) -> u8
    ensures status { result ≡ 2 }
    ensures told { IsTold E.contents E.has_failed errors.old errors.new page.now }
{
    write_errors(page, errors);
    FAULT
}

/// Reports that a source is refused, and returns the exit status.
#[tactic(auto, using(crate::proofs::Saying::wrong_said, crate::proofs::Saying::memory_said))]
fn tell_refused<E: Hears>(alloc: Global, linted: &Linted, errors: &mut E) -> u8
    ensures status { result ≡ 2 }
    ensures said { (is_full : Bool) → (IsAccepted linted.now.text → ⊥)
        → Says E.contents E.has_failed errors.old errors.new (IsSaidOf is_full linted.now.text) }
{
    match page_of(alloc, linted) {
        Ok(page) => tell_page(page.as_slice(), errors),
        Err(_) => tell_memory(errors),
    }
}

/// Returns whether acrun accepts a source.
fn has_no_error(alloc: Global, text: &[u8]) -> Result<bool, AllocError>
    ensures yes { IfOk result (λ is. is ≡ true → IsAccepted text.now) }
    ensures no { IfOk result (λ is. is ≡ false → IsAccepted text.now → ⊥) }
{
    let is_right = is_accepted(alloc, text)?;
    Ok(is_right)
}

/// Returns the template of a source with this reading, if it is accepted.
#[tactic(auto, using(crate::proofs::Making::made, crate::proofs::Making::refused))]
fn template_with(
    alloc: Global,
    text: &[u8],
    reading: &Reading,
) -> Result<Option<Template>, AllocError>
    requires { IsReading text.now reading.now }
    ensures { IfOk result (λ o.
        MatchOption o (IsAccepted text.now → ⊥) (λ t. specs.IsMade text.now t.page t.said)) }
{
    if !has_no_error(alloc, text)? {
        return Ok(None);
    }
    match &reading.source {
        Ok(source) => {
            let template = template_of(alloc, text, source, reading.calls.as_slice())?;
            Ok(Some(template))
        }
        Err(_) => Ok(None),
    }
}

/// Returns the template of a source, if it is accepted.
fn template_in(alloc: Global, text: &[u8]) -> Result<Option<Template>, AllocError>
    ensures { IfOk result (λ o.
        MatchOption o (IsAccepted text.now → ⊥) (λ t. specs.IsMade text.now t.page t.said)) }
{
    let reading = read(alloc, text)?;
    let template = template_with(alloc, text, &reading)?;
    Ok(template)
}

/// The name of standard output in what is said.
const OUTPUT: &[u8] = b"standard output";

/// Prints a text. If that fails, the stream has failed.
fn print_whole<W: Hears>(text: &[u8], output: &mut W) -> io::Result<()>
    ensures put { OnOk result (Appends (W.contents output.old) (W.contents output.new) text.now) }
    ensures cut { OnErr result (W.has_failed output.new ≡ true) }
{
    match print_text(text, output) {
        Ok(()) => Ok(()),
        Err(error) => Err(error),
    }
}

/// Writes what is said of names without a description, and returns the exit status.
fn put_said<E: Hears>(said: &[u8], errors: &mut E) -> u8
    ensures status { result ≢ 2 → result ≡ 0 }
    ensures said { result ≢ 2 → HasSaid E.contents errors.old errors.new said.now }
    ensures failed { result ≡ 2 → E.has_failed errors.new ≡ true }
{
    if said.is_empty() {
        return 0;
    }
    match errors.say(said) {
        Ok(()) => 0,
        Err(_) => FAULT,
    }
}

/// Writes a template, and what is said of its names without a description, and returns the exit
/// status.
#[tactic(auto, using(crate::proofs::Saying::stream_lost))]
fn put_template<W: Hears, E: Hears>(template: &Template, output: &mut W, errors: &mut E) -> u8
    ensures status { result ≢ 2 → result ≡ 0 }
    ensures put { result ≢ 2
        → Appends (W.contents output.old) (W.contents output.new) template.now.page }
    ensures said { result ≢ 2 → HasSaid E.contents errors.old errors.new template.now.said }
    ensures refused { result ≡ 2
        → Says E.contents E.has_failed errors.old errors.new (IsLost (W.has_failed output.new)) }
{
    match print_whole(template.page.as_slice(), output) {
        Ok(()) => put_said(template.said.as_slice(), errors),
        Err(_) => tell_file(errors, OUTPUT),
    }
}

/// Prints the template of a source, and returns the exit status.
#[tactic(auto, using(crate::proofs::Saying::lost_of, crate::proofs::Saying::memory_said, crate::proofs::Making::answered, crate::proofs::Making::refused_text))]
fn print_template<W: Hears, E: Hears>(
    alloc: Global,
    linted: &Linted,
    output: &mut W,
    errors: &mut E,
) -> u8
    ensures status { result ≢ 2 → result ≡ 0 }
    ensures made { result ≢ 2
        → (page : List ℕ) × (said : List ℕ) × specs.IsMade linted.now.text page said
        × Appends (W.contents output.old) (W.contents output.new) page
        × HasSaid E.contents errors.old errors.new said }
    ensures refused { result ≡ 2
        → Says E.contents E.has_failed errors.old errors.new (
        IsSaidOf (W.has_failed output.new) linted.now.text) }
{
    match template_in(alloc, linted.text.as_slice()) {
        Ok(Some(template)) => put_template(&template, output, errors),
        Ok(None) => tell_refused(alloc, linted, errors),
        Err(_) => tell_memory(errors),
    }
}

/// Prints the template of the source of this name, and returns the exit status.
#[tactic(auto, using(crate::proofs::Making::answered_named, crate::proofs::Saying::said_of_named, crate::proofs::Saying::unread_said, crate::proofs::Saying::memory_for))]
fn print_named<D: Disk, R: Read, W: Hears, E: Hears>(
    alloc: Global,
    disk: &D,
    reads: bool,
    name: &[u8],
    input: &mut R,
    output: &mut W,
    errors: &mut E,
) -> u8
    ensures input { reads ≡ false → input.new ≡ input.old }
    ensures status { result ≢ 2 → result ≡ 0 }
    ensures made { result ≢ 2
        → (page : List ℕ) × (said : List ℕ)
        × ((text : List ℕ) × (directory : List ℕ)
        × IsNamed (D.known disk.now) (reads && calls.is_input name.now) name.now text
        directory
        × specs.IsMade text page said)
        × Appends (W.contents output.old) (W.contents output.new) page
        × HasSaid E.contents errors.old errors.new said }
    ensures refused { result ≡ 2
        → Says E.contents E.has_failed errors.old errors.new (
        IsSaidFor (D.known disk.now) (W.has_failed output.new)
        (reads && calls.is_input name.now) name.now) }
{
    match read_named(alloc, disk, reads, input, name) {
        Ok(Some(linted)) => print_template(alloc, &linted, output, errors),
        Ok(None) => tell_file(errors, name),
        Err(_) => tell_memory(errors),
    }
}

/// Prints the text of a header template for what the source that the words name may define, and
/// returns the exit status.
///
/// The words are at most one name: `-` for standard input, or the path of a source or of a directory
/// with a `configure.ac`. Without a name, `configure.ac` is read. Nothing is run, and no file is
/// written. The source needs no AC_CONFIG_HEADERS.
///
/// Standard error gets a line for each name of AC_DEFINE or AC_DEFINE_UNQUOTED that no call
/// describes. It doesn't change the status.
///
/// The status is 0 if the text is printed, and 2 if the source can't be read or is refused, if
/// something can't be written, or if the words are wrong. Then standard error says so (own).
#[tactic(auto, using(crate::proofs::Making::by_words, crate::proofs::Saying::said_by_words, crate::proofs::Saying::usage_said))]
pub fn run_header<D: Disk, R: Read, W: Hears, E: Hears>(
    alloc: Global,
    disk: &D,
    words: &[Bytes],
    input: &mut R,
    output: &mut W,
    errors: &mut E,
) -> u8
    // Standard input is read only if `-` is one of the words.
    ensures input { list_any calls.is_input words.now ≡ false → input.new ≡ input.old }
    // The status is 0 or 2.
    ensures status { result ≢ 2 → result ≡ 0 }
    // It is 2 if the words are wrong.
    ensures usage { specs.name_of words.now ≡ None → result ≡ 2 }
    // Then standard error has the line for that.
    ensures wrong { specs.name_of words.now ≡ None
        → IsTold E.contents E.has_failed errors.old errors.new (error_line (codes "usage") []) }
    // If it is 2, standard error has what says why, or it has failed. The line of standard output is
    // there only if that has failed, the line of a source only if it can't be read, and errors only
    // if it is refused.
    ensures refused { result ≡ 2
        → Says E.contents E.has_failed errors.old errors.new (
        IsSaid (D.known disk.now) (W.has_failed output.new) (specs.name_of words.now)) }
    // Unless it is 2, the page of the source that the words name is written: it has each name that
    // the source may define once, and no other. What is said is about its names without a description.
    ensures made { result ≢ 2
        → (page : List ℕ) × (said : List ℕ)
        × specs.IsAnswer (D.known disk.now) (specs.name_of words.now) page said
        × Appends (W.contents output.old) (W.contents output.new) page
        × HasSaid E.contents errors.old errors.new said }
{
    let reads = has_input(words);
    match name_of(words) {
        Some(name) => print_named(alloc, disk, reads, name, input, output, errors),
        None => tell_usage(errors),
    }
}
