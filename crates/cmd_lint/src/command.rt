//! The command.

ghost use Rattle.std.specs.Prelude.{◌≡◌, ◌≢◌, ◌⊎◌, ◌≤◌, ◌&&◌, ◌||◌, ℕ, List, Bool, true, false, [], ◌∷◌, Option, IfOk, MatchOption, OnErr, codes};
ghost use Rattle.std.specs.List.{list_any, filter};
ghost use Rattle.cmd_call.specs.Calls as calls;
ghost use Rattle.cmd_call.specs.Lines.{AreSaid, IsTold, error_line};
ghost use Rattle.cmd_lint.specs.Colours as colours;
ghost use Rattle.cmd_lint.specs.Refusals.{AreSaidOf, IsSaidOf};
ghost use Rattle.cmd_lint.specs.Status as specs;
ghost use Rattle.file_disk.specs.Known.{Known};
ghost use Rattle.lint_sources.specs.Sources.{IsUnread};

use crate::words::{asks_json, has_name, has_unknown, is_name, names_one};
use cmd_call::{Hears, print_text, tell_file, tell_memory, tell_usage};
use deftable::Bytes;
use file_disk::Disk;
use lint_sources::{FindingForm, SOURCE, has_input, linted_page, read_named};
use std::alloc::{AllocError, Global};
use std::io::{self, Read};

/// The name of standard output in the line of a fault.
const OUTPUT: &[u8] = b"standard output";

/// Returns the exit status after what was found in a source.
fn status_of(has_error: bool) -> u8
    ensures status { result ≡ specs.status_of has_error }
    ensures bound { result ≤ 1 }
{
    if has_error { 1 } else { 0 }
}

/// Prints a text. If that fails, the stream has failed.
fn put_text<W: Hears>(text: &[u8], output: &mut W) -> io::Result<()>
    ensures cut { OnErr result (W.has_failed output.new ≡ true) }
    ensures kept { W.has_failed output.new ≡ false → W.has_failed output.old ≡ false }
{
    match print_text(text, output) {
        Ok(()) => Ok(()),
        Err(error) => Err(error),
    }
}

/// Prints a page, and returns the exit status: that which is given, unless the page can't be
/// written.
#[tactic(auto, using(crate::proofs::Saying::nothing_said, crate::proofs::Saying::output_said))]
fn put_page<W: Hears, E: Hears>(page: &[u8], status: u8, output: &mut W, errors: &mut E) -> u8
    requires { status ≤ 1 }
    ensures bound { result ≤ 2 }
    ensures status { result ≢ 2 → result ≡ status }
    ensures silent { result ≢ 2 → errors.new ≡ errors.old }
    ensures kept { W.has_failed output.new ≡ false → W.has_failed output.old ≡ false }
    ensures said { (files : Option Known) (is_stream : Bool) (name : List ℕ)
        → (lines : List (List ℕ))
        × IsSaidOf files (W.has_failed output.new) is_stream name result lines
        × AreSaid E.contents E.has_failed errors.old errors.new lines }
{
    match put_text(page, output) {
        Ok(()) => status,
        Err(_) => tell_file(errors, OUTPUT),
    }
}

/// Reads the source that a word names, and returns the page of what is found in it and whether that
/// has an error, or `None` if it can't be read.
fn page_for<D: Disk, R: Read>(
    alloc: Global,
    disk: &D,
    form: FindingForm,
    word: &[u8],
    reads: bool,
    is_last: bool,
    input: &mut R,
) -> Result<Option<(Vec<u8>, bool)>, AllocError>
    ensures input { reads ≡ false → input.new ≡ input.old }
    ensures linted { IfOk result (λ o.
        MatchOption o (IsUnread (D.known disk.now) (reads && calls.is_input word.now) word.now)
        (λ r.
        specs.IsLinted (D.known disk.now) (reads && calls.is_input word.now) word.now r.1)) }
{
    match read_named(alloc, disk, reads, input, word)? {
        Some(linted) => Ok(Some(linted_page(alloc, disk, form, is_last, &linted)?)),
        None => Ok(None),
    }
}

/// Lints the source of a name, and returns the exit status.
#[tactic(auto, using(crate::proofs::Saying::file_said))]
fn lint_name<D: Disk, R: Read, W: Hears, E: Hears>(
    alloc: Global,
    disk: &D,
    form: FindingForm,
    name: &[u8],
    reads: bool,
    is_last: bool,
    input: &mut R,
    output: &mut W,
    errors: &mut E,
) -> u8
    ensures input { reads ≡ false → input.new ≡ input.old }
    ensures bound { result ≤ 2 }
    ensures silent { result ≢ 2 → errors.new ≡ errors.old }
    ensures linted { result ≢ 2
        → (has : Bool)
        × specs.IsLinted (D.known disk.now) (reads && calls.is_input name.now) name.now has
        × (result ≡ specs.status_of has) }
    ensures kept { W.has_failed output.new ≡ false → W.has_failed output.old ≡ false }
    ensures said { (lines : List (List ℕ))
        × IsSaidOf (D.known disk.now) (W.has_failed output.new)
        (reads && calls.is_input name.now) name.now result lines
        × AreSaid E.contents E.has_failed errors.old errors.new lines }
{
    match page_for(alloc, disk, form, name, reads, is_last, input) {
        Ok(Some((page, has_error))) => {
            put_page(page.as_slice(), status_of(has_error), output, errors)
        }
        Ok(None) => tell_file(errors, name),
        Err(_) => tell_memory(errors),
    }
}

/// Returns the larger of two exit statuses.
#[tactic(auto, using(crate::proofs::Statuses::worse_next, crate::proofs::Statuses::worse_first))]
fn worse(status: u8, next: u8) -> u8
    requires status { status ≤ 2 }
    requires next { next ≤ 2 }
    ensures bound { result ≤ 2 }
    ensures first { result ≢ 2 → status ≢ 2 }
    ensures second { result ≢ 2 → next ≢ 2 }
    ensures either { result ≡ 2 → (status ≡ 2) ⊎ (next ≡ 2) }
    ensures both { (has also : Bool) → status ≡ specs.status_of has → next ≡ specs.status_of also
        → result ≡ specs.status_of (has || also) }
{
    if status < next { next } else { status }
}

/// Lints each source that words name, and returns the exit status, which is the largest of theirs.
fn lint_names<D: Disk, R: Read, W: Hears, E: Hears>(
    alloc: Global,
    disk: &D,
    form: FindingForm,
    words: &[Bytes],
    reads: bool,
    input: &mut R,
    output: &mut W,
    errors: &mut E,
) -> u8
    requires { reads ≡ list_any calls.is_input words.now }
    ensures input { reads ≡ false → input.new ≡ input.old }
    ensures bound { result ≤ 2 }
    ensures silent { result ≢ 2 → errors.new ≡ errors.old }
    ensures linted { result ≢ 2
        → (has : Bool) × specs.AreLinted (D.known disk.now) (filter specs.is_name words.now) has
        × (result ≡ specs.status_of has) }
    ensures said { (lines : List (List ℕ))
        × AreSaidOf (D.known disk.now) (W.has_failed output.new) (filter specs.is_name words.now)
        lines
        × (result ≡ 2 → lines ≢ [])
        × AreSaid E.contents E.has_failed errors.old errors.new lines }
{
    let is_last = names_one(words);
    let mut status: u8 = 0;
    'words: for word in words {
        if is_name(word) {
            let name = word.as_slice();
            let next = lint_name(
                alloc, disk, form, name, reads, is_last, input, output, errors,
            );
            status = worse(status, next);
        }
    }
    status
}

/// Lints the source in the current directory, and returns the exit status.
#[tactic(auto, using(crate::proofs::Statuses::here, crate::proofs::Saying::said_here))]
fn lint_here<D: Disk, R: Read, W: Hears, E: Hears>(
    alloc: Global,
    disk: &D,
    form: FindingForm,
    input: &mut R,
    output: &mut W,
    errors: &mut E,
) -> u8
    ensures input { input.new ≡ input.old }
    ensures bound { result ≤ 2 }
    ensures silent { result ≢ 2 → errors.new ≡ errors.old }
    ensures linted { result ≢ 2
        → (has : Bool) × specs.AreLinted (D.known disk.now) (codes "configure.ac" ∷ []) has
        × (result ≡ specs.status_of has) }
    ensures said { (lines : List (List ℕ))
        × AreSaidOf (D.known disk.now) (W.has_failed output.new) (codes "configure.ac" ∷ []) lines
        × (result ≡ 2 → lines ≢ [])
        × AreSaid E.contents E.has_failed errors.old errors.new lines }
{
    lint_name(
        alloc, disk, form, SOURCE, false, true, input, output, errors,
    )
}

/// Lints each source that words name, or the one in the current directory, and returns the exit
/// status.
#[tactic(auto, using(crate::proofs::Statuses::by_names, crate::proofs::Statuses::by_none))]
fn lint_all<D: Disk, R: Read, W: Hears, E: Hears>(
    alloc: Global,
    disk: &D,
    form: FindingForm,
    words: &[Bytes],
    input: &mut R,
    output: &mut W,
    errors: &mut E,
) -> u8
    ensures input { list_any calls.is_input words.now ≡ false → input.new ≡ input.old }
    ensures bound { result ≤ 2 }
    ensures silent { result ≢ 2 → errors.new ≡ errors.old }
    ensures linted { result ≢ 2 → specs.IsStatus (D.known disk.now) words.now result }
    ensures said { (lines : List (List ℕ))
        × AreSaidOf (D.known disk.now) (W.has_failed output.new) (specs.named_by words.now) lines
        × (result ≡ 2 → lines ≢ [])
        × AreSaid E.contents E.has_failed errors.old errors.new lines }
{
    let reads = has_input(words);
    if has_name(words) {
        lint_names(alloc, disk, form, words, reads, input, output, errors)
    } else {
        lint_here(alloc, disk, form, input, output, errors)
    }
}

/// Prints what is wrong with the sources that the words name, and returns the exit status.
///
/// A word is `--json`, `-` for standard input, or the path of a source or of a directory with a
/// `configure.ac`. Without such a path, `configure.ac` is read. Templates are read from the
/// source's directory, and for standard input from the current one. Nothing is run, and no file is
/// written.
///
/// The status is 0 if nothing is found, or warnings alone; 1 if there are errors; and 2 if a source
/// can't be read, if the text can't be written, or if an option isn't known, and then standard
/// error has a line for it (own).
pub fn run_lint<D: Disk, R: Read, W: Hears, E: Hears>(
    alloc: Global,
    disk: &D,
    words: &[Bytes],
    is_coloured: bool,
    input: &mut R,
    output: &mut W,
    errors: &mut E,
) -> u8
    // Standard input is read only if `-` is one of the words.
    ensures input { list_any calls.is_input words.now ≡ false → input.new ≡ input.old }
    // The status is one of these three.
    ensures status { result ≤ 2 }
    // Nothing is on standard error unless something could not be read, written or understood.
    ensures silent { result ≢ 2 → errors.new ≡ errors.old }
    // It is 2 if an option isn't known.
    ensures unknown { list_any specs.is_unknown words.now ≡ true → result ≡ 2 }
    // Then standard error has the line for that.
    ensures refused { list_any specs.is_unknown words.now ≡ true
        → IsTold E.contents E.has_failed errors.old errors.new (error_line (codes "usage") []) }
    // Otherwise it has a line for each source that isn't linted, and there is one if the status is 2.
    // The line says why: the source can't be read, standard output has failed, or memory ran out.
    ensures said { list_any specs.is_unknown words.now ≡ false
        → (lines : List (List ℕ))
        × AreSaidOf (D.known disk.now) (W.has_failed output.new) (specs.named_by words.now) lines
        × (result ≡ 2 → lines ≢ [])
        × AreSaid E.contents E.has_failed errors.old errors.new lines }
    // Unless it is 2, the sources that the words name were read, and it is 1 exactly if one of them
    // has an error.
    ensures linted { result ≢ 2 → specs.IsStatus (D.known disk.now) words.now result }
{
    if has_unknown(words) {
        return tell_usage(errors);
    }
    let form = FindingForm {
        is_json: asks_json(words),
        is_coloured,
    };
    lint_all(alloc, disk, form, words, input, output, errors)
}

/// Returns whether an entry of the environment is a NO_COLOR that isn't empty.
fn forbids_colour(name: &[u8], value: &[u8]) -> bool
    ensures { result ≡ colours.forbids_colour (name.now, value.now) }
{
    name == b"NO_COLOR".as_slice() && !value.is_empty()
}

/// Returns whether an entry of the environment is such a NO_COLOR.
fn has_no_color(env: &[(Bytes, Bytes)]) -> bool
    ensures { result ≡ list_any colours.forbids_colour env.now }
{
    env.iter().any(|entry| forbids_colour(entry.0.as_slice(), entry.1.as_slice()))
}

/// Returns whether what is printed may have colours: standard output is a terminal, and the
/// environment has no NO_COLOR, or an empty one (no-color.org).
pub fn may_colour(env: &[(Bytes, Bytes)], is_terminal: bool) -> bool
    ensures { result ≡ colours.may_colour env.now is_terminal }
{
    is_terminal && !has_no_color(env)
}
