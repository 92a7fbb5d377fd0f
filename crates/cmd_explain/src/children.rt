//! Why a run was cut.

ghost use Rattle.std.specs.Prelude.{◌≡◌, true, false, []};
ghost use Rattle.cmd_call.specs.Lines.{SaysLines};

use crate::checks::{conftest_in, index_of_child, open_check, put_command, put_cut, words_in};
use crate::lines::put_words;
use crate::shortages::names_shortage;
use cmd_call::Hears;
use crew_refusals::{Causes, shown};
use crew_trait::{Entry, Reply};
use deftable::Bytes;
use file_disk::{Disk, Found};
use lint_table::{Page, WordPart, keys};
use std::alloc::{AllocError, Global};

/// What is said if the name of a program has a quote.
const QUOTES: &[u8] = b"CC and the flags are split at blanks, and quotes in them have no meaning";

/// Returns whether an entry of a log is a child whose diagnostics say that there was no room.
fn has_shortage(entry: &Entry) -> bool {
    match entry {
        Entry::Child {
            reply: Reply::Answer { text, .. },
            ..
        } => names_shortage(text.as_slice()),
        _ => false,
    }
}

/// Appends what a child is for, of which the log has these entries before it: its check, and outside
/// a check its command.
fn put_place(
    alloc: Global,
    out: &mut Vec<u8>,
    before: &[Entry],
    child: &Entry,
) -> Result<(), AllocError> {
    out.extend_from_slice(b", ")?;
    match (open_check(before), words_in(child)) {
        (Some(check), _) => put_cut(alloc, out, check),
        (None, Some(words)) => put_command(alloc, out, words),
        (None, None) => Ok(()),
    }
}

/// Returns the words of a cause that say why the conftest of this name can't be written, if it says
/// that. What a compiler's products are is not about the conftest.
fn unwritten<'a>(name: &[u8], cause: &'a [u8]) -> Option<&'a [u8]> {
    let words = cause.strip_prefix(name)?.strip_prefix(b": ")?;
    if words.starts_with(b"its ") || words == b"not UTF-8".as_slice() {
        None
    } else {
        Some(words)
    }
}

/// Appends a cause, and of a conftest that it can't be written.
fn put_cause(
    alloc: Global,
    out: &mut Vec<u8>,
    conftest: Option<&[u8]>,
    cause: &[u8],
) -> Result<(), AllocError> {
    let name = conftest.unwrap_or(b"");
    match unwritten(name, cause) {
        Some(words) => {
            out.extend_from_slice(shown(alloc, name)?.as_slice())?;
            out.extend_from_slice(b" can't be written: ")?;
            out.extend_from_slice(words)
        }
        None => out.extend_from_slice(cause),
    }
}

/// Returns `child N, CHECK: CAUSE`. If the log doesn't have the child, returns `child N: CAUSE`.
fn child_words(
    alloc: Global,
    number: u64,
    log: &[Entry],
    cause: &[u8],
) -> Result<Vec<u8>, AllocError> {
    let front = format!(in alloc; "child {number}")?;
    let mut words = Vec::from_slice(alloc, front.as_bytes())?;
    let mut conftest = None;
    if let Some(place) = index_of_child(log, number) {
        if place < log.len() {
            let child = &log[place];
            put_place(alloc, &mut words, &log[..place], child)?;
            conftest = conftest_in(child);
        }
    }
    words.extend_from_slice(b": ")?;
    put_cause(alloc, &mut words, conftest, cause)?;
    Ok(words)
}

/// Returns the first word of a command, or an empty text.
fn first_word(words: &[Bytes]) -> &[u8] {
    match words.first() {
        Some(word) => word.as_slice(),
        None => b"",
    }
}

/// Returns that a program is a directory, or may not be executed.
fn program_words(alloc: Global, program: &[u8]) -> Result<Vec<u8>, AllocError> {
    let mut words = Vec::new(alloc);
    put_cut(alloc, &mut words, program)?;
    words.extend_from_slice(b" is a directory, or may not be executed")?;
    Ok(words)
}

/// Says that quotes in a compiler's name have no meaning, if the program of this child has one.
#[tactic(auto, using(cmd_call::proofs::Pages::says_nothing))]
fn put_quotes<E: Hears>(alloc: Global, child: &Entry, program: &[u8], errors: &mut E)
    ensures paged { SaysLines E.contents E.has_failed errors.old errors.new true [] }
{
    let has_quote = program.contains(&b'"') || program.contains(&b'\'');
    if has_quote && conftest_in(child).is_some() {
        put_words(alloc, QUOTES, errors);
    }
}

/// Says that a program may be a directory, if that may be the cause.
#[tactic(auto, using(cmd_call::proofs::Pages::says_nothing))]
fn put_denied<E: Hears>(alloc: Global, program: &[u8], cause: &[u8], errors: &mut E)
    ensures paged { SaysLines E.contents E.has_failed errors.old errors.new true [] }
{
    if !program.is_empty() && is_denied(unwritten(program, cause)) {
        put_made(alloc, program_words(alloc, program), errors);
    }
}

/// Says more of a child of the log that can't be started: that quotes in a compiler's name have no
/// meaning, or that the program may be a directory.
fn put_program<E: Hears>(alloc: Global, child: &Entry, cause: &[u8], errors: &mut E)
    ensures paged { SaysLines E.contents E.has_failed errors.old errors.new true [] }
{
    let program = first_word(words_in(child).unwrap_or(&[]));
    put_quotes(alloc, child, program, errors);
    put_denied(alloc, program, cause, errors);
}

/// Returns whether the words of a cause are that permission was denied.
fn is_denied(words: Option<&[u8]>) -> bool {
    match words {
        Some(words) => words == b"Permission denied".as_slice(),
        None => false,
    }
}

/// Returns what is said of a cache in which a "no" may be wrong.
fn cache_words(alloc: Global, cache: &[u8]) -> Result<Vec<u8>, AllocError> {
    let mut page = Page::new(alloc);
    page.put(keys::WRONG_NO, &[WordPart::AsItIs(cache)]);
    let words = page.message()?;
    words.into_vec(alloc)
}

/// Writes words as a line. If memory ran out, writes nothing.
#[tactic(auto, using(cmd_call::proofs::Pages::says_nothing))]
fn put_made<E: Hears>(alloc: Global, made: Result<Vec<u8>, AllocError>, errors: &mut E)
    ensures paged { SaysLines E.contents E.has_failed errors.old errors.new true [] }
{
    if let Ok(words) = made {
        put_words(alloc, words.as_slice(), errors);
    }
}

/// Says that no program can be started without `/dev/null`. If memory runs out, writes nothing.
#[tactic(auto, using(cmd_call::proofs::Pages::says_nothing))]
fn put_no_null<E: Hears>(alloc: Global, errors: &mut E)
    ensures paged { SaysLines E.contents E.has_failed errors.old errors.new true [] }
{
    let mut page = Page::new(alloc);
    page.put(keys::NO_NULL_DEVICE, &[]);
    if let Ok(words) = page.message() {
        put_words(alloc, words.as_slice(), errors);
    }
}

/// Says that no program can be started if `/dev/null` is not there, which each child opens.
#[tactic(auto, using(cmd_call::proofs::Pages::says_nothing))]
fn explain_null<D: Disk, E: Hears>(alloc: Global, disk: &D, errors: &mut E)
    ensures paged { SaysLines E.contents E.has_failed errors.old errors.new true [] }
{
    if let Ok(Found::Nothing) = disk.look("/dev/null") {
        put_no_null(alloc, errors);
    }
}

/// Says more of the child of this number, if the log has it and it can't be started.
#[tactic(auto, using(cmd_call::proofs::Pages::says_nothing))]
fn explain_child<E: Hears>(alloc: Global, number: u64, log: &[Entry], cause: &[u8], errors: &mut E)
    ensures paged { SaysLines E.contents E.has_failed errors.old errors.new true [] }
{
    if let Some(place) = index_of_child(log, number) {
        if place < log.len() {
            put_program(alloc, &log[place], cause, errors);
        }
    }
}

/// Says that a "no" in the cache of this name may be wrong, if there is one and a child of the log
/// found no room.
#[tactic(auto, using(cmd_call::proofs::Pages::says_nothing))]
fn explain_cache<E: Hears>(alloc: Global, log: &[Entry], cache: &[u8], errors: &mut E)
    ensures paged { SaysLines E.contents E.has_failed errors.old errors.new true [] }
{
    if !cache.is_empty() && log.iter().any(has_shortage) {
        put_made(alloc, cache_words(alloc, cache), errors);
    }
}

/// Says why the child of this number was refused, and what else may be wrong.
fn put_refused<D: Disk, E: Hears>(
    alloc: Global,
    disk: &D,
    number: u64,
    cause: &[u8],
    log: &[Entry],
    cache: &[u8],
    errors: &mut E,
)
    ensures paged { SaysLines E.contents E.has_failed errors.old errors.new true [] }
{
    put_made(alloc, child_words(alloc, number, log, cause), errors);
    explain_child(alloc, number, log, cause, errors);
    explain_null(alloc, disk, errors);
    explain_cache(alloc, log, cache, errors);
}

/// Says why the child of this number was refused, which cut the run with this log:
/// `acrun: child N, CHECK: CAUSE`, with the check that it was made for, or with its command if it
/// was made for none. If its program can't be started, one more line may say what is wrong with
/// it, and one that `/dev/null` is not there. If the run has a cache, whose name isn't empty then,
/// and a child of the log found no room for a process, a file or its memory, one more line says
/// that the cache may hold a wrong "no", and that it is to be removed: such a child answered "no",
/// and its answer was kept (own).
#[tactic(auto, using(cmd_call::proofs::Pages::says_nothing, crate::proofs::Pages::asked_pages))]
pub fn explain_cut<D: Disk, C: Causes, E: Hears>(
    alloc: Global,
    disk: &D,
    is_asked: bool,
    number: u64,
    crew: &C,
    log: &[Entry],
    cache: &[u8],
    errors: &mut E,
)
    ensures silent { is_asked ≡ false → errors.new ≡ errors.old }
    ensures paged { SaysLines E.contents E.has_failed errors.old errors.new is_asked [] }
{
    if is_asked {
        if let Some(cause) = crew.cause(number) {
            put_refused(alloc, disk, number, cause, log, cache, errors);
        }
    }
}
