//! A run that completed, and may have taken a failure for "no", or whose cache is too long.

ghost use Rattle.std.specs.Prelude.{◌≡◌, true, false, []};
ghost use Rattle.cmd_call.specs.Lines.{SaysLines};

use crate::checks::{conftest_in, open_check};
use crate::failures::is_search;
use crate::lines::put_words;
use crate::shortages::{names_refusal, names_shortage, names_signal};
use cmd_call::Hears;
use crew_trait::{Entry, Reply};
use lint_table::{Page, WordPart, keys};
use output_put::{Artifact, Kind};
use std::alloc::Global;

/// The exit status of a child that a signal ended.
const BY_SIGNAL: u32 = 256;

/// The exit status of a test that is false.
const FALSE: u32 = 1;

/// The most bytes of a cache that can be read.
const LARGEST_CACHE: usize = 4_194_304;

/// What a child is.
#[derive(Clone, Copy)]
enum ChildKind {
    /// A compiler, which has a conftest.
    Compiler,
    /// `sh`, which looks for a program.
    Search,
    /// A program that a compiler made.
    Program,
}

/// Returns what the child of an entry of a log is.
fn kind_of(entry: &Entry) -> ChildKind {
    if conftest_in(entry).is_some() {
        ChildKind::Compiler
    } else if is_search(entry) {
        ChildKind::Search
    } else {
        ChildKind::Program
    }
}

/// Returns what may be wrong with the "no" of a compiler.
fn compiler_doubt(status: u32, diagnostics: &[u8]) -> Option<&'static [u8]> {
    if status == BY_SIGNAL || names_signal(diagnostics) {
        return Some(b"in which a signal ended a compiler".as_slice());
    }
    if names_refusal(diagnostics) {
        return Some(b"in which a compiler may not open a file".as_slice());
    }
    None
}

/// Returns what may be wrong with the "no" of `sh`. Its test is true or false, and any other status
/// is a failure of `sh` itself.
fn search_doubt(status: u32) -> Option<&'static [u8]> {
    match status {
        FALSE => None,
        BY_SIGNAL => Some(b"in which a signal ended sh".as_slice()),
        _ => Some(b"in which sh failed".as_slice()),
    }
}

/// Returns what may be wrong with an answer that isn't "yes".
fn doubt_of(kind: ChildKind, status: u32, diagnostics: &[u8]) -> Option<&'static [u8]> {
    if names_shortage(diagnostics) {
        return Some(b"in which a program found no room".as_slice());
    }
    match kind {
        ChildKind::Compiler => compiler_doubt(status, diagnostics),
        ChildKind::Search => search_doubt(status),
        ChildKind::Program => None,
    }
}

/// Returns what may be wrong with an entry of a log, if it is a child that failed.
fn doubt_in(entry: &Entry) -> Option<&'static [u8]> {
    match entry {
        Entry::Child {
            reply: Reply::Answer { status, text },
            ..
        } if *status != 0 => doubt_of(kind_of(entry), *status, text.as_slice()),
        _ => None,
    }
}

/// Returns a check as it is named.
fn named(check: Option<&[u8]>) -> WordPart<'_> {
    match check {
        Some(check) => WordPart::Quoted(check),
        None => WordPart::AsItIs(b"a test without a message"),
    }
}

/// Writes the words of a page as a line. If memory ran out, writes nothing.
#[tactic(auto, using(cmd_call::proofs::Pages::says_nothing))]
fn put_message<E: Hears>(alloc: Global, page: Page, errors: &mut E)
    ensures paged { SaysLines E.contents E.has_failed errors.old errors.new true [] }
{
    if let Ok(words) = page.message() {
        put_words(alloc, words.as_slice(), errors);
    }
}

/// Says of a check that its "no" may be wrong, and what to do.
fn put_doubt<E: Hears>(
    alloc: Global,
    cache: &[u8],
    check: Option<&[u8]>,
    reason: &[u8],
    errors: &mut E,
)
    ensures paged { SaysLines E.contents E.has_failed errors.old errors.new true [] }
{
    let mut page = Page::new(alloc);
    let reason = WordPart::AsItIs(reason);
    if cache.is_empty() {
        page.put(keys::WRONG_NO_IN_OUTPUTS, &[named(check), reason]);
    } else {
        let cache = WordPart::AsItIs(cache);
        page.put(keys::WRONG_NO_IN_CACHE, &[cache, named(check), reason]);
    }
    put_message(alloc, page, errors);
}

/// Says that the "no" of a check may be wrong, of the first child of this log of which it may be.
#[tactic(auto, using(cmd_call::proofs::Pages::says_nothing))]
fn put_doubts<E: Hears>(alloc: Global, log: &[Entry], cache: &[u8], errors: &mut E)
    ensures paged { SaysLines E.contents E.has_failed errors.old errors.new true [] }
{
    'entries: for i in 0..log.len() {
        if let Some(reason) = doubt_in(&log[i]) {
            put_doubt(alloc, cache, open_check(&log[..i]), reason, errors);
            return;
        }
    }
}

/// Says of the completed run with this log, if it is asked, that a child failed because there was
/// no room for a process, its arguments, a file, what it opened or its memory; that a compiler
/// failed because a signal ended it or because it may not open a file; or that `sh` failed, which
/// looks for a program. If there is such a child, the "no" of its check may be wrong. The first is
/// named. If the run has a cache, its name is `cache`, and otherwise that is empty (own).
#[tactic(auto, using(cmd_call::proofs::Pages::says_nothing, crate::proofs::Pages::asked_pages))]
pub fn explain_doubts<E: Hears>(
    alloc: Global,
    is_asked: bool,
    log: &[Entry],
    cache: &[u8],
    errors: &mut E,
)
    ensures silent { is_asked ≡ false → errors.new ≡ errors.old }
    ensures paged { SaysLines E.contents E.has_failed errors.old errors.new is_asked [] }
{
    if is_asked {
        put_doubts(alloc, log, cache, errors);
    }
}

/// Says that no run can read the cache of this name again.
fn put_long_cache<E: Hears>(alloc: Global, name: &[u8], errors: &mut E)
    ensures paged { SaysLines E.contents E.has_failed errors.old errors.new true [] }
{
    let mut page = Page::new(alloc);
    page.put(keys::LONG_CACHE, &[WordPart::AsItIs(name)]);
    put_message(alloc, page, errors);
}

/// Says of a file that was handed over that no run can read it again, if it is a cache and longer
/// than a cache that is read may be.
#[tactic(auto, using(cmd_call::proofs::Pages::says_nothing))]
fn put_handed<E: Hears>(alloc: Global, artifact: &Artifact, errors: &mut E)
    ensures paged { SaysLines E.contents E.has_failed errors.old errors.new true [] }
{
    if artifact.kind == Kind::Cache && artifact.text.len() > LARGEST_CACHE {
        put_long_cache(alloc, artifact.name.as_slice(), errors);
    }
}

/// Says of a cache that was handed over, if it is asked, that no run can read it again, if it is
/// longer than a cache that is read may be (own).
#[tactic(auto, using(cmd_call::proofs::Pages::says_nothing, crate::proofs::Pages::asked_pages))]
pub fn explain_long_cache<E: Hears>(
    alloc: Global,
    is_asked: bool,
    handed: &[Artifact],
    errors: &mut E,
)
    ensures silent { is_asked ≡ false → errors.new ≡ errors.old }
    ensures paged { SaysLines E.contents E.has_failed errors.old errors.new is_asked [] }
{
    if !is_asked {
        return;
    }
    'files: for artifact in handed {
        put_handed(alloc, artifact, errors);
    }
}
