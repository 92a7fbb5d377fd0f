//! A run in which no compile or no link passed.

ghost use Rattle.std.specs.Prelude.{true, []};
ghost use Rattle.cmd_call.specs.Lines.{SaysLines};

use crate::checks::{conftest_in, diagnostics_in, open_check, put_command, put_cut, words_in};
use crate::lines::put_words;
use crate::page::put_key;
use cmd_call::Hears;
use crew_trait::{Entry, Reply};
use deftable::Bytes;
use lint_table::keys;
use std::alloc::{AllocError, Global};

/// What a compiler is called for.
#[derive(Clone, Copy, PartialEq, Eq)]
enum CallKind {
    Compile,
    Link,
    Preprocess,
}

/// How many calls of a kind were answered, and how many of them passed.
#[derive(Clone, Copy)]
struct Count {
    answered: usize,
    passed: usize,
}

/// The counts of a log.
#[derive(Clone, Copy)]
struct Counts {
    compiles: Count,
    links: Count,
    preprocesses: Count,
}

/// The third word of a command that looks for a program.
const SEARCH: &[u8] = b"test -f \"$1\" && test -x \"$1\"";

/// The error of a run in which a program is to be compiled and CC has no value.
const NO_COMPILER: &[u8] = b"configure: error: no acceptable C compiler found in $PATH\n";

/// What is said after that error if no program was looked for.
const NOT_LOOKED_FOR: &[u8] =
    b"CC has no value, and no compiler was looked for: AC_PROG_CC is missing before this check, or PATH is empty";

/// If so many calls of a kind were answered and none passed, a variable may be wrong.
const MANY: usize = 3;

/// Returns whether a word is followed by another one.
fn has_pair(words: &[Bytes], first: &[u8], second: &[u8]) -> bool {
    for i in 1..words.len() {
        if words[i - 1].as_slice() == first && words[i].as_slice() == second {
            return true;
        }
    }
    false
}

/// Returns what a compiler is called for, by its words and the name of its conftest.
fn kind_of(words: &[Bytes], conftest: &[u8]) -> CallKind {
    let program = conftest.strip_suffix(b".c").unwrap_or(conftest);
    if has_pair(words, b"-o", program) {
        return CallKind::Link;
    }
    if words.iter().any(|word| word.as_slice() == b"-c".as_slice()) {
        return CallKind::Compile;
    }
    CallKind::Preprocess
}

/// Returns the exit status of an entry of a log that is an answer to a conftest.
fn answer_of(entry: &Entry) -> Option<u32> {
    match entry {
        Entry::Child {
            job,
            reply: Reply::Answer { status, .. },
        } if job.file.is_some() => Some(*status),
        _ => None,
    }
}

/// Returns whether an entry of a log is an answer to a conftest of this kind.
fn is_of(entry: &Entry, kind: CallKind) -> bool {
    match (words_in(entry), conftest_in(entry)) {
        (Some(words), Some(conftest)) => {
            answer_of(entry).is_some() && kind_of(words, conftest) == kind
        }
        _ => false,
    }
}

/// Returns the count of a kind in a log.
fn count_of(log: &[Entry], kind: CallKind) -> Count {
    let mut answered = 0usize;
    let mut passed = 0usize;
    for entry in log {
        if is_of(entry, kind) {
            answered = answered.saturating_add(1);
            if answer_of(entry) == Some(0) {
                passed = passed.saturating_add(1);
            }
        }
    }
    Count { answered, passed }
}

/// Returns the counts of a log.
fn counts_of(log: &[Entry]) -> Counts {
    Counts {
        compiles: count_of(log, CallKind::Compile),
        links: count_of(log, CallKind::Link),
        preprocesses: count_of(log, CallKind::Preprocess),
    }
}

/// Returns the place in a log of the first answer to a conftest of this kind, or of any kind.
fn first_of(log: &[Entry], kind: Option<CallKind>) -> Option<usize> {
    for i in 0..log.len() {
        let is_first = match kind {
            Some(kind) => is_of(&log[i], kind),
            None => answer_of(&log[i]).is_some(),
        };
        if is_first {
            return Some(i);
        }
    }
    None
}

/// Returns the first line of a text that isn't empty, or an empty text.
fn first_line(text: &[u8]) -> &[u8] {
    for line in text.split(|byte| *byte == b'\n') {
        if !line.is_empty() {
            return line;
        }
    }
    b""
}

/// Appends the check that an entry of a log is made for.
fn put_check(alloc: Global, out: &mut Vec<u8>, check: Option<&[u8]>) -> Result<(), AllocError> {
    match check {
        Some(check) => put_cut(alloc, out, check),
        None => out.extend_from_slice(b"a test without a message"),
    }
}

/// Appends what a compiler said first, or that it said nothing.
fn put_answer(alloc: Global, out: &mut Vec<u8>, entry: &Entry) -> Result<(), AllocError> {
    let line = first_line(diagnostics_in(entry));
    if !line.is_empty() {
        return put_cut(alloc, out, line);
    }
    let words = match answer_of(entry) {
        Some(256) => b"a signal ended it".as_slice(),
        _ => b"it wrote nothing".as_slice(),
    };
    out.extend_from_slice(words)
}

/// Appends the check, the command and the first line of the diagnostics of an entry of a log.
fn put_first(
    alloc: Global,
    out: &mut Vec<u8>,
    log: &[Entry],
    place: usize,
) -> Result<(), AllocError> {
    if place < log.len() {
        put_check(alloc, out, open_check(&log[..place]))?;
        out.extend_from_slice(b": ")?;
        put_command(alloc, out, words_in(&log[place]).unwrap_or(&[]))?;
        out.extend_from_slice(b": ")?;
        put_answer(alloc, out, &log[place])?;
    }
    Ok(())
}

/// Returns whether a byte is written to a shell as it is.
fn is_plain(byte: u8) -> bool {
    byte.is_ascii_alphanumeric()
        || byte == b'.'
        || byte == b'/'
        || byte == b'_'
        || byte == b'-'
        || byte == b'+'
}

/// Returns the word that asks `acrun why` about a check, if one word does.
fn word_for(check: Option<&[u8]>) -> Option<&[u8]> {
    let word = check?.strip_prefix(b"checking for ")?;
    if word.is_empty() || word.starts_with(b"-") || !word.iter().all(|byte| is_plain(*byte)) {
        return None;
    }
    Some(word)
}

/// Appends where more is said of an entry of a log.
fn put_more(out: &mut Vec<u8>, log: &[Entry], place: usize) -> Result<(), AllocError> {
    let check = if place < log.len() {
        open_check(&log[..place])
    } else {
        None
    };
    match word_for(check) {
        Some(word) => {
            out.extend_from_slice(b"; acrun why ")?;
            out.extend_from_slice(word)
        }
        None => out.extend_from_slice(b"; see config.log"),
    }
}

/// Returns the words for one call and for several of a kind.
fn nouns_of(counts: &Counts) -> (&'static [u8], &'static [u8]) {
    let all = all_answered(counts);
    if counts.compiles.answered == all {
        (b"compile", b"compiles")
    } else if counts.links.answered == all {
        (b"link", b"links")
    } else {
        (b"call of a compiler", b"calls of a compiler")
    }
}

/// Returns which variables may be wrong if no call passes.
fn variables_of(counts: &Counts) -> &'static [u8] {
    let all = all_answered(counts);
    if counts.links.answered == all {
        b"CC, CFLAGS, LDFLAGS and LIBS"
    } else if counts.preprocesses.answered == all {
        b"CPP and CPPFLAGS"
    } else {
        b"CC and CFLAGS"
    }
}

/// Returns how many calls were answered.
fn all_answered(counts: &Counts) -> usize {
    let some = counts
        .compiles
        .answered
        .saturating_add(counts.links.answered);
    some.saturating_add(counts.preprocesses.answered)
}

/// Returns how many calls passed.
fn all_passed(counts: &Counts) -> usize {
    let some = counts.compiles.passed.saturating_add(counts.links.passed);
    some.saturating_add(counts.preprocesses.passed)
}

/// Appends that no call passed.
fn put_none_passed(alloc: Global, out: &mut Vec<u8>, counts: &Counts) -> Result<(), AllocError> {
    let all = all_answered(counts);
    let (one, several) = nouns_of(counts);
    if all == 1 {
        out.extend_from_slice(b"the only ")?;
        out.extend_from_slice(one)?;
        return out.extend_from_slice(b" failed: ");
    }
    let front = format!(in alloc; "none of {all} ")?;
    out.extend_from_slice(front.as_bytes())?;
    out.extend_from_slice(several)?;
    out.extend_from_slice(b" passed. The first, ")
}

/// Returns whether the last byte ends a sentence.
fn ends_sentence(text: &[u8]) -> bool {
    text.ends_with(b".") || text.ends_with(b"?") || text.ends_with(b"!")
}

/// Returns that no call of this log passed.
fn none_words(alloc: Global, log: &[Entry], counts: &Counts) -> Result<Vec<u8>, AllocError> {
    let mut out = Vec::new(alloc);
    put_none_passed(alloc, &mut out, counts)?;
    let place = first_of(log, None).unwrap_or(log.len());
    put_first(alloc, &mut out, log, place)?;
    if !ends_sentence(&out) {
        out.push(b'.')?;
    }
    out.extend_from_slice(b" Look at ")?;
    out.extend_from_slice(variables_of(counts))?;
    put_more(&mut out, log, place)?;
    Ok(out)
}

/// Returns that no call of one kind passed, and that calls of the other did, with a question.
fn half_words(
    alloc: Global,
    log: &[Entry],
    failed: CallKind,
    counts: (Count, Count),
    question: &[u8],
) -> Result<Vec<u8>, AllocError> {
    let (none, some) = counts;
    let (all, passed, others) = (none.answered, some.passed, some.answered);
    let front = match failed {
        CallKind::Link => format!(in alloc;
            "none of {all} links passed, and {passed} of {others} compiles did: "
        )?,
        _ => format!(in alloc;
            "none of {all} compiles passed, and {passed} of {others} links did: "
        )?,
    };
    let mut out = Vec::from_slice(alloc, front.as_bytes())?;
    out.extend_from_slice(question)?;
    out.extend_from_slice(b" The first, ")?;
    let place = first_of(log, Some(failed)).unwrap_or(log.len());
    put_first(alloc, &mut out, log, place)?;
    put_more(&mut out, log, place)?;
    Ok(out)
}

/// Returns what is said of a log by its counts, if something is.
fn failure_words(
    alloc: Global,
    log: &[Entry],
    counts: &Counts,
) -> Result<Option<Vec<u8>>, AllocError> {
    let (compiles, links) = (counts.compiles, counts.links);
    if all_answered(counts) > 0 && all_passed(counts) == 0 {
        let words = none_words(alloc, log, counts)?;
        return Ok(Some(words));
    }
    if links.answered >= MANY && links.passed == 0 && compiles.passed > 0 {
        let question = b"is LDFLAGS or LIBS wrong?";
        let words = half_words(alloc, log, CallKind::Link, (links, compiles), question)?;
        return Ok(Some(words));
    }
    if compiles.answered >= MANY && compiles.passed == 0 && links.passed > 0 {
        let question = b"is CPPFLAGS wrong, or are the system's headers missing?";
        let words = half_words(alloc, log, CallKind::Compile, (compiles, links), question)?;
        return Ok(Some(words));
    }
    Ok(None)
}

/// Returns whether an entry of a log is a command that looks for a program.
pub(crate) fn is_search(entry: &Entry) -> bool {
    match words_in(entry) {
        Some([_, _, test, ..]) => test.as_slice() == SEARCH,
        _ => false,
    }
}

/// Returns whether an entry of a log is the error that there is no compiler.
fn is_no_compiler(entry: &Entry) -> bool {
    match entry {
        Entry::Said(note) => note.text.as_slice() == NO_COMPILER,
        _ => false,
    }
}

/// Says of a run that stopped since there is no compiler why CC has no value, if no program was
/// looked for.
#[tactic(auto, using(cmd_call::proofs::Pages::says_nothing))]
pub(crate) fn put_no_compiler<E: Hears>(alloc: Global, log: &[Entry], errors: &mut E)
    ensures paged { SaysLines E.contents E.has_failed errors.old errors.new true [] }
{
    if log.iter().any(is_no_compiler) && !log.iter().any(is_search) {
        put_words(alloc, NOT_LOOKED_FOR, errors);
    }
}

/// Says that no call of a compiler passed, if at least one was answered; or asks about a variable,
/// if three links or more were answered and none passed, but a compile did, or the reverse. If
/// memory runs out for that, it only says that no call passed.
#[tactic(auto, using(cmd_call::proofs::Pages::says_nothing))]
pub(crate) fn put_failures<E: Hears>(alloc: Global, log: &[Entry], errors: &mut E)
    ensures paged { SaysLines E.contents E.has_failed errors.old errors.new true [] }
{
    let counts = counts_of(log);
    match failure_words(alloc, log, &counts) {
        Ok(Some(words)) => put_words(alloc, words.as_slice(), errors),
        Ok(None) => {}
        Err(_) => {
            if all_passed(&counts) == 0 {
                put_key(alloc, keys::NO_COMPILER_WORKS, errors);
            }
        }
    }
}
