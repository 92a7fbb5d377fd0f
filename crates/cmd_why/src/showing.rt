//! What is printed of a check.

ghost use Rattle.std.specs.Prelude.{◌≡◌, ◌++◌, ◌≤◌, Some, decimal, flat_map, map, option_map, IfOk, OnOk};
ghost use Rattle.cmd_why.specs.Shown as specs;
ghost use Rattle.cmd_why.specs.Lines as lines_specs;
ghost use Rattle.cmd_why.specs.Views.{check_seen, line_seen};

use crate::doubts::{put_defined, put_doubt};
use crate::lines::{Check, LogLine, answer_in, is_answer, own};
use crate::names::is_about;
use crate::nearest::put_nearest;
use crate::origins::put_cached;
use crate::seen::Seen;
use cfglog::LineKind;
use std::alloc::{AllocError, Global};

/// The exit status if a check is shown.
pub(crate) const FOUND: u8 = 0;

/// The exit status if the word is about no check.
const NONE: u8 = 1;

/// How many bytes of a child's diagnostics a run keeps.
const MOST_KEPT: usize = 65_536;

/// Appends the line before the command of a child.
fn put_number(alloc: Global, out: &mut Vec<u8>, number: usize) -> Result<(), AllocError>
    ensures { OnOk result (out.new.items ≡ out.old.items ++ specs.child_line number) }
{
    let digits = format!(in alloc; "{number}")?;
    out.extend_from_slice(b"child ")?;
    out.extend_from_slice(digits.as_bytes())?;
    out.extend_from_slice(b":\n")
}

/// Appends the command of a child, after the child's number.
fn put_command(
    alloc: Global,
    out: &mut Vec<u8>,
    text: &[u8],
    number: usize,
) -> Result<(), AllocError>
    ensures { OnOk result (out.new.items ≡ out.old.items ++ (specs.child_line number ++ text.now)) }
{
    put_number(alloc, out, number)?;
    out.extend_from_slice(text)
}

/// Appends a line of a check, unless it is a message, or a line of a program that failed.
#[tactic(auto, unfolding(crate::specs::Shown::line_text))]
fn put_line(alloc: Global, out: &mut Vec<u8>, line: &LogLine<'_>) -> Result<(), AllocError>
    ensures { OnOk result (out.new.items ≡ out.old.items ++ specs.line_text (line_seen line.now)) }
{
    match line.part {
        LineKind::Command => put_command(alloc, out, line.text, line.child),
        LineKind::Diagnostics => out.extend_from_slice(line.text),
        LineKind::Status => out.extend_from_slice(line.text),
        LineKind::Refused => out.extend_from_slice(line.text),
        LineKind::Message => Ok(()),
        LineKind::Heading => Ok(()),
        LineKind::Program => Ok(()),
    }
}

/// Appends the lines of a check that are shown where they stand.
fn put_lines(alloc: Global, out: &mut Vec<u8>, lines: &[LogLine<'_>]) -> Result<(), AllocError>
    ensures { OnOk result (
        out.new.items ≡ out.old.items ++ flat_map specs.line_text (map line_seen lines.now)) }
{
    for line in lines {
        put_line(alloc, out, line)?;
    }
    Ok(())
}

/// Puts a heading in the place of a program that failed before.
fn begin_program(program: &mut Vec<u8>, heading: &[u8]) -> Result<(), AllocError>
    ensures { OnOk result (program.new.items ≡ heading.now) }
{
    program.clear();
    program.extend_from_slice(heading)
}

/// Takes a line of a check for the program that failed last, if it is one of such a program.
fn take_program(program: &mut Vec<u8>, line: &LogLine<'_>) -> Result<(), AllocError>
    ensures { OnOk result (
        program.new.items ≡ specs.program_after program.old.items line.now.part line.now.text.now) }
{
    match line.part {
        LineKind::Heading => begin_program(program, line.text),
        LineKind::Program => program.extend_from_slice(line.text),
        _ => Ok(()),
    }
}

/// Returns the program that failed last, with its heading, or nothing.
fn last_program(alloc: Global, lines: &[LogLine<'_>]) -> Result<Vec<u8>, AllocError>
    ensures { IfOk result (λ v. v.items ≡ specs.last_program (map line_seen lines.now)) }
{
    let mut program = Vec::new(alloc);
    for line in lines {
        take_program(&mut program, line)?;
    }
    Ok(program)
}

/// Appends an answer.
#[tactic(auto, unfolding(crate::specs::Shown::answer_text))]
fn put_given(
    alloc: Global,
    out: &mut Vec<u8>,
    seen: &Seen,
    message: &[u8],
    answer: &[u8],
) -> Result<(), AllocError>
    ensures { OnOk result (
        out.new.items ≡ out.old.items ++ specs.answer_text seen.now message.now (Some answer.now)) }
{
    out.extend_from_slice(answer)?;
    if is_cached(answer) {
        return put_cached(alloc, out, seen, message);
    }
    Ok(())
}

/// Appends the answer of a check, or that it has none.
#[tactic(auto, unfolding(crate::specs::Shown::answer_text))]
fn put_answer(
    alloc: Global,
    out: &mut Vec<u8>,
    seen: &Seen,
    message: &[u8],
    answer: Option<&[u8]>,
) -> Result<(), AllocError>
    ensures { OnOk result (
        out.new.items
        ≡ out.old.items
        ++ specs.answer_text seen.now message.now (option_map (λ t. t.now) answer.entry)) }
{
    match answer {
        Some(answer) => put_given(alloc, out, seen, message, answer),
        None => out.extend_from_slice(b"\nIt has no answer: the run ended before.\n"),
    }
}

/// Appends the first line of a check, with its answer.
fn put_first_line(
    alloc: Global,
    out: &mut Vec<u8>,
    seen: &Seen,
    check: &Check<'_>,
) -> Result<(), AllocError>
    ensures { OnOk result (
        out.new.items ≡ out.old.items ++ specs.first_line seen.now (check_seen check.now)) }
{
    out.extend_from_slice(b"checking ")?;
    out.extend_from_slice(check.message)?;
    out.extend_from_slice(b"... ")?;
    put_answer(alloc, out, seen, check.message, answer_in(check.rest))
}

/// Returns how many bytes of diagnostics a child has after a line, up to a number from which they
/// are not counted.
fn bytes_after(bytes: usize, part: LineKind, text: &[u8]) -> usize
    ensures { result ≡ specs.bytes_after bytes part text.now }
{
    match part {
        LineKind::Command => 0,
        LineKind::Diagnostics => {
            if bytes >= MOST_KEPT {
                bytes
            } else {
                bytes + text.len()
            }
        }
        _ => bytes,
    }
}

/// Returns whether a line says that a compiler failed whose diagnostics may have been cut.
fn is_cut_at(bytes: usize, part: LineKind) -> bool
    ensures { result ≡ specs.is_cut_at bytes part }
{
    match part {
        LineKind::Heading => bytes >= MOST_KEPT,
        _ => false,
    }
}

/// Returns whether a compiler failed by these lines whose diagnostics may have been cut.
fn has_cut(lines: &[LogLine<'_>]) -> bool
    ensures { result ≡ specs.has_cut 0 (map line_seen lines.now) }
{
    let mut bytes = 0usize;
    for line in lines {
        if is_cut_at(bytes, line.part) {
            return true;
        }
        bytes = bytes_after(bytes, line.part, line.text);
    }
    false
}

/// Appends what is said of diagnostics that were cut.
#[tactic(auto, unfolding(crate::specs::Shown::cut_words))]
fn put_cut_words(out: &mut Vec<u8>) -> Result<(), AllocError>
    ensures { OnOk result (out.new.items ≡ out.old.items ++ specs.cut_words) }
{
    out.extend_from_slice(
        b"A compiler failed here that wrote 65,536 bytes of diagnostics or more. The rest was dropped, and the answer may come from that.\n",
    )
}

/// Appends that diagnostics of a check with these lines were cut, if that may be so.
#[tactic(auto, unfolding(crate::specs::Shown::cut_text))]
fn put_cut(out: &mut Vec<u8>, lines: &[LogLine<'_>]) -> Result<(), AllocError>
    ensures { OnOk result (
        out.new.items ≡ out.old.items ++ specs.cut_text (map line_seen lines.now)) }
{
    if has_cut(lines) {
        return put_cut_words(out);
    }
    Ok(())
}

/// Appends what is printed of a check: its message and answer, the command, the diagnostics and the
/// status of each of its children, whether diagnostics were cut, and the program that failed last.
#[tactic(auto, unfolding(crate::specs::Shown::check_text))]
fn put_check(
    alloc: Global,
    out: &mut Vec<u8>,
    seen: &Seen,
    check: &Check<'_>,
) -> Result<(), AllocError>
    ensures { OnOk result (
        out.new.items ≡ out.old.items ++ specs.check_text seen.now (check_seen check.now)) }
{
    put_first_line(alloc, out, seen, check)?;
    let lines = own(alloc, check.rest)?;
    put_lines(alloc, out, lines.as_slice())?;
    put_cut(out, lines.as_slice())?;
    let program = last_program(alloc, lines.as_slice())?;
    out.extend_from_slice(program.as_slice())
}

/// Returns the checks that the word is about.
fn chosen<'a>(
    alloc: Global,
    word: &[u8],
    checks: &[Check<'a>],
) -> Result<Vec<Check<'a>>, AllocError>
    ensures { IfOk result (λ v.
        map check_seen v.items ≡ specs.chosen word.now (map check_seen checks.now)) }
{
    let mut chosen = Vec::new(alloc);
    for check in checks {
        if is_about(alloc, word, check.message)? {
            chosen.push(*check)?;
        }
    }
    Ok(chosen)
}

/// Appends what is printed of checks.
fn put_checks(
    alloc: Global,
    out: &mut Vec<u8>,
    seen: &Seen,
    checks: &[Check<'_>],
) -> Result<(), AllocError>
    ensures { OnOk result (
        out.new.items
        ≡ out.old.items ++ flat_map (specs.check_text seen.now) (map check_seen checks.now)) }
{
    for check in checks {
        put_check(alloc, out, seen, check)?;
    }
    Ok(())
}

/// Returns whether an answer was there before its check.
fn is_cached(answer: &[u8]) -> bool
    ensures { result ≡ specs.is_cached answer.now }
{
    answer.starts_with(b"(cached) ")
}

/// Returns whether a check has such an answer.
fn is_cached_check(check: &Check<'_>) -> bool
    ensures { result ≡ specs.is_cached_answer (lines_specs.answer_of (check_seen check.now)) }
{
    match answer_in(check.rest) {
        Some(answer) => is_cached(answer),
        None => false,
    }
}

/// Returns whether one of these checks has such an answer.
fn has_cached(checks: &[Check<'_>]) -> bool
    ensures { result ≡ specs.has_cached (map check_seen checks.now) }
{
    for check in checks {
        if is_cached_check(check) {
            return true;
        }
    }
    false
}

/// Returns how many of these lines are answers.
fn answers(lines: &[LogLine<'_>]) -> usize
    ensures { result ≡ specs.answers (map line_seen lines.now) }
{
    let mut count = 0usize;
    for line in lines {
        if is_answer(line) {
            count += 1;
        }
    }
    count
}

/// Returns how many of these lines are answers that were there before their checks.
fn cached_answers(lines: &[LogLine<'_>]) -> usize
    ensures { result ≡ specs.cached_answers (map line_seen lines.now) }
{
    let mut count = 0usize;
    for line in lines {
        if is_answer(line) && is_cached(line.text) {
            count += 1;
        }
    }
    count
}

/// Appends a number.
fn put_decimal(alloc: Global, out: &mut Vec<u8>, number: usize) -> Result<(), AllocError>
    ensures { OnOk result (out.new.items ≡ out.old.items ++ decimal number) }
{
    let digits = format!(in alloc; "{number}")?;
    out.extend_from_slice(digits.as_bytes())
}

/// Appends the front of the line that counts answers.
#[tactic(auto, unfolding(crate::specs::Shown::count_front))]
fn put_count_front(out: &mut Vec<u8>) -> Result<(), AllocError>
    ensures { OnOk result (out.new.items ≡ out.old.items ++ specs.count_front) }
{
    out.extend_from_slice(b"Answers in the log that were there before: ")
}

/// Appends how many answers of a log were there before their checks.
#[tactic(auto, unfolding(crate::specs::Shown::count_text))]
fn put_count(alloc: Global, out: &mut Vec<u8>, log: &[LogLine<'_>]) -> Result<(), AllocError>
    ensures { OnOk result (
        out.new.items ≡ out.old.items ++ specs.count_text (map line_seen log.now)) }
{
    put_count_front(out)?;
    put_decimal(alloc, out, cached_answers(log))?;
    out.extend_from_slice(b" of ")?;
    put_decimal(alloc, out, answers(log))?;
    out.extend_from_slice(b".\n")
}

/// Appends what is printed of these checks of a log.
#[tactic(auto, unfolding(crate::specs::Shown::taken_text))]
fn put_taken(
    alloc: Global,
    out: &mut Vec<u8>,
    seen: &Seen,
    log: &[LogLine<'_>],
    taken: &[Check<'_>],
) -> Result<(), AllocError>
    ensures { OnOk result (
        out.new.items
        ≡ out.old.items
        ++ specs.taken_text seen.now (map line_seen log.now) (map check_seen taken.now)) }
{
    put_checks(alloc, out, seen, taken)?;
    if has_cached(taken) {
        return put_count(alloc, out, log);
    }
    Ok(())
}

/// Appends what is chosen for a word of a log, or else the checks that are nearest to it, and
/// returns the exit status.
fn put_chosen(
    alloc: Global,
    out: &mut Vec<u8>,
    seen: &Seen,
    log: &[LogLine<'_>],
    word: &[u8],
    checks: &[Check<'_>],
    chosen: &[Check<'_>],
) -> Result<u8, AllocError>
    ensures text { OnOk result (
        out.new.items
        ≡ out.old.items
        ++ specs.text_for seen.now (map line_seen log.now) word.now
        (map (λ check. check.message.now) checks.now) (map check_seen chosen.now)) }
    ensures status { IfOk result (λ status. status ≡ specs.status_for (map check_seen chosen.now)) }
    ensures bound { IfOk result (λ status. status ≤ 1) }
{
    if chosen.is_empty() {
        put_nearest(alloc, out, word, checks)?;
        return Ok(NONE);
    }
    put_taken(alloc, out, seen, log, chosen)?;
    Ok(FOUND)
}

/// Appends what is chosen for a word among these checks of a log, or else those that are nearest to
/// it, and returns the exit status.
#[tactic(auto, unfolding(crate::specs::Shown::status_of))]
fn put_matched(
    alloc: Global,
    out: &mut Vec<u8>,
    seen: &Seen,
    log: &[LogLine<'_>],
    word: &[u8],
    checks: &[Check<'_>],
) -> Result<u8, AllocError>
    ensures text { OnOk result (
        out.new.items
        ≡ out.old.items
        ++ specs.matched_text seen.now (map line_seen log.now) word.now
        (map check_seen checks.now)) }
    ensures status { IfOk result (λ status.
        status ≡ specs.status_of word.now (map check_seen checks.now)) }
    ensures bound { IfOk result (λ status. status ≤ 1) }
{
    let chosen = chosen(alloc, word, checks)?;
    put_chosen(alloc, out, seen, log, word, checks, chosen.as_slice())
}

/// Appends what is printed for a word of a log with these checks, and returns the exit status.
#[tactic(auto, unfolding(crate::specs::Shown::printed))]
pub(crate) fn put_printed(
    alloc: Global,
    out: &mut Vec<u8>,
    seen: &Seen,
    log: &[LogLine<'_>],
    word: &[u8],
    checks: &[Check<'_>],
) -> Result<u8, AllocError>
    ensures text { OnOk result (
        out.new.items
        ≡ out.old.items
        ++ specs.printed seen.now (map line_seen log.now) word.now
        (map check_seen checks.now)) }
    ensures status { IfOk result (λ status.
        status ≡ specs.status_of word.now (map check_seen checks.now)) }
    ensures bound { IfOk result (λ status. status ≤ 1) }
{
    let status = put_matched(alloc, out, seen, log, word, checks)?;
    put_defined(out, seen, word)?;
    put_doubt(out, log)?;
    Ok(status)
}
