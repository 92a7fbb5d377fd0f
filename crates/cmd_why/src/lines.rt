//! The checks of a log, and which lines are a check's.

ghost use Rattle.std.specs.Prelude.{◌≡◌, ◌++◌, ◌<◌, ◌-◌, ◌^◌, ℕ, List, is_some, map, option_map, IfOk, OnOk};
ghost use Rattle.cfglog.specs.declared.forms.LineKind.{LineKind};
ghost use Rattle.cmd_why.specs.Lines as specs;
ghost use Rattle.cmd_why.specs.Views.{check_seen, line_seen};

use cfglog::{Line, LineKind};
use std::alloc::{AllocError, Global};

/// A line of a log, and how many children have begun before its end.
#[derive(Clone, Copy)]
pub(crate) struct LogLine<'a> {
    pub(crate) part: LineKind,
    pub(crate) text: &'a [u8],
    pub(crate) child: usize,
}

/// A check of a log.
#[derive(Clone, Copy)]
pub(crate) struct Check<'a> {
    /// What is checked.
    pub(crate) message: &'a [u8],
    /// The lines after its first one.
    pub(crate) rest: &'a [LogLine<'a>],
}

/// Returns how many children have begun after a line.
fn begun_after(child: usize, part: LineKind) -> usize
    requires { child < 2 ^ 64 - 1 }
    ensures { result ≡ specs.begun_after child part }
{
    match part {
        LineKind::Command => child + 1,
        _ => child,
    }
}

/// Returns the lines of a log, each with the number of children.
pub(crate) fn counted<'a>(alloc: Global, lines: &[Line<'a>]) -> Result<Vec<LogLine<'a>>, AllocError>
    ensures { IfOk result (λ v.
        map line_seen v.items
        ≡ specs.counted 0
        (map {B = LineKind × List ℕ} (λ line. (line.part, line.text.now)) lines.now)) }
{
    let mut counted = Vec::new(alloc);
    let mut child = 0usize;
    for line in lines {
        child = begun_after(child, line.part);
        counted.push(LogLine {
            part: line.part,
            text: line.text,
            child,
        })?;
    }
    Ok(counted)
}

/// Returns the text after this front, if it has it.
#[tactic(auto, using(deftable::proofs::Fronts::stripped), unfolding(crate::specs::Lines::after_front))]
pub(crate) fn after_front<'a>(front: &[u8], text: &'a [u8]) -> Option<&'a [u8]>
    ensures { option_map (λ t. t.now) result ≡ specs.after_front front.now text.now }
{
    text.strip_prefix(front)
}

/// Returns the text before this end, if it has it.
#[tactic(auto, using(crate::proofs::Ends::before_end_is))]
fn before_end<'a>(back: &[u8], text: &'a [u8]) -> Option<&'a [u8]>
    ensures { option_map (λ t. t.now) result ≡ specs.before_end back.now text.now }
{
    text.strip_suffix(back)
}

/// Returns what is between a front and an end of the text, if it has both.
pub(crate) fn between<'a>(front: &[u8], back: &[u8], text: &'a [u8]) -> Option<&'a [u8]>
    ensures { option_map (λ t. t.now) result ≡ specs.between front.now back.now text.now }
{
    match after_front(front, text) {
        Some(rest) => before_end(back, rest),
        None => None,
    }
}

/// Returns what is checked, if the line begins a check.
#[tactic(auto, unfolding(crate::specs::Lines::message_in))]
pub(crate) fn message_of<'a>(part: LineKind, text: &'a [u8]) -> Option<&'a [u8]>
    ensures { option_map (λ t. t.now) result ≡ specs.message_in part text.now }
{
    match part {
        LineKind::Message => between(b"checking ", b"... \n", text),
        _ => None,
    }
}

/// Returns whether a line begins a check.
fn begins(line: &LogLine<'_>) -> bool
    ensures { result ≡ is_some (specs.message_of (line_seen line.now)) }
{
    message_of(line.part, line.text).is_some()
}

/// Returns whether a line is an error, a warning or a notice of the run.
fn is_note(line: &LogLine<'_>) -> bool
    ensures { result ≡ specs.is_note (line_seen line.now) }
{
    match line.part {
        LineKind::Message => line.text.starts_with(b"configure: "),
        _ => false,
    }
}

/// Returns whether a line is a message.
fn is_message(line: &LogLine<'_>) -> bool
    ensures { result ≡ specs.is_message line.now.part }
{
    match line.part {
        LineKind::Message => true,
        _ => false,
    }
}

/// Returns whether a line is an answer.
#[tactic(auto, unfolding(crate::specs::Lines::is_answer))]
pub(crate) fn is_answer(line: &LogLine<'_>) -> bool
    ensures { result ≡ specs.is_answer (line_seen line.now) }
{
    is_message(line) && !begins(line) && !is_note(line)
}

/// Returns the answer of a check, by the lines after its first one, if it has one.
pub(crate) fn answer_in<'a>(rest: &[LogLine<'a>]) -> Option<&'a [u8]>
    ensures { option_map (λ t. t.now) result ≡ specs.answer_in 0 (map line_seen rest.now) }
{
    let mut inner = 0usize;
    for line in rest {
        if begins(line) {
            inner += 1;
        } else if is_answer(line) {
            if inner == 0 {
                return Some(line.text);
            }
            inner -= 1;
        }
    }
    None
}

/// Returns the lines of a check, by those after its first one.
pub(crate) fn own<'a>(alloc: Global, rest: &[LogLine<'a>]) -> Result<Vec<LogLine<'a>>, AllocError>
    ensures { IfOk result (λ v. map line_seen v.items ≡ specs.own 0 (map line_seen rest.now)) }
{
    let mut lines = Vec::new(alloc);
    let mut inner = 0usize;
    for line in rest {
        if begins(line) {
            inner += 1;
        } else if is_answer(line) {
            if inner == 0 {
                return Ok(lines);
            }
            inner -= 1;
        } else if inner == 0 {
            lines.push(*line)?;
        }
    }
    Ok(lines)
}

/// Appends the check that a line begins, if it begins one.
fn put_check<'a>(
    checks: &mut Vec<Check<'a>>,
    line: &LogLine<'a>,
    rest: &'a [LogLine<'a>],
) -> Result<(), AllocError>
    ensures { OnOk result (
        map check_seen checks.new.items
        ≡ map check_seen checks.old.items
        ++ specs.check_at (specs.message_of (line_seen line.now))
        (map line_seen rest.now)) }
{
    if let Some(message) = message_of(line.part, line.text) {
        checks.push(Check { message, rest })?;
    }
    Ok(())
}

/// Returns the checks of a log, in the order of their first lines.
pub(crate) fn checks_of<'a>(
    alloc: Global,
    lines: &'a [LogLine<'a>],
) -> Result<Vec<Check<'a>>, AllocError>
    ensures { IfOk result (λ v. map check_seen v.items ≡ specs.checks (map line_seen lines.now)) }
{
    let mut checks = Vec::new(alloc);
    for at in 0..lines.len() {
        put_check(&mut checks, &lines[at], &lines[at + 1..])?;
    }
    Ok(checks)
}

/// Returns whether one of these lines is an error, a warning or a notice of the run.
fn has_note(lines: &[LogLine<'_>]) -> bool
    ensures { result ≡ specs.has_note (map line_seen lines.now) }
{
    for line in lines {
        if is_note(line) {
            return true;
        }
    }
    false
}

/// Returns whether lines with these checks have something of a run.
#[tactic(auto, unfolding(crate::specs::Lines::is_run))]
pub(crate) fn is_run(checks: &[Check<'_>], lines: &[LogLine<'_>]) -> bool
    ensures { result ≡ specs.is_run (map check_seen checks.now) (map line_seen lines.now) }
{
    !checks.is_empty() || has_note(lines)
}
