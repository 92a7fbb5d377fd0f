//! The errors of a text, one after the other.

ghost use Rattle.std.specs.Prelude.{◌≡◌, ◌≤◌, All, IfOk, IfSome, OnOk};
ghost use Rattle.lint_findings.specs.declared.finding.Severity.TheVariants.{Error};
ghost use Rattle.lint_all.specs.Found as specs;

use crate::masking::{blank, blank_bare, blank_call, innermost};
use ac_calls::CallAt;
use deftable::Bytes;
use lint_errors::{Known, errors_by};
use lint_findings::{Finding, Severity};
use lint_table::{Page, keys};
use lint_text::{after_blanks, first_line, first_name, from, part};
use std::alloc::{AllocError, Global};

/// A call that begins a source.
pub(crate) const INIT: &[u8] = b"AC_INIT([a],[1])\n";

/// The same, and a call that ends one.
pub(crate) const ALL: &[u8] = b"AC_INIT([a],[1])\nAC_OUTPUT\n";

/// A call that ends a source.
pub(crate) const OUTPUT: &[u8] = b"\nAC_OUTPUT\n";

/// How many errors are looked for at most.
const ROUNDS: usize = 2000;

/// What a reading counts for beside the length of what is read.
const READING: usize = 1000;

/// What is the same for all readings of a source.
#[derive(Drop)]
pub(crate) struct WholeSource<'a> {
    /// What is known of the macros that acrun doesn't read.
    pub known: Known<'a>,
    /// The length of the source.
    pub len: usize,
}

/// A text, with its calls and its offset in the source.
#[derive(Clone, Copy)]
pub(crate) struct Piece<'a> {
    pub text: &'a [u8],
    pub calls: &'a [CallAt],
    pub at: usize,
}

/// A copy of a text in which statements with errors become blanks.
#[derive(Drop)]
pub(crate) struct Copy {
    pub text: Vec<u8>,
    /// The length of what was put in front.
    pub base: usize,
}

impl Copy {
    /// Returns a copy of a text with others around it.
    pub(crate) fn new(
        alloc: Global,
        front: &[u8],
        text: &[u8],
        end: &[u8],
    ) -> Result<Copy, AllocError> {
        let mut whole = Vec::from_slice(alloc, front)?;
        whole.extend_from_slice(text)?;
        whole.extend_from_slice(end)?;
        Ok(Copy {
            text: whole,
            base: front.len(),
        })
    }
}

/// Returns whether the code is that of an error that may be in text between calls.
fn is_of_text(code: &[u8]) -> bool {
    code == b"parse-3".as_slice() || code == b"parse-10".as_slice() || code.starts_with(b"parse-6.")
}

/// Returns whether an argument begins at the place.
fn is_argument(calls: &[CallAt], place: usize) -> bool {
    calls
        .iter()
        .any(|call| call.args.iter().any(|arg| arg.start == place))
}

/// Returns whether an error with this code at the place is in text between calls.
fn is_bare(calls: &[CallAt], code: &[u8], place: usize) -> bool {
    is_of_text(code) && !is_argument(calls, place) && !calls.iter().any(|call| call.start == place)
}

/// Blanks what the error at the place is about. Returns whether that changed anything.
fn blank_at(text: &mut [u8], calls: &[CallAt], code: &[u8], place: usize) -> bool {
    if is_bare(calls, code, place) {
        return blank_bare(text, calls, place);
    }
    match innermost(calls, place) {
        Some(call) => blank_call(text, calls, call),
        None => blank_bare(text, calls, place),
    }
}

/// Puts a text in front, if it is not there yet. Returns whether it was put.
fn begin(alloc: Global, copy: &mut Copy) -> Result<bool, AllocError> {
    if copy.base > 0 {
        return Ok(false);
    }
    let begun = Copy::new(alloc, INIT, copy.text.as_slice(), b"")?;
    *copy = begun;
    Ok(true)
}

/// Blanks the call of AC_INIT, which comes too late.
fn blank_init(piece: Piece<'_>, copy: &mut Copy) {
    for call in piece.calls {
        if part(piece.text, call.start, call.name_end) == b"AC_INIT".as_slice() {
            let start = copy.base.saturating_add(call.start);
            let end = copy.base.saturating_add(call.end);
            blank(copy.text.as_mut_slice(), start, end);
            return;
        }
    }
}

/// Appends a text, if it is not there yet. Returns whether it was appended.
fn end(copy: &mut Copy) -> Result<bool, AllocError> {
    if copy.text.as_slice().ends_with(OUTPUT) {
        return Ok(false);
    }
    copy.text.extend_from_slice(OUTPUT)?;
    Ok(true)
}

/// Takes what an error at a place is about out of the copy. Returns whether that changed anything.
fn take_out(
    alloc: Global,
    piece: Piece<'_>,
    copy: &mut Copy,
    code: &[u8],
    place: usize,
) -> Result<bool, AllocError> {
    if code == b"parse-8".as_slice() {
        let is_begun = begin(alloc, copy)?;
        blank_init(piece, copy);
        return Ok(is_begun);
    }
    if code == b"parse-9".as_slice() {
        return end(copy);
    }
    let base = copy.base.min(copy.text.len());
    Ok(blank_at(
        &mut copy.text.as_mut_slice()[base..],
        piece.calls,
        code,
        place,
    ))
}

/// Returns whether the error is that there is no call of a macro that is there, since it was taken
/// out.
fn is_made(piece: Piece<'_>, code: &[u8]) -> bool {
    let name = match code {
        b"parse-8" => b"AC_INIT".as_slice(),
        b"parse-9" => b"AC_OUTPUT".as_slice(),
        _ => return false,
    };
    piece
        .calls
        .iter()
        .any(|call| part(piece.text, call.start, call.name_end) == name)
}

/// Returns the offset in the source of one in a copy of a piece.
fn offset_in_source(whole: &WholeSource<'_>, piece: Piece<'_>, base: usize, at: usize) -> usize
    ensures { result ≤ whole.now.len }
{
    let inner = at.saturating_sub(base).min(piece.text.len());
    piece.at.saturating_add(inner).min(whole.len)
}

/// Returns an error of the source, with these offsets.
fn error_at(finding: Finding, start: usize, end: usize) -> Finding
    ensures { (result.file ≡ 0) × (result.start ≡ start) × (result.end ≡ end)
        × (result.severity ≡ Error) }
{
    let Finding {
        code,
        message,
        help,
        ..
    } = finding;
    Finding {
        file: 0,
        start,
        end,
        severity: Severity::Error,
        code,
        message,
        help,
    }
}

/// Returns an error of a copy of a piece with its place in the source.
fn placed(whole: &WholeSource<'_>, piece: Piece<'_>, base: usize, finding: Finding) -> Finding
    ensures { specs.IsErrorOf whole.now.len result }
{
    let start = offset_in_source(whole, piece, base, finding.start);
    let end = offset_in_source(whole, piece, base, finding.end);
    error_at(finding, start, end.max(start))
}

/// Returns the first error of a text, if it has one.
fn first_error(
    alloc: Global,
    whole: &WholeSource<'_>,
    text: &[u8],
) -> Result<Option<Finding>, AllocError> {
    let mut errors = errors_by(alloc, &whole.known, text)?;
    errors.truncate(1);
    Ok(errors.pop())
}

/// Returns whether a line has nothing but a comment.
fn is_idle(line: &[u8]) -> bool {
    let line = after_blanks(line);
    line.is_empty() || line.starts_with(b"#") || first_name(line) == b"dnl".as_slice()
}

/// Returns the offset of the first line of a text that has more than a comment.
fn first_at(text: &[u8]) -> usize {
    let mut at: usize = 0;
    for line in text.split(|byte| *byte == b'\n') {
        if !is_idle(line) {
            return at;
        }
        at = at.saturating_add(line.len()).saturating_add(1);
    }
    0
}

/// Returns the error that a source has no AC_INIT. Its words don't speak of the copy, in which what
/// is at the start may be blanks.
fn without_init(
    alloc: Global,
    whole: &WholeSource<'_>,
    piece: Piece<'_>,
) -> Result<Finding, AllocError>
    ensures { IfOk result (specs.IsErrorOf whole.now.len) }
{
    let at = first_at(piece.text);
    let start = offset_in_source(whole, piece, 0, at);
    let line = first_line(from(piece.text, at));
    let end = offset_in_source(whole, piece, 0, at.saturating_add(line.len())).max(start);
    let mut page = Page::new(alloc);
    page.put(keys::INIT_NOT_FIRST, &[]);
    let code = Bytes::from_slice(alloc, b"parse-8")?;
    page.finding(code, start, end)
}

/// Returns an error of a copy of a piece as one of the source.
fn of_source(
    alloc: Global,
    whole: &WholeSource<'_>,
    piece: Piece<'_>,
    base: usize,
    error: Finding,
) -> Result<Finding, AllocError>
    ensures { IfOk result (specs.IsErrorOf whole.now.len) }
{
    if error.code.as_slice() == b"parse-8".as_slice() {
        return without_init(alloc, whole, piece);
    }
    Ok(placed(whole, piece, base, error))
}

/// Appends an error of a copy, unless it is that a call is missing which was taken out.
fn push_error(
    alloc: Global,
    whole: &WholeSource<'_>,
    piece: Piece<'_>,
    base: usize,
    error: Finding,
    found: &mut Vec<Finding>,
) -> Result<(), AllocError>
    ensures { OnOk result (specs.KeepsErrors whole.now.len found.old.items found.new.items) }
{
    if is_made(piece, error.code.as_slice()) {
        return Ok(());
    }
    let error = of_source(alloc, whole, piece, base, error)?;
    found.push(error)?;
    Ok(())
}

/// Appends the first error of the copy, and takes out what it is about. Returns whether there may
/// be further ones.
fn add_first(
    alloc: Global,
    whole: &WholeSource<'_>,
    piece: Piece<'_>,
    copy: &mut Copy,
    found: &mut Vec<Finding>,
) -> Result<bool, AllocError>
    ensures { OnOk result (specs.KeepsErrors whole.now.len found.old.items found.new.items) }
{
    let Some(first) = first_error(alloc, whole, copy.text.as_slice())? else {
        return Ok(false);
    };
    let base = copy.base;
    let place = first.start.saturating_sub(base).min(piece.text.len());
    let goes_on = take_out(alloc, piece, copy, first.code.as_slice(), place)?;
    push_error(alloc, whole, piece, base, first, found)?;
    Ok(goes_on)
}

/// Takes what a reading of the copy counts for off what may still be read. Returns whether so much
/// was left.
fn spend(copy: &Copy, left: &mut usize) -> bool {
    let cost = copy.text.len().saturating_add(READING);
    let is_enough = cost <= *left;
    *left = left.saturating_sub(cost);
    is_enough
}

/// Appends the errors of a text, of which there is a copy, as far as so much reading finds them.
/// What they are about becomes blanks in the copy.
pub(crate) fn add_rounds(
    alloc: Global,
    whole: &WholeSource<'_>,
    piece: Piece<'_>,
    copy: &mut Copy,
    left: &mut usize,
    found: &mut Vec<Finding>,
) -> Result<(), AllocError>
    ensures { OnOk result (specs.KeepsErrors whole.now.len found.old.items found.new.items) }
{
    for _ in 0..ROUNDS {
        if !add_first(alloc, whole, piece, copy, found)? || !spend(copy, left) {
            break;
        }
    }
    Ok(())
}
