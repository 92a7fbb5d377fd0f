//! Where the statement at fault begins, in text between calls.

ghost use Rattle.std.specs.Prelude.{◌≡◌, ◌+◌, ◌≤◌, length, IfOk};
ghost use Rattle.lint_errors.specs.Errors as specs;

use lint_marks::{Scan, ShellState};
use m4quote::{Item, QuoteFault, bare_value, read_items_at};
use shell_bare::{BareContext, BareFault, escapes, is_part_end, read_statements};
use shellword::ShellFault;
use std::alloc::{AllocError, Global};

/// A walk over text between calls.
#[derive(Clone, Copy)]
struct PieceWalk {
    /// What is open at the next byte.
    scan: Scan,
    /// The number of bytes of the text's value so far, without its line continuations.
    kept: usize,
    /// The offset after the last end of a statement.
    start: usize,
}

/// Returns whether the byte ends a statement.
fn ends_statement(shell: ShellState, byte: u8) -> bool {
    if shell.is_escaped {
        return false;
    }
    match shell.place {
        BareContext::Start | BareContext::Word => byte == b'\n' || byte == b';',
        BareContext::Comment => byte == b'\n',
        BareContext::Single | BareContext::Double => false,
    }
}

/// Returns how many bytes the value has of a byte, with the backslash before it that quotes it. A
/// backslash and a newline are no part of the value.
fn kept_of(shell: ShellState, byte: u8) -> usize {
    if shell.is_escaped {
        return if byte == b'\n' { 0 } else { 2 };
    }
    usize::from(byte != b'\\' || !escapes(shell.place))
}

/// Returns the walk after the byte at index `i`, with which the text begins.
fn step(walk: PieceWalk, i: usize, byte: u8, text: &[u8]) -> PieceWalk {
    let Scan { shell, .. } = walk.scan;
    let scan = walk.scan.after(text);
    if walk.scan.is_unseen(byte, text) {
        return PieceWalk { scan, ..walk };
    }
    let start = if ends_statement(shell, byte) {
        i.saturating_add(1)
    } else {
        walk.start
    };
    let kept = walk.kept.saturating_add(kept_of(shell, byte));
    PieceWalk { scan, kept, start }
}

/// Returns the number of blanks at the front.
fn blank_len(text: &[u8]) -> usize
    ensures { result ≤ length text.now }
{
    text.iter().take_while(|byte| is_part_end(**byte)).count()
}

/// Returns the start of the statement that has the byte `offset` of the piece's value, without its
/// line continuations.
fn statement_start(piece: &[u8], offset: usize) -> usize
    ensures { result ≤ length piece.now }
{
    let mut walk = PieceWalk {
        scan: Scan::new(),
        kept: 0,
        start: 0,
    };
    for (i, byte) in piece.iter().enumerate() {
        if walk.kept > offset {
            break;
        }
        walk = step(walk, i, *byte, &piece[i..]);
    }
    let start = walk.start.min(piece.len());
    start + blank_len(&piece[start..])
}

/// Returns the number of blanks and comments at the front. A semicolon is a blank, unless it
/// `counts`.
fn idle_len(piece: &[u8], counts: bool) -> usize
    ensures { result ≤ length piece.now }
{
    let mut in_comment = false;
    for (i, byte) in piece.iter().enumerate() {
        if in_comment {
            in_comment = *byte != b'\n';
        } else if *byte == b'#' {
            in_comment = true;
        } else if !is_part_end(*byte) || counts && *byte == b';' {
            return i;
        }
    }
    piece.len()
}

/// Returns the start of the first statement of a piece, or of the first semicolon if it has no
/// statement.
fn first_statement(piece: &[u8]) -> usize
    ensures { result ≤ length piece.now }
{
    let start = idle_len(piece, false);
    if start < piece.len() {
        start
    } else {
        idle_len(piece, true)
    }
}

/// Returns the offset of the first error in a value, without its line continuations, or `None` if
/// it has none.
fn error_in(alloc: Global, value: &[u8]) -> Result<Option<usize>, AllocError> {
    match read_statements(alloc, value) {
        Ok(_) => Ok(None),
        Err(BareFault::OutOfMemory) => Err(AllocError),
        Err(BareFault::UnknownStatement(at)) => Ok(Some(at)),
        Err(BareFault::Shell(ShellFault::BadWord(at))) => Ok(Some(at)),
        Err(BareFault::Shell(_)) => Ok(None),
    }
}

/// Returns the start of the first statement of a piece that isn't read, or of its first one if all
/// are.
fn refused_in(alloc: Global, piece: &[u8]) -> Result<usize, AllocError>
    ensures { IfOk result (λ n. n ≤ length piece.now) }
{
    match bare_value(alloc, piece) {
        Err(QuoteFault::OutOfMemory) => Err(AllocError),
        Err(_) => Ok(0),
        Ok(value) => match error_in(alloc, &value)? {
            Some(offset) => Ok(statement_start(piece, offset)),
            None => Ok(first_statement(piece)),
        },
    }
}

/// Returns the length of the text between calls at the front of the items of a text at `at`.
fn first_len(items: &[Item<'_>], at: usize) -> usize {
    match items.first() {
        Some(Item::Bare { text, at: place }) if *place == at => text.len(),
        _ => 0,
    }
}

/// Returns the length of the text between calls at the front of a text at `at`: up to the first
/// call, or up to the first error of quotes.
fn piece_len(alloc: Global, text: &[u8], at: usize) -> Result<usize, AllocError>
    requires { at + length text.now ≤ usize.MAX }
{
    match read_items_at(alloc, text, at) {
        Ok(items) => Ok(first_len(&items, at)),
        Err(QuoteFault::OutOfMemory) => Err(AllocError),
        Err(QuoteFault::StrayClose(stop)) => stopped_len(alloc, text, at, stop.saturating_sub(at)),
        Err(_) => Ok(0),
    }
}

/// Returns the same for the first `len` bytes.
fn stopped_len(alloc: Global, text: &[u8], at: usize, len: usize) -> Result<usize, AllocError>
    requires { at + length text.now ≤ usize.MAX }
{
    match read_items_at(alloc, &text[..len.min(text.len())], at) {
        Ok(items) => Ok(first_len(&items, at)),
        Err(QuoteFault::OutOfMemory) => Err(AllocError),
        Err(_) => Ok(0),
    }
}

/// Returns the start of the first statement that isn't read in the text between calls that begins
/// at `at`, or, if no statement may be there, of the first one or the first semicolon. If no text
/// begins there, returns `at`.
pub(crate) fn statement_after(
    alloc: Global,
    text: &[u8],
    at: usize,
    may_be_there: bool,
) -> Result<usize, AllocError>
    ensures { IfOk result (specs.IsAfter at (length text.now)) }
{
    if at >= text.len() {
        return Ok(at);
    }
    let rest = &text[at..];
    let len = piece_len(alloc, rest, at)?.min(rest.len());
    let start = if may_be_there {
        refused_in(alloc, &rest[..len])?
    } else {
        idle_len(&rest[..len], true)
    };
    Ok(at + start)
}
