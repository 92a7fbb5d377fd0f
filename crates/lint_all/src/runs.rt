//! The errors of the pieces of a source.

ghost use Rattle.std.specs.Prelude.{OnOk};
ghost use Rattle.lint_all.specs.Found as specs;

use crate::pieces::starts_of;
use crate::rounds::{ALL, Copy, INIT, OUTPUT, Piece, WholeSource, add_rounds};
use ac_calls::{CallAt, calls_of};
use ac_statement::ParseFault;
use acparse::parse;
use lint_findings::Finding;
use lint_text::part;
use std::alloc::{AllocError, Global};

/// The pieces of a source.
#[derive(Drop)]
struct Pieces {
    /// Where each begins.
    starts: Vec<usize>,
    /// The length of the source.
    len: usize,
    /// The offsets of the first call of AC_INIT, and of the first of AC_OUTPUT, or that after the
    /// source.
    init: usize,
    output: usize,
}

impl Pieces {
    /// Returns the offset at which a piece begins, or the end of the source.
    fn start(&self, index: usize) -> usize {
        match self.starts.get(index) {
            Some(start) => *start,
            None => self.len,
        }
    }

    /// Returns whether the piece begins or ends the source.
    fn is_frame(&self, index: usize) -> bool {
        let start = self.start(index);
        let end = self.start(index.saturating_add(1));
        start <= self.init && self.init < end || start <= self.output && self.output < end
    }

    /// Returns the index after a run of so many pieces, or of fewer if one of them begins or ends
    /// the source.
    fn run_end(&self, first: usize, size: usize) -> usize {
        let mut end = first.saturating_add(1);
        for index in end..first.saturating_add(size).min(self.starts.len()) {
            if self.is_frame(index) {
                break;
            }
            end = index.saturating_add(1);
        }
        end
    }
}

/// Returns the offset of the first call of a macro that is in no other call, or that after the
/// text.
fn start_of_call(text: &[u8], calls: &[CallAt], name: &[u8]) -> usize {
    let mut reach = 0;
    for call in calls {
        if reach <= call.start {
            if part(text, call.start, call.name_end) == name {
                return call.start;
            }
            reach = call.end;
        }
    }
    text.len()
}

/// Returns a copy of the text of a run of pieces that can be read as a source.
fn run_copy(
    alloc: Global,
    text: &[u8],
    pieces: &Pieces,
    start: usize,
    end: usize,
) -> Result<Copy, AllocError> {
    let run = part(text, start, end);
    if start > pieces.output {
        Copy::new(alloc, ALL, run, b"")
    } else {
        Copy::new(alloc, INIT, run, OUTPUT)
    }
}

/// Returns whether the copy has no fault.
fn is_read(alloc: Global, copy: &Copy) -> Result<bool, AllocError> {
    match parse(alloc, copy.text.as_slice()) {
        Ok(_) => Ok(true),
        Err(ParseFault::OutOfMemory) => Err(AllocError),
        Err(_) => Ok(false),
    }
}

/// Appends the errors of a text at an offset, and makes blanks of what they are about in its copy.
fn add_copied(
    alloc: Global,
    whole: &WholeSource<'_>,
    text: &[u8],
    at: usize,
    copy: &mut Copy,
    left: &mut usize,
    found: &mut Vec<Finding>,
) -> Result<(), AllocError>
    ensures { OnOk result (specs.KeepsErrors whole.now.len found.old.items found.new.items) }
{
    let calls = calls_of(alloc, text)?;
    let piece = Piece {
        text,
        calls: calls.as_slice(),
        at,
    };
    add_rounds(alloc, whole, piece, copy, left, found)
}

/// Writes what a copy has in the place of a text back to an offset.
fn put_back(text: &mut [u8], at: usize, copy: &Copy) {
    let mut from = copy.base;
    for i in at..text.len() {
        match copy.text.get(from) {
            Some(byte) => text[i] = *byte,
            None => return,
        }
        from = from.saturating_add(1);
    }
}

/// Which pieces are read next.
#[derive(Clone, Copy)]
struct Next {
    first: usize,
    /// How many.
    size: usize,
    /// Whether more are read each time, as no error was found since the last.
    grows: bool,
}

impl Next {
    /// Goes on after the pieces before an index, in which there is no error.
    fn accept(&mut self, end: usize) {
        self.first = end;
        self.size = if self.grows {
            self.size.saturating_mul(2)
        } else {
            (self.size / 2).max(1)
        };
    }

    /// Goes on with half as many, as there is an error in so many.
    fn refuse(&mut self, size: usize) {
        self.size = (size / 2).max(1);
        self.grows = false;
    }

    /// Goes on after a piece that has errors.
    fn restart(&mut self, end: usize) {
        self.first = end;
        self.size = 1;
        self.grows = true;
    }
}

/// Appends the errors of one piece, and makes blanks of what they are about.
fn add_piece(
    alloc: Global,
    whole: &WholeSource<'_>,
    text: &mut Vec<u8>,
    pieces: &Pieces,
    next: &mut Next,
    left: &mut usize,
    found: &mut Vec<Finding>,
) -> Result<(), AllocError>
    ensures { OnOk result (specs.KeepsErrors whole.now.len found.old.items found.new.items) }
{
    let start = pieces.start(next.first);
    let end = pieces.start(next.first.saturating_add(1)).min(text.len());
    let before = found.len();
    let mut copy = run_copy(alloc, text.as_slice(), pieces, start, end)?;
    add_copied(
        alloc,
        whole,
        part(text.as_slice(), start, end),
        start,
        &mut copy,
        left,
        found,
    )?;
    if found.len() == before {
        next.accept(next.first.saturating_add(1));
    } else {
        put_back(&mut text.as_mut_slice()[..end], start, &copy);
        next.restart(next.first.saturating_add(1));
    }
    Ok(())
}

/// Reads some pieces at once, and goes on after them if they have no error.
fn read_run(
    alloc: Global,
    text: &[u8],
    pieces: &Pieces,
    next: &mut Next,
    end: usize,
) -> Result<(), AllocError> {
    let copy = run_copy(
        alloc,
        text,
        pieces,
        pieces.start(next.first),
        pieces.start(end),
    )?;
    if is_read(alloc, &copy)? {
        next.accept(end);
    } else {
        next.refuse(end.saturating_sub(next.first));
    }
    Ok(())
}

/// Goes on by some pieces.
fn go_on(
    alloc: Global,
    whole: &WholeSource<'_>,
    text: &mut Vec<u8>,
    pieces: &Pieces,
    next: &mut Next,
    left: &mut usize,
    found: &mut Vec<Finding>,
) -> Result<(), AllocError>
    ensures { OnOk result (specs.KeepsErrors whole.now.len found.old.items found.new.items) }
{
    if pieces.is_frame(next.first) {
        next.restart(next.first.saturating_add(1));
        return Ok(());
    }
    let end = pieces.run_end(next.first, next.size);
    if end <= next.first.saturating_add(1) {
        add_piece(alloc, whole, text, pieces, next, left, found)
    } else {
        read_run(alloc, text.as_slice(), pieces, next, end)
    }
}

/// Appends the errors of the pieces of a text with these calls, but for those that begin and end
/// the source, as far as so much reading finds them. What they are about becomes blanks.
pub(crate) fn add_pieces(
    alloc: Global,
    whole: &WholeSource<'_>,
    text: &mut Vec<u8>,
    calls: &[CallAt],
    left: &mut usize,
    found: &mut Vec<Finding>,
) -> Result<(), AllocError>
    ensures { OnOk result (specs.KeepsErrors whole.now.len found.old.items found.new.items) }
{
    let pieces = Pieces {
        starts: starts_of(alloc, text.as_slice(), calls)?,
        len: text.len(),
        init: start_of_call(text.as_slice(), calls, b"AC_INIT"),
        output: start_of_call(text.as_slice(), calls, b"AC_OUTPUT"),
    };
    let mut next = Next {
        first: 0,
        size: 1,
        grows: true,
    };
    for _ in 0..pieces.starts.len().saturating_mul(64) {
        if next.first >= pieces.starts.len() {
            break;
        }
        go_on(alloc, whole, text, &pieces, &mut next, left, found)?;
    }
    Ok(())
}
