//! A line with a mark under a part of it.

ghost use Rattle.std.specs.Prelude.{◌≡◌};

use crate::draft::Draft;
use bstr::ByteSlice;
use text_controls::is_mark;
use unicode_width::UnicodeWidthChar;

/// The most bytes of a line that are shown.
const LONGEST: usize = 160;

/// A line in three parts: before what is marked, what is marked, and after it.
#[derive(Clone, Copy)]
pub(crate) struct Marked<'a> {
    front: &'a [u8],
    marked: &'a [u8],
    back: &'a [u8],
    is_cut_before: bool,
    is_cut_after: bool,
}

/// Returns the text from an offset on, which is empty if the offset is after its end.
pub(crate) fn from(text: &[u8], at: usize) -> &[u8] {
    &text[at.min(text.len())..]
}

/// Returns the text before an offset.
pub(crate) fn before(text: &[u8], at: usize) -> &[u8] {
    &text[..at.min(text.len())]
}

/// Returns the offset of the first byte, from this one on, that begins a character, or at which
/// there is no UTF-8.
fn next_boundary(text: &[u8], at: usize) -> usize {
    let len = from(text, at)
        .iter()
        .take(3)
        .take_while(|byte| **byte >> 6 == 2)
        .count();
    at.saturating_add(len)
}

/// Cuts a long line, so that the start of the mark is shown.
fn cut<'a>(front: &'a [u8], marked: &'a [u8], back: &'a [u8]) -> Marked<'a> {
    let lost = front.len().saturating_sub(LONGEST / 2);
    let shown = from(front, next_boundary(front, lost));
    let room = LONGEST.saturating_sub(shown.len());
    let kept = before(marked, room);
    let rest = before(back, room.saturating_sub(marked.len()));
    Marked {
        front: shown,
        marked: kept,
        back: rest,
        is_cut_before: lost > 0,
        is_cut_after: kept.len() < marked.len() || rest.len() < back.len(),
    }
}

impl<'a> Marked<'a> {
    /// Returns a line whose bytes from `start` up to `end` are marked.
    pub(crate) fn new(line: &'a [u8], start: usize, end: usize) -> Marked<'a> {
        let front = before(line, start);
        let marked = from(before(line, end), start);
        let back = from(line, end.max(start));
        if line.len() > LONGEST {
            return cut(front, marked, back);
        }
        Marked {
            front,
            marked,
            back,
            is_cut_before: false,
            is_cut_after: false,
        }
    }

    /// Writes the line.
    pub(crate) fn put_line(&self, draft: &mut Draft)
        ensures { draft.new ≡ draft.old }
    {
        if self.is_cut_before {
            draft.put(b"..");
        }
        put_shown(draft, self.front);
        put_shown(draft, self.marked);
        put_shown(draft, self.back);
        if self.is_cut_after {
            draft.put(b"..");
        }
    }

    /// Writes what is under the line before the mark.
    pub(crate) fn put_space(&self, draft: &mut Draft)
        ensures { draft.new ≡ draft.old }
    {
        if self.is_cut_before {
            draft.put(b"  ");
        }
        put_under(draft, self.front, b' ');
    }

    /// Writes the mark. What has no column is marked by one.
    pub(crate) fn put_mark(&self, draft: &mut Draft)
        ensures { draft.new ≡ draft.old }
    {
        if self.marked.is_empty() {
            draft.put(b"^");
        } else {
            put_under(draft, self.marked, b'^');
        }
    }
}

/// Returns the columns that a character of UTF-8 takes, or `None` if it is not shown as it is.
fn columns_of(c: char, bytes: &[u8]) -> Option<usize> {
    if is_mark(c as u32) || c == '\u{fffd}' && bytes != b"\xef\xbf\xbd".as_slice() {
        return None;
    }
    c.width()
}

/// Writes a text, with control bytes, bytes that are no UTF-8, and characters that turn or hide text
/// as `\xNN`. Tabs stay.
pub(crate) fn put_shown(draft: &mut Draft, text: &[u8])
    ensures { draft.new ≡ draft.old }
{
    for (start, end, c) in text.char_indices() {
        let bytes = from(before(text, end), start);
        if c == '\t' || columns_of(c, bytes).is_some() {
            draft.put(bytes);
        } else {
            draft.put_hex(bytes);
        }
    }
}

/// Writes the byte in each column that the text takes when it is shown. Tabs stay.
fn put_under(draft: &mut Draft, text: &[u8], byte: u8)
    ensures { draft.new ≡ draft.old }
{
    for (start, end, c) in text.char_indices() {
        let bytes = from(before(text, end), start);
        if c == '\t' {
            draft.put(b"\t");
        } else {
            let columns = match columns_of(c, bytes) {
                Some(columns) => columns,
                None => bytes.len().saturating_mul(4),
            };
            draft.put_times(byte, columns);
        }
    }
}
