//! Above which line a comment about a place can be.

use ac_calls::{CallAt, Extent};
use bstr::ByteSlice;
use lint_marks::Scan;
use lint_text::{after_blanks, first_line, first_word, from, without_end_blanks};
use std::alloc::{AllocError, Global};

/// What a line of comment begins with.
pub(crate) const FRONT: &[u8] = b"dnl acrun: ";

/// How often the place of a comment is sought further up.
const TRIES: usize = 200;

/// A line of the text.
#[derive(Clone, Copy)]
pub(crate) struct Line {
    /// The offset of its first byte.
    pub start: usize,
    /// The offset of the first line that is no comment of ours, from this line on.
    pub below: usize,
    /// The offset of the innermost call that is open at its start, if one is.
    call: Option<usize>,
    /// The offset after the argument of that call which is open too, if that argument begins with a
    /// bracket, or 0.
    arg_end: usize,
    /// The offset of the bracket that is open within that argument, or between calls, if one is.
    bracket: Option<usize>,
    /// The offset of the quote of the shell that is open there and that is closed before the next
    /// call, if one is.
    quote: Option<usize>,
    /// The offset of the first of the lines before it that go on with the next one, if the last line
    /// does.
    front: Option<usize>,
}

/// What is open within an argument, or between calls.
#[derive(Clone, Copy)]
struct Opened {
    scan: Scan,
    /// The offset of the last bracket that is in no other.
    bracket: usize,
    /// The offset of the last quote of the shell.
    quote: usize,
}

impl Opened {
    /// Returns what is open at the start of an argument or after a call.
    fn new() -> Opened {
        Opened {
            scan: Scan::new(),
            bracket: 0,
            quote: 0,
        }
    }

    /// Returns the offset of the bracket that is open, if one is.
    fn open_bracket(&self) -> Option<usize> {
        if self.scan.quotes.depth > 0 {
            Some(self.bracket)
        } else {
            None
        }
    }

    /// Returns the offset of the quote of the shell that is open, if one is.
    fn open_quote(&self) -> Option<usize> {
        if self.scan.shell.is_quoted() {
            Some(self.quote)
        } else {
            None
        }
    }

    /// Reads the byte at an offset.
    fn read(&mut self, text: &[u8], at: usize) {
        let before = self.scan;
        self.scan.read(from(text, at));
        if before.quotes.depth == 0 {
            self.bracket = at;
        }
        if !before.shell.is_quoted() {
            self.quote = at;
        }
    }
}

/// A call that is open: its index, and that of its argument.
#[derive(Clone, Copy)]
struct Open {
    call: usize,
    arg: usize,
}

/// The calls that are open at a place, outermost first, the index of the next call, and the lines
/// so far.
#[derive(Drop)]
struct LineWalk {
    open: Vec<Open>,
    next: usize,
    opened: Opened,
    lines: Vec<Line>,
}

/// Takes a quote of the shell that isn't closed out of the lines.
fn forget_quote(lines: &mut [Line], quote: usize) {
    for i in (0..lines.len()).rev() {
        if lines[i].quote != Some(quote) {
            return;
        }
        lines[i].quote = None;
    }
}

/// Begins to read other text between calls.
fn restart(walk: &mut LineWalk) {
    if let Some(quote) = walk.opened.open_quote() {
        forget_quote(&mut walk.lines, quote);
    }
    walk.opened = Opened::new();
}

/// Takes out the calls that end before an offset.
fn close_calls(calls: &[CallAt], at: usize, walk: &mut LineWalk) {
    for _ in 0..calls.len() {
        let Some(last) = walk.open.last() else {
            return;
        };
        if calls.get(last.call).is_some_and(|call| at < call.end) {
            return;
        }
        walk.open.pop();
        restart(walk);
    }
}

/// Returns whether an argument begins with a bracket. Without one, a line of comment would be a
/// part of it.
fn is_quoted(text: &[u8], arg: &Extent) -> bool {
    text.get(arg.start) == Some(&b'[')
}

/// Returns the offset at which what is in an argument begins: after its bracket, if it has one.
fn inner_start(text: &[u8], arg: &Extent) -> usize {
    arg.start.saturating_add(usize::from(is_quoted(text, arg)))
}

/// Goes on to the next argument of the innermost call, if one ends before an offset. Returns
/// whether what is in it begins there.
fn is_at_argument(text: &[u8], calls: &[CallAt], at: usize, open: &mut [Open]) -> bool {
    let Some(last) = open.last_mut() else {
        return false;
    };
    let Some(call) = calls.get(last.call) else {
        return false;
    };
    if call.args.get(last.arg).is_some_and(|arg| arg.end <= at) {
        last.arg = last.arg.saturating_add(1);
    }
    call.args
        .get(last.arg)
        .is_some_and(|arg| inner_start(text, arg) == at)
}

/// Adds the calls that begin before an offset.
fn open_calls(calls: &[CallAt], at: usize, walk: &mut LineWalk) -> Result<(), AllocError> {
    for index in walk.next..calls.len() {
        if calls[index].start >= at {
            break;
        }
        walk.open.push(Open {
            call: index,
            arg: 0,
        })?;
        walk.next = index.saturating_add(1);
        restart(walk);
    }
    Ok(())
}

/// Returns the argument that is open, if it begins with a bracket.
fn open_argument<'a>(
    text: &[u8],
    calls: &'a [CallAt],
    open: Open,
    at: usize,
) -> Option<&'a Extent> {
    let call = calls.get(open.call)?;
    let arg = call.args.get(open.arg)?;
    if arg.start < at && is_quoted(text, arg) {
        Some(arg)
    } else {
        None
    }
}

/// Returns whether a line begins with the condition of an `if`, which doesn't end on it.
fn begins_condition(line: &[u8]) -> bool {
    let word = first_word(line);
    let is_if = word == b"if".as_slice() || word == b"elif".as_slice();
    is_if && line.find(b"then").is_none()
}

/// Returns whether the shell takes the next line for a part of the statement on this one.
fn goes_on(line: &[u8]) -> bool {
    let rest = after_blanks(line);
    let line = without_end_blanks(rest);
    let is_comment = rest.starts_with(b"#") || rest.starts_with(b"dnl");
    let is_joined = line.ends_with(b"&&") || line.ends_with(b"||") || line.ends_with(b"\\");
    (is_joined || begins_condition(line)) && !is_comment
}

/// Returns the offset of the first of these lines, if each of them goes on with the next one.
fn front_of(text: &[u8], lines: &[Line]) -> Option<usize> {
    let last = lines.last()?;
    if goes_on(first_line(from(text, last.start))) {
        Some(last.front.unwrap_or(last.start))
    } else {
        None
    }
}

/// Returns the line that begins at an offset.
fn line_at(text: &[u8], calls: &[CallAt], at: usize, walk: &LineWalk) -> Line {
    let mut line = Line {
        start: at,
        below: at,
        call: None,
        arg_end: 0,
        bracket: walk.opened.open_bracket(),
        quote: walk.opened.open_quote(),
        front: front_of(text, walk.lines.as_slice()),
    };
    if let Some(open) = walk.open.last() {
        line.call = calls.get(open.call).map(|call| call.start);
        line.arg_end = open_argument(text, calls, *open, at).map_or(0, |arg| arg.end);
    }
    line
}

/// Goes on to an offset, and adds a line if one begins there.
fn go_to(
    text: &[u8],
    calls: &[CallAt],
    at: usize,
    is_start: bool,
    walk: &mut LineWalk,
) -> Result<(), AllocError> {
    close_calls(calls, at, walk);
    open_calls(calls, at, walk)?;
    if is_at_argument(text, calls, at, &mut walk.open) {
        restart(walk);
    }
    if is_start {
        let line = line_at(text, calls, at, walk);
        walk.lines.push(line)?;
    }
    Ok(())
}

/// Returns the lines of a text with these calls.
fn plain_lines(alloc: Global, text: &[u8], calls: &[CallAt]) -> Result<Vec<Line>, AllocError> {
    let mut walk = LineWalk {
        open: Vec::new(alloc),
        next: 0,
        opened: Opened::new(),
        lines: Vec::new(alloc),
    };
    let mut is_start = true;
    for at in 0..text.len() {
        go_to(text, calls, at, is_start, &mut walk)?;
        is_start = text[at] == b'\n';
        walk.opened.read(text, at);
    }
    go_to(text, calls, text.len(), is_start, &mut walk)?;
    restart(&mut walk);
    let LineWalk { lines, .. } = walk;
    Ok(lines)
}

/// Returns the offset of the first line after this one that is no comment of ours, or of this one
/// if it is the last.
fn below_next(lines: &[Line], index: usize) -> usize {
    match lines.get(index.saturating_add(1)) {
        Some(line) => line.below,
        None => lines.get(index).map_or(0, |line| line.start),
    }
}

/// Returns the lines of a text with these calls.
pub(crate) fn lines_of(
    alloc: Global,
    text: &[u8],
    calls: &[CallAt],
) -> Result<Vec<Line>, AllocError> {
    let mut lines = plain_lines(alloc, text, calls)?;
    for i in (0..lines.len()).rev() {
        if from(text, lines[i].start).starts_with(FRONT) {
            lines[i].below = below_next(lines.as_slice(), i);
        }
    }
    Ok(lines)
}

/// Returns the line that has a place, if there is one.
fn line_with(lines: &[Line], place: usize) -> Option<&Line> {
    let mut low = 0;
    let mut high = lines.len();
    for _ in 0..64 {
        if high.saturating_sub(low) < 2 {
            break;
        }
        let middle = low.saturating_add(high.saturating_sub(low) / 2);
        match lines.get(middle) {
            Some(line) if line.start <= place => low = middle,
            _ => high = middle,
        }
    }
    lines.get(low)
}

/// Returns a place further up, if no comment can be at this line, which is that of the place.
fn further_up(line: &Line, place: usize) -> Option<usize> {
    match line.call {
        Some(call) if line.arg_end <= place => Some(call),
        _ => line.bracket.or(line.quote).or(line.front),
    }
}

/// Returns the start of the line above which a comment about the place can be: the line of the
/// place, or an earlier one if that one is within an argument or quotes, or if the line before it
/// goes on with it. Lines of comment that are there stay above it.
pub(crate) fn comment_line(lines: &[Line], place: usize) -> usize {
    let mut place = place;
    for _ in 0..TRIES {
        let Some(line) = line_with(lines, place) else {
            return 0;
        };
        match further_up(line, place) {
            None => return line.below,
            Some(up) => place = up,
        }
    }
    0
}
