//! What is written to streams that take a part of a text, are interrupted or fail, and in which
//! order if two share a sink.

ghost use Rattle.std.specs.Prelude.{◌≤◌, length};

use cmd_call::{Heard, print_all, write_errors};
use crew_tally::Counted;
use deftable::{Bytes, Note, Notes, Stream};
use std::cell::RefCell;
use std::io::{self, ErrorKind, Write};
use std::test::Fail;
use test_rows::{Page, RowCall, cut, number_of, try_rows};
use text_controls::Shown;

// ---- streams

/// A stream that keeps what it takes on a sink, which it may share: its name, and the text in
/// brackets, a pair for each write. Its writes are counted from 1. A write of no text is none.
///
/// `part N` takes at most N bytes of each text. The other words are about the write with this
/// number: `interrupted N` is interrupted, `fails N` fails, and `stops N` takes nothing.
struct Side<'a> {
    sink: &'a RefCell<Page>,
    name: u8,
    word: &'a [u8],
    number: usize,
    writes: usize,
}

impl Drop for Side<'_> {
    fn drop(self) {
        let Side {
            sink: _sink,
            name: _name,
            word: _word,
            number: _number,
            writes: _writes,
        } = self;
    }
}

/// Returns a stream of a sink, with its name and what goes wrong: a word, a blank and a number, or
/// nothing.
fn side_of<'a>(sink: &'a RefCell<Page>, name: u8, how: &'a [u8]) -> Side<'a> {
    let (word, number) = cut(how, b" ");
    Side {
        sink,
        name,
        word,
        number: number_of(number),
        writes: 0,
    }
}

impl Side<'_> {
    fn keep(&self, text: &[u8]) {
        if let Ok(mut page) = self.sink.try_borrow_mut() {
            page.put_byte(self.name);
            page.put_text(text);
        }
    }

    /// Keeps what it takes of a text, and returns how many bytes that are.
    fn take(&self, text: &[u8]) -> usize
        ensures { result ≤ length text.now }
    {
        let most = if self.word == b"part".as_slice() {
            self.number
        } else {
            text.len()
        };
        let len = most.min(text.len());
        self.keep(&text[..len]);
        len
    }
}

impl Write for Side<'_> {
    fn write(&mut self, buf: &[u8]) -> io::Result<usize> {
        if buf.is_empty() {
            return Ok(0);
        }
        self.writes = self.writes.saturating_add(1);
        let is_it = self.writes == self.number;
        match self.word {
            b"interrupted" if is_it => Err(io::Error::from(ErrorKind::Interrupted)),
            b"fails" if is_it => Err(io::Error::from(ErrorKind::BrokenPipe)),
            b"stops" if is_it => Ok(0),
            _ => Ok(self.take(buf)),
        }
    }

    fn flush(&mut self) -> io::Result<()> {
        self.keep(b"flush");
        Ok(())
    }
}

// ---- calls

/// Returns the pieces of a text, with semicolons between them: `o` or `e` for the stream, and the
/// text of the piece.
fn notes_of(page: &mut Page, text: &[u8]) -> Notes {
    let mut notes = Notes::new(page.alloc());
    for piece in text.split(|byte| *byte == b';') {
        let stream = match piece.first() {
            Some(b'e') => Stream::Err,
            _ => Stream::Out,
        };
        let made = Bytes::from_slice(page.alloc(), piece.get(1..).unwrap_or(b""));
        if let Some(text) = page.given(made) {
            page.given(notes.push(Note { stream, text }));
        }
    }
    notes
}

/// Prints pieces and the lines after them, without either on standard output if it is quiet.
fn put_printed(
    page: &mut Page,
    output: &mut Heard<Side<'_>>,
    errors: &mut Heard<Side<'_>>,
    words: &[u8],
) {
    let (pieces, rest) = cut(words, b"|");
    let (lines, quiet) = cut(rest, b"|");
    let notes = notes_of(page, pieces);
    let is_quiet = !quiet.is_empty();
    let alloc = page.alloc();
    let done = print_all(alloc, notes.as_slice(), lines, is_quiet, output, errors);
    page.put_yes(done.is_ok());
}

/// Writes a text, by one write or by as many as it takes, and puts how many bytes were taken, or
/// `yes`. For an error it puts `no`.
fn put_written<W: Write>(page: &mut Page, stream: &mut W, is_once: bool, text: &[u8]) {
    if !is_once {
        return page.put_yes(stream.write_all(text).is_ok());
    }
    match stream.write(text) {
        Ok(len) => page.put_number(len),
        Err(_) => page.put(b"no"),
    }
}

/// Writes texts, with semicolons between them, and flushes the stream.
fn put_texts<W: Write>(page: &mut Page, stream: &mut W, is_once: bool, texts: &[u8]) {
    for text in texts.split(|byte| *byte == b';') {
        put_written(page, stream, is_once, text);
    }
    page.put_yes(stream.flush().is_ok());
}

/// Writes texts to a stream that counts checks, and puts how many there are, and how many the cache
/// answered.
fn put_counted(page: &mut Page, stream: Side<'_>, is_once: bool, texts: &[u8]) {
    let mut counted = Counted::new(stream, true);
    put_texts(page, &mut counted, is_once, texts);
    if let Some(tally) = counted.tally() {
        page.put_shown(&tally.checks());
        page.put_shown(&tally.cached());
    }
}

/// Does what a row asks of these two streams.
fn put_call<'a>(page: &mut Page, verb: &[u8], output: Side<'a>, errors: Side<'a>, words: &[u8]) {
    match verb {
        b"print" => put_printed(
            page,
            &mut Heard::new(output),
            &mut Heard::new(errors),
            words,
        ),
        b"tell" => write_errors(words, &mut Heard::new(errors)),
        b"shown" => put_texts(page, &mut Shown::new(output, true), false, words),
        b"shown once" => put_texts(page, &mut Shown::new(output, true), true, words),
        b"plain" => put_texts(page, &mut Shown::new(output, false), false, words),
        b"counted" => put_counted(page, output, false, words),
        _ => put_counted(page, output, true, words),
    }
}

/// A row has what is called, what goes wrong on standard output and on standard error, and the
/// words of the call, with bars between them. The answer is what the call says, and what is on the
/// sink.
struct Streams;

impl RowCall for Streams {
    fn put(&self, page: &mut Page, given: &[u8]) {
        let (verb, rest) = cut(given, b"|");
        let (output, rest) = cut(rest, b"|");
        let (errors, words) = cut(rest, b"|");
        let sink = RefCell::new(Page::new(page.alloc()));
        put_call(
            page,
            verb,
            side_of(&sink, b'o', output),
            side_of(&sink, b'e', errors),
            words,
        );
        if let Ok(kept) = sink.try_borrow() {
            page.put(kept.text());
        }
    }
}

const CALLS: &[u8] = b"\
// Each piece comes in its place. What is next to each other on standard output is one write.
print|||oa;eE;ob => yeso[a]e[E]o[b]
print|||oa;ob;eE;eF;oc;od|L => yeso[ab]e[E]e[F]o[cdL]
print|||eE;oa|L => yese[E]o[aL]
print|||oa;eE|L => yeso[a]e[E]o[L]
print|||oa;eE => yeso[a]e[E]
print|||eE;oa;eF;ob|L|quiet => yese[E]e[F]
// Standard output takes a part, is interrupted, fails or stops. Then nothing more is written there,
// and the rest on standard error.
print|part 2||oabcde;eE;of|L => yeso[ab]o[cd]o[e]e[E]o[fL]
print|interrupted 1||oa;eE;ob => yeso[a]e[E]o[b]
print|interrupted 2||oa;eE;ob => yeso[a]e[E]o[b]
print|fails 1||oa;eE;ob;eF|L => noe[E]e[F]
print|fails 2||oa;eE;ob;eF;oc|L => noo[a]e[E]e[F]
print|fails 3||oa;eE;ob;eF;oc|L => noo[a]e[E]o[b]e[F]
print|stops 1||oa;eE;ob => noe[E]
// Standard error does. The piece that fails is cut, and the next ones are printed.
print||part 2|oa;eEFGHI;ob;eK => yeso[a]e[EF]e[GH]e[I]o[b]e[K]
print||interrupted 1|eE;oa;eF => yese[E]o[a]e[F]
print||interrupted 2|eE;oa;eF => yese[E]o[a]e[F]
print||fails 1|eE;oa;eF => yeso[a]e[F]
print||fails 2|eE;oa;eF;eG => yese[E]o[a]e[G]
print||stops 1|eE;oa;eF => yeso[a]e[F]
print|fails 1|fails 1|oa;eE;ob;eF => noe[F]
tell||part 3|abcdefgh => e[abc]e[def]e[gh]
tell||interrupted 1|ab => e[ab]
tell||fails 1|ab =>
// Control bytes are shown. A write takes what is before the next one, or that one.
shown|||a^[b;c => yesyesyeso[a]o[\\x1b]o[b]o[c]o[flush]
shown|part 3||abcd^[ => yesyeso[abc]o[d]o[\\x1]o[b]o[flush]
shown|interrupted 2||a^[b => yesyeso[a]o[\\x1b]o[b]o[flush]
shown|fails 2||a^[b;c => noyesyeso[a]o[c]o[flush]
shown once|||ab^[c;^[c => 21yeso[ab]o[\\x1b]o[flush]
shown once|part 1||ab;^[ => 11yeso[a]o[\\]o[x]o[1]o[b]o[flush]
shown once|interrupted 1||ab;ab => no2yeso[ab]o[flush]
shown once|fails 2||ab;cd;e => 2no1yeso[ab]o[e]o[flush]
plain|part 2||a^[b => yesyeso[a^[]o[b]o[flush]
// Only what is taken is counted.
counted|||checking a;checking (cached) b => yesyesyes11o[checking a]o[checking (cached) b]o[flush]
counted|part 4||checking a^Jchecking (cached) b^J => yesyes21\
o[chec]o[king]o[ a^Jc]o[heck]o[ing ]o[(cac]o[hed)]o[ b^J]o[flush]
counted|interrupted 1||checking a => yesyes10o[checking a]o[flush]
counted|fails 1||checking a;checking b => noyesyes10o[checking b]o[flush]
counted once|part 8||checking a^J;^Jchecking b => 88yes00o[checking]o[^Jcheckin]o[flush]
counted once|part 9||checking a^J;^Jchecking b => 99yes10o[checking ]o[^Jchecking]o[flush]
counted once|fails 2||checking a^J;checking b;^J => 11no1yes10o[checking a^J]o[^J]o[flush]
counted once|stops 1||checking a => 0yes00o[flush]
";

#[test]
fn streams_that_fail(rt: HostRuntime) -> Result<(), Fail> {
    try_rows(rt.alloc(), &Streams, CALLS)
}
