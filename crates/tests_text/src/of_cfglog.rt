//! cfglog: what is printed, and the text of a log.

use crate::of_deftable::text_of;
use cfglog::{log_text, messages_text};
use conftest::{Job, Words};
use crew_trait::{Entry, Log, Reply};
use deftable::{Bytes, Note, Notes, Stream};
use std::alloc::AllocError;
use test_rows::{Page, ReplyWord, RowCall, cut, reply_word};

fn note_of(page: &mut Page, kind: &[u8], text: &[u8]) -> Note {
    let stream = if kind == b"e".as_slice() {
        Stream::Err
    } else {
        Stream::Out
    };
    let text = text_of(page, text);
    Note { stream, text }
}

fn words_of(page: &mut Page, text: &[u8]) -> Words {
    let mut words = Words::new(page.alloc());
    for word in text.split(|byte| *byte == b' ') {
        page.given(words.push(word));
    }
    words
}

fn file_of(page: &mut Page, program: &[u8]) -> Option<(Bytes, Bytes)> {
    if program.is_empty() {
        return None;
    }
    let name = text_of(page, b"conftest.c");
    let text = text_of(page, program);
    Some((name, text))
}

/// Returns the reply of a word. If it is none, the page is cut.
fn reply_of(page: &mut Page, word: &[u8], diagnostics: &[u8]) -> Reply {
    match reply_word(word) {
        Some(ReplyWord::Answer { status, .. }) => Reply::Answer {
            status,
            text: text_of(page, diagnostics),
        },
        Some(ReplyWord::StartRefused) => Reply::StartRefused,
        Some(ReplyWord::EndRefused) => Reply::EndRefused,
        None => {
            page.cut();
            Reply::EndRefused
        }
    }
}

fn child_of(page: &mut Page, reply: &[u8], text: &[u8]) -> Entry {
    let (words, after) = cut(text, b"|");
    let (diagnostics, program) = cut(after, b"|");
    let file = file_of(page, program);
    let reply = reply_of(page, reply, diagnostics);
    let words = words_of(page, words);
    Entry::Child {
        job: Job { words, file },
        reply,
    }
}

fn entry_of(page: &mut Page, text: &[u8]) -> Entry {
    let (kind, rest) = cut(text, b" ");
    match kind {
        [b'o'] | [b'e'] => Entry::Said(note_of(page, kind, rest)),
        _ => child_of(page, kind, rest),
    }
}

fn log_of(page: &mut Page, text: &[u8]) -> Log {
    let mut log = Log::new(page.alloc());
    for entry in text.split(|byte| *byte == b';') {
        let entry = entry_of(page, entry);
        page.given(log.push(entry));
    }
    log
}

fn notes_of(page: &mut Page, text: &[u8]) -> Notes {
    let mut notes = Notes::new(page.alloc());
    for piece in text.split(|byte| *byte == b';') {
        let (kind, rest) = cut(piece, b" ");
        let note = note_of(page, kind, rest);
        page.given(notes.push(note));
    }
    notes
}

fn put_made(page: &mut Page, made: Result<Vec<u8>, AllocError>) {
    if let Some(made) = page.given(made) {
        page.put(made.as_slice());
    }
}

fn put_log(page: &mut Page, text: &[u8]) {
    let log = log_of(page, text);
    let made = log_text(page.alloc(), log.as_slice());
    put_made(page, made);
}

fn put_stream(page: &mut Page, notes: &[Note], stream: Stream, quiet: bool) {
    let made = messages_text(page.alloc(), notes, stream, quiet);
    put_made(page, made);
}

fn put_messages(page: &mut Page, call: &[u8], notes: &[Note]) {
    match call {
        [b'o', ..] => put_stream(page, notes, Stream::Out, false),
        [b'e', ..] => put_stream(page, notes, Stream::Err, false),
        _ => {
            put_stream(page, notes, Stream::Out, true);
            page.put(b"|");
            put_stream(page, notes, Stream::Err, true);
        }
    }
}

pub struct Logs;

impl RowCall for Logs {
    fn put(&self, page: &mut Page, given: &[u8]) {
        let (_, text) = cut(given, b" ");
        put_log(page, text);
    }
}

pub struct Messages;

impl RowCall for Messages {
    fn put(&self, page: &mut Page, given: &[u8]) {
        let (call, text) = cut(given, b" ");
        let notes = notes_of(page, text);
        put_messages(page, call, notes.as_slice());
    }
}
