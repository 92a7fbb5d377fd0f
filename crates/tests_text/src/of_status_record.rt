//! status_record: records that are read and written again, and the faults of other texts.

use deftable::{Bytes, Defs, Texts};
use status_record::{OutputList, Record, read_record, write_record};
use std::alloc::Global;
use test_rows::escaped::value_or_fault;
use test_rows::{Page, RowCall, cut, put_fronts};

fn put_defs(page: &mut Page, defs: &Defs) {
    for i in 0..defs.len() {
        let (name, value) = defs.at(i);
        page.put(name);
        page.put_text(value);
        page.put(b";");
    }
}

fn put_outputs(page: &mut Page, outputs: &OutputList) {
    for output in outputs.as_slice() {
        page.put(output.name.as_slice());
        page.put_text(output.template.as_slice());
        page.put(b";");
    }
}

fn put_args(page: &mut Page, args: &Texts) {
    page.put(b"args");
    for arg in args.as_slice() {
        page.put_text(arg.as_slice());
    }
    page.put(b";");
}

fn put_record(page: &mut Page, status: &Record) {
    page.put(status.srcdir.as_slice());
    page.put(b";");
    if let Some(args) = &status.args {
        put_args(page, args);
    }
    put_defs(page, &status.vars);
    put_defs(page, &status.defs);
    put_outputs(page, &status.files);
    put_outputs(page, &status.headers);
}

/// Returns the record, or puts its fault.
fn read(page: &mut Page, text: &[u8]) -> Option<Record> {
    let made = read_record(page.alloc(), text);
    value_or_fault(page, made)
}

/// Returns the text that is read as a record, written again.
fn rewritten(alloc: Global, text: &[u8]) -> Option<Bytes> {
    let Ok(status) = read_record(alloc, text) else {
        return None;
    };
    write_record(alloc, &status).ok()
}

/// Puts that the record of a text isn't written with the same bytes, if it isn't.
fn put_written(page: &mut Page, text: &[u8]) {
    match rewritten(page.alloc(), text) {
        None => page.cut(),
        Some(written) => {
            if written.as_slice() != text {
                page.put(b" but written ");
                page.put(written.as_slice());
            }
        }
    }
}

fn put_read(page: &mut Page, text: &[u8]) {
    if let Some(status) = read(page, text) {
        put_record(page, &status);
        put_written(page, text);
    }
}

/// Whether a text is read and written again, or its fault.
struct Outcome;

impl RowCall for Outcome {
    fn put(&self, page: &mut Page, text: &[u8]) {
        if read(page, text).is_some() {
            page.put(b"read");
            put_written(page, text);
        }
    }
}

/// Puts what is read of a record of this version with these lines.
fn put_lines(page: &mut Page, version: &[u8], lines: &[u8]) {
    let mut text = Page::new(page.alloc());
    text.put(b"acrun-record ");
    text.put(version);
    text.put(b"\nsrcdir .\n");
    text.put(lines);
    text.put(b"\nend\n");
    put_read(page, text.text());
}

/// Puts how a record with so many variables is read.
fn put_many(page: &mut Page, count: usize) {
    let mut text = Page::new(page.alloc());
    text.put(b"acrun-record 1\nsrcdir .\n");
    for i in 0..count {
        text.put(b"var V");
        text.put_number(i);
        text.put(b" x\n");
    }
    text.put(b"end\n");
    Outcome.put(page, text.text());
}

/// Puts the byte if the text that has it between these two isn't read and written again.
fn put_byte(page: &mut Page, before: &[u8], byte: u8, after: &[u8]) {
    let mut text = Page::new(page.alloc());
    text.put(before);
    text.put_byte(byte);
    text.put(after);
    let mut outcome = Page::new(page.alloc());
    Outcome.put(&mut outcome, text.text());
    if outcome.text() != b"read".as_slice() {
        if !page.text().is_empty() {
            page.put(b" ");
        }
        page.put_shown(&byte);
    }
}

fn put_bytes(page: &mut Page, before: &[u8], after: &[u8]) {
    for byte in 0..=255 {
        put_byte(page, before, byte, after);
    }
}

pub struct Records;

impl RowCall for Records {
    fn put(&self, page: &mut Page, given: &[u8]) {
        let (call, text) = cut(given, b" ");
        match call {
            [b'r', ..] => put_read(page, text),
            [b'f', ..] => put_fronts(page, &Outcome, text),
            [b'm', ..] => put_many(page, 1024),
            [b'p', ..] => put_bytes(page, b"acrun-record 1\nsrcdir .\nfile a/b", b" b\nend\n"),
            [b'v', b'a', ..] => put_bytes(page, b"acrun-record 1\nsrcdir .\nvar A ", b"\nend\n"),
            [b'a', ..] => put_bytes(page, b"acrun-record 2\nsrcdir .\narg ", b"\nend\n"),
            [b'v', b'2'] => put_lines(page, b"2", text),
            _ => put_lines(page, b"1", text),
        }
    }
}
