//! template: templates that are filled in pieces.

use deftable::is_shell_name;
use template::{Filler, Table, fill};
use test_rows::{Page, RowCall, cut};

fn set(page: &mut Page, table: &mut Table, key: &[u8], value: &[u8]) {
    if is_shell_name(key) {
        page.given(table.set(key, value));
    }
}

fn table_of(page: &mut Page, value: &[u8]) -> Table {
    let mut table = Table::new(page.alloc());
    set(page, &mut table, b"VAR", value);
    set(page, &mut table, b"LONGER_VAR", b"long");
    table
}

fn filler_of(page: &mut Page, value: &[u8]) -> Filler {
    let table = table_of(page, value);
    Filler::new(page.alloc(), table)
}

fn feed(page: &mut Page, made: &mut Page, filler: &mut Filler, piece: &[u8]) {
    if let Some(given) = page.given(filler.feed(piece)) {
        made.put(given.as_slice());
    }
}

fn put_each(page: &mut Page, value: &[u8], pieces: &[u8]) {
    let mut filler = filler_of(page, value);
    for piece in pieces.split(|byte| *byte == b'|') {
        let mut made = Page::new(page.alloc());
        feed(page, &mut made, &mut filler, piece);
        page.put_text(made.text());
    }
    page.put_text(filler.finish().as_slice());
}

/// Returns whether the template in pieces of this length, with a first piece of another length,
/// makes the text.
fn makes(
    page: &mut Page,
    value: &[u8],
    text: &[u8],
    first: usize,
    len: usize,
    wanted: &[u8],
) -> bool {
    let mut filler = filler_of(page, value);
    let mut made = Page::new(page.alloc());
    let (front, rest) = text.split_at(first.min(text.len()));
    feed(page, &mut made, &mut filler, front);
    for piece in rest.chunks(len.max(1)) {
        feed(page, &mut made, &mut filler, piece);
    }
    made.put(filler.finish().as_slice());
    made.text() == wanted && !made.is_cut()
}

fn put_cuts(page: &mut Page, value: &[u8], text: &[u8]) {
    let table = table_of(page, value);
    let Some(wanted) = page.given(fill(page.alloc(), text, &table)) else {
        return;
    };
    for first in 0..text.len() {
        if !makes(page, value, text, first, text.len(), wanted.as_slice()) {
            page.put(b"another text if cut at ");
            page.put_number(first);
        }
    }
    if !makes(page, value, text, 0, 1, wanted.as_slice()) {
        page.put(b"another text of single bytes ");
    }
    page.put_text(wanted.as_slice());
}

pub struct Pieces;

impl RowCall for Pieces {
    fn put(&self, page: &mut Page, given: &[u8]) {
        let (call, rest) = cut(given, b" ");
        let (value, text) = cut(rest, b" ");
        match call {
            [b'f', ..] => put_each(page, value, text),
            _ => put_cuts(page, value, text),
        }
    }
}
