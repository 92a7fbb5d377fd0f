//! template: templates that are filled, and the variables of each output file.

use deftable::is_shell_name;
use template::{FileDirectories, Table, configure_input, fill, has_one_filled_text, place_vars};
use test_rows::{Page, RowCall, cut};

fn set(page: &mut Page, table: &mut Table, key: &[u8], value: &[u8]) {
    if is_shell_name(key) {
        page.given(table.set(key, value));
    }
}

/// Returns the table in which VAR has the value.
fn table_of(page: &mut Page, value: &[u8]) -> Table {
    let mut table = Table::new(page.alloc());
    set(page, &mut table, b"VAR", b"old");
    set(page, &mut table, b"A", b"1");
    set(page, &mut table, b"B", b"");
    set(page, &mut table, b"VAR", value);
    table
}

fn put_filled(page: &mut Page, text: &[u8], table: &Table) {
    has_one_filled_text(text, table);
    if let Some(made) = page.given(fill(page.alloc(), text, table)) {
        page.put(made.as_slice());
    }
}

/// Puts the piece 200 times, and a long plain text after each fiftieth one from the first on.
fn put_repeated(page: &mut Page, piece: &[u8]) {
    for i in 0..200 {
        page.put(piece);
        if i % 50 == 0 {
            for _ in 0..300 {
                page.put(b"plain ");
            }
        }
    }
}

fn put_is_filled(page: &mut Page, pieces: &[u8], table: &Table) {
    let (piece, wanted) = cut(pieces, b",");
    let mut text = Page::new(page.alloc());
    put_repeated(&mut text, piece);
    let mut made = Page::new(page.alloc());
    put_filled(&mut made, text.text(), table);
    let mut whole = Page::new(page.alloc());
    put_repeated(&mut whole, wanted);
    if text.is_cut() || made.is_cut() || whole.is_cut() {
        page.cut();
    }
    page.put_yes(made.text() == whole.text());
}

fn put_entry(page: &mut Page, table: &Table, key: &[u8]) {
    match table.get(key) {
        Some(value) => page.put_text(value.as_slice()),
        None => page.put(b"none"),
    }
}

/// Puts the length of the longest of 10,000 names, and the value of the last.
fn put_many(page: &mut Page) {
    let mut table = Table::new(page.alloc());
    let mut key = Page::new(page.alloc());
    for i in 0..10_000 {
        key = Page::new(page.alloc());
        key.put(b"K");
        key.put_number(i);
        set(page, &mut table, key.text(), b"x");
    }
    page.put_number(table.longest_key());
    page.put(b" ");
    put_entry(page, &table, key.text());
}

fn put_answer(page: &mut Page, call: &[u8], text: &[u8], table: &Table) {
    match call.first() {
        Some(b'f') => {
            page.put(b"[");
            put_filled(page, text, table);
            page.put(b"]");
        }
        Some(b'r') => put_is_filled(page, text, table),
        Some(b'k') => put_entry(page, table, text),
        Some(b'm') => put_many(page),
        _ => page.put_number(table.longest_key()),
    }
}

pub struct Filling;

impl RowCall for Filling {
    fn put(&self, page: &mut Page, given: &[u8]) {
        let (call, rest) = cut(given, b" ");
        let (value, text) = match call {
            b"fill" => cut(rest, b" "),
            _ => (b"v".as_slice(), rest),
        };
        let table = table_of(page, value);
        put_answer(page, call, text, &table);
    }
}

fn put_place(page: &mut Page, place: &FileDirectories) {
    page.put(place.srcdir.as_slice());
    page.put(b" ");
    page.put(place.top_srcdir.as_slice());
    page.put(b" ");
    page.put(place.builddir.as_slice());
    page.put(b" ");
    page.put(place.top_builddir.as_slice());
}

fn put_made(page: &mut Page, file: &[u8], source: &[u8]) {
    if let Some(line) = page.given(configure_input(page.alloc(), file, source)) {
        page.put(line.as_slice());
    }
}

pub struct Placing;

impl RowCall for Placing {
    fn put(&self, page: &mut Page, given: &[u8]) {
        let (call, rest) = cut(given, b" ");
        let (file, source) = cut(rest, b" ");
        if call.starts_with(b"made") {
            put_made(page, file, source);
        } else if let Some(place) = page.given(place_vars(page.alloc(), file, source)) {
            put_place(page, &place);
        }
    }
}
