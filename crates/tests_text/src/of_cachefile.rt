//! cachefile: what cache texts set, their errors, and how they are written.

use crate::of_deftable::Tables;
use cachefile::{OldCache, cache_text, is_cache_name, is_mark, read_cache, word_text};
use deftable::Vars;
use test_rows::escaped::{note_cut, value_or_fault};
use test_rows::{Page, RowCall, cut, put_fronts};

const FOUND: &[u8] =
    b"# config.cache of configure\nac_cv_header_sys_stat_h=${ac_cv_header_sys_stat_h=yes}\n";

const LARGEST: usize = 4_194_304;

/// Returns the cache, or puts its error.
fn read(page: &mut Page, text: &[u8]) -> Option<OldCache> {
    let made = read_cache(page.alloc(), text);
    value_or_fault(page, made)
}

/// Returns the variables after steps.
fn vars_of(page: &mut Page, steps: &[u8]) -> Tables {
    let mut tables = Tables::new(page.alloc());
    if !steps.is_empty() {
        tables.take(page, b"vars", steps);
    }
    tables
}

/// Puts a variable that pouring left, and what the cache says of it beforehand if that is something
/// else.
fn put_var(page: &mut Page, cache: &OldCache, before: &Vars, name: &[u8], value: &[u8]) {
    page.put(name);
    page.put_text(value);
    match cache.would(before, name) {
        Some(found) if found == value => {}
        Some(found) => page.put_text(found),
        None => page.put(b" unset"),
    }
    page.put(b";");
}

fn put_poured(page: &mut Page, cache: &OldCache, before: &Vars, after: &mut Vars) {
    page.given(cache.pour(after));
    for i in 0..after.len() {
        let (name, value) = after.at(i);
        put_var(page, cache, before, name, value);
    }
    if cache.would(before, b"v_cv_unset").is_some() {
        page.put(b"set out of nothing");
    }
}

/// Puts the variables that pouring marks left.
fn put_marks(page: &mut Page, steps: &[u8], text: &[u8]) {
    let mut after = vars_of(page, steps);
    if let Some(cache) = read(page, text) {
        page.given(cache.pour_marks(&mut after.vars));
        for i in 0..after.vars.len() {
            let (name, value) = after.vars.at(i);
            page.put(name);
            page.put_text(value);
            page.put(b";");
        }
    }
}

/// Puts whether a name is one of a cached value, and whether it is that of a mark.
fn put_name(page: &mut Page, name: &[u8]) {
    page.put_yes(is_cache_name(name));
    if is_mark(name) {
        page.put(b" mark");
    }
}

/// Puts what the text sets where the steps are taken first, or its error.
fn put_read(page: &mut Page, steps: &[u8], text: &[u8]) {
    let before = vars_of(page, steps);
    let mut after = vars_of(page, steps);
    if let Some(cache) = read(page, text) {
        put_poured(page, &cache, &before.vars, &mut after.vars);
    }
}

/// Puts the cache text of what the steps leave.
fn put_written(page: &mut Page, steps: &[u8]) {
    let tables = vars_of(page, steps);
    let text = cache_text(page.alloc(), &tables.vars);
    if let Some(text) = page.given(text) {
        page.put(text.as_slice());
    }
}

fn put_back(page: &mut Page, steps: &[u8]) {
    let mut text = Page::new(page.alloc());
    put_written(&mut text, steps);
    put_read(page, b"", text.text());
}

fn put_word(page: &mut Page, value: &[u8]) {
    if let Some(word) = page.given(word_text(page.alloc(), value)) {
        page.put(word.as_slice());
    }
}

/// Whether a text is read, or its error.
struct Outcome;

impl RowCall for Outcome {
    fn put(&self, page: &mut Page, text: &[u8]) {
        if read(page, text).is_some() {
            page.put(b"read");
        }
    }
}

fn put_newlines(page: &mut Page, count: usize) {
    let mut text = Page::new(page.alloc());
    for _ in 0..count {
        text.put_byte(b'\n');
    }
    note_cut(page, &text);
    put_read(page, b"", text.text());
}

fn put_largest(page: &mut Page) {
    put_newlines(page, LARGEST);
    put_newlines(page, LARGEST + 1);
}

pub struct Caches;

impl RowCall for Caches {
    fn put(&self, page: &mut Page, given: &[u8]) {
        let (call, text) = cut(given, b" ");
        let (steps, after) = cut(text, b",");
        match call {
            [b'r', ..] => put_read(page, b"", text),
            [b'o', ..] => put_read(page, steps, after),
            [b'm', ..] => put_marks(page, steps, after),
            [b'b', ..] => put_back(page, text),
            [b'f', ..] => put_fronts(page, &Outcome, FOUND),
            [b'n', b'e', ..] => put_largest(page),
            [b'n', ..] => put_name(page, text),
            [b'w', b'o', ..] => put_word(page, text),
            _ => put_written(page, text),
        }
    }
}
