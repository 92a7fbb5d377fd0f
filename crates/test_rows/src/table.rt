//! Tables of texts and answers.

use crate::page::Page;
use std::alloc::Global;
use std::str;
use std::test::Fail;

/// A call that is tried.
pub trait RowCall {
    /// Puts what it answers to a text.
    fn put(&self, page: &mut Page, given: &[u8]);
}

/// Calls by their names. A text begins with the name of its call and a blank.
pub struct Named<'a, C>(pub &'a [(&'a [u8], C)]);

impl<C: RowCall> RowCall for Named<'_, C> {
    fn put(&self, page: &mut Page, given: &[u8]) {
        let (name, text) = cut(given, b" ");
        for (known, call) in self.0 {
            if *known == name {
                return call.put(page, text);
            }
        }
        page.put(b"no such call");
    }
}

/// Returns what is before the first mark and what is after it: the whole text and nothing if it has
/// none.
pub fn cut<'a>(text: &'a [u8], mark: &[u8]) -> (&'a [u8], &'a [u8]) {
    for at in 0..text.len() {
        if let Some(after) = text[at..].strip_prefix(mark) {
            return (&text[..at], after);
        }
    }
    (text, b"")
}

/// Puts a text in which each `^` and the byte after it are a control byte.
fn put_controls(page: &mut Page, text: &[u8]) {
    let mut is_control = false;
    for byte in text {
        if is_control {
            page.put_byte(*byte & 31);
        } else if *byte != b'^' {
            page.put_byte(*byte);
        }
        is_control = !is_control && *byte == b'^';
    }
}

/// Puts what the row's answer is, if it is another one than the row says.
fn put_difference<C: RowCall>(page: &mut Page, call: &C, row: &[u8]) {
    let (given, wanted) = cut(row, b" =>");
    let mut text = Page::new(page.alloc());
    put_controls(&mut text, given);
    let mut answer = Page::new(page.alloc());
    put_controls(&mut answer, wanted.strip_prefix(b" ").unwrap_or(wanted));
    let mut found = Page::new(page.alloc());
    call.put(&mut found, text.text());
    if found.is_cut() || text.is_cut() || found.text() != answer.text() {
        page.put(row);
        page.put(b" -- but it is ");
        page.put(found.text());
        page.put(b"\n");
    }
}

/// Puts the rows of a table whose answer is another one.
pub fn put_differences<C: RowCall>(page: &mut Page, call: &C, table: &[u8]) {
    let mut has_row = false;
    for row in table.split(|byte| *byte == b'\n') {
        if !row.is_empty() && !row.starts_with(b"// ") {
            put_difference(page, call, row);
            has_row = true;
        }
    }
    if !has_row {
        page.put(b"a table without a row");
    }
}

/// Tries each row of these tables. The error has the rows whose answer is another one.
pub fn try_tables<C: RowCall>(alloc: Global, call: &C, tables: &[&[u8]]) -> Result<(), Fail> {
    let mut page = Page::new(alloc);
    for table in tables {
        put_differences(&mut page, call, table);
    }
    if page.text().is_empty() && !page.is_cut() {
        return Ok(());
    }
    Err(Fail::new(str::from_utf8(page.text()).unwrap_or("bytes that are no UTF-8")))
}

/// Tries each row of a table.
pub fn try_rows<C: RowCall>(alloc: Global, call: &C, table: &[u8]) -> Result<(), Fail> {
    try_tables(alloc, call, &[table])
}

/// Puts from which length on a front of a text has another answer than the shorter ones: each
/// length with the answer.
pub fn put_fronts<C: RowCall>(page: &mut Page, call: &C, text: &[u8]) {
    let mut last = Page::new(page.alloc());
    for len in 0..=text.len() {
        let mut answer = Page::new(page.alloc());
        call.put(&mut answer, &text[..len]);
        if answer.text() != last.text() {
            page.put_number(len);
            page.put(b" ");
            page.put(answer.text());
            page.put(b";");
        }
        last = answer;
    }
}
