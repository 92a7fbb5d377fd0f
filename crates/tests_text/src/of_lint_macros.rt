//! lint_macros: what is said of other macros.

use lint_macros::{Index, MacroEntry, MacroKind, entry_name, fill, takes_list};
use std::alloc::{AllocError, Global};
use test_rows::{Page, RowCall, cut, number_of};

fn name_of(kind: MacroKind) -> &'static [u8] {
    match kind {
        MacroKind::Idiom => b"idiom ",
        MacroKind::Dropped => b"drop ",
        MacroKind::Missing => b"none ",
        MacroKind::Family => b"family ",
    }
}

fn found(alloc: Global, name: &[u8]) -> Result<Option<MacroEntry>, AllocError> {
    let index = Index::new(alloc)?;
    index.entry_of(alloc, name)
}

fn put_said(page: &mut Page, name: &[u8]) {
    let given = found(page.alloc(), name);
    match page.given(given) {
        Some(Some(entry)) => {
            page.put(name_of(entry.kind));
            page.put(entry.name);
            page.put(b" ");
            page.put_text(entry.text);
        }
        _ => page.put(b"nothing"),
    }
}

fn put_filled(page: &mut Page, text: &[u8], arguments: &[&[u8]]) {
    let made = fill(page.alloc(), text, arguments);
    if let Some(made) = page.given(made) {
        page.put_text(made.as_slice());
    }
}

fn put_made(page: &mut Page, name: &[u8], arguments: &[&[u8]]) {
    let given = found(page.alloc(), name);
    if let Some(Some(entry)) = page.given(given) {
        put_filled(page, entry.text, arguments);
    }
}

fn put_call(page: &mut Page, is_named: bool, given: &[u8]) {
    let pieces = text_cut::parts(page.alloc(), given, b'%');
    if let Some(pieces) = page.given(pieces)
        && let Some((first, arguments)) = pieces.as_slice().split_first()
    {
        if is_named {
            put_made(page, first, arguments);
        } else {
            put_filled(page, first, arguments);
        }
    }
}

fn put_entry_name(page: &mut Page, given: &[u8]) {
    let (name, count) = cut(given, b" ");
    let entry = entry_name(name, number_of(count));
    page.put(entry);
    page.put(b" ");
    page.put_yes(takes_list(entry));
}

pub struct Macrotable;

impl RowCall for Macrotable {
    fn put(&self, page: &mut Page, given: &[u8]) {
        let (call, text) = cut(given, b" ");
        match call.first() {
            Some(b's') => put_said(page, text),
            Some(b'm') => put_call(page, true, text),
            Some(b'e') => put_entry_name(page, text),
            _ => put_call(page, false, text),
        }
    }
}
