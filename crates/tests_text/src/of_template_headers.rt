//! template: headers that are made of templates.

use deftable::{Defs, is_shell_name};
use template::{fill_header, header_note};
use test_rows::{Page, RowCall, cut};

fn define(page: &mut Page, defs: &mut Defs, name: &[u8], value: &[u8]) {
    if is_shell_name(name) {
        page.given(defs.define(name, value));
    }
}

fn put_header(page: &mut Page, text: &[u8]) {
    let mut defs = Defs::new(page.alloc());
    define(page, &mut defs, b"HAVE_X", b"1");
    define(page, &mut defs, b"E", b"");
    define(page, &mut defs, b"Y", b"#undef E");
    if let Some(made) = page.given(fill_header(page.alloc(), text, &defs)) {
        page.put_text(made.as_slice());
    }
}

fn put_note(page: &mut Page, names: &[u8]) {
    let (file, template) = cut(names, b" ");
    if let Some(note) = page.given(header_note(page.alloc(), file, template)) {
        page.put(note.as_slice());
    }
}

pub struct Headers;

impl RowCall for Headers {
    fn put(&self, page: &mut Page, given: &[u8]) {
        let (call, text) = cut(given, b" ");
        match call {
            [b'n', ..] => put_note(page, text),
            _ => put_header(page, text),
        }
    }
}
