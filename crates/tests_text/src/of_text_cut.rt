//! text_cut: texts cut at blanks and separators.

use test_rows::{Page, RowCall, cut};
use text_cut::{fields, is_blank, is_blank_or_return, is_space, is_space_or_return, parts, trim};

fn is_among(kind: &[u8], byte: u8) -> bool {
    match kind {
        b"s" => is_space(byte),
        b"r" => is_space_or_return(byte),
        b"b" => is_blank(byte),
        _ => is_blank_or_return(byte),
    }
}

fn put_blanks(page: &mut Page, kind: &[u8]) {
    page.put(b"[");
    for byte in 0..=u8::MAX {
        if is_among(kind, byte) {
            page.put_byte(byte);
        }
    }
    page.put(b"]");
}

fn put_pieces(page: &mut Page, text: &[u8], separator: Option<u8>) {
    let pieces = match separator {
        Some(separator) => parts(page.alloc(), text, separator),
        None => fields(page.alloc(), text),
    };
    if let Some(pieces) = page.given(pieces) {
        page.put_texts(pieces.as_slice());
    }
}

pub struct Textcut;

impl RowCall for Textcut {
    fn put(&self, page: &mut Page, given: &[u8]) {
        let (call, text) = cut(given, b" ");
        match (call.first(), text) {
            (Some(b'b'), _) => put_blanks(page, text),
            (Some(b't'), _) => page.put_text(trim(text)),
            (Some(b'p'), [separator, text @ ..]) => put_pieces(page, text, Some(*separator)),
            _ => put_pieces(page, text, None),
        }
    }
}
