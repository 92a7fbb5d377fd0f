//! What the parts of a row give.

use crate::replies::add;
use crew_jobs::Words;
use deftable::{Bytes, Vars};
use test_rows::Page;
use text_cut::parts;

/// Returns the parts of a text between these bytes. They may be empty, but an empty text has none.
pub fn parts_of<'a>(page: &mut Page, text: &'a [u8], separator: u8) -> Vec<&'a [u8]> {
    if !text.is_empty() {
        if let Some(parts) = page.given(parts(page.alloc(), text, separator)) {
            return parts;
        }
    }
    Vec::new(page.alloc())
}

/// Returns the words of a text with commas between them. Each `~` is as in [`long_bytes_of`].
pub fn words_of(page: &mut Page, text: &[u8]) -> Words {
    let mut words = Vec::new(page.alloc());
    for word in &parts_of(page, text, b',') {
        let word = long_bytes_of(page, word);
        add(page, &mut words, word);
    }
    Words::from_vec(words)
}

/// Returns the text, with 1,048,574 times `a` in place of each `~`.
pub fn long_bytes_of(page: &mut Page, text: &[u8]) -> Bytes {
    let mut bytes = Vec::new(page.alloc());
    for byte in text {
        let (piece, count) = if *byte == b'~' {
            (b'a', 1_048_574)
        } else {
            (*byte, 1)
        };
        page.given(bytes.resize(bytes.len().saturating_add(count), piece));
    }
    Bytes::from_vec(bytes)
}

/// Returns the variable `CC`.
pub fn vars_of(page: &mut Page, compiler: &[u8]) -> Vars {
    let mut vars = Vars::new(page.alloc());
    page.given(vars.set(b"CC", compiler));
    vars
}

/// Puts a text. Of more than 48 bytes only their number, the first 16 and the last 16 are put.
pub fn put_cut(page: &mut Page, text: &[u8]) {
    if text.len() <= 48 {
        page.put(text);
    } else {
        page.put_number(text.len());
        page.put(b" bytes ");
        page.put(&text[..16]);
        page.put(b" .. ");
        page.put(&text[text.len() - 16..]);
    }
}
