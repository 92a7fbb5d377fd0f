//! Texts as answers have them: lines of printable ASCII, in which any other byte is written by an
//! escape.

use crate::page::Page;
use std::fmt::Display;

const DIGITS: &[u8; 16] = b"0123456789abcdef";

/// Puts a byte: `\n`, `\t` and `\\` are written so, and `\xHH` any other that is not printable.
pub fn put_byte(page: &mut Page, byte: u8) {
    match byte {
        b'\n' => page.put(b"\\n"),
        b'\t' => page.put(b"\\t"),
        b'\\' => page.put(b"\\\\"),
        b' '..=b'~' => page.put_byte(byte),
        _ => {
            page.put(b"\\x");
            page.put_byte(DIGITS[(byte / 16) as usize]);
            page.put_byte(DIGITS[(byte % 16) as usize]);
        }
    }
}

/// Puts each byte of a text so.
pub fn put_text(page: &mut Page, text: &[u8]) {
    for byte in text {
        put_byte(page, *byte);
    }
}

/// Puts a text in brackets, after a blank.
pub fn put_bracketed(page: &mut Page, text: &[u8]) {
    page.put(b" [");
    put_text(page, text);
    page.put(b"]");
}

/// Puts `NAME=VALUE`.
pub fn put_value(page: &mut Page, name: &[u8], value: &[u8]) {
    put_text(page, name);
    page.put(b"=");
    put_text(page, value);
}

/// Puts a word, a number and a newline.
pub fn put_count(page: &mut Page, word: &[u8], count: usize) {
    page.put(word);
    page.put_number(count);
    page.put(b"\n");
}

/// Puts two blanks for each level.
pub fn put_indent(page: &mut Page, depth: usize) {
    for _ in 0..depth {
        page.put(b"  ");
    }
}

/// Cuts the page if the other one is cut.
pub fn note_cut(page: &mut Page, other: &Page) {
    if other.is_cut() {
        page.cut();
    }
}

/// Puts what is wrong. If it is that memory ran out, which each error prints as `memory`, the page
/// is cut.
pub fn put_error(page: &mut Page, error: &[u8]) {
    if error == b"memory".as_slice() {
        page.cut();
    }
    put_text(page, error);
}

/// Puts a word and an error.
pub fn put_fault<T: Display>(page: &mut Page, word: &[u8], fault: &T) {
    let mut error = Page::new(page.alloc());
    error.put_shown(fault);
    note_cut(page, &error);
    page.put(word);
    put_error(page, error.text());
}

/// Returns the value, or puts the fault.
pub fn value_or_fault<T: Drop, E: Display + Drop>(
    page: &mut Page,
    made: Result<T, E>,
) -> Option<T> {
    match made {
        Ok(value) => Some(value),
        Err(fault) => {
            put_fault(page, b"", &fault);
            None
        }
    }
}

/// Returns whether one of the texts is this one.
pub fn has(texts: &[&[u8]], text: &[u8]) -> bool {
    for each in texts {
        if *each == text {
            return true;
        }
    }
    false
}

/// Returns the number of the first line in which two texts differ.
fn differing_line(wanted: &[u8], found: &[u8]) -> usize {
    let mut line: usize = 1;
    for (one, other) in wanted.iter().zip(found.iter()) {
        if *one != *other {
            return line;
        }
        if *one == b'\n' {
            line = line.saturating_add(1);
        }
    }
    line
}

fn put_whole(page: &mut Page, word: &[u8], text: &[u8]) {
    page.put(word);
    page.put(text);
    if !text.ends_with(b"\n") {
        page.put(b"\n");
    }
}

/// Puts in which line a section differs from what was found, and both texts.
pub fn put_difference(page: &mut Page, name: &[u8], wanted: &[u8], found: &[u8]) {
    if wanted == found {
        return;
    }
    page.put(name);
    page.put(b" differs at line ");
    page.put_number(differing_line(wanted, found));
    put_whole(page, b"\n--- wanted\n", wanted);
    put_whole(page, b"--- found\n", found);
}
