//! Rows of tests with texts that are much longer than a row.
//!
//! In the text of a row, `{COUNT PIECE}` is the piece so many times, and a `%` in the piece is the
//! number of times before. An answer of more than 60 bytes is put as its length. So a row tries a
//! call with a text of a mebibyte, or with 10,000 entries, and refuses a body that gives up on
//! texts of that size. No clause does: an answer that memory ran out is allowed for any text.
//!
//! ```text
//! try_rows(alloc, &Large(call), b"{3 v%=x;} => v0=x;v1=x;v2=x;")
//! ```

use crate::{Page, RowCall, cut, number_of};

/// The most bytes of an answer that is put as it is.
const LONGEST: usize = 60;

/// A call that is given large texts.
pub struct Large<C>(pub C);

/// Puts a piece, with a number for each `%`.
fn put_numbered(page: &mut Page, piece: &[u8], number: usize) {
    let mut is_first = true;
    for part in piece.split(|byte| *byte == b'%') {
        if !is_first {
            page.put_number(number);
        }
        page.put(part);
        is_first = false;
    }
}

/// Puts what is in braces.
fn put_times(page: &mut Page, text: &[u8]) {
    let (count, piece) = cut(text, b" ");
    for number in 0..number_of(count) {
        put_numbered(page, piece, number);
    }
}

/// Puts a text with all that is in braces.
fn put_large(page: &mut Page, text: &[u8]) {
    let (before, rest) = cut(text, b"{");
    page.put(before);
    for part in rest.split(|byte| *byte == b'{') {
        let (times, after) = cut(part, b"}");
        put_times(page, times);
        page.put(after);
    }
}

impl<C: RowCall> RowCall for Large<C> {
    fn put(&self, page: &mut Page, given: &[u8]) {
        let mut text = Page::new(page.alloc());
        put_large(&mut text, given);
        let mut answer = Page::new(page.alloc());
        self.0.put(&mut answer, text.text());
        if text.is_cut() || answer.is_cut() {
            page.cut();
        }
        let length = answer.text().len();
        if length > LONGEST {
            page.put_number(length);
            page.put(b" bytes");
        } else {
            page.put(answer.text());
        }
    }
}
