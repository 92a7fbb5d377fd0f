//! entries: lists of headers, functions, declarations and types.

use crate::told::{Next, put_made, put_next};
use ac_args::entries::{entries, entry};
use ac_tree::{Entries, Listed, Sought};
use m4quote::Arg;
use test_rows::{Page, RowCall};

/// What is read.
pub enum Reads {
    /// One entry.
    One,
    /// A list of entries.
    List,
    /// A list whose text is that many times the given one.
    Repeated(usize),
}

/// A reader of entries of a kind.
pub struct EntryReader(Sought, Reads);

const HEADER: Sought = Sought::ListEntry(Listed::Header);

const FUNCTION: Sought = Sought::ListEntry(Listed::Function);

const DECLARATION: Sought = Sought::ListEntry(Listed::Declaration);

const TYPE: Sought = Sought::Type;

pub const READERS: [(&[u8], EntryReader); 16] = [
    (b"header", EntryReader(HEADER, Reads::One)),
    (b"function", EntryReader(FUNCTION, Reads::One)),
    (b"declaration", EntryReader(DECLARATION, Reads::One)),
    (b"type", EntryReader(TYPE, Reads::One)),
    (b"headers", EntryReader(HEADER, Reads::List)),
    (b"functions", EntryReader(FUNCTION, Reads::List)),
    (b"declarations", EntryReader(DECLARATION, Reads::List)),
    (b"types", EntryReader(TYPE, Reads::List)),
    (b"256_headers", EntryReader(HEADER, Reads::Repeated(256))),
    (b"257_headers", EntryReader(HEADER, Reads::Repeated(257))),
    (
        b"256_functions",
        EntryReader(FUNCTION, Reads::Repeated(256)),
    ),
    (
        b"257_functions",
        EntryReader(FUNCTION, Reads::Repeated(257)),
    ),
    (
        b"256_declarations",
        EntryReader(DECLARATION, Reads::Repeated(256)),
    ),
    (
        b"257_declarations",
        EntryReader(DECLARATION, Reads::Repeated(257)),
    ),
    (b"256_types", EntryReader(TYPE, Reads::Repeated(256))),
    (b"257_types", EntryReader(TYPE, Reads::Repeated(257))),
];

/// Puts how many entries a list has.
impl Next<Entries> for EntryReader {
    fn put_of(&self, page: &mut Page, made: &Entries) {
        page.put_number(made.as_slice().len());
    }
}

impl EntryReader {
    fn put_repeated(&self, page: &mut Page, piece: &[u8], count: usize) {
        let mut text = Page::new(page.alloc());
        for _ in 0..count {
            text.put(piece);
        }
        let arg = Arg {
            text: text.text(),
            at: 0,
        };
        put_next(page, entries(page.alloc(), self.0, arg), self);
    }
}

impl RowCall for EntryReader {
    fn put(&self, page: &mut Page, given: &[u8]) {
        let alloc = page.alloc();
        let arg = Arg { text: given, at: 0 };
        match self.1 {
            Reads::One => put_made(page, entry(alloc, self.0, arg)),
            Reads::List => put_made(page, entries(alloc, self.0, arg)),
            Reads::Repeated(count) => self.put_repeated(page, given, count),
        }
    }
}
