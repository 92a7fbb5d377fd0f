//! deftable: byte texts, and the tables that hold them by name.

use deftable::{Bytes, Defs, Name, Note, Notes, Stream, SubstList, Vars, is_shell_name};
use std::alloc::{AllocError, Global};
use std::cmp::Ordering;
use std::hash::{DefaultHasher, Hash, Hasher};
use test_rows::{Page, RowCall, cut};

fn hash_of(text: &Bytes) -> u64 {
    let mut state = DefaultHasher::new();
    text.hash(&mut state);
    state.finish()
}

/// Puts `same` or `before` if every comparison of two texts says so. Equal texts have the same
/// hash.
fn put_order(page: &mut Page, first: &Bytes, second: &Bytes) {
    page.put(match first.cmp(second) {
        Ordering::Equal if first == second && hash_of(first) == hash_of(second) => b"same",
        Ordering::Less if first != second && first < second && second > first => b"before",
        _ => b"otherwise",
    });
}

fn copied(alloc: Global, text: &Bytes) -> Result<Bytes, AllocError> {
    let clone = text.copy(alloc)?.clone()?;
    Ok(Bytes::from_vec(clone.into_vec(alloc)?))
}

fn put_copy(page: &mut Page, first: &Bytes, second: &Bytes) {
    page.put_number(first.len());
    page.put(b" ");
    page.put_yes(first.is_empty());
    page.put(b" ");
    if let Some(copy) = page.given(copied(page.alloc(), first)) {
        page.put_text(copy.as_slice());
        page.put(b" ");
        put_order(page, &copy, second);
    }
}

/// Returns the text. If it is empty or memory runs out, it is a new one.
pub fn text_of(page: &mut Page, text: &[u8]) -> Bytes {
    let alloc = page.alloc();
    if text.is_empty() {
        return Bytes::new(alloc);
    }
    page.given(Bytes::from_slice(alloc, text))
        .unwrap_or(Bytes::new(alloc))
}

fn copied_name(alloc: Global, name: &Name) -> Result<Name, AllocError> {
    let copy = name.copy(alloc)?;
    Name::from_slice(alloc, copy.as_slice())
}

fn put_name(page: &mut Page, text: &[u8]) {
    page.put_yes(is_shell_name(text));
    page.put(b" ");
    let Some(name) = Name::new(text_of(page, text)) else {
        return page.put(b"none");
    };
    let alloc = page.alloc();
    if let Some(copy) = page.given(copied_name(alloc, &name)) {
        page.put_text(copy.as_slice());
    }
}

pub struct Texts;

impl RowCall for Texts {
    fn put(&self, page: &mut Page, given: &[u8]) {
        let (call, text) = cut(given, b" ");
        if call.starts_with(b"name") {
            return put_name(page, text);
        }
        let (first, second) = cut(text, b",");
        let first = text_of(page, first);
        let second = text_of(page, second);
        put_copy(page, &first, &second);
    }
}

/// Tables, as steps make them.
#[derive(Drop)]
pub struct Tables {
    pub vars: Vars,
    pub defs: Defs,
    list: SubstList,
    notes: Notes,
}

impl Tables {
    pub fn new(alloc: Global) -> Tables {
        Tables {
            vars: Vars::new(alloc),
            defs: Defs::new(alloc),
            list: SubstList::new(alloc),
            notes: Notes::new(alloc),
        }
    }

    /// Puts what a table holds under a name.
    fn put_value(&self, page: &mut Page, table: &[u8], name: &[u8]) {
        let value = match table.first() {
            Some(b'v') => self.vars.get(name),
            Some(b'd') => self.defs.get(name),
            _ => return page.put_yes(self.list.has(name)),
        };
        match value {
            Some(value) => page.put_text(value.as_slice()),
            None => page.put(b"none"),
        }
    }

    fn add(&mut self, page: &mut Page, table: &[u8], entry: &[u8]) {
        let (name, value) = cut(entry, b"=");
        let added = match table.first() {
            Some(b'v') => self.vars.set(name, value),
            Some(b'd') if is_shell_name(name) => self.defs.define(name, value),
            Some(b'l') if is_shell_name(name) => self.list.add(name),
            _ => Ok(()),
        };
        page.given(added);
    }

    /// Adds a note. Its stream is that of the number before its text.
    fn tell(&mut self, page: &mut Page, note: &[u8]) {
        let (stream, text) = match note {
            [b'1', text @ ..] => (Stream::Out, text),
            [b'2', text @ ..] => (Stream::Err, text),
            text => (Stream::Out, text),
        };
        let text = text_of(page, text);
        page.given(self.notes.push(Note { stream, text }));
    }

    /// Takes steps with semicolons between them on a table.
    pub fn take(&mut self, page: &mut Page, table: &[u8], steps: &[u8]) {
        for step in steps.split(|byte| *byte == b';') {
            match step {
                [b'!', name @ ..] => self.vars.unset(name),
                [b'?', name @ ..] => {
                    self.put_value(page, table, name);
                    page.put(b" ");
                }
                [b'~', name @ ..] => {
                    page.put_text(self.vars.value_or_empty(name));
                    page.put(b" ");
                }
                _ if table.starts_with(b"notes") => self.tell(page, step),
                _ => self.add(page, table, step),
            }
        }
    }

    /// Puts what they hold.
    fn put(&self, page: &mut Page) {
        for i in 0..self.vars.len() {
            put_entry(page, self.vars.at(i));
        }
        for i in 0..self.defs.len() {
            put_entry(page, self.defs.at(i));
        }
        for name in self.list.names() {
            page.put(name.as_slice());
            page.put(b";");
        }
        for note in self.notes.as_slice() {
            page.put(match note.stream {
                Stream::Out => b"1",
                Stream::Err => b"2",
            });
            page.put(note.text.as_slice());
            page.put(b";");
        }
    }
}

fn put_entry(page: &mut Page, entry: (&[u8], &[u8])) {
    page.put(entry.0);
    page.put(b"=");
    page.put(entry.1);
    page.put(b";");
}

pub struct Steps;

impl RowCall for Steps {
    fn put(&self, page: &mut Page, given: &[u8]) {
        let (table, steps) = cut(given, b" ");
        let mut tables = Tables::new(page.alloc());
        tables.take(page, table, steps);
        tables.put(page);
    }
}
