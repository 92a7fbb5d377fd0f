//! How answers are written.

use ac_tree::{Entries, Help};
use deftable::{Bytes, Name, Vars};
use m4quote::Arg;
use output_list::OutputList;
use shellword::{HereText, Part, Pattern, Patterns, Piece, Test, Word};
use std::fmt::Display;
use test_rows::Page;

/// What a call makes.
pub trait Told {
    /// Puts it on the page.
    fn tell(&self, page: &mut Page);
}

/// Puts what a call made, or its error.
pub fn put_made<T: Told + Drop, F: Display + Drop>(page: &mut Page, made: Result<T, F>) {
    match made {
        Ok(made) => made.tell(page),
        Err(fault) => page.put_shown(&fault),
    }
}

/// Puts a text if it is so.
pub fn put_if(page: &mut Page, is_so: bool, text: &[u8]) {
    page.put(if is_so { text } else { b"" });
}

/// A call that goes on with what another call makes.
pub trait Next<T> {
    /// Puts what it tells of the value.
    fn put_of(&self, page: &mut Page, made: &T);
}

/// Puts what the next call tells of a value. The caller doesn't hold it, so that its proof has none
/// of the value's parts.
pub fn put_of<T: Drop, N: Next<T>>(page: &mut Page, made: T, next: &N) {
    next.put_of(page, &made);
}

/// Puts what the next call tells of what a call made, or the error.
pub fn put_next<T: Drop, F: Display + Drop, N: Next<T>>(
    page: &mut Page,
    made: Result<T, F>,
    next: &N,
) {
    match made {
        Ok(made) => next.put_of(page, &made),
        Err(fault) => page.put_shown(&fault),
    }
}

impl Told for () {
    fn tell(&self, page: &mut Page) {
        page.put(b"accepted");
    }
}

impl Told for bool {
    fn tell(&self, page: &mut Page) {
        page.put_yes(*self);
    }
}

impl Told for u8 {
    fn tell(&self, page: &mut Page) {
        page.put_shown(self);
    }
}

impl Told for Bytes {
    fn tell(&self, page: &mut Page) {
        page.put_text(self.as_slice());
    }
}

impl Told for Name {
    fn tell(&self, page: &mut Page) {
        page.put_text(self.as_slice());
    }
}

/// The text and its offset.
impl Told for Arg<'_> {
    fn tell(&self, page: &mut Page) {
        page.put_text(self.text);
        page.put(b" at ");
        page.put_number(self.at);
    }
}

/// Puts each part: a byte, a quoted byte after a backslash, or the name of a variable in brackets
/// after a dollar sign.
pub fn put_parts(page: &mut Page, parts: &[Part]) {
    for part in parts {
        match part {
            Part::Plain(byte) => page.put_byte(*byte),
            Part::Quoted(byte) => page.put(&[b'\\', *byte]),
            Part::Variable(name) => {
                page.put(b"$");
                page.put_text(name.as_slice());
            }
        }
    }
}

impl Told for Word {
    fn tell(&self, page: &mut Page) {
        put_parts(page, self.parts());
    }
}

impl Told for HereText {
    fn tell(&self, page: &mut Page) {
        put_parts(page, self.parts());
    }
}

/// Sets a variable.
pub fn set(page: &mut Page, vars: &mut Vars, name: &[u8], value: &[u8]) {
    page.given(vars.set(name, value));
}

/// Returns variables: a is `yes`, c is `$a`, s has blanks, n is empty, star is `*`, and b is unset.
pub fn variables(page: &mut Page) -> Vars {
    let mut vars = Vars::new(page.alloc());
    set(page, &mut vars, b"a", b"yes");
    set(page, &mut vars, b"c", b"$a");
    set(page, &mut vars, b"s", b"x  y");
    set(page, &mut vars, b"n", b"");
    set(page, &mut vars, b"star", b"*");
    vars
}

/// Whether it holds where those variables are set.
impl Told for Test {
    fn tell(&self, page: &mut Page) {
        let vars = variables(page);
        put_made(page, self.holds(page.alloc(), &vars));
    }
}

/// Puts each text in brackets.
pub fn put_each(page: &mut Page, texts: &[Bytes]) {
    for text in texts {
        page.put_text(text.as_slice());
    }
}

impl Told for Vec<Bytes> {
    fn tell(&self, page: &mut Page) {
        put_each(page, self.as_slice());
    }
}

impl Told for Entries {
    fn tell(&self, page: &mut Page) {
        put_each(page, self.as_slice());
    }
}

/// The includes, if they are not the default ones.
impl Told for Option<HereText> {
    fn tell(&self, page: &mut Page) {
        if let Some(text) = self {
            page.put(b" with ");
            text.tell(page);
        }
    }
}

/// Puts a blank and each piece: `*`, `?`, or a byte in brackets.
fn put_pieces(page: &mut Page, pattern: &Pattern) {
    page.put(b" ");
    for piece in pattern.pieces() {
        match piece {
            Piece::AnyBytes => page.put(b"*"),
            Piece::OneByte => page.put(b"?"),
            Piece::Byte(byte) => page.put_text(&[*byte]),
        }
    }
}

/// How many there are, whether one of them matches `ab`, and the pieces of each.
impl Told for Patterns {
    fn tell(&self, page: &mut Page) {
        page.put_number(self.len());
        put_if(page, self.is_empty(), b" none");
        put_if(page, self.matches(b"ab"), b" matches");
        for pattern in self.as_slice() {
            put_pieces(page, pattern);
        }
    }
}

/// Both texts of an entry, or a text of its own making.
impl Told for Help {
    fn tell(&self, page: &mut Page) {
        match self {
            Help::Columns { left, right } => {
                page.put_text(left.as_slice());
                page.put(b" ");
                page.put_text(right.as_slice());
            }
            Help::Text { text } => page.put_text(text.as_slice()),
        }
    }
}

/// How many there are, and the name and the template of each.
impl Told for OutputList {
    fn tell(&self, page: &mut Page) {
        page.put_number(self.len());
        for output in self.as_slice() {
            page.put(b" ");
            page.put(output.name.as_slice());
            page.put(b":");
            page.put(output.template.as_slice());
        }
    }
}

/// Adds a text to a list.
pub fn add(page: &mut Page, texts: &mut Vec<Bytes>, text: &[u8]) {
    if let Some(text) = page.given(Bytes::from_slice(page.alloc(), text))
        && texts.push(text).is_err()
    {
        page.cut();
    }
}
