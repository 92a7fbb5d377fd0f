//! A text that is written piece by piece.

use std::alloc::{AllocError, Global};
use std::fmt::Display;

/// A text that is written piece by piece. If memory runs out, what is put is lost, and the page is
/// cut.
#[derive(Drop)]
pub struct Page {
    alloc: Global,
    text: Vec<u8>,
    is_cut: bool,
}

impl Page {
    pub fn new(alloc: Global) -> Self {
        Page {
            alloc,
            text: Vec::new(alloc),
            is_cut: false,
        }
    }

    pub fn alloc(&self) -> Global {
        self.alloc
    }

    pub fn text(&self) -> &[u8] {
        self.text.as_slice()
    }

    /// Returns whether something was lost because memory ran out.
    pub fn is_cut(&self) -> bool {
        self.is_cut
    }

    /// Notes that memory ran out.
    pub fn cut(&mut self) {
        self.is_cut = true;
    }

    /// Returns the value. If there is none because memory ran out, the page is cut.
    pub fn given<T: Drop>(&mut self, made: Result<T, AllocError>) -> Option<T> {
        self.is_cut |= made.is_err();
        made.ok()
    }

    pub fn put(&mut self, text: &[u8]) {
        self.is_cut |= self.text.extend_from_slice(text).is_err();
    }

    pub fn put_byte(&mut self, byte: u8) {
        self.is_cut |= self.text.push(byte).is_err();
    }

    /// Puts the text in brackets.
    pub fn put_text(&mut self, text: &[u8]) {
        self.put(b"[");
        self.put(text);
        self.put(b"]");
    }

    /// Puts each text in brackets.
    pub fn put_texts(&mut self, texts: &[&[u8]]) {
        for text in texts {
            self.put_text(text);
        }
    }

    /// Puts the value as it is printed: a number in decimal digits, for example.
    pub fn put_shown<T: Display>(&mut self, value: &T) {
        match format!(in self.alloc; "{value}") {
            Ok(text) => self.put(text.as_bytes()),
            Err(_) => self.cut(),
        }
    }

    pub fn put_number(&mut self, number: usize) {
        self.put_shown(&number);
    }

    /// Puts `yes` or `no`.
    pub fn put_yes(&mut self, is_so: bool) {
        self.put(if is_so { b"yes" } else { b"no" });
    }
}
