//! An input that is read piece by piece.

use std::io::{self, Read};

/// Gives a text by reads of at most so many bytes, and then its end.
#[derive(Drop)]
pub struct Pieces<'a> {
    pub text: &'a [u8],
    pub size: usize,
}

impl Read for Pieces<'_> {
    fn read(&mut self, buf: &mut [u8]) -> io::Result<usize> {
        let len = self.size.min(buf.len()).min(self.text.len());
        let (piece, rest) = self.text.split_at(len);
        buf[..len].copy_from_slice(piece);
        self.text = rest;
        Ok(len)
    }
}
