//! A text that is written piece by piece.

ghost use Rattle.std.specs.Prelude.{◌≡◌, ◌≤◌, ◌<◌, Bool, false, true, IfOk};
ghost use Rattle.std.specs.List.{list_all};
ghost use Rattle.lint_excerpts.specs.Plain.{is_plain, IsSafe};

use deftable::Bytes;
use itoa::Buffer;
use std::alloc::{AllocError, Global};
use std::marker::Model;

/// Returns whether a byte is no control byte of ASCII, or is a tab or a newline.
#[tactic(auto, unfolding(crate::specs::Plain::is_plain))]
fn is_plain(byte: u8) -> bool
    ensures { result ≡ is_plain byte }
{
    (32 <= byte && byte < 127) || 128 <= byte || byte == b'\t' || byte == b'\n'
}

/// Returns the hexadecimal digit of a number below 16.
#[tactic(auto, using(crate::proofs::Plain::printable))]
fn digit(number: u8) -> u8
    requires { number < 16 }
    ensures { is_plain result ≡ true }
{
    if number < 10 {
        b'0' + number
    } else {
        b'a' - 10 + number
    }
}

/// A text that is written piece by piece. If memory runs out, what is written is lost, and the text
/// is not whole. Unless it is free, it has no control byte but tabs and newlines: others are written
/// as `\xNN`.
pub(crate) struct Draft {
    text: Vec<u8>,
    is_whole: bool,
    is_free: bool,
}

impl Drop for Draft {
    fn drop(self) {
        let Draft {
            text: _text,
            is_whole: _is_whole,
            is_free: _is_free,
        } = self;
    }
}

impl Model for Draft {
    ghost Value = { Bool };

    ghost view = { λ d. d.is_free };

    ghost invariant = { λ d. IsSafe d.is_free d.text.items };
}

/// Appends a byte that is plain.
#[tactic(auto, using(crate::proofs::Plain::pushed))]
fn push_plain(text: &mut Vec<u8>, byte: u8) -> Result<(), AllocError>
    requires { is_plain byte ≡ true }
    ensures { list_all is_plain text.old.items ≡ true → list_all is_plain text.new.items ≡ true }
{
    text.push(byte)?;
    Ok(())
}

/// Appends `\xNN` for the byte 0xNN.
#[tactic(auto, using(crate::proofs::Plain::backslash, crate::proofs::Plain::small_x))]
fn push_number(text: &mut Vec<u8>, byte: u8) -> Result<(), AllocError>
    ensures { list_all is_plain text.old.items ≡ true → list_all is_plain text.new.items ≡ true }
{
    push_plain(text, b'\\')?;
    push_plain(text, b'x')?;
    push_plain(text, digit(byte / 16))?;
    push_plain(text, digit(byte % 16))
}

/// Appends a byte, or its number if it is not plain.
fn push_byte(text: &mut Vec<u8>, byte: u8) -> Result<(), AllocError>
    ensures { list_all is_plain text.old.items ≡ true → list_all is_plain text.new.items ≡ true }
{
    if is_plain(byte) {
        return push_plain(text, byte);
    }
    push_number(text, byte)
}

/// Appends each byte, or its number if it is not plain.
fn push_bytes(text: &mut Vec<u8>, bytes: &[u8]) -> Result<(), AllocError>
    ensures { list_all is_plain text.old.items ≡ true → list_all is_plain text.new.items ≡ true }
{
    for byte in bytes {
        push_byte(text, *byte)?;
    }
    Ok(())
}

/// Appends a text: if it isn't free, with the number of each byte that is not plain.
fn push_text(text: &mut Vec<u8>, is_free: bool, bytes: &[u8]) -> Result<(), AllocError>
    ensures { IsSafe is_free text.old.items → IsSafe is_free text.new.items }
{
    if is_free {
        return text.extend_from_slice(bytes);
    }
    push_bytes(text, bytes)
}

impl Draft {
    /// Returns an empty text, which may have control bytes if it is free.
    pub(crate) fn new(alloc: Global, is_free: bool) -> Draft
        ensures { result ≡ is_free }
    {
        Draft {
            text: Vec::new(alloc),
            is_whole: true,
            is_free,
        }
    }

    /// Notes that a part is lost.
    pub(crate) fn cut(&mut self)
        ensures { self.new ≡ self.old }
    {
        self.is_whole = false;
    }

    pub(crate) fn put(&mut self, text: &[u8])
        ensures { self.new ≡ self.old }
    {
        let is_put = push_text(&mut self.text, self.is_free, text).is_ok();
        self.is_whole &= is_put;
    }

    /// Writes the byte so many times.
    pub(crate) fn put_times(&mut self, byte: u8, times: usize)
        ensures { self.new ≡ self.old }
    {
        for _ in 0..times {
            self.put(&[byte]);
        }
    }

    /// Writes each of these bytes as `\xNN`.
    pub(crate) fn put_hex(&mut self, bytes: &[u8])
        ensures { self.new ≡ self.old }
    {
        for byte in bytes {
            self.put(b"\\x");
            self.put(&[digit(*byte / 16), digit(*byte % 16)]);
        }
    }

    /// Writes the last hexadecimal digit of a number.
    fn put_digit(&mut self, number: u32)
        ensures { self.new ≡ self.old }
    {
        self.put(&[digit((number % 16) as u8)]);
    }

    /// Writes `\uNNNN`.
    fn put_unit(&mut self, unit: u32)
        ensures { self.new ≡ self.old }
    {
        self.put(b"\\u");
        self.put_digit(unit / 4096);
        self.put_digit(unit / 256);
        self.put_digit(unit / 16);
        self.put_digit(unit);
    }

    /// Writes a character by its number: `\uNNNN`, or two of these from U+10000 on (RFC 8259, 7).
    pub(crate) fn put_code(&mut self, c: char)
        ensures { self.new ≡ self.old }
    {
        let code = c as u32;
        if code < 0x10000 {
            self.put_unit(code);
        } else {
            let above = code - 0x10000;
            self.put_unit(0xd800 + above / 0x400);
            self.put_unit(0xdc00 + above % 0x400);
        }
    }

    pub(crate) fn put_number(&mut self, number: usize)
        ensures { self.new ≡ self.old }
    {
        self.put_right(number, 0);
    }

    /// Writes the number at the right of so many columns.
    pub(crate) fn put_right(&mut self, number: usize, columns: usize)
        ensures { self.new ≡ self.old }
    {
        let mut digits = Buffer::new();
        let text = digits.format(number);
        self.put_times(b' ', columns.saturating_sub(text.len()));
        self.put(text.as_bytes());
    }

    /// Returns the text.
    pub(crate) fn finish(self) -> Result<Bytes, AllocError>
        ensures { IfOk result (λ text. IsSafe self text) }
    {
        let Draft {
            text,
            is_whole,
            is_free: _is_free,
        } = self;
        if is_whole {
            Ok(Bytes::from_vec(text))
        } else {
            Err(AllocError)
        }
    }
}
