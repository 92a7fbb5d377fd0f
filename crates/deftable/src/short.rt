//! Short texts, which are kept in place.

ghost use Rattle.std.specs.Prelude.{◌≡◌, ◌≤◌, ◌+◌, ◌++◌, [], length};

use std::marker::Model;

/// The length of the longest text that is kept in place.
pub(crate) const SHORT: usize = 30;

/// A text of at most [`SHORT`] bytes.
#[derive(Debug, Drop)]
pub(crate) struct Short {
    bytes: [u8; 30],
    len: u8,
}

impl Model for Short {
    ghost use Rattle.std.specs.Prelude.{◌≡◌, ◌≤◌, ℕ, List, length, take};

    ghost Value = { List ℕ };

    ghost view = { λ s. take s.len s.bytes };

    ghost invariant = { λ s. s.len ≤ 30 };
}

impl Short {
    /// Returns the empty text.
    pub(crate) fn new() -> Short
        ensures { result ≡ [] }
    {
        Short {
            bytes: [0; 30],
            len: 0,
        }
    }

    /// Appends a text.
    pub(crate) fn push(&mut self, text: &[u8])
        requires { length self.old + length text.now ≤ 30 }
        ensures { self.new ≡ self.old ++ text.now }
    {
        let start = self.len as usize;
        let end = start + text.len();
        self.bytes[start..end].copy_from_slice(text);
        self.len = end as u8;
    }

    /// Returns an equal text.
    pub(crate) fn copy(&self) -> Short
        ensures { result ≡ self.now }
    {
        Short {
            bytes: self.bytes,
            len: self.len,
        }
    }

    /// Returns the number of bytes.
    pub(crate) fn len(&self) -> usize
        ensures value { result ≡ length self.now }
        ensures most { result ≤ 30 }
    {
        self.len as usize
    }

    /// Returns the bytes.
    pub(crate) fn as_slice(&self) -> &[u8]
        ensures { result.now ≡ self.now }
    {
        &self.bytes[..self.len as usize]
    }
}
