//! The value of a test, lent.

ghost use Rattle.std.specs.Prelude.{◌≡◌, Some, [], option_map, unwrap_or};

use deftable::Bytes;
use std::marker::Model;

/// A value that is lent, or none. Contracts see an option of its bytes.
#[derive(Drop)]
pub struct Loan<'a> {
    pub text: Option<&'a [u8]>,
}

impl<'a> Model for Loan<'a> {
    ghost use Rattle.std.specs.Prelude.{List, Option, ℕ, option_map};

    ghost Value = { Option (List ℕ) };

    ghost view = { λ v. option_map (λ t. t.now) v.text };
}

/// Lends a text, if there is one.
pub fn lent(text: &Option<Bytes>) -> Option<&[u8]>
    ensures { option_map (λ t. t.now) result ≡ text.now }
{
    match text {
        Some(text) => Some(text.as_slice()),
        None => None,
    }
}

impl<'a> Loan<'a> {
    /// Lends a text.
    pub fn some(text: &'a [u8]) -> Loan<'a>
        ensures { result ≡ Some text.now }
    {
        Loan { text: Some(text) }
    }

    /// Lends a text, if there is one.
    pub fn of(text: &'a Option<Bytes>) -> Loan<'a>
        ensures { result ≡ text.now }
    {
        Loan { text: lent(text) }
    }

    /// Returns the text, or the empty one.
    pub fn text_or_empty(&self) -> &'a [u8]
        ensures { result.now ≡ unwrap_or self.now [] }
    {
        match self.text {
            Some(text) => text,
            None => b"",
        }
    }
}
