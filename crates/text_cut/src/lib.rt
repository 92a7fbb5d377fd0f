//! Splits byte texts at blanks and at a separator.
//!
//! A text consists of any bytes. Only the space, the tab and the newline are blanks, and bytes that
//! aren't UTF-8 are ordinary. Nothing is copied: each result is a part of the text that was passed.
//! A call that returns a `Result` fails only if memory runs out, and no other call allocates. "own"
//! marks a rule that no manual gives.
//!
//! ```
//! let headers = text_cut::fields(alloc, b" stdio.h\n\tunistd.h ")?; // stdio.h, unistd.h
//! let directories = text_cut::parts(alloc, b"/bin::/usr/bin", b':')?; // /bin, an empty part, /usr/bin
//! ```
//!
//! Read `specs/Cuts.antt` for the result of each call, and then this file. `proofs/Laws.antt` has
//! laws for the proofs of callers.
#![tactic(auto)]

ghost use Rattle.std.specs.Prelude.{◌≡◌, ◌≤◌, length, map, IfOk};
ghost use Rattle.text_cut.specs.Cuts.{
  is_space,
  is_space_or_return,
  is_blank,
  is_blank_or_return,
  trimmed,
  fields,
  parts,
};

use bstr::ByteSlice;
use std::alloc::{AllocError, Global};

/// Returns whether the byte is a space or a tab. These bytes separate words within a line (POSIX,
/// Shell Command Language, "Token Recognition").
pub fn is_space(byte: u8) -> bool
    ensures { result ≡ is_space byte }
{
    byte == b' ' || byte == b'\t'
}

/// Returns whether the byte is a space, a tab or a carriage return, which may end a line before its
/// newline (own).
pub fn is_space_or_return(byte: u8) -> bool
    ensures { result ≡ is_space_or_return byte }
{
    byte == b' ' || byte == b'\t' || byte == b'\r'
}

/// Returns whether the byte is a space, a tab or a newline. These bytes separate the fields of a
/// POSIX shell if IFS is unset (POSIX, Shell Command Language, "Field Splitting").
///
/// Carriage return, vertical tab and form feed aren't blanks.
pub fn is_blank(byte: u8) -> bool
    ensures value { result ≡ is_blank byte }
{
    byte == b' ' || byte == b'\t' || byte == b'\n'
}

/// Returns whether the byte is a blank or a carriage return (own).
pub fn is_blank_or_return(byte: u8) -> bool
    ensures { result ≡ is_blank_or_return byte }
{
    byte == b' ' || byte == b'\t' || byte == b'\r' || byte == b'\n'
}

/// Returns the text without the blanks at both ends (own). Blanks within it stay.
pub fn trim(text: &[u8]) -> &[u8]
    ensures value { result.now ≡ trimmed text.now }
    ensures len { length result.now ≤ length text.now }
{
    text.trim_with(is_blank_char)
}

/// Returns the parts of the text between blanks, in order, as a POSIX shell splits fields if IFS is
/// unset (POSIX, Shell Command Language, "Field Splitting").
///
/// No field is empty, so a text that is empty or consists of blanks has no fields.
pub fn fields(alloc: Global, text: &[u8]) -> Result<Vec<&[u8]>, AllocError>
    ensures value { IfOk result (λ v. map (λ field. field.now) v.items ≡ fields text.now) }
{
    text.fields_with(is_blank_char).collect(alloc)
}

/// Returns the parts of the text before, between and after the separators, in order, as PATH is
/// split at its colons (POSIX, "Environment Variables").
///
/// There is one part more than there are separators. The empty text has one part, which is empty.
pub fn parts(alloc: Global, text: &[u8], separator: u8) -> Result<Vec<&[u8]>, AllocError>
    ensures value { IfOk result (λ v. map (λ part. part.now) v.items ≡ parts separator text.now) }
{
    text.split_str(&[separator]).collect(alloc)
}

// A byte of 128 or more is read as a character of 128 or more, which isn't a blank.
fn is_blank_char(character: char) -> bool
    ensures value { result ≡ is_blank character }
{
    character == ' ' || character == '\t' || character == '\n'
}
