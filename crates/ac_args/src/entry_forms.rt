//! The form of each kind of entry.

ghost use Rattle.std.specs.Prelude.{◌≡◌, map, IfOk};
ghost use Rattle.std.specs.List.{list_all};
ghost use Rattle.ac_args.specs.EntryForms as specs;

use crate::commas::comma_entries;
use ac_tree::{Listed, Sought};
use deftable::is_shell_name;
use std::alloc::{AllocError, Global};
use text_cut::{fields, is_blank};

fn is_header_byte(byte: u8) -> bool
    ensures { result ≡ specs.is_header_byte byte }
{
    !(is_blank(byte) || matches!(byte, b'$' | b'<' | b'>' | b'"' | b'\\' | b'`'))
}

fn are_header_bytes(text: &[u8]) -> bool
    ensures { result ≡ list_all specs.is_header_byte text.now }
{
    text.iter().all(|byte| is_header_byte(*byte))
}

fn is_type_byte(byte: u8) -> bool
    ensures { result ≡ specs.is_type_byte byte }
{
    !matches!(byte, b'\n' | b'$' | b'\\' | b'`')
}

fn are_type_bytes(text: &[u8]) -> bool
    ensures { result ≡ list_all specs.is_type_byte text.now }
{
    text.iter().all(|byte| is_type_byte(*byte))
}

/// Returns whether a text has the form of an entry of its kind (own).
///
/// A header is not empty, and has no blank, `$`, `<`, `>`, `"`, backslash or backquote. A function
/// and a declaration are C identifiers. A type is not empty, and has no newline, `$`, backslash or
/// backquote.
pub(crate) fn has_form(kind: Sought, text: &[u8]) -> bool
    ensures { result ≡ specs.has_form kind text.now }
{
    match kind {
        Sought::ListEntry(Listed::Header) => !text.is_empty() && are_header_bytes(text),
        Sought::ListEntry(Listed::Function | Listed::Declaration) => is_shell_name(text),
        Sought::Type => !text.is_empty() && are_type_bytes(text),
    }
}

/// Returns whether every text has the form of an entry of its kind.
pub(crate) fn have_form(kind: Sought, texts: &[&[u8]]) -> bool
    ensures { result ≡ list_all (λ t. specs.has_form kind t.now) texts.now }
{
    texts.iter().all(|text| has_form(kind, text))
}

/// Splits a text at blanks or at commas outside parentheses, as lists of the kind are separated. No
/// entry is empty, and each may have any form.
pub(crate) fn split(alloc: Global, kind: Sought, text: &[u8]) -> Result<Vec<&[u8]>, AllocError>
    ensures { IfOk result (λ v. map (λ e. e.now) v.items ≡ specs.split kind text.now) }
{
    match kind {
        Sought::ListEntry(Listed::Header | Listed::Function) => fields(alloc, text),
        Sought::ListEntry(Listed::Declaration) | Sought::Type => comma_entries(alloc, text),
    }
}
