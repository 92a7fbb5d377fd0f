//! The entries of the table.

ghost use Rattle.std.specs.Prelude.{◌≡◌, map, option_map, IfOk};
ghost use Rattle.lint_macros.specs.Entries as words;

use crate::cut::{cut, is};
use std::alloc::{AllocError, Global};
use text_cut::parts;

/// What is said of a macro.
#[derive(Clone, Copy, PartialEq, Eq)]
pub enum MacroKind {
    /// The text is what to write in the place of the call.
    Idiom,
    /// The call has no meaning here, and is dropped. The text is a line that says why.
    Dropped,
    /// Nothing does what the macro does. The text is a line that says why, or what else to do.
    Missing,
    /// The name is what the names of a family of macros begin with. The text is a line about all of
    /// them.
    Family,
}

/// What the table says of a macro or of a family of macros.
#[derive(Clone, Copy)]
pub struct MacroEntry {
    /// The name of the macro, or what the names of the family begin with.
    pub name: &'static [u8],
    pub kind: MacroKind,
    /// The text, with places for arguments (see [`fill`](crate::fill)).
    pub text: &'static [u8],
}

/// Returns the kind of this name.
fn kind_named(word: &[u8]) -> Option<MacroKind>
    ensures { result ≡ words.kind_named word.now }
{
    if is(word, b"idiom") {
        Some(MacroKind::Idiom)
    } else if is(word, b"drop") {
        Some(MacroKind::Dropped)
    } else if is(word, b"none") {
        Some(MacroKind::Missing)
    } else if is(word, b"family") {
        Some(MacroKind::Family)
    } else {
        None
    }
}

/// A record of the table: what is said of some macros.
#[derive(Clone, Copy)]
pub(crate) struct Record {
    pub(crate) kind: MacroKind,
    /// The names, with a blank between them.
    pub(crate) names: &'static [u8],
    pub(crate) text: &'static [u8],
}

/// Reads a record of the table.
pub(crate) fn read_record(row: &'static [u8]) -> Option<Record>
    ensures { option_map words.read result ≡ words.read_in row.now }
{
    let (word, rest) = cut(row, b' ')?;
    let kind = kind_named(word)?;
    let (names, text) = cut(rest, b'\n')?;
    Some(Record { kind, names, text })
}

/// Returns whether what has this kind and the known name is about macros of the other name.
fn is_about(kind: MacroKind, known: &[u8], name: &[u8]) -> bool
    ensures { result ≡ words.names kind known.now name.now }
{
    match kind {
        MacroKind::Family => name.starts_with(known),
        _ => known == name,
    }
}

/// Returns the first of the known names that is about macros of this name.
fn first_name(kind: MacroKind, known: &[&'static [u8]], name: &[u8]) -> Option<&'static [u8]>
    ensures { option_map (λ n. n.now) result
        ≡ words.first_name kind name.now (map (λ n. n.now) known.now) }
{
    for one in known {
        if is_about(kind, one, name) {
            return Some(*one);
        }
    }
    None
}

/// Returns the entry of a record with one of its names.
fn entry_with(row: Record, name: Option<&'static [u8]>) -> Option<MacroEntry>
    ensures { option_map words.said result
        ≡ words.said_with (words.read row) (option_map (λ n. n.now) name.entry) }
{
    match name {
        Some(name) => Some(MacroEntry {
            name,
            kind: row.kind,
            text: row.text,
        }),
        None => None,
    }
}

/// Returns the entry of a record if it is about macros of this name.
fn read_about(
    alloc: Global,
    row: &'static [u8],
    name: &[u8],
) -> Result<Option<MacroEntry>, AllocError>
    ensures { IfOk result (λ found.
        option_map words.said found ≡ words.said_about name.now row.now) }
{
    match read_record(row) {
        Some(row) => {
            let known = parts(alloc, row.names, b' ')?;
            let name = first_name(row.kind, known.as_slice(), name);
            Ok(entry_with(row, name))
        }
        None => Ok(None),
    }
}

/// Returns the first entry of the records that is about macros of this name.
pub(crate) fn first_about(
    alloc: Global,
    rows: &[&'static [u8]],
    name: &[u8],
) -> Result<Option<MacroEntry>, AllocError>
    ensures { IfOk result (λ found.
        option_map words.said found ≡ words.first_about name.now (map (λ r. r.now) rows.now)) }
{
    for row in rows {
        let found = read_about(alloc, row, name)?;
        if found.is_some() {
            return Ok(found);
        }
    }
    Ok(None)
}
