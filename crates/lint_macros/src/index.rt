//! The table, made ready to look names up.

ghost use Rattle.std.specs.Prelude.{◌≡◌, ◌≤◌, ℕ, List, length, All, drop, map, bytes_eq, if◌then◌else◌};
ghost use Rattle.std.specs.Prelude.{true, Some, None, option_map, is_some, IfOk, OnOk, IfSome, IfNone};
ghost use Rattle.lint_macros.specs.Entries.{or_later};
ghost use Rattle.text_cut.specs.Cuts.{parts};
ghost use Rattle.lint_macros.specs.Entries as words;
ghost use Rattle.lint_macros.specs.Index as specs;
ghost use Rattle.lint_macros.specs.declared.text.TheConstants.{TABLE};

use crate::entry::{MacroEntry, MacroKind, Record, first_about, read_record};
use crate::text::{TABLE, table};
use indexmap::IndexMap;
use std::alloc::{AllocError, Global};
use text_cut::parts;

/// The entries of single macros, by name.
type Names = IndexMap<Vec<u8>, MacroEntry>;

/// Returns whether a kind is of single macros, and not of a family.
fn is_single(kind: MacroKind) -> bool
    ensures { result ≡ specs.is_single kind }
{
    match kind {
        MacroKind::Family => false,
        _ => true,
    }
}

/// Returns whether a text is no record of a family.
fn has_singles(row: &'static [u8]) -> bool
    ensures { result ≡ specs.has_singles (words.read_in row.now) }
{
    match read_record(row) {
        Some(row) => is_single(row.kind),
        None => true,
    }
}

/// Returns the entry of a name.
fn entry_in(names: &Names, name: &[u8]) -> Option<MacroEntry>
    ensures { option_map words.said result ≡ specs.said_by names.now.entries name.now }
{
    names.get(name).copied()
}

/// Returns whether a name has an entry.
fn has(names: &Names, name: &[u8]) -> bool
    ensures { result ≡ is_some (specs.said_by names.now.entries name.now) }
{
    entry_in(names, name).is_some()
}

/// Adds an entry.
fn insert(names: &mut Names, entry: MacroEntry) -> Result<(), AllocError>
    ensures { OnOk result (
        (n : List ℕ)
        → specs.said_by names.new.entries n
        ≡ (if bytes_eq n entry.name.now then Some (words.said entry) else specs.said_by
        names.old.entries n)) }
{
    let alloc = *names.allocator();
    let key = Vec::from_slice(alloc, entry.name)?;
    names.insert(key, entry)?;
    Ok(())
}

/// Returns the entry of a record with one of its names.
fn named_entry(row: Record, name: &'static [u8]) -> MacroEntry
    ensures { words.said result ≡ record { name = name.now; kind = row.kind; text = row.text.now } }
{
    MacroEntry {
        name,
        kind: row.kind,
        text: row.text,
    }
}

/// Adds the entry of a record with one of its names, if the name has no entry yet.
#[tactic(auto, using(crate::proofs::Indexed::adding))]
fn add_name(names: &mut Names, row: Record, name: &'static [u8]) -> Result<(), AllocError>
    ensures { OnOk result (
        (n : List ℕ)
        → specs.said_by names.new.entries n
        ≡ or_later (specs.said_by names.old.entries n)
        (specs.said_exactly (words.read row) name.now n)) }
{
    if has(names, name) {
        return Ok(());
    }
    insert(names, named_entry(row, name))
}

/// Adds the entries of a record of single macros with these names.
fn add_names(names: &mut Names, row: Record, known: &[&'static [u8]]) -> Result<(), AllocError>
    requires { specs.is_single row.kind ≡ true }
    ensures { OnOk result ((n : List ℕ) → specs.said_by names.new.entries n
        ≡ or_later (specs.said_by names.old.entries n) (words.said_with (words.read row)
        (words.first_name row.kind n (map (λ k. k.now) known.now)))) }
{
    for one in known {
        add_name(names, row, one)?;
    }
    Ok(())
}

/// Adds the entries of a record of single macros.
fn add_record(alloc: Global, names: &mut Names, row: Record) -> Result<(), AllocError>
    requires { specs.is_single row.kind ≡ true }
    ensures { OnOk result ((n : List ℕ) → specs.said_by names.new.entries n
        ≡ or_later (specs.said_by names.old.entries n) (words.said_of n (Some (words.read row)))) }
{
    let known = parts(alloc, row.names, b' ')?;
    add_names(names, row, known.as_slice())
}

/// Adds the entries of a text that is no record of a family.
fn add_row(alloc: Global, names: &mut Names, row: &'static [u8]) -> Result<(), AllocError>
    requires { specs.has_singles (words.read_in row.now) ≡ true }
    ensures { OnOk result ((n : List ℕ) → specs.said_by names.new.entries n
        ≡ or_later (specs.said_by names.old.entries n) (words.said_about n row.now)) }
{
    match read_record(row) {
        Some(row) => add_record(alloc, names, row),
        None => Ok(()),
    }
}

/// Adds the entries of the records before the first one of a family, and returns the number of
/// these records.
fn add_rows(alloc: Global, names: &mut Names, rows: &[&'static [u8]]) -> Result<usize, AllocError>
    ensures within { IfOk result (λ i. i ≤ length rows.now) }
    ensures said { IfOk result (λ i. (n : List ℕ)
        → specs.said_first names.new.entries (map (λ r. r.now) (drop i rows.now)) n
        ≡ specs.said_first names.old.entries (map (λ r. r.now) rows.now) n) }
{
    for i in 0..rows.len() {
        if !has_singles(rows[i]) {
            return Ok(i);
        }
        add_row(alloc, names, rows[i])?;
    }
    Ok(rows.len())
}

/// Returns the entry of a name, or else what the first of the records says that is about it.
fn first_entry(
    alloc: Global,
    names: &Names,
    rest: &[&'static [u8]],
    name: &[u8],
) -> Result<Option<MacroEntry>, AllocError>
    ensures { IfOk result (λ found. option_map words.said found
        ≡ specs.said_first names.now.entries (map (λ r. r.now) rest.now) name.now) }
{
    match entry_in(names, name) {
        Some(entry) => Ok(Some(entry)),
        None => first_about(alloc, rest, name),
    }
}

/// The table, made ready to look names up.
pub struct Index {
    names: Names,
    /// The records from the first one of a family on.
    rest: Vec<&'static [u8]>,
    ghost exact: { (n : List ℕ) → specs.said_first names.entries (map (λ r. r.now) rest.items) n
        ≡ words.entry_of n TABLE.now },
}

impl Drop for Index {
    fn drop(self) {
        let Index {
            names: _names,
            rest: _rest,
        } = self;
    }
}

impl Index {
    /// Returns the table, made ready to look names up. It takes time in proportion to the length of
    /// the table.
    ///
    /// # Errors
    ///
    /// Fails only if memory runs out.
    pub fn new(alloc: Global) -> Result<Index, AllocError> {
        let rows = parts(alloc, table(), b'~')?;
        let mut names = IndexMap::new(alloc);
        let count = add_rows(alloc, &mut names, rows.as_slice())?;
        let rest = Vec::from_slice(alloc, &rows.as_slice()[count..])?;
        Ok(Index { names, rest })
    }

    /// Returns what the table says of a macro.
    #[tactic(auto, unfolding(crate::specs::Entries::entry_of))]
    fn find(&self, alloc: Global, name: &[u8]) -> Result<Option<MacroEntry>, AllocError>
        ensures { IfOk result (λ found.
            option_map words.said found ≡ words.entry_of name.now TABLE.now) }
    {
        first_entry(alloc, &self.names, self.rest.as_slice(), name)
    }

    /// Returns what the table says of a macro: the first entry that has its name, or that is of a
    /// family that it belongs to. Families are last in the table.
    ///
    /// A name that has an entry takes the same time on average for a table of any length. For
    /// another name each family is looked at.
    ///
    /// # Errors
    ///
    /// Fails only if memory runs out.
    pub fn entry_of(&self, alloc: Global, name: &[u8]) -> Result<Option<MacroEntry>, AllocError>
        ensures value { IfOk result (λ found.
            option_map words.said found ≡ words.entry_of name.now TABLE.now) }
        ensures about { IfOk result (λ found. IfSome found
            (λ e. words.is_about name.now (words.said e) ≡ true)) }
        ensures missing { IfOk result (λ found. IfNone found
            (All (λ r. words.said_about name.now r ≡ None) (parts 126 TABLE.now))) }
    {
        self.find(alloc, name)
    }
}
