//! Names in byte order, each once, with their descriptions.

ghost use Rattle.std.specs.Prelude.{◌≡◌, ◌++◌, [], map, is_some, IfOk, OnOk};
ghost use Rattle.deftable.specs.Table.{value_of};
ghost use Rattle.header_template.specs.Table as specs;

use deftable::Bytes;
use std::alloc::{AllocError, Global};
use std::collections::BTreeMap;

/// Names with their descriptions, which are empty for a name that has none.
pub(crate) type Table = BTreeMap<Vec<u8>, Vec<u8>>;

/// Returns whether a description is empty.
#[tactic(auto, using(crate::proofs::Tables::none_is))]
pub(crate) fn is_none(description: &[u8]) -> bool
    ensures { result ≡ specs.is_none description.now }
{
    description.is_empty()
}

/// Returns whether the table has a name.
fn has(table: &Table, name: &[u8]) -> bool
    ensures { result
        ≡ is_some
        (value_of (map (λ e. (e.0.items, e.1.items)) table.now.entries) name.now) }
{
    table.contains_key(name)
}

/// Puts a name in its place with this description.
fn place(
    alloc: Global,
    table: &mut Table,
    name: &[u8],
    description: &[u8],
) -> Result<(), AllocError>
    ensures entries { OnOk result (
        map (λ e. (e.0.items, e.1.items)) table.new.entries
        ≡ specs.with_placed (map (λ e. (e.0.items, e.1.items)) table.old.entries)
        (name.now, description.now)) }
    ensures order { OnOk result (
        specs.AreInOrder (map (λ e. (e.0.items, e.1.items)) table.new.entries)) }
{
    let key = Vec::from_slice(alloc, name)?;
    let value = Vec::from_slice(alloc, description)?;
    table.insert(key, value)?;
    Ok(())
}

/// Adds a name with this description. If that is empty, a name that is there stays as it is.
fn add(alloc: Global, table: &mut Table, name: &[u8], description: &[u8]) -> Result<(), AllocError>
    ensures entries { OnOk result (
        map (λ e. (e.0.items, e.1.items)) table.new.entries
        ≡ specs.with_entry (map (λ e. (e.0.items, e.1.items)) table.old.entries)
        (name.now, description.now)) }
    ensures order { OnOk result (
        specs.AreInOrder (map (λ e. (e.0.items, e.1.items)) table.old.entries)
        → specs.AreInOrder (map (λ e. (e.0.items, e.1.items)) table.new.entries)) }
{
    if is_none(description) && has(table, name) {
        return Ok(());
    }
    place(alloc, table, name, description)
}

/// Adds the entries.
fn add_all(alloc: Global, table: &mut Table, entries: &[(Bytes, Bytes)]) -> Result<(), AllocError>
    requires { specs.AreInOrder (map (λ e. (e.0.items, e.1.items)) table.old.entries) }
    ensures entries { OnOk result (
        map (λ e. (e.0.items, e.1.items)) table.new.entries
        ≡ specs.with_all (map (λ e. (e.0.items, e.1.items)) table.old.entries) entries.now) }
    ensures order { OnOk result (
        specs.AreInOrder (map (λ e. (e.0.items, e.1.items)) table.new.entries)) }
{
    for entry in entries {
        add(alloc, table, entry.0.as_slice(), entry.1.as_slice())?;
    }
    Ok(())
}

/// Returns the table of entries.
pub(crate) fn table_of(alloc: Global, entries: &[(Bytes, Bytes)]) -> Result<Table, AllocError>
    ensures { IfOk result (λ table.
        specs.IsTable entries.now (map (λ e. (e.0.items, e.1.items)) table.entries)) }
{
    let mut table = BTreeMap::new(alloc);
    add_all(alloc, &mut table, entries)?;
    Ok(table)
}

/// Returns the description of a name, or an empty text if the table has none.
pub(crate) fn description_in<'a>(table: &'a Table, name: &[u8]) -> &'a [u8]
    ensures { result.now
        ≡ specs.described (map (λ e. (e.0.items, e.1.items)) table.now.entries) name.now }
{
    match table.get(name) {
        Some(description) => description.as_slice(),
        None => b"",
    }
}
