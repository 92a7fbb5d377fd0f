//! Readers of arguments that name headers, functions, declarations or types.

ghost use Rattle.std.specs.Prelude.{◌≡◌, map, IfOk, IsTrue};
ghost use Rattle.std.specs.List.{list_all};
ghost use Rattle.m4quote.specs.ItemValue.{span};
ghost use Rattle.ac_statement.specs.Reading.{Gives};
ghost use Rattle.ac_args.specs.EntryForms.{has_form};
ghost use Rattle.ac_args.specs.Entries as readers;

use crate::entry_forms::{has_form, have_form, split};
use ac_statement::fault::{ParseFault, moved_by, quote_fault};
use ac_tree::{Entries, Sought};
use deftable::Bytes;
use deftable::texts::copies;
use m4quote::{Arg, used_text};
use std::alloc::{AllocError, Global};
use text_cut::trim;

/// The largest number of entries of a list (own).
const MAX_ENTRIES: usize = 256;

/// Returns the used text of an argument.
fn text(alloc: Global, arg: Arg<'_>) -> Result<Bytes, ParseFault>
    ensures { Gives (λ t. t) result (readers.text (span arg.entry)) }
{
    match used_text(alloc, arg.text) {
        Ok(bytes) => Ok(Bytes::from_vec(bytes)),
        Err(fault) => Err(quote_fault(moved_by(arg.at, fault))),
    }
}

/// Returns the entry that an argument names, without the blanks at its ends (own).
///
/// # Errors
///
/// - `BadName` at the argument, if the text does not have the form of an entry of its kind.
#[tactic(auto, unfolding(crate::specs::Entries::entry_of))]
pub fn entry(alloc: Global, kind: Sought, arg: Arg<'_>) -> Result<Bytes, ParseFault>
    ensures function { Gives (λ t. t) result (readers.entry_of kind (span arg.entry)) }
    ensures form { IfOk result (λ t. IsTrue (has_form kind t)) }
{
    let text = text(alloc, arg)?;
    let entry = trim(text.as_slice());
    if !has_form(kind, entry) {
        return Err(ParseFault::BadName(arg.at));
    }
    Ok(Bytes::from_slice(alloc, entry)?)
}

/// Checks the entries of an argument at `at`: their number first, and then their form.
#[tactic(auto, using(crate::proofs::EntryLists::mapped_and_counted))]
fn check(kind: Sought, at: usize, entries: &[&[u8]]) -> Result<(), ParseFault>
    ensures { Gives (λ _. tt) result (readers.wanted kind at (map (λ e. e.now) entries.now)) }
{
    if entries.is_empty() {
        return Err(ParseFault::BadName(at));
    }
    if entries.len() > MAX_ENTRIES {
        return Err(ParseFault::TooMany(at));
    }
    if !have_form(kind, entries) {
        return Err(ParseFault::BadName(at));
    }
    Ok(())
}

/// Returns the entries that a text at `at` lists.
fn entries_in(alloc: Global, kind: Sought, at: usize, text: &[u8]) -> Result<Vec<Bytes>, ParseFault>
    ensures { Gives (λ v. v.items) result (readers.entries_in kind at text.now) }
{
    let entries = split(alloc, kind, text)?;
    check(kind, at, entries.as_slice())?;
    Ok(copies(alloc, entries.as_slice())?)
}

/// Returns the entries that an argument lists, in order (Autoconf's manual, "Generic Headers",
/// "Generic Functions", "Generic Declarations" and "Generic Types"; the forms and the limit are
/// own).
///
/// # Errors
///
/// - `BadName` at the argument, if it lists nothing.
/// - `TooMany` at the argument, if it lists more than 256 entries, whatever their form.
/// - `BadName` at the argument, if an entry does not have the form of its kind.
#[tactic(auto, unfolding(crate::specs::Entries::entries_of))]
pub fn entries(alloc: Global, kind: Sought, arg: Arg<'_>) -> Result<Entries, ParseFault>
    ensures function { Gives (λ e. e) result (readers.entries_of kind (span arg.entry)) }
    ensures form { IfOk result (λ e. IsTrue (list_all (has_form kind) e)) }
{
    let text = text(alloc, arg)?;
    let entries = entries_in(alloc, kind, arg.at, text.as_slice())?;
    Ok(Entries::from_vec(entries))
}
