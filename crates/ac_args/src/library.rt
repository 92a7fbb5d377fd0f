//! Arguments that name libraries.

ghost use Rattle.std.specs.Prelude.{◌≡◌, map, IfOk};
ghost use Rattle.std.specs.List.{list_all};
ghost use Rattle.m4quote.specs.ItemValue.{span};
ghost use Rattle.text_cut.specs.Cuts.{fields};
ghost use Rattle.ac_args.specs.Libraries as words;
ghost use Rattle.ac_statement.specs.Reading.{Gives};

use crate::arguments::{text, trimmed_text};
use ac_statement::fault::ParseFault;
use ac_tree::is_feature;
use deftable::Bytes;
use deftable::texts::copies;
use m4quote::Arg;
use std::alloc::{AllocError, Global};
use text_cut::fields;

#[tactic(auto, unfolding(crate::specs::Libraries::is_library))]
fn is_library(name: &[u8]) -> bool
    ensures { result ≡ words.is_library name.now }
{
    is_feature(name)
}

fn are_libraries(names: &[&[u8]]) -> bool
    ensures { result ≡ list_all (λ n. words.is_library n.now) names.now }
{
    names.iter().all(|name| is_library(name))
}

/// Returns whether every field of a text is the name of a library.
#[tactic(auto, using(crate::proofs::Lists::mapped))]
fn lists_libraries(alloc: Global, text: &[u8]) -> Result<bool, AllocError>
    ensures { IfOk result (λ b. b ≡ list_all words.is_library (fields text.now)) }
{
    let names = fields(alloc, text)?;
    Ok(are_libraries(names.as_slice()))
}

/// Returns the name of a library, without the blanks at its ends: a text that is not empty, of
/// letters, digits, `-`, `+`, `.` and `_` alone (own).
///
/// # Errors
///
/// - `BadName` at the argument, if the text is any other.
#[tactic(auto, unfolding(crate::specs::Libraries::library))]
pub fn library(alloc: Global, arg: Arg<'_>) -> Result<Bytes, ParseFault>
    ensures { Gives (λ t. t) result (words.library (span arg.entry)) }
{
    let text = trimmed_text(alloc, arg)?;
    if !is_library(text.as_slice()) {
        return Err(ParseFault::BadName(arg.at));
    }
    Ok(text)
}

/// Returns the libraries that a text at `at` lists between blanks.
#[tactic(auto, using(crate::proofs::Lists::mapped_and_counted))]
fn libraries_in(alloc: Global, text: &[u8], at: usize) -> Result<Vec<Bytes>, ParseFault>
    ensures { Gives (λ v. v.items) result (words.libraries_in at text.now) }
{
    let names = fields(alloc, text)?;
    if names.is_empty() {
        return Err(ParseFault::BadName(at));
    }
    if !lists_libraries(alloc, text)? {
        return Err(ParseFault::BadName(at));
    }
    Ok(copies(alloc, names.as_slice())?)
}

/// Returns the libraries that an argument lists between blanks, any number of them (Autoconf's
/// manual, "Library Files").
///
/// # Errors
///
/// - `BadName` at the argument, if it lists none, or if one of them is no name of a library.
#[tactic(auto, unfolding(crate::specs::Libraries::libraries))]
pub fn libraries(alloc: Global, arg: Arg<'_>) -> Result<Vec<Bytes>, ParseFault>
    ensures { Gives (λ v. v.items) result (words.libraries (span arg.entry)) }
{
    let text = text(alloc, arg)?;
    libraries_in(alloc, text.as_slice(), arg.at)
}
