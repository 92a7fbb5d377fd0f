//! Readers of arguments, one for each form.

ghost use Rattle.std.specs.Prelude.{◌≡◌, ◌+◌, ◌≤◌, length, map, Ok, Err, IfOk, IfErr, ℕ, List, []};
ghost use Rattle.m4quote.specs.ItemValue.{span};
ghost use Rattle.ac_args.specs.Arguments as forms;
ghost use Rattle.ac_statement.specs.Reading.{Gives};
ghost use Rattle.ac_statement.specs.Texts as texts;

use ac_statement::fault::{ParseFault, moved_by, quote_fault};
use deftable::{Bytes, Name, is_cache_name};
use m4quote::{Arg, QuoteFault, used_text};
use std::alloc::{AllocError, Global};
use text_cut::trim;

/// Returns the used text of an argument: its quotes are removed and its quadrigraphs replaced
/// (Autoconf's manual, "The Autoconf Language").
pub fn text(alloc: Global, arg: Arg<'_>) -> Result<Bytes, ParseFault>
    ensures { Gives (λ t. t) result (forms.text (span arg.entry)) }
{
    match used_text(alloc, arg.text) {
        Ok(bytes) => Ok(Bytes::from_vec(bytes)),
        Err(fault) => Err(quote_fault(moved_by(arg.at, fault))),
    }
}

/// Returns whether an argument is given. An absent argument, and one whose used text is empty, are
/// not. One with an error in its quotes is.
#[tactic(auto, unfolding(crate::specs::Arguments::is_given))]
pub fn is_given(alloc: Global, arg: Arg<'_>) -> Result<bool, AllocError>
    ensures { IfOk result (λ b. b ≡ forms.is_given (span arg.entry)) }
{
    match used_text(alloc, arg.text) {
        Ok(text) => Ok(!text.is_empty()),
        Err(QuoteFault::OutOfMemory) => Err(AllocError),
        Err(_) => Ok(true),
    }
}

/// Returns the used text of an argument without the blanks at its ends.
#[tactic(auto, unfolding(crate::specs::Arguments::trimmed_text))]
pub(crate) fn trimmed_text(alloc: Global, arg: Arg<'_>) -> Result<Bytes, ParseFault>
    ensures { Gives (λ t. t) result (forms.trimmed_text (span arg.entry)) }
{
    let text = text(alloc, arg)?;
    Ok(Bytes::from_slice(alloc, trim(text.as_slice()))?)
}

/// Returns a shell name or a C identifier, which have the same form (POSIX, "Name").
///
/// # Errors
///
/// - `BadName` at the argument, if the text without the blanks at its ends is no name.
#[tactic(auto, unfolding(crate::specs::Arguments::name))]
pub fn name(alloc: Global, arg: Arg<'_>) -> Result<Name, ParseFault>
    ensures { Gives (λ n. n) result (forms.name (span arg.entry)) }
{
    let text = trimmed_text(alloc, arg)?;
    match Name::new(text) {
        Some(name) => Ok(name),
        None => Err(ParseFault::BadName(arg.at)),
    }
}

/// Returns the name of a cached value: a shell name that contains `_cv_` (Autoconf's manual, "Cache
/// Variable Names").
///
/// # Errors
///
/// - `BadName` at the argument, if the text without the blanks at its ends is no such name.
#[tactic(auto, unfolding(crate::specs::Arguments::cache_name))]
pub fn cache_name(alloc: Global, arg: Arg<'_>) -> Result<Name, ParseFault>
    ensures { Gives (λ n. n) result (forms.cache_name (span arg.entry)) }
{
    let name = name(alloc, arg)?;
    if !is_cache_name(name.as_slice()) {
        return Err(ParseFault::BadName(arg.at));
    }
    Ok(name)
}

/// Returns a text on one line, without the blanks at its ends (own).
///
/// # Errors
///
/// - `BadName` at the argument, if the text has a newline between other bytes.
#[tactic(auto, unfolding(crate::specs::Arguments::title))]
pub fn title(alloc: Global, arg: Arg<'_>) -> Result<Bytes, ParseFault>
    ensures { Gives (λ t. t) result (forms.title (span arg.entry)) }
{
    let text = trimmed_text(alloc, arg)?;
    if !is_line(text.as_slice()) {
        return Err(ParseFault::BadName(arg.at));
    }
    Ok(text)
}

/// Returns a text on one line, with the blanks at its ends (own).
///
/// # Errors
///
/// - `BadName` at the argument, if the text has a newline.
#[tactic(auto, unfolding(crate::specs::Arguments::line))]
pub fn line(alloc: Global, arg: Arg<'_>) -> Result<Bytes, ParseFault>
    ensures { Gives (λ t. t) result (forms.line (span arg.entry)) }
{
    let text = text(alloc, arg)?;
    if !is_line(text.as_slice()) {
        return Err(ParseFault::BadName(arg.at));
    }
    Ok(text)
}

/// Returns whether the text has no newline.
fn is_line(text: &[u8]) -> bool
    ensures { result ≡ texts.is_line text.now }
{
    text.iter().all(|byte| *byte != b'\n')
}
