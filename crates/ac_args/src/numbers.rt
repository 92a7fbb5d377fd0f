//! Readers of arguments that are numbers, and of the name of a language.

ghost use Rattle.std.specs.Prelude.{◌≡◌, ◌≤◌, [], map, IfOk, slice_index_or};
ghost use Rattle.std.specs.Char.{is_ascii_digit};
ghost use Rattle.std.specs.List.{list_all};
ghost use Rattle.m4quote.specs.ItemValue.{span};
ghost use Rattle.text_cut.specs.Cuts as cuts;
ghost use Rattle.ac_args.specs.Numbers as forms;
ghost use Rattle.ac_statement.specs.Reading.{Gives};

use crate::arguments::{text, trimmed_text};
use ac_statement::fault::ParseFault;
use m4quote::Arg;
use std::alloc::Global;
use text_cut::parts;

fn are_digits(text: &[u8]) -> bool
    ensures { result ≡ list_all is_ascii_digit text.now }
{
    text.iter().all(|byte| byte.is_ascii_digit())
}

fn is_number(text: &[u8]) -> bool
    ensures { result ≡ forms.is_number text.now }
{
    !text.is_empty() && are_digits(text)
}

/// Returns a number with one digit appended. 1,000 represents every number from 1,000 on.
fn digit_more(number: u32, byte: u8) -> u32
    ensures { result ≡ forms.digit_more number byte }
{
    let more = u64::from(number) * 10 + u64::from(byte.saturating_sub(b'0'));
    if more < 1000 { more as u32 } else { 1000 }
}

fn number(text: &[u8]) -> u32
    ensures { result ≡ forms.number text.now }
{
    text.iter()
        .fold(0, |number, byte| digit_more(number, *byte))
}

fn are_numbers(parts: &[&[u8]]) -> bool
    ensures { result ≡ list_all (λ p. forms.is_number p.now) parts.now }
{
    parts.iter().all(|part| is_number(part))
}

/// Returns the number at `i` of a version, or 0 if it has none there.
fn version_number(numbers: &[&[u8]], i: usize) -> u32
    ensures { result ≡ forms.version_number (map (λ p. p.now) numbers.now) i }
{
    if i < numbers.len() {
        number(numbers[i])
    } else {
        0
    }
}

fn is_newer(numbers: &[&[u8]]) -> bool
    ensures { result ≡ forms.is_newer (map (λ p. p.now) numbers.now) }
{
    let first = version_number(numbers, 0);
    let second = version_number(numbers, 1);
    first > 2 || (first == 2 && (second > 71 || (second == 71 && version_number(numbers, 2) > 0)))
}

#[tactic(auto, using(crate::proofs::Lists::mapped_and_counted))]
fn is_version(numbers: &[&[u8]]) -> bool
    ensures { result ≡ forms.is_version (map (λ p. p.now) numbers.now) }
{
    are_numbers(numbers) && numbers.len() <= 3
}

/// Checks that the numbers are a version, and that it is at most 2.71.
#[tactic(auto, unfolding(crate::specs::Numbers::version_of))]
fn check_version(at: usize, numbers: &[&[u8]]) -> Result<(), ParseFault>
    ensures { Gives (λ x. x) result (forms.version_of at (map (λ p. p.now) numbers.now)) }
{
    if !is_version(numbers) {
        return Err(ParseFault::BadName(at));
    }
    if is_newer(numbers) {
        return Err(ParseFault::NewerVersion(at));
    }
    Ok(())
}

/// Checks the version that AC_PREREQ requires: one to three numbers with dots between them. An
/// absent number counts as 0 (Autoconf's manual, "Versioning").
///
/// # Errors
///
/// - `BadName` at the argument, if the text has another form.
/// - `NewerVersion` at the argument, if the version is newer than 2.71.
#[tactic(auto, unfolding(crate::specs::Numbers::version))]
pub fn version(alloc: Global, arg: Arg<'_>) -> Result<(), ParseFault>
    ensures { Gives (λ x. x) result (forms.version (span arg.entry)) }
{
    let text = text(alloc, arg)?;
    let numbers = parts(alloc, text.as_slice(), b'.')?;
    check_version(arg.at, numbers.as_slice())
}

/// Returns an exit status from 1 to 255, or 1 if the text is empty (own).
///
/// # Errors
///
/// - `BadName` at the argument, if the text is any other.
#[tactic(auto, unfolding(crate::specs::Numbers::status))]
pub fn status(alloc: Global, arg: Arg<'_>) -> Result<u8, ParseFault>
    ensures { Gives (λ n. n) result (forms.status (span arg.entry)) }
{
    let text = text(alloc, arg)?;
    if text.is_empty() {
        return Ok(1);
    }
    let status = number(text.as_slice());
    if !is_number(text.as_slice()) || status == 0 || status > 255 {
        return Err(ParseFault::BadName(arg.at));
    }
    Ok(status as u8)
}

/// Checks the name of a language. C is the only one that is read (own).
///
/// # Errors
///
/// - `BadName` at the argument, if the text is another.
#[tactic(auto, unfolding(crate::specs::Numbers::language))]
pub fn language(alloc: Global, arg: Arg<'_>) -> Result<(), ParseFault>
    ensures { Gives (λ x. x) result (forms.language (span arg.entry)) }
{
    let text = trimmed_text(alloc, arg)?;
    if text.as_slice() != b"C".as_slice() {
        return Err(ParseFault::BadName(arg.at));
    }
    Ok(())
}
