//! Arguments of checks: names of programs, and the texts of programs that are compiled.

ghost use Rattle.std.specs.Prelude.{◌≡◌, ◌++◌, map, IfOk, OnOk};
ghost use Rattle.std.specs.List.{list_all};
ghost use Rattle.m4quote.specs.ItemValue.{span};
ghost use Rattle.text_cut.specs.Cuts.{fields};
ghost use Rattle.ac_args.specs.Programs as words;
ghost use Rattle.ac_statement.specs.Reading.{Gives};

use crate::arguments::{text, trimmed_text};
use ac_statement::fault::{ParseFault, shell_fault};
use conftest_source::default_includes;
use deftable::Bytes;
use deftable::texts::copies;
use m4quote::Arg;
use shellword::{HereText, read_here};
use std::alloc::{AllocError, Global};
use text_cut::{fields, is_blank, parts, trim};

fn is_program_byte(byte: u8) -> bool
    ensures { result ≡ words.is_program_byte byte }
{
    !(is_blank(byte) || byte == b'$' || byte == b'\\' || byte == b'`')
}

fn are_program_bytes(name: &[u8]) -> bool
    ensures { result ≡ list_all words.is_program_byte name.now }
{
    name.iter().all(|byte| is_program_byte(*byte))
}

#[tactic(auto, unfolding(crate::specs::Programs::is_program))]
fn is_program(name: &[u8]) -> bool
    ensures { result ≡ words.is_program name.now }
{
    match name {
        [] => false,
        _ => are_program_bytes(name),
    }
}

fn are_programs(names: &[&[u8]]) -> bool
    ensures { result ≡ list_all (λ n. words.is_program n.now) names.now }
{
    names.iter().all(|name| is_program(name))
}

/// Returns whether every field of a text is the name of a program.
#[tactic(auto, using(crate::proofs::Lists::mapped))]
fn lists_programs(alloc: Global, text: &[u8]) -> Result<bool, AllocError>
    ensures { IfOk result (λ b. b ≡ list_all words.is_program (fields text.now)) }
{
    let names = fields(alloc, text)?;
    Ok(are_programs(names.as_slice()))
}

/// Returns the name of a program, without the blanks at its ends: a text that is not empty and has
/// no blank, `$`, backslash and backquote (own).
///
/// # Errors
///
/// - `BadName` at the argument, if the text is any other.
#[tactic(auto, unfolding(crate::specs::Programs::program))]
pub fn program(alloc: Global, arg: Arg<'_>) -> Result<Bytes, ParseFault>
    ensures { Gives (λ t. t) result (words.program (span arg.entry)) }
{
    let text = trimmed_text(alloc, arg)?;
    if !is_program(text.as_slice()) {
        return Err(ParseFault::BadName(arg.at));
    }
    Ok(text)
}

/// Returns the programs that a text at `at` lists between blanks.
#[tactic(auto, using(crate::proofs::Lists::mapped_and_counted))]
fn programs_in(alloc: Global, text: &[u8], at: usize) -> Result<Vec<Bytes>, ParseFault>
    ensures { Gives (λ v. v.items) result (words.programs_in at text.now) }
{
    let names = fields(alloc, text)?;
    if names.is_empty() {
        return Err(ParseFault::BadName(at));
    }
    if !lists_programs(alloc, text)? {
        return Err(ParseFault::BadName(at));
    }
    Ok(copies(alloc, names.as_slice())?)
}

/// Returns the programs that an argument lists between blanks.
///
/// # Errors
///
/// - `BadName` at the argument, if it lists none, or if one of them is no name of a program.
#[tactic(auto, unfolding(crate::specs::Programs::programs))]
pub fn programs(alloc: Global, arg: Arg<'_>) -> Result<Vec<Bytes>, ParseFault>
    ensures { Gives (λ v. v.items) result (words.programs (span arg.entry)) }
{
    let text = text(alloc, arg)?;
    programs_in(alloc, text.as_slice(), arg.at)
}

/// Returns whether a line is AC_INCLUDES_DEFAULT alone, with blanks around it or none.
fn is_default_line(line: &[u8]) -> bool
    ensures { result ≡ words.is_default_line line.now }
{
    trim(line) == b"AC_INCLUDES_DEFAULT".as_slice()
}

/// Appends a line, with a newline unless it is the last. A line that is AC_INCLUDES_DEFAULT becomes
/// the default includes.
fn put_line(out: &mut Vec<u8>, line: &[u8], is_last: bool) -> Result<(), AllocError>
    ensures { OnOk result (
        out.new.items ≡ out.old.items ++ words.line_or_includes is_last line.now) }
{
    if is_default_line(line) {
        return out.extend_from_slice(default_includes());
    }
    out.extend_from_slice(line)?;
    if !is_last {
        out.push(b'\n')?;
    }
    Ok(())
}

/// Returns the text with the default includes in the place of each line that is
/// AC_INCLUDES_DEFAULT.
#[tactic(auto, unfolding(crate::specs::Programs::with_includes))]
fn with_includes(alloc: Global, text: &[u8]) -> Result<Vec<u8>, AllocError>
    ensures { IfOk result (λ v. v.items ≡ words.with_includes text.now) }
{
    let lines = parts(alloc, text, b'\n')?;
    let mut out = Vec::new(alloc);
    for i in 0..lines.len() {
        put_line(&mut out, lines[i], i + 1 == lines.len())?;
    }
    Ok(out)
}

/// Returns a text at `at` as here text, with the default includes in it.
#[tactic(auto, unfolding(crate::specs::Programs::source_in))]
fn source_in(alloc: Global, at: usize, text: &[u8]) -> Result<HereText, ParseFault>
    ensures { Gives (λ h. h) result (words.source_in at text.now) }
{
    let text = with_includes(alloc, text)?;
    match read_here(alloc, text.as_slice()) {
        Ok(here) => Ok(here),
        Err(fault) => Err(shell_fault(at, fault)),
    }
}

/// Returns the text of a program that is compiled, or a fragment of one, as here text. A line that
/// is AC_INCLUDES_DEFAULT alone becomes the default includes (Autoconf's manual, "Generating
/// Sources").
///
/// # Errors
///
/// - `Shell` at the argument, if the text can't be read as here text.
#[tactic(auto, unfolding(crate::specs::Programs::source_text))]
pub fn source_text(alloc: Global, arg: Arg<'_>) -> Result<HereText, ParseFault>
    ensures { Gives (λ h. h) result (words.source_text (span arg.entry)) }
{
    let text = text(alloc, arg)?;
    source_in(alloc, arg.at, text.as_slice())
}

/// Returns whether a text is `-` alone, with blanks around it or none.
fn is_dash(text: &[u8]) -> bool
    ensures { result ≡ words.is_dash text.now }
{
    trim(text) == b"-".as_slice()
}

/// Returns the includes that a text at `at` gives.
fn includes_in(alloc: Global, at: usize, text: &[u8]) -> Result<Option<HereText>, ParseFault>
    ensures { Gives (λ h. h) result (words.includes_in at text.now) }
{
    if is_dash(text) {
        return Err(ParseFault::BadName(at));
    }
    let here = source_in(alloc, at, text)?;
    Ok(Some(here))
}

/// Returns the includes that an argument gives, as here text, or `None` if its text is empty, which
/// means the default includes. A line that is AC_INCLUDES_DEFAULT alone becomes the default
/// includes (Autoconf's manual, "Generic Headers").
///
/// # Errors
///
/// - `BadName` at the argument, if the text without the blanks at its ends is `-` (own).
/// - `Shell` at the argument, if the text can't be read as here text.
#[tactic(auto, unfolding(crate::specs::Programs::includes))]
pub fn includes(alloc: Global, arg: Arg<'_>) -> Result<Option<HereText>, ParseFault>
    ensures { Gives (λ h. h) result (words.includes (span arg.entry)) }
{
    let text = text(alloc, arg)?;
    if text.is_empty() {
        return Ok(None);
    }
    includes_in(alloc, arg.at, text.as_slice())
}
