//! Prints the texts.

ghost use Rattle.std.specs.Prelude.{◌≡◌, ◌⊎◌, ◌<◌, true, [], length, OnErr, codes};
ghost use Rattle.cmd_call.specs.Lines.{IsTold, error_line};

use crate::texts::{VERSION, general, text_of};
use cmd_call::{Hears, print_text, tell_file, tell_usage};
use deftable::Bytes;
use std::io;

/// Prints a text. If that fails, the stream has failed.
fn put_text<W: Hears>(text: &[u8], output: &mut W) -> io::Result<()>
    ensures { OnErr result (W.has_failed output.new ≡ true) }
{
    match print_text(text, output) {
        Ok(()) => Ok(()),
        Err(error) => Err(error),
    }
}

/// Prints the line of the version.
fn put_version<W: Hears>(output: &mut W) -> io::Result<()>
    ensures { OnErr result (W.has_failed output.new ≡ true) }
{
    put_text(b"acrun ", output)?;
    put_text(VERSION.as_bytes(), output)?;
    put_text(b"\n", output)?;
    Ok(())
}

/// Prints what is printed of the program as a whole.
fn put_general<W: Hears>(output: &mut W) -> io::Result<()>
    ensures { OnErr result (W.has_failed output.new ≡ true) }
{
    put_version(output)?;
    put_text(general().as_bytes(), output)?;
    Ok(())
}

/// Reports that standard output didn't take a text, and returns the exit status.
fn tell_output<E: Hears>(errors: &mut E) -> u8
    ensures status { result ≡ 2 }
    ensures told { IsTold E.contents E.has_failed errors.old errors.new (
        error_line (codes "file") (codes "standard output")) }
{
    tell_file(errors, b"standard output")
}

/// Prints how a command is called.
fn run_named<W: Hears, E: Hears>(name: &[u8], output: &mut W, errors: &mut E) -> u8
    ensures status { (result ≡ 0) ⊎ (result ≡ 2) }
    ensures silent { result ≡ 0 → errors.new ≡ errors.old }
    ensures refused { result ≡ 2
        → IsTold E.contents E.has_failed errors.old errors.new (error_line (codes "usage") [])
        ⊎ ((W.has_failed output.new ≡ true)
        × IsTold E.contents E.has_failed errors.old errors.new (
        error_line (codes "file") (codes "standard output"))) }
{
    match text_of(name) {
        Some(text) => match put_text(text.as_bytes(), output) {
            Ok(()) => 0,
            Err(_) => tell_output(errors),
        },
        None => tell_usage(errors),
    }
}

/// Prints the commands or, if there is one word, how the command of this name is called. Returns
/// the exit status: 0, or 2 if there is no such command, if there are further words, or if the text
/// can't be written (own).
pub fn run_help<W: Hears, E: Hears>(words: &[Bytes], output: &mut W, errors: &mut E) -> u8
    ensures status { (result ≡ 0) ⊎ (result ≡ 2) }
    ensures further { 1 < length words.now → result ≡ 2 }
    ensures silent { result ≡ 0 → errors.new ≡ errors.old }
    // Otherwise standard error has the line that says which. It says so of standard output only if
    // that has failed.
    ensures refused { result ≡ 2
        → IsTold E.contents E.has_failed errors.old errors.new (error_line (codes "usage") [])
        ⊎ ((W.has_failed output.new ≡ true)
        × IsTold E.contents E.has_failed errors.old errors.new (
        error_line (codes "file") (codes "standard output"))) }
    ensures wrong { 1 < length words.now
        → IsTold E.contents E.has_failed errors.old errors.new (error_line (codes "usage") []) }
{
    match words.first() {
        None => match put_general(output) {
            Ok(()) => 0,
            Err(_) => tell_output(errors),
        },
        Some(name) => {
            if words.len() == 1 {
                return run_named(name.as_slice(), output, errors);
            }
            tell_usage(errors)
        }
    }
}

/// Prints the name and the version of the program. Returns the exit status: 0, or 2 if it can't be
/// written (own).
pub fn run_version<W: Hears, E: Hears>(output: &mut W, errors: &mut E) -> u8
    ensures status { (result ≡ 0) ⊎ (result ≡ 2) }
    ensures silent { result ≡ 0 → errors.new ≡ errors.old }
    // Otherwise standard output has failed, and standard error has the line for it.
    ensures refused { result ≡ 2
        → (W.has_failed output.new ≡ true)
        × IsTold E.contents E.has_failed errors.old errors.new (
        error_line (codes "file") (codes "standard output")) }
{
    match put_version(output) {
        Ok(()) => 0,
        Err(_) => tell_output(errors),
    }
}
