//! The run that the record is of.

ghost use Rattle.std.specs.Prelude.{◌≡◌, ◌++◌, None, IfErr, IfNone, IfOk, IfSome, OnOk, flat_map, option_map};
ghost use Rattle.status_record.specs.Reading.{Fails, record_in};
ghost use Rattle.cmd_why.specs.Quoting as specs;
ghost use Rattle.cmd_why.specs.Why.{IsLineIn};

use cachefile::word_text;
use deftable::{Bytes, Defs, Texts};
use status_record::{Record, RecordFault, read_record};
use std::alloc::{AllocError, Global};

/// Appends the word of a shell for an argument.
pub(crate) fn put_word(alloc: Global, out: &mut Vec<u8>, arg: &[u8]) -> Result<(), AllocError>
    ensures { OnOk result (out.new.items ≡ out.old.items ++ specs.shell_word arg.now) }
{
    if arg.is_empty() {
        return out.extend_from_slice(b"''");
    }
    let word = word_text(alloc, arg)?;
    out.extend_from_slice(word.as_slice())
}

/// Appends a blank and the word of a shell for an argument.
#[tactic(auto, unfolding(crate::specs::Quoting::argument_word))]
fn put_arg(alloc: Global, out: &mut Vec<u8>, arg: &[u8]) -> Result<(), AllocError>
    ensures { OnOk result (out.new.items ≡ out.old.items ++ specs.argument_word arg.now) }
{
    out.extend_from_slice(b" ")?;
    put_word(alloc, out, arg)
}

/// Appends the words of a shell for arguments.
fn put_args(alloc: Global, out: &mut Vec<u8>, args: &[Bytes]) -> Result<(), AllocError>
    ensures { OnOk result (out.new.items ≡ out.old.items ++ flat_map specs.argument_word args.now) }
{
    for arg in args {
        put_arg(alloc, out, arg.as_slice())?;
    }
    Ok(())
}

/// Appends the front of the line of a run.
#[tactic(auto, unfolding(crate::specs::Quoting::run_front))]
fn put_front(out: &mut Vec<u8>) -> Result<(), AllocError>
    ensures { OnOk result (out.new.items ≡ out.old.items ++ specs.run_front) }
{
    out.extend_from_slice(b"The run that config.status is of: acrun configure")
}

/// Returns the line of a run with these arguments.
fn line_of(alloc: Global, args: &[Bytes]) -> Result<Vec<u8>, AllocError>
    ensures { IfOk result (λ line. line.items ≡ specs.run_line args.now) }
{
    let mut out = Vec::new(alloc);
    put_front(&mut out)?;
    put_args(alloc, &mut out, args)?;
    out.extend_from_slice(b"\n")?;
    Ok(out)
}

/// Returns the arguments of a record, if it has some.
fn args_of(made: Record) -> Option<Texts>
    ensures { result ≡ made.args }
{
    let Record { args, .. } = made;
    args
}

/// Returns the arguments of a record and its definitions, if it has arguments.
fn kept_of(made: Record) -> Option<(Texts, Defs)>
    ensures { result ≡ option_map (λ arguments. (arguments, made.defs)) made.args }
{
    let Record { args, defs, .. } = made;
    match args {
        Some(args) => Some((args, defs)),
        None => None,
    }
}

/// Returns the arguments of the record in a text and its definitions, or `None` if the text is no
/// record, or the record has no arguments.
#[tactic(auto, using(crate::proofs::Records::nothing_kept))]
pub(crate) fn kept_in(alloc: Global, text: &[u8]) -> Result<Option<(Texts, Defs)>, AllocError>
    ensures { IfOk result (λ kept. kept ≡ specs.kept_in (record_in text.now)) }
{
    match read_record(alloc, text) {
        Ok(record) => Ok(kept_of(record)),
        Err(RecordFault::OutOfMemory) => Err(AllocError),
        Err(_) => Ok(None),
    }
}

/// Returns the arguments of the record in a text, or `None` if the record has no arguments. Fails if
/// the text is no record.
fn args_in(alloc: Global, text: &[u8]) -> Result<Option<Texts>, RecordFault>
    ensures args { IfOk result (λ args. args ≡ specs.arguments_in (record_in text.now)) }
    ensures refused { IfErr result (λ fault. Fails fault (record_in text.now)) }
{
    match read_record(alloc, text) {
        Ok(record) => Ok(args_of(record)),
        Err(fault) => Err(fault),
    }
}

/// Returns the line of the run that the record in a text is of, with the arguments as words of a
/// shell, or `None` if the record has no arguments. Fails if the text is no record.
pub(crate) fn line_in(alloc: Global, text: &[u8]) -> Result<Option<Vec<u8>>, RecordFault>
    ensures line { IfOk result (λ o. IfSome o (λ line. IsLineIn text.now line.items)) }
    ensures none { IfOk result (λ o. IfNone o (specs.arguments_in (record_in text.now) ≡ None)) }
    ensures refused { IfErr result (λ fault. Fails fault (record_in text.now)) }
{
    match args_in(alloc, text) {
        Ok(Some(args)) => match line_of(alloc, args.as_slice()) {
            Ok(line) => Ok(Some(line)),
            Err(_) => Err(RecordFault::OutOfMemory),
        },
        Ok(None) => Ok(None),
        Err(fault) => Err(fault),
    }
}
