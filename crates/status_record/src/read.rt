//! Records that are read.

ghost use Rattle.std.specs.Prelude.{◌≡◌, ◌≤◌, ◌<◌, ◌+◌, ℕ, IfOk, IfErr, OnOk, Ok, Err, length, drop, map, codes, ◌≢◌, ◌^◌, ◌++◌, List, [], ◌∷◌, ◌-◌, false};
ghost use Rattle.std.specs.List.{list_all};
ghost use Rattle.std.specs.Char.{is_ascii_digit};
ghost use Rattle.status_record.specs.declared.fault.RecordFault.TheVariants.{OutOfMemory};
ghost use Rattle.deftable.specs.NameList.{has_name};
ghost use Rattle.deftable.specs.Table.{names_of};
ghost use Rattle.output_list.specs.Output.{output_names};
ghost use Rattle.status_record.specs.Escape.{unescaped};
ghost use Rattle.status_record.specs.Line.{entry_in, output_in};
ghost use Rattle.status_record.specs.Faults.{IsRecordFault};
ghost use Rattle.status_record.specs.RecordText.{IsRecordText};
ghost use Rattle.status_record.specs.declared.fault.RecordFault.{RecordFault as FaultValue};
ghost use Rattle.status_record.specs.declared.record.Record.{Record as RecordValue};
ghost use Rattle.status_record.specs.Reading as specs;

use crate::escape::unescaped;
use crate::fault::RecordFault;
use crate::line::{after_prefix, entry_in, output_in};
use crate::record::Record;
use deftable::{Bytes, Defs, Texts, Vars};
use output_list::OutputList;
use std::alloc::{AllocError, Global};
use text_cut::parts;

/// The version of a record.
#[derive(Clone, Copy)]
pub enum Version {
    /// The first, which has no arguments.
    First,
    /// The second, which has them.
    Second,
}

/// Appends the argument of line `number`.
fn add_arg(alloc: Global, args: &mut Texts, number: u64, text: &[u8]) -> Result<(), RecordFault>
    ensures { specs.Gives (λ _. args.new) result
        (specs.with_item unescaped specs.is_repeated args.old number text.now) }
{
    let Some(arg) = unescaped(alloc, text)? else {
        return Err(RecordFault::BadLine(number));
    };
    args.push(arg.as_slice())?;
    Ok(())
}

/// Appends the name and the value of line `number`.
#[tactic(auto, using(crate::proofs::Tables::at_end))]
fn add_entry(alloc: Global, table: &mut Defs, number: u64, fields: &[u8]) -> Result<(), RecordFault>
    ensures { specs.Gives (λ _. table.new) result
        (specs.with_item entry_in specs.is_entry table.old number fields.now) }
{
    let Some((name, value)) = entry_in(alloc, fields)? else {
        return Err(RecordFault::BadLine(number));
    };
    if table.get(name).is_some() {
        return Err(RecordFault::DuplicateName(number));
    }
    table.define(name, value.as_slice())?;
    Ok(())
}

/// Returns whether the table has the name.
#[tactic(auto, using(crate::proofs::Tables::at_end))]
fn has(names: &Vars, name: &[u8]) -> bool
    ensures { result ≡ has_name (names_of names.now) name.now }
{
    names.get(name).is_some()
}

/// Adds a name that the table does not have. Its value is empty.
#[tactic(auto, using(crate::proofs::Tables::name_at_end))]
fn add_name(names: &mut Vars, name: &[u8]) -> Result<(), AllocError>
    requires { has_name (names_of names.now) name.now ≡ false }
    ensures { OnOk result (names_of names.new ≡ names_of names.old ++ name.now ∷ []) }
{
    names.set(name, b"")
}

/// Appends the output of line `number`, and adds its name to those of the outputs before.
fn add_output(
    alloc: Global,
    names: &mut Vars,
    outputs: &mut OutputList,
    number: u64,
    fields: &[u8],
) -> Result<(), RecordFault>
    ensures reads { (before : List (List ℕ))
        → names_of names.old ≡ before ++ output_names outputs.old
        → specs.Gives (λ _. outputs.new) result
        (specs.with_item output_in (specs.is_output before) outputs.old number fields.now) }
    ensures named { (before : List (List ℕ))
        → names_of names.old ≡ before ++ output_names outputs.old
        → OnOk result (names_of names.new ≡ before ++ output_names outputs.new) }
{
    let Some(output) = output_in(alloc, fields)? else {
        return Err(RecordFault::BadLine(number));
    };
    if has(names, output.name.as_slice()) {
        return Err(RecordFault::DuplicateName(number));
    }
    add_name(names, output.name.as_slice())?;
    outputs.push(output)?;
    Ok(())
}

/// Reads the lines of arguments after the first two lines.
fn read_texts(alloc: Global, lines: &[&[u8]]) -> Result<(Texts, usize), RecordFault>
    requires { 2 ≤ length lines.now }
    ensures reads { specs.Gives (λ r. (r.0, (r.1, drop r.1 (map (λ t. t.now) lines.now)))) result
        (specs.texts_in (drop 2 (map (λ t. t.now) lines.now))) }
    ensures within { IfOk result (λ r. r.1 ≤ length lines.now) }
{
    let mut args = Texts::new(alloc);
    for i in 2..lines.len() {
        let Some(text) = after_prefix(b"arg ", lines[i]) else {
            return Ok((args, i));
        };
        add_arg(alloc, &mut args, i as u64 + 1, text)?;
    }
    Ok((args, lines.len()))
}

/// Reads the arguments, if the version has them.
fn read_args(
    alloc: Global,
    version: Version,
    lines: &[&[u8]],
) -> Result<(Option<Texts>, usize), RecordFault>
    requires { 2 ≤ length lines.now }
    ensures reads { specs.Gives (λ r. (r.0, (r.1, drop r.1 (map (λ t. t.now) lines.now)))) result
        (specs.args_in version (drop 2 (map (λ t. t.now) lines.now))) }
    ensures within { IfOk result (λ r. r.1 ≤ length lines.now) }
{
    match version {
        Version::First => Ok((None, 2)),
        Version::Second => {
            let (args, at) = read_texts(alloc, lines)?;
            Ok((Some(args), at))
        }
    }
}

/// Reads the variables or the definitions from index `from` on.
fn read_entries(
    alloc: Global,
    keyword: &[u8],
    lines: &[&[u8]],
    from: usize,
) -> Result<(Defs, usize), RecordFault>
    requires { from ≤ length lines.now }
    ensures reads { specs.Gives (λ r. (r.0, (r.1, drop r.1 (map (λ t. t.now) lines.now)))) result
        (specs.entries_in keyword.now from (drop from (map (λ t. t.now) lines.now))) }
    ensures within { IfOk result (λ r. r.1 ≤ length lines.now) }
{
    let mut table = Defs::new(alloc);
    for i in from..lines.len() {
        let Some(fields) = after_prefix(keyword, lines[i]) else {
            return Ok((table, i));
        };
        add_entry(alloc, &mut table, i as u64 + 1, fields)?;
    }
    Ok((table, lines.len()))
}

/// Reads the files or the headers from index `from` on, and adds their names to those of the
/// outputs before.
fn read_outputs(
    alloc: Global,
    keyword: &[u8],
    names: &mut Vars,
    lines: &[&[u8]],
    from: usize,
) -> Result<(OutputList, usize), RecordFault>
    requires { from ≤ length lines.now }
    ensures reads { specs.Gives (λ r. (r.0, (r.1, drop r.1 (map (λ t. t.now) lines.now)))) result (
        specs.outputs_in keyword.now (names_of names.old) from
        (drop from (map (λ t. t.now) lines.now))) }
    ensures within { IfOk result (λ r. r.1 ≤ length lines.now) }
    ensures named { IfOk result (λ r. names_of names.new ≡ names_of names.old ++ output_names r.0) }
{
    let mut outputs = OutputList::new(alloc);
    for i in from..lines.len() {
        let Some(fields) = after_prefix(keyword, lines[i]) else {
            return Ok((outputs, i));
        };
        add_output(alloc, names, &mut outputs, i as u64 + 1, fields)?;
    }
    Ok((outputs, lines.len()))
}

/// Returns whether the text is a decimal number without leading zeros.
fn is_number(text: &[u8]) -> bool
    ensures { result ≡ specs.is_number text.now }
{
    match text {
        [] => false,
        [digit] => digit.is_ascii_digit(),
        [first, _, ..] => *first != b'0' && are_digits(text),
    }
}

fn are_digits(text: &[u8]) -> bool
    ensures { result ≡ list_all is_ascii_digit text.now }
{
    text.iter().all(|byte| byte.is_ascii_digit())
}

fn is_magic(line: &[u8]) -> bool
    ensures { result ≡ specs.is_magic line.now }
{
    match after_prefix(b"acrun-record ", line) {
        None => false,
        Some(number) => is_number(number),
    }
}

/// Reads the first line, the version.
#[tactic(auto, unfolding(crate::specs::Reading::version_in))]
fn read_version(line: &[u8]) -> Result<Version, RecordFault>
    ensures { specs.Gives (λ v. v) result (specs.version_in line.now) }
{
    if line == b"acrun-record 1".as_slice() {
        return Ok(Version::First);
    }
    if line == b"acrun-record 2".as_slice() {
        return Ok(Version::Second);
    }
    if is_magic(line) {
        return Err(RecordFault::UnknownVersion);
    }
    Err(RecordFault::BadMagic)
}

/// Reads the second line, the source directory.
#[tactic(auto, unfolding(crate::specs::Reading::srcdir_in))]
fn read_srcdir(alloc: Global, line: &[u8]) -> Result<Bytes, RecordFault>
    ensures { specs.Gives (λ v. v) result (specs.srcdir_in line.now) }
{
    let Some(text) = after_prefix(b"srcdir ", line) else {
        return Err(RecordFault::BadLine(2));
    };
    let Some(srcdir) = unescaped(alloc, text)? else {
        return Err(RecordFault::BadLine(2));
    };
    Ok(srcdir)
}

/// Reads the last line, with `at` lines before these. `rest` is the text after the last newline.
#[tactic(auto, unfolding(crate::specs::Reading::ending))]
fn read_ending(rest: &[u8], lines: &[&[u8]], at: usize) -> Result<(), RecordFault>
    requires { at + 2 < 2 ^ 64 }
    ensures { specs.Gives (λ u. u) result (specs.ending rest.now at (map (λ t. t.now) lines.now)) }
{
    match lines {
        [] => Err(RecordFault::Truncated),
        [line] => read_end(rest, line, at),
        [line, _, ..] => {
            if *line == b"end".as_slice() {
                Err(RecordFault::BadLine(at as u64 + 2))
            } else {
                Err(RecordFault::BadLine(at as u64 + 1))
            }
        }
    }
}

/// Reads the only line that is left.
#[tactic(auto, unfolding(crate::specs::Reading::ending))]
fn read_end(rest: &[u8], line: &[u8], at: usize) -> Result<(), RecordFault>
    requires { at + 2 < 2 ^ 64 }
    ensures { specs.Gives (λ u. u) result (specs.ending rest.now at (line.now ∷ [])) }
{
    if line != b"end".as_slice() {
        return Err(RecordFault::BadLine(at as u64 + 1));
    }
    if !rest.is_empty() {
        return Err(RecordFault::BadLine(at as u64 + 2));
    }
    Ok(())
}

/// Reads the last line, at index `at`.
fn read_rest(rest: &[u8], lines: &[&[u8]], at: usize) -> Result<(), RecordFault>
    requires { at ≤ length lines.now }
    ensures { specs.Gives (λ u. u) result
        (specs.ending rest.now at (drop at (map (λ t. t.now) lines.now))) }
{
    read_ending(rest, &lines[at..], at)
}

/// Reads the lines after the second.
#[tactic(auto, unfolding(crate::specs::Reading::body_in))]
fn read_body(
    alloc: Global,
    rest: &[u8],
    version: Version,
    srcdir: Bytes,
    lines: &[&[u8]],
) -> Result<Record, RecordFault>
    requires { 2 ≤ length lines.now }
    ensures { specs.Gives (λ r. r) result
        (specs.body_in rest.now version srcdir (drop 2 (map (λ t. t.now) lines.now))) }
{
    let (args, at) = read_args(alloc, version, lines)?;
    let (vars, at) = read_entries(alloc, b"var ", lines, at)?;
    let (defs, at) = read_entries(alloc, b"def ", lines, at)?;
    let mut names = Vars::new(alloc);
    let (files, at) = read_outputs(alloc, b"file ", &mut names, lines, at)?;
    let (headers, at) = read_outputs(alloc, b"header ", &mut names, lines, at)?;
    read_rest(rest, lines, at)?;
    Ok(Record {
        srcdir,
        args,
        vars,
        defs,
        files,
        headers,
    })
}

/// Reads the lines that a newline ends. `rest` is the text after the last newline.
#[tactic(auto, unfolding(crate::specs::Reading::lines_in))]
fn read_lines(alloc: Global, rest: &[u8], lines: &[&[u8]]) -> Result<Record, RecordFault>
    ensures { specs.Gives (λ r. r) result (specs.lines_in rest.now (map (λ t. t.now) lines.now)) }
{
    match lines {
        [] => Err(RecordFault::BadMagic),
        [first] => {
            read_version(first)?;
            Err(RecordFault::Truncated)
        }
        [first, second, ..] => {
            let version = read_version(first)?;
            let srcdir = read_srcdir(alloc, second)?;
            read_body(alloc, rest, version, srcdir, lines)
        }
    }
}

fn read_text(alloc: Global, text: &[u8]) -> Result<Record, RecordFault>
    ensures { specs.Gives (λ r. r) result (specs.record_in text.now) }
{
    let parts = parts(alloc, text, b'\n')?;
    match parts.split_last() {
        None => Err(RecordFault::BadMagic),
        Some((rest, lines)) => read_lines(alloc, rest, lines),
    }
}

/// Reads the text of a record, as [`write_record`](crate::write_record) writes it (own).
///
/// # Errors
///
/// The errors come in this order:
///
/// - `BadMagic`, if the text has no newline or its first line isn't `acrun-record` and a number;
/// - `UnknownVersion`, if that number is neither 1 nor 2;
/// - `BadLine` or `DuplicateName`, for the first line that has none of the forms or gives a name
///   again;
/// - `Truncated`, if the text ends before the line `end` and its newline.
pub fn read_record(alloc: Global, text: &[u8]) -> Result<Record, RecordFault>
    // What is returned is a record, and the text is its text.
    ensures sound { IfOk result (λ r. IsRecordText text.now r) }
    // The text of a record is read as that record, unless memory runs out.
    ensures complete { (r : RecordValue) → IsRecordText text.now r
        → specs.Gives (λ r. r) result (Ok r) }
    // An error other than out of memory is the first fault of the text.
    ensures error_sound { IfErr result (λ fault.
        fault ≢ OutOfMemory → IsRecordFault text.now fault) }
    // If the text has a fault, the first one is returned, unless memory runs out.
    ensures error_complete { (fault : FaultValue) → IsRecordFault text.now fault
        → specs.Gives (λ r. r) result (Err fault) }
    // The same as a function: any other text has its first fault returned, unless memory runs out.
    ensures exact { specs.Gives (λ r. r) result (specs.record_in text.now) }
{
    read_text(alloc, text)
}
