//! Writing a record.

ghost use Rattle.std.specs.Prelude.{◌≡◌, ◌++◌, ◌∷◌, [], List, ℕ, OnOk, IfOk, Ok, codes, map};
ghost use Rattle.status_record.specs.Escape.{escaped};
ghost use Rattle.status_record.specs.Line.{ended, two_fields, entry_fields, output_fields};
ghost use Rattle.status_record.specs.RecordText.{lines_of, version_line, arg_lines, record_text, IsRecord, IsRecordText};
ghost use Rattle.status_record.specs.Reading.{record_in};

use crate::escape::put_escaped;
use crate::record::Record;
use deftable::{Bytes, Defs, Texts};
use output_list::Output;
use std::alloc::{AllocError, Global};

/// Appends a line: a keyword and a value.
fn put_value(out: &mut Vec<u8>, keyword: &[u8], value: &[u8]) -> Result<(), AllocError>
    ensures { OnOk result (
        out.new.items ≡ out.old.items ++ ended ((keyword.now ++ escaped value.now) ∷ [])) }
{
    out.extend_from_slice(keyword)?;
    put_escaped(out, value)?;
    out.push(b'\n')?;
    Ok(())
}

/// Appends a line: a keyword, a name and a value.
fn put_entry(out: &mut Vec<u8>, keyword: &[u8], name: &[u8], value: &[u8]) -> Result<(), AllocError>
    ensures { OnOk result (
        out.new.items
        ≡ out.old.items
        ++ ended ((keyword.now ++ two_fields name.now (escaped value.now)) ∷ [])) }
{
    out.extend_from_slice(keyword)?;
    out.extend_from_slice(name)?;
    put_value(out, b" ", value)
}

/// Appends a line: a keyword, a name and a template.
fn put_output(out: &mut Vec<u8>, keyword: &[u8], output: &Output) -> Result<(), AllocError>
    ensures { OnOk result (
        out.new.items ≡ out.old.items ++ ended ((keyword.now ++ output_fields output.now) ∷ [])) }
{
    out.extend_from_slice(keyword)?;
    put_escaped(out, output.name.as_slice())?;
    put_value(out, b" ", output.template.as_slice())
}

/// Appends a line for each argument.
fn put_texts(out: &mut Vec<u8>, args: &[Bytes]) -> Result<(), AllocError>
    ensures { OnOk result (
        out.new.items ≡ out.old.items ++ ended (lines_of (codes "arg ") escaped args.now)) }
{
    for arg in args {
        put_value(out, b"arg ", arg.as_slice())?;
    }
    Ok(())
}

/// Appends the first line, the version.
fn put_version(out: &mut Vec<u8>, args: &Option<Texts>) -> Result<(), AllocError>
    ensures { OnOk result (out.new.items ≡ out.old.items ++ ended (version_line args.now ∷ [])) }
{
    match args {
        None => out.extend_from_slice(b"acrun-record 1\n"),
        Some(_) => out.extend_from_slice(b"acrun-record 2\n"),
    }
}

/// Appends the lines of the arguments, if the record has them.
fn put_args(out: &mut Vec<u8>, args: &Option<Texts>) -> Result<(), AllocError>
    ensures { OnOk result (out.new.items ≡ out.old.items ++ ended (arg_lines args.now)) }
{
    match args {
        None => Ok(()),
        Some(args) => put_texts(out, args.as_slice()),
    }
}

/// Appends a line for each entry of a table.
fn put_entries(out: &mut Vec<u8>, keyword: &[u8], table: &Defs) -> Result<(), AllocError>
    ensures { OnOk result (
        out.new.items ≡ out.old.items ++ ended (lines_of keyword.now entry_fields table.now)) }
{
    for i in 0..table.len() {
        let (name, value) = table.at(i);
        put_entry(out, keyword, name, value)?;
    }
    Ok(())
}

/// Appends a line for each output.
fn put_outputs(out: &mut Vec<u8>, keyword: &[u8], outputs: &[Output]) -> Result<(), AllocError>
    ensures { OnOk result (
        out.new.items ≡ out.old.items ++ ended (lines_of keyword.now output_fields outputs.now)) }
{
    for output in outputs {
        put_output(out, keyword, output)?;
    }
    Ok(())
}

#[tactic(auto, unfolding(crate::specs::RecordText::record_text))]
fn text_of(alloc: Global, status: &Record) -> Result<Bytes, AllocError>
    ensures { IfOk result (λ t. t ≡ record_text status.now) }
{
    let mut out = Vec::new(alloc);
    put_version(&mut out, &status.args)?;
    put_value(&mut out, b"srcdir ", status.srcdir.as_slice())?;
    put_args(&mut out, &status.args)?;
    put_entries(&mut out, b"var ", &status.vars)?;
    put_entries(&mut out, b"def ", &status.defs)?;
    put_outputs(&mut out, b"file ", status.files.as_slice())?;
    put_outputs(&mut out, b"header ", status.headers.as_slice())?;
    out.extend_from_slice(b"end\n")?;
    Ok(Bytes::from_vec(out))
}

/// Returns the text of a record (own): that of the second version if the record has arguments, and
/// of the first otherwise.
///
/// In a record that may be written, the names of the variables and of the definitions are shell
/// names, the names and the templates of the outputs are paths ([`is_path`](crate::is_path)), and
/// no name occurs twice. Files and headers share their names.
pub fn write_record(alloc: Global, status: &Record) -> Result<Bytes, AllocError>
    requires { IsRecord status.now }
    // What is written is the record's text.
    ensures text { IfOk result (λ t. IsRecordText t status.now) }
    ensures exact { IfOk result (λ t. t ≡ record_text status.now) }
    // This text is read as the record.
    ensures reads_back { IfOk result (λ t. record_in t ≡ Ok status.now) }
{
    text_of(alloc, status)
}
