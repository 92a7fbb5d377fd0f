//! What a log can't show for certain, and what the record has of it.

ghost use Rattle.std.specs.Prelude.{◌≡◌, ◌++◌, Some, map, option_map, OnOk};
ghost use Rattle.deftable.specs.Table.{value_of};
ghost use Rattle.cmd_why.specs.Doubts as specs;
ghost use Rattle.cmd_why.specs.Views.{line_seen};

use crate::lines::LogLine;
use crate::seen::Seen;
use cfglog::LineKind;
use deftable::{Bytes, Defs};
use std::alloc::AllocError;

/// Returns whether a text looks as only a line of a child does.
fn is_of_child(text: &[u8]) -> bool
    ensures { result ≡ specs.is_of_child text.now }
{
    text.starts_with(b"status ")
        || (text.starts_with(b"| ")
            || (text == b"failed program was:\n".as_slice()
                || (text == b"start refused\n".as_slice() || text == b"wait refused\n".as_slice())))
}

/// Returns whether a line is a message, but looks as only a line of a child does.
fn is_odd(part: LineKind, text: &[u8]) -> bool
    ensures { result ≡ specs.is_odd_in part text.now }
{
    match part {
        LineKind::Message => is_of_child(text),
        _ => false,
    }
}

/// Returns whether one of these lines is such a message.
fn has_odd(lines: &[LogLine<'_>]) -> bool
    ensures { result ≡ specs.has_odd (map line_seen lines.now) }
{
    for line in lines {
        if is_odd(line.part, line.text) {
            return true;
        }
    }
    false
}

/// Appends what is said of a log that can be read in two ways.
#[tactic(auto, unfolding(crate::specs::Doubts::doubt_words))]
fn put_doubt_words(out: &mut Vec<u8>) -> Result<(), AllocError>
    ensures { OnOk result (out.new.items ≡ out.old.items ++ specs.doubt_words) }
{
    out.extend_from_slice(
        b"This log can be read in two ways: among its messages is a line as only a child has it. If a compiler wrote lines as acrun does, a check may be none of the run, and an answer may be another one. For a definition see config.status.\n",
    )
}

/// Appends that a log with these lines can be read in two ways, if that is so.
#[tactic(auto, unfolding(crate::specs::Doubts::doubt_text))]
pub(crate) fn put_doubt(out: &mut Vec<u8>, log: &[LogLine<'_>]) -> Result<(), AllocError>
    ensures { OnOk result (
        out.new.items ≡ out.old.items ++ specs.doubt_text (map line_seen log.now)) }
{
    if has_odd(log) {
        return put_doubt_words(out);
    }
    Ok(())
}

/// Appends the front of what is said of a definition that the record has.
#[tactic(auto, unfolding(crate::specs::Doubts::defined_front))]
fn put_defined_front(out: &mut Vec<u8>) -> Result<(), AllocError>
    ensures { OnOk result (out.new.items ≡ out.old.items ++ specs.defined_front) }
{
    out.extend_from_slice(b"config.status has this definition: ")
}

/// Appends the front of what is said of a definition that the record lacks.
#[tactic(auto, unfolding(crate::specs::Doubts::undefined_front))]
fn put_undefined_front(out: &mut Vec<u8>) -> Result<(), AllocError>
    ensures { OnOk result (out.new.items ≡ out.old.items ++ specs.undefined_front) }
{
    out.extend_from_slice(b"config.status has no definition of ")
}

/// Appends that the record doesn't define a name, if the name begins as those do that checks define.
#[tactic(auto, unfolding(crate::specs::Doubts::undefined_text))]
fn put_undefined(out: &mut Vec<u8>, name: &[u8]) -> Result<(), AllocError>
    ensures { OnOk result (out.new.items ≡ out.old.items ++ specs.undefined_text name.now) }
{
    if name.starts_with(b"HAVE_") {
        put_undefined_front(out)?;
        out.extend_from_slice(name)?;
        return out.extend_from_slice(b".\n");
    }
    Ok(())
}

/// Appends a definition of the record.
fn put_value(out: &mut Vec<u8>, name: &[u8], value: &Bytes) -> Result<(), AllocError>
    ensures { OnOk result (
        out.new.items ≡ out.old.items ++ specs.definition_text name.now (Some value.now)) }
{
    put_defined_front(out)?;
    out.extend_from_slice(name)?;
    out.extend_from_slice(b" ")?;
    out.extend_from_slice(value.as_slice())?;
    out.extend_from_slice(b"\n")
}

/// Appends what is said of a name, by its definition, if the record has one.
fn put_definition(out: &mut Vec<u8>, name: &[u8], value: Option<&Bytes>) -> Result<(), AllocError>
    ensures { OnOk result (
        out.new.items
        ≡ out.old.items
        ++ specs.definition_text name.now (option_map (λ v. v.now) value.entry)) }
{
    match value {
        Some(value) => put_value(out, name, value),
        None => put_undefined(out, name),
    }
}

/// Appends what these definitions have of a name.
fn put_of_defs(out: &mut Vec<u8>, defs: &Defs, name: &[u8]) -> Result<(), AllocError>
    ensures { OnOk result (
        out.new.items
        ≡ out.old.items ++ specs.definition_text name.now (value_of defs.now name.now)) }
{
    put_definition(out, name, defs.get(name))
}

/// Appends what the record has of a definition of this name, if a record is seen.
#[tactic(auto, unfolding(crate::specs::Doubts::defined_text))]
pub(crate) fn put_defined(out: &mut Vec<u8>, seen: &Seen, name: &[u8]) -> Result<(), AllocError>
    ensures { OnOk result (out.new.items ≡ out.old.items ++ specs.defined_text seen.now name.now) }
{
    match seen {
        Seen::Unlooked => Ok(()),
        Seen::Unrecorded => Ok(()),
        Seen::Recorded(_args, _cache, defs) => put_of_defs(out, defs, name),
    }
}
