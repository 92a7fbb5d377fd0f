//! A finding as JSON.

ghost use Rattle.std.specs.Prelude.{◌≡◌, ◌++◌, ◌∷◌, [], true, codes, length, IfOk, OnOk};
ghost use Rattle.std.specs.List.{list_all};
ghost use Rattle.json.specs.Token.{begin_object, end_object};
ghost use Rattle.lint_text.specs.declared.places.Position.{Position};
ghost use Rattle.lint_excerpts.specs.Json as specs;
ghost use Rattle.lint_excerpts.specs.Plain.{is_plain};

use crate::draft::Draft;
use crate::excerpt::word_of;
use crate::marked::{before, from};
use bstr::ByteSlice;
use deftable::Bytes;
use json::Writer;
use lint_findings::{Finding, Severity};
use lint_text::{Position, position_of};
use std::alloc::{AllocError, Global};
use text_controls::is_mark;

/// Writes a member whose value is a text. Bytes that aren't UTF-8 become U+FFFD.
fn put_text(
    alloc: Global,
    object: &mut Writer<Global>,
    name: &str,
    text: &[u8],
) -> Result<(), AllocError>
    ensures put { OnOk result
        (object.new.tokens ≡ object.old.tokens ++ specs.text_member name.now text.now) }
    ensures kept { object.new.before ≡ object.old.before }
{
    let text = String::from_utf8_lossy(alloc, text)?;
    object.key(name)?;
    object.string(text.as_str())
}

/// Writes a member whose value is a number.
fn put_number(object: &mut Writer<Global>, name: &str, number: usize) -> Result<(), AllocError>
    ensures put { OnOk result
        (object.new.tokens ≡ object.old.tokens ++ specs.number_member name.now number) }
    ensures kept { object.new.before ≡ object.old.before }
{
    object.key(name)?;
    object.u64(number as u64)
}

/// Writes where a finding begins and ends.
#[tactic(auto, using(std::proofs::lemmas::List::append_assoc))]
fn put_places(object: &mut Writer<Global>, start: Position, end: Position) -> Result<(), AllocError>
    ensures put { OnOk result
        (object.new.tokens ≡ object.old.tokens ++ specs.places start end) }
    ensures kept { object.new.before ≡ object.old.before }
{
    put_number(object, "line", start.line)?;
    put_number(object, "column", start.column)?;
    put_number(object, "end_line", end.line)?;
    put_number(object, "end_column", end.column)?;
    Ok(())
}

/// Writes how grave a finding is.
fn put_severity(
    alloc: Global,
    object: &mut Writer<Global>,
    severity: Severity,
) -> Result<(), AllocError>
    ensures put { OnOk result (object.new.tokens
        ≡ object.old.tokens ++ specs.text_member (codes "severity") (specs.word_of severity)) }
    ensures kept { object.new.before ≡ object.old.before }
{
    put_text(alloc, object, "severity", word_of(severity))
}

fn put_bytes(
    alloc: Global,
    object: &mut Writer<Global>,
    name: &str,
    text: &Bytes,
) -> Result<(), AllocError>
    ensures put { OnOk result
        (object.new.tokens ≡ object.old.tokens ++ specs.text_member name.now text.now) }
    ensures kept { object.new.before ≡ object.old.before }
{
    put_text(alloc, object, name, text.as_slice())
}

/// Writes what a finding says.
fn put_words(
    alloc: Global,
    object: &mut Writer<Global>,
    finding: &Finding,
) -> Result<(), AllocError>
    ensures put { OnOk result
        (object.new.tokens ≡ object.old.tokens ++ specs.words finding.now) }
    ensures kept { object.new.before ≡ object.old.before }
{
    put_severity(alloc, object, finding.severity)?;
    put_bytes(alloc, object, "code", &finding.code)?;
    put_bytes(alloc, object, "message", &finding.message)?;
    put_bytes(alloc, object, "help", &finding.help)?;
    Ok(())
}

/// Writes the object of a finding.
#[tactic(auto, unfolding(crate::specs::Json::tokens_of), using(std::proofs::lemmas::List::append_assoc))]
fn put_object(
    alloc: Global,
    object: &mut Writer<Global>,
    finding: &Finding,
    name: &[u8],
    text: &[u8],
) -> Result<(), AllocError>
    ensures put { OnOk result (object.new.tokens
        ≡ object.old.tokens ++ specs.tokens_of name.now text.now finding.now) }
    ensures kept { object.new.before ≡ object.old.before }
{
    object.begin_object()?;
    put_text(alloc, object, "file", name)?;
    let start = position_of(text, finding.start);
    let end = position_of(text, finding.end);
    put_places(object, start, end)?;
    put_words(alloc, object, finding)?;
    object.end_object()?;
    Ok(())
}

/// Returns the object of a finding.
#[tactic(auto, unfolding(crate::specs::Json::object_of))]
fn object_of(
    alloc: Global,
    finding: &Finding,
    name: &[u8],
    text: &[u8],
) -> Result<Vec<u8>, AllocError>
    ensures { IfOk result (λ o. o.items ≡ specs.object_of name.now text.now finding.now) }
{
    let mut object = Writer::new(Vec::new(alloc));
    put_object(alloc, &mut object, finding, name, text)?;
    Ok(object.into_inner())
}

/// Returns whether the byte is ASCII, and no control byte.
#[tactic(auto, unfolding(crate::specs::Json::is_shown))]
fn is_shown(byte: u8) -> bool
    ensures { result ≡ specs.is_shown byte }
{
    32 <= byte && byte < 127
}

fn are_shown(text: &[u8]) -> bool
    ensures { result ≡ list_all specs.is_shown text.now }
{
    text.iter().all(|byte| is_shown(*byte))
}

/// Returns whether a character is written by its number: one that turns or hides text, or a control
/// character that JSON takes as it is.
fn is_numbered(c: char) -> bool {
    is_mark(c as u32) || ('\u{7f}'..='\u{9f}').contains(&c)
}

/// Writes an object of JSON, with such characters by their numbers.
fn put_numbered(draft: &mut Draft, object: &[u8])
    ensures { draft.new ≡ draft.old }
{
    for (start, end, c) in object.char_indices() {
        if is_numbered(c) {
            draft.put_code(c);
        } else {
            draft.put(from(before(object, end), start));
        }
    }
}

/// Returns the object as a line, with such characters by their numbers.
fn numbered_line(alloc: Global, object: &[u8]) -> Result<Bytes, AllocError>
    ensures { IfOk result (λ line. list_all is_plain line ≡ true) }
{
    let mut draft = Draft::new(alloc, false);
    put_numbered(&mut draft, object);
    draft.put(b"\n");
    draft.finish()
}

/// Returns the object as a line.
#[tactic(auto, using(crate::proofs::ShownLine::line_is_plain))]
fn shown_line(object: Vec<u8>) -> Result<Bytes, AllocError>
    requires { list_all specs.is_shown object.items ≡ true }
    ensures safe { IfOk result (λ line. list_all is_plain line ≡ true) }
    ensures whole { IfOk result (λ line. line ≡ object.items ++ 10 ∷ []) }
{
    let mut line = object;
    line.push(b'\n')?;
    Ok(Bytes::from_vec(line))
}

/// Returns a finding as one line with an object: `file`, `line`, `column`, `end_line`,
/// `end_column`, `severity`, `code`, `message` and `help`. Lines and columns count from 1, columns
/// count bytes, and the end is after the last byte. The text is that of the file, and `name` is
/// what the file is called. Control characters, and characters that turn or hide text, are written
/// as `\uNNNN`.
///
/// # Errors
///
/// Fails only if memory runs out.
pub fn json_of(
    alloc: Global,
    finding: &Finding,
    name: &[u8],
    text: &[u8],
) -> Result<Bytes, AllocError>
    // No text of a file or its name can drive a terminal.
    ensures safe { IfOk result (λ line. list_all is_plain line ≡ true) }
    // If all of it is printable ASCII, the line is this object.
    ensures exact { IfOk result (λ line.
        list_all specs.is_shown (specs.object_of name.now text.now finding.now) ≡ true
        → line ≡ specs.object_of name.now text.now finding.now ++ 10 ∷ []) }
{
    let object = object_of(alloc, finding, name, text)?;
    if are_shown(object.as_slice()) {
        return shown_line(object);
    }
    numbered_line(alloc, object.as_slice())
}
