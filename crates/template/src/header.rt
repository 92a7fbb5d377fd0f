//! Makes a header of its template, line by line.

ghost use Rattle.std.specs.Prelude.{◌≡◌, ℕ, List, ◌++◌, ◌≤◌, IfOk, OnOk, length, option_map, option_and_then, codes, flat_map, false};
ghost use Rattle.std.specs.List.{prefix_len};
ghost use Rattle.bstr.specs.Text.{lines_of};
ghost use Rattle.deftable.specs.ShellName.{is_shell_name_of};
ghost use Rattle.template.specs.Header as header;

use bstr::ByteSlice;
use deftable::shell_name::{is_name_start, name_bytes_len};
use deftable::{Bytes, Defs};
use std::alloc::{AllocError, Global};
use text_cut::is_space;

/// The parts of a line that says something about a name.
#[derive(Clone, Copy)]
struct Parts<'a> {
    /// The spaces and tabs before the `#`.
    indent: &'a [u8],
    /// The spaces and tabs after it.
    gap: &'a [u8],
    /// Whether the keyword is `undef`.
    is_undef: bool,
    name: &'a [u8],
}

/// Returns the number of spaces and tabs at the front.
fn space_len(text: &[u8]) -> usize
    ensures value { result ≡ prefix_len header.is_space text.now }
    ensures within { result ≤ length text.now }
{
    text.iter().take_while(|byte| is_space(**byte)).count()
}

/// Returns the text after the front, or `None` if it doesn't begin with it.
#[tactic(auto, using(crate::proofs::Headers::rest_after_is))]
fn rest_after<'a>(front: &[u8], text: &'a [u8]) -> Option<&'a [u8]>
    ensures { option_map (λ t. t.now) result ≡ header.rest_after front.now text.now }
{
    text.strip_prefix(front)
}

/// Returns whether a name may end before this text.
fn ends_name(text: &[u8]) -> bool
    ensures { result ≡ header.ends_name text.now }
{
    match text {
        [] => true,
        [byte, ..] => is_space(*byte) || *byte == b'(' || *byte == b'\n',
    }
}

/// Returns whether the text begins with a byte that may begin a name.
fn begins_name(text: &[u8]) -> bool
    ensures { result ≡ header.begins_name text.now }
{
    match text {
        [] => false,
        [byte, ..] => is_name_start(*byte),
    }
}

/// Returns whether the longest word at the front is a name.
#[tactic(auto, using(crate::proofs::Headers::begun))]
fn has_name(text: &[u8]) -> bool
    ensures { result ≡ is_shell_name_of (header.word_of text.now) }
{
    begins_name(text)
}

/// Returns the name at the front, if there is one that may end there.
#[tactic(auto, unfolding(crate::specs::Header::name_at))]
fn name_at(text: &[u8]) -> Option<&[u8]>
    ensures { option_map (λ name. name.now) result ≡ header.name_at text.now }
{
    let len = name_bytes_len(text);
    if has_name(text) && ends_name(&text[len..]) {
        return Some(&text[..len]);
    }
    None
}

/// Returns the name after one or more spaces and tabs.
#[tactic(auto, unfolding(crate::specs::Header::name_after))]
fn name_after(text: &[u8]) -> Option<&[u8]>
    ensures { option_map (λ name. name.now) result ≡ header.name_after text.now }
{
    let len = space_len(text);
    if len == 0 {
        return None;
    }
    name_at(&text[len..])
}

/// Returns whether the keyword was `undef`, and the name after it, if there is one.
fn with_keyword(is_undef: bool, name: Option<&[u8]>) -> Option<(bool, &[u8])>
    ensures { option_map (λ k. (k.0, k.1.now)) result
        ≡ header.with_keyword is_undef (option_map (λ n. n.now) name.entry) }
{
    match name {
        Some(name) => Some((is_undef, name)),
        None => None,
    }
}

/// Returns the name after `define` and one or more spaces and tabs.
fn defined_name(text: &[u8]) -> Option<&[u8]>
    ensures { option_map (λ n. n.now) result
        ≡ option_and_then header.name_after (header.rest_after (header.keyword false) text.now) }
{
    match rest_after(b"define", text) {
        Some(rest) => name_after(rest),
        None => None,
    }
}

/// Returns whether the keyword at the front is `undef`, and the name after it.
#[tactic(auto, unfolding(crate::specs::Header::keyword_at))]
fn keyword_at(text: &[u8]) -> Option<(bool, &[u8])>
    ensures { option_map (λ k. (k.0, k.1.now)) result ≡ header.keyword_at text.now }
{
    match rest_after(b"undef", text) {
        Some(rest) => with_keyword(true, name_after(rest)),
        None => with_keyword(false, defined_name(text)),
    }
}

/// Returns the parts of the text after a `#`, which is after this indent.
#[tactic(auto, unfolding(crate::specs::Header::directive_after))]
fn parts_after<'a>(indent: &'a [u8], text: &'a [u8]) -> Option<Parts<'a>>
    ensures { option_map header.directive result ≡ header.directive_after indent.now text.now }
{
    let len = space_len(text);
    let (is_undef, name) = keyword_at(&text[len..])?;
    Some(Parts {
        indent,
        gap: &text[..len],
        is_undef,
        name,
    })
}

/// Returns the parts of a line, or `None` if it says nothing about a name.
#[tactic(auto, unfolding(crate::specs::Header::directive_of))]
fn parts_of(line: &[u8]) -> Option<Parts<'_>>
    ensures { option_map header.directive result ≡ header.directive_of line.now }
{
    let len = space_len(line);
    let text = rest_after(b"#", &line[len..])?;
    parts_after(&line[..len], text)
}

/// Appends the newline of a line, if it has one.
#[tactic(auto, unfolding(crate::specs::Header::newline_of))]
fn put_newline(made: &mut Vec<u8>, line: &[u8]) -> Result<(), AllocError>
    ensures { OnOk result (made.new.items ≡ made.old.items ++ header.newline_of line.now) }
{
    if line.ends_with(b"\n") {
        return made.extend_from_slice(b"\n");
    }
    Ok(())
}

/// Appends what is before the keyword.
fn put_before(made: &mut Vec<u8>, parts: &Parts) -> Result<(), AllocError>
    ensures { OnOk result (
        made.new.items ≡ made.old.items ++ header.before (header.directive parts.now)) }
{
    made.extend_from_slice(parts.indent)?;
    made.extend_from_slice(b"#")?;
    made.extend_from_slice(parts.gap)
}

/// Appends the line that defines the name.
fn put_defined(made: &mut Vec<u8>, parts: &Parts, value: &[u8]) -> Result<(), AllocError>
    ensures { OnOk result (
        made.new.items
        ≡ made.old.items ++ header.defined_line (header.directive parts.now) value.now) }
{
    put_before(made, parts)?;
    made.extend_from_slice(b"define ")?;
    made.extend_from_slice(parts.name)?;
    made.extend_from_slice(b" ")?;
    made.extend_from_slice(value)
}

/// Appends the comment that says that the name isn't defined.
fn put_undefined(made: &mut Vec<u8>, parts: &Parts) -> Result<(), AllocError>
    ensures { OnOk result (
        made.new.items ≡ made.old.items ++ header.undefined_line (header.directive parts.now)) }
{
    made.extend_from_slice(b"/* ")?;
    put_before(made, parts)?;
    made.extend_from_slice(b"undef ")?;
    made.extend_from_slice(parts.name)?;
    made.extend_from_slice(b" */")
}

/// Appends the line of a name that isn't defined.
fn put_without(made: &mut Vec<u8>, parts: &Parts, line: &[u8]) -> Result<(), AllocError>
    ensures { OnOk result (
        made.new.items
        ≡ made.old.items ++ header.without_definition (header.directive parts.now) line.now) }
{
    if !parts.is_undef {
        return made.extend_from_slice(line);
    }
    put_undefined(made, parts)?;
    put_newline(made, line)
}

/// Appends what is made of a line with these parts.
fn put_changed(
    made: &mut Vec<u8>,
    definitions: &Defs,
    line: &[u8],
    parts: &Parts,
) -> Result<(), AllocError>
    ensures { OnOk result (
        made.new.items
        ≡ made.old.items
        ++ header.changed definitions.now line.now (header.directive parts.now)) }
{
    match definitions.get(parts.name) {
        None => put_without(made, parts, line),
        Some(value) => {
            put_defined(made, parts, value.as_slice())?;
            put_newline(made, line)
        }
    }
}

/// Appends what is made of a line.
#[tactic(auto, unfolding(crate::specs::Header::headed_line))]
fn put_line(made: &mut Vec<u8>, definitions: &Defs, line: &[u8]) -> Result<(), AllocError>
    ensures { OnOk result (
        made.new.items ≡ made.old.items ++ header.headed_line definitions.now line.now) }
{
    match parts_of(line) {
        None => made.extend_from_slice(line),
        Some(parts) => put_changed(made, definitions, line, &parts),
    }
}

/// Returns the header that is made of the template `text` (Autoconf's manual, "Header Templates").
///
/// A line whose `#undef` or `#define` names a defined symbol defines it with that value, and drops
/// what comes after the name. An `#undef` of another symbol becomes a comment. Each other line
/// stays as it is. So does a line in which a carriage return comes right after the name. The result
/// reserves as many bytes as the text has, and grows if it becomes longer.
pub fn fill_header(alloc: Global, text: &[u8], definitions: &Defs) -> Result<Vec<u8>, AllocError>
    // Each line of it is made of the template's line in its place.
    ensures sound { IfOk result (λ made.
        header.AreMadeOf definitions.now (lines_of text.now) made.items) }
    // The same as a function.
    ensures exact { IfOk result (λ made. made.items ≡ header.headed definitions.now text.now) }
{
    let mut made = Vec::with_capacity(alloc, text.len())?;
    for line in text.lines_with_terminator() {
        put_line(&mut made, definitions, line)?;
    }
    // for the proof only
    has_one_header(text, definitions);
    Ok(made)
}

/// States that a header template makes exactly one header: the one that the function `headed`
/// gives.
pub fn has_one_header(text: &[u8], definitions: &Defs)
    ensures made { header.AreMadeOf definitions.now (lines_of text.now)
        (header.headed definitions.now text.now) }
    ensures unique { (made : List ℕ) → header.AreMadeOf definitions.now (lines_of text.now) made
        → made ≡ header.headed definitions.now text.now }
{
    // for the proof only
    let _ = text;
    let _ = definitions;
}
