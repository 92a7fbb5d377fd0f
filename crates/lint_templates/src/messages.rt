//! Writes the messages of warnings.

ghost use Rattle.std.specs.Prelude.{OnOk};
ghost use Rattle.lint_findings.specs.Within.{KeepsWithin};

use deftable::{Bytes, SubstList};
use lint_findings::{Finding, Span};
use lint_table::{Key, Page, WordPart, keys, warn_by_key};
use near_names::near_name;
use std::alloc::{AllocError, Global};

/// A name in a template that has no value.
#[derive(Clone, Copy)]
pub(crate) enum TemplateName {
    /// A name between two `@`.
    Variable,
    /// A name between two `@` that Autoconf sets itself.
    Served,
    /// A name that a header's template undefines.
    Definition,
}

/// Returns what is said of a name that has no value.
fn key_of(kind: TemplateName) -> Key {
    match kind {
        TemplateName::Variable => keys::UNSET_VARIABLE,
        TemplateName::Served => keys::SET_BY_AUTOCONF,
        TemplateName::Definition => keys::NEVER_DEFINED,
    }
}

/// Returns the question whether a near name was meant.
fn near_key(kind: TemplateName) -> Key {
    match kind {
        TemplateName::Variable | TemplateName::Served => keys::NEAR_VARIABLE,
        TemplateName::Definition => keys::NEAR_DEFINITION,
    }
}

/// Returns the names as slices.
fn slices<'a>(alloc: Global, names: &'a [Bytes]) -> Result<Vec<&'a [u8]>, AllocError> {
    let mut all = Vec::with_capacity(alloc, names.len())?;
    for name in names {
        all.push(name.as_slice())?;
    }
    Ok(all)
}

/// How many findings may have been made before no near name is sought any more.
const SOUGHT: usize = 200;

/// Returns the nearest of some names, if one is near. After this many findings none is sought.
pub(crate) fn near_of<'a>(
    alloc: Global,
    found: usize,
    name: &[u8],
    names: &'a SubstList,
) -> Result<Option<&'a [u8]>, AllocError> {
    if found > SOUGHT || name.len() > 80 {
        return Ok(None);
    }
    let all = slices(alloc, names.names())?;
    near_name(alloc, name, all.as_slice())
}

/// Writes the question whether a near name was meant, if there is one.
fn put_near(page: &mut Page, kind: TemplateName, near: Option<&[u8]>) {
    if let Some(near) = near {
        page.put(near_key(kind), &[WordPart::AsItIs(near)]);
    }
}

/// Warns of a name that has no value, with this advice, or with the near name if there is no
/// advice.
pub(crate) fn warn_of_name(
    alloc: Global,
    out: &mut Vec<Finding>,
    text: &[u8],
    span: Span,
    kind: TemplateName,
    name: &[u8],
    advice: Option<Key>,
    near: Option<&[u8]>,
) -> Result<(), AllocError>
    ensures within { OnOk result (KeepsWithin span.file text.now out.old.items out.new.items) }
{
    let key = key_of(kind);
    let mut page = Page::new(alloc);
    page.put(key, &[WordPart::AsItIs(name)]);
    match advice {
        Some(advice) => page.put(advice, &[]),
        None => put_near(&mut page, kind, near),
    }
    page.warn(alloc, out, text, span, key.name())
}

/// Warns of a name that Autoconf sets itself, with the line that sets it.
pub(crate) fn warn_of_served(
    alloc: Global,
    out: &mut Vec<Finding>,
    text: &[u8],
    span: Span,
    name: &[u8],
    line: &[u8],
) -> Result<(), AllocError>
    ensures within { OnOk result (KeepsWithin span.file text.now out.old.items out.new.items) }
{
    let mut page = Page::new(alloc);
    page.put(keys::SET_BY_AUTOCONF, &[WordPart::AsItIs(name)]);
    page.put(keys::SET_LINE, &[WordPart::AsItIs(line)]);
    page.warn(alloc, out, text, span, keys::SET_BY_AUTOCONF.name())
}

/// Warns of a part of a file, if it is there: its offset and its length.
pub(crate) fn warn_at(
    alloc: Global,
    out: &mut Vec<Finding>,
    text: &[u8],
    file: usize,
    part: Option<(usize, usize)>,
    key: Key,
) -> Result<(), AllocError>
    ensures within { OnOk result (KeepsWithin file text.now out.old.items out.new.items) }
{
    let Some((start, length)) = part else {
        return Ok(());
    };
    let span = Span {
        file,
        start,
        end: start.saturating_add(length),
    };
    warn_by_key(alloc, out, text, span, key, &[])
}
