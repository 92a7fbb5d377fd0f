//! What the templates of a source want of it, and what is left to do in them.

use crate::findings::templates_of;
use crate::reading::{Linted, shown_path};
use crate::sheets::Sheets;
use ac_tree::Source;
use bstr::ByteSlice;
use deftable::{Bytes, SubstList};
use file_disk::Disk;
use file_texts::path_in;
use lint_errors::read;
use lint_findings::{Finding, Span};
use lint_table::is_left;
use lint_templates::{Given, Shape, add_wanted, span_of_output, wants_flags, warn_of_file};
use lint_text::position_of;
use std::alloc::{AllocError, Global};

/// What the templates of a source want of it.
#[derive(Drop)]
pub struct Wanted {
    /// The names that a line before AC_OUTPUT can set.
    pub names: SubstList,
    /// Whether a line after AC_PROG_CC is to set CFLAGS.
    pub flags: bool,
}

/// Returns whether a template of a file sets a directory itself.
fn sets_directory(sheets: &Sheets) -> bool {
    for index in 0..sheets.files() {
        if let Some(sheet) = sheets.get(index.saturating_add(1)) {
            if sheet.text.as_slice().contains_str(b"datarootdir") {
                return true;
            }
        }
    }
    false
}

/// Adds what the template of this number wants.
fn add_of_sheet(
    given: &Given,
    source: &[u8],
    shape: Shape,
    takes_directories: bool,
    sheets: &Sheets,
    number: usize,
    wanted: &mut Wanted,
) -> Result<(), AllocError> {
    let Some(sheet) = sheets.get(number) else {
        return Ok(());
    };
    let text = sheet.text.as_slice();
    wanted.flags |= wants_flags(shape, text);
    add_wanted(
        given,
        source,
        shape,
        takes_directories,
        text,
        &mut wanted.names,
    )
}

/// Returns what templates want of a source with this text.
fn wanted_by(
    alloc: Global,
    text: &[u8],
    source: &Source,
    sheets: &Sheets,
) -> Result<Wanted, AllocError> {
    let given = Given::of(alloc, source)?;
    let shape = Shape::of(text, source);
    let takes_directories = !sets_directory(sheets);
    let mut wanted = nothing(alloc);
    for index in 0..sheets.files() {
        let number = index.saturating_add(1);
        add_of_sheet(
            &given,
            text,
            shape,
            takes_directories,
            sheets,
            number,
            &mut wanted,
        )?;
    }
    Ok(wanted)
}

/// Returns that nothing is wanted.
fn nothing(alloc: Global) -> Wanted {
    Wanted {
        names: SubstList::new(alloc),
        flags: false,
    }
}

/// Returns what the templates of a source want of it that a line of it can give: names that Autoconf
/// sets itself, and CFLAGS (own). If the source is refused, nothing is wanted.
///
/// # Errors
///
/// Fails only if memory runs out.
pub fn wanted_of<D: Disk>(alloc: Global, disk: &D, linted: &Linted) -> Result<Wanted, AllocError> {
    let text = linted.text.as_slice();
    let reading = read(alloc, text)?;
    match &reading.source {
        Ok(source) => {
            let mut lost = Vec::new(alloc);
            let sheets = templates_of(alloc, disk, linted, source, &mut lost)?;
            wanted_by(alloc, text, source, &sheets)
        }
        Err(_) => Ok(nothing(alloc)),
    }
}

/// Appends a text, with one space in place of each newline and the blanks after it.
fn put_on_line(out: &mut Vec<u8>, text: &[u8]) -> Result<(), AllocError> {
    let mut is_first = true;
    for line in text.split(|byte| *byte == b'\n') {
        if !is_first {
            out.push(b' ')?;
        }
        is_first = false;
        out.extend_from_slice(line.trim_start())?;
    }
    Ok(())
}

/// Appends a number.
fn put_number(out: &mut Vec<u8>, number: usize) -> Result<(), AllocError> {
    let mut buffer = itoa::Buffer::new();
    out.extend_from_slice(buffer.format(number).as_bytes())
}

/// Returns what is said in the source of a finding in a template: the template's name and the line,
/// what is wrong, and this help.
fn told(
    alloc: Global,
    name: &[u8],
    text: &[u8],
    finding: &Finding,
    help: &[u8],
) -> Result<Bytes, AllocError> {
    let mut out = Vec::from_slice(alloc, name)?;
    out.push(b':')?;
    put_number(&mut out, position_of(text, finding.start).line)?;
    out.extend_from_slice(b": ")?;
    out.extend_from_slice(finding.message.as_slice())?;
    if !help.is_empty() {
        out.extend_from_slice(b"; ")?;
        put_on_line(&mut out, help)?;
    }
    Ok(Bytes::from_vec(out))
}

/// Returns where the source names the output of the template with this name.
fn span_of_template(
    alloc: Global,
    linted: &Linted,
    source: &Source,
    name: &[u8],
) -> Result<Span, AllocError> {
    let text = linted.text.as_slice();
    for output in source.files().as_slice() {
        let path = path_in(
            alloc,
            linted.directory.as_slice(),
            output.template.as_slice(),
        )?;
        let shown = shown_path(alloc, path.as_slice())?;
        if shown.as_slice() == name {
            return Ok(span_of_output(text, output.name.as_slice()));
        }
    }
    Ok(span_of_output(text, b""))
}

/// Returns a finding of a template at its output in the source, with this help.
fn moved(
    alloc: Global,
    span: Span,
    name: &[u8],
    text: &[u8],
    finding: &Finding,
    help: &[u8],
) -> Result<Finding, AllocError> {
    let message = told(alloc, name, text, finding, help)?;
    Finding::from_slices(
        alloc,
        span,
        finding.severity,
        finding.code.as_slice(),
        message.as_slice(),
        b"",
    )
}

/// Appends those of a template's findings that are left to do, at its output in the source. If
/// several in a row have the same help, the first one alone has it.
fn add_left(
    alloc: Global,
    span: Span,
    name: &[u8],
    text: &[u8],
    found: &[Finding],
    left: &mut Vec<Finding>,
) -> Result<(), AllocError> {
    let mut before = b"".as_slice();
    for finding in found {
        if is_left(finding.code.as_slice()) {
            let help = finding.help.as_slice();
            let new = if help == before { b"".as_slice() } else { help };
            let moved = moved(alloc, span, name, text, finding, new)?;
            left.push(moved)?;
            before = help;
        }
    }
    Ok(())
}

/// Appends what is left to do in the template of this number.
fn add_left_of_sheet(
    alloc: Global,
    linted: &Linted,
    source: &Source,
    given: &Given,
    sheets: &Sheets,
    number: usize,
    left: &mut Vec<Finding>,
) -> Result<(), AllocError> {
    let Some(sheet) = sheets.get(number) else {
        return Ok(());
    };
    let text = sheet.text.as_slice();
    let shape = Shape::of(linted.text.as_slice(), source);
    let mut found = Vec::new(alloc);
    warn_of_file(
        alloc,
        given,
        linted.text.as_slice(),
        shape,
        number,
        text,
        &mut found,
    )?;
    let name = sheet.name.as_slice();
    let span = span_of_template(alloc, linted, source, name)?;
    add_left(alloc, span, name, text, found.as_slice(), left)
}

/// Returns what is left to do in the templates of a source that is read.
fn left_in<D: Disk>(
    alloc: Global,
    disk: &D,
    linted: &Linted,
    source: &Source,
) -> Result<Vec<Finding>, AllocError> {
    let mut left = Vec::new(alloc);
    let sheets = templates_of(alloc, disk, linted, source, &mut left)?;
    let given = Given::of(alloc, source)?;
    for index in 0..sheets.files() {
        let number = index.saturating_add(1);
        add_left_of_sheet(alloc, linted, source, &given, &sheets, number, &mut left)?;
    }
    left.sort_by_key(|finding| finding.start)?;
    Ok(left)
}

/// Returns what is left to do by hand for the templates of a source, each at its output in the
/// source, in order of place: a template that can't be read, and those warnings of `lint` about
/// templates that have the mark for it (own). If the source is refused, there is nothing.
///
/// # Errors
///
/// Fails only if memory runs out.
pub fn left_of<D: Disk>(
    alloc: Global,
    disk: &D,
    linted: &Linted,
) -> Result<Vec<Finding>, AllocError> {
    let reading = read(alloc, linted.text.as_slice())?;
    match &reading.source {
        Ok(source) => left_in(alloc, disk, linted, source),
        Err(_) => Ok(Vec::new(alloc)),
    }
}
