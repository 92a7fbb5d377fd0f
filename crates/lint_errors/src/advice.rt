//! What to write in place of a call that has to go.

ghost use Rattle.std.specs.Prelude.{◌≡◌, IfOk};
ghost use Rattle.lint_errors.specs.Errors as specs;

use ac_calls::{CallAt, Extent};
use deftable::Bytes;
use lint_findings::Finding;
use lint_macros::{Index, MacroEntry, MacroKind, entry_name, fill, takes_list};
use lint_table::{Key, Page, WordPart, keys};
use lint_text::{before, first_line, first_name, from, part, without_end_blanks};
use lint_words::Definitions;
use std::alloc::{AllocError, Global};

/// What is known of the macros that acrun doesn't read.
#[derive(Drop)]
pub struct Known<'a> {
    /// The table of other macros.
    pub index: &'a Index,
    /// The macros that the source defines.
    pub definitions: &'a Definitions,
}

/// Returns the texts of the arguments.
fn texts<'a>(alloc: Global, text: &'a [u8], args: &[Extent]) -> Result<Vec<&'a [u8]>, AllocError> {
    let mut out = Vec::new(alloc);
    for arg in args {
        out.push(part(text, arg.start, arg.end))?;
    }
    Ok(out)
}

/// Returns the first argument without the brackets around it. If there is none, it is empty.
fn first_of<'a>(args: &[&'a [u8]]) -> &'a [u8] {
    match args.first() {
        Some([b'[', inside @ .., b']']) => inside,
        Some(argument) => argument,
        None => b"",
    }
}

/// Returns the arguments with another one in place of the first.
fn with_first<'a>(
    alloc: Global,
    first: &'a [u8],
    args: &[&'a [u8]],
) -> Result<Vec<&'a [u8]>, AllocError> {
    let mut out = Vec::new(alloc);
    out.push(first)?;
    for arg in args.iter().skip(1) {
        out.push(*arg)?;
    }
    Ok(out)
}

/// For how many entries an idiom is written at most.
const MOST: usize = 64;

/// Appends an idiom with these arguments put in, on lines of its own.
fn put_filled(
    alloc: Global,
    idiom: &[u8],
    args: &[&[u8]],
    out: &mut Vec<u8>,
) -> Result<(), AllocError> {
    let filled = fill(alloc, idiom, args)?;
    if !out.is_empty() {
        out.push(b'\n')?;
    }
    out.extend_from_slice(filled.as_slice())
}

/// Returns an idiom once for each entry of the first of these arguments, up to a limit, with the
/// entry in its place.
fn filled_each(alloc: Global, idiom: &[u8], args: &[&[u8]]) -> Result<Vec<u8>, AllocError> {
    let mut out = Vec::new(alloc);
    for entry in first_of(args).split(|byte| *byte == b',').take(MOST) {
        let texts = with_first(alloc, entry, args)?;
        put_filled(alloc, idiom, texts.as_slice(), &mut out)?;
    }
    Ok(out)
}

/// Returns the idiom of an entry with the arguments of a call put in.
fn filled(alloc: Global, entry: MacroEntry, args: &[&[u8]]) -> Result<Vec<u8>, AllocError> {
    if takes_list(entry.name) {
        return filled_each(alloc, entry.text, args);
    }
    let mut out = Vec::new(alloc);
    put_filled(alloc, entry.text, args, &mut out)?;
    Ok(out)
}

/// The macros whose idioms `acrun port` doesn't write, each with the reason.
#[rattlefmt::skip]
const LEFT: [(&[u8], Key); 5] = [
    (b"AX_CHECK_COMPILE_FLAG", keys::FLAG_IN_IDIOM),
    (b"AX_CHECK_LINK_FLAG", keys::FLAG_IN_IDIOM),
    (b"AS_VAR_SET", keys::VALUE_IN_IDIOM),
    (b"AS_VAR_APPEND", keys::VALUE_IN_IDIOM),
    (b"AS_VAR_IF", keys::VALUE_IN_IDIOM),
];

/// Returns whether an argument is empty, without the brackets around it.
fn is_empty(argument: &[u8]) -> bool {
    argument
        .iter()
        .all(|byte| matches!(*byte, b'[' | b']' | b' ' | b'\t' | b'\n'))
}

/// Returns whether a text after a `$` is a place for the argument of this number, counted from 1, or
/// for all of them.
fn is_place(text: &[u8], number: usize) -> bool {
    match text.first() {
        Some(b'@') => true,
        Some(digit) => number < 10 && usize::from(*digit) == number.saturating_add(48),
        None => false,
    }
}

/// Returns whether an idiom has a place for the argument of this number, counted from 1, or for all
/// of them.
fn takes(idiom: &[u8], number: usize) -> bool {
    idiom
        .split(|byte| *byte == b'$')
        .any(|rest| is_place(rest, number))
}

/// Returns the number of the first argument, counted from 1, that isn't empty and for which an idiom
/// has no place.
fn surplus_in(idiom: &[u8], args: &[&[u8]]) -> Option<usize> {
    for (index, argument) in args.iter().enumerate() {
        let number = index.saturating_add(1);
        if !is_empty(argument) && !takes(idiom, number) {
            return Some(number);
        }
    }
    None
}

/// Writes why `acrun port` doesn't write an idiom in place of a call with these arguments, if that is
/// known.
fn put_reason(page: &mut Page, entry: MacroEntry, args: &[&[u8]]) {
    if let Some(row) = LEFT.iter().find(|row| row.0 == entry.name) {
        page.put(row.1, &[]);
    } else if let Some(number) = surplus_in(entry.text, args) {
        page.put(keys::SURPLUS_IN_IDIOM, &[WordPart::Number(number)]);
    }
}

/// Returns why `acrun port` doesn't write an idiom in place of a call with these arguments. If it
/// isn't known, it is empty.
fn reason_of(alloc: Global, entry: MacroEntry, args: &[&[u8]]) -> Result<Bytes, AllocError> {
    let mut page = Page::new(alloc);
    put_reason(&mut page, entry, args);
    page.help()
}

/// Returns what to write in place of a call, and why `acrun port` doesn't write it, if that is
/// known.
fn written(
    alloc: Global,
    text: &[u8],
    args: &[Extent],
    entry: MacroEntry,
) -> Result<Bytes, AllocError> {
    let texts = texts(alloc, text, args)?;
    let mut filled = filled(alloc, entry, texts.as_slice())?;
    let reason = reason_of(alloc, entry, texts.as_slice())?;
    if !reason.is_empty() {
        filled.push(b'\n')?;
        filled.extend_from_slice(reason.as_slice())?;
    }
    let mut page = Page::new(alloc);
    page.put(keys::WRITE_INSTEAD, &[WordPart::AsItIs(filled.as_slice())]);
    page.help()
}

/// Returns what the table says of a call with these arguments: an idiom with the call's own
/// arguments, or a line.
fn said(
    alloc: Global,
    text: &[u8],
    args: &[Extent],
    entry: MacroEntry,
) -> Result<Bytes, AllocError> {
    match entry.kind {
        MacroKind::Idiom => written(alloc, text, args, entry),
        MacroKind::Dropped | MacroKind::Missing | MacroKind::Family => Bytes::from_slice(
            alloc, entry.text,
        ),
    }
}

/// Returns the finding with another help.
fn with_help(finding: Finding, help: Bytes) -> Finding
    ensures shown { specs.finding_view result ≡ specs.finding_view finding }
    ensures end { result.end ≡ finding.end }
{
    Finding { help, ..finding }
}

/// Returns whether the name of a call is that of a variable: a `$` or a `${` is before it, or a `=`
/// after it.
fn is_variable(text: &[u8], call: &CallAt) -> bool {
    let front = before(text, call.start);
    call.args.is_empty()
        && (front.ends_with(b"$")
            || front.ends_with(b"${")
            || from(text, call.name_end).starts_with(b"="))
}

/// Returns what is said of a variable whose name is read as that of a macro.
fn in_brackets(alloc: Global, text: &[u8], call: &CallAt) -> Result<Bytes, AllocError> {
    let name = part(text, call.start, call.name_end);
    let mut page = Page::new(alloc);
    page.put(keys::VARIABLE_IN_BRACKETS, &[WordPart::AsItIs(name)]);
    page.help()
}

/// Returns the first argument of a call without blanks at its end and the brackets around it. If it
/// has none, it is empty.
fn first_argument<'a>(text: &'a [u8], call: &CallAt) -> &'a [u8] {
    match call.args.first() {
        Some(arg) => first_of(&[without_end_blanks(part(text, arg.start, arg.end))]),
        None => b"",
    }
}

/// Returns whether a text is the name of a type, as far as its form tells it.
fn names_type(text: &[u8]) -> bool {
    text.ends_with(b"_t") || text.starts_with(b"struct ")
}

/// Returns the name that the table has for a call: of some macros the first argument decides which
/// entry is about the call.
fn table_name<'a>(text: &'a [u8], call: &CallAt) -> &'a [u8] {
    let name = part(text, call.start, call.name_end);
    let first = first_argument(text, call);
    if name == b"AC_TRY_LINK_FUNC".as_slice() && first == b"main".as_slice() {
        b"AC_TRY_LINK_FUNC(main)"
    } else if name == b"AC_EGREP_HEADER".as_slice() && names_type(first) {
        b"AC_EGREP_HEADER(type)"
    } else if name == b"m4_ifdef".as_slice() && first.starts_with(b"AM_") {
        b"m4_ifdef(AM)"
    } else {
        entry_name(name, call.args.len())
    }
}

/// Returns what the table of other macros says of a call, if it has the macro, or that the source
/// defines it.
fn help_of(
    alloc: Global,
    known: &Known<'_>,
    text: &[u8],
    call: &CallAt,
) -> Result<Option<Bytes>, AllocError> {
    if is_variable(text, call) {
        return in_brackets(alloc, text, call).map(|help| Some(help));
    }
    match known.index.entry_of(alloc, table_name(text, call))? {
        None => known
            .definitions
            .help_of(alloc, part(text, call.start, call.name_end)),
        Some(entry) => said(alloc, text, &call.args, entry).map(|help| Some(help)),
    }
}

/// Returns the name of the macro that a statement seems to call which is text to m4: a name before a
/// parenthesis, or one alone on its line. If it seems to call none, the name is empty.
fn name_in_text(rest: &[u8]) -> &[u8] {
    let name = first_name(rest);
    let after = from(rest, name.len());
    if after.starts_with(b"(") || first_line(after).is_empty() {
        name
    } else {
        b""
    }
}

/// Returns what the table of other macros says of a name, without the `_` that it may begin with.
fn entry_in_text(
    alloc: Global,
    index: &Index,
    name: &[u8],
) -> Result<Option<MacroEntry>, AllocError> {
    if name.is_empty() {
        return Ok(None);
    }
    match name {
        [b'_', rest @ ..] => index.entry_of(alloc, rest),
        _ => index.entry_of(alloc, name),
    }
}

/// Returns what is known of the macro that a statement seems to call: what the table of other macros
/// says of it, or that the source defines it.
fn help_in_text(
    alloc: Global,
    known: &Known<'_>,
    text: &[u8],
    start: usize,
) -> Result<Option<Bytes>, AllocError> {
    let name = name_in_text(from(text, start));
    if name.is_empty() {
        return Ok(None);
    }
    match entry_in_text(alloc, known.index, name)? {
        None => known.definitions.help_of(alloc, name),
        Some(entry) => said(alloc, text, &[], entry).map(|help| Some(help)),
    }
}

/// Returns the finding of a statement with what is known of the macro that it seems to call, if
/// anything is. Its arguments are not known.
pub(crate) fn advised_text(
    alloc: Global,
    known: &Known<'_>,
    text: &[u8],
    finding: Finding,
) -> Result<Finding, AllocError>
    ensures shown { IfOk result (λ f. specs.finding_view f ≡ specs.finding_view finding) }
    ensures end { IfOk result (λ f. f.end ≡ finding.end) }
{
    let help = help_in_text(alloc, known, text, finding.start)?;
    Ok(match help {
        None => finding,
        Some(help) => with_help(finding, help),
    })
}

/// Returns the finding of a call with what is known of its macro, if anything is.
pub(crate) fn advised(
    alloc: Global,
    known: &Known<'_>,
    text: &[u8],
    call: &CallAt,
    finding: Finding,
) -> Result<Finding, AllocError>
    ensures shown { IfOk result (λ f. specs.finding_view f ≡ specs.finding_view finding) }
    ensures end { IfOk result (λ f. f.end ≡ finding.end) }
{
    let help = help_of(alloc, known, text, call)?;
    Ok(match help {
        None => finding,
        Some(help) => with_help(finding, help),
    })
}
