//! Warnings about the templates of files.

ghost use Rattle.std.specs.Prelude.{OnOk};
ghost use Rattle.lint_findings.specs.Within.{KeepsWithin};

use crate::advice::{Advice, advice_of};
use crate::given::Given;
use crate::messages::{TemplateName, near_of, warn_at, warn_of_name, warn_of_served};
use crate::rules::record_runs;
use crate::shape::Shape;
use crate::wanted::{directory_in, is_of_automake, lacks_flags};
use bstr::ByteSlice;
use deftable::{SubstList, is_shell_name};
use lint_findings::{Finding, Span};
use lint_table::{Key, WordPart, is_left, keys, warn_by_key};
use lint_text::{first_line, part as text_between};
use std::alloc::{AllocError, Global};

/// What ends a name of the directory of the source.
const SOURCE_DIRECTORIES: [&[u8]; 3] = [b"srcdir)", b"srcdir}", b"srcdir@"];

/// Warns of the name between two `@`, the first time that it occurs.
fn warn_once(
    alloc: Global,
    given: &Given,
    shape: Shape,
    seen: &mut SubstList,
    text: &[u8],
    span: Span,
    name: &[u8],
    out: &mut Vec<Finding>,
) -> Result<(), AllocError>
    ensures within { OnOk result (KeepsWithin span.file text.now out.old.items out.new.items) }
{
    if !is_shell_name(name) || given.variables.has(name) || seen.has(name) {
        return Ok(());
    }
    seen.add(name)?;
    warn_of_unset(alloc, given, shape, text, span, name, out)
}

/// Warns of a name between two `@` that is no output variable.
fn warn_of_unset(
    alloc: Global,
    given: &Given,
    shape: Shape,
    text: &[u8],
    span: Span,
    name: &[u8],
    out: &mut Vec<Finding>,
) -> Result<(), AllocError>
    ensures within { OnOk result (KeepsWithin span.file text.now out.old.items out.new.items) }
{
    match advice_of(shape, name) {
        Advice::Served(line) => warn_of_served(alloc, out, text, span, name, line),
        Advice::Left(key) => warn_of_left(alloc, out, text, span, name, key),
        Advice::Known(key) => {
            let kind = TemplateName::Variable;
            warn_of_name(alloc, out, text, span, kind, name, Some(key), None)
        }
        Advice::Nothing => warn_of_unknown(alloc, given, text, span, name, out),
    }
}

/// Warns of a name between two `@` that Autoconf sets and that no line of acrun can set.
fn warn_of_left(
    alloc: Global,
    out: &mut Vec<Finding>,
    text: &[u8],
    span: Span,
    name: &[u8],
    advice: Key,
) -> Result<(), AllocError>
    ensures within { OnOk result (KeepsWithin span.file text.now out.old.items out.new.items) }
{
    let kind = TemplateName::Served;
    warn_of_name(alloc, out, text, span, kind, name, Some(advice), None)
}

/// Warns of a name between two `@` that neither the source nor Autoconf sets, and asks whether a
/// near one was meant.
fn warn_of_unknown(
    alloc: Global,
    given: &Given,
    text: &[u8],
    span: Span,
    name: &[u8],
    out: &mut Vec<Finding>,
) -> Result<(), AllocError>
    ensures within { OnOk result (KeepsWithin span.file text.now out.old.items out.new.items) }
{
    let near = near_of(alloc, out.len(), name, &given.variables)?;
    let kind = TemplateName::Variable;
    warn_of_name(alloc, out, text, span, kind, name, None, near)
}

/// Warns of each name between two `@` that is no output variable, once.
fn warn_of_names(
    alloc: Global,
    given: &Given,
    shape: Shape,
    file: usize,
    text: &[u8],
    out: &mut Vec<Finding>,
) -> Result<(), AllocError>
    ensures within { OnOk result (KeepsWithin file text.now out.old.items out.new.items) }
{
    let mut seen = SubstList::new(alloc);
    let mut at = 0usize;
    for piece in text.split(|byte| *byte == b'@') {
        let end = at.saturating_add(piece.len());
        // A piece with an `@` at both ends may be a name.
        if at > 0 && end < text.len() {
            let span = Span {
                file,
                start: at - 1,
                end: end.saturating_add(1),
            };
            warn_once(alloc, given, shape, &mut seen, text, span, piece, out)?;
        }
        at = end.saturating_add(1);
    }
    Ok(())
}

/// Returns the offset of the first of these texts that occurs, in their order, with its length.
fn first_of(text: &[u8], texts: &[&[u8]]) -> Option<(usize, usize)> {
    for sought in texts {
        if let Some(at) = text.find(*sought) {
            return Some((at, sought.len()));
        }
    }
    None
}

/// Returns the end of a text whose last line has no newline.
fn open_end(text: &[u8]) -> Option<(usize, usize)> {
    if text.is_empty() || text.ends_with(b"\n") {
        return None;
    }
    Some((text.len(), 0))
}

/// Returns the offset of the first line that begins a rule for `distclean`.
fn distclean_at(text: &[u8]) -> Option<usize> {
    if !text.contains_str(b"distclean") {
        return None;
    }
    let mut at = 0usize;
    for line in text.split(|byte| *byte == b'\n') {
        if line.starts_with(b"distclean:") || line.starts_with(b"distclean ") {
            return Some(at);
        }
        at = at.saturating_add(line.len()).saturating_add(1);
    }
    None
}

/// Returns the length of the rule that a text begins with: its first line, and the lines after it
/// that continue one, that begin with a tab, or that are empty.
fn rule_length(text: &[u8]) -> usize {
    let mut at = 0usize;
    let mut is_joined = true;
    for line in text.split(|byte| *byte == b'\n') {
        if !is_joined && !line.is_empty() && !line.starts_with(b"\t") {
            return at;
        }
        is_joined = line.ends_with(b"\\");
        at = at.saturating_add(line.len()).saturating_add(1);
    }
    text.len()
}

/// Returns the rule for `distclean` with its offset, if there is one.
fn distclean_in(text: &[u8]) -> Option<(usize, &[u8])> {
    let at = distclean_at(text)?;
    let rest = text.get(at..)?;
    Some((at, rest.get(..rule_length(rest))?))
}

/// Returns where a rule for `distclean` names `config.status`, if it has no `conftest`.
fn cleaned_in(text: &[u8]) -> Option<(usize, usize)> {
    let (at, rule) = distclean_in(text)?;
    if rule.contains_str(b"conftest") {
        return None;
    }
    let (start, length) = first_of(rule, &[b"config.status"])?;
    Some((at.saturating_add(start), length))
}

/// Returns whether a text ends in a name of the directory of the source.
fn is_source_directory(text: &[u8]) -> bool {
    SOURCE_DIRECTORIES.iter().any(|name| text.ends_with(*name))
}

/// Returns whether a pattern after this text, in the same word, is one of names in the directory of
/// the run, or in that of the source, which is often the same.
fn is_at_hand(before: &[u8]) -> bool {
    match before.strip_suffix(b"/") {
        Some(directory) => directory == b".".as_slice() || is_source_directory(directory),
        None => match before.last() {
            Some(byte) => b"=(\"'`,".contains(byte),
            None => true,
        },
    }
}

/// Returns the offset of a pattern in a word that takes conftests for sources.
fn sources_in_word(word: &[u8]) -> Option<usize> {
    let at = word.find(b"*.c")?;
    let after = word.get(at.saturating_add(3)..)?;
    let ends = match after.first() {
        Some(byte) => b")\"'`,;".contains(byte),
        None => true,
    };
    if ends && is_at_hand(word.get(..at)?) {
        Some(at)
    } else {
        None
    }
}

/// Returns the offset of a pattern in a line that takes conftests for sources, unless the line is a
/// comment or leaves them out.
fn sources_in_line(line: &[u8]) -> Option<usize> {
    if line.starts_with(b"#") || line.contains_str(b"conftest") {
        return None;
    }
    let mut at = 0usize;
    for word in line.split(|byte| *byte == b' ' || *byte == b'\t') {
        if let Some(start) = sources_in_word(word) {
            return Some(at.saturating_add(start));
        }
        at = at.saturating_add(word.len()).saturating_add(1);
    }
    None
}

/// Returns where a pattern takes conftests for sources.
fn sources_in(text: &[u8]) -> Option<(usize, usize)> {
    if !text.contains_str(b"*.c") {
        return None;
    }
    let mut at = 0usize;
    for line in text.split(|byte| *byte == b'\n') {
        if let Some(start) = sources_in_line(line) {
            return Some((at.saturating_add(start), 3));
        }
        at = at.saturating_add(line.len()).saturating_add(1);
    }
    None
}

/// Warns of a directory below `datarootdir` between two `@`, if it is there: its offset and its
/// length.
fn warn_of_directory(
    alloc: Global,
    out: &mut Vec<Finding>,
    text: &[u8],
    file: usize,
    part: Option<(usize, usize)>,
) -> Result<(), AllocError>
    ensures within { OnOk result (KeepsWithin file text.now out.old.items out.new.items) }
{
    let Some((start, length)) = part else {
        return Ok(());
    };
    let end = start.saturating_add(length);
    let span = Span { file, start, end };
    let name = text_between(text, start, end);
    warn_by_key(
        alloc,
        out,
        text,
        span,
        keys::NO_DATAROOTDIR,
        &[WordPart::AsItIs(name)],
    )
}

/// Warns of each of these runs of a record.
fn warn_of_runs(
    alloc: Global,
    file: usize,
    text: &[u8],
    runs: &[(usize, usize)],
    out: &mut Vec<Finding>,
) -> Result<(), AllocError>
    ensures within { OnOk result (KeepsWithin file text.now out.old.items out.new.items) }
{
    for run in runs {
        warn_at(
            alloc,
            out,
            text,
            file,
            Some(*run),
            keys::CONFIG_STATUS_SCRIPT,
        )?;
    }
    Ok(())
}

/// Adds the warnings about what a template that isn't Automake's uses: names between two `@` that no
/// statement sets, a directory below `datarootdir` without that, CFLAGS if nothing sets it, and rules
/// that run `config.status`.
fn warn_of_uses(
    alloc: Global,
    given: &Given,
    source: &[u8],
    shape: Shape,
    file: usize,
    text: &[u8],
    out: &mut Vec<Finding>,
) -> Result<(), AllocError>
    ensures within { OnOk result (KeepsWithin file text.now out.old.items out.new.items) }
{
    let runs = record_runs(alloc, text)?;
    warn_of_names(alloc, given, shape, file, text, out)?;
    warn_of_directory(alloc, out, text, file, directory_in(source, text))?;
    let flags = lacks_flags(shape, text);
    warn_at(alloc, out, text, file, flags, keys::NO_FLAGS)?;
    warn_of_runs(alloc, file, text, runs.as_slice(), out)?;
    Ok(())
}

/// Adds the warnings about the template of a file, for a source with this text: that Automake made
/// it; or else names between two `@` that no statement sets, a directory below `datarootdir` without
/// that, CFLAGS if nothing sets it, and each rule that runs `config.status`. Further a `distclean`
/// that removes `config.status` and no conftest, a pattern `*.c` that takes conftests for sources,
/// and a last line without a newline (own).
///
/// # Errors
///
/// Fails only if memory runs out.
pub fn warn_of_file(
    alloc: Global,
    given: &Given,
    source: &[u8],
    shape: Shape,
    file: usize,
    text: &[u8],
    out: &mut Vec<Finding>,
) -> Result<(), AllocError>
    // If the findings of this file were in its text, they still are.
    ensures within { OnOk result (KeepsWithin file text.now out.old.items out.new.items) }
{
    if is_of_automake(text) {
        let first = Some((0, first_line(text).len()));
        return warn_at(alloc, out, text, file, first, keys::AUTOMAKE_TEMPLATE);
    }
    warn_of_uses(alloc, given, source, shape, file, text, out)?;
    let cleaned = cleaned_in(text);
    warn_at(alloc, out, text, file, cleaned, keys::CONFTESTS_LEFT)?;
    let sources = sources_in(text);
    warn_at(alloc, out, text, file, sources, keys::CONFTESTS_LEFT)?;
    warn_at(
        alloc,
        out,
        text,
        file,
        open_end(text),
        keys::NO_NEWLINE_AT_END,
    )?;
    Ok(())
}

/// Appends the warnings about a file that was made of a template.
fn warn_of_made(
    alloc: Global,
    given: &Given,
    text: &[u8],
    out: &mut Vec<Finding>,
) -> Result<(), AllocError> {
    if is_of_automake(text) {
        let first = Some((0, first_line(text).len()));
        return warn_at(alloc, out, text, 1, first, keys::AUTOMAKE_TEMPLATE);
    }
    let runs = record_runs(alloc, text)?;
    warn_of_names(alloc, given, Shape::made(), 1, text, out)?;
    warn_of_runs(alloc, 1, text, runs.as_slice(), out)
}

/// Returns what is left to do in a file that was made of a template: that Automake made the
/// template; or else names between two `@` that Autoconf sets itself, and each rule that runs
/// `config.status` (own). In order of place.
///
/// # Errors
///
/// Fails only if memory runs out.
pub fn left_in_made(alloc: Global, text: &[u8]) -> Result<Vec<Finding>, AllocError> {
    let given = Given {
        variables: SubstList::new(alloc),
        defined: SubstList::new(alloc),
    };
    let mut found = Vec::new(alloc);
    warn_of_made(alloc, &given, text, &mut found)?;
    found.retain(|finding| is_left(finding.code.as_slice()));
    found.sort_by_key(|finding| finding.start)?;
    Ok(found)
}
