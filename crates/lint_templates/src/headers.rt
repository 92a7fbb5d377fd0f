//! Warnings about the templates of headers.

ghost use Rattle.std.specs.Prelude.{◌≡◌, ◌≤◌, ◌<◌, ◌+◌, ◌^◌, ◌++◌, ◌∷◌, [], true, flat_map, length, option_map, IfOk, IfSome, OnOk};
ghost use Rattle.deftable.specs.NameList.{has_name};
ghost use Rattle.lint_findings.specs.Within.{KeepsWithin};
ghost use Rattle.lint_table.specs.Keys.{name_of};
ghost use Rattle.lint_table.specs.declared.key.Key.{Key};
ghost use Rattle.lint_templates.specs.Listed as listing;
ghost use Rattle.lint_templates.specs.Names.{with_all};
ghost use Rattle.lint_templates.specs.Unlisted as specs;

use crate::advice::{default_header, definition_advice};
use crate::given::{Given, add_name};
use crate::messages::{TemplateName, near_of, warn_of_name};
use bstr::ByteSlice;
use deftable::{Bytes, SubstList, is_shell_name};
use lint_findings::{Finding, Span};
use lint_table::{Key, Page, WordPart, keys, warn_by_key};
use lint_text::{after_blanks, first_name, from};
use std::alloc::{AllocError, Global};

/// Returns the text after the `#` that a text begins with.
fn after_hash(text: &[u8]) -> Option<&[u8]>
    ensures { option_map (λ rest. rest.now) result ≡ listing.after_hash text.now }
{
    match text {
        [b'#', rest @ ..] => Some(rest),
        _ => None,
    }
}

/// Returns whether a word before a name lists it: `undef`, or `define` if that is asked for too.
fn is_listing(takes_define: bool, word: &[u8]) -> bool
    ensures { result ≡ listing.is_listing takes_define word.now }
{
    word == b"undef".as_slice() || takes_define && word == b"define".as_slice()
}

/// Returns the text, if it begins with a name that has the form of one.
fn named(text: &[u8]) -> Option<&[u8]>
    ensures { option_map (λ rest. rest.now) result ≡ listing.named text.now }
{
    if is_shell_name(first_name(text)) {
        Some(text)
    } else {
        None
    }
}

/// Returns the text from the name on, after a word that lists it.
fn after_word(takes_define: bool, text: &[u8]) -> Option<&[u8]>
    ensures { option_map (λ rest. rest.now) result ≡ listing.after_word takes_define text.now }
{
    let word = first_name(text);
    if !is_listing(takes_define, word) {
        return None;
    }
    named(after_blanks(from(text, word.len())))
}

/// Returns the text of a line from the name on that it lists with `#undef`, or with `#define` if
/// that is asked for too.
#[tactic(auto, unfolding(crate::specs::Listed::from_name))]
fn from_name(takes_define: bool, line: &[u8]) -> Option<&[u8]>
    ensures { option_map (λ rest. rest.now) result ≡ listing.from_name takes_define line.now }
{
    match after_hash(after_blanks(line)) {
        Some(text) => after_word(takes_define, after_blanks(text)),
        None => None,
    }
}

/// Adds a name, if these names don't have it.
fn add_unlisted(names: &mut SubstList, listed: &SubstList, name: &[u8]) -> Result<(), AllocError>
    ensures { OnOk result (
        names.new ≡ with_all names.old (specs.one_unlisted listed.now name.now)) }
{
    if listed.has(name) {
        return Ok(());
    }
    add_name(names, name)
}

/// Adds those of some names that these don't have.
fn add_all_unlisted(
    names: &mut SubstList,
    listed: &SubstList,
    defined: &[Bytes],
) -> Result<(), AllocError>
    ensures { OnOk result (
        names.new ≡ with_all names.old (flat_map (specs.one_unlisted listed.now) defined.now)) }
{
    for name in defined {
        add_unlisted(names, listed, name.as_slice())?;
    }
    Ok(())
}

/// Returns the definitions that a source may make and that this template doesn't list. A name that
/// the template lists too isn't what another one was meant to be.
#[tactic(auto, unfolding(crate::specs::Unlisted::unlisted))]
fn unlisted(alloc: Global, given: &Given, text: &[u8]) -> Result<SubstList, AllocError>
    ensures { IfOk result (λ names. names ≡ specs.unlisted given.now.defined text.now) }
{
    let mut listed = SubstList::new(alloc);
    add_listed(&mut listed, text)?;
    let mut names = SubstList::new(alloc);
    add_all_unlisted(&mut names, &listed, given.defined.names())?;
    Ok(names)
}

/// The most names that one warning has.
const MOST_NAMES: usize = 12;

/// Names that a template undefines, and that nothing defines. One warning is about all of them.
#[derive(Drop)]
struct Undefined {
    /// Where the first name is, and its length.
    first: Option<(usize, usize)>,
    /// The names, with commas between them, up to the number that one warning has.
    names: Vec<u8>,
    /// The headers of the names, with blanks between them.
    headers: Vec<u8>,
    /// How many names there are.
    count: usize,
}

impl Undefined {
    fn none(alloc: Global) -> Undefined {
        Undefined {
            first: None,
            names: Vec::new(alloc),
            headers: Vec::new(alloc),
            count: 0,
        }
    }

    /// Adds a name, which is at this offset, and its header, which may be empty.
    fn add(&mut self, at: usize, name: &[u8], header: &[u8]) -> Result<(), AllocError> {
        if self.first.is_none() {
            self.first = Some((at, name.len()));
        }
        let is_first = self.count == 0;
        self.count = self.count.saturating_add(1);
        if self.count > MOST_NAMES {
            return Ok(());
        }
        if !is_first {
            self.names.extend_from_slice(b", ")?;
            self.headers.extend_from_slice(b" ")?;
        }
        self.names.extend_from_slice(name)?;
        self.headers.extend_from_slice(header)
    }
}

/// The names that a template undefines, and that nothing defines, but for those of which more is
/// said.
#[derive(Drop)]
struct UndefinedNames {
    /// Those of default includes.
    defaults: Undefined,
    /// Those of which nothing more is known.
    others: Undefined,
}

/// Writes what is said of names that are not of default includes.
fn put_others(page: &mut Page, others: &Undefined) {
    page.put(
        keys::NEVER_DEFINED,
        &[WordPart::AsItIs(others.names.as_slice())],
    );
    if others.count > MOST_NAMES {
        let more = WordPart::Number(others.count.saturating_sub(MOST_NAMES));
        page.put(keys::AND_MORE_NAMES, &[more]);
    }
}

/// Writes what is said of names of default includes.
fn put_defaults(page: &mut Page, defaults: &Undefined) {
    page.put(
        keys::DEFAULT_HEADERS,
        &[
            WordPart::AsItIs(defaults.names.as_slice()),
            WordPart::AsItIs(defaults.headers.as_slice()),
        ],
    );
}

/// Warns of names, at the first of them.
fn warn_of_all(
    alloc: Global,
    file: usize,
    text: &[u8],
    undefined: &Undefined,
    are_defaults: bool,
    out: &mut Vec<Finding>,
) -> Result<(), AllocError>
    ensures within { OnOk result (KeepsWithin file text.now out.old.items out.new.items) }
{
    let Some((start, length)) = undefined.first else {
        return Ok(());
    };
    let span = Span {
        file,
        start,
        end: start.saturating_add(length),
    };
    let mut page = Page::new(alloc);
    if are_defaults {
        put_defaults(&mut page, undefined);
        return page.warn(alloc, out, text, span, keys::DEFAULT_HEADERS.name());
    }
    put_others(&mut page, undefined);
    page.warn(alloc, out, text, span, keys::NEVER_DEFINED.name())
}

/// The definitions that a source may make: all of them, and those that the template doesn't list.
#[derive(Clone, Copy)]
struct Known<'a> {
    all: &'a SubstList,
    candidates: &'a SubstList,
}

/// Warns of the name of a line that begins at this offset, if it is undefined and nothing defines
/// it. One of a default include, or of which nothing more is known, is added to those.
fn warn_of_line(
    alloc: Global,
    known: Known<'_>,
    file: usize,
    text: &[u8],
    at: usize,
    line: &[u8],
    found: &mut UndefinedNames,
    out: &mut Vec<Finding>,
) -> Result<(), AllocError>
    ensures within { OnOk result (KeepsWithin file text.now out.old.items out.new.items) }
{
    let Some(rest) = from_name(false, line) else {
        return Ok(());
    };
    let name = first_name(rest);
    if known.all.has(name) {
        return Ok(());
    }
    let start = at.saturating_add(line.len().saturating_sub(rest.len()));
    let header = default_header(name);
    if !header.is_empty() {
        return found.defaults.add(start, name, header);
    }
    let span = Span {
        file,
        start,
        end: start.saturating_add(name.len()),
    };
    let advice = definition_advice(name);
    let kind = TemplateName::Definition;
    let count = out.len().saturating_add(found.others.count);
    let near = near_of(alloc, count, name, known.candidates)?;
    if advice.is_none() && near.is_none() {
        return found.others.add(start, name, b"");
    }
    warn_of_name(alloc, out, text, span, kind, name, advice, near)
}

/// Warns of the name of each line that is undefined and that nothing defines. Those of default
/// includes, and those of which nothing more is known, are added to these.
fn warn_of_lines(
    alloc: Global,
    known: Known<'_>,
    file: usize,
    text: &[u8],
    found: &mut UndefinedNames,
    out: &mut Vec<Finding>,
) -> Result<(), AllocError>
    ensures within { OnOk result (KeepsWithin file text.now out.old.items out.new.items) }
{
    let mut at = 0usize;
    for line in text.split(|byte| *byte == b'\n') {
        warn_of_line(alloc, known, file, text, at, line, found, out)?;
        at = at.saturating_add(line.len()).saturating_add(1);
    }
    Ok(())
}

/// Returns whether a line undefines a name that isn't one of these.
fn is_undefined(defined: &SubstList, line: &[u8]) -> bool {
    match from_name(false, line) {
        Some(rest) => !defined.has(first_name(rest)),
        None => false,
    }
}

/// Returns whether a line of a text undefines a name that isn't one of these.
fn has_undefined(defined: &SubstList, text: &[u8]) -> bool {
    text.split(|byte| *byte == b'\n')
        .any(|line| is_undefined(defined, line))
}

/// Adds the warnings about the template of a header: the names with `#undef` that no statement
/// defines. Each of which more can be said has a warning of its own, and the others have one (own).
///
/// # Errors
///
/// Fails only if memory runs out.
pub fn warn_of_header(
    alloc: Global,
    given: &Given,
    file: usize,
    text: &[u8],
    out: &mut Vec<Finding>,
) -> Result<(), AllocError>
    // If the findings of this file were in its text, they still are.
    ensures within { OnOk result (KeepsWithin file text.now out.old.items out.new.items) }
{
    if !has_undefined(&given.defined, text) {
        return Ok(());
    }
    let candidates = unlisted(alloc, given, text)?;
    let known = Known {
        all: &given.defined,
        candidates: &candidates,
    };
    let mut found = UndefinedNames {
        defaults: Undefined::none(alloc),
        others: Undefined::none(alloc),
    };
    warn_of_lines(alloc, known, file, text, &mut found, out)?;
    warn_of_all(alloc, file, text, &found.defaults, true, out)?;
    warn_of_all(alloc, file, text, &found.others, false, out)?;
    Ok(())
}

/// Adds the name that a line lists, if it lists one.
fn add_of_line(names: &mut SubstList, line: &[u8]) -> Result<(), AllocError>
    ensures { OnOk result (names.new ≡ with_all names.old (listing.name_in true line.now)) }
{
    match from_name(true, line) {
        Some(rest) => add_name(names, first_name(rest)),
        None => Ok(()),
    }
}

/// Adds the names that the template of a header undefines or defines.
///
/// # Errors
///
/// Fails only if memory runs out.
#[tactic(auto, unfolding(crate::specs::Listed::with_listed))]
pub fn add_listed(names: &mut SubstList, text: &[u8]) -> Result<(), AllocError>
    // Each name that a line lists is added, and no other.
    ensures { OnOk result (names.new ≡ listing.with_listed names.old text.now) }
{
    for line in text.lines_with_terminator() {
        add_of_line(names, line)?;
    }
    Ok(())
}

/// Returns the offset at which a source has a text first.
#[tactic(auto, using(crate::proofs::Lost::first_is))]
fn first_place(source: &[u8], sought: &[u8]) -> Option<usize>
    ensures value { result ≡ specs.first_place source.now sought.now }
    ensures within { IfSome result (λ at. at + length sought.now ≤ length source.now) }
{
    source.find(sought)
}

/// Returns the part of a source that begins there and is as long as a text, or its start if there
/// is no such place.
fn span_at(place: Option<usize>, sought: &[u8]) -> Span
    requires { IfSome place (λ at. at + length sought.now < 2 ^ 64) }
    ensures { result ≡ specs.span_at place sought.now }
{
    match place {
        Some(start) => Span {
            file: 0,
            start,
            end: start + sought.len(),
        },
        None => Span {
            file: 0,
            start: 0,
            end: 0,
        },
    }
}

/// The macro that names headers.
const HEADERS_MACRO: &[u8] = b"AC_CONFIG_HEADERS";

/// Returns where a source makes a definition: where it names it, or else where it names its
/// headers.
fn span_of_definition(source: &[u8], name: &[u8]) -> Span
    ensures { result ≡ specs.span_of_definition source.now name.now }
{
    match first_place(source, name) {
        Some(start) => span_at(Some(start), name),
        None => span_at(first_place(source, HEADERS_MACRO), HEADERS_MACRO),
    }
}

/// Returns whether a definition goes nowhere: these names don't have it, and it is none of AC_INIT.
fn is_lost(listed: &SubstList, name: &[u8]) -> bool
    ensures { result ≡ specs.is_lost listed.now name.now }
{
    !listed.has(name) && !name.starts_with(b"PACKAGE_")
}

/// Warns of a definition at a place, in the words of a key.
fn warn_of_definition(
    alloc: Global,
    key: Key,
    source: &[u8],
    name: &[u8],
    out: &mut Vec<Finding>,
) -> Result<(), AllocError>
    ensures added { OnOk result (
        out.new.items ≡ out.old.items ++ (specs.lost_definition key source.now name.now ∷ [])) }
    ensures within { OnOk result (KeepsWithin 0 source.now out.old.items out.new.items) }
{
    let span = span_of_definition(source, name);
    warn_by_key(alloc, out, source, span, key, &[WordPart::AsItIs(name)])?;
    Ok(())
}

/// Warns of a definition, if it goes nowhere.
fn warn_if_lost(
    alloc: Global,
    key: Key,
    listed: &SubstList,
    source: &[u8],
    name: &[u8],
    out: &mut Vec<Finding>,
) -> Result<(), AllocError>
    ensures added { OnOk result (
        out.new.items ≡ out.old.items ++ specs.one_lost key listed.now source.now name.now) }
    ensures within { OnOk result (KeepsWithin 0 source.now out.old.items out.new.items) }
{
    if !is_lost(listed, name) {
        return Ok(());
    }
    warn_of_definition(alloc, key, source, name, out)
}

/// Warns of each definition that goes nowhere, in the words of a key.
fn warn_of_lost(
    alloc: Global,
    key: Key,
    defined: &[Bytes],
    source: &[u8],
    listed: &SubstList,
    out: &mut Vec<Finding>,
) -> Result<(), AllocError>
    ensures added { OnOk result (
        out.new.items
        ≡ out.old.items ++ specs.lost_definitions key listed.now source.now defined.now) }
    ensures within { OnOk result (KeepsWithin 0 source.now out.old.items out.new.items) }
{
    for name in defined {
        warn_if_lost(alloc, key, listed, source, name.as_slice(), out)?;
    }
    Ok(())
}

/// Adds a warning for each definition that a source may make and that is not listed by a template
/// of a header (own).
///
/// # Errors
///
/// Fails only if memory runs out.
pub fn warn_of_unlisted(
    alloc: Global,
    given: &Given,
    source: &[u8],
    listed: &SubstList,
    out: &mut Vec<Finding>,
) -> Result<(), AllocError>
    // One warning is added for each definition that isn't listed, in order, and no other. A name of
    // AC_INIT needs no line.
    ensures added { OnOk result (
        specs.AreLost given.now.defined listed.now source.now out.old.items out.new.items) }
    // If the findings of the source were in its text, they still are.
    ensures within { OnOk result (KeepsWithin 0 source.now out.old.items out.new.items) }
{
    warn_of_lost(
        alloc,
        keys::NOT_IN_HEADER,
        given.defined.names(),
        source,
        listed,
        out,
    )
}
