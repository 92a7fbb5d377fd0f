//! The warnings of `lint_warnings` and `lint_templates`.

ghost use Rattle.std.specs.Prelude.{◌≡◌, IfOk, OnOk};
ghost use Rattle.lint_sources.specs.Definitions as specs;
ghost use Rattle.lint_templates.specs.Unlisted as unlisted;

use crate::listing::{Lister, listed_names};
use crate::sheets::Sheets;
use crate::warnings::{Part, Warner};
use ac_tree::Source;
use bstr::ByteSlice;
use deftable::SubstList;
use lint_errors::Reading;
use lint_findings::Finding;
use lint_templates::{
    Given, Shape, add_listed, warn_of_file, warn_of_header, warn_of_outputs, warn_of_unlisted,
};
use lint_warnings::{warn_of_calls, warn_of_compiler, warn_of_source};
use std::alloc::{AllocError, Global};

/// What the templates of headers list: what `lint_templates` finds in them.
struct HeaderLister;

impl Lister for HeaderLister {
    ghost use Rattle.lint_sources.specs.Definitions.{listing};

    ghost lists = { λ _ names text. listing names text };

    fn list(&self, names: &mut SubstList, text: &[u8]) -> Result<(), AllocError> {
        add_listed(names, text)
    }
}

/// Finds what `lint_warnings` finds in a source, and `lint_templates` in its templates.
pub(crate) struct Linter;

impl Warner for Linter {
    fn warn(
        &self,
        alloc: Global,
        text: &[u8],
        reading: &Reading,
        sheets: &Sheets,
        given: &Option<Given>,
        part: Part,
        out: &mut Vec<Finding>,
    ) -> Result<(), AllocError> {
        if matches!(part, Part::Calls) {
            let calls = reading.calls.as_slice();
            return warn_of_calls(alloc, &reading.index, text, calls, out);
        }
        match &reading.source {
            Ok(source) => warn_of_part(alloc, text, reading, source, sheets, given, part, out),
            Err(_) => Ok(()),
        }
    }
}

/// Appends the warnings about a part of a source that is read, or of its templates.
fn warn_of_part(
    alloc: Global,
    text: &[u8],
    reading: &Reading,
    source: &Source,
    sheets: &Sheets,
    given: &Option<Given>,
    part: Part,
    out: &mut Vec<Finding>,
) -> Result<(), AllocError> {
    let calls = reading.calls.as_slice();
    match part {
        Part::Calls => Ok(()),
        Part::Statements => warn_of_source(alloc, text, calls, source, out),
        Part::Compiler => warn_of_compiler(alloc, text, calls, out),
        Part::Outputs => warn_of_outputs(alloc, text, source, out),
        Part::Template(number) => match given {
            Some(given) => {
                let shape = Shape::of(text, source);
                warn_of_template(alloc, given, text, shape, sheets, number, out)
            }
            None => Ok(()),
        },
        Part::Unlisted => match given {
            Some(given) => warn_of_definitions(alloc, given, text, sheets, out),
            None => Ok(()),
        },
    }
}

/// Appends the warnings about the template of this number, for a source with this text.
fn warn_of_template(
    alloc: Global,
    given: &Given,
    source: &[u8],
    shape: Shape,
    sheets: &Sheets,
    number: usize,
    out: &mut Vec<Finding>,
) -> Result<(), AllocError> {
    let Some(sheet) = sheets.get(number) else {
        return Ok(());
    };
    let text = sheet.text.as_slice();
    if number <= sheets.files() {
        return warn_of_file(alloc, given, source, shape, number, text, out);
    }
    warn_of_header(alloc, given, number, text, out)
}

/// Returns what a source has above the lines that `port` writes for the default headers.
#[tactic(auto, unfolding(crate::specs::Definitions::comment))]
fn comment() -> &'static [u8]
    ensures { result.now ≡ specs.comment }
{
    b"dnl acrun: in place of AC_INCLUDES_DEFAULT"
}

/// Returns the definitions that these lines make, as a template lists them.
#[tactic(auto, unfolding(crate::specs::Definitions::written))]
fn written() -> &'static [u8]
    ensures { result.now ≡ specs.written }
{
    b"#undef HAVE_STDIO_H\n#undef HAVE_STDLIB_H\n#undef HAVE_STRING_H\n#undef HAVE_STRINGS_H\n#undef HAVE_INTTYPES_H\n#undef HAVE_STDINT_H\n#undef HAVE_SYS_STAT_H\n#undef HAVE_SYS_TYPES_H\n#undef HAVE_UNISTD_H\n#undef STDC_HEADERS\n"
}

/// Returns the offset at which a source has a text first.
#[tactic(auto, using(crate::proofs::Placed::first_is))]
fn first_place(source: &[u8], sought: &[u8]) -> Option<usize>
    ensures { result ≡ unlisted.first_place source.now sought.now }
{
    source.find(sought)
}

/// Returns the names that are listed, and those of the lines that `port` wrote, if it wrote them.
fn with_written(source: &[u8], listed: SubstList) -> Result<SubstList, AllocError>
    ensures { IfOk result (λ all. all ≡ specs.with_written source.now listed) }
{
    let mut all = listed;
    match first_place(source, comment()) {
        Some(_) => {
            add_listed(&mut all, written())?;
            Ok(all)
        }
        None => Ok(all),
    }
}

/// Appends the warnings about definitions that no template of a header has, and that no line of
/// `port` makes, if there is such a template.
fn warn_of_definitions(
    alloc: Global,
    given: &Given,
    text: &[u8],
    sheets: &Sheets,
    out: &mut Vec<Finding>,
) -> Result<(), AllocError>
    ensures { OnOk result (
        specs.AreUnlisted given.now.defined text.now sheets.now out.old.items out.new.items) }
{
    if sheets.count() == sheets.files() {
        return Ok(());
    }
    let listed = listed_names(alloc, &HeaderLister, sheets)?;
    let all = with_written(text, listed)?;
    warn_of_unlisted(alloc, given, text, &all, out)?;
    Ok(())
}
