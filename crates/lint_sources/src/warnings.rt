//! Asks for the warnings about each part of a source and its templates, in order.

ghost use Rattle.std.specs.Prelude.{◌≡◌, ◌∷◌, [], List, None, OnOk};
ghost use Rattle.lint_findings.specs.declared.finding.Finding.{Finding};
ghost use Rattle.lint_sources.specs.Sheets.{count_of};
ghost use Rattle.lint_sources.specs.Warned as specs;
ghost use Rattle.lint_sources.specs.declared.warnings.Part.TheVariants as parts;

use crate::sheets::Sheets;
use lint_errors::Reading;
use lint_findings::Finding;
use lint_templates::Given;
use std::alloc::{AllocError, Global};

/// What warnings are about.
#[derive(Clone, Copy)]
pub(crate) enum Part {
    /// The calls of a source.
    Calls,
    /// Its text and its statements.
    Statements,
    /// The statements that compile or set what compiles.
    Compiler,
    /// The outputs that it names.
    Outputs,
    /// The template of this number, counted from 1.
    Template(usize),
    /// The definitions that no template of a header lists.
    Unlisted,
}

/// Finds warnings.
pub(crate) trait Warner {
    // What is found of each part of a source, if that is known.
    ghost finds: { Self → specs.FindsOf } = { λ _ text reading sheets given part. None };

    /// Appends the warnings about a part of a source with this text, which is read so. What it gives
    /// its templates is there if it is read.
    fn warn(
        &self,
        alloc: Global,
        text: &[u8],
        reading: &Reading,
        sheets: &Sheets,
        given: &Option<Given>,
        part: Part,
        out: &mut Vec<Finding>,
    ) -> Result<(), AllocError>
        ensures { OnOk result (
            specs.AreAppended
            (finds self.now text.now reading.now sheets.now given.now part) out.old.items
            out.new.items) };
}

/// Appends the warnings about a source that is read, but for those about its templates.
#[tactic(auto, using(crate::proofs::Parts::four))]
fn add_front<W: Warner>(
    alloc: Global,
    warner: &W,
    text: &[u8],
    reading: &Reading,
    sheets: &Sheets,
    given: &Option<Given>,
    out: &mut Vec<Finding>,
) -> Result<(), AllocError>
    ensures { OnOk result (
        specs.AreFound (W.finds warner.now text.now reading.now sheets.now given.now)
        out.old.items (specs.parts_to 0) out.new.items) }
{
    warner.warn(alloc, text, reading, sheets, given, Part::Calls, out)?;
    warner.warn(alloc, text, reading, sheets, given, Part::Statements, out)?;
    warner.warn(alloc, text, reading, sheets, given, Part::Compiler, out)?;
    warner.warn(alloc, text, reading, sheets, given, Part::Outputs, out)
}

/// Appends the warnings about each template.
fn add_templates<W: Warner>(
    alloc: Global,
    warner: &W,
    text: &[u8],
    reading: &Reading,
    sheets: &Sheets,
    given: &Option<Given>,
    out: &mut Vec<Finding>,
) -> Result<(), AllocError>
    ensures { OnOk result (
        (old : List Finding)
        → specs.AreFound (W.finds warner.now text.now reading.now sheets.now given.now) old
        (specs.parts_to 0) out.old.items
        → specs.AreFound (W.finds warner.now text.now reading.now sheets.now given.now) old
        (specs.parts_to (count_of sheets.now)) out.new.items) }
{
    'sheets: for index in 0..sheets.count() {
        warner.warn(
            alloc,
            text,
            reading,
            sheets,
            given,
            Part::Template(index + 1),
            out,
        )?;
    }
    Ok(())
}

/// Appends the warnings about a source that is read, and about its templates.
#[tactic(auto, using(crate::proofs::Parts::all_of))]
fn add_of_read<W: Warner>(
    alloc: Global,
    warner: &W,
    text: &[u8],
    reading: &Reading,
    sheets: &Sheets,
    given: &Option<Given>,
    out: &mut Vec<Finding>,
) -> Result<(), AllocError>
    ensures { OnOk result (
        specs.AreFound (W.finds warner.now text.now reading.now sheets.now given.now)
        out.old.items (specs.all_parts sheets.now) out.new.items) }
{
    add_front(alloc, warner, text, reading, sheets, given, out)?;
    add_templates(alloc, warner, text, reading, sheets, given, out)?;
    warner.warn(alloc, text, reading, sheets, given, Part::Unlisted, out)
}

/// Appends the warnings about the calls of a source.
#[tactic(auto, using(crate::proofs::Parts::one))]
fn add_of_calls<W: Warner>(
    alloc: Global,
    warner: &W,
    text: &[u8],
    reading: &Reading,
    sheets: &Sheets,
    given: &Option<Given>,
    out: &mut Vec<Finding>,
) -> Result<(), AllocError>
    ensures { OnOk result (
        specs.AreFound (W.finds warner.now text.now reading.now sheets.now given.now)
        out.old.items (parts.Calls ∷ []) out.new.items) }
{
    warner.warn(alloc, text, reading, sheets, given, Part::Calls, out)
}

/// Appends the warnings about a source and its templates: if it is refused, those about its calls
/// alone.
pub(crate) fn add_warnings<W: Warner>(
    alloc: Global,
    warner: &W,
    text: &[u8],
    reading: &Reading,
    sheets: &Sheets,
    given: &Option<Given>,
    out: &mut Vec<Finding>,
) -> Result<(), AllocError>
    ensures { OnOk result (
        specs.AreFound (W.finds warner.now text.now reading.now sheets.now given.now)
        out.old.items (specs.parts_of reading.now.source sheets.now) out.new.items) }
{
    match &reading.source {
        Ok(_) => add_of_read(alloc, warner, text, reading, sheets, given, out),
        Err(_) => add_of_calls(alloc, warner, text, reading, sheets, given, out),
    }
}
