//! A finding with the line that it is in.

ghost use Rattle.std.specs.Prelude.{◌≡◌, IfOk};
ghost use Rattle.lint_excerpts.specs.Json.{word_of};
ghost use Rattle.lint_excerpts.specs.Plain.{IsSafe};

use crate::draft::Draft;
use crate::marked::{Marked, put_shown};
use deftable::Bytes;
use lint_findings::{Finding, Severity};
use lint_text::{line_at, line_start, position_of};
use std::alloc::{AllocError, Global};

/// The columns of the number of a line.
const GUTTER: usize = 5;

/// How a text is coloured: the codes of a terminal before each part and after it, or nothing.
#[derive(Clone, Copy)]
struct Colours {
    strong: &'static [u8],
    error: &'static [u8],
    warning: &'static [u8],
    pale: &'static [u8],
    off: &'static [u8],
}

const NONE: Colours = Colours {
    strong: b"",
    error: b"",
    warning: b"",
    pale: b"",
    off: b"",
};

const ALL: Colours = Colours {
    strong: b"\x1b[1m",
    error: b"\x1b[1;31m",
    warning: b"\x1b[1;35m",
    pale: b"\x1b[36m",
    off: b"\x1b[0m",
};

impl Colours {
    fn of(&self, severity: Severity) -> &'static [u8] {
        match severity {
            Severity::Error => self.error,
            Severity::Warning => self.warning,
        }
    }
}

/// Returns how a finding is called.
#[tactic(auto, unfolding(crate::specs::Json::word_of))]
pub(crate) fn word_of(severity: Severity) -> &'static [u8]
    ensures { result.now ≡ word_of severity }
{
    match severity {
        Severity::Error => b"error".as_slice(),
        Severity::Warning => b"warning".as_slice(),
    }
}

/// Writes the line with the place and the message.
fn put_message(draft: &mut Draft, finding: &Finding, name: &[u8], text: &[u8], colours: Colours)
    ensures { draft.new ≡ draft.old }
{
    let place = position_of(text, finding.start);
    draft.put(colours.strong);
    put_shown(draft, name);
    draft.put(b":");
    draft.put_number(place.line);
    draft.put(b":");
    draft.put_number(place.column);
    draft.put(b":");
    draft.put(colours.off);
    draft.put(b" ");
    draft.put(colours.of(finding.severity));
    draft.put(word_of(finding.severity));
    draft.put(colours.off);
    draft.put(b": ");
    draft.put(colours.strong);
    put_shown(draft, finding.message.as_slice());
    draft.put(colours.off);
    draft.put(b"\n");
}

/// Writes the line of the file, and the mark under it.
fn put_lines(draft: &mut Draft, finding: &Finding, text: &[u8], colours: Colours)
    ensures { draft.new ≡ draft.old }
{
    let start = line_start(text, finding.start);
    let line = line_at(text, finding.start);
    let from = finding.start.saturating_sub(start);
    let to = finding.end.saturating_sub(start);
    let marked = Marked::new(line, from, to);
    draft.put(colours.pale);
    draft.put_right(position_of(text, finding.start).line, GUTTER);
    draft.put(b" | ");
    draft.put(colours.off);
    marked.put_line(draft);
    draft.put(b"\n");
    draft.put(colours.pale);
    draft.put_times(b' ', GUTTER);
    draft.put(b" | ");
    draft.put(colours.off);
    marked.put_space(draft);
    draft.put(colours.of(finding.severity));
    marked.put_mark(draft);
    draft.put(colours.off);
    draft.put(b"\n");
}

/// Writes the help, line by line.
fn put_help(draft: &mut Draft, help: &[u8], colours: Colours)
    ensures { draft.new ≡ draft.old }
{
    let mut is_first = true;
    for line in help.split(|byte| *byte == b'\n') {
        if is_first {
            draft.put(colours.pale);
            draft.put(b"   = ");
            draft.put(colours.off);
            draft.put(colours.strong);
            draft.put(b"help");
            draft.put(colours.off);
            draft.put(b": ");
        } else {
            draft.put(b"         ");
        }
        put_shown(draft, line);
        draft.put(b"\n");
        is_first = false;
    }
}

/// Returns a finding as it is shown: its place and message, the line that it begins in with the
/// part that it is about marked, and its help. The text is that of the file, and `name` is what the
/// file is called. Control bytes are shown as `\xNN`.
///
/// # Errors
///
/// Fails only if memory runs out.
pub fn excerpt_of(
    alloc: Global,
    finding: &Finding,
    name: &[u8],
    text: &[u8],
    is_coloured: bool,
) -> Result<Bytes, AllocError>
    // Without colours, no text of a file or its name can drive a terminal.
    ensures safe { IfOk result (λ shown. IsSafe is_coloured shown) }
{
    let colours = if is_coloured { ALL } else { NONE };
    let mut draft = Draft::new(alloc, is_coloured);
    put_message(&mut draft, finding, name, text, colours);
    put_lines(&mut draft, finding, text, colours);
    if !finding.help.as_slice().is_empty() {
        put_help(&mut draft, finding.help.as_slice(), colours);
    }
    draft.finish()
}
