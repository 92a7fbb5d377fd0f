//! Appends warnings.

ghost use Rattle.std.specs.Prelude.{◌≡◌, ◌≤◌, ◌∷◌, ◌++◌, [], length, OnOk};
ghost use Rattle.lint_findings.specs.Warned as specs;
ghost use Rattle.lint_findings.specs.Within.{KeepsWithin};

use crate::finding::{Finding, Severity, Span};
use std::alloc::{AllocError, Global};

/// Returns the part of the span that is in the text, or its end if the span is after it.
fn within(text: &[u8], span: Span) -> Span
    ensures value { result ≡ specs.span_within text.now span }
    ensures file { result.file ≡ span.file }
    ensures order { result.start ≤ result.end }
    ensures end { result.end ≤ length text.now }
{
    let end = span.end.min(text.len());
    Span {
        file: span.file,
        start: span.start.min(end),
        end,
    }
}

/// Appends a warning about a part of a file with this text. What is after the end of the text is no
/// part of it. The code, the message and the help are those of [`Finding`].
///
/// # Errors
///
/// Fails only if memory runs out.
pub fn warn(
    alloc: Global,
    out: &mut Vec<Finding>,
    text: &[u8],
    span: Span,
    code: &[u8],
    message: &[u8],
    help: &[u8],
) -> Result<(), AllocError>
    // The findings stay as they were, and after them is the warning.
    ensures added { OnOk result (
        out.new.items ≡ out.old.items
        ++ (specs.warning_of text.now span code.now message.now help.now ∷ [])) }
    // If the findings of this file were in its text, they still are.
    ensures within { OnOk result (KeepsWithin span.file text.now out.old.items out.new.items) }
{
    let span = within(text, span);
    let finding = Finding::from_slices(alloc, span, Severity::Warning, code, message, help)?;
    out.push(finding)?;
    Ok(())
}
