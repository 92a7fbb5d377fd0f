//! The parts of a call.

use crate::rows::ArgumentPlace;
use ac_calls::{CallAt, Extent};
use ac_macros::{ArgumentKind, argument_kind};
use lint_findings::{Finding, Span};
use lint_table::{Key, warn_by_key};
use lint_text::{before, from, is_word_byte, part};
use std::alloc::{AllocError, Global};

/// Returns the text of an argument. One that isn't given is empty.
pub(crate) fn text_at(text: &[u8], argument: Option<Extent>) -> &[u8] {
    match argument {
        Some(extent) => part(text, extent.start, extent.end),
        None => b"",
    }
}

/// Returns whether a byte is a blank or a bracket.
fn is_around(byte: u8) -> bool {
    matches!(byte, b'[' | b']' | b' ' | b'\t' | b'\n')
}

/// Returns an argument without blanks and brackets around it.
pub(crate) fn bare(argument: &[u8]) -> &[u8] {
    let front = argument.iter().take_while(|byte| is_around(**byte)).count();
    let rest = from(argument, front);
    let end = rest
        .iter()
        .rev()
        .take_while(|byte| is_around(**byte))
        .count();
    before(rest, rest.len().saturating_sub(end))
}

/// Returns whether an argument is there and isn't empty.
pub(crate) fn is_given(text: &[u8], argument: Option<&Extent>) -> bool {
    !bare(text_at(text, argument.copied())).is_empty()
}

/// Returns whether a text seems to assign to a variable: the name is in it, with a `=` after it and
/// no `$` before it.
pub(crate) fn assigns(text: &[u8], name: &[u8]) -> bool {
    let mut at: usize = 0;
    for word in text.split(|byte| !is_word_byte(*byte)) {
        let end = at.saturating_add(word.len());
        if word == name && from(text, end).starts_with(b"=") && !before(text, at).ends_with(b"$") {
            return true;
        }
        at = end.saturating_add(1);
    }
    false
}

/// Returns the name of a call.
pub(crate) fn name_of<'a>(text: &'a [u8], call: &CallAt) -> &'a [u8] {
    part(text, call.start, call.name_end)
}

/// A call of a source, with its name.
#[derive(Clone, Copy)]
pub(crate) struct NamedCall<'a> {
    /// The text of the source.
    pub(crate) text: &'a [u8],
    pub(crate) name: &'a [u8],
    /// Where it and its arguments are.
    pub(crate) at: &'a CallAt,
}

impl<'a> NamedCall<'a> {
    /// Returns a call with its name.
    pub(crate) fn new(text: &'a [u8], call: &'a CallAt) -> NamedCall<'a> {
        NamedCall {
            text,
            name: name_of(text, call),
            at: call,
        }
    }

    /// Returns what an argument is, if the call has it and its macro is known. The arguments are
    /// counted from 0.
    pub(crate) fn kind(self, index: usize) -> Option<ArgumentKind> {
        let row = self.at.row?;
        let count = self.at.args.len();
        if index < count {
            Some(argument_kind(row.named, count, index))
        } else {
            None
        }
    }

    /// Returns where the whole call is.
    pub(crate) fn whole(self) -> Option<Extent> {
        Some(Extent {
            start: self.at.start,
            end: self.at.end,
        })
    }

    /// Returns whether it is a call of the macro with this name.
    pub(crate) fn is_of(self, name: &[u8]) -> bool {
        name.len() == self.name.len() && name == self.name
    }

    /// Returns where the argument is that a place names, if it is one of this call.
    pub(crate) fn argument_at(self, place: &ArgumentPlace) -> Option<Extent> {
        if self.is_of(place.0) {
            return self.at.args.get(place.1).copied();
        }
        None
    }
}

/// Returns the calls of a source with their names.
pub(crate) fn named_calls<'a>(
    alloc: Global,
    text: &'a [u8],
    calls: &'a [CallAt],
) -> Result<Vec<NamedCall<'a>>, AllocError> {
    let mut named = Vec::new(alloc);
    for call in calls {
        named.push(NamedCall::new(text, call))?;
    }
    Ok(named)
}

/// Returns a part of the source.
pub(crate) fn span_of(extent: Extent) -> Span {
    Span {
        file: 0,
        start: extent.start,
        end: extent.end,
    }
}

/// Adds the warning of a key without places about a part of the source.
pub(crate) fn warn_of_part(
    alloc: Global,
    out: &mut Vec<Finding>,
    text: &[u8],
    extent: Extent,
    key: Key,
) -> Result<(), AllocError> {
    warn_by_key(alloc, out, text, span_of(extent), key, &[])
}
