//! Warnings about the text of a source, and about its statements.

use crate::extent::warn_of_part;
use crate::order::warn_of_order;
use crate::variables::warn_of_variables;
use ac_calls::{CallAt, Extent};
use ac_tree::Source;
use bstr::ByteSlice;
use lint_findings::Finding;
use lint_table::{Key, keys};
use std::alloc::{AllocError, Global};

/// Texts that may not mean what they seem to, each with the key of the warning.
#[rattlefmt::skip]
const TEXTS: [(&[u8], Key); 1] = [
    (b"[[AC_INCLUDES_DEFAULT", keys::QUOTED_INCLUDES),
];

/// Warns if a text is there, at its first place.
fn warn_of_text(
    alloc: Global,
    text: &[u8],
    sought: &[u8],
    key: Key,
    out: &mut Vec<Finding>,
) -> Result<(), AllocError> {
    let Some(start) = text.find(sought) else {
        return Ok(());
    };
    let end = start.saturating_add(sought.len());
    warn_of_part(alloc, out, text, Extent { start, end }, key)
}

/// Adds the warnings about the text and the statements of a source: texts that may not mean what
/// they seem to, variables that a configure script sets and acrun doesn't, and the first statement
/// after which a run that is cut can't be resumed (own). The calls are those of the source.
///
/// # Errors
///
/// Fails only if memory runs out.
pub fn warn_of_source(
    alloc: Global,
    text: &[u8],
    calls: &[CallAt],
    source: &Source,
    out: &mut Vec<Finding>,
) -> Result<(), AllocError> {
    for row in &TEXTS {
        warn_of_text(alloc, text, row.0, row.1, out)?;
    }
    warn_of_variables(alloc, text, calls, source, out)?;
    if source.is_resumable() {
        return Ok(());
    }
    warn_of_order(alloc, text, calls, out)
}
