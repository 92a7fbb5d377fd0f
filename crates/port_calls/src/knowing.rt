//! Finds what is known of a text before its calls are gone over.

use ac_calls::CallAt;
use lint_macros::Index;
use lint_text::part;
use port_changes::is_drawn;
use port_definitions::{plain_word_in, written_in};
use port_passes::defined_in;
use port_setup::{compiler_in, lines_needed, title_in};
use port_spots::{Known, bare_in};
use std::alloc::{AllocError, Global};

/// Marks an offset.
fn mark(borders: &mut Vec<bool>, at: usize) {
    if at < borders.len() {
        borders[at] = true;
    }
}

/// Marks the offsets at which the brackets end that arguments begin with, and the calls whose text
/// Autoconf leaves at their places.
fn mark_calls(borders: &mut Vec<bool>, text: &[u8], calls: &[CallAt]) {
    let mut reach: usize = 0;
    for call in calls {
        let is_at_top = reach <= call.start;
        if is_at_top || !is_drawn(part(text, call.start, call.name_end)) {
            mark(borders, call.end);
        }
        reach = reach.max(call.end);
        for arg in &call.args {
            mark(borders, arg.start.saturating_add(1));
        }
    }
}

/// Returns the offset after the first call of AC_PROG_CC that is in no argument of another one.
fn after_compiler(text: &[u8], calls: &[CallAt]) -> Option<usize> {
    let mut reach: usize = 0;
    for call in calls {
        let is_at_top = reach <= call.start;
        if is_at_top && part(text, call.start, call.name_end) == b"AC_PROG_CC".as_slice() {
            return Some(call.end);
        }
        reach = reach.max(call.end);
    }
    None
}

/// Returns what is known of a text with these calls.
pub(crate) fn known_of(alloc: Global, text: &[u8], calls: &[CallAt]) -> Result<Known, AllocError> {
    let index = Index::new(alloc)?;
    let mut borders = vec![in alloc; false; text.len().saturating_add(1)]?;
    mark_calls(&mut borders, text, calls);
    let bare = bare_in(alloc, text, calls)?;
    let has_compiler = calls.iter().any(|call| part(text, call.start, call.name_end)
        == b"AC_PROG_CC".as_slice());
    let defined = defined_in(alloc, text)?;
    let at_compiler = compiler_in(text, calls);
    let after_compiler = after_compiler(text, calls);
    let at_title = title_in(text, calls);
    let plain = plain_word_in(alloc, text, calls)?;
    let below = lines_needed(text, calls, after_compiler.unwrap_or(text.len()));
    let written = written_in(alloc, &index, text, calls, &defined, after_compiler)?;
    Ok(Known {
        index,
        borders,
        bare,
        defined,
        at_compiler,
        has_compiler,
        after_compiler,
        at_title,
        written,
        plain,
        below,
    })
}
