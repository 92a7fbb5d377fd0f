//! Which places of a text are in arguments without brackets.

use ac_calls::{CallAt, Extent};
use std::alloc::{AllocError, Global};

/// Returns whether an argument begins with a bracket.
fn is_quoted(text: &[u8], arg: &Extent) -> bool {
    text.get(arg.start) == Some(&b'[')
}

/// Marks the offsets of an argument.
fn mark(bare: &mut Vec<bool>, arg: &Extent) {
    let end = arg.end.min(bare.len());
    for at in arg.start..end {
        bare[at] = true;
    }
}

/// Marks the offsets of the arguments of a call that have no brackets, but for those that are in
/// one that is marked.
fn mark_call(text: &[u8], call: &CallAt, bare: &mut Vec<bool>) {
    for arg in &call.args {
        if !is_quoted(text, arg) && bare.get(arg.start) == Some(&false) {
            mark(bare, arg);
        }
    }
}

/// Returns for each offset of a text with these calls whether it is in an argument that has no
/// brackets around it.
pub fn bare_in(alloc: Global, text: &[u8], calls: &[CallAt]) -> Result<Vec<bool>, AllocError> {
    let mut bare = vec![in alloc; false; text.len()]?;
    for call in calls {
        mark_call(text, call, &mut bare);
    }
    Ok(bare)
}
