//! The offsets at which a statement may begin.

ghost use Rattle.std.specs.Prelude.{◌≡◌, ◌<◌, map, length, All, OnOk, IsTrue};
ghost use Rattle.ac_calls.specs.Calls.{calls_in, macro_call_of};
ghost use Rattle.port_places.specs.Outside.{IsOutside};
ghost use Rattle.port_statements.specs.Statements as specs;

use ac_calls::CallAt;
use lint_text::part;
use std::alloc::AllocError;

/// Returns whether a word may begin at an offset: no byte of a name is before it.
fn begins_word(text: &[u8], at: usize) -> bool {
    match part(text, at.saturating_sub(1), at).first() {
        Some(before) => !before.is_ascii_alphanumeric() && *before != b'_',
        None => true,
    }
}

/// Appends an offset.
fn push_offset(
    text: &[u8],
    calls: &[CallAt],
    at: usize,
    offsets: &mut Vec<usize>,
) -> Result<(), AllocError>
    requires calls { map macro_call_of calls.now ≡ calls_in text.now }
    requires outside { IsOutside text.now calls.now at }
    requires offsets { All (specs.MayBegin text.now) offsets.old.items }
    ensures { OnOk result (All (specs.MayBegin text.now) offsets.new.items) }
{
    let _ = text;
    let _ = calls;
    offsets.push(at)?;
    Ok(())
}

/// Appends an offset, if a word may begin there.
fn push_if_word(
    text: &[u8],
    calls: &[CallAt],
    at: usize,
    offsets: &mut Vec<usize>,
) -> Result<(), AllocError>
    requires calls { map macro_call_of calls.now ≡ calls_in text.now }
    requires outside { IsOutside text.now calls.now at }
    requires offsets { All (specs.MayBegin text.now) offsets.old.items }
    ensures { OnOk result (All (specs.MayBegin text.now) offsets.new.items) }
{
    if begins_word(text, at) {
        push_offset(text, calls, at, offsets)
    } else {
        Ok(())
    }
}

/// Appends those of some offsets at which a word may begin.
pub(crate) fn push_offsets(
    text: &[u8],
    calls: &[CallAt],
    outside: &[usize],
    offsets: &mut Vec<usize>,
) -> Result<(), AllocError>
    requires calls { map macro_call_of calls.now ≡ calls_in text.now }
    requires outside { All (IsOutside text.now calls.now) outside.now }
    requires offsets { All (specs.MayBegin text.now) offsets.old.items }
    ensures { OnOk result (All (specs.MayBegin text.now) offsets.new.items) }
{
    for i in 0..outside.len() {
        push_if_word(text, calls, outside[i], offsets)?;
    }
    Ok(())
}

/// Puts offsets in order.
#[tactic(auto, using(crate::proofs::Listed::in_order))]
pub(crate) fn put_offsets_in_order(text: &[u8], offsets: &mut Vec<usize>) -> Result<(), AllocError>
    requires { All (specs.MayBegin text.now) offsets.old.items }
    ensures { OnOk result (All (specs.MayBegin text.now) offsets.new.items) }
{
    let _ = text;
    offsets.sort_by_key(|at| *at)
}

/// Returns whether an offset has an index among others.
#[tactic(auto, using(crate::proofs::Listed::found_at))]
fn is_at(text: &[u8], offsets: &[usize], index: usize, at: usize) -> bool
    requires { All (specs.MayBegin text.now) offsets.now }
    ensures { IsTrue result → specs.MayBegin text.now at }
{
    let _ = text;
    index < offsets.len() && offsets[index] == at
}

/// Returns whether an offset is one of those at which a statement may begin, which are in order.
pub fn may_begin(text: &[u8], offsets: &[usize], at: usize) -> bool
    // A statement may begin at each of the offsets.
    requires offsets { All (specs.MayBegin text.now) offsets.now }
    // If so, the offset is outside quotes, substitutions, comments and here-documents.
    ensures outside { IsTrue result → specs.MayBegin text.now at }
{
    match offsets.binary_search(&at) {
        Ok(index) => is_at(text, offsets, index, at),
        Err(_) => false,
    }
}
