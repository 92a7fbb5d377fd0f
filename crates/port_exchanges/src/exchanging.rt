//! Writes calls in another form that does the same: a list of two with `break`, and AC_CACHE_VAL between
//! its messages.

ghost use Rattle.std.specs.Prelude.{◌≡◌, ◌∷◌, ◌++◌, [], true, Some, length, map, slice_get, slice_range, codes, Contains, IfOk, IfSome, OnOk, IsTrue};
ghost use Rattle.std.specs.List.{list_all};
ghost use Rattle.ac_calls.specs.Calls.{calls_in, macro_call_of};
ghost use Rattle.port_idioms.specs.Filled as filled;
ghost use Rattle.port_spots.specs.Put.{arg_text};
ghost use Rattle.port_passes.specs.Exchanged as specs;
ghost use Rattle.port_passes.specs.Rewritten as rewritten;

use crate::chains::put_both;
use crate::reading::{takes_words, text_in};
use ac_calls::{CallAt, Extent};
use lint_text::part;
use port_definitions::argument;
use port_idioms::{Idioms, text_of};
use port_passes::{Pass, can_be_made, write_change};
use port_spots::{Known, Spot};
use std::alloc::{AllocError, Global};
use text_cut::fields;

/// Writes a text in the place of what is between two offsets, unless that is not after what was read.
pub(crate) fn put_exchange(
    idioms: Idioms,
    text: &[u8],
    start: usize,
    end: usize,
    put: &[u8],
    pass: &mut Pass,
) -> Result<(), AllocError>
    requires exchanged { specs.IsExchanged text.now start end put.now }
    requires begun { rewritten.IsPass idioms text.now pass.old.at pass.old.out.items }
    ensures { OnOk result (rewritten.IsPass idioms text.now pass.new.at pass.new.out.items) }
{
    let _ = idioms;
    if start < pass.at || end < start || text.len() < end {
        return Ok(());
    }
    write_change(text, start, end, put, pass)
}

// ---- the first of two that is there

/// Appends a call with one word, up to the parenthesis.
#[tactic(auto, unfolding(port_passes::specs::Exchanged::looks_for))]
fn put_look(out: &mut Vec<u8>, name: &[u8], word: &[u8]) -> Result<(), AllocError>
    ensures { OnOk result (out.new.items ≡ out.old.items ++ specs.looks_for name.now word.now) }
{
    out.extend_from_slice(name)?;
    out.extend_from_slice(b"([")?;
    out.extend_from_slice(word)?;
    out.push(b']')?;
    Ok(())
}

/// Returns a call with a word.
fn look_text(alloc: Global, name: &[u8], word: &[u8]) -> Result<Vec<u8>, AllocError>
    ensures { IfOk result (λ v. v.items ≡ specs.looks_for name.now word.now) }
{
    let mut out = Vec::new(alloc);
    put_look(&mut out, name, word)?;
    Ok(out)
}

/// Returns a call with the first word, which looks for the second one if that is not there.
#[tactic(auto, unfolding(port_passes::specs::Exchanged::found_first))]
fn found_text(alloc: Global, name: &[u8], word: &[u8], next: &[u8]) -> Result<Vec<u8>, AllocError>
    ensures { IfOk result (λ v. v.items ≡ specs.found_first name.now word.now next.now) }
{
    let first = look_text(alloc, name, word)?;
    let second = look_text(alloc, name, next)?;
    let mut out = Vec::new(alloc);
    put_both(&mut out, first.as_slice(), b", [], [")?;
    put_both(&mut out, second.as_slice(), b")])")?;
    Ok(out)
}

/// Returns whether the byte may be in the name of a header or a function.
fn is_entry_byte(byte: u8) -> bool
    ensures { result ≡ specs.is_entry_byte byte }
{
    byte.is_ascii_alphanumeric() || byte == b'_' || byte == b'.' || byte == b'/' || byte == b'-'
}

/// Returns whether a word may be the name of a header or a function.
fn is_entry(word: &[u8]) -> bool
    ensures { result ≡ specs.is_entry word.now }
{
    word.iter().all(|byte| is_entry_byte(*byte))
}

/// Returns whether a text is `break`.
fn is_break(action: &[u8]) -> bool
    ensures { IsTrue result → action.now ≡ codes "break" }
{
    action == b"break".as_slice()
}

/// Returns the name of a macro that looks for each of a list, if the call is one of it with two
/// arguments.
fn looking_name<'a>(text: &'a [u8], call: &CallAt) -> Option<&'a [u8]>
    ensures named { IfSome result (λ n. n.now
        ≡ slice_range text.now (macro_call_of call.now).start (macro_call_of call.now).name_end) }
    ensures looks { IfSome result (λ n. specs.looks_for_each n.now ≡ true) }
    ensures two { IfSome result (λ n. length (macro_call_of call.now).args ≡ 2) }
{
    if call.name_end < call.start || text.len() < call.name_end || call.args.len() != 2 {
        return None;
    }
    let name = &text[call.start..call.name_end];
    if name == b"AC_CHECK_HEADERS".as_slice() || name == b"AC_CHECK_FUNCS".as_slice() {
        Some(name)
    } else {
        None
    }
}

/// Returns the two words of a list, if they are plain and there is no other one.
fn two_words<'a>(words: &[&'a [u8]]) -> Option<(&'a [u8], &'a [u8])>
    ensures are { IfSome result (λ p. map (λ w. w.now) words.now ≡ p.0.now ∷ p.1.now ∷ []) }
    ensures plain { IfSome result (λ p.
        list_all specs.is_entry (p.0.now ∷ p.1.now ∷ []) ≡ true) }
{
    if words.len() != 2 || !is_entry(words[0]) || !is_entry(words[1]) {
        return None;
    }
    Some((words[0], words[1]))
}

/// Returns the calls that look for the second word of a list if the first one is not there.
fn found_of(alloc: Global, name: &[u8], list: &[u8]) -> Result<Option<Vec<u8>>, AllocError>
    ensures { IfOk result (λ o.
        IfSome o (λ v. specs.AreFoundFirst name.now list.now v.items)) }
{
    let words = fields(alloc, list)?;
    let Some((word, next)) = two_words(words.as_slice()) else {
        return Ok(None);
    };
    let put = found_text(alloc, name, word, next)?;
    Ok(Some(put))
}

/// Returns the text of an argument that is `break`.
fn is_breaking(text: &[u8], action: Extent) -> bool
    ensures { IsTrue result → filled.text_of (Some (arg_text text.now action)) ≡ codes "break" }
{
    match text_of(part(text, action.start, action.end)) {
        Some(found) => is_break(found),
        None => false,
    }
}

/// Returns what is put in the place of a call of a macro of this name with these arguments, if it
/// looks for the first of two.
#[tactic(auto, using(crate::proofs::Others::found))]
fn found_with(
    alloc: Global,
    text: &[u8],
    call: &CallAt,
    are_text: bool,
    name: &[u8],
    list: Extent,
    action: Extent,
) -> Result<Option<Vec<u8>>, AllocError>
    requires named { name.now
        ≡ slice_range text.now (macro_call_of call.now).start (macro_call_of call.now).name_end }
    requires looks { specs.looks_for_each name.now ≡ true }
    requires two { length (macro_call_of call.now).args ≡ 2 }
    requires first { slice_get (macro_call_of call.now).args 0 ≡ Some list }
    requires second { slice_get (macro_call_of call.now).args 1 ≡ Some action }
    ensures { IfOk result (λ o.
        IfSome o (λ v. specs.IsFirstFound text.now (macro_call_of call.now) v.items)) }
{
    let Some(words) = text_in(alloc, text, list, are_text)? else {
        return Ok(None);
    };
    if !is_breaking(text, action) {
        return Ok(None);
    }
    found_of(alloc, name, words)
}

/// Returns what is put in the place of a call that looks for the first of two.
fn found_in(
    alloc: Global,
    text: &[u8],
    call: &CallAt,
    are_text: bool,
) -> Result<Option<Vec<u8>>, AllocError>
    ensures { IfOk result (λ o.
        IfSome o (λ v. specs.IsFirstFound text.now (macro_call_of call.now) v.items)) }
{
    let Some(name) = looking_name(text, call) else {
        return Ok(None);
    };
    let Some(list) = argument(call, 0) else {
        return Ok(None);
    };
    let Some(action) = argument(call, 1) else {
        return Ok(None);
    };
    found_with(alloc, text, call, are_text, name, list, action)
}

/// Writes the calls that look for the second of two if the first one is not there.
fn put_first_found(
    idioms: Idioms,
    text: &[u8],
    call: &CallAt,
    put: &[u8],
    pass: &mut Pass,
) -> Result<(), AllocError>
    requires call { Contains (calls_in text.now) (macro_call_of call.now) }
    requires found { specs.IsFirstFound text.now (macro_call_of call.now) put.now }
    requires begun { rewritten.IsPass idioms text.now pass.old.at pass.old.out.items }
    ensures { OnOk result (rewritten.IsPass idioms text.now pass.new.at pass.new.out.items) }
{
    put_exchange(idioms, text, call.start, call.end, put, pass)
}

/// Writes a call that looks for the first of two in another form.
pub fn pass_first_found(
    alloc: Global,
    idioms: Idioms,
    known: &Known,
    text: &[u8],
    spot: Spot,
    call: &CallAt,
    pass: &mut Pass,
) -> Result<(), AllocError>
    requires call { Contains (calls_in text.now) (macro_call_of call.now) }
    requires begun { rewritten.IsPass idioms text.now pass.old.at pass.old.out.items }
    ensures { OnOk result (rewritten.IsPass idioms text.now pass.new.at pass.new.out.items) }
{
    if !can_be_made(known, text, spot, call) {
        return Ok(());
    }
    let are_text = takes_words(idioms, known, text, call);
    match found_in(alloc, text, call, are_text)? {
        Some(put) => put_first_found(idioms, text, call, put.as_slice(), pass),
        None => Ok(()),
    }
}
