//! Writes AC_PATH_PROGS without a path as the calls of AC_PATH_PROG that it is made of.

ghost use Rattle.std.specs.Prelude.{◌≡◌, ◌≤◌, [], ◌∷◌, ◌++◌, true, Some, length, map, slice_get, slice_range, codes, Contains, IfOk, IfSome, OnOk, IsTrue};
ghost use Rattle.std.specs.List.{flat_map, list_all};
ghost use Rattle.ac_calls.specs.Calls.{calls_in, macro_call_of};
ghost use Rattle.text_cut.specs.Cuts.{fields};
ghost use Rattle.port_spots.specs.Put.{is_space_or_return};
ghost use Rattle.port_passes.specs.Chains as specs;
ghost use Rattle.port_passes.specs.Rewritten as rewritten;

use crate::exchanging::put_exchange;
use crate::reading::{takes_words, text_in};
use crate::types::is_c_name;
use ac_calls::{CallAt, Extent};
use port_definitions::argument;
use port_idioms::{Idioms, is_call_of};
use port_passes::{Pass, can_be_made};
use port_spots::{Known, Spot, line_indent};
use std::alloc::{AllocError, Global};
use text_cut::fields;

// ---- what is written

/// Appends two texts.
pub(crate) fn put_both(out: &mut Vec<u8>, first: &[u8], second: &[u8]) -> Result<(), AllocError>
    ensures { OnOk result (out.new.items ≡ out.old.items ++ (first.now ++ second.now)) }
{
    out.extend_from_slice(first)?;
    out.extend_from_slice(second)
}

/// Appends the call that looks for a program, up to the variable.
#[tactic(auto, unfolding(port_passes::specs::Chains::program_front))]
fn put_program_front(out: &mut Vec<u8>, name: &[u8]) -> Result<(), AllocError>
    ensures { OnOk result (out.new.items ≡ out.old.items ++ specs.program_front name.now) }
{
    put_both(out, b"AC_PATH_PROG([", name)
}

/// Appends the rest of it.
#[tactic(auto, unfolding(port_passes::specs::Chains::program_rest))]
fn put_program_rest(out: &mut Vec<u8>, word: &[u8]) -> Result<(), AllocError>
    ensures { OnOk result (out.new.items ≡ out.old.items ++ specs.program_rest word.now) }
{
    out.extend_from_slice(b"], [")?;
    out.extend_from_slice(word)?;
    out.extend_from_slice(b"])")
}

/// Appends the call that looks for a program.
fn put_program(out: &mut Vec<u8>, name: &[u8], word: &[u8]) -> Result<(), AllocError>
    ensures { OnOk result (out.new.items ≡ out.old.items ++ specs.path_prog name.now word.now) }
{
    put_program_front(out, name)?;
    put_program_rest(out, word)
}

/// Appends what is before a statement that is done if a variable is empty.
#[tactic(auto, unfolding(port_passes::specs::Chains::if_empty))]
fn put_if_empty(out: &mut Vec<u8>, name: &[u8]) -> Result<(), AllocError>
    ensures { OnOk result (out.new.items ≡ out.old.items ++ specs.if_empty name.now) }
{
    out.extend_from_slice(b"AS_IF([test -z ")?;
    out.push(b'"')?;
    out.push(b'$')?;
    out.extend_from_slice(name)?;
    out.push(b'"')?;
    out.extend_from_slice(b"], [")
}

/// Appends a newline, the indent, and what is before a statement that is done if a variable is
/// empty.
fn put_line(out: &mut Vec<u8>, indent: &[u8], name: &[u8]) -> Result<(), AllocError>
    ensures { OnOk result (
        out.new.items ≡ out.old.items ++ ((10 ∷ indent.now) ++ specs.if_empty name.now)) }
{
    out.push(b'\n')?;
    out.extend_from_slice(indent)?;
    put_if_empty(out, name)
}

/// Appends a line that looks for the next program.
#[tactic(auto, unfolding(port_passes::specs::Chains::next_program))]
fn put_next(out: &mut Vec<u8>, indent: &[u8], name: &[u8], word: &[u8]) -> Result<(), AllocError>
    ensures { OnOk result (
        out.new.items ≡ out.old.items ++ specs.next_program indent.now name.now word.now) }
{
    put_line(out, indent, name)?;
    put_program(out, name, word)?;
    out.extend_from_slice(b"])")
}

/// Appends a line for each of the programs.
fn put_more(out: &mut Vec<u8>, indent: &[u8], name: &[u8], more: &[&[u8]]) -> Result<(), AllocError>
    ensures { OnOk result (
        out.new.items
        ≡ out.old.items
        ++ flat_map (specs.next_program indent.now name.now) (map (λ w. w.now) more.now)) }
{
    for word in more {
        put_next(out, indent, name, word)?;
    }
    Ok(())
}

/// Appends `NAME="VALUE"`, without the last quote.
fn put_setting(out: &mut Vec<u8>, name: &[u8], value: &[u8]) -> Result<(), AllocError>
    ensures { OnOk result (
        out.new.items ≡ out.old.items ++ ((name.now ++ 61 ∷ 34 ∷ []) ++ value.now)) }
{
    out.extend_from_slice(name)?;
    out.push(b'=')?;
    out.push(b'"')?;
    out.extend_from_slice(value)
}

/// Appends a line that sets the variable if no program was found.
#[tactic(auto, unfolding(port_passes::specs::Chains::last_value))]
fn put_last(out: &mut Vec<u8>, indent: &[u8], name: &[u8], value: &[u8]) -> Result<(), AllocError>
    ensures { OnOk result (
        out.new.items ≡ out.old.items ++ specs.last_value indent.now name.now value.now) }
{
    put_line(out, indent, name)?;
    put_setting(out, name, value)?;
    out.push(b'"')?;
    out.extend_from_slice(b"])")
}

/// Appends a line that sets the variable if no program was found, if there is a value.
fn put_value(out: &mut Vec<u8>, indent: &[u8], name: &[u8], value: &[u8]) -> Result<(), AllocError>
    ensures { OnOk result (
        out.new.items ≡ out.old.items ++ specs.value_line indent.now name.now value.now) }
{
    if value.len() == 0 {
        return Ok(());
    }
    put_last(out, indent, name, value)
}

/// Returns the lines that look for each of the programs in turn.
#[tactic(auto, unfolding(port_passes::specs::Chains::chain))]
fn chain_text(
    alloc: Global,
    indent: &[u8],
    name: &[u8],
    word: &[u8],
    more: &[&[u8]],
    value: &[u8],
) -> Result<Vec<u8>, AllocError>
    ensures { IfOk result (λ v.
        v.items ≡ specs.chain indent.now name.now word.now (map (λ w. w.now) more.now) value.now) }
{
    let mut out = Vec::new(alloc);
    put_program(&mut out, name, word)?;
    put_more(&mut out, indent, name, more)?;
    put_value(&mut out, indent, name, value)?;
    Ok(out)
}

// ---- what is read

/// Returns whether the call is one of AC_PATH_PROGS without a path.
fn is_path_progs(text: &[u8], call: &CallAt) -> bool
    ensures names { IsTrue result
        → slice_range text.now (macro_call_of call.now).start (macro_call_of call.now).name_end
        ≡ codes "AC_PATH_PROGS" }
    ensures three { IsTrue result → length (macro_call_of call.now).args ≤ 3 }
{
    is_call_of(text, call, b"AC_PATH_PROGS") && call.args.len() <= 3
}

/// Returns whether the byte may be in the name of a program.
fn is_program_byte(byte: u8) -> bool
    ensures { result ≡ specs.is_program_byte byte }
{
    byte.is_ascii_alphanumeric() || byte == b'_' || byte == b'-' || byte == b'.' || byte == b'+'
}

/// Returns whether a word may be the name of a program.
fn is_program(word: &[u8]) -> bool
    ensures { result ≡ specs.is_program word.now }
{
    word.iter().all(|byte| is_program_byte(*byte))
}

/// Returns whether the words may be names of programs.
fn are_programs(words: &[&[u8]]) -> bool
    ensures { result ≡ list_all specs.is_program (map (λ w. w.now) words.now) }
{
    for word in words {
        if !is_program(word) {
            return false;
        }
    }
    true
}

/// Returns whether the byte may be in the value.
pub(crate) fn is_value_byte(byte: u8) -> bool
    ensures { result ≡ specs.is_value_byte byte }
{
    is_program_byte(byte) || byte == b'/' || byte == b':'
}

/// Returns whether a text may be the value.
fn is_value(value: &[u8]) -> bool
    ensures { result ≡ list_all specs.is_value_byte value.now }
{
    value.iter().all(|byte| is_value_byte(*byte))
}

/// Returns the text of the third argument, or nothing if there is none.
fn value_of<'a>(
    alloc: Global,
    text: &'a [u8],
    call: &CallAt,
    are_text: bool,
) -> Result<Option<&'a [u8]>, AllocError>
    ensures { IfOk result (λ o.
        IfSome o (λ v. v.now ≡ specs.value_of text.now (macro_call_of call.now))) }
{
    match argument(call, 2) {
        Some(value) => text_in(alloc, text, value, are_text),
        None => Ok(Some(b"")),
    }
}

/// Returns the lines for these programs, if they are plain names.
fn lines_of(
    alloc: Global,
    indent: &[u8],
    name: &[u8],
    words: &[&[u8]],
    value: &[u8],
) -> Result<Option<Vec<u8>>, AllocError>
    ensures { IfOk result (λ o.
        IfSome o (λ v.
        specs.IsChainOf indent.now name.now (map (λ w. w.now) words.now) value.now v.items)) }
{
    if !are_programs(words) {
        return Ok(None);
    }
    let Some((word, more)) = words.split_first() else {
        return Ok(None);
    };
    let put = chain_text(alloc, indent, name, word, more, value)?;
    Ok(Some(put))
}

/// Returns the lines for the programs of a list, if they are plain names.
fn lines_for(
    alloc: Global,
    indent: &[u8],
    name: &[u8],
    list: &[u8],
    value: &[u8],
) -> Result<Option<Vec<u8>>, AllocError>
    ensures { IfOk result (λ o.
        IfSome o (λ v.
        specs.IsChainOf indent.now name.now (fields list.now) value.now v.items)) }
{
    let words = fields(alloc, list)?;
    lines_of(alloc, indent, name, words.as_slice(), value)
}

/// Returns the lines that are written in the place of a call with these arguments, if they are
/// plain.
#[tactic(auto, using(crate::proofs::Chained::chains))]
fn chain_in(
    alloc: Global,
    text: &[u8],
    indent: &[u8],
    call: &CallAt,
    are_text: bool,
    variable: Extent,
    programs: Extent,
) -> Result<Option<Vec<u8>>, AllocError>
    requires names { slice_range text.now (macro_call_of call.now).start (macro_call_of call.now).name_end
        ≡ codes "AC_PATH_PROGS" }
    requires three { length (macro_call_of call.now).args ≤ 3 }
    requires first { slice_get (macro_call_of call.now).args 0 ≡ Some variable }
    requires second { slice_get (macro_call_of call.now).args 1 ≡ Some programs }
    requires indent { list_all is_space_or_return indent.now ≡ true }
    ensures { IfOk result (λ o.
        IfSome o (λ v. specs.IsChain text.now (macro_call_of call.now) v.items)) }
{
    let Some(name) = text_in(alloc, text, variable, are_text)? else {
        return Ok(None);
    };
    let Some(list) = text_in(alloc, text, programs, are_text)? else {
        return Ok(None);
    };
    let Some(value) = value_of(alloc, text, call, are_text)? else {
        return Ok(None);
    };
    if !is_c_name(name) || !is_value(value) {
        return Ok(None);
    }
    lines_for(alloc, indent, name, list, value)
}

/// Returns the lines that are written in the place of a call of AC_PATH_PROGS without a path, if
/// its arguments are plain.
fn chain_of(
    alloc: Global,
    text: &[u8],
    indent: &[u8],
    call: &CallAt,
    are_text: bool,
) -> Result<Option<Vec<u8>>, AllocError>
    requires { list_all is_space_or_return indent.now ≡ true }
    ensures { IfOk result (λ o.
        IfSome o (λ v. specs.IsChain text.now (macro_call_of call.now) v.items)) }
{
    if !is_path_progs(text, call) {
        return Ok(None);
    }
    let Some(variable) = argument(call, 0) else {
        return Ok(None);
    };
    let Some(programs) = argument(call, 1) else {
        return Ok(None);
    };
    chain_in(alloc, text, indent, call, are_text, variable, programs)
}

/// Writes lines in the place of a call.
fn put_chain(
    idioms: Idioms,
    text: &[u8],
    call: &CallAt,
    put: &[u8],
    pass: &mut Pass,
) -> Result<(), AllocError>
    requires call { Contains (calls_in text.now) (macro_call_of call.now) }
    requires chain { specs.IsChain text.now (macro_call_of call.now) put.now }
    requires begun { rewritten.IsPass idioms text.now pass.old.at pass.old.out.items }
    ensures { OnOk result (rewritten.IsPass idioms text.now pass.new.at pass.new.out.items) }
{
    put_exchange(idioms, text, call.start, call.end, put, pass)
}

/// Writes AC_PATH_PROGS without a path as the calls of AC_PATH_PROG that it is made of.
pub fn pass_chain(
    alloc: Global,
    idioms: Idioms,
    known: &Known,
    text: &[u8],
    spot: Spot,
    call: &CallAt,
    pass: &mut Pass,
) -> Result<(), AllocError>
    requires call { Contains (calls_in text.now) (macro_call_of call.now) }
    requires begun { rewritten.IsPass idioms text.now pass.old.at pass.old.out.items }
    ensures { OnOk result (rewritten.IsPass idioms text.now pass.new.at pass.new.out.items) }
{
    if !can_be_made(known, text, spot, call) {
        return Ok(());
    }
    let are_text = takes_words(idioms, known, text, call);
    match chain_of(alloc, text, line_indent(text, spot), call, are_text)? {
        Some(put) => put_chain(idioms, text, call, put.as_slice(), pass),
        None => Ok(()),
    }
}
