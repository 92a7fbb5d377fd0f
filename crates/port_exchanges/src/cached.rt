//! Writes AC_CACHE_VAL between its messages as AC_CACHE_CHECK.

ghost use Rattle.std.specs.Prelude.{◌≡◌, ◌∷◌, ◌++◌, Some, map, slice_range, codes, Contains, IfOk, IfSome, OnOk, IsTrue};
ghost use Rattle.ac_calls.specs.Calls.{calls_in, macro_call_of};
ghost use Rattle.port_idioms.specs.Filled as filled;
ghost use Rattle.port_spots.specs.Put.{arg_text};
ghost use Rattle.port_passes.specs.Exchanged as specs;
ghost use Rattle.port_passes.specs.Rewritten as rewritten;

use crate::chains::put_both;
use crate::exchanging::put_exchange;
use crate::types::is_c_name;
use ac_calls::{CallAt, Extent};
use lint_text::part;
use port_definitions::argument;
use port_idioms::{Idioms, is_call_of, text_of};
use port_passes::{Pass, can_be_made};
use port_spots::{Known, Spot, are_blank};
use std::alloc::{AllocError, Global};

/// Returns the only argument of the call, if it is one of a macro of this name with one.
fn only_argument(text: &[u8], call: &CallAt, name: &[u8]) -> Option<Extent>
    requires { Contains (calls_in text.now) (macro_call_of call.now) }
    ensures { IfSome result (λ a. specs.IsOfOne text.now (macro_call_of call.now) name.now a) }
{
    if !is_call_of(text, call, name) || call.args.len() != 1 {
        return None;
    }
    match argument(call, 0) {
        Some(only) => Some(only),
        None => None,
    }
}

/// Where the arguments of AC_CACHE_VAL are.
#[derive(Clone, Copy)]
struct Value {
    variable: Extent,
    commands: Extent,
}

/// Returns where the arguments of the call are, if it is one of AC_CACHE_VAL with two.
fn value_of(text: &[u8], call: &CallAt) -> Option<Value>
    ensures { IfSome result (λ v.
        specs.IsValue text.now (macro_call_of call.now) v.variable v.commands) }
{
    if !is_call_of(text, call, b"AC_CACHE_VAL") || call.args.len() != 2 {
        return None;
    }
    let Some(variable) = argument(call, 0) else {
        return None;
    };
    match argument(call, 1) {
        Some(commands) => Some(Value { variable, commands }),
        None => None,
    }
}

/// Returns a `$` and a name.
fn with_sign(alloc: Global, name: &[u8]) -> Result<Vec<u8>, AllocError>
    ensures { IfOk result (λ v. v.items ≡ 36 ∷ name.now) }
{
    let mut out = Vec::new(alloc);
    out.push(b'$')?;
    out.extend_from_slice(name)?;
    Ok(out)
}

/// Returns whether the text of an argument is this one.
fn is_text(text: &[u8], arg: Extent, expected: &[u8]) -> bool
    ensures { IsTrue result → filled.text_of (Some (arg_text text.now arg)) ≡ expected.now }
{
    match text_of(part(text, arg.start, arg.end)) {
        Some(found) => found == expected,
        None => false,
    }
}

/// Returns whether an argument shows the value of a variable.
fn shows(alloc: Global, text: &[u8], shown: Extent, name: &[u8]) -> Result<bool, AllocError>
    ensures { IfOk result (λ b.
        IsTrue b → filled.text_of (Some (arg_text text.now shown)) ≡ 36 ∷ name.now) }
{
    let expected = with_sign(alloc, name)?;
    Ok(is_text(text, shown, expected.as_slice()))
}

/// Returns whether a name is that of a variable, and an argument shows its value.
fn is_shown(
    alloc: Global,
    text: &[u8],
    value: Value,
    shown: Extent,
    name: &[u8],
) -> Result<bool, AllocError>
    ensures { IfOk result (λ b.
        IsTrue b → specs.IsShown text.now value.variable shown name.now) }
{
    if !is_text(text, value.variable, name) || !is_c_name(name) {
        return Ok(false);
    }
    shows(alloc, text, shown, name)
}

/// Appends a comma, commands and a parenthesis.
fn put_commands(out: &mut Vec<u8>, commands: &[u8]) -> Result<(), AllocError>
    ensures { OnOk result (out.new.items ≡ out.old.items ++ ((44 ∷ commands.now) ++ codes ")")) }
{
    out.push(b',')?;
    out.extend_from_slice(commands)?;
    out.extend_from_slice(b")")
}

/// Returns AC_CACHE_CHECK with these arguments.
fn check_text(
    alloc: Global,
    message: &[u8],
    name: &[u8],
    commands: &[u8],
) -> Result<Vec<u8>, AllocError>
    ensures { IfOk result (λ v.
        v.items ≡ specs.cache_check message.now name.now commands.now) }
{
    let mut out = Vec::new(alloc);
    put_both(&mut out, b"AC_CACHE_CHECK(", message)?;
    put_both(&mut out, b", ", name)?;
    put_commands(&mut out, commands)?;
    Ok(out)
}

/// Returns whether nothing but blanks is between two offsets.
fn is_blank_between(text: &[u8], start: usize, end: usize) -> bool
    ensures { IsTrue result → specs.AreBlank text.now start end }
{
    start <= end && end <= text.len() && are_blank(&text[start..end])
}

/// Returns whether nothing but blanks is between the calls.
fn are_apart(text: &[u8], before: &CallAt, call: &CallAt, after: &CallAt) -> bool
    ensures { IsTrue result
        → specs.AreBlank text.now (macro_call_of before.now).end (macro_call_of call.now).start
        × specs.AreBlank text.now (macro_call_of call.now).end (macro_call_of after.now).start }
{
    is_blank_between(text, before.end, call.start) && is_blank_between(text, call.end, after.start)
}

/// Writes AC_CACHE_CHECK in the place of three calls.
#[tactic(auto, using(crate::proofs::Others::cached))]
fn put_check(
    alloc: Global,
    idioms: Idioms,
    text: &[u8],
    before: &CallAt,
    message: Extent,
    call: &CallAt,
    value: Value,
    after: &CallAt,
    shown: Extent,
    name: &[u8],
    pass: &mut Pass,
) -> Result<(), AllocError>
    requires says { specs.IsOfOne text.now (macro_call_of before.now) (codes "AC_MSG_CHECKING") message }
    requires there { Contains (calls_in text.now) (macro_call_of call.now) }
    requires value { specs.IsValue text.now (macro_call_of call.now) value.variable value.commands }
    requires tells { specs.IsOfOne text.now (macro_call_of after.now) (codes "AC_MSG_RESULT") shown }
    requires apart { specs.AreBlank text.now (macro_call_of before.now).end (macro_call_of call.now).start
        × specs.AreBlank text.now (macro_call_of call.now).end (macro_call_of after.now).start }
    requires shown { specs.IsShown text.now value.variable shown name.now }
    requires begun { rewritten.IsPass idioms text.now pass.old.at pass.old.out.items }
    ensures { OnOk result (rewritten.IsPass idioms text.now pass.new.at pass.new.out.items) }
{
    let _ = call;
    let said = part(text, message.start, message.end);
    let done = part(text, value.commands.start, value.commands.end);
    let put = check_text(alloc, said, name, done)?;
    put_exchange(idioms, text, before.start, after.end, put.as_slice(), pass)
}

/// Writes AC_CACHE_CHECK in the place of three calls, if the name of a variable is known that the
/// last one shows.
fn put_named_check(
    alloc: Global,
    idioms: Idioms,
    text: &[u8],
    before: &CallAt,
    message: Extent,
    call: &CallAt,
    value: Value,
    after: &CallAt,
    shown: Extent,
    pass: &mut Pass,
) -> Result<(), AllocError>
    requires says { specs.IsOfOne text.now (macro_call_of before.now) (codes "AC_MSG_CHECKING") message }
    requires there { Contains (calls_in text.now) (macro_call_of call.now) }
    requires value { specs.IsValue text.now (macro_call_of call.now) value.variable value.commands }
    requires tells { specs.IsOfOne text.now (macro_call_of after.now) (codes "AC_MSG_RESULT") shown }
    requires apart { specs.AreBlank text.now (macro_call_of before.now).end (macro_call_of call.now).start
        × specs.AreBlank text.now (macro_call_of call.now).end (macro_call_of after.now).start }
    requires begun { rewritten.IsPass idioms text.now pass.old.at pass.old.out.items }
    ensures { OnOk result (rewritten.IsPass idioms text.now pass.new.at pass.new.out.items) }
{
    let Some(name) = text_of(part(text, value.variable.start, value.variable.end)) else {
        return Ok(());
    };
    if !is_shown(alloc, text, value, shown, name)? {
        return Ok(());
    }
    put_check(
        alloc, idioms, text, before, message, call, value, after, shown, name, pass,
    )
}

/// Writes AC_CACHE_CHECK in the place of three calls, if the last one prints the result.
fn pass_result(
    alloc: Global,
    idioms: Idioms,
    text: &[u8],
    before: &CallAt,
    message: Extent,
    call: &CallAt,
    value: Value,
    after: &CallAt,
    pass: &mut Pass,
) -> Result<(), AllocError>
    requires says { specs.IsOfOne text.now (macro_call_of before.now) (codes "AC_MSG_CHECKING") message }
    requires there { Contains (calls_in text.now) (macro_call_of call.now) }
    requires value { specs.IsValue text.now (macro_call_of call.now) value.variable value.commands }
    requires after { Contains (calls_in text.now) (macro_call_of after.now) }
    requires begun { rewritten.IsPass idioms text.now pass.old.at pass.old.out.items }
    ensures { OnOk result (rewritten.IsPass idioms text.now pass.new.at pass.new.out.items) }
{
    let Some(shown) = only_argument(text, after, b"AC_MSG_RESULT") else {
        return Ok(());
    };
    if !are_apart(text, before, call, after) {
        return Ok(());
    }
    put_named_check(
        alloc, idioms, text, before, message, call, value, after, shown, pass,
    )
}

/// Writes AC_CACHE_CHECK in the place of two calls and the one at an index, if that prints the
/// result.
fn pass_third(
    alloc: Global,
    idioms: Idioms,
    text: &[u8],
    calls: &[CallAt],
    third: usize,
    before: &CallAt,
    message: Extent,
    call: &CallAt,
    value: Value,
    pass: &mut Pass,
) -> Result<(), AllocError>
    requires calls { map macro_call_of calls.now ≡ calls_in text.now }
    requires says { specs.IsOfOne text.now (macro_call_of before.now) (codes "AC_MSG_CHECKING") message }
    requires there { Contains (calls_in text.now) (macro_call_of call.now) }
    requires value { specs.IsValue text.now (macro_call_of call.now) value.variable value.commands }
    requires begun { rewritten.IsPass idioms text.now pass.old.at pass.old.out.items }
    ensures { OnOk result (rewritten.IsPass idioms text.now pass.new.at pass.new.out.items) }
{
    if third < calls.len() {
        return pass_result(
            alloc,
            idioms,
            text,
            before,
            message,
            call,
            value,
            &calls[third],
            pass,
        );
    }
    Ok(())
}

/// Writes AC_CACHE_CHECK in the place of calls, if the second one is AC_CACHE_VAL.
fn pass_value(
    alloc: Global,
    idioms: Idioms,
    text: &[u8],
    calls: &[CallAt],
    third: usize,
    before: &CallAt,
    message: Extent,
    call: &CallAt,
    pass: &mut Pass,
) -> Result<(), AllocError>
    requires calls { map macro_call_of calls.now ≡ calls_in text.now }
    requires says { specs.IsOfOne text.now (macro_call_of before.now) (codes "AC_MSG_CHECKING") message }
    requires there { Contains (calls_in text.now) (macro_call_of call.now) }
    requires begun { rewritten.IsPass idioms text.now pass.old.at pass.old.out.items }
    ensures { OnOk result (rewritten.IsPass idioms text.now pass.new.at pass.new.out.items) }
{
    let Some(value) = value_of(text, call) else {
        return Ok(());
    };
    pass_third(
        alloc, idioms, text, calls, third, before, message, call, value, pass,
    )
}

/// Writes AC_CACHE_CHECK in the place of a call that says what is checked, of the one at an index,
/// and of the one after that.
fn pass_second(
    alloc: Global,
    idioms: Idioms,
    text: &[u8],
    calls: &[CallAt],
    second: usize,
    before: &CallAt,
    message: Extent,
    pass: &mut Pass,
) -> Result<(), AllocError>
    requires calls { map macro_call_of calls.now ≡ calls_in text.now }
    requires says { specs.IsOfOne text.now (macro_call_of before.now) (codes "AC_MSG_CHECKING") message }
    requires begun { rewritten.IsPass idioms text.now pass.old.at pass.old.out.items }
    ensures { OnOk result (rewritten.IsPass idioms text.now pass.new.at pass.new.out.items) }
{
    if second < calls.len() {
        let third = second.saturating_add(1);
        return pass_value(
            alloc,
            idioms,
            text,
            calls,
            third,
            before,
            message,
            &calls[second],
            pass,
        );
    }
    Ok(())
}

/// Writes AC_CACHE_VAL between its messages as AC_CACHE_CHECK, if the call begins that.
pub fn pass_cached(
    alloc: Global,
    idioms: Idioms,
    known: &Known,
    text: &[u8],
    calls: &[CallAt],
    first: usize,
    spot: Spot,
    call: &CallAt,
    pass: &mut Pass,
) -> Result<(), AllocError>
    requires calls { map macro_call_of calls.now ≡ calls_in text.now }
    requires call { Contains (calls_in text.now) (macro_call_of call.now) }
    requires begun { rewritten.IsPass idioms text.now pass.old.at pass.old.out.items }
    ensures { OnOk result (rewritten.IsPass idioms text.now pass.new.at pass.new.out.items) }
{
    if !can_be_made(known, text, spot, call) {
        return Ok(());
    }
    let Some(message) = only_argument(text, call, b"AC_MSG_CHECKING") else {
        return Ok(());
    };
    let second = first.saturating_add(1);
    pass_second(alloc, idioms, text, calls, second, call, message, pass)
}
