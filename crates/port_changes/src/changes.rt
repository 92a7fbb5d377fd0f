//! What the calls of a text become.

ghost use Rattle.std.specs.Prelude.{◌≡◌, ◌∷◌, ◌++◌, Some, [], true, IfOk, IfSome, OnOk};
ghost use Rattle.std.specs.List.{list_all};
ghost use Rattle.ac_calls.specs.Calls.{macro_call_of};
ghost use Rattle.port_idioms.specs.Exact.{text_of};
ghost use Rattle.port_spots.specs.Put as specs;

use crate::noted::noted_change;
use crate::placing::is_same_beside;
use crate::readers::{next_line, without_meaning};
use ac_calls::CallAt;
use lint_text::{first_name, from, is_word_byte, part};
use port_definitions::{is_dropped, last_line, space_len};
use port_idioms::{Exact, Idioms, exact_of, filled};
use port_spots::{
    Known, Spot, before_idle, begins_statement, count_of, ends_statement, indent_of,
    joins_next_line, line_indent, name_of, texts,
};
use std::alloc::{AllocError, Global};

/// What a part of the text is replaced by.
#[derive(Drop)]
pub struct Change {
    /// The offset of its first byte.
    pub start: usize,
    /// The offset after it.
    pub end: usize,
    /// What is put in its place.
    pub put: Vec<u8>,
}

/// Returns the change of a call to a text.
pub(crate) fn change_to(call: &CallAt, put: Vec<u8>) -> Change
    ensures { result.put.items ≡ put.items }
{
    Change {
        start: call.start,
        end: call.end,
        put,
    }
}

/// Appends a newline and the indent.
pub(crate) fn end_line(out: &mut Vec<u8>, indent: &[u8]) -> Result<(), AllocError>
    ensures { OnOk result (out.new.items ≡ out.old.items ++ (10 ∷ indent.now)) }
{
    out.push(b'\n')?;
    out.extend_from_slice(indent)
}

/// Macros in whose place Autoconf puts a command without a newline after it. A `dnl` after such a
/// call makes the next line a part of that command.
const OPEN_ENDED: [&[u8]; 14] = [
    b"AC_CHECKING",
    b"AC_COMPILE_CHECK",
    b"AC_ERROR",
    b"AC_FUNC_STRFTIME",
    b"AC_MSG_FAILURE",
    b"AC_MSG_RESULT",
    b"AC_TRY_COMPILE",
    b"AC_TRY_CPP",
    b"AC_TRY_LINK",
    b"AC_TRY_LINK_FUNC",
    b"AC_VERBOSE",
    b"AC_WARN",
    b"AS_MESSAGE",
    b"AS_VAR_COPY",
];

/// Returns whether Autoconf makes the line after a call a part of the command that it puts in its
/// place.
fn takes_next_line(text: &[u8], call: &CallAt) -> bool {
    let name = part(text, call.start, call.name_end);
    joins_next_line(text, call) && OPEN_ENDED.iter().any(|other| *other == name)
}

/// Returns what is put in the place of a call, with a newline after it if it would be joined to the
/// next line.
fn put_apart(text: &[u8], indent: &[u8], call: &CallAt, put: Vec<u8>) -> Result<Vec<u8>, AllocError>
    requires indent { list_all specs.is_space_or_return indent.now ≡ true }
    requires put { specs.IsPut text.now (macro_call_of call.now) put.items }
    ensures { IfOk result (λ v. specs.IsPut text.now (macro_call_of call.now) v.items) }
{
    if joins_next_line(text, call) {
        let mut out = put;
        end_line(&mut out, indent)?;
        Ok(out)
    } else {
        Ok(put)
    }
}

/// Returns an idiom with the arguments of a call, unless an argument can't be put into it. The words
/// of an argument without brackets may be taken for text.
fn idiom_text(
    alloc: Global,
    text: &[u8],
    spot: Spot,
    call: &CallAt,
    idiom: &[u8],
    are_text: bool,
) -> Result<Option<Vec<u8>>, AllocError>
    requires idiom { specs.put_for text.now (macro_call_of call.now) ≡ Some idiom.now }
    ensures { IfOk result (λ o.
        IfSome o (λ v. specs.IsPut text.now (macro_call_of call.now) v.items)) }
{
    let args = texts(alloc, text, call.args.as_slice())?;
    let indent = indent_of(text, spot, call.start);
    filled(alloc, idiom, args.as_slice(), are_text, indent)
}

/// Returns the change of a call to an idiom, unless an argument can't be put into it, or Autoconf
/// makes the line after the call a part of its command.
fn to_idiom(
    alloc: Global,
    text: &[u8],
    spot: Spot,
    call: &CallAt,
    idiom: &[u8],
    are_text: bool,
) -> Result<Option<Change>, AllocError>
    requires idiom { specs.put_for text.now (macro_call_of call.now) ≡ Some idiom.now }
    ensures { IfOk result (λ o.
        IfSome o (λ change. specs.IsPut text.now (macro_call_of call.now) change.put.items)) }
{
    if takes_next_line(text, call) {
        return Ok(None);
    }
    match idiom_text(alloc, text, spot, call, idiom, are_text)? {
        Some(text_put) => {
            let put = put_apart(text, line_indent(text, spot), call, text_put)?;
            Ok(Some(change_to(call, put)))
        }
        None => Ok(None),
    }
}

/// Returns the change of a call to a text.
fn to_text(alloc: Global, call: &CallAt, text: &[u8]) -> Result<Change, AllocError>
    ensures { IfOk result (λ change. change.put.items ≡ text.now) }
{
    let put = Vec::from_slice(alloc, text)?;
    Ok(change_to(call, put))
}

/// Returns whether nothing but a comment follows on the line.
fn is_last(rest: &[u8]) -> bool {
    rest.is_empty() || rest.starts_with(b"#") || rest.starts_with(b"dnl")
}

/// Returns the change of a call that can be left out: with its line if nothing else is on it, and
/// otherwise to `:` if anything but a comment follows.
fn without_call(alloc: Global, text: &[u8], spot: Spot, call: &CallAt) -> Result<Change, AllocError>
    ensures { IfOk result (λ change. specs.DoesNothing change.put.items) }
{
    if let Some(end) = next_line(text, call) {
        return Ok(Change {
            start: spot.line,
            end,
            put: Vec::new(alloc),
        });
    }
    let after = call.end.saturating_add(space_len(from(text, call.end)));
    if is_last(from(text, after)) {
        to_text(alloc, call, b"")
    } else {
        to_text(alloc, call, b":")
    }
}

/// Returns whether what ends at this offset is a call whose text is left there, or the bracket that
/// an argument begins with.
fn is_border(known: &Known, at: usize) -> bool {
    known.borders.get(at) == Some(&true)
}

/// Returns whether on the last line of a text a call whose text is left there, or the bracket that
/// an argument begins with, has only a `dnl` after it.
fn ends_in_comment(known: &Known, text: &[u8]) -> bool {
    for at in last_line(text)..text.len() {
        let rest = from(text, at);
        if is_border(known, at) && is_dropped(from(rest, space_len(rest))) {
            return true;
        }
    }
    false
}

/// Returns whether a call can be left out so that no list of commands of a shell becomes empty: a
/// call or the start of an argument is before it, apart from comments, or nothing is.
pub(crate) fn can_be_left_out(known: &Known, text: &[u8], spot: Spot) -> bool {
    if !spot.is_first {
        return false;
    }
    let front = before_idle(text, spot.line);
    front.is_empty() || is_border(known, front.len()) || ends_in_comment(known, front)
}

/// Returns the change of a call to nothing, or to `:` if a list of commands may become empty.
fn to_nothing(
    alloc: Global,
    known: &Known,
    text: &[u8],
    spot: Spot,
    call: &CallAt,
) -> Result<Change, AllocError>
    ensures { IfOk result (λ change. specs.DoesNothing change.put.items) }
{
    if can_be_left_out(known, text, spot) {
        without_call(alloc, text, spot, call)
    } else {
        to_text(alloc, call, b":")
    }
}

/// Macros that Autoconf draws out of the argument of another call, as a whole or in part, and so
/// does them in any case. Their idioms are done only if the action is.
const DRAWN: [&[u8]; 6] = [
    b"AC_PROG_INSTALL",
    b"AC_PROG_MKDIR_P",
    b"AC_PROG_CPP",
    b"AC_HEADER_MAJOR",
    b"AC_OBJEXT",
    b"AC_ARG_PROGRAM",
];

/// Returns whether Autoconf draws a macro of this name out of an argument.
pub fn is_drawn(name: &[u8]) -> bool {
    name.ends_with(b"_ONCE") || DRAWN.iter().any(|other| *other == name)
}

/// Returns whether the compiler is known that the idiom of a call reads: it reads none, or
/// AC_PROG_CC is before the call.
fn knows_compiler(known: &Known, text: &[u8], call: &CallAt) -> bool {
    part(text, call.start, call.name_end) != b"AC_PROG_CPP".as_slice()
        || known.after_compiler.is_some_and(|end| end <= call.start)
}

/// Returns whether the idiom of a call does the same at its place.
fn is_same_here(known: &Known, text: &[u8], spot: Spot, call: &CallAt) -> bool {
    begins_statement(text, spot, call.start)
        && ends_statement(from(text, call.end))
        && (spot.is_at_top || !is_drawn(part(text, call.start, call.name_end)))
        && knows_compiler(known, text, call)
        && is_same_beside(text, call)
}

/// Macros without a meaning that look for no compiler either.
const WITHOUT_COMPILER: [&[u8]; 7] = [
    b"m4_pattern_allow",
    b"AC_DIAGNOSE",
    b"AC_REVISION",
    b"AC_PRESERVE_HELP_ORDER",
    b"AC_C_CROSS",
    b"AC_FUNC_SETVBUF_REVERSED",
    b"AC_SETVBUF_REVERSED",
];

/// Returns whether the source looks for a compiler without this call: elsewhere, or the call looks
/// for none.
pub(crate) fn leaves_compiler(known: &Known, text: &[u8], call: &CallAt) -> bool {
    let name = part(text, call.start, call.name_end);
    known.has_compiler || WITHOUT_COMPILER.iter().any(|other| *other == name)
}

/// Returns the change of a call to nothing, unless no other call looks for a compiler, or a `:` in
/// its place would be joined to the next line.
pub(crate) fn left_out(
    alloc: Global,
    known: &Known,
    text: &[u8],
    spot: Spot,
    call: &CallAt,
) -> Result<Option<Change>, AllocError>
    requires dropped { specs.put_for text.now (macro_call_of call.now) ≡ Some [] }
    ensures { IfOk result (λ o.
        IfSome o (λ change. specs.IsPut text.now (macro_call_of call.now) change.put.items)) }
{
    let is_joined = joins_next_line(text, call) && !can_be_left_out(known, text, spot);
    if is_joined || !leaves_compiler(known, text, call) {
        return Ok(None);
    }
    let change = to_nothing(alloc, known, text, spot, call)?;
    Ok(Some(change))
}

/// Returns what a call is replaced by, if there is something exact.
#[tactic(auto, unfolding(port_spots::specs::Put::put_for))]
fn exact_for(
    alloc: Global,
    known: &Known,
    text: &[u8],
    call: &CallAt,
) -> Result<Option<Exact>, AllocError>
    ensures put { IfOk result (λ o.
        IfSome o (λ e. specs.put_for text.now (macro_call_of call.now) ≡ Some (text_of e))) }
    ensures exact { IfOk result (λ o.
        IfSome o (λ e. specs.IsExactFor text.now (macro_call_of call.now))) }
{
    let count = count_of(text, call.args.as_slice());
    exact_of(alloc, &known.index, name_of(text, call), count)
}

/// Returns the change of a call that has to go to this text or nothing.
fn to_exact(
    alloc: Global,
    known: &Known,
    text: &[u8],
    spot: Spot,
    call: &CallAt,
    exact: Exact,
    are_text: bool,
) -> Result<Option<Change>, AllocError>
    requires put { specs.put_for text.now (macro_call_of call.now) ≡ Some (text_of exact) }
    ensures { IfOk result (λ o.
        IfSome o (λ change. specs.IsPut text.now (macro_call_of call.now) change.put.items)) }
{
    match exact {
        Exact::Nothing => without_meaning(alloc, known, text, spot, call),
        Exact::Idiom(idiom) => to_idiom(alloc, text, spot, call, idiom, are_text),
    }
}

/// Returns the change of a call that has to go, if it has an exact idiom.
#[tactic(auto, using(crate::proofs::Puts::exactly))]
fn exact_change(
    alloc: Global,
    known: &Known,
    text: &[u8],
    spot: Spot,
    call: &CallAt,
    are_text: bool,
) -> Result<Option<Change>, AllocError>
    ensures { IfOk result (λ o.
        IfSome o (λ change.
        specs.IsPut text.now (macro_call_of call.now) change.put.items
        × specs.IsExactFor text.now (macro_call_of call.now))) }
{
    match exact_for(alloc, known, text, call)? {
        Some(exact) => to_exact(alloc, known, text, spot, call, exact, are_text),
        None => Ok(None),
    }
}

/// Returns the change of a call that has to go and has no exact idiom, if it has an idiom that is
/// wanted.
fn other_change(
    alloc: Global,
    idioms: Idioms,
    known: &Known,
    text: &[u8],
    spot: Spot,
    call: &CallAt,
) -> Result<Option<Change>, AllocError>
    ensures { IfOk result (λ o.
        IfSome o (λ change.
        specs.MayPut idioms text.now (macro_call_of call.now) change.put.items)) }
{
    match idioms {
        Idioms::Exact => Ok(None),
        Idioms::All => noted_change(alloc, known, text, spot, call),
    }
}

/// Returns whether the words of arguments without brackets are taken for text: if all idioms are
/// wanted, unless the source defines a macro of one of them.
fn takes_words(idioms: Idioms, known: &Known, text: &[u8], call: &CallAt) -> bool {
    match idioms {
        Idioms::Exact => false,
        Idioms::All => !has_defined(known, part(text, call.name_end, call.end)),
    }
}

/// Returns whether a text has a word that the source defines as a macro.
fn has_defined(known: &Known, text: &[u8]) -> bool {
    let mut end: usize = 0;
    for at in 0..text.len() {
        if at < end || !is_word_byte(text[at]) || text[at].is_ascii_digit() {
            continue;
        }
        let name = first_name(from(text, at));
        if known.defined.contains(name) {
            return true;
        }
        end = at.saturating_add(name.len());
    }
    false
}

/// Returns the change of a call that has to go, if it has an idiom that is wanted.
#[tactic(auto, using(crate::proofs::Puts::exact_may))]
pub fn change_of(
    alloc: Global,
    idioms: Idioms,
    known: &Known,
    text: &[u8],
    spot: Spot,
    call: &CallAt,
) -> Result<Option<Change>, AllocError>
    ensures { IfOk result (λ o.
        IfSome o (λ change.
        specs.MayPut idioms text.now (macro_call_of call.now) change.put.items)) }
{
    if !is_same_here(known, text, spot, call) {
        return Ok(None);
    }
    let are_text = takes_words(idioms, known, text, call);
    match exact_change(alloc, known, text, spot, call, are_text)? {
        Some(change) => Ok(Some(change)),
        None => other_change(alloc, idioms, known, text, spot, call),
    }
}
