//! Idioms that differ from their macros, each below a comment that says in what.

ghost use Rattle.std.specs.Prelude.{◌≡◌, ◌∷◌, ◌++◌, Some, true, map, IfOk, IfSome, IsTrue};
ghost use Rattle.std.specs.List.{flat_map, list_all};
ghost use Rattle.ac_calls.specs.Calls.{macro_call_of};
ghost use Rattle.port_idioms.specs.Rows.{Differs};
ghost use Rattle.port_spots.specs.Put as specs;

use ac_calls::CallAt;
use lint_macros::takes_list;
use port_idioms::{Other, text_of};
use port_spots::{difference, name_of, put_idiom, put_named, texts};
use std::alloc::{AllocError, Global};
use text_cut::{fields, parts};

/// Appends an idiom with each of the names, after a newline and the indent. Returns whether each
/// argument could be put there.
fn put_each(
    alloc: Global,
    out: &mut Vec<u8>,
    idiom: &[u8],
    names: &[&[u8]],
    more: &[&[u8]],
    indent: &[u8],
) -> Result<bool, AllocError>
    ensures { IfOk result (λ b.
        IsTrue b
        → out.new.items
        ≡ out.old.items
        ++ flat_map (specs.below indent.now idiom.now) (
        map (λ name.
        name ∷ map (λ a. a.now) more.now) (map (λ n. n.now) names.now))) }
{
    for name in names {
        if !put_named(alloc, out, idiom, name, more, indent)? {
            return Ok(false);
        }
    }
    Ok(true)
}

/// Appends an idiom with each name of a list, after a newline and the indent. Returns whether each
/// argument could be put there.
fn put_list(
    alloc: Global,
    out: &mut Vec<u8>,
    idiom: &[u8],
    list: &[u8],
    more: &[&[u8]],
    indent: &[u8],
) -> Result<bool, AllocError>
    ensures { IfOk result (λ b.
        IsTrue b
        → out.new.items
        ≡ out.old.items
        ++ flat_map (specs.below indent.now idiom.now)
        (specs.each_of (list.now ∷ map (λ a. a.now) more.now))) }
{
    let Some(list) = text_of(list) else {
        return Ok(false);
    };
    let names = parts(alloc, list, b',')?;
    put_each(alloc, out, idiom, names.as_slice(), more, indent)
}

/// Appends an idiom with each word of a list, after a newline and the indent. Returns whether there
/// is a word, and each argument could be put there.
fn put_words(
    alloc: Global,
    out: &mut Vec<u8>,
    idiom: &[u8],
    list: &[u8],
    more: &[&[u8]],
    indent: &[u8],
) -> Result<bool, AllocError>
    ensures { IfOk result (λ b.
        IsTrue b
        → out.new.items
        ≡ out.old.items
        ++ flat_map (specs.below indent.now idiom.now)
        (specs.each_word (list.now ∷ map (λ a. a.now) more.now))) }
{
    let Some(list) = text_of(list) else {
        return Ok(false);
    };
    let names = fields(alloc, list)?;
    if names.is_empty() {
        return Ok(false);
    }
    put_each(alloc, out, idiom, names.as_slice(), more, indent)
}

/// Appends an idiom with each word of the first argument, after a newline and the indent. Returns
/// whether there is a word, and each argument could be put there.
fn put_worded(
    alloc: Global,
    out: &mut Vec<u8>,
    idiom: &[u8],
    args: &[&[u8]],
    indent: &[u8],
) -> Result<bool, AllocError>
    ensures { IfOk result (λ b.
        IsTrue b
        → out.new.items
        ≡ out.old.items
        ++ flat_map (specs.below indent.now idiom.now)
        (specs.each_word (map (λ a. a.now) args.now))) }
{
    match args.split_first() {
        Some((list, more)) => put_words(alloc, out, idiom, list, more, indent),
        None => Ok(false),
    }
}

/// Appends an idiom, once or with each name of a list, each time after a newline and the indent.
/// Returns whether each argument could be put there.
#[tactic(auto, using(crate::proofs::Differing::once))]
fn put_once(
    alloc: Global,
    out: &mut Vec<u8>,
    idiom: &[u8],
    is_list: bool,
    args: &[&[u8]],
    indent: &[u8],
) -> Result<bool, AllocError>
    ensures { IfOk result (λ b.
        IsTrue b
        → out.new.items
        ≡ out.old.items
        ++ flat_map (specs.below indent.now idiom.now)
        (specs.written_with is_list (map (λ a. a.now) args.now))) }
{
    if !is_list {
        return put_idiom(alloc, out, idiom, args, indent);
    }
    match args.split_first() {
        Some((list, more)) => put_list(alloc, out, idiom, list, more, indent),
        None => Ok(true),
    }
}

/// Appends an idiom, once or with each name or word of a list, each time after a newline and the
/// indent. Returns whether each argument could be put there.
fn put_all(
    alloc: Global,
    out: &mut Vec<u8>,
    idiom: &[u8],
    has_words: bool,
    is_list: bool,
    args: &[&[u8]],
    indent: &[u8],
) -> Result<bool, AllocError>
    ensures { IfOk result (λ b.
        IsTrue b
        → out.new.items
        ≡ out.old.items
        ++ flat_map (specs.below indent.now idiom.now)
        (specs.written_as has_words is_list (map (λ a. a.now) args.now))) }
{
    if has_words {
        put_worded(alloc, out, idiom, args, indent)
    } else {
        put_once(alloc, out, idiom, is_list, args, indent)
    }
}

/// Returns whether the idiom of a macro is written once with each word of its first argument.
fn writes_each_word(name: &[u8]) -> bool
    ensures { result ≡ specs.writes_each_word name.now }
{
    name == b"AC_REPLACE_FUNCS".as_slice()
}

/// Returns an idiom with the arguments of a call, below the comment that says in what it differs
/// from the macro, unless an argument can't be put into it.
pub(crate) fn noted_text(
    alloc: Global,
    text: &[u8],
    indent: &[u8],
    call: &CallAt,
    other: &Other,
) -> Result<Option<Vec<u8>>, AllocError>
    requires idiom { specs.put_for text.now (macro_call_of call.now) ≡ Some other.now.idiom.now }
    requires said { Differs (specs.row_name text.now (macro_call_of call.now))
        (specs.count_of text.now (macro_call_of call.now).args) other.now.said.now }
    requires indent { list_all specs.is_space_or_return indent.now ≡ true }
    ensures { IfOk result (λ o.
        IfSome o (λ v. specs.IsNoted text.now (macro_call_of call.now) v.items)) }
{
    let args = texts(alloc, text, call.args.as_slice())?;
    let name = name_of(text, call);
    let has_words = writes_each_word(name);
    let is_list = takes_list(name);
    let mut out = difference(alloc, name, other.said)?;
    if put_all(
        alloc,
        &mut out,
        other.idiom,
        has_words,
        is_list,
        args.as_slice(),
        indent,
    )? {
        Ok(Some(out))
    } else {
        Ok(None)
    }
}
