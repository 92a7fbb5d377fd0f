//! Finds the calls of a text.

ghost use Rattle.std.specs.Prelude.{◌≡◌, ◌+◌, ◌≤◌, [], ◌∷◌, ◌++◌, ◌↔◌, if◌then◌else◌, Contains, map, length, IfOk, OnOk};
ghost use Rattle.m4quote.specs.ItemValue.{span, view, views};
ghost use Rattle.m4quote.specs.Gives.{Gives};
ghost use Rattle.m4quote.specs.Scan.{outcome};
ghost use Rattle.ac_macros.specs.Arguments as arguments;
ghost use Rattle.ac_macros.specs.Table.{row_named};
ghost use Rattle.ac_calls.specs.Calls as specs;
ghost use Rattle.ac_calls.specs.Standing.{IsCallOf};

use crate::call::{CallAt, call_at};
use ac_macros::table::row_named;
use ac_macros::{Row, holds_statements};
use ac_statement::ParseFault;
use ac_statement::inside::inside;
use m4quote::{Arg, Item, QuoteFault, read_items_at};
use std::alloc::{AllocError, Global};

/// The number of lists that may nest in the text's own list of statements.
const MAX_LISTS: u8 = 31;

/// Returns the items of a text at offset `at`, or the first error of its quotes.
fn placed_at<'a>(alloc: Global, text: &'a [u8], at: usize) -> Result<Vec<Item<'a>>, QuoteFault>
    requires { at + length text.now ≤ usize.MAX }
    ensures exact { Gives (λ v. views v.items) result (outcome at text.now) }
    ensures placed { IfOk result (λ v. specs.ArePlaced (views v.items)) }
{
    match read_items_at(alloc, text, at) {
        Ok(items) => Ok(items),
        Err(fault) => Err(fault),
    }
}

/// Returns the items of a text at offset `at`, or none if its quotes have an error.
fn items_at<'a>(alloc: Global, text: &'a [u8], at: usize) -> Result<Vec<Item<'a>>, AllocError>
    requires { at + length text.now ≤ usize.MAX }
    ensures value { IfOk result (λ v. views v.items ≡ specs.items_of (outcome at text.now)) }
    ensures placed { IfOk result (λ v. specs.ArePlaced (views v.items)) }
{
    match placed_at(alloc, text, at) {
        Ok(items) => Ok(items),
        Err(QuoteFault::OutOfMemory) => Err(AllocError),
        Err(_) => Ok(Vec::new(alloc)),
    }
}

/// Appends the calls of a statement argument. Lists nest at most `room` deep in it, counting its
/// own.
#[cycle(calls)]
#[tactic(auto, unfolding(crate::specs::Calls::in_argument))]
fn find_in_argument(
    alloc: Global,
    room: u8,
    arg: Arg<'_>,
    out: &mut Vec<CallAt>,
) -> Result<(), AllocError>
    ensures { OnOk result (
        map specs.macro_call_of out.new.items
        ≡ map specs.macro_call_of out.old.items ++ specs.in_argument room (span arg.entry)) }
{
    if room == 0 {
        return Ok(());
    }
    match inside(alloc, arg) {
        Ok(inner) => find_in_text(alloc, room - 1, inner, out),
        Err(ParseFault::OutOfMemory) => Err(AllocError),
        Err(_) => Ok(()),
    }
}

/// Appends the calls of a text in an argument. Lists nest at most `room` deep within it.
#[cycle(calls)]
fn find_in_text(
    alloc: Global,
    room: u8,
    inner: Arg<'_>,
    out: &mut Vec<CallAt>,
) -> Result<(), AllocError>
    ensures { OnOk result (
        map specs.macro_call_of out.new.items
        ≡ map specs.macro_call_of out.old.items
        ++ specs.in_text (specs.in_argument room) (span inner.entry)) }
{
    let items = items_at(alloc, inner.text, inner.at)?;
    find_in_items(alloc, room, &items, out)
}

/// Appends the calls of an argument, if it holds statements.
#[cycle(calls)]
fn find_in_arg(
    alloc: Global,
    room: u8,
    holds: bool,
    arg: Arg<'_>,
    out: &mut Vec<CallAt>,
) -> Result<(), AllocError>
    ensures { OnOk result (
        map specs.macro_call_of out.new.items
        ≡ map specs.macro_call_of out.old.items
        ++ (if holds then specs.in_argument room (span arg.entry) else [])) }
{
    if holds {
        find_in_argument(alloc, room, arg, out)
    } else {
        Ok(())
    }
}

/// Appends the calls in the arguments that hold statements.
#[cycle(calls)]
fn find_in_args(
    alloc: Global,
    room: u8,
    row: Row,
    args: &[Arg<'_>],
    out: &mut Vec<CallAt>,
) -> Result<(), AllocError>
    ensures { OnOk result (
        map specs.macro_call_of out.new.items
        ≡ map specs.macro_call_of out.old.items
        ++ specs.in_args (specs.in_argument room)
        (arguments.holds_statements row.named (length args.now)) 0 (map span args.now)) }
{
    for i in 0..args.len() {
        let holds = holds_statements(row.named, args.len(), i);
        find_in_arg(alloc, room, holds, args[i], out)?;
    }
    Ok(())
}

/// Appends the calls in the arguments of a macro.
#[cycle(calls)]
fn find_in_macro(
    alloc: Global,
    room: u8,
    row: Option<Row>,
    args: &[Arg<'_>],
    out: &mut Vec<CallAt>,
) -> Result<(), AllocError>
    ensures { OnOk result (
        map specs.macro_call_of out.new.items
        ≡ map specs.macro_call_of out.old.items
        ++ specs.in_macro (specs.in_argument room) row (map span args.now)) }
{
    match row {
        None => Ok(()),
        Some(row) => find_in_args(alloc, room, row, args, out),
    }
}

/// Appends a call, and those in its arguments.
#[cycle(calls)]
fn find_in_call(
    alloc: Global,
    room: u8,
    name: &[u8],
    args: &[Arg<'_>],
    at: usize,
    out: &mut Vec<CallAt>,
) -> Result<(), AllocError>
    requires { specs.IsPlaced name.now (map span args.now) at }
    ensures { OnOk result (
        map specs.macro_call_of out.new.items
        ≡ map specs.macro_call_of out.old.items ++ specs.call_at name.now (map span args.now) at
        ∷ specs.in_macro (specs.in_argument room) (row_named name.now)
        (map span args.now)) }
{
    let row = row_named(name);
    let call = call_at(alloc, name, row, args, at)?;
    out.push(call)?;
    find_in_macro(alloc, room, row, args, out)
}

/// Appends the calls of an item.
#[cycle(calls)]
fn find_in_item(
    alloc: Global,
    room: u8,
    item: &Item<'_>,
    out: &mut Vec<CallAt>,
) -> Result<(), AllocError>
    requires { specs.IsItemPlaced (view item.now) }
    ensures { OnOk result (
        map specs.macro_call_of out.new.items
        ≡ map specs.macro_call_of out.old.items
        ++ specs.in_item (specs.in_argument room) (view item.now)) }
{
    match item {
        Item::Bare { .. } => Ok(()),
        Item::Call { name, args, at } => find_in_call(alloc, room, name, args, *at, out),
    }
}

/// Appends the calls of items.
#[cycle(calls)]
fn find_in_items(
    alloc: Global,
    room: u8,
    items: &[Item<'_>],
    out: &mut Vec<CallAt>,
) -> Result<(), AllocError>
    requires { specs.ArePlaced (views items.now) }
    ensures { OnOk result (
        map specs.macro_call_of out.new.items
        ≡ map specs.macro_call_of out.old.items
        ++ specs.in_items (specs.in_argument room) (views items.now)) }
{
    for i in 0..items.len() {
        find_in_item(alloc, room, &items[i], out)?;
    }
    Ok(())
}

/// Returns the items that a whole source spells, in the form that [`calls_in`] takes
/// (`m4quote::read_items`).
///
/// # Errors
///
/// Returns the first error of the quotes.
pub fn items_of<'a>(alloc: Global, text: &'a [u8]) -> Result<Vec<Item<'a>>, QuoteFault>
    // The items are those of the source, or the error is its first one, unless memory runs out.
    ensures exact { Gives (λ v. views v.items) result (outcome 0 text.now) }
    ensures placed { IfOk result (λ v. specs.ArePlaced (views v.items)) }
{
    placed_at(alloc, text, 0)
}

/// Returns the calls of the items of a whole source, in order of their offsets.
///
/// # Errors
///
/// Fails only if memory runs out.
pub fn calls_in(alloc: Global, items: &[Item<'_>]) -> Result<Vec<CallAt>, AllocError>
    requires { specs.ArePlaced (views items.now) }
    ensures { IfOk result (λ v.
        map specs.macro_call_of v.items ≡ specs.calls_among (views items.now)) }
{
    let mut out = Vec::new(alloc);
    find_in_items(alloc, MAX_LISTS, items, &mut out)?;
    Ok(out)
}

/// Returns the calls of a whole source.
#[tactic(auto, unfolding(crate::specs::Calls::calls_in))]
fn find_all(alloc: Global, text: &[u8]) -> Result<Vec<CallAt>, AllocError>
    ensures { IfOk result (λ v. map specs.macro_call_of v.items ≡ specs.calls_in text.now) }
{
    let items = items_at(alloc, text, 0)?;
    calls_in(alloc, &items)
}

/// Returns the calls of a whole source, in order of their offsets.
///
/// A call in an argument comes after the call of the argument.
pub fn calls_of(alloc: Global, text: &[u8]) -> Result<Vec<CallAt>, AllocError>
    // The calls that are returned are exactly those of the source.
    ensures found { IfOk result (λ v.
        (c : specs.MacroCall)
        → Contains (map specs.macro_call_of v.items) c ↔ IsCallOf text.now c) }
    // Each is in the source, and each begins after the name of the one before it. So each is
    // returned once.
    ensures in_order { IfOk result (λ v.
        specs.AreInOrder 0 (length text.now) (map specs.macro_call_of v.items)) }
    // The same as a function of the text.
    ensures exact { IfOk result (λ v. map specs.macro_call_of v.items ≡ specs.calls_in text.now) }
{
    find_all(alloc, text)
}
