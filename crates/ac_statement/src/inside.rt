//! Arguments that hold statements, or one call.

ghost use Rattle.std.specs.Prelude.{◌≡◌, ◌+◌, ◌<◌, ◌≤◌, ◌^◌, length, map, IfOk, MatchOption, None, Some};
ghost use Rattle.std.specs.List.{prefix_len};
ghost use Rattle.m4quote.specs.ItemValue.{Span, span, view, views};
ghost use Rattle.m4quote.specs.Parts.{ArePartsOf};
ghost use Rattle.ac_statement.specs.Inside as words;
ghost use Rattle.ac_statement.specs.Reading.{Gives};
ghost use Rattle.ac_statement.specs.Texts as texts;

use crate::fault::{ParseFault, quote_fault};
use crate::texts::is_all_blank;
use m4quote::{Arg, Item, read_items_at};
use std::alloc::Global;
use text_cut::{is_blank, trim};

/// Returns how many brackets are open after this byte.
fn depth_after(depth: usize, byte: u8) -> usize
    requires { depth + 1 < 2 ^ 64 }
    ensures { result ≡ words.depth_after depth byte }
{
    match byte {
        b'[' => depth + 1,
        b']' => depth.saturating_sub(1),
        _ => depth,
    }
}

/// Returns whether the one bracket that is open before the text is closed by its last byte, and not
/// earlier.
fn closes_at_end(text: &[u8]) -> bool
    ensures { result ≡ words.closes_at_end 1 text.now }
{
    let mut depth = 1;
    for byte in text {
        if depth == 0 {
            return false;
        }
        depth = depth_after(depth, *byte);
    }
    depth == 0
}

fn is_run(text: &[u8]) -> bool
    ensures { result ≡ words.is_run text.now }
{
    match text {
        [] => false,
        [first, rest @ ..] => *first == b'[' && closes_at_end(rest),
    }
}

/// Returns whether the items are blank text alone.
pub fn are_blank(items: &[Item<'_>]) -> bool
    ensures { result ≡ words.are_blank (views items.now) }
{
    for item in items {
        match item {
            Item::Call { .. } => return false,
            Item::Bare { text, .. } => {
                if !is_all_blank(text) {
                    return false;
                }
            }
        }
    }
    true
}

/// If exactly one item is not blank text, and it is bare text, returns it with its offset.
fn only_text<'a>(items: &[Item<'a>]) -> Option<(&'a [u8], usize)>
    ensures { MatchOption result (words.only_text (views items.now) ≡ None)
        (λ r. words.only_text (views items.now) ≡ Some (record { text = r.0.now; at = r.1 })) }
{
    for i in 0..items.len() {
        match &items[i] {
            Item::Call { .. } => return None,
            Item::Bare { text, at } => {
                if !is_all_blank(text) {
                    if are_blank(&items[i + 1..]) {
                        return Some((text, *at));
                    }
                    return None;
                }
            }
        }
    }
    None
}

/// Returns the number of blanks at the front.
fn blank_len(text: &[u8]) -> usize
    ensures value { result ≡ words.blank_len text.now }
    ensures within { result ≤ length text.now }
{
    text.iter().take_while(|byte| is_blank(**byte)).count()
}

/// If the bare text is one quoted run with blanks around it, returns the inside of the run.
fn run_inside<'a>(text: &'a [u8], at: usize) -> Option<Arg<'a>>
    requires { at + length text.now < 2 ^ 64 }
    ensures { MatchOption result (words.run_inside (record { text = text.now; at = at }) ≡ None)
        (λ r. words.run_inside (record { text = text.now; at = at }) ≡ Some (span r)) }
{
    let blanks = blank_len(text);
    let run = trim(&text[blanks..]);
    if !is_run(run) {
        return None;
    }
    Some(Arg {
        text: &run[1..run.len() - 1],
        at: at + blanks + 1,
    })
}

fn is_bracket(byte: u8) -> bool
    ensures { result ≡ texts.is_bracket byte }
{
    byte == b'[' || byte == b']'
}

fn brackets(text: &[u8]) -> usize
    ensures { result ≡ words.brackets text.now }
{
    text.iter().filter(|byte| is_bracket(**byte)).count()
}

/// Returns `count` less the number of brackets in the arguments.
fn less_arguments(count: usize, args: &[Arg<'_>]) -> usize
    ensures { result ≡ words.less_arguments count (map span args.now) }
{
    let mut left = count;
    for arg in args {
        left = left.saturating_sub(brackets(arg.text));
    }
    left
}

/// Returns `count` less the number of brackets in the arguments of the item, if it is a call.
fn less_item(count: usize, item: &Item<'_>) -> usize
    ensures { result ≡ words.less_item count (view item.now) }
{
    match item {
        Item::Call { args, .. } => less_arguments(count, args),
        Item::Bare { .. } => count,
    }
}

/// Returns `count` less the number of brackets in the arguments of all calls.
fn less_calls(count: usize, items: &[Item<'_>]) -> usize
    ensures { result ≡ words.less_calls count (views items.now) }
{
    let mut left = count;
    for item in items {
        left = less_item(left, item);
    }
    left
}

/// Returns whether all brackets of the text are in the arguments of its calls.
fn is_unquoted(text: &[u8], items: &[Item<'_>]) -> bool
    ensures { result ≡ words.is_unquoted text.now (views items.now) }
{
    less_calls(brackets(text), items) == 0
}

/// Reads the items of an argument.
fn items_of<'a>(alloc: Global, arg: Arg<'a>) -> Result<Vec<Item<'a>>, ParseFault>
    ensures value { Gives (λ v. views v.items) result (words.items_of (span arg.entry)) }
    ensures parts { IfOk result (λ v. ArePartsOf arg.entry.at arg.entry.text.now (views v.items)) }
{
    match read_items_at(alloc, arg.text, arg.at) {
        Ok(items) => Ok(items),
        Err(fault) => Err(quote_fault(fault)),
    }
}

/// If the items are one quoted run with blanks around it, returns the inside of the run.
fn only_run<'a>(items: &[Item<'a>]) -> Option<Arg<'a>>
    requires { (s : Span) → words.only_text (views items.now) ≡ Some s
        → s.at + length s.text < 2 ^ 64 }
    ensures { MatchOption result (words.inside_of (words.only_text (views items.now)) ≡ None)
        (λ r. words.inside_of (words.only_text (views items.now)) ≡ Some (span r)) }
{
    match only_text(items) {
        Some((text, at)) => run_inside(text, at),
        None => None,
    }
}

/// Returns the statements that an argument denotes, as a text: the inside of one quoted run with
/// blanks and `dnl` lines around it, or the argument itself if no bracket is outside its calls.
/// `inside_laws` states this in the words of `specs/Standing` (own).
///
/// # Errors
///
/// - `UnknownStatement` at the argument, if it has neither form.
#[tactic(auto, unfolding(crate::specs::Inside::inside))]
pub fn inside<'a>(alloc: Global, arg: Arg<'a>) -> Result<Arg<'a>, ParseFault>
    ensures { Gives span result (words.inside (span arg.entry)) }
{
    let items = items_of(alloc, arg)?;
    if let Some(inside) = only_run(&items) {
        return Ok(inside);
    }
    if !is_unquoted(arg.text, &items) {
        return Err(ParseFault::UnknownStatement(arg.at));
    }
    Ok(arg)
}

/// Returns the items of an argument that holds one call, quoted or not: those of the inside, if the
/// argument is one quoted run with blanks and `dnl` lines around it, else the argument's own.
/// Unlike in `inside`, brackets may be anywhere (own).
#[tactic(auto, unfolding(crate::specs::Inside::call_items))]
pub fn call_items<'a>(alloc: Global, arg: Arg<'a>) -> Result<Vec<Item<'a>>, ParseFault>
    ensures { Gives (λ v. views v.items) result (words.call_items (span arg.entry)) }
{
    let items = items_of(alloc, arg)?;
    match only_run(&items) {
        Some(inside) => items_of(alloc, inside),
        None => Ok(items),
    }
}
