//! Help arguments (Autoconf's manual, "Making Your Help Strings Look Pretty").

ghost use Rattle.std.specs.Prelude.{◌≡◌, MatchOption, None, Some, map};
ghost use Rattle.m4quote.specs.ItemValue.{span, views};
ghost use Rattle.ac_args.specs.Help as words;
ghost use Rattle.ac_statement.specs.Reading.{Gives};

use crate::arguments::text;
use ac_statement::fault::ParseFault;
use ac_statement::inside::{are_blank, call_items};
use ac_statement::texts::{arg_at, is_all_blank};
use ac_tree::Help;
use m4quote::{Arg, Item};
use std::alloc::Global;

/// The macro that a help argument may call.
const HELP_STRING: &[u8] = b"AS_HELP_STRING";

/// If the items are a single call of `name` and blanks, returns its arguments and its offset.
pub fn sole_call<'a, 'b>(name: &[u8], items: &'b [Item<'a>]) -> Option<(&'b [Arg<'a>], usize)>
    ensures { MatchOption result (words.sole_call name.now (views items.now) ≡ None) (λ r.
        words.sole_call name.now (views items.now)
        ≡ Some (record { args = map span r.0.now; at = r.1 })) }
{
    for i in 0..items.len() {
        match &items[i] {
            Item::Call {
                name: other,
                args,
                at,
            } => {
                if *other == name && are_blank(&items[i + 1..]) {
                    return Some((args.as_slice(), *at));
                }
                return None;
            }
            Item::Bare { text, .. } => {
                if !is_all_blank(text) {
                    return None;
                }
            }
        }
    }
    None
}

/// Returns whether one of the items is a call of `name`.
fn has_call(name: &[u8], items: &[Item<'_>]) -> bool
    ensures { result ≡ words.has_call name.now (views items.now) }
{
    for item in items {
        if let Item::Call { name: other, .. } = item {
            if *other == name {
                return true;
            }
        }
    }
    false
}

/// Reads the arguments of an AS_HELP_STRING whose name is at `at`.
#[tactic(auto, unfolding(crate::specs::Help::help_string))]
fn help_string(alloc: Global, args: &[Arg<'_>], at: usize) -> Result<Help, ParseFault>
    ensures { Gives (λ h. h) result (words.help_string (map span args.now) at) }
{
    if args.len() != 2 {
        return Err(ParseFault::ArgCount(at));
    }
    let left = text(alloc, arg_at(args, 0))?;
    let right = text(alloc, arg_at(args, 1))?;
    Ok(Help::Columns { left, right })
}

fn own_text(alloc: Global, arg: Arg<'_>) -> Result<Help, ParseFault>
    ensures { Gives (λ h. h) result (words.own_text (span arg.entry)) }
{
    let text = text(alloc, arg)?;
    Ok(Help::Text { text })
}

/// Reads the help of an argument that has these items.
fn help_among(alloc: Global, arg: Arg<'_>, items: &[Item<'_>]) -> Result<Help, ParseFault>
    ensures { Gives (λ h. h) result (
        words.help_by (span arg.entry) (words.has_call words.help_string_name (views items.now))
        (words.sole_call words.help_string_name (views items.now))) }
{
    if let Some((args, at)) = sole_call(HELP_STRING, items) {
        return help_string(alloc, args, at);
    }
    if has_call(HELP_STRING, items) {
        return Err(ParseFault::UnknownStatement(arg.at));
    }
    own_text(alloc, arg)
}

/// Returns whether AS_HELP_STRING is in the text.
#[tactic(auto, using(crate::proofs::HelpParts::part_end))]
fn has_help_string(text: &[u8]) -> bool
    ensures { result ≡ words.has_part words.help_string_name text.now }
{
    for i in 0..text.len() {
        if text[i..].starts_with(HELP_STRING) {
            return true;
        }
    }
    false
}

/// Returns the help of an argument whose items can't be read because of this error.
fn unread_help(alloc: Global, arg: Arg<'_>, fault: ParseFault) -> Result<Help, ParseFault>
    ensures { Gives (λ h. h) result (
        words.unread_help (span arg.entry)
        (words.has_part words.help_string_name (span arg.entry).text) fault) }
{
    if has_help_string(arg.text) {
        return Err(fault);
    }
    own_text(alloc, arg)
}

/// Returns the help that an argument gives. If AS_HELP_STRING is called among its items
/// (`call_items`), it is the entry that the call makes; else it is the argument's used text.
///
/// # Errors
///
/// - `UnknownStatement` at the argument, if it calls AS_HELP_STRING and has anything else but
///   blanks and `dnl` lines.
/// - `ArgCount` at the name AS_HELP_STRING, if the call doesn't have two arguments.
/// - The error in reading the items, if AS_HELP_STRING is in the text of the argument.
#[tactic(auto, unfolding(crate::specs::Help::help))]
pub fn help(alloc: Global, arg: Arg<'_>) -> Result<Help, ParseFault>
    ensures { Gives (λ h. h) result (words.help (span arg.entry)) }
{
    match call_items(alloc, arg) {
        Ok(items) => help_among(alloc, arg, &items),
        Err(ParseFault::OutOfMemory) => Err(ParseFault::OutOfMemory),
        Err(fault) => unread_help(alloc, arg, fault),
    }
}
