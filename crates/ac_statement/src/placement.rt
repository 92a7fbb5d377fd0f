//! Which calls are statements, by the text around them.

ghost use Rattle.std.specs.Prelude.{◌≡◌, ◌≤◌, map, length, reverse};
ghost use Rattle.std.specs.List.{prefix_len};
ghost use Rattle.m4quote.specs.ItemValue.{span, view, views};
ghost use Rattle.ac_statement.specs.Stand as words;

use crate::texts::is_all_blank;
use m4quote::{Arg, Item};
use text_cut::is_space;

/// Returns the number of spaces and tabs at the front.
fn space_len(text: &[u8]) -> usize
    ensures value { result ≡ prefix_len words.is_space text.now }
    ensures within { result ≤ length text.now }
{
    text.iter().take_while(|byte| is_space(**byte)).count()
}

/// Returns the number of spaces and tabs at the end.
fn end_space_len(text: &[u8]) -> usize
    ensures value { result ≡ prefix_len words.is_space (reverse text.now) }
    ensures within { result ≤ length text.now }
{
    text.iter()
        .rev()
        .take_while(|byte| is_space(**byte))
        .count()
}

/// Returns whether the text, after its leading spaces and tabs, begins with a newline, `;` or `#`,
/// or is empty.
fn begins_line(text: &[u8]) -> bool
    ensures { result ≡ words.begins_line text.now }
{
    let n = space_len(text);
    n == text.len() || matches!(text[n], b'\n' | b';' | b'#')
}

/// Returns whether the text, before its trailing spaces and tabs, ends with a newline or `;`, or is
/// empty.
fn ends_line(text: &[u8]) -> bool
    ensures { result ≡ words.ends_line text.now }
{
    let n = end_space_len(text);
    n == text.len() || matches!(text[text.len() - 1 - n], b'\n' | b';')
}

/// What precedes a call.
#[derive(Clone, Copy)]
pub struct LineStart {
    /// The offset of the bare text, and its length; 0 if the item is a call.
    pub at: usize,
    pub len: usize,
    /// Whether a call may directly follow.
    pub free: bool,
}

/// What precedes the first item: nothing.
pub const LIST_START: LineStart = LineStart {
    at: 0,
    len: 0,
    free: true,
};

/// Returns what the item is to a call that follows it.
pub fn line_start_of(item: &Item<'_>) -> LineStart
    ensures { result ≡ words.line_start_of (view item.now) }
{
    match item {
        Item::Call { .. } => LIST_START,
        Item::Bare { text, at } => LineStart {
            at: *at,
            len: text.len(),
            free: is_all_blank(text) || ends_line(text),
        },
    }
}

/// Returns whether the bare text extends to offset `at`, with no dropped line between.
fn reaches(line_start: LineStart, at: usize) -> bool
    ensures { result ≡ words.reaches line_start at }
{
    at.saturating_sub(line_start.at) == line_start.len
}

/// Returns whether a call extends to offset `to`, with no dropped line between.
fn call_reaches(name: &[u8], args: &[Arg<'_>], at: usize, to: usize) -> bool
    ensures { result ≡ words.call_reaches name.now (map span args.now) at to }
{
    match args.last() {
        None => to.saturating_sub(at) == name.len(),
        Some(last) => to.saturating_sub(last.at) == last.text.len() + 1,
    }
}

/// Returns whether a statement may be followed by these items.
fn is_free_after(name: &[u8], args: &[Arg<'_>], at: usize, items: &[Item<'_>]) -> bool
    ensures { result ≡ words.is_free_after name.now (map span args.now) at (views items.now) }
{
    match items {
        [] => true,
        [first, ..] => match first {
            Item::Call { .. } => true,
            Item::Bare { text, at: to } => {
                !call_reaches(name, args, at, *to) || is_all_blank(text) || begins_line(text)
            }
        },
    }
}

/// Returns whether a call is a statement: it is on a line of its own, or `;` separates it from what
/// precedes and follows it (own).
#[tactic(auto, unfolding(crate::specs::Stand::is_statement))]
pub fn is_statement(
    line_start: LineStart,
    name: &[u8],
    args: &[Arg<'_>],
    at: usize,
    after: &[Item<'_>],
) -> bool
    ensures { result
        ≡ words.is_statement line_start name.now (map span args.now) at (views after.now) }
{
    (line_start.free || !reaches(line_start, at)) && is_free_after(name, args, at, after)
}
