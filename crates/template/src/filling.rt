//! Fills a template, from one `@` to the next. Adjacent pieces that are copied are written
//! together.

ghost use Rattle.std.specs.Prelude.{◌≡◌, ℕ, ◌+◌, ◌-◌, ◌^◌, ◌<◌, ◌≤◌, Some, None, true, List, length, slice_range, IfSome, IfNone, IfOk, drop};
ghost use Rattle.deftable.specs.Table.{value_of};
ghost use Rattle.template.specs.Fill.{Fills, filled};
ghost use Rattle.template.specs.Hops.{HasNoAt, HasNextAt, HasComeTo, read_to};

use crate::signs::{Window, next_sign};
use crate::table::Table;
use deftable::Bytes;
use std::alloc::{AllocError, Global};

/// The length from which pending text is written, while the processor's first cache still contains
/// it.
const MOST_HELD: usize = 512;

/// The progress of a filling. The text before `start` is written, and the text from `start` to
/// `last` is pending: it will be copied. If `opened` is set, an `@` is at `last` and may begin a
/// key.
#[derive(Clone, Copy)]
pub(crate) struct Held {
    pub(crate) start: usize,
    pub(crate) last: usize,
    pub(crate) opened: bool,
}

/// Returns the template `text` with the keys of `table` filled in (Autoconf's manual, "Setting
/// Output Variables").
///
/// The time is that of reading the text once, of writing the result, and of at most one look-up in
/// the table for each two neighbouring `@`. There is no look-up if the text between them is longer
/// than the longest key. The result reserves as many bytes as the text has, and grows if it becomes
/// longer.
pub fn fill(alloc: Global, text: &[u8], table: &Table) -> Result<Vec<u8>, AllocError>
    ensures sound { IfOk result (λ v. Fills table.now text.now v.items) }
    ensures exact { IfOk result (λ v. v.items ≡ filled table.now text.now) }
{
    let (mut made, held) = fill_closed(alloc, text, table)?;
    made.extend_from_slice(&text[held.start..])?;
    // for the proof only
    has_one_filled_text(text, table);
    Ok(made)
}

/// Fills the text up to its last `@` if that one is open, and otherwise up to the end of its last
/// key.
///
/// [`fill`] and a filler share it. A filler owns its table, so `fill` can't go through one without
/// a copy of the table.
pub(crate) fn fill_closed(
    alloc: Global,
    text: &[u8],
    table: &Table,
) -> Result<(Vec<u8>, Held), AllocError>
    ensures come { IfOk result (λ p.
        HasComeTo table.now text.now p.0.items p.1.start p.1.last p.1.opened) }
    ensures end { IfOk result (λ p. HasNoAt (drop (read_to p.1.last p.1.opened) text.now)) }
{
    let mut made = Vec::with_capacity(alloc, text.len())?;
    let mut held = Held {
        start: 0,
        last: 0,
        opened: false,
    };
    let mut window = Window::new();
    let mut from = 0;
    while let Some((at, later)) = next_sign(text, window, from) {
        held = step(&mut made, text, table, held, at)?;
        window = later;
        from = at + 1;
    }
    Ok((made, held))
}

/// States that a template has exactly one filled text: the one that the function `filled` gives.
pub fn has_one_filled_text(text: &[u8], table: &Table)
    ensures filled { Fills table.now text.now (filled table.now text.now) }
    ensures unique { (made : List ℕ) → Fills table.now text.now made
        → made ≡ filled table.now text.now }
{
    // for the proof only
    let _ = text;
    let _ = table.longest_key();
}

/// Continues to the next `@`, which is at `at`. If a key ends there, writes its value. Otherwise
/// the text up to there is pending.
fn step(
    made: &mut Vec<u8>,
    text: &[u8],
    table: &Table,
    held: Held,
    at: usize,
) -> Result<Held, AllocError>
    requires come { HasComeTo table.now text.now made.old.items held.start held.last held.opened }
    requires next { HasNextAt text.now (read_to held.last held.opened) at }
    ensures read { IfOk result (λ later. read_to later.last later.opened ≡ at + 1) }
    ensures come { IfOk result (λ later.
        HasComeTo table.now text.now made.new.items later.start later.last later.opened) }
{
    if let Some(value) = value_between(text, table, held, at) {
        made.extend_from_slice(&text[held.start..held.last])?;
        made.extend_from_slice(value.as_slice())?;
        return Ok(Held {
            start: at + 1,
            last: at + 1,
            opened: false,
        });
    }
    let mut start = held.start;
    if at - start >= MOST_HELD {
        made.extend_from_slice(&text[start..at])?;
        start = at;
    }
    Ok(Held {
        start,
        last: at,
        opened: true,
    })
}

/// Returns the value of the key between the open `@` and the next one, or `None` if there is none.
fn value_between<'a>(text: &[u8], table: &'a Table, held: Held, at: usize) -> Option<&'a Bytes>
    requires { HasNextAt text.now (read_to held.last held.opened) at }
    ensures value { IfSome result (λ x.
        value_of table.now (slice_range text.now (held.last + 1) at) ≡ Some x.now) }
    ensures opened { IfSome result (λ _. held.opened ≡ true) }
    ensures no_value { IfNone result (
        held.opened ≡ true → value_of table.now (slice_range text.now (held.last + 1) at) ≡ None) }
{
    if held.opened {
        table.get(&text[held.last + 1..at])
    } else {
        None
    }
}
