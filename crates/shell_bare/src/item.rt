//! Reads the front of statements.

ghost use Rattle.std.specs.Prelude.{◌≡◌, ◌+◌, ◌<◌, ◌≤◌, ◌^◌, not, length, IfOk, IfErr, drop};
ghost use Rattle.shellword.specs.Text as bytes;
ghost use Rattle.shell_bare.specs.Faults.{IsBareFault};
ghost use Rattle.shell_bare.specs.Gives.{Gives};
ghost use Rattle.shell_bare.specs.Reading as specs;
ghost use Rattle.shell_bare.specs.Statements.{nothing};
ghost use Rattle.shell_bare.specs.Text.{comment_len};

use crate::assignments::Assignment;
use crate::fault::BareFault;
use deftable::shell_name::name_bytes_len;
use deftable::{Bytes, Name};
use shellword::{ShellFault, Word, read_word_front};
use std::alloc::Global;
use text_cut::is_space;

/// The part of a statement that has been read.
#[derive(Clone, Copy)]
pub(crate) enum ReadStage {
    /// Only spaces and comments have been read.
    Opening,
    /// Assignments have been read.
    Assigned,
    /// A lone colon has been read.
    Closed,
}

/// The front of a text: its assignment, if it is one; its length; and the stage of the statement
/// after it.
#[derive(Drop)]
pub(crate) struct Item {
    pub(crate) assignment: Option<Assignment>,
    pub(crate) len: usize,
    pub(crate) stage: ReadStage,
}

/// Returns whether a lone colon may end before `rest`: `rest` is empty, or begins with a blank or
/// `;`.
fn is_parted(rest: &[u8]) -> bool
    ensures { result ≡ bytes.is_parted rest.now }
{
    match rest.split_first() {
        Some((byte, _)) => *byte == b' ' || *byte == b'\t' || *byte == b'\n' || *byte == b';',
        None => true,
    }
}

fn begins_with(text: &[u8], byte: u8) -> bool
    ensures { result ≡ bytes.begins_with byte text.now }
{
    match text.split_first() {
        Some((first, _)) => *first == byte,
        None => false,
    }
}

/// Returns the number of bytes before the first newline.
fn comment_len(text: &[u8]) -> usize
    ensures value { result ≡ comment_len text.now }
    ensures within { result ≤ length text.now }
{
    text.iter().take_while(|b| **b != b'\n').count()
}

/// Returns an item without an assignment.
fn nothing(len: usize, stage: ReadStage) -> Item
    ensures { result ≡ nothing len stage }
{
    Item {
        assignment: None,
        len,
        stage,
    }
}

/// Reads the word at the front of `text`, which is at offset `start`. Returns it with its length.
fn read_value(alloc: Global, start: usize, text: &[u8]) -> Result<(Word, usize), BareFault>
    requires { start + length text.now < 2 ^ 64 }
    ensures value { Gives (λ r. (r.0, r.1)) result (specs.value_at start text.now) }
    ensures fault { IfErr result (IsBareFault (start + length text.now)) }
    ensures within { IfOk result (λ r. r.1 ≤ length text.now) }
{
    match read_word_front(alloc, text) {
        Ok((word, len)) => Ok((word, len)),
        Err(ShellFault::BadWord(at)) => Err(BareFault::Shell(ShellFault::BadWord(start + at))),
        Err(ShellFault::OutOfMemory) => Err(BareFault::OutOfMemory),
        Err(fault) => Err(BareFault::Shell(fault)),
    }
}

/// Reads the assignment at the front of `text`, which is at offset `at`. Its name must be the first
/// `len` bytes.
fn read_named(alloc: Global, at: usize, text: &[u8], len: usize) -> Result<Item, BareFault>
    requires fits { at + length text.now < 2 ^ 64 }
    requires name { len < length text.now }
    ensures value { Gives (λ i. i) result (specs.named_at at len text.now) }
    ensures fault { IfErr result (IsBareFault (at + length text.now)) }
    ensures within { IfOk result (λ i. (0 < i.len) × (i.len ≤ length text.now)) }
{
    let name = Bytes::from_slice(alloc, &text[..len])?;
    let Some(name) = Name::new(name) else {
        return Err(BareFault::UnknownStatement(at));
    };
    let following = len + 1;
    let (value, value_len) = read_value(alloc, at + following, &text[following..])?;
    Ok(Item {
        assignment: Some(Assignment { name, value }),
        len: following + value_len,
        stage: ReadStage::Assigned,
    })
}

/// Reads the assignment at the front of `text`, which is at offset `at`.
fn read_assignment(alloc: Global, at: usize, text: &[u8]) -> Result<Item, BareFault>
    requires { at + length text.now < 2 ^ 64 }
    ensures value { Gives (λ i. i) result (specs.assignment_at at text.now) }
    ensures fault { IfErr result (IsBareFault (at + length text.now)) }
    ensures within { IfOk result (λ i. (0 < i.len) × (i.len ≤ length text.now)) }
{
    let len = name_bytes_len(text);
    if begins_with(&text[len..], b'=') {
        read_named(alloc, at, text, len)
    } else {
        Err(BareFault::UnknownStatement(at))
    }
}

/// Reads the lone colon or the assignment at the front of `text`, which is at offset `at`.
fn read_shell_word(
    alloc: Global,
    stage: ReadStage,
    at: usize,
    text: &[u8],
) -> Result<Item, BareFault>
    requires { at + length text.now < 2 ^ 64 }
    ensures value { Gives (λ i. i) result (specs.shell_word_at stage at text.now) }
    ensures fault { IfErr result (IsBareFault (at + length text.now)) }
    ensures within { IfOk result (λ i. (0 < i.len) × (i.len ≤ length text.now)) }
{
    match (stage, text.split_first()) {
        (ReadStage::Opening, Some((b':', rest))) if is_parted(rest) => Ok(nothing(
            1,
            ReadStage::Closed,
        )),
        (ReadStage::Closed, _) => Err(BareFault::UnknownStatement(at)),
        _ => read_assignment(alloc, at, text),
    }
}

/// Reads the item at the front of `text`, which is at offset `at`.
#[tactic(auto, unfolding(crate::specs::Reading::item_of))]
pub(crate) fn read_item(
    alloc: Global,
    stage: ReadStage,
    at: usize,
    text: &[u8],
) -> Result<Item, BareFault>
    requires { at + length text.now < 2 ^ 64 }
    ensures value { Gives (λ i. i) result (specs.item_of stage at text.now) }
    ensures fault { IfErr result (IsBareFault (at + length text.now)) }
    ensures within { IfOk result (λ i. (0 < i.len) × (i.len ≤ length text.now)) }
{
    match text.split_first() {
        Some((byte, _)) if is_space(*byte) => Ok(nothing(1, stage)),
        Some((b'\n' | b';', _)) => Ok(nothing(1, ReadStage::Opening)),
        Some((b'#', rest)) => Ok(nothing(comment_len(rest) + 1, stage)),
        _ => read_shell_word(alloc, stage, at, text),
    }
}
