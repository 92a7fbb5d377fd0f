//! The help text of a source.

ghost use Rattle.std.specs.Prelude.{◌≡◌, ◌++◌, ◌<◌, length, IfOk, OnOk};
ghost use Rattle.std.specs.List.{flat_map};
ghost use Rattle.options.specs.HelpText as words;

use ac_tree::{Help, HelpList};
use deftable::Bytes;
use std::alloc::{AllocError, Global};
use text_cut::is_blank;

/// The length in bytes of the longest left text that shares its line with the right text.
const WIDEST_LEFT: usize = 23;

/// The length in bytes that a left text is padded to.
const LEFT_COLUMN: usize = 24;

fn put_spaces(text: &mut Vec<u8>, n: usize) -> Result<(), AllocError>
    ensures { OnOk result (text.new.items ≡ text.old.items ++ words.spaces n) }
{
    for _ in 0..n {
        text.push(b' ')?;
    }
    Ok(())
}

/// Appends the gap between a left text of `n` bytes and the right text.
#[tactic(auto, unfolding(crate::specs::HelpText::gap))]
fn put_gap(text: &mut Vec<u8>, n: usize) -> Result<(), AllocError>
    ensures { OnOk result (text.new.items ≡ text.old.items ++ words.gap n) }
{
    if n > WIDEST_LEFT {
        text.push(b'\n')?;
        return put_spaces(text, 26);
    }
    put_spaces(text, LEFT_COLUMN - n)
}

/// Appends a byte of a text in which each run of blanks becomes one space. `blank` is true if the
/// byte before it is a blank.
fn put_byte(text: &mut Vec<u8>, blank: bool, byte: u8) -> Result<(), AllocError>
    ensures { OnOk result (text.new.items ≡ text.old.items ++ words.squeezed_byte blank byte) }
{
    if !is_blank(byte) {
        text.push(byte)?;
    } else if !blank {
        text.push(b' ')?;
    }
    Ok(())
}

/// Appends a text in which each run of blanks becomes one space.
fn put_squeezed(text: &mut Vec<u8>, right: &[u8]) -> Result<(), AllocError>
    ensures { OnOk result (text.new.items ≡ text.old.items ++ words.squeezed right.now) }
{
    let mut blank = false;
    for byte in right {
        put_byte(text, blank, *byte)?;
        blank = is_blank(*byte);
    }
    Ok(())
}

#[tactic(auto, unfolding(crate::specs::HelpText::entry_lines))]
fn put_entry(text: &mut Vec<u8>, left: &[u8], right: &[u8]) -> Result<(), AllocError>
    ensures { OnOk result (
        text.new.items ≡ text.old.items ++ words.entry_lines left.now right.now) }
{
    text.extend_from_slice(b"  ")?;
    text.extend_from_slice(left)?;
    put_gap(text, left.len())?;
    put_squeezed(text, right)?;
    text.extend_from_slice(b"\n")?;
    Ok(())
}

fn put_plain(text: &mut Vec<u8>, plain: &[u8]) -> Result<(), AllocError>
    ensures { OnOk result (text.new.items ≡ text.old.items ++ words.plain_lines plain.now) }
{
    if plain.is_empty() {
        return Ok(());
    }
    text.extend_from_slice(plain)?;
    text.extend_from_slice(b"\n")?;
    Ok(())
}

fn put_help(text: &mut Vec<u8>, help: &Help) -> Result<(), AllocError>
    ensures { OnOk result (text.new.items ≡ text.old.items ++ words.help_lines help.now) }
{
    match help {
        Help::Columns { left, right } => put_entry(text, left.as_slice(), right.as_slice()),
        Help::Text { text: plain } => put_plain(text, plain.as_slice()),
    }
}

fn put_all(text: &mut Vec<u8>, entries: &[Help]) -> Result<(), AllocError>
    ensures { OnOk result (
        text.new.items ≡ text.old.items ++ flat_map words.help_lines entries.now) }
{
    for help in entries {
        put_help(text, help)?;
    }
    Ok(())
}

/// Returns the help text: the usage, and then the options and variables of the source, in its order
/// (the layout is own).
///
/// The right text begins at column 27, on the next line if the left text is longer than 23 bytes.
/// Lines are not wrapped.
///
/// # Errors
///
/// Fails only if memory runs out.
#[tactic(auto, unfolding(crate::specs::HelpText::help_text))]
pub fn help_text_of(alloc: Global, entries: &HelpList) -> Result<Bytes, AllocError>
    ensures { IfOk result (λ text. text ≡ words.help_text entries.now) }
{
    let mut text = Vec::from_slice(alloc, b"Usage: configure [OPTION]... [VAR=VALUE]...\n")?;
    put_all(&mut text, entries.as_slice())?;
    Ok(Bytes::from_vec(text))
}
