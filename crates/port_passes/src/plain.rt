//! Writes out a macro that the source defines as a plain word.

ghost use Rattle.std.specs.Prelude.{OnOk};
ghost use Rattle.port_definitions.specs.Defined as specs;
ghost use Rattle.port_passes.specs.Rewritten as rewritten;

use lint_text::part;
use port_definitions::{PlainWord, WordSpot, is_plain_use, is_used, is_word_definition};
use port_edits::{Pass, write_change};
use port_idioms::Idioms;
use std::alloc::{AllocError, Global};

/// Writes a word in the place of a name at an offset, unless that is not after what was read, or
/// another text is there.
fn put_word(
    idioms: Idioms,
    text: &[u8],
    spot: WordSpot,
    name: &[u8],
    word: &[u8],
    at: usize,
    pass: &mut Pass,
) -> Result<(), AllocError>
    requires defines { specs.DefinesWord text.now spot.start spot.end name.now word.now }
    requires begun { rewritten.IsPass idioms text.now pass.old.at pass.old.out.items }
    ensures { OnOk result (rewritten.IsPass idioms text.now pass.new.at pass.new.out.items) }
{
    let _ = idioms;
    if at < pass.at || at < spot.end || text.len() < at || !is_plain_use(text, at, name) {
        return Ok(());
    }
    write_change(text, at, at + name.len(), word, pass)
}

/// Writes a word in the place of a name.
fn put_words(
    idioms: Idioms,
    text: &[u8],
    spot: WordSpot,
    name: &[u8],
    word: &[u8],
    uses: &[usize],
    pass: &mut Pass,
) -> Result<(), AllocError>
    requires defines { specs.DefinesWord text.now spot.start spot.end name.now word.now }
    requires begun { rewritten.IsPass idioms text.now pass.old.at pass.old.out.items }
    ensures { OnOk result (rewritten.IsPass idioms text.now pass.new.at pass.new.out.items) }
{
    for i in 0..uses.len() {
        put_word(idioms, text, spot, name, word, uses[i], pass)?;
    }
    Ok(())
}

/// Leaves out a definition whose name is nowhere after it, unless it is not after what was read.
fn drop_word(
    idioms: Idioms,
    text: &[u8],
    spot: WordSpot,
    name: &[u8],
    word: &[u8],
    pass: &mut Pass,
) -> Result<(), AllocError>
    requires defines { specs.DefinesWord text.now spot.start spot.end name.now word.now }
    requires begun { rewritten.IsPass idioms text.now pass.old.at pass.old.out.items }
    ensures { OnOk result (rewritten.IsPass idioms text.now pass.new.at pass.new.out.items) }
{
    let _ = idioms;
    let _ = word;
    if spot.start < pass.at
        || spot.end < spot.start
        || text.len() < spot.end
        || is_used(text, spot.end, name)
    {
        return Ok(());
    }
    write_change(text, spot.start, spot.end, b"", pass)
}

/// Writes a word in the place of a name, or leaves out the definition if the name is nowhere after
/// it.
fn write_out(
    idioms: Idioms,
    text: &[u8],
    spot: WordSpot,
    name: &[u8],
    word: &[u8],
    uses: &[usize],
    pass: &mut Pass,
) -> Result<(), AllocError>
    requires defines { specs.DefinesWord text.now spot.start spot.end name.now word.now }
    requires begun { rewritten.IsPass idioms text.now pass.old.at pass.old.out.items }
    ensures { OnOk result (rewritten.IsPass idioms text.now pass.new.at pass.new.out.items) }
{
    if uses.is_empty() {
        drop_word(idioms, text, spot, name, word, pass)
    } else {
        put_words(idioms, text, spot, name, word, uses, pass)
    }
}

/// Writes out a macro that the source defines as a plain word: first its name wherever it is, and
/// in another pass its definition.
pub fn pass_plain(
    alloc: Global,
    idioms: Idioms,
    text: &[u8],
    found: &Option<PlainWord>,
    pass: &mut Pass,
) -> Result<(), AllocError>
    requires begun { rewritten.IsPass idioms text.now pass.old.at pass.old.out.items }
    ensures { OnOk result (rewritten.IsPass idioms text.now pass.new.at pass.new.out.items) }
{
    let Some(plain) = found else {
        return Ok(());
    };
    let spot = plain.spot;
    let name = part(text, spot.name_start, spot.name_end);
    let word = part(text, spot.word_start, spot.word_end);
    if !is_word_definition(alloc, text, spot, name, word)? {
        return Ok(());
    }
    write_out(idioms, text, spot, name, word, plain.uses.as_slice(), pass)
}
