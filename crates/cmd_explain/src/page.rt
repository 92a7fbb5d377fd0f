//! Words as lines.

ghost use Rattle.std.specs.Prelude.{true, []};
ghost use Rattle.cmd_call.specs.Lines.{SaysLines};

use crate::explain_words;
use bstr::ByteSlice;
use cmd_call::Hears;
use deftable::Bytes;
use lint_table::{Key, Page, Words};
use std::alloc::{AllocError, Global};

/// Writes each line of a text as `acrun: LINE`.
fn put_lines<E: Hears>(alloc: Global, text: &[u8], errors: &mut E)
    ensures paged { SaysLines E.contents E.has_failed errors.old errors.new true [] }
{
    'lines: for line in text.lines_with_terminator() {
        let words = line.strip_suffix(b"\n").unwrap_or(line);
        explain_words(alloc, true, words, errors);
    }
}

/// Writes what is wrong, and what to do, as lines. If memory ran out, writes nothing.
#[tactic(auto, using(cmd_call::proofs::Pages::says_nothing))]
pub(crate) fn put_words<E: Hears>(alloc: Global, made: Result<Words, AllocError>, errors: &mut E)
    ensures paged { SaysLines E.contents E.has_failed errors.old errors.new true [] }
{
    if let Ok(words) = made {
        explain_words(alloc, true, words.message.as_slice(), errors);
        put_lines(alloc, words.help.as_slice(), errors);
    }
}

/// Writes the words of a key that has no places, as lines. If memory runs out, writes nothing.
pub(crate) fn put_key<E: Hears>(alloc: Global, key: Key, errors: &mut E)
    ensures paged { SaysLines E.contents E.has_failed errors.old errors.new true [] }
{
    let mut page = Page::new(alloc);
    page.put(key, &[]);
    put_words(alloc, page.words(), errors);
}

/// Returns the texts as slices.
pub(crate) fn slices(alloc: Global, texts: &[Bytes]) -> Result<Vec<&[u8]>, AllocError> {
    let mut out = Vec::new(alloc);
    for text in texts {
        out.push(text.as_slice())?;
    }
    Ok(out)
}

/// Returns the text of this number, which is 1 for the first, or an empty text.
pub(crate) fn numbered(texts: &[Bytes], number: u64) -> &[u8] {
    match texts.get((number as usize).saturating_sub(1)) {
        Some(text) => text.as_slice(),
        None => b"",
    }
}
