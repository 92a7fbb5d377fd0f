//! One line.

ghost use Rattle.std.specs.Prelude.{◌≡◌, true, false, []};
ghost use Rattle.cmd_call.specs.Lines.{SaysLines};

use cmd_call::Hears;
use std::alloc::{AllocError, Global};

/// Returns the line `acrun: WORDS`.
fn line_of(alloc: Global, words: &[u8]) -> Result<Vec<u8>, AllocError> {
    let mut line = Vec::from_slice(alloc, b"acrun: ")?;
    line.extend_from_slice(words)?;
    line.extend_from_slice(b"\n")?;
    Ok(line)
}

/// Writes a text as a page, as far as the stream takes it.
#[tactic(auto, using(crate::proofs::Pages::page_said))]
pub(crate) fn put_text<E: Hears>(text: &[u8], errors: &mut E)
    ensures paged { SaysLines E.contents E.has_failed errors.old errors.new true [] }
{
    let _ = errors.say(text);
}

/// Writes the line `acrun: WORDS`. If memory runs out, writes nothing.
#[tactic(auto, using(cmd_call::proofs::Pages::says_nothing))]
pub(crate) fn put_words<E: Hears>(alloc: Global, words: &[u8], errors: &mut E)
    ensures paged { SaysLines E.contents E.has_failed errors.old errors.new true [] }
{
    if let Ok(line) = line_of(alloc, words) {
        put_text(line.as_slice(), errors);
    }
}

/// Writes these words as a line, if it is asked and they aren't empty.
#[tactic(auto, using(cmd_call::proofs::Pages::says_nothing, crate::proofs::Pages::asked_pages))]
pub fn explain_words<E: Hears>(alloc: Global, is_asked: bool, words: &[u8], errors: &mut E)
    ensures silent { is_asked ≡ false → errors.new ≡ errors.old }
    ensures paged { SaysLines E.contents E.has_failed errors.old errors.new is_asked [] }
{
    if is_asked && !words.is_empty() {
        put_words(alloc, words, errors);
    }
}
