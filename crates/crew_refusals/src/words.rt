//! The words of an error.

ghost use Rattle.std.specs.Prelude.{◌≡◌, ◌++◌, codes, IfOk, OnOk};
ghost use Rattle.crew_refusals.specs.Shown as specs;
ghost use Rattle.crew_refusals.specs.Shown.{IsCauseOf, IsShown};

use crate::showing::put_shown;
use deftable::Bytes;
use std::alloc::{AllocError, Global};
use std::io;

/// Returns the words of an error of the system without what std adds to them, its number.
fn without_number(words: &str) -> &str {
    match words.split_once(" (os error ") {
        Some((words, _)) => words,
        None => words,
    }
}

/// Returns the line of a name and some words.
#[tactic(auto, unfolding(crate::specs::Shown::line_of))]
fn joined(alloc: Global, name: &[u8], words: &[u8]) -> Result<Bytes, AllocError>
    ensures { IfOk result (λ line. line ≡ specs.line_of name.now words.now) }
{
    let mut line = Vec::new(alloc);
    put_shown(&mut line, name)?;
    line.extend_from_slice(b": ")?;
    put_shown(&mut line, words)?;
    Ok(Bytes::from_vec(line))
}

/// Returns the line `NAME: WORDS`, with both as they are shown.
///
/// # Errors
///
/// Fails only if memory runs out.
pub fn line_of(alloc: Global, name: &[u8], words: &[u8]) -> Result<Bytes, AllocError>
    ensures line { IfOk result (λ line. line ≡ specs.line_of name.now words.now) }
    ensures shown { IfOk result IsShown }
{
    let line = joined(alloc, name, words)?;
    Ok(line)
}

/// Returns why the system refused something of this name: `NAME: No such file or directory`, with
/// the words that `strerror` gives.
///
/// # Errors
///
/// Fails only if memory runs out.
pub fn words_of(alloc: Global, name: &[u8], error: &io::Error) -> Result<Bytes, AllocError>
    ensures named { IfOk result (IsCauseOf name.now) }
    ensures shown { IfOk result IsShown }
{
    let words = format!(in alloc; "{error}")?;
    line_of(alloc, name, without_number(words.as_str()).as_bytes())
}
