//! Files that were made, and in which something is left to do.

ghost use Rattle.std.specs.Prelude.{◌≡◌, true, false, []};
ghost use Rattle.cmd_call.specs.Lines.{SaysLines};

use crate::lines::put_words;
use cmd_call::Hears;
use lint_findings::Finding;
use lint_table::{Page, WordPart, keys};
use lint_templates::left_in_made;
use lint_text::position_of;
use output_put::{Artifact, Kind};
use std::alloc::{AllocError, Global};

/// Appends a number.
fn put_number(out: &mut Vec<u8>, number: usize) -> Result<(), AllocError> {
    let mut buffer = itoa::Buffer::new();
    out.extend_from_slice(buffer.format(number).as_bytes())
}

/// Appends how many more there are, unless there is one alone.
fn put_rest(alloc: Global, out: &mut Vec<u8>, count: usize) -> Result<(), AllocError> {
    if count < 2 {
        return Ok(());
    }
    let mut number = Vec::new(alloc);
    put_number(&mut number, count - 1)?;
    let mut page = Page::new(alloc);
    page.put(keys::AND_MORE_NAMES, &[WordPart::AsItIs(number.as_slice())]);
    let words = page.message()?;
    out.extend_from_slice(words.as_slice())
}

/// Returns what is said of a file: its name, the line, what is left to do, and how many more of these
/// there are.
fn said(
    alloc: Global,
    artifact: &Artifact,
    first: &Finding,
    count: usize,
) -> Result<Vec<u8>, AllocError> {
    let mut out = Vec::from_slice(alloc, artifact.name.as_slice())?;
    out.push(b':')?;
    put_number(
        &mut out,
        position_of(artifact.text.as_slice(), first.start).line,
    )?;
    out.extend_from_slice(b": ")?;
    out.extend_from_slice(first.message.as_slice())?;
    put_rest(alloc, &mut out, count)?;
    Ok(out)
}

/// Returns what is said of a file in which something is left to do, and otherwise nothing.
fn words_of(alloc: Global, artifact: &Artifact) -> Result<Option<Vec<u8>>, AllocError> {
    if artifact.kind != Kind::File {
        return Ok(None);
    }
    let left = left_in_made(alloc, artifact.text.as_slice())?;
    match left.first() {
        Some(first) => {
            let words = said(alloc, artifact, first, left.len())?;
            Ok(Some(words))
        }
        None => Ok(None),
    }
}

/// Says of a file what is left to do in it. If memory runs out, says nothing.
#[tactic(auto, using(cmd_call::proofs::Pages::says_nothing))]
fn put_made<E: Hears>(alloc: Global, artifact: &Artifact, errors: &mut E)
    ensures paged { SaysLines E.contents E.has_failed errors.old errors.new true [] }
{
    if let Ok(Some(words)) = words_of(alloc, artifact) {
        put_words(alloc, words.as_slice(), errors);
    }
}

/// Says of each file that was handed over, if it is asked, what is left to do in it: a name that
/// Autoconf sets and nothing set, a rule that runs `config.status`, or that Automake made the
/// template. The first place of a file is named (own).
#[tactic(auto, using(cmd_call::proofs::Pages::says_nothing, crate::proofs::Pages::asked_pages))]
pub fn explain_made<E: Hears>(alloc: Global, is_asked: bool, handed: &[Artifact], errors: &mut E)
    ensures silent { is_asked ≡ false → errors.new ≡ errors.old }
    ensures paged { SaysLines E.contents E.has_failed errors.old errors.new is_asked [] }
{
    if !is_asked {
        return;
    }
    'files: for artifact in handed {
        put_made(alloc, artifact, errors);
    }
}
