//! The comment above a statement that makes Autoconf check something before it.

ghost use Rattle.std.specs.Prelude.{◌≡◌, true, IfOk, IfSome};
ghost use Rattle.std.specs.List.{list_all};
ghost use Rattle.port_parts.specs.Places.{is_space_or_return};
ghost use Rattle.port_shell.specs.Formed as specs;

use lint_text::{line_start, part};
use port_idioms::Idioms;
use port_parts::are_spaces;
use port_statements::draws;
use std::alloc::{AllocError, Global};

/// What is above a statement.
const COMMENT: &[u8] =
    b"dnl acrun: in place of a statement: Autoconf makes the checks that its macros require in any case";

/// Returns the comment, with this indent after it.
#[tactic(auto, unfolding(crate::specs::Formed::noted))]
fn noted(alloc: Global, indent: &[u8]) -> Result<Vec<u8>, AllocError>
    ensures { IfOk result (λ v. v.items ≡ specs.noted indent.now) }
{
    let mut out = Vec::from_slice(alloc, COMMENT)?;
    out.push(b'\n')?;
    out.extend_from_slice(indent)?;
    Ok(out)
}

/// Returns the comment with these spaces after it.
#[tactic(auto, using(crate::proofs::Notes::commented))]
fn note_after(alloc: Global, indent: &[u8]) -> Result<Option<Vec<u8>>, AllocError>
    requires { list_all is_space_or_return indent.now ≡ true }
    ensures { IfOk result (λ o. IfSome o (λ v. specs.IsNote Idioms.All v.items)) }
{
    let note = noted(alloc, indent)?;
    Ok(Some(note))
}

/// Returns the comment with this indent after it, or `None` if it is more than spaces.
fn note_if_blank(alloc: Global, indent: &[u8]) -> Result<Option<Vec<u8>>, AllocError>
    ensures { IfOk result (λ o. IfSome o (λ v. specs.IsNote Idioms.All v.items)) }
{
    if are_spaces(indent) {
        note_after(alloc, indent)
    } else {
        Ok(None)
    }
}

/// Returns the comment with this indent after it, or `None` if that is more than spaces or the
/// comment isn't wanted.
#[tactic(auto, using(crate::proofs::Notes::for_all))]
fn note_with(alloc: Global, idioms: Idioms, indent: &[u8]) -> Result<Option<Vec<u8>>, AllocError>
    ensures { IfOk result (λ o. IfSome o (λ v. specs.IsNote idioms v.items)) }
{
    match idioms {
        Idioms::Exact => Ok(None),
        Idioms::All => note_if_blank(alloc, indent),
    }
}

/// Returns nothing, as a note.
fn no_note(alloc: Global, idioms: Idioms) -> Result<Option<Vec<u8>>, AllocError>
    ensures { IfOk result (λ o. IfSome o (λ v. specs.IsNote idioms v.items)) }
{
    let _ = idioms;
    Ok(Some(Vec::new(alloc)))
}

/// Returns what is written right before the call that is put in the place of a statement between
/// two offsets, or `None` if nothing may be put there: Autoconf makes checks before a call in the
/// statement, and a comment that says so isn't wanted, or can't be on a line of its own.
pub(crate) fn note_for(
    alloc: Global,
    idioms: Idioms,
    drawing: &[usize],
    text: &[u8],
    start: usize,
    end: usize,
) -> Result<Option<Vec<u8>>, AllocError>
    ensures { IfOk result (λ o. IfSome o (λ v. specs.IsNote idioms v.items)) }
{
    if draws(drawing, start, end) {
        note_with(alloc, idioms, part(text, line_start(text, start), start))
    } else {
        no_note(alloc, idioms)
    }
}
