//! What is put in the place of a statement.

ghost use Rattle.std.specs.Prelude.{◌≡◌, ◌∷◌, [], false, map, codes, IfOk, IfSome};
ghost use Rattle.port_compounds.specs.Cases.{IsCase};
ghost use Rattle.port_compounds.specs.Defaults.{IsDefaulting, assignment, empty_test};
ghost use Rattle.port_compounds.specs.Guards.{ReadsStatus};
ghost use Rattle.port_compounds.specs.Loops.{IsWrittenOut};
ghost use Rattle.port_joints.specs.Joints.{AllBecome};
ghost use Rattle.port_put.specs.Calls.{IsPut};
ghost use Rattle.port_statements.specs.Statements.{start_of};
ghost use Rattle.port_shell.specs.Formed as specs;

use deftable::Bytes;
use port_compounds::{
    assignment_of, case_parts, default_of, empty_test, guard_parts, if_parts, loop_turns,
};
use port_edits::Edit;
use port_joints::{joined_texts, slices};
use port_parts::{CaseCut, DefaultOf, ForCut, GuardCut, IfCut};
use port_put::{accepted_call, is_accepted};
use port_statements::StatementCut;
use std::alloc::{AllocError, Global};

/// Returns the call of AS_IF with these arguments, unless acrun doesn't accept it.
fn if_call(alloc: Global, texts: &[Bytes]) -> Result<Option<Vec<u8>>, AllocError>
    ensures { IfOk result (λ o. IfSome o (λ v. IsPut (codes "AS_IF") texts.now v.items)) }
{
    let parts = slices(alloc, texts)?;
    accepted_call(alloc, b"AS_IF", parts.as_slice())
}

/// Returns the call for conditions and what they guard, which become these texts, unless acrun
/// doesn't accept it.
fn call_with_texts(
    alloc: Global,
    text: &[u8],
    start: usize,
    end: usize,
    parts: &[&[u8]],
    texts: &[Bytes],
) -> Result<Option<Vec<u8>>, AllocError>
    requires parts { specs.IsChoice text.now start end (map (λ p. p.now) parts.now) }
    requires texts { AllBecome (map (λ p. p.now) parts.now) texts.now }
    ensures { IfOk result (λ o. IfSome o (λ v. specs.MayPut text.now start end v.items)) }
{
    let _ = text;
    let _ = start;
    let _ = end;
    let _ = parts;
    match if_call(alloc, texts)? {
        Some(put) => Ok(Some(put)),
        None => Ok(None),
    }
}

/// Returns the call for conditions and what they guard, unless acrun doesn't accept it.
fn call_with_parts(
    alloc: Global,
    text: &[u8],
    start: usize,
    end: usize,
    parts: &[&[u8]],
) -> Result<Option<Vec<u8>>, AllocError>
    requires { specs.IsChoice text.now start end (map (λ p. p.now) parts.now) }
    ensures { IfOk result (λ o. IfSome o (λ v. specs.MayPut text.now start end v.items)) }
{
    match joined_texts(alloc, parts)? {
        Some(texts) => call_with_texts(alloc, text, start, end, parts, texts.as_slice()),
        None => Ok(None),
    }
}

/// Returns the call for an `if`, unless it is none, or acrun doesn't accept it.
fn call_for_if(alloc: Global, text: &[u8], cut: &IfCut) -> Result<Option<Vec<u8>>, AllocError>
    ensures { IfOk result (λ o.
        IfSome o (λ v. specs.MayPut text.now cut.now.start cut.now.end v.items)) }
{
    match if_parts(alloc, text, cut)? {
        Some(parts) => call_with_parts(alloc, text, cut.start, cut.end, parts.as_slice()),
        None => Ok(None),
    }
}

/// Returns the call for a statement that a condition guards, unless it is none, the status of a
/// command is read, or acrun doesn't accept it.
fn call_for_guard(
    alloc: Global,
    text: &[u8],
    cut: GuardCut,
    reads: bool,
) -> Result<Option<Vec<u8>>, AllocError>
    requires { reads ≡ false → ReadsStatus text.now → ⊥ }
    ensures { IfOk result (λ o. IfSome o (λ v. specs.MayPut text.now cut.start cut.end v.items)) }
{
    if reads {
        return Ok(None);
    }
    match guard_parts(alloc, text, cut)? {
        Some(parts) => call_with_parts(alloc, text, cut.start, cut.end, parts.as_slice()),
        None => Ok(None),
    }
}

/// Returns the call for a `case` with these parts, unless acrun doesn't accept it.
fn call_of_case(
    alloc: Global,
    text: &[u8],
    cut: &CaseCut,
    parts: &[&[u8]],
) -> Result<Option<Vec<u8>>, AllocError>
    requires { IsCase text.now cut.now.start cut.now.end (map (λ p. p.now) parts.now) }
    ensures { IfOk result (λ o.
        IfSome o (λ v. specs.MayPut text.now cut.now.start cut.now.end v.items)) }
{
    let _ = text;
    let _ = cut;
    match accepted_call(alloc, b"AS_CASE", parts)? {
        Some(put) => Ok(Some(put)),
        None => Ok(None),
    }
}

/// Returns the call for a `case`, unless it is none, or acrun doesn't accept it.
fn call_for_case(alloc: Global, text: &[u8], cut: &CaseCut) -> Result<Option<Vec<u8>>, AllocError>
    ensures { IfOk result (λ o.
        IfSome o (λ v. specs.MayPut text.now cut.now.start cut.now.end v.items)) }
{
    match case_parts(alloc, text, cut)? {
        Some(parts) => call_of_case(alloc, text, cut, parts.as_slice()),
        None => Ok(None),
    }
}

/// Returns the turns of a `for`, unless acrun doesn't accept them.
fn accepted_turns(
    alloc: Global,
    text: &[u8],
    cut: ForCut,
    put: Vec<u8>,
) -> Result<Option<Vec<u8>>, AllocError>
    requires { IsWrittenOut text.now cut.start cut.end put.items }
    ensures { IfOk result (λ o. IfSome o (λ v. specs.MayPut text.now cut.start cut.end v.items)) }
{
    let _ = text;
    let _ = cut;
    if is_accepted(alloc, put.as_slice())? {
        Ok(Some(put))
    } else {
        Ok(None)
    }
}

/// Returns the turns of a `for`, unless they can't be written out, or acrun doesn't accept them.
fn turns_for(alloc: Global, text: &[u8], cut: ForCut) -> Result<Option<Vec<u8>>, AllocError>
    ensures { IfOk result (λ o. IfSome o (λ v. specs.MayPut text.now cut.start cut.end v.items)) }
{
    match loop_turns(alloc, text, cut)? {
        Some(put) => accepted_turns(alloc, text, cut, put),
        None => Ok(None),
    }
}

/// Returns the call of AS_IF that assigns a word to a variable if that is empty, unless acrun doesn't
/// accept it.
fn default_call(alloc: Global, name: &[u8], word: &[u8]) -> Result<Option<Vec<u8>>, AllocError>
    ensures { IfOk result (λ o.
        IfSome o (λ v.
        IsPut (codes "AS_IF") (empty_test name.now ∷ assignment name.now word.now ∷ [])
        v.items)) }
{
    let test = empty_test(alloc, name)?;
    let set = assignment_of(alloc, name, word)?;
    accepted_call(alloc, b"AS_IF", &[test.as_slice(), set.as_slice()])
}

/// Returns the call for an assignment of a value or of a word, unless acrun doesn't accept it.
fn call_with_default(
    alloc: Global,
    text: &[u8],
    cut: GuardCut,
    found: DefaultOf<'_>,
) -> Result<Option<Vec<u8>>, AllocError>
    requires { IsDefaulting text.now cut.start cut.end found.name.now found.word.now }
    ensures { IfOk result (λ o. IfSome o (λ v. specs.MayPut text.now cut.start cut.end v.items)) }
{
    let _ = text;
    let _ = cut;
    match default_call(alloc, found.name, found.word)? {
        Some(put) => Ok(Some(put)),
        None => Ok(None),
    }
}

/// Returns the call for an assignment of a variable's value or of a word, unless it is none, or
/// acrun doesn't accept it.
fn call_for_default(
    alloc: Global,
    text: &[u8],
    cut: GuardCut,
) -> Result<Option<Vec<u8>>, AllocError>
    ensures { IfOk result (λ o. IfSome o (λ v. specs.MayPut text.now cut.start cut.end v.items)) }
{
    match default_of(alloc, text, cut)? {
        Some(found) => call_with_default(alloc, text, cut, found),
        None => Ok(None),
    }
}

// ---- any statement

/// Returns the change of what is between two offsets, if something may be put there.
fn change(text: &[u8], start: usize, end: usize, put: Option<Vec<u8>>) -> Option<Edit>
    requires { IfSome put (λ v. specs.MayPut text.now start end v.items) }
    ensures put { IfSome result (λ c. specs.MayPut text.now c.start c.end c.put.items) }
    ensures start { IfSome result (λ c. c.start ≡ start) }
{
    let _ = text;
    match put {
        Some(put) => Some(Edit { start, end, put }),
        None => None,
    }
}

/// Returns the change of a statement, unless it is none, or acrun doesn't accept what would take its
/// place. `reads` says whether the text may read the status of a command.
pub(crate) fn put_for(
    alloc: Global,
    text: &[u8],
    cut: &StatementCut,
    reads: bool,
) -> Result<Option<Edit>, AllocError>
    requires { reads ≡ false → ReadsStatus text.now → ⊥ }
    ensures put { IfOk result (λ o.
        IfSome o (λ c. specs.MayPut text.now c.start c.end c.put.items)) }
    ensures start { IfOk result (λ o. IfSome o (λ c. c.start ≡ start_of cut.now)) }
{
    match cut {
        StatementCut::If(cut) => {
            let put = call_for_if(alloc, text, cut)?;
            Ok(change(text, cut.start, cut.end, put))
        }
        StatementCut::Case(cut) => {
            let put = call_for_case(alloc, text, cut)?;
            Ok(change(text, cut.start, cut.end, put))
        }
        StatementCut::Guard(cut) => {
            let put = call_for_guard(alloc, text, *cut, reads)?;
            Ok(change(text, cut.start, cut.end, put))
        }
        StatementCut::Default(cut) => {
            let put = call_for_default(alloc, text, *cut)?;
            Ok(change(text, cut.start, cut.end, put))
        }
        StatementCut::For(cut) => {
            let put = turns_for(alloc, text, *cut)?;
            Ok(change(text, cut.start, cut.end, put))
        }
        StatementCut::Line(_) => Ok(None),
    }
}
