//! An assignment to a variable of its own value, or of a word if that is empty.

ghost use Rattle.std.specs.Prelude.{◌≡◌, ◌++◌, ◌∷◌, [], ◌≤◌, true, length, slice_range, codes, IfOk, IfSome, IsTrue, OnOk};
ghost use Rattle.std.specs.List.{list_all};
ghost use Rattle.port_parts.specs.Parts.{IsPlainLine};
ghost use Rattle.port_parts.specs.Places.{BeginsStatement, EndsStatement};
ghost use Rattle.port_parts.specs.Words.{is_value, IsConstant, IsVariable};
ghost use Rattle.port_compounds.specs.Defaults as specs;

use crate::guards::is_own;
use lint_text::part;
use port_parts::{
    DefaultOf, GuardCut, are_values, is_constant, is_plain_line, is_variable, name_length,
};
use std::alloc::{AllocError, Global};

/// Appends the value of a variable, or a word if that is empty.
fn put_value(out: &mut Vec<u8>, name: &[u8], word: &[u8]) -> Result<(), AllocError>
    ensures { OnOk result (out.new.items ≡ out.old.items ++ specs.value_or name.now word.now) }
{
    out.extend_from_slice(b"${")?;
    out.extend_from_slice(name)?;
    out.extend_from_slice(b":-")?;
    out.extend_from_slice(word)?;
    out.extend_from_slice(b"}")
}

/// Returns the assignment, whose value is in no quotes.
#[tactic(auto, unfolding(crate::specs::Defaults::bare))]
fn bare(alloc: Global, name: &[u8], word: &[u8]) -> Result<Vec<u8>, AllocError>
    ensures { IfOk result (λ v. v.items ≡ specs.bare name.now word.now) }
{
    let mut out = Vec::from_slice(alloc, name)?;
    out.extend_from_slice(b"=")?;
    put_value(&mut out, name, word)?;
    Ok(out)
}

/// Returns the assignment, whose value is in double quotes.
#[tactic(auto, unfolding(crate::specs::Defaults::quoted))]
fn quoted(alloc: Global, name: &[u8], word: &[u8]) -> Result<Vec<u8>, AllocError>
    ensures { IfOk result (λ v. v.items ≡ specs.quoted name.now word.now) }
{
    let mut out = Vec::from_slice(alloc, name)?;
    out.extend_from_slice(b"=")?;
    out.push(b'"')?;
    put_value(&mut out, name, word)?;
    out.push(b'"')?;
    Ok(out)
}

/// Returns whether a text is the assignment, whose value is in no quotes.
fn is_bare(alloc: Global, text: &[u8], name: &[u8], word: &[u8]) -> Result<bool, AllocError>
    ensures { IfOk result (λ b. IsTrue b → specs.IsDefault text.now name.now word.now) }
{
    let wanted = bare(alloc, name, word)?;
    Ok(text == wanted.as_slice())
}

/// Returns whether a text is the assignment, whose value is in double quotes.
fn is_quoted(alloc: Global, text: &[u8], name: &[u8], word: &[u8]) -> Result<bool, AllocError>
    ensures { IfOk result (λ b. IsTrue b → specs.IsDefault text.now name.now word.now) }
{
    if !are_values(word) {
        return Ok(false);
    }
    let wanted = quoted(alloc, name, word)?;
    Ok(text == wanted.as_slice())
}

/// Returns whether a text is the assignment.
fn is_default(alloc: Global, text: &[u8], name: &[u8], word: &[u8]) -> Result<bool, AllocError>
    ensures { IfOk result (λ b. IsTrue b → specs.IsDefault text.now name.now word.now) }
{
    if text.last() == Some(&b'"') {
        is_quoted(alloc, text, name, word)
    } else {
        is_bare(alloc, text, name, word)
    }
}

/// Returns whether a text is the assignment of a constant to a variable, and m4 finds nothing in it.
fn is_found(alloc: Global, text: &[u8], name: &[u8], word: &[u8]) -> Result<bool, AllocError>
    ensures { IfOk result (λ b.
        IsTrue b
        → (specs.IsDefault text.now name.now word.now × IsPlainLine text.now)
        × (IsVariable name.now × IsConstant word.now)) }
{
    if !is_variable(name) || !is_constant(word) || !is_plain_line(alloc, text)? {
        return Ok(false);
    }
    is_default(alloc, text, name, word)
}

/// Returns the name and the word of a statement, without a look at what is around them.
fn split(text: &[u8]) -> DefaultOf<'_> {
    let length = name_length(text);
    let is_quoted = text.last() == Some(&b'"');
    let from = length.saturating_mul(2).saturating_add(5);
    let from = from.saturating_add(usize::from(is_quoted));
    let to = text
        .len()
        .saturating_sub(1)
        .saturating_sub(usize::from(is_quoted));
    DefaultOf {
        name: part(text, 0, length),
        word: part(text, from, to),
    }
}

/// Returns the name and the word of a statement between two offsets, if it is such an assignment.
fn found_between(
    alloc: Global,
    text: &[u8],
    start: usize,
    end: usize,
) -> Result<Option<DefaultOf<'_>>, AllocError>
    requires begins { BeginsStatement text.now start }
    requires ends { EndsStatement text.now end }
    ensures { IfOk result (λ o.
        IfSome o (λ d. specs.IsDefaulting text.now start end d.name.now d.word.now)) }
{
    if end < start || text.len() < end {
        return Ok(None);
    }
    let statement = &text[start..end];
    let found = split(statement);
    if is_found(alloc, statement, found.name, found.word)? {
        Ok(Some(found))
    } else {
        Ok(None)
    }
}

/// Returns the name and the word of an assignment of a variable's value or of a word, if one is
/// between the offsets as a statement of its own.
///
/// # Errors
///
/// Fails only if memory runs out.
pub fn default_of(
    alloc: Global,
    text: &[u8],
    cut: GuardCut,
) -> Result<Option<DefaultOf<'_>>, AllocError>
    ensures { IfOk result (λ o.
        IfSome o (λ d. specs.IsDefaulting text.now cut.start cut.end d.name.now d.word.now)) }
{
    if !is_own(text, cut.start, cut.end) {
        return Ok(None);
    }
    found_between(alloc, text, cut.start, cut.end)
}

/// Returns the condition that a variable is empty.
///
/// # Errors
///
/// Fails only if memory runs out.
#[tactic(auto, unfolding(crate::specs::Defaults::empty_test))]
pub fn empty_test(alloc: Global, name: &[u8]) -> Result<Vec<u8>, AllocError>
    ensures { IfOk result (λ v. v.items ≡ specs.empty_test name.now) }
{
    let mut out = Vec::from_slice(alloc, b"test -z \"$")?;
    out.extend_from_slice(name)?;
    out.push(b'"')?;
    Ok(out)
}

/// Returns the assignment of a word to a variable.
///
/// # Errors
///
/// Fails only if memory runs out.
#[tactic(auto, unfolding(crate::specs::Defaults::assignment))]
pub fn assignment_of(alloc: Global, name: &[u8], word: &[u8]) -> Result<Vec<u8>, AllocError>
    ensures { IfOk result (λ v. v.items ≡ specs.assignment name.now word.now) }
{
    let mut out = Vec::from_slice(alloc, name)?;
    out.extend_from_slice(b"=")?;
    out.extend_from_slice(word)?;
    Ok(out)
}
