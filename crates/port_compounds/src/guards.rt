//! The parts of a statement that a condition guards.

ghost use Rattle.std.specs.Prelude.{◌≡◌, [], map, length, codes, IfOk, IfSome, IsTrue};
ghost use Rattle.std.specs.List.{list_any};
ghost use Rattle.m4quote.specs.ItemValue.{view, views};
ghost use Rattle.port_parts.specs.Places.{BeginsStatement, EndsStatement};
ghost use Rattle.port_compounds.specs.Guards as specs;

use ac_macros::table::row_named;
use ac_macros::{ActMacro, Macro, Named, PlainMacro};
use m4quote::{Item, QuoteFault, read_items};
use port_parts::{
    GuardCut, after_blanks, are_blank, are_spaces, before_spaces, begins_statement, ends_statement,
    is_after_backslash, is_plain_line, is_word,
};
use std::alloc::{AllocError, Global};

/// Returns whether the byte ends a command, or joins it to the next.
fn is_separator(byte: u8) -> bool
    ensures { result ≡ specs.is_separator byte }
{
    byte == b';' || byte == b'&' || byte == b'|'
}

/// Returns whether the text has a byte that ends a command.
fn has_separator(text: &[u8]) -> bool
    ensures { result ≡ list_any specs.is_separator text.now }
{
    text.iter().any(|byte| is_separator(*byte))
}

/// Returns whether a macro defines something or prints a message.
fn is_brief(m: ActMacro) -> bool
    ensures { result ≡ specs.is_brief m }
{
    match m {
        ActMacro::Define | ActMacro::DefineUnquoted | ActMacro::MsgError | ActMacro::Message(_) =>
            true,
        ActMacro::Prereq | ActMacro::Ignored | ActMacro::Lang => false,
    }
}

/// Returns whether a call of a macro is one command of a shell.
fn is_one(m: Named) -> bool
    ensures { result ≡ specs.is_one m }
{
    match m {
        Named::Statement(Macro::Plain(PlainMacro::Acts(m))) => is_brief(m),
        _ => false,
    }
}

/// Returns whether the name is that of such a macro.
fn names_one(name: &[u8]) -> bool
    ensures { IsTrue result → specs.NamesOne name.now }
{
    match row_named(name) {
        Some(row) => is_one(row.named),
        None => false,
    }
}

/// Returns whether the item is a call of such a macro, at the start of its text.
fn is_command(item: &Item<'_>) -> bool
    ensures { IsTrue result → specs.IsCommandItem (view item.now) }
{
    match item {
        Item::Bare { .. } => false,
        Item::Call { name, at, .. } => *at == 0 && names_one(name),
    }
}

/// Returns whether the only item is a call of such a macro.
fn are_command(items: &[Item<'_>]) -> bool
    ensures { IsTrue result → specs.AreOneCommand (views items.now) }
{
    items.len() == 1 && is_command(&items[0])
}

/// Returns whether a text is one call of such a macro.
fn is_call(alloc: Global, text: &[u8]) -> Result<bool, AllocError>
    ensures { IfOk result (λ b. IsTrue b → specs.IsOneCommand text.now) }
{
    match read_items(alloc, text) {
        Ok(items) => Ok(are_command(items.as_slice())),
        Err(QuoteFault::OutOfMemory) => Err(AllocError),
        Err(_) => Ok(false),
    }
}

/// Returns whether a text is the words of one command, on one line.
fn is_words(alloc: Global, text: &[u8]) -> Result<bool, AllocError>
    ensures { IfOk result (λ b. IsTrue b → specs.IsOneCommand text.now) }
{
    if has_separator(text) {
        return Ok(false);
    }
    is_plain_line(alloc, text)
}

/// Returns whether a text is one command.
fn is_one_command(alloc: Global, text: &[u8]) -> Result<bool, AllocError>
    ensures { IfOk result (λ b. IsTrue b → specs.IsOneCommand text.now) }
{
    if is_words(alloc, text)? {
        return Ok(true);
    }
    is_call(alloc, text)
}

/// Returns whether spaces alone are between two offsets that are after another one, and no
/// backslash is before them.
fn is_before_joint(text: &[u8], start: usize, to: usize, end: usize) -> bool
    ensures { IsTrue result → specs.IsPlaceBefore text.now start to end }
{
    start <= to
        && to <= end
        && end <= text.len()
        && !is_after_backslash(text, to)
        && are_spaces(&text[to..end])
}

/// Returns the condition between two offsets, if there is one.
fn condition_before<'a>(
    alloc: Global,
    text: &'a [u8],
    start: usize,
    end: usize,
) -> Result<Option<&'a [u8]>, AllocError>
    ensures { IfOk result (λ o. IfSome o (λ c. specs.IsConditionBefore text.now start end c.now)) }
{
    let to = before_spaces(text, start, end);
    if !is_before_joint(text, start, to, end) {
        return Ok(None);
    }
    let found = &text[start..to];
    if is_plain_line(alloc, found)? {
        Ok(Some(found))
    } else {
        Ok(None)
    }
}

/// Returns whether blanks alone are between two offsets that are before another one.
fn is_after_joint(text: &[u8], start: usize, from: usize, end: usize) -> bool
    ensures { IsTrue result → specs.IsPlaceAfter text.now start from end }
{
    start <= from && from <= end && end <= text.len() && are_blank(&text[start..from])
}

/// Returns the statement between two offsets, if there is one.
fn statement_after<'a>(
    alloc: Global,
    text: &'a [u8],
    start: usize,
    end: usize,
) -> Result<Option<&'a [u8]>, AllocError>
    ensures { IfOk result (λ o. IfSome o (λ s. specs.IsStatementAfter text.now start end s.now)) }
{
    let from = after_blanks(text, start);
    if !is_after_joint(text, start, from, end) {
        return Ok(None);
    }
    let found = &text[from..end];
    if is_one_command(alloc, found)? {
        Ok(Some(found))
    } else {
        Ok(None)
    }
}

/// Returns the condition and the statement that this joint is between, if there are both.
fn joined<'a>(
    alloc: Global,
    text: &'a [u8],
    cut: GuardCut,
    joint: &[u8],
) -> Result<Option<(&'a [u8], &'a [u8])>, AllocError>
    ensures { IfOk result (λ o.
        IfSome o (λ p. specs.IsJoined text.now cut.start joint.now cut.end p.0.now p.1.now)) }
{
    let after = cut.at_joint.saturating_add(2);
    if !is_word(text, cut.at_joint, joint, after) {
        return Ok(None);
    }
    let Some(test) = condition_before(alloc, text, cut.start, cut.at_joint)? else {
        return Ok(None);
    };
    let Some(done) = statement_after(alloc, text, after, cut.end)? else {
        return Ok(None);
    };
    Ok(Some((test, done)))
}

/// Returns the parts of a statement after `&&`.
#[tactic(auto, using(crate::proofs::Steps::and_with))]
fn and_parts<'a>(
    alloc: Global,
    text: &[u8],
    cut: GuardCut,
    test: &'a [u8],
    done: &'a [u8],
) -> Result<Vec<&'a [u8]>, AllocError>
    requires { specs.IsJoined text.now cut.start (codes "&&") cut.end test.now done.now }
    ensures { IfOk result (λ v.
        specs.AreGuardParts text.now cut.start cut.end (map (λ p. p.now) v.items)) }
{
    let _ = text;
    let _ = cut;
    let parts = Vec::from_slice(alloc, &[test, done])?;
    Ok(parts)
}

/// Returns the parts of a statement after `||`, with nothing between them.
#[tactic(auto, using(crate::proofs::Steps::or_with))]
fn or_parts<'a>(
    alloc: Global,
    text: &[u8],
    cut: GuardCut,
    test: &'a [u8],
    nothing: &'a [u8],
    done: &'a [u8],
) -> Result<Vec<&'a [u8]>, AllocError>
    requires nothing { nothing.now ≡ [] }
    requires joined { specs.IsJoined text.now cut.start (codes "||") cut.end test.now done.now }
    ensures { IfOk result (λ v.
        specs.AreGuardParts text.now cut.start cut.end (map (λ p. p.now) v.items)) }
{
    let _ = text;
    let _ = cut;
    let parts = Vec::from_slice(alloc, &[test, nothing, done])?;
    Ok(parts)
}

/// Returns the parts of a statement after `&&` or `||`, if it has them.
fn parts_of<'a>(
    alloc: Global,
    text: &'a [u8],
    cut: GuardCut,
) -> Result<Option<Vec<&'a [u8]>>, AllocError>
    ensures { IfOk result (λ o.
        IfSome o (λ v.
        specs.AreGuardParts text.now cut.start cut.end (map (λ p. p.now) v.items))) }
{
    if let Some((test, done)) = joined(alloc, text, cut, b"&&")? {
        return Ok(Some(and_parts(alloc, text, cut, test, done)?));
    }
    match joined(alloc, text, cut, b"||")? {
        Some((test, done)) => Ok(Some(or_parts(alloc, text, cut, test, &text[..0], done)?)),
        None => Ok(None),
    }
}

/// Returns whether a statement of its own may be between two offsets.
pub(crate) fn is_own(text: &[u8], start: usize, end: usize) -> bool
    ensures { IsTrue result → BeginsStatement text.now start × EndsStatement text.now end }
{
    begins_statement(text, start) && ends_statement(text, end)
}

/// Returns the parts of a statement that a condition guards, as AS_IF takes them: the condition and
/// the statement after `&&`, or the condition, nothing, and the statement after `||`. The statement
/// is one command: words such as assignments, a definition or a message. If the offsets are not
/// those of such a list that is a statement of its own, returns `None`.
///
/// # Errors
///
/// Fails only if memory runs out.
pub fn guard_parts<'a>(
    alloc: Global,
    text: &'a [u8],
    cut: GuardCut,
) -> Result<Option<Vec<&'a [u8]>>, AllocError>
    ensures { IfOk result (λ o.
        IfSome o (λ v. specs.IsGuarded text.now cut.start cut.end (map (λ p. p.now) v.items))) }
{
    if !is_own(text, cut.start, cut.end) {
        return Ok(None);
    }
    match parts_of(alloc, text, cut)? {
        Some(parts) => Ok(Some(parts)),
        None => Ok(None),
    }
}
