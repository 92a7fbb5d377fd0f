//! The whole.

ghost use Rattle.std.specs.Prelude.{◌≡◌, ◌↔◌, [], length, true, false, IfOk, IfSome, IsTrue, None, MatchOption, option_map};
ghost use Rattle.lint_errors.specs.Errors.{IsAccepted};
ghost use Rattle.cmd_port.specs.Asked.{package_of};
ghost use Rattle.cmd_port.specs.Ported as specs;

use crate::comments::commented;
use crate::moving::{moved, titled};
use deftable::Bytes;
use lint_all::all_errors;
use lint_errors::{is_accepted, read};
use lint_findings::Finding;
use lint_sources::add_reasons;
use m4quote::{QuoteFault, read_items};
use port_calls::Package;
use port_idioms::Idioms;
use std::alloc::{AllocError, Global};

/// A source that was rewritten.
#[derive(Drop)]
pub struct Ported {
    /// The new text.
    pub text: Bytes,
    /// Whether something has to be done by hand: a line of comment is at each such place. A comment
    /// that says in what an idiom differs is none of these.
    pub has_comments: bool,
}

/// Returns the source without comments.
pub(crate) fn whole(text: Vec<u8>) -> Ported
    ensures { (result.text ≡ text.items) × (result.has_comments ≡ false) }
{
    Ported {
        text: Bytes::from_vec(text),
        has_comments: false,
    }
}

/// Returns the source with a comment at each of these errors.
pub(crate) fn with_errors(
    alloc: Global,
    text: &[u8],
    errors: &[Finding],
) -> Result<Ported, AllocError>
    ensures commented { IfOk result (λ p. specs.IsCommented text.now (length text.now) p.text) }
    ensures left { IfOk result (λ p. specs.HasLeft p.text) }
    ensures reported { IfOk result (λ p. p.has_comments ≡ true) }
{
    let text = commented(alloc, text, errors)?;
    Ok(Ported {
        text: Bytes::from_vec(text),
        has_comments: true,
    })
}

/// Returns the errors of a source.
fn errors_in(alloc: Global, text: &[u8]) -> Result<Vec<Finding>, AllocError>
    ensures { IfOk result (λ v. (v.items ≡ []) ↔ IsAccepted text.now) }
{
    let reading = read(alloc, text)?;
    all_errors(alloc, text, &reading)
}

/// Returns the source with a comment at each error.
#[tactic(auto, using(crate::proofs::Steps::commented_printed))]
fn printed(alloc: Global, text: Vec<u8>) -> Result<Ported, AllocError>
    ensures { IfOk result (λ p. specs.IsPrinted text.items p.has_comments p.text) }
{
    let mut errors = errors_in(alloc, text.as_slice())?;
    if errors.is_empty() {
        return Ok(whole(text));
    }
    add_reasons(alloc, text.as_slice(), errors.as_mut_slice())?;
    with_errors(alloc, text.as_slice(), errors.as_slice())
}

/// Returns the source as it is rewritten.
fn rewritten(
    alloc: Global,
    idioms: Idioms,
    naming: Option<Package<'_>>,
    text: &[u8],
) -> Result<Option<Ported>, AllocError>
    ensures { IfOk result (λ o.
        IfSome o (λ p.
        specs.IsPorted idioms (option_map package_of naming.entry) text.now p.has_comments p.text)) }
{
    let mid = moved(alloc, idioms, naming, text)?;
    let ported = printed(alloc, mid)?;
    Ok(Some(ported))
}

/// Returns whether the quotes of a source have no error.
fn are_quotes_right(alloc: Global, text: &[u8]) -> Result<bool, AllocError> {
    match read_items(alloc, text) {
        Err(QuoteFault::OutOfMemory) => Err(AllocError),
        Err(_) => Ok(false),
        Ok(_) => Ok(true),
    }
}

/// Returns a source that acrun accepts as it is.
fn unchanged(alloc: Global, text: &[u8]) -> Result<Option<Ported>, AllocError>
    ensures { IfOk result (λ o.
        MatchOption o ⊥ (λ p. (p.text ≡ text.now) × (p.has_comments ≡ false))) }
{
    let text = Vec::from_slice(alloc, text)?;
    let ported = whole(text);
    Ok(Some(ported))
}

/// Returns a source in which AC_INIT got the name and the version that are stated.
fn retitled(alloc: Global, text: Vec<u8>) -> Result<Option<Ported>, AllocError>
    ensures { IfOk result (λ o.
        MatchOption o ⊥ (λ p. specs.IsPrinted text.items p.has_comments p.text)) }
{
    let ported = printed(alloc, text)?;
    Ok(Some(ported))
}

/// Returns a source that acrun doesn't accept as it is rewritten, or `None` if its quotes have an
/// error.
fn port_refused(
    alloc: Global,
    idioms: Idioms,
    naming: Option<Package<'_>>,
    text: &[u8],
) -> Result<Option<Ported>, AllocError>
    ensures { IfOk result (λ o.
        IfSome o (λ p.
        specs.IsPorted idioms (option_map package_of naming.entry) text.now p.has_comments p.text)) }
{
    if are_quotes_right(alloc, text)? {
        return rewritten(alloc, idioms, naming, text);
    }
    Ok(None)
}

/// Returns a source that acrun accepts, with the name and the version that are stated in AC_INIT.
#[tactic(auto, using(crate::proofs::Steps::unchanged_kept, crate::proofs::Steps::retitled_kept))]
fn port_accepted(
    alloc: Global,
    naming: Option<Package<'_>>,
    text: &[u8],
) -> Result<Option<Ported>, AllocError>
    requires { IsAccepted text.now }
    ensures { IfOk result (λ o.
        MatchOption o ⊥ (λ p.
        specs.IsKeptAs (option_map package_of naming.entry) text.now p.has_comments p.text)) }
{
    match titled(alloc, naming, text)? {
        Some(mid) => retitled(alloc, mid),
        None => unchanged(alloc, text),
    }
}

/// Returns a source in which each call that has an idiom that is wanted is replaced by it, and each
/// statement of a shell by the call that means the same. An idiom that differs from its macro has a
/// comment above it that says in what. AC_INIT gets the name and the version that are stated, if it
/// has none that are kept. What is still an error has a comment above it too. Returns `None` if the
/// source's quotes have an error, because then no call is found.
pub fn port(
    alloc: Global,
    idioms: Idioms,
    naming: Option<Package<'_>>,
    text: &[u8],
) -> Result<Option<Ported>, AllocError>
    // Calls that have to go may be replaced, an `if` by AS_IF with its parts, and a `case` by
    // AS_CASE. One call of AC_INIT may get the name and the version. All else is copied. There are
    // comments about what is left exactly if what is left is not accepted; they are lines before
    // lines of the text.
    ensures ported { IfOk result (λ o.
        IfSome o (λ p.
        specs.IsPorted idioms (option_map package_of naming.entry) text.now p.has_comments p.text)) }
    // A source that acrun accepts stays as it is, if no name and version are stated.
    ensures stays { IsAccepted text.now → option_map package_of naming.entry ≡ None
        → IfOk result (λ o. MatchOption o ⊥ (λ p. (p.text ≡ text.now) × (p.has_comments ≡ false))) }
    // If they are, AC_INIT alone may change.
    ensures kept { IsAccepted text.now
        → IfOk result (λ o.
        MatchOption o ⊥ (λ p.
        specs.IsKeptAs (option_map package_of naming.entry) text.now p.has_comments p.text)) }
{
    if is_accepted(alloc, text)? {
        return port_accepted(alloc, naming, text);
    }
    port_refused(alloc, idioms, naming, text)
}
