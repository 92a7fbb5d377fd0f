//! What a source is read as.

ghost use Rattle.std.specs.Prelude.{◌≡◌, ◌↔◌, [], Err, IfErr, IfOk, IsTrue, map, nat_lt};
ghost use Rattle.ac_calls.specs.Calls.{ArePlaced, calls_among, macro_call_of};
ghost use Rattle.ac_tree.specs.Script.{script_of};
ghost use Rattle.m4quote.specs.ItemValue.{views};
ghost use Rattle.plan.specs.Weight.{heaviest, weight};
ghost use Rattle.lint_errors.specs.Errors.{IsAccepted};
ghost use Rattle.lint_errors.specs.Readings as specs;

use ac_calls::{CallAt, calls_in, items_of};
use ac_statement::ParseFault;
use ac_statement::fault::quote_fault;
use ac_tree::Source;
use acparse::{parse, parse_items};
use lint_macros::Index;
use m4quote::{Item, QuoteFault};
use plan::{PlanFault, compile};
use std::alloc::{AllocError, Global};

/// What a source is read as.
#[derive(Drop)]
pub struct Reading {
    /// Its statements, or why it is refused.
    pub source: Result<Source, ParseFault>,
    /// Its calls, in order of their offsets.
    pub calls: Vec<CallAt>,
    /// What is known of the macros that acrun doesn't read, by their names.
    pub index: Index,
}

/// Returns the items that a source spells, or why it is refused.
fn spelled(alloc: Global, text: &[u8]) -> Result<Result<Vec<Item<'_>>, ParseFault>, AllocError>
    ensures spelled { IfOk result (λ r.
        IfOk r (λ items. specs.IsSpelled text.now (views items.items))) }
    ensures placed { IfOk result (λ r. IfOk r (λ items. ArePlaced (views items.items))) }
    ensures fault { IfOk result (λ r. IfErr r (specs.IsUnspelled text.now)) }
{
    match items_of(alloc, text) {
        Ok(items) => Ok(Ok(items)),
        Err(QuoteFault::OutOfMemory) => Err(AllocError),
        Err(fault) => Ok(Err(quote_fault(fault))),
    }
}

/// Returns the statements of the items of a source, or why it is refused.
fn statements_of(
    alloc: Global,
    items: &[Item<'_>],
) -> Result<Result<Source, ParseFault>, AllocError>
    ensures { IfOk result (specs.AreStatements (views items.now)) }
{
    match parse_items(alloc, items) {
        Ok(source) => Ok(Ok(source)),
        Err(ParseFault::OutOfMemory) => Err(AllocError),
        Err(fault) => Ok(Err(fault)),
    }
}

/// Returns what a source with these items is read as.
fn read_items(alloc: Global, items: &[Item<'_>]) -> Result<Reading, AllocError>
    requires { ArePlaced (views items.now) }
    ensures source { IfOk result (λ r. specs.AreStatements (views items.now) r.source) }
    ensures calls { IfOk result (λ r.
        map macro_call_of r.calls.items ≡ calls_among (views items.now)) }
{
    let source = statements_of(alloc, items)?;
    let calls = calls_in(alloc, items)?;
    let index = Index::new(alloc)?;
    Ok(Reading {
        source,
        calls,
        index,
    })
}

/// Returns what a source that spells no items is read as: it has this fault, and no calls.
fn read_fault(alloc: Global, fault: ParseFault) -> Result<Reading, AllocError>
    ensures source { IfOk result (λ r. r.source ≡ Err fault) }
    ensures calls { IfOk result (λ r. r.calls.items ≡ []) }
{
    let index = Index::new(alloc)?;
    Ok(Reading {
        source: Err(fault),
        calls: Vec::new(alloc),
        index,
    })
}

/// Returns what a source is read as.
///
/// # Errors
///
/// Fails only if memory runs out.
#[tactic(auto, using(crate::proofs::Acceptance::refused_as))]
pub fn read(alloc: Global, text: &[u8]) -> Result<Reading, AllocError>
    ensures { IfOk result (specs.IsReading text.now) }
{
    match spelled(alloc, text)? {
        Ok(items) => read_items(alloc, &items),
        Err(fault) => read_fault(alloc, fault),
    }
}

/// Returns whether a source weighs too much for a plan.
pub(crate) fn is_too_long(alloc: Global, source: &Source) -> Result<bool, AllocError>
    ensures { IfOk result (λ b. b ≡ nat_lt heaviest (weight (script_of source.now))) }
{
    match compile(alloc, source) {
        Ok(_) => Ok(false),
        Err(PlanFault::TooLong) => Ok(true),
        Err(PlanFault::OutOfMemory) => Err(AllocError),
    }
}

/// Returns whether acrun accepts a source: it is read, and doesn't weigh too much for a plan.
///
/// # Errors
///
/// Fails only if memory runs out.
#[tactic(auto, using(crate::proofs::Acceptance::accepted_if_short, crate::proofs::Acceptance::not_accepted))]
pub fn is_accepted(alloc: Global, text: &[u8]) -> Result<bool, AllocError>
    ensures { IfOk result (λ b. IsTrue b ↔ IsAccepted text.now) }
{
    match parse(alloc, text) {
        Ok(source) => {
            let is_long = is_too_long(alloc, &source)?;
            Ok(!is_long)
        }
        Err(ParseFault::OutOfMemory) => Err(AllocError),
        Err(_) => Ok(false),
    }
}
