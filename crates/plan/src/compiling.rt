//! Compiles statements to a plan.

ghost use Rattle.std.specs.Prelude.{◌≡◌, ◌<◌, ◌≤◌, ◌*◌, ◌^◌, ◌↔◌, Err, IfOk, length};
ghost use Rattle.ac_tree.specs.Script.{script_of};
ghost use Rattle.plan.specs.Inside.{AreShort, asks_after};
ghost use Rattle.plan.specs.Names.{DefinesNames};
ghost use Rattle.plan.specs.Walk.{DoesWhat};
ghost use Rattle.plan.specs.Weight.{heaviest, weight};
ghost use Rattle.plan.specs.declared.fault.PlanFault.TheVariants.{TooLong};

use crate::emit::emit_all;
use crate::fault::PlanFault;
use crate::step::Plan;
use crate::weight::weigh;
use ac_tree::{Source, Stmt};
use std::alloc::Global;

const HEAVIEST: usize = 65_535;

/// Compiles a list of statements to a plan with the same meaning.
///
/// # Errors
///
/// - `TooLong`, if the statements weigh more than 65,535 (own). It is checked before anything is
///   allocated.
/// - `OutOfMemory`, if memory runs out.
pub fn compile_statements<'a>(alloc: Global, statements: &'a [Stmt]) -> Result<Plan<'a>, PlanFault>
    ensures meaning { IfOk result (λ plan. DoesWhat plan (script_of statements.now)) }
    ensures long { (result ≡ Err TooLong) ↔ (heaviest < weight (script_of statements.now)) }
    ensures fits { IfOk result (λ _. weight (script_of statements.now) ≤ heaviest) }
    ensures steps { IfOk result (λ plan. length plan ≤ 2 ^ 20) }
    ensures names { IfOk result (λ plan. DefinesNames plan) }
    ensures short { IfOk result (λ plan. AreShort plan) }
    // A run asks for at most 65,536 jobs for each unit of weight.
    ensures asks { IfOk result (λ plan.
        asks_after plan 0 ≤ 65536 * weight (script_of statements.now)) }
{
    if weigh(HEAVIEST, statements).is_none() {
        return Err(PlanFault::TooLong);
    }
    let code = emit_all(alloc, statements)?;
    Ok(Plan::new(code))
}

/// Compiles a source to a plan with the same meaning. The plan borrows from the source.
///
/// # Errors
///
/// - `TooLong`, if the statements weigh more than 65,535 (own). It is checked before anything is
///   allocated.
/// - `OutOfMemory`, if memory runs out.
pub fn compile<'a>(alloc: Global, source: &'a Source) -> Result<Plan<'a>, PlanFault>
    // Walked from its first step, the plan has the meaning of the source, whatever the variables
    // and definitions.
    ensures meaning { IfOk result (λ plan. DoesWhat plan (script_of source.now)) }
    ensures long { (result ≡ Err TooLong) ↔ (heaviest < weight (script_of source.now)) }
    ensures fits { IfOk result (λ _. weight (script_of source.now) ≤ heaviest) }
    ensures steps { IfOk result (λ plan. length plan ≤ 2 ^ 20) }
    ensures names { IfOk result (λ plan. DefinesNames plan) }
    ensures short { IfOk result (λ plan. AreShort plan) }
    // A run asks for at most 65,536 jobs for each unit of weight.
    ensures asks { IfOk result (λ plan. asks_after plan 0 ≤ 65536 * weight (script_of source.now)) }
{
    compile_statements(alloc, source.statements())
}
