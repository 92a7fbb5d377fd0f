//! Runs a source in memory, without starting anything.

ghost use Rattle.std.specs.Prelude.{◌≡◌, [], None, IfOk, IfErr};
ghost use Rattle.engine.specs.Judged.{IsRead, going};
ghost use Rattle.engine_frame.specs.Needed.{script_in};
ghost use Rattle.cmd_filter.specs.Handed.{IsNotRun, IsReported};

use crate::fault::FilterFault;
use crew::{MemoryCrew, Order};
use deftable::Bytes;
use engine::{MemoryOutputs, Needs, Report, go};
use std::alloc::Global;

/// Runs a source over this crew, and checks that the crew started nothing.
fn run_over(
    alloc: Global,
    needs: &Needs<'_>,
    templates: &[(Bytes, Bytes)],
    crew: &mut MemoryCrew,
    outputs: &mut MemoryOutputs,
) -> Result<Report, FilterFault>
    requires source { IsRead (script_in needs.now) }
    requires crew { crew.old.account ≡ record { events = []; attempts = 0; failures = 0 } }
    requires outputs { outputs.old.receipt ≡ record { handed = []; failures = 0 } }
    ensures ran { IfOk result (λ report.
        IsReported (going needs.now None templates.now) templates.now report
        outputs.new.receipt.handed) }
    ensures refused { IfErr result (IsNotRun (going needs.now None templates.now)) }
{
    let report = go(alloc, needs, None, templates, crew, outputs, 1)?;
    if crew.events().is_empty() {
        return Ok(report);
    }
    // A crew without replies takes no start, so this is not reached. The contract of `go` doesn't say
    // so: it knows a crew by its account alone.
    Err(FilterFault::OutOfMemory)
}

/// Runs a source without a cache, with each start of a child refused. What it hands over is then in
/// `outputs`.
pub(crate) fn run_alone(
    alloc: Global,
    needs: &Needs<'_>,
    templates: &[(Bytes, Bytes)],
    outputs: &mut MemoryOutputs,
) -> Result<Report, FilterFault>
    requires source { IsRead (script_in needs.now) }
    requires outputs { outputs.old.receipt ≡ record { handed = []; failures = 0 } }
    ensures ran { IfOk result (λ report.
        IsReported (going needs.now None templates.now) templates.now report
        outputs.new.receipt.handed) }
    ensures refused { IfErr result (IsNotRun (going needs.now None templates.now)) }
{
    let mut crew = MemoryCrew::new(alloc, Vec::new(alloc), Order::Oldest)?;
    run_over(alloc, needs, templates, &mut crew, outputs)
}
