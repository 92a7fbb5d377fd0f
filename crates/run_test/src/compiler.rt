//! Jobs that need a compiler.

ghost use Rattle.std.specs.Prelude.{◌≡◌, IfOk, OnOk};
ghost use Rattle.deftable.specs.declared.note.Stream.TheVariants as streams;
ghost use Rattle.meaning.specs.Asking.{no_compiler};
ghost use Rattle.meaning.specs.State.{with_note};
ghost use Rattle.run_test.specs.Attempts.{tried_job};
ghost use Rattle.run_test.specs.declared.flow.Flow.TheVariants.{Stop};

use crate::flow::Flow;
use ac_tree::Try;
use conftest::{JobFault, compile_job, link_job, preproc_job};
use crew_jobs::Job;
use run_state::Store;
use run_state::pieces::report_no_compiler;
use std::alloc::{AllocError, Global};

/// Returns the first job of a program that is tried, with this number, or `None` if there is no
/// compiler.
pub fn job_to_try(
    alloc: Global,
    store: &Store,
    kind: Try,
    source: &[u8],
    number: u64,
) -> Result<Option<Job>, AllocError>
    ensures { IfOk result (λ job. job ≡ tried_job kind source.now number store.now) }
{
    let job = match kind {
        Try::Compile => compile_job(alloc, store.vars(), store.defs(), source, number),
        Try::Link | Try::Run => link_job(alloc, store.vars(), store.defs(), source, number),
        Try::Preproc => preproc_job(alloc, store.vars(), store.defs(), source, number),
    };
    match job {
        Ok(job) => Ok(Some(job)),
        Err(JobFault::NoCompiler) => Ok(None),
        Err(JobFault::OutOfMemory) => Err(AllocError),
    }
}

/// Stops the run because there is no compiler.
pub fn stop_without_compiler(alloc: Global, store: &mut Store) -> Result<Flow, AllocError>
    ensures stops { IfOk result (λ flow. flow ≡ Stop 1) }
    ensures prints { OnOk result (store.new ≡ with_note streams.Err no_compiler store.old) }
{
    report_no_compiler(alloc, store)?;
    Ok(Flow::Stop { status: 1 })
}
