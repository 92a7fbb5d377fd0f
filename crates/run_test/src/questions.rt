//! Questions that one child answers, or two: what is asked for.

ghost use Rattle.std.specs.Prelude.{IfOk, None};
ghost use Rattle.run_test.specs.Flows.{IsStep, LedAnywhere};
ghost use Rattle.run_test.specs.Runs.{question_run, waiting_run};
ghost use Rattle.run_test.specs.declared.wait.Wait.TheVariants as waits;

use crate::flow::Flow;
use crate::trying::alone;
use crate::wait::Wait;
use crew_jobs::Job;
use std::alloc::{AllocError, Global};

/// Asks for a child whose success is the answer to the question of a choice.
pub fn ask_answer(alloc: Global, job: Job) -> Result<Flow, AllocError>
    ensures step { IfOk result (IsStep 1 None) }
    ensures leads { LedAnywhere result (question_run job) }
{
    let jobs = alone(alloc, job)?;
    Ok(Flow::Ask {
        jobs,
        wait: Wait::Answer,
    })
}

/// Asks for a child that links a program, which is then run.
pub fn ask_link(alloc: Global, job: Job) -> Result<Flow, AllocError>
    ensures step { IfOk result (IsStep 2 None) }
    ensures leads { LedAnywhere result (waiting_run waits.Link job) }
{
    let jobs = alone(alloc, job)?;
    Ok(Flow::Ask {
        jobs,
        wait: Wait::Link,
    })
}
