//! Jobs that have not been started.

ghost use Rattle.std.specs.Prelude.{◌≡◌, [], ◌∷◌, IfOk, IfSome, IfNone};

use crew_jobs::Job;
use std::alloc::{AllocError, Global};
use std::marker::Model;

/// The jobs of a group that have not been started, in order.
#[derive(Drop)]
pub(crate) struct Queue {
    // the next one is last
    jobs: Vec<Job>,
}

impl Model for Queue {
    ghost use Rattle.std.specs.Prelude.{List, reverse};
    ghost use Rattle.std.specs.Coded.{codes};
    ghost use Rattle.crew_jobs.specs.declared.job.Job.{Job};
    ghost use Rattle.crew_jobs.specs.contracts.job.Job as job;

    ghost Value = { List Job };

    ghost coded = { Prim.hlevel (codes, job.the_row.coded) };

    ghost view = { λ q. reverse q.jobs.items };
}

impl Queue {
    /// Copies these jobs. Fails only if memory runs out.
    pub(crate) fn copied(alloc: Global, jobs: &[Job]) -> Result<Queue, AllocError>
        ensures { IfOk result (λ queue. queue ≡ jobs.now) }
    {
        let mut jobs = copies(alloc, jobs)?;
        jobs.reverse();
        Ok(Queue { jobs })
    }

    /// Takes the next job, if there is one.
    pub(crate) fn take_first(&mut self) -> Option<Job>
        ensures taken { IfSome result (λ job. self.old ≡ job ∷ self.new) }
        ensures empty { IfNone result (self.old ≡ []) }
        ensures unchanged { IfNone result (self.new ≡ []) }
    {
        self.jobs.pop()
    }
}

fn copies(alloc: Global, jobs: &[Job]) -> Result<Vec<Job>, AllocError>
    ensures { IfOk result (λ all. all.items ≡ jobs.now) }
{
    let mut all = Vec::new(alloc);
    for job in jobs {
        all.push(job.copy(alloc)?)?;
    }
    Ok(all)
}
