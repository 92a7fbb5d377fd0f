//! Replies to jobs that were asked for.

ghost use Rattle.std.specs.Prelude.{◌≡◌, ◌∷◌, [], OnOk, option_to_list};
ghost use Rattle.meaning.specs.Asking.{success};
ghost use Rattle.run_test.specs.Batched.{with_asked};

use crew_jobs::Job;
use crew_trait::Reply;
use run_state::Store;
use std::alloc::AllocError;

/// Returns whether the child with this reply succeeded, or `None` if it didn't answer.
pub fn success(reply: &Reply) -> Option<bool>
    ensures { result ≡ success reply.now }
{
    match reply {
        Reply::Answer { status, .. } => Some(*status == 0),
        Reply::StartRefused | Reply::EndRefused => None,
    }
}

/// Adds the job that was asked for to the log, with its reply.
pub fn log_asked(store: &mut Store, job: Option<Job>, reply: Reply) -> Result<(), AllocError>
    ensures { OnOk result (store.new ≡ with_asked (option_to_list job) (reply ∷ []) store.old) }
{
    match job {
        Some(job) => store.log_child(job, reply),
        None => Ok(()),
    }
}
