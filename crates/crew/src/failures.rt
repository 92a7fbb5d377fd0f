//! Counts the calls that were refused.

ghost use Rattle.std.specs.Prelude.{◌≡◌, ◌+◌, ◌^◌, ◌<◌};
ghost use Rattle.crew_trait.specs.Events.{failure_of};

use crew_trait::{Refused, Reply};

/// Counts a refused start, and returns its error.
pub(crate) fn refusal(failures: &mut u64) -> Refused
    requires { failures.old < 2 ^ 62 }
    ensures { failures.new ≡ failures.old + 1 }
{
    *failures += 1;
    Refused
}

/// Returns the count after an end with this reply.
pub(crate) fn failures_after(reply: &Reply, failures: u64) -> u64
    requires { failures < 2 ^ 62 }
    ensures { result ≡ failures + failure_of reply.now }
{
    match reply {
        Reply::Answer { .. } => failures,
        Reply::StartRefused | Reply::EndRefused => failures + 1,
    }
}
