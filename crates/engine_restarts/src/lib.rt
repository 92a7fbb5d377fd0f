//! Laws of calls of `configure` that are cut short and made again.
//!
//! There is no code here. Each function does nothing, and its contract is a theorem on the
//! definitions of `engine` and `meaning_resumption`. Read `specs/Calls.antt` (what a call is given,
//! and what its report describes), `specs/Second.antt` (a second call is accepted), and then
//! `specs/Law.antt` (it ends as one call would).
//!
//! For example, say that a source checks the header `a.h` and then the function `f`, and that the
//! start of the second child is refused. The call reports that it was cut short, and hands over a
//! cache that has `ac_cv_header_a_h`. A second call with that cache asks for one child, that of
//! `f`. If it answers 0, the call hands over what one call would under the first answer and then 0:
//! the same cache, record, files and headers.
#![tactic(auto)]

ghost use Rattle.engine_restarts.specs.Calls.{ReportsTell};
ghost use Rattle.engine_restarts.specs.Law.{ConfiguresResume};
ghost use Rattle.engine_restarts.specs.Second.{SecondCallStarts, UncachedCallsAgree};

use acparse::forms::sources_have_forms;
use meaning_resumption::{asks_no_saved, whole_runs_resume};

/// The report of a run tells its outcome, variables and definitions as the meaning of the source
/// has them under the replies to its children, whatever the window and the order in which children
/// end.
pub fn reports_tell()
    ensures law { ReportsTell }
{}

/// If a call of a source that can be resumed saved its cache, a second call that is given the same
/// with that cache is accepted. It begins as the first one did, with the values that were saved. No
/// precious variable is at fault: it is compared with the marks that the first call began with.
pub fn second_call_starts()
    ensures law { SecondCallStarts }
{
    sources_have_forms();
}

/// A call without a cache never has the fault of a precious variable, whatever the names of
/// precious variables are.
pub fn uncached_calls_agree()
    ensures law { UncachedCallsAgree }
{}

/// A call was cut short, and a second one with the cache that it saved is not. If the source can be
/// resumed, the second call ends as one call would that begins as the first did, under the joint
/// replies: with the same outcome, definitions and value of each variable, and it hands over the
/// same. It makes no test again whose value was saved. Messages and the log may differ.
pub fn configures_resume()
    ensures law { ConfiguresResume }
{
    sources_have_forms();
    whole_runs_resume();
    asks_no_saved();
}
