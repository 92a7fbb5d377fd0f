//! Laws of runs that are cut and started again.
//!
//! There is no code here. Each function does nothing, and its contract is a theorem on the
//! definitions of `meaning`. Read `Finished` in `meaning_laws` (a run under given replies),
//! `specs/Poured.antt` (with what a second run begins), `specs/Joint.antt` (the joint replies of a
//! run that was cut and of a second one), `specs/Alone.antt` and `specs/Same.antt` (what is asked
//! of tests that may leave their names unset), and then `specs/Law.antt`. `specs/Plays.antt` has
//! the same law for whole runs. `specs/Opening.antt` is about the cache text that leads from the
//! first to the second, and `specs/Asked.antt` about the tests that a run makes, each with its
//! jobs. Which replies cut a run is a law of `meaning_laws`.
//!
//! For example, say that a source checks the header `a.h` and then the function `f`, and that the
//! first child answers and the second can't be started. The cache then has `ac_cv_header_a_h`. A
//! second run that begins with it, and whose first child answers 0, asks for one child, and ends as
//! one run would under the first answer and then 0.
#![tactic(auto)]

ghost use Rattle.meaning_resumption.specs.Asked.{AsksNoSaved, SharesAreJobs, SharesArePlayed, SharesHaveTheirJobs, SharesAreTests};
ghost use Rattle.meaning_resumption.specs.Law.{Resumes};
ghost use Rattle.meaning_resumption.specs.Opening.{CachePours};
ghost use Rattle.meaning_resumption.specs.Plays.{WholeRunsResume};
ghost use Rattle.meaning_resumption.specs.Refusals.{CutsAtRefusals};

/// A run was cut, and is started again with the values that its cache saves at that end. If the
/// second run isn't cut, and if the source can be resumed, it ends as a run that begins like the
/// first, under the joint replies: in the same way, with the same definitions in the same order,
/// and with the same value of each variable. Messages, the log and the order of the variables may
/// differ.
pub fn resumes()
    ensures law { Resumes }
{}

/// The same of whole runs as they are played, whose replies are as many as their jobs. The joint
/// replies are as many, too, and none of them is refused.
pub fn whole_runs_resume()
    ensures law { WholeRunsResume }
{}

/// If the cache text that is written at the end of a run is read over the same opening, a run of
/// a source that can be resumed begins with the saved values, as `whole_runs_resume` wants it. The
/// first run may have had a cache of its own.
pub fn cache_pours()
    ensures law { CachePours }
{}

/// Each job that a run asks for belongs to a test that the run makes, or to a program that is tried
/// outside AC_CACHE_CHECK: these jobs, in their order, are those of the run. The jobs of a test are
/// those that its own statement, question or entry asks for, whose name it has. If the name is set,
/// the test is not made. In a source that can be resumed no program is tried outside
/// AC_CACHE_CHECK, so each job belongs to a test.
#[tactic(auto, using(crate::proofs::Shares::shares_are_jobs, crate::proofs::Shares::shares_are_played, crate::proofs::TheirJobs::shares_have_their_jobs, crate::proofs::OfTests::shares_are_tests))]
pub fn tests_ask()
    ensures jobs { SharesAreJobs }
    ensures played { SharesArePlayed }
    ensures theirs { SharesHaveTheirJobs }
    ensures tests { SharesAreTests }
{}

/// A run that begins with the saved values of an end makes no test of a name that was saved,
/// whatever the source.
pub fn asks_no_saved()
    ensures law { AsksNoSaved }
{}

/// A whole run that is played with as many replies as jobs is cut exactly if one of them is
/// refused.
pub fn cuts_at_refusals()
    ensures law { CutsAtRefusals }
{}
