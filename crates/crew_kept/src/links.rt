//! The programs that jobs link, and the jobs that run one.

ghost use Rattle.std.specs.Prelude.{◌≡◌};
ghost use Rattle.crew_kept.specs.Links as links;

use crew_jobs::Job;
use deftable::Bytes;

/// Returns whether some word is `-o`.
fn has_o(words: &[Bytes]) -> bool
    ensures { result ≡ links.has_o words.now }
{
    for word in words {
        if word.as_slice() == b"-o".as_slice() {
            return true;
        }
    }
    false
}

/// Returns whether a job makes a program that a later start may run.
pub(crate) fn is_link(job: &Job) -> bool
    ensures { result ≡ links.is_link job.now }
{
    match &job.file {
        Some(_) => has_o(job.words.as_slice()),
        None => false,
    }
}

/// Returns whether the first word is the path of a program in the directory of the run.
fn is_here(words: &[Bytes]) -> bool
    ensures { result ≡ links.is_here words.now }
{
    match words {
        [] => false,
        [word, ..] => word.as_slice().starts_with(b"./"),
    }
}

/// Returns whether a job may run a program that was linked.
pub(crate) fn may_run(job: &Job) -> bool
    ensures { result ≡ links.may_run job.now }
{
    match &job.file {
        Some(_) => false,
        None => is_here(job.words.as_slice()),
    }
}

/// Returns whether the link that was started last was taken, after a start that is taken.
pub(crate) fn after_taken(linked: bool, job: &Job) -> bool
    ensures { result ≡ links.after_taken linked job.now }
{
    if is_link(job) {
        return true;
    }
    linked
}

/// Returns whether the link that was started last was taken, after a start of the crew inside.
pub(crate) fn after_asked(linked: bool, job: &Job) -> bool
    ensures { result ≡ links.after_asked linked job.now }
{
    if is_link(job) {
        return false;
    }
    linked
}

/// Returns whether a start is refused if it isn't taken. `linked` says whether the link that was
/// started last was taken.
pub(crate) fn is_refused(linked: bool, job: &Job) -> bool
    ensures { result ≡ links.is_refused linked job.now }
{
    linked && may_run(job)
}
