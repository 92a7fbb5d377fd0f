//! Which entries of a batch ask for a child, and their jobs.

ghost use Rattle.std.specs.Prelude.{◌≡◌, ◌≤◌, ◌||◌, [], true, IfOk, length};
ghost use Rattle.std.specs.Prelude.{◌++◌, OnOk, bytes_eq, option_to_list};
ghost use Rattle.meaning.specs.Batches.{is_known};
ghost use Rattle.meaning.specs.Entries.{listed_form};
ghost use Rattle.run_forms.specs.Courses.{bare_course};
ghost use Rattle.run_step.specs.Waiting.{forms_in, is_named, job_at, jobs_of, names_before, waiting_for};

use ac_tree::Listed;
use crew_jobs::Job;
use deftable::Bytes;
use run_forms::{FormCourse, bare_course, test_job};
use run_state::Store;
use run_test::{Waiting, listed_form};
use shellword::HereText;
use std::alloc::{AllocError, Global};

/// Returns whether an entry has this cached name.
fn has_name(entry: &Waiting, name: &[u8]) -> bool
    ensures { result ≡ bytes_eq name.now entry.now.test.name }
{
    name == entry.test.name.as_slice()
}

/// Returns whether one of the entries has this cached name.
fn is_named(entries: &[Waiting], name: &[u8]) -> bool
    ensures { result ≡ is_named name.now entries.now }
{
    for entry in entries {
        if has_name(entry, name) {
            return true;
        }
    }
    false
}

/// Returns whether a name is set, or is that of an earlier entry.
#[tactic(auto, using(crate::proofs::Turns::named_before))]
fn is_known(store: &Store, earlier: &[Waiting], name: &[u8]) -> bool
    ensures { result ≡ is_known name.now (names_before earlier.now) store.now }
{
    store.get(name).is_some() || is_named(earlier, name)
}

/// Returns the test of an entry.
fn entry_course(alloc: Global, listed: Listed, entry: &Bytes) -> Result<FormCourse, AllocError>
    ensures { IfOk result (λ c. c ≡ bare_course (listed_form listed entry.now true)) }
{
    let form = listed_form(alloc, listed, entry.as_slice(), true)?;
    bare_course(alloc, form)
}

/// Returns the tests of the entries. An entry asks for a child if its name is unset, and is not
/// that of an earlier entry.
pub(crate) fn waiting_for(
    alloc: Global,
    store: &Store,
    listed: Listed,
    entries: &[Bytes],
) -> Result<Vec<Waiting>, AllocError>
    ensures { IfOk result (λ v. v.items ≡ waiting_for [] (forms_in listed entries.now) store.now) }
{
    let mut all = Vec::with_capacity(alloc, entries.len())?;
    for i in 0..entries.len() {
        let test = entry_course(alloc, listed, &entries[i])?;
        let asks = !is_known(store, all.as_slice(), test.name.as_slice());
        all.push(Waiting { test, asks })?;
    }
    Ok(all)
}

/// Returns the job of an entry that asks for a child, if there is a compiler.
fn job_of(
    alloc: Global,
    store: &Store,
    includes: &Option<HereText>,
    number: u64,
    entry: &Waiting,
) -> Result<Option<Job>, AllocError>
    ensures { IfOk result (λ job. job ≡ job_at includes.now number entry.now store.now) }
{
    if !entry.asks {
        return Ok(None);
    }
    test_job(alloc, store, &entry.test.form, includes, number)
}

/// Adds a job to a list, if there is one.
fn put_job(jobs: &mut Vec<Job>, job: Option<Job>) -> Result<(), AllocError>
    ensures { OnOk result (jobs.new.items ≡ jobs.old.items ++ option_to_list job) }
{
    match job {
        Some(job) => {
            jobs.push(job)?;
            Ok(())
        }
        None => Ok(()),
    }
}

/// Returns the jobs of the entries that ask for a child, or none if there is no compiler. The
/// number of a job is the place of its entry in the list, from 1.
pub(crate) fn jobs_of(
    alloc: Global,
    store: &Store,
    includes: &Option<HereText>,
    entries: &[Waiting],
) -> Result<Vec<Job>, AllocError>
    requires { length entries.now ≤ 256 }
    ensures { IfOk result (λ v. v.items ≡ jobs_of includes.now 1 entries.now store.now) }
{
    let mut jobs = Vec::new(alloc);
    for i in 0..entries.len() {
        let job = job_of(alloc, store, includes, i as u64 + 1, &entries[i])?;
        put_job(&mut jobs, job)?;
    }
    Ok(jobs)
}
