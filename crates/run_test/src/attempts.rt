//! Attempts, each made when its turn comes (Autoconf's manual, "Generic Programs").

ghost use Rattle.std.specs.Prelude.{◌≡◌, IfOk, map, unwrap_or};
ghost use Rattle.meaning.specs.Rows.{attempt_in};
ghost use Rattle.run_forms.specs.Attempts.{IsAt, IsMade};
ghost use Rattle.run_test.specs.Attempts.{IsAttempt};

use crate::course::{Course, Search};
use conftest::path_job;
use deftable::Bytes;
use run_forms::Attempt;
use run_state::Store;
use std::alloc::{AllocError, Global};

/// Returns the value of a search that finds this file.
fn found_value(alloc: Global, search: &Search, file: Bytes) -> Result<Bytes, AllocError>
    ensures { IfOk result (λ v. v ≡ unwrap_or search.now.found file) }
{
    match &search.found {
        Some(found) => found.copy(alloc),
        None => Ok(file),
    }
}

/// Makes the attempt to find a program in a directory.
fn in_directory(alloc: Global, search: &Search, directory: &[u8]) -> Result<Attempt, AllocError>
    ensures { IfOk result (IsMade (attempt_in search.now directory.now)) }
{
    let file = Bytes::concat(alloc, &[directory, search.program.as_slice()])?;
    let job = path_job(alloc, file.as_slice())?;
    let value = found_value(alloc, search, file)?;
    Ok(Attempt {
        job: Some(job),
        ends_on: true,
        value,
    })
}

/// Makes the attempt of a search for a program at this place, if there is one.
#[tactic(auto, using(crate::proofs::Places::get_there, crate::proofs::Places::get_past))]
fn directory_at(
    alloc: Global,
    search: &Search,
    directories: &[Bytes],
    place: usize,
) -> Result<Option<Attempt>, AllocError>
    ensures { IfOk result (IsAt (map (attempt_in search.now) directories.now) place) }
{
    if place >= directories.len() {
        return Ok(None);
    }
    let attempt = in_directory(alloc, search, directories[place].as_slice())?;
    Ok(Some(attempt))
}

/// Makes the attempt of a test at this place, if there is one.
pub(crate) fn attempt_at(
    alloc: Global,
    store: &Store,
    course: &Course,
    place: usize,
) -> Result<Option<Attempt>, AllocError>
    ensures { IfOk result (IsAttempt course.now store.now place) }
{
    match course {
        Course::Program {
            search,
            directories,
        } => directory_at(alloc, search, directories.as_slice(), place),
        Course::Formed { course } => run_forms::attempt_at(alloc, store, course, place),
    }
}
