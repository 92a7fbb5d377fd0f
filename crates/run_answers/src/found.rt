//! The answers that a run begins with.

use crate::host_file::{ANSWERS, Begin, HostFile, remove};
use answers_text::{Answers, first_line, read_answers};
use crew_resume::Givens;
use run_facts::{begins_afresh, fingerprint_here, read_own};
use std::alloc::{AllocError, Global};
use std::env::Env;
use std::rt::Files;

/// The answers that a run begins with, and what is before those that it appends.
#[derive(Drop)]
pub(crate) struct Found {
    pub(crate) answers: Answers,
    front: Vec<u8>,
    begin: Begin,
}

impl Found {
    /// Returns the answers, the file to which further ones are appended, and whether it is there.
    pub(crate) fn into_parts<F: Files>(
        self,
        alloc: Global,
        files: &F,
    ) -> (Answers, HostFile<'_, F>, bool) {
        let Found {
            answers,
            front,
            begin,
        } = self;
        let is_there = matches!(begin, Begin::After);
        (answers, HostFile::new(alloc, files, begin, front), is_there)
    }
}

/// Returns the answers that the file has of this run, if it is that run's.
fn kept_answers<R: Files>(
    alloc: Global,
    rt: &R,
    run: &[u8; 32],
) -> Result<Option<Found>, AllocError> {
    let Some(text) = read_own(alloc, rt, ANSWERS) else {
        return Ok(None);
    };
    let Some(answers) = read_answers(alloc, run, text.as_slice())? else {
        return Ok(None);
    };
    let used = answers.used.min(text.len());
    let front = Vec::from_slice(alloc, &text.as_slice()[..used])?;
    Ok(Some(Found {
        answers,
        front,
        begin: Begin::After,
    }))
}

/// Returns no answers of this run. The file that is there, if there is one, is removed.
fn no_answers<R: Files>(
    alloc: Global,
    rt: &R,
    run: &[u8; 32],
) -> Result<Option<Found>, AllocError> {
    remove(rt);
    let front = first_line(alloc, run)?;
    match read_answers(alloc, run, front.as_slice())? {
        Some(answers) => Ok(Some(Found {
            answers,
            front,
            begin: Begin::New,
        })),
        None => Ok(None),
    }
}

/// Returns the answers that a run with these givens begins with: those of the file, if that is of a
/// run that rested on the same, and if none are to be passed over. Otherwise the file is removed.
/// Returns `None` if the system doesn't say what the run rests on.
///
/// # Errors
///
/// Fails only if memory runs out.
pub(crate) fn found_answers<R: Files + Env>(
    alloc: Global,
    rt: &R,
    version: &[u8],
    givens: &Givens<'_>,
) -> Result<Option<Found>, AllocError> {
    let Some(run) = fingerprint_here(alloc, rt, version, givens)? else {
        return Ok(None);
    };
    if begins_afresh(givens.environment) {
        return no_answers(alloc, rt, &run);
    }
    match kept_answers(alloc, rt, &run)? {
        Some(found) => Ok(Some(found)),
        None => no_answers(alloc, rt, &run),
    }
}
