//! Attempts, each made when its turn comes (Autoconf's manual, "Generic Headers" to "Library
//! Files").

ghost use Rattle.std.specs.Prelude.{◌≡◌, IfOk, unwrap_or, []};
ghost use Rattle.meaning.specs.Forms.{after_in, attempt_of_try, includes_in, libs_with, snippet_job};
ghost use Rattle.meaning.specs.Batches.{test_job};
ghost use Rattle.run_forms.specs.Attempts.{IsAttempt, IsMade};

use crate::course::FormCourse;
use crate::opening::value_in;
use conftest::{JobFault, compile_job, link_job, link_job_with};
use conftest_source::{default_includes, function_source, header_source, program_source};
use crew_jobs::Job;
use deftable::Bytes;
use run_state::Store;
use shellword::HereText;
use std::alloc::{AllocError, Global};
use test_forms::{Snippet, TestForm, TryForm};

/// An attempt with its job, if there is a compiler for it. If the child's success is `ends_on`, the
/// test ends with the value.
#[derive(Drop)]
pub struct Attempt {
    pub job: Option<Job>,
    pub ends_on: bool,
    pub value: Bytes,
}

/// Returns the includes, or the default ones.
fn includes_of(includes: &Option<Bytes>) -> &[u8]
    ensures { result.now ≡ includes_in includes.now }
{
    match includes {
        Some(includes) => includes.as_slice(),
        None => default_includes(),
    }
}

/// Returns the other libraries that were given, or no text.
fn text_or_empty(given: &Option<Bytes>) -> &[u8]
    ensures { result.now ≡ unwrap_or given.now [] }
{
    match given {
        Some(given) => given.as_slice(),
        None => b"",
    }
}

/// Returns what is linked after a library: the other libraries that were given, and LIBS.
fn after_in(alloc: Global, store: &Store, given: &Option<Bytes>) -> Result<Bytes, AllocError>
    ensures { IfOk result (λ v. v ≡ after_in given.now store.now.vars) }
{
    let libs = store.value_or_empty(alloc, b"LIBS")?;
    Bytes::concat(alloc, &[text_or_empty(given), b" ", libs.as_slice()])
}

/// Returns the value of LIBS under which a library is tested.
fn libs_with(
    alloc: Global,
    store: &Store,
    library: &[u8],
    given: &Option<Bytes>,
) -> Result<Bytes, AllocError>
    ensures { IfOk result (λ v. v ≡ libs_with library.now given.now store.now.vars) }
{
    let after = after_in(alloc, store, given)?;
    Bytes::concat(alloc, &[b"-l", library, b" ", after.as_slice()])
}

/// Returns the job of a snippet, with its number, or `None` if there is no compiler.
fn snippet_job(
    alloc: Global,
    store: &Store,
    snippet: &Snippet,
    entry: &[u8],
    given: &Option<Bytes>,
    number: u64,
) -> Result<Option<Job>, AllocError>
    ensures { IfOk result (λ j.
        j ≡ snippet_job snippet.now entry.now given.now number store.now.vars store.now.defs) }
{
    let (vars, defs) = (store.vars(), store.defs());
    let job = match snippet {
        Snippet::Header => {
            let source = header_source(alloc, includes_of(given), entry)?;
            compile_job(alloc, vars, defs, source.as_slice(), number)
        }
        Snippet::Function => {
            let source = function_source(alloc, entry)?;
            link_job(alloc, vars, defs, source.as_slice(), number)
        }
        Snippet::Library { library } => {
            let source = function_source(alloc, entry)?;
            let libs = libs_with(alloc, store, library.as_slice(), given)?;
            link_job_with(
                alloc,
                vars,
                libs.as_slice(),
                defs,
                source.as_slice(),
                number,
            )
        }
        Snippet::Body { text } => {
            let source = program_source(alloc, includes_of(given), text.as_slice())?;
            compile_job(alloc, vars, defs, source.as_slice(), number)
        }
    };
    match job {
        Ok(job) => Ok(Some(job)),
        Err(JobFault::NoCompiler) => Ok(None),
        Err(JobFault::OutOfMemory) => Err(AllocError),
    }
}

/// Makes the attempt of a try.
fn made(
    alloc: Global,
    store: &Store,
    form: &TestForm,
    given: &Option<Bytes>,
    from: &TryForm,
) -> Result<Attempt, AllocError>
    ensures { IfOk result (
        IsMade (attempt_of_try form.now.entry given.now store.now.vars store.now.defs from.now)) }
{
    let job = snippet_job(alloc, store, &from.snippet, form.entry(), given, 0)?;
    let value = from.value.copy(alloc)?;
    Ok(Attempt {
        job,
        ends_on: from.ends_on,
        value,
    })
}

/// Makes the attempt of a test at this place, from 0, if there is one. The attempt has no job if
/// there is no compiler.
#[tactic(auto, using(crate::proofs::Places::none_there))]
pub fn attempt_at(
    alloc: Global,
    store: &Store,
    course: &FormCourse,
    place: usize,
) -> Result<Option<Attempt>, AllocError>
    ensures { IfOk result (IsAttempt course.now store.now place) }
{
    let form = &course.form;
    let Some(from) = form.try_at(alloc, place)? else {
        return Ok(None);
    };
    let attempt = made(alloc, store, form, &course.given, &from)?;
    Ok(Some(attempt))
}

/// Returns the job of a test's first try, with its number, or `None` if there is no compiler. The
/// test was given these includes or other libraries.
#[tactic(auto, using(crate::proofs::Places::first_none, crate::proofs::Places::first_some))]
pub fn test_job(
    alloc: Global,
    store: &Store,
    form: &TestForm,
    given: &Option<HereText>,
    number: u64,
) -> Result<Option<Job>, AllocError>
    ensures { IfOk result (λ j.
        j ≡ test_job (record { form = form.now; given = given.now }) number store.now) }
{
    let Some(first) = form.try_at(alloc, 0)? else {
        return Ok(None);
    };
    let given = value_in(alloc, store, given)?;
    snippet_job(alloc, store, &first.snippet, form.entry(), &given, number)
}
