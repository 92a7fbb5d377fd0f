//! Makes the jobs.

ghost use Rattle.std.specs.Prelude.{◌≡◌, ◌≢◌, [], ◌++◌, Some, None, IfOk, IsErrOf, OnOk, codes};
ghost use Rattle.crew_jobs.specs.Probe as probe;
ghost use Rattle.crew_jobs.specs.Probe.{job_if, job_of, Compile, Link, Preprocess, Run, Find, run_of, path_of, file_name, conftest_text};
ghost use Rattle.deftable.specs.Table.{with_entry};
ghost use Rattle.text_cut.specs.Cuts.{fields};
ghost use Rattle.conftest.specs.declared.fault.JobFault.TheVariants.{NoCompiler};

use crate::command::{
    compiler, preprocessor, push_compile_words, push_link_words, push_preprocess_words,
};
use crate::fault::JobFault;
use crate::text::{self, conftest_text, file_name};
use crew_jobs::{Job, Words};
use deftable::{Bytes, Defs, Vars};
use std::alloc::{AllocError, Global};

/// Returns the job that compiles `source` to an object file: `$CC -c $CFLAGS $CPPFLAGS FILE`
/// (Autoconf's manual, "Running the Compiler").
///
/// The file is `conftest.c`, or `conftestN.c` if the number `N` isn't 0. A value is split at blanks
/// only, and quotes in it have no meaning (own).
///
/// # Errors
///
/// Returns [`JobFault::NoCompiler`] if CC is unset or has no word.
#[tactic(auto, unfolding(crew_jobs::specs::Probe::job_of))]
pub fn compile_job(
    alloc: Global,
    vars: &Vars,
    defs: &Defs,
    source: &[u8],
    number: u64,
) -> Result<Job, JobFault>
    ensures job { IfOk result (λ job.
        job_of (Compile source.now) number vars.now defs.now ≡ Some job) }
    ensures fault { IsErrOf result NoCompiler
        → job_of (Compile source.now) number vars.now defs.now ≡ None }
{
    let mut words = compiler(alloc, vars)?;
    if words.as_slice().is_empty() {
        return Err(JobFault::NoCompiler);
    }
    push_compile_words(alloc, &mut words, vars, number)?;
    let job = with_conftest(alloc, words, defs, source, number)?;
    Ok(job)
}

/// Returns the job that links a program if LIBS has this value.
fn linked(
    alloc: Global,
    vars: &Vars,
    libraries: &[u8],
    defs: &Defs,
    source: &[u8],
    number: u64,
) -> Result<Job, JobFault>
    ensures job { IfOk result (λ job.
        job_if (probe.words_of vars.now (codes "CC"))
        (probe.link_words_with (fields libraries.now) number vars.now) number defs.now
        source.now ≡ Some job) }
    ensures fault { IsErrOf result NoCompiler
        → job_if (probe.words_of vars.now (codes "CC"))
        (probe.link_words_with (fields libraries.now) number vars.now) number defs.now
        source.now ≡ None }
{
    let mut words = compiler(alloc, vars)?;
    if words.as_slice().is_empty() {
        return Err(JobFault::NoCompiler);
    }
    push_link_words(alloc, &mut words, vars, libraries, number)?;
    let job = with_conftest(alloc, words, defs, source, number)?;
    Ok(job)
}

/// Returns the job that compiles and links `source` to a program:
/// `$CC -o OUT $CFLAGS $CPPFLAGS $LDFLAGS FILE $LIBS` (Autoconf's manual, "Running the Linker").
///
/// The program is `conftest`, or `conftestN` if the number `N` isn't 0. The file and the words are
/// as in [`compile_job`].
///
/// # Errors
///
/// Returns [`JobFault::NoCompiler`] if CC is unset or has no word.
#[tactic(auto, unfolding(crew_jobs::specs::Probe::job_of, crew_jobs::specs::Probe::words_of))]
pub fn link_job(
    alloc: Global,
    vars: &Vars,
    defs: &Defs,
    source: &[u8],
    number: u64,
) -> Result<Job, JobFault>
    ensures job { IfOk result (λ job.
        job_of (Link source.now) number vars.now defs.now ≡ Some job) }
    ensures fault { IsErrOf result NoCompiler
        → job_of (Link source.now) number vars.now defs.now ≡ None }
{
    linked(
        alloc,
        vars,
        vars.value_or_empty(b"LIBS"),
        defs,
        source,
        number,
    )
}

/// Returns the job of [`link_job`] for variables in which LIBS has this value. The variables stay
/// as they are.
///
/// # Errors
///
/// Returns [`JobFault::NoCompiler`] if CC is unset or has no word.
pub fn link_job_with(
    alloc: Global,
    vars: &Vars,
    libraries: &[u8],
    defs: &Defs,
    source: &[u8],
    number: u64,
) -> Result<Job, JobFault>
    ensures job { IfOk result (λ job.
        job_of (Link source.now) number (with_entry vars.now (codes "LIBS") libraries.now) defs.now
        ≡ Some job) }
    ensures fault { IsErrOf result NoCompiler
        → job_of (Link source.now) number (with_entry vars.now (codes "LIBS") libraries.now)
        defs.now ≡ None }
{
    linked(alloc, vars, libraries, defs, source, number)
}

/// Returns the job that preprocesses `source`: `$CPP $CPPFLAGS FILE`, or `$CC -E $CPPFLAGS FILE` if
/// CPP is unset or has no word (Autoconf's manual, "Running the Preprocessor").
///
/// The file and the words are as in [`compile_job`].
///
/// # Errors
///
/// Returns [`JobFault::NoCompiler`] if neither CPP nor CC has a word.
#[tactic(auto, unfolding(crew_jobs::specs::Probe::job_of))]
pub fn preproc_job(
    alloc: Global,
    vars: &Vars,
    defs: &Defs,
    source: &[u8],
    number: u64,
) -> Result<Job, JobFault>
    ensures job { IfOk result (λ job.
        job_of (Preprocess source.now) number vars.now defs.now ≡ Some job) }
    ensures fault { IsErrOf result NoCompiler
        → job_of (Preprocess source.now) number vars.now defs.now ≡ None }
{
    let mut words = preprocessor(alloc, vars)?;
    if words.as_slice().is_empty() {
        return Err(JobFault::NoCompiler);
    }
    push_preprocess_words(alloc, &mut words, vars, number)?;
    let job = with_conftest(alloc, words, defs, source, number)?;
    Ok(job)
}

/// Returns the job that runs the program of the link job with this number: `./conftest`, or
/// `./conftestN` (Autoconf's manual, "Runtime").
#[tactic(auto, unfolding(crew_jobs::specs::Probe::run_of))]
pub fn run_job(alloc: Global, number: u64) -> Result<Job, AllocError>
    ensures { IfOk result (λ job. job ≡ run_of number) }
{
    let program = program_path(alloc, number)?;
    let mut words = Words::new(alloc);
    words.push(program.as_slice())?;
    Ok(Job { words, file: None })
}

/// Returns the path of the program that a link job writes.
fn program_path(alloc: Global, number: u64) -> Result<Vec<u8>, AllocError>
    ensures { IfOk result (λ path. path.items ≡ codes "./" ++ probe.out_name number) }
{
    let out = text::out_name(alloc, number)?;
    let mut path = Vec::from_slice(alloc, b"./")?;
    path.extend_from_slice(out.as_slice())?;
    Ok(path)
}

/// Returns the job that succeeds if `file` is a regular file that may be executed. A shell tests it
/// with POSIX's `test` (own).
#[tactic(auto, unfolding(crew_jobs::specs::Probe::path_of))]
pub fn path_job(alloc: Global, file: &[u8]) -> Result<Job, AllocError>
    ensures { IfOk result (λ job. job ≡ path_of file.now) }
{
    let mut words = Words::new(alloc);
    push_path_words(&mut words, file)?;
    Ok(Job { words, file: None })
}

/// Appends the words of the shell command that tests a file.
#[tactic(auto, unfolding(crew_jobs::specs::Probe::path_words))]
fn push_path_words(words: &mut Words, file: &[u8]) -> Result<(), AllocError>
    requires { words.old ≡ [] }
    ensures { OnOk result (words.new ≡ probe.path_words file.now) }
{
    words.push(b"sh")?;
    words.push(b"-c")?;
    words.push(b"test -f \"$1\" && test -x \"$1\"")?;
    words.push(b"sh")?;
    words.push(file)
}

fn with_conftest(
    alloc: Global,
    words: Words,
    defs: &Defs,
    source: &[u8],
    number: u64,
) -> Result<Job, AllocError>
    ensures { IfOk result (λ job.
        job
        ≡ record {
          words = words;
          file = Some (file_name number, conftest_text defs.now source.now);
        }) }
{
    let name = Bytes::from_vec(file_name(alloc, number)?);
    let text = conftest_text(alloc, defs, source)?;
    Ok(Job {
        words,
        file: Some((name, text)),
    })
}
