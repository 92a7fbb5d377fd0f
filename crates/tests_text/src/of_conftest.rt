//! conftest_source and conftest: test programs, and the jobs that a run asks for.

use crate::of_deftable::{Tables, text_of};
use conftest::{
    Job, JobFault, Words, compile_job, link_job, link_job_with, path_job, preproc_job, run_job,
};
use conftest_source::{default_includes, function_source, header_source, program_source};
use std::alloc::AllocError;
use test_rows::{Page, RowCall, cut};

/// Puts each word with a bar after it.
fn put_words(page: &mut Page, words: &Words) {
    for word in words.as_slice() {
        page.put(word.as_slice());
        page.put(b"|");
    }
}

/// Puts the command, or the number of what is wrong.
fn put_command(page: &mut Page, job: Result<Job, JobFault>) {
    match job {
        Ok(job) => put_words(page, &job.words),
        Err(fault) => page.put_shown(&fault),
    }
}

/// Puts the commands that compile, link and preprocess.
fn put_three(page: &mut Page, tables: &Tables, number: u64) {
    let alloc = page.alloc();
    put_command(
        page,
        compile_job(alloc, &tables.vars, &tables.defs, b"x", number),
    );
    page.put(b"\n");
    put_command(
        page,
        link_job(alloc, &tables.vars, &tables.defs, b"x", number),
    );
    page.put(b"\n");
    put_command(
        page,
        preproc_job(alloc, &tables.vars, &tables.defs, b"x", number),
    );
}

/// Puts the command of a job, and on further lines the name and the text of its file.
fn put_job(page: &mut Page, job: &Job) {
    put_words(page, &job.words);
    if let Some((name, text)) = &job.file {
        page.put(b"\n");
        page.put(name.as_slice());
        page.put(b"\n");
        page.put(text.as_slice());
    }
}

fn put_given_job(page: &mut Page, job: Result<Job, AllocError>) {
    if let Some(job) = page.given(job) {
        put_job(page, &job);
    }
}

/// Puts a copy of the job that compiles a source, or what is wrong.
fn put_compiled(page: &mut Page, tables: &Tables, source: &[u8], number: u64) {
    let alloc = page.alloc();
    match compile_job(alloc, &tables.vars, &tables.defs, source, number) {
        Ok(job) => put_given_job(page, job.copy(alloc)),
        Err(fault) => page.put_shown(&fault),
    }
}

/// Puts under these variables and definitions the job that compiles the source, or without one the
/// three commands.
fn put_under(
    page: &mut Page,
    variables: &[u8],
    definitions: &[u8],
    source: Option<&[u8]>,
    number: u64,
) {
    let mut tables = Tables::new(page.alloc());
    tables.take(page, b"vars", variables);
    tables.take(page, b"defs", definitions);
    match source {
        Some(source) => put_compiled(page, &tables, source, number),
        None => put_three(page, &tables, number),
    }
}

/// Puts the command that links under these variables with another value of LIBS.
fn put_linked(page: &mut Page, libraries: &[u8], variables: &[u8]) {
    let alloc = page.alloc();
    let mut tables = Tables::new(alloc);
    tables.take(page, b"vars", variables);
    let job = link_job_with(alloc, &tables.vars, libraries, &tables.defs, b"x", 0);
    put_command(page, job);
}

fn put_two_words(page: &mut Page, first: &[u8], second: &[u8]) {
    let alloc = page.alloc();
    let mut all = Vec::new(alloc);
    if all.push(text_of(page, first)).is_err() {
        page.cut();
    }
    let mut words = Words::from_vec(all);
    page.given(words.push(second));
    if let Some(copy) = page.given(words.copy(alloc)) {
        put_words(page, &copy);
    }
    page.put(b"\n");
    put_words(page, &Words::new(alloc));
}

pub struct Commands;

impl RowCall for Commands {
    fn put(&self, page: &mut Page, given: &[u8]) {
        let alloc = page.alloc();
        let (call, text) = cut(given, b" ");
        match (call.first(), text) {
            (Some(b'w'), _) => put_under(page, text, b"", None, 0),
            (Some(b't'), _) => put_under(page, text, b"", None, 12),
            (Some(b'o'), _) => {
                let (libraries, variables) = cut(text, b";");
                put_linked(page, libraries, variables)
            }
            (Some(b'r'), _) => put_given_job(
                page,
                run_job(alloc, if text.starts_with(b"0") { 0 } else { 2 }),
            ),
            (Some(b'p'), _) => put_given_job(page, path_job(alloc, text)),
            _ => {
                let (first, second) = cut(text, b" ");
                put_two_words(page, first, second);
            }
        }
    }
}

fn put_header_test(page: &mut Page, definitions: &[u8]) {
    let source = header_source(page.alloc(), default_includes(), b"sys/stat.h");
    if let Some(source) = page.given(source) {
        put_under(page, b"CC=cc", definitions, Some(source.as_slice()), 1);
    }
}

fn put_source(page: &mut Page, given: &[u8]) {
    let alloc = page.alloc();
    let (kind, rest) = cut(given, b",");
    let (front, name) = cut(rest, b",");
    let source = match kind.first() {
        Some(b'p') => program_source(alloc, front, name),
        Some(b'h') => header_source(alloc, front, name),
        _ => function_source(alloc, name),
    };
    if let Some(source) = page.given(source) {
        page.put(source.as_slice());
    }
}

pub struct Sources;

impl RowCall for Sources {
    fn put(&self, page: &mut Page, given: &[u8]) {
        let (call, text) = cut(given, b" ");
        match call.first() {
            Some(b'c') => put_under(page, b"CC=cc", b"", Some(text), 1),
            Some(b'd') => put_header_test(page, text),
            _ => put_source(page, text),
        }
    }
}
