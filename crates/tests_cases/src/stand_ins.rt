//! This program as the stand-in for a compiler: the children of a crew that it is, of which the
//! start or the end may be refused.

ghost use Rattle.std.specs.Prelude.{◌≡◌, []};

use crate::calling::{command_over, status_of_children};
use conftest::compile_job;
use conftest_source::{default_includes, header_source};
use crew::{FuseKind, Fused, ProcessCrew};
use crew_refusals::Causes;
use crew_resume::Resumes;
use crew_tally::Children;
use deftable::{Bytes, Defs, Vars};
use runner::{ProcessTexts, words};
use std::env::Env;
use std::io;
use test_crews::children::{Work, put_real_children};
use test_crews::texts::{vars_of, words_of};
use test_rows::{Page, number_of};

// ---- the program that is played

/// Returns the exit status of the program with its own streams, if these are its name and the words
/// of the stand-in.
fn status_with(rt: &HostRuntime, words: &[Bytes]) -> Option<u8> {
    match words {
        [first, ..] if first.as_slice() == b"standin".as_slice() => Some(status_of_children(
            rt,
            words,
            &[],
            &mut rt.reader(),
            &mut io::writer(rt),
            &mut rt.stderr(),
        )),
        _ => None,
    }
}

/// Is the stand-in, and returns its exit status, if the arguments are those of the stand-in.
pub fn played(rt: &HostRuntime) -> Option<u8> {
    match &words(rt.alloc(), &ProcessTexts::new(rt)) {
        Ok(words) => status_with(rt, words.as_slice()),
        Err(_) => None,
    }
}

/// Puts the command of the compiler that is this program as the stand-in. It is run in a directory
/// below the one that the program was started in.
fn put_compiler(page: &mut Page, rt: &HostRuntime) {
    let mut name = [0; 4096];
    match rt.arg(0, &mut name) {
        Ok(len) => {
            if name[0] != b'/' {
                page.put(b"../");
            }
            page.put(&name[..len]);
            page.put(b" standin");
        }
        Err(_) => page.cut(),
    }
}

// ---- a child

/// Puts the end of the child that tries this source.
fn put_tried(page: &mut Page, rt: &HostRuntime, vars: &Vars, source: &[u8]) {
    match &compile_job(page.alloc(), vars, &Defs::new(page.alloc()), source, 1) {
        Ok(job) => put_real_children(page, rt, &Work { count: 1, job }),
        Err(fault) => page.put_shown(fault),
    }
}

/// Puts the end of the child that tests the header of these words.
pub fn put_header(page: &mut Page, rt: &HostRuntime, words: &[Bytes]) {
    let mut compiler = Page::new(page.alloc());
    put_compiler(&mut compiler, rt);
    let vars = vars_of(page, compiler.text());
    let header = word_at(words, 1);
    match &header_source(page.alloc(), default_includes(), header) {
        Ok(source) => put_tried(page, rt, &vars, source.as_slice()),
        Err(_) => page.cut(),
    }
}

/// Returns the word at an index, or nothing.
fn word_at(words: &[Bytes], at: usize) -> &[u8] {
    match words.get(at) {
        Some(word) => word.as_slice(),
        None => b"",
    }
}

// ---- a run of the whole program, of which a call may be refused

/// The call that is refused. None is if the number is 0.
#[derive(Clone, Copy)]
struct Cut {
    kind: FuseKind,
    k: usize,
}

/// Puts the exit status of the whole program over a crew that has started nothing, or over one
/// around it that refuses a call. What it prints goes to the streams of the process.
fn put_status<C: Resumes + Causes + Children + Drop>(
    page: &mut Page,
    rt: &HostRuntime,
    words: &[Bytes],
    mut inner: C,
    refused: Cut,
)
    requires crew { C.account inner ≡ record { events = []; attempts = 0; failures = 0 } }
{
    if refused.k == 0 {
        page.put_shown(&command_over(rt, words, &[], &mut inner));
        return;
    }
    let mut crew = Fused::new(inner, refused.kind, refused.k as u64);
    page.put_shown(&command_over(rt, words, &[], &mut crew));
}

/// Puts the same over real children.
fn put_over_children(page: &mut Page, rt: &HostRuntime, words: &[Bytes], refused: Cut) {
    let Ok(own) = rt.clone() else {
        return page.cut();
    };
    match ProcessCrew::new(own, rt.alloc()) {
        Ok(inner) => put_status(page, rt, words, inner, refused),
        Err(_) => page.cut(),
    }
}

/// Puts a run with that compiler, of which these words say whether a start or an end is refused,
/// and its number.
pub fn put_refused(page: &mut Page, rt: &HostRuntime, words: &[Bytes]) {
    let mut command = Page::new(page.alloc());
    command.put(b"configure,-C,CC=");
    put_compiler(&mut command, rt);
    let command = words_of(page, command.text());
    let kind = match word_at(words, 1) {
        b"start" => FuseKind::Start,
        _ => FuseKind::End,
    };
    let k = number_of(word_at(words, 2));
    put_over_children(page, rt, command.as_slice(), Cut { kind, k });
}
