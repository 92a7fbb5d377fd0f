//! Cases of the program over files: each section is a step, in a new directory.
//!
//! `lines`, `write`, `link`, `directory`, `remove`, `sized` and `in` change the directory,
//! `environment`, `input`, `replies`, `children`, `full` and `watched` say what the commands after
//! them are given, `run` and `program` are commands, `calls` has rows of calls, and `file` and
//! `list` are what is there.

use crate::calling::{Around, put_command, put_status};
use crate::rows::Calls;
use deftable::Bytes;
use std::fs::{DirEntry, File};
use std::os::unix::fs::symlink;
use std::{env, fs, io, str};
use test_rows::escaped::{note_cut, put_difference};
use test_rows::{Case, Page, Section, cut, next_section, put_differences};
use test_runs::given::{add, put_source_in, text_of, texts_of};

// ---- steps that change the directory

/// What a step changes.
#[derive(Clone, Copy)]
enum Change {
    Source,
    Write,
    Link,
    Directory,
    Remove,
    In,
    Sized,
}

/// Does a step on a file or a directory of this name.
fn change_named(rt: &HostRuntime, change: Change, name: &str, text: &[u8]) -> io::Result<()> {
    match change {
        Change::Link => symlink(rt, str::from_utf8(text).unwrap_or(""), name),
        Change::Directory => fs::create_dir(rt, name),
        Change::Remove => fs::remove_file(rt, name),
        Change::In => env::set_current_dir(rt, name),
        Change::Sized => File::create(rt, name)?.set_len(67_108_865),
        _ => fs::write(rt, name, text),
    }
}

/// Does a step, and puts whether it failed.
fn put_change(page: &mut Page, scene: &Scene<'_>, change: Change, section: &Section<'_>) {
    let (_, name) = cut(section.name, b" ");
    let mut text = Page::new(page.alloc());
    let name = match change {
        Change::Source => {
            put_source_in(&mut text, &scene.case, section, false);
            b"configure.ac"
        }
        _ => {
            section.put(&mut text);
            name
        }
    };
    note_cut(page, &text);
    let name = str::from_utf8(name).unwrap_or("");
    if change_named(scene.rt, change, name, text.text()).is_err() {
        page.put(section.name);
        page.put(b" fails\n");
    }
}

// ---- commands

/// Puts what differs if the first of sections is this answer and wants something else, or if it is
/// another section and the answer is not empty. Returns the sections after it.
fn put_checked<'a>(page: &mut Page, rest: &'a [u8], name: &[u8], found: &[u8]) -> &'a [u8] {
    if let Some((section, later)) = next_section(rest) {
        if section.name == name {
            let wanted = text_of(page, Some(section));
            put_difference(page, name, wanted.text(), found);
            return later;
        }
    }
    put_difference(page, name, b"", found);
    rest
}

/// Returns the words of a command. If a number of children at once is given, it comes before
/// `configure`.
fn words_of(page: &mut Page, around: &Around<'_>, section: &Section<'_>) -> Vec<Bytes> {
    let mut text = Page::new(page.alloc());
    if !around.window.is_empty() && section.words().starts_with(b"configure") {
        text.put(around.window);
        text.put(b"\n");
    }
    section.put(&mut text);
    note_cut(page, &text);
    texts_of(page, text.text())
}

/// Runs a command, and puts what differs in its status and its streams. Returns the sections after
/// its answers.
fn put_run<'a>(
    page: &mut Page,
    scene: &Scene<'_>,
    section: &Section<'_>,
    rest: &'a [u8],
) -> &'a [u8] {
    let words = words_of(page, &scene.around, section);
    let mut status = Page::new(page.alloc());
    let mut output = Vec::new(page.alloc());
    let mut errors = Vec::new(page.alloc());
    put_status(
        &mut status,
        scene.rt,
        &scene.around,
        words.as_slice(),
        &mut output,
        &mut errors,
    );
    note_cut(page, &status);
    let rest = put_checked(page, rest, b"status", status.text());
    let rest = put_checked(page, rest, b"output", output.as_slice());
    put_checked(page, rest, b"errors", errors.as_slice())
}

/// Runs a command as `main` does, and puts what differs in its status and its progress. Returns the
/// sections after its answers.
fn put_program<'a>(
    page: &mut Page,
    scene: &Scene<'_>,
    section: &Section<'_>,
    rest: &'a [u8],
) -> &'a [u8] {
    let words = words_of(page, &scene.around, section);
    let mut status = Page::new(page.alloc());
    let mut progress = Page::new(page.alloc());
    put_command(
        &mut status,
        &mut progress,
        scene.rt,
        &scene.around,
        words.as_slice(),
    );
    note_cut(page, &status);
    note_cut(page, &progress);
    let rest = put_checked(page, rest, b"status", status.text());
    put_checked(page, rest, b"progress", progress.text())
}

/// Puts the rows of calls that have another answer.
fn put_calls(page: &mut Page, scene: &Scene<'_>, section: &Section<'_>) {
    let rows = text_of(page, Some(*section));
    put_differences(page, &Calls { rt: scene.rt }, rows.text());
}

// ---- what is there

/// Puts what differs in a file.
fn put_file(page: &mut Page, scene: &Scene<'_>, section: &Section<'_>) {
    let (_, name) = cut(section.name, b" ");
    let wanted = text_of(page, Some(*section));
    match &fs::read(scene.rt, str::from_utf8(name).unwrap_or("")) {
        Ok(text) => put_difference(page, section.name, wanted.text(), text.as_slice()),
        Err(_) => {
            page.put(section.name);
            page.put(b" is not there\n");
        }
    }
}

/// Adds the name of an entry of a directory.
fn add_name(page: &mut Page, names: &mut Vec<String>, entry: &io::Result<DirEntry>) {
    let Ok(entry) = entry else {
        return page.cut();
    };
    let made = String::from_str(page.alloc(), entry.file_name());
    if let Some(name) = page.given(made) {
        add(page, names, name);
    }
}

/// Returns the names in the directory, in order.
fn names_here(page: &mut Page, rt: &HostRuntime) -> Vec<String> {
    let mut names = Vec::new(page.alloc());
    match fs::read_dir(rt, ".") {
        Ok(entries) => {
            for entry in entries {
                add_name(page, &mut names, &entry);
            }
        }
        Err(_) => page.cut(),
    }
    page.given(names.sort());
    names
}

/// Puts what differs in the names in the directory, a line each.
fn put_names(page: &mut Page, scene: &Scene<'_>, section: &Section<'_>) {
    let wanted = text_of(page, Some(*section));
    let mut found = Page::new(page.alloc());
    for name in &names_here(page, scene.rt) {
        found.put(name.as_bytes());
        found.put(b"\n");
    }
    note_cut(page, &found);
    let names = found.text().strip_suffix(b"\n").unwrap_or(b"");
    put_difference(page, section.name, wanted.text(), names);
}

// ---- steps

/// What the steps of a case share.
#[derive(Clone, Copy)]
struct Scene<'a> {
    rt: &'a HostRuntime,
    case: Case<'a>,
    around: Around<'a>,
}

/// What a verb asks for.
#[derive(Clone, Copy)]
enum Verb {
    Change(Change),
    Run,
    Program,
    File,
    List,
    Env,
    Input,
    Replies,
    Children,
    Full,
    Watched,
    Calls,
    /// Nothing: the case says it of all its steps.
    Nothing,
}

/// The verbs.
#[rattlefmt::skip]
const VERBS: [(&[u8], Verb); 20] = [
    (b"lines", Verb::Change(Change::Source)), (b"write", Verb::Change(Change::Write)), (b"link", Verb::Change(Change::Link)),
    (b"directory", Verb::Change(Change::Directory)), (b"remove", Verb::Change(Change::Remove)), (b"in", Verb::Change(Change::In)),
    (b"sized", Verb::Change(Change::Sized)), (b"run", Verb::Run), (b"program", Verb::Program), (b"file", Verb::File), (b"list", Verb::List),
    (b"environment", Verb::Env), (b"input", Verb::Input), (b"watched", Verb::Watched), (b"replies", Verb::Replies), (b"children", Verb::Children), (b"full", Verb::Full), (b"calls", Verb::Calls),
    (b"at", Verb::Nothing), (b"init", Verb::Nothing),
];

fn verb_of(word: &[u8]) -> Option<Verb> {
    for (known, verb) in &VERBS {
        if *known == word {
            return Some(*verb);
        }
    }
    None
}

/// Does a step that has no answer of its own, and puts what differs.
fn put_small<'a>(page: &mut Page, scene: &mut Scene<'a>, verb: Verb, section: &Section<'a>) {
    match verb {
        Verb::Change(change) => put_change(page, scene, change, section),
        Verb::File => put_file(page, scene, section),
        Verb::List => put_names(page, scene, section),
        Verb::Calls => put_calls(page, scene, section),
        Verb::Env => scene.around.env = section.words(),
        Verb::Input => scene.around.input = section.words(),
        Verb::Replies => scene.around.replies = section.words(),
        Verb::Children => scene.around.has_children = true,
        Verb::Full => scene.around.is_full = true,
        Verb::Watched => scene.around.is_watched = true,
        _ => {}
    }
}

/// Does a step, and puts what differs. Returns the sections after it.
fn put_step<'a>(
    page: &mut Page,
    scene: &mut Scene<'a>,
    section: &Section<'a>,
    rest: &'a [u8],
) -> &'a [u8] {
    match verb_of(cut(section.name, b" ").0) {
        Some(Verb::Run) => put_run(page, scene, section, rest),
        Some(Verb::Program) => put_program(page, scene, section, rest),
        Some(verb) => {
            put_small(page, scene, verb, section);
            rest
        }
        None => {
            page.put(section.name);
            page.put(b" is no step\n");
            rest
        }
    }
}

/// Does the steps of a case, and puts what differs.
fn put_steps<'a>(page: &mut Page, rt: &'a HostRuntime, case: &Case<'a>, around: Around<'a>) {
    let mut scene = Scene {
        rt,
        case: *case,
        around,
    };
    let mut rest = case.sections;
    for _ in 0..case.sections.len() {
        let Some((section, later)) = next_section(rest) else {
            break;
        };
        rest = put_step(page, &mut scene, &section, later);
    }
}

/// Goes to a new directory.
fn enter(rt: &HostRuntime) -> io::Result<()> {
    let _ = fs::remove_dir_all(rt, "row");
    fs::create_dir(rt, "row")?;
    env::set_current_dir(rt, "row")
}

/// Does the steps of a case in a new directory, and puts what differs.
pub fn put_case<'a>(page: &mut Page, rt: &'a HostRuntime, case: &Case<'a>, around: Around<'a>) {
    if enter(rt).is_err() {
        return page.put(b"there is no directory\n");
    }
    put_steps(page, rt, case, around);
    if env::set_current_dir(rt, "..").is_err() || fs::remove_dir_all(rt, "row").is_err() {
        page.put(b"the directory is not removed\n");
    }
}

// ---- several children at once

/// Options for the number of children at once.
const WINDOWS: &[u8] = b"-j1 -j2 -j3 -j16";

/// Does the steps of a case with so many children at once, and puts what differs.
fn put_at<'a>(page: &mut Page, rt: &'a HostRuntime, case: &Case<'a>, around: Around<'a>) {
    let mut found = Page::new(page.alloc());
    put_case(&mut found, rt, case, around);
    note_cut(page, &found);
    if !found.text().is_empty() {
        page.put(b"with ");
        page.put(around.window);
        page.put(if around.is_youngest_first {
            b", the youngest first:\n"
        } else {
            b", the oldest first:\n"
        });
        page.put(found.text());
    }
}

/// Does the steps of a case, and puts what differs. If it has a section `at each window`, so many
/// children may run at once as each of [`WINDOWS`] says, and either the oldest or the youngest ends
/// first.
pub fn put_file_case<'a>(
    page: &mut Page,
    rt: &'a HostRuntime,
    case: &Case<'a>,
    around: Around<'a>,
) {
    put_case(page, rt, case, around);
    if case.own(b"at each window").is_none() {
        return;
    }
    for window in WINDOWS.split(|byte| *byte == b' ') {
        let mut at = around;
        at.window = window;
        put_at(page, rt, case, at);
        at.is_youngest_first = true;
        put_at(page, rt, case, at);
    }
}
