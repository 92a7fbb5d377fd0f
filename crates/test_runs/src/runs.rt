//! What a run begins with, what it does, and what it leaves.

use crate::calls::{Ran, read_settings, run_source};
use crate::given::{Given, arguments_of, environment_of, lines_of, order_in, replies_in, text_of};
use crate::recorder::put_command;
use acparse::Source;
use conftest::Job;
use crew::{Entry, Log, Reply};
use deftable::{Defs, Note, Stream, Vars};
use options::{OptionFault, Settings};
use plan::PlanFault;
use proberun::Outcome;
use test_rows::escaped::{has, note_cut, put_bracketed, put_count, put_fault, put_text, put_value};
use test_rows::{Page, number_of};

/// What is put of a run.
#[derive(Clone, Copy)]
pub enum RunView {
    /// What it does, and what it changes.
    Changes,
    /// The same, with all variables.
    Whole,
    /// Its figures, and what it changes.
    Figures,
    /// Its log.
    Log,
    /// Its conftests.
    Conftests,
}

/// Puts each variable, a line each.
pub fn put_vars(page: &mut Page, vars: &Vars) {
    for i in 0..vars.len() {
        let (name, value) = vars.at(i);
        put_value(page, name, value);
        page.put(b"\n");
    }
}

/// Puts those of the lines that are not known.
pub fn put_new_lines(page: &mut Page, lines: &[&[u8]], known: &[u8]) {
    let known = lines_of(page, known);
    for line in lines {
        if !line.is_empty() && !has(known.as_slice(), line) {
            page.put(line);
            page.put(b"\n");
        }
    }
}

/// Puts the variables whose lines are not known, a line each, in the order of the lines' bytes.
fn put_changes(page: &mut Page, vars: &Vars, known: &[u8]) {
    let mut text = Page::new(page.alloc());
    put_vars(&mut text, vars);
    note_cut(page, &text);
    let mut lines = lines_of(page, text.text());
    page.given(lines.sort());
    put_new_lines(page, lines.as_slice(), known);
}

fn put_named(page: &mut Page, word: &[u8], text: &[u8]) {
    page.put(word);
    put_bracketed(page, text);
    page.put(b"\n");
}

fn put_switch(page: &mut Page, is_on: bool, word: &[u8]) {
    if is_on {
        page.put(word);
    }
}

/// Puts the other settings: each that is not as it is without arguments.
fn put_settings(page: &mut Page, settings: &Settings) {
    if let Some(name) = &settings.cache_name {
        put_named(page, b"cache", name.as_slice());
    }
    if settings.srcdir.as_slice() != b".".as_slice() {
        put_named(page, b"sources", settings.srcdir.as_slice());
    }
    put_switch(page, settings.quiet, b"quiet\n");
    put_switch(page, settings.no_create, b"no create\n");
    put_switch(page, settings.help, b"help\n");
    put_switch(page, settings.version, b"version\n");
    for note in settings.notes.as_slice() {
        put_note(page, note);
    }
}

/// Puts a piece that is printed, with its stream.
pub fn put_note(page: &mut Page, note: &Note) {
    let word = match note.stream {
        Stream::Out => b"output".as_slice(),
        Stream::Err => b"error".as_slice(),
    };
    put_named(page, word, note.text.as_slice());
}

/// Puts each variable of a run without arguments and environment.
fn put_plain_vars(page: &mut Page, source: &Source) {
    match read_settings(page.alloc(), source, &[], &[]) {
        Ok(settings) => put_vars(page, &settings.vars),
        Err(_) => page.cut(),
    }
}

/// Puts all variables of a run without arguments and environment.
pub fn put_variables(page: &mut Page, source: &Source) {
    match read_settings(page.alloc(), source, &[], &[]) {
        Ok(settings) => put_changes(page, &settings.vars, b""),
        Err(_) => page.cut(),
    }
}

fn settings_of(page: &mut Page, given: &Given, source: &Source) -> Result<Settings, OptionFault> {
    let arguments = arguments_of(page, &given.case);
    let environment = environment_of(page, &given.case);
    read_settings(
        page.alloc(),
        source,
        arguments.as_slice(),
        environment.as_slice(),
    )
}

fn put_all_settings(page: &mut Page, source: &Source, settings: &Settings) {
    let mut usual = Page::new(page.alloc());
    put_plain_vars(&mut usual, source);
    note_cut(page, &usual);
    put_changes(page, &settings.vars, usual.text());
    put_settings(page, settings);
}

/// Puts what a run begins with that it doesn't without arguments and environment, or the fault of
/// the arguments.
pub fn put_opening(page: &mut Page, given: &Given, source: &Source) {
    match settings_of(page, given, source) {
        Ok(settings) => put_all_settings(page, source, &settings),
        Err(fault) => put_fault(page, b"option ", &fault),
    }
}

fn put_outcome(page: &mut Page, outcome: Outcome) {
    match outcome {
        Outcome::Completed => page.put(b"completed"),
        Outcome::Stopped(status) => {
            page.put(b"stopped ");
            page.put_shown(&status);
        }
        Outcome::CutShort(number) => {
            page.put(b"cut ");
            page.put_shown(&number);
        }
    }
    page.put(b"\n");
}

/// Puts a definition.
pub fn put_definition(page: &mut Page, name: &[u8], value: &[u8]) {
    page.put(b"#define ");
    put_text(page, name);
    page.put(b" ");
    put_text(page, value);
    page.put(b"\n");
}

/// Puts the definitions, in order.
pub fn put_definitions(page: &mut Page, defs: &Defs) {
    for i in 0..defs.len() {
        let (name, value) = defs.at(i);
        put_definition(page, name, value);
    }
}

/// Runs a source from these variables.
fn ran(page: &mut Page, given: &Given, source: &Source, vars: Vars) -> Result<Ran, PlanFault> {
    let replies = text_of(page, given.case.section(b"replies"));
    let replies = replies_in(page, replies.text());
    let window = number_of(given.case.words(b"window"));
    let order = order_in(page, given.case.words(b"order"));
    run_source(page.alloc(), source, vars, replies, order, window)
}

fn put_ran(page: &mut Page, ran: &Ran, before: &[u8]) {
    put_outcome(page, ran.end.outcome);
    note_cut(page, &ran.calls);
    page.put(ran.calls.text());
    put_changes(page, &ran.end.vars, before);
    put_definitions(page, &ran.end.defs);
}

/// Puts how many children were started, and how many there were at once.
fn put_children(page: &mut Page, calls: &[u8]) {
    let mut started: usize = 0;
    let mut running: usize = 0;
    let mut most: usize = 0;
    for line in calls.split(|byte| *byte == b'\n') {
        if line.starts_with(b"start ") {
            started = started.saturating_add(1);
            running = running.saturating_add(1);
        } else if line.starts_with(b"end ") {
            running = running.saturating_sub(1);
        }
        most = most.max(running);
    }
    put_count(page, b"started ", started);
    put_count(page, b"at once ", most);
}

/// Puts the figures of a run, and then the variables that are not in the lines before, the
/// definitions and what is printed.
fn put_measured(page: &mut Page, ran: &Ran, before: &[u8]) {
    put_outcome(page, ran.end.outcome);
    put_count(page, b"steps ", ran.steps);
    note_cut(page, &ran.calls);
    put_children(page, ran.calls.text());
    put_changes(page, &ran.end.vars, before);
    put_definitions(page, &ran.end.defs);
    for note in ran.end.messages.as_slice() {
        put_note(page, note);
    }
}

/// Puts a job and the reply to it.
fn put_child(page: &mut Page, job: &Job, reply: &Reply) {
    page.put(b"child");
    put_command(page, job);
    match reply {
        Reply::Answer { status, .. } => {
            page.put(b": ");
            page.put_shown(status);
        }
        Reply::StartRefused => page.put(b": start refused"),
        Reply::EndRefused => page.put(b": end refused"),
    }
    page.put(b"\n");
}

/// Puts the entries of a log, a line each.
fn put_log(page: &mut Page, log: &Log) {
    for entry in log.as_slice() {
        match entry {
            Entry::Said(note) => put_note(page, note),
            Entry::Child { job, reply } => put_child(page, job, reply),
        }
    }
}

/// Puts the name of a conftest, and then its lines.
fn put_conftest(page: &mut Page, name: &[u8], text: &[u8]) {
    put_text(page, name);
    page.put(b"\n");
    let lines = lines_of(page, text.strip_suffix(b"\n").unwrap_or(text));
    for line in lines.as_slice() {
        put_bracketed(page, line);
        page.put(b"\n");
    }
}

/// Puts the conftest of each child in a log that has one.
fn put_log_conftests(page: &mut Page, log: &Log) {
    for entry in log.as_slice() {
        if let Entry::Child { job, .. } = entry {
            if let Some((name, text)) = &job.file {
                put_conftest(page, name.as_slice(), text.as_slice());
            }
        }
    }
}

/// Puts what is to be seen of a run. Of the variables, it leaves out those in the lines before.
fn put_view(page: &mut Page, view: RunView, ran: &Ran, before: &[u8]) {
    match view {
        RunView::Log => put_log(page, &ran.end.log),
        RunView::Conftests => put_log_conftests(page, &ran.end.log),
        RunView::Figures => put_measured(page, ran, before),
        RunView::Changes | RunView::Whole => put_ran(page, ran, before),
    }
}

/// Puts what is to be seen of a run from these variables, or the fault of its plan.
fn put_run_from(page: &mut Page, view: RunView, given: &Given, source: &Source, vars: Vars) {
    let mut before = Page::new(page.alloc());
    if !matches!(view, RunView::Whole) {
        put_vars(&mut before, &vars);
    }
    note_cut(page, &before);
    match ran(page, given, source, vars) {
        Ok(ran) => put_view(page, view, &ran, before.text()),
        Err(fault) => put_fault(page, b"plan ", &fault),
    }
}

/// Puts what is to be seen of a run, or the fault of the arguments or of the plan. Of the
/// variables, it puts those that the run changed, or all if the whole is to be seen.
pub fn put_run(page: &mut Page, view: RunView, given: &Given, source: &Source) {
    match settings_of(page, given, source) {
        Ok(settings) => put_run_from(page, view, given, source, settings.vars),
        Err(fault) => put_fault(page, b"option ", &fault),
    }
}
