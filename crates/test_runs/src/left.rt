//! What a whole run leaves and hands over, and what is made again, as text.

use crate::runs::{put_definition, put_definitions, put_note, put_vars};
use cfglog::log_text;
use crew::Event;
use deftable::{Bytes, Defs, Texts, Vars};
use engine::{Artifact, Fault, Kind, Outcome, RemakeFault, Report};
use test_rows::Page;
use test_rows::escaped::{put_bracketed, put_count, put_fault, put_text, put_value};

/// What is put of what a whole run leaves.
#[derive(Clone, Copy, PartialEq, Eq)]
pub enum View {
    /// All but the variables that are not asked for, the definitions of every run, the log, and the
    /// text of the record.
    Told,
    /// The text of the log.
    Log,
    /// The text of the record.
    Record,
    /// All of it, but for the calls of the crew.
    Whole,
}

fn put_outcome(page: &mut Page, outcome: Outcome) {
    match outcome {
        Outcome::Completed => page.put(b"completed\n"),
        Outcome::Stopped(status) => put_count(page, b"stopped ", status as usize),
        Outcome::CutShort(number) => {
            page.put(b"cut ");
            page.put_shown(&number);
            page.put(b"\n");
        }
        Outcome::Shown => page.put(b"shown\n"),
    }
}

/// Puts the outcome, how many artifacts were handed over, and the pieces.
fn put_end(page: &mut Page, report: &Report) {
    put_outcome(page, report.outcome);
    page.put(b"handed ");
    page.put_shown(&report.handed);
    page.put(b"\n");
    for message in report.messages.as_slice() {
        put_note(page, message);
    }
}

/// Puts the definitions but those that every run makes.
fn put_own_definitions(page: &mut Page, defs: &Defs) {
    for i in 0..defs.len() {
        let (name, value) = defs.at(i);
        if !name.starts_with(b"PACKAGE_") {
            put_definition(page, name, value);
        }
    }
}

/// Puts these variables, if they are set.
fn put_named_variables(page: &mut Page, vars: &Vars, names: &[u8]) {
    for name in names.split(|byte| *byte == b'\n') {
        if let Some(value) = vars.get(name) {
            put_value(page, name, value.as_slice());
            page.put(b"\n");
        }
    }
}

fn put_log(page: &mut Page, report: &Report) {
    let made = log_text(page.alloc(), report.log.as_slice());
    if let Some(text) = page.given(made) {
        page.put(text.as_slice());
    }
}

fn put_told(page: &mut Page, report: &Report, shown: &[u8]) {
    put_end(page, report);
    put_own_definitions(page, &report.defs);
    put_named_variables(page, &report.vars, shown);
}

fn put_all(page: &mut Page, report: &Report) {
    put_end(page, report);
    put_vars(page, &report.vars);
    put_definitions(page, &report.defs);
    put_log(page, report);
}

/// Puts what is to be seen of a report. `shown` has the names of variables.
fn put_report(page: &mut Page, report: &Report, view: View, shown: &[u8]) {
    match view {
        View::Told => put_told(page, report, shown),
        View::Log => put_log(page, report),
        View::Record => {}
        View::Whole => put_all(page, report),
    }
}

// ---- faults

/// Puts a word and a name.
fn put_template(page: &mut Page, name: &Bytes) {
    page.put(b"template ");
    put_text(page, name.as_slice());
}

/// Puts a fault, and the report of a put that was refused.
fn put_run_fault(page: &mut Page, fault: &Fault, view: View, shown: &[u8]) {
    match fault {
        Fault::Parse(fault) => put_fault(page, b"parse ", fault),
        Fault::Plan(fault) => put_fault(page, b"plan ", fault),
        Fault::Option(fault) => put_fault(page, b"option ", fault),
        Fault::Cache(fault) => put_fault(page, b"cache ", fault),
        Fault::Precious(fault) => put_fault(page, b"precious ", fault),
        Fault::NoTemplate(name) => put_template(page, name),
        Fault::PutRefused(number, report) => {
            put_fault(page, b"put ", number);
            page.put(b"\n");
            put_report(page, report, view, shown);
        }
        Fault::OutOfMemory => page.cut(),
    }
}

/// Puts a fault of making outputs again, or of the arguments of a record.
fn put_remake_fault(page: &mut Page, fault: &RemakeFault) {
    match fault {
        RemakeFault::Record(fault) => put_fault(page, b"record ", fault),
        RemakeFault::UnknownTag(number) => put_fault(page, b"tag ", number),
        RemakeFault::NoTemplate(name) => put_template(page, name),
        RemakeFault::PutRefused(number) => put_fault(page, b"put ", number),
        RemakeFault::NoArguments => page.put(b"no arguments"),
        RemakeFault::OutOfMemory => page.cut(),
    }
    page.put(b"\n");
}

// ---- answers

/// What a call answers.
pub trait Answer {
    /// Puts what is to be seen of it. `shown` has the names of variables.
    fn put(&self, page: &mut Page, view: View, shown: &[u8]);
}

impl Answer for Report {
    fn put(&self, page: &mut Page, view: View, shown: &[u8]) {
        put_report(page, self, view, shown);
    }
}

impl Answer for Fault {
    fn put(&self, page: &mut Page, view: View, shown: &[u8]) {
        put_run_fault(page, self, view, shown);
    }
}

impl Answer for usize {
    fn put(&self, page: &mut Page, _view: View, _shown: &[u8]) {
        put_count(page, b"made ", *self);
    }
}

impl Answer for Texts {
    fn put(&self, page: &mut Page, _view: View, _shown: &[u8]) {
        for text in self.as_slice() {
            put_bracketed(page, text.as_slice());
            page.put(b"\n");
        }
    }
}

impl Answer for RemakeFault {
    fn put(&self, page: &mut Page, _view: View, _shown: &[u8]) {
        put_remake_fault(page, self);
    }
}

/// Puts what is to be seen of an answer. It sees no field of the answer, which makes its proof
/// short.
pub fn put_found<T: Answer + Drop, E: Answer + Drop>(
    page: &mut Page,
    answer: Result<T, E>,
    view: View,
    shown: &[u8],
) {
    match &answer {
        Ok(value) => value.put(page, view, shown),
        Err(fault) => fault.put(page, view, shown),
    }
}

// ---- what is handed over

/// Puts the lines of a text, each in brackets with its newline.
fn put_lines(page: &mut Page, text: &[u8]) {
    for line in text.split_inclusive(|byte| *byte == b'\n') {
        put_bracketed(page, line);
        page.put(b"\n");
    }
}

/// Puts the kind and the name of an artifact, and its text if that is wanted.
fn put_artifact(page: &mut Page, artifact: &Artifact, has_text: bool) {
    page.put(match artifact.kind {
        Kind::Cache => b"cache ",
        Kind::Record => b"record ",
        Kind::File => b"file ",
        Kind::Header => b"header ",
    });
    put_text(page, artifact.name.as_slice());
    page.put(b"\n");
    if has_text {
        put_lines(page, artifact.text.as_slice());
    }
}

/// Puts artifacts and their texts, but that of the record.
fn put_told_artifacts(page: &mut Page, artifacts: &[Artifact]) {
    for artifact in artifacts {
        put_artifact(page, artifact, artifact.kind != Kind::Record);
    }
}

/// Puts artifacts and their texts.
pub fn put_whole_artifacts(page: &mut Page, artifacts: &[Artifact]) {
    for artifact in artifacts {
        put_artifact(page, artifact, true);
    }
}

/// Returns the text of the first artifact of this kind.
pub fn text_handed(artifacts: &[Artifact], kind: Kind) -> Option<&[u8]> {
    for artifact in artifacts {
        if artifact.kind == kind {
            return Some(artifact.text.as_slice());
        }
    }
    None
}

/// Puts what is to be seen of what was handed over.
pub fn put_artifacts(page: &mut Page, artifacts: &[Artifact], view: View) {
    match view {
        View::Told => put_told_artifacts(page, artifacts),
        View::Log => {}
        View::Record => page.put(text_handed(artifacts, Kind::Record).unwrap_or(b"no record")),
        View::Whole => put_whole_artifacts(page, artifacts),
    }
}

// ---- calls

/// Puts what a crew in memory did, a line each: `start SLOT`, `refused SLOT` and `end SLOT`.
pub fn put_events(page: &mut Page, events: &[Event]) {
    for event in events {
        let (word, slot) = match event {
            Event::Started(slot) => (b"start ".as_slice(), *slot),
            Event::Refused(slot) => (b"refused ".as_slice(), *slot),
            Event::Ended(slot) => (b"end ".as_slice(), *slot),
        };
        put_count(page, word, slot);
    }
}
