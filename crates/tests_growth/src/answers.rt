//! Answers, compared with what is right.

use crate::wanted::Wanted;
use crew::{Entry, Event, Reply};
use deftable::{Bytes, Defs, Note, Stream, Vars};
use engine::{Artifact, Fault, Kind, Outcome, RemakeFault, Report};

/// What is found of a call.
#[derive(Clone, Copy, PartialEq, Eq)]
pub enum Verdict {
    /// It answers what it does with ample memory, and hands all of it over.
    Whole,
    /// It answers that memory ran out, and nothing is handed over.
    OutOfMemory,
    /// A put was refused because memory ran out, and the artifacts before it are handed over, each
    /// whole.
    PutRefused,
    /// It isn't called, since memory ran out before.
    NotCalled,
    /// Anything else.
    Wrong,
}

/// An artifact that is right: its kind, its name and the parts of its text.
pub type RightThing<'a> = (Kind, &'a [u8], &'a [&'a [u8]]);

/// What is right.
#[derive(Clone, Copy)]
pub struct Right<'a> {
    /// The parts of the text of the report, of the number of outputs or of the fault.
    pub answer: &'a [&'a [u8]],
    /// The number of the put that is refused, or 0.
    pub refused: u64,
    /// What is handed over.
    pub artifacts: &'a [RightThing<'a>],
}

/// What a call answers, without what it handed over.
#[derive(Clone, Copy, PartialEq, Eq)]
pub enum Told {
    /// The answer that is right, after this number of puts.
    Right(u64),
    /// The put of this number was refused, and the report is right.
    PutRefused(u64),
    OutOfMemory,
    Wrong,
}

// ---- reports

fn put_outcome(wanted: &mut Wanted, outcome: Outcome) {
    match outcome {
        Outcome::Completed => wanted.put(b"completed"),
        Outcome::Stopped(_) => wanted.put(b"stopped"),
        Outcome::CutShort(number) => {
            wanted.put(b"cut ");
            wanted.put_digit(number);
        }
        Outcome::Shown => wanted.put(b"shown"),
    }
}

/// Puts a piece, with `err` before it if it is for standard error.
fn put_note(wanted: &mut Wanted, note: &Note) {
    if note.stream == Stream::Err {
        wanted.put(b"err");
    }
    wanted.put_text(note.text.as_slice());
}

fn put_entry(wanted: &mut Wanted, name: &[u8], value: &[u8]) {
    wanted.put(b" ");
    wanted.put(name);
    wanted.put(b"=");
    wanted.put(value);
}

fn put_definitions(wanted: &mut Wanted, defs: &Defs) {
    for i in 0..defs.len() {
        let (name, value) = defs.at(i);
        put_entry(wanted, name, value);
    }
}

/// The variables that are compared.
const NAMES: [&str; 3] = ["ac_cv_header_sys_stat_h", "ac_cv_func_f", "ac_cv_func_g"];

fn put_variables(wanted: &mut Wanted, vars: &Vars) {
    for name in NAMES {
        if let Some(value) = vars.get(name.as_bytes()) {
            put_entry(wanted, name.as_bytes(), value.as_slice());
        }
    }
}

fn put_words(wanted: &mut Wanted, words: &[Bytes]) {
    for word in words {
        wanted.put(b" ");
        wanted.put(word.as_slice());
    }
}

fn put_file(wanted: &mut Wanted, file: &Option<(Bytes, Bytes)>) {
    if let Some((name, text)) = file {
        wanted.put(b" ");
        wanted.put(name.as_slice());
        wanted.put_text(text.as_slice());
    }
}

fn put_reply(wanted: &mut Wanted, reply: &Reply) {
    match reply {
        Reply::Answer { status, text } => {
            wanted.put_digit(*status as u64);
            wanted.put_text(text.as_slice());
        }
        Reply::StartRefused => wanted.put(b"S"),
        Reply::EndRefused => wanted.put(b"E"),
    }
}

/// Puts the words of a child, its file and the reply, or a piece.
fn put_logged(wanted: &mut Wanted, entry: &Entry) {
    match entry {
        Entry::Said(note) => put_note(wanted, note),
        Entry::Child { job, reply } => {
            wanted.put(b"$");
            put_words(wanted, job.words.as_slice());
            put_file(wanted, &job.file);
            wanted.put(b" ");
            put_reply(wanted, reply);
        }
    }
}

/// Puts the outcome, the pieces, the definitions, the variables of [`NAMES`] and the log.
fn put_report(wanted: &mut Wanted, report: &Report) {
    put_outcome(wanted, report.outcome);
    wanted.put(b" ");
    for note in report.messages.as_slice() {
        put_note(wanted, note);
    }
    put_definitions(wanted, &report.defs);
    put_variables(wanted, &report.vars);
    wanted.put(b" log ");
    for entry in report.log.as_slice() {
        put_logged(wanted, entry);
    }
}

fn is_report(report: &Report, answer: &[&[u8]]) -> bool {
    let mut wanted = Wanted::new(answer);
    put_report(&mut wanted, report);
    wanted.is_whole()
}

// ---- answers

/// What a call answers.
pub trait Answer {
    fn told(&self, answer: &[&[u8]]) -> Told;
}

impl Answer for Report {
    fn told(&self, answer: &[&[u8]]) -> Told {
        if is_report(self, answer) {
            Told::Right(self.handed)
        } else {
            Told::Wrong
        }
    }
}

fn told_of_put(number: u64, report: &Report, answer: &[&[u8]]) -> Told {
    if is_report(report, answer) && report.handed == number.saturating_sub(1) {
        Told::PutRefused(number)
    } else {
        Told::Wrong
    }
}

impl Answer for Fault {
    fn told(&self, answer: &[&[u8]]) -> Told {
        match self {
            Fault::OutOfMemory => Told::OutOfMemory,
            Fault::PutRefused(number, report) => told_of_put(*number, report, answer),
            _ => Told::Wrong,
        }
    }
}

/// Returns whether a word and a number of one digit are the whole answer.
fn told_of_number(word: &[u8], number: u64, answer: &[&[u8]], puts: u64) -> Told {
    let mut wanted = Wanted::new(answer);
    wanted.put(word);
    wanted.put_digit(number);
    if wanted.is_whole() {
        Told::Right(puts)
    } else {
        Told::Wrong
    }
}

impl Answer for usize {
    fn told(&self, answer: &[&[u8]]) -> Told {
        let count = *self as u64;
        told_of_number(b"", count, answer, count)
    }
}

impl Answer for RemakeFault {
    fn told(&self, answer: &[&[u8]]) -> Told {
        match self {
            RemakeFault::OutOfMemory => Told::OutOfMemory,
            RemakeFault::PutRefused(number) => Told::PutRefused(*number),
            RemakeFault::UnknownTag(number) => told_of_number(b"tag ", *number, answer, 0),
            _ => Told::Wrong,
        }
    }
}

/// Returns what a call answers. It sees no field of the answer, which makes its proof short.
pub fn told_of<T: Answer + Drop, E: Answer + Drop>(made: Result<T, E>, answer: &[&[u8]]) -> Told {
    match &made {
        Ok(value) => value.told(answer),
        Err(fault) => fault.told(answer),
    }
}

// ---- what is handed over

fn is_text(text: &[u8], parts: &[&[u8]]) -> bool {
    let mut wanted = Wanted::new(parts);
    wanted.put(text);
    wanted.is_whole()
}

fn is_artifact(artifact: &Artifact, right: &RightThing) -> bool {
    artifact.kind == right.0
        && artifact.name.as_slice() == right.1
        && is_text(artifact.text.as_slice(), right.2)
}

/// Returns whether these are the first of the artifacts that are right.
fn is_front(handed: &[Artifact], artifacts: &[RightThing]) -> bool {
    for i in 0..handed.len() {
        if i >= artifacts.len() || !is_artifact(&handed[i], &artifacts[i]) {
            return false;
        }
    }
    true
}

fn found_of_puts(is_all: bool, is_right: bool, otherwise: Verdict) -> Verdict {
    match (is_right, is_all) {
        (false, _) => Verdict::Wrong,
        (true, true) => Verdict::Whole,
        (true, false) => otherwise,
    }
}

/// Returns what is found of an answer and of what was handed over.
pub fn found_of(told: Told, handed: &[Artifact], right: &Right) -> Verdict {
    let count = handed.len() as u64;
    let is_all = handed.len() == right.artifacts.len();
    let is_right = is_front(handed, right.artifacts);
    match told {
        Told::Right(puts) => {
            let is_right = is_right && right.refused == 0 && puts == count;
            found_of_puts(is_all, is_right, Verdict::Wrong)
        }
        Told::PutRefused(number) => {
            let is_right = is_right && number == count.saturating_add(1);
            found_of_puts(
                is_all && number == right.refused,
                is_right,
                Verdict::PutRefused,
            )
        }
        Told::OutOfMemory if handed.is_empty() => Verdict::OutOfMemory,
        _ => Verdict::Wrong,
    }
}

// ---- calls of the crew

fn put_event(wanted: &mut Wanted, event: Event) {
    let (word, slot) = match event {
        Event::Started(slot) => (b"s".as_slice(), slot),
        Event::Refused(slot) => (b"r".as_slice(), slot),
        Event::Ended(slot) => (b"e".as_slice(), slot),
    };
    wanted.put(word);
    wanted.put_digit(slot as u64);
}

fn are_events(events: &[Event], right: &[u8]) -> bool {
    let parts = [right];
    let mut wanted = Wanted::new(&parts);
    for event in events {
        put_event(&mut wanted, *event);
    }
    wanted.is_whole()
}

/// Returns whether as many children ended as were started.
fn all_ended(events: &[Event]) -> bool {
    let mut started: usize = 0;
    let mut ended: usize = 0;
    for event in events {
        match *event {
            Event::Started(_) => started = started.saturating_add(1),
            Event::Ended(_) => ended = ended.saturating_add(1),
            Event::Refused(_) => {}
        }
    }
    started == ended
}

/// Returns what a run answers that had these calls of its crew. No child may be in flight.
pub fn told_with(events: &[Event], right: &[u8], told: Told) -> Told {
    let is_right = all_ended(events) && (told == Told::OutOfMemory || are_events(events, right));
    if is_right { told } else { Told::Wrong }
}
