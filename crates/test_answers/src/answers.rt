//! What the engine makes of what a case gives, as text.

use crate::calls::{can_resume, help_of, put_fault_line, run_filter, srcdir_in};
use crate::kinds::AnswerKind;
use acparse::{Source, Stmt};
use cmd_filter::{FilterFault, Filtered};
use test_rows::escaped::{note_cut, put_error, put_fault, put_text};
use test_rows::{Page, cut, number_of};
use test_runs::given::{arguments_of, lines_of, put_source_of};
use test_runs::{
    Given, RunView, View, put_each, put_new_lines, put_one, put_opening, put_rechecked, put_remade,
    put_run, put_second, put_variables, put_viewed, put_ways, read_source,
};
use test_trees::{put_counts, put_lists, put_statements};

/// Returns the statements of a source, without AC_INIT and AC_OUTPUT if the case gives the lines
/// between them.
fn own_statements(source: &Source, is_lines: bool) -> &[Stmt] {
    match source.statements() {
        [_, own @ .., _] if is_lines => own,
        all => all,
    }
}

fn put_help(page: &mut Page, source: &Source) {
    if let Some(help) = page.given(help_of(page.alloc(), source)) {
        page.put(help.as_slice());
    }
}

fn yes_or_no(answer: bool) -> &'static [u8] {
    if answer { b"yes" } else { b"no" }
}

/// Puts what a source that is read gives of these kinds.
fn put_read(page: &mut Page, kind: AnswerKind, given: &Given, source: &Source) {
    match kind {
        AnswerKind::Parsed => {
            put_statements(page, 0, own_statements(source, given.is_lines));
            put_lists(page, source);
        }
        AnswerKind::Counted => put_counts(page, own_statements(source, given.is_lines), source),
        AnswerKind::Variables => put_variables(page, source),
        AnswerKind::Opened => put_opening(page, given, source),
        AnswerKind::Help => put_help(page, source),
        AnswerKind::Fronts | AnswerKind::Sources => {
            page.put_number(source.statements().len());
            page.put(b" statements");
        }
        AnswerKind::Resumable => page.put(yes_or_no(can_resume(source))),
        AnswerKind::Run(view) => put_run(page, view, given, source),
        _ => {}
    }
}

/// Puts what a text that is a source gives, or its fault.
fn put_source(page: &mut Page, kind: AnswerKind, given: &Given, text: &[u8]) {
    match read_source(page.alloc(), text) {
        Ok(source) => put_read(page, kind, given, &source),
        Err(fault) => put_fault(page, b"parse ", &fault),
    }
}

/// Puts the fronts of these lengths, which are the same.
fn put_range(page: &mut Page, first: usize, last: usize, answer: &[u8]) {
    page.put_number(first);
    if first != last {
        page.put(b" to ");
        page.put_number(last);
    }
    page.put(b": ");
    page.put(answer);
    page.put(b"\n");
}

fn put_fronts(page: &mut Page, given: &Given) {
    let text = given.source();
    let mut first = 0;
    let mut answer = Page::new(page.alloc());
    put_source(&mut answer, AnswerKind::Fronts, given, b"");
    for len in 1..text.len() + 1 {
        let mut next = Page::new(page.alloc());
        put_source(&mut next, AnswerKind::Fronts, given, &text[..len]);
        note_cut(page, &next);
        if next.text() != answer.text() {
            put_range(page, first, len - 1, answer.text());
            first = len;
            answer = next;
        }
    }
    put_range(page, first, text.len(), answer.text());
}

fn put_sources(page: &mut Page, given: &Given) {
    let text = given.source();
    for len in 0..text.len() + 1 {
        let mut front = Page::new(page.alloc());
        put_source(&mut front, AnswerKind::Sources, given, &text[..len]);
        note_cut(page, &front);
        if front.text().ends_with(b" statements") {
            page.put_number(len);
            page.put(b"\n");
        }
    }
}

/// Puts what a run of the source does and leaves. If the case gives lines between AC_INIT and
/// AC_OUTPUT, it puts no variable and no definition that these two leave by themselves.
fn put_ran(page: &mut Page, kind: AnswerKind, given: &Given) {
    let mut whole = Page::new(page.alloc());
    put_source(&mut whole, kind, given, given.source());
    let mut usual = Page::new(page.alloc());
    if given.is_lines {
        put_usual(&mut usual, given);
    }
    note_cut(page, &whole);
    note_cut(page, &usual);
    let lines = lines_of(page, whole.text());
    let (_, usual) = cut(usual.text(), b"\n");
    put_new_lines(page, lines.as_slice(), usual);
}

/// Puts a line, and what AC_INIT and AC_OUTPUT leave by themselves.
fn put_usual(page: &mut Page, given: &Given) {
    let mut source = Page::new(page.alloc());
    put_source_of(&mut source, &given.case, b"", false);
    note_cut(page, &source);
    put_source(page, AnswerKind::Run(RunView::Whole), given, source.text());
}

/// Puts the fault line, without the name of the program and the newline.
fn put_filter_fault(page: &mut Page, fault: &FilterFault) {
    let mut line = Vec::new(page.alloc());
    put_fault_line(&mut line, fault);
    let line = line.as_slice();
    let line = line.strip_prefix(b"acrun: ").unwrap_or(line);
    put_error(page, line.strip_suffix(b"\n").unwrap_or(line));
}

/// Puts the status, what belongs on standard error, and what is written.
fn put_filtered_text(page: &mut Page, answer: &Filtered, written: &[u8]) {
    page.put_shown(&answer.status);
    if !answer.errors.is_empty() {
        page.put(b" ");
        put_text(page, answer.errors.as_slice());
    }
    if !written.is_empty() {
        page.put(b"\n");
        page.put(written);
    }
}

fn put_filtered(page: &mut Page, given: &Given) {
    let mut input = Page::new(page.alloc());
    given.put_input(&mut input);
    note_cut(page, &input);
    let piece = number_of(given.case.words(b"piece"));
    let mut written = Vec::new(page.alloc());
    match run_filter(page.alloc(), input.text(), piece, &mut written) {
        Ok(answer) => put_filtered_text(page, &answer, written.as_slice()),
        Err(fault) => put_filter_fault(page, &fault),
    }
}

fn put_srcdir(page: &mut Page, given: &Given) {
    let arguments = arguments_of(page, &given.case);
    put_text(page, srcdir_in(arguments.as_slice()));
}

/// Puts what a whole run leaves and hands over, with a call refused if the case says so.
fn put_configured(page: &mut Page, given: &Given) {
    match given.case.section(b"refused call") {
        Some(section) => put_one(page, given, section.words()),
        None => put_seen(page, given, View::Told),
    }
}

/// Puts what is to be seen of a whole run.
fn put_seen(page: &mut Page, given: &Given, view: View) {
    put_viewed(page, given, view);
}

/// Puts the answer of a kind.
pub fn put_answer(page: &mut Page, kind: AnswerKind, given: &Given) {
    match kind {
        AnswerKind::Fronts => put_fronts(page, given),
        AnswerKind::Sources => put_sources(page, given),
        AnswerKind::Filtered => put_filtered(page, given),
        AnswerKind::Srcdir => put_srcdir(page, given),
        AnswerKind::Run(RunView::Changes | RunView::Figures) => put_ran(page, kind, given),
        AnswerKind::Configured => put_configured(page, given),
        AnswerKind::ConfiguredAgain => put_second(page, given),
        AnswerKind::LogText => put_seen(page, given, View::Log),
        AnswerKind::RecordText => put_seen(page, given, View::Record),
        AnswerKind::Windows => put_ways(page, given),
        AnswerKind::RefusedCalls => put_each(page, given),
        AnswerKind::Remade => put_remade(page, given),
        AnswerKind::Rechecked => put_rechecked(page, given),
        _ => put_source(page, kind, given, given.source()),
    }
}
