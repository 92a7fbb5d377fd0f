//! The check of a file of cases, and its report.

use crate::calling::NOTHING;
use crate::steps::put_file_case;
use std::alloc::AllocError;
use test_answers::{AnswerKind, kind_of, put_answer};
use test_rows::escaped::{has, note_cut, put_difference};
use test_rows::{Case, Page, Section, next_case, next_section, read_file};
use test_runs::{Given, MARK, read_given};

#[derive(Drop)]
pub struct Report {
    pub page: Page,
    pub is_right: bool,
}

/// The sections that say what a case gives.
const GIVEN: [&[u8]; 19] = [
    b"source",
    b"init",
    b"lines",
    b"template",
    b"input",
    b"piece",
    b"arguments",
    b"environment",
    b"cache",
    b"record",
    b"tags",
    b"replies",
    b"replies again",
    b"window",
    b"order",
    b"shown",
    b"refused put",
    b"refused put again",
    b"refused call",
];

/// Returns whether a section says what a case gives.
fn is_given(name: &[u8]) -> bool {
    has(&GIVEN, name) || name.starts_with(b"template ")
}

/// Returns whether an answer of the case has a mark.
fn is_marked(page: &mut Page, case: &Case<'_>) -> bool {
    let mut answers = Page::new(page.alloc());
    let mut rest = case.sections;
    for _ in 0..case.sections.len() {
        let Some((section, later)) = next_section(rest) else {
            break;
        };
        if kind_of(section.name).is_some() {
            section.put(&mut answers);
        }
        rest = later;
    }
    note_cut(page, &answers);
    answers.text().contains(&MARK)
}

/// Puts what a section wants, with the offset in the place of each mark.
fn put_wanted(page: &mut Page, section: &Section<'_>, mark: Option<usize>) {
    let Some(offset) = mark else {
        return section.put(page);
    };
    let mut text = Page::new(page.alloc());
    section.put(&mut text);
    note_cut(page, &text);
    for byte in text.text() {
        if *byte == MARK {
            page.put_number(offset);
        } else {
            page.put_byte(*byte);
        }
    }
}

/// Returns a text without newlines at its end.
fn without_newlines(text: &[u8]) -> &[u8] {
    let count = text.iter().rev().take_while(|b| **b == b'\n').count();
    &text[..text.len().saturating_sub(count)]
}

/// Puts what differs in an answer.
fn put_answer_difference(page: &mut Page, given: &Given, section: &Section<'_>, kind: AnswerKind) {
    let mut wanted = Page::new(page.alloc());
    put_wanted(&mut wanted, section, given.mark);
    let mut found = Page::new(page.alloc());
    put_answer(&mut found, kind, given);
    note_cut(page, &wanted);
    note_cut(page, &found);
    if kind.is_exact() {
        return put_difference(page, section.name, wanted.text(), found.text());
    }
    put_difference(
        page,
        section.name,
        without_newlines(wanted.text()),
        without_newlines(found.text()),
    );
}

/// Puts what differs in the answers of a case.
fn put_answers(page: &mut Page, case: &Case<'_>) {
    let is_marked = is_marked(page, case);
    let given = read_given(page, case, is_marked);
    let mut has_answer = false;
    let mut rest = case.sections;
    for _ in 0..case.sections.len() {
        let Some((section, later)) = next_section(rest) else {
            break;
        };
        if let Some(kind) = kind_of(section.name) {
            has_answer = true;
            put_answer_difference(page, &given, &section, kind);
        } else if !is_given(section.name) {
            page.put(section.name);
            page.put(b" is no section\n");
        }
        rest = later;
    }
    if !has_answer {
        page.put(b"no answer is wanted\n");
    }
}

/// Returns whether the sections of a case are steps.
fn has_steps(case: &Case<'_>) -> bool {
    case.own(b"run").is_some() || case.own(b"program").is_some() || case.own(b"calls").is_some()
}

/// Puts what differs in a case, and the name of its file and its own before that. Returns whether
/// nothing does.
fn check_case<'a>(page: &mut Page, rt: &'a HostRuntime, file: &[u8], case: &Case<'a>) -> bool {
    let mut found = Page::new(page.alloc());
    if has_steps(case) {
        put_file_case(&mut found, rt, case, NOTHING);
    } else {
        put_answers(&mut found, case);
    }
    note_cut(page, &found);
    if found.text().is_empty() {
        return true;
    }
    page.put(file);
    page.put(b": ");
    page.put(case.name);
    page.put(b": ");
    page.put(found.text());
    false
}

/// Puts the last line about a file.
fn put_summary(page: &mut Page, file: &[u8], count: usize, wrong: usize) {
    page.put(file);
    page.put(b": ");
    page.put_number(count);
    page.put(b" cases, ");
    if wrong == 0 {
        return page.put(b"all as they should be\n");
    }
    page.put_number(wrong);
    page.put(b" differ\n");
}

/// Puts what differs in the cases of a file, how many cases there are and how many differ. Returns
/// whether none does.
fn check_cases<'a>(page: &mut Page, rt: &'a HostRuntime, file: &[u8], text: &'a [u8]) -> bool {
    let (defaults, cases) = read_file(text);
    let mut rest = cases;
    let mut count: usize = 0;
    let mut wrong: usize = 0;
    for _ in 0..cases.len() {
        let Some((case, later)) = next_case(defaults, rest) else {
            break;
        };
        count = count.saturating_add(1);
        if !check_case(page, rt, file, &case) {
            wrong = wrong.saturating_add(1);
        }
        rest = later;
    }
    put_summary(page, file, count, wrong);
    wrong == 0
}

/// Checks the cases of a file, and says how many there are and how many differ.
pub fn check_file(rt: &HostRuntime, file: &[u8], text: &[u8]) -> Result<Report, AllocError> {
    let alloc = rt.alloc();
    let mut whole = Page::new(alloc);
    whole.put(b"\n");
    whole.put(text);
    let mut page = Page::new(alloc);
    note_cut(&mut page, &whole);
    let is_right = check_cases(&mut page, rt, file, whole.text());
    if page.is_cut() {
        return Err(AllocError);
    }
    Ok(Report { page, is_right })
}
