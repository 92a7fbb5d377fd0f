//! The form of a file of cases, which `crates/tests_cases/data/README` describes.
//!
//! A line `=== NAME` begins a case, a line `--- NAME` a section of it. The newline before such a
//! line is no part of the text before it, nor is the file's last one. Sections before the first
//! case hold for each case that has none of the same name. Lines before the first of both are
//! comments.

use crate::page::Page;
use crate::table::cut;
use crate::texts::{put_repeated, put_unescaped};

/// How the text of a section is written.
#[derive(Clone, Copy)]
enum CaseForm {
    Plain,
    /// `--- NAME (escaped)`
    Escaped,
    /// `--- NAME (repeated)`
    Repeated,
}

#[derive(Clone, Copy)]
pub struct Section<'a> {
    pub name: &'a [u8],
    form: CaseForm,
    text: &'a [u8],
}

#[derive(Clone, Copy)]
pub struct Case<'a> {
    pub name: &'a [u8],
    /// Its sections, each with the newline before it.
    pub sections: &'a [u8],
    /// The sections that hold for each case.
    defaults: &'a [u8],
}

/// Returns a text before the first mark, and from the mark on.
fn split_before<'a>(text: &'a [u8], mark: &[u8]) -> (&'a [u8], &'a [u8]) {
    for at in 0..text.len() {
        if text[at..].starts_with(mark) {
            return (&text[..at], &text[at..]);
        }
    }
    (text, b"")
}

/// Returns the first of sections, and those after it.
pub fn next_section(sections: &[u8]) -> Option<(Section<'_>, &[u8])> {
    let (section, rest) = split_before(sections.strip_prefix(b"\n--- ")?, b"\n--- ");
    let (header, text) = cut(section, b"\n");
    let (name, form) = if let Some(name) = header.strip_suffix(b" (escaped)") {
        (name, CaseForm::Escaped)
    } else if let Some(name) = header.strip_suffix(b" (repeated)") {
        (name, CaseForm::Repeated)
    } else {
        (header, CaseForm::Plain)
    };
    Some((Section { name, form, text }, rest))
}

/// Returns the section of this name.
fn find_section<'a>(sections: &'a [u8], name: &[u8]) -> Option<Section<'a>> {
    let mut rest = sections;
    for _ in 0..sections.len() {
        let (section, later) = next_section(rest)?;
        if section.name == name {
            return Some(section);
        }
        rest = later;
    }
    None
}

impl<'a> Section<'a> {
    /// Puts the text that is meant.
    pub fn put(&self, page: &mut Page) {
        match self.form {
            CaseForm::Plain => page.put(self.text),
            CaseForm::Escaped => put_unescaped(page, self.text, 0),
            CaseForm::Repeated => put_repeated(page, self.text),
        }
    }

    /// Returns the text as it is written.
    pub fn words(&self) -> &'a [u8] {
        self.text
    }
}

impl<'a> Case<'a> {
    /// Returns the section of the case itself that has this name.
    pub fn own(&self, name: &[u8]) -> Option<Section<'a>> {
        find_section(self.sections, name)
    }

    /// Returns the section of this name, of the case or for each case.
    pub fn section(&self, name: &[u8]) -> Option<Section<'a>> {
        match self.own(name) {
            Some(section) => Some(section),
            None => find_section(self.defaults, name),
        }
    }

    /// Returns the text of the section of this name as it is written: nothing if there is none.
    pub fn words(&self, name: &[u8]) -> &'a [u8] {
        match self.section(name) {
            Some(section) => section.text,
            None => b"",
        }
    }
}

/// Returns the sections that hold for each case of a file, and its cases. The text has a newline
/// before its first line.
pub fn read_file(text: &[u8]) -> (&[u8], &[u8]) {
    let (head, cases) = split_before(text.strip_suffix(b"\n").unwrap_or(text), b"\n=== ");
    let (_, defaults) = split_before(head, b"\n--- ");
    (defaults, cases)
}

/// Returns the first of cases, and those after it.
pub fn next_case<'a>(defaults: &'a [u8], cases: &'a [u8]) -> Option<(Case<'a>, &'a [u8])> {
    let (case, rest) = split_before(cases.strip_prefix(b"\n=== ")?, b"\n=== ");
    let (head, sections) = split_before(case, b"\n--- ");
    let (name, _) = cut(head, b"\n");
    Some((
        Case {
            name,
            sections,
            defaults,
        },
        rest,
    ))
}
