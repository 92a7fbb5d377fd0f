//! What a case gives: a source, and what it is read or run with.

use deftable::Bytes;
pub use test_crews::replies::{add, bytes_of, order_in, replies_in};
use test_rows::escaped::note_cut;
use test_rows::{Case, Page, Section, cut};
use text_cut::parts;

/// The mark in a source, for whose offset an answer has it too.
pub const MARK: u8 = b'^';

/// What a case gives.
pub struct Given<'a> {
    /// The case.
    pub case: Case<'a>,
    /// The source, or instead of it the filter's input, without the mark.
    text: Page,
    /// Whether the text is the filter's input.
    is_input: bool,
    /// Whether the case gives lines between AC_INIT and AC_OUTPUT, and no whole source.
    pub is_lines: bool,
    /// The offset of the mark in the text.
    pub mark: Option<usize>,
}

impl Drop for Given<'_> {
    fn drop(self) {
        let Given {
            case: _case,
            text: _text,
            is_input: _is_input,
            is_lines: _is_lines,
            mark: _mark,
        } = self;
    }
}

impl Given<'_> {
    /// Returns the source: nothing if the case gives the filter's input instead.
    pub fn source(&self) -> &[u8] {
        if self.is_input { b"" } else { self.text.text() }
    }

    /// Puts the filter's input: the source, a line `%%` and the template.
    pub fn put_input(&self, page: &mut Page) {
        page.put(self.text.text());
        if self.is_input {
            return;
        }
        if !self.text.text().ends_with(b"\n") {
            page.put(b"\n");
        }
        page.put(b"%%\n");
        if let Some(section) = self.case.section(b"template") {
            section.put(page);
        }
    }
}

/// Puts the source of these lines: AC_INIT before them, AC_OUTPUT after them, and with a template
/// its file.
pub fn put_source_of(page: &mut Page, case: &Case<'_>, lines: &[u8], has_template: bool) {
    match case.section(b"init") {
        Some(section) => section.put(page),
        None => page.put(b"AC_INIT([x],[1])"),
    }
    page.put(b"\n");
    if has_template {
        page.put(b"AC_CONFIG_FILES([f])\n");
    }
    page.put(lines);
    page.put(b"\nAC_OUTPUT\n");
}

/// Puts the source of the lines of a section.
pub fn put_source_in(page: &mut Page, case: &Case<'_>, section: &Section<'_>, has_template: bool) {
    let mut lines = Page::new(page.alloc());
    section.put(&mut lines);
    note_cut(page, &lines);
    put_source_of(page, case, lines.text(), has_template);
}

/// Puts the source that a case gives: nothing if it gives none.
fn put_source(page: &mut Page, case: &Case<'_>, has_template: bool) {
    if let Some(section) = case.own(b"source") {
        return section.put(page);
    }
    if let Some(section) = case.section(b"lines") {
        put_source_in(page, case, &section, has_template);
    }
}

/// Puts the source that a case gives, or instead of it the filter's input, and returns whether it
/// is that.
fn put_written(page: &mut Page, case: &Case<'_>, has_template: bool) -> bool {
    match case.section(b"input") {
        Some(section) => section.put(page),
        None => put_source(page, case, has_template),
    }
    case.section(b"input").is_some()
}

/// Puts a text without its first mark, and returns the offset of that. If there is no mark to be
/// taken out, it is the whole.
fn put_unmarked(page: &mut Page, text: &[u8], is_marked: bool) -> Option<usize> {
    let (before, after) = cut(text, &[MARK]);
    if !is_marked || before.len() == text.len() {
        page.put(text);
        return None;
    }
    page.put(before);
    page.put(after);
    Some(before.len())
}

/// Returns what a case gives. `is_marked` says whether an answer of it has a mark.
pub fn read_given<'a>(page: &mut Page, case: &Case<'a>, is_marked: bool) -> Given<'a> {
    let has_template = case.section(b"template").is_some();
    let mut written = Page::new(page.alloc());
    let is_input = put_written(&mut written, case, has_template);
    let mut text = Page::new(page.alloc());
    let mark = put_unmarked(&mut text, written.text(), is_marked);
    note_cut(page, &written);
    note_cut(page, &text);
    Given {
        case: *case,
        text,
        is_input,
        is_lines: case.own(b"source").is_none(),
        mark,
    }
}

/// Returns the text of a section: none if there is no such section.
pub fn text_of(page: &mut Page, section: Option<Section<'_>>) -> Page {
    let mut text = Page::new(page.alloc());
    if let Some(section) = section {
        section.put(&mut text);
    }
    note_cut(page, &text);
    text
}

/// Returns the lines of a text: none of an empty one.
pub fn lines_of<'a>(page: &mut Page, text: &'a [u8]) -> Vec<&'a [u8]> {
    let alloc = page.alloc();
    if text.is_empty() {
        return Vec::new(alloc);
    }
    page.given(parts(alloc, text, b'\n'))
        .unwrap_or(Vec::new(alloc))
}

/// Returns the lines of a section.
pub fn texts_in(page: &mut Page, section: Option<Section<'_>>) -> Vec<Bytes> {
    let text = text_of(page, section);
    texts_of(page, text.text())
}

/// Returns the lines of a text: none of an empty one.
pub fn texts_of(page: &mut Page, text: &[u8]) -> Vec<Bytes> {
    let lines = lines_of(page, text);
    let mut texts = Vec::new(page.alloc());
    for line in lines.as_slice() {
        let line = bytes_of(page, line);
        add(page, &mut texts, line);
    }
    texts
}

/// Returns the arguments that a case gives.
pub fn arguments_of(page: &mut Page, case: &Case<'_>) -> Vec<Bytes> {
    texts_in(page, case.section(b"arguments"))
}

/// Returns the entries of an environment, each of which is a line `NAME=VALUE`.
pub fn entries_of(page: &mut Page, text: &[u8]) -> Vec<(Bytes, Bytes)> {
    let lines = lines_of(page, text);
    let mut entries = Vec::new(page.alloc());
    for line in lines.as_slice() {
        let (name, value) = cut(line, b"=");
        let name = bytes_of(page, name);
        let value = bytes_of(page, value);
        add(page, &mut entries, (name, value));
    }
    entries
}

/// Returns the environment that a case gives.
pub fn environment_of(page: &mut Page, case: &Case<'_>) -> Vec<(Bytes, Bytes)> {
    let text = text_of(page, case.section(b"environment"));
    entries_of(page, text.text())
}
