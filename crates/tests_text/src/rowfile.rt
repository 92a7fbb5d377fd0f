//! Files of rows: tables, each with the name of the call that it tries.
//!
//! A file has the form of a file of cases, without a case. A section is a table, and its name is
//! that of its call. If `large ` is before that, the rows are those of [`Large`]. Lines before the
//! first section are comments.

use test_rows::escaped::note_cut;
use test_rows::{Large, Page, RowCall, Section, next_section, put_differences, read_file};

/// Returns how many rows a table has.
fn rows_in(table: &[u8]) -> usize {
    let mut count: usize = 0;
    for row in table.split(|byte| *byte == b'\n') {
        if !row.is_empty() && !row.starts_with(b"// ") {
            count = count.saturating_add(1);
        }
    }
    count
}

/// Puts the rows of a table that have another answer, by the call of this name.
fn put_table<C: RowCall>(page: &mut Page, calls: &[(&[u8], C)], name: &[u8], table: &[u8]) {
    for (known, call) in calls {
        if *known == name {
            return put_differences(page, call, table);
        }
    }
    page.put(b"no such call\n");
}

/// Puts the rows of a section that have another answer, after its name. Returns how many rows it
/// has.
fn put_section<C: RowCall>(
    page: &mut Page,
    calls: &[(&[u8], C)],
    large: &[(&[u8], Large<C>)],
    section: &Section<'_>,
) -> usize {
    let mut table = Page::new(page.alloc());
    section.put(&mut table);
    let mut found = Page::new(page.alloc());
    match section.name.strip_prefix(b"large ") {
        Some(name) => put_table(&mut found, large, name, table.text()),
        None => put_table(&mut found, calls, section.name, table.text()),
    }
    note_cut(page, &table);
    note_cut(page, &found);
    if !found.text().is_empty() {
        page.put(section.name);
        page.put(b":\n");
        page.put(found.text());
    }
    rows_in(table.text())
}

/// Puts the rows of sections that have another answer. Returns how many rows there are.
fn put_sections<C: RowCall>(
    page: &mut Page,
    calls: &[(&[u8], C)],
    large: &[(&[u8], Large<C>)],
    sections: &[u8],
) -> usize {
    let mut count: usize = 0;
    let mut rest = sections;
    for _ in 0..sections.len() {
        let Some((section, later)) = next_section(rest) else {
            break;
        };
        count = count.saturating_add(put_section(page, calls, large, &section));
        rest = later;
    }
    count
}

/// Puts the last line about a file.
fn put_summary(page: &mut Page, file: &[u8], count: usize, is_right: bool) {
    page.put(file);
    page.put(b": ");
    page.put_number(count);
    page.put(if is_right {
        b" rows, all as they should be\n".as_slice()
    } else {
        b" rows, and some differ\n".as_slice()
    });
}

/// Puts the rows of a file that have another answer, and how many rows it has. Returns whether none
/// has another answer.
pub fn put_file<C: RowCall>(
    page: &mut Page,
    calls: &[(&[u8], C)],
    large: &[(&[u8], Large<C>)],
    file: &[u8],
    text: &[u8],
) -> bool {
    let mut whole = Page::new(page.alloc());
    whole.put(b"\n");
    whole.put(text);
    let mut found = Page::new(page.alloc());
    note_cut(&mut found, &whole);
    let (sections, _) = read_file(whole.text());
    let count = put_sections(&mut found, calls, large, sections);
    let is_right = found.text().is_empty() && !found.is_cut();
    page.put(found.text());
    put_summary(page, file, count, is_right);
    is_right
}
