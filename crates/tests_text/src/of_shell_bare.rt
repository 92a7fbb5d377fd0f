//! Bare text.

use crate::told::{put_if, set};
use deftable::Vars;
use shell_bare::{Assignment, Assignments, read_statements};
use test_rows::{Page, RowCall};

/// What is told of the assignments of a text.
pub enum Told {
    /// Each with its value once the assignments before it are made.
    Assigned,
    /// How many there are, whether there is none, and each as it is taken from the list.
    Taken,
    /// How many there are if the text is repeated 100,000 times.
    Long,
}

pub const CALLS: [(&[u8], Told); 3] = [
    (b"assigned", Told::Assigned),
    (b"taken", Told::Taken),
    (b"long", Told::Long),
];

/// Puts an assignment, and makes it.
fn put_assignment(page: &mut Page, vars: &mut Vars, assignment: &Assignment) {
    let name = assignment.name.as_slice();
    if let Some(value) = page.given(assignment.value.value(page.alloc(), vars)) {
        put_if(page, !page.text().is_empty(), b" ");
        page.put(name);
        page.put_text(value.as_slice());
        set(page, vars, name, value.as_slice());
    }
}

fn put_assignments(page: &mut Page, list: &[Assignment]) {
    let mut vars = Vars::new(page.alloc());
    for assignment in list {
        put_assignment(page, &mut vars, assignment);
    }
}

impl Told {
    fn put_list(&self, page: &mut Page, list: Assignments) {
        match self {
            Told::Assigned => put_assignments(page, list.as_slice()),
            Told::Taken => {
                page.put_number(list.len());
                put_if(page, list.is_empty(), b" none");
                put_assignments(page, list.into_vec().as_slice());
            }
            Told::Long => page.put_number(list.len()),
        }
    }
}

impl RowCall for Told {
    fn put(&self, page: &mut Page, given: &[u8]) {
        let mut text = Page::new(page.alloc());
        let times = if let Told::Long = self { 100_000 } else { 1 };
        for _ in 0..times {
            text.put(given);
        }
        match read_statements(page.alloc(), text.text()) {
            Ok(list) => self.put_list(page, list),
            Err(fault) => page.put_shown(&fault),
        }
    }
}
