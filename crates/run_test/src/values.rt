//! What a test is called, checks and shows, and what is done with its value: a row for each course.

ghost use Rattle.std.specs.Prelude.{◌≡◌, OnOk, option_map};
ghost use Rattle.meaning.specs.Rows.{text_or_no};
ghost use Rattle.meaning.specs.Tests.{checking};
ghost use Rattle.run_test.specs.Courses.{message_in, name_in, otherwise_in, scope_in, shown_in, used_in};

use crate::course::Course;
use run_forms::{Loan, begin_form, is_found, lent};
use run_state::pieces::begin_search;
use run_state::{About, Store};
use std::alloc::{AllocError, Global};

/// Returns the name of a test.
pub fn name_of(course: &Course) -> &[u8]
    ensures { result.now ≡ name_in course.now }
{
    match course {
        Course::Program { search, .. } => search.name.as_slice(),
        Course::Formed { course } => course.name.as_slice(),
    }
}

/// Prints what a test checks.
pub(crate) fn begin_message(
    alloc: Global,
    store: &mut Store,
    course: &Course,
) -> Result<(), AllocError>
    ensures { OnOk result (store.new ≡ checking (message_in course.now) store.old) }
{
    match course {
        Course::Program { search, .. } => begin_search(alloc, store, search.program.as_slice()),
        Course::Formed { course } => begin_form(alloc, store, course),
    }
}

/// Returns the value of a test if no attempt ends it.
pub(crate) fn otherwise_of(course: &Course) -> Option<&[u8]>
    ensures { option_map (λ v. v.now) result ≡ otherwise_in course.now }
{
    match course {
        Course::Program { search, .. } => lent(&search.otherwise),
        Course::Formed { course } => Some(course.form.otherwise()),
    }
}

/// Returns a text, or `no` if it is empty.
fn text_or_no(text: &[u8]) -> &[u8]
    ensures { result.now ≡ text_or_no text.now }
{
    if text.is_empty() {
        return b"no";
    }
    text
}

/// Returns what is printed of a value.
pub(crate) fn shown_of<'a>(course: &Course, value: &Loan<'a>) -> &'a [u8]
    ensures { result.now ≡ shown_in course.now value.now }
{
    match course {
        Course::Program { .. } => text_or_no(value.text_or_empty()),
        Course::Formed { .. } => value.text_or_empty(),
    }
}

/// Does what is done with the value of a test.
pub(crate) fn use_value(
    alloc: Global,
    store: &mut Store,
    course: &Course,
    value: &Loan,
) -> Result<(), AllocError>
    ensures { OnOk result (store.new ≡ used_in course.now value.now store.old) }
{
    match course {
        Course::Program { search, .. } => store.set(
            search.variable.as_slice(),
            value.text_or_empty(),
        ),
        Course::Formed { course } => run_forms::use_value(alloc, store, &course.form, value),
    }
}

/// Answers the question of the choice with the value of a test, unless it is a program's.
pub(crate) fn answer(alloc: Global, about: &mut About, course: &Course, value: &Loan)
    ensures { about.new ≡ scope_in course.now value.now about.old }
{
    match course {
        Course::Program { .. } => {}
        Course::Formed { course } => {
            *about = About::answer(alloc, is_found(&course.form.says(), value))
        }
    }
}
