//! What a test prints and keeps, at its beginning and at its end.

ghost use Rattle.std.specs.Prelude.{◌≡◌, OnOk};
ghost use Rattle.meaning.specs.Batches.{yes_or_no};
ghost use Rattle.meaning.specs.Tests.{checking};
ghost use Rattle.run_forms.specs.Ends.{form_ended, heard_end, known};

use crate::course::FormCourse;
use crate::loan::Loan;
use crate::values::use_value;
use deftable::Stream;
use run_state::Store;
use run_state::pieces::{break_test, end_check, end_known_check};
use std::alloc::{AllocError, Global};

/// Prints what a test checks.
pub fn begin_form(alloc: Global, store: &mut Store, course: &FormCourse) -> Result<(), AllocError>
    ensures { OnOk result (store.new ≡ checking course.now.form.message store.old) }
{
    let piece = course.form.message_between(alloc, b"checking ", b"... ")?;
    store.put_piece(alloc, Stream::Out, piece)
}

/// Ends a test with a value: its name gets the value, the value is printed, and what is done with
/// it is done.
pub fn end_form(
    alloc: Global,
    store: &mut Store,
    course: &FormCourse,
    value: &[u8],
) -> Result<(), AllocError>
    ensures { OnOk result (store.new ≡ form_ended course.now value.now store.old) }
{
    store.set(course.name.as_slice(), value)?;
    end_check(alloc, store, value)?;
    use_value(alloc, store, &course.form, &Loan::some(value))
}

/// Ends a test with the value that its name had.
pub fn end_known(
    alloc: Global,
    store: &mut Store,
    course: &FormCourse,
    value: &[u8],
) -> Result<(), AllocError>
    ensures { OnOk result (store.new ≡ known course.now value.now store.old) }
{
    end_known_check(alloc, store, value)?;
    use_value(alloc, store, &course.form, &Loan::some(value))
}

/// Returns `yes` or `no`.
fn yes_or_no(found: bool) -> &'static [u8]
    ensures { result.now ≡ yes_or_no found }
{
    if found { b"yes" } else { b"no" }
}

/// Ends a test of one try with whether its child succeeded. If the child didn't answer, the test
/// breaks off: its name is unset, and the cut is printed.
pub fn end_heard(
    alloc: Global,
    store: &mut Store,
    course: &FormCourse,
    heard: Option<bool>,
) -> Result<(), AllocError>
    ensures { OnOk result (store.new ≡ heard_end heard course.now store.old) }
{
    match heard {
        Some(found) => end_form(alloc, store, course, yes_or_no(found)),
        None => break_test(alloc, store, course.name.as_slice()),
    }
}
