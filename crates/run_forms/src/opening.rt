//! Where a form becomes a course.

ghost use Rattle.std.specs.Prelude.{◌≡◌, IfOk};
ghost use Rattle.meaning.specs.Forms.{form_name, value_in};
ghost use Rattle.run_forms.specs.Courses.{Opens, bare_course, value_unless};

use crate::course::FormCourse;
use deftable::{Bytes, is_shell_name};
use m4quote::sh_name;
use run_state::Store;
use shellword::HereText;
use std::alloc::{AllocError, Global};
use test_forms::TestForm;

/// A test that a step begins: its course, and the value that its name has. If it has one, the
/// course is without the value that was given.
#[derive(Drop)]
pub struct Opening {
    pub course: FormCourse,
    pub value: Option<Bytes>,
}

/// Returns the cached name of a test. A text that is a name already isn't changed.
#[tactic(auto, using(crate::proofs::Named::test_name_stays))]
fn form_name(alloc: Global, form: &TestForm) -> Result<Bytes, AllocError>
    ensures { IfOk result (λ n. n ≡ form_name form.now) }
{
    let text = form.key_after(alloc, b"ac_cv_")?;
    if is_shell_name(text.as_slice()) {
        return Ok(text);
    }
    let name = sh_name(alloc, text.as_slice())?;
    Ok(Bytes::from_vec(name))
}

/// Returns the value of a text, if there is one.
pub fn value_in(
    alloc: Global,
    store: &Store,
    text: &Option<HereText>,
) -> Result<Option<Bytes>, AllocError>
    ensures { IfOk result (λ v. v ≡ value_in text.now store.now) }
{
    let Some(text) = text else {
        return Ok(None);
    };
    let value = store.here_text(alloc, text)?;
    Ok(Some(value))
}

/// Returns the value of a text, if there is one. If `known` is true, the name of the test is set,
/// and none is needed.
fn value_unless(
    alloc: Global,
    store: &Store,
    text: &Option<HereText>,
    known: bool,
) -> Result<Option<Bytes>, AllocError>
    ensures { IfOk result (λ v. v ≡ value_unless known text.now store.now) }
{
    if known {
        return Ok(None);
    }
    value_in(alloc, store, text)
}

/// Returns the course of a test without the value that it was given.
pub fn bare_course(alloc: Global, form: TestForm) -> Result<FormCourse, AllocError>
    ensures { IfOk result (λ c. c ≡ bare_course form) }
{
    let name = form_name(alloc, &form)?;
    Ok(FormCourse {
        form,
        given: None,
        name,
    })
}

/// Opens the test of a form, which was given these includes or other libraries.
pub fn open_form(
    alloc: Global,
    store: &Store,
    form: TestForm,
    given: &Option<HereText>,
) -> Result<Opening, AllocError>
    ensures { IfOk result (Opens (record { form = form; given = given.now }) store.now) }
{
    let name = form_name(alloc, &form)?;
    let value = store.value_of(alloc, name.as_slice())?;
    let given = value_unless(alloc, store, given, value.is_some())?;
    let course = FormCourse { form, given, name };
    Ok(Opening { course, value })
}
