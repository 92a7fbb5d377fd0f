//! Tests that have begun, with the values that they were begun with.

use deftable::Bytes;
use test_forms::TestForm;

/// A test, with the values that it was begun with.
pub struct FormCourse {
    pub form: TestForm,
    /// The includes or the other libraries that the test was given, unless its name is set.
    pub given: Option<Bytes>,
    /// The cached name.
    pub name: Bytes,
}

impl Drop for FormCourse {
    fn drop(self) {
        let FormCourse {
            form: _form,
            given: _given,
            name: _name,
        } = self;
    }
}
