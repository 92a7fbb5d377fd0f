//! What a run does for the test of a form: how it opens, its attempts, and its end, of any form.
//!
//! Say that the form is that of AC_SEARCH_LIBS([cos], [m]). [`open_form`] finds that
//! `ac_cv_search_cos` is unset. [`begin_form`] prints `checking for library containing cos... `.
//! [`attempt_at`] makes the job that links the function with no further library, and then the one
//! with `-lm`. If the second succeeds, [`end_form`] sets the cached name to `-lm`, prints it, and
//! [`use_value`] puts it before LIBS.
//!
//! No function has a case for a macro. [`attempt_at`] has a case for each [`Snippet`], and
//! [`use_value`] one for each [`Gives`]. The laws on [`courses_are_tests`] say that the course of a
//! form has the row that `meaning` gives the test.
//!
//! A list whose tests are asked for at once makes its jobs with [`test_job`], and ends each test by
//! [`end_known`] or [`end_heard`].
//!
//! A call that returns a `Result` fails only if memory runs out. Read `specs/Courses` first.
//!
//! [`Snippet`]: test_forms::Snippet
//! [`Gives`]: test_forms::Gives
#![tactic(auto)]

ghost use Rattle.run_forms.specs.Laws.{CountsAreOfAttempts, KnownAreBare, RowsAreOfCourses, UsedLeaveNames};

mod attempts;
mod course;
mod ends;
mod loan;
mod opening;
mod values;

pub use attempts::{Attempt, attempt_at, test_job};
pub use course::FormCourse;
pub use ends::{begin_form, end_form, end_heard, end_known};
pub use loan::{Loan, lent};
pub use opening::{Opening, bare_course, open_form, value_in};
pub use values::{is_found, use_value};

/// A course has the row of its form, as many attempts as the form has tries, and leaves its name
/// when its value is used. If the name is set, the value that was given doesn't count.
pub fn courses_are_tests()
    ensures rows { RowsAreOfCourses }
    ensures counts { CountsAreOfAttempts }
    ensures names { UsedLeaveNames }
    ensures bare { KnownAreBare }
{}
