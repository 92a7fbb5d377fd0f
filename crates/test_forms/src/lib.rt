//! The cached tests of macros as data: what a test looks for, what it prints, what it tries, when
//! it ends, and what its value gives.
//!
//! Each macro has one function, which says the form of its test as Autoconf's manual says it in a
//! paragraph. The form of AC_CHECK_HEADER([sys/stat.h]) looks for `sys/stat.h`, has the key
//! `header_sys/stat.h`, prints `for sys/stat.h`, tries to compile a program that includes the
//! header, has the value `yes` if that succeeds and `no` otherwise, and gives nothing.
//!
//! A form has no text that depends on the variables of a run. Its names may have any bytes: a key
//! becomes a cached name, and a text that is defined becomes a symbol, when the test runs. A form
//! holds what its macro was given, and makes each text when it is asked for. A try keeps which
//! program it compiles, and the program is made when the try's turn comes.
//!
//! A call that returns a `Result` fails only if memory runs out.
//!
//! Read `form` and `specs/Form`, which have the types, and then `specs/Macros` and `forms`.
#![tactic(auto)]

pub mod form;
pub mod forms;

pub use form::{Gives, Says, Snippet, TryForm};
pub use forms::{
    TestForm, declaration_form, function_form, header_form, library_form, search_form, type_form,
};
