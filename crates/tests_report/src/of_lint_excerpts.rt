//! How the errors of a source are shown.

use lint_errors::{errors_of, read};
use lint_excerpts::{excerpt_of, json_of};
use lint_findings::Finding;
use std::alloc::{AllocError, Global};
use std::test::Fail;
use test_rows::{Page, RowCall, try_rows};

/// Puts the first lines, with a bar after each, and with `~` for the marks, since `^` is no byte of
/// a row.
fn put_lines(page: &mut Page, text: &[u8]) {
    for line in text.split(|byte| *byte == b'\n').take(3) {
        page.put(b" ");
        for byte in line {
            page.put_byte(if *byte == b'^' { b'~' } else { *byte });
        }
        page.put(b"|");
    }
}

/// Puts the place, the message, the line and the mark of an error.
fn put_excerpt(page: &mut Page, text: &[u8], error: &Finding) {
    let made = excerpt_of(page.alloc(), error, b"a.ac", text, false);
    if let Some(shown) = page.given(made) {
        put_lines(page, shown.as_slice());
    }
}

/// Puts an error as JSON, up to its code.
fn put_object(page: &mut Page, text: &[u8], error: &Finding) {
    let made = json_of(page.alloc(), error, b"a\"\x7fb", text);
    if let Some(shown) = page.given(made) {
        let shown = shown.as_slice();
        page.put(&shown[..shown.len().min(109)]);
    }
}

fn put_excerpts(page: &mut Page, text: &[u8], errors: &[Finding]) {
    for error in errors {
        put_excerpt(page, text, error);
    }
}

fn put_objects(page: &mut Page, text: &[u8], errors: &[Finding]) {
    for error in errors {
        put_object(page, text, error);
    }
}

/// Returns the errors of a source.
fn found_in(alloc: Global, text: &[u8]) -> Result<Vec<Finding>, AllocError> {
    let reading = read(alloc, text)?;
    errors_of(alloc, text, &reading)
}

struct Excerpts;

impl RowCall for Excerpts {
    fn put(&self, page: &mut Page, given: &[u8]) {
        let made = found_in(page.alloc(), given);
        if let Some(errors) = page.given(made) {
            put_excerpts(page, given, &errors);
        }
    }
}

struct Objects;

impl RowCall for Objects {
    fn put(&self, page: &mut Page, given: &[u8]) {
        let made = found_in(page.alloc(), given);
        if let Some(errors) = page.given(made) {
            put_objects(page, given, &errors);
        }
    }
}

const EXCERPTS: &[u8] = br##"
AC_INIT([a], [1])^JAC_OUTPUT =>
AC_INIT([a], [1])^JAS_IF([:], [AX_Y])^JAC_OUTPUT =>  a.ac:2:13: error: acrun does not know the macro AX_Y|     2 | AS_IF([:], [AX_Y])|       |             ~~~~|
// a tab stays
AC_INIT([a], [1])^JAS_IF([:], [x='y'^IAX_Y])^JAC_OUTPUT =>  a.ac:2:19: error: acrun does not know the macro AX_Y|     2 | AS_IF([:], [x='y'^IAX_Y])|       |                  ^I~~~~|
// a control byte is shown as a number
AC_INIT([a], [1])^JAC_SUBST([x^[y])^JAC_OUTPUT =>  a.ac:2:10: error: AC_SUBST: `x\x1by` is not the name of a variable|     2 | AC_SUBST([x\x1by])|       |          ~~~~~~~~|
// the end of the file is marked by one column
AC_INIT([a], [1]) =>  a.ac:1:18: error: there is no AC_OUTPUT|     1 | AC_INIT([a], [1])|       |                  ~|
"##;

const OBJECTS: &[u8] = br##"
AC_INIT([a], [1])^JAX_Y^JAC_OUTPUT => {"file":"a\"\u007fb","line":2,"column":1,"end_line":2,"end_column":5,"severity":"error","code":"parse-2","mes
"##;

#[test]
fn excerpts_of_errors(rt: HostRuntime) -> Result<(), Fail> {
    try_rows(rt.alloc(), &Excerpts, EXCERPTS)
}

#[test]
fn objects_of_errors(rt: HostRuntime) -> Result<(), Fail> {
    try_rows(rt.alloc(), &Objects, OBJECTS)
}
