//! The errors that are found.

use lint_errors::{errors_of, read};
use lint_findings::Finding;
use std::alloc::{AllocError, Global};
use std::test::Fail;
use test_rows::{Page, RowCall, try_rows};

/// Puts the code of an error and its place.
fn put_error(page: &mut Page, text: &[u8], error: &Finding) {
    page.put(b" ");
    page.put(error.code.as_slice());
    page.put(b" ");
    page.put_number(error.start);
    page.put_text(
        text.get(error.start..error.end)
            .unwrap_or(b"not in the text"),
    );
}

fn put_errors(page: &mut Page, text: &[u8], errors: &[Finding]) {
    for error in errors {
        put_error(page, text, error);
    }
}

/// Returns the errors of a source.
fn found_in(alloc: Global, text: &[u8]) -> Result<Vec<Finding>, AllocError> {
    let reading = read(alloc, text)?;
    errors_of(alloc, text, &reading)
}

struct Errors;

impl RowCall for Errors {
    fn put(&self, page: &mut Page, given: &[u8]) {
        let made = found_in(page.alloc(), given);
        if let Some(errors) = page.given(made) {
            put_errors(page, given, &errors);
        }
    }
}

const ROWS: &[u8] = br##"
AC_INIT([a], [1])^JAC_OUTPUT =>
AC_INIT([a], [1])^JAC_PROG_AWK^JAC_OUTPUT =>  parse-2 18[AC_PROG_AWK]
// a macro whose name m4 takes for text
AC_INIT([a], [1])^JIT_PROG_INTLTOOL([0.35])^JAC_OUTPUT =>  parse-3 18[IT_PROG_INTLTOOL([0.35])]
// each call once
AC_INIT([a], [1])^JAC_A^JAC_B([AC_C])^JAS_IF([x], [AC_D])^JAC_OUTPUT =>  parse-2 18[AC_A] parse-2 23[AC_B] parse-2 48[AC_D]
// the first fault may come after a call that has to go
AC_INIT([a], [1])^JAC_DEFINE^JAC_A^JAC_OUTPUT =>  parse-4 18[AC_DEFINE] parse-2 28[AC_A]
AC_INIT([a], [1])^JAC_A =>  parse-2 18[AC_A]
// quotes
AC_INIT([a], [1])^JAC_A^J] =>  parse-1.3 23[]]
// nothing before AC_INIT, and nothing after AC_OUTPUT
x=1 =>  parse-8 0[x=1]
// what is before AC_INIT, after comments and AC_PREREQ
# a^Jdnl b^J AC_PREREQ([2.69]) # c^J^J  x=1^JAC_INIT([a], [1])^JAC_OUTPUT =>  parse-8 36[x=1]
# a^JAC_PROG_CC^JAC_INIT([a], [1])^JAC_OUTPUT =>  parse-8 4[AC_PROG_CC]
AC_INIT([a], [1]) =>  parse-9 17[]
AC_INIT([a], [1])^JAC_OUTPUT^J# c^J  x=1 =>  parse-10 34[x=1]
// the statement at fault
AC_INIT([a], [1])^Jx=1^J# y^Jif z; then^Jfi^JAC_OUTPUT =>  parse-3 26[if z; then]
AC_INIT([a], [1])^Jx='if;^J'; a=1 && b=2^JAC_OUTPUT =>  parse-3 28[a=1 && b=2]
AC_INIT([a], [1])^Jx=1\^J; y=`z` w=1^JAC_OUTPUT =>  parse-6.1 25[y=`z` w=1]
AC_INIT([a], [1])^Jx=[1;] y=2^J foo^JAC_OUTPUT =>  parse-3 30[foo]
// brackets in a comment of m4 don't quote
AC_INIT([a], [1])^Jx='#[][]'; y; c=1^JAC_OUTPUT =>  parse-3 29[y; c=1]
AC_INIT([a], [1])^JAS_IF([test x = y], [x=1^J  foo])^JAC_OUTPUT =>  parse-3 45[foo]
AC_INIT([a], [1])^JAC_SUBST([x], [a b; `c`])^JAC_OUTPUT =>  parse-6.1 32[[a b; `c`]]
"##;

#[test]
fn found_errors(rt: HostRuntime) -> Result<(), Fail> {
    try_rows(rt.alloc(), &Errors, ROWS)
}
