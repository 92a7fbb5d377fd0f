//! The errors that are found by reading on after each.

use lint_all::all_errors;
use lint_errors::read;
use lint_findings::Finding;
use std::alloc::{AllocError, Global};
use std::test::Fail;
use test_rows::{Page, RowCall, try_rows};

/// Puts the code of an error and its text.
fn put_error(page: &mut Page, text: &[u8], error: &Finding) {
    page.put(b" ");
    page.put(error.code.as_slice());
    page.put(b" ");
    page.put_number(error.start);
    page.put_text(
        text.get(error.start..error.end)
            .unwrap_or(b"not in the text"),
    );
}

fn put_errors(page: &mut Page, text: &[u8], errors: &[Finding]) {
    for error in errors {
        put_error(page, text, error);
    }
}

/// Returns all errors of a source.
fn found_in(alloc: Global, text: &[u8]) -> Result<Vec<Finding>, AllocError> {
    let reading = read(alloc, text)?;
    all_errors(alloc, text, &reading)
}

struct AllErrors;

impl RowCall for AllErrors {
    fn put(&self, page: &mut Page, given: &[u8]) {
        let made = found_in(page.alloc(), given);
        if let Some(errors) = page.given(made) {
            put_errors(page, given, &errors);
        }
    }
}

const ROWS: &[u8] = br##"
AC_INIT([a], [1])^JAC_OUTPUT =>
// faults after the first, and after an unknown call
AC_INIT([a], [1])^JAC_DEFINE^JAC_SUBST([a-b])^JAC_A^Jx y^JAC_OUTPUT =>  parse-4 18[AC_DEFINE] parse-5 37[[a-b]] parse-2 44[AC_A] parse-3 49[x y]
AC_INIT([a], [1])^JAC_A^JAC_DEFINE^JAC_OUTPUT =>  parse-2 18[AC_A] parse-4 23[AC_DEFINE]
// within statements
AC_INIT([a], [1])^JAS_IF([ls], [mkdir b^J  AC_SUBST])^JAC_OUTPUT =>  parse-6.2 24[[ls]] parse-3 31[mkdir b] parse-4 41[AC_SUBST]
// no error for a word that ends a construct, but for the first fault
AC_INIT([a], [1])^Jif b; then^J  c=1^Jelse^J  AC_A^Jfi^JAC_OUTPUT =>  parse-3 18[if b; then] parse-2 42[AC_A]
AC_INIT([a], [1])^Jfi^Jls^JAC_OUTPUT =>  parse-3 18[fi] parse-3 21[ls]
// the ends of a source
x=1^JAC_SUBST([a-b]) =>  parse-8 0[x=1] parse-5 13[[a-b]] parse-9 19[]
AC_INIT([a], [1])^JAC_OUTPUT^Jls^Jx=1 =>  parse-10 28[ls]
// in a comment of m4, which is none of the shell; what is marked ends before a bracket
AC_INIT([a], [1])^Ja='#[31m'dnl ; AC_])^JAC_OUTPUT =>  parse-3 33[AC_]
// a call that acrun doesn't know, with calls in its arguments, is one error
AC_INIT([a], [1])^JFOO(a,^J  AC_DEFINE(B, 1))^Jx y^JAC_OUTPUT =>  parse-3 18[FOO(a,] parse-3 44[x y]
AC_INIT([a], [1])^JFOO([a],[b], AC_DEFINE([X], [1]), [AC_DEFINE([Y])]) # c^JAC_SUBST^JAC_OUTPUT =>  parse-3 18[FOO([a],[b], AC_DEFINE([X], [1]), [AC_DEFINE([Y])]) # c] parse-4 74[AC_SUBST]
AC_INIT([a], [1])^JAS_IF([test a = b], [^J  FOO(AC_SUBST([C]))^J  FOO(^J    AC_DEFINE(D, 1)^J  )^J  ls^J])^JAC_OUTPUT =>  parse-3 42[FOO(AC_SUBST([C]))] parse-3 63[FOO(] parse-3 94[ls]
AC_INIT([a], [1])^Jtest b && FOO([c], AC_DEFINE(D)) && e^JAC_SUBST^JAC_OUTPUT =>  parse-3 18[test b && FOO([c], AC_DEFINE(D)) && e] parse-4 56[AC_SUBST]
// such a call that is not closed, and what is after one on its line
AC_INIT([a], [1])^JFOO(a,^J  AC_DEFINE(B, 1)^Jx y^JAC_OUTPUT =>  parse-3 18[FOO(a,] parse-3 43[x y]
AC_INIT([a], [1])^JFOO(AC_SUBST([C])); AC_DEFINE^JAC_OUTPUT =>  parse-3 18[FOO(AC_SUBST([C])); AC_DEFINE] parse-4 38[AC_DEFINE]
// quotes alone
AC_INIT([a], [1])^JAC_DEFINE^J]^JAC_SUBST =>  parse-1.3 28[]]
// one error for the line ends of a file
AC_INIT([a], [1])^Jls^M^JAC_DEFINE^M^Jmkdir b^M^JAC_OUTPUT =>  parse-3 18[ls^M] parse-4 22[AC_DEFINE]
AC_INIT([a], [1])^JAC_CHECK_FUNCS ([b])^JAC_OUTPUT =>  parse-4 18[AC_CHECK_FUNCS]
"##;

#[test]
fn found_by_reading_on(rt: HostRuntime) -> Result<(), Fail> {
    try_rows(rt.alloc(), &AllErrors, ROWS)
}

/// Puts what is said of each error, and its help.
struct Words;

impl RowCall for Words {
    fn put(&self, page: &mut Page, given: &[u8]) {
        let made = found_in(page.alloc(), given);
        if let Some(errors) = page.given(made) {
            for error in &errors {
                page.put_text(error.message.as_slice());
                page.put_text(error.help.as_slice());
            }
        }
    }
}

const WORDS: &[u8] = br##"
// a macro that another file may define, and one of the source itself
AC_INIT([a], [1])^JAC_A^JMY_B(c)^JAC_OUTPUT => [acrun does not know the macro AC_A][if m4/ or aclocal.m4 defines it, write here what it does][`MY_B` is not a macro that acrun knows, and acrun runs no commands][if m4/ or aclocal.m4 defines it, write here what it does]
AC_INIT([a], [1])^JAC_DEFUN([AC_A], [b=1])^Jdefine( MY_B, c)^JAC_A^JMY_B(c)^JAC_OUTPUT => [acrun does not know the macro AC_DEFUN][write out what it expands to][`define` is not a macro that acrun knows, and acrun runs no commands][write the text itself in place of the name, and leave this out][acrun does not know the macro AC_A][this file defines it: write here what it does][`MY_B` is not a macro that acrun knows, and acrun runs no commands][this file defines it: write here what it does]
// a definition whose name isn't read is none of a statement without one
AC_INIT([a], [1])^Jls -l^JAC_A([define(`b', c)])^JAC_OUTPUT => [`ls` is not a statement that acrun supports][write assignments NAME=VALUE and calls; acrun runs no commands][acrun does not know the macro AC_A][if m4/ or aclocal.m4 defines it, write here what it does]
// no parenthesis is too many after the last argument of a call
AC_INIT([a], [1])^JFOO(a,^J  AC_DEFINE(B, 1))^JAC_OUTPUT => [`FOO` is not a macro that acrun knows, and acrun runs no commands][if m4/ or aclocal.m4 defines it, write here what it does]
AC_INIT([a], [1])^JAC_DEFINE(B, 1))^JAC_OUTPUT => [there is a `)` too many after AC_DEFINE][remove the last one]
// a command in a test before an operator
AC_INIT([a], [1])^JAS_IF([test `uname -r` -ge 7], [])^JAC_OUTPUT => [acrun does not run the command in backquotes][acrun runs no commands; let the user give what it would print^JAC_ARG_VAR([NAME], [what it is])^JAS_IF([test -z "$NAME"], [NAME=default])]
"##;

#[test]
fn words_of_errors(rt: HostRuntime) -> Result<(), Fail> {
    try_rows(rt.alloc(), &Words, WORDS)
}
