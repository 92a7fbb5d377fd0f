//! Warnings about what a shell or Autoconf reads otherwise.

use lint_errors::read;
use lint_findings::Finding;
use lint_templates::warn_of_outputs;
use lint_warnings::{warn_of_calls, warn_of_compiler, warn_of_source};
use std::alloc::{AllocError, Global};
use std::test::Fail;
use test_rows::{Page, RowCall, try_rows};

/// Puts the code of a warning, its line and its text.
fn put_warning(page: &mut Page, text: &[u8], warning: &Finding) {
    page.put(b" ");
    page.put(warning.code.as_slice());
    page.put(b" ");
    page.put_text(
        text.get(warning.start..warning.end)
            .unwrap_or(b"not in the text"),
    );
}

fn put_warnings(page: &mut Page, text: &[u8], warnings: &[Finding]) {
    for warning in warnings {
        put_warning(page, text, warning);
    }
}

/// Returns the warnings about a source.
fn warnings_of(alloc: Global, text: &[u8]) -> Result<Vec<Finding>, AllocError> {
    let reading = read(alloc, text)?;
    let calls = reading.calls.as_slice();
    let mut found = Vec::new(alloc);
    warn_of_calls(alloc, &reading.index, text, calls, &mut found)?;
    if let Ok(source) = &reading.source {
        warn_of_source(alloc, text, calls, source, &mut found)?;
        warn_of_outputs(alloc, text, source, &mut found)?;
    }
    Ok(found)
}

struct Warnings;

impl RowCall for Warnings {
    fn put(&self, page: &mut Page, given: &[u8]) {
        let made = warnings_of(page.alloc(), given);
        if let Some(warnings) = page.given(made) {
            put_warnings(page, given, &warnings);
        }
    }
}

const ROWS: &[u8] = br##"
AC_INIT([a], [1])^JAC_OUTPUT =>
// names of macros in texts: of the table those with a `_` alone
AC_INIT([a], [1])^JAC_ARG_VAR([B], [for GCC, not gl_INIT])^JAC_OUTPUT =>  macro-in-text [gl_INIT]
// what a variable gets if no program is found is text, too
AC_INIT([a], [1])^JAC_PATH_PROG([B], [b], [AC_PACKAGE_NAME])^JAC_OUTPUT =>  macro-in-text [AC_PACKAGE_NAME]
// blanks at the ends of the name of a variable
AC_INIT([a], [1])^JAC_CHECK_PROG([ B ], [b], [yes])^JAC_OUTPUT =>  blank-in-name [[ B ]]
AC_INIT([a], [1])^JAC_ARG_VAR([B], [for GCC, not config.status])^JAC_OUTPUT =>
// variables that a configure script sets: each once, and none that is set, declared or only named
// in a comment
AC_INIT([a], [1])^JAS_IF([test "$GCC" = yes], [x="${GCC}$host_os"])^JAC_OUTPUT =>  script-variable [GCC] script-variable [host_os]
AC_INIT([a], [1])^JGCC=1^JAC_ARG_VAR([host], [b])^J# $build^Jx="$GCC$host$PACKAGE_NAME$other"^JAC_OUTPUT =>
AC_INIT([a], [1])^JAC_SUBST([PACKAGE])^JAC_SUBST([VERSION], [2])^JAC_SUBST([EXEEXT])^JAC_OUTPUT =>  script-variable [AC_SUBST]
AC_INIT([a], [1])^JAC_PROG_CC^JAC_CHECK_FUNCS([f])^Jx="$ac_cv_func_f $ac_cv_func_g"^JAC_OUTPUT =>  script-variable [ac_cv_func_g] not-resumable [x="$ac_cv_func_f $ac_cv_func_g"]
AC_INIT([a], [1])^JAS_CASE([$build_cpu], [b], [c=1])^JAC_MSG_NOTICE([$as_me])^JAC_OUTPUT =>  script-variable [build_cpu] script-variable [as_me]
// in a source that is refused, it isn't known what is set
AC_INIT([a], [1])^JAC_A^Jx="$GCC"^JAC_OUTPUT =>
// a statement that can't be resumed, and one that port wrote
AC_INIT([a], [1])^JAC_PROG_CC^JAC_PREPROC_IFELSE([AC_LANG_SOURCE([#b])], [c=1])^JAC_OUTPUT =>  not-resumable [AC_PREPROC_IFELSE]
AC_INIT([a], [1])^JAC_PROG_CC^J  dnl acrun: in place of AC_EGREP_CPP: the condition alone decides^J  AC_PREPROC_IFELSE([AC_LANG_SOURCE([#b])], [c=1])^JAC_OUTPUT =>
// the home directory, and quotes after a dollar sign
AC_INIT([a], [1])^Jx=a:~/b y=a~ z='~' w=\~^JAC_OUTPUT =>  tilde [~]
AC_INIT([a], [1])^JAC_SUBST([x], [~/b])^JAC_OUTPUT =>  tilde [~]
AC_INIT([a], [1])^JAC_MSG_NOTICE([a=~/b $'c'])^J# x=~ don't^Jdnl x=~^Jx="a:~"^JAC_OUTPUT =>
AC_INIT([a], [1])^Jx=$'a'^Jy="$" z='$'^JAC_OUTPUT =>  dollar-quote [$']
// words of tests that are variables alone
AC_INIT([a], [1])^JAS_IF([test $a != b || test -n "$c"], [], [test x$d = x, :], [])^JAC_OUTPUT =>  unquoted-word [$a]
AC_INIT([a], [1])^JAS_IF([test -z ${a}$b], [AS_IF([test c = $d], [e=$f])])^JAC_OUTPUT =>  unquoted-word [${a}$b]
AC_INIT([a], [1])^JAS_IF([test "$a" = "b $c"], [d=$e], [f=$g])^JAC_OUTPUT =>
AC_INIT([a], [1])^Jif test $a = b; then^JAC_OUTPUT =>  unquoted-word [$a]
// outputs that a run reads
AC_INIT([a], [1])^JAC_CONFIG_FILES([a:b b:c configure.ac:d])^JAC_OUTPUT =>  output-over-input [b] output-over-input [configure.ac]
AC_INIT([a], [1])^JAC_CONFIG_FILES([a])^JAC_CONFIG_HEADERS([b.h:a.in])^JAC_OUTPUT =>
// declarations of headers that Autoconf's default includes have
AC_INIT([a], [1])^JAC_PROG_CC^JAC_CHECK_TYPES([size_t, uint8_t], [], [], [#include <stdint.h>])^JAC_OUTPUT =>
AC_INIT([a], [1])^JAC_PROG_CC^JAC_CHECK_TYPES([size_t, uint8_t])^JAC_CHECK_TYPE([intmax_t])^JAC_OUTPUT =>  fewer-includes [AC_CHECK_TYPES]
AC_INIT([a], [1])^JAC_PROG_CC^JAC_CHECK_DECLS([getopt, struct stat, puts, PRIu8])^JAC_OUTPUT =>  fewer-includes [AC_CHECK_DECLS] fewer-includes [AC_CHECK_DECLS] fewer-includes [AC_CHECK_DECLS]
"##;

#[test]
fn found_warnings(rt: HostRuntime) -> Result<(), Fail> {
    try_rows(rt.alloc(), &Warnings, ROWS)
}

/// Returns the warnings about the compiler of a source.
fn compiler_warnings(alloc: Global, text: &[u8]) -> Result<Vec<Finding>, AllocError> {
    let reading = read(alloc, text)?;
    let mut found = Vec::new(alloc);
    warn_of_compiler(alloc, text, reading.calls.as_slice(), &mut found)?;
    Ok(found)
}

struct Compiler;

impl RowCall for Compiler {
    fn put(&self, page: &mut Page, given: &[u8]) {
        let made = compiler_warnings(page.alloc(), given);
        if let Some(warnings) = page.given(made) {
            put_warnings(page, given, &warnings);
        }
    }
}

const COMPILER: &[u8] = b"
AC_CHECK_FUNCS([a]) =>  no-compiler [AC_CHECK_FUNCS]
AC_PROG_CC^JAC_CHECK_FUNCS([a]) =>  compiler-not-tried [AC_CHECK_FUNCS]
// calls that port wrote, and not what is in them
AC_PROG_CC^Jdnl acrun: in place of AC_INCLUDES_DEFAULT: a^JAC_CHECK_HEADERS([a.h]) =>
AC_PROG_CC^Jdnl acrun: in place of AC_INCLUDES_DEFAULT: a^JAC_CHECK_HEADERS([a.h])^JAC_CHECK_FUNCS([b]) =>  compiler-not-tried [AC_CHECK_FUNCS]
AC_PROG_CC^Jdnl acrun: in place of a statement: a^JAS_IF([b], [AC_CHECK_HEADERS([c.h])]) =>  compiler-not-tried [AC_CHECK_HEADERS]
AC_PROG_CC^Jdnl acrun: a note^JAC_CHECK_HEADERS([a.h]) =>  compiler-not-tried [AC_CHECK_HEADERS]
";

#[test]
fn compiler_that_is_not_tried(rt: HostRuntime) -> Result<(), Fail> {
    try_rows(rt.alloc(), &Compiler, COMPILER)
}
