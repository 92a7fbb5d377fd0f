//! What a source defines, which is written out where it is called, calls that look for programs, what
//! is put after AC_PROG_CC, and a name and a version for AC_INIT.

use port_calls::{Package, replaced, with_package};
use port_idioms::Idioms;
use std::test::Fail;
use test_rows::{Page, RowCall, try_rows};

/// Writes what becomes of a text.
fn put_replaced(page: &mut Page, idioms: Idioms, given: &[u8]) {
    let made = replaced(page.alloc(), idioms, given);
    if let Some(text) = page.given(made) {
        if text.as_slice() == given {
            page.put(b"the same");
        } else {
            page.put(text.as_slice());
        }
    }
}

/// Writes what becomes of a text if idioms that are exact are wanted.
struct Calls;

impl RowCall for Calls {
    fn put(&self, page: &mut Page, given: &[u8]) {
        put_replaced(page, Idioms::Exact, given);
    }
}

/// Writes what becomes of a text if all idioms are wanted.
struct AllCalls;

impl RowCall for AllCalls {
    fn put(&self, page: &mut Page, given: &[u8]) {
        put_replaced(page, Idioms::All, given);
    }
}

/// Writes what becomes of a text if the name and the version `pkg` and `3.1` are stated.
struct Naming;

impl RowCall for Naming {
    fn put(&self, page: &mut Page, given: &[u8]) {
        let naming = Package {
            name: b"pkg",
            version: b"3.1",
        };
        let made = with_package(page.alloc(), naming, given);
        if let Some(titled) = page.given(made) {
            match titled {
                Some(text) => page.put(text.as_slice()),
                None => page.put(b"the same"),
            }
        }
    }
}

/// A text that defines macros, and what becomes of it.
const DEFINITIONS: &[u8] = br##"
AC_DEFUN([M], [a=1])^JM => ^Ja=1
AC_DEFUN(M,[^Ja=1^J])dnl^J  M^Jb=2 => dnl^J  ^Ja=1^J^Jb=2
AC_DEFUN([M], [a=1])^JM^Jif test "$b" = c; then^J  M ^Jfi => ^Ja=1^Jif test "$b" = c; then^J  a=1 ^Jfi
AC_DEFUN([M], [a=1])^JAC_DEFUN([N], [b=2])^JN^JM => ^J^Jb=2^Ja=1
AC_DEFUN([AC_MINE], [a=1])^JAC_MINE => ^Ja=1
AC_DEFUN([M], [AC_MSG_CHECKING([a, b])^JAC_MSG_RESULT([$c])])^JM => ^JAC_MSG_CHECKING([a, b])^JAC_MSG_RESULT([$c])
AC_DEFUN([M], [a=$b # c^J])^JM => ^Ja=$b # c^J
// it is called nowhere
AC_DEFUN([M], [a=1])^Jb=2 => ^Jb=2
# M^JAC_DEFUN([M], [a=1])^JM => # M^J^Ja=1
AC_DEFUN([M], [a=1])^JMM=2 => ^JMM=2
// it needs the compiler
AC_DEFUN([M], [AC_CHECK_LIB([z], [f])])^JAC_PROG_CC^JM => ^JAC_PROG_CC^JAC_CHECK_LIB([z], [f])
AC_DEFUN([M], [AC_CHECK_LIB([z], [f])])^JM^JAC_PROG_CC => the same
AC_DEFUN([M], [AC_CHECK_LIB([z], [f])])^JM => the same
AC_DEFUN([M], [AC_CHECK_LIB([z], [f])])^JAC_LANG_CPLUSPLUS^JAC_PROG_CC^JM => the same
// its body has parameters, or text that means another thing where it is called
AC_DEFUN([M], [a=$1])^JM => the same
AC_DEFUN([M], [a=$0])^JM => the same
AC_DEFUN([M], [a=$#])^JM => the same
AC_DEFUN([M], [a=$@])^JM => the same
AC_DEFUN([M], [a=$*])^JM => the same
AC_DEFUN([M], [a=1 # b])^JM => the same
AC_DEFUN([M], [a=1 dnl b])^JM => the same
AC_DEFUN([M], [a=1 # [b]^J])^JM => the same
AC_DEFUN([M], [a \])^JM => the same
AC_DEFUN([M], [N(])^JM => the same
AC_DEFUN([M], [a=1][b=2])^JM => the same
AC_DEFUN([M], a=1)^JM => the same
AC_DEFUN([M], [a=1], [b])^JM => the same
// its body names a macro
AC_DEFUN([M], [a=M])^JM => the same
AC_DEFUN([M], [AC_REQUIRE([AC_PROG_CC])])^JM => the same
AC_DEFUN([M], [AC_CHECK_HEADERS([a.h])])^JM => the same
AC_DEFUN([M], [m4_if([a], [b], [c])])^JM => the same
AC_DEFUN([M], [GTK_CHECK([a])])^JM => the same
AC_DEFUN([M], [^JGTK_INIT^J])^JM => the same
m4_define([N], [b])^JAC_DEFUN([M], [a=N])^JM => the same
// its name is another one to m4, or one of Autoconf
AC_DEFUN([M] ,[a=1])^JM => the same
AC_DEFUN([1M], [a=1])^J1M => the same
AC_DEFUN([AC_PROG_CC], [a=1])^JAC_PROG_CC => the same
AC_DEFUN([AC_LANG_CASE], [a=1])^JAC_LANG_CASE => the same
// it is not called alone on a line, or not as a part of the source
AC_DEFUN([M], [a=1])^JM # b => the same
AC_DEFUN([M], [a=1])^JM dnl b => the same
AC_DEFUN([M], [a=1])^JM; b=2 => the same
AC_DEFUN([M], [a=1])^Jb M => the same
AC_DEFUN([M], [a=1])^Jb=$M => the same
AC_DEFUN([M], [a=1])^Jb=1M => the same
AC_DEFUN([M], [a=1])^JM() => the same
AC_DEFUN([M], [a=1])^J# M => the same
AC_DEFUN([M], [a=1])^JAS_IF([:], [^JM^J]) => the same
AC_DEFUN([M], [a=1])^J[^JM^J] => the same
AC_DEFUN([M], [a=1])^J# ]^J[^JM^J] => the same
AC_DEFUN([M], [a=1])^JF(^JM^J) => the same
AC_DEFUN([M], [a=1])^JM^JAC_DEFUN([N], [AC_REQUIRE([M])]) => the same
// another file may call it
m4_include([a.m4])^JAC_DEFUN([M], [a=1])^JM => the same
m4_sinclude([a.m4])^JAC_DEFUN([M], [a=1])^JM => the same
sinclude([a.m4])^JAC_DEFUN([M], [a=1])^JM => the same
AC_DEFUN([M], [a=1])^Jb=sysincludes^JM => ^Jb=sysincludes^Ja=1
// it is called before it is defined, or defined twice
M^JAC_DEFUN([M], [a=1])^JM => the same
AC_DEFUN([M], [a=1])^JM^JAC_DEFUN([M], [a=2])^JM => the same
AC_DEFUN([M], [a=1])^Jm4_undefine([M])^JM => the same
changequote(<,>)^JAC_DEFUN([M], [a=1])^JM => the same
"##;

#[test]
fn definitions(rt: HostRuntime) -> Result<(), Fail> {
    try_rows(rt.alloc(), &Calls, DEFINITIONS)
}

/// A text that defines macros that nothing calls, and what becomes of it.
const UNUSED: &[u8] = br##"
// a body with a parameter is never written out
AC_DEFUN([MY_M], [a=$1])^Jb=2 => ^Jb=2
  AC_DEFUN(MyM,^J [AC_REQUIRE([AC_PROG_CC])^JMyM([$1])^J])dnl MyM^Jb=2 =>   dnl MyM^Jb=2
AC_DEFUN([AC_MY_M], [a=$1]) # AC_MY_M^Jb=2 =>  # AC_MY_M^Jb=2
AC_DEFUN([AX_CHECK_COMPILE_FLAG], [a=$1])^Jb=2 => ^Jb=2
# MY_M(a)^Jdnl MY_M^JAC_DEFUN([MY_M], [a=$1])^J  dnl acrun: in place of MY_M: b => # MY_M(a)^Jdnl MY_M^J^J  dnl acrun: in place of MY_M: b
AC_DEFUN([MY_M], [a=$1])^Jb=MY_MS c=xMY_M => ^Jb=MY_MS c=xMY_M
AC_DEFUN([MY_M], [a=$1])^JAC_DEFUN([MY_N], [MY_M([$1])])^Jb=2 => ^J^Jb=2
AC_LANG_CPLUSPLUS^JAC_DEFUN([MY_M], [a=$1])^Jb=2 => AC_LANG_CPLUSPLUS^J^Jb=2
// it is called, or named where m4 may call it
AC_DEFUN([MY_M], [a=$1])^JMY_M([b]) => the same
MY_M([b])^JAC_DEFUN([MY_M], [a=$1]) => the same
AC_DEFUN([MY_M], [a=$1])^JAC_DEFUN([MY_M], [a=$2]) => the same
AC_DEFUN([MY_M], [a=$1])^JAC_DEFUN([MY_N], [AC_REQUIRE([MY_M])])^JMY_N => the same
AC_DEFUN([MY_M], [a=$1])^Jm4_ifdef([MY_M], [b=1]) => the same
AC_DEFUN([MY_M], [a=$1])^Jb=$MY_M => the same
AC_DEFUN([MY_M], [a=$1])^Jb=1 dnl MY_M => the same
AC_DEFUN([MY_M], [a=$1])^JF([^Jdnl ], MY_M)^J => the same
AC_DEFUN([MY_M], [a=$1])^JAC_DEFUN([MY_N], [^Jdnl $1 MY_M^J])^JMY_N([b^J]) => the same
// m4 may make its name
AC_DEFUN([MY_M], [a=$1])^JAC_DEFUN([CALL], [MY_$1])^JCALL([M]) => the same
AC_DEFUN([MY_M], [a=$1])^JF([MY_[]M]) => the same
AC_DEFUN([MY_M], [a=$1])^JF([m4_toupper([my_m])]) => the same
AC_DEFUN([MY_M], [a=1])^JAC_DEFUN([CALL], [MY_$1])^JCALL([M]) => the same
AC_DEFUN([MY_M], [a=$1])^JAC_DEFUN([MY], [b=$1])^JAC_DEFUN([CALL], [MY$1])^JMY([b])^JCALL([_M]) => the same
AC_DEFUN([MY_M], [a=$1])^JAC_DEFUN([MY], [b=$1])^JMY([b]) => ^JAC_DEFUN([MY], [b=$1])^JMY([b])
// Autoconf may have its name
AC_DEFUN([MYM], [a=$1])^Jb=2 => the same
AC_DEFUN([exec_prefix], [a=$1])^Jb=2 => the same
AC_DEFUN([AC_PROG_CC], [a=$1])^Jb=2 => the same
AC_DEFUN([AM_M], [a=$1])^Jb=2 => the same
AC_DEFUN([_AC_M], [a=$1])^Jb=2 => the same
// m4 expands its body where it is defined
AC_DEFUN([MY_M], a=$1)^Jb=2 => the same
AC_DEFUN([MY_M], [a=$1]AC_SUBST([A])[])^Jb=2 => the same
// it is not a part of the source, or does not begin its line
AS_IF([:], [^JAC_DEFUN([MY_M], [a=$1])^J]) => the same
b=2 AC_DEFUN([MY_M], [a=$1]) => the same
m4_include([a.m4])^JAC_DEFUN([MY_M], [a=$1])^Jb=2 => the same
"##;

#[test]
fn unused_definitions(rt: HostRuntime) -> Result<(), Fail> {
    try_rows(rt.alloc(), &Calls, UNUSED)
}

/// A text that defines plain words, and what becomes of it.
const WORDS: &[u8] = br##"
define(my_word, 1.2)^Ja=my_word => ^Ja=1.2
define(my_word, 1.2)dnl^Ja="x-my_word.b" b=1my_word => dnl^Ja="x-1.2.b" b=11.2
define(my_word, 1.2)^Ja=x1my_word b=2my_word c=_3my_word => ^Ja=x1my_word b=21.2 c=_3my_word
  define(MyWord, 1.2-3)^Ja=MyWord =>   ^Ja=1.2-3
define(my_word, 1-2)^Jif test "$a" = my_word; then^J  a=my_word^Jfi => ^Jif test "$a" = 1-2; then^J  a=1-2^Jfi
define(my_word, 1)^Jdefine(my_other, 2)^Ja=my_other b=my_word => ^J^Ja=2 b=1
define(my_word, 1)^Ja=my_words b=xmy_word => ^Ja=my_words b=xmy_word
// Autoconf may have the name in its own texts
define(myword, 1)^Ja=myword => the same
define(ac_word, 1)^Ja=ac_word => the same
define(exec_prefix, 1)^Ja=exec_prefix => the same
define(FreeBSD, 1)^Ja=FreeBSD => the same
// m4 does not expand it there, or more than once
define(my_word, 1)^J# my_word => the same
define(my_word, 1)^Ja=[my_word] => the same
define(my_word, 1)^JAC_SUBST([X], [my_word]) => the same
define(my_word, 1)^JAC_INIT([a], [my_word]) => the same
define(my_word, 1)^JAC_CHECK_LIB([my_word], [f]) => the same
define(my_word, 1)^JAS_IF([:], [a=my_word]) => the same
define(my_word, 1)^Ja=my_word(b) => the same
define(my_word, 1)^JF(my_word) => the same
a=my_word^Jdefine(my_word, 1) => the same
// it is no plain word, or defined otherwise
define(my_word, 1 2)^Ja=my_word => the same
define(my_word, a.b)^Ja=my_word => the same
define(my_word, dnl)^Ja=my_word => the same
define(my_word, [1])^Ja=my_word => the same
define([my_word], 1)^Ja=my_word => the same
define(my_word,1)^Ja=my_word => the same
m4_define([my_word], [1.2])^Ja=my_word => the same
define(my_word, )^Ja=my_word => the same
define( my_word, 1)^Ja=my_word => the same
define(my_word , 1)^Ja=my_word => the same
define(my_word, 1)^Jdefine(my_word, 2)^Ja=my_word => the same
a=1; define(my_word, 1)^Ja=my_word => the same
[define(my_word, 1)]^Ja=my_word => the same
changequote(<,>)^Jdefine(my_word, 1)^Ja=my_word => the same
"##;

#[test]
fn plain_words(rt: HostRuntime) -> Result<(), Fail> {
    try_rows(rt.alloc(), &Calls, WORDS)
}

/// A text with AC_PATH_PROGS, and what becomes of it.
const PROGRAMS: &[u8] = br##"
AC_PATH_PROGS(A, b) => AC_PATH_PROG([A], [b])
  AC_PATH_PROGS([A], [b c], [:]) # d =>   AC_PATH_PROG([A], [b])^J  AS_IF([test -z "$A"], [AC_PATH_PROG([A], [c])])^J  AS_IF([test -z "$A"], [A=":"]) # d
AC_PATH_PROGS([A],^J  [b-1 c.d^J   e+], /f/g) => AC_PATH_PROG([A], [b-1])^JAS_IF([test -z "$A"], [AC_PATH_PROG([A], [c.d])])^JAS_IF([test -z "$A"], [AC_PATH_PROG([A], [e+])])^JAS_IF([test -z "$A"], [A="/f/g"])
AS_IF([:], [AC_PATH_PROGS([A], [b])]) => AS_IF([:], [AC_PATH_PROG([A], [b])])
// it has a path, or words that are not plain
AC_PATH_PROGS([A], [b c], [], [/d]) => the same
AC_PATH_PROGS(LPD_LOG, b c, /d) => the same
AC_PATH_PROGS([A], [b $c]) => the same
AC_PATH_PROGS([A], []) => the same
AC_PATH_PROGS([A]) => the same
AC_PATH_PROGS([A], [b], [$c]) => the same
AC_PATH_PROGS([$A], [b]) => the same
a=b && AC_PATH_PROGS([A], [b]) => the same
"##;

#[test]
fn programs(rt: HostRuntime) -> Result<(), Fail> {
    try_rows(rt.alloc(), &Calls, PROGRAMS)
}

/// A text with calls that are exchanged for others, and what becomes of it.
const EXCHANGED: &[u8] = br##"
AC_CHECK_HEADERS(a.h b/c.h, [break]) => AC_CHECK_HEADERS([a.h], [], [AC_CHECK_HEADERS([b/c.h])])
  AC_CHECK_FUNCS([f g], break) # d =>   AC_CHECK_FUNCS([f], [], [AC_CHECK_FUNCS([g])]) # d
AC_CHECK_HEADERS([a.h b.h c.h], [break]) => the same
AC_CHECK_HEADERS([a.h], [break]) => the same
AC_CHECK_HEADERS([a.h b.h], [x=1; break]) => the same
AC_CHECK_HEADERS([a.h b.h], [break], [x=1]) => the same
AC_CHECK_HEADERS([a.h $b], [break]) => the same
AC_CHECK_LIB([a b], [break]) => the same
// a check with its messages
AC_MSG_CHECKING(for x)^JAC_CACHE_VAL(x_cv_x, [x_cv_x=1])^JAC_MSG_RESULT($x_cv_x) => AC_CACHE_CHECK(for x, x_cv_x,[x_cv_x=1])
  AC_MSG_CHECKING([for x])^J  AC_CACHE_VAL([x_cv_x],^J[x_cv_x=1])^J^J  AC_MSG_RESULT([$x_cv_x]) # a =>   AC_CACHE_CHECK([for x], x_cv_x,[x_cv_x=1]) # a
AC_MSG_CHECKING(for x)^JAC_CACHE_VAL(x_cv_x, [x_cv_x=1])^JAC_MSG_RESULT($y) => the same
AC_MSG_CHECKING(for x)^JAC_CACHE_VAL(x_cv_x, [x_cv_x=1])^Ja=1^JAC_MSG_RESULT($x_cv_x) => the same
AC_MSG_CHECKING(for x)^Ja=1^JAC_CACHE_VAL(x_cv_x, [x_cv_x=1])^JAC_MSG_RESULT($x_cv_x) => the same
AC_MSG_CHECKING(for x, y)^JAC_CACHE_VAL(x_cv_x, [x_cv_x=1])^JAC_MSG_RESULT($x_cv_x) => the same
AC_MSG_CHECKING(for x)^JAC_CACHE_VAL(x_cv_x, [x_cv_x=1])^JAC_MSG_RESULT([it is $x_cv_x]) => the same
"##;

#[test]
fn exchanged(rt: HostRuntime) -> Result<(), Fail> {
    try_rows(rt.alloc(), &Calls, EXCHANGED)
}

/// A text with AC_PROG_CC, and what becomes of it if all idioms are wanted.
const COMPILERS: &[u8] = br##"
AC_PROG_CC^Ja=1 => AC_PROG_CC^Jdnl acrun: in place of CFLAGS: AC_PROG_CC does not set it here, so an empty value becomes what Autoconf sets for a compiler of GNU^JAS_IF([test -z "$CFLAGS"], [CFLAGS="-g -O2"])^Ja=1
CFLAGS=-O^J  AC_PROG_CC^JAC_CHECK_HEADERS([a.h])^JAC_CONFIG_HEADERS([c.h]) => CFLAGS=-O^J  AC_PROG_CC^J  dnl acrun: in place of AC_INCLUDES_DEFAULT: no macro looks for the default headers here, so they are looked for after AC_PROG_CC^J  AC_CHECK_HEADERS([stdio.h stdlib.h string.h inttypes.h stdint.h strings.h sys/stat.h sys/types.h unistd.h])^J  dnl acrun: in place of STDC_HEADERS: it is defined without a check^J  AC_DEFINE([STDC_HEADERS], [1])^JAC_CHECK_HEADERS([a.h])^JAC_CONFIG_HEADERS([c.h])
CFLAGS=^JAC_PROG_CC^Ja=$ac_compiler_gnu => CFLAGS=^JAC_PROG_CC^Jdnl acrun: in place of GCC: AC_PROG_CC does not set it here, so a program asks for __GNUC__^JAC_CACHE_CHECK([whether the compiler is GNU C], [ac_cv_c_compiler_gnu],^J  [AC_COMPILE_IFELSE([AC_LANG_PROGRAM([[#ifndef __GNUC__^J#error another compiler^J#endif]], [])], [ac_cv_c_compiler_gnu=yes], [ac_cv_c_compiler_gnu=no])])^Jac_compiler_gnu=$ac_cv_c_compiler_gnu^JAS_IF([test "$ac_compiler_gnu" = yes], [GCC=yes], [GCC=])^Ja=$ac_compiler_gnu
// the default headers are looked for in any case, or may not be
CFLAGS=^JAC_PROG_CC^Jdnl x^JAC_DEFINE([STDC_HEADERS], [1])^JAC_CHECK_HEADERS([stdio.h stdlib.h string.h inttypes.h stdint.h strings.h sys/stat.h sys/types.h unistd.h])^JAC_CONFIG_HEADERS([c.h]) => the same
CFLAGS=^JAC_PROG_CC^JAC_DEFINE([STDC_HEADERS], [1])^JAC_CHECK_HEADER(stdio.h)^JAC_CHECK_HEADERS(stdlib.h string.h inttypes.h)^JAC_CHECK_HEADERS([stdint.h^J  strings.h sys/stat.h sys/types.h unistd.h])^JAC_CONFIG_HEADERS([c.h]) => the same
CFLAGS=^JAC_PROG_CC^Jdnl stdio.h stdlib.h string.h inttypes.h stdint.h strings.h sys/stat.h sys/types.h unistd.h^JAC_DEFINE([STDC_HEADERS], [1])^JAC_CHECK_FUNCS([a])^JAC_CHECK_HEADERS([a.h])^JAC_CONFIG_HEADERS([c.h]) => CFLAGS=^JAC_PROG_CC^Jdnl acrun: in place of AC_INCLUDES_DEFAULT: no macro looks for the default headers here, so they are looked for after AC_PROG_CC^JAC_CHECK_HEADERS([stdio.h stdlib.h string.h inttypes.h stdint.h strings.h sys/stat.h sys/types.h unistd.h])^Jdnl stdio.h stdlib.h string.h inttypes.h stdint.h strings.h sys/stat.h sys/types.h unistd.h^JAC_DEFINE([STDC_HEADERS], [1])^JAC_CHECK_FUNCS([a])^JAC_CHECK_HEADERS([a.h])^JAC_CONFIG_HEADERS([c.h])
CFLAGS=^JAC_PROG_CC^JAC_DEFINE([STDC_HEADERS], [1])^JAS_IF([:], [AC_CHECK_HEADERS([stdio.h stdlib.h string.h inttypes.h stdint.h strings.h sys/stat.h sys/types.h unistd.h])])^JAC_CONFIG_HEADERS([c.h]) => CFLAGS=^JAC_PROG_CC^Jdnl acrun: in place of AC_INCLUDES_DEFAULT: no macro looks for the default headers here, so they are looked for after AC_PROG_CC^JAC_CHECK_HEADERS([stdio.h stdlib.h string.h inttypes.h stdint.h strings.h sys/stat.h sys/types.h unistd.h])^JAC_DEFINE([STDC_HEADERS], [1])^JAS_IF([:], [AC_CHECK_HEADERS([stdio.h stdlib.h string.h inttypes.h stdint.h strings.h sys/stat.h sys/types.h unistd.h])])^JAC_CONFIG_HEADERS([c.h])
CFLAGS=^JAC_PROG_CC^JAC_DEFINE([STDC_HEADERS], [1])^Jif :; then^JAC_CHECK_HEADERS([stdio.h stdlib.h string.h inttypes.h stdint.h strings.h sys/stat.h sys/types.h unistd.h])^Jfi^JAC_CONFIG_HEADERS([c.h]) => CFLAGS=^JAC_PROG_CC^Jdnl acrun: in place of AC_INCLUDES_DEFAULT: no macro looks for the default headers here, so they are looked for after AC_PROG_CC^JAC_CHECK_HEADERS([stdio.h stdlib.h string.h inttypes.h stdint.h strings.h sys/stat.h sys/types.h unistd.h])^JAC_DEFINE([STDC_HEADERS], [1])^Jif :; then^JAC_CHECK_HEADERS([stdio.h stdlib.h string.h inttypes.h stdint.h strings.h sys/stat.h sys/types.h unistd.h])^Jfi^JAC_CONFIG_HEADERS([c.h])
CFLAGS=^JAC_PROG_CC^JAC_DEFINE([STDC_HEADERS], [1])^JAC_CHECK_HEADERS([astdio.h stdlib.h string.h inttypes.h stdint.h strings.h sys/stat.h sys/types.h unistd.h])^JAC_CONFIG_HEADERS([c.h]) => CFLAGS=^JAC_PROG_CC^Jdnl acrun: in place of AC_INCLUDES_DEFAULT: no macro looks for the default headers here, so they are looked for after AC_PROG_CC^JAC_CHECK_HEADERS([stdio.h stdlib.h string.h inttypes.h stdint.h strings.h sys/stat.h sys/types.h unistd.h])^JAC_DEFINE([STDC_HEADERS], [1])^JAC_CHECK_HEADERS([astdio.h stdlib.h string.h inttypes.h stdint.h strings.h sys/stat.h sys/types.h unistd.h])^JAC_CONFIG_HEADERS([c.h])
CFLAGS=^JAC_PROG_CC^Jdnl STDC_HEADERS^JAC_CHECK_HEADERS([stdio.h stdlib.h string.h inttypes.h stdint.h strings.h sys/stat.h sys/types.h unistd.h])^JAC_CONFIG_HEADERS([c.h]) => CFLAGS=^JAC_PROG_CC^Jdnl acrun: in place of STDC_HEADERS: it is defined without a check^JAC_DEFINE([STDC_HEADERS], [1])^Jdnl STDC_HEADERS^JAC_CHECK_HEADERS([stdio.h stdlib.h string.h inttypes.h stdint.h strings.h sys/stat.h sys/types.h unistd.h])^JAC_CONFIG_HEADERS([c.h])
CFLAGS=^JAC_PROG_CC^JAC_CHECK_HEADERS([stdio.h stdlib.h string.h inttypes.h stdint.h strings.h sys/stat.h sys/types.h unistd.h])^JAS_IF([:], [AC_DEFINE([STDC_HEADERS], [1])])^JAC_CONFIG_HEADERS([c.h]) => CFLAGS=^JAC_PROG_CC^Jdnl acrun: in place of STDC_HEADERS: it is defined without a check^JAC_DEFINE([STDC_HEADERS], [1])^JAC_CHECK_HEADERS([stdio.h stdlib.h string.h inttypes.h stdint.h strings.h sys/stat.h sys/types.h unistd.h])^JAS_IF([:], [AC_DEFINE([STDC_HEADERS], [1])])^JAC_CONFIG_HEADERS([c.h])
CFLAGS=^JAC_PROG_CC^JAC_CHECK_HEADERS([stdio.h stdlib.h string.h inttypes.h stdint.h strings.h sys/stat.h sys/types.h unistd.h])^JAC_DEFINE_UNQUOTED(STDC_HEADERS, 1)^JAC_CONFIG_HEADERS([c.h]) => the same
// the source does so itself, or AC_PROG_CC is not on a line of its own
AC_PROG_CC^Jtest -z "$CFLAGS" && CFLAGS=-O => the same
test "$CFLAGS" = a && b=1^JAC_PROG_CC => the same
AS_IF([:], [AC_PROG_CC]) => the same
AC_PROG_CC # a => the same
a=1 => the same
"##;

#[test]
fn compilers(rt: HostRuntime) -> Result<(), Fail> {
    try_rows(rt.alloc(), &AllCalls, COMPILERS)
}

/// A text with calls whose idioms depend on what is around them, and what becomes of it.
const AROUND: &[u8] = br##"
// Autoconf expands the second call to nothing, whatever the first one did
if :; then^J  AC_PROG_MKDIR_P^Jfi^JAC_PROG_MKDIR_P => the same
dnl AC_PROG_MKDIR_P^JAC_PROG_MKDIR_P => dnl AC_PROG_MKDIR_P^JAS_IF([test -z "$MKDIR_P"], [AC_SUBST([MKDIR_P], ["mkdir -p"])])
// a word that is left may be forbidden
m4_pattern_allow([AC_FOO])^Ja=AC_BAR => a=AC_BAR
m4_pattern_allow([AC_FOO])^JAC_FOO=1 => m4_pattern_allow([AC_FOO])^J[AC_FOO]=1
m4_pattern_allow([FOO])^Ja="AM_[FOO]" => the same
m4_pattern_allow([^FOO$])^Ja="MY_FOO LIB" => the same
m4_pattern_allow([_?FOO])^Ja=1 => the same
// `dnl` joins the call to what is before it
a=b dnl c^JAC_HAVE_FUNCS(d) => the same
a=b dnl c^Jdnl e^JAC_HAVE_FUNCS(d) => the same
a=b dnl c^J^JAC_HAVE_FUNCS(d) => a=b dnl c^J^JAC_CHECK_FUNCS([d])
a=b; dnl c^JAC_HAVE_FUNCS(d) => a=b; dnl c^JAC_CHECK_FUNCS([d])
AC_SUBST([A]) dnl c^JAC_HAVE_FUNCS(d) => AC_SUBST([A]) dnl c^JAC_CHECK_FUNCS([d])
# a dnl c^JAC_HAVE_FUNCS(d) => # a dnl c^JAC_CHECK_FUNCS([d])
"##;

#[test]
fn around(rt: HostRuntime) -> Result<(), Fail> {
    try_rows(rt.alloc(), &Calls, AROUND)
}

/// The same if all idioms are wanted.
const ALL_AROUND: &[u8] = br##"
// nothing reads the prefix before AC_OUTPUT, or something may
AC_PREFIX_DEFAULT([/a])^Jb=1^JAC_OUTPUT^Jc=$prefix => dnl acrun: in place of AC_PREFIX_DEFAULT: the prefix is the directory from here on, and not only from AC_OUTPUT on^JAS_IF([test "$prefix" = NONE], [prefix=/a])^Jb=1^JAC_OUTPUT^Jc=$prefix
AC_PREFIX_DEFAULT([/a])^Jtest "$prefix" = NONE && b=1^JAC_OUTPUT => the same
AC_PREFIX_DEFAULT([/a])^JAC_MSG_NOTICE([in ${libdir}])^JAC_OUTPUT => the same
// a word is taken for text, unless it is a macro
AC_HAVE_FUNCS(MY_X) => AC_CHECK_FUNCS([MY_X])
AC_HAVE_FUNCS(AC_X) => the same
AC_DEFUN([MY_X], [$1])^JAC_HAVE_FUNCS(MY_X) => the same
AC_PATH_PROGS(LPD_LOG, b c, /d) => AC_PATH_PROG([LPD_LOG], [b])^JAS_IF([test -z "$LPD_LOG"], [AC_PATH_PROG([LPD_LOG], [c])])^JAS_IF([test -z "$LPD_LOG"], [LPD_LOG="/d"])
AC_PATH_PROGS([A], B_C d) => AC_PATH_PROG([A], [B_C])^JAS_IF([test -z "$A"], [AC_PATH_PROG([A], [d])])
AC_CHECK_FUNCS(A_B c_d, break) => AC_CHECK_FUNCS([A_B], [], [AC_CHECK_FUNCS([c_d])])
AC_PATH_PROGS(AC_X, b) => the same
AC_DEFUN([LPD_LOG], [$1])^JAC_PATH_PROGS(LPD_LOG, b) => the same
"##;

#[test]
fn all_around(rt: HostRuntime) -> Result<(), Fail> {
    try_rows(rt.alloc(), &AllCalls, ALL_AROUND)
}

/// A text with calls that look for programs along a path, and what becomes of it if all idioms are
/// wanted.
const PATHS: &[u8] = br##"
AC_PATH_PROG([A], [b], [no], [$PATH:/sbin]) => dnl acrun: in place of AC_PATH_PROG: PATH is set to the path of the call while the program is looked for^Jacrun_PATH=$PATH^JPATH="$PATH:/sbin"^JAC_PATH_PROG([A], [b], [no])^JPATH=$acrun_PATH
  AC_PATH_PROG(A, b,, /c:${D}/e) # f =>   dnl acrun: in place of AC_PATH_PROG: PATH is set to the path of the call while the program is looked for^J  acrun_PATH=$PATH^J  PATH="/c:${D}/e"^J  AC_PATH_PROG(A, b,)^J  PATH=$acrun_PATH # f
AC_CHECK_PROGS([A], [b c], [:], [/d]) => dnl acrun: in place of AC_CHECK_PROGS: PATH is set to the path of the call while the program is looked for^Jacrun_PATH=$PATH^JPATH="/d"^JAC_CHECK_PROGS([A], [b c], [:])^JPATH=$acrun_PATH
AC_PATH_PROGS([A], [b c], [], [/d]) => dnl acrun: in place of AC_PATH_PROGS: PATH is set to the path of the call while the program is looked for^Jacrun_PATH=$PATH^JPATH="/d"^JAC_PATH_PROG([A], [b])^JAS_IF([test -z "$A"], [AC_PATH_PROG([A], [c])])^JPATH=$acrun_PATH
AS_IF([:], [AC_PATH_PROG([A], [b], [], [/d])]) => AS_IF([:], [dnl acrun: in place of AC_PATH_PROG: PATH is set to the path of the call while the program is looked for^Jacrun_PATH=$PATH^JPATH="/d"^JAC_PATH_PROG([A], [b], [])^JPATH=$acrun_PATH])
AC_PATH_PROG([A], [b], [], ${MY_DIR}:/c) => dnl acrun: in place of AC_PATH_PROG: PATH is set to the path of the call while the program is looked for^Jacrun_PATH=$PATH^JPATH="${MY_DIR}:/c"^JAC_PATH_PROG([A], [b], [])^JPATH=$acrun_PATH
// the path is not plain, or a comment can't be above the call
AC_PATH_PROG([A], [b], [], [`c`]) => the same
AC_PATH_PROG([A], [b], [], [/c d]) => the same
AC_PATH_PROG([A], [b], [], []) => the same
AC_PATH_PROG([A], [b], []) => the same
AC_CHECK_PROG([A], [b], [c], [d], [/e]) => the same
a=b && AC_PATH_PROG([A], [b], [], [/c]) => the same
AS_IF([:], AC_PATH_PROG([A], [b], [], [/c])) => the same
"##;

#[test]
fn paths(rt: HostRuntime) -> Result<(), Fail> {
    try_rows(rt.alloc(), &AllCalls, PATHS)
}

/// A text with AC_INIT, and what becomes of it if a name and a version are stated.
const NAMINGS: &[u8] = br##"
AC_INIT([], []) => dnl acrun: in place of AC_INIT: the name and the version are those of --package^JAC_INIT([pkg], [3.1])
AC_INIT([a], m4_esyscmd([b c]), [d], [e])^JAC_PROG_CC => dnl acrun: in place of AC_INIT: the name and the version are those of --package^JAC_INIT([pkg], [3.1], [d], [e])^JAC_PROG_CC
  AC_INIT([a],^J  [esyscmd(b)],^J  [c]) # d =>   dnl acrun: in place of AC_INIT: the name and the version are those of --package^J  AC_INIT([pkg], [3.1],^J  [c]) # d
AC_INIT([patsubst(a, b)], [1.2]) => dnl acrun: in place of AC_INIT: the name and the version are those of --package^JAC_INIT([pkg], [3.1])
AC_INIT([a], [$b1]) => dnl acrun: in place of AC_INIT: the name and the version are those of --package^JAC_INIT([pkg], [3.1])
AC_INIT([a], [`b 1`]) => dnl acrun: in place of AC_INIT: the name and the version are those of --package^JAC_INIT([pkg], [3.1])
AC_INIT([a], [1][2]) => dnl acrun: in place of AC_INIT: the name and the version are those of --package^JAC_INIT([pkg], [3.1])
AC_INIT([a], [A_VERSION]) => dnl acrun: in place of AC_INIT: the name and the version are those of --package^JAC_INIT([pkg], [3.1])
m4_define([B], m4_esyscmd([c]))^JAC_INIT([a], [B.2]) => m4_define([B], m4_esyscmd([c]))^Jdnl acrun: in place of AC_INIT: the name and the version are those of --package^JAC_INIT([pkg], [3.1])
define(B, 1)^JAC_INIT([B], [2]) => define(B, 1)^Jdnl acrun: in place of AC_INIT: the name and the version are those of --package^JAC_INIT([pkg], [3.1])
AC_DEFUN([B], [2])^JAC_INIT([a], [1.B]) => AC_DEFUN([B], [2])^Jdnl acrun: in place of AC_INIT: the name and the version are those of --package^JAC_INIT([pkg], [3.1])
// it has a name and a version, or none at all
AC_INIT([GNU (a)], [1.2-b]) => the same
AC_INIT([a b], [v1.2+c~d]) => the same
AC_INIT([pkg], [3.1]) => the same
AC_DEFUN([a_CHECK], [b])^JAC_INIT([a], [1]) => the same
AC_INIT([a]) => the same
AC_INIT => the same
AC_PROG_CC => the same
// a comment can't be above it, or a word of what is stated is a macro
a=1 && AC_INIT([], []) => the same
AS_IF([:], [AC_INIT([], [])]) => the same
m4_define([pkg], [a])^JAC_INIT([], []) => the same
"##;

#[test]
fn namings(rt: HostRuntime) -> Result<(), Fail> {
    try_rows(rt.alloc(), &Naming, NAMINGS)
}

/// A text with calls that try flags, and what becomes of it if all idioms are wanted.
const FLAGS: &[u8] = br##"
AX_CHECK_COMPILE_FLAG([-Wall], [a="$a -Wall"]) => dnl acrun: in place of AX_CHECK_COMPILE_FLAG(actions): the flag is tried for C alone, and -Werror is not added to it^JCFLAGS_before=$CFLAGS^JCFLAGS="$CFLAGS -Wall"^JAC_CACHE_CHECK([whether the C compiler accepts -Wall], [ax_cv_check_cflags___Wall],^J  [AC_COMPILE_IFELSE([AC_LANG_PROGRAM([], [])], [ax_cv_check_cflags___Wall=yes], [ax_cv_check_cflags___Wall=no])])^JCFLAGS=$CFLAGS_before^JAS_IF([test "$ax_cv_check_cflags___Wall" = yes], [a="$a -Wall"], [])
AX_CHECK_LINK_FLAG(-Wa, b=1, [b=0]) => dnl acrun: in place of AX_CHECK_LINK_FLAG(actions): the flag is tried for C alone^JLDFLAGS_before=$LDFLAGS^JLDFLAGS="$LDFLAGS -Wa"^JAC_CACHE_CHECK([whether the linker accepts -Wa], [ax_cv_check_ldflags___Wa],^J  [AC_LINK_IFELSE([AC_LANG_PROGRAM([], [])], [ax_cv_check_ldflags___Wa=yes], [ax_cv_check_ldflags___Wa=no])])^JLDFLAGS=$LDFLAGS_before^JAS_IF([test "$ax_cv_check_ldflags___Wa" = yes], [b=1], [b=0])
AX_CHECK_LINK_FLAG([-Wl,-z,now], [b=1], [], [-g]) => dnl acrun: in place of AX_CHECK_LINK_FLAG(flags): the flag is tried for C alone^JLDFLAGS_before=$LDFLAGS^JLDFLAGS="$LDFLAGS -g -Wl,-z,now"^JAC_CACHE_CHECK([whether the linker accepts -Wl,-z,now], [ax_cv_check_ldflags__g__Wl__z_now],^J  [AC_LINK_IFELSE([AC_LANG_PROGRAM([], [])], [ax_cv_check_ldflags__g__Wl__z_now=yes], [ax_cv_check_ldflags__g__Wl__z_now=no])])^JLDFLAGS=$LDFLAGS_before^JAS_IF([test "$ax_cv_check_ldflags__g__Wl__z_now" = yes], [b=1], [])
AX_CHECK_COMPILER_FLAGS([-std=c99 -g], [], [b=1]) => dnl acrun: in place of AX_CHECK_COMPILER_FLAGS: the flag is tried for C alone, and -Werror is not added to it^JCFLAGS_before=$CFLAGS^JCFLAGS="$CFLAGS -std=c99 -g"^JAC_CACHE_CHECK([whether the C compiler accepts -std=c99 -g], [ax_cv_check_cflags___std_c99__g],^J  [AC_COMPILE_IFELSE([AC_LANG_PROGRAM([], [])], [ax_cv_check_cflags___std_c99__g=yes], [ax_cv_check_cflags___std_c99__g=no])])^JCFLAGS=$CFLAGS_before^JAS_IF([test "$ax_cv_check_cflags___std_c99__g" = yes], [], [b=1])
// it has no action, or what is to be tried is not plain
AX_CHECK_COMPILE_FLAG([-Wall]) => the same
AX_CHECK_COMPILE_FLAG([$a], [b=1]) => the same
AX_CHECK_COMPILE_FLAG([-D"a"], [b=1]) => the same
AX_CHECK_COMPILE_FLAG([-Wall], [b=1], [], []) => the same
AX_CHECK_COMPILE_FLAG([-Wall], [b=1], [], [$c]) => the same
AX_CHECK_COMPILE_FLAG([-Wall], [b=1], [], [-g], [c]) => the same
AX_APPEND_COMPILE_FLAGS([-Wall], [CFLAGS]) => the same
"##;

#[test]
fn flags(rt: HostRuntime) -> Result<(), Fail> {
    try_rows(rt.alloc(), &AllCalls, FLAGS)
}
