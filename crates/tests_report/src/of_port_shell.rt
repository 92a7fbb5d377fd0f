//! Statements of a shell that become calls.

use port_idioms::Idioms;
use port_shell::formed;
use std::test::Fail;
use test_rows::{Page, RowCall, try_rows};

/// Writes what becomes of a text that was rewritten, if it is another one.
fn put_again(page: &mut Page, idioms: Idioms, given: &[u8]) {
    let made = formed(page.alloc(), idioms, given);
    if let Some(text) = page.given(made) {
        if text.as_slice() != given {
            page.put(b", and then ");
            page.put(text.as_slice());
        }
    }
}

/// Writes what becomes of a text, and of that.
fn put_formed(page: &mut Page, idioms: Idioms, given: &[u8]) {
    let made = formed(page.alloc(), idioms, given);
    if let Some(text) = page.given(made) {
        if text.as_slice() == given {
            page.put(b"the same");
        } else {
            page.put(text.as_slice());
            put_again(page, idioms, text.as_slice());
        }
    }
}

/// By exact idioms alone.
pub(crate) struct Forms;

impl RowCall for Forms {
    fn put(&self, page: &mut Page, given: &[u8]) {
        put_formed(page, Idioms::Exact, given);
    }
}

/// By all idioms.
pub(crate) struct Noted;

impl RowCall for Noted {
    fn put(&self, page: &mut Page, given: &[u8]) {
        put_formed(page, Idioms::All, given);
    }
}

/// A text with an `if`, and what becomes of it.
const IFS: &[u8] = br##"
if test a = b; then x=1; fi => AS_IF([test a = b], [x=1])
if test a = b; then x=1; else x=2; fi => AS_IF([test a = b], [x=1], [x=2])
if test a; then x=1; elif test -n "$b" && ! test -z "$c"; then :; else AC_DEFINE([X]); fi => AS_IF([test a], [x=1], [test -n "$b" && ! test -z "$c"], [:], [AC_DEFINE([X])])
// on several lines
if test a = b; then^J  x=1^Jfi => AS_IF([test a = b], [^J  x=1^J])
if test a = b^Jthen x=1^J  else^J  x=2^J  fi => AS_IF([test a = b], [x=1^J  ], [^J  x=2^J  ])
if^J  test a = b ; ^J then^J^Jx=1^J^Jfi => AS_IF([test a = b], [^J^Jx=1^J^J])
if test a = b; then x=1; y=2 ; fi => AS_IF([test a = b], [x=1; y=2])
if test a = b; then x=1;^Jfi => AS_IF([test a = b], [x=1;^J])
if test a = b;then^Ix=1;fi => AS_IF([test a = b], [x=1])
if test a = b; then^M^J  x=1^M^Jfi^M^J => AS_IF([test a = b], [^J  x=1^M^J])^M^J
if test a = b &&^J  test c; then x=1; fi => AS_IF([test a = b &&^J  test c], [x=1])
if test a ||^J   ! test b^Jthen x=1; elif test c &&^Jtest d; then x=2; fi => AS_IF([test a ||^J   ! test b], [x=1], [test c &&^Jtest d], [x=2])
// after an end without its beginning nothing is rewritten
if :; then x=1; fi^Jfi^Jif :; then x=2; fi => AS_IF([:], [x=1])^Jfi^Jif :; then x=2; fi
done^Jif :; then x=2; fi => the same
esac^Jif :; then x=2; fi => the same
// nested
if a; then^J if test b; then^J  x=1^J fi^Jfi => if a; then^J AS_IF([test b], [^J  x=1^J ])^Jfi
if :; then^J if test b; then^J  x=1^J fi^Jfi => AS_IF([:], [^J AS_IF([test b], [^J  x=1^J ])^J])
if :; then if true; then if false; then x=1; fi; fi; else if true; then x=2; fi; fi => AS_IF([:], [AS_IF([true], [AS_IF([false], [x=1])])], [AS_IF([true], [x=2])])
AS_IF([:], [if :; then x=1; fi]) => AS_IF([:], [AS_IF([:], [x=1])])
AC_ARG_ENABLE([x], [a help], [^J  if :; then x=1; fi^J], [if :; then x=2; fi]) => AC_ARG_ENABLE([x], [a help], [^J  AS_IF([:], [x=1])^J], [AS_IF([:], [x=2])])
AC_CACHE_CHECK([for x], [x_cv_x], [if :; then x_cv_x=1; fi]) => AC_CACHE_CHECK([for x], [x_cv_x], [AS_IF([:], [x_cv_x=1])])
// before and after it
a=1; if :; then x=1; fi; b=2 => a=1; AS_IF([:], [x=1]); b=2
  if :; then x=1; fi # a comment =>   AS_IF([:], [x=1]) # a comment
if :; then x=1; fi#a => the same
if :; then x=1; fi dnl a => the same
if :; then x=1; fi | cat => the same
if :; then x=1; fi > f => the same
if :; then x=1; fi && y=1 => the same
if :; then x=1; fi & => the same
a && if :; then x=1; fi => the same
a ||^J  if :; then x=1; fi => the same
a | if :; then x=1; fi => the same
! if :; then x=1; fi => the same
echo if :; then x=1; fi => the same
AC_SUBST([x]) if :; then x=1; fi => the same
if if :; then x=1; fi; then y=1; fi => the same
// comments
if :; then # one^J  x=1 # two^J  # three^Jelse # four^J  x=2^Jfi => AS_IF([:], [# one^J  x=1 # two^J  # three^J], [# four^J  x=2^J])
if :; then^J  # don't [x]^J  x=1^Jfi => AS_IF([:], [^J  # don't [x]^J  x=1^J])
if :; then^J  # a [^J  x=1^Jfi => the same
if :; then^J  dnl a ]^J  x=1^Jfi => the same
if :; then^J  dnl it's^J  x=1^Jfi => AS_IF([:], [^J  dnl it's^J  x=1^J])
if :; then x=1 # one; fi^Jfi => AS_IF([:], [x=1 # one; fi^J])
if :; then x=1 dnl one; fi^Jfi => AS_IF([:], [x=1 dnl one; fi^J])
if :; then x=1 [#] dnl one^J  x=2; fi => the same
if :; then^J  x=1 [#] dnl one^J  dnl two^Jfi => the same
if :; then x=1 dnl one^J  x=2; fi => AS_IF([:], [x=1 dnl one^J  x=2])
if :; then^J  # one^J  x=2; fi => AS_IF([:], [^J  # one^J  x=2])
if test a = b # one^Jthen x=1; fi => the same
if test a = b; dnl one^Jthen x=1; fi => the same
if test a = #b^Jthen x=1; fi => the same
# if :; then x=1; fi => the same
dnl if :; then x=1; fi => the same
a=xdnl; if :; then x=1; fi => a=xdnl; AS_IF([:], [x=1])
// what isn't of the profile
if test -f a; then x=1; fi => the same
if :; then x=`a`; fi => the same
if :; then x=1; else mkdir a; fi => the same
if :; then AC_NOPE; fi => the same
if :; then AC_CONFIG_FILES([a]); fi => the same
if :; then AC_OUTPUT; fi => the same
if test a = AC_FOO; then x=1; fi => the same
if test a = dnl; then x=1; fi => the same
if test -n^J"$a"; then x=1; fi => the same
if test a^Jtest b; then x=1; fi => the same
if test a && \^J  test b; then x=1; fi => the same
if :; then x=1 \^Jfi => the same
if :; then x=1; fi; fi => AS_IF([:], [x=1]); fi
if :; then; fi => the same
if :; x=1; fi => the same
if :; then x=[a]; fi => AS_IF([:], [x=[a]])
if test a = [[b]]; then x=1; fi => AS_IF([test a = [[b]]], [x=1])
if :; then x="fi; then"; fi => AS_IF([:], [x="fi; then"])
if :; then x='; fi'; fi => AS_IF([:], [x='; fi'])
if :; then x=a\;b; fi => AS_IF([:], [x=a\;b])
if :; then x="dnl"; fi => the same
if test 'a; then b' = "c; then d"; then x=1; fi => AS_IF([test 'a; then b' = "c; then d"], [x=1])
// `-a` and `-o`
if test "$a" = b -a -n "$c"; then x=1; fi => AS_IF([test "$a" = b && test -n "$c"], [x=1])
if test "$a" = b -o -z "$c" -o $d != e; then x=1; else x=2; fi => AS_IF([test "$a" = b || test -z "$c" || test $d != e], [x=1], [x=2])
if :; then x=1; elif test a -a "$b"; then x=2; fi => AS_IF([:], [x=1], [test a && test "$b"], [x=2])
if test a -a b && test c -a d; then x=1; fi => AS_IF([test a && test b && test c && test d], [x=1])
if test a -o b ||  test c; then x=1; fi => AS_IF([test a || test b ||  test c], [x=1])
if test "a -a b" = c -a "d -o e" != "f && g"; then x=1; fi => AS_IF([test "a -a b" = c && test "d -o e" != "f && g"], [x=1])
if test a  -a^Ib ; then x=1; fi => AS_IF([test a  && test^Ib], [x=1])
if test x$a = x-a -a -z ${b}; then x=1; fi => AS_IF([test x$a = x-a && test -z ${b}], [x=1])
if test $a = -a -a b; then x=1; fi => AS_IF([test $a = -a && test b], [x=1])
if test a -o b -a c; then x=1; fi => the same
if test a -a b || test c; then x=1; fi => the same
if test a || test b -a c; then x=1; fi => the same
if test a -a ! b; then x=1; fi => AS_IF([test a && test ! b], [x=1])
if test -n "$a" -a ! "$b" = c -a ! -z $d; then x=1; fi => AS_IF([test -n "$a" && test ! "$b" = c && test ! -z $d], [x=1])
if test ! "$a" = b -o ! "$c"; then x=1; fi => AS_IF([test ! "$a" = b || test ! "$c"], [x=1])
if test ! -n "$a" -a b && test a -a ! b; then x=1; fi => AS_IF([test ! -n "$a" && test b && test a && test ! b], [x=1])
if test ! "$a" = b; then x=1; elif test ! -n "$b"; then x=2; elif test ! $c; then x=3; fi => AS_IF([test ! "$a" = b], [x=1], [test ! -n "$b"], [x=2], [test ! $c], [x=3])
if test a -a b && ! test c; then x=1; fi => the same
if ! test a -a b; then x=1; fi => the same
if test ! a -a b; then x=1; fi => the same
if test a -a b && test ! c -a d; then x=1; fi => the same
if test a -a ! = b; then x=1; fi => the same
if test a -a ! -n = b; then x=1; fi => the same
if test a -a ! ! b; then x=1; fi => the same
if test a -a "!" b; then x=1; fi => the same
if test a -a !b; then x=1; fi => the same
if test a -a !; then x=1; fi => the same
if test ! -a b; then x=1; fi => the same
if test "!" -a b; then x=1; fi => the same
if test \( a -a b \); then x=1; fi => the same
if test "(" -a ")"; then x=1; fi => the same
if test -n = -a b; then x=1; fi => the same
if test -n -a b; then x=1; fi => the same
if test a -a -f b; then x=1; fi => the same
if test a -eq b -a c; then x=1; fi => the same
if test a\ -a b; then x=1; fi => the same
if test a = [b] -a c; then x=1; fi => the same
if test a -a; then x=1; fi => the same
if test -a b; then x=1; fi => the same
if test a-a b; then x=1; fi => the same
if test a -ab; then x=1; fi => the same
if :; then x=1; else test a -a b; fi => the same
// in AS_IF itself
AS_IF([test a -a "$b"], [x=1]) => AS_IF([test a && test "$b"], [x=1])
AS_IF([test a -o b ], [x=1], [AS_IF([test c -a d], [x=2])]) => AS_IF([test a || test b ], [x=1], [AS_IF([test c && test d], [x=2])])
AS_IF([test a -a ! b], [x=1]) => AS_IF([test a && test ! b], [x=1])
AS_IF([test ! a -a b], [x=1]) => the same
AS_IF([:], [x=1], [test a -a b], [x=2]) => the same
AS_IF(test a -a b, [x=1]) => the same
AS_IF([test a -o b -a c], [x=1]) => the same
AS_IF([test a -a -f b], [x=1]) => the same
AS_IF([test a == b], [x=1]) => the same
if test a == b; then x=1; fi => the same
// in quotes, in a here-document, and in an argument without brackets
a="AS_IF([test b -a c], [d=1])" => the same
a="b^JAS_IF([test c -a d], [e=1])" => the same
a=`AS_IF([test b -a c], [d=1])` => the same
cat <<E^JAS_IF([test b -a c], [d=1])^JE => the same
AC_ARG_WITH([a], [b], AS_IF([test c -a d], [e=1])) => the same
// the first call that requires something of Autoconf
if :; then AC_CHECK_HEADERS([a.h]); fi => the same
if :; then AC_CHECK_FUNC([a]); fi => the same
AC_PROG_CC^Jif :; then AC_CHECK_FUNC([a]); fi => AC_PROG_CC^JAS_IF([:], [AC_CHECK_FUNC([a])])
AC_PROG_CC^Jif :; then AC_CHECK_TYPES([a]); fi => the same
// where it isn't done
[if :; then x=1; fi] => the same
[if] :; then x=1; fi => the same
AC_NOPE([if :; then x=1; fi]) => the same
AC_MSG_NOTICE([if :; then x=1; fi]) => the same
AC_DEFINE([X], [if :; then x=1; fi]) => the same
echo "^Jif :; then x=1; fi^J" => the same
echo '^Jif :; then x=1; fi^J' => the same
a=`^Jif :; then x=1; fi^J` => the same
a=$(^Jif :; then x=1; fi^J) => the same
(^Jif :; then x=1; fi^J) => the same
{^Jif :; then x=1; fi^J} => the same
f() {^Jif :; then x=1; fi^J} => the same
f ()^Jif :; then x=1; fi => the same
for i in $a; do^Jif :; then x=1; fi^Jdone => the same
for i^Jdo^Jif :; then x=1; fi^Jdone => the same
while a; do^Jif :; then x=1; fi^Jdone => the same
until a^Jdo if :; then x=1; fi^Jdone => the same
for i in $a; do^JAS_IF([:], [if :; then x=1; fi])^Jdone => the same
cat <<A^Jif :; then x=1; fi^JA => the same
cat <<-'A B'^Jif :; then x=1; fi^J^IA B^Jif :; then x=2; fi => cat <<-'A B'^Jif :; then x=1; fi^J^IA B^JAS_IF([:], [x=2])
cat << \A <<B^JA^Jif :; then x=1; fi^JB^Jif :; then x=2; fi => cat << \A <<B^JA^Jif :; then x=1; fi^JB^JAS_IF([:], [x=2])
cat <<A^JAS_IF([:], [if :; then x=1; fi])^JA => the same
// for over words that are written there
for i in a; do :; done => i=a^J :
for i in a; do x=1; done => i=a^J x=1
  for i in a b.c^J  do^J    x=$i^J  done =>   i=a^J    x=$i^J  i=b.c^J    x=$i
for i in "" "a b" -lc; do x="$i $x"; done # c => i=""^J x="$i $x"^Ji="a b"^J x="$i $x"^Ji=-lc^J x="$i $x" # c
for i in a b; do^Jif test $i; then x=1; fi^Jdone => i=a^JAS_IF([test $i], [x=1])^Ji=b^JAS_IF([test $i], [x=1])
for i in a; do^Jfor j in b c; do x=1; done^Jdone => i=a^Jj=b^J x=1^Jj=c^J x=1
if :; then^Jfor i in a; do x=1; done^Jfi => AS_IF([:], [^Ji=a^J x=1^J])
AS_IF([:], [for i in a; do x=1; done]) => AS_IF([:], [i=a^J x=1])
for i in a; do x=1 # b^Jy=2; done => i=a^J x=1 # b^Jy=2
// which stays
for i in $a; do x=1; done => the same
for i in `a`; do x=1; done => the same
for i in a*; do x=1; done => the same
for i in ~a; do x=1; done => the same
for i in {a,b}; do x=1; done => the same
for i in 'a'; do x=1; done => the same
for i in "a"b; do x=1; done => the same
for i in a\ b; do x=1; done => the same
for i in a\^Jb; do x=1; done => the same
for i in; do x=1; done => the same
for i do x=1; done => the same
for i in a; do for j in b; do x=1; done; done => the same
if :; then for i in a; do x=1; done; fi => the same
for i in AC_A; do x=1; done => the same
for 1 in a; do x=1; done => the same
for i in a; do x=1; done | b => the same
for i in a; do x=1; done && y=1 => the same
for i in a; do x=1; done; y=1 => the same
a && for i in b; do x=1; done => the same
[for] i in a; do x=1; done => the same
for i in a; do x=1 # b^Jdone => the same
for i in a; do if :; then x=1; fi; done => the same
for i in a; do^Jif :; then break; fi^Jdone => the same
for i in a; do x=$?; done => the same
for i in a; do x_cv_y=$i; done => the same
for i in a; do AC_ARG_VAR([X], [x]); done => the same
for i in a; do AC_CHECK_HEADERS([a.h]); done => the same
for i in 1 2 3 4 5 6 7 8 9 a b c d e f g h; do x=1; done => the same
// an assignment that something is joined to stays
a=1 && x=2 => the same
AS_IF([:], [a=1 && AC_DEFINE([X])]) => the same
a=${a:-b} && x=2 => the same
a=1 || x=2 => the same
// a value or a word
a=${a:-b} => AS_IF([test -z "$a"], [a=b])
  A_1="${A_1:-b.c}"; x=1 =>   AS_IF([test -z "$A_1"], [A_1=b.c]); x=1
a=${a:-"b c"} # d => AS_IF([test -z "$a"], [a="b c"]) # d
if :; then a=${a:-}; fi => AS_IF([:], [AS_IF([test -z "$a"], [a=])])
a=${a-b} => the same
a=${b:-c} => the same
a=${a:-$b} => the same
a=${a:-b}c => the same
a="${a:-"b"}" => the same
a=${a:-b c} => the same
a=${a:-AC_B} => the same
a=${a:-b} c=d => the same
a=${a:-b} | c => the same
// a comment that goes on after a line of m4
[#] dnl^Jif :; then x=1; fi => the same
[#] dnl^Jfor i in a; do x=1; done => the same
# a^Jdnl # b^Jif :; then x=1; fi => # a^Jdnl # b^JAS_IF([:], [x=1])
x=1 dnl a^Jif :; then x=1; fi => x=1 dnl a^JAS_IF([:], [x=1])
// after what is none of these
for i in a b; do c; done^Jif :; then x=1; fi => for i in a b; do c; done^JAS_IF([:], [x=1])
f() { a; }^Jif :; then x=1; fi => f() { a; }^JAS_IF([:], [x=1])
(a; b)^Jif :; then x=1; fi => (a; b)^JAS_IF([:], [x=1])
a=${b-if}; if :; then x=1; fi => a=${b-if}; AS_IF([:], [x=1])
a="`b "c"`"; if :; then x=1; fi => a="`b "c"`"; AS_IF([:], [x=1])
a=$(# don't^Jb)^Jif :; then x=1; fi => a=$(# don't^Jb)^JAS_IF([:], [x=1])
a=$((1 << 2)); if :; then x=1; fi => a=$((1 << 2)); AS_IF([:], [x=1])
case a in b) c;; (d|if) e;; *) f; esac; if :; then x=1; fi => case a in b) c;; (d|if) e;; *) f; esac; AS_IF([:], [x=1])
case $a in^J  b) if :; then x=1; fi ;;^J  c) f;;^J  *)^J    if :; then x=2; fi^Jesac => case $a in^J  b) AS_IF([:], [x=1]) ;;^J  c) f;;^J  *)^J    AS_IF([:], [x=2])^Jesac
"##;

#[test]
fn ifs(rt: HostRuntime) -> Result<(), Fail> {
    try_rows(rt.alloc(), &Forms, IFS)
}

/// A text with a statement that makes Autoconf check something before it, and what becomes of it by
/// all idioms.
const DRAWING: &[u8] = br##"
if :; then x=1; fi => AS_IF([:], [x=1])
  if :; then AC_CHECK_HEADERS([a.h]); fi =>   dnl acrun: in place of a statement: Autoconf makes the checks that its macros require in any case^J  AS_IF([:], [AC_CHECK_HEADERS([a.h])])
case $a in b) AC_CHECK_HEADERS([a.h]) ;; esac => dnl acrun: in place of a statement: Autoconf makes the checks that its macros require in any case^JAS_CASE([$a], [b], [AC_CHECK_HEADERS([a.h])])
"##;

#[test]
fn drawing(rt: HostRuntime) -> Result<(), Fail> {
    try_rows(rt.alloc(), &Noted, DRAWING)
}

/// A text with a test of a file, and what becomes of it by all idioms.
const ASKED: &[u8] = br##"
AC_PROG_CC^Jif test -f /a; then x=1; fi => AC_PROG_CC^Jdnl acrun: in place of a test of a file: a program asks, to which a backslash of a variable is one of C, and whose answer is no in a cross build and if the word is empty^Jacrun_CFLAGS=$CFLAGS acrun_CPPFLAGS=$CPPFLAGS acrun_LDFLAGS=$LDFLAGS acrun_LIBS=$LIBS CFLAGS= CPPFLAGS= LDFLAGS= LIBS=^JAC_RUN_IFELSE([AC_LANG_PROGRAM([[#include <sys/stat.h>^J#include <unistd.h>]], [[struct stat s; return stat ("/a", &s) != 0 || !S_ISREG (s.st_mode);]])], [acrun_file=yes], [acrun_file=no^JAC_RUN_IFELSE([AC_LANG_PROGRAM([[#include <sys/stat.h>^J#include <unistd.h>]], [[return access ("/", F_OK) != 0;]])], [], [AC_MSG_ERROR([no program can ask for a file here; see config.log])], [:])], [acrun_file=no])^JCFLAGS=$acrun_CFLAGS CPPFLAGS=$acrun_CPPFLAGS LDFLAGS=$acrun_LDFLAGS LIBS=$acrun_LIBS^JAS_IF([test "$acrun_file" = yes], [x=1])
AC_PROG_CC^J  test ! -x "${a}/b:c" && x=1 => AC_PROG_CC^J  dnl acrun: in place of a test of a file: a program asks, to which a backslash of a variable is one of C, and whose answer is no in a cross build and if the word is empty^J  acrun_CFLAGS=$CFLAGS acrun_CPPFLAGS=$CPPFLAGS acrun_LDFLAGS=$LDFLAGS acrun_LIBS=$LIBS CFLAGS= CPPFLAGS= LDFLAGS= LIBS=^J  AC_RUN_IFELSE([AC_LANG_PROGRAM([[#include <sys/stat.h>^J#include <unistd.h>]], [[return access ("${a}/b:c", X_OK) != 0;]])], [acrun_file=yes], [acrun_file=no^JAC_RUN_IFELSE([AC_LANG_PROGRAM([[#include <sys/stat.h>^J#include <unistd.h>]], [[return access ("/", F_OK) != 0;]])], [], [AC_MSG_ERROR([no program can ask for a file here; see config.log])], [:])], [acrun_file=no])^J  CFLAGS=$acrun_CFLAGS CPPFLAGS=$acrun_CPPFLAGS LDFLAGS=$acrun_LDFLAGS LIBS=$acrun_LIBS^J  AS_IF([test ! "$acrun_file" = yes], [x=1])
// which stay
if test -f /a; then x=1; fi^JAC_PROG_CC => the same
AC_PROG_CC^Ja="b^JAS_IF([test -f /c], [d=1])" => the same
AC_PROG_CC^Jif test -f; then x=1; fi => AC_PROG_CC^JAS_IF([test -f], [x=1])
AC_PROG_CC^Jif test "a" = "b -f c"; then x=1; fi => AC_PROG_CC^JAS_IF([test "a" = "b -f c"], [x=1])
AC_PROG_CC^Jif test -f $srcdir/a; then x=1; fi => the same
AC_PROG_CC^Jif test -f ~/a; then x=1; fi => the same
AC_PROG_CC^Jif test -f a*; then x=1; fi => the same
AC_PROG_CC^Jif test -f "a b"; then x=1; fi => the same
AC_PROG_CC^Jif test -f -a; then x=1; fi => the same
AC_PROG_CC^Jif test -f $1; then x=1; fi => the same
AC_PROG_CC^Jif test -L a; then x=1; fi => the same
AC_PROG_CC^Jif test "$a" = -f b; then x=1; fi => the same
AC_PROG_CC^Jif test "$a"; then x=1^Jelif test -f b; then x=2^Jfi => the same
AC_PROG_CC^Jif test -f a; then^J  if test "$a"; then x=1; fi^Jelif test ! -d b; then x=2^Jfi => AC_PROG_CC^Jif test -f a; then^J  AS_IF([test "$a"], [x=1])^Jelif test ! -d b; then x=2^Jfi
AC_PROG_CC^Ja=1; if test -f b; then x=1; fi => the same
AC_PROG_CC^Ja=1 &&^J  AS_IF([test -f b], [x=1]) => the same
AC_PROG_CC^JAS_IF([:], test -f b && x=1) => the same
"##;

#[test]
fn asked(rt: HostRuntime) -> Result<(), Fail> {
    try_rows(rt.alloc(), &Noted, ASKED)
}

/// A text with a test that isn't one of POSIX, or that compares numbers, and what becomes of it by
/// all idioms.
const SPELLED: &[u8] = br##"
if test "$a" == b; then x=1; fi => dnl acrun: in place of ==, -eq or -ne: the words are compared as texts^JAS_IF([test "$a" = b], [x=1])
  AS_IF([test "$a" == b -a "$c" == d], [x=1]) =>   dnl acrun: in place of ==, -eq or -ne: the words are compared as texts^J  AS_IF([test "$a" = b && test "$c" = d], [x=1])
if test $a -eq 10; then^J  x=1^Jelif test 1 -ne 0; then^J  x=2^Jfi => dnl acrun: in place of ==, -eq or -ne: the words are compared as texts^JAS_IF([test $a = 10], [^J  x=1^Jdnl acrun: in place of ==, -eq or -ne: the words are compared as texts^J], [test 1 != 0], [^J  x=2^J])
AS_IF([test "$a" == b && ! test "$c" == d], [x=1]) => dnl acrun: in place of ==, -eq or -ne: the words are compared as texts^JAS_IF([test "$a" = b && ! test "$c" = d], [x=1])
if test -f a; then^J  if test a == b; then x=1; fi^Jfi => if test -f a; then^J  dnl acrun: in place of ==, -eq or -ne: the words are compared as texts^J  AS_IF([test a = b], [x=1])^Jfi
// in double quotes it is a part of a word
if test "$a" == "b == c"; then x=1; fi => dnl acrun: in place of ==, -eq or -ne: the words are compared as texts^JAS_IF([test "$a" = "b == c"], [x=1])
if test "$a" = "b == c"; then x=1; fi => AS_IF([test "$a" = "b == c"], [x=1])
if test -n "a -eq 1" && test "b -ne 2"; then x=1; fi => AS_IF([test -n "a -eq 1" && test "b -ne 2"], [x=1])
AS_IF([test "$a" = "b == c"], [x=1]) => the same
if test -n "a == b"; then mkdir a; fi => the same
// which stay
if test "$a" -eq 01; then x=1; fi => the same
if test "$a" -eq "$b"; then x=1; fi => the same
if test "$a" -eq -1; then x=1; fi => the same
if test "$a" -eq 1a; then x=1; fi => the same
if test "$a" -gt 1; then x=1; fi => the same
if test 'a == b' == c; then x=1; fi => the same
if test a == b -o c -a d; then x=1; fi => the same
if test -f a == b; then x=1; fi => the same
if a == b; then x=1; fi => the same
a=1; if test a == b; then x=1; fi => the same
AC_ARG_WITH([a], [b],^JAS_IF([test c == d], [x=1])) => the same
a="b^JAS_IF([test c == d], [e=1])" => the same
a=1; test a == b && x=1 => the same
test a == b && x=1 && y=2 => the same
test a == b && # c^Jx=1 => the same
test "a == b" && x=1 => AS_IF([test "a == b"], [x=1])
test -f a == b && x=1 => the same
{ test a == b && x=1; } => the same
// before `&&` and `||`
test "$a" == b && x=1 => dnl acrun: in place of ==, -eq or -ne: the words are compared as texts^JAS_IF([test "$a" = b], [x=1])
  test "$a" -eq 1 || x=1 =>   dnl acrun: in place of ==, -eq or -ne: the words are compared as texts^J  AS_IF([test "$a" = 1], [], [x=1])
test "$a" == b -a "$c" -ne 2 &&^J  AC_DEFINE([X]) => dnl acrun: in place of ==, -eq or -ne: the words are compared as texts^JAS_IF([test "$a" = b && test "$c" != 2], [AC_DEFINE([X])])
if :; then^J  test "$a" == b && x=1^Jfi => AS_IF([:], [^J  dnl acrun: in place of ==, -eq or -ne: the words are compared as texts^J  AS_IF([test "$a" = b], [x=1])^J])
test "$a" == b && mkdir c => dnl acrun: in place of ==, -eq or -ne: the words are compared as texts^Jtest "$a" = b && mkdir c
test "$a" == b && x=1^Jy=$? => dnl acrun: in place of ==, -eq or -ne: the words are compared as texts^Jtest "$a" = b && x=1^Jy=$?
"##;

#[test]
fn spelled(rt: HostRuntime) -> Result<(), Fail> {
    try_rows(rt.alloc(), &Noted, SPELLED)
}
