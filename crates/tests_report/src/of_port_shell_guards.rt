//! Statements of a shell after `&&` and `||` that become calls.

use crate::of_port_shell::Forms;
use std::test::Fail;
use test_rows::try_rows;

/// A text with a statement that a test guards, and what becomes of it.
const GUARDS: &[u8] = br##"
test a && x=1 => AS_IF([test a], [x=1])
test a || x=1 => AS_IF([test a], [], [x=1])
test -n "$a" && test -z "$b" && x=1 y=2 => AS_IF([test -n "$a" && test -z "$b"], [x=1 y=2])
test a = b || test c && x=1 => AS_IF([test a = b || test c], [x=1])
test a&&x=1 => AS_IF([test a], [x=1])
test a &&^J  x=1 => AS_IF([test a], [x=1])
test "a && b" && x=1 => AS_IF([test "a && b"], [x=1])
test a && x=1; test b || y=2 => AS_IF([test a], [x=1]); AS_IF([test b], [], [y=2])
test a -a b && x=1 => AS_IF([test a && test b], [x=1])
test a -o "$b" || x=1 => AS_IF([test a || test "$b"], [], [x=1])
test a -o b && x=1 => AS_IF([test a || test b], [x=1])
test a && test b -a c && x=1 => AS_IF([test a && test b && test c], [x=1])
test a || test b -a c && x=1 => the same
test a -a b && test c -o d && x=1 => the same
// definitions and messages
test a && AC_DEFINE([X], [1; 2]) => AS_IF([test a], [AC_DEFINE([X], [1; 2])])
test a && AC_DEFINE_UNQUOTED([X], [$a],^J  [an X]) => AS_IF([test a], [AC_DEFINE_UNQUOTED([X], [$a],^J  [an X])])
test a || AC_MSG_ERROR([no a & b]) => AS_IF([test a], [], [AC_MSG_ERROR([no a & b])])
test a || AC_MSG_WARN([b]) => AS_IF([test a], [], [AC_MSG_WARN([b])])
test a && AC_MSG_NOTICE([b]) => AS_IF([test a], [AC_MSG_NOTICE([b])])
test a && AC_MSG_CHECKING([b]) => AS_IF([test a], [AC_MSG_CHECKING([b])])
test a && AC_MSG_RESULT([b]) => AS_IF([test a], [AC_MSG_RESULT([b])])
test a && AC_MSG_FAILURE([b]) => the same
// within other statements
if :; then^J  test a && x=1^Jfi => AS_IF([:], [^J  AS_IF([test a], [x=1])^J])
if :; then test a && x=1; else test b || y=1; fi => AS_IF([:], [AS_IF([test a], [x=1])], [AS_IF([test b], [], [y=1])])
case $a in b) test c && x=1 ;; esac => AS_CASE([$a], [b], [AS_IF([test c], [x=1])])
AS_IF([:], [test a && x=1]) => AS_IF([:], [AS_IF([test a], [x=1])])
// before and after it
  test a && x=1 # c =>   AS_IF([test a], [x=1]) # c
test a && x=1 > f => the same
test a && x=1 | cat => the same
test a && x=1 & => the same
y && test a && x=1 => the same
y ||^J  test a && x=1 => the same
! test a && x=1 => the same
echo test a && x=1 => the same
test a && # c^J x=1 => the same
test a \^J  && x=1 => the same
if test a && x=1; then y=1; fi => the same
if :; test a && x=1; then y=1; fi => the same
while :; test a && x=1; do y=1; done => the same
f() { test a && x=1; } => the same
(test a && x=1) => the same
cat <<A^Jtest a && x=1^JA => the same
[test a && x=1] => the same
[test] a && x=1 => the same
// the status is read, or a shell may end at it
test a && x=1^Jy=$? => the same
set -e^Jtest a && x=1 => the same
set  -o errexit^Jtest a && x=1 => the same
set \^J  -e^Jtest a && x=1 => the same
AC_MSG_NOTICE([set it])^Jtest a && x=1 => AC_MSG_NOTICE([set it])^JAS_IF([test a], [x=1])
AC_CHECK_FUNCS([memset^J  memcpy])^Jtest a && x=1 => AC_CHECK_FUNCS([memset^J  memcpy])^JAS_IF([test a], [x=1])
x_set=" -a"^Jtest a && x=1 => x_set=" -a"^JAS_IF([test a], [x=1])
x="a_set -a Set  b"^Jtest a && x=1 => x="a_set -a Set  b"^JAS_IF([test a], [x=1])
if :; then set -e; fi^Jtest a && x=1 => the same
(set -e)^Jtest a && x=1 => the same
;set -e^Jtest a && x=1 => the same
AC_MSG_NOTICE([charset  -e, b_set -c])^Jtest a && x=1 => AC_MSG_NOTICE([charset  -e, b_set -c])^JAS_IF([test a], [x=1])
b;set -e^Jtest a && x=1 => the same
$1set -e^Jtest a && x=1 => the same
// other statements
test a && x=1 && y=2 => the same
test a && x=1 || y=2 => the same
test a && AC_CHECK_FUNCS([f]) => the same
test a && AC_SUBST([x]) => the same
test a && AC_DEFINE([X]) y=1 => the same
test a && mkdir b => the same
test -f a && x=1 => the same
test a && x=`b` => the same
test a && (x=1) => the same
test a && { x=1; } => the same
test a && if :; then x=1; fi => the same
test a && => the same
test a && x="b; c" => the same
"##;

#[test]
fn guards(rt: HostRuntime) -> Result<(), Fail> {
    try_rows(rt.alloc(), &Forms, GUARDS)
}
