//! Statements of a shell with `case` that become calls.

use crate::of_port_shell::Forms;
use std::test::Fail;
use test_rows::try_rows;

/// A text with a `case`, and what becomes of it.
const CASES: &[u8] = br##"
case $a in b) x=1;; esac => AS_CASE([$a], [b], [x=1])
case $a in b) x=1 ;; c) x=2 ;; esac => AS_CASE([$a], [b], [x=1], [c], [x=2])
case "$a $b" in "c d" | e*) x=1 ;; esac => AS_CASE(["$a $b"], ["c d" | e*], [x=1])
case $a in b) x=1; y=2;; esac => AS_CASE([$a], [b], [x=1; y=2])
case $a in b)x=1;;esac => AS_CASE([$a], [b], [x=1])
case $a in b) ;; *) x=1;; esac => AS_CASE([$a], [b], [], [x=1])
case in in in) x=1;; esac => AS_CASE([in], [in], [x=1])
case $a in b) AC_DEFINE([X]) ;; esac => AS_CASE([$a], [b], [AC_DEFINE([X])])
case ${a}-b in *-b | *-c) x=1 ;; esac => AS_CASE([${a}-b], [*-b | *-c], [x=1])
// the default
case $a in b) x=1;; *) x=2;; esac => AS_CASE([$a], [b], [x=1], [x=2])
case $a in b) x=1;; *) ;; esac => AS_CASE([$a], [b], [x=1], [])
case $a in *) x=1;; b) x=2;; esac => AS_CASE([$a], [*], [x=1], [b], [x=2])
case $a in b) x=1;; "*") x=2;; esac => AS_CASE([$a], [b], [x=1], ["*"], [x=2])
// a last branch without the two semicolons
case $a in b) x=1; esac => AS_CASE([$a], [b], [x=1])
case $a in b) x=1;; *) x=2^Jesac => AS_CASE([$a], [b], [x=1], [x=2^J])
// a parenthesis before patterns
case $a in (b) x=1;; ( c | d ) x=2;; esac => AS_CASE([$a], [b], [x=1], [c | d], [x=2])
// on several lines
case $a in^J  b)^J    x=1^J    ;;^J  *)^J    x=2 ;;^Jesac => AS_CASE([$a], [b], [^J    x=1^J    ], [^J    x=2])
case  $a^Jin^Jb) x=1;;^J^J  c) x=2;;^Jesac => AS_CASE([$a], [b], [x=1], [c], [x=2])
// quotes, of a shell and of m4
case $a in "b)" | c\)) x=1;; esac => AS_CASE([$a], ["b)" | c\)], [x=1])
case $a in [b]*) x=1;; esac => AS_CASE([$a], [[b]*], [x=1])
case $a in [[b-d]]*) x=1;; esac => the same
case $a in b) x="c;;";; esac => AS_CASE([$a], [b], [x="c;;"])
// nested
case $a in b) if :; then x=1; fi ;; esac => AS_CASE([$a], [b], [AS_IF([:], [x=1])])
if :; then^J  case $a in b) x=1;; esac^Jfi => AS_IF([:], [^J  AS_CASE([$a], [b], [x=1])^J])
case $a in b) case $c in d) x=1;; esac;; esac => AS_CASE([$a], [b], [AS_CASE([$c], [d], [x=1])])
AS_CASE([$a], [b], [case $c in d) x=1;; esac]) => AS_CASE([$a], [b], [AS_CASE([$c], [d], [x=1])])
AC_CHECK_FUNCS([f], [case $a in b) x=1;; esac]) => AC_CHECK_FUNCS([f], [AS_CASE([$a], [b], [x=1])])
// comments
case $a in b) x=1 # c^J;; esac # d => AS_CASE([$a], [b], [x=1 # c^J]) # d
case $a in b) # c^J x=1;; esac => AS_CASE([$a], [b], [# c^J x=1])
case $a in b) dnl c^J x=1;; esac => AS_CASE([$a], [b], [dnl c^J x=1])
case $a in b) x=1^J x=2 # c;; esac => the same
case $a in b) x=1^J x=2 dnl c;; esac => the same
case $a in # c^J b) x=1;; esac => the same
case $a in b) x=1;; # c^J d) x=2;; esac => the same
case $a in b) x=1;; dnl c^J d) x=2;; esac => the same
case $a in b) x=1 # c;; esac^J;; esac => AS_CASE([$a], [b], [x=1 # c;; esac^J])
// before and after it
y=1; case $a in b) x=1;; esac; z=2 => y=1; AS_CASE([$a], [b], [x=1]); z=2
case $a in b) x=1;; esac | cat => the same
case $a in b) x=1;; esac > f => the same
case $a in b) x=1;; esac && y=1 => the same
case $a in b) x=1;; esac & => the same
y && case $a in b) x=1;; esac => the same
! case $a in b) x=1;; esac => the same
echo case $a in b) x=1;; esac => the same
case $a in b) x=1;; esac#c => the same
// what isn't of the profile
case $a in b) x=1 ;& c) x=2;; esac => the same
case $a in b) x=1 ;& c) x=2;; esac; if :; then y=1; fi => case $a in b) x=1 ;& c) x=2;; esac; AS_IF([:], [y=1])
case $a in b) x=1 \;;^J;; esac => the same
case $a in esac => the same
case $a in b) mkdir c;; esac => the same
case `b` in b) x=1;; esac => the same
case AC_FOO in b) x=1;; esac => the same
case $a in AC_FOO) x=1;; esac => the same
case $a in dnl) x=1;; esac => the same
case $a in b |\^Jc) x=1;; esac => the same
case $a in b) AC_OUTPUT;; esac => the same
case $a in [b) x=1;; esac] => the same
// where it isn't done
[case $a in b) x=1;; esac] => the same
cat <<A^Jcase $a in b) x=1;; esac^JA => the same
echo "^Jcase $a in b) x=1;; esac^J" => the same
a=$(^Jcase $a in b) x=1;; esac^J) => the same
(^Jcase $a in b) x=1;; esac^J) => the same
f() {^Jcase $a in b) x=1;; esac^J} => the same
for i in $a; do^Jcase $a in b) x=1;; esac^Jdone => the same
AC_NOPE([case $a in b) x=1;; esac]) => the same
# case $a in b) x=1;; esac => the same
dnl case $a in b) x=1;; esac => the same
"##;

#[test]
fn cases(rt: HostRuntime) -> Result<(), Fail> {
    try_rows(rt.alloc(), &Forms, CASES)
}
