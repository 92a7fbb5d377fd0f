//! Why statements of a shell stay.

use port_reasons::{Reason, kept_statements};
use std::test::Fail;
use test_rows::{Page, RowCall, try_rows};

/// Puts a reason.
fn put_reason(page: &mut Page, reason: &Reason) {
    match reason {
        Reason::Refused(what) => page.put_text(what.as_slice()),
        Reason::Call(name) => {
            page.put(b" a call of ");
            page.put(name.as_slice());
        }
        Reason::Inner => page.put(b" inside"),
        _ => page.put(b" another reason"),
    }
}

struct Reasons;

impl RowCall for Reasons {
    fn put(&self, page: &mut Page, given: &[u8]) {
        let made = kept_statements(page.alloc(), given);
        if let Some(statements) = page.given(made) {
            for statement in &statements {
                put_reason(page, &statement.reason);
            }
        }
    }
}

const ROWS: &[u8] = br##"
// an operator in whose place port --idioms writes another one is no reason if there is another reason
if test "$a" -eq 1; then^J  MY_TRY(b)^Jfi =>  a call of MY_TRY
if test "$a" -eq 1; then^J  if grep b c; then^J    d=1^J  fi^Jfi =>  inside[`grep b c` is not a test that acrun supports]
if test "$a" -eq 1 && test b -ge 2; then^J  c=1^Jfi => [`-ge` in a test is not supported]
case $a in^J  b) if test `c` -ge 1; then d=1; fi ;;^Jesac =>  inside[acrun does not run the command in backquotes]
// it is the reason if there is no other
if test "$a" -eq 1; then^J  b=1^Jfi => [`-eq` in a test is not supported]
AC_PROG_CC^Jif test -f a && test "$b" == c; then^J  d=1^Jfi => [`test -f` is not supported]
// what keeps port --idioms from writing another text
if test "$a" -eq 1; then b=1; fi; if test "$c" == d; then^J  e=1^Jfi => [`-eq` in a test is not supported][`==` is in a statement that doesn't begin its line]
if test 'a' == "$b"; then^J  c=1^Jfi => [`==` is in a condition with a backslash, a bracket, a single quote or a backquote]
if test -d a; then^J  b=1^Jfi => [`test -d` is before AC_PROG_CC]
AC_PROG_CC^Jif test -n "$a"; then^J  b=1^Jelif test -d c; then^J  d=1^Jfi => [`test -d` is in an `elif`]
AC_PROG_CC^Jtest -d "$srcdir/a" && b=1 => [the word of `test -d` has srcdir, which acrun doesn't set]
AC_PROG_CC^Jif test -x "a%b"; then^J  c=1^Jfi => [the word of `test -x` has more than letters, digits, `$NAME` and `+-./:_`]
// an operator without another one
if test -h a; then^J  b=1^Jfi => [`test -h` is not supported]
"##;

#[test]
fn reasons_of_statements(rt: HostRuntime) -> Result<(), Fail> {
    try_rows(rt.alloc(), &Reasons, ROWS)
}
