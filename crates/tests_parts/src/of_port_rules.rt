//! What rules put in place of statements.

use ac_calls::calls_of;
use ac_parts::Part;
use parts_reader::read_parts;
use port_rules::{edit_by, rules};
use std::test::Fail;
use test_rows::{Page, RowCall, try_rows};

/// Puts what the rules put at some parts, the first one that is found.
fn put_edit(page: &mut Page, text: &[u8], parts: &[Part]) {
    for rule in rules() {
        let made = edit_by(page.alloc(), text, rule, parts);
        if let Some(Some(edit)) = page.given(made) {
            page.put(b" ");
            page.put(rule.name);
            page.put(b" ");
            page.put(&edit.put);
        }
    }
}

struct Edits;

impl RowCall for Edits {
    fn put(&self, page: &mut Page, given: &[u8]) {
        let made = calls_of(page.alloc(), given);
        let Some(calls) = page.given(made) else {
            return;
        };
        let made = read_parts(page.alloc(), given, &calls);
        if let Some(Some(parts)) = page.given(made) {
            for i in 0..parts.len() {
                put_edit(page, given, &parts[i..]);
            }
        }
    }
}

const ROWS: &[u8] = br##"
x=${x:-y} =>  default-of AS_IF([test -z "$x"], [x=y])
x=${z:-y} =>
x=${x:-y} z =>
if a; then b; fi =>  if AS_IF([a], [b])
if a^Jthen^J  b^Jelse^J  c^Jfi =>  if AS_IF([a], [b], [c])
if a; then b; elif c; then d; elif e && f^Jthen^J  g; h^Jelse i; fi =>  if AS_IF([a], [b], [c], [d], [e && f], [g; h], [i])
if a; then b; fi && c =>
for a in b; do if c; then d; fi; done =>
AC_PATH_PROGS([P], [q]) =>  path-progs AC_PATH_PROG([P], [q])
AC_PATH_PROGS([P], [q r  s]) =>  path-progs AC_PATH_PROG([P], [q])^JAS_IF([test -z "$P"], [AC_PATH_PROG([P], [r])])^JAS_IF([test -z "$P"], [AC_PATH_PROG([P], [s])])
AC_PATH_PROG([P], [q r]) =>
AC_MSG_CHECKING([for a])^JAC_CACHE_VAL([a_cv_b], [c])^JAC_MSG_RESULT([$a_cv_b]) =>  cache-check AC_CACHE_CHECK([for a], [a_cv_b], [c])
AC_MSG_CHECKING([for a])^JAC_CACHE_VAL([a_cv_b], [c])^JAC_MSG_RESULT([$a_cv_c]) =>
AC_MSG_CHECKING([for a])^Jx^JAC_CACHE_VAL([a_cv_b], [c])^JAC_MSG_RESULT([$a_cv_b]) =>
"##;

#[test]
fn puts(rt: HostRuntime) -> Result<(), Fail> {
    try_rows(rt.alloc(), &Edits, ROWS)
}
