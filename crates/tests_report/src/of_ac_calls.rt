//! The calls that are found.

use ac_calls::{CallAt, Extent, calls_of};
use std::test::Fail;
use test_rows::{Page, RowCall, try_rows};

/// Puts a part of a text in brackets.
fn put_part(page: &mut Page, text: &[u8], start: usize, end: usize) {
    page.put_text(text.get(start..end).unwrap_or(b"not in the text"));
}

fn put_args(page: &mut Page, text: &[u8], args: &[Extent]) {
    for arg in args {
        put_part(page, text, arg.start, arg.end);
    }
}

/// Puts the offset of a call, `!` if its macro isn't known, its name, its arguments, and the offset
/// after it.
fn put_call(page: &mut Page, text: &[u8], call: &CallAt) {
    page.put(b" ");
    page.put_number(call.start);
    page.put(if call.is_of_profile { b"" } else { b"!" });
    put_part(page, text, call.start, call.name_end);
    put_args(page, text, &call.args);
    page.put_number(call.end);
}

fn put_calls(page: &mut Page, text: &[u8], calls: &[CallAt]) {
    for call in calls {
        put_call(page, text, call);
    }
}

struct Calls;

impl RowCall for Calls {
    fn put(&self, page: &mut Page, given: &[u8]) {
        let made = calls_of(page.alloc(), given);
        if let Some(calls) = page.given(made) {
            put_calls(page, given, &calls);
        }
    }
}

const ROWS: &[u8] = br##"
x=1 => 
AC_OUTPUT =>  0[AC_OUTPUT]9
AC_FOO ( =>  0![AC_FOO]6
AC_FOO([a], b)x =>  0![AC_FOO][[a]][b]14
AC_FOO() =>  0![AC_FOO][]8
// shell text, comments and dnl lines
if x; then AC_FOO fi # AC_BAR^Jdnl AC_BAZ^JAS_ME =>  11![AC_FOO]17 41![AS_ME]46
"AC_FOO" =>  1![AC_FOO]7
[AC_FOO] =>
MY_FOO gl_FOO xAC_FOO =>
// in arguments
AS_IF([AC_A], [AC_B], [AC_C], [AC_D], [AC_E]) =>  0[AS_IF][[AC_A]][[AC_B]][[AC_C]][[AC_D]][[AC_E]]45 15![AC_B]19 31![AC_D]35 39![AC_E]43
AS_IF([x], AC_B) =>  0[AS_IF][[x]][AC_B]16 11![AC_B]15
AS_CASE([AC_A], [AC_B], [AC_C], [AC_D]) =>  0[AS_CASE][[AC_A]][[AC_B]][[AC_C]][[AC_D]]39 25![AC_C]29 33![AC_D]37
AC_ARG_ENABLE([AC_A], [AC_B], [AC_C], [AC_D]) =>  0[AC_ARG_ENABLE][[AC_A]][[AC_B]][[AC_C]][[AC_D]]45 31![AC_C]35 39![AC_D]43
AC_CHECK_HEADERS([AC_A], [AC_B], [AC_C], [AC_D]) =>  0[AC_CHECK_HEADERS][[AC_A]][[AC_B]][[AC_C]][[AC_D]]48 26![AC_B]30 34![AC_C]38
AC_CACHE_CHECK([AC_A], [AC_B], [AC_C]) =>  0[AC_CACHE_CHECK][[AC_A]][[AC_B]][[AC_C]]38 32![AC_C]36
AC_DEFINE([AC_A], [AC_B]) =>  0[AC_DEFINE][[AC_A]][[AC_B]]25
AC_FOO([AS_IF([x], [AC_B])]) =>  0![AC_FOO][[AS_IF([x], [AC_B])]]28
AS_IF([x], [AS_IF([y], [AC_A])^JAC_B]) =>  0[AS_IF][[x]][[AS_IF([y], [AC_A])^JAC_B]]37 12[AS_IF][[y]][[AC_A]]30 24![AC_A]28 31![AC_B]35
// an argument with other brackets, and quotes that are wrong
AS_IF([x], [AC_A] [AC_B]) =>  0[AS_IF][[x]][[AC_A] [AC_B]]25
AS_IF([x], [AC_A(]) =>  0[AS_IF][[x]][[AC_A(]]19
AC_FOO [ =>
"##;

#[test]
fn found_calls(rt: HostRuntime) -> Result<(), Fail> {
    try_rows(rt.alloc(), &Calls, ROWS)
}
