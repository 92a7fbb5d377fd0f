//! Why the starts of real children are refused, in the words of the system.

ghost use Rattle.std.specs.Prelude.{◌≡◌, []};

use conftest::Job;
use crew::{Causes, Crew, ProcessCrew};
use std::test::Fail;
use test_crews::children::{Work, job_of, put_real_children};
use test_rows::{Page, RowCall, cut, number_of, try_rows_in};

/// Puts the cause of a child, or `not known`.
fn put_cause<C: Causes>(page: &mut Page, crew: &C, child: usize) {
    match crew.cause(child as u64) {
        Some(cause) => page.put(cause),
        None => page.put(b"not known"),
    }
}

/// Starts one child with a crew that has done nothing, and puts why the child of this number was
/// refused.
pub fn put_start<C: Crew + Causes>(page: &mut Page, crew: &mut C, job: Job, child: usize)
    requires fresh { C.account crew.old ≡ record { events = []; attempts = 0; failures = 0 } }
{
    match crew.start(0, job) {
        Ok(()) => page.put(b"started"),
        Err(_) => put_cause(page, crew, child),
    }
}

/// A real child: the number of which the cause is asked, and the conftest and the words of the
/// child. Without a number, the child is run to its end.
#[derive(Drop)]
struct Starts<'a> {
    rt: &'a HostRuntime,
}

impl RowCall for Starts<'_> {
    fn put(&self, page: &mut Page, given: &[u8]) {
        let (child, rest) = cut(given, b"|");
        let (file, words) = cut(rest, b"|");
        let job = job_of(page, words, file);
        if child.is_empty() {
            let work = Work {
                count: 1,
                job: &job,
            };
            return put_real_children(page, self.rt, &work);
        }
        let Ok(own) = self.rt.clone() else {
            return page.cut();
        };
        match &mut ProcessCrew::new(own, page.alloc()) {
            Ok(crew) => put_start(page, crew, job, number_of(child)),
            Err(_) => page.cut(),
        }
    }
}

const CAUSES: &[u8] = b"\
1||/nowhere/cc,-c => /nowhere/cc: No such file or directory
1||no-such-compiler => no-such-compiler: No such file or directory
1||/dev/null => /dev/null: Permission denied
1|| => command: no word
// words that no command has
1||sh,\xff => \\xff: not UTF-8
1||\xff => \\xff: not UTF-8
1||sh,a\0b => a\\x00b: has a NUL
1||s\0h => s\\x00h: has a NUL
// files that aren't conftests of this directory
1|Makefile all:;|true => Makefile: not the name of a conftest
1|./conftest.c int x;|true => ./conftest.c: not the name of a conftest
1|/dev/full int x;|true => /dev/full: not the name of a conftest
// conftests that can't be written, and one that can't be executed
||sh,-c,mkdir conftest1.c conftest2; mkfifo conftest3 =>  0:0:
1|conftest1.c int x;|true => conftest1.c: File exists
1|conftest\xff.c int x;|true => conftest\\xff.c: not UTF-8
1|conftest.c int x;|./conftest.c => ./conftest.c: Permission denied
// conftests of which a compiler can't make anything
1|conftest2.c int x;|true => conftest2.c: its program is a directory
1|conftest3.c int x;|true => conftest3.c: its program is a pipe, a socket or a device
// no child has this number
0||/nowhere/cc => not known
2||/nowhere/cc => not known
";

#[test]
fn causes_of_starts(rt: HostRuntime) -> Result<(), Fail> {
    try_rows_in(&rt, "causes_of_starts", &Starts { rt: &rt }, CAUSES)
}
