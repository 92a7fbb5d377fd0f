//! Real children of which the one whose pipe ends first is taken first.

use crew::{PipeEnd, ReadyCrew};
use std::process::{OpenProcess, Processes};
use std::rt::Files;
use std::test::Fail;
use test_crews::children::{Work, job_of, put_work};
use test_rows::{Page, RowCall, cut, number_of, try_rows_in};

/// Puts the work of the children of a system of which the one whose pipe ends first is taken first.
pub fn put_ready<R: Files + Processes + Drop>(page: &mut Page, rt: R, work: &Work)
where
    <R::Started as OpenProcess>::Stderr: PipeEnd,
{
    match &mut ReadyCrew::new(rt, page.alloc()) {
        Ok(crew) => put_work(page, crew, work),
        Err(_) => page.cut(),
    }
}

/// Puts the work of real children of which the one whose pipe ends first is taken first.
fn put_ready_children(page: &mut Page, rt: &HostRuntime, work: &Work) {
    match rt.clone() {
        Ok(own) => put_ready(page, own, work),
        Err(_) => page.cut(),
    }
}

/// Real children: how many, and the words of each.
#[derive(Drop)]
struct Ready<'a> {
    rt: &'a HostRuntime,
}

impl RowCall for Ready<'_> {
    fn put(&self, page: &mut Page, given: &[u8]) {
        let (count, words) = cut(given, b"|");
        let job = job_of(page, words, b"");
        let work = Work {
            count: number_of(count),
            job: &job,
        };
        put_ready_children(page, self.rt, &work);
    }
}

// No order rests on times. The last child ends first: it waits for the file `go`, which the second
// makes when more was read of its text than a pipe holds. So all pipes are read. The first ends once
// the last was waited for, and the second once the first was.
const READY: &[u8] = b"\
1|sh,-c,echo a >&2; exit 7 =>  0:7:a^J
3|sh,-c,until_() { i=0; until eval \"$1\"; do i=$((i+1)); [ $i -lt 400 ] || exit 9; sleep 0.05; done; }; \
case $1 in \
0) echo $$ > first; until_ '[ -s last ] && [ -e go ] && [ ! -e /proc/$(cat last) ]';; \
1) yes abcdefg | head -c 262144 >&2; : > go; until_ '[ -s first ] && [ ! -e /proc/$(cat first) ]';; \
2) echo $$ > last; until_ '[ -e go ]'; echo ended >&2;; \
esac; exit $1,slot =>  2:2:ended^J 0:0: 1:1:65536 bytes abcdefg^Jabcdefg^J .. abcdefg^Jabcdefg^J
// a start that is refused
2|/nowhere/cc =>  0:S 1:S
";

#[test]
fn children_that_have_ended(rt: HostRuntime) -> Result<(), Fail> {
    try_rows_in(&rt, "ended_children", &Ready { rt: &rt }, READY)
}
