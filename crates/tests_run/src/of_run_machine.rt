//! A machine whose first job a test answers or cuts. The crate `tests_cases` has runs of sources
//! over crews.

ghost use Rattle.std.specs.Prelude.{◌≡◌, None, Some, length, slice_get, IsSome};
ghost use Rattle.std.specs.Bool.{OnTrue};
ghost use Rattle.run_machine.specs.Standing.{Fits, outcome_of};

use acparse::{Source, parse};
use crew::Reply;
use deftable::Bytes;
use plan::{Plan, compile};
use run_machine::{Machine, RunEnd, RunOutcome, Turn};
use std::alloc::Global;
use std::test::Fail;
use test_crews::texts::vars_of;
use test_rows::{Page, RowCall, number_of, try_rows};

/// Replies to the first job that is asked by this exit status, or cuts all if the text is empty.
fn reply(alloc: Global, machine: &mut Machine, status: &[u8])
    requires { slice_get machine.old.replies 0 ≡ Some None }
    ensures unchanged { machine.new ≡ record machine.old { replies = machine.new.replies } }
    ensures each { length machine.new.replies ≡ length machine.old.replies }
{
    if status.is_empty() {
        machine.cut();
    } else {
        let reply = Reply::Answer {
            status: number_of(status).min(256) as u32,
            text: Bytes::new(alloc),
        };
        machine.give(0, reply);
    }
}

/// Replies to what is asked next, puts how many jobs are asked, and whether any is.
fn is_answered(page: &mut Page, machine: &mut Machine, plan: &Plan, status: &[u8]) -> bool
    requires { Fits plan.now machine.old }
    ensures { OnTrue result (Fits plan.now machine.new) }
{
    match machine.advance(plan) {
        Ok(Turn::Ask) => {
            page.put_number(machine.asked().len());
            page.put(b" asked, ");
            reply(page.alloc(), machine, status);
            true
        }
        _ => false,
    }
}

/// Tells whether nothing more is asked.
fn is_at_end(machine: &mut Machine, plan: &Plan) -> bool
    requires { Fits plan.now machine.old }
    ensures { OnTrue result (IsSome (outcome_of machine.new.phase)) }
{
    match machine.advance(plan) {
        Ok(Turn::Ask) | Err(_) => false,
        Ok(Turn::Done | Turn::Stopped(_) | Turn::Cut(_)) => true,
    }
}

/// Puts how a run ended, and the value of `r` if it is set.
fn put_run_end(page: &mut Page, end: &RunEnd) {
    match end.outcome {
        RunOutcome::Completed => page.put(b"completed"),
        RunOutcome::Stopped(_) => page.put(b"stopped"),
        RunOutcome::CutShort(number) => {
            page.put(b"cut ");
            page.put_shown(&number);
        }
    }
    if let Some(value) = end.vars.get(b"r") {
        page.put(b" r=");
        page.put(value.as_slice());
    }
}

/// Puts how many jobs a plan asks for first, and what it leaves after the only one is answered by
/// this exit status, or cut if the text is empty.
fn put_walked(page: &mut Page, plan: &Plan, status: &[u8]) {
    let vars = vars_of(page, b"cc");
    let mut machine = Machine::new(page.alloc(), plan, vars);
    if is_answered(page, &mut machine, plan, status) && is_at_end(&mut machine, plan) {
        put_run_end(page, &machine.end());
    }
}

fn put_source(page: &mut Page, source: &Source, status: &[u8]) {
    match &compile(page.alloc(), source) {
        Ok(plan) => put_walked(page, plan, status),
        Err(fault) => page.put_shown(fault),
    }
}

/// A source that asks one job.
const ONE: &[u8] = b"AC_INIT([demo],[1.0])
AC_LINK_IFELSE([AC_LANG_PROGRAM([],[])],[r=1],[r=2])
AC_OUTPUT
";

/// The run of [`ONE`] by a machine. A row is the exit status of its job, or nothing if it is cut.
struct Walked;

impl RowCall for Walked {
    fn put(&self, page: &mut Page, given: &[u8]) {
        match &parse(page.alloc(), ONE) {
            Ok(source) => put_source(page, source, given),
            Err(fault) => page.put_shown(fault),
        }
    }
}

const WALKED: &[u8] = b"\
0 => 1 asked, completed r=1
 => 1 asked, cut 1
";

#[test]
fn a_machine_that_is_answered(rt: HostRuntime) -> Result<(), Fail> {
    try_rows(rt.alloc(), &Walked, WALKED)
}
