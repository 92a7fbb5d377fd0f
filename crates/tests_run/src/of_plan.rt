//! What a source weighs, and the steps of a small one.

use ac_tree::{Case, Declares, Effect, Subject, When, choose};
use acparse::Stmt;
use deftable::{Name, Texts};
use plan::{PlanFault, Step, compile_statements};
use shellword::Patterns;
use std::test::Fail;
use test_crews::replies::{add, bytes_of};
use test_rows::{Page, RowCall, cut, number_of, try_rows};

/// Returns a statement that declares nothing.
fn act(effect: Effect) -> Stmt {
    Stmt::Do {
        declares: Declares::Nothing,
        effect,
    }
}

/// Adds so many statements.
fn add_outputs(page: &mut Page, statements: &mut Vec<Stmt>, count: usize) {
    for _ in 0..count {
        add(page, statements, act(Effect::Complete));
    }
}

/// Returns a case whose list of patterns and list of statements are empty.
fn empty_case(page: &mut Page) -> Case {
    Case {
        when: When::Matches(Patterns::from_vec(Vec::new(page.alloc()))),
        body: Vec::new(page.alloc()),
    }
}

/// Returns a default of one statement.
fn default_case(page: &mut Page) -> Case {
    let mut body = Vec::new(page.alloc());
    add_outputs(page, &mut body, 1);
    Case {
        when: When::Always,
        body,
    }
}

/// Returns a choice of an empty case, and of a default if one is wanted.
fn choice(page: &mut Page, has_default: bool) -> Stmt {
    let mut cases = Vec::new(page.alloc());
    let case = empty_case(page);
    add(page, &mut cases, case);
    if has_default {
        let case = default_case(page);
        add(page, &mut cases, case);
    }
    choose(Declares::Nothing, Subject::Nothing, cases)
}

/// Returns AC_PROG_CC of two compilers, or nothing if memory runs out.
fn compilers(page: &mut Page) -> Stmt {
    let mut names = Vec::new(page.alloc());
    let name = bytes_of(page, b"gcc");
    add(page, &mut names, name);
    let name = bytes_of(page, b"cc");
    add(page, &mut names, name);
    let alloc = page.alloc();
    let Some(variable) = page.given(Name::from_slice(alloc, b"CC")) else {
        return act(Effect::Nothing);
    };
    Stmt::Do {
        declares: Declares::Compiler,
        effect: Effect::Searches {
            variable,
            programs: Texts::from_vec(names),
            otherwise: None,
        },
    }
}

/// Returns a statement by its name.
fn named(page: &mut Page, name: &[u8]) -> Stmt {
    match name {
        b"choice" => choice(page, false),
        b"default" => choice(page, true),
        b"compilers" => compilers(page),
        _ => act(Effect::Nothing),
    }
}

/// Puts how many steps a step passes, or `-` if it is no jump.
fn put_jump(page: &mut Page, step: &Step) {
    page.put(b" ");
    match step {
        Step::Do(_)
        | Step::Look { .. }
        | Step::Default { .. }
        | Step::Subject(_)
        | Step::Round { .. }
        | Step::Close { .. } => page.put(b"-"),
        Step::SkipUnless { steps, .. } | Step::Skip { steps } | Step::Open { steps, .. } => {
            page.put_number(*steps)
        }
    }
}

/// Puts how many steps there are, and the jumps of up to ten.
fn put_jumps(page: &mut Page, steps: &[Step]) {
    page.put_number(steps.len());
    if steps.len() <= 10 {
        for step in steps {
            put_jump(page, step);
        }
    }
}

/// Puts the steps of a plan, or why there is no plan.
fn put_steps(page: &mut Page, statements: &[Stmt]) {
    match &compile_statements(page.alloc(), statements) {
        Ok(plan) => put_jumps(page, plan.steps()),
        Err(fault) => {
            page.put(b"fault ");
            page.put_shown(fault);
        }
    }
}

/// Puts the plan of so many statements, another one if it is named, and so many after it.
fn put_plan(page: &mut Page, given: &[u8]) {
    let (before, rest) = cut(given, b"|");
    let (name, after) = cut(rest, b"|");
    let mut statements = Vec::new(page.alloc());
    add_outputs(page, &mut statements, number_of(before));
    if !name.is_empty() {
        let statement = named(page, name);
        add(page, &mut statements, statement);
    }
    add_outputs(page, &mut statements, number_of(after));
    put_steps(page, statements.as_slice());
}

/// The plan of some statements, or `memory` for the fault that no statements make.
struct Plans;

impl RowCall for Plans {
    fn put(&self, page: &mut Page, given: &[u8]) {
        if given == b"memory".as_slice() {
            page.put_shown(&PlanFault::OutOfMemory);
        } else {
            put_plan(page, given);
        }
    }
}

const STEPS: &[u8] = b"\
// A source weighs 65,535 at most. A choice and its case weigh 2, a default 1 more, and what is in
// it counts. A list of two programs weighs 3.
65535 => 65535
65535|accepted => fault 1
65533|choice => 65536
65534|choice => fault 1
65531|default => 65537
65532|default => fault 1
65532|compilers => 65535
65533|compilers => fault 1
// the subject, the first case without a statement, the default with one, and AC_OUTPUT
0|default|1 => 7 - 1 3 2 - 0 -
memory => memory
";

#[test]
fn plans_of_statements(rt: HostRuntime) -> Result<(), Fail> {
    try_rows(rt.alloc(), &Plans, STEPS)
}
