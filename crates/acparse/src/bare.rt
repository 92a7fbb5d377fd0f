//! Bare text between calls.

ghost use Rattle.std.specs.Prelude.{◌≡◌, OnOk};
ghost use Rattle.m4quote.specs.Scan.{bare_value_of};
ghost use Rattle.ac_macros.specs.ListKind.{list_kind_of};
ghost use Rattle.ac_statement.specs.Reading.{Gives};
ghost use Rattle.acparse.specs.Bare as words;
ghost use Rattle.acparse.specs.Profile.{following};
ghost use Rattle.ac_statement.specs.Idle.{is_idle};
ghost use Rattle.ac_macros.specs.Placement.{bare_fault};
ghost use Rattle.ac_tree.specs.Script.{script_of, joined, Done};

use ac_args::ParseFault;
use ac_macros::list_kind::ListKind;
use ac_macros::placement::bare_fault;
use ac_statement::fault::shell_fault;
use ac_statement::idle::is_idle;
use ac_tree::{Declares, Effect, Stage, Stmt};
use m4quote::{QuoteFault, bare_value};
use shell_bare::{Assignment, Assignments, BareFault, read_statements};
use std::alloc::{AllocError, Global};

/// Returns an error of bare text that begins at `at` as an error of the source.
fn text_fault(at: usize, fault: BareFault) -> ParseFault
    ensures { result ≡ words.text_fault at fault }
{
    match fault {
        BareFault::UnknownStatement(_) => ParseFault::UnknownStatement(at),
        BareFault::Shell(fault) => shell_fault(at, fault),
        BareFault::OutOfMemory => ParseFault::OutOfMemory,
    }
}

/// Returns whether all assignments are to this variable.
fn set_alone(name: &[u8], assignments: &[Assignment]) -> bool
    ensures { result ≡ words.set_alone name.now assignments.now }
{
    assignments.iter().all(|a| a.name.as_slice() == name)
}

/// Checks that a list may hold these assignments.
#[tactic(auto, unfolding(crate::specs::Bare::may_assign))]
fn check_assignments(list_kind: ListKind<'_>, assignments: &[Assignment]) -> Result<(), ParseFault>
    ensures { Gives (λ x. x) result
        (words.may_assign (list_kind_of list_kind.entry) assignments.now) }
{
    match list_kind {
        ListKind::Top => Ok(()),
        ListKind::Nested => Ok(()),
        ListKind::Commands { name, at } => {
            if set_alone(name, assignments) {
                Ok(())
            } else {
                Err(ParseFault::CacheBody(at))
            }
        }
    }
}

/// Reads the assignments in the value of bare text at `at`.
fn value_assignments(alloc: Global, at: usize, text: &[u8]) -> Result<Assignments, ParseFault>
    ensures { Gives (λ list. list) result (words.of_value at (bare_value_of text.now)) }
{
    match bare_value(alloc, text) {
        Ok(value) => match read_statements(alloc, value.as_slice()) {
            Ok(assignments) => Ok(assignments),
            Err(fault) => Err(text_fault(at, fault)),
        },
        Err(QuoteFault::OutOfMemory) => Err(ParseFault::OutOfMemory),
        Err(_) => Err(ParseFault::UnknownStatement(at)),
    }
}

/// Reads the assignments in bare text at `at`, if the list may hold them.
#[tactic(auto, unfolding(crate::specs::Bare::assigned_in))]
fn assignments(
    alloc: Global,
    list_kind: ListKind<'_>,
    at: usize,
    text: &[u8],
) -> Result<Assignments, ParseFault>
    ensures { Gives words.assigned result
        (words.assigned_in (list_kind_of list_kind.entry) at text.now) }
{
    let assignments = value_assignments(alloc, at, text)?;
    check_assignments(list_kind, assignments.as_slice()).map(|()| assignments)
}

/// Appends assignments to statements.
fn push_all(assignments: Vec<Assignment>, out: &mut Vec<Stmt>) -> Result<(), AllocError>
    ensures { OnOk result (
        script_of out.new.items
        ≡ joined (script_of out.old.items) (words.assigned assignments.items)) }
{
    for assignment in assignments {
        let Assignment { name, value } = assignment;
        let effect = Effect::Assign { name, value };
        out.push(Stmt::Do {
            declares: Declares::Nothing,
            effect,
        })?;
    }
    Ok(())
}

/// Checks that bare text has blanks and comments alone.
fn check_idle(alloc: Global, stage: Stage, at: usize, text: &[u8]) -> Result<(), ParseFault>
    ensures { Gives (λ _. Done) result (words.idle_or (is_idle text.now) (bare_fault stage at)) }
{
    if is_idle(alloc, text)? {
        Ok(())
    } else {
        Err(bare_fault(stage, at))
    }
}

/// Appends the statements of bare text at `at`: the assignments in its value, if the list may hold
/// them. Before AC_INIT and after AC_OUTPUT, it may have blanks and comments alone.
#[tactic(auto, unfolding(crate::specs::Bare::bare_of))]
pub(crate) fn read_bare(
    alloc: Global,
    list_kind: ListKind<'_>,
    stage: Stage,
    at: usize,
    text: &[u8],
    out: &mut Vec<Stmt>,
) -> Result<(), ParseFault>
    ensures { Gives (λ _. script_of out.new.items) result (
        following (script_of out.old.items) (
        words.bare_of (list_kind_of list_kind.entry) stage at text.now)) }
{
    match stage {
        Stage::Open => {
            let assignments = assignments(alloc, list_kind, at, text)?;
            push_all(assignments.into_vec(), out)?;
            Ok(())
        }
        Stage::Before => check_idle(alloc, stage, at, text),
        Stage::Ended => check_idle(alloc, stage, at, text),
    }
}
