//! The weight of statements.

ghost use Rattle.std.specs.Prelude.{◌≡◌, ◌+◌, ◌-◌, ◌<◌, ◌≤◌, ◌∷◌, [], IfSome, IfNone, length};
ghost use Rattle.ac_tree.specs.Script.{Done, script_of, cases_of, stmt_then};
ghost use Rattle.meaning.specs.Meaning.{rounds_of};
ghost use Rattle.plan.specs.Weight.{entries_asked, entries_of, times, weight, weight_of_cases};

use ac_tree::{Case, Effect, Question, Stmt, Subject};

/// Returns what is left of `room` after the weight of the statements, or `None` if they weigh more.
#[cycle(weigh)]
pub(crate) fn weigh(room: usize, statements: &[Stmt]) -> Option<usize>
    ensures fits { IfSome result (λ left. left + weight (script_of statements.now) ≡ room) }
    ensures exceeds { IfNone result (room < weight (script_of statements.now)) }
{
    let mut left = room;
    for statement in statements {
        let Some(less) = weigh_statement(left, statement) else {
            return None;
        };
        left = less;
    }
    Some(left)
}

/// Returns the number of entries of an effect's list.
fn entries_of(effect: &Effect) -> usize
    ensures { result ≡ entries_of effect.now }
{
    match effect {
        Effect::Searches { programs, .. } => programs.as_slice().len(),
        Effect::Batch { entries, .. } => entries.as_slice().len(),
        _ => 0,
    }
}

/// Returns the number of entries of a choice's list.
fn entries_asked(subject: &Subject) -> usize
    ensures { result ≡ entries_asked subject.now }
{
    match subject {
        Subject::Asked(Question::ChecksEach { entries, .. }) => entries.as_slice().len(),
        Subject::Asked(Question::Libraries { libraries, .. }) => libraries.as_slice().len(),
        _ => 0,
    }
}

/// Returns the number of rounds of a choice.
fn rounds(subject: &Subject) -> usize
    ensures number { result ≡ length (rounds_of subject.now) }
    ensures at_least_one { 0 < result }
{
    match subject {
        Subject::Asked(Question::ChecksEach { entries, .. }) => entries.as_slice().len(),
        _ => 1,
    }
}

/// Returns what is left of `room` after so many times the difference between `room` and `left`.
fn spend(room: usize, left: usize, rounds: usize) -> Option<usize>
    requires { left ≤ room }
    ensures fits { IfSome result (λ rest. rest + times rounds (room - left) ≡ room) }
    ensures exceeds { IfNone result (room < times rounds (room - left)) }
{
    let Some(all) = (room - left).checked_mul(rounds) else {
        return None;
    };
    room.checked_sub(all)
}

#[cycle(weigh)]
fn weigh_statement(room: usize, statement: &Stmt) -> Option<usize>
    ensures fits { IfSome result (λ left. left + weight (stmt_then statement.now Done) ≡ room) }
    ensures exceeds { IfNone result (room < weight (stmt_then statement.now Done)) }
{
    let Some(left) = room.checked_sub(1) else {
        return None;
    };
    match statement {
        Stmt::Do { effect, .. } => left.checked_sub(entries_of(effect)),
        Stmt::Choose { subject, cases, .. } => weigh_choice(left, subject, cases.as_slice()),
        Stmt::CacheCheck { commands, .. } => weigh(left, commands.as_slice()),
    }
}

/// A choice, without the 1 of its statement. Its cases weigh as much in each round.
#[cycle(weigh)]
fn weigh_choice(room: usize, subject: &Subject, cases: &[Case]) -> Option<usize>
    ensures fits { IfSome result (λ left.
        left + (
        entries_asked subject.now + times (length (rounds_of subject.now))
        (weight_of_cases (cases_of cases.now))) ≡ room) }
    ensures exceeds { IfNone result (
        room
        < entries_asked subject.now + times (length (rounds_of subject.now))
        (weight_of_cases (cases_of cases.now))) }
{
    let rounds = rounds(subject);
    let Some(room) = room.checked_sub(entries_asked(subject)) else {
        return None;
    };
    let Some(left) = weigh_cases(room, cases) else {
        return None;
    };
    spend(room, left, rounds)
}

#[cycle(weigh)]
fn weigh_cases(room: usize, cases: &[Case]) -> Option<usize>
    ensures fits { IfSome result (λ left. left + weight_of_cases (cases_of cases.now) ≡ room) }
    ensures exceeds { IfNone result (room < weight_of_cases (cases_of cases.now)) }
{
    let mut left = room;
    for case in cases {
        let Some(less) = weigh_case(left, case) else {
            return None;
        };
        left = less;
    }
    Some(left)
}

#[cycle(weigh)]
fn weigh_case(room: usize, case: &Case) -> Option<usize>
    ensures fits { IfSome result (λ left.
        left + weight_of_cases (cases_of (case.now ∷ [])) ≡ room) }
    ensures exceeds { IfNone result (room < weight_of_cases (cases_of (case.now ∷ []))) }
{
    let Some(left) = room.checked_sub(1) else {
        return None;
    };
    weigh(left, case.body.as_slice())
}
