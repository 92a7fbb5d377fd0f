//! The names that statements may define, with their descriptions.

ghost use Rattle.std.specs.Prelude.{◌≡◌, ◌++◌, [], ◌∷◌, map, IfOk, OnOk};
ghost use Rattle.ac_tree.specs.Script.{Done, cases_of, script_of, stmt_then};
ghost use Rattle.ac_tree.specs.declared.listed.Sought.TheVariants.{ListEntry};
ghost use Rattle.header_template.specs.Mentions as specs;
ghost use Rattle.header_template.specs.Table.{described};

use crate::table::{Table, description_in};
use crate::words::{add_library, add_package, add_sought};
use ac_tree::{Case, Effect, Question, Sought, Source, Stmt, Subject};
use deftable::Bytes;
use std::alloc::{AllocError, Global};

/// Adds what entries may define.
fn add_entries(
    alloc: Global,
    sought: Sought,
    entries: &[Bytes],
    list: &mut Vec<(Bytes, Bytes)>,
) -> Result<(), AllocError>
    ensures { OnOk result (
        list.new.items ≡ list.old.items ++ map (specs.sought_mention sought) entries.now) }
{
    for entry in entries {
        add_sought(alloc, sought, entry.as_slice(), list)?;
    }
    Ok(())
}

/// Adds a name that AC_DEFINE or AC_DEFINE_UNQUOTED defines.
fn add_defined(
    alloc: Global,
    notes: &Table,
    name: &[u8],
    list: &mut Vec<(Bytes, Bytes)>,
) -> Result<(), AllocError>
    ensures { OnOk result (
        list.new.items
        ≡ list.old.items ++ (
          name.now,
          described (map (λ e. (e.0.items, e.1.items)) notes.now.entries) name.now,
        ) ∷ []) }
{
    let description = Bytes::from_slice(alloc, description_in(notes, name))?;
    let name = Bytes::from_slice(alloc, name)?;
    list.push((name, description))?;
    Ok(())
}

/// Adds what an effect may define.
fn add_effect(
    alloc: Global,
    notes: &Table,
    effect: &Effect,
    list: &mut Vec<(Bytes, Bytes)>,
) -> Result<(), AllocError>
    ensures { OnOk result (
        list.new.items
        ≡ list.old.items
        ++ specs.mentioned_by (map (λ e. (e.0.items, e.1.items)) notes.now.entries)
        effect.now) }
{
    match effect {
        Effect::Define { name, .. } | Effect::DefineText { name, .. } => {
            add_defined(alloc, notes, name.as_slice(), list)
        }
        Effect::Package { .. } => add_package(alloc, list),
        Effect::Batch {
            listed,
            entries,
            ..
        } => add_entries(alloc, Sought::ListEntry(*listed), entries.as_slice(), list),
        _ => Ok(()),
    }
}

/// Adds what a question may define.
fn add_question(
    alloc: Global,
    question: &Question,
    list: &mut Vec<(Bytes, Bytes)>,
) -> Result<(), AllocError>
    ensures { OnOk result (
        list.new.items ≡ list.old.items ++ specs.mentioned_asking question.now) }
{
    match question {
        Question::ChecksEach {
            sought,
            entries,
            ..
        } => add_entries(alloc, *sought, entries.as_slice(), list),
        Question::Library {
            library,
            adds: true,
            ..
        } => add_library(alloc, library.as_slice(), list),
        _ => Ok(()),
    }
}

/// Adds what the subject of a choice may define.
fn add_subject(
    alloc: Global,
    subject: &Subject,
    list: &mut Vec<(Bytes, Bytes)>,
) -> Result<(), AllocError>
    ensures { OnOk result (
        list.new.items ≡ list.old.items ++ specs.mentioned_about subject.now) }
{
    match subject {
        Subject::Asked(question) => add_question(alloc, question, list),
        _ => Ok(()),
    }
}

/// Adds what a statement may define.
#[cycle(list)]
fn add_statement(
    alloc: Global,
    notes: &Table,
    statement: &Stmt,
    list: &mut Vec<(Bytes, Bytes)>,
) -> Result<(), AllocError>
    ensures { OnOk result (
        list.new.items
        ≡ list.old.items
        ++ specs.mentions_in (map (λ e. (e.0.items, e.1.items)) notes.now.entries)
        (stmt_then statement.now Done)) }
{
    match statement {
        Stmt::Do { effect, .. } => add_effect(alloc, notes, effect, list),
        Stmt::Choose { subject, cases, .. } => add_choice(
            alloc,
            notes,
            subject,
            cases.as_slice(),
            list,
        ),
        Stmt::CacheCheck { commands, .. } => {
            add_statements(alloc, notes, commands.as_slice(), list)
        }
    }
}

/// Adds what the subject of a choice and the statements of its cases may define.
#[cycle(list)]
#[tactic(auto, using(crate::proofs::Adding::then_all))]
fn add_choice(
    alloc: Global,
    notes: &Table,
    subject: &Subject,
    cases: &[Case],
    list: &mut Vec<(Bytes, Bytes)>,
) -> Result<(), AllocError>
    ensures { OnOk result (
        list.new.items
        ≡ list.old.items
        ++ (specs.mentioned_about subject.now
        ++ specs.mentions_in_cases (map (λ e. (e.0.items, e.1.items)) notes.now.entries)
        (cases_of cases.now))) }
{
    add_subject(alloc, subject, list)?;
    add_cases(alloc, notes, cases, list)?;
    Ok(())
}

/// Adds what the statements of cases may define.
#[cycle(list)]
#[tactic(auto, using(crate::proofs::Adding::on_case))]
fn add_cases(
    alloc: Global,
    notes: &Table,
    cases: &[Case],
    list: &mut Vec<(Bytes, Bytes)>,
) -> Result<(), AllocError>
    ensures { OnOk result (
        list.new.items
        ≡ list.old.items
        ++ specs.mentions_in_cases (map (λ e. (e.0.items, e.1.items)) notes.now.entries)
        (cases_of cases.now)) }
{
    for case in cases {
        add_statements(alloc, notes, case.body.as_slice(), list)?;
    }
    Ok(())
}

/// Adds what statements may define.
#[cycle(list)]
fn add_statements(
    alloc: Global,
    notes: &Table,
    statements: &[Stmt],
    list: &mut Vec<(Bytes, Bytes)>,
) -> Result<(), AllocError>
    ensures { OnOk result (
        list.new.items
        ≡ list.old.items
        ++ specs.mentions_in (map (λ e. (e.0.items, e.1.items)) notes.now.entries)
        (script_of statements.now)) }
{
    for statement in statements {
        add_statement(alloc, notes, statement, list)?;
    }
    Ok(())
}

/// Returns what the statements of a source may define, in order.
pub(crate) fn mentions_of(
    alloc: Global,
    notes: &Table,
    source: &Source,
) -> Result<Vec<(Bytes, Bytes)>, AllocError>
    ensures { IfOk result (λ v.
        v.items
        ≡ specs.mentions_in (map (λ e. (e.0.items, e.1.items)) notes.now.entries)
        (script_of source.now)) }
{
    let mut list = Vec::new(alloc);
    add_statements(alloc, notes, source.statements(), &mut list)?;
    Ok(list)
}
