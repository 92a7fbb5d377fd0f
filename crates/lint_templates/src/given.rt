//! What a source gives its templates.

ghost use Rattle.std.specs.Prelude.{◌≡◌, ◌∷◌, ◌++◌, [], map, IfOk, OnOk};
ghost use Rattle.ac_tree.specs.Definitions.{sought_definition, library_definition};
ghost use Rattle.ac_tree.specs.Script.{Done, cases_of, script_of, stmt_then};
ghost use Rattle.ac_tree.specs.declared.listed.Sought.TheVariants.{ListEntry};
ghost use Rattle.lint_templates.specs.Given as specs;
ghost use Rattle.lint_templates.specs.Names.{with_all, with_formed};
ghost use Rattle.options_line.specs.Directories.{directory_names, variable_of};

use ac_tree::definitions::{library_definition, sought_definition};
use ac_tree::{Case, Effect, Question, Sought, Source, Stmt, Subject};
use deftable::{Bytes, SubstList, is_shell_name};
use options_line::{Directory, directories};
use output_list::OutputList;
use std::alloc::{AllocError, Global};

/// The names that a source gives its templates. Statements in cases that a run does not take count
/// too.
#[derive(Drop)]
pub struct Given {
    /// The output variables, those of each file among them.
    pub variables: SubstList,
    /// The definitions that a run may make. If the source makes no header, they are left out, since
    /// no template lists them.
    pub defined: SubstList,
}

/// The output variables that each file has.
#[rattlefmt::skip]
const PRESET: [&[u8]; 6] = [b"configure_input", b"srcdir", b"top_srcdir", b"builddir", b"top_builddir", b"LIBS"];

/// The names that AC_INIT defines, which are output variables too.
#[rattlefmt::skip]
const OF_PACKAGE: [&[u8]; 6] = [
    b"PACKAGE_NAME", b"PACKAGE_TARNAME", b"PACKAGE_VERSION", b"PACKAGE_STRING", b"PACKAGE_BUGREPORT", b"PACKAGE_URL",
];

/// Returns the output variables that each file has.
#[tactic(auto, unfolding(crate::specs::Given::preset))]
fn preset() -> &'static [&'static [u8]]
    ensures { map (λ name. name.now) result.now ≡ specs.preset }
{
    &PRESET
}

/// Returns the names that AC_INIT defines.
#[tactic(auto, unfolding(crate::specs::Given::of_package))]
fn of_package() -> &'static [&'static [u8]]
    ensures { map (λ name. name.now) result.now ≡ specs.of_package }
{
    &OF_PACKAGE
}

/// Adds a name, if it is a shell name.
pub(crate) fn add_name(list: &mut SubstList, name: &[u8]) -> Result<(), AllocError>
    ensures { OnOk result (list.new ≡ with_formed list.old name.now) }
{
    if is_shell_name(name) {
        return list.add(name);
    }
    Ok(())
}

/// Adds names.
fn add_all(list: &mut SubstList, names: &[&[u8]]) -> Result<(), AllocError>
    ensures { OnOk result (list.new ≡ with_all list.old (map (λ name. name.now) names.now)) }
{
    for name in names {
        add_name(list, *name)?;
    }
    Ok(())
}

/// Adds the variables of directories.
fn add_directories(list: &mut SubstList, directories: &[Directory]) -> Result<(), AllocError>
    ensures { OnOk result (list.new ≡ with_all list.old (map variable_of directories.now)) }
{
    for directory in directories {
        add_name(list, directory.variable())?;
    }
    Ok(())
}

/// Adds the variables that the source names.
fn add_named(list: &mut SubstList, names: &[Bytes]) -> Result<(), AllocError>
    ensures { OnOk result (list.new ≡ with_all list.old names.now) }
{
    for name in names {
        add_name(list, name.as_slice())?;
    }
    Ok(())
}

/// Adds DEFS, if the source makes a header.
fn add_defs(list: &mut SubstList, headers: &OutputList) -> Result<(), AllocError>
    ensures { OnOk result (list.new ≡ with_all list.old (specs.defs_for headers.now)) }
{
    if headers.is_empty() {
        return Ok(());
    }
    add_name(list, b"DEFS")
}

/// Returns the output variables of a source.
fn variables_of(alloc: Global, source: &Source) -> Result<SubstList, AllocError>
    ensures { IfOk result (λ list. list ≡ specs.variables_of (script_of source.now)) }
{
    let mut list = SubstList::new(alloc);
    add_all(&mut list, preset())?;
    add_all(&mut list, of_package())?;
    add_directories(&mut list, directories())?;
    add_named(&mut list, source.substituted().names())?;
    add_defs(&mut list, source.headers())?;
    Ok(list)
}

/// Adds the definitions of entries.
fn add_entries(
    alloc: Global,
    list: &mut SubstList,
    sought: Sought,
    entries: &[Bytes],
) -> Result<(), AllocError>
    ensures { OnOk result (
        list.new ≡ with_all list.old (map (sought_definition sought) entries.now)) }
{
    for entry in entries {
        let name = sought_definition(alloc, sought, entry.as_slice())?;
        add_name(list, name.as_slice())?;
    }
    Ok(())
}

/// Adds what an effect may define.
fn add_effect(alloc: Global, list: &mut SubstList, effect: &Effect) -> Result<(), AllocError>
    ensures { OnOk result (list.new ≡ with_all list.old (specs.defined_by effect.now)) }
{
    match effect {
        Effect::Define { name, .. } | Effect::DefineText { name, .. } => {
            add_name(list, name.as_slice())
        }
        Effect::Batch {
            listed,
            entries,
            ..
        } => { add_entries(alloc, list, Sought::ListEntry(*listed), entries.as_slice()) }
        _ => Ok(()),
    }
}

/// Adds what a library defines that has a function.
fn add_library(alloc: Global, list: &mut SubstList, library: &[u8]) -> Result<(), AllocError>
    ensures { OnOk result (list.new ≡ with_all list.old (library_definition library.now ∷ [])) }
{
    let name = library_definition(alloc, library)?;
    add_name(list, name.as_slice())
}

/// Adds what a question may define.
fn add_question(alloc: Global, list: &mut SubstList, question: &Question) -> Result<(), AllocError>
    ensures { OnOk result (list.new ≡ with_all list.old (specs.defined_asking question.now)) }
{
    match question {
        Question::ChecksEach {
            sought,
            entries,
            ..
        } => add_entries(alloc, list, *sought, entries.as_slice()),
        Question::Library {
            library,
            adds: true,
            ..
        } => add_library(alloc, list, library.as_slice()),
        _ => Ok(()),
    }
}

/// Adds what the subject of a choice may define.
fn add_subject(alloc: Global, list: &mut SubstList, subject: &Subject) -> Result<(), AllocError>
    ensures { OnOk result (list.new ≡ with_all list.old (specs.defined_about subject.now)) }
{
    match subject {
        Subject::Asked(question) => add_question(alloc, list, question),
        _ => Ok(()),
    }
}

/// Adds what a statement may define.
#[cycle(list)]
fn add_statement(alloc: Global, list: &mut SubstList, statement: &Stmt) -> Result<(), AllocError>
    ensures { OnOk result (
        list.new ≡ with_all list.old (specs.defined_in (stmt_then statement.now Done))) }
{
    match statement {
        Stmt::Do { effect, .. } => add_effect(alloc, list, effect),
        Stmt::Choose { subject, cases, .. } => add_choice(alloc, list, subject, cases.as_slice()),
        Stmt::CacheCheck { commands, .. } => add_statements(alloc, list, commands.as_slice()),
    }
}

/// Adds what the subject of a choice and the statements of its cases may define.
#[cycle(list)]
#[tactic(auto, using(crate::proofs::Adding::then_all))]
fn add_choice(
    alloc: Global,
    list: &mut SubstList,
    subject: &Subject,
    cases: &[Case],
) -> Result<(), AllocError>
    ensures { OnOk result (
        list.new
        ≡ with_all list.old
        (specs.defined_about subject.now ++ specs.defined_in_cases (cases_of cases.now))) }
{
    add_subject(alloc, list, subject)?;
    add_cases(alloc, list, cases)?;
    Ok(())
}

/// Adds what the statements of cases may define.
#[cycle(list)]
fn add_cases(alloc: Global, list: &mut SubstList, cases: &[Case]) -> Result<(), AllocError>
    ensures { OnOk result (
        list.new ≡ with_all list.old (specs.defined_in_cases (cases_of cases.now))) }
{
    for case in cases {
        add_statements(alloc, list, case.body.as_slice())?;
    }
    Ok(())
}

/// Adds what statements may define.
#[cycle(list)]
fn add_statements(
    alloc: Global,
    list: &mut SubstList,
    statements: &[Stmt],
) -> Result<(), AllocError>
    ensures { OnOk result (
        list.new ≡ with_all list.old (specs.defined_in (script_of statements.now))) }
{
    for statement in statements {
        add_statement(alloc, list, statement)?;
    }
    Ok(())
}

/// Returns the definitions that a run of a source may make, if it makes a header.
#[tactic(auto, using(crate::proofs::Adding::then_all), unfolding(crate::specs::Given::definitions_of))]
fn defined_by(alloc: Global, source: &Source) -> Result<SubstList, AllocError>
    ensures { IfOk result (λ list. list ≡ specs.definitions_of (script_of source.now)) }
{
    let mut list = SubstList::new(alloc);
    if source.headers().is_empty() {
        return Ok(list);
    }
    add_all(&mut list, of_package())?;
    add_statements(alloc, &mut list, source.statements())?;
    Ok(list)
}

impl Given {
    /// Returns what a source gives its templates.
    ///
    /// # Errors
    ///
    /// Fails only if memory runs out.
    pub fn of(alloc: Global, source: &Source) -> Result<Given, AllocError>
        // The variables are those of the source and no others, each once.
        ensures variables { IfOk result (λ given.
            given.variables ≡ specs.variables_of (script_of source.now)) }
        // The definitions are those that a run may make and no others, each once.
        ensures definitions { IfOk result (λ given.
            given.defined ≡ specs.definitions_of (script_of source.now)) }
    {
        let variables = variables_of(alloc, source)?;
        let defined = defined_by(alloc, source)?;
        Ok(Given { variables, defined })
    }
}
