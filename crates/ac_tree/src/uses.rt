//! What statements and questions use, for the rules of sources that can be resumed (own).

ghost use Rattle.std.specs.Prelude.{◌≡◌, ℕ, List, [], ◌∷◌, ◌++◌, IfOk, Some, None, true, false, map, option_to_list};
ghost use Rattle.ac_tree.specs.TestNames as names;
ghost use Rattle.ac_tree.specs.Uses as rules;
ghost use Rattle.ac_tree.specs.Uses.{program_texts, texts_read, used, uses_asked, uses_declared, uses_of, value_text};

use crate::listed::Sought;
use crate::program::Program;
use crate::statement::{Declares, Effect, ProgramValue, Question};
use crate::test_names::{libraries_name, library_name, program_name, search_name, sought_name};
use deftable::{Bytes, Name, Texts};
use shellword::{HereText, Part};
use std::alloc::{AllocError, Global};

/// The texts whose variables are read: two at most.
#[derive(Clone, Copy)]
pub enum Reads<'a> {
    /// No text.
    Nothing,
    /// A variable by itself.
    Variable(&'a Name),
    /// One text.
    Text(&'a [Part]),
    /// Two texts, in the order in which they are read.
    Texts(&'a [Part], &'a [Part]),
}

/// What a statement or a question uses.
#[derive(Drop)]
pub struct Uses<'a> {
    /// The variable that it assigns, if it assigns one.
    pub assigns: Option<&'a Name>,
    /// The texts whose variables it reads.
    pub reads: Reads<'a>,
    /// The names that it tests, in order.
    pub tests: Texts,
    /// Whether a test of it may leave its name unset.
    pub alone: bool,
    /// Whether it tries a program.
    pub tries: bool,
}

/// Reads texts, and uses nothing else.
fn reading<'a>(alloc: Global, reads: Reads<'a>) -> Uses<'a>
    ensures { used result ≡ rules.reading (texts_read reads.entry) }
{
    Uses {
        assigns: None,
        reads,
        tests: Texts::new(alloc),
        alone: false,
        tries: false,
    }
}

/// Assigns a variable after texts are read.
fn assigning<'a>(alloc: Global, variable: &'a Name, reads: Reads<'a>) -> Uses<'a>
    ensures { used result ≡ rules.assigning variable.now (texts_read reads.entry) }
{
    Uses {
        assigns: Some(variable),
        reads,
        tests: Texts::new(alloc),
        alone: false,
        tries: false,
    }
}

/// Returns a text, if there is one.
fn if_given<'a>(text: &'a Option<HereText>) -> Reads<'a>
    ensures { texts_read result ≡ option_to_list text.now }
{
    match text {
        None => Reads::Nothing,
        Some(text) => Reads::Text(text.parts()),
    }
}

/// Returns the texts of the values that a variable gets if its program is found and if it isn't.
fn values<'a>(value: &'a ProgramValue, otherwise: &'a Option<HereText>) -> Reads<'a>
    ensures { texts_read result ≡ value_text value.now ++ option_to_list otherwise.now }
{
    match value {
        ProgramValue::Text(text) => match otherwise {
            None => Reads::Text(text.parts()),
            Some(other) => Reads::Texts(text.parts(), other.parts()),
        },
        ProgramValue::FullName => if_given(otherwise),
    }
}

/// Tests names after a text is read, if there is one.
fn testing<'a>(tests: Texts, text: &'a Option<HereText>) -> Uses<'a>
    ensures { used result ≡ rules.testing tests text.now }
{
    Uses {
        assigns: None,
        reads: if_given(text),
        tests,
        alone: false,
        tries: false,
    }
}

/// Returns a list of one name.
fn one(alloc: Global, name: Bytes) -> Result<Texts, AllocError>
    ensures { IfOk result (λ t. t ≡ name ∷ []) }
{
    let mut names = Vec::new(alloc);
    names.push(name)?;
    Ok(Texts::from_vec(names))
}

/// Returns the names of the tests of entries, in order.
fn each(alloc: Global, sought: Sought, entries: &[Bytes]) -> Result<Texts, AllocError>
    ensures { IfOk result (λ t. t ≡ map (names.sought_name sought) entries.now) }
{
    let mut names = Vec::new(alloc);
    for entry in entries {
        let name = sought_name(alloc, sought, entry.as_slice())?;
        names.push(name)?;
    }
    Ok(Texts::from_vec(names))
}

/// Looks for a program, by tests that may leave their names unset.
fn searching_by<'a>(variable: &'a Name, reads: Reads<'a>, tests: Texts) -> Uses<'a>
    ensures { used result
        ≡ record {
          assigns = Some variable.now;
          reads = texts_read reads.entry;
          tests = tests;
          alone = true;
          tries = false;
        } }
{
    Uses {
        assigns: Some(variable),
        reads,
        tests,
        alone: true,
        tries: false,
    }
}

/// Looks for a program, by a test of a name that it may leave unset.
fn searching<'a>(
    alloc: Global,
    variable: &'a Name,
    name: Bytes,
    reads: Reads<'a>,
) -> Result<Uses<'a>, AllocError>
    ensures { IfOk result (λ u.
        used u ≡ rules.searching variable.now name (texts_read reads.entry)) }
{
    let tests = one(alloc, name)?;
    Ok(searching_by(variable, reads, tests))
}

/// Tests one name after a text is read, if there is one.
fn testing_one<'a>(
    alloc: Global,
    name: Bytes,
    text: &'a Option<HereText>,
) -> Result<Uses<'a>, AllocError>
    ensures { IfOk result (λ u. used u ≡ rules.testing (name ∷ []) text.now) }
{
    one(alloc, name).map(|tests| testing(tests, text))
}

/// Tests entries after a text is read, if there is one.
fn testing_each<'a>(
    alloc: Global,
    sought: Sought,
    entries: &[Bytes],
    text: &'a Option<HereText>,
) -> Result<Uses<'a>, AllocError>
    ensures { IfOk result (λ u.
        used u ≡ rules.testing (map (names.sought_name sought) entries.now) text.now) }
{
    each(alloc, sought, entries).map(|tests| testing(tests, text))
}

/// Returns what a declaration alone uses: AC_SUBST without a value reads its variable.
fn uses_declared<'a>(alloc: Global, declares: &'a Declares) -> Uses<'a>
    ensures { used result ≡ uses_declared declares.now }
{
    match declares {
        Declares::Variable { name } => reading(alloc, Reads::Variable(name)),
        _ => reading(alloc, Reads::Nothing),
    }
}

/// Returns what a statement with no statements in it uses.
///
/// AC_CHECK_PROGS and AC_PROG_CC test one name for all their programs.
pub fn uses_of<'a>(
    alloc: Global,
    declares: &'a Declares,
    effect: &'a Effect,
) -> Result<Uses<'a>, AllocError>
    ensures { IfOk result (λ u. used u ≡ uses_of declares.now effect.now) }
{
    match effect {
        Effect::Nothing => Ok(uses_declared(alloc, declares)),
        Effect::Assign { name, value } => Ok(assigning(alloc, name, Reads::Text(value.parts()))),
        Effect::DefineText { value: text, .. }
        | Effect::Print { text, .. }
        | Effect::Stop { text, .. } => Ok(reading(alloc, Reads::Text(text.parts()))),
        Effect::Search {
            variable,
            value,
            otherwise,
            ..
        } => {
            let name = search_name(alloc, value, variable.as_slice())?;
            searching(alloc, variable, name, values(value, otherwise))
        }
        Effect::Searches {
            variable,
            otherwise,
            ..
        } => {
            let name = program_name(alloc, variable.as_slice())?;
            searching(alloc, variable, name, if_given(otherwise))
        }
        Effect::Batch {
            listed,
            entries,
            includes,
        } => testing_each(
            alloc,
            Sought::ListEntry(*listed),
            entries.as_slice(),
            includes,
        ),
        Effect::Define { .. } | Effect::Package { .. } | Effect::Complete => {
            Ok(reading(alloc, Reads::Nothing))
        }
    }
}

/// Returns the texts of a program that is tried.
fn program_texts<'a>(program: &'a Program) -> Reads<'a>
    ensures { texts_read result ≡ program_texts program.now }
{
    match program {
        Program::Program { prologue, body } => Reads::Texts(prologue.parts(), body.parts()),
        Program::Whole { text } => Reads::Text(text.parts()),
    }
}

/// Tries a program.
fn trying<'a>(alloc: Global, program: &'a Program) -> Uses<'a>
    ensures { used result
        ≡ record {
          assigns = None;
          reads = program_texts program.now;
          tests = [];
          alone = false;
          tries = true;
        } }
{
    Uses {
        assigns: None,
        reads: program_texts(program),
        tests: Texts::new(alloc),
        alone: false,
        tries: true,
    }
}

/// Returns what a question uses.
///
/// The variable of an option is assigned by the command line.
pub fn uses_asked<'a>(alloc: Global, question: &'a Question) -> Result<Uses<'a>, AllocError>
    ensures { IfOk result (λ u. used u ≡ uses_asked question.now) }
{
    match question {
        Question::Given { variable, .. } => Ok(assigning(alloc, variable, Reads::Nothing)),
        Question::Tries { program, .. } => Ok(trying(alloc, program)),
        Question::Checks {
            sought,
            entry,
            includes,
        } => {
            let name = sought_name(alloc, *sought, entry.as_slice())?;
            testing_one(alloc, name, includes)
        }
        Question::ChecksEach {
            sought,
            entries,
            includes,
        } => testing_each(alloc, *sought, entries.as_slice(), includes),
        Question::Library {
            library,
            function,
            others,
            ..
        } => {
            let name = library_name(alloc, library.as_slice(), function.as_slice())?;
            testing_one(alloc, name, others)
        }
        Question::Libraries {
            function,
            others,
            ..
        } => {
            let name = libraries_name(alloc, function.as_slice())?;
            testing_one(alloc, name, others)
        }
    }
}
