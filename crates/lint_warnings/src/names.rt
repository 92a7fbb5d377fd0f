//! The variables that a source sets and reads.

use ac_tree::{
    Case, Declares, Effect, OptionKind, Question, Reads, Source, Stmt, Subject, Uses, When,
    uses_asked, uses_of,
};
use deftable::{Name, SubstList, is_shell_name};
use shellword::{Condition, Element, Part, Test};
use std::alloc::{AllocError, Global};

/// The variables that a source sets, declares or reads. Statements in cases that a run does not
/// take count too.
#[derive(Drop)]
pub(crate) struct Names {
    /// Those that a statement sets, or that AC_ARG_VAR or AC_PROG_CC declares.
    pub(crate) set: SubstList,
    /// Those that are read. AC_SUBST without a value reads its variable.
    pub(crate) read: SubstList,
    /// Those that AC_SUBST makes output variables.
    pub(crate) output: SubstList,
}

/// The variables that AC_PROG_CC declares.
const OF_COMPILER: [&[u8]; 5] = [b"CC", b"CFLAGS", b"LDFLAGS", b"LIBS", b"CPPFLAGS"];

/// Adds a name, if it is a shell name.
fn add_name(list: &mut SubstList, name: &[u8]) -> Result<(), AllocError> {
    if is_shell_name(name) {
        return list.add(name);
    }
    Ok(())
}

/// Adds the variables that parts of a text read.
fn add_parts(list: &mut SubstList, parts: &[Part]) -> Result<(), AllocError> {
    for part in parts {
        if let Part::Variable(name) = part {
            add_name(list, name.as_slice())?;
        }
    }
    Ok(())
}

/// Adds the variables that texts read.
fn add_texts(list: &mut SubstList, reads: Reads<'_>) -> Result<(), AllocError> {
    match reads {
        Reads::Nothing => Ok(()),
        Reads::Variable(name) => add_name(list, name.as_slice()),
        Reads::Text(text) => add_parts(list, text),
        Reads::Texts(first, second) => {
            add_parts(list, first)?;
            add_parts(list, second)
        }
    }
}

/// Adds the variable that is assigned, if one is.
fn add_assigned(list: &mut SubstList, name: Option<&Name>) -> Result<(), AllocError> {
    match name {
        Some(name) => add_name(list, name.as_slice()),
        None => Ok(()),
    }
}

/// Adds what a statement or a question uses. A test sets its name.
fn add_uses(names: &mut Names, uses: &Uses<'_>) -> Result<(), AllocError> {
    add_texts(&mut names.read, uses.reads)?;
    add_assigned(&mut names.set, uses.assigns)?;
    for test in uses.tests.as_slice() {
        add_name(&mut names.set, test.as_slice())?;
    }
    Ok(())
}

/// Adds what a statement declares.
fn add_declared(names: &mut Names, declares: &Declares) -> Result<(), AllocError> {
    match declares {
        Declares::Variable { name } => add_name(&mut names.output, name.as_slice()),
        Declares::Precious { name, .. } => add_name(&mut names.set, name.as_slice()),
        Declares::Option { variable, .. } => add_name(&mut names.set, variable.as_slice()),
        Declares::Compiler => add_compiler(&mut names.set),
        _ => Ok(()),
    }
}

/// Adds the variables that AC_PROG_CC declares.
fn add_compiler(list: &mut SubstList) -> Result<(), AllocError> {
    for name in &OF_COMPILER {
        add_name(list, *name)?;
    }
    Ok(())
}

/// Adds what a statement with no statements in it uses.
fn add_done(
    alloc: Global,
    names: &mut Names,
    declares: &Declares,
    effect: &Effect,
) -> Result<(), AllocError> {
    let uses = uses_of(alloc, declares, effect)?;
    add_declared(names, declares)?;
    add_uses(names, &uses)
}

/// Adds what a question uses.
fn add_asked(alloc: Global, names: &mut Names, question: &Question) -> Result<(), AllocError> {
    let uses = uses_asked(alloc, question)?;
    if let Question::Given { kind, .. } = question {
        add_name(&mut names.set, given_name(*kind))?;
    }
    add_uses(names, &uses)
}

/// Returns the name of the variable that has the value of an option.
fn given_name(kind: OptionKind) -> &'static [u8] {
    match kind {
        OptionKind::Feature => b"enableval",
        OptionKind::Package => b"withval",
    }
}

/// Adds the variables that a condition reads.
fn add_condition(list: &mut SubstList, condition: &Condition) -> Result<(), AllocError> {
    match condition {
        Condition::True | Condition::False => Ok(()),
        Condition::Nonempty(word) | Condition::Empty(word) => add_parts(list, word.parts()),
        Condition::Equal(left, right) | Condition::Different(left, right) => {
            add_parts(list, left.parts())?;
            add_parts(list, right.parts())
        }
    }
}

/// Adds the variables that an element of a test reads.
fn add_element(list: &mut SubstList, element: &Element) -> Result<(), AllocError> {
    add_condition(list, &element.condition)
}

/// Adds the variables that a test reads.
fn add_test(list: &mut SubstList, test: &Test) -> Result<(), AllocError> {
    let (first, rest) = test.elements();
    add_element(list, first)?;
    for next in rest {
        add_element(list, &next.1)?;
    }
    Ok(())
}

/// Adds what the condition of a case reads.
fn add_when(list: &mut SubstList, when: &When) -> Result<(), AllocError> {
    match when {
        When::Holds(test) => add_test(list, test),
        _ => Ok(()),
    }
}

/// Adds what the subject of a choice uses.
fn add_subject(alloc: Global, names: &mut Names, subject: &Subject) -> Result<(), AllocError> {
    match subject {
        Subject::Nothing => Ok(()),
        Subject::Word(word) => add_parts(&mut names.read, word.parts()),
        Subject::Asked(question) => add_asked(alloc, names, question),
    }
}

/// Adds what a statement uses.
#[cycle(list)]
fn add_statement(alloc: Global, names: &mut Names, statement: &Stmt) -> Result<(), AllocError> {
    match statement {
        Stmt::Do { declares, effect } => add_done(alloc, names, declares, effect),
        Stmt::Choose {
            declares,
            subject,
            cases,
        } => {
            add_declared(names, declares)?;
            add_subject(alloc, names, subject)?;
            add_cases(alloc, names, cases.as_slice())
        }
        Stmt::CacheCheck {
            message,
            name,
            commands,
        } => {
            add_parts(&mut names.read, message.parts())?;
            add_name(&mut names.set, name.as_slice())?;
            add_statements(alloc, names, commands.as_slice())
        }
    }
}

/// Adds what the cases of a choice use.
#[cycle(list)]
fn add_cases(alloc: Global, names: &mut Names, cases: &[Case]) -> Result<(), AllocError> {
    for case in cases {
        add_when(&mut names.read, &case.when)?;
        add_statements(alloc, names, case.body.as_slice())?;
    }
    Ok(())
}

/// Adds what statements use.
#[cycle(list)]
fn add_statements(alloc: Global, names: &mut Names, statements: &[Stmt]) -> Result<(), AllocError> {
    for statement in statements {
        add_statement(alloc, names, statement)?;
    }
    Ok(())
}

impl Names {
    /// Returns the variables that a source sets, declares or reads.
    pub(crate) fn of(alloc: Global, source: &Source) -> Result<Names, AllocError> {
        let mut names = Names {
            set: SubstList::new(alloc),
            read: SubstList::new(alloc),
            output: SubstList::new(alloc),
        };
        add_statements(alloc, &mut names, source.statements())?;
        Ok(names)
    }
}
