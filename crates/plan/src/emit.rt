//! The steps of statements, written from the last to the first, so that the length of each jump is
//! known.

ghost use Rattle.std.specs.Prelude.{◌≡◌, ◌∷◌, ◌++◌, IfOk, OnOk, true};
ghost use Rattle.meaning.specs.Meaning.{rounds_asked, rounds_of};
ghost use Rattle.ac_tree.specs.declared.statement.Question.TheVariants.{ChecksEach};
ghost use Rattle.ac_tree.specs.declared.tree.Subject.TheVariants.{Asked};
ghost use Rattle.ac_tree.specs.Script.{Done, script_of, cases_of, stmt_then};
ghost use Rattle.plan.specs.Code.{case_code, check_code, code_after, code_each, code_of, code_of_cases, code_of_programs, default_code};
ghost use Rattle.plan.specs.Inside.{IsShort};
ghost use Rattle.plan.specs.Names.{DefinesIn};
ghost use Rattle.plan.specs.Walk.{instruction_of};

use crate::code::Code;
use crate::step::Step;
use ac_tree::{Case, Effect, Question, Sought, Stmt, Subject};
use deftable::Bytes;
use shellword::HereText;
use std::alloc::{AllocError, Global};

/// Puts the steps of the programs that are looked for at the front.
fn emit_programs<'a>(
    code: &mut Code<'a>,
    variable: &'a [u8],
    programs: &'a [Bytes],
) -> Result<(), AllocError>
    ensures { OnOk result (code.new ≡ code_of_programs variable.now programs.now true ++ code.old) }
{
    for i in (0..programs.len()).rev() {
        code.put(Step::Look {
            variable,
            program: &programs[i],
            always: i == 0,
        })?;
    }
    Ok(())
}

/// Puts the step of a default at the front, if there is one.
fn emit_default<'a>(
    code: &mut Code<'a>,
    variable: &'a [u8],
    value: &'a Option<HereText>,
) -> Result<(), AllocError>
    ensures { OnOk result (code.new ≡ default_code variable.now value.now ++ code.old) }
{
    match value {
        None => Ok(()),
        Some(value) => code.put(Step::Default { variable, value }),
    }
}

/// Puts the steps that follow the own step of an effect at the front.
fn emit_after<'a>(code: &mut Code<'a>, effect: &'a Effect) -> Result<(), AllocError>
    ensures { OnOk result (code.new ≡ code_after effect.now ++ code.old) }
{
    match effect {
        Effect::Searches {
            variable,
            programs,
            otherwise,
        } => {
            emit_default(code, variable.as_slice(), otherwise)?;
            emit_programs(code, variable.as_slice(), programs.as_slice())
        }
        _ => Ok(()),
    }
}

/// Puts the steps of the statements at the front.
#[cycle(emit)]
fn emit<'a>(code: &mut Code<'a>, statements: &'a [Stmt]) -> Result<(), AllocError>
    ensures { OnOk result (code.new ≡ code_of (script_of statements.now) ++ code.old) }
{
    for i in (0..statements.len()).rev() {
        emit_statement(code, &statements[i])?;
    }
    Ok(())
}

#[cycle(emit)]
fn emit_statement<'a>(code: &mut Code<'a>, statement: &'a Stmt) -> Result<(), AllocError>
    ensures { OnOk result (code.new ≡ code_of (stmt_then statement.now Done) ++ code.old) }
{
    match statement {
        Stmt::Do { effect, .. } => {
            emit_after(code, effect)?;
            code.put_effect(effect)?;
            Ok(())
        }
        Stmt::Choose { subject, cases, .. } => emit_choice(code, subject, cases.as_slice()),
        Stmt::CacheCheck {
            message,
            name,
            commands,
        } => emit_check(code, message, name.as_slice(), commands.as_slice()),
    }
}

/// Puts the steps of a choice at the front.
#[cycle(emit)]
#[tactic(auto, using(crate::proofs::Symbols::step_begins))]
fn emit_choice<'a>(
    code: &mut Code<'a>,
    subject: &'a Subject,
    cases: &'a [Case],
) -> Result<(), AllocError>
    ensures { OnOk result (
        code.new
        ≡ code_each (rounds_of subject.now) (code_of_cases (cases_of cases.now)) ++ code.old) }
{
    match subject {
        Subject::Nothing => emit_round(code, Step::Subject(subject), cases),
        Subject::Word(_) => emit_round(code, Step::Subject(subject), cases),
        Subject::Asked(question) => emit_asked(code, subject, question, cases),
    }
}

/// Puts the steps of a choice about a question at the front.
#[cycle(emit)]
#[tactic(auto, using(crate::proofs::Symbols::step_begins))]
fn emit_asked<'a>(
    code: &mut Code<'a>,
    subject: &'a Subject,
    question: &'a Question,
    cases: &'a [Case],
) -> Result<(), AllocError>
    requires { subject.now ≡ Asked question.now }
    ensures { OnOk result (
        code.new
        ≡ code_each (rounds_asked question.now) (code_of_cases (cases_of cases.now))
        ++ code.old) }
{
    match question {
        Question::ChecksEach {
            sought,
            entries,
            includes,
        } => emit_each(code, *sought, entries.as_slice(), includes, cases),
        Question::Checks { .. } => emit_round(code, Step::Subject(subject), cases),
        Question::Tries { .. } => emit_round(code, Step::Subject(subject), cases),
        Question::Given { .. } => emit_round(code, Step::Subject(subject), cases),
        Question::Library { .. } => emit_round(code, Step::Subject(subject), cases),
        Question::Libraries { .. } => emit_round(code, Step::Subject(subject), cases),
    }
}

/// Puts the steps of the rounds of a list at the front.
#[cycle(emit)]
#[tactic(auto, using(crate::proofs::Symbols::step_begins))]
fn emit_each<'a>(
    code: &mut Code<'a>,
    sought: Sought,
    entries: &'a [Bytes],
    includes: &'a Option<HereText>,
    cases: &'a [Case],
) -> Result<(), AllocError>
    ensures { OnOk result (
        code.new
        ≡ code_each (rounds_asked (ChecksEach sought entries.now includes.now))
        (code_of_cases (cases_of cases.now)) ++ code.old) }
{
    for i in (0..entries.len()).rev() {
        emit_round(
            code,
            Step::Round {
                sought,
                entry: &entries[i],
                includes,
            },
            cases,
        )?;
    }
    Ok(())
}

/// Puts the steps of one round at the front: its beginning, and the cases.
#[cycle(emit)]
fn emit_round<'a>(
    code: &mut Code<'a>,
    begins: Step<'a>,
    cases: &'a [Case],
) -> Result<(), AllocError>
    requires names { DefinesIn (instruction_of begins) }
    requires short { IsShort (instruction_of begins) }
    ensures { OnOk result (
        code.new ≡ instruction_of begins.entry ∷ (code_of_cases (cases_of cases.now) ++ code.old)) }
{
    emit_cases(code, cases)?;
    code.put(begins)?;
    Ok(())
}

/// Puts the steps of a check at the front.
#[cycle(emit)]
fn emit_check<'a>(
    code: &mut Code<'a>,
    message: &'a HereText,
    name: &'a [u8],
    commands: &'a [Stmt],
) -> Result<(), AllocError>
    ensures { OnOk result (
        code.new ≡ check_code message.now name.now (code_of (script_of commands.now)) ++ code.old) }
{
    let end = code.len();
    code.put(Step::Close { name })?;
    emit(code, commands)?;
    let length = code.len() - end;
    code.put(Step::Open {
        message,
        name,
        steps: length,
    })?;
    Ok(())
}

#[cycle(emit)]
fn emit_cases<'a>(code: &mut Code<'a>, cases: &'a [Case]) -> Result<(), AllocError>
    ensures { OnOk result (code.new ≡ code_of_cases (cases_of cases.now) ++ code.old) }
{
    let end = code.len();
    for i in (0..cases.len()).rev() {
        let after = code.len() - end;
        emit_case(code, &cases[i], after)?;
    }
    Ok(())
}

/// Puts the steps of a case at the front. `after` is the number of steps of the cases after it.
#[cycle(emit)]
fn emit_case<'a>(code: &mut Code<'a>, case: &'a Case, after: usize) -> Result<(), AllocError>
    ensures { OnOk result (
        code.new
        ≡ case_code case.now.when (code_of (script_of case.now.body.items)) after ++ code.old) }
{
    let end = code.len();
    code.put(Step::Skip { steps: after })?;
    emit(code, case.body.as_slice())?;
    let steps = code.len() - end;
    code.put(Step::SkipUnless {
        when: &case.when,
        steps,
    })?;
    Ok(())
}

/// Returns the steps of the statements.
pub(crate) fn emit_all<'a>(alloc: Global, statements: &'a [Stmt]) -> Result<Code<'a>, AllocError>
    ensures { IfOk result (λ code. code ≡ code_of (script_of statements.now)) }
{
    let mut code = Code::new(alloc);
    emit(&mut code, statements)?;
    Ok(code)
}
