//! The rules for lists of statements.

ghost use Rattle.std.specs.Prelude.{◌≡◌, ◌&&◌, ◌++◌, IfOk, OnOk, option_map};
ghost use Rattle.ac_tree.specs.Decide as decide;
ghost use Rattle.ac_tree.specs.Resumable.{first_alone};
ghost use Rattle.ac_tree.specs.Script.{Script, Then, Choice, Check, cases_of, script_of, stmt_then};
ghost use Rattle.ac_tree.specs.declared.tree.Subject.TheVariants.{Asked};
ghost use Rattle.ac_resumable.specs.Tested.{Extends};

use crate::reads::{reads_text, reads_when};
use crate::rules::may_use;
use crate::tested::Tested;
use ac_tree::{Case, Declares, Effect, Question, Stmt, Subject, uses_asked, uses_of};
use deftable::Bytes;
use shellword::HereText;
use std::alloc::{AllocError, Global};

/// Returns whether the statements keep the rules, and adds what they test.
#[cycle(list)]
fn keeps_all(own: Option<&[u8]>, tested: &mut Tested, list: &[Stmt]) -> Result<bool, AllocError>
    ensures value { IfOk result (λ b.
        b ≡ decide.resumable (option_map (λ x. x.now) own.entry) tested.old (script_of list.now)) }
    ensures grown { OnOk result (Extends tested.old tested.new) }
{
    for statement in list {
        if !keeps(own, tested, statement)? {
            return Ok(false);
        }
    }
    Ok(true)
}

/// Returns whether the statements keep the rules. What they test is forgotten.
#[cycle(list)]
fn keeps_apart(own: Option<&[u8]>, tested: &mut Tested, list: &[Stmt]) -> Result<bool, AllocError>
    ensures value { IfOk result (λ b.
        b ≡ decide.resumable (option_map (λ x. x.now) own.entry) tested.old (script_of list.now)) }
    ensures unchanged { OnOk result (tested.new ≡ tested.old) }
{
    let length = tested.len();
    let kept = keeps_all(own, tested, list)?;
    tested.cut(length);
    Ok(kept)
}

/// Returns whether a case keeps the rules.
#[cycle(list)]
fn keeps_case(own: Option<&[u8]>, tested: &mut Tested, case: &Case) -> Result<bool, AllocError>
    ensures value { IfOk result (λ b.
        b
        ≡ decide.reads_when tested.old case.now.when
        && decide.resumable (option_map (λ x. x.now) own.entry) tested.old
        (script_of case.now.body.items)) }
    ensures unchanged { OnOk result (tested.new ≡ tested.old) }
{
    if !reads_when(tested, &case.when) {
        return Ok(false);
    }
    keeps_apart(own, tested, case.body.as_slice())
}

/// Returns whether all cases keep the rules.
#[cycle(list)]
fn keeps_cases(own: Option<&[u8]>, tested: &mut Tested, cases: &[Case]) -> Result<bool, AllocError>
    ensures value { IfOk result (λ b.
        b
        ≡ decide.resumable_in (option_map (λ x. x.now) own.entry) tested.old
        (cases_of cases.now)) }
    ensures unchanged { OnOk result (tested.new ≡ tested.old) }
{
    for case in cases {
        if !keeps_case(own, tested, case)? {
            return Ok(false);
        }
    }
    Ok(true)
}

/// Returns the first name alone.
fn first_of(names: &[Bytes]) -> &[Bytes]
    ensures { result.now ≡ first_alone names.now }
{
    &names[..names.len().min(1)]
}

/// Returns whether the cases of a choice keep the rules, whose question tests these names, and adds
/// the names.
#[cycle(list)]
fn keeps_asked(
    own: Option<&[u8]>,
    tested: &mut Tested,
    names: &[Bytes],
    cases: &[Case],
) -> Result<bool, AllocError>
    ensures value { IfOk result (λ b.
        (rest : Script)
        → decide.resumable_in (option_map (λ x. x.now) own.entry)
        (first_alone names.now ++ tested.old) (cases_of cases.now)
        && decide.resumable (option_map (λ x. x.now) own.entry) (names.now ++ tested.old)
        rest
        ≡ b && decide.resumable (option_map (λ x. x.now) own.entry) tested.new rest) }
    ensures grown { OnOk result (Extends tested.old tested.new) }
{
    // In the cases the first name alone is sure to have been tested.
    tested.add_all(first_of(names))?;
    if !keeps_cases(own, tested, cases)? {
        return Ok(false);
    }
    tested.add_all(names)?;
    Ok(true)
}

/// Returns whether a choice of a question keeps the rules, and adds what the question tests.
#[cycle(list)]
fn keeps_question(
    own: Option<&[u8]>,
    tested: &mut Tested,
    declares: &Declares,
    question: &Question,
    cases: &[Case],
) -> Result<bool, AllocError>
    ensures value { IfOk result (λ b.
        (rest : Script)
        → decide.resumable (option_map (λ x. x.now) own.entry) tested.old
        (Choice declares.now (Asked question.now) (cases_of cases.now) rest)
        ≡ b && decide.resumable (option_map (λ x. x.now) own.entry) tested.new rest) }
    ensures grown { OnOk result (Extends tested.old tested.new) }
{
    let uses = uses_asked(tested.alloc(), question)?;
    if !may_use(own, tested, &uses) {
        return Ok(false);
    }
    keeps_asked(own, tested, uses.tests.as_slice(), cases)
}

/// Returns whether a choice keeps the rules, and adds what its subject tests.
#[cycle(list)]
fn keeps_choice(
    own: Option<&[u8]>,
    tested: &mut Tested,
    declares: &Declares,
    subject: &Subject,
    cases: &[Case],
) -> Result<bool, AllocError>
    ensures value { IfOk result (λ b.
        (rest : Script)
        → decide.resumable (option_map (λ x. x.now) own.entry) tested.old
        (Choice declares.now subject.now (cases_of cases.now) rest)
        ≡ b && decide.resumable (option_map (λ x. x.now) own.entry) tested.new rest) }
    ensures grown { OnOk result (Extends tested.old tested.new) }
{
    match subject {
        Subject::Nothing => keeps_cases(own, tested, cases),
        Subject::Word(word) => {
            if !reads_text(tested, word.parts()) {
                return Ok(false);
            }
            keeps_cases(own, tested, cases)
        }
        Subject::Asked(question) => keeps_question(own, tested, declares, question, cases),
    }
}

/// Returns whether AC_CACHE_CHECK keeps the rules, and adds its name.
#[cycle(list)]
fn keeps_check(
    own: Option<&[u8]>,
    tested: &mut Tested,
    message: &HereText,
    name: &[u8],
    commands: &[Stmt],
) -> Result<bool, AllocError>
    ensures value { IfOk result (λ b.
        (rest : Script)
        → decide.resumable (option_map (λ x. x.now) own.entry) tested.old
        (Check message.now name.now (script_of commands.now) rest)
        ≡ b && decide.resumable (option_map (λ x. x.now) own.entry) tested.new rest) }
    ensures grown { OnOk result (Extends tested.old tested.new) }
{
    if !reads_text(tested, message.parts()) {
        return Ok(false);
    }
    if !keeps_apart(Some(name), tested, commands)? {
        return Ok(false);
    }
    tested.add_one(name)?;
    Ok(true)
}

/// Returns whether a statement with no statements in it keeps the rules, and adds what it tests.
fn keeps_simple(
    own: Option<&[u8]>,
    tested: &mut Tested,
    declares: &Declares,
    effect: &Effect,
) -> Result<bool, AllocError>
    ensures value { IfOk result (λ b.
        (rest : Script)
        → decide.resumable (option_map (λ x. x.now) own.entry) tested.old
        (Then declares.now effect.now rest)
        ≡ b && decide.resumable (option_map (λ x. x.now) own.entry) tested.new rest) }
    ensures grown { OnOk result (Extends tested.old tested.new) }
{
    let uses = uses_of(tested.alloc(), declares, effect)?;
    if !may_use(own, tested, &uses) {
        return Ok(false);
    }
    tested.add_all(uses.tests.as_slice())?;
    Ok(true)
}

/// Returns whether a statement keeps the rules, and adds what it tests.
#[cycle(list)]
fn keeps(own: Option<&[u8]>, tested: &mut Tested, statement: &Stmt) -> Result<bool, AllocError>
    ensures value { IfOk result (λ b.
        (rest : Script)
        → decide.resumable (option_map (λ x. x.now) own.entry) tested.old
        (stmt_then statement.now rest)
        ≡ b && decide.resumable (option_map (λ x. x.now) own.entry) tested.new rest) }
    ensures grown { OnOk result (Extends tested.old tested.new) }
{
    match statement {
        Stmt::Do { declares, effect } => keeps_simple(own, tested, declares, effect),
        Stmt::Choose {
            declares,
            subject,
            cases,
        } => keeps_choice(own, tested, declares, subject, cases.as_slice()),
        Stmt::CacheCheck {
            message,
            name,
            commands,
        } => keeps_check(own, tested, message, name.as_slice(), commands.as_slice()),
    }
}

/// Returns whether a source with these statements can be resumed. It takes time in proportion to
/// the length of the source.
pub fn is_resumable(alloc: Global, statements: &[Stmt]) -> Result<bool, AllocError>
    ensures { IfOk result (λ b. b ≡ decide.is_resumable (script_of statements.now)) }
{
    let mut tested = Tested::new(alloc);
    keeps_all(None, &mut tested, statements)
}
