//! Lists of statements.

ghost use Rattle.std.specs.Prelude.{◌≡◌, ◌≤◌, MatchResult, [], ◌∷◌, map, drop, length, option_to_list, IfOk, Ok};
ghost use Rattle.m4quote.specs.ItemValue.{span, view, views};
ghost use Rattle.ac_statement.specs.Reading.{Gives, Fails};
ghost use Rattle.ac_statement.specs.Stand.{no_line_start};
ghost use Rattle.acparse.specs.Profile as profile;
ghost use Rattle.acparse.specs.Profile.{Adds};
ghost use Rattle.ac_macros.specs.declared.macros.Macro.TheVariants.{Plain};
ghost use Rattle.ac_macros.specs.Rows.{question_of};
ghost use Rattle.ac_macros.specs.ListKind as list_kinds;
ghost use Rattle.ac_macros.specs.ListKind.{list_kind_of};
ghost use Rattle.ac_tree.specs.Lists.{after, after_all, after_cases};
ghost use Rattle.ac_tree.specs.Script.{script_of, cases_of, followed, Done};

use crate::asked::asked_with;
use crate::bare::read_bare;
use ac_args::ParseFault;
use ac_args::arguments::{cache_name, is_given};
use ac_args::shell::{here_text, patterns, test, word};
use ac_macros::arguments::first_action;
use ac_macros::list_kind::{ListKind, check_list_kind};
use ac_macros::placement::{as_statement, check_place};
use ac_macros::rows::{plain, question};
use ac_macros::table::{row_named, takes};
use ac_macros::{ChoiceMacro, Macro, PlainMacro, QuestionMacro};
use ac_statement::fault::quote_fault;
use ac_statement::inside::inside;
use ac_statement::placement::{LIST_START, LineStart, is_statement, line_start_of};
use ac_statement::texts::arg_at;
use ac_tree::declarations::declare;
use ac_tree::{
    Case, Declarations, Declares, Question, Stage, Stmt, Subject, When, cache_check, choose,
};
use deftable::Name;
use m4quote::{Arg, Item, read_items_at};
use std::alloc::{AllocError, Global};

/// Returns the macro of a call, if the call is a statement between what precedes it (`line_start`)
/// and the items after it (`following`), and the list may hold it.
#[tactic(auto, unfolding(crate::specs::Profile::checked))]
fn check_call(
    alloc: Global,
    list_kind: ListKind<'_>,
    stage: Stage,
    line_start: LineStart,
    name: &[u8],
    args: &[Arg<'_>],
    at: usize,
    following: &[Item<'_>],
) -> Result<Macro, ParseFault>
    ensures { Gives (λ m. m) result (
        profile.checked (list_kind_of list_kind.entry) stage line_start name.now (map span args.now)
        at (views following.now)) }
{
    let Some(row) = row_named(name) else {
        return Err(ParseFault::UnknownMacro(at));
    };
    if !takes(alloc, row, args)? {
        return Err(ParseFault::ArgCount(at));
    }
    let m = as_statement(stage, at, row.named)?;
    check_place(list_kind.is_top(), stage, row.top, m, at)?;
    if !is_statement(line_start, name, args, at, following) {
        return Err(ParseFault::UnknownStatement(at));
    }
    check_list_kind(list_kind, m)?;
    Ok(m)
}

/// Reads the condition of a case: the test of AS_IF, the patterns of AS_CASE.
#[tactic(auto, unfolding(crate::specs::Profile::when_of))]
fn when(alloc: Global, m: ChoiceMacro, arg: Arg<'_>) -> Result<When, ParseFault>
    ensures { Gives (λ w. w) result (profile.when_of m (span arg.entry)) }
{
    match m {
        ChoiceMacro::If => {
            let test = test(alloc, arg)?;
            Ok(When::Holds(test))
        }
        ChoiceMacro::Case => {
            let patterns = patterns(alloc, arg)?;
            Ok(When::Matches(patterns))
        }
    }
}

/// Reads the subject of a choice: the word of AS_CASE, or nothing for AS_IF.
#[tactic(auto, unfolding(crate::specs::Profile::subject_of))]
fn subject(alloc: Global, m: ChoiceMacro, args: &[Arg<'_>]) -> Result<Subject, ParseFault>
    ensures { Gives (λ s. s) result (profile.subject_of m (map span args.now)) }
{
    match m {
        ChoiceMacro::If => Ok(Subject::Nothing),
        ChoiceMacro::Case => {
            let word = word(alloc, arg_at(args, 0))?;
            Ok(Subject::Word(word))
        }
    }
}

/// Returns the arguments that make cases.
fn case_args<'a, 'b>(m: ChoiceMacro, args: &'b [Arg<'a>]) -> &'b [Arg<'a>]
    ensures { map span result.now ≡ profile.case_args m (map span args.now) }
{
    match m {
        ChoiceMacro::If => args,
        ChoiceMacro::Case => { if args.is_empty() { args } else { &args[1..] } }
    }
}

/// Returns a case with these statements, or `None` if its argument is absent or empty and has no
/// statement.
fn case_if(when: When, given: bool, body: Vec<Stmt>) -> Option<Case>
    ensures { cases_of (option_to_list result) ≡ profile.case_if when given (script_of body.items) }
{
    if given {
        return Some(Case { when, body });
    }
    if body.is_empty() {
        return None;
    }
    Some(Case { when, body })
}

/// Returns the arguments after so many.
fn after<'a, 'b>(args: &'b [Arg<'a>], count: usize) -> &'b [Arg<'a>]
    ensures { map span result.now ≡ drop count (map span args.now) }
{
    &args[count.min(args.len())..]
}

/// Returns the arguments after those of the question.
fn action_args<'a, 'b>(m: QuestionMacro, args: &'b [Arg<'a>]) -> &'b [Arg<'a>]
    ensures { map span result.now ≡ profile.action_args m (map span args.now) }
{
    after(args, first_action(m))
}

/// Appends a case, if there is one.
fn with_last(mut cases: Vec<Case>, last: Option<Case>) -> Result<Vec<Case>, AllocError>
    ensures { IfOk result (λ v.
        cases_of v.items ≡ followed (cases_of cases.items) (cases_of (option_to_list last))) }
{
    match last {
        None => Ok(cases),
        Some(last) => {
            cases.push(last)?;
            Ok(cases)
        }
    }
}

/// Returns the two cases, without those that are absent.
fn both(alloc: Global, first: Option<Case>, other: Option<Case>) -> Result<Vec<Case>, AllocError>
    ensures { IfOk result (λ v.
        cases_of v.items
        ≡ followed (cases_of (option_to_list first)) (cases_of (option_to_list other))) }
{
    let one = with_last(Vec::new(alloc), first)?;
    with_last(one, other)
}

/// Reads the statements of a statement argument, whose list is of this kind. Lists nest at most
/// `room` deep in it, counting its own.
#[cycle(list)]
#[tactic(auto, unfolding(crate::specs::Profile::body_of))]
fn read_body(
    alloc: Global,
    room: u8,
    list_kind: ListKind<'_>,
    known: &mut Declarations,
    arg: Arg<'_>,
) -> Result<Vec<Stmt>, ParseFault>
    ensures value { Gives (λ v. script_of v.items) result
        (profile.body_of room (list_kind_of list_kind.entry) known.old (span arg.entry)) }
    ensures after { IfOk result (λ v. known.new ≡ after_all known.old (script_of v.items)) }
{
    if room == 0 {
        return Err(ParseFault::TooDeep(arg.at));
    }
    let inner = inside(alloc, arg)?;
    match read_items_at(alloc, inner.text, inner.at) {
        Err(fault) => Err(quote_fault(fault)),
        Ok(items) => read_statements(alloc, room - 1, list_kind, known, &items),
    }
}

/// Reads the default of a choice: the last argument, if it is left over after the pairs.
#[cycle(list)]
#[tactic(auto, unfolding(crate::specs::Profile::cases_in))]
fn read_default(
    alloc: Global,
    room: u8,
    list_kind: ListKind<'_>,
    known: &mut Declarations,
    m: ChoiceMacro,
    args: &[Arg<'_>],
) -> Result<Option<Case>, ParseFault>
    requires { length args.now ≤ 1 }
    ensures value { Gives (λ o. cases_of (option_to_list o)) result (
        profile.cases_in (profile.body_of room (list_kind_of list_kind.entry)) m known.old
        (map span args.now)) }
    ensures after { IfOk result (λ o.
        known.new ≡ after_cases known.old (cases_of (option_to_list o))) }
{
    match args {
        [] => Ok(None),
        [only, ..] => {
            let given = is_given(alloc, *only)?;
            let body = read_body(alloc, room, list_kind, known, *only)?;
            Ok(case_if(When::Always, given, body))
        }
    }
}

/// Reads a case from its condition and its statement argument.
#[cycle(list)]
#[tactic(auto, unfolding(crate::specs::Profile::case_of))]
fn read_case(
    alloc: Global,
    room: u8,
    list_kind: ListKind<'_>,
    known: &mut Declarations,
    m: ChoiceMacro,
    condition: Arg<'_>,
    arg: Arg<'_>,
) -> Result<Case, ParseFault>
    ensures value { Gives (λ k. cases_of (k ∷ [])) result (
        profile.case_of (profile.body_of room (list_kind_of list_kind.entry)) m known.old
        (span condition.entry) (span arg.entry)) }
    ensures after { IfOk result (λ k. known.new ≡ after_all known.old (script_of k.body.items)) }
{
    let when = when(alloc, m, condition)?;
    read_body(alloc, room, list_kind, known, arg).map(|body| Case { when, body })
}

/// Reads the cases of a choice.
#[cycle(list)]
fn read_cases(
    alloc: Global,
    room: u8,
    list_kind: ListKind<'_>,
    known: &mut Declarations,
    m: ChoiceMacro,
    args: &[Arg<'_>],
) -> Result<Vec<Case>, ParseFault>
    ensures value { Gives (λ v. cases_of v.items) result (
        profile.cases_in (profile.body_of room (list_kind_of list_kind.entry)) m known.old
        (map span args.now)) }
    ensures after { IfOk result (λ v. known.new ≡ after_cases known.old (cases_of v.items)) }
{
    let mut cases = Vec::new(alloc);
    let mut i = 0;
    while i + 1 < args.len() {
        let case = read_case(alloc, room, list_kind, known, m, args[i], args[i + 1])?;
        cases.push(case)?;
        i += 2;
    }
    let last = read_default(alloc, room, list_kind, known, m, &args[i..])?;
    Ok(with_last(cases, last)?)
}

/// Reads AS_IF or AS_CASE.
#[cycle(list)]
#[tactic(auto, unfolding(crate::specs::Profile::choice_of, ac_tree::specs::Lists::after))]
fn read_choice(
    alloc: Global,
    room: u8,
    list_kind: ListKind<'_>,
    known: &mut Declarations,
    m: ChoiceMacro,
    args: &[Arg<'_>],
) -> Result<Stmt, ParseFault>
    ensures value { Gives (λ s. script_of (s ∷ [])) result (
        profile.choice_of (profile.body_of room (list_kind_of list_kind.entry)) m known.old
        (map span args.now)) }
    ensures after { IfOk result (λ s. known.new ≡ after_all known.old (script_of (s ∷ []))) }
{
    let subject = subject(alloc, m, args)?;
    read_cases(alloc, room, list_kind, known, m, case_args(m, args)).map(|cases| choose(
        Declares::Nothing,
        subject,
        cases,
    ))
}

/// Returns the condition of the case for an answer.
fn answer(yes: bool) -> When
    ensures { result ≡ profile.answer yes }
{
    if yes { When::Yes } else { When::No }
}

/// Reads the case of the first of these arguments, if there is one.
#[cycle(list)]
#[tactic(auto, unfolding(crate::specs::Profile::action_in))]
fn read_action(
    alloc: Global,
    room: u8,
    list_kind: ListKind<'_>,
    known: &mut Declarations,
    yes: bool,
    args: &[Arg<'_>],
) -> Result<Option<Case>, ParseFault>
    ensures value { Gives (λ o. cases_of (option_to_list o)) result (
        profile.action_in (profile.body_of room (list_kind_of list_kind.entry)) (profile.answer yes)
        known.old (map span args.now)) }
    ensures after { IfOk result (λ o.
        known.new ≡ after_cases known.old (cases_of (option_to_list o))) }
{
    match args {
        [] => Ok(None),
        [first, ..] => {
            let given = is_given(alloc, *first)?;
            read_body(alloc, room, list_kind, known, *first).map(|body| case_if(
                answer(yes),
                given,
                body,
            ))
        }
    }
}

/// Reads the cases for yes and for no, without those that are absent.
#[cycle(list)]
#[tactic(auto, unfolding(crate::specs::Profile::answers_in))]
fn read_answers(
    alloc: Global,
    room: u8,
    list_kind: ListKind<'_>,
    known: &mut Declarations,
    args: &[Arg<'_>],
) -> Result<Vec<Case>, ParseFault>
    ensures value { Gives (λ v. cases_of v.items) result (
        profile.answers_in (profile.body_of room (list_kind_of list_kind.entry)) known.old
        (map span args.now)) }
    ensures after { IfOk result (λ v. known.new ≡ after_cases known.old (cases_of v.items)) }
{
    let first = read_action(alloc, room, list_kind, known, true, args)?;
    let read = read_action(alloc, room, list_kind, known, false, after(args, 1));
    read.and_then(|other| Ok(both(alloc, first, other)?))
}

/// Reads the question of a macro and what it declares, and adds that.
fn ask(
    alloc: Global,
    known: &mut Declarations,
    m: QuestionMacro,
    args: &[Arg<'_>],
) -> Result<(Declares, Question), ParseFault>
    ensures value { Gives (λ q. q) result (question_of known.old m (map span args.now)) }
    ensures after { IfOk result (λ q. known.new ≡ after known.old q.0) }
{
    let asked = question(alloc, known, m, args)?;
    Ok(declare(alloc, known, &asked.0).map(|()| asked)?)
}

/// Reads AC_ARG_ENABLE, AC_CHECK_HEADER, AC_COMPILE_IFELSE, or another macro that asks a question.
#[cycle(list)]
#[tactic(auto, unfolding(crate::specs::Profile::asked_of))]
fn read_question(
    alloc: Global,
    room: u8,
    list_kind: ListKind<'_>,
    known: &mut Declarations,
    m: QuestionMacro,
    args: &[Arg<'_>],
) -> Result<Stmt, ParseFault>
    ensures value { Gives (λ s. script_of (s ∷ [])) result (
        profile.asked_of (profile.body_of room (list_kind_of list_kind.entry)) m known.old
        (map span args.now)) }
    ensures after { IfOk result (λ s. known.new ≡ after_all known.old (script_of (s ∷ []))) }
{
    let (declares, question) = ask(alloc, known, m, args)?;
    let cases = read_answers(alloc, room, list_kind, known, action_args(m, args))?;
    asked_with(alloc, declares, question, cases, args)
}

/// Returns the list of the commands in an argument, which set this name.
fn commands_in<'a>(name: &'a Name, arg: Arg<'_>) -> ListKind<'a>
    ensures { list_kind_of result ≡ list_kinds.Commands name.now (span arg.entry).at }
{
    ListKind::Commands {
        name: name.as_slice(),
        at: arg.at,
    }
}

/// Reads AC_CACHE_CHECK.
#[cycle(list)]
#[tactic(auto, unfolding(crate::specs::Profile::check_of))]
fn read_check(
    alloc: Global,
    room: u8,
    known: &mut Declarations,
    args: &[Arg<'_>],
) -> Result<Stmt, ParseFault>
    ensures value { Gives (λ s. script_of (s ∷ [])) result
        (profile.check_of (profile.body_of room) known.old (map span args.now)) }
    ensures after { IfOk result (λ s. known.new ≡ after_all known.old (script_of (s ∷ []))) }
{
    let message = here_text(alloc, arg_at(args, 0))?;
    let name = cache_name(alloc, arg_at(args, 1))?;
    let arg = arg_at(args, 2);
    let commands = read_body(alloc, room, commands_in(&name, arg), known, arg);
    commands.map(|commands| cache_check(message, name, commands))
}

/// Reads a statement with no statements in it, and adds what it declares.
fn read_plain(
    alloc: Global,
    known: &mut Declarations,
    m: PlainMacro,
    at: usize,
    args: &[Arg<'_>],
) -> Result<Stmt, ParseFault>
    ensures value { Gives (λ s. script_of (s ∷ [])) result (
        profile.call_of list_kinds.Top (profile.body_of 0) known.old (Plain m) at
        (map span args.now)) }
    ensures after { IfOk result (λ s. known.new ≡ after_all known.old (script_of (s ∷ []))) }
{
    let (declares, effect) = plain(alloc, known, m, at, args)?;
    Ok(declare(alloc, known, &declares).map(|()| Stmt::Do { declares, effect })?)
}

/// Reads the call of a macro whose name is at `at`.
#[cycle(list)]
fn read_call(
    alloc: Global,
    room: u8,
    list_kind: ListKind<'_>,
    known: &mut Declarations,
    m: Macro,
    at: usize,
    args: &[Arg<'_>],
) -> Result<Stmt, ParseFault>
    ensures value { Gives (λ s. script_of (s ∷ [])) result (
        profile.call_of (list_kind_of list_kind.entry) (profile.body_of room) known.old m at
        (map span args.now)) }
    ensures after { IfOk result (λ s. known.new ≡ after_all known.old (script_of (s ∷ []))) }
{
    match m {
        Macro::Plain(m) => read_plain(alloc, known, m, at, args),
        Macro::Choice(m) => read_choice(alloc, room, list_kind.of_case(), known, m, args),
        Macro::Question(m) => read_question(alloc, room, list_kind.of_case(), known, m, args),
        Macro::Check => read_check(alloc, room, known, args),
    }
}

/// Appends the statements of an item between what precedes it (`line_start`) and the items after it
/// (`following`).
#[cycle(list)]
fn read_item(
    alloc: Global,
    room: u8,
    list_kind: ListKind<'_>,
    known: &mut Declarations,
    line_start: LineStart,
    item: &Item<'_>,
    following: &[Item<'_>],
    out: &mut Vec<Stmt>,
) -> Result<(), ParseFault>
    ensures { MatchResult result (λ _.
        Adds known.old known.new (script_of out.old.items) (script_of out.new.items) (
        profile.item_of (
        list_kind_of
        list_kind.entry) (profile.body_of room) known.old line_start (view item.now) (views following.now))) (λ e. Fails e (profile.item_of (list_kind_of list_kind.entry) (profile.body_of room) known.old line_start (view item.now) (views following.now))) }
{
    match item {
        Item::Bare { text, at } => read_bare(alloc, list_kind, known.stage, *at, text, out),
        Item::Call { name, args, at } => {
            let m = check_call(
                alloc,
                list_kind,
                known.stage,
                line_start,
                name,
                args,
                *at,
                following,
            )?;
            let s = read_call(alloc, room, list_kind, known, m, *at, args)?;
            out.push(s)?;
            Ok(())
        }
    }
}

/// Reads the statements of a list's items. Lists nest at most `room` deep within it.
#[cycle(list)]
pub(crate) fn read_statements(
    alloc: Global,
    room: u8,
    list_kind: ListKind<'_>,
    known: &mut Declarations,
    items: &[Item<'_>],
) -> Result<Vec<Stmt>, ParseFault>
    ensures value { Gives (λ v. script_of v.items) result (
        profile.items_of (list_kind_of list_kind.entry) (profile.body_of room) known.old
        no_line_start (views items.now)) }
    ensures after { IfOk result (λ v. known.new ≡ after_all known.old (script_of v.items)) }
{
    let mut out = Vec::new(alloc);
    let mut line_start = LIST_START;
    for i in 0..items.len() {
        let item = &items[i];
        read_item(
            alloc,
            room,
            list_kind,
            known,
            line_start,
            item,
            &items[i + 1..],
            &mut out,
        )?;
        line_start = line_start_of(item);
    }
    Ok(out)
}
