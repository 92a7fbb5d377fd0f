//! A reader for each macro, which reads its arguments from the left.

ghost use Rattle.std.specs.Prelude.{◌≡◌, Result, map};
ghost use Rattle.m4quote.specs.ItemValue.{span};
ghost use Rattle.ac_statement.specs.Reading.{Gives};
ghost use Rattle.ac_macros.specs.Rows as rows;
ghost use Rattle.ac_statement.specs.declared.fault.ParseFault as faults;
ghost use Rattle.ac_tree.specs.declared.statement.Question as questions;

use crate::checks::{checks, checks_each};
use crate::libraries::{check_lib, search_libs};
use crate::macros::{ActMacro, DeclaringMacro, PlainMacro, QuestionMacro};
use crate::package_name::tar_name;
use crate::room::has_room;
use crate::searches::{check_prog, check_progs, output_variable, path_prog, prog_cc};
use crate::tries::tries;
use ac_args::ParseFault;
use ac_args::arguments::{is_given, line, name, text, title};
use ac_args::feature::feature_variable;
use ac_args::helping::help;
use ac_args::numbers::{language, status, version};
use ac_args::outputs::outputs;
use ac_args::shell::{here_text, word};
use ac_statement::texts::arg_at;
use ac_tree::{Declarations, Declares, Effect, Message, OptionKind, OutputKind, Question};
use deftable::{Bytes, Name, SubstList};
use m4quote::Arg;
use output_list::OutputList;
use std::alloc::Global;

/// Reads the name of the package's archive. If it is empty, it is derived from the package's name.
#[tactic(auto, unfolding(crate::specs::Rows::tarname))]
fn tarname(alloc: Global, arg: Arg<'_>, package_name: &Bytes) -> Result<Bytes, ParseFault>
    ensures { Gives (λ t. t) result (rows.tarname (span arg.entry) package_name.now) }
{
    let text = title(alloc, arg)?;
    if text.is_empty() {
        return Ok(tar_name(alloc, package_name.as_slice())?);
    }
    Ok(text)
}

/// AC_INIT(package, version, [bug-report], [tarname], [url])
#[tactic(auto, unfolding(crate::specs::Rows::init))]
fn init(alloc: Global, args: &[Arg<'_>]) -> Result<(Declares, Effect), ParseFault>
    ensures { Gives (λ s. s) result (rows.init (map span args.now)) }
{
    let package_name = title(alloc, arg_at(args, 0))?;
    let version = title(alloc, arg_at(args, 1))?;
    let bug = title(alloc, arg_at(args, 2))?;
    let tarname = tarname(alloc, arg_at(args, 3), &package_name)?;
    let url = title(alloc, arg_at(args, 4))?;
    let effect = Effect::Package {
        title: package_name,
        version,
        bug,
        tarname,
        url,
    };
    Ok((Declares::Begin, effect))
}

/// AC_PREREQ(version)
#[tactic(auto, unfolding(crate::specs::Rows::prereq))]
fn prereq(alloc: Global, args: &[Arg<'_>]) -> Result<Effect, ParseFault>
    ensures { Gives (λ e. e) result (rows.prereq (map span args.now)) }
{
    version(alloc, arg_at(args, 0))?;
    Ok(Effect::Nothing)
}

/// AC_LANG(language)
#[tactic(auto, unfolding(crate::specs::Rows::lang))]
fn lang(alloc: Global, args: &[Arg<'_>]) -> Result<Effect, ParseFault>
    ensures { Gives (λ e. e) result (rows.lang (map span args.now)) }
{
    language(alloc, arg_at(args, 0))?;
    Ok(Effect::Nothing)
}

/// Reads outputs of a kind.
fn outputs_of(
    alloc: Global,
    known: &Declarations,
    kind: OutputKind,
    arg: Arg<'_>,
) -> Result<OutputList, ParseFault>
    ensures { Gives (λ o. o) result (rows.outputs_of known.now kind (span arg.entry)) }
{
    match kind {
        OutputKind::File => outputs(alloc, &known.files, &known.headers, arg),
        OutputKind::Header => outputs(alloc, &known.headers, &known.files, arg),
    }
}

/// AC_CONFIG_FILES(list) and AC_CONFIG_HEADERS(list)
#[tactic(auto, unfolding(crate::specs::Rows::config_outputs))]
fn config_outputs(
    alloc: Global,
    known: &Declarations,
    kind: OutputKind,
    args: &[Arg<'_>],
) -> Result<(Declares, Effect), ParseFault>
    ensures { Gives (λ s. s) result (rows.config_outputs known.now kind (map span args.now)) }
{
    let outputs = outputs_of(alloc, known, kind, arg_at(args, 0))?;
    Ok((Declares::Outputs { kind, outputs }, Effect::Nothing))
}

/// Reads the value of a variable that AC_SUBST names, if the argument is given.
#[tactic(auto, unfolding(crate::specs::Rows::assigned))]
fn assigned(alloc: Global, name: &Name, arg: Arg<'_>) -> Result<Effect, ParseFault>
    ensures { Gives (λ e. e) result (rows.assigned name.now (span arg.entry)) }
{
    if is_given(alloc, arg)? {
        let value = word(alloc, arg)?;
        let name = name.copy(alloc)?;
        Ok(Effect::Assign { name, value })
    } else {
        Ok(Effect::Nothing)
    }
}

/// AC_SUBST(variable, [value])
#[tactic(auto, unfolding(crate::specs::Rows::subst))]
fn subst(
    alloc: Global,
    known: &Declarations,
    args: &[Arg<'_>],
) -> Result<(Declares, Effect), ParseFault>
    ensures { Gives (λ s. s) result (rows.subst known.now (map span args.now)) }
{
    let name = output_variable(alloc, known, arg_at(args, 0))?;
    let effect = assigned(alloc, &name, arg_at(args, 1))?;
    Ok((Declares::Variable { name }, effect))
}

/// Reads the value that AC_DEFINE defines: `1` if the argument is absent, `/**/` if it is empty.
#[tactic(auto, unfolding(crate::specs::Rows::defined))]
fn defined(alloc: Global, args: &[Arg<'_>]) -> Result<Bytes, ParseFault>
    ensures { Gives (λ t. t) result (rows.defined (map span args.now)) }
{
    if args.len() < 2 {
        return Ok(Bytes::from_slice(alloc, b"1")?);
    }
    let text = line(alloc, arg_at(args, 1))?;
    if text.is_empty() {
        return Ok(Bytes::from_slice(alloc, b"/**/")?);
    }
    Ok(text)
}

/// AC_DEFINE(variable, [value], [description]). The description is not read.
#[tactic(auto, unfolding(crate::specs::Rows::define))]
fn define(alloc: Global, args: &[Arg<'_>]) -> Result<Effect, ParseFault>
    ensures { Gives (λ e. e) result (rows.define (map span args.now)) }
{
    let name = name(alloc, arg_at(args, 0))?;
    let value = defined(alloc, args)?;
    Ok(Effect::Define { name, value })
}

/// Reads the value that AC_DEFINE_UNQUOTED defines: `/**/` if its text is empty.
#[tactic(auto, unfolding(crate::specs::Rows::unquoted_of))]
fn unquoted_of(alloc: Global, name: Name, text: Bytes, arg: Arg<'_>) -> Result<Effect, ParseFault>
    ensures { Gives (λ e. e) result (rows.unquoted_of name text (span arg.entry)) }
{
    if text.is_empty() {
        let value = Bytes::from_slice(alloc, b"/**/")?;
        return Ok(Effect::Define { name, value });
    }
    let value = here_text(alloc, arg)?;
    Ok(Effect::DefineText { name, value })
}

/// Reads the value that AC_DEFINE_UNQUOTED defines: `1` if the argument is absent.
#[tactic(auto, unfolding(crate::specs::Rows::unquoted))]
fn unquoted(alloc: Global, name: Name, args: &[Arg<'_>]) -> Result<Effect, ParseFault>
    ensures { Gives (λ e. e) result (rows.unquoted name (map span args.now)) }
{
    if args.len() < 2 {
        let value = Bytes::from_slice(alloc, b"1")?;
        return Ok(Effect::Define { name, value });
    }
    let text = line(alloc, arg_at(args, 1))?;
    unquoted_of(alloc, name, text, arg_at(args, 1))
}

/// AC_DEFINE_UNQUOTED(variable, [value], [description]). The description is not read.
#[tactic(auto, unfolding(crate::specs::Rows::define_unquoted))]
fn define_unquoted(alloc: Global, args: &[Arg<'_>]) -> Result<Effect, ParseFault>
    ensures { Gives (λ e. e) result (rows.define_unquoted (map span args.now)) }
{
    let name = name(alloc, arg_at(args, 0))?;
    unquoted(alloc, name, args)
}

/// AC_MSG_ERROR(message, [status])
#[tactic(auto, unfolding(crate::specs::Rows::msg_error))]
fn msg_error(alloc: Global, args: &[Arg<'_>]) -> Result<Effect, ParseFault>
    ensures { Gives (λ e. e) result (rows.msg_error (map span args.now)) }
{
    let text = here_text(alloc, arg_at(args, 0))?;
    let status = status(alloc, arg_at(args, 1))?;
    Ok(Effect::Stop { text, status })
}

/// AC_MSG_CHECKING(feature), AC_MSG_RESULT(results), AC_MSG_NOTICE(message) and
/// AC_MSG_WARN(problem)
#[tactic(auto, unfolding(crate::specs::Rows::message_of))]
fn message_of(alloc: Global, message: Message, args: &[Arg<'_>]) -> Result<Effect, ParseFault>
    ensures { Gives (λ e. e) result (rows.message_of message (map span args.now)) }
{
    let text = here_text(alloc, arg_at(args, 0))?;
    Ok(Effect::Print { message, text })
}

/// AC_ARG_VAR(variable, help)
#[tactic(auto, unfolding(crate::specs::Rows::arg_var))]
fn arg_var(
    alloc: Global,
    known: &Declarations,
    args: &[Arg<'_>],
) -> Result<(Declares, Effect), ParseFault>
    ensures { Gives (λ s. s) result (rows.arg_var known.now (map span args.now)) }
{
    let name = output_variable(alloc, known, arg_at(args, 0))?;
    let help = text(alloc, arg_at(args, 1))?;
    Ok((Declares::Precious { name, help }, Effect::Nothing))
}

/// Returns what a call does whose macro declares nothing.
fn act(alloc: Global, m: ActMacro, args: &[Arg<'_>]) -> Result<Effect, ParseFault>
    ensures { Gives (λ e. e) result (rows.act_of m (map span args.now)) }
{
    match m {
        ActMacro::Prereq => prereq(alloc, args),
        ActMacro::Ignored => Ok(Effect::Nothing),
        ActMacro::Lang => lang(alloc, args),
        ActMacro::Define => define(alloc, args),
        ActMacro::DefineUnquoted => define_unquoted(alloc, args),
        ActMacro::MsgError => msg_error(alloc, args),
        ActMacro::Message(message) => message_of(alloc, message, args),
    }
}

/// Returns what a call declares and does whose macro declares something.
fn declaring(
    alloc: Global,
    known: &Declarations,
    m: DeclaringMacro,
    at: usize,
    args: &[Arg<'_>],
) -> Result<(Declares, Effect), ParseFault>
    ensures { Gives (λ s. s) result (rows.declaring_of known.now m at (map span args.now)) }
{
    match m {
        DeclaringMacro::Init => init(alloc, args),
        DeclaringMacro::ConfigOutputs(kind) => config_outputs(alloc, known, kind, args),
        DeclaringMacro::Subst => subst(alloc, known, args),
        DeclaringMacro::ArgVar => arg_var(alloc, known, args),
        DeclaringMacro::ProgCc => prog_cc(alloc, known, at, args),
        DeclaringMacro::CheckProg => check_prog(alloc, known, args),
        DeclaringMacro::CheckProgs => check_progs(alloc, known, args),
        DeclaringMacro::PathProg => path_prog(alloc, known, args),
        DeclaringMacro::Output => Ok((Declares::End, Effect::Complete)),
    }
}

/// Returns what a call with these arguments declares and does, given what the statements before it
/// declare. `at` is the offset of the macro's name.
///
/// # Errors
///
/// - The error of the first argument that has one.
/// - `TooMany` at the argument, if it names one variable or output more than a source may have.
/// - `TooMany` at `at`, if AC_PROG_CC adds more variables than a source may have.
#[tactic(auto, unfolding(crate::specs::Rows::undeclared))]
pub fn plain(
    alloc: Global,
    known: &Declarations,
    m: PlainMacro,
    at: usize,
    args: &[Arg<'_>],
) -> Result<(Declares, Effect), ParseFault>
    ensures { Gives (λ s. s) result (rows.plain_of known.now m at (map span args.now)) }
{
    match m {
        PlainMacro::Acts(m) => act(alloc, m, args).map(|effect| (Declares::Nothing, effect)),
        PlainMacro::Declares(m) => declaring(alloc, known, m, at, args),
    }
}

/// Returns the variables of the declared options of a kind.
fn options_of(known: &Declarations, kind: OptionKind) -> &SubstList
    ensures { result.now ≡ rows.options_of known.now kind }
{
    match kind {
        OptionKind::Feature => &known.features,
        OptionKind::Package => &known.packages,
    }
}

/// AC_ARG_ENABLE(feature, help, ..) and AC_ARG_WITH(package, help, ..)
#[tactic(auto, unfolding(crate::specs::Rows::option_question))]
fn option_question(
    alloc: Global,
    known: &Declarations,
    kind: OptionKind,
    args: &[Arg<'_>],
) -> Result<(Declares, Question), ParseFault>
    ensures { Gives (λ q. q) result (rows.option_question known.now kind (map span args.now)) }
{
    let arg = arg_at(args, 0);
    let variable = feature_variable(alloc, kind, arg)?;
    if !has_room(options_of(known, kind), &variable) {
        return Err(ParseFault::TooMany(arg.at));
    }
    let help = help(alloc, arg_at(args, 1))?;
    let name = variable.copy(alloc)?;
    let declares = Declares::Option {
        kind,
        variable: name,
        help,
    };
    Ok((declares, Question::Given { kind, variable }))
}

/// Returns a question of a macro that declares nothing.
#[tactic(auto, unfolding(crate::specs::Rows::undeclared))]
fn undeclared(asked: Result<Question, ParseFault>) -> Result<(Declares, Question), ParseFault>
    ensures { (r : Result questions.Question faults.ParseFault) → Gives (λ q. q) asked r
        → Gives (λ q. q) result (rows.undeclared r) }
{
    asked.map(|question| (Declares::Nothing, question))
}

/// Returns what a call with these arguments declares, and its question, given what the statements
/// before it declare. Its includes or other libraries are not read yet: `checks::complete` reads
/// them.
///
/// # Errors
///
/// - The error of the first argument that has one.
/// - `TooMany` at the first argument, if it names one option more than a source may have.
pub fn question(
    alloc: Global,
    known: &Declarations,
    m: QuestionMacro,
    args: &[Arg<'_>],
) -> Result<(Declares, Question), ParseFault>
    ensures { Gives (λ q. q) result (rows.question_of known.now m (map span args.now)) }
{
    match m {
        QuestionMacro::Given(kind) => option_question(alloc, known, kind, args),
        QuestionMacro::Tries(kind) => undeclared(tries(alloc, kind, args)),
        QuestionMacro::Checks(sought) => undeclared(checks(alloc, sought, args)),
        QuestionMacro::ChecksEach(sought) => undeclared(checks_each(alloc, sought, args)),
        QuestionMacro::Library => undeclared(check_lib(alloc, args)),
        QuestionMacro::Libraries => undeclared(search_libs(alloc, args)),
    }
}
