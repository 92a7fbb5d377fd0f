//! What each argument of a macro is.

ghost use Rattle.std.specs.Prelude.{◌≡◌, ◌<◌, length};
ghost use Rattle.ac_macros.specs.Arguments as arguments;

use crate::arguments::ArgumentKind::{
    ArchiveName, CacheName, Compilers, Declaration, Declarations, Definition, Description,
    ExitStatus, Feature, Files, FoundValue, Function, Functions, Header, Headers, Help, HelpPart,
    Includes, Language, Libraries, Library, LibraryFunction, MadeHeaders, MainBody, Message,
    OtherLibraries, OtherValue, Package, Patterns, Program, Programs, SourceCall, SourceText,
    Statements, Symbol, Test, Title, TypeName, TypeNames, Unread, Value, Variable, VariableHelp,
    Version, Word,
};
use crate::macros::Macro::{Check, Choice, Plain, Question};
use crate::macros::PlainMacro::{Acts, Declares};
use crate::macros::{ActMacro, ArgumentMacro, ChoiceMacro, DeclaringMacro, Named, QuestionMacro};
use ac_tree::{Listed, OptionKind, OutputKind, Sought, Try};

/// What an argument of a macro is.
#[derive(Clone, Copy)]
pub enum ArgumentKind {
    /// Statements.
    Statements,
    /// A test of the shell.
    Test,
    /// The word that AS_CASE compares.
    Word,
    /// The patterns of a case.
    Patterns,
    /// A title of the package: text on one line.
    Title,
    /// The name of the package's archive: text on one line.
    ArchiveName,
    /// A version of Autoconf.
    Version,
    /// A language.
    Language,
    /// A list of output files.
    Files,
    /// A list of output headers.
    MadeHeaders,
    /// The name of a feature.
    Feature,
    /// The name of a package of `--with`.
    Package,
    /// The help of an option: text, or a call of AS_HELP_STRING.
    Help,
    /// A part of the help of an option.
    HelpPart,
    /// The name of an output variable.
    Variable,
    /// The help of a variable.
    VariableHelp,
    /// The value of a variable: a word of the shell.
    Value,
    /// The name of a C macro.
    Symbol,
    /// What a C macro is defined as.
    Definition,
    /// The description of a C macro, which isn't read.
    Description,
    /// A message.
    Message,
    /// The exit status of configure.
    ExitStatus,
    /// The name of a cached value.
    CacheName,
    /// A list of compilers.
    Compilers,
    /// The name of a program.
    Program,
    /// A list of names of programs.
    Programs,
    /// The value of a variable if a program is found.
    FoundValue,
    /// The value of a variable if no program is found.
    OtherValue,
    /// A header.
    Header,
    /// A list of headers.
    Headers,
    /// A function.
    Function,
    /// A list of functions.
    Functions,
    /// A declaration.
    Declaration,
    /// A list of declarations.
    Declarations,
    /// A type.
    TypeName,
    /// A list of types.
    TypeNames,
    /// Lines of `#include`.
    Includes,
    /// A library.
    Library,
    /// A list of libraries.
    Libraries,
    /// A function that a library is to have.
    LibraryFunction,
    /// Other libraries that a library needs.
    OtherLibraries,
    /// A call of AC_LANG_PROGRAM or AC_LANG_SOURCE.
    SourceCall,
    /// Text of a C source.
    SourceText,
    /// The body of `main`.
    MainBody,
    /// An argument that isn't read, or has to be empty.
    Unread,
}

/// Returns what each argument of a macro is that declares nothing, from the left.
fn act_kinds(m: ActMacro) -> &'static [ArgumentKind]
    ensures { result.now ≡ arguments.act_kinds m }
{
    match m {
        ActMacro::Prereq => &[Version],
        ActMacro::Ignored => &[Unread],
        ActMacro::Lang => &[Language],
        ActMacro::Define => &[Symbol, Definition, Description],
        ActMacro::DefineUnquoted => &[Symbol, Definition, Description],
        ActMacro::MsgError => &[Message, ExitStatus],
        ActMacro::Message(_) => &[Message],
    }
}

/// Returns what each argument of a macro is that makes outputs, from the left.
fn output_kinds(kind: OutputKind) -> &'static [ArgumentKind]
    ensures { result.now ≡ arguments.output_kinds kind }
{
    match kind {
        OutputKind::File => &[Files],
        OutputKind::Header => &[MadeHeaders],
    }
}

/// Returns what each argument of a macro is that declares something, from the left.
fn declaring_kinds(m: DeclaringMacro) -> &'static [ArgumentKind]
    ensures { result.now ≡ arguments.declaring_kinds m }
{
    match m {
        DeclaringMacro::Init => &[Title, Title, Title, ArchiveName, Title],
        DeclaringMacro::ConfigOutputs(kind) => output_kinds(kind),
        DeclaringMacro::Subst => &[Variable, Value],
        DeclaringMacro::ArgVar => &[Variable, VariableHelp],
        DeclaringMacro::ProgCc => &[Compilers],
        DeclaringMacro::CheckProg => &[Variable, Program, FoundValue, OtherValue],
        DeclaringMacro::CheckProgs => &[Variable, Programs, OtherValue],
        DeclaringMacro::PathProg => &[Variable, Program, OtherValue],
        DeclaringMacro::Output => &[Unread],
    }
}

/// Returns what each argument of AC_ARG_ENABLE or AC_ARG_WITH is, from the left.
fn option_kinds(kind: OptionKind) -> &'static [ArgumentKind]
    ensures { result.now ≡ arguments.option_kinds kind }
{
    match kind {
        OptionKind::Feature => &[Feature, Help, Statements, Statements],
        OptionKind::Package => &[Package, Help, Statements, Statements],
    }
}

/// Returns what each argument of a macro is that tries a program, from the left.
fn try_kinds(kind: Try) -> &'static [ArgumentKind]
    ensures { result.now ≡ arguments.try_kinds kind }
{
    match kind {
        Try::Compile => &[SourceCall, Statements, Statements],
        Try::Link => &[SourceCall, Statements, Statements],
        Try::Preproc => &[SourceCall, Statements, Statements],
        Try::Run => &[SourceCall, Statements, Statements, Unread],
    }
}

/// Returns what each argument of a macro is that looks for an entry, from the left.
fn entry_kinds(sought: Sought) -> &'static [ArgumentKind]
    ensures { result.now ≡ arguments.entry_kinds sought }
{
    match sought {
        Sought::ListEntry(Listed::Header) => &[Header, Statements, Statements, Includes],
        Sought::ListEntry(Listed::Function) => &[Function, Statements, Statements],
        Sought::ListEntry(Listed::Declaration) => &[Declaration, Statements, Statements, Includes],
        Sought::Type => &[TypeName, Statements, Statements, Includes],
    }
}

/// Returns what each argument of a macro is that looks for each entry of a list, from the left.
fn list_kinds(sought: Sought) -> &'static [ArgumentKind]
    ensures { result.now ≡ arguments.list_kinds sought }
{
    match sought {
        Sought::ListEntry(Listed::Header) => &[Headers, Statements, Statements, Includes],
        Sought::ListEntry(Listed::Function) => &[Functions, Statements, Statements],
        Sought::ListEntry(Listed::Declaration) => {
            &[Declarations, Statements, Statements, Includes]
        }
        Sought::Type => &[TypeNames, Statements, Statements, Includes],
    }
}

/// Returns what each argument of a macro is that asks a question, from the left.
fn question_kinds(m: QuestionMacro) -> &'static [ArgumentKind]
    ensures { result.now ≡ arguments.question_kinds m }
{
    match m {
        QuestionMacro::Given(kind) => option_kinds(kind),
        QuestionMacro::Tries(kind) => try_kinds(kind),
        QuestionMacro::Checks(sought) => entry_kinds(sought),
        QuestionMacro::ChecksEach(sought) => list_kinds(sought),
        QuestionMacro::Library => {
            &[
                Library,
                LibraryFunction,
                Statements,
                Statements,
                OtherLibraries,
            ]
        }
        QuestionMacro::Libraries => {
            &[
                LibraryFunction,
                Libraries,
                Statements,
                Statements,
                OtherLibraries,
            ]
        }
    }
}

/// Returns what each argument of a macro is that is read only in arguments, from the left.
fn inner_kinds(m: ArgumentMacro) -> &'static [ArgumentKind]
    ensures { result.now ≡ arguments.inner_kinds m }
{
    match m {
        ArgumentMacro::HelpString => &[HelpPart, HelpPart],
        ArgumentMacro::LangProgram => &[SourceText, MainBody],
        ArgumentMacro::LangSource => &[SourceText],
    }
}

/// Returns what each argument of a macro is, from the left. AS_IF and AS_CASE have none here, since
/// theirs repeat.
fn kinds(named: Named) -> &'static [ArgumentKind]
    ensures { result.now ≡ arguments.kinds named }
{
    match named {
        Named::Statement(Plain(Acts(m))) => act_kinds(m),
        Named::Statement(Plain(Declares(m))) => declaring_kinds(m),
        Named::Statement(Choice(_)) => &[],
        Named::Statement(Question(m)) => question_kinds(m),
        Named::Statement(Check) => &[Message, CacheName, Statements],
        Named::Argument(m) => inner_kinds(m),
    }
}

/// Returns what the argument of AS_IF or AS_CASE at index `i` is, if there are `count` arguments.
fn choice_kind(m: ChoiceMacro, count: usize, i: usize) -> ArgumentKind
    requires { i < count }
    ensures { result ≡ arguments.choice_kind m count i }
{
    match m {
        ChoiceMacro::If => {
            if i % 2 == 1 || i + 1 == count {
                Statements
            } else {
                Test
            }
        }
        ChoiceMacro::Case => {
            if i == 0 {
                Word
            } else if i % 2 == 0 || i + 1 == count {
                Statements
            } else {
                Patterns
            }
        }
    }
}

/// Returns the kind at an index. An argument past the last is not read.
fn kind_at(kinds: &[ArgumentKind], i: usize) -> ArgumentKind
    ensures { result ≡ arguments.kind_at kinds.now i }
{
    if i < kinds.len() { kinds[i] } else { Unread }
}

/// Returns what the argument of a macro at index `i` is, if there are `count` arguments.
pub fn argument_kind(named: Named, count: usize, i: usize) -> ArgumentKind
    requires { i < count }
    ensures { result ≡ arguments.argument_kind named count i }
{
    match named {
        Named::Statement(Choice(m)) => choice_kind(m, count, i),
        _ => kind_at(kinds(named), i),
    }
}

/// Returns whether the argument of a macro at index `i` holds statements, if there are `count`
/// arguments.
pub fn holds_statements(named: Named, count: usize, i: usize) -> bool
    requires { i < count }
    ensures { result ≡ arguments.holds_statements named count i }
{
    matches!(argument_kind(named, count, i), Statements)
}

/// Returns the index of the first argument of a question that holds statements.
#[tactic(auto, unfolding(crate::specs::Arguments::first_action))]
pub fn first_action(m: QuestionMacro) -> usize
    ensures { result ≡ arguments.first_action m }
{
    match m {
        QuestionMacro::Given(OptionKind::Feature) => 2,
        QuestionMacro::Given(OptionKind::Package) => 2,
        QuestionMacro::Library | QuestionMacro::Libraries => 2,
        QuestionMacro::Tries(_) | QuestionMacro::Checks(_) | QuestionMacro::ChecksEach(_) => 1,
    }
}

/// Any number of arguments: the size in bytes of the largest source, so more than any call has.
const ANY: usize = 1_048_576;

/// Returns the largest number of arguments of a call.
pub(crate) fn most_of(named: Named) -> usize
    ensures { result ≡ arguments.most_of named }
{
    match named {
        Named::Statement(Choice(_)) => ANY,
        _ => kinds(named).len(),
    }
}
