//! The table of macros: a row for each name.

ghost use Rattle.std.specs.Prelude.{◌≡◌, bytes_eq, map, length, IfOk};
ghost use Rattle.m4quote.specs.ItemValue.{span};
ghost use Rattle.ac_macros.specs.Table as table;

use crate::arguments::most_of;
use crate::macros::Macro::{Check, Choice, Plain, Question};
use crate::macros::Named::{Argument, Statement};
use crate::macros::PlainMacro::{Acts, Declares};
use crate::macros::{
    ActMacro, ArgumentMacro, ChoiceMacro, DeclaringMacro, Macro, Named, QuestionMacro,
};
use ac_args::arguments::is_given;
use ac_statement::texts::arg_at;
use ac_tree::{Listed, Message, OptionKind, OutputKind, Sought, Try};
use m4quote::Arg;
use std::alloc::{AllocError, Global};

/// A row of the table, without the name.
#[derive(Clone, Copy)]
pub struct Row {
    /// What the name means.
    pub named: Named,
    /// The least number of arguments of a call.
    pub least: usize,
    /// The largest number of arguments of a call.
    pub most: usize,
    /// Whether calls are allowed only at top level, in the file's own list of statements.
    pub top: bool,
}

/// The table: a name, what it means, the least number of arguments, and whether its calls are
/// allowed only at top level.
#[rattlefmt::skip]
const TABLE: [(&[u8], Named, usize, bool); 45] = [
    (b"AC_INIT", Statement(Plain(Declares(DeclaringMacro::Init))), 2, true),
    (b"AC_PREREQ", Statement(Plain(Acts(ActMacro::Prereq))), 1, true),
    (b"AC_CONFIG_SRCDIR", Statement(Plain(Acts(ActMacro::Ignored))), 1, true),
    (b"AC_CONFIG_AUX_DIR", Statement(Plain(Acts(ActMacro::Ignored))), 1, true),
    (b"AC_CONFIG_MACRO_DIR", Statement(Plain(Acts(ActMacro::Ignored))), 1, true),
    (b"AC_CONFIG_MACRO_DIRS", Statement(Plain(Acts(ActMacro::Ignored))), 1, true),
    (b"AC_LANG", Statement(Plain(Acts(ActMacro::Lang))), 1, false),
    (b"AC_CONFIG_FILES", Statement(Plain(Declares(DeclaringMacro::ConfigOutputs(OutputKind::File)))), 1, true),
    (b"AC_CONFIG_HEADERS", Statement(Plain(Declares(DeclaringMacro::ConfigOutputs(OutputKind::Header)))), 1, true),
    (b"AC_OUTPUT", Statement(Plain(Declares(DeclaringMacro::Output))), 0, true),
    (b"AC_ARG_ENABLE", Statement(Question(QuestionMacro::Given(OptionKind::Feature))), 1, false),
    (b"AC_ARG_WITH", Statement(Question(QuestionMacro::Given(OptionKind::Package))), 1, false),
    (b"AC_ARG_VAR", Statement(Plain(Declares(DeclaringMacro::ArgVar))), 2, false),
    (b"AC_SUBST", Statement(Plain(Declares(DeclaringMacro::Subst))), 1, false),
    (b"AC_DEFINE", Statement(Plain(Acts(ActMacro::Define))), 1, false),
    (b"AC_DEFINE_UNQUOTED", Statement(Plain(Acts(ActMacro::DefineUnquoted))), 1, false),
    (b"AC_MSG_ERROR", Statement(Plain(Acts(ActMacro::MsgError))), 1, false),
    (b"AC_MSG_CHECKING", Statement(Plain(Acts(ActMacro::Message(Message::Checking)))), 1, false),
    (b"AC_MSG_RESULT", Statement(Plain(Acts(ActMacro::Message(Message::Results)))), 1, false),
    (b"AC_MSG_NOTICE", Statement(Plain(Acts(ActMacro::Message(Message::Notice)))), 1, false),
    (b"AC_MSG_WARN", Statement(Plain(Acts(ActMacro::Message(Message::Warning)))), 1, false),
    (b"AS_IF", Statement(Choice(ChoiceMacro::If)), 2, false),
    (b"AS_CASE", Statement(Choice(ChoiceMacro::Case)), 2, false),
    (b"AC_CACHE_CHECK", Statement(Check), 3, false),
    (b"AC_PROG_CC", Statement(Plain(Declares(DeclaringMacro::ProgCc))), 0, false),
    (b"AC_CHECK_PROG", Statement(Plain(Declares(DeclaringMacro::CheckProg))), 3, false),
    (b"AC_CHECK_PROGS", Statement(Plain(Declares(DeclaringMacro::CheckProgs))), 2, false),
    (b"AC_PATH_PROG", Statement(Plain(Declares(DeclaringMacro::PathProg))), 2, false),
    (b"AC_CHECK_HEADER", Statement(Question(QuestionMacro::Checks(Sought::ListEntry(Listed::Header)))), 1, false),
    (b"AC_CHECK_FUNC", Statement(Question(QuestionMacro::Checks(Sought::ListEntry(Listed::Function)))), 1, false),
    (b"AC_CHECK_DECL", Statement(Question(QuestionMacro::Checks(Sought::ListEntry(Listed::Declaration)))), 1, false),
    (b"AC_CHECK_TYPE", Statement(Question(QuestionMacro::Checks(Sought::Type))), 1, false),
    (b"AC_CHECK_HEADERS", Statement(Question(QuestionMacro::ChecksEach(Sought::ListEntry(Listed::Header)))), 1, false),
    (b"AC_CHECK_FUNCS", Statement(Question(QuestionMacro::ChecksEach(Sought::ListEntry(Listed::Function)))), 1, false),
    (b"AC_CHECK_DECLS", Statement(Question(QuestionMacro::ChecksEach(Sought::ListEntry(Listed::Declaration)))), 1, false),
    (b"AC_CHECK_TYPES", Statement(Question(QuestionMacro::ChecksEach(Sought::Type))), 1, false),
    (b"AC_CHECK_LIB", Statement(Question(QuestionMacro::Library)), 2, false),
    (b"AC_SEARCH_LIBS", Statement(Question(QuestionMacro::Libraries)), 2, false),
    (b"AC_COMPILE_IFELSE", Statement(Question(QuestionMacro::Tries(Try::Compile))), 1, false),
    (b"AC_LINK_IFELSE", Statement(Question(QuestionMacro::Tries(Try::Link))), 1, false),
    (b"AC_PREPROC_IFELSE", Statement(Question(QuestionMacro::Tries(Try::Preproc))), 1, false),
    (b"AC_RUN_IFELSE", Statement(Question(QuestionMacro::Tries(Try::Run))), 1, false),
    (b"AS_HELP_STRING", Argument(ArgumentMacro::HelpString), 2, false),
    (b"AC_LANG_PROGRAM", Argument(ArgumentMacro::LangProgram), 0, false),
    (b"AC_LANG_SOURCE", Argument(ArgumentMacro::LangSource), 1, false),
];

/// Returns all rows: a name, what it means, the least number of arguments, and whether its calls are
/// allowed only at top level. What it means says what its arguments are, and so how many there may
/// be.
#[tactic(auto, unfolding(crate::specs::Table::rows))]
pub fn rows() -> &'static [(&'static [u8], Named, usize, bool)]
    ensures { map (λ e. (e.0.now, e.1, e.2, e.3)) result.now ≡ table.rows }
{
    &TABLE
}

/// Returns whether two names are equal. Most are of different lengths, which is cheap to see.
fn is_same(known: &[u8], name: &[u8]) -> bool
    ensures { result ≡ bytes_eq known.now name.now }
{
    known.len() == name.len() && known == name
}

/// Returns the first row of the name.
fn find(rows: &[(&[u8], Named, usize, bool)], name: &[u8]) -> Option<Row>
    ensures { result
        ≡ table.row_among name.now (map (λ e. (e.0.now, e.1, e.2, e.3)) rows.now) }
{
    for row in rows {
        if is_same(row.0, name) {
            return Some(Row {
                named: row.1,
                least: row.2,
                most: most_of(row.1),
                top: row.3,
            });
        }
    }
    None
}

/// Returns the row of a name, or `None` if no macro of that name is understood.
#[tactic(auto, unfolding(crate::specs::Table::row_named))]
pub fn row_named(name: &[u8]) -> Option<Row>
    ensures { result ≡ table.row_named name.now }
{
    find(rows(), name)
}

/// Returns whether a row allows `count` arguments.
fn allows(row: Row, count: usize) -> bool
    ensures { result ≡ table.allows row count }
{
    row.least <= count && count <= row.most
}

/// Returns whether a call is AC_OUTPUT with an argument that is given.
fn is_output_of_text(alloc: Global, m: Named, args: &[Arg<'_>]) -> Result<bool, AllocError>
    ensures { IfOk result (λ b. b ≡ table.is_output_of_text m (map span args.now)) }
{
    match m {
        Named::Statement(Macro::Plain(Declares(DeclaringMacro::Output))) => is_given(
            alloc,
            arg_at(args, 0),
        ),
        _ => Ok(false),
    }
}

/// Returns whether a row's macro takes these arguments: the row allows their number, and the one of
/// AC_OUTPUT is empty. An argument with an error in its quotes isn't empty.
#[tactic(auto, unfolding(crate::specs::Table::takes))]
pub fn takes(alloc: Global, row: Row, args: &[Arg<'_>]) -> Result<bool, AllocError>
    ensures { IfOk result (λ b. b ≡ table.takes row (map span args.now)) }
{
    if !allows(row, args.len()) {
        return Ok(false);
    }
    let with_text = is_output_of_text(alloc, row.named, args)?;
    Ok(!with_text)
}
