//! What the name of a macro means.

use ac_tree::{Message, OptionKind, OutputKind, Sought, Try};

/// A macro with no statements in its arguments that declares nothing.
#[derive(Clone, Copy)]
pub enum ActMacro {
    /// AC_PREREQ.
    Prereq,
    /// AC_CONFIG_SRCDIR, AC_CONFIG_AUX_DIR, AC_CONFIG_MACRO_DIR and AC_CONFIG_MACRO_DIRS, whose
    /// arguments are not read.
    Ignored,
    /// AC_LANG.
    Lang,
    /// AC_DEFINE.
    Define,
    /// AC_DEFINE_UNQUOTED.
    DefineUnquoted,
    /// AC_MSG_ERROR.
    MsgError,
    /// AC_MSG_CHECKING, AC_MSG_RESULT, AC_MSG_NOTICE and AC_MSG_WARN.
    Message(Message),
}

/// A macro with no statements in its arguments that declares something.
#[derive(Clone, Copy)]
pub enum DeclaringMacro {
    /// AC_INIT.
    Init,
    /// AC_CONFIG_FILES and AC_CONFIG_HEADERS.
    ConfigOutputs(OutputKind),
    /// AC_SUBST.
    Subst,
    /// AC_ARG_VAR.
    ArgVar,
    /// AC_PROG_CC.
    ProgCc,
    /// AC_CHECK_PROG.
    CheckProg,
    /// AC_CHECK_PROGS.
    CheckProgs,
    /// AC_PATH_PROG.
    PathProg,
    /// AC_OUTPUT.
    Output,
}

/// A macro with no statements in its arguments.
#[derive(Clone, Copy)]
pub enum PlainMacro {
    /// It declares nothing: its call is what it does.
    Acts(ActMacro),
    /// Its call is what it declares and what it does.
    Declares(DeclaringMacro),
}

/// A macro of cases, each with statements (Autoconf's manual, "Common Shell Constructs").
#[derive(Clone, Copy)]
pub enum ChoiceMacro {
    /// AS_IF.
    If,
    /// AS_CASE.
    Case,
}

/// A macro that asks a question, and has statements for each answer.
#[derive(Clone, Copy)]
pub enum QuestionMacro {
    /// AC_ARG_ENABLE and AC_ARG_WITH: whether an option is given.
    Given(OptionKind),
    /// AC_COMPILE_IFELSE, AC_LINK_IFELSE, AC_PREPROC_IFELSE and AC_RUN_IFELSE: whether a program
    /// passes.
    Tries(Try),
    /// AC_CHECK_HEADER, AC_CHECK_FUNC, AC_CHECK_DECL and AC_CHECK_TYPE: whether an entry is found.
    Checks(Sought),
    /// AC_CHECK_HEADERS, AC_CHECK_FUNCS, AC_CHECK_DECLS and AC_CHECK_TYPES: whether each entry of a
    /// list is found.
    ChecksEach(Sought),
    /// AC_CHECK_LIB: whether a library has a function.
    Library,
    /// AC_SEARCH_LIBS: whether one of several libraries has a function, or none is needed for it.
    Libraries,
}

/// A macro whose calls are statements. Macros are grouped by which of their arguments hold
/// statements.
#[derive(Clone, Copy)]
pub enum Macro {
    /// No argument holds statements.
    Plain(PlainMacro),
    /// Every second argument holds statements, and the last if it is left over. The word of AS_CASE
    /// comes before them.
    Choice(ChoiceMacro),
    /// The two arguments after those of the question hold statements: the first for yes, the second
    /// for no. Includes and other libraries come after them.
    Question(QuestionMacro),
    /// AC_CACHE_CHECK: the third argument holds the commands (Autoconf's manual, "Caching
    /// Results").
    Check,
}

/// A macro that is read only in arguments of other macros.
#[derive(Clone, Copy)]
pub enum ArgumentMacro {
    /// AS_HELP_STRING, in the help arguments of AC_ARG_ENABLE and AC_ARG_WITH.
    HelpString,
    /// AC_LANG_PROGRAM, in the first argument of AC_COMPILE_IFELSE, AC_LINK_IFELSE,
    /// AC_PREPROC_IFELSE and AC_RUN_IFELSE.
    LangProgram,
    /// AC_LANG_SOURCE, in the same arguments.
    LangSource,
}

/// What the name of a macro means.
#[derive(Clone, Copy)]
pub enum Named {
    /// A macro whose calls are statements.
    Statement(Macro),
    /// A macro that is read only in arguments.
    Argument(ArgumentMacro),
}
