//! What a statement with no statements in it declares and does, and questions.

use crate::feature::OptionKind;
use crate::help::Help;
use crate::listed::{Entries, Listed, Sought};
use crate::program::{Program, Try};
use deftable::{Bytes, Name, Texts};
use output_list::OutputList;
use shellword::{HereText, Word};

/// What an output is.
#[derive(Clone, Copy)]
pub enum OutputKind {
    /// A file (Autoconf's manual, "Configuration Files").
    File,
    /// A header (Autoconf's manual, "Configuration Headers").
    Header,
}

/// What a statement adds to the lists of its source. Texts are used texts: unquoted, with
/// quadrigraphs replaced.
#[derive(Drop)]
pub enum Declares {
    /// Nothing.
    Nothing,
    /// AC_INIT: the source is open.
    Begin,
    /// AC_OUTPUT: the source is at its end.
    End,
    /// AC_CONFIG_FILES and AC_CONFIG_HEADERS: outputs to be made.
    Outputs {
        kind: OutputKind,
        outputs: OutputList,
    },
    /// AC_SUBST, AC_CHECK_PROG, AC_CHECK_PROGS and AC_PATH_PROG: an output variable.
    Variable {
        name: Name,
    },
    /// AC_ARG_VAR: a precious variable, which is an output variable too, and its purpose.
    Precious {
        name: Name,
        help: Bytes,
    },
    /// AC_PROG_CC: the variables of the compiler, which are precious.
    Compiler,
    /// AC_ARG_ENABLE and AC_ARG_WITH: an option, with the variable that it sets and its help.
    Option {
        kind: OptionKind,
        variable: Name,
        help: Help,
    },
}

/// What a message is (Autoconf's manual, "Printing Messages").
#[derive(Clone, Copy)]
pub enum Message {
    /// AC_MSG_CHECKING: what is checked.
    Checking,
    /// AC_MSG_RESULT: the results of a check.
    Results,
    /// AC_MSG_NOTICE: what the run does.
    Notice,
    /// AC_MSG_WARN: what may be wrong.
    Warning,
    /// AC_MSG_ERROR: why the run stops.
    Error,
}

/// The value that a variable gets if its program is found.
#[derive(Drop)]
pub enum ProgramValue {
    /// AC_CHECK_PROG: the value of a text.
    Text(HereText),
    /// AC_PATH_PROG: the program's full name.
    FullName,
}

/// What a statement with no statements in it does. Texts are used texts.
#[derive(Drop)]
pub enum Effect {
    /// Nothing. Some macros only declare, and others have no effect in a run: AC_PREREQ,
    /// AC_CONFIG_SRCDIR, AC_CONFIG_AUX_DIR, AC_CONFIG_MACRO_DIR, AC_CONFIG_MACRO_DIRS, AC_LANG.
    Nothing,
    /// `NAME=WORD`, and AC_SUBST with a value: a shell variable gets the value of a word.
    Assign {
        name: Name,
        value: Word,
    },
    /// AC_DEFINE: a C identifier gets this value.
    Define {
        name: Name,
        value: Bytes,
    },
    /// AC_DEFINE_UNQUOTED: a C identifier gets the value of a here text.
    DefineText {
        name: Name,
        value: HereText,
    },
    /// AC_MSG_CHECKING, AC_MSG_RESULT, AC_MSG_NOTICE and AC_MSG_WARN: a message.
    Print {
        message: Message,
        text: HereText,
    },
    /// AC_MSG_ERROR: the text of the error, and the exit status of the run, from 1 to 255.
    Stop {
        text: HereText,
        status: u8,
    },
    /// AC_INIT: the package's names and its version.
    Package {
        title: Bytes,
        version: Bytes,
        bug: Bytes,
        tarname: Bytes,
        url: Bytes,
    },
    /// AC_CHECK_PROG and AC_PATH_PROG: a variable, the program to look for, and the variable's
    /// values if the program is found and if it isn't.
    Search {
        variable: Name,
        program: Bytes,
        value: ProgramValue,
        otherwise: Option<HereText>,
    },
    /// AC_CHECK_PROGS and AC_PROG_CC: a variable, which gets the name of the first program that is
    /// found, and its value if none is.
    Searches {
        variable: Name,
        programs: Texts,
        otherwise: Option<HereText>,
    },
    /// AC_CHECK_HEADERS, AC_CHECK_FUNCS and AC_CHECK_DECLS without actions: the entries, for which
    /// all children are asked at once, and the includes of their programs, if they are not the
    /// default ones.
    Batch {
        listed: Listed,
        entries: Entries,
        includes: Option<HereText>,
    },
    /// AC_OUTPUT: the end of the run.
    Complete,
}

/// What a macro asks, if it has statements for each answer.
#[derive(Drop)]
pub enum Question {
    /// AC_ARG_ENABLE and AC_ARG_WITH: whether the option's variable is set. If it is, the variable
    /// `enableval` or `withval` gets its value from here on.
    Given {
        kind: OptionKind,
        variable: Name,
    },
    /// AC_COMPILE_IFELSE, AC_LINK_IFELSE, AC_PREPROC_IFELSE, AC_RUN_IFELSE: whether a program
    /// passes.
    Tries {
        kind: Try,
        program: Program,
    },
    /// AC_CHECK_HEADER, AC_CHECK_FUNC, AC_CHECK_DECL and AC_CHECK_TYPE: whether the entry is found.
    /// The includes are those of its programs, if they are not the default ones.
    Checks {
        sought: Sought,
        entry: Bytes,
        includes: Option<HereText>,
    },
    /// AC_CHECK_HEADERS, AC_CHECK_FUNCS and AC_CHECK_DECLS with actions, and AC_CHECK_TYPES:
    /// whether each entry is found, one after the other. What is found is defined.
    ChecksEach {
        sought: Sought,
        entries: Entries,
        includes: Option<HereText>,
    },
    /// AC_CHECK_LIB: whether a library has a function. The other libraries are linked after it. If
    /// it has the function and `adds` is true, the result is defined and LIBS gets the library.
    Library {
        library: Bytes,
        function: Bytes,
        others: Option<HereText>,
        adds: bool,
    },
    /// AC_SEARCH_LIBS: whether a function can be linked with no further library, or with one of
    /// these. LIBS gets the first one that has it.
    Libraries {
        function: Bytes,
        libraries: Texts,
        others: Option<HereText>,
    },
}
