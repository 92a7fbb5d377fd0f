//! What is said. `tools/word_table.py` writes this file from `words.txt`.

use crate::key::Key;

/// a quote is open at the end of the file: this `[` has no `]`
#[rattlefmt::skip]
pub const UNCLOSED_QUOTE: Key = Key(b"unclosed-quote", b"a quote is open at the end of the file: this `[` has no `]`", b"close the argument before the parenthesis or the comma that ends it");

/// a call is open at the end of the file: the parenthesis of MACRO is not closed
#[rattlefmt::skip]
pub const UNCLOSED_CALL: Key = Key(b"unclosed-call", b"a call is open at the end of the file: the parenthesis of \x01 is not closed", b"close it after the last argument");

/// this `]` closes no bracket
#[rattlefmt::skip]
pub const STRAY_CLOSE: Key = Key(b"stray-close", b"this `]` closes no bracket", b"remove it; in an argument, write [[ and ]] for brackets that stay");

/// there is a NUL byte
#[rattlefmt::skip]
pub const NUL_BYTE: Key = Key(b"nul-byte", b"there is a NUL byte", b"save the file as text, in UTF-8");

/// the file has more than 1,048,576 bytes
#[rattlefmt::skip]
pub const SOURCE_TOO_LARGE: Key = Key(b"source-too-large", b"the file has more than 1,048,576 bytes", b"acrun reads no larger source");

/// more than 64 brackets and parentheses are open at once
#[rattlefmt::skip]
pub const TOO_MANY_BRACKETS: Key = Key(b"too-many-brackets", b"more than 64 brackets and parentheses are open at once", b"one of them is probably not closed");

/// acrun does not know the macro MACRO
#[rattlefmt::skip]
pub const UNKNOWN_MACRO: Key = Key(b"unknown-macro", b"acrun does not know the macro \x01", b"");

/// NAME is not a macro that acrun knows, and acrun runs no commands
#[rattlefmt::skip]
pub const NO_MACRO: Key = Key(b"no-macro", b"\x01 is not a macro that acrun knows, and acrun runs no commands", b"");

/// a macro of a similar name is MACRO
#[rattlefmt::skip]
pub const NEAR_MACRO: Key = Key(b"near-macro", b"", b"a macro of a similar name is \x01");

/// acrun takes a name that begins so for that of a macro; write a
#[rattlefmt::skip]
pub const VARIABLE_IN_BRACKETS: Key = Key(b"variable-in-brackets", b"", b"acrun takes a name that begins so for that of a macro; write a\nvariable in brackets, as in [$\x01] and [\x01]=VALUE");

/// if m4/ or aclocal.m4 defines it, write here what it does
#[rattlefmt::skip]
pub const UNLISTED_MACRO: Key = Key(b"unlisted-macro", b"", b"if m4/ or aclocal.m4 defines it, write here what it does");

/// if m4/ or aclocal.m4 defines it, write here what it does
#[rattlefmt::skip]
pub const OWN_MACRO: Key = Key(b"own-macro", b"", b"if m4/ or aclocal.m4 defines it, write here what it does");

/// this file defines it: write here what it does
#[rattlefmt::skip]
pub const DEFINED_MACRO: Key = Key(b"defined-macro", b"", b"this file defines it: write here what it does");

/// write $VARIABLE
#[rattlefmt::skip]
pub const WRITE_VARIABLE: Key = Key(b"write-variable", b"", b"write $\x01");

/// write instead
#[rattlefmt::skip]
pub const WRITE_INSTEAD: Key = Key(b"write-instead", b"", b"write instead\n\x01");

/// acrun port leaves this to you, since the text takes nothing of
#[rattlefmt::skip]
pub const SURPLUS_IN_IDIOM: Key = Key(b"surplus-in-idiom", b"", b"acrun port leaves this to you, since the text takes nothing of\nargument \x01 of the call");

/// acrun port leaves this to you, since the macro changes no flags:
#[rattlefmt::skip]
pub const FLAG_IN_IDIOM: Key = Key(b"flag-in-idiom", b"", b"acrun port leaves this to you, since the macro changes no flags:\nits second argument does, which is not part of this text");

/// acrun port leaves this to you, since a quote or a variable in the
#[rattlefmt::skip]
pub const VALUE_IN_IDIOM: Key = Key(b"value-in-idiom", b"", b"acrun port leaves this to you, since a quote or a variable in the\nvalue may mean another thing between these quotes");

/// MACRO has other text on its line
#[rattlefmt::skip]
pub const TEXT_BESIDE_CALL: Key = Key(b"text-beside-call", b"\x01 has other text on its line", b"put the call on a line of its own");

/// there is a `)` too many after MACRO
#[rattlefmt::skip]
pub const SURPLUS_PARENTHESIS: Key = Key(b"surplus-parenthesis", b"there is a `)` too many after \x01", b"remove the last one");

/// there is a blank after the `=` of an assignment
#[rattlefmt::skip]
pub const BLANK_AFTER_EQUALS: Key = Key(b"blank-after-equals", b"there is a blank after the `=` of an assignment", b"write NAME=VALUE without blanks, and a value with blanks in quotes");

/// TEXT is not a statement that acrun supports
#[rattlefmt::skip]
pub const NO_STATEMENT: Key = Key(b"no-statement", b"\x01 is not a statement that acrun supports", b"write assignments NAME=VALUE and calls; acrun runs no commands");

/// MACRO is not a statement
#[rattlefmt::skip]
pub const ARGUMENT_MACRO: Key = Key(b"argument-macro", b"\x01 is not a statement", b"it is an argument of AC_ARG_WITH, AC_COMPILE_IFELSE and their like");

/// acrun doesn't support the argument ARGUMENT of MACRO
#[rattlefmt::skip]
pub const UNREAD_ARGUMENT: Key = Key(b"unread-argument", b"acrun doesn't support the argument \x01 of \x02", b"");

/// write AC_LANG_PROGRAM([includes], [body]) or AC_LANG_SOURCE([text])
#[rattlefmt::skip]
pub const PROGRAM_ARGUMENT: Key = Key(b"program-argument", b"", b"write AC_LANG_PROGRAM([includes], [body]) or AC_LANG_SOURCE([text])");

/// an action has assignments and calls; blanks separate a list
#[rattlefmt::skip]
pub const BARE_ARGUMENT: Key = Key(b"bare-argument", b"", b"an action has assignments and calls; blanks separate a list");

/// the second argument is an action, and not a default; write instead
#[rattlefmt::skip]
pub const DEFAULT_OF_TYPE: Key = Key(b"default-of-type", b"", b"the second argument is an action, and not a default; write instead\nAC_CHECK_TYPE([\x01], [],\n  [AC_DEFINE([\x01], [\x02], [Define if there is no \x01.])])");

/// put the argument in one pair of brackets; blanks separate a list
#[rattlefmt::skip]
pub const BRACKETED_ARGUMENT: Key = Key(b"bracketed-argument", b"", b"put the argument in one pair of brackets; blanks separate a list");

/// MACRO takes 1 argument
#[rattlefmt::skip]
pub const TAKES_ONE: Key = Key(b"takes-one", b"\x01 takes 1 argument", b"");

/// MACRO takes NUMBER arguments
#[rattlefmt::skip]
pub const TAKES_SOME: Key = Key(b"takes-some", b"\x01 takes \x02 arguments", b"");

/// MACRO takes NUMBER to 1 argument
#[rattlefmt::skip]
pub const TAKES_AT_MOST_ONE: Key = Key(b"takes-at-most-one", b"\x01 takes \x02 to 1 argument", b"");

/// MACRO takes NUMBER to NUMBER arguments
#[rattlefmt::skip]
pub const TAKES_RANGE: Key = Key(b"takes-range", b"\x01 takes \x02 to \x03 arguments", b"");

/// MACRO takes NUMBER or more arguments
#[rattlefmt::skip]
pub const TAKES_MORE: Key = Key(b"takes-more", b"\x01 takes \x02 or more arguments", b"");

/// , and has NUMBER
#[rattlefmt::skip]
pub const HAS_ARGUMENTS: Key = Key(b"has-arguments", b", and has \x01", b"");

/// AC_OUTPUT takes no argument
#[rattlefmt::skip]
pub const OUTPUT_ARGUMENT: Key = Key(b"output-argument", b"AC_OUTPUT takes no argument", b"write instead\nAC_CONFIG_FILES([Makefile])\nAC_OUTPUT");

/// write no blank between the name and its parenthesis
#[rattlefmt::skip]
pub const BLANK_BEFORE_PARENTHESIS: Key = Key(b"blank-before-parenthesis", b"", b"write no blank between the name and its parenthesis");

/// write the package's name and version: AC_INIT([package], [version])
#[rattlefmt::skip]
pub const MISSING_VERSION: Key = Key(b"missing-version", b"", b"write the package's name and version: AC_INIT([package], [version])");

/// write AC_INIT([package], [version]) and AC_CONFIG_SRCDIR([FILE])
#[rattlefmt::skip]
pub const MISSING_VERSION_OF: Key = Key(b"missing-version-of", b"", b"write AC_INIT([package], [version]) and AC_CONFIG_SRCDIR([\x01])");

/// FORM
#[rattlefmt::skip]
pub const WHOLE_FORM: Key = Key(b"whole-form", b"", b"\x01");

/// acrun looks for programs in PATH alone: leave the last argument out
#[rattlefmt::skip]
pub const SURPLUS_DIRECTORIES: Key = Key(b"surplus-directories", b"", b"acrun looks for programs in PATH alone: leave the last argument out");

/// separate files by blanks, and leave the commands out
#[rattlefmt::skip]
pub const SURPLUS_COMMANDS: Key = Key(b"surplus-commands", b"", b"separate files by blanks, and leave the commands out");

/// put each argument in brackets: without them, a comma ends it
#[rattlefmt::skip]
pub const COMMA_IN_ARGUMENT: Key = Key(b"comma-in-argument", b"", b"put each argument in brackets: without them, a comma ends it");

/// MACRO: ARGUMENT is not the name of a variable
#[rattlefmt::skip]
pub const NO_VARIABLE: Key = Key(b"no-variable", b"\x02: \x01 is not the name of a variable", b"a name has letters, digits and `_`, and does not begin with a digit");

/// MACRO: ARGUMENT is not the name of a C macro
#[rattlefmt::skip]
pub const NO_SYMBOL: Key = Key(b"no-symbol", b"\x02: \x01 is not the name of a C macro", b"a name has letters, digits and `_`, and does not begin with a digit");

/// MACRO: ARGUMENT is not text on one line
#[rattlefmt::skip]
pub const NO_LINE: Key = Key(b"no-line", b"\x02: \x01 is not text on one line", b"write it on one line");

/// MACRO: ARGUMENT is not a header
#[rattlefmt::skip]
pub const NO_HEADER: Key = Key(b"no-header", b"\x02: \x01 is not a header", b"name one header, such as sys/stat.h, without < and >");

/// MACRO: ARGUMENT is not a list of headers
#[rattlefmt::skip]
pub const NO_HEADERS: Key = Key(b"no-headers", b"\x02: \x01 is not a list of headers", b"separate headers by blanks, and write sys/stat.h without < and >");

/// MACRO: ARGUMENT is not text of #include lines
#[rattlefmt::skip]
pub const NO_INCLUDES: Key = Key(b"no-includes", b"\x02: \x01 is not text of #include lines", b"leave the argument out, or write #include lines");

/// MACRO: ARGUMENT is not a function
#[rattlefmt::skip]
pub const NO_FUNCTION: Key = Key(b"no-function", b"\x02: \x01 is not a function", b"name one function, such as getline");

/// MACRO: ARGUMENT is not a list of functions
#[rattlefmt::skip]
pub const NO_FUNCTIONS: Key = Key(b"no-functions", b"\x02: \x01 is not a list of functions", b"separate functions by blanks: AC_CHECK_FUNCS([getline strdup])");

/// MACRO: ARGUMENT is not the name of a declaration
#[rattlefmt::skip]
pub const NO_DECLARATION: Key = Key(b"no-declaration", b"\x02: \x01 is not the name of a declaration", b"separate names by commas, and write none with its arguments");

/// MACRO: ARGUMENT is not a list of declarations
#[rattlefmt::skip]
pub const NO_DECLARATIONS: Key = Key(b"no-declarations", b"\x02: \x01 is not a list of declarations", b"separate names by commas, and write none with its arguments");

/// MACRO: ARGUMENT is not a type
#[rattlefmt::skip]
pub const NO_TYPE: Key = Key(b"no-type", b"\x02: \x01 is not a type", b"separate types by commas");

/// MACRO: ARGUMENT is not a list of types
#[rattlefmt::skip]
pub const NO_TYPES: Key = Key(b"no-types", b"\x02: \x01 is not a list of types", b"separate types by commas");

/// MACRO names nothing
#[rattlefmt::skip]
pub const NAMES_NOTHING: Key = Key(b"names-nothing", b"\x01 names nothing", b"leave the call out");

/// MACRO: ARGUMENT is not a list of files
#[rattlefmt::skip]
pub const NO_FILES: Key = Key(b"no-files", b"\x02: \x01 is not a list of files", b"separate files by blanks; a name has no `..`, `$` or leading `/`");

/// MACRO: ARGUMENT is not a list of headers
#[rattlefmt::skip]
pub const NO_MADE_HEADERS: Key = Key(b"no-made-headers", b"\x02: \x01 is not a list of headers", b"separate files by blanks; a name has no `..`, `$` or leading `/`");

/// MACRO names FILE a second time
#[rattlefmt::skip]
pub const NAMED_TWICE: Key = Key(b"named-twice", b"\x02 names \x01 a second time", b"leave one of them out");

/// MACRO: FILE is not in the directory of the run
#[rattlefmt::skip]
pub const OUTSIDE_DIRECTORY: Key = Key(b"outside-directory", b"\x02: \x01 is not in the directory of the run", b"name a file below it, without `..` and without a leading `/`");

/// MACRO: FILE has a variable
#[rattlefmt::skip]
pub const VARIABLE_IN_NAME: Key = Key(b"variable-in-name", b"\x02: \x01 has a variable", b"write the name out");

/// MACRO: FILE names more than one template
#[rattlefmt::skip]
pub const SEVERAL_TEMPLATES: Key = Key(b"several-templates", b"\x02: \x01 names more than one template", b"write FILE:TEMPLATE, and join the templates beforehand");

/// MACRO: ARGUMENT is not the name of a feature
#[rattlefmt::skip]
pub const NO_FEATURE: Key = Key(b"no-feature", b"\x02: \x01 is not the name of a feature", b"a name has letters, digits, `-`, `+`, `.` and `_`");

/// MACRO: ARGUMENT is not the name of a package
#[rattlefmt::skip]
pub const NO_PACKAGE: Key = Key(b"no-package", b"\x02: \x01 is not the name of a package", b"a name has letters, digits, `-`, `+`, `.` and `_`");

/// MACRO: ARGUMENT is not a library
#[rattlefmt::skip]
pub const NO_LIBRARY: Key = Key(b"no-library", b"\x02: \x01 is not a library", b"a library has letters, digits, `-`, `+`, `.` and `_`, as m of -lm");

/// MACRO: ARGUMENT is not a list of libraries
#[rattlefmt::skip]
pub const NO_LIBRARIES: Key = Key(b"no-libraries", b"\x02: \x01 is not a list of libraries", b"a library has letters, digits, `-`, `+`, `.` and `_`, as m of -lm");

/// MACRO: ARGUMENT is not a program
#[rattlefmt::skip]
pub const NO_PROGRAM: Key = Key(b"no-program", b"\x02: \x01 is not a program", b"the name of a program has no blank, `$`, backslash or backquote");

/// MACRO: ARGUMENT is not a list of programs
#[rattlefmt::skip]
pub const NO_PROGRAMS: Key = Key(b"no-programs", b"\x02: \x01 is not a list of programs", b"the name of a program has no blank, `$`, backslash or backquote");

/// MACRO: ARGUMENT is not a list of compilers
#[rattlefmt::skip]
pub const NO_COMPILERS: Key = Key(b"no-compilers", b"\x02: \x01 is not a list of compilers", b"the name of a program has no blank, `$`, backslash or backquote");

/// MACRO: ARGUMENT is not a version of Autoconf
#[rattlefmt::skip]
pub const NO_VERSION: Key = Key(b"no-version", b"\x02: \x01 is not a version of Autoconf", b"a version is one to three numbers with dots, as 2.69");

/// MACRO: ARGUMENT is not an exit status
#[rattlefmt::skip]
pub const NO_EXIT_STATUS: Key = Key(b"no-exit-status", b"\x02: \x01 is not an exit status", b"write a number from 1 to 255; put a message with a comma in brackets");

/// MACRO: acrun doesn't support the language ARGUMENT
#[rattlefmt::skip]
pub const NO_LANGUAGE: Key = Key(b"no-language", b"\x02: acrun doesn't support the language \x01", b"C is the only language");

/// MACRO: ARGUMENT is not the name of a cached value
#[rattlefmt::skip]
pub const NO_CACHED_VALUE: Key = Key(b"no-cached-value", b"\x02: \x01 is not the name of a cached value", b"write a shell name that has _cv_ in it, as my_cv_has_zlib");

/// MACRO: ARGUMENT is not text on one line
#[rattlefmt::skip]
pub const NO_TEXT: Key = Key(b"no-text", b"\x02: \x01 is not text on one line", b"the arguments of AC_INIT are plain text, each on one line");

/// MACRO: acrun doesn't support the argument ARGUMENT
#[rattlefmt::skip]
pub const BAD_ARGUMENT: Key = Key(b"bad-argument", b"\x02: acrun doesn't support the argument \x01", b"");

/// TEXT is not a shell word that acrun supports
#[rattlefmt::skip]
pub const NO_WORD: Key = Key(b"no-word", b"\x01 is not a shell word that acrun supports", b"put a word with blanks in quotes; variables are $name and ${name}");

/// acrun doesn't support the value of this assignment
#[rattlefmt::skip]
pub const NO_VALUE: Key = Key(b"no-value", b"acrun doesn't support the value of this assignment", b"a value is a shell word: text, quotes, $name and ${name}");

/// acrun takes the name NAME in this value for that of a macro
#[rattlefmt::skip]
pub const MACRO_IN_VALUE: Key = Key(b"macro-in-value", b"acrun takes the name \x01 in this value for that of a macro", b"write it in brackets, as in ${[\x01]}");

/// TEXT is not a test that acrun supports
#[rattlefmt::skip]
pub const NO_TEST: Key = Key(b"no-test", b"\x01 is not a test that acrun supports", b"write test -n, test -z, test A = B or test A != B, with &&, || and !");

/// TEXT is not a list of patterns that acrun supports
#[rattlefmt::skip]
pub const NO_PATTERN: Key = Key(b"no-pattern", b"\x01 is not a list of patterns that acrun supports", b"patterns have * and ? and are joined by |; put other text in quotes");

/// the shell's `WORD` is not supported
#[rattlefmt::skip]
pub const SHELL_IF: Key = Key(b"shell-if", b"the shell's `\x01` is not supported", b"write instead; acrun port does it where it can\nAS_IF([test \"$name\" = value],\n  [what is done then],\n  [what is done otherwise])");

/// a test on its own is not supported
#[rattlefmt::skip]
pub const SHELL_TEST: Key = Key(b"shell-test", b"a test on its own is not supported", b"write instead; acrun port does it where it can\nAS_IF([test \"$name\" = value],\n  [what is done then],\n  [what is done otherwise])");

/// `WORD` on its own is not supported
#[rattlefmt::skip]
pub const SHELL_NOT: Key = Key(b"shell-not", b"`\x01` on its own is not supported", b"write instead; acrun port does it where it can\nAS_IF([test \"$name\" = value],\n  [what is done then],\n  [what is done otherwise])");

/// `WORD` between statements is not supported
#[rattlefmt::skip]
pub const SHELL_AND: Key = Key(b"shell-and", b"`\x01` between statements is not supported", b"write an assignment on its own line; acrun port may do the rest\nAS_IF([test \"$name\" = value],\n  [what is done then],\n  [what is done otherwise])");

/// `+=` is not supported
#[rattlefmt::skip]
pub const SHELL_APPEND: Key = Key(b"shell-append", b"`+=` is not supported", b"write NAME=\"$NAME\"WORD for NAME+=WORD");

/// the shell's `WORD` is not supported
#[rattlefmt::skip]
pub const SHELL_CASE: Key = Key(b"shell-case", b"the shell's `\x01` is not supported", b"write instead; acrun port does it where it can\nAS_CASE([$name],\n  [pattern | pattern], [what is done then],\n  [what is done otherwise])");

/// the shell's `WORD` is not supported
#[rattlefmt::skip]
pub const SHELL_FOR: Key = Key(b"shell-for", b"the shell's `\x01` is not supported", b"write one call with the list, or a statement for each word\nAC_CHECK_HEADERS([termios.h termio.h], [have_terminal=yes])");

/// acrun does not run `WORD`
#[rattlefmt::skip]
pub const SHELL_ECHO: Key = Key(b"shell-echo", b"acrun does not run `\x01`", b"write instead\nAC_MSG_RESULT([text])");

/// the shell's `WORD` is not supported
#[rattlefmt::skip]
pub const SHELL_EXIT: Key = Key(b"shell-exit", b"the shell's `\x01` is not supported", b"write instead\nAC_MSG_ERROR([why the run stops], [1])");

/// the shell's `WORD` is not supported
#[rattlefmt::skip]
pub const SHELL_EXPORT: Key = Key(b"shell-export", b"the shell's `\x01` is not supported", b"leave it out: checks have CC and the flags, templates use AC_SUBST");

/// the shell's `WORD` is not supported
#[rattlefmt::skip]
pub const SHELL_BREAK: Key = Key(b"shell-break", b"the shell's `\x01` is not supported", b"make each check only if the one before it says no, as in\nAC_CHECK_FUNCS([f], [], [AC_CHECK_FUNCS([g])])");

/// the shell's `WORD` is not supported
#[rattlefmt::skip]
pub const SHELL_UNSET: Key = Key(b"shell-unset", b"the shell's `\x01` is not supported", b"write NAME= instead: an empty variable is tested by test -z \"$NAME\"");

/// the shell's `WORD` is not supported
#[rattlefmt::skip]
pub const SHELL_COMMAND: Key = Key(b"shell-command", b"the shell's `\x01` is not supported", b"acrun runs no commands; let the user give what it would print\nAC_ARG_VAR([NAME], [what it is])\nAS_IF([test -z \"$NAME\"], [NAME=default])");

/// the shell's `WORD` is not supported
#[rattlefmt::skip]
pub const SHELL_EVAL: Key = Key(b"shell-eval", b"the shell's `\x01` is not supported", b"write the assignments out: acrun reads no text a second time");

/// shell functions are not supported
#[rattlefmt::skip]
pub const SHELL_FUNCTION: Key = Key(b"shell-function", b"shell functions are not supported", b"write out what the function does where it is called");

/// groups of commands in braces are not supported
#[rattlefmt::skip]
pub const SHELL_GROUP: Key = Key(b"shell-group", b"groups of commands in braces are not supported", b"write the statements without the braces");

/// acrun does not run `WORD`
#[rattlefmt::skip]
pub const SHELL_CD: Key = Key(b"shell-cd", b"acrun does not run `\x01`", b"leave it out: files are named from the top of the package");

/// acrun does not run the command in backquotes
#[rattlefmt::skip]
pub const SHELL_BACKQUOTE: Key = Key(b"shell-backquote", b"acrun does not run the command in backquotes", b"acrun runs no commands; let the user give what it would print\nAC_ARG_VAR([NAME], [what it is])\nAS_IF([test -z \"$NAME\"], [NAME=default])");

/// shell arithmetic is not supported
#[rattlefmt::skip]
pub const SHELL_ARITHMETIC: Key = Key(b"shell-arithmetic", b"shell arithmetic is not supported", b"acrun runs no commands; let the user give what it would print\nAC_ARG_VAR([NAME], [what it is])\nAS_IF([test -z \"$NAME\"], [NAME=default])");

/// acrun does not run the command in `$(..)`
#[rattlefmt::skip]
pub const SHELL_SUBSTITUTION: Key = Key(b"shell-substitution", b"acrun does not run the command in `$(..)`", b"acrun runs no commands; let the user give what it would print\nAC_ARG_VAR([NAME], [what it is])\nAS_IF([test -z \"$NAME\"], [NAME=default])");

/// redirections are not supported
#[rattlefmt::skip]
pub const SHELL_REDIRECTION: Key = Key(b"shell-redirection", b"redirections are not supported", b"acrun runs no commands; let the user give what it would print\nAC_ARG_VAR([NAME], [what it is])\nAS_IF([test -z \"$NAME\"], [NAME=default])");

/// pipes are not supported
#[rattlefmt::skip]
pub const SHELL_PIPE: Key = Key(b"shell-pipe", b"pipes are not supported", b"acrun runs no commands; let the user give what it would print\nAC_ARG_VAR([NAME], [what it is])\nAS_IF([test -z \"$NAME\"], [NAME=default])");

/// subshells are not supported
#[rattlefmt::skip]
pub const SHELL_SUBSHELL: Key = Key(b"shell-subshell", b"subshells are not supported", b"acrun runs no commands; let the user give what it would print\nAC_ARG_VAR([NAME], [what it is])\nAS_IF([test -z \"$NAME\"], [NAME=default])");

/// acrun does not run a command that a variable names
#[rattlefmt::skip]
pub const SHELL_VARIABLE_COMMAND: Key = Key(b"shell-variable-command", b"acrun does not run a command that a variable names", b"acrun runs no commands; let the user give what it would print\nAC_ARG_VAR([NAME], [what it is])\nAS_IF([test -z \"$NAME\"], [NAME=default])");

/// `WORD` is not an operator of `test`
#[rattlefmt::skip]
pub const TEST_EQUALS: Key = Key(b"test-equals", b"`\x01` is not an operator of `test`", b"write = with a blank on each side");

/// `WORD` in a test is not supported
#[rattlefmt::skip]
pub const TEST_AND: Key = Key(b"test-and", b"`\x01` in a test is not supported", b"write two tests joined by &&, as in\nAS_IF([test -n \"$a\" && test -z \"$b\"], ..)");

/// `WORD` in a test is not supported
#[rattlefmt::skip]
pub const TEST_OR: Key = Key(b"test-or", b"`\x01` in a test is not supported", b"write two tests joined by ||, as in\nAS_IF([test -n \"$a\" || test -z \"$b\"], ..)");

/// `test WORD` is not supported
#[rattlefmt::skip]
pub const TEST_FILE: Key = Key(b"test-file", b"`test \x01` is not supported", b"let the user say it (AC_ARG_WITH), or check what the file is for\nAC_CHECK_HEADER([header.h], [what is done then])");

/// `WORD` in a test is not supported
#[rattlefmt::skip]
pub const TEST_NUMBER: Key = Key(b"test-number", b"`\x01` in a test is not supported", b"write = or != for -eq and -ne; there is nothing for the others");

/// `WORD` in a test is not supported
#[rattlefmt::skip]
pub const TEST_SEMICOLON: Key = Key(b"test-semicolon", b"`\x01` in a test is not supported", b"join tests by && and ||");

/// a test in brackets is not supported, since brackets are quotes here
#[rattlefmt::skip]
pub const TEST_BRACKET: Key = Key(b"test-bracket", b"a test in brackets is not supported, since brackets are quotes here", b"write test instead\nAS_IF([test \"$name\" = value], ..)");

/// the line ends in a carriage return
#[rattlefmt::skip]
pub const CARRIAGE_RETURN: Key = Key(b"carriage-return", b"the line ends in a carriage return", b"the file has the line ends of another system; remove them\ntr -d '\\r' < configure.ac > new && mv new configure.ac");

/// there is a blank beside the `=` of an assignment
#[rattlefmt::skip]
pub const BLANK_BESIDE_EQUALS: Key = Key(b"blank-beside-equals", b"there is a blank beside the `=` of an assignment", b"write NAME=VALUE without blanks, and a value with blanks in quotes");

/// `${NAME-WORD}` and its like are not supported
#[rattlefmt::skip]
pub const VARIABLE_WITH_OPERATOR: Key = Key(b"variable-with-operator", b"`${NAME-WORD}` and its like are not supported", b"write instead\nAS_IF([test -z \"$name\"], [name=default])");

/// `${NAME#WORD}` and its like are not supported
#[rattlefmt::skip]
pub const VARIABLE_WITH_CUT: Key = Key(b"variable-with-cut", b"`${NAME#WORD}` and its like are not supported", b"write the parts out, or let the user give them\nAC_ARG_VAR([NAME], [what it is])");

/// `${NAME+WORD}` is not supported
#[rattlefmt::skip]
pub const VARIABLE_WITH_TEST: Key = Key(b"variable-with-test", b"`${NAME+WORD}` is not supported", b"write test -n \"$NAME\"; it is false, too, if the variable is empty");

/// a backquote in a message is not supported
#[rattlefmt::skip]
pub const MESSAGE_BACKQUOTE: Key = Key(b"message-backquote", b"a backquote in a message is not supported", b"write an apostrophe in its place");

/// the shell's own variables, such as `$1`, `$@` and `$?`, are not supported
#[rattlefmt::skip]
pub const SPECIAL_VARIABLE: Key = Key(b"special-variable", b"the shell's own variables, such as `$1`, `$@` and `$?`, are not supported", b"name a variable, as $name or ${name}; \\$ is a dollar sign");

/// a double quote is not closed
#[rattlefmt::skip]
pub const OPEN_DOUBLE_QUOTE: Key = Key(b"open-double-quote", b"a double quote is not closed", b"close it before the argument or the line ends; \\\" is a plain quote");

/// a single quote is not closed
#[rattlefmt::skip]
pub const OPEN_SINGLE_QUOTE: Key = Key(b"open-single-quote", b"a single quote is not closed", b"close it before the argument or the line ends; \\' is an apostrophe");

/// MACRO is called a second time
#[rattlefmt::skip]
pub const SECOND_CALL: Key = Key(b"second-call", b"\x01 is called a second time", b"remove this call");

/// MACRO is not allowed within MACRO
#[rattlefmt::skip]
pub const NOT_AT_TOP: Key = Key(b"not-at-top", b"\x01 is not allowed within \x02", b"move it to the top of the file: it holds for the whole package");

/// the file begins with a byte order mark
#[rattlefmt::skip]
pub const BYTE_ORDER_MARK: Key = Key(b"byte-order-mark", b"the file begins with a byte order mark", b"remove its first three bytes\ntail -c +4 configure.ac > new && mv new configure.ac");

/// the file is empty
#[rattlefmt::skip]
pub const EMPTY_FILE: Key = Key(b"empty-file", b"the file is empty", b"begin with AC_INIT([package], [version]) and end with AC_OUTPUT");

/// this is before AC_INIT
#[rattlefmt::skip]
pub const TEXT_BEFORE_INIT: Key = Key(b"text-before-init", b"this is before AC_INIT", b"move AC_INIT up: only AC_PREREQ and comments may be before it");

/// this is before AC_INIT: begin with AC_INIT([package], [version])
#[rattlefmt::skip]
pub const INIT_NOT_FIRST: Key = Key(b"init-not-first", b"this is before AC_INIT: begin with AC_INIT([package], [version])", b"");

/// , and acrun port leaves it: WHAT
#[rattlefmt::skip]
pub const CALL_IS_REFUSED: Key = Key(b"call-is-refused", b", and acrun port leaves it: \x01", b"");

/// , and acrun port leaves it: in it, WHAT
#[rattlefmt::skip]
pub const IN_IT_REFUSED: Key = Key(b"in-it-refused", b", and acrun port leaves it: in it, \x01", b"");

/// the `STATEMENT` is within `LOOP`
#[rattlefmt::skip]
pub const IN_LOOP: Key = Key(b"in-loop", b"the `\x01` is within `\x02`", b"");

/// the `STATEMENT` is within braces
#[rattlefmt::skip]
pub const IN_BRACES: Key = Key(b"in-braces", b"the `\x01` is within braces", b"");

/// the `STATEMENT` is within parentheses
#[rattlefmt::skip]
pub const IN_PARENTHESES: Key = Key(b"in-parentheses", b"the `\x01` is within parentheses", b"");

/// the `STATEMENT` is in a condition
#[rattlefmt::skip]
pub const IN_CONDITION: Key = Key(b"in-condition", b"the `\x01` is in a condition", b"");

/// the `STATEMENT` is joined to another command
#[rattlefmt::skip]
pub const JOINED_TO_COMMAND: Key = Key(b"joined-to-command", b"the `\x01` is joined to another command", b"");

/// a call is before the `STATEMENT` on its line
#[rattlefmt::skip]
pub const AFTER_CALL: Key = Key(b"after-call", b"a call is before the `\x01` on its line", b"");

/// the `STATEMENT` is the body of a function
#[rattlefmt::skip]
pub const FUNCTION_BODY: Key = Key(b"function-body", b"the `\x01` is the body of a function", b"");

/// a word of the `STATEMENT` is in brackets, which are quotes here
#[rattlefmt::skip]
pub const WORD_IN_BRACKETS: Key = Key(b"word-in-brackets", b"a word of the `\x01` is in brackets, which are quotes here", b"");

/// something is after the `STATEMENT` on its line
#[rattlefmt::skip]
pub const FOLLOWED_ON_LINE: Key = Key(b"followed-on-line", b"something is after the `\x01` on its line", b"");

/// a comment is in the condition of the `STATEMENT`
#[rattlefmt::skip]
pub const COMMENT_IN_CONDITION: Key = Key(b"comment-in-condition", b"a comment is in the condition of the `\x01`", b"");

/// `OPERATOR` is in an `elif`
#[rattlefmt::skip]
pub const OPERATOR_IN_BRANCH: Key = Key(b"operator-in-branch", b"`\x01` is in an `elif`", b"");

/// `OPERATOR` is in a statement that doesn't begin its line
#[rattlefmt::skip]
pub const OPERATOR_IN_LINE: Key = Key(b"operator-in-line", b"`\x01` is in a statement that doesn't begin its line", b"");

/// `OPERATOR` is in an argument without brackets
#[rattlefmt::skip]
pub const OPERATOR_IN_BARE: Key = Key(b"operator-in-bare", b"`\x01` is in an argument without brackets", b"");

/// `OPERATOR` is in a condition with a backslash, a bracket, a single quote or a backquote
#[rattlefmt::skip]
pub const OPERATOR_BESIDE_QUOTE: Key = Key(b"operator-beside-quote", b"`\x01` is in a condition with a backslash, a bracket, a single quote or a backquote", b"");

/// `OPERATOR` is before AC_PROG_CC
#[rattlefmt::skip]
pub const FILE_BEFORE_COMPILER: Key = Key(b"file-before-compiler", b"`\x01` is before AC_PROG_CC", b"");

/// the word of `OPERATOR` has srcdir, which acrun doesn't set
#[rattlefmt::skip]
pub const FILE_OF_SRCDIR: Key = Key(b"file-of-srcdir", b"the word of `\x01` has srcdir, which acrun doesn't set", b"");

/// the word of `OPERATOR` has more than letters, digits, `$NAME` and `+-./:_`
#[rattlefmt::skip]
pub const FILE_WORD: Key = Key(b"file-word", b"the word of `\x01` has more than letters, digits, `$NAME` and `+-./:_`", b"");

/// , and acrun port leaves it without --idioms, since Autoconf makes the checks that a macro in a call needs in any case
#[rattlefmt::skip]
pub const CALL_DRAWS: Key = Key(b"call-draws", b", and acrun port leaves it without --idioms, since Autoconf makes the checks that a macro in a call needs in any case", b"");

/// ; its test is in brackets, which are quotes here: write test
#[rattlefmt::skip]
pub const TEST_IN_BRACKETS: Key = Key(b"test-in-brackets", b"; its test is in brackets, which are quotes here: write test", b"");

/// ; its condition is on several lines: write it on one
#[rattlefmt::skip]
pub const TEST_ON_LINES: Key = Key(b"test-on-lines", b"; its condition is on several lines: write it on one", b"");

/// ; it is after NAME, which acrun does not know
#[rattlefmt::skip]
pub const UNKNOWN_BEFORE: Key = Key(b"unknown-before", b"; it is after \x01, which acrun does not know", b"");

/// there is no AC_INIT
#[rattlefmt::skip]
pub const NO_INIT: Key = Key(b"no-init", b"there is no AC_INIT", b"begin with AC_INIT([package], [version])");

/// TEXT is after AC_OUTPUT
#[rattlefmt::skip]
pub const TEXT_AFTER_OUTPUT: Key = Key(b"text-after-output", b"\x01 is after AC_OUTPUT", b"move it and what is after it before AC_OUTPUT, but for comments");

/// there is no AC_OUTPUT
#[rattlefmt::skip]
pub const NO_OUTPUT: Key = Key(b"no-output", b"there is no AC_OUTPUT", b"end the file with a line AC_OUTPUT");

/// the commands of AC_CACHE_CHECK may set only the name that it caches
#[rattlefmt::skip]
pub const CACHE_BODY: Key = Key(b"cache-body", b"the commands of AC_CACHE_CHECK may set only the name that it caches", b"do the rest after the check, by AS_IF");

/// statements nest more than 32 deep
#[rattlefmt::skip]
pub const TOO_DEEP: Key = Key(b"too-deep", b"statements nest more than 32 deep", b"set a variable in the inner statements, and test it after them");

/// there are too many entries
#[rattlefmt::skip]
pub const TOO_MANY: Key = Key(b"too-many", b"there are too many entries", b"a list has at most 256 entries, and the source 1,024 of one kind");

/// this asks for a version of Autoconf after 2.71
#[rattlefmt::skip]
pub const NEWER_VERSION: Key = Key(b"newer-version", b"this asks for a version of Autoconf after 2.71", b"acrun follows 2.71: write AC_PREREQ([2.71])");

/// out of memory
#[rattlefmt::skip]
pub const NO_MEMORY: Key = Key(b"no-memory", b"out of memory", b"");

/// the source weighs more than 65,535 statements
#[rattlefmt::skip]
pub const PLAN_1: Key = Key(b"plan-1", b"the source weighs more than 65,535 statements", b"a case of a list counts once for each entry: make lists shorter");

/// the template PATH can't be read
#[rattlefmt::skip]
pub const TEMPLATE: Key = Key(b"template", b"the template \x01 can't be read", b"make it, or name another, as in AC_CONFIG_FILES([file:template])");

/// FILE: NUMBER more findings are not shown
#[rattlefmt::skip]
pub const MORE_FINDINGS: Key = Key(b"more-findings", b"\x01: \x02 more findings are not shown", b"");

/// the comma is part of a name here: blanks separate entries
#[rattlefmt::skip]
pub const COMMA_IN_LIST: Key = Key(b"comma-in-list", b"the comma is part of a name here: blanks separate entries", b"leave the commas out");

/// the backslash stays in the message; Autoconf drops it
#[rattlefmt::skip]
pub const BACKSLASH_IN_MESSAGE: Key = Key(b"backslash-in-message", b"the backslash stays in the message; Autoconf drops it", b"leave the backslash out");

/// the blank before the comma is dropped; in Autoconf it is part of the name
#[rattlefmt::skip]
pub const BLANK_BEFORE_COMMA: Key = Key(b"blank-before-comma", b"the blank before the comma is dropped; in Autoconf it is part of the name", b"write the comma right after the name");

/// the quote is part of the value; in Autoconf it ends the quotes around the value
#[rattlefmt::skip]
pub const QUOTE_IN_VALUE: Key = Key(b"quote-in-value", b"the quote is part of the value; in Autoconf it ends the quotes around the value", b"leave the quotes out");

/// Autoconf makes a script that doesn't run from a list on several lines
#[rattlefmt::skip]
pub const LIST_ON_LINES: Key = Key(b"list-on-lines", b"Autoconf makes a script that doesn't run from a list on several lines", b"write the list on one line");

/// Autoconf refuses a name with _AC_ in it
#[rattlefmt::skip]
pub const FORBIDDEN_NAME: Key = Key(b"forbidden-name", b"Autoconf refuses a name with _AC_ in it", b"choose another name");

/// Autoconf makes a script that doesn't run from an `&` in the name of an output
#[rattlefmt::skip]
pub const AMPERSAND_IN_OUTPUT: Key = Key(b"ampersand-in-output", b"Autoconf makes a script that doesn't run from an `&` in the name of an output", b"choose another name");

/// Autoconf refuses a dnl line in AC_CONFIG_FILES
#[rattlefmt::skip]
pub const DNL_IN_LIST: Key = Key(b"dnl-in-list", b"Autoconf refuses a dnl line in AC_CONFIG_FILES", b"put the comment before the call");

/// in Autoconf a `#` in single brackets begins a comment, which drops the rest or is refused
#[rattlefmt::skip]
pub const HASH_IN_MESSAGE: Key = Key(b"hash-in-message", b"in Autoconf a `#` in single brackets begins a comment, which drops the rest or is refused", b"put the text in two pairs of brackets");

/// the tarname is made from the whole name here, and in Autoconf from what is before the comma
#[rattlefmt::skip]
pub const COMMA_IN_NAME: Key = Key(b"comma-in-name", b"the tarname is made from the whole name here, and in Autoconf from what is before the comma", b"put the name in two pairs of brackets, or give the tarname as the\nfourth argument");

/// a library is never found by the function main; in Autoconf it may be
#[rattlefmt::skip]
pub const LIBRARY_MAIN: Key = Key(b"library-main", b"a library is never found by the function main; in Autoconf it may be", b"name a function that the library has, as in AC_CHECK_LIB([m], [cos])");

/// a comment is not an action, so the library is added to LIBS; in Autoconf nothing is done
#[rattlefmt::skip]
pub const DNL_ACTION: Key = Key(b"dnl-action", b"a comment is not an action, so the library is added to LIBS; in Autoconf nothing is done", b"write an assignment, such as [have_it=yes], to do nothing");

/// this is an empty argument; in Autoconf it is an argument that isn't empty
#[rattlefmt::skip]
pub const EMPTY_QUOTES: Key = Key(b"empty-quotes", b"this is an empty argument; in Autoconf it is an argument that isn't empty", b"write `[]` for an empty argument");

/// the blanks at the ends of this name are dropped; in Autoconf they are part of it
#[rattlefmt::skip]
pub const BLANK_IN_NAME: Key = Key(b"blank-in-name", b"the blanks at the ends of this name are dropped; in Autoconf they are part of it", b"write the name without blanks");

/// if the program is found, the variable is empty; in Autoconf it gets the last argument
#[rattlefmt::skip]
pub const EMPTY_VALUE: Key = Key(b"empty-value", b"if the program is found, the variable is empty; in Autoconf it gets the last argument", b"give a value, as in AC_CHECK_PROG([HAVE_AWK], [awk], [yes], [no])");

/// Autoconf makes a script that doesn't run from a case without a word
#[rattlefmt::skip]
pub const EMPTY_CASE: Key = Key(b"empty-case", b"Autoconf makes a script that doesn't run from a case without a word", b"write the word, as in AS_CASE([$name], ..)");

/// Autoconf makes no shell text of this call, so a script with the `;` after it doesn't run
#[rattlefmt::skip]
pub const SEMICOLON_AFTER_CALL: Key = Key(b"semicolon-after-call", b"Autoconf makes no shell text of this call, so a script with the `;` after it doesn't run", b"put what is after the `;` on a line of its own");

/// SHELL is the login shell of whoever runs this, or empty; in Autoconf it is the shell that runs configure
#[rattlefmt::skip]
pub const LOGIN_SHELL: Key = Key(b"login-shell", b"SHELL is the login shell of whoever runs this, or empty; in Autoconf it is the shell that runs configure", b"write AC_SUBST([SHELL], [/bin/sh])");

/// nothing here sets NAME, so it is empty; a configure script of Autoconf sets it
#[rattlefmt::skip]
pub const SCRIPT_VARIABLE: Key = Key(b"script-variable", b"nothing here sets \x01, so it is empty; a configure script of Autoconf sets it", b"");

/// write before it, after AC_PROG_CC
#[rattlefmt::skip]
pub const CHECK_GNU: Key = Key(b"check-gnu", b"", b"write before it, after AC_PROG_CC\n  AC_CACHE_CHECK([whether the compiler is GNU C],\n    [ac_cv_c_compiler_gnu],\n    [AC_COMPILE_IFELSE([AC_LANG_PROGRAM([[#ifndef __GNUC__\n  #error another compiler\n  #endif]], [])],\n      [ac_cv_c_compiler_gnu=yes], [ac_cv_c_compiler_gnu=no])])\n  ac_compiler_gnu=$ac_cv_c_compiler_gnu\n  AS_IF([test \"$ac_compiler_gnu\" = yes], [GCC=yes], [GCC=])");

/// acrun makes checks of C alone
#[rattlefmt::skip]
pub const NO_OTHER_LANGUAGE: Key = Key(b"no-other-language", b"", b"acrun makes checks of C alone");

/// write before it
#[rattlefmt::skip]
pub const DECLARE_HOST: Key = Key(b"declare-host", b"", b"write before it\n  AC_ARG_VAR([host], [the system of the programs, CPU-VENDOR-OS])\nthe user gives it, and share/configure by --host or --build");

/// write before it
#[rattlefmt::skip]
pub const DECLARE_BUILD: Key = Key(b"declare-build", b"", b"write before it\n  AC_ARG_VAR([build], [the system of the build, CPU-VENDOR-OS])\nthe user gives it, and share/configure by --build");

/// write before it
#[rattlefmt::skip]
pub const DECLARE_TARGET: Key = Key(b"declare-target", b"", b"write before it\n  AC_ARG_VAR([target], [the system of what is made, CPU-VENDOR-OS])\nthe user gives it, and share/configure by --target, --host or --build");

/// declare host by AC_ARG_VAR, and compare it with patterns, as in
#[rattlefmt::skip]
pub const TEST_HOST: Key = Key(b"test-host", b"", b"declare host by AC_ARG_VAR, and compare it with patterns, as in\n  AS_CASE([$host], [*-linux*], ..)");

/// declare build by AC_ARG_VAR, and compare it with patterns, as in
#[rattlefmt::skip]
pub const TEST_BUILD: Key = Key(b"test-build", b"", b"declare build by AC_ARG_VAR, and compare it with patterns, as in\n  AS_CASE([$build], [*-linux*], ..)");

/// declare target by AC_ARG_VAR, and compare it with patterns, as in
#[rattlefmt::skip]
pub const TEST_TARGET: Key = Key(b"test-target", b"", b"declare target by AC_ARG_VAR, and compare it with patterns, as in\n  AS_CASE([$target], [*-linux*], ..)");

/// acrun compiles for the machine that it runs on; leave it out, or
#[rattlefmt::skip]
pub const NO_CROSS: Key = Key(b"no-cross", b"", b"acrun compiles for the machine that it runs on; leave it out, or\nwrite before it\n  cross_compiling=no");

/// write before it
#[rattlefmt::skip]
pub const SET_PACKAGE: Key = Key(b"set-package", b"", b"write before it\n  AC_SUBST([PACKAGE], [$PACKAGE_TARNAME])");

/// write before it
#[rattlefmt::skip]
pub const SET_VERSION: Key = Key(b"set-version", b"", b"write before it\n  AC_SUBST([VERSION], [$PACKAGE_VERSION])");

/// leave it out, or use @srcdir@ in a template
#[rattlefmt::skip]
pub const USE_SRCDIR: Key = Key(b"use-srcdir", b"", b"leave it out, or use @srcdir@ in a template");

/// leave it out, or set it before
#[rattlefmt::skip]
pub const LEAVE_OUT: Key = Key(b"leave-out", b"", b"leave it out, or set it before");

/// no check of this source answers it: make that check, or leave it out
#[rattlefmt::skip]
pub const MAKE_CHECK: Key = Key(b"make-check", b"", b"no check of this source answers it: make that check, or leave it out");

/// the `~` stays here; a shell replaces it by the home directory
#[rattlefmt::skip]
pub const TILDE: Key = Key(b"tilde", b"the `~` stays here; a shell replaces it by the home directory", b"write \"$HOME\" in its place, or put the `~` in quotes");

/// the `$` before the quote stays here; some shells drop it, or read the quote otherwise
#[rattlefmt::skip]
pub const DOLLAR_QUOTE: Key = Key(b"dollar-quote", b"the `$` before the quote stays here; some shells drop it, or read the quote otherwise", b"leave the `$` out");

/// WORD is one word of the test here; in a shell it is nothing if it is empty, and several words if it has blanks
#[rattlefmt::skip]
pub const UNQUOTED_WORD: Key = Key(b"unquoted-word", b"\x01 is one word of the test here; in a shell it is nothing if it is empty, and several words if it has blanks", b"write \"\x01\"");

/// ; the same holds at line NUMBER
#[rattlefmt::skip]
pub const SAME_AT_LINE: Key = Key(b"same-at-line", b"", b"; the same holds at line \x01");

/// , NUMBER
#[rattlefmt::skip]
pub const AND_LINE: Key = Key(b"and-line", b"", b", \x01");

///  and further lines
#[rattlefmt::skip]
pub const AND_MORE_LINES: Key = Key(b"and-more-lines", b"", b" and further lines");

/// Autoconf's default includes have <HEADER>, and so NAMES; acrun's do not
#[rattlefmt::skip]
pub const FEWER_INCLUDES: Key = Key(b"fewer-includes", b"Autoconf's default includes have <\x01>, and so \x02; acrun's do not", b"write as the fourth argument");

/// :
#[rattlefmt::skip]
pub const INCLUDES_OF: Key = Key(b"includes-of", b"", b":\n  [AC_INCLUDES_DEFAULT\n  #include <\x01>]");

/// AC_INCLUDES_DEFAULT in two pairs of brackets has its meaning here; in Autoconf it is text
#[rattlefmt::skip]
pub const QUOTED_INCLUDES: Key = Key(b"quoted-includes", b"AC_INCLUDES_DEFAULT in two pairs of brackets has its meaning here; in Autoconf it is text", b"put it in one pair of brackets");

/// the name of this macro is text here; Autoconf expands it
#[rattlefmt::skip]
pub const MACRO_IN_TEXT: Key = Key(b"macro-in-text", b"the name of this macro is text here; Autoconf expands it", b"");

/// write AS_HELP_STRING
#[rattlefmt::skip]
pub const WRITE_HELP_STRING: Key = Key(b"write-help-string", b"", b"write AS_HELP_STRING");

/// write $VARIABLE in AC_DEFINE_UNQUOTED
#[rattlefmt::skip]
pub const WRITE_IN_UNQUOTED: Key = Key(b"write-in-unquoted", b"", b"write $\x01 in AC_DEFINE_UNQUOTED");

/// write the text that is meant, or put it in two pairs of brackets
#[rattlefmt::skip]
pub const WRITE_TEXT: Key = Key(b"write-text", b"", b"write the text that is meant, or put it in two pairs of brackets");

/// nothing before this check looks for a compiler, so CC has no value unless the user gives one
#[rattlefmt::skip]
pub const NO_COMPILER: Key = Key(b"no-compiler", b"nothing before this check looks for a compiler, so CC has no value unless the user gives one", b"write before it\n  AC_PROG_CC");

/// nothing before this check tries the compiler; with a misspelt flag in CFLAGS each check says no
#[rattlefmt::skip]
pub const COMPILER_NOT_TRIED: Key = Key(b"compiler-not-tried", b"nothing before this check tries the compiler; with a misspelt flag in CFLAGS each check says no", b"write after AC_PROG_CC\n  AC_CACHE_CHECK([whether the C compiler makes programs],\n    [my_cv_prog_cc_works],\n    [AC_COMPILE_IFELSE([AC_LANG_PROGRAM([], [])],\n      [AC_LINK_IFELSE([AC_LANG_PROGRAM([], [])],\n        [my_cv_prog_cc_works=yes])])])\n  AS_IF([test \"$my_cv_prog_cc_works\" != yes],\n    [AC_MSG_ERROR([the C compiler makes no programs], [77])])");

/// after `STATEMENT`, a run of this source that is cut and started again may end otherwise than one that is not cut
#[rattlefmt::skip]
pub const NOT_RESUMABLE: Key = Key(b"not-resumable", b"after `\x01`, a run of this source that is cut and started again may end otherwise than one that is not cut", b"read a cached value, such as $ac_cv_func_f, only after its check,\nassign to none, and try programs within AC_CACHE_CHECK");

/// a run of this source that is cut and started again may end otherwise than one that is not cut
#[rattlefmt::skip]
pub const NOT_RESUMABLE_ANYWHERE: Key = Key(b"not-resumable-anywhere", b"a run of this source that is cut and started again may end otherwise than one that is not cut", b"read a cached value, such as $ac_cv_func_f, only after its check,\nassign to none, and try programs within AC_CACHE_CHECK");

/// a run in the source's directory reads NAME, so it doesn't write it, and ends with an error
#[rattlefmt::skip]
pub const OUTPUT_OVER_INPUT: Key = Key(b"output-over-input", b"a run in the source's directory reads \x01, so it doesn't write it, and ends with an error", b"give the output or its template another name, as in\n  AC_CONFIG_FILES([file:template])");

/// no statement sets @NAME@, so it is left unchanged
#[rattlefmt::skip]
pub const UNSET_VARIABLE: Key = Key(b"unset-variable", b"no statement sets @\x01@, so it is left unchanged", b"");

/// no statement sets @NAME@, which Autoconf sets itself
#[rattlefmt::skip]
pub const SET_BY_AUTOCONF: Key = Key(b"set-by-autoconf", b"no statement sets @\x01@, which Autoconf sets itself", b"");

/// did you mean @NAME@?
#[rattlefmt::skip]
pub const NEAR_VARIABLE: Key = Key(b"near-variable", b"", b"did you mean @\x01@?");

/// the value of NAME begins with ${datarootdir}, which this template does not set: files would go to /man, /doc and the like
#[rattlefmt::skip]
pub const NO_DATAROOTDIR: Key = Key(b"no-datarootdir", b"the value of \x01 begins with ${datarootdir}, which this template does not set: files would go to /man, /doc and the like", b"add the line\n  datarootdir = @datarootdir@");

/// this rule runs config.status, which is a record here: a shell takes the values in it for commands
#[rattlefmt::skip]
pub const CONFIG_STATUS_SCRIPT: Key = Key(b"config-status-script", b"this rule runs config.status, which is a record here: a shell takes the values in it for commands", b"write `acrun status --recheck` for `config.status --recheck`,\n`acrun status $@` for one that makes its target, and in place of\nCONFIG_FILES and CONFIG_HEADERS the names after `acrun status`");

/// Automake made this template, and nothing sets the names that it uses
#[rattlefmt::skip]
pub const AUTOMAKE_TEMPLATE: Key = Key(b"automake-template", b"Automake made this template, and nothing sets the names that it uses", b"write a plain Makefile.in by hand");

/// CFLAGS is empty here if the user gives none; Autoconf sets it to -g -O2
#[rattlefmt::skip]
pub const NO_FLAGS: Key = Key(b"no-flags", b"CFLAGS is empty here if the user gives none; Autoconf sets it to -g -O2", b"write after AC_PROG_CC\n  AS_IF([test \"x$CFLAGS\" = x], [CFLAGS='-g -O2'])");

/// a run may leave conftests: this rule does not remove them, or this list takes them for sources
#[rattlefmt::skip]
pub const CONFTESTS_LEFT: Key = Key(b"conftests-left", b"a run may leave conftests: this rule does not remove them, or this list takes them for sources", b"a run may leave these files besides its outputs\n  config.log config.status config.cache config.answers conftest*\n  acrun-*.tmp\nwrite a list as `$(filter-out conftest%,$(wildcard *.c))`; the script\nshare/configure removes conftests");

/// the last line has no newline, and neither has that of the file that is made; Autoconf adds one
#[rattlefmt::skip]
pub const NO_NEWLINE_AT_END: Key = Key(b"no-newline-at-end", b"the last line has no newline, and neither has that of the file that is made; Autoconf adds one", b"add a newline at the end of the template");

/// no statement defines NAME
#[rattlefmt::skip]
pub const NEVER_DEFINED: Key = Key(b"never-defined", b"no statement defines \x01", b"");

/// did you mean NAME?
#[rattlefmt::skip]
pub const NEAR_DEFINITION: Key = Key(b"near-definition", b"", b"did you mean \x01?");

///  and NUMBER more
#[rattlefmt::skip]
pub const AND_MORE_NAMES: Key = Key(b"and-more-names", b" and \x01 more", b"");

/// no statement defines NAMES; Autoconf checks these headers in any case
#[rattlefmt::skip]
pub const DEFAULT_HEADERS: Key = Key(b"default-headers", b"no statement defines \x01; Autoconf checks these headers in any case", b"write\n  AC_CHECK_HEADERS([\x02])");

/// no header template has NAME, so its definition goes nowhere
#[rattlefmt::skip]
pub const NOT_IN_HEADER: Key = Key(b"not-in-header", b"no header template has \x01, so its definition goes nowhere", b"add the line\n  #undef \x01\nto the template, or run autoheader");

/// write before AC_OUTPUT
#[rattlefmt::skip]
pub const SET_LINE: Key = Key(b"set-line", b"", b"write before AC_OUTPUT\n  \x01");

/// write in configure.ac
#[rattlefmt::skip]
pub const SET_SHELL: Key = Key(b"set-shell", b"", b"write in configure.ac\n  AC_SUBST([SHELL], [/bin/sh])");

/// it is empty on this system; write in configure.ac
#[rattlefmt::skip]
pub const SET_EXEEXT: Key = Key(b"set-exeext", b"", b"it is empty on this system; write in configure.ac\n  AC_SUBST([EXEEXT], [\"\"])");

/// write in configure.ac
#[rattlefmt::skip]
pub const SET_OBJEXT: Key = Key(b"set-objext", b"", b"write in configure.ac\n  AC_SUBST([OBJEXT], [o])");

/// there is no config header: keep what `acrun header` prints as
#[rattlefmt::skip]
pub const SET_DEFS: Key = Key(b"set-defs", b"", b"there is no config header: keep what `acrun header` prints as\nconfig.h.in, write AC_CONFIG_HEADERS([config.h]), and compile with\n-include config.h in place of @DEFS@");

/// write AC_SUBST([SET_MAKE]), or leave it out: each make sets MAKE
#[rattlefmt::skip]
pub const SET_MAKE: Key = Key(b"set-make", b"", b"write AC_SUBST([SET_MAKE]), or leave it out: each make sets MAKE");

/// write in configure.ac
#[rattlefmt::skip]
pub const SET_INSTALL: Key = Key(b"set-install", b"", b"write in configure.ac\n  AC_SUBST([INSTALL], [\"install -c\"])");

/// write in configure.ac
#[rattlefmt::skip]
pub const SET_INSTALL_PROGRAM: Key = Key(b"set-install-program", b"", b"write in configure.ac\n  AC_SUBST([INSTALL_PROGRAM], [\"install -c\"])");

/// write in configure.ac
#[rattlefmt::skip]
pub const SET_INSTALL_SCRIPT: Key = Key(b"set-install-script", b"", b"write in configure.ac\n  AC_SUBST([INSTALL_SCRIPT], [\"install -c\"])");

/// write in configure.ac
#[rattlefmt::skip]
pub const SET_INSTALL_DATA: Key = Key(b"set-install-data", b"", b"write in configure.ac\n  AC_SUBST([INSTALL_DATA], [\"install -c -m 644\"])");

/// write in configure.ac
#[rattlefmt::skip]
pub const SET_MKDIR_P: Key = Key(b"set-mkdir-p", b"", b"write in configure.ac\n  AC_SUBST([MKDIR_P], [\"mkdir -p\"])");

/// write in configure.ac
#[rattlefmt::skip]
pub const SET_LN_S: Key = Key(b"set-ln-s", b"", b"write in configure.ac\n  AC_SUBST([LN_S], [\"ln -s\"])");

/// write in configure.ac
#[rattlefmt::skip]
pub const SET_RANLIB: Key = Key(b"set-ranlib", b"", b"write in configure.ac\n  AC_CHECK_PROGS([RANLIB], [ranlib], [:])");

/// write in configure.ac
#[rattlefmt::skip]
pub const SET_AR: Key = Key(b"set-ar", b"", b"write in configure.ac\n  AC_CHECK_PROGS([AR], [ar])");

/// write in configure.ac
#[rattlefmt::skip]
pub const SET_AWK: Key = Key(b"set-awk", b"", b"write in configure.ac\n  AC_CHECK_PROGS([AWK], [gawk mawk nawk awk])");

/// write in configure.ac
#[rattlefmt::skip]
pub const SET_CPP: Key = Key(b"set-cpp", b"", b"write in configure.ac\n  AC_SUBST([CPP], [\"$CC -E\"])");

/// use @srcdir@, or `cd` and `pwd` in the rule
#[rattlefmt::skip]
pub const SET_ABS_SRCDIR: Key = Key(b"set-abs-srcdir", b"", b"use @srcdir@, or `cd` and `pwd` in the rule");

/// use @top_srcdir@, or `cd` and `pwd` in the rule
#[rattlefmt::skip]
pub const SET_ABS_TOP_SRCDIR: Key = Key(b"set-abs-top-srcdir", b"", b"use @top_srcdir@, or `cd` and `pwd` in the rule");

/// use @top_builddir@, or `cd` and `pwd` in the rule
#[rattlefmt::skip]
pub const SET_ABS_TOP_BUILDDIR: Key = Key(b"set-abs-top-builddir", b"", b"use @top_builddir@, or `cd` and `pwd` in the rule");

/// use @builddir@, or `cd` and `pwd` in the rule
#[rattlefmt::skip]
pub const SET_ABS_BUILDDIR: Key = Key(b"set-abs-builddir", b"", b"use @builddir@, or `cd` and `pwd` in the rule");

/// use @top_builddir@/
#[rattlefmt::skip]
pub const SET_TOP_BUILD_PREFIX: Key = Key(b"set-top-build-prefix", b"", b"use @top_builddir@/");

/// write the name of the variable that gets the objects
#[rattlefmt::skip]
pub const SET_OBJECTS: Key = Key(b"set-objects", b"", b"write the name of the variable that gets the objects");

/// libtool checks it; write
#[rattlefmt::skip]
pub const DEFINE_DLFCN_H: Key = Key(b"define-dlfcn-h", b"", b"libtool checks it; write\n  AC_CHECK_HEADERS([dlfcn.h])");

/// every compiler of this century has them; write
#[rattlefmt::skip]
pub const DEFINE_STDC_HEADERS: Key = Key(b"define-stdc-headers", b"", b"every compiler of this century has them; write\n  AC_DEFINE([STDC_HEADERS], [1])");

/// the option OPTION is not known
#[rattlefmt::skip]
pub const UNKNOWN_OPTION: Key = Key(b"unknown-option", b"the option \x01 is not known", b"");

/// write it before the command: acrun -j8 configure
#[rattlefmt::skip]
pub const OPTION_BEFORE_COMMAND: Key = Key(b"option-before-command", b"", b"write it before the command: acrun -j8 configure");

/// a similar option is OPTION
#[rattlefmt::skip]
pub const NEAR_OPTION: Key = Key(b"near-option", b"", b"a similar option is \x01");

/// acrun configure --help shows its options, and man acrun all others
#[rattlefmt::skip]
pub const SEE_OPTIONS: Key = Key(b"see-options", b"", b"acrun configure --help shows its options, and man acrun all others");

/// an argument is an option or NAME=VALUE; man acrun has all options
#[rattlefmt::skip]
pub const NO_OPTION: Key = Key(b"no-option", b"", b"an argument is an option or NAME=VALUE; man acrun has all options");

/// OPTION names no feature or package
#[rattlefmt::skip]
pub const NO_OPTION_NAME: Key = Key(b"no-option-name", b"\x01 names no feature or package", b"a name has letters, digits, `-`, `+`, `.` and `_`");

/// NAME is not the name of a variable
#[rattlefmt::skip]
pub const NO_ASSIGNED_NAME: Key = Key(b"no-assigned-name", b"\x01 is not the name of a variable", b"a name has letters, digits and `_`, and does not begin with a digit");

/// the option OPTION needs a value
#[rattlefmt::skip]
pub const OPTION_WITHOUT_VALUE: Key = Key(b"option-without-value", b"the option \x01 needs a value", b"write it after `=`, as in --prefix=/usr");

/// the source declares no option OPTION
#[rattlefmt::skip]
pub const UNDECLARED_OPTION: Key = Key(b"undeclared-option", b"the source declares no option \x01", b"acrun configure --help shows the options of the source");

/// there is no command, and no line of the input is `%%`
#[rattlefmt::skip]
pub const NO_CALL: Key = Key(b"no-call", b"there is no command, and no line of the input is `%%`", b"");

/// OPTION takes no other word
#[rattlefmt::skip]
pub const WORD_AFTER_OPTION: Key = Key(b"word-after-option", b"\x01 takes no other word", b"acrun help COMMAND explains a command");

/// -j needs a number
#[rattlefmt::skip]
pub const NO_NUMBER_OF_CHILDREN: Key = Key(b"no-number-of-children", b"-j needs a number", b"write -j1 to -j16 before the command, as in acrun -j8 configure");

/// WORD is not a command
#[rattlefmt::skip]
pub const NO_COMMAND: Key = Key(b"no-command", b"\x01 is not a command", b"");

/// a similar name is NAME
#[rattlefmt::skip]
pub const NEAR_NAME: Key = Key(b"near-name", b"", b"a similar name is \x01");

/// acrun help lists the commands
#[rattlefmt::skip]
pub const SEE_COMMANDS: Key = Key(b"see-commands", b"acrun help lists the commands", b"");

/// --recheck is the only word after status
#[rattlefmt::skip]
pub const WORD_AFTER_STATUS: Key = Key(b"word-after-status", b"--recheck is the only word after status", b"");

/// -jN takes a number from 1 to 16, and configure is the word after it
#[rattlefmt::skip]
pub const WINDOW_WITHOUT_CONFIGURE: Key = Key(b"window-without-configure", b"-jN takes a number from 1 to 16, and configure is the word after it", b"");

/// the line LINE is not a line of a cache
#[rattlefmt::skip]
pub const NO_CACHE_LINE: Key = Key(b"no-cache-line", b"the line \x01 is not a line of a cache", b"remove the line, or the whole cache: the next run makes a new one");

/// the line LINE sets what is not a cached value
#[rattlefmt::skip]
pub const NO_CACHE_NAME: Key = Key(b"no-cache-name", b"the line \x01 sets what is not a cached value", b"a name in a cache has _cv_ in it; give others to acrun configure");

/// the cache file has more than 4,194,304 bytes
#[rattlefmt::skip]
pub const CACHE_TOO_LARGE: Key = Key(b"cache-too-large", b"the cache file has more than 4,194,304 bytes", b"remove it: the next run makes a new one");

/// NAME was VALUE in the run that made the cache CACHE
#[rattlefmt::skip]
pub const WAS_SET: Key = Key(b"was-set", b"\x01 was \x02 in the run that made the cache \x03", b"give it that value again, or remove the cache");

/// NAME was not set in the run that made the cache CACHE
#[rattlefmt::skip]
pub const WAS_UNSET: Key = Key(b"was-unset", b"\x01 was not set in the run that made the cache \x02", b"leave it unset again, or remove the cache");

/// , and is now VALUE
#[rattlefmt::skip]
pub const IS_SET: Key = Key(b"is-set", b", and is now \x01", b"");

/// , and is now not set
#[rattlefmt::skip]
pub const IS_UNSET: Key = Key(b"is-unset", b", and is now not set", b"");

/// CACHE may hold a wrong "no", as a program found no room: remove it
#[rattlefmt::skip]
pub const WRONG_NO: Key = Key(b"wrong-no", b"\x01 may hold a wrong \"no\", as a program found no room: remove it", b"");

/// CACHE may hold a wrong "no" of CHECK, REASON: remove it, and run again
#[rattlefmt::skip]
pub const WRONG_NO_IN_CACHE: Key = Key(b"wrong-no-in-cache", b"\x01 may hold a wrong \"no\" of \x02, \x03: remove it, and run again", b"");

/// this run may have taken a wrong "no" of CHECK, REASON: run it again
#[rattlefmt::skip]
pub const WRONG_NO_IN_OUTPUTS: Key = Key(b"wrong-no-in-outputs", b"this run may have taken a wrong \"no\" of \x01, \x02: run it again", b"");

/// CACHE has more than 4,194,304 bytes, so no run can read it again: remove it
#[rattlefmt::skip]
pub const LONG_CACHE: Key = Key(b"long-cache", b"\x01 has more than 4,194,304 bytes, so no run can read it again: remove it", b"");

/// CACHE is kept as it is, since its answers can't be read: make it readable, or name another file with --cache-file
#[rattlefmt::skip]
pub const UNREAD_CACHE: Key = Key(b"unread-cache", b"\x01 is kept as it is, since its answers can't be read: make it readable, or name another file with --cache-file", b"");

/// the file is not a record of a run: it begins with LINE
#[rattlefmt::skip]
pub const NO_RECORD: Key = Key(b"no-record", b"the file is not a record of a run: it begins with \x01", b"run acrun configure first; acrun does not read Autoconf's scripts");

/// the record has another version: LINE
#[rattlefmt::skip]
pub const OTHER_RECORD: Key = Key(b"other-record", b"the record has another version: \x01", b"a later acrun made it: run acrun configure again");

/// the line LINE is wrong in the record
#[rattlefmt::skip]
pub const WRONG_RECORD_LINE: Key = Key(b"wrong-record-line", b"the line \x01 is wrong in the record", b"run acrun configure again");

/// the record is cut off
#[rattlefmt::skip]
pub const CUT_RECORD: Key = Key(b"cut-record", b"the record is cut off", b"run acrun configure again");

/// NAME is not an output of this package
#[rattlefmt::skip]
pub const NO_OUTPUT_NAME: Key = Key(b"no-output-name", b"\x01 is not an output of this package", b"");

/// configure.in is there, and acrun does not read it: rename it to configure.ac
#[rattlefmt::skip]
pub const OLD_SOURCE_NAME: Key = Key(b"old-source-name", b"configure.in is there, and acrun does not read it: rename it to configure.ac", b"");

/// no compiler job of this run succeeded: see config.log
#[rattlefmt::skip]
pub const NO_COMPILER_WORKS: Key = Key(b"no-compiler-works", b"no compiler job of this run succeeded: see config.log", b"");

/// a compiler failed that wrote 65,536 bytes of diagnostics or more, which may be why: see config.log
#[rattlefmt::skip]
pub const CUT_DIAGNOSTICS: Key = Key(b"cut-diagnostics", b"a compiler failed that wrote 65,536 bytes of diagnostics or more, which may be why: see config.log", b"");

/// /dev/null is not there, so no program can be started
#[rattlefmt::skip]
pub const NO_NULL_DEVICE: Key = Key(b"no-null-device", b"/dev/null is not there, so no program can be started", b"");

/// The codes of the warnings that something means another thing to Autoconf.
#[rattlefmt::skip]
pub(crate) const DIFFERENCES: [&[u8]; 25] = [
    b"backslash-in-message",
    b"blank-before-comma",
    b"quote-in-value",
    b"list-on-lines",
    b"forbidden-name",
    b"ampersand-in-output",
    b"dnl-in-list",
    b"hash-in-message",
    b"comma-in-name",
    b"library-main",
    b"dnl-action",
    b"empty-quotes",
    b"blank-in-name",
    b"empty-value",
    b"empty-case",
    b"semicolon-after-call",
    b"login-shell",
    b"script-variable",
    b"tilde",
    b"dollar-quote",
    b"fewer-includes",
    b"quoted-includes",
    b"macro-in-text",
    b"no-newline-at-end",
    b"default-headers",
];

/// The codes of the warnings about templates that `port` counts as left to do.
#[rattlefmt::skip]
pub(crate) const LEFTS: [&[u8]; 5] = [
    b"set-by-autoconf",
    b"no-datarootdir",
    b"config-status-script",
    b"automake-template",
    b"no-flags",
];
