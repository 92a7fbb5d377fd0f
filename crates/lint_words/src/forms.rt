//! The whole form of a call of each macro.

use lint_text::first_name;

/// The forms, as `docs/language.md` has them. An argument in brackets may be left out.
#[rattlefmt::skip]
const FORMS: [&[u8]; 45] = [
    b"AC_PREREQ(version)",
    b"AC_INIT(package, version, [bug-report], [tarname], [url])",
    b"AC_CONFIG_SRCDIR(file)",
    b"AC_CONFIG_AUX_DIR(directory)",
    b"AC_CONFIG_MACRO_DIR(directory)",
    b"AC_CONFIG_MACRO_DIRS(directories)",
    b"AC_LANG(C)",
    b"AC_CONFIG_FILES(list)",
    b"AC_CONFIG_HEADERS(list)",
    b"AC_ARG_ENABLE(feature, [help], [given], [not-given])",
    b"AC_ARG_WITH(package, [help], [given], [not-given])",
    b"AS_HELP_STRING(left, right)",
    b"AC_ARG_VAR(variable, help)",
    b"AC_SUBST(variable, [word])",
    b"AC_DEFINE(name, [text], [note])",
    b"AC_DEFINE_UNQUOTED(name, [text], [note])",
    b"AC_MSG_ERROR(message, [status])",
    b"AC_MSG_CHECKING(feature)",
    b"AC_MSG_RESULT(results)",
    b"AC_MSG_NOTICE(message)",
    b"AC_MSG_WARN(problem)",
    b"AS_IF(test, statements, [test, statements].., [default])",
    b"AS_CASE(word, [patterns, statements].., [default])",
    b"AC_CHECK_PROG(variable, program, value, [otherwise])",
    b"AC_CHECK_PROGS(variable, programs, [otherwise])",
    b"AC_PATH_PROG(variable, program, [otherwise])",
    b"AC_PROG_CC([compilers])",
    b"AC_CHECK_HEADER(header, [found], [not-found], [includes])",
    b"AC_CHECK_FUNC(function, [found], [not-found])",
    b"AC_CHECK_DECL(symbol, [found], [not-found], [includes])",
    b"AC_CHECK_TYPE(type, [found], [not-found], [includes])",
    b"AC_CHECK_HEADERS(headers, [found], [not-found], [includes])",
    b"AC_CHECK_FUNCS(functions, [found], [not-found])",
    b"AC_CHECK_DECLS(symbols, [found], [not-found], [includes])",
    b"AC_CHECK_TYPES(types, [found], [not-found], [includes])",
    b"AC_CHECK_LIB(library, function, [found], [not-found], [others])",
    b"AC_SEARCH_LIBS(function, libraries, [found], [not-found], [others])",
    b"AC_COMPILE_IFELSE(program, [passed], [failed])",
    b"AC_LINK_IFELSE(program, [passed], [failed])",
    b"AC_PREPROC_IFELSE(program, [passed], [failed])",
    b"AC_RUN_IFELSE(program, [passed], [failed], [cross])",
    b"AC_LANG_PROGRAM([prologue], [body])",
    b"AC_LANG_SOURCE(text)",
    b"AC_CACHE_CHECK(message, name, commands)",
    b"AC_OUTPUT",
];

/// Returns the whole form of a call of this macro, if it is known.
pub(crate) fn form_of(name: &[u8]) -> Option<&'static [u8]> {
    for form in &FORMS {
        if first_name(*form) == name {
            return Some(*form);
        }
    }
    None
}
