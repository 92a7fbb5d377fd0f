//! What an argument may hold that means something else here than with Autoconf, or than it seems
//! to.

use lint_table::{Key, keys};

/// A macro, the number of one of its arguments from 0, a text that the argument may hold, another
/// one if it isn't empty, whether the argument may hold them in two pairs of brackets, and the key
/// of the warning.
pub(crate) type Row = (
    &'static [u8],
    usize,
    &'static [u8],
    &'static [u8],
    bool,
    Key,
);

/// What an argument may hold.
#[rattlefmt::skip]
pub(crate) const HELD: [Row; 30] = [
    (b"AC_CHECK_HEADERS", 0, b",", b"", false, keys::COMMA_IN_LIST),
    (b"AC_CHECK_FUNCS", 0, b",", b"", false, keys::COMMA_IN_LIST),
    (b"AC_MSG_NOTICE", 0, b"\\\"", b"\\`", false, keys::BACKSLASH_IN_MESSAGE),
    (b"AC_MSG_WARN", 0, b"\\\"", b"\\`", false, keys::BACKSLASH_IN_MESSAGE),
    (b"AC_MSG_ERROR", 0, b"\\\"", b"\\`", false, keys::BACKSLASH_IN_MESSAGE),
    (b"AC_MSG_CHECKING", 0, b"\\\"", b"\\`", false, keys::BACKSLASH_IN_MESSAGE),
    (b"AC_MSG_RESULT", 0, b"\\\"", b"\\`", false, keys::BACKSLASH_IN_MESSAGE),
    (b"AC_CACHE_CHECK", 0, b"\\\"", b"\\`", false, keys::BACKSLASH_IN_MESSAGE),
    (b"AC_CHECK_DECLS", 0, b" ,", b"\t,", false, keys::BLANK_BEFORE_COMMA),
    (b"AC_CHECK_TYPES", 0, b" ,", b"\t,", false, keys::BLANK_BEFORE_COMMA),
    (b"AC_CHECK_PROG", 2, b"\"", b"", false, keys::QUOTE_IN_VALUE),
    (b"AC_CHECK_PROG", 3, b"\"", b"", false, keys::QUOTE_IN_VALUE),
    (b"AC_CHECK_PROGS", 2, b"\"", b"", false, keys::QUOTE_IN_VALUE),
    (b"AC_PATH_PROG", 2, b"\"", b"", false, keys::QUOTE_IN_VALUE),
    (b"AC_CHECK_PROGS", 1, b"\n", b"", false, keys::LIST_ON_LINES),
    (b"AC_SEARCH_LIBS", 1, b"\n", b"", false, keys::LIST_ON_LINES),
    (b"AC_SUBST", 0, b"_AC_", b"", false, keys::FORBIDDEN_NAME),
    (b"AC_DEFINE", 0, b"_AC_", b"", false, keys::FORBIDDEN_NAME),
    (b"AC_DEFINE_UNQUOTED", 0, b"_AC_", b"", false, keys::FORBIDDEN_NAME),
    (b"AC_ARG_VAR", 0, b"_AC_", b"", false, keys::FORBIDDEN_NAME),
    (b"AC_CONFIG_FILES", 0, b"&", b"", false, keys::AMPERSAND_IN_OUTPUT),
    (b"AC_CONFIG_HEADERS", 0, b"&", b"", false, keys::AMPERSAND_IN_OUTPUT),
    (b"AC_CONFIG_FILES", 0, b"\ndnl ", b"[dnl ", false, keys::DNL_IN_LIST),
    (b"AC_CONFIG_FILES", 0, b" dnl ", b"\tdnl ", false, keys::DNL_IN_LIST),
    (b"AC_MSG_NOTICE", 0, b"#", b"", true, keys::HASH_IN_MESSAGE),
    (b"AC_MSG_WARN", 0, b"#", b"", true, keys::HASH_IN_MESSAGE),
    (b"AC_MSG_ERROR", 0, b"#", b"", true, keys::HASH_IN_MESSAGE),
    (b"AC_MSG_CHECKING", 0, b"#", b"", true, keys::HASH_IN_MESSAGE),
    (b"AC_MSG_RESULT", 0, b"#", b"", true, keys::HASH_IN_MESSAGE),
    (b"AC_INIT", 0, b",", b"", true, keys::COMMA_IN_NAME),
];

/// A macro and the number of one of its arguments, from 0.
pub(crate) type ArgumentPlace = (&'static [u8], usize);

/// The action in place of which a library is added to LIBS.
pub(crate) const LIBRARY_ACTION: ArgumentPlace = (b"AC_CHECK_LIB", 2);

/// A value for which `[[]]` is something else in Autoconf than no argument.
pub(crate) const FULL_NAME: ArgumentPlace = (b"AC_PATH_PROG", 2);

/// The macros of which Autoconf makes no shell text.
#[rattlefmt::skip]
pub(crate) const SILENT: [&[u8]; 7] = [
    b"AC_SUBST", b"AC_ARG_VAR", b"AC_CONFIG_FILES", b"AC_CONFIG_HEADERS", b"AC_CONFIG_SRCDIR",
    b"AC_LANG", b"AC_PREREQ",
];
