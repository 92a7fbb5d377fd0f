//! What is said of names that Autoconf gives templates, and acrun doesn't.

use crate::served::served_line;
use crate::shape::Shape;
use lint_table::{Key, keys};

/// What is said of a name between two `@` that the source doesn't set.
#[derive(Clone, Copy)]
pub(crate) enum Advice {
    /// Autoconf sets it itself, and this line sets it here.
    Served(&'static [u8]),
    /// Autoconf sets it itself, and no line does here.
    Left(Key),
    /// A macro of Autoconf sets it.
    Known(Key),
    /// Nothing is known of it.
    Nothing,
}

/// Output variables that Autoconf sets itself and that no line can set, each with what to write.
#[rattlefmt::skip]
const LEFT: [(&[u8], Key); 6] = [
    (b"DEFS", keys::SET_DEFS),
    (b"abs_srcdir", keys::SET_ABS_SRCDIR),
    (b"abs_top_srcdir", keys::SET_ABS_TOP_SRCDIR),
    (b"abs_builddir", keys::SET_ABS_BUILDDIR),
    (b"abs_top_builddir", keys::SET_ABS_TOP_BUILDDIR),
    (b"top_build_prefix", keys::SET_TOP_BUILD_PREFIX),
];

/// Output variables that Autoconf sets by a macro that acrun doesn't know, each with what to write.
#[rattlefmt::skip]
const VARIABLES: [(&[u8], Key); 11] = [
    (b"SET_MAKE", keys::SET_MAKE),
    (b"INSTALL", keys::SET_INSTALL),
    (b"INSTALL_PROGRAM", keys::SET_INSTALL_PROGRAM),
    (b"INSTALL_SCRIPT", keys::SET_INSTALL_SCRIPT),
    (b"INSTALL_DATA", keys::SET_INSTALL_DATA),
    (b"MKDIR_P", keys::SET_MKDIR_P),
    (b"LN_S", keys::SET_LN_S),
    (b"RANLIB", keys::SET_RANLIB),
    (b"AR", keys::SET_AR),
    (b"AWK", keys::SET_AWK),
    (b"CPP", keys::SET_CPP),
];

/// The definitions that Autoconf makes of its default includes, each with its header.
#[rattlefmt::skip]
const DEFAULTS: [(&[u8], &[u8]); 9] = [
    (b"HAVE_STDIO_H", b"stdio.h"), (b"HAVE_STDLIB_H", b"stdlib.h"), (b"HAVE_STRING_H", b"string.h"),
    (b"HAVE_STRINGS_H", b"strings.h"), (b"HAVE_INTTYPES_H", b"inttypes.h"), (b"HAVE_STDINT_H", b"stdint.h"),
    (b"HAVE_SYS_STAT_H", b"sys/stat.h"), (b"HAVE_SYS_TYPES_H", b"sys/types.h"), (b"HAVE_UNISTD_H", b"unistd.h"),
];

/// Other definitions that the templates of many packages have, each with what makes it.
#[rattlefmt::skip]
const DEFINITIONS: [(&[u8], Key); 2] = [
    (b"HAVE_DLFCN_H", keys::DEFINE_DLFCN_H),
    (b"STDC_HEADERS", keys::DEFINE_STDC_HEADERS),
];

/// Returns the key of the first row with this name.
fn key_in(rows: &[(&'static [u8], Key)], name: &[u8]) -> Option<Key> {
    match rows.iter().find(|row| row.0 == name) {
        Some(row) => Some(row.1),
        None => None,
    }
}

/// Returns whether a name is one of two.
fn is_either(name: &[u8], first: &[u8], second: &[u8]) -> bool {
    name == first || name == second
}

/// Returns whether Autoconf sets a name of its table for a source of this shape: the suffixes are set
/// by what looks for the compiler.
fn is_set(shape: Shape, name: &[u8]) -> bool {
    shape.has_compiler || !is_either(name, b"OBJEXT", b"EXEEXT")
}

/// Returns whether objects are added to what a name has, so that no line sets it.
fn has_objects(shape: Shape, name: &[u8]) -> bool {
    shape.adds_objects && is_either(name, b"LIBOBJS", b"LTLIBOBJS")
}

/// Returns what is said of a name that no line sets here.
fn advice_in_tables(name: &[u8]) -> Advice {
    if let Some(key) = key_in(&LEFT, name) {
        return Advice::Left(key);
    }
    match key_in(&VARIABLES, name) {
        Some(key) => Advice::Known(key),
        None => Advice::Nothing,
    }
}

/// Returns what is said of a name between two `@` that a source of this shape doesn't set.
pub(crate) fn advice_of(shape: Shape, name: &[u8]) -> Advice {
    if has_objects(shape, name) {
        return Advice::Left(keys::SET_OBJECTS);
    }
    let line = served_line(name);
    if line.is_empty() || !is_set(shape, name) {
        return advice_in_tables(name);
    }
    Advice::Served(line)
}

/// Returns what to write for a definition that the source doesn't make, if that is known.
pub(crate) fn definition_advice(name: &[u8]) -> Option<Key> {
    key_in(&DEFINITIONS, name)
}

/// Returns the header of a definition that Autoconf makes of its default includes. That of another
/// one is empty.
pub(crate) fn default_header(name: &[u8]) -> &'static [u8] {
    match DEFAULTS.iter().find(|row| row.0 == name) {
        Some(row) => row.1,
        None => b"",
    }
}
