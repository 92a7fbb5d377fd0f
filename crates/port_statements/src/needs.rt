//! What macros require of Autoconf: checks that it makes before the first call that requires them.

use ac_calls::CallAt;
use lint_text::{from, part};
use port_idioms::text_of;
use std::alloc::{AllocError, Global};

/// The macros that include the default headers, unless they are given includes as their fourth
/// argument.
const INCLUDING: [&[u8]; 6] = [
    b"AC_CHECK_HEADER",
    b"AC_CHECK_HEADERS",
    b"AC_CHECK_TYPE",
    b"AC_CHECK_TYPES",
    b"AC_CHECK_DECL",
    b"AC_CHECK_DECLS",
];

/// The macros that look for declarations.
const DECLARING: [&[u8]; 2] = [b"AC_CHECK_DECL", b"AC_CHECK_DECLS"];

/// The macros that look for headers. With includes of `-` they use the preprocessor alone.
const HEADERS: [&[u8]; 2] = [b"AC_CHECK_HEADER", b"AC_CHECK_HEADERS"];

/// Other macros that use the compiler.
const COMPILING: [&[u8]; 7] = [
    b"AC_COMPILE_IFELSE",
    b"AC_LINK_IFELSE",
    b"AC_RUN_IFELSE",
    b"AC_CHECK_FUNC",
    b"AC_CHECK_FUNCS",
    b"AC_CHECK_LIB",
    b"AC_SEARCH_LIBS",
];

/// What a macro requires.
#[derive(Clone, Copy)]
struct Needs {
    compiler: bool,
    preprocessor: bool,
    /// The checks of the default headers.
    headers: bool,
    /// The check of how the compiler takes a name that isn't declared.
    undeclared: bool,
}

impl Needs {
    /// Returns whether something is required that isn't in the other.
    fn has_more_than(self, other: Needs) -> bool {
        (self.compiler && !other.compiler)
            || (self.preprocessor && !other.preprocessor)
            || (self.headers && !other.headers)
            || (self.undeclared && !other.undeclared)
    }

    /// Returns what one of the two requires.
    fn with(self, other: Needs) -> Needs {
        Needs {
            compiler: self.compiler || other.compiler,
            preprocessor: self.preprocessor || other.preprocessor,
            headers: self.headers || other.headers,
            undeclared: self.undeclared || other.undeclared,
        }
    }
}

/// What most macros require.
const NOTHING: Needs = Needs {
    compiler: false,
    preprocessor: false,
    headers: false,
    undeclared: false,
};

/// Returns whether the name is one of these.
fn is_among(name: &[u8], names: &[&[u8]]) -> bool {
    for other in names {
        if *other == name {
            return true;
        }
    }
    false
}

/// Returns whether a text has the name of the default includes.
fn names_default(text: &[u8]) -> bool {
    for at in 0..text.len() {
        if from(text, at).starts_with(b"AC_INCLUDES_DEFAULT") {
            return true;
        }
    }
    false
}

/// Returns the argument of an index as it is written, or nothing if it isn't given.
fn argument<'a>(text: &'a [u8], call: &CallAt, index: usize) -> &'a [u8] {
    match call.args.get(index) {
        Some(arg) => part(text, arg.start, arg.end),
        None => b"",
    }
}

/// Returns whether an argument, without blanks and a pair of brackets around it, is this text.
fn is_just(argument: &[u8], wanted: &[u8]) -> bool {
    match text_of(argument) {
        Some(inner) => inner == wanted,
        None => false,
    }
}

/// Returns what a call of a macro that includes the default headers requires, with these includes.
fn needs_with(name: &[u8], includes: &[u8]) -> Needs {
    Needs {
        compiler: true,
        preprocessor: is_just(includes, b"-") && is_among(name, &HEADERS),
        headers: is_just(includes, b"") || names_default(includes),
        undeclared: is_among(name, &DECLARING),
    }
}

/// Returns what a call requires.
fn needs_of(text: &[u8], call: &CallAt) -> Needs {
    let name = part(text, call.start, call.name_end);
    if is_among(name, &INCLUDING) {
        return needs_with(name, argument(text, call, 3));
    }
    let is_preprocessor = name == b"AC_PREPROC_IFELSE".as_slice();
    Needs {
        compiler: is_preprocessor || is_among(name, &COMPILING),
        preprocessor: is_preprocessor,
        headers: is_among(name, &COMPILING) && names_default(argument(text, call, 0)),
        undeclared: false,
    }
}

/// Returns what a call gives that others require.
fn given_by(text: &[u8], call: &CallAt) -> Needs {
    Needs {
        compiler: part(text, call.start, call.name_end) == b"AC_PROG_CC".as_slice(),
        ..NOTHING
    }
}

/// Returns the offsets at which Autoconf makes checks that a macro requires: before the first call
/// that requires them or, if that is in an argument of another call, before the outermost one.
pub fn drawing_in(alloc: Global, text: &[u8], calls: &[CallAt]) -> Result<Vec<usize>, AllocError> {
    let mut found = Vec::new(alloc);
    let mut seen = NOTHING;
    let mut outer = 0;
    let mut outer_end = 0;
    for call in calls {
        if outer_end <= call.start {
            outer = call.start;
            outer_end = call.end;
        }
        let needs = needs_of(text, call);
        if needs.has_more_than(seen) {
            found.push(outer)?;
        }
        seen = seen.with(needs).with(given_by(text, call));
    }
    Ok(found)
}

/// Returns whether Autoconf makes checks before a call between two offsets.
pub fn draws(drawing: &[usize], start: usize, end: usize) -> bool {
    for at in drawing {
        if start <= *at && *at < end {
            return true;
        }
    }
    false
}
