//! What of a source decides what is said of its templates.

use ac_tree::{Case, Declares, Effect, Source, Stmt, Subject, When};
use bstr::ByteSlice;
use shellword::{Condition, Element, Part, Test};

/// What lines of `port` have that put CFLAGS back.
const PUT_BACK: &[u8] = b"CFLAGS=$acrun_CFLAGS";

/// What a test has of whether CFLAGS is empty.
const TESTS: [&[u8]; 3] = [b"$CFLAGS\" = x", b"-z \"$CFLAGS\"", b"-n \"$CFLAGS\""];

/// What of a source decides what is said of its templates.
#[derive(Clone, Copy)]
pub struct Shape {
    /// Whether a statement looks for the compiler.
    pub has_compiler: bool,
    /// Whether CFLAGS is left as the user gives it after that. Lines of `port` that put it back give it
    /// no value.
    pub lacks_flags: bool,
    /// Whether the source names a variable to which objects are added.
    pub adds_objects: bool,
}

/// Returns whether a word has the value of this variable.
fn reads(parts: &[Part], name: &[u8]) -> bool {
    for part in parts {
        if let Part::Variable(other) = part {
            if other.as_slice() == name {
                return true;
            }
        }
    }
    false
}

/// Returns whether a condition has the value of this variable.
fn condition_reads(condition: &Condition, name: &[u8]) -> bool {
    match condition {
        Condition::True | Condition::False => false,
        Condition::Nonempty(word) | Condition::Empty(word) => reads(word.parts(), name),
        Condition::Equal(left, right) | Condition::Different(left, right) => {
            reads(left.parts(), name) || reads(right.parts(), name)
        }
    }
}

/// Returns whether an element of a test has the value of this variable.
fn element_reads(element: &Element, name: &[u8]) -> bool {
    condition_reads(&element.condition, name)
}

/// Returns whether a test has the value of this variable.
fn test_reads(test: &Test, name: &[u8]) -> bool {
    let (first, rest) = test.elements();
    if element_reads(first, name) {
        return true;
    }
    for next in rest {
        if element_reads(&next.1, name) {
            return true;
        }
    }
    false
}

/// Returns whether a case has a test of CFLAGS.
fn tests_flags(case: &Case) -> bool {
    match &case.when {
        When::Holds(test) => test_reads(test, b"CFLAGS"),
        _ => false,
    }
}

/// Returns whether a choice decides by the value of CFLAGS.
fn chooses_flags(subject: &Subject, cases: &[Case]) -> bool {
    match subject {
        Subject::Word(word) => reads(word.parts(), b"CFLAGS"),
        Subject::Nothing => cases.iter().any(|case| tests_flags(case)),
        Subject::Asked(_) => false,
    }
}

/// Returns whether an effect gives CFLAGS a value that has nothing of the one before.
fn gives_flags(effect: &Effect) -> bool {
    match effect {
        Effect::Assign { name, value } => {
            name.as_slice() == b"CFLAGS".as_slice() && !reads(value.parts(), b"CFLAGS")
        }
        _ => false,
    }
}

/// Returns whether a statement gives CFLAGS a value, or tests it.
fn settles_flags(statement: &Stmt) -> bool {
    match statement {
        Stmt::Do { effect, .. } => gives_flags(effect),
        Stmt::Choose { subject, cases, .. } => chooses_flags(subject, cases.as_slice()),
        Stmt::CacheCheck { .. } => false,
    }
}

/// Returns whether a statement looks for the compiler, apart from those in it.
fn is_compiler(statement: &Stmt) -> bool {
    match statement {
        Stmt::Do { declares, .. } => matches!(declares, Declares::Compiler),
        _ => false,
    }
}

/// Returns whether a statement, or one in it, looks for the compiler.
#[cycle(list)]
fn has_compiler(statement: &Stmt) -> bool {
    match statement {
        Stmt::Do { declares, .. } => matches!(declares, Declares::Compiler),
        Stmt::Choose { cases, .. } => case_has_compiler(cases.as_slice()),
        Stmt::CacheCheck { commands, .. } => list_has_compiler(commands.as_slice()),
    }
}

/// Returns whether a statement of cases looks for the compiler.
#[cycle(list)]
fn case_has_compiler(cases: &[Case]) -> bool {
    for case in cases {
        if list_has_compiler(case.body.as_slice()) {
            return true;
        }
    }
    false
}

/// Returns whether one of the statements, or one in these, looks for the compiler.
#[cycle(list)]
fn list_has_compiler(statements: &[Stmt]) -> bool {
    for statement in statements {
        if has_compiler(statement) {
            return true;
        }
    }
    false
}

/// Returns whether CFLAGS is left as the user gives it after the statement that looks for the
/// compiler. If that is in another statement, it counts as left.
fn lacks_flags(statements: &[Stmt]) -> bool {
    let mut is_after = false;
    for statement in statements {
        if is_after && settles_flags(statement) {
            return false;
        }
        is_after |= is_compiler(statement);
    }
    true
}

/// Returns whether a source with this text puts CFLAGS back after lines of `port`, and has no test of
/// whether it is empty.
fn puts_back(text: &[u8]) -> bool {
    text.contains_str(PUT_BACK) && !TESTS.iter().any(|test| text.contains_str(*test))
}

impl Shape {
    /// Returns what is taken of a source of which only what it made is known.
    pub(crate) fn made() -> Shape {
        Shape {
            has_compiler: true,
            lacks_flags: false,
            adds_objects: false,
        }
    }

    /// Returns what a source with this text has.
    pub fn of(text: &[u8], source: &Source) -> Shape {
        let has_compiler = list_has_compiler(source.statements());
        Shape {
            has_compiler,
            lacks_flags: has_compiler && (puts_back(text) || lacks_flags(source.statements())),
            adds_objects: text.contains_str(b"LIBOBJS") || text.contains_str(b"EXTRA_OBJS"),
        }
    }
}
