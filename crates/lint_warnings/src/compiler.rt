//! Warnings if nothing looks for a compiler, or if nothing tries whether it works.

use crate::extent::{NamedCall, assigns, bare, is_given, name_of, text_at, warn_of_part};
use crate::noted::is_noted;
use ac_calls::{CallAt, Extent};
use ac_macros::ArgumentKind;
use lint_findings::Finding;
use lint_table::keys;
use lint_text::before;
use std::alloc::{AllocError, Global};

/// Returns whether the call compiles or links something.
fn compiles(name: &[u8]) -> bool {
    name.starts_with(b"AC_CHECK_HEADER")
        || name.starts_with(b"AC_CHECK_FUNC")
        || name.starts_with(b"AC_CHECK_DECL")
        || name.starts_with(b"AC_CHECK_TYPE")
        || name == b"AC_CHECK_LIB".as_slice()
        || name == b"AC_SEARCH_LIBS".as_slice()
}

/// Returns whether the call tries a program, by which a source may see whether the compiler works.
fn tries(name: &[u8]) -> bool {
    name == b"AC_LINK_IFELSE".as_slice()
        || name == b"AC_COMPILE_IFELSE".as_slice()
        || name == b"AC_RUN_IFELSE".as_slice()
        || name == b"AC_CACHE_CHECK".as_slice()
}

/// Returns whether the call looks for a compiler, names one, or declares the variable that the user
/// names one by.
fn finds_compiler(text: &[u8], call: &CallAt) -> bool {
    let name = name_of(text, call);
    if name == b"AC_PROG_CC".as_slice() {
        return true;
    }
    let is_named = matches!(
        NamedCall::new(text, call).kind(0),
        Some(ArgumentKind::Variable)
    ) && bare(text_at(text, call.args.first().copied())) == b"CC".as_slice();
    is_named && (name != b"AC_SUBST".as_slice() || is_given(text, call.args.get(1)))
}

/// Returns the first call that needs a compiler, if nothing before it looks for one or names one.
fn without_compiler<'a>(text: &[u8], calls: &'a [CallAt]) -> Option<&'a CallAt> {
    for call in calls {
        let name = name_of(text, call);
        if finds_compiler(text, call) {
            return None;
        }
        if compiles(name) || name.ends_with(b"_IFELSE") {
            return if assigns(before(text, call.start), b"CC") {
                None
            } else {
                Some(call)
            };
        }
    }
    None
}

/// Returns the first call that compiles something and that `acrun port` didn't write, if no program
/// was tried before it.
fn without_trial<'a>(text: &[u8], calls: &'a [CallAt]) -> Option<&'a CallAt> {
    for call in calls {
        let name = name_of(text, call);
        if tries(name) {
            return None;
        }
        if compiles(name) && !is_noted(text, call.start) {
            return Some(call);
        }
    }
    None
}

/// Returns where the name of a call is.
fn name_at(call: &CallAt) -> Extent {
    Extent {
        start: call.start,
        end: call.name_end,
    }
}

/// Adds a warning about the first check that compiles something, if nothing before it looks for a
/// compiler, or else if no program was tried before it (own).
///
/// # Errors
///
/// Fails only if memory runs out.
pub fn warn_of_compiler(
    alloc: Global,
    text: &[u8],
    calls: &[CallAt],
    out: &mut Vec<Finding>,
) -> Result<(), AllocError> {
    if let Some(call) = without_compiler(text, calls) {
        return warn_of_part(alloc, out, text, name_at(call), keys::NO_COMPILER);
    }
    match without_trial(text, calls) {
        Some(call) => warn_of_part(alloc, out, text, name_at(call), keys::COMPILER_NOT_TRIED),
        None => Ok(()),
    }
}
