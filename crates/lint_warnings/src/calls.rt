//! Warnings about calls.

use crate::extent::{NamedCall, assigns, bare, is_given, named_calls, text_at, warn_of_part};
use crate::foreign::warn_of_macro;
use crate::includes::warn_of_includes;
use crate::rows::{FULL_NAME, HELD, LIBRARY_ACTION, Row, SILENT};
use crate::shellwords::warn_of_shell_words;
use ac_calls::{CallAt, Extent};
use ac_macros::ArgumentKind;
use bstr::ByteSlice;
use lint_findings::Finding;
use lint_macros::Index;
use lint_table::{Key, keys};
use lint_text::{after_blanks, from};
use std::alloc::{AllocError, Global};

/// Adds the warning of this key about a part of the source, if that is there and wrong.
// Each call asks this a dozen times.
#[inline(always)]
fn warn_if(
    alloc: Global,
    text: &[u8],
    extent: Option<Extent>,
    is_wrong: bool,
    key: Key,
    out: &mut Vec<Finding>,
) -> Result<(), AllocError> {
    match extent {
        Some(extent) if is_wrong => warn_of_part(alloc, out, text, extent, key),
        _ => Ok(()),
    }
}

/// Returns whether an action is a comment alone.
fn is_comment(action: &[u8]) -> bool {
    action.starts_with(b"dnl") && !action.contains_str(b"\n")
}

/// Warns of an action in place of which a library is added to LIBS, and which is a comment alone.
fn warn_of_action(
    alloc: Global,
    call: NamedCall<'_>,
    out: &mut Vec<Finding>,
) -> Result<(), AllocError> {
    let action = call.argument_at(&LIBRARY_ACTION);
    let is_idle = is_comment(bare(text_at(call.text, action)));
    warn_if(alloc, call.text, action, is_idle, keys::DNL_ACTION, out)
}

/// Returns whether an argument holds a text that isn't empty. Arguments and texts are short, so it is
/// sought by its first byte.
fn holds(argument: &[u8], sought: &[u8]) -> bool {
    let Some(first) = sought.first() else {
        return false;
    };
    let mut rest = argument;
    for _ in 0..argument.len() {
        let Some(at) = rest.find_byte(*first) else {
            return false;
        };
        if from(rest, at).starts_with(sought) {
            return true;
        }
        rest = from(rest, at.saturating_add(1));
    }
    false
}

/// Returns whether an argument holds what a row says.
fn is_held(row: &Row, written: &[u8]) -> bool {
    let is_quoted = row.4 && written.starts_with(b"[[");
    !is_quoted && (holds(written, row.2) || holds(written, row.3))
}

/// Warns if an argument of a call holds what a row of its macro says.
fn warn_of_row(
    alloc: Global,
    call: NamedCall<'_>,
    row: &Row,
    out: &mut Vec<Finding>,
) -> Result<(), AllocError> {
    let argument = call.at.args.get(row.1).copied();
    let is_wrong = is_held(row, text_at(call.text, argument));
    warn_if(alloc, call.text, argument, is_wrong, row.5, out)
}

/// Warns if an argument of a call holds what one of the rows says.
fn warn_of_rows(
    alloc: Global,
    call: NamedCall<'_>,
    rows: &[Row],
    out: &mut Vec<Finding>,
) -> Result<(), AllocError> {
    for row in rows {
        if call.is_of(row.0) {
            warn_of_row(alloc, call, row, out)?;
        }
    }
    Ok(())
}

/// Returns whether an argument in brackets begins or ends with a blank.
fn has_end_blanks(argument: &[u8]) -> bool {
    argument.starts_with(b"[ ") || argument.ends_with(b" ]")
}

/// Returns whether an argument of this kind is something else in Autoconf if it is `[[]]` than if
/// it is absent.
fn may_be_empty(kind: ArgumentKind) -> bool {
    matches!(
        kind,
        ArgumentKind::Value
            | ArgumentKind::Definition
            | ArgumentKind::ArchiveName
            | ArgumentKind::Includes
    )
}

/// Returns whether an argument of this kind is a name at whose ends Autoconf keeps blanks, or refuses
/// them.
fn is_exact_name(kind: ArgumentKind) -> bool {
    matches!(
        kind,
        ArgumentKind::Library
            | ArgumentKind::LibraryFunction
            | ArgumentKind::Variable
            | ArgumentKind::Symbol
    )
}

/// Warns of an argument that is an empty text in two pairs of brackets, or a name with blanks at its
/// ends, and of a library that is sought by `main`.
fn warn_of_argument(
    alloc: Global,
    call: NamedCall<'_>,
    kind: ArgumentKind,
    extent: Extent,
    out: &mut Vec<Finding>,
) -> Result<(), AllocError> {
    let text = call.text;
    let place = Some(extent);
    let written = text_at(text, place);
    let is_empty = may_be_empty(kind) && written == b"[[]]".as_slice();
    warn_if(alloc, text, place, is_empty, keys::EMPTY_QUOTES, out)?;
    let has_blanks = is_exact_name(kind) && has_end_blanks(written);
    warn_if(alloc, text, place, has_blanks, keys::BLANK_IN_NAME, out)?;
    let is_main = matches!(kind, ArgumentKind::LibraryFunction)
        && bare(written) == b"main".as_slice();
    warn_if(alloc, text, call.whole(), is_main, keys::LIBRARY_MAIN, out)
}

/// Warns of arguments by what they are.
fn warn_of_arguments(
    alloc: Global,
    index: &Index,
    call: NamedCall<'_>,
    out: &mut Vec<Finding>,
) -> Result<(), AllocError> {
    for (i, extent) in call.at.args.iter().enumerate() {
        if let Some(kind) = call.kind(i) {
            warn_of_argument(alloc, call, kind, *extent, out)?;
            warn_of_macro(alloc, index, call, kind, *extent, out)?;
        }
    }
    let name = call.argument_at(&FULL_NAME);
    let is_empty = text_at(call.text, name) == b"[[]]".as_slice();
    warn_if(alloc, call.text, name, is_empty, keys::EMPTY_QUOTES, out)
}

/// Warns of arguments of AC_CHECK_PROG and AS_CASE that are empty.
fn warn_of_missing(
    alloc: Global,
    call: NamedCall<'_>,
    out: &mut Vec<Finding>,
) -> Result<(), AllocError> {
    let NamedCall { text, name, .. } = call;
    let args = &call.at.args;
    let has_no_value = name == b"AC_CHECK_PROG".as_slice()
        && !is_given(text, args.get(2))
        && is_given(text, args.get(3));
    warn_if(
        alloc,
        text,
        call.whole(),
        has_no_value,
        keys::EMPTY_VALUE,
        out,
    )?;
    let has_no_word = name == b"AS_CASE".as_slice() && !is_given(text, args.first());
    warn_if(
        alloc,
        text,
        call.whole(),
        has_no_word,
        keys::EMPTY_CASE,
        out,
    )
}

/// Returns whether a call makes SHELL an output variable without a value.
fn is_of_shell(call: NamedCall<'_>) -> bool {
    let args = &call.at.args;
    call.name == b"AC_SUBST".as_slice()
        && bare(text_at(call.text, args.first().copied())) == b"SHELL".as_slice()
        && !is_given(call.text, args.get(1))
}

/// Returns whether the variable SHELL is an output variable whose value is that of the environment
/// alone.
fn is_shell_given(text: &[u8], calls: &[NamedCall<'_>]) -> bool {
    calls.iter().any(|call| is_of_shell(*call)) && !assigns(text, b"SHELL")
}

/// Warns if a `;` is after a call of which Autoconf makes no shell text.
fn warn_of_semicolon(
    alloc: Global,
    call: NamedCall<'_>,
    out: &mut Vec<Finding>,
) -> Result<(), AllocError> {
    let text = call.text;
    let is_followed = after_blanks(from(text, call.at.end)).starts_with(b";")
        && SILENT.iter().any(|other| *other == call.name);
    let key = keys::SEMICOLON_AFTER_CALL;
    warn_if(alloc, text, call.whole(), is_followed, key, out)
}

/// Warns of a call. If SHELL is that of the environment, says so.
fn warn_of_call(
    alloc: Global,
    index: &Index,
    call: NamedCall<'_>,
    rows: &[Row],
    is_login: bool,
    out: &mut Vec<Finding>,
) -> Result<(), AllocError> {
    if !call.at.is_of_profile {
        return Ok(());
    }
    warn_of_action(alloc, call, out)?;
    warn_of_rows(alloc, call, rows, out)?;
    warn_of_arguments(alloc, index, call, out)?;
    warn_of_missing(alloc, call, out)?;
    let is_login = is_login && is_of_shell(call);
    warn_if(
        alloc,
        call.text,
        call.whole(),
        is_login,
        keys::LOGIN_SHELL,
        out,
    )?;
    warn_of_semicolon(alloc, call, out)
}

/// Warns of the calls.
fn warn_of_each(
    alloc: Global,
    index: &Index,
    text: &[u8],
    calls: &[NamedCall<'_>],
    out: &mut Vec<Finding>,
) -> Result<(), AllocError> {
    let is_login = is_shell_given(text, calls);
    // The table is made once, and not for each call.
    let rows = HELD;
    for call in calls {
        warn_of_call(alloc, index, *call, &rows, is_login, out)?;
    }
    Ok(())
}

/// Adds the warnings about calls: arguments that mean something else here than with Autoconf, or
/// than they seem to, names of macros in texts, names that the default includes don't declare, and
/// words that a shell reads otherwise (own).
///
/// # Errors
///
/// Fails only if memory runs out.
pub fn warn_of_calls(
    alloc: Global,
    index: &Index,
    text: &[u8],
    calls: &[CallAt],
    out: &mut Vec<Finding>,
) -> Result<(), AllocError> {
    let named = named_calls(alloc, text, calls)?;
    warn_of_each(alloc, index, text, named.as_slice(), out)?;
    warn_of_includes(alloc, text, named.as_slice(), out)?;
    warn_of_shell_words(alloc, text, named.as_slice(), out)
}
