//! Whether the idiom of a macro does the same at its place, as far as that depends on the rest of
//! the text.

use ac_calls::CallAt;
use lint_text::{before, first_name, from, is_word_byte, part};
use text_cut::trim;

/// Returns whether a word of a text begins at an offset.
fn begins_word(text: &[u8], at: usize) -> bool {
    !before(text, at)
        .last()
        .is_some_and(|byte| is_word_byte(*byte))
}

// ---- the prefix

/// The variables whose values depend on the prefix.
const DIRECTORIES: [&[u8]; 21] = [
    b"prefix",
    b"exec_prefix",
    b"bindir",
    b"sbindir",
    b"libexecdir",
    b"datarootdir",
    b"datadir",
    b"sysconfdir",
    b"sharedstatedir",
    b"localstatedir",
    b"runstatedir",
    b"libdir",
    b"includedir",
    b"oldincludedir",
    b"docdir",
    b"infodir",
    b"htmldir",
    b"localedir",
    b"mandir",
    b"dvidir",
    b"ac_default_prefix",
];

/// Returns whether a text begins with AC_OUTPUT at the start of a line.
fn is_output(text: &[u8], at: usize) -> bool {
    let is_first = at == 0 || before(text, at).ends_with(b"\n");
    is_first && first_name(from(text, at)) == b"AC_OUTPUT".as_slice()
}

/// Returns whether a text begins with the value of such a variable.
fn reads_directory(text: &[u8]) -> bool {
    if !text.starts_with(b"$") {
        return false;
    }
    let is_braced = text.get(1) == Some(&b'{');
    let name = first_name(from(text, if is_braced { 2 } else { 1 }));
    DIRECTORIES.iter().any(|other| *other == name)
}

/// Returns whether such a variable is read from an offset on, before AC_OUTPUT.
fn reads_prefix(text: &[u8], start: usize) -> bool {
    for at in start..text.len() {
        if is_output(text, at) {
            return false;
        }
        if reads_directory(from(text, at)) {
            return true;
        }
    }
    false
}

// ---- words that Autoconf forbids

/// With what words begin that Autoconf, or a macro of another project, refuses to leave in a script.
const FORBIDDEN: [&[u8]; 20] = [
    b"AC_", b"_AC_", b"AH_", b"_AH_", b"AM_", b"_AM_", b"AU_", b"_AU_", b"AS_", b"_AS_", b"AT_",
    b"_AT_", b"AX_", b"LT_", b"_LT_", b"PKG_", b"_PKG_", b"m4_", b"_m4_", b"gl_",
];

/// Returns whether the byte may be in a name, or is a bracket, which m4 takes off.
fn is_joined_byte(byte: u8) -> bool {
    is_word_byte(byte) || byte == b'[' || byte == b']'
}

/// Returns whether a text begins with a word, without regard to brackets.
fn has_front(text: &[u8], word: &[u8]) -> bool {
    let mut taken: usize = 0;
    for byte in text {
        if *byte == b'[' || *byte == b']' {
            continue;
        }
        match word.get(taken) {
            None => return true,
            Some(next) => {
                if *next != *byte {
                    return false;
                }
            }
        }
        taken = taken.saturating_add(1);
    }
    word.len() <= taken
}

/// Returns whether Autoconf may refuse to leave a word in a script.
fn is_forbidden(word: &[u8]) -> bool {
    for at in 0..word.len() {
        if has_front(from(word, at), b"_AC_") {
            return true;
        }
    }
    has_front(word, b"LIBOBJS")
        || has_front(word, b"dnl")
        || FORBIDDEN.iter().any(|front| has_front(word, *front))
}

/// Returns the word around an offset of a text, with the brackets in it.
fn word_at(text: &[u8], at: usize) -> &[u8] {
    let front = before(text, at);
    let begun = front
        .iter()
        .rev()
        .take_while(|byte| is_joined_byte(**byte))
        .count();
    let rest = from(text, front.len().saturating_sub(begun));
    let len = rest
        .iter()
        .take_while(|byte| is_joined_byte(**byte))
        .count();
    part(rest, 0, len)
}

/// Returns a pattern without `^` before it and `$` after it.
fn without_anchors(pattern: &[u8]) -> &[u8] {
    let rest = if pattern.starts_with(b"^") {
        from(pattern, 1)
    } else {
        pattern
    };
    if rest.ends_with(b"$") {
        before(rest, rest.len().saturating_sub(1))
    } else {
        rest
    }
}

/// Returns whether a word outside of two offsets has a name in it, and Autoconf may refuse it.
fn has_forbidden(text: &[u8], start: usize, end: usize, name: &[u8]) -> bool {
    for at in 0..text.len() {
        let is_within = start <= at && at < end;
        if !is_within && has_front(from(text, at), name) && is_forbidden(word_at(text, at)) {
            return true;
        }
    }
    false
}

/// Returns a text without a pair of brackets around it.
fn without_brackets(text: &[u8]) -> &[u8] {
    if text.len() >= 2 && text.starts_with(b"[") && text.ends_with(b"]") {
        part(text, 1, text.len().saturating_sub(1))
    } else {
        text
    }
}

/// Returns whether a call that allows words may allow one that the text has, or another file.
fn allows_word(text: &[u8], call: &CallAt) -> bool {
    let Some(arg) = call.args.get(0) else {
        return true;
    };
    let pattern = without_brackets(trim(part(text, arg.start, arg.end)));
    let name = without_anchors(pattern);
    let is_plain = !name.is_empty() && name.iter().all(|byte| is_word_byte(*byte));
    !is_plain || has_forbidden(text, call.start, call.end, name)
}

// ---- macros that Autoconf expands once

/// The macros that Autoconf expands at their first call alone, and whose idioms do something at each.
const ONCE: [&[u8]; 3] = [b"AC_PROG_INSTALL", b"AC_PROG_MKDIR_P", b"AC_ARG_PROGRAM"];

/// Returns whether the line of an offset is a comment.
fn is_comment(text: &[u8], at: usize) -> bool {
    let front = before(text, at);
    let len = front
        .iter()
        .rev()
        .take_while(|byte| **byte != b'\n')
        .count();
    let line = trim(from(front, front.len().saturating_sub(len)));
    line.starts_with(b"dnl") || line.starts_with(b"#")
}

/// Returns whether a word begins at an offset, is this one, and is in no comment.
fn is_called_at(text: &[u8], at: usize, name: &[u8]) -> bool {
    let rest = from(text, at);
    rest.starts_with(name)
        && first_name(rest) == name
        && begins_word(text, at)
        && !is_comment(text, at)
}

/// Returns whether a text has a name more than once, apart from comments.
fn is_repeated(text: &[u8], name: &[u8]) -> bool {
    let mut is_found = false;
    for at in 0..text.len() {
        if is_called_at(text, at, name) {
            if is_found {
                return true;
            }
            is_found = true;
        }
    }
    false
}

// ---- each of them

/// Returns whether the rest of the text leaves the idiom of a call the same: nothing reads the
/// prefix after AC_PREFIX_DEFAULT, m4_pattern_allow allows no word that is left, and a macro that
/// Autoconf expands once is called once.
pub(crate) fn is_same_beside(text: &[u8], call: &CallAt) -> bool {
    let name = part(text, call.start, call.name_end);
    if name == b"AC_PREFIX_DEFAULT".as_slice() {
        return !reads_prefix(text, call.end);
    }
    if name == b"m4_pattern_allow".as_slice() {
        return !allows_word(text, call);
    }
    !ONCE.iter().any(|other| *other == name) || !is_repeated(text, name)
}
