//! How long the leaves are that a text begins with.

use ac_parts::{NO_CONSTANT, NO_PLAIN, is_among};

/// Words that end or begin a compound statement. None is the first word of a command.
const RESERVED: [&[u8]; 15] = [
    b"then", b"elif", b"else", b"fi", b"case", b"esac", b"in", b"for", b"while", b"until", b"do",
    b"done", b"{", b"}", b"!",
];

/// Returns the part of a text between two offsets, or none of it.
pub(crate) fn part_of(text: &[u8], start: usize, end: usize) -> &[u8] {
    if start <= end && end <= text.len() {
        &text[start..end]
    } else {
        &text[..0]
    }
}

/// Returns what is after so many bytes.
pub(crate) fn after(text: &[u8], count: usize) -> &[u8] {
    &text[count.min(text.len())..]
}

/// Returns how many bytes a text begins with that are among these.
fn only_len(bytes: &[u8], text: &[u8]) -> usize {
    text.iter()
        .position(|byte| !is_among(bytes, *byte))
        .unwrap_or(text.len())
}

/// Returns how many bytes a text begins with that aren't among these.
fn none_len(bytes: &[u8], text: &[u8]) -> usize {
    text.iter()
        .position(|byte| is_among(bytes, *byte))
        .unwrap_or(text.len())
}

/// Returns the offset of the first byte that is this one.
pub(crate) fn position_of(byte: u8, text: &[u8]) -> Option<usize> {
    text.iter().position(|it| *it == byte)
}

/// Returns the length of the blanks that a line begins with. A backslash and a newline are blanks.
pub(crate) fn blank_len(text: &[u8]) -> usize {
    let mut length = 0usize;
    for i in 0..text.len() {
        if i < length {
            continue;
        }
        let is_blank = matches!(text[i], b' ' | b'\t' | b'\r');
        if is_blank {
            length = i + 1;
        } else if text[i] == b'\\' && text.len() - i > 1 && text[i + 1] == b'\n' {
            length = i + 2;
        } else {
            break;
        }
    }
    length
}

/// Returns the length of the blanks and newlines that a text begins with.
pub(crate) fn gap_len(text: &[u8]) -> usize {
    only_len(b" \t\r\n", text)
}

/// Returns whether a byte ends a word.
pub(crate) fn ends_word(byte: u8) -> bool {
    is_among(b" \t\r\n;&|<>()", byte)
}

/// Returns whether a text begins with this word.
pub(crate) fn has_word(text: &[u8], word: &[u8]) -> bool {
    text.starts_with(word)
        && after(text, word.len())
            .first()
            .is_none_or(|byte| ends_word(*byte))
}

/// Returns whether a text begins with a word that ends or begins a compound statement.
pub(crate) fn has_reserved(text: &[u8]) -> bool {
    for word in &RESERVED {
        if has_word(text, word) {
            return true;
        }
    }
    false
}

/// Returns whether m4 drops the line that a text begins.
pub(crate) fn has_dnl(text: &[u8]) -> bool {
    text.starts_with(b"dnl")
        && !after(text, 3)
            .first()
            .is_some_and(|byte| is_name_byte(*byte))
}

/// Returns whether a byte may be one of a name.
fn is_name_byte(byte: u8) -> bool {
    byte.is_ascii_alphanumeric() || byte == b'_'
}

/// Returns the length of the name that a text begins with.
fn name_len(text: &[u8]) -> usize {
    if text.first().is_some_and(u8::is_ascii_digit) {
        return 0;
    }
    text.iter()
        .position(|byte| !is_name_byte(*byte))
        .unwrap_or(text.len())
}

/// Returns the length of the variable and the `=` that a text begins with.
pub(crate) fn assigned_len(text: &[u8]) -> Option<usize> {
    let name = name_len(text);
    if name > 0 && after(text, name).first() == Some(&b'=') {
        Some(name)
    } else {
        None
    }
}

/// Returns the length of the redirecting signs that a text begins with.
pub(crate) fn redirect_len(text: &[u8]) -> usize {
    match text.first() {
        Some(b'<' | b'>') => only_len(b"<>&", text),
        _ => 0,
    }
}

/// Returns the length of the text up to a closing quote and with it, if it is closed.
pub(crate) fn quoted_len(text: &[u8], quote: u8) -> Option<usize> {
    let inner = position_of(quote, after(text, 1))?;
    Some(inner.saturating_add(2))
}

/// Returns the length of a text in double quotes, if it is closed.
pub(crate) fn double_len(text: &[u8]) -> Option<usize> {
    let mut is_escaped = true;
    for i in 0..text.len() {
        if is_escaped {
            is_escaped = false;
        } else if text[i] == b'\\' {
            is_escaped = true;
        } else if text[i] == b'"' {
            return Some(i + 1);
        }
    }
    None
}

/// Returns the length of the bytes without a meaning of their own that a text begins with.
pub(crate) fn plain_len(text: &[u8]) -> usize {
    none_len(NO_PLAIN, text)
}

/// Returns the length of a `$` with what it stands for.
pub(crate) fn dollar_len(text: &[u8]) -> Option<usize> {
    let rest = after(text, 1);
    match rest.first() {
        Some(b'{') => {
            let end = position_of(b'}', rest)?;
            let inner = part_of(rest, 1, end);
            if none_len(b" \t\r\n;&|<>()'\"`$\\[]{", inner) == inner.len() {
                Some(end.saturating_add(2))
            } else {
                None
            }
        }
        Some(b'(') => None,
        Some(byte) if is_among(b"?#@*!-$", *byte) => Some(if *byte == b'$' { 1 } else { 2 }),
        _ => Some(name_len(rest).saturating_add(1)),
    }
}

/// Returns the lengths of the variable and of the constant of a `${NAME:-CONSTANT}`.
pub(crate) fn default_lens(text: &[u8]) -> Option<(usize, usize)> {
    if !text.starts_with(b"${") {
        return None;
    }
    let name = name_len(after(text, 2));
    let rest = after(text, name.saturating_add(2));
    if name == 0 || !rest.starts_with(b":-") {
        return None;
    }
    let word = none_len(NO_CONSTANT, after(rest, 2));
    if after(rest, word.saturating_add(2)).first() == Some(&b'}') {
        Some((name, word))
    } else {
        None
    }
}

/// Returns the length of an entry of a list of words.
pub(crate) fn entry_len(text: &[u8]) -> usize {
    none_len(NO_CONSTANT, text)
}

/// Returns whether a text is a list of words.
pub(crate) fn are_words(text: &[u8]) -> bool {
    text.iter().all(|byte| is_among(b" \t\r\n", *byte) || !is_among(NO_CONSTANT, *byte))
}

/// Returns the offset of the bracket that closes the one that a text begins with.
pub(crate) fn closing(text: &[u8]) -> Option<usize> {
    let mut depth = 0usize;
    for i in 0..text.len() {
        if text[i] == b'[' {
            depth = depth.saturating_add(1);
        } else if text[i] == b']' {
            depth = depth.saturating_sub(1);
        }
        if depth == 0 {
            return Some(i);
        }
    }
    None
}
