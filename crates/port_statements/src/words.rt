//! The words and the operators of a list of statements.

/// What a byte is outside quotes, comments and here-documents.
#[derive(Clone, Copy, PartialEq, Eq)]
pub(crate) enum Sign {
    Newline,
    Semicolon,
    /// `&` or `|`.
    Joint,
    /// `<` or `>`.
    Redirection,
    OpenParen,
    CloseParen,
    /// A blank.
    Blank,
}

/// Returns the operator or the blank that a byte is outside quotes, or `None` if it is one of a word.
pub(crate) fn sign_of(byte: u8) -> Option<Sign> {
    match byte {
        b' ' | b'\t' | b'\r' => Some(Sign::Blank),
        b'\n' => Some(Sign::Newline),
        b';' => Some(Sign::Semicolon),
        b'&' | b'|' => Some(Sign::Joint),
        b'<' | b'>' => Some(Sign::Redirection),
        b'(' => Some(Sign::OpenParen),
        b')' => Some(Sign::CloseParen),
        _ => None,
    }
}

/// Returns whether a byte of a word begins a quote or a substitution.
pub(crate) fn is_special(byte: u8) -> bool {
    matches!(byte, b'\'' | b'"' | b'`' | b'$')
}

/// A word of a shell.
#[derive(Clone, Copy)]
pub(crate) struct ShellWord {
    /// The offset of its first byte.
    pub start: usize,
    /// The offset after its last byte.
    pub end: usize,
    /// Whether it has no quote and no `$`.
    pub is_plain: bool,
    /// Whether it begins with a call of a macro.
    pub is_call: bool,
}

/// Returns a word with what is between two offsets, after what was read of it.
pub(crate) fn extended(
    word: Option<ShellWord>,
    start: usize,
    end: usize,
    is_plain: bool,
) -> ShellWord {
    match word {
        Some(word) => ShellWord {
            end,
            is_plain: word.is_plain && is_plain,
            ..word
        },
        None => ShellWord {
            start,
            end,
            is_plain,
            is_call: false,
        },
    }
}
