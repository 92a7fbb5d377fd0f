//! Arguments that are safe to be put into an idiom.

ghost use Rattle.std.specs.Prelude.{◌≡◌, map};
ghost use Rattle.std.specs.List.{list_all};
ghost use Rattle.lint_macros.specs.Values as words;

use text_cut::{is_blank, trim};

/// Returns the text without the pair of brackets around it, if it has one.
fn unquoted(text: &[u8]) -> &[u8]
    ensures { result.now ≡ words.unquoted text.now }
{
    let len = text.len();
    if len >= 2 && text[0] == b'[' && text[len - 1] == b']' {
        &text[1..len - 1]
    } else {
        text
    }
}

/// Returns an argument without the blanks around it and up to two pairs of brackets.
pub(crate) fn bare(argument: &[u8]) -> &[u8]
    ensures { result.now ≡ words.bare argument.now }
{
    trim(unquoted(trim(unquoted(trim(argument)))))
}

/// Returns whether the byte may be in a plain text.
fn is_plain_byte(byte: u8) -> bool
    ensures { result ≡ words.is_plain_byte byte }
{
    byte.is_ascii_alphanumeric() || is_plain_sign(byte)
}

/// Returns whether the byte is a blank or a sign that means nothing to m4 and to a shell, between
/// brackets and quotes.
fn is_plain_sign(byte: u8) -> bool
    ensures { result ≡ words.is_plain_sign byte }
{
    matches!(
        byte,
        b'_' | b'.' | b'/' | b'-' | b'+' | b'*' | b'=' | b':' | b' ' | b'\t' | b'\n'
    )
}

/// Returns whether each byte may be in a plain text.
fn are_plain_bytes(text: &[u8]) -> bool
    ensures { result ≡ list_all words.is_plain_byte text.now }
{
    text.iter().all(|byte| is_plain_byte(*byte))
}

/// Returns whether a text is a plain word or list.
fn is_plain(text: &[u8]) -> bool
    ensures { result ≡ words.is_plain text.now }
{
    !text.is_empty() && are_plain_bytes(text)
}

/// Returns the bare text of an argument if it is plain.
pub(crate) fn plain_text(argument: &[u8]) -> Option<&[u8]>
    ensures { words.seen result ≡ words.plain_text argument.now }
{
    let text = bare(argument);
    if is_plain(text) { Some(text) } else { None }
}

/// Returns the plain text of the argument of this index, counted from 0.
pub(crate) fn plain_at<'a>(args: &[&'a [u8]], index: usize) -> Option<&'a [u8]>
    ensures { words.seen result ≡ words.plain_at index (map (λ a. a.now) args.now) }
{
    match args.get(index) {
        Some(argument) => plain_text(argument),
        None => None,
    }
}

/// Returns whether all arguments are plain.
fn are_plain(args: &[&[u8]]) -> bool
    ensures { result ≡ words.are_plain (map (λ a. a.now) args.now) }
{
    for argument in args {
        if plain_text(argument).is_none() {
            return false;
        }
    }
    true
}

/// Returns whether there is an argument, and all are plain.
pub(crate) fn is_plain_list(args: &[&[u8]]) -> bool
    ensures { result ≡ words.is_plain_list (map (λ a. a.now) args.now) }
{
    !args.is_empty() && are_plain(args)
}

/// Returns whether a text has no blank.
pub(crate) fn is_word(text: &[u8]) -> bool
    ensures { result ≡ words.is_word text.now }
{
    text.iter().all(|byte| !is_blank(*byte))
}
