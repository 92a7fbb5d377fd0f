//! What is printed of the words that are given to `echo`.

ghost use Rattle.std.specs.Prelude.{◌≡◌, ◌⊎◌, ◌≤◌, ◌+◌, ◌==◌, ◌||◌, ◌∷◌, ◌++◌, [], false, length, slice_index, slice_range, IfSome, IsTrue};
ghost use Rattle.std.specs.List.{list_all, list_any};
ghost use Rattle.port_echo.specs.Commands as words;
ghost use Rattle.port_echo.specs.Echo as specs;

use port_parts::has_dnl;

fn is_shown(byte: u8) -> bool
    ensures { result ≡ specs.is_shown byte }
{
    31 < byte
        && byte < 127
        && !(byte == b'"'
            || byte == b'#'
            || byte == b'['
            || byte == b'\\'
            || byte == b']'
            || byte == b'`')
}

fn is_constant(byte: u8) -> bool
    ensures { result ≡ specs.is_constant byte }
{
    is_shown(byte) && !(byte == b'$' || byte == b'\'')
}

/// Returns whether the byte is one of those that are neither a letter nor a digit.
fn is_bare_sign(byte: u8) -> bool
    ensures { result
        ≡ (byte == 32 || byte == 36 || byte == 37 || byte == 43 || byte == 44 || byte == 45
        || byte == 46 || byte == 61 || byte == 95) }
{
    byte == b' '
        || byte == b'$'
        || byte == b'%'
        || byte == b'+'
        || byte == b','
        || byte == b'-'
        || byte == b'.'
        || byte == b'='
        || byte == b'_'
}

fn is_bare(byte: u8) -> bool
    ensures { result ≡ specs.is_bare byte }
{
    (46 < byte && byte < 59)
        || (63 < byte && byte < 91)
        || (96 < byte && byte < 123)
        || is_bare_sign(byte)
}

/// Returns whether two spaces are at an offset.
fn are_two_spaces_at(text: &[u8], at: usize) -> bool
    requires { at ≤ length text.now }
    ensures { result ≡ false → slice_range text.now at (at + 2) ≡ 32 ∷ 32 ∷ [] → ⊥ }
{
    let rest = &text[at..];
    rest.len() >= 2 && &rest[..2] == b"  ".as_slice()
}

/// Returns whether the text has two spaces in a row.
fn has_two_spaces(text: &[u8]) -> bool
    ensures { result ≡ false → specs.HasTwoSpaces text.now → ⊥ }
{
    for i in 0..text.len() {
        if are_two_spaces_at(text, i) {
            return true;
        }
    }
    false
}

/// Returns the text between two bytes that are this quote.
fn inside(text: &[u8], quote: u8) -> Option<&[u8]>
    ensures { IfSome result (λ t. text.now ≡ quote ∷ (t.now ++ quote ∷ [])) }
{
    let (first, rest) = text.split_first()?;
    let (last, inner) = rest.split_last()?;
    if *first == quote && *last == quote {
        Some(inner)
    } else {
        None
    }
}

fn are_constant(text: &[u8]) -> bool
    ensures { result ≡ list_all specs.is_constant text.now }
{
    text.iter().all(|byte| is_constant(*byte))
}

/// Returns the text in single quotes, if it has no `$` and no single quote.
fn constant(text: &[u8]) -> Option<&[u8]>
    ensures { IfSome result (λ m. specs.Prints text.now m.now) }
{
    let inner = inside(text, b'\'')?;
    if are_constant(inner) {
        Some(inner)
    } else {
        None
    }
}

fn are_shown(text: &[u8]) -> bool
    ensures { result ≡ list_all specs.is_shown text.now }
{
    text.iter().all(|byte| is_shown(*byte))
}

/// Returns the text in double quotes.
fn quoted(text: &[u8]) -> Option<&[u8]>
    ensures { IfSome result (λ m. specs.Prints text.now m.now) }
{
    let inner = inside(text, b'"')?;
    if are_shown(inner) { Some(inner) } else { None }
}

fn are_bare(text: &[u8]) -> bool
    ensures { result ≡ list_all specs.is_bare text.now }
{
    text.iter().all(|byte| is_bare(*byte))
}

/// Returns whether a text is words that a shell reads as they are, with one space between them.
fn are_words(text: &[u8]) -> bool
    ensures { IsTrue result → specs.AreWords text.now }
{
    0 < text.len()
        && are_bare(text)
        && !has_two_spaces(text)
        && text[0] != b' '
        && text[text.len() - 1] != b' '
}

/// Returns what is printed of the words that are given to `echo`, if that is known.
fn printed_of(text: &[u8]) -> Option<&[u8]>
    ensures { IfSome result (λ m. specs.Prints text.now m.now) }
{
    if are_words(text) {
        return Some(text);
    }
    match constant(text) {
        Some(message) => Some(message),
        None => quoted(text),
    }
}

/// Returns whether a text can be a message.
fn is_message(text: &[u8]) -> bool
    ensures { IsTrue result → specs.IsMessage text.now }
{
    0 < text.len() && text[0] != b'-' && !has_dnl(text)
}

/// Returns the message that `echo` prints of a text, which is what it is given, or `None` if that
/// isn't known or can't be a message.
pub fn message_of(text: &[u8]) -> Option<&[u8]>
    ensures { IfSome result (λ m. specs.Prints text.now m.now × specs.IsMessage m.now) }
{
    let message = printed_of(text)?;
    if is_message(message) {
        Some(message)
    } else {
        None
    }
}

/// Returns whether a text has a space.
fn has_space(text: &[u8]) -> bool
    ensures { result ≡ list_any words.is_gap text.now }
{
    text.iter().any(|byte| *byte == b' ')
}

/// Returns whether a text begins with a byte.
fn begins_with(text: &[u8], byte: u8) -> bool
    ensures { IsTrue result → slice_index text.now 0 ≡ byte }
{
    0 < text.len() && text[0] == byte
}

/// Returns whether a text has no space, or begins with a quote.
fn is_one(text: &[u8]) -> bool
    ensures { IsTrue result
        → (list_any words.is_gap text.now ≡ false)
        ⊎ ((slice_index text.now 0 ≡ 34) ⊎ (slice_index text.now 0 ≡ 39)) }
{
    !has_space(text) || begins_with(text, b'"') || begins_with(text, b'\'')
}

/// Returns whether a text of which this is printed is one word.
fn is_one_of(text: &[u8], message: &[u8]) -> bool
    requires { specs.Prints text.now message.now }
    ensures { IsTrue result → words.IsOneWord text.now }
{
    let _ = message;
    is_one(text)
}

/// Returns whether a text is one word of which it is known what `echo` prints.
pub fn is_one_word(text: &[u8]) -> bool
    ensures { IsTrue result → words.IsOneWord text.now }
{
    match printed_of(text) {
        Some(message) => is_one_of(text, message),
        None => false,
    }
}
