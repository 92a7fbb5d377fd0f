//! Cuts a text at a byte, and compares texts.

ghost use Rattle.std.specs.Prelude.{◌≡◌, ◌==◌, ◌<◌, bytes_eq, length, position, option_map, IfSome};
ghost use Rattle.lint_macros.specs.Around.{around};

/// Returns the offset of the first such byte.
fn offset_of(text: &[u8], byte: u8) -> Option<usize>
    ensures value { result ≡ position (λ b. b == byte) text.now }
    ensures within { IfSome result (λ i. i < length text.now) }
{
    text.iter().position(|it| *it == byte)
}

/// Returns the text before the first such byte, and the text after it.
pub(crate) fn cut(text: &[u8], byte: u8) -> Option<(&[u8], &[u8])>
    ensures { option_map (λ p. (p.0.now, p.1.now)) result ≡ around byte text.now }
{
    match offset_of(text, byte) {
        Some(i) => Some((&text[..i], &text[i + 1..])),
        None => None,
    }
}

/// Returns whether the text is the one that is wanted.
pub(crate) fn is(text: &[u8], wanted: &[u8]) -> bool
    ensures { result ≡ bytes_eq text.now wanted.now }
{
    text == wanted
}
