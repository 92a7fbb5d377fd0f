//! Which byte continues a character of UTF-8, and which is shown by its number.

ghost use Rattle.std.specs.Prelude.{◌≡◌, ℕ, ◌<◌, ◌≤◌, false, length, take, slice_index, if◌then◌else◌};
ghost use Rattle.text_controls.specs.Form as form;

/// What is lacking of a character: its next byte is one from `low` to `high`, and then come `more`
/// bytes from 0x80 to 0xbf. `number` has the bits of its number that its bytes so far have.
#[derive(Clone, Copy)]
pub(crate) struct Awaited {
    low: u8,
    high: u8,
    more: u8,
    number: u32,
}

/// Returns that no character has begun.
pub(crate) fn nothing() -> Awaited
    ensures { result ≡ form.nothing }
{
    Awaited {
        low: 1,
        high: 0,
        more: 0,
        number: 0,
    }
}

fn either(is_first: bool, first: u8, second: u8) -> u8
    ensures { result ≡ (if is_first then first else second) }
{
    if is_first { first } else { second }
}

/// Returns what is lacking after the first byte of a character, or that nothing is.
#[tactic(auto, unfolding(crate::specs::Form::after_first))]
fn after_first(byte: u8) -> Awaited
    ensures { result ≡ form.after_first byte }
{
    if byte >= 0xc2 && byte <= 0xdf {
        let low = either(byte == 0xc2, 0xa0, 0x80);
        return Awaited {
            low,
            high: 0xbf,
            more: 0,
            number: byte as u32 % 32,
        };
    }
    if byte >= 0xe0 && byte <= 0xef {
        let low = either(byte == 0xe0, 0xa0, 0x80);
        let high = either(byte == 0xed, 0x9f, 0xbf);
        return Awaited {
            low,
            high,
            more: 1,
            number: byte as u32 % 16,
        };
    }
    if byte >= 0xf0 && byte <= 0xf4 {
        let low = either(byte == 0xf0, 0x90, 0x80);
        let high = either(byte == 0xf4, 0x8f, 0xbf);
        return Awaited {
            low,
            high,
            more: 2,
            number: byte as u32 % 8,
        };
    }
    nothing()
}

fn continues(awaited: Awaited, byte: u8) -> bool
    ensures { result ≡ form.continues awaited byte }
{
    awaited.low <= byte && byte <= awaited.high
}

/// Returns the bits of a character's number that its bytes so far have, one more byte included. So
/// many bits are kept that the next six have room.
fn number_after(awaited: Awaited, byte: u8) -> u32
    ensures { result ≡ form.number_after awaited byte }
{
    awaited.number % 0x8000 * 64 + byte as u32 % 64
}

/// Returns whether the character of this number turns or hides text (own): U+061C, U+200B to U+200F,
/// U+2028 to U+202E, U+2066 to U+2069, U+FEFF, or U+E0000 to U+E007F.
pub fn is_mark(number: u32) -> bool
    ensures { result ≡ form.is_mark number }
{
    number == 0x61c
        || number >= 0x200b && number <= 0x200f
        || number >= 0x2028 && number <= 0x202e
        || number >= 0x2066 && number <= 0x2069
        || number == 0xfeff
        || number >= 0xe0000 && number <= 0xe007f
}

/// Returns whether the byte is the last one of a character that turns or hides text.
fn ends_mark(awaited: Awaited, byte: u8) -> bool
    ensures { result ≡ form.ends_mark awaited byte }
{
    continues(awaited, byte) && awaited.more == 0 && is_mark(number_after(awaited, byte))
}

/// Returns what is lacking after one more byte.
#[tactic(auto, unfolding(crate::specs::Form::after))]
fn after(awaited: Awaited, byte: u8) -> Awaited
    ensures { result ≡ form.after awaited byte }
{
    if !continues(awaited, byte) {
        return after_first(byte);
    }
    if awaited.more == 0 {
        return nothing();
    }
    Awaited {
        low: 0x80,
        high: 0xbf,
        more: awaited.more - 1,
        number: number_after(awaited, byte),
    }
}

/// Returns what is lacking after a text.
pub(crate) fn after_all(awaited: Awaited, text: &[u8]) -> Awaited
    ensures { result ≡ form.awaited_after awaited text.now }
{
    text.iter()
        .fold(awaited, |lacking, byte| after(lacking, *byte))
}

/// Returns whether the byte is a control byte, other than newline and tab.
fn is_control(byte: u8) -> bool
    ensures { result ≡ form.is_control byte }
{
    byte < b' ' && byte != b'\t' && byte != b'\n' || byte >= 0x7f && byte <= 0x9f
}

/// Returns whether the byte is a control byte, and continues no character, or is the last one of a
/// character that turns or hides text.
#[tactic(auto, unfolding(crate::specs::Form::is_escaped))]
pub(crate) fn is_escaped(awaited: Awaited, byte: u8) -> bool
    ensures { result ≡ form.is_escaped awaited byte }
{
    ends_mark(awaited, byte) || !continues(awaited, byte) && is_control(byte)
}

/// Returns the number of bytes at the front of a text that are shown as they are.
pub(crate) fn plain_len(awaited: Awaited, text: &[u8]) -> usize
    ensures within { result ≤ length text.now }
    ensures not_empty { 0 < length text.now
        → form.is_escaped awaited (slice_index text.now 0) ≡ false → 0 < result }
    ensures plain { (n : ℕ) → n ≤ result → form.shown awaited (take n text.now) ≡ take n text.now }
{
    let mut lacking = awaited;
    for i in 0..text.len() {
        if is_escaped(lacking, text[i]) {
            return i;
        }
        lacking = after(lacking, text[i]);
    }
    text.len()
}
