//! Texts with escapes, and with repetitions.

use crate::page::Page;
use crate::table::cut;

/// Where in an escape a text is.
#[derive(Clone, Copy)]
enum EscapePlace {
    Outside,
    /// After a backslash.
    Escape,
    /// After `\x`.
    High,
    /// After `\x` and a digit of this value.
    Low(u8),
}

fn digit_value(byte: u8) -> u8 {
    match byte {
        b'0'..=b'9' => byte - b'0',
        b'a'..=b'f' => byte - b'a' + 10,
        _ => 0,
    }
}

/// Puts what a byte after a backslash means. `number` has four decimal digits.
fn put_escape(page: &mut Page, byte: u8, number: usize) {
    match byte {
        b'n' => page.put_byte(b'\n'),
        b't' => page.put_byte(b'\t'),
        b'0' => page.put_byte(0),
        b'#' => {
            for digit in [number / 1000, number / 100, number / 10, number] {
                page.put_byte(b"0123456789"[digit % 10]);
            }
        }
        b'\n' => {}
        other => page.put_byte(other),
    }
}

/// Puts what a byte means in its place, and returns the place after it.
fn put_next(page: &mut Page, place: EscapePlace, byte: u8, number: usize) -> EscapePlace {
    match place {
        EscapePlace::Outside if byte == b'\\' => return EscapePlace::Escape,
        EscapePlace::Outside => page.put_byte(byte),
        EscapePlace::Escape if byte == b'x' => return EscapePlace::High,
        EscapePlace::Escape => put_escape(page, byte, number),
        EscapePlace::High => return EscapePlace::Low(digit_value(byte)),
        EscapePlace::Low(high) => page.put_byte(
            high.wrapping_mul(16).wrapping_add(digit_value(byte)),
        ),
    }
    EscapePlace::Outside
}

/// Puts a text whose escapes are read: `\n`, `\t`, `\0`, `\\`, `\xHH`, `\#` for the number, and a
/// backslash at the end of a line, which joins it with the next.
pub fn put_unescaped(page: &mut Page, text: &[u8], number: usize) {
    let mut place = EscapePlace::Outside;
    for byte in text {
        place = put_next(page, place, *byte, number);
    }
}

/// Returns the number that a text of digits spells.
pub fn number_of(text: &[u8]) -> usize {
    let mut number: usize = 0;
    for byte in text {
        number = number
            .saturating_mul(10)
            .saturating_add(digit_value(*byte) as usize);
    }
    number
}

/// Puts the text of a line `COUNT TEXT` so many times.
fn put_line(page: &mut Page, line: &[u8]) {
    let (count, text) = cut(line, b" ");
    for number in 0..number_of(count) {
        put_unescaped(page, text, number);
    }
}

/// Puts a text of lines `COUNT TEXT`, each so many times without a newline. Escapes are read, and
/// `\#` is the number of the repetition, from 0000.
pub fn put_repeated(page: &mut Page, text: &[u8]) {
    for line in text.split(|byte| *byte == b'\n') {
        put_line(page, line);
    }
}
