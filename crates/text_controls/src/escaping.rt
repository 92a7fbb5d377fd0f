//! How a byte is written that isn't shown as it is.

ghost use Rattle.std.specs.Prelude.{◌≡◌, ◌<◌};
ghost use Rattle.text_controls.specs.Form as form;

/// Returns the lower-case hexadecimal digit of a number below 16.
fn digit(number: u8) -> u8
    requires { number < 16 }
    ensures { result ≡ form.digit number }
{
    if number < 10 {
        b'0' + number
    } else {
        b'a' - 10 + number
    }
}

/// Returns `\xNN` for the byte 0xNN (own).
pub fn escape(byte: u8) -> [u8; 4]
    ensures { result ≡ form.escape byte }
{
    [b'\\', b'x', digit(byte / 16), digit(byte % 16)]
}
