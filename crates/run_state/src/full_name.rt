//! Full names of files.

ghost use Rattle.std.specs.Prelude.{◌≡◌};
ghost use Rattle.meaning.specs.Meaning.{is_full_name, is_slash, starts_slash};

fn is_slash(byte: u8) -> bool
    ensures { result ≡ is_slash byte }
{
    byte == b'/' || byte == b'\\'
}

fn starts_slash(text: &[u8]) -> bool
    ensures { result ≡ starts_slash text.now }
{
    match text {
        [first, ..] => is_slash(*first),
        [] => false,
    }
}

/// Returns whether a text is a full name: it begins with a slash or a backslash, or with one byte,
/// a colon and one of these.
pub(crate) fn is_full_name(text: &[u8]) -> bool
    ensures { result ≡ is_full_name text.now }
{
    match text {
        [drive, colon, rest @ ..] => is_slash(*drive) || (*colon == b':' && starts_slash(rest)),
        [only] => is_slash(*only),
        [] => false,
    }
}
