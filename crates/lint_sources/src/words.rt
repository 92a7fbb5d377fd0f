//! What words name.

ghost use Rattle.std.specs.Prelude.{◌≡◌};
ghost use Rattle.std.specs.List.{list_any};
ghost use Rattle.cmd_call.specs.Calls as calls;

use deftable::Bytes;

/// Returns whether the word names standard input.
pub(crate) fn is_input(word: &[u8]) -> bool
    ensures { result ≡ calls.is_input word.now }
{
    word == b"-".as_slice()
}

/// Returns whether a word of a list names standard input.
fn is_input_word(word: &Bytes) -> bool
    ensures { result ≡ calls.is_input word.now }
{
    is_input(word.as_slice())
}

/// Returns whether one of the words names standard input.
pub fn has_input(words: &[Bytes]) -> bool
    ensures { result ≡ list_any calls.is_input words.now }
{
    words.iter().any(is_input_word)
}

/// Returns whether the word is an option, and no name of a file.
pub fn is_option(word: &[u8]) -> bool
    ensures { result ≡ calls.is_option word.now }
{
    word.starts_with(b"-") && word != b"-".as_slice()
}
