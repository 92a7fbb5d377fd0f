//! What the words after `header` ask for.

ghost use Rattle.std.specs.Prelude.{◌≡◌, ◌∷◌, [], option_map};
ghost use Rattle.cmd_header.specs.Answers as specs;

use deftable::Bytes;
use lint_sources::{SOURCE, is_option};

/// Returns a word, if it is no option.
fn named(word: &[u8]) -> Option<&[u8]>
    ensures { option_map (λ name. name.now) result ≡ specs.name_of (word.now ∷ []) }
{
    if is_option(word) { None } else { Some(word) }
}

/// Returns the name of the source that the words ask for.
pub(crate) fn name_of(words: &[Bytes]) -> Option<&[u8]>
    ensures { option_map (λ name. name.now) result ≡ specs.name_of words.now }
{
    match words {
        [] => Some(SOURCE),
        [word] => named(word.as_slice()),
        _ => None,
    }
}
