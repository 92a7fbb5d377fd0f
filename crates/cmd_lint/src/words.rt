//! What the words after `lint` are.

ghost use Rattle.std.specs.Prelude.{◌≡◌};
ghost use Rattle.std.specs.List.{list_any};
ghost use Rattle.cmd_lint.specs.Status as specs;

use deftable::Bytes;
use lint_sources::is_option;

/// The option for JSON.
const JSON: &[u8] = b"--json";

/// Returns whether the word is the option for JSON.
fn is_json(word: &Bytes) -> bool
    ensures { result ≡ specs.is_json word.now }
{
    word.as_slice() == JSON
}

/// Returns whether one of the words is the option for JSON.
pub(crate) fn asks_json(words: &[Bytes]) -> bool
    ensures { result ≡ list_any specs.is_json words.now }
{
    words.iter().any(is_json)
}

/// Returns whether the word is an option that isn't known.
fn is_unknown(word: &Bytes) -> bool
    ensures { result ≡ specs.is_unknown word.now }
{
    is_option(word.as_slice()) && !is_json(word)
}

/// Returns whether one of the words is an option that isn't known.
pub(crate) fn has_unknown(words: &[Bytes]) -> bool
    ensures { result ≡ list_any specs.is_unknown words.now }
{
    words.iter().any(is_unknown)
}

/// Returns whether the word names a source.
pub(crate) fn is_name(word: &Bytes) -> bool
    ensures { result ≡ specs.is_name word.now }
{
    !is_option(word.as_slice())
}

/// Returns whether one of the words names a source.
pub(crate) fn has_name(words: &[Bytes]) -> bool
    ensures { result ≡ list_any specs.is_name words.now }
{
    words.iter().any(is_name)
}

/// Returns whether the words name at most one source.
#[tactic(auto, using(crate::proofs::Single::one_more, crate::proofs::Single::one_stop, crate::proofs::Single::one_end, std::proofs::lemmas::List::take_rest))]
pub(crate) fn names_one(words: &[Bytes]) -> bool
    ensures { result ≡ specs.names_one words.now }
{
    for i in 0..words.len() {
        if is_name(&words[i]) {
            return !has_name(&words[i + 1..]);
        }
    }
    true
}
