//! Words that are no command.

ghost use Rattle.std.specs.Prelude.{◌≡◌, true, false, []};
ghost use Rattle.cmd_call.specs.Lines.{SaysLines};

use crate::page::{put_key, put_words, slices};
use crate::windows::put_window;
use cmd_call::Hears;
use deftable::Bytes;
use lint_table::{Key, Words, keys};
use run_words::usage_words;
use std::alloc::{AllocError, Global};

/// Returns what is wrong with words that are no command.
fn of_words(alloc: Global, words: &[Bytes]) -> Result<Words, AllocError> {
    let words = slices(alloc, words)?;
    usage_words(alloc, words.as_slice())
}

/// Returns what is wrong with words that begin as those of a command do.
fn misuse_of(words: &[Bytes]) -> Option<Key> {
    let word = words.first()?.as_slice();
    if word == b"status".as_slice() {
        Some(keys::WORD_AFTER_STATUS)
    } else if word.starts_with(b"-j") && word.len() > 2 {
        Some(keys::WINDOW_WITHOUT_CONFIGURE)
    } else {
        None
    }
}

/// Says what is wrong with words that are no command, and where the commands are listed.
fn put_unknown<E: Hears>(alloc: Global, words: &[Bytes], errors: &mut E)
    ensures paged { SaysLines E.contents E.has_failed errors.old errors.new true [] }
{
    put_words(alloc, of_words(alloc, words), errors);
    put_key(alloc, keys::SEE_COMMANDS, errors);
}

/// Says what is wrong with words that are no command, if that isn't the number of children.
fn put_misuse<E: Hears>(alloc: Global, words: &[Bytes], errors: &mut E)
    ensures paged { SaysLines E.contents E.has_failed errors.old errors.new true [] }
{
    match misuse_of(words) {
        Some(key) => put_key(alloc, key, errors),
        None => put_unknown(alloc, words, errors),
    }
}

/// Says what is wrong with words that are no command.
fn put_usage<E: Hears>(alloc: Global, words: &[Bytes], errors: &mut E)
    ensures paged { SaysLines E.contents E.has_failed errors.old errors.new true [] }
{
    if put_window(alloc, words, errors) {
        return;
    }
    put_misuse(alloc, words, errors)
}

/// Says what is wrong with words that are no command, after its line, if it is asked.
#[tactic(auto, using(cmd_call::proofs::Pages::says_nothing, crate::proofs::Pages::asked_pages))]
pub fn explain_usage<E: Hears>(alloc: Global, is_asked: bool, words: &[Bytes], errors: &mut E)
    ensures silent { is_asked ≡ false → errors.new ≡ errors.old }
    ensures paged { SaysLines E.contents E.has_failed errors.old errors.new is_asked [] }
{
    if is_asked {
        put_usage(alloc, words, errors)
    }
}
