//! Words after `help` that name no command.

ghost use Rattle.std.specs.Prelude.{◌≡◌, true, false, []};
ghost use Rattle.cmd_call.specs.Lines.{SaysLines};

use crate::page::{put_key, put_words, slices};
use cmd_call::Hears;
use deftable::Bytes;
use lint_table::{Words, keys};
use run_words::usage_words;
use std::alloc::{AllocError, Global};

/// The names that `acrun help` has a page of.
const PAGES: [&[u8]; 8] = [
    b"configure",
    b"status",
    b"lint",
    b"port",
    b"header",
    b"why",
    b"standin",
    b"help",
];

/// Returns what is wrong with the words after `help`: there are several, or none is the name of a
/// page.
fn misuse_of(alloc: Global, words: &[Bytes]) -> Result<Words, AllocError> {
    if words.len() > 1 {
        return Ok(Words {
            message: Bytes::from_slice(alloc, b"acrun help takes one command at most")?,
            help: Bytes::new(alloc),
        });
    }
    let words = slices(alloc, words)?;
    usage_words(alloc, words.as_slice())
}

/// Returns whether the words are the name of one page.
fn is_page(words: &[Bytes]) -> bool {
    match words {
        [name] => PAGES.iter().any(|page| *page == name.as_slice()),
        _ => words.is_empty(),
    }
}

/// Says what is wrong with the words after `help`, and where the commands are listed.
fn put_misuse<E: Hears>(alloc: Global, words: &[Bytes], errors: &mut E)
    ensures paged { SaysLines E.contents E.has_failed errors.old errors.new true [] }
{
    put_words(alloc, misuse_of(alloc, words), errors);
    put_key(alloc, keys::SEE_COMMANDS, errors);
}

/// Says what is wrong with the words after `help`, after its line, if it is asked and the command
/// ended with another status than 0. If the words are right, the text couldn't be written, and
/// nothing is said of them.
#[tactic(auto, using(cmd_call::proofs::Pages::says_nothing, crate::proofs::Pages::asked_pages))]
pub fn explain_help<E: Hears>(
    alloc: Global,
    is_asked: bool,
    status: u8,
    words: &[Bytes],
    errors: &mut E,
)
    ensures silent { is_asked ≡ false → errors.new ≡ errors.old }
    ensures paged { SaysLines E.contents E.has_failed errors.old errors.new is_asked [] }
    ensures fine { status ≡ 0 → errors.new ≡ errors.old }
{
    if is_asked && status != 0 && !is_page(words) {
        put_misuse(alloc, words, errors);
    }
}
