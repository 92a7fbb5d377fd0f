//! What programs say that found no room, that may not open a file, or that a signal ended.

ghost use Rattle.std.specs.Prelude.{◌≡◌, map};
ghost use Rattle.std.specs.List.{list_any};
ghost use Rattle.cmd_explain.specs.Shortages as specs;

use bstr::ByteSlice;

/// What a program says that finds no room for a process, for its arguments, for a file, for what it
/// opens or for its memory.
const SHORTAGES: [&[u8]; 10] = [
    b"Resource temporarily unavailable",
    b"Argument list too long",
    b"No space left on device",
    b"Disk quota exceeded",
    b"File too large",
    b"Too many open files",
    b"Cannot allocate memory",
    b"out of memory",
    b"memory exhausted",
    b"failed to map segment",
];

/// What a compiler says if a signal ends a program that it started.
const SIGNALS: [&[u8]; 3] = [
    b"signal terminated program",
    b"terminated with signal",
    b"unable to execute command: ",
];

/// What a program says that may not open a file.
const REFUSAL: &[u8] = b"Permission denied";

/// Returns what a program says that finds no room.
#[tactic(auto, unfolding(crate::specs::Shortages::shortages))]
fn shortages() -> &'static [&'static [u8]]
    ensures { map (λ word. word.now) result.now ≡ specs.shortages }
{
    &SHORTAGES
}

/// Returns what a compiler says if a signal ends a program that it started.
#[tactic(auto, unfolding(crate::specs::Shortages::signals))]
fn signals() -> &'static [&'static [u8]]
    ensures { map (λ word. word.now) result.now ≡ specs.signals }
{
    &SIGNALS
}

/// Returns what a program says that may not open a file.
#[tactic(auto, unfolding(crate::specs::Shortages::refusal))]
fn refusal() -> &'static [u8]
    ensures { result.now ≡ specs.refusal }
{
    REFUSAL
}

/// Returns whether the words are a part of the text.
#[tactic(auto, using(crate::proofs::Parts::part_is))]
fn is_part(words: &[u8], text: &[u8]) -> bool
    ensures { result ≡ specs.is_part words.now text.now }
{
    text.split_once_str(words).is_some()
}

/// Returns whether one of the words is in the diagnostics.
fn has_one(words: &[&[u8]], diagnostics: &[u8]) -> bool
    ensures { result ≡ list_any (λ word. specs.is_part word.now diagnostics.now) words.now }
{
    words.iter().any(|word| is_part(word, diagnostics))
}

/// Returns whether the diagnostics say that there was no room.
pub(crate) fn names_shortage(diagnostics: &[u8]) -> bool
    ensures { result ≡ specs.has_one specs.shortages diagnostics.now }
{
    has_one(shortages(), diagnostics)
}

/// Returns whether the diagnostics of a compiler say that a signal ended a part of it.
pub(crate) fn names_signal(diagnostics: &[u8]) -> bool
    ensures { result ≡ specs.has_one specs.signals diagnostics.now }
{
    has_one(signals(), diagnostics)
}

/// Returns whether the diagnostics say that a file may not be opened.
pub(crate) fn names_refusal(diagnostics: &[u8]) -> bool
    ensures { result ≡ specs.is_part specs.refusal diagnostics.now }
{
    is_part(refusal(), diagnostics)
}
