//! Shell words.

ghost use Rattle.std.specs.Prelude.{◌≡◌, ◌+◌, ◌++◌, ◌≤◌, ◌≢◌, ℕ, List, [], Ok, drop, length, IfOk, IfErr, IsTrue};
ghost use Rattle.std.specs.List.{list_all};
ghost use Rattle.shellword.specs.Element.{part_is, word_is};
ghost use Rattle.shellword.specs.Faults.{IsWordFault};
ghost use Rattle.shellword.specs.Gives.{Gives};
ghost use Rattle.shellword.specs.Text.{is_blank, is_parted};
ghost use Rattle.shellword.specs.Scan.{scan, word_of, word_front_of};
ghost use Rattle.shellword.specs.Value.{word_value};
ghost use Rattle.shellword.specs.Word.{IsWord, IsWordFront};
ghost use Rattle.shellword.specs.WordFaults.{IsBadWord, IsBadFront, IsRefusal};
ghost use Rattle.shellword.specs.declared.part.Part.{Part};
ghost use Rattle.shellword.specs.declared.fault.ShellFault.TheVariants.{OutOfMemory};

use crate::fault::ShellFault;
use crate::front::Context;
use crate::part::Part;
use crate::run::read_run;
use crate::value::value_of_parts;
use deftable::{Bytes, Vars};
use std::alloc::{AllocError, Global};
use std::marker::Model;
use text_cut::is_blank;

/// A shell word. In contracts, its value is the list of its parts.
pub struct Word {
    parts: Vec<Part>,
}

impl Drop for Word {
    fn drop(self) {
        let Word { parts: _parts } = self;
    }
}

impl Model for Word {
    ghost use Rattle.std.specs.Prelude.{List};
    ghost use Rattle.shellword.specs.declared.part.Part.{Part};

    ghost Value = { List Part };

    ghost view = { λ w. w.parts.items };
}

fn are_blanks(text: &[u8]) -> bool
    ensures { result ≡ list_all is_blank text.now }
{
    text.iter().all(|b| is_blank(*b))
}

/// Returns whether a word at the front of bare text may end before `rest`: `rest` is empty, or
/// begins with a blank or `;`.
fn is_parted(rest: &[u8]) -> bool
    ensures { result ≡ is_parted rest.now }
{
    match rest.split_first() {
        Some((byte, _)) => is_blank(*byte) || *byte == b';',
        None => true,
    }
}

fn is_byte(part: &Part, byte: u8) -> bool
    ensures { result ≡ part_is part.now byte }
{
    match part {
        Part::Plain(b) | Part::Quoted(b) => *b == byte,
        Part::Variable(_) => false,
    }
}

fn are_bytes(parts: &[Part], text: &[u8]) -> bool
    ensures { result ≡ word_is parts.now text.now }
{
    if parts.len() != text.len() {
        return false;
    }
    for (i, part) in parts.iter().enumerate() {
        if !is_byte(part, text[i]) {
            return false;
        }
    }
    true
}

#[tactic(auto, unfolding(crate::specs::Scan::word_of))]
fn read_whole(alloc: Global, text: &[u8]) -> Result<Word, ShellFault>
    ensures exact { Gives (λ w. w) result (word_of text.now) }
    ensures fault { IfErr result (IsWordFault (length text.now)) }
{
    let (parts, end) = read_run(alloc, text, 0, Context::Bare)?;
    if are_blanks(&text[end..]) {
        Ok(Word { parts })
    } else {
        Err(ShellFault::BadWord(end))
    }
}

#[tactic(auto, unfolding(crate::specs::Scan::word_front_of))]
fn read_front_word(alloc: Global, text: &[u8]) -> Result<(Word, usize), ShellFault>
    ensures exact { Gives (λ r. (r.0, r.1)) result (word_front_of text.now) }
    ensures fault { IfErr result (IsWordFault (length text.now)) }
    ensures within { IfOk result (λ r. r.1 ≤ length text.now) }
{
    let (parts, end) = read_run(alloc, text, 0, Context::Bare)?;
    if is_parted(&text[end..]) {
        Ok((Word { parts }, end))
    } else {
        Err(ShellFault::BadWord(end))
    }
}

/// Reads a text that is one word, followed by blanks or nothing (POSIX shell, 2.2 and 2.3).
///
/// # Errors
///
/// Returns [`ShellFault::BadWord`] with the offset of the first of these:
///
/// - a backquote that no backslash and no single quote quotes;
/// - a `$` that a shell expands and that begins neither `$name` nor `${name}`;
/// - outside quotes, one of `;`, `&`, `|`, `<`, `>`, `(` and `)`, or a blank that is followed by
///   anything but blanks;
/// - the end of the text, if a quote is open there.
pub fn read_word(alloc: Global, text: &[u8]) -> Result<Word, ShellFault>
    // The result as one function of the text.
    ensures exact { Gives (λ w. w) result (word_of text.now) }
    // If parts are returned, they are those of the word.
    ensures sound { IfOk result (IsWord text.now) }
    // If the text is a word, its parts are returned unless memory runs out.
    ensures complete { (parts : List Part) → IsWord text.now parts
        → Gives (λ w. w) result (Ok parts) }
    // If an error is returned, the text isn't a word because of the byte at that offset, or memory
    // ran out.
    ensures error_sound { IfErr result (IsRefusal (IsBadWord text.now)) }
    ensures fault { IfErr result (IsWordFault (length text.now)) }
{
    read_whole(alloc, text)
}

/// Reads the word at the front of bare text, and returns it with its length (POSIX shell, 2.2 and
/// 2.3; that other operators are rejected is own).
///
/// The word ends at the end of the text or before the first blank or `;` outside quotes. It may be
/// empty. The text after the word isn't read.
///
/// # Errors
///
/// Returns [`ShellFault::BadWord`] with the offset of the first of these:
///
/// - a backquote or a `$` that is an error of [`read_word`];
/// - outside quotes, one of `&`, `|`, `<`, `>`, `(` and `)`;
/// - the end of the text, if a quote is open there.
pub fn read_word_front(alloc: Global, text: &[u8]) -> Result<(Word, usize), ShellFault>
    // The result as one function of the text.
    ensures exact { Gives (λ r. (r.0, r.1)) result (word_front_of text.now) }
    // If a word is returned, it is at the front of the text, with this length.
    ensures sound { IfOk result (λ r. IsWordFront text.now r.0 r.1) }
    // If a word is at the front of the text, it is returned unless memory runs out.
    ensures complete { (parts : List Part) (n : ℕ) → IsWordFront text.now parts n
        → Gives {Y = List Part × ℕ} (λ r. (r.0, r.1)) result (Ok (parts, n)) }
    // If an error is returned, no word is at the front because of the byte at that offset, or
    // memory ran out.
    ensures error_sound { IfErr result (IsRefusal (IsBadFront text.now)) }
    ensures within { IfOk result (λ r. r.1 ≤ length text.now) }
    ensures fault { IfErr result (IsWordFault (length text.now)) }
{
    read_front_word(alloc, text)
}

impl Word {
    /// Returns the word without any part, whose value is empty. It doesn't allocate.
    pub fn empty(alloc: Global) -> Word
        ensures { result ≡ [] }
    {
        Word {
            parts: Vec::new(alloc),
        }
    }

    pub(crate) fn from_parts(parts: Vec<Part>) -> Word
        ensures { result ≡ parts.items }
    {
        Word { parts }
    }

    /// Returns the parts of the word, in order.
    pub fn parts(&self) -> &[Part]
        ensures { result.now ≡ self.now }
    {
        self.parts.as_slice()
    }

    /// Returns whether the word is constant and equals this text.
    pub(crate) fn is(&self, text: &[u8]) -> bool
        ensures { result ≡ word_is self.now text.now }
    {
        are_bytes(&self.parts, text)
    }

    /// Returns the word with each variable replaced by its value (POSIX shell, 2.6.2; that a value
    /// is never split is own). An unset variable is empty, and a value is never read again.
    pub fn value(&self, alloc: Global, vars: &Vars) -> Result<Bytes, AllocError>
        ensures { IfOk result (λ v. v ≡ word_value self.now vars.now) }
    {
        value_of_parts(alloc, &self.parts, vars)
    }
}
