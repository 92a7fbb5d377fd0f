//! The words and the environment that the program is given.

ghost use Rattle.std.specs.Prelude.{◌≡◌, ◌<◌, ◌==◌, [], ◌∷◌, ◌++◌, None, Some, Option, drop, length, option_map, position, take, slice_get, IfErr, IfOk, IfSome, OnOk};
ghost use Rattle.std.specs.Io.{WritesAtMost};
ghost use Rattle.std.specs.declared.env.FillError.TheVariants.{NotPresent};
ghost use Rattle.cmd_call.specs.Given as specs;
ghost use Rattle.cmd_call.specs.Given.{Given, listed};

use deftable::Bytes;
use std::alloc::{AllocError, Global};
use std::env::{Env, FillError};

/// The number of bytes of the first try to read a word. Each further try has twice as many.
const FIRST_ROOM: usize = 256;

/// The largest number of tries to read one word.
const MOST_TRIES: u32 = 64;

/// The two lists of texts that a process is given.
#[derive(Clone, Copy)]
pub enum Listed {
    /// The arguments. The first of them is the program's name.
    Arguments,
    /// The entries of the environment.
    Environment,
}

/// The texts that a process is given (own).
pub trait Texts {
    // Both lists, if they are known.
    ghost given: { Self → Option Given } = { λ _. None };

    /// Copies the text at `i` of a list to the start of `room`, and returns its length.
    ///
    /// # Errors
    ///
    /// Fails with `NotPresent` if the list has no such text, and with `TooLong` if the text has no
    /// room.
    fn copy_at(&self, list: Listed, i: usize, room: &mut [u8]) -> Result<usize, FillError>
        ensures bound { WritesAtMost result room.new }
        ensures text { IfOk result (λ n. IfSome (given self.now)
            (λ g. slice_get (listed list g) i ≡ Some (take n room.new))) }
        ensures missing { IfErr result (λ e. e ≡ NotPresent
            → IfSome (given self.now) (λ g. slice_get (listed list g) i ≡ None)) };
}

/// The texts of a real process. Nothing is known of them, because the contract of [`Env`] has no
/// name for them.
#[derive(Drop)]
pub struct ProcessTexts<'a, V: Env> {
    env: &'a V,
}

impl<'a, V: Env> ProcessTexts<'a, V> {
    /// Returns the texts of this process.
    pub fn new(env: &'a V) -> ProcessTexts<'a, V>
        ensures { result.env.now ≡ env.now }
    {
        ProcessTexts { env }
    }
}

impl<'a, V: Env> Texts for ProcessTexts<'a, V> {
    fn copy_at(&self, list: Listed, i: usize, room: &mut [u8]) -> Result<usize, FillError> {
        match list {
            Listed::Arguments => self.env.arg(i, room),
            Listed::Environment => self.env.var_at(i, room),
        }
    }
}

/// Returns the text at `i` of a list, if there is one.
fn text_at<T: Texts>(
    alloc: Global,
    given: &T,
    list: Listed,
    i: usize,
) -> Result<Option<Bytes>, AllocError>
    ensures { IfOk result (λ o. IfSome (T.given given.now) (λ g. slice_get (listed list g) i ≡ o)) }
{
    let mut room = FIRST_ROOM;
    for _ in 0..MOST_TRIES {
        let mut text = vec![in alloc; 0u8; room]?;
        match given.copy_at(list, i, &mut text) {
            Ok(len) => {
                text.truncate(len);
                return Ok(Some(Bytes::from_vec(text)));
            }
            Err(FillError::NotPresent) => return Ok(None),
            Err(FillError::TooLong) => room = room.saturating_mul(2),
        }
    }
    Err(AllocError)
}

/// Returns the texts of a list from `first` on.
#[tactic(auto, using(crate::proofs::Listing::next_text))]
fn texts_of<T: Texts>(
    alloc: Global,
    given: &T,
    list: Listed,
    first: usize,
) -> Result<Vec<Bytes>, AllocError>
    ensures { IfOk result
        (λ texts. IfSome (T.given given.now) (λ g. texts.items ≡ drop first (listed list g))) }
{
    let mut texts = Vec::new(alloc);
    for i in first..usize::MAX {
        match text_at(alloc, given, list, i)? {
            None => return Ok(texts),
            Some(text) => texts.push(text)?,
        }
    }
    Err(AllocError)
}

/// Returns the program's arguments, which may be any bytes, without the program's name.
///
/// # Errors
///
/// Fails only if memory runs out.
pub fn words<T: Texts>(alloc: Global, given: &T) -> Result<Vec<Bytes>, AllocError>
    ensures { IfOk result
        (λ words. IfSome (T.given given.now) (λ g. words.items ≡ drop 1 g.arguments)) }
{
    texts_of(alloc, given, Listed::Arguments, 1)
}

/// Returns the entries of the environment, each a name and a value, which may be any bytes. It
/// leaves out an entry without `=`.
///
/// # Errors
///
/// Fails only if memory runs out.
pub fn environment<T: Texts>(alloc: Global, given: &T) -> Result<Vec<(Bytes, Bytes)>, AllocError>
    ensures { IfOk result
        (λ entries. IfSome (T.given given.now) (λ g. entries.items ≡ specs.entries_of g.environment)) }
{
    let texts = texts_of(alloc, given, Listed::Environment, 0)?;
    entries_of(alloc, texts.as_slice())
}

/// Returns the names and the values of these entries.
fn entries_of(alloc: Global, texts: &[Bytes]) -> Result<Vec<(Bytes, Bytes)>, AllocError>
    ensures { IfOk result (λ entries. entries.items ≡ specs.entries_of texts.now) }
{
    let mut entries = Vec::new(alloc);
    for text in texts {
        add_entry(alloc, &mut entries, text.as_slice())?;
    }
    Ok(entries)
}

/// Returns the offset of the first `=`.
fn equals_in(text: &[u8]) -> Option<usize>
    ensures value { result ≡ position (λ b. b == 61) text.now }
    ensures within { IfSome result (λ i. i < length text.now) }
{
    text.iter().position(|byte| *byte == b'=')
}

/// Returns the text before the first `=` and that after it.
fn cut(text: &[u8]) -> Option<(&[u8], &[u8])>
    ensures { option_map (λ parts. (parts.0.now, parts.1.now)) result ≡ specs.cut text.now }
{
    match equals_in(text) {
        None => None,
        Some(i) => Some((&text[..i], &text[i + 1..])),
    }
}

/// Appends a name and a value.
fn put_entry(
    alloc: Global,
    entries: &mut Vec<(Bytes, Bytes)>,
    name: &[u8],
    value: &[u8],
) -> Result<(), AllocError>
    ensures { OnOk result (entries.new.items ≡ entries.old.items ++ (name.now, value.now) ∷ []) }
{
    let name = Bytes::from_slice(alloc, name)?;
    let value = Bytes::from_slice(alloc, value)?;
    entries.push((name, value))?;
    Ok(())
}

/// Appends the name and the value of an entry, if it has a `=`.
fn add_entry(
    alloc: Global,
    entries: &mut Vec<(Bytes, Bytes)>,
    entry: &[u8],
) -> Result<(), AllocError>
    ensures { OnOk result (entries.new.items ≡ entries.old.items ++ specs.entry_of entry.now) }
{
    match cut(entry) {
        None => Ok(()),
        Some((name, value)) => {
            put_entry(alloc, entries, name, value)?;
            Ok(())
        }
    }
}
