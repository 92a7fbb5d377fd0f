//! Options of features and packages that the source doesn't declare.

ghost use Rattle.std.specs.Prelude.{◌≡◌, ℕ, List, [], ◌∷◌, ◌++◌, Ok, Some, IfOk, OnOk, OnErr, option_map};
ghost use Rattle.std.specs.List.{flat_map};
ghost use Rattle.std.specs.Str.{bytes_eq};
ghost use Rattle.options_line.specs.Reading.{Gives};
ghost use Rattle.options.specs.Unrecognized as words;

use deftable::{Bytes, Note, Notes, Stream};
use options_line::fault::OptionFault;
use std::alloc::{AllocError, Global};
use std::marker::Model;

/// Options that are not declared, each up to its `=` and with the number of its argument, in order.
pub(crate) struct Unrecognized {
    options: Vec<(u64, Bytes)>,
}

impl Drop for Unrecognized {
    fn drop(self) {
        let Unrecognized { options: _options } = self;
    }
}

impl Model for Unrecognized {
    ghost Value = { List (ℕ × List ℕ) };

    ghost view = { λ u. u.options.items };
}

impl Unrecognized {
    /// Returns an empty list.
    pub(crate) fn new(alloc: Global) -> Unrecognized
        ensures { result ≡ [] }
    {
        Unrecognized {
            options: Vec::new(alloc),
        }
    }

    /// Appends an option.
    pub(crate) fn push(&mut self, i: u64, option: &[u8]) -> Result<(), AllocError>
        ensures { OnOk result (self.new ≡ self.old ++ (i, option.now) ∷ []) }
    {
        let option = Bytes::from_slice(*self.options.allocator(), option)?;
        self.options.push((i, option))?;
        Ok(())
    }

    /// Appends all options to a text, separated by a comma and a space.
    #[tactic(auto, unfolding(crate::specs::Unrecognized::listed))]
    fn put_listed(&self, text: &mut Vec<u8>) -> Result<(), AllocError>
        ensures { OnOk result (text.new.items ≡ text.old.items ++ words.listed self.now) }
    {
        let Some((first, rest)) = self.options.as_slice().split_first() else {
            return Ok(());
        };
        text.extend_from_slice(first.1.as_slice())?;
        put_rest(text, rest)
    }

    /// Returns the warning about the options.
    #[tactic(auto, unfolding(crate::specs::Unrecognized::warning))]
    fn warning(&self, alloc: Global) -> Result<Note, AllocError>
        ensures { IfOk result (λ note. note ≡ words.warning self.now) }
    {
        let mut text = Vec::from_slice(alloc, b"configure: WARNING: unrecognized options: ")?;
        self.put_listed(&mut text)?;
        text.extend_from_slice(b"\n")?;
        Ok(Note {
            stream: Stream::Err,
            text: Bytes::from_vec(text),
        })
    }

    fn warnings(&self, alloc: Global) -> Result<Notes, AllocError>
        ensures { IfOk result (λ notes. notes ≡ words.warning self.now ∷ []) }
    {
        let mut notes = Notes::new(alloc);
        notes.push(self.warning(alloc)?)?;
        Ok(notes)
    }
}

/// Appends each option to a text, after a comma and a space.
fn put_rest(text: &mut Vec<u8>, options: &[(u64, Bytes)]) -> Result<(), AllocError>
    ensures { OnOk result (
        text.new.items ≡ text.old.items ++ flat_map words.after_comma options.now) }
{
    for option in options {
        put_after_comma(text, option)?;
    }
    Ok(())
}

#[tactic(auto, unfolding(crate::specs::Unrecognized::after_comma))]
fn put_after_comma(text: &mut Vec<u8>, option: &(u64, Bytes)) -> Result<(), AllocError>
    ensures { OnOk result (text.new.items ≡ text.old.items ++ words.after_comma option.now) }
{
    text.extend_from_slice(b", ")?;
    text.extend_from_slice(option.1.as_slice())?;
    Ok(())
}

/// Returns the notes about options that are not declared: none if there is no such option, or if
/// `enable_option_checking` is `no`; otherwise one warning.
///
/// # Errors
///
/// - `FatalUnrecognized` at the first such option, if `enable_option_checking` is `fatal`.
#[tactic(auto, unfolding(crate::specs::Unrecognized::notes_of))]
pub(crate) fn notes_of(
    alloc: Global,
    checking: &[u8],
    unrecognized: &Unrecognized,
) -> Result<Notes, OptionFault>
    ensures { Gives (λ notes. notes) result (words.notes_of checking.now unrecognized.now) }
{
    let Some((first, _)) = unrecognized.options.as_slice().split_first() else {
        return Ok(Notes::new(alloc));
    };
    if checking == b"no".as_slice() {
        return Ok(Notes::new(alloc));
    }
    if checking == b"fatal".as_slice() {
        return Err(OptionFault::FatalUnrecognized(first.0));
    }
    Ok(unrecognized.warnings(alloc)?)
}
