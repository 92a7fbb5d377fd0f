//! Templates, made ready to look names up.

ghost use Rattle.std.specs.Prelude.{◌≡◌, ℕ, List, Some, IfOk, OnOk, option_map, bytes_eq, if◌then◌else◌};
ghost use Rattle.deftable.specs.Table.{value_of};
ghost use Rattle.output_make.specs.Lookup.{found_in};

use deftable::Bytes;
use indexmap::IndexMap;
use std::alloc::{AllocError, Global};
use std::marker::Model;

/// The texts of templates, by their names.
type Texts<'a> = IndexMap<Vec<u8>, &'a [u8]>;

/// Returns the text that is found under a name, or `None` if there is none.
fn text_in<'a>(texts: &Texts<'a>, name: &[u8]) -> Option<&'a [u8]>
    ensures { option_map (λ t. t.now) result ≡ found_in (λ t. t.now) texts.now.entries name.now }
{
    texts.get(name).copied()
}

/// Adds a text under a name, in place of the one that is found there.
fn insert<'a>(texts: &mut Texts<'a>, name: &[u8], text: &'a [u8]) -> Result<(), AllocError>
    ensures { OnOk result (
        (q : List ℕ)
        → found_in (λ t. t.now) texts.new.entries q
        ≡ (if bytes_eq q name.now then Some text.now else found_in (λ t. t.now)
        texts.old.entries q)) }
{
    let alloc = *texts.allocator();
    let key = Vec::from_slice(alloc, name)?;
    texts.insert(key, text)?;
    Ok(())
}

/// Returns the texts of templates, by their names. The first template of a name counts.
// The last template comes first, so each takes the place of those after it.
fn texts_of<'a>(alloc: Global, given: &'a [(Bytes, Bytes)]) -> Result<Texts<'a>, AllocError>
    ensures { IfOk result (λ texts. (q : List ℕ)
        → found_in (λ t. t.now) texts.entries q ≡ value_of given.now q) }
{
    let mut texts = IndexMap::new(alloc);
    'templates: for i in (0..given.len()).rev() {
        let template = &given[i];
        insert(&mut texts, template.0.as_slice(), template.1.as_slice())?;
    }
    Ok(texts)
}

/// Templates, made ready to look names up. Contracts see the list that they were made of.
pub(crate) struct Templates<'a> {
    given: &'a [(Bytes, Bytes)],
    texts: Texts<'a>,
}

impl Drop for Templates<'_> {
    fn drop(self) {
        let Templates {
            given: _given,
            texts: _texts,
        } = self;
    }
}

impl<'a> Model for Templates<'a> {
    ghost use Rattle.std.specs.Prelude.{◌≡◌, ℕ, List};
    ghost use Rattle.deftable.specs.Table.{value_of};
    ghost use Rattle.output_make.specs.Lookup.{found_in};

    ghost Value = { List (List ℕ × List ℕ) };

    ghost view = { λ t. t.given.now };

    ghost invariant = { λ t. (q : List ℕ) → found_in (λ x. x.now) t.texts.entries q ≡ value_of t.given.now q };
}

impl<'a> Templates<'a> {
    /// Makes templates ready. It takes time in proportion to their number and to the lengths of
    /// their names.
    pub(crate) fn new(
        alloc: Global,
        given: &'a [(Bytes, Bytes)],
    ) -> Result<Templates<'a>, AllocError>
        ensures { IfOk result (λ t. t ≡ given.now) }
    {
        let texts = texts_of(alloc, given)?;
        Ok(Templates { given, texts })
    }

    /// Returns the text of the first template of this name, or `None` if there is none.
    pub(crate) fn get(&self, name: &[u8]) -> Option<&'a [u8]>
        ensures { option_map (λ t. t.now) result ≡ value_of self.now name.now }
    {
        text_in(&self.texts, name)
    }
}
