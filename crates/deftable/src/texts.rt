//! Lists of byte texts.

ghost use Rattle.std.specs.Prelude.{◌≡◌, ℕ, List, [], ◌∷◌, ◌++◌, map, IfOk, OnOk, OnErr};

use crate::bytes::Bytes;
use std::alloc::{AllocError, Global};
use std::marker::Model;

/// A list of byte texts, such as the words of a command or the names of programs. In contracts, its
/// value is the list of the texts.
pub struct Texts {
    texts: Vec<Bytes>,
}

impl Drop for Texts {
    fn drop(self) {
        let Texts { texts: _texts } = self;
    }
}

impl Model for Texts {
    ghost Value = { List (List ℕ) };

    ghost view = { λ t. t.texts.items };
}

impl Texts {
    /// Returns a list of no texts.
    pub fn new(alloc: Global) -> Texts
        ensures { result ≡ [] }
    {
        Texts {
            texts: Vec::new(alloc),
        }
    }

    /// Makes a list of a vector's texts, without copying them.
    pub fn from_vec(texts: Vec<Bytes>) -> Texts
        ensures { result ≡ texts.items }
    {
        Texts { texts }
    }

    /// Returns the texts as a vector, without copying them.
    pub fn into_vec(self) -> Vec<Bytes>
        ensures { result.items ≡ self }
    {
        let Texts { texts } = self;
        texts
    }

    /// Returns the texts, in order.
    pub fn as_slice(&self) -> &[Bytes]
        ensures { result.now ≡ self.now }
    {
        self.texts.as_slice()
    }

    /// Appends a text.
    ///
    /// # Errors
    ///
    /// Fails only if memory runs out, and then leaves the list unchanged.
    pub fn push(&mut self, text: &[u8]) -> Result<(), AllocError>
        ensures ok { OnOk result (self.new ≡ self.old ++ text.now ∷ []) }
        ensures err { OnErr result (self.new ≡ self.old) }
    {
        let text = Bytes::from_slice(*self.texts.allocator(), text)?;
        self.texts.push(text)?;
        Ok(())
    }

    /// Returns an equal list that has its own memory.
    pub fn copy(&self, alloc: Global) -> Result<Texts, AllocError>
        ensures { IfOk result (λ t. t ≡ self.now) }
    {
        let texts = copied(alloc, self.texts.as_slice())?;
        Ok(Texts { texts })
    }
}

fn copied(alloc: Global, texts: &[Bytes]) -> Result<Vec<Bytes>, AllocError>
    ensures { IfOk result (λ v. v.items ≡ texts.now) }
{
    let mut all = Vec::new(alloc);
    for text in texts {
        all.push(text.copy(alloc)?)?;
    }
    Ok(all)
}

/// Copies slices, in order.
///
/// # Errors
///
/// Fails only if memory runs out.
pub fn copies(alloc: Global, slices: &[&[u8]]) -> Result<Vec<Bytes>, AllocError>
    ensures { IfOk result (λ v. v.items ≡ map (λ s. s.now) slices.now) }
{
    let mut copies = Vec::new(alloc);
    for slice in slices {
        copies.push(Bytes::from_slice(alloc, slice)?)?;
    }
    Ok(copies)
}
