//! A file in memory, for tests.

ghost use Rattle.std.specs.Prelude.{◌≡◌, ◌++◌, ◌∷◌, [], Some, true, false};
ghost use Rattle.crew_journal.specs.Texts.{IsCut, with_text};

use crate::file::AnswerFile;
use deftable::Bytes;
use std::alloc::Global;

/// A file in memory, for tests: the texts that were appended. It takes so many of them, and no further
/// one.
#[derive(Drop)]
pub struct MemoryFile {
    alloc: Global,
    texts: Vec<Bytes>,
    left: usize,
}

impl MemoryFile {
    /// Returns a file without texts, which takes so many.
    pub fn new(alloc: Global, left: usize) -> MemoryFile
        ensures { result.texts.items ≡ [] }
    {
        MemoryFile {
            alloc,
            texts: Vec::new(alloc),
            left,
        }
    }

    /// Returns the texts that were appended.
    pub fn texts(&self) -> &[Bytes]
        ensures { result.now ≡ self.now.texts.items }
    {
        self.texts.as_slice()
    }

    /// Appends a text, and returns whether there was memory for it.
    fn push(&mut self, text: &[u8]) -> bool
        ensures pushed { result ≡ true → self.new.texts.items ≡ self.old.texts.items ++ text.now ∷ [] }
        ensures same { result ≡ false → self.new.texts.items ≡ self.old.texts.items }
    {
        let Ok(text) = Bytes::from_slice(self.alloc, text) else {
            return false;
        };
        self.texts.push(text).is_ok()
    }
}

impl AnswerFile for MemoryFile {
    ghost texts = { λ f. Some f.texts.items };

    fn append(&mut self, text: &[u8]) -> bool {
        if self.left > 0 {
            self.left -= 1;
            return self.push(text);
        }
        false
    }
}
