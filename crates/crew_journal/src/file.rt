//! The file to which records are appended.

ghost use Rattle.std.specs.Prelude.{◌≡◌, ℕ, List, Option, None, true, false};
ghost use Rattle.crew_journal.specs.Texts.{IsCut, with_text};

/// A file to which texts are appended. The meaning of it is the texts that were appended (own).
pub trait AnswerFile: Drop {
    // The texts that were appended so far, if that is known.
    ghost texts: { Self → Option (List (List ℕ)) } = { λ _. None };

    /// Appends a text in one write, and returns whether the whole of it was written. The file is made
    /// at the first one, if it isn't there yet.
    fn append(&mut self, text: &[u8]) -> bool
        ensures whole { result ≡ true → texts self.new ≡ with_text (texts self.old) text.now }
        ensures cut { result ≡ false → IsCut (texts self.old) text.now (texts self.new) };
}
