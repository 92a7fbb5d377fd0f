//! The subject of the choice that began last.

ghost use Rattle.std.specs.Prelude.{◌≡◌};
ghost use Rattle.meaning.specs.State.{about, answered, no_choice};

use deftable::Bytes;
use std::alloc::Global;
use std::marker::Model;

/// The value of the subject's word, and the answer to its question.
pub struct About {
    subject: Bytes,
    answer: bool,
}

impl Drop for About {
    fn drop(self) {
        let About {
            subject: _subject,
            answer: _answer,
        } = self;
    }
}

impl Model for About {
    ghost use Rattle.meaning.specs.State.{Scope};

    ghost Value = { Scope };

    ghost view = { λ a. record { subject = a.subject; answer = a.answer } };
}

impl About {
    /// The subject of a choice about nothing.
    pub fn nothing(alloc: Global) -> About
        ensures { result ≡ no_choice }
    {
        About::answer(alloc, false)
    }

    /// The subject with this value of its word.
    pub fn word(subject: Bytes) -> About
        ensures { result ≡ about subject }
    {
        About {
            subject,
            answer: false,
        }
    }

    /// The subject with this answer to its question.
    pub fn answer(alloc: Global, answer: bool) -> About
        ensures { result ≡ answered answer }
    {
        About {
            subject: Bytes::new(alloc),
            answer,
        }
    }

    /// Returns the value of the word.
    pub fn subject(&self) -> &[u8]
        ensures { result.now ≡ self.now.subject }
    {
        self.subject.as_slice()
    }

    /// Returns whether the answer is yes.
    pub fn is_yes(&self) -> bool
        ensures { result ≡ self.now.answer }
    {
        self.answer
    }
}
