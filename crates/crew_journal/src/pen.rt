//! What is kept of the file to which records are appended.

ghost use Rattle.std.specs.Prelude.{◌≡◌, ℕ, ◌≤◌, List, ◌++◌, ◌∷◌, [], true, false, length, option_to_list, IfOk, IfSome};
ghost use Rattle.answers_text.specs.Texts.{digest_after, record_text};
ghost use Rattle.answers_text.specs.declared.record.Record.{Record as RecordValue};
ghost use Rattle.crew_journal.specs.Texts.{IsPen};

use crate::file::AnswerFile;
use answers_text::{Record, record_text as text_of};
use std::alloc::{AllocError, Global};

/// The largest number of bytes of a file of answers, 64 MiB.
const LARGEST: u64 = 67_108_864;

/// A file, and what is kept of it.
#[derive(Drop)]
pub(crate) struct Pen<F: AnswerFile + Drop> {
    pub(crate) file: F,
    // The digest of the last record.
    pub(crate) digest: [u8; 32],
    // How many bytes may still be appended.
    pub(crate) left: u64,
    // Whether records are still appended.
    pub(crate) is_on: bool,
}

impl<F: AnswerFile + Drop> Pen<F> {
    /// Returns a pen for a file that has so many bytes, and this digest at their end.
    #[tactic(auto, using(crate::proofs::Written::begun, crate::proofs::Written::full))]
    pub(crate) fn new(file: F, digest: [u8; 32], used: u64) -> Pen<F>
        requires { IfSome (F.texts file) (λ texts. texts ≡ []) }
        ensures file { result.file ≡ file }
        ensures pen { IsPen digest used [] (F.texts result.file) result.digest result.left
            result.is_on }
    {
        if used > LARGEST {
            return Pen {
                file,
                digest,
                left: 0,
                is_on: false,
            };
        }
        let left = LARGEST - used;
        Pen {
            file,
            digest,
            left,
            is_on: true,
        }
    }

    /// Appends nothing more.
    #[tactic(auto, using(crate::proofs::Written::stopped))]
    pub(crate) fn stop(&mut self)
        ensures off { self.new.is_on ≡ false }
        ensures kept { self.new.file ≡ self.old.file }
        ensures pen { (first : List ℕ) (before : ℕ) (records more : List RecordValue)
            → IsPen first before records (F.texts self.old.file) self.old.digest self.old.left
            self.old.is_on
            → IsPen first before (records ++ more) (F.texts self.new.file) self.new.digest
            self.new.left self.new.is_on }
    {
        self.is_on = false;
    }

    /// Appends a text that has at most as many bytes as are left, and this digest at its end.
    #[tactic(auto, using(crate::proofs::Written::put_whole, crate::proofs::Written::put_cut))]
    fn put_text(&mut self, text: &[u8], digest: [u8; 32])
        requires on { self.old.is_on ≡ true }
        requires fits { length text.now ≤ self.old.left }
        ensures put { (first : List ℕ) (before : ℕ) (records : List RecordValue) (it : RecordValue)
            → text.now ≡ record_text self.old.digest it → digest ≡ digest_after self.old.digest it
            → IsPen first before records (F.texts self.old.file) self.old.digest self.old.left
            self.old.is_on
            → IsPen first before (records ++ it ∷ []) (F.texts self.new.file) self.new.digest
            self.new.left self.new.is_on }
    {
        let is_whole = self.file.append(text);
        if is_whole {
            self.left -= text.len() as u64;
            self.digest = digest;
            return;
        }
        self.is_on = false;
    }

    /// Appends a record, if records are still appended. If memory runs out, or too few bytes are left,
    /// nothing more is appended.
    pub(crate) fn put(&mut self, alloc: Global, answer: &Record)
        ensures { (first : List ℕ) (before : ℕ) (records : List RecordValue)
            → IsPen first before records (F.texts self.old.file) self.old.digest self.old.left
            self.old.is_on
            → IsPen first before (records ++ answer.now ∷ []) (F.texts self.new.file)
            self.new.digest self.new.left self.new.is_on }
    {
        if !self.is_on {
            self.stop();
            return;
        }
        let before = self.digest;
        let Ok(made) = text_of(alloc, &before, answer) else {
            self.stop();
            return;
        };
        let digest = made.1;
        if made.0.len() as u64 > self.left {
            self.stop();
            return;
        }
        self.put_text(made.0.as_slice(), digest);
    }

    /// Appends the record that was made, if one was. If memory ran out, nothing more is appended.
    pub(crate) fn put_made(&mut self, alloc: Global, made: Result<Option<Record>, AllocError>)
        ensures { (first : List ℕ) (before : ℕ) (records more : List RecordValue)
            → IfOk made (λ found. option_to_list found ≡ more)
            → IsPen first before records (F.texts self.old.file) self.old.digest self.old.left
            self.old.is_on
            → IsPen first before (records ++ more) (F.texts self.new.file) self.new.digest
            self.new.left self.new.is_on }
    {
        match made {
            Ok(Some(answer)) => self.put(alloc, &answer),
            Ok(None) => {}
            Err(_) => self.stop(),
        }
    }
}
