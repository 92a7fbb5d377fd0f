//! Laws of the definitions.

ghost use Rattle.std.specs.Prelude.{◌≡◌, ℕ, List, ◌++◌, length, take};
ghost use Rattle.std.specs.List.{AllByRecursion};
ghost use Rattle.crew_jobs.specs.declared.job.Job.{Job as JobValue};
ghost use Rattle.answers_text.specs.Laws.{IsFront, IsSameJob, IsSizedJob};
ghost use Rattle.answers_text.specs.Reading.{IsRead, IsWritable};
ghost use Rattle.answers_text.specs.Texts.{answers_text, first_digest, job_text, last_digest};
ghost use Rattle.answers_text.specs.declared.record.Record.{Record as RecordValue};

/// What was written is read, a text is read in one way, and what is read of the front of a text is a
/// front of what is read of the text.
#[tactic(auto, using(crate::proofs::TwoReadings::reads_back))]
pub fn readings()
    ensures reads_back { (run : List ℕ) (records : List RecordValue)
        → AllByRecursion IsWritable records
        → IsRead run (answers_text run records) records (last_digest (first_digest run) records)
        (length (answers_text run records)) }
    ensures one { (run text : List ℕ) (a b : List RecordValue) (d e : List ℕ) (m n : ℕ)
        → IsRead run text a d m → IsRead run text b e n → a ≡ b }
    ensures fronts { (run text more : List ℕ) (a b : List RecordValue) (d e : List ℕ) (m n : ℕ)
        → IsRead run text a d m → IsRead run (text ++ more) b e n → IsFront a b }
    // A text that is cut at any byte after its first line has the first of its records.
    ensures cut { (run : List ℕ) (records given : List RecordValue) (n : ℕ) (d : List ℕ) (m : ℕ)
        → AllByRecursion IsWritable records
        → IsRead run (take n (answers_text run records)) given d m → IsFront given records }
{}

/// Jobs that a record can't tell apart have the same words, and programs of one name, one length
/// and one digest.
pub fn jobs()
    ensures { (a b : JobValue) → IsSizedJob a → IsSizedJob b → job_text a ≡ job_text b
        → IsSameJob a b }
{}
