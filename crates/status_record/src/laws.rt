//! Laws of the definitions.

ghost use Rattle.std.specs.Prelude.{◌≡◌, ℕ, List, Some, Ok, Err};
ghost use Rattle.status_record.specs.Escape.{escaped, unescaped};
ghost use Rattle.status_record.specs.RecordText.{IsFirstText, IsSecondText, IsRecordText};
ghost use Rattle.status_record.specs.Reading.{record_in, front_of, IsTruncated};
ghost use Rattle.status_record.specs.Faults.{IsRecordFault};
ghost use Rattle.status_record.specs.declared.fault.RecordFault.{RecordFault as FaultValue};
ghost use Rattle.text_cut.specs.Cuts.{parts};
ghost use Rattle.status_record.specs.declared.fault.RecordFault.TheVariants.{Truncated};
ghost use Rattle.status_record.specs.declared.record.Record.{Record as RecordValue};

/// An escaped value is read as the value, and a text that is read as a value is that value escaped.
pub fn escapes()
    ensures reads_back { (v : List ℕ) → unescaped (escaped v) ≡ Some v }
    ensures sound { (text v : List ℕ) → unescaped text ≡ Some v → text ≡ escaped v }
{}

/// A record has one text, in one version, a text is that of at most one record, and exactly the
/// texts of records are read.
pub fn records()
    ensures one_record { (text : List ℕ) (r s : RecordValue) → IsRecordText text r
        → IsRecordText text s → r ≡ s }
    ensures one_text { (a b : List ℕ) (r : RecordValue) → IsRecordText a r → IsRecordText b r
        → a ≡ b }
    ensures one_version { (text : List ℕ) (r s : RecordValue) → IsFirstText text r
        → ¬ (IsSecondText text s) }
    ensures sound { (text : List ℕ) (r : RecordValue) → record_in text ≡ Ok r
        → IsRecordText text r }
    ensures complete { (text : List ℕ) (r : RecordValue) → IsRecordText text r
        → record_in text ≡ Ok r }
{}

/// If a text is truncated, its lines are the first of some record that has more.
pub fn fronts()
    ensures truncated { (text : List ℕ) → record_in text ≡ Err Truncated
        → IsTruncated (front_of (parts 10 text)) }
{}

/// A text has at most one first fault, the text of a record has none, and exactly these faults are
/// found.
#[tactic(auto, using(crate::proofs::OneFault::one_fault, crate::proofs::OneFault::faults_found))]
pub fn faults()
    ensures has_one_fault { (text : List ℕ) (f g : FaultValue) → IsRecordFault text f
        → IsRecordFault text g → f ≡ g }
    ensures has_none { (text : List ℕ) (r : RecordValue) (f : FaultValue) → IsRecordText text r
        → ¬ (IsRecordFault text f) }
    ensures sound { (text : List ℕ) (f : FaultValue) → record_in text ≡ Err f
        → IsRecordFault text f }
    ensures complete { (text : List ℕ) (f : FaultValue) → IsRecordFault text f
        → record_in text ≡ Err f }
{}
