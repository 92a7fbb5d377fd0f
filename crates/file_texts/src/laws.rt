//! Laws of what is written and then read, on disks that nobody else changes.

ghost use Rattle.std.specs.Int.{bit_at};
ghost use Rattle.std.specs.Prelude.{◌≡◌, ◌≤◌, ◌+◌, ℕ, false, List, Some, max};
ghost use Rattle.file_disk.specs.Known.{Known, Deed, with_deeds, kind_under, text_under};
ghost use Rattle.file_texts.specs.Coherent.{HasPlace, IsCoherent, IsApart, IsPutApart, ReadsAt};
ghost use Rattle.file_texts.specs.Done.{IsTakenSo};
ghost use Rattle.file_texts.specs.Links.{is_link};
ghost use Rattle.file_texts.specs.Steps.{IsReplaced, mode_for};
ghost use Rattle.file_texts.specs.declared.places.Guard.{Guard};
ghost use Rattle.file_texts.specs.declared.places.FilePlace.{FilePlace};
ghost use Rattle.file_texts.specs.declared.writing.Keeps.{Keeps};
ghost use Rattle.output_put.specs.declared.artifact.Artifact.{Artifact};

/// What is read under the name of an artifact, after it was put, is its text.
pub fn puts_are_read()
    ensures { (k : Known) (guards : List Guard) (places new : List FilePlace) (artifact : Artifact)
        (line : List ℕ) (deeds : List Deed) → IsCoherent k.files
        → IsTakenSo k guards places new artifact line deeds
        → text_under (with_deeds k deeds) artifact.name ≡ Some artifact.text }
{}

/// What is read under another name, at another place, is what was read before the put.
pub fn puts_leave_others()
    ensures { (k : Known) (guards : List Guard) (places new : List FilePlace) (artifact : Artifact)
        (line : List ℕ) (deeds : List Deed) (name : List ℕ) (place : FilePlace) (text : List ℕ)
        → IsCoherent k.files → (put : IsTakenSo k guards places new artifact line deeds)
        → IsPutApart k artifact put.file place → ReadsAt k name place text
        → ReadsAt (with_deeds k deeds) name place text }
{}

/// What is read under the name of the last file, and under others, after it was written.
#[tactic(auto, using(crate::proofs::Reread::last_is_read, crate::proofs::Reread::last_leaves_others))]
pub fn last_files_are_read()
    ensures read { (k : Known) (file text : List ℕ) (deeds : List Deed)
        → IsCoherent k.files → HasPlace k file → is_link (kind_under k file) ≡ false
        → IsReplaced k file text deeds → text_under (with_deeds k deeds) file ≡ Some text }
    ensures others { (k : Known) (file written : List ℕ) (deeds : List Deed) (name : List ℕ)
        (place : FilePlace) (text : List ℕ) → IsCoherent k.files → IsReplaced k file written deeds
        → IsApart k file place → ReadsAt k name place text
        → ReadsAt (with_deeds k deeds) name place text }
{}

/// A new file in the place of an old one has no bit to read or to write that the system didn't give
/// it. A bit to execute it was given by the system, or whoever has it may read the file: the bit to
/// read is two places above.
pub fn modes_give_no_rights()
    ensures read_write { (keeps : Keeps) (old new i : ℕ) → bit_at 0o666 i ≡ 1
        → bit_at (mode_for keeps old new) i ≤ bit_at new i }
    ensures execute { (keeps : Keeps) (old new i : ℕ) → bit_at (mode_for keeps old new) i
        ≤ max (bit_at new i) (bit_at (mode_for keeps old new) (i + 2)) }
{}
