//! Laws of the reading functions, for the crates above.

ghost use Rattle.std.specs.Prelude.{◌≡◌, ◌↔◌, ℕ, List, Ok, Err, length};
ghost use Rattle.shell_bare.specs.Continuation.{IsJoined};
ghost use Rattle.shell_bare.specs.Faults.{IsReadingFault};
ghost use Rattle.shell_bare.specs.Joining.{joined};
ghost use Rattle.shell_bare.specs.Reading.{statements_of};
ghost use Rattle.shell_bare.specs.Refused.{IsFaultOfText};
ghost use Rattle.shell_bare.specs.Statements.{IsBareText};
ghost use Rattle.shellword.specs.Word.{IsWordPart};
ghost use Rattle.shellword.specs.declared.part.Part.{Part};
ghost use Rattle.shell_bare.specs.Kept.{LeavesPart};
ghost use Rattle.shell_bare.specs.declared.assignments.Assignment.{Assignment};
ghost use Rattle.shell_bare.specs.declared.fault.BareFault.{BareFault};
ghost use Rattle.shell_bare.specs.declared.continuation.BareContext.TheVariants.{Start, Word};

/// States that each reading function returns exactly what the grammar says.
pub fn readings_are_exact()
    ensures joined { (text out : List ℕ) → (joined text ≡ out) ↔ IsJoined Start text out }
    ensures statements { (text : List ℕ) (list : List Assignment)
        → (statements_of text ≡ Ok list) ↔ IsBareText text list }
{}

/// States that a text has exactly one form without its line continuations, and makes at most one
/// list of assignments.
pub fn one_reading()
    ensures joined { (text a b : List ℕ) → IsJoined Start text a → IsJoined Start text b → a ≡ b }
    ensures statements { (text : List ℕ) (a b : List Assignment) → IsBareText text a
        → IsBareText text b → a ≡ b }
{}

/// States that the reading function returns an error if and only if it is the first error of the
/// text.
pub fn faults_are_exact()
    ensures { (text : List ℕ) (f : BareFault)
        → (statements_of text ≡ Err f) ↔ IsFaultOfText text f }
{}

/// States which errors the reading function returns: an unknown statement or the error of a word,
/// at an offset in the text or at its end.
pub fn faults_are_placed()
    ensures { (text : List ℕ) (f : BareFault) → statements_of text ≡ Err f
        → IsReadingFault (length text) f }
{}

/// States that line continuations follow the quotes of words. A part of a word in single quotes
/// stays as it is, and any other part loses exactly its line continuations. After the part, bare
/// text is in the word and outside quotes. The text that remains has no line continuation.
pub fn quotes_are_of_words()
    ensures part { (text rest out : List ℕ) (parts : List Part) → IsWordPart text parts rest
        → IsJoined Word rest out → LeavesPart text rest out }
    ensures none_left { (text out : List ℕ) → IsJoined Start text out → IsJoined Start out out }
{}
