//! Laws of the definitions. The functions do nothing; their contracts are the laws.

ghost use Rattle.std.specs.Prelude.{◌≡◌, ℕ, ◌+◌, ◌<◌, ◌≤◌, Bool, true, false, List, ◌∷◌, ◌++◌, length, drop, get_or};
ghost use Rattle.m4quote.specs.Text.{open_bracket, close_bracket, number_sign, is_dnl, word, word_len, line_len, whole_line_len};
ghost use Rattle.m4quote.specs.ItemValue.{ItemValue};
ghost use Rattle.m4quote.specs.Spelling.{Balanced, IsOrdinary, IsSpelling};
ghost use Rattle.lint_marks.specs.declared.quotes.Quotes.{Quotes};
ghost use Rattle.lint_marks.specs.declared.mark.Mark.{Mark};
ghost use Rattle.lint_marks.specs.Marks.{marks_of, mark_of, scan_at};
ghost use Rattle.lint_marks.specs.Fronts as specs;

/// States that what m4 has open is what the definitions of `m4quote` say of the pieces of a text:
/// a quoted run, a comment, a dropped line, a word or another byte. Before each of them no quote
/// and no comment is open.
#[tactic(auto, using(crate::proofs::Fronts::reads_quoted, crate::proofs::Fronts::reads_comment, crate::proofs::Fronts::reads_dropped, crate::proofs::Fronts::reads_word, crate::proofs::Fronts::reads_byte))]
pub fn piece_laws()
    ensures quoted { (room : ℕ) (q : Quotes) (inside rest : List ℕ) → room ≤ 254
        → specs.IsBetween q (open_bracket ∷ (inside ++ close_bracket ∷ rest)) → Balanced room inside
        → specs.ReadsPiece specs.IsQuoted (length inside + 2) q
        (open_bracket ∷ (inside ++ close_bracket ∷ rest)) }
    ensures comment { (q : Quotes) (rest : List ℕ) → specs.IsBetween q (number_sign ∷ rest)
        → specs.ReadsPiece specs.IsComment (line_len (number_sign ∷ rest)) q (number_sign ∷ rest) }
    ensures dropped { (q : Quotes) (text : List ℕ) → specs.IsBetween q text
        → is_dnl (word text) ≡ true
        → specs.ReadsPiece specs.IsDropped (whole_line_len text) q text }
    ensures word { (q : Quotes) (text : List ℕ) → specs.IsBetween q text → 0 < word_len text
        → is_dnl (word text) ≡ false → specs.ReadsPiece specs.IsPlain (word_len text) q text }
    ensures byte { (q : Quotes) (b : ℕ) (rest : List ℕ) → specs.IsBetween q (b ∷ rest)
        → IsOrdinary b → specs.ReadsPiece specs.IsPlain 1 q (b ∷ rest) }
{}

/// States that in quotes brackets that balance are never less deep than the place before them, and
/// that the place after them is as deep.
#[tactic(auto, using(crate::proofs::Fronts::stays_deep))]
pub fn depth_law()
    ensures { (room depth : ℕ) (named : Bool) (inside rest : List ℕ) → 0 < depth
        → depth + room ≤ 255 → Balanced room inside
        → specs.Along (specs.IsAsDeep depth) (specs.IsBack depth) (length inside)
        (specs.in_text depth named) (inside ++ rest) }
{}

/// States what the marks of a text are, and what is open at each of its places.
#[tactic(auto, using(crate::proofs::Places::marked_at, crate::proofs::Places::after_pieces, crate::proofs::Spelled::spelled_pieces))]
pub fn map_laws()
    // Each mark is that of its place.
    ensures marks { (n : ℕ) (text : List ℕ) (other : Mark) → n < length text
        → get_or (marks_of text) n other ≡ mark_of (scan_at n text) }
    // If the text up to a place consists of pieces, the next piece may begin there.
    ensures pieces { (room n : ℕ) (text : List ℕ) → room ≤ 255 → specs.ArePieces room text n
        → specs.IsBetween (scan_at n text).quotes (drop n text) }
    // A text that is read as calls and bare text consists of pieces.
    ensures spelled { (at : ℕ) (text : List ℕ) (items : List ItemValue) → IsSpelling at text items
        → specs.ArePieces 64 text (length text) }
{}
