//! Laws of the reading functions, for the crates above.

ghost use Rattle.std.specs.Prelude.{◌≡◌, ◌≤◌, ◌↔◌, ℕ, List, Result, Ok, Err, length, false};
ghost use Rattle.std.specs.List.{list_any};
ghost use Rattle.shellword.specs.Joining.{test_of};
ghost use Rattle.shellword.specs.Listing.{patterns_of};
ghost use Rattle.shellword.specs.Pattern.{ArePatterns};
ghost use Rattle.shellword.specs.Scan.{word_of, word_front_of, here_of};
ghost use Rattle.shellword.specs.Test.{IsTest, IsFaultOfTest};
ghost use Rattle.shellword.specs.Tokens.{AreTokens, is_bar};
ghost use Rattle.shellword.specs.Truth.{Joined};
ghost use Rattle.shellword.specs.declared.token.Token.{Token};
ghost use Rattle.shellword.specs.Word.{IsWord, IsWordFront, IsHere};
ghost use Rattle.shellword.specs.WordFaults.{IsBadWord, IsBadFront, IsBadHere};
ghost use Rattle.shellword.specs.declared.fault.ShellFault.{ShellFault};
ghost use Rattle.shellword.specs.declared.fault.ShellFault.TheVariants.{BadWord, BadPattern};
ghost use Rattle.shellword.specs.declared.part.Part.{Part};
ghost use Rattle.shellword.specs.declared.pattern.Piece.{Piece};

/// States that each reading function returns exactly what the grammar says.
pub fn readings_are_exact()
    ensures word { (text : List ℕ) (parts : List Part)
        → (word_of text ≡ Ok parts) ↔ IsWord text parts }
    ensures front { (text : List ℕ) (parts : List Part) (n : ℕ)
        → (word_front_of text ≡ Ok (parts, n)) ↔ IsWordFront text parts n }
    ensures here { (text : List ℕ) (parts : List Part)
        → (here_of text ≡ Ok parts) ↔ IsHere text parts }
    ensures test { (text : List ℕ) (test : Joined) → (test_of text ≡ Ok test) ↔ IsTest text test }
    ensures patterns { (text : List ℕ) (patterns : List (List Piece))
        → (patterns_of text ≡ Ok patterns) ↔ ArePatterns text patterns }
{}

/// States that the grammar is unambiguous: a text is at most one word, has at most one word at its
/// front, and is at most one here text, test and list of patterns.
pub fn one_reading()
    ensures word { (text : List ℕ) (a b : List Part) → IsWord text a → IsWord text b → a ≡ b }
    ensures front { (text : List ℕ) (a b : List Part) (m n : ℕ) → IsWordFront text a m
        → IsWordFront text b n → (a ≡ b) × (m ≡ n) }
    ensures here { (text : List ℕ) (a b : List Part) → IsHere text a → IsHere text b → a ≡ b }
    ensures test { (text : List ℕ) (a b : Joined) → IsTest text a → IsTest text b → a ≡ b }
    ensures patterns { (text : List ℕ) (a b : List (List Piece)) → ArePatterns text a
        → ArePatterns text b → a ≡ b }
{}

/// States which errors each reading function returns, with an offset in the text or at its end. The
/// error of a test is that of a word if and only if a word of it is rejected.
pub fn faults_are_placed()
    ensures word { (text : List ℕ) (f : ShellFault) → word_of text ≡ Err f
        → (at : ℕ) × (f ≡ BadWord at) × (at ≤ length text) }
    ensures front { (text : List ℕ) (f : ShellFault) → word_front_of text ≡ Err f
        → (at : ℕ) × (f ≡ BadWord at) × (at ≤ length text) }
    ensures here { (text : List ℕ) (f : ShellFault) → here_of text ≡ Err f
        → (at : ℕ) × (f ≡ BadWord at) × (at ≤ length text) }
    ensures test { (text : List ℕ) (f : ShellFault) → test_of text ≡ Err f → IsFaultOfTest text f }
    ensures patterns { (text : List ℕ) (f : ShellFault) → patterns_of text ≡ Err f
        → (at : ℕ) × (f ≡ BadPattern at) × (at ≤ length text) }
{}

/// States that a reading function returns an error if and only if the text has no word, no word at
/// its front or no here text, and that the offset is the one that the grammar gives.
pub fn refusals_are_exact()
    ensures word { (text : List ℕ) (at : ℕ)
        → (word_of text ≡ Err (BadWord at)) ↔ IsBadWord text at }
    ensures front { (text : List ℕ) (at : ℕ)
        → (word_front_of text ≡ Err (BadWord at)) ↔ IsBadFront text at }
    ensures here { (text : List ℕ) (at : ℕ)
        → (here_of text ≡ Err (BadWord at)) ↔ IsBadHere text at }
{}

/// States that a text split into the tokens of a test has no lone bar.
pub fn tests_have_no_bars()
    ensures { (at : ℕ) (text : List ℕ) (tokens : List Token) → AreTokens false at text tokens
        → list_any is_bar tokens ≡ false }
{}
