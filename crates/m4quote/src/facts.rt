//! Laws of the definitions. The functions do nothing; their contracts are the laws.

ghost use Rattle.std.specs.Prelude.{◌≡◌, ◌≢◌, ◌⊎◌, ◌↔◌, ℕ, List, Ok, Err};
ghost use Rattle.m4quote.specs.declared.fault.QuoteFault.{QuoteFault};
ghost use Rattle.m4quote.specs.declared.fault.QuoteFault.TheVariants.{OutOfMemory, UnclosedQuote};
ghost use Rattle.m4quote.specs.ItemValue.{ItemValue};
ghost use Rattle.m4quote.specs.Spelling.{IsSpelling};
ghost use Rattle.m4quote.specs.Parts.{ArePartsOf};
ghost use Rattle.m4quote.specs.Faults.{IsFirstFault, IsBracketFault};
ghost use Rattle.m4quote.specs.Used.{IsUsed, UseBreaks, Unquotes, IsBareValue, UnquoteBreaks};
ghost use Rattle.m4quote.specs.Scan.{outcome, used, bare_value_of};

/// States that a text spells at most one list of items, has at most one first fault, and never
/// both.
#[tactic(auto, using(crate::proofs::Laws::one_list, crate::proofs::Laws::one_fault, crate::proofs::Laws::never_both))]
pub fn one_reading()
    ensures one_list { (at : ℕ) (text : List ℕ) (a b : List ItemValue) → IsSpelling at text a
        → IsSpelling at text b → a ≡ b }
    ensures one_fault { (at : ℕ) (text : List ℕ) (f g : QuoteFault) → IsFirstFault at text f
        → IsFirstFault at text g → f ≡ g }
    ensures never_both { (at : ℕ) (text : List ℕ) (items : List ItemValue) (f : QuoteFault)
        → IsSpelling at text items → IsFirstFault at text f → ⊥ }
{}

/// States that each text spells a list of items or has a first fault.
pub fn some_reading()
    ensures { (at : ℕ) (text : List ℕ)
        → ((items : List ItemValue) × IsSpelling at text items)
        ⊎ ((f : QuoteFault) × IsFirstFault at text f) }
{}

/// States that the function `outcome` agrees with the relations for the items and the first fault
/// of a text.
#[tactic(auto, using(crate::proofs::Laws::spelling_parts, crate::proofs::Laws::fault_is_not_memory))]
pub fn reading_laws()
    ensures items { (at : ℕ) (text : List ℕ) (items : List ItemValue)
        → (outcome at text ≡ Ok items) ↔ IsSpelling at text items }
    ensures fault { (at : ℕ) (text : List ℕ) (f : QuoteFault)
        → (outcome at text ≡ Err f) ↔ IsFirstFault at text f }
    ensures parts { (at : ℕ) (text : List ℕ) (items : List ItemValue) → IsSpelling at text items
        → ArePartsOf at text items }
    ensures no_memory { (at : ℕ) (text : List ℕ) (f : QuoteFault) → IsFirstFault at text f
        → f ≢ OutOfMemory }
{}

/// States that the function `used` agrees with the relations for the used text of an argument.
#[tactic(auto, using(crate::proofs::Laws::use_fault_kind, crate::proofs::Laws::second_closes, crate::proofs::Laws::use_fault_is_not_memory))]
pub fn used_laws()
    ensures text { (arg out : List ℕ) → (used arg ≡ Ok out) ↔ IsUsed arg out }
    ensures fault { (arg : List ℕ) (f : QuoteFault) → (used arg ≡ Err f) ↔ UseBreaks arg f }
    ensures kinds { (arg : List ℕ) (f : QuoteFault) → UseBreaks arg f → IsBracketFault arg f }
    // A text without its outermost quotes has no unclosed quote.
    ensures closed { (arg once : List ℕ) (at place : ℕ) → Unquotes arg once
        → UnquoteBreaks at once (UnclosedQuote place) → ⊥ }
    ensures no_memory { (arg : List ℕ) (f : QuoteFault) → UseBreaks arg f → f ≢ OutOfMemory }
{}

/// States that the function `bare_value_of` agrees with the relations for the value of bare text.
#[tactic(auto, using(crate::proofs::Laws::bare_fault_kind, crate::proofs::Laws::bare_fault_is_not_memory))]
pub fn bare_value_laws()
    ensures value { (text out : List ℕ) → (bare_value_of text ≡ Ok out) ↔ IsBareValue text out }
    ensures fault { (text : List ℕ) (f : QuoteFault)
        → (bare_value_of text ≡ Err f) ↔ UnquoteBreaks 0 text f }
    ensures kinds { (text : List ℕ) (f : QuoteFault) → UnquoteBreaks 0 text f
        → IsBracketFault text f }
    ensures no_memory { (text : List ℕ) (f : QuoteFault) → UnquoteBreaks 0 text f
        → f ≢ OutOfMemory }
{}
