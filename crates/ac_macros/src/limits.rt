//! The limits of a source's lists, kept by each statement.

ghost use Rattle.std.specs.Prelude.{◌≡◌, ℕ, ◌≤◌, List, length, Ok};
ghost use Rattle.m4quote.specs.ItemValue.{Span};
ghost use Rattle.ac_macros.specs.declared.macros.PlainMacro.{PlainMacro};
ghost use Rattle.ac_macros.specs.declared.macros.QuestionMacro.{QuestionMacro};
ghost use Rattle.ac_tree.specs.declared.declarations.Declarations.{Declarations};
ghost use Rattle.ac_tree.specs.declared.statement.Declares.{Declares};
ghost use Rattle.ac_tree.specs.declared.statement.Effect.{Effect};
ghost use Rattle.ac_tree.specs.declared.statement.Question.{Question};
ghost use Rattle.ac_tree.specs.Limits.{IsWithinLimits};
ghost use Rattle.ac_macros.specs.Rows.{plain_of, question_of};
ghost use Rattle.ac_tree.specs.Lists.{start, after};

/// Every statement that is read leaves the lists of the source within their limits. The list of
/// precious variables needs no check of its own, since each precious variable is an output
/// variable.
#[tactic(auto, using(crate::proofs::LimitLemmas::start_fits, crate::proofs::LimitLemmas::precious_count))]
pub fn lists_are_within_limits()
    ensures start { IsWithinLimits start }
    ensures statement { (c : Declarations) (m : PlainMacro) (at : ℕ) (args : List Span)
        (d : Declares) (e : Effect) → plain_of c m at args ≡ Ok (d, e) → IsWithinLimits c
        → IsWithinLimits (after c d) }
    ensures question { (c : Declarations) (m : QuestionMacro) (args : List Span) (d : Declares)
        (q : Question) → question_of c m args ≡ Ok (d, q) → IsWithinLimits c
        → IsWithinLimits (after c d) }
    ensures precious { (c : Declarations) → IsWithinLimits c → length c.precious ≤ 1024 }
{}
