//! What holds of each tree.

ghost use Rattle.std.specs.Prelude.{◌≡◌, ℕ, List};
ghost use Rattle.ac_parts.specs.declared.kind.Part.{Part};
ghost use Rattle.ac_parts.specs.Trees.{IsTree, text_of};

/// States that the leaves of a tree are its text byte for byte.
#[tactic(auto, using(crate::proofs::Texts::tree_text))]
pub fn text_law()
    ensures { (text : List ℕ) (parts : List Part) → IsTree text parts → text_of text parts ≡ text }
{}
