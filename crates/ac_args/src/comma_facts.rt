//! A law of the definitions. The function does nothing; its contract is the law.

ghost use Rattle.std.specs.Prelude.{◌≡◌, ◌↔◌, ℕ, List};
ghost use Rattle.ac_args.specs.Commas.{AreParts, comma_parts};

/// States that a text has one list of parts: those that give it back when they are joined by
/// commas, if each comma in a part is inside parentheses of that part, and every part but the last
/// has closed the parentheses that it opens.
pub fn comma_laws()
    ensures parts { (text : List ℕ) (parts : List (List ℕ))
        → (comma_parts text ≡ parts) ↔ AreParts text parts }
{}
