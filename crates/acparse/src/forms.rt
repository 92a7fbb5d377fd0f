//! What every source keeps that can be read: a law, for the crates above.

ghost use Rattle.std.specs.Prelude.{◌≡◌, ℕ, List, Ok};
ghost use Rattle.ac_tree.specs.Commands.{HasCommands};
ghost use Rattle.ac_tree.specs.Script.{Script};
ghost use Rattle.ac_tree.specs.TestNames.{HasTestNames};
ghost use Rattle.acparse.specs.Profile.{source_of};

/// States that in every source each AC_CACHE_CHECK has a cache name and commands that set it and do
/// nothing else, and that the variable of each program that is looked for is a shell name.
pub fn sources_have_forms()
    ensures commands { (text : List ℕ) (s : Script) → source_of text ≡ Ok s → HasCommands s }
    ensures names { (text : List ℕ) (s : Script) → source_of text ≡ Ok s → HasTestNames s }
{}
