//! Laws of the definitions.

ghost use Rattle.std.specs.Prelude.{ℕ, List};
ghost use Rattle.options_line.specs.CommandLine.{Setting, GivesSettings};
ghost use Rattle.options_line.specs.KeptSettings.{GivesKept};

/// If arguments give settings, those that are kept give the same settings without `--no-create`.
pub fn kept_settings()
    ensures { (i j : ℕ) (arguments : List (List ℕ)) (settings : List Setting)
        → GivesSettings i arguments settings → GivesKept j arguments settings }
{}
