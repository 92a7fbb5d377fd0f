//! Laws of the definitions.

ghost use Rattle.std.specs.Prelude.{◌≡◌};
ghost use Rattle.run_fingerprint.specs.Fingerprint.{Inputs, IsSizedRun, example, run_text};

/// Runs of which the same is fed rest on the same, if their lengths have a place. There are such
/// runs.
#[tactic(auto, using(crate::proofs::Apart::runs_apart, crate::proofs::Apart::example_fits))]
pub fn fingerprints()
    ensures apart { (a b : Inputs) → IsSizedRun a → IsSizedRun b → run_text a ≡ run_text b → a ≡ b }
    ensures met { IsSizedRun example }
{}
