//! Which files a run has for itself.

ghost use Rattle.std.specs.Prelude.{◌≡◌};
ghost use Rattle.crew_launch.specs.Own as meant;
ghost use Rattle.crew_launch.specs.Own.{ConftestsAreOwn};

/// Returns whether a run has the file of this name for itself: the name begins with `conftest`, and
/// has no slash.
#[tactic(auto, unfolding(crate::specs::Own::is_own))]
pub(crate) fn is_own(name: &str) -> bool
    ensures { result ≡ meant.is_own name.now }
{
    let name = name.as_bytes();
    name.starts_with(b"conftest") && !name.contains(&b'/')
}

/// No conftest of a job is refused for its name.
#[tactic(auto, using(crate::proofs::OwnNames::conftests_are_own))]
pub fn conftests_are_own()
    ensures { ConftestsAreOwn }
{}
