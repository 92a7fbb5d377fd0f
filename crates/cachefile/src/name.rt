//! Names in a cache file.

ghost use Rattle.std.specs.Prelude.{◌≡◌};
ghost use Rattle.cachefile.specs.Name as words;

/// Returns whether the name begins with `ac_cv_env_`, as those do under which configure saves its
/// precious variables (own; Autoconf's manual, "Setting Output Variables", has the precious
/// variables).
#[tactic(auto, unfolding(crate::specs::Name::is_mark))]
pub fn is_mark(name: &[u8]) -> bool
    ensures { result ≡ words.is_mark name.now }
{
    // `starts_with` takes many times as long, and every name of a cache is asked.
    match name {
        [
            b'a',
            b'c',
            b'_',
            b'c',
            b'v',
            b'_',
            b'e',
            b'n',
            b'v',
            b'_',
            ..
        ] => true,
        _ => false,
    }
}
