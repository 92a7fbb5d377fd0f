//! The form of the names of cached values.

ghost use Rattle.std.specs.Prelude.{◌≡◌, drop, codes, nat_eq};
ghost use Rattle.std.specs.List.{starts_with};
ghost use Rattle.deftable.specs.CacheName as words;

use crate::shell_name::is_shell_name;

/// Returns whether the text begins with `_cv_`.
fn begins_cv(text: &[u8]) -> bool
    ensures { result ≡ starts_with nat_eq text.now (codes "_cv_") }
{
    match text {
        [b'_', b'c', b'v', b'_', ..] => true,
        _ => false,
    }
}

/// Returns whether the text contains `_cv_`.
#[tactic(auto, using(crate::proofs::CacheNames::cv_more, crate::proofs::CacheNames::cv_stop, crate::proofs::CacheNames::cv_end))]
fn has_cv(text: &[u8]) -> bool
    ensures { result ≡ words.has_cv text.now }
{
    for i in 0..text.len() {
        if begins_cv(&text[i..]) {
            return true;
        }
    }
    false
}

/// Returns whether the text is a cache name: a shell name that contains `_cv_` (Autoconf's manual,
/// "Cache Variable Names").
#[tactic(auto, unfolding(crate::specs::CacheName::is_cache_name))]
pub fn is_cache_name(name: &[u8]) -> bool
    ensures value { result ≡ words.is_cache_name name.now }
{
    is_shell_name(name) && has_cv(name)
}
