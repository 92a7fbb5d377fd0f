//! Matches several patterns against a text.

ghost use Rattle.std.specs.Prelude.{◌≡◌, ◌↔◌, IfOk, IsTrue};
ghost use Rattle.shellword.specs.Matcher.{matches_any};
ghost use Rattle.shellword.specs.Matching.{MatchesAny};

use crate::parts::match_parts;
use shellword::{Pattern, Patterns};
use std::alloc::{AllocError, Global};

fn matches_some(alloc: Global, patterns: &[Pattern], text: &[u8]) -> Result<bool, AllocError>
    ensures { IfOk result (λ b. b ≡ matches_any patterns.now text.now) }
{
    for pattern in patterns {
        if match_parts(alloc, pattern.pieces(), text)? {
            return Ok(true);
        }
    }
    Ok(false)
}

/// Returns whether one of the patterns matches the whole text (POSIX shell, 2.9.4.3).
///
/// For each pattern the time is in proportion to the length of the text and that of the pattern, if
/// no piece of the pattern is `?`. Otherwise it is at worst in proportion to the length of the
/// pattern, and to that of the text times the number of parts between `*` and `?`.
///
/// # Errors
///
/// Fails only if memory runs out.
#[tactic(auto, using(shellword::proofs::AnyPattern::any_matches))]
pub fn matches_any(alloc: Global, patterns: &Patterns, text: &[u8]) -> Result<bool, AllocError>
    ensures value { IfOk result (λ b. b ≡ matches_any patterns.now text.now) }
    ensures means { IfOk result (λ b. IsTrue b ↔ MatchesAny patterns.now text.now) }
{
    matches_some(alloc, patterns.as_slice(), text)
}
