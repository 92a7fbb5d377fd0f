//! Which warnings are that something means another thing to Autoconf, and which are left to do.

ghost use Rattle.std.specs.Prelude.{◌≡◌, map, bytes_eq};
ghost use Rattle.std.specs.List.{list_any};
ghost use Rattle.lint_table.specs.Differences as words;
ghost use Rattle.lint_table.specs.Lefts as left;

use crate::keys::{DIFFERENCES, LEFTS};

/// Returns the codes of the differences.
#[tactic(auto, unfolding(crate::specs::Differences::differences))]
fn differences() -> &'static [&'static [u8]]
    ensures { map (λ other. other.now) result.now ≡ words.differences }
{
    &DIFFERENCES
}

/// Returns the codes of the warnings about templates that are left to do.
#[tactic(auto, unfolding(crate::specs::Lefts::lefts))]
fn lefts() -> &'static [&'static [u8]]
    ensures { map (λ other. other.now) result.now ≡ left.lefts }
{
    &LEFTS
}

/// Returns whether a code is one of these.
fn has(codes: &[&[u8]], code: &[u8]) -> bool
    ensures { result ≡ list_any (λ other. bytes_eq other.now code.now) codes.now }
{
    codes.iter().any(|other| *other == code)
}

/// Returns whether a code is that of a warning that something means another thing to Autoconf.
pub fn is_difference(code: &[u8]) -> bool
    ensures { result ≡ words.is_difference code.now }
{
    has(differences(), code)
}

/// Returns whether a code is that of a warning about a template that is left to do.
pub fn is_left(code: &[u8]) -> bool
    ensures { result ≡ left.is_left code.now }
{
    has(lefts(), code)
}
