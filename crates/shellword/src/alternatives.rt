//! Lists of patterns, of which a text may match any.

ghost use Rattle.std.specs.Prelude.{◌≡◌, ◌==◌, ◌↔◌, IsTrue, length};
ghost use Rattle.shellword.specs.Matcher.{matches_any};
ghost use Rattle.shellword.specs.Matching.{MatchesAny};

use crate::matching::match_pieces;
use crate::pattern::Pattern;
use std::marker::Model;

/// Patterns separated by `|`, as before one list of a shell's `case`. In contracts, its value is
/// the list of the pieces of each pattern.
pub struct Patterns {
    alternatives: Vec<Pattern>,
}

impl Drop for Patterns {
    fn drop(self) {
        let Patterns {
            alternatives: _alternatives,
        } = self;
    }
}

impl Model for Patterns {
    ghost use Rattle.std.specs.Prelude.{List};
    ghost use Rattle.shellword.specs.declared.pattern.Piece.{Piece};

    ghost Value = { List (List Piece) };

    ghost view = { λ p. p.alternatives.items };
}

fn match_any(patterns: &[Pattern], text: &[u8]) -> bool
    ensures { result ≡ matches_any patterns.now text.now }
{
    patterns
        .iter()
        .any(|pattern| match_pieces(pattern.pieces(), text))
}

impl Patterns {
    /// Makes a list of the patterns of a vector, without copying them.
    pub fn from_vec(alternatives: Vec<Pattern>) -> Patterns
        ensures { result ≡ alternatives.items }
    {
        Patterns { alternatives }
    }

    /// Returns the patterns, in order.
    pub fn as_slice(&self) -> &[Pattern]
        ensures { result.now ≡ self.now }
    {
        self.alternatives.as_slice()
    }

    /// Returns the number of patterns.
    pub fn len(&self) -> usize
        ensures { result ≡ length self.now }
    {
        self.alternatives.len()
    }

    /// Returns whether there is no pattern.
    pub fn is_empty(&self) -> bool
        ensures { result ≡ (length self.now == 0) }
    {
        self.alternatives.is_empty()
    }

    /// Returns whether one of the patterns matches the whole text (POSIX shell, 2.9.4.3).
    ///
    /// For each pattern it takes the time of [`Pattern::matches`].
    #[tactic(auto, using(crate::proofs::AnyPattern::any_matches))]
    pub fn matches(&self, text: &[u8]) -> bool
        ensures value { result ≡ matches_any self.now text.now }
        ensures means { IsTrue result ↔ MatchesAny self.now text.now }
    {
        match_any(&self.alternatives, text)
    }
}
