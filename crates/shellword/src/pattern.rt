//! Patterns, as in a shell's `case`.

ghost use Rattle.std.specs.Prelude.{◌≡◌, ◌++◌, ◌↔◌, List, Ok, IfOk, IfErr, IsTrue, length, drop};
ghost use Rattle.shellword.specs.Faults.{IsPatternFault};
ghost use Rattle.shellword.specs.Gives.{Gives};
ghost use Rattle.shellword.specs.Matching.{Matches};
ghost use Rattle.shellword.specs.Listing.{pieces_or, word_in, after_bar, alternatives, in_pattern, patterns_of};
ghost use Rattle.shellword.specs.Pattern.{ArePatterns};
ghost use Rattle.shellword.specs.Pieces.{piece_of, pieces_of};
ghost use Rattle.shellword.specs.declared.pattern.Piece.{Piece};

use crate::fault::ShellFault;
use crate::matching::match_pieces;
use crate::part::Part;
use crate::token::{Token, read_tokens};
use crate::word::Word;
use std::alloc::Global;
use std::collections::VecDeque;
use std::marker::Model;

/// A piece of a pattern: what it matches.
#[derive(Clone, Copy)]
pub enum Piece {
    /// `*`: any bytes, or none.
    AnyBytes,
    /// `?`: one byte.
    OneByte,
    /// The byte itself.
    Byte(u8),
}

/// One pattern of a list of patterns. In contracts, its value is the list of its pieces.
pub struct Pattern {
    pieces: Vec<Piece>,
}

impl Drop for Pattern {
    fn drop(self) {
        let Pattern { pieces: _pieces } = self;
    }
}

impl Model for Pattern {
    ghost use Rattle.std.specs.Prelude.{List};
    ghost use Rattle.shellword.specs.declared.pattern.Piece.{Piece};

    ghost Value = { List Piece };

    ghost view = { λ p. p.pieces.items };
}

impl Pattern {
    /// Returns whether the pattern matches the whole text (POSIX shell, 2.14).
    ///
    /// The time is at worst in proportion to the length of the text times that of the pattern.
    pub fn matches(&self, text: &[u8]) -> bool
        ensures { IsTrue result ↔ Matches self.now text.now }
    {
        match_pieces(&self.pieces, text)
    }

    /// Returns the pieces of the pattern, in order.
    pub fn pieces(&self) -> &[Piece]
        ensures { result.now ≡ self.now }
    {
        self.pieces.as_slice()
    }
}

fn piece_of(part: &Part) -> Option<Piece>
    ensures { result ≡ piece_of part.now }
{
    match part {
        Part::Plain(b'*') => Some(Piece::AnyBytes),
        Part::Plain(b'?') => Some(Piece::OneByte),
        Part::Plain(b'[' | b']') | Part::Variable(_) => None,
        Part::Plain(byte) | Part::Quoted(byte) => Some(Piece::Byte(*byte)),
    }
}

/// Returns the pattern of a word that begins at offset `at`.
fn pattern_of(alloc: Global, parts: &[Part], at: usize) -> Result<Pattern, ShellFault>
    ensures { Gives (λ p. p) result (pieces_or at (pieces_of parts.now)) }
{
    let mut pieces = Vec::new(alloc);
    for part in parts {
        let Some(piece) = piece_of(part) else {
            return Err(ShellFault::BadPattern(at));
        };
        pieces.push(piece)?;
    }
    Ok(Pattern { pieces })
}

fn word_in(token: Token) -> Option<Word>
    ensures { result ≡ word_in token }
{
    match token {
        Token::Word(word) => Some(word),
        _ => None,
    }
}

fn after_bar(token: Token) -> Option<usize>
    ensures { result ≡ after_bar token }
{
    match token {
        Token::Bar(after) => Some(after),
        _ => None,
    }
}

/// Returns the patterns that the tokens of a text list.
fn alternatives_of(alloc: Global, mut tokens: VecDeque<Token>) -> Result<Vec<Pattern>, ShellFault>
    ensures { Gives (λ v. v.items) result (alternatives 0 tokens.items) }
{
    let mut patterns = Vec::new(alloc);
    let mut at = 0;
    // The label is for the proof only.
    'alternatives: loop {
        let Some(token) = tokens.pop_front() else {
            return Err(ShellFault::BadPattern(at));
        };
        let Some(word) = word_in(token) else {
            return Err(ShellFault::BadPattern(at));
        };
        let pattern = pattern_of(alloc, word.parts(), at)?;
        patterns.push(pattern)?;
        let Some(token) = tokens.pop_front() else {
            return Ok(patterns);
        };
        let Some(after) = after_bar(token) else {
            return Err(ShellFault::BadPattern(at));
        };
        at = after;
    }
}

/// Returns the error of a word as that of a list of patterns.
fn in_pattern(fault: ShellFault) -> ShellFault
    ensures { result ≡ in_pattern fault }
{
    match fault {
        ShellFault::BadWord(at) => ShellFault::BadPattern(at),
        other => other,
    }
}

/// Reads a text as a list of patterns.
#[tactic(auto, unfolding(crate::specs::Listing::patterns_of))]
fn read_whole(alloc: Global, text: &[u8]) -> Result<Vec<Pattern>, ShellFault>
    ensures exact { Gives (λ v. v.items) result (patterns_of text.now) }
    ensures fault { IfErr result (IsPatternFault (length text.now)) }
{
    match read_tokens(alloc, text, true) {
        Ok(tokens) => alternatives_of(alloc, tokens),
        Err(fault) => Err(in_pattern(fault)),
    }
}

/// Reads a list of patterns (POSIX shell, 2.9.4.3 and 2.14): alternatives separated by `|`, with
/// spaces and tabs around them. Unless they are quoted, `*` matches any bytes and `?` one byte.
/// Every other byte matches itself.
///
/// # Errors
///
/// Returns [`ShellFault::BadPattern`] with the offset of the first of these, if the text has any:
///
/// - a backquote or a `$` that is an error of [`read_word`](crate::read_word);
/// - outside quotes, one of `;`, `<`, `>`, `(` and `)`, or a lone `&`;
/// - the end of the text, if a quote is open there.
///
/// Otherwise, returns [`ShellFault::BadPattern`] for the first alternative that has a variable, an
/// unquoted bracket, an unquoted blank within it, an unquoted newline, `&&` or `||`, or no byte
/// (`''` has two, and matches the empty text). The offset is that after the bar before the
/// alternative, or 0.
pub fn read_patterns(alloc: Global, text: &[u8]) -> Result<Vec<Pattern>, ShellFault>
    // The result as one function of the text.
    ensures exact { Gives (λ v. v.items) result (patterns_of text.now) }
    // If patterns are returned, the text lists them.
    ensures sound { IfOk result (λ v. ArePatterns text.now v.items) }
    // If the text lists patterns, they are returned unless memory runs out.
    ensures complete { (patterns : List (List Piece)) → ArePatterns text.now patterns
        → Gives (λ v. v.items) result (Ok patterns) }
    ensures fault { IfErr result (IsPatternFault (length text.now)) }
{
    read_whole(alloc, text)
}
