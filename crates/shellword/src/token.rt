//! Splits a text into words, joints, bars and newlines.

ghost use Rattle.std.specs.Prelude.{◌≡◌, ◌∷◌, [], ◌++◌, ◌≤◌, drop, length, slice_index, ◌+◌, ◌<◌, false, IfOk, IfErr, List, ℕ};
ghost use Rattle.shellword.specs.Faults.{IsWordFault};
ghost use Rattle.shellword.specs.Gives.{Gives};
ghost use Rattle.shellword.specs.Text.{begins_with, ends_word};
ghost use Rattle.shellword.specs.Cut.{ampersand_at, bar_at, word_at, token_at, tokens_of};
ghost use Rattle.shellword.specs.declared.fault.ShellFault.TheVariants.{OutOfMemory};

use crate::fault::ShellFault;
use crate::front::Context;
use crate::run::{ends_word, read_run};
use crate::word::Word;
use std::alloc::Global;
use std::collections::VecDeque;
use text_cut::is_space;

/// The operator that joins a test and the element after it.
#[derive(Clone, Copy)]
pub enum Joint {
    /// `&&`: both are true.
    And,
    /// `||`: one of them is true.
    Or,
}

/// A word, or a separator of words. A joint and a bar have the offset after them.
#[derive(Drop)]
pub(crate) enum Token {
    Word(Word),
    Join(Joint, usize),
    Bar(usize),
    Newline,
}

fn begins_with(text: &[u8], byte: u8) -> bool
    ensures { result ≡ begins_with byte text.now }
{
    match text.split_first() {
        Some((first, _)) => *first == byte,
        None => false,
    }
}

/// Reads the token that begins with the `&` at offset `at`, which must be `&&`. Returns it and the
/// offset after it.
fn read_ampersand(text: &[u8], at: usize) -> Result<(Token, usize), ShellFault>
    requires { at < length text.now }
    ensures value { Gives (λ r. (r.0, r.1)) result (ampersand_at at (drop (at + 1) text.now)) }
    ensures fault { IfErr result (IsWordFault at) }
    ensures within { IfOk result (λ r. (at < r.1) × (r.1 ≤ length text.now)) }
{
    if begins_with(&text[at + 1..], b'&') {
        Ok((Token::Join(Joint::And, at + 2), at + 2))
    } else {
        Err(ShellFault::BadWord(at))
    }
}

/// Reads the token that begins with the `|` at offset `at`: `||`, or a lone bar if those are
/// allowed. Returns it and the offset after it.
fn read_bar(text: &[u8], at: usize, lone_bars: bool) -> Result<(Token, usize), ShellFault>
    requires { at < length text.now }
    ensures value { Gives (λ r. (r.0, r.1)) result (bar_at lone_bars at (drop (at + 1) text.now)) }
    ensures fault { IfErr result (IsWordFault at) }
    ensures within { IfOk result (λ r. (at < r.1) × (r.1 ≤ length text.now)) }
{
    if begins_with(&text[at + 1..], b'|') {
        Ok((Token::Join(Joint::Or, at + 2), at + 2))
    } else if lone_bars {
        Ok((Token::Bar(at + 1), at + 1))
    } else {
        Err(ShellFault::BadWord(at))
    }
}

/// Reads the word at offset `at`, where no blank and no operator begins. Returns it and the offset
/// after it.
fn read_word_at(alloc: Global, text: &[u8], at: usize) -> Result<(Token, usize), ShellFault>
    requires within { at < length text.now }
    requires word { ends_word (slice_index text.now at) ≡ false }
    ensures value { Gives (λ r. (r.0, r.1)) result (word_at at (drop at text.now)) }
    ensures fault { IfErr result (IsWordFault (length text.now)) }
    ensures within { IfOk result (λ r. (at < r.1) × (r.1 ≤ length text.now)) }
{
    let (parts, after) = read_run(alloc, text, at, Context::Bare)?;
    Ok((Token::Word(Word::from_parts(parts)), after))
}

/// Reads the token at offset `at`, where no space begins. Returns it and the offset after it.
#[tactic(auto, unfolding(crate::specs::Cut::token_at))]
fn read_token(
    alloc: Global,
    text: &[u8],
    at: usize,
    lone_bars: bool,
) -> Result<(Token, usize), ShellFault>
    requires { at < length text.now }
    ensures value { Gives (λ r. (r.0, r.1)) result
        (token_at lone_bars at (slice_index text.now at) (drop (at + 1) text.now)) }
    ensures fault { IfErr result (IsWordFault (length text.now)) }
    ensures within { IfOk result (λ r. (at < r.1) × (r.1 ≤ length text.now)) }
{
    match text[at] {
        b'\n' => Ok((Token::Newline, at + 1)),
        b'&' => read_ampersand(text, at),
        b'|' => read_bar(text, at, lone_bars),
        byte if ends_word(byte) => Err(ShellFault::BadWord(at)),
        _ => read_word_at(alloc, text, at),
    }
}

/// Splits a whole text into tokens. A lone bar is an error unless `lone_bars` is set.
pub(crate) fn read_tokens(
    alloc: Global,
    text: &[u8],
    lone_bars: bool,
) -> Result<VecDeque<Token>, ShellFault>
    ensures value { Gives (λ v. v.items) result (tokens_of lone_bars 0 0 text.now) }
    ensures fault { IfErr result (IsWordFault (length text.now)) }
{
    let mut tokens = VecDeque::new(alloc);
    let mut at = 0;
    while at < text.len() {
        if is_space(text[at]) {
            at += 1;
        } else {
            let (token, after) = read_token(alloc, text, at, lone_bars)?;
            tokens.push_back(token)?;
            at = after;
        }
    }
    Ok(tokens)
}
