//! The elements of a test.

ghost use Rattle.std.specs.Prelude.{◌≡◌, ◌==◌, ◌∷◌, [], List, false, length, option_map, bytes_eq, IfOk};
ghost use Rattle.shellword.specs.Element.{part_is, word_is, negated, negated_if, one_word, two_words, three_words, four_words, condition_of, constant_of, command_of, element_of};
ghost use Rattle.shellword.specs.Value.{word_value};
ghost use Rattle.shellword.specs.Truth.{condition_truth, element_truth};

use crate::word::Word;
use deftable::Vars;
use std::alloc::{AllocError, Global};
use std::collections::VecDeque;

/// The condition of an element of a test.
#[derive(Drop)]
pub enum Condition {
    /// `:` or `true`.
    True,
    /// `false`.
    False,
    /// `test W` or `test -n W`.
    Nonempty(Word),
    /// `test -z W`.
    Empty(Word),
    /// `test V = W`.
    Equal(Word, Word),
    /// `test V != W`.
    Different(Word, Word),
}

/// An element of a test: a condition that must hold, or one that must not.
#[derive(Drop)]
pub struct Element {
    /// Whether the number of `!` before the condition is odd.
    pub negated: bool,
    /// The condition without the `!` before it.
    pub condition: Condition,
}

impl Element {
    fn plainly(condition: Condition) -> Element
        ensures { result ≡ record { negated = false; condition = condition } }
    {
        Element {
            negated: false,
            condition,
        }
    }

    fn negate(self) -> Element
        ensures { result ≡ negated self }
    {
        Element {
            negated: !self.negated,
            condition: self.condition,
        }
    }

    /// Returns whether the element is true with these variables (POSIX shell, 2.9.2).
    pub fn holds(&self, alloc: Global, vars: &Vars) -> Result<bool, AllocError>
        ensures { IfOk result (λ b. b ≡ element_truth self.now vars.now) }
    {
        let holds = self.condition.holds(alloc, vars)?;
        Ok(holds != self.negated)
    }
}

impl Condition {
    /// Returns whether the condition is true with these variables (POSIX, `test`).
    pub fn holds(&self, alloc: Global, vars: &Vars) -> Result<bool, AllocError>
        ensures { IfOk result (λ b. b ≡ condition_truth self.now vars.now) }
    {
        match self {
            Condition::True => Ok(true),
            Condition::False => Ok(false),
            Condition::Nonempty(word) => Ok(!is_empty(alloc, word, vars)?),
            Condition::Empty(word) => is_empty(alloc, word, vars),
            Condition::Equal(left, right) => are_equal(alloc, left, right, vars),
            Condition::Different(left, right) => Ok(!are_equal(alloc, left, right, vars)?),
        }
    }
}

/// Returns whether the value of a word is empty.
fn is_empty(alloc: Global, word: &Word, vars: &Vars) -> Result<bool, AllocError>
    ensures { IfOk result (λ b. b ≡ (length (word_value word.now vars.now) == 0)) }
{
    let value = word.value(alloc, vars)?;
    Ok(value.is_empty())
}

/// Returns whether two words have the same value.
fn are_equal(alloc: Global, left: &Word, right: &Word, vars: &Vars) -> Result<bool, AllocError>
    ensures { IfOk result (λ b.
        b ≡ bytes_eq (word_value left.now vars.now) (word_value right.now vars.now)) }
{
    let left = left.value(alloc, vars)?;
    let right = right.value(alloc, vars)?;
    Ok(left.as_slice() == right.as_slice())
}

/// Returns the element of `test` with one word: the word isn't empty.
fn one_word(a: Word) -> Element
    ensures { result ≡ one_word a }
{
    Element::plainly(Condition::Nonempty(a))
}

fn two_words(a: Word, b: Word) -> Option<Element>
    ensures { result ≡ two_words a b }
{
    if a.is(b"-n") {
        Some(Element::plainly(Condition::Nonempty(b)))
    } else if a.is(b"-z") {
        Some(Element::plainly(Condition::Empty(b)))
    } else if a.is(b"!") {
        Some(one_word(b).negate())
    } else {
        None
    }
}

fn three_words(a: Word, b: Word, c: Word) -> Option<Element>
    ensures { result ≡ three_words a b c }
{
    if b.is(b"=") {
        Some(Element::plainly(Condition::Equal(a, c)))
    } else if b.is(b"!=") {
        Some(Element::plainly(Condition::Different(a, c)))
    } else if a.is(b"!") {
        negated(two_words(b, c))
    } else {
        None
    }
}

fn four_words(a: Word, b: Word, c: Word, d: Word) -> Option<Element>
    ensures { result ≡ four_words a b c d }
{
    if a.is(b"!") {
        negated(three_words(b, c, d))
    } else {
        None
    }
}

fn negated_if(negate: bool, element: Option<Element>) -> Option<Element>
    ensures { result ≡ option_map (negated_if negate) element }
{
    if negate { negated(element) } else { element }
}

fn negated(element: Option<Element>) -> Option<Element>
    ensures { result ≡ option_map negated element }
{
    match element {
        Some(element) => Some(element.negate()),
        None => None,
    }
}

/// Returns the element of `test` with these words, of which `a` is the first, or `None` if they are
/// no condition.
fn condition_of(a: Word, mut words: VecDeque<Word>) -> Option<Element>
    ensures { result ≡ condition_of a words.items }
{
    let Some(b) = words.pop_front() else {
        return Some(one_word(a));
    };
    let Some(c) = words.pop_front() else {
        return two_words(a, b);
    };
    let Some(d) = words.pop_front() else {
        return three_words(a, b, c);
    };
    if words.is_empty() {
        four_words(a, b, c, d)
    } else {
        None
    }
}

/// Returns the element of a command without words, or `None` if it is another command.
fn constant_of(word: Word) -> Option<Element>
    ensures { result ≡ constant_of word }
{
    if word.is(b":") || word.is(b"true") {
        Some(Element::plainly(Condition::True))
    } else if word.is(b"false") {
        Some(Element::plainly(Condition::False))
    } else {
        None
    }
}

/// Returns the element of a command with these words, or `None` if they are no element.
fn command_of(word: Word, mut words: VecDeque<Word>) -> Option<Element>
    ensures { result ≡ command_of word words.items }
{
    let Some(first) = words.pop_front() else {
        return constant_of(word);
    };
    if word.is(b"test") {
        condition_of(first, words)
    } else {
        None
    }
}

/// Returns the element that these words form, or `None` if they form none.
pub(crate) fn element_of(mut words: VecDeque<Word>) -> Option<Element>
    ensures { result ≡ element_of words.items }
{
    let mut negated = false;
    while let Some(word) = words.pop_front() {
        if word.is(b"!") {
            negated = !negated;
        } else {
            return negated_if(negated, command_of(word, words));
        }
    }
    None
}
