//! Tests: elements joined by `&&` and `||`.

ghost use Rattle.std.specs.Prelude.{◌≡◌, ◌≢◌, ◌≤◌, ◌∷◌, [], ◌++◌, ℕ, List, None, Ok, Err, take, length, IfOk, IfErr, if◌then◌else◌};
ghost use Rattle.std.specs.List.{list_all};
ghost use Rattle.shellword.specs.Faults.{IsTestFault};
ghost use Rattle.shellword.specs.Gives.{Gives};
ghost use Rattle.shellword.specs.Joining.{with_element, ended, joining, test_of};
ghost use Rattle.shellword.specs.Nested.{nested};
ghost use Rattle.shellword.specs.Test.{IsTest, IsFaultOfTest};
ghost use Rattle.shellword.specs.Tokens.{is_newline};
ghost use Rattle.shellword.specs.Truth.{Joined, single, joined, joint_truth, truth};
ghost use Rattle.shellword.specs.declared.fault.ShellFault.TheVariants.{BadTest, OutOfMemory};

use crate::element::{Element, element_of};
use crate::fault::ShellFault;
use crate::token::{Joint, Token, read_tokens};
use crate::word::Word;
use deftable::Vars;
use std::alloc::{AllocError, Global};
use std::collections::VecDeque;
use std::marker::Model;
use std::mem;

/// A test. In contracts, its value is an element, or a test joined with another element.
pub struct Test {
    first: Element,
    /// Each later element, with the joint before it.
    rest: Vec<(Joint, Element)>,
}

impl Drop for Test {
    fn drop(self) {
        let Test {
            first: _first,
            rest: _rest,
        } = self;
    }
}

impl Model for Test {
    ghost use Rattle.std.specs.Prelude.{List};
    ghost use Rattle.std.specs.Coded.{code_by, coded×, coded_list};
    ghost use Rattle.shellword.specs.declared.element.Element.{Element};
    ghost use Rattle.shellword.specs.declared.token.Joint.{Joint};
    ghost use Rattle.shellword.specs.contracts.element.Element as element;
    ghost use Rattle.shellword.specs.contracts.token.Joint as joint;
    ghost use Rattle.shellword.specs.Nested.{nested, flat, nested_pair, nested_pair-flat};
    ghost use Rattle.shellword.specs.Truth.{Joined, single};

    ghost Value = { Joined };

    ghost coded = { code_by (Element × List (Joint × Element)) (coded× element.the_row.coded (coded_list (coded× joint.the_row.coded element.the_row.coded))) flat nested_pair nested_pair-flat };

    ghost view = { λ t. nested (single t.first) t.rest.items };
}

fn joint_holds(left: bool, joint: Joint, right: bool) -> bool
    ensures { result ≡ joint_truth left joint right }
{
    match joint {
        Joint::And => left && right,
        Joint::Or => left || right,
    }
}

/// Returns whether the first element, joined with each of the rest from the left, is true.
fn holds_all(
    alloc: Global,
    first: &Element,
    rest: &[(Joint, Element)],
    vars: &Vars,
) -> Result<bool, AllocError>
    ensures { IfOk result (λ b. b ≡ truth (nested (single first.now) rest.now) vars.now) }
{
    let mut holds = first.holds(alloc, vars)?;
    for next in rest {
        let right = next.1.holds(alloc, vars)?;
        holds = joint_holds(holds, next.0, right);
    }
    Ok(holds)
}

impl Test {
    fn single(alloc: Global, first: Element) -> Test
        ensures { result ≡ single first }
    {
        Test {
            first,
            rest: Vec::new(alloc),
        }
    }

    fn joined(mut self, joint: Joint, element: Element) -> Result<Test, ShellFault>
        ensures ok { IfOk result (λ t. t ≡ joined self joint element) }
        ensures err { IfErr result (λ e. e ≡ OutOfMemory) }
    {
        self.rest.push((joint, element))?;
        Ok(self)
    }

    /// Returns the first element, and each later one with the joint before it.
    pub fn elements(&self) -> (&Element, &[(Joint, Element)])
        ensures { self.now ≡ nested (single result.0.now) result.1.now }
    {
        (&self.first, self.rest.as_slice())
    }

    /// Returns whether the test is true with these variables. `&&` and `||` have equal precedence
    /// and group from the left (POSIX shell, 2.9.3).
    pub fn holds(&self, alloc: Global, vars: &Vars) -> Result<bool, AllocError>
        ensures { IfOk result (λ b. b ≡ truth self.now vars.now) }
    {
        holds_all(alloc, &self.first, &self.rest, vars)
    }
}

/// Joins an element to the test that `before` contains, if any.
fn with_element(
    alloc: Global,
    before: Option<(Test, Joint)>,
    element: Element,
) -> Result<Test, ShellFault>
    ensures ok { IfOk result (λ t. t ≡ with_element before element) }
    ensures err { IfErr result (λ e. e ≡ OutOfMemory) }
{
    match before {
        None => Ok(Test::single(alloc, element)),
        Some((test, joint)) => test.joined(joint, element),
    }
}

/// Ends an element of these words, which begins at offset `at`, and returns the test up to it.
/// Takes the words, and takes the test from `before`.
fn end_element(
    alloc: Global,
    before: &mut Option<(Test, Joint)>,
    words: &mut VecDeque<Word>,
    at: usize,
) -> Result<Test, ShellFault>
    ensures value { Gives (λ t. t) result (ended before.old words.old.items at) }
    ensures fault { IfErr result (IsTestFault at) }
    ensures taken { words.new.items ≡ [] }
{
    let words = mem::replace(words, VecDeque::new(alloc));
    match element_of(words) {
        Some(element) => with_element(alloc, before.take(), element),
        None => Err(ShellFault::BadTest(at)),
    }
}

fn are_newlines(tokens: &mut VecDeque<Token>) -> bool
    ensures { result ≡ list_all is_newline tokens.old.items }
{
    while let Some(token) = tokens.pop_front() {
        match token {
            Token::Newline => {}
            _ => return false,
        }
    }
    true
}

/// Ends the test at the newline after these words, if only newlines follow.
fn end_line(
    alloc: Global,
    before: &mut Option<(Test, Joint)>,
    words: &mut VecDeque<Word>,
    at: usize,
    tokens: &mut VecDeque<Token>,
) -> Result<Test, ShellFault>
    ensures value { Gives (λ t. t) result (
        if list_all is_newline tokens.old.items then ended before.old words.old.items at else Err
        (BadTest at)) }
{
    if are_newlines(tokens) {
        end_element(alloc, before, words, at)
    } else {
        Err(ShellFault::BadTest(at))
    }
}

/// Returns the test that the tokens form, after `before` and the words of an element that begins at
/// offset 0. Takes the tokens, the words and the test in `before`.
fn join_all(
    alloc: Global,
    before: &mut Option<(Test, Joint)>,
    words: &mut VecDeque<Word>,
    tokens: &mut VecDeque<Token>,
) -> Result<Test, ShellFault>
    ensures value { Gives (λ t. t) result (joining before.old words.old.items 0 tokens.old.items) }
{
    let mut at = 0;
    while let Some(token) = tokens.pop_front() {
        match token {
            Token::Word(word) => {
                words.push_back(word)?;
            }
            Token::Join(joint, after) => {
                let test = end_element(alloc, before, words, at)?;
                *before = Some((test, joint));
                at = after;
            }
            // A test's tokens contain no lone bar: `tests_have_no_bars`.
            Token::Bar(_) => return Err(ShellFault::BadTest(at)),
            Token::Newline if words.is_empty() => {}
            Token::Newline => return end_line(alloc, before, words, at, tokens),
        }
    }
    end_element(alloc, before, words, at)
}

/// Returns the test that the tokens of a text form.
fn join_tokens(alloc: Global, mut tokens: VecDeque<Token>) -> Result<Test, ShellFault>
    ensures value { Gives (λ t. t) result (joining None [] 0 tokens.items) }
{
    let mut before = None;
    let mut words = VecDeque::new(alloc);
    join_all(alloc, &mut before, &mut words, &mut tokens)
}

#[tactic(auto, unfolding(crate::specs::Joining::test_of))]
fn read_whole(alloc: Global, text: &[u8]) -> Result<Test, ShellFault>
    ensures exact { Gives (λ t. t) result (test_of text.now) }
    ensures fault { IfErr result (IsFaultOfTest text.now) }
{
    let tokens = read_tokens(alloc, text, false)?;
    join_tokens(alloc, tokens)
}

/// Reads a test (POSIX shell, 2.9.3, and POSIX, `test`, by the number of its words).
///
/// A test is a list of elements joined by `&&` and `||`, which have equal precedence and group from
/// the left. Newlines may come at both ends and after a joint. An element is `:`, `true`, `false`,
/// `test` with one to four words, or `!` before an element.
///
/// # Errors
///
/// Returns [`ShellFault::BadWord`] with the offset of the first of these, if the text has any:
///
/// - a backquote or a `$` that is an error of [`read_word`](crate::read_word);
/// - outside quotes, one of `;`, `<`, `>`, `(` and `)`, or a lone `&` or `|`;
/// - the end of the text, if a quote is open there.
///
/// Otherwise, returns [`ShellFault::BadTest`] if the words and joints aren't a test. The offset is
/// that after the joint before the wrong element, or 0.
pub fn read_test(alloc: Global, text: &[u8]) -> Result<Test, ShellFault>
    // The result as one function of the text.
    ensures exact { Gives (λ t. t) result (test_of text.now) }
    // If a test is returned, the text is that test.
    ensures sound { IfOk result (IsTest text.now) }
    // If the text is a test, it is returned unless memory runs out.
    ensures complete { (test : Joined) → IsTest text.now test → Gives (λ t. t) result (Ok test) }
    // Which of the two errors is returned, with an offset in the text or at its end.
    ensures fault { IfErr result (IsFaultOfTest text.now) }
{
    read_whole(alloc, text)
}
