//! Whether the variables that a text or a test reads may be read.

ghost use Rattle.std.specs.Prelude.{◌≡◌, ◌&&◌};
ghost use Rattle.std.specs.List.{list_all};
ghost use Rattle.ac_tree.specs.Decide as decide;
ghost use Rattle.ac_tree.specs.Uses.{texts_read};
ghost use Rattle.ac_resumable.specs.Tested as rules;

use crate::tested::Tested;
use ac_tree::{Reads, When};
use deftable::is_cache_name;
use shellword::{Condition, Element, Joint, Part, Test};

/// Returns whether the name may be read: it is no cache name, or it was tested.
fn may_read(tested: &Tested, name: &[u8]) -> bool
    ensures { result ≡ decide.may_read tested.now name.now }
{
    !is_cache_name(name) || tested.has(name)
}

fn reads_part(tested: &Tested, part: &Part) -> bool
    ensures { result ≡ rules.reads_part tested.now part.now }
{
    match part {
        Part::Variable(name) => may_read(tested, name.as_slice()),
        Part::Plain(_) | Part::Quoted(_) => true,
    }
}

fn reads_parts(tested: &Tested, text: &[Part]) -> bool
    ensures { result ≡ list_all (rules.reads_part tested.now) text.now }
{
    text.iter().all(|part| reads_part(tested, part))
}

/// Returns whether each variable of a text may be read.
pub(crate) fn reads_text(tested: &Tested, text: &[Part]) -> bool
    ensures { result ≡ decide.reads_text tested.now text.now }
{
    reads_parts(tested, text)
}

/// Returns whether each variable of each text may be read.
pub(crate) fn reads_all(tested: &Tested, reads: Reads<'_>) -> bool
    ensures { result ≡ decide.reads_all tested.now (texts_read reads.entry) }
{
    match reads {
        Reads::Nothing => true,
        Reads::Variable(name) => may_read(tested, name.as_slice()),
        Reads::Text(text) => reads_text(tested, text),
        Reads::Texts(first, second) => reads_text(tested, first) && reads_text(tested, second),
    }
}

/// Returns whether each variable of a condition may be read.
fn reads_condition(tested: &Tested, condition: &Condition) -> bool
    ensures { result ≡ decide.reads_condition tested.now condition.now }
{
    match condition {
        Condition::True | Condition::False => true,
        Condition::Nonempty(word) | Condition::Empty(word) => reads_text(tested, word.parts()),
        Condition::Equal(left, right) | Condition::Different(left, right) => {
            reads_text(tested, left.parts()) && reads_text(tested, right.parts())
        }
    }
}

fn reads_elements(tested: &Tested, elements: &[(Joint, Element)]) -> bool
    ensures { result
        ≡ list_all (λ next. decide.reads_condition tested.now next.1.condition) elements.now }
{
    elements
        .iter()
        .all(|next| reads_condition(tested, &next.1.condition))
}

fn reads_first(tested: &Tested, first: &Element, rest: &[(Joint, Element)]) -> bool
    ensures { result
        ≡ decide.reads_condition tested.now first.now.condition
        && list_all (λ next. decide.reads_condition tested.now next.1.condition) rest.now }
{
    reads_condition(tested, &first.condition) && reads_elements(tested, rest)
}

/// Returns whether each variable of a shell test may be read.
fn reads_test(tested: &Tested, test: &Test) -> bool
    ensures { result ≡ decide.reads_test tested.now test.now }
{
    let (first, rest) = test.elements();
    reads_first(tested, first, rest)
}

/// Returns whether each variable that decides about a case may be read.
pub(crate) fn reads_when(tested: &Tested, when: &When) -> bool
    ensures { result ≡ decide.reads_when tested.now when.now }
{
    match when {
        When::Holds(test) => reads_test(tested, test),
        When::Matches(_) | When::Yes | When::No | When::Always => true,
    }
}
