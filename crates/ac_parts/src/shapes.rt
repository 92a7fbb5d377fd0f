//! The parts that may be within a part of each kind, in which order.

ghost use Rattle.std.specs.Prelude.{◌≡◌};
ghost use Rattle.ac_parts.specs.Shapes as specs;

use crate::kind::Kind;

/// After some parts within a part of the first kind, one of the second kind may follow. The numbers
/// say after which, and after which parts the next one then is; 0 is the start.
#[derive(Clone, Copy)]
pub struct Step(pub Kind, pub u8, pub Kind, pub u8);

/// A part of this kind may end after the parts that the number says.
#[derive(Clone, Copy)]
pub struct End(pub Kind, pub u8);

/// Which parts may follow. A list and a condition take the blanks, `;` and newlines at their edges. A
/// statement is followed by one of these before the next one. What isn't understood is last.
#[rattlefmt::skip]
pub const STEPS: [Step; 111] = [
    Step(Kind::Source, 0, Kind::List, 1),
    Step(Kind::List, 0, Kind::Blank, 0), Step(Kind::List, 0, Kind::Newline, 0), Step(Kind::List, 0, Kind::Comment, 0),
    Step(Kind::List, 0, Kind::Dropped, 0), Step(Kind::List, 0, Kind::Semicolon, 0), Step(Kind::List, 0, Kind::Background, 0),
    Step(Kind::List, 0, Kind::Statement, 1), Step(Kind::List, 0, Kind::Other, 2), Step(Kind::List, 1, Kind::Blank, 1),
    Step(Kind::List, 1, Kind::Comment, 1), Step(Kind::List, 1, Kind::Newline, 0), Step(Kind::List, 1, Kind::Dropped, 0),
    Step(Kind::List, 1, Kind::Semicolon, 0), Step(Kind::List, 1, Kind::Background, 0), Step(Kind::List, 1, Kind::Other, 2),
    Step(Kind::Condition, 0, Kind::Blank, 0), Step(Kind::Condition, 0, Kind::Newline, 0),
    Step(Kind::Condition, 0, Kind::Comment, 0), Step(Kind::Condition, 0, Kind::Dropped, 0),
    Step(Kind::Condition, 0, Kind::Semicolon, 0), Step(Kind::Condition, 0, Kind::Background, 0),
    Step(Kind::Condition, 0, Kind::Statement, 1), Step(Kind::Condition, 0, Kind::Other, 2),
    Step(Kind::Condition, 1, Kind::Blank, 1), Step(Kind::Condition, 1, Kind::Comment, 1),
    Step(Kind::Condition, 1, Kind::Newline, 0), Step(Kind::Condition, 1, Kind::Dropped, 0),
    Step(Kind::Condition, 1, Kind::Semicolon, 0), Step(Kind::Condition, 1, Kind::Background, 0),
    Step(Kind::Condition, 1, Kind::Other, 2),
    Step(Kind::Statement, 0, Kind::If, 1), Step(Kind::Statement, 0, Kind::Command, 1), Step(Kind::Statement, 1, Kind::Blank, 2),
    Step(Kind::Statement, 1, Kind::And, 3), Step(Kind::Statement, 1, Kind::Or, 3), Step(Kind::Statement, 1, Kind::Pipe, 3),
    Step(Kind::Statement, 2, Kind::And, 3), Step(Kind::Statement, 2, Kind::Or, 3), Step(Kind::Statement, 2, Kind::Pipe, 3),
    Step(Kind::Statement, 3, Kind::Blank, 3), Step(Kind::Statement, 3, Kind::Newline, 3),
    Step(Kind::Statement, 3, Kind::Comment, 3), Step(Kind::Statement, 3, Kind::Dropped, 3), Step(Kind::Statement, 3, Kind::If, 1),
    Step(Kind::Statement, 3, Kind::Command, 1),
    Step(Kind::If, 0, Kind::IfWord, 1), Step(Kind::If, 1, Kind::Condition, 2), Step(Kind::If, 2, Kind::Then, 3),
    Step(Kind::If, 3, Kind::List, 4), Step(Kind::If, 4, Kind::Elif, 1), Step(Kind::If, 4, Kind::Else, 5),
    Step(Kind::If, 4, Kind::Fi, 7), Step(Kind::If, 5, Kind::List, 6), Step(Kind::If, 6, Kind::Fi, 7),
    Step(Kind::Command, 0, Kind::Word, 1), Step(Kind::Command, 0, Kind::Call, 1), Step(Kind::Command, 0, Kind::Assignment, 1),
    Step(Kind::Command, 0, Kind::Redirect, 2), Step(Kind::Command, 1, Kind::Blank, 0), Step(Kind::Command, 1, Kind::Redirect, 2),
    Step(Kind::Command, 2, Kind::Blank, 2), Step(Kind::Command, 2, Kind::Word, 1),
    Step(Kind::Assignment, 0, Kind::Variable, 1), Step(Kind::Assignment, 1, Kind::Equals, 2),
    Step(Kind::Assignment, 2, Kind::Word, 3),
    Step(Kind::Word, 0, Kind::Plain, 1), Step(Kind::Word, 0, Kind::Single, 1), Step(Kind::Word, 0, Kind::Double, 1),
    Step(Kind::Word, 0, Kind::Dollar, 1), Step(Kind::Word, 0, Kind::Escape, 1), Step(Kind::Word, 0, Kind::Substitution, 1),
    Step(Kind::Word, 0, Kind::Default, 1), Step(Kind::Word, 0, Kind::Call, 1), Step(Kind::Word, 1, Kind::Plain, 1),
    Step(Kind::Word, 1, Kind::Single, 1), Step(Kind::Word, 1, Kind::Double, 1), Step(Kind::Word, 1, Kind::Dollar, 1),
    Step(Kind::Word, 1, Kind::Escape, 1), Step(Kind::Word, 1, Kind::Substitution, 1), Step(Kind::Word, 1, Kind::Default, 1),
    Step(Kind::Word, 1, Kind::Call, 1),
    Step(Kind::Default, 0, Kind::DefaultStart, 1), Step(Kind::Default, 1, Kind::Variable, 2),
    Step(Kind::Default, 2, Kind::DefaultSign, 3), Step(Kind::Default, 3, Kind::Constant, 4),
    Step(Kind::Default, 3, Kind::DefaultEnd, 5), Step(Kind::Default, 4, Kind::DefaultEnd, 5),
    Step(Kind::Call, 0, Kind::Name, 1), Step(Kind::Call, 1, Kind::Parenthesis, 2), Step(Kind::Call, 2, Kind::Gap, 3),
    Step(Kind::Call, 2, Kind::Argument, 4), Step(Kind::Call, 3, Kind::Argument, 4), Step(Kind::Call, 4, Kind::Comma, 2),
    Step(Kind::Call, 4, Kind::CallEnd, 5),
    Step(Kind::Argument, 0, Kind::Left, 1), Step(Kind::Argument, 0, Kind::List, 5), Step(Kind::Argument, 0, Kind::Words, 5),
    Step(Kind::Argument, 0, Kind::Text, 5), Step(Kind::Argument, 1, Kind::List, 3), Step(Kind::Argument, 1, Kind::Words, 3),
    Step(Kind::Argument, 1, Kind::Text, 3), Step(Kind::Argument, 1, Kind::Right, 4), Step(Kind::Argument, 3, Kind::Right, 4),
    Step(Kind::Argument, 4, Kind::Gap, 5),
    Step(Kind::Words, 0, Kind::Entry, 1), Step(Kind::Words, 0, Kind::Gap, 2), Step(Kind::Words, 1, Kind::Gap, 2),
    Step(Kind::Words, 2, Kind::Entry, 1),
    Step(Kind::Other, 0, Kind::Raw, 0), Step(Kind::Other, 0, Kind::Call, 0),
];

/// Where a part may end.
#[rattlefmt::skip]
pub const ENDS: [End; 21] = [
    End(Kind::Source, 1), End(Kind::List, 0), End(Kind::List, 1), End(Kind::List, 2), End(Kind::Condition, 0),
    End(Kind::Condition, 1), End(Kind::Statement, 1), End(Kind::If, 7), End(Kind::Command, 1), End(Kind::Assignment, 2),
    End(Kind::Assignment, 3), End(Kind::Word, 1), End(Kind::Default, 5), End(Kind::Call, 1), End(Kind::Call, 5),
    End(Kind::Argument, 0), End(Kind::Argument, 4), End(Kind::Argument, 5), End(Kind::Words, 1), End(Kind::Words, 2),
    End(Kind::Other, 0),
];

/// Returns whether a step is one from here with a part of this kind.
fn is_step(step: Step, of: Kind, from: u8, child: Kind) -> bool
    ensures { result ≡ specs.is_step step of from child }
{
    step.0.is(of) && step.1 == from && step.2.is(child)
}

/// Returns where the first of the steps from here with a part of this kind leads.
fn step_in(steps: &[Step], of: Kind, from: u8, child: Kind) -> Option<u8>
    ensures { result ≡ specs.step_in steps.now of from child }
{
    for step in steps {
        if is_step(*step, of, from, child) {
            return Some(step.3);
        }
    }
    None
}

/// Returns which parts may follow.
fn steps() -> &'static [Step]
    ensures { result.now ≡ STEPS }
{
    &STEPS
}

/// Returns where a part may end.
fn ends() -> &'static [End]
    ensures { result.now ≡ ENDS }
{
    &ENDS
}

/// Returns whether an end is one of this kind here.
fn is_end(end: End, of: Kind, at: u8) -> bool
    ensures { result ≡ specs.is_end end of at }
{
    end.0.is(of) && end.1 == at
}

/// Returns after which parts the next one is, if a part of this kind may follow.
#[tactic(auto, unfolding(crate::specs::Shapes::next_state))]
pub(crate) fn next_state(of: Kind, from: u8, child: Kind) -> Option<u8>
    ensures { result ≡ specs.next_state of from child }
{
    step_in(steps(), of, from, child)
}

/// Returns whether one of the ends is here.
fn is_end_in(ends: &[End], of: Kind, at: u8) -> bool
    ensures { result ≡ specs.is_end_in ends.now of at }
{
    for end in ends {
        if is_end(*end, of, at) {
            return true;
        }
    }
    false
}

/// Returns whether a part of this kind may end here.
#[tactic(auto, unfolding(crate::specs::Shapes::may_end))]
pub(crate) fn may_end(of: Kind, at: u8) -> bool
    ensures { result ≡ specs.may_end of at }
{
    is_end_in(ends(), of, at)
}
