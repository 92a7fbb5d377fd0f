//! The steps of a plan.

use crate::code::Code;
use ac_tree::{Effect, Sought, Subject, When};
use deftable::Bytes;
use shellword::HereText;
use std::marker::Model;

/// A step of a plan. It borrows from the tree, and a jump has the number of steps that it passes.
#[derive(Clone, Copy)]
pub enum Step<'a> {
    /// Has the effect of a statement. If it looks for the programs of a list, they are steps after
    /// it.
    Do(&'a Effect),
    /// Looks for a program of a list, always or only if the variable is still empty.
    Look {
        variable: &'a [u8],
        program: &'a Bytes,
        always: bool,
    },
    /// Gives a variable its default, if the variable is empty.
    Default {
        variable: &'a [u8],
        value: &'a HereText,
    },
    /// Begins a choice. Its subject is the subject until the next choice begins.
    Subject(&'a Subject),
    /// Begins a round of a choice about each entry of a list. The entry is tested, and the cases
    /// that follow are decided by whether it is found.
    Round {
        sought: Sought,
        entry: &'a Bytes,
        includes: &'a Option<HereText>,
    },
    /// Passes steps, unless the case is taken.
    SkipUnless {
        when: &'a When,
        steps: usize,
    },
    /// Passes steps.
    Skip {
        steps: usize,
    },
    /// Begins a check. If its name is set, passes steps: those of the commands, and its end.
    Open {
        message: &'a HereText,
        name: &'a [u8],
        steps: usize,
    },
    /// Ends the check of this name, which began last.
    Close {
        name: &'a [u8],
    },
}

/// The steps of a source, which borrow from its statements. Contracts see the list of their
/// effects: every jump goes forward and stays inside, every name that a step defines has the form
/// of one, a list whose entries are tested at once has at most 256, each step asks for at most
/// 65,536 jobs, and all together for at most 2^36.
pub struct Plan<'a> {
    steps: Vec<Step<'a>>,
}

impl Drop for Plan<'_> {
    fn drop(self) {
        let Plan { steps: _steps } = self;
    }
}

impl<'a> Model for Plan<'a> {
    ghost use Rattle.std.specs.Prelude.{List, map, ◌≤◌, ◌^◌};
    ghost use Rattle.std.specs.Coded.{codes};
    ghost use Rattle.ac_tree.specs.contracts.statement.Effect as effect;
    ghost use Rattle.ac_tree.specs.contracts.tree.Subject as subject;
    ghost use Rattle.ac_tree.specs.contracts.tree.When as when;
    ghost use Rattle.plan.specs.Walk.{Instruction, instruction_of};
    ghost use Rattle.plan.specs.Inside.{StaysInside, AreShort, AskFew, asks_after};
    ghost use Rattle.plan.specs.Names.{DefinesNames};

    ghost Value = { List Instruction };

    ghost coded = { Prim.hlevel (codes, effect.the_row.coded, subject.the_row.coded, when.the_row.coded) };

    ghost view = { λ p. map instruction_of p.steps.items };

    ghost invariant = { λ p. StaysInside (map instruction_of p.steps.items) × DefinesNames (map instruction_of p.steps.items) × AreShort (map instruction_of p.steps.items) × AskFew (map instruction_of p.steps.items) × (asks_after (map instruction_of p.steps.items) 0 ≤ 2 ^ 36) };
}

impl<'a> Plan<'a> {
    ghost use Rattle.std.specs.Prelude.{◌≡◌, ◌≤◌, ◌^◌, length, map};
    ghost use Rattle.plan.specs.Walk.{instruction_of};
    ghost use Rattle.plan.specs.Inside.{StaysInside, AreShort, AskFew, asks_after};
    ghost use Rattle.plan.specs.Names.{DefinesNames};

    /// Makes a plan from the steps.
    pub(crate) fn new(code: Code<'a>) -> Plan<'a>
        requires inside { StaysInside code }
        requires within { length code ≤ 2 ^ 20 }
        requires each { AskFew code }
        ensures { result ≡ code.entry }
    {
        Plan {
            steps: code.into_steps(),
        }
    }

    /// Returns the steps, from the first on.
    pub fn steps(&self) -> &[Step<'a>]
        ensures steps { map instruction_of result.now ≡ self.now }
        ensures inside { StaysInside self.now }
        ensures names { DefinesNames self.now }
        ensures asks { asks_after self.now 0 ≤ 2 ^ 36 }
        ensures short { AreShort self.now }
        ensures each { AskFew self.now }
    {
        self.steps.as_slice()
    }
}
